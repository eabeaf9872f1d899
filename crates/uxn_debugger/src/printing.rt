//! What commands print.

ghost use Rattle.std.specs.Prelude.{◌≡◌, ◌≤◌, ◌++◌, ℕ, List, length, if◌then◌else◌, ◌==◌, ◌||◌, ◌%◌, ◌+◌, [], OnOk};
ghost use Rattle.vector_loop.specs.Watch.{Page, IsPage};
ghost use Rattle.tal_symbols.specs.Lookups.{nearest_label};
ghost use Rattle.system_port.specs.DebugText.{spaced};
ghost use Rattle.uxn_debugger.specs.Printing.{
  address_line,
  held_line,
  in_lines,
  label_text,
  memory_table,
  newline,
  place_line,
  place_observed,
  port_table,
  printed,
};
ghost use Rattle.uxn_debugger.specs.Scenes.{view_in};
ghost use Rattle.uxn_debugger.specs.Watching.{held_in};
ghost use Rattle.uxn_debugger.specs.declared.place.Place.TheVariants.{Before};

use crate::command::DebugCommand;
use crate::place::Place;
use crate::scene::Scene;
use std::alloc::AllocError;
use system_port::debug_text;
use tal_symbols::LabelTable;
use tal_words::op_name;
use uxn_io_traits::{append_pieces, decimal, hex_byte, hex_short};
use uxn_opcodes::Ports;
use vector_loop::Moment;

/// How many bytes a line shows.
const ROW: u16 = 16;

/// How many ports there are.
const PORTS: u16 = 256;

// Prints what a command prints. Before it one could have gone so many moments back.
pub(crate) fn put_printed<P: Ports>(
    log: &mut Vec<u8>,
    scene: &Scene<'_>,
    ports: &P,
    reach: u32,
    command: DebugCommand,
) -> Result<(), AllocError>
    requires { scene.now.back ≤ length (held_in scene.now.undo.now) }
    ensures { OnOk result ((page : Page) → IsPage (P.rules.reads ports.now scene.now.core.now) (P.stored ports.now) page
        → log.new.items ≡ log.old.items ++ printed scene.now.labels.now reach (view_in scene.now page.read) command) }
{
    match command {
        DebugCommand::Break(address) => put_address_line(log, b"break", address),
        DebugCommand::Delete(address) => put_address_line(log, b"delete", address),
        DebugCommand::Back(count) if count > reach => put_held(log, reach),
        DebugCommand::Run | DebugCommand::Step(_) | DebugCommand::Back(_) | DebugCommand::Here => {
            put_place(log, scene)
        }
        DebugCommand::Stacks => {
            let text = debug_text(&scene.working(), &scene.returns());
            log.extend_from_slice(text.as_slice())
        }
        DebugCommand::Mem(address, count) => put_memory(log, scene, address, count),
        DebugCommand::PortPage => put_ports(log, scene, ports),
    }
}

// Prints a word and an address.
fn put_address_line(log: &mut Vec<u8>, word: &[u8], address: u16) -> Result<(), AllocError>
    ensures { OnOk result (log.new.items ≡ log.old.items ++ address_line word.now address) }
{
    append_pieces(log, &[word, b" ", &hex_short(address), b"\n"])
}

// Prints how many moments back one could have gone.
fn put_held(log: &mut Vec<u8>, reach: u32) -> Result<(), AllocError>
    ensures { OnOk result (log.new.items ≡ log.old.items ++ held_line reach) }
{
    append_pieces(
        log,
        &[b"held ", decimal(u64::from(reach)).as_slice(), b"\n"],
    )
}

// Prints the place line.
pub(crate) fn put_place(log: &mut Vec<u8>, scene: &Scene<'_>) -> Result<(), AllocError>
    requires { scene.now.back ≤ length (held_in scene.now.undo.now) }
    ensures { OnOk result ((page : List ℕ)
        → log.new.items ≡ log.old.items ++ place_observed scene.now.labels.now (view_in scene.now page)) }
{
    let place = scene.place();
    let opcode = scene.byte(place.moment().address);
    put_place_line(log, scene.labels, opcode, place)
}

// Prints the place line of a place, with the opcode there.
#[tactic(auto, unfolding(crate::specs::Printing::place_line))]
fn put_place_line(
    log: &mut Vec<u8>,
    labels: &LabelTable<'_>,
    opcode: u8,
    place: Place,
) -> Result<(), AllocError>
    ensures { OnOk result (log.new.items ≡ log.old.items ++ place_line labels.now opcode place) }
{
    match place {
        Place::Before(moment) => put_moment(log, labels, opcode, moment),
        Place::End(last) => append_pieces(
            log,
            &[b"end ", decimal(last.instructions).as_slice(), b"\n"],
        ),
    }
}

// Prints the place line of a moment before an instruction, with its opcode.
#[tactic(auto, unfolding(crate::specs::Printing::place_line))]
fn put_moment(
    log: &mut Vec<u8>,
    labels: &LabelTable<'_>,
    opcode: u8,
    moment: Moment,
) -> Result<(), AllocError>
    ensures { OnOk result (log.new.items ≡ log.old.items ++ place_line labels.now opcode (Before moment)) }
{
    append_pieces(
        log,
        &[
            b"at ",
            &hex_short(moment.address),
            b" ",
            decimal(moment.instructions).as_slice(),
            b" ",
            op_name(opcode).as_slice(),
        ],
    )?;
    put_label(log, labels, moment.address)?;
    log.extend_from_slice(b"\n")
}

// Prints the nearest label that is not above an address, if there is one, and how far the address is from it.
fn put_label(log: &mut Vec<u8>, labels: &LabelTable<'_>, address: u16) -> Result<(), AllocError>
    ensures { OnOk result (log.new.items ≡ log.old.items ++ label_text (nearest_label labels.now address) address) }
{
    let Some(label) = labels.nearest(address) else {
        return Ok(());
    };
    append_pieces(
        log,
        &[
            b" ",
            label.name.bytes(),
            b"+",
            &hex_short(address - label.address),
        ],
    )
}

// Prints so many bytes of memory from an address on.
#[tactic(auto, unfolding(crate::specs::Printing::table))]
fn put_memory(
    log: &mut Vec<u8>,
    scene: &Scene<'_>,
    address: u16,
    count: u16,
) -> Result<(), AllocError>
    requires { scene.now.back ≤ length (held_in scene.now.undo.now) }
    ensures { OnOk result ((page : List ℕ)
        → log.new.items ≡ log.old.items ++ memory_table (view_in scene.now page).byte address count) }
{
    for at in 0..count {
        let here = address.wrapping_add(at);
        put_cell(log, at, count, &hex_short(here), scene.byte(here))?;
    }
    Ok(())
}

// Prints the bytes of the 256 ports.
#[tactic(auto, unfolding(crate::specs::Printing::table))]
fn put_ports<P: Ports>(log: &mut Vec<u8>, scene: &Scene<'_>, ports: &P) -> Result<(), AllocError>
    requires { scene.now.back ≤ length (held_in scene.now.undo.now) }
    ensures { OnOk result ((page : Page) → IsPage (P.rules.reads ports.now scene.now.core.now) (P.stored ports.now) page
        → log.new.items ≡ log.old.items ++ port_table (view_in scene.now page.read).page) }
{
    for at in 0..PORTS {
        let port = at as u8;
        put_cell(log, at, PORTS, &hex_byte(port), scene.port(ports, port))?;
    }
    Ok(())
}

// Prints a byte of a table of so many, with the name of its line where it is the first of one.
fn put_cell(log: &mut Vec<u8>, at: u16, count: u16, name: &[u8], byte: u8) -> Result<(), AllocError>
    ensures { OnOk result (log.new.items ≡ log.old.items ++ in_lines (λ here. name.now) (λ here. byte) count at) }
{
    put_line_start(log, at, name)?;
    put_byte(log, byte)?;
    put_line_end(log, at, count)
}

// Begins a line with its name before its first byte.
fn put_line_start(log: &mut Vec<u8>, at: u16, name: &[u8]) -> Result<(), AllocError>
    ensures { OnOk result (log.new.items ≡ log.old.items ++ (if at % 16 == 0 then name.now else [])) }
{
    if at % ROW == 0 {
        return log.extend_from_slice(name);
    }
    Ok(())
}

// Prints a space and the digits of a byte.
fn put_byte(log: &mut Vec<u8>, byte: u8) -> Result<(), AllocError>
    ensures { OnOk result (log.new.items ≡ log.old.items ++ spaced byte) }
{
    append_pieces(log, &[b" ", &hex_byte(byte)])
}

// Ends a line behind its last byte.
fn put_line_end(log: &mut Vec<u8>, at: u16, count: u16) -> Result<(), AllocError>
    ensures { OnOk result (log.new.items ≡ log.old.items
        ++ (if at % 16 == 15 || at + 1 == count then newline else [])) }
{
    if at % ROW == ROW - 1 || u32::from(at) + 1 == u32::from(count) {
        return log.extend_from_slice(b"\n");
    }
    Ok(())
}
