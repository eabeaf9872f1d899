//! Machines of a line, turn by turn: what each turn comes to, and which byte the coming instruction hands on.
ghost use Rattle.std.specs.Prelude.{◌≡◌, ◌≤◌, true, length};
ghost use Rattle.std.specs.List.{All};
ghost use Rattle.uxn_memory.specs.Bytes.{largest_rom};

use play_script::{Event, read_script};
use std::alloc::{AllocError, Global};
use std::test::Fail;
use uxn_io::{Bytes, MemSink};
use uxn_line::{Line, Machine, Moved, are_of_console, next_byte};
use vector_loop::PendingInput;

/// `;in #10 DEO2 BRK @in #12 DEI #01 ADD #18 DEO BRK`
const ONE_MORE: &[u8] = &[
    0xa0, 0x01, 0x07, 0x80, 0x10, 0x37, 0x00, 0x80, 0x12, 0x16, 0x80, 0x01, 0x18, 0x80, 0x18, 0x17,
    0x00,
];

/// `#83 #0f DEO BRK`
const ENDS: &[u8] = &[0x80, 0x83, 0x80, 0x0f, 0x17, 0x00];

/// The second machine, the turns before the end with what each comes to, what is put, and the exit code.
type Order = (&'static [u8], &'static [(u8, Moved)], &'static [u8], u8);

static ORDERS: [Order; 4] = [
    (ONE_MORE, &[], &[0x63, 0x64, 0x65, 0x01], 0),
    (
        ONE_MORE,
        &[
            (2, Moved::Ran),
            (2, Moved::Ran),
            (2, Moved::Ran),
            (2, Moved::Ran),
            (2, Moved::Waits),
            (1, Moved::Ran),
            (1, Moved::Ran),
            (1, Moved::Ran),
            (1, Moved::Ran),
            (1, Moved::Gave),
            (1, Moved::Ran),
            (2, Moved::Waits),
        ],
        &[0x63, 0x64, 0x65, 0x01],
        0,
    ),
    (ENDS, &[], &[], 3),
    (
        ENDS,
        &[
            (2, Moved::Ran),
            (2, Moved::Ran),
            (2, Moved::Ran),
            (2, Moved::Ran),
            (2, Moved::Ended),
            (1, Moved::Ran),
        ],
        &[],
        3,
    ),
];

/// Both ROMs.
fn roms(alloc: Global, second: &[u8]) -> Result<Vec<Bytes>, AllocError> {
    let mut roms = Vec::new(alloc);
    roms.push(Bytes::new(alloc, ONE_MORE)?)?;
    roms.push(Bytes::new(alloc, second)?)?;
    Ok(roms)
}

/// Whether each ROM is small enough.
fn are_small(roms: &[Bytes]) -> bool
    ensures { result ≡ true → All (λ rom. length rom.list ≤ largest_rom) roms.now }
{
    roms.iter().all(|rom| rom.as_slice().len() <= 65_280)
}

/// Gives turns, each of which comes to what is wanted.
fn turns_come_to(line: &mut Line, turns: &[(u8, Moved)], out: &mut MemSink) -> bool {
    for (machine, want) in turns {
        let number = *machine;
        if number == 0
            || usize::from(number) > line.machines()
            || line.turn(number, out) != Ok(*want)
        {
            return false;
        }
    }
    true
}

/// Whether a line with `input "abc` gives what is wanted.
fn gives(alloc: Global, order: &Order) -> Result<bool, Fail> {
    let (second, turns, want, code) = *order;
    let script = read_script(alloc, b"input \"abc")?;
    let roms = roms(alloc, second)?;
    if roms.len() != 2 || !are_small(roms.as_slice()) || !are_of_console(script.events()) {
        return Ok(false);
    }
    let mut line = Line::new(alloc, roms.as_slice(), &script, 100)?;
    let mut out = MemSink::new(alloc, 100, &[])?;
    Ok(
        turns_come_to(&mut line, turns, &mut out)
            && line.finish(&mut out) == Ok(code)
            && out.bytes() == want,
    )
}

#[test]
fn every_turn_comes_to_what_is_due(rt: HostRuntime) -> Result<(), Fail> {
    for order in &ORDERS {
        assert!(rt; gives(rt.alloc(), order)?);
    }
    Ok(())
}

/// A new machine.
fn machine(alloc: Global, rom: &[u8]) -> Result<Machine, Fail>
    requires { length rom.now ≤ largest_rom }
{
    let script = read_script(alloc, b"")?;
    script.known();
    Ok(Machine::new(alloc, rom, script.args(), script.clock(), 100)?)
}

/// Runs a machine until it is idle, or has run so many instructions: how many it ran.
fn run_on(machine: &mut Machine, most: u32) -> u32 {
    let mut count = 0;
    for _ in 0..most {
        if machine.left > 0 && count < most {
            machine.run();
            count += 1;
        }
    }
    count
}

/// Whether a new machine of `ONE_MORE` stops at the end of its first vector, and of that of a byte that it is given.
fn stops_between(machine: &mut Machine) -> bool {
    if run_on(machine, 200) != 4 || machine.left != 0 {
        return false;
    }
    machine.give(PendingInput::OfEvent(Event::Input(b'a')), 100);
    machine.left == 100 && machine.core.at == 0x0107 && run_on(machine, 200) == 7
}

#[test]
fn a_machine_stops_between_instructions(rt: HostRuntime) -> Result<(), Fail> {
    let mut machine = machine(rt.alloc(), ONE_MORE)?;
    assert!(rt; stops_between(&mut machine));
    Ok(())
}

/// A port, an instruction, and the byte that it hands on over `41` `42` and the port on the working stack.
type Handed = (u8, u8, Option<u8>);

static HANDED: [Handed; 8] = [
    (0x18, 0x17, Some(0x42)),
    (0x18, 0x97, Some(0x42)),
    (0x18, 0x37, Some(0x41)),
    (0x17, 0x37, Some(0x42)),
    (0x17, 0x17, None),
    (0x19, 0x37, None),
    (0x18, 0x16, None),
    (0x18, 0x57, None),
];

/// Whether an instruction hands on what it is to.
fn hands_on(alloc: Global, handed: &Handed) -> Result<bool, Fail> {
    let (port, code, want) = *handed;
    let mut machine = machine(alloc, &[0x80, 0x41, 0x80, 0x42, 0x80, port, code])?;
    run_on(&mut machine, 3);
    Ok(next_byte(&machine.core) == want)
}

#[test]
fn bytes_and_shorts_are_handed_on_by_port_18(rt: HostRuntime) -> Result<(), Fail> {
    for handed in &HANDED {
        assert!(rt; hands_on(rt.alloc(), handed)?);
    }
    Ok(())
}
