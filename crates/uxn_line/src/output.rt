//! Which byte the coming instruction hands on to the next machine.
ghost use Rattle.std.specs.Prelude.{◌≡◌, option_to_list};
ghost use Rattle.uxn_opcodes.specs.declared.operation.Width.TheVariants.{Byte, Short};
ghost use Rattle.uxn_opcodes.specs.Instruction.{writes_of};
ghost use Rattle.uxn_opcodes.specs.Words.{word_below};
ghost use Rattle.uxn_opcodes.specs.Rule.{begun_by, past_opcode};
ghost use Rattle.uxn_opcodes.specs.Instruction.{writes_in};
ghost use Rattle.uxn_line.specs.Machines.{handed_in, handed_on};

use uxn_limits::ports::CONSOLE_WRITE;
use uxn_opcodes::{Core, Mode, Op, Width};
use uxn_stacks::Ring;

/// The port before that of the standard output: a short that is written there ends in the latter.
const BEFORE_OUT: u8 = CONSOLE_WRITE - 1;

/// The byte that the coming instruction writes to port 18, if it does.
#[tactic(auto, unfolding(crate::specs::Machines::handed_on, uxn_opcodes::specs::Rule::begun))]
pub fn next_byte(core: &Core) -> Option<u8>
    ensures { option_to_list result ≡ handed_on core.now }
{
    let code = core.memory.get(core.at);
    if code == 0 {
        return None;
    }
    handed_by(Op::of(code), core, code)
}

/// The same by its operation.
#[tactic(auto, unfolding(uxn_opcodes::specs::Rule::op_effect_of))]
fn handed_by(op: Option<Op>, core: &Core, code: u8) -> Option<u8>
    ensures { option_to_list result ≡ handed_in (writes_in (begun_by op code (past_opcode core.now)).access) }
{
    match op {
        Some(Op::Deo) => {
            let mode = Mode::of(code);
            let ring = if mode.returns {
                &core.returns
            } else {
                &core.working
            };
            written(ring, mode.width)
        }
        _ => None,
    }
}

/// What an instruction that writes a port writes to port 18.
#[tactic(auto, unfolding(uxn_opcodes::specs::Words::word_below))]
fn written(ring: &Ring, width: Width) -> Option<u8>
    ensures { option_to_list result ≡ handed_in (writes_of width (word_below ring.now Byte 0) (word_below ring.now width 1)) }
{
    let port = ring.peek1(0);
    match width {
        Width::Byte => of_byte(port, ring.peek1(1)),
        Width::Short => of_short(port, ring.peek2(1)),
    }
}

/// What a byte written to a port puts into port 18.
fn of_byte(port: u8, value: u8) -> Option<u8>
    ensures { option_to_list result ≡ handed_in (writes_of Byte port value) }
{
    if port == CONSOLE_WRITE {
        Some(value)
    } else {
        None
    }
}

/// What a short written to a port and the next one puts into port 18.
fn of_short(port: u8, value: u16) -> Option<u8>
    ensures { option_to_list result ≡ handed_in (writes_of Short port value) }
{
    match port {
        BEFORE_OUT => Some((value % 256) as u8),
        CONSOLE_WRITE => Some((value / 256) as u8),
        _ => None,
    }
}
