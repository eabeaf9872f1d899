//! The instructions of the machine, over any ports.
#![tactic(auto)]

ghost use Rattle.std.specs.Prelude.{◌≡◌, ◌≢◌, ◌↔◌, ℕ, ◌+◌, ◌≤◌, ◌%◌, ◌*◌, ◌/◌, length, slice_index, Result, IfOk, OnOk, IfErr};
ghost use Rattle.uxn_memory.specs.Bytes.{largest_rom, short_at};
ghost use Rattle.uxn_opcodes.specs.Words.{pushed};
ghost use Rattle.uxn_opcodes.specs.Rule.{
  new_core,
  opcode_at,
  past_opcode,
  immediate,
  begun,
  begun_as,
  begun_with,
  row_begun,
  jumped,
  jumped_if,
  called,
  literal,
  registers_of,
  with_registers,
};
ghost use Rattle.uxn_opcodes.specs.Table.{op_of, mode_of};
ghost use Rattle.uxn_io_traits.specs.Faults.{Ledger};
ghost use Rattle.uxn_opcodes.specs.Ports.{result_blame};
ghost use Rattle.uxn_opcodes.specs.Instruction.{
  ReadsWord,
  Written,
  WriteStops,
  writes_of,
  port_answered as pushed_as,
  writes_in,
  FinishesAccess,
  Instruction,
};

mod operation;
mod rows;
mod words;

pub use crate::operation::{Mode, Op, StoreOp, Width};
use crate::rows::{Access, OpInMode, perform};
use crate::words::{load, push, size};
use std::alloc::{AllocError, Global};
use uxn_memory::Memory;
use uxn_stacks::Ring;

/// The machine without its ports.
#[derive(Drop)]
pub struct Core {
    /// The working stack. It comes first: the address of the machine is then that of its bytes too, and the loop of
    /// instructions has a register more.
    pub working: Ring,
    /// The return stack.
    pub returns: Ring,
    /// The bytes of all banks of memory.
    pub memory: Memory,
    /// The address of the next instruction.
    pub at: u16,
}

/// What a loop of instructions keeps in variables of its own: the address of the next instruction and the pointers of both
/// stacks. A loop that keeps them so waits for no store of them.
#[derive(Clone, Copy)]
pub struct Registers {
    /// The pointer of the working stack.
    pub working: u8,
    /// The address of the next instruction. It lies between the pointers: four bytes that are copied as one integer would be
    /// kept so, and taken apart by shifts at each use.
    pub at: u16,
    /// The pointer of the return stack.
    pub returns: u8,
}

/// Why a write to a port stopped.
#[derive(Clone, Copy, PartialEq, Eq)]
pub enum Stop {
    /// The tree of files counted a fault.
    TreeFault,
    /// The standard output or the error output counted a fault.
    SinkFault,
    /// Memory was wanted.
    NoMemory,
}

/// What an instruction was.
#[derive(Clone, Copy, PartialEq, Eq)]
pub enum Turn {
    /// It ran, and the vector goes on.
    Ran,
    /// It was BRK, which ends the vector.
    Broke,
}

/// The ports of the machine: what is read at them, and what writing them does.
pub trait Ports {
    ghost use Rattle.std.specs.Prelude.{◌≡◌, ℕ, List, OnOk, IfErr};
    ghost use Rattle.uxn_io_traits.specs.Faults.{Counts, Ledger};
    ghost use Rattle.uxn_opcodes.specs.declared.Core.{Core};
    ghost use Rattle.uxn_opcodes.specs.declared.Stop.{Stop};
    ghost use Rattle.uxn_opcodes.specs.Ports.{Rules, result_blame};

    /// What is read, what a write does, and what a write that stops leaves.
    ghost rules: { Rules Self };

    /// How many faults were counted of the tree, of the standard output and of the error output.
    ghost faults: { Self → Counts };

    /// The bytes last stored at the 256 ports.
    ghost stored: { Self → List ℕ };

    /// Reads a port.
    fn dei(&self, core: &Core, port: u8) -> u8
        ensures { rules.reads self.now core.now port result };

    /// Writes a port. A fault is answered only where the count of the object to blame rose in this call; no other
    /// count changes. Running out of memory may come at any write.
    fn deo(&mut self, core: &mut Core, port: u8, value: u8) -> Result<(), Stop>
        ensures ok { OnOk result (rules.wrote self.old core.old port value self.new core.new) }
        ensures err { IfErr result (λ stop. rules.stopped self.old core.old port value stop self.new core.new) }
        ensures ledger { Ledger (faults self.old) (faults self.new) (result_blame result) };

    /// The bytes last stored, whatever the ports read. No instruction requests them.
    fn stored_page(&self) -> &[u8; 256]
        ensures { result.now ≡ stored self.now };
}

impl Core {
    /// The machine at the start: a program of at most 1,048,320 bytes from `0100` of bank 0 on, across the banks; all else 0.
    #[tactic(auto, unfolding(crate::specs::Rule::new_core))]
    pub fn new(alloc: Global, rom: &[u8]) -> Result<Core, AllocError>
        requires { length rom.now ≤ largest_rom }
        ensures { IfOk result (λ core. core ≡ new_core rom.now) }
    {
        let mut memory = Memory::new(alloc)?;
        memory.load(rom);
        Ok(Core {
            memory,
            working: Ring::new(),
            returns: Ring::new(),
            at: uxn_memory::START,
        })
    }

    /// Its registers.
    #[inline(always)]
    pub fn registers(&self) -> Registers
        ensures { result ≡ registers_of self.now }
    {
        Registers {
            at: self.at,
            working: self.working.pointer(),
            returns: self.returns.pointer(),
        }
    }

    /// Takes registers.
    #[inline(always)]
    pub fn set_registers(&mut self, registers: Registers)
        ensures { self.new ≡ with_registers self.old registers }
    {
        self.at = registers.at;
        self.working.set_pointer(registers.working);
        self.returns.set_pointer(registers.returns);
    }
}

/// The instruction byte at an address.
#[inline(always)]
fn opcode(core: &Core, at: u16) -> u8
    ensures { result ≡ slice_index core.now.memory at }
{
    core.memory.get(at)
}

/// JMI: goes on from the address after the immediate by the immediate.
#[inline(always)]
fn jump_on(core: &Core, at: &mut u16)
    ensures { at.new ≡ (at.old + 2 + short_at 65536 core.now.memory at.old) % 65536 }
{
    let distance = core.memory.get2(*at);
    *at = at.wrapping_add(2).wrapping_add(distance);
}

/// JCI: takes a byte of the working stack, and jumps where it is not 0.
#[inline(always)]
fn jump_on_if(core: &Core, registers: &mut Registers)
    ensures { with_registers core.now registers.new ≡ jumped_if (with_registers core.now registers.old) }
{
    let test = core.working.peek1_at(registers.working, 0);
    registers.working = registers.working.wrapping_sub(1);
    if test == 0 {
        registers.at = registers.at.wrapping_add(2);
    } else {
        jump_on(core, &mut registers.at);
    }
}

/// JSI: pushes the address after the immediate on the return stack, and jumps.
#[inline(always)]
fn call(core: &mut Core, registers: &mut Registers)
    ensures { with_registers core.new registers.new ≡ called (with_registers core.old registers.old) }
{
    push(
        &mut core.returns,
        &mut registers.returns,
        Width::Short,
        u32::from(registers.at.wrapping_add(2)),
    );
    jump_on(core, &mut registers.at);
}

/// LIT: pushes the word that follows, and goes on after it.
#[inline(always)]
fn push_literal(core: &mut Core, registers: &mut Registers, mode: Mode)
    ensures { with_registers core.new registers.new ≡ literal mode (with_registers core.old registers.old) }
{
    let value = u32::from(load(&core.memory, mode.width, registers.at));
    push_as(core, registers, mode, value);
    registers.at = registers.at.wrapping_add(u16::from(size(mode.width)));
}

/// Pushes a word on the stack of a mode.
#[inline(always)]
fn push_as(core: &mut Core, registers: &mut Registers, mode: Mode, value: u32)
    ensures { with_registers core.new registers.new ≡ pushed_as mode (with_registers core.old registers.old) value }
{
    if mode.returns {
        push(&mut core.returns, &mut registers.returns, mode.width, value);
    } else {
        push(&mut core.working, &mut registers.working, mode.width, value);
    }
}

/// Runs an instruction whose low five bits are 0.
#[inline(always)]
fn run_immediate(core: &mut Core, registers: &mut Registers, code: u8)
    ensures { with_registers core.new registers.new ≡ immediate code (with_registers core.old registers.old) }
{
    match code {
        0x00 => {}
        0x20 => jump_on_if(core, registers),
        0x40 => jump_on(core, &mut registers.at),
        0x60 => call(core, registers),
        _ => push_literal(core, registers, Mode::of(code)),
    }
}

/// Reads a word at a port: a byte, or the high byte there and the low byte at the next port.
#[inline(always)]
fn read_word<P: Ports>(core: &Core, ports: &P, port: u8, width: Width) -> u16
    ensures { ReadsWord P.rules width ports.now core.now port result }
{
    match width {
        Width::Byte => u16::from(ports.dei(core, port)),
        Width::Short => {
            let high = ports.dei(core, port);
            let low = ports.dei(core, port.wrapping_add(1));
            u16::from(high) * 256 + u16::from(low)
        }
    }
}

/// Writes a word to a port, the high byte first; a stop ends it.
#[inline(always)]
fn write_word<P: Ports>(
    core: &mut Core,
    ports: &mut P,
    port: u8,
    width: Width,
    value: u16,
) -> Result<(), Stop>
    ensures ok { OnOk result (Written P.rules (writes_of width port value) ports.old core.old ports.new core.new) }
    ensures err { IfErr result (λ stop. WriteStops P.rules (writes_of width port value)
        ports.old core.old stop ports.new core.new) }
    ensures ledger { Ledger (P.faults ports.old) (P.faults ports.new) (result_blame result) }
{
    match width {
        Width::Byte => ports.deo(core, port, (value % 256) as u8),
        Width::Short => {
            let (high, low) = ((value / 256) as u8, (value % 256) as u8);
            ports.deo(core, port, high)?;
            ports.deo(core, port.wrapping_add(1), low)
        }
    }
}

/// Does the port access of an instruction. The ports see the registers in `core`, and a write may change them.
#[inline(always)]
#[tactic(auto, unfolding(crate::specs::Instruction::FinishesAccess))]
fn finish<P: Ports>(
    core: &mut Core,
    registers: &mut Registers,
    ports: &mut P,
    access: Access,
) -> Result<(), Stop>
    ensures ok { OnOk result (FinishesAccess P.rules access (with_registers core.old registers.old) ports.old
        (with_registers core.new registers.new) ports.new) }
    ensures err { IfErr result (λ stop. WriteStops P.rules (writes_in access)
        ports.old (with_registers core.old registers.old) stop ports.new (with_registers core.new registers.new)) }
    ensures ledger { Ledger (P.faults ports.old) (P.faults ports.new) (result_blame result) }
{
    match access {
        Access::Nothing => Ok(()),
        Access::Read(port, mode) => {
            core.set_registers(*registers);
            let value = read_word(core, ports, port, mode.width);
            push_as(core, registers, mode, u32::from(value));
            Ok(())
        }
        Access::Write(port, width, value) => {
            core.set_registers(*registers);
            let done = write_word(core, ports, port, width, value);
            *registers = core.registers();
            done
        }
    }
}

/// Runs the instruction of a code that is a constant, and so are its operation and its mode: all but its port access,
/// which is told, and the registers then.
fn run<const CODE: u8>(core: &mut Core, registers: Registers) -> (Access, Registers)
    ensures { begun_as (with_registers core.new result.1) result.0 ≡ begun_with CODE (with_registers core.old registers) }
{
    let mode = Mode::of(CODE);
    let mut next = registers;
    next.at = registers.at.wrapping_add(1);
    let access = match Op::of(CODE) {
        None => {
            run_immediate(core, &mut next, CODE);
            Access::Nothing
        }
        Some(op) => {
            let row = OpInMode { op, mode };
            let memory = &mut core.memory;
            let at = &mut next.at;
            if mode.returns {
                perform(
                    row,
                    memory,
                    at,
                    &mut core.returns,
                    &mut next.returns,
                    &mut core.working,
                    &mut next.working,
                )
            } else {
                perform(
                    row,
                    memory,
                    at,
                    &mut core.working,
                    &mut next.working,
                    &mut core.returns,
                    &mut next.returns,
                )
            }
        }
    };
    (access, next)
}

/// Runs the instruction of a code: each byte has an arm of its own.
macro_rules! run_code {
    ($code:expr, $core:expr, $registers:expr, $($byte:literal)*) => {
        match $code {
            $($byte => run::<$byte>($core, $registers),)*
            _ => run::<0xff>($core, $registers),
        }
    };
}

/// Runs the instruction of a code, all but its port access, which is told, and the registers then. No ports stand here, and
/// the registers are no reference: the proof of so many arms is long, and the longer the more is borrowed in each.
#[inline(always)]
fn run_any(core: &mut Core, registers: Registers, code: u8) -> (Access, Registers)
    ensures { begun_as (with_registers core.new result.1) result.0 ≡ begun_with code (with_registers core.old registers) }
{
    run_code!(code, core, registers,
        0x00 0x01 0x02 0x03 0x04 0x05 0x06 0x07 0x08 0x09 0x0a 0x0b 0x0c 0x0d 0x0e 0x0f
        0x10 0x11 0x12 0x13 0x14 0x15 0x16 0x17 0x18 0x19 0x1a 0x1b 0x1c 0x1d 0x1e 0x1f
        0x20 0x21 0x22 0x23 0x24 0x25 0x26 0x27 0x28 0x29 0x2a 0x2b 0x2c 0x2d 0x2e 0x2f
        0x30 0x31 0x32 0x33 0x34 0x35 0x36 0x37 0x38 0x39 0x3a 0x3b 0x3c 0x3d 0x3e 0x3f
        0x40 0x41 0x42 0x43 0x44 0x45 0x46 0x47 0x48 0x49 0x4a 0x4b 0x4c 0x4d 0x4e 0x4f
        0x50 0x51 0x52 0x53 0x54 0x55 0x56 0x57 0x58 0x59 0x5a 0x5b 0x5c 0x5d 0x5e 0x5f
        0x60 0x61 0x62 0x63 0x64 0x65 0x66 0x67 0x68 0x69 0x6a 0x6b 0x6c 0x6d 0x6e 0x6f
        0x70 0x71 0x72 0x73 0x74 0x75 0x76 0x77 0x78 0x79 0x7a 0x7b 0x7c 0x7d 0x7e 0x7f
        0x80 0x81 0x82 0x83 0x84 0x85 0x86 0x87 0x88 0x89 0x8a 0x8b 0x8c 0x8d 0x8e 0x8f
        0x90 0x91 0x92 0x93 0x94 0x95 0x96 0x97 0x98 0x99 0x9a 0x9b 0x9c 0x9d 0x9e 0x9f
        0xa0 0xa1 0xa2 0xa3 0xa4 0xa5 0xa6 0xa7 0xa8 0xa9 0xaa 0xab 0xac 0xad 0xae 0xaf
        0xb0 0xb1 0xb2 0xb3 0xb4 0xb5 0xb6 0xb7 0xb8 0xb9 0xba 0xbb 0xbc 0xbd 0xbe 0xbf
        0xc0 0xc1 0xc2 0xc3 0xc4 0xc5 0xc6 0xc7 0xc8 0xc9 0xca 0xcb 0xcc 0xcd 0xce 0xcf
        0xd0 0xd1 0xd2 0xd3 0xd4 0xd5 0xd6 0xd7 0xd8 0xd9 0xda 0xdb 0xdc 0xdd 0xde 0xdf
        0xe0 0xe1 0xe2 0xe3 0xe4 0xe5 0xe6 0xe7 0xe8 0xe9 0xea 0xeb 0xec 0xed 0xee 0xef
        0xf0 0xf1 0xf2 0xf3 0xf4 0xf5 0xf6 0xf7 0xf8 0xf9 0xfa 0xfb 0xfc 0xfd 0xfe
    )
}

/// Runs the instruction at `registers.at`: what `step` does with the registers that `core` keeps. A loop that keeps them in
/// variables of its own waits for no store of them. Those in `core` are what they were, or what a port access left.
#[inline(always)]
#[tactic(auto, unfolding(crate::specs::Instruction::Instruction, crate::specs::Rule::begun, crate::specs::Table::op_of))]
pub fn step_from<P: Ports>(
    core: &mut Core,
    registers: &mut Registers,
    ports: &mut P,
) -> Result<Turn, Stop>
    ensures instruction { Instruction P.rules (with_registers core.old registers.old) ports.old result
        (with_registers core.new registers.new) ports.new }
    ensures broke { (result ≡ Ok Turn.Broke) ↔ (opcode_at (with_registers core.old registers.old) ≡ 0) }
    ensures ledger { Ledger (P.faults ports.old) (P.faults ports.new) (result_blame result) }
{
    let code = opcode(core, registers.at);
    let (access, next) = run_any(core, *registers, code);
    *registers = next;
    if code == 0 {
        return Ok(Turn::Broke);
    }
    finish(core, registers, ports, access)?;
    Ok(Turn::Ran)
}

/// Runs the instruction at `core.at`. A stop comes exactly where a write to a port of this instruction gave it;
/// a write that would follow is then not done. No memory is taken but what the ports take.
#[inline(always)]
pub fn step<P: Ports>(core: &mut Core, ports: &mut P) -> Result<Turn, Stop>
    ensures instruction { Instruction P.rules core.old ports.old result core.new ports.new }
    ensures broke { (result ≡ Ok Turn.Broke) ↔ (opcode_at core.old ≡ 0) }
    ensures ledger { Ledger (P.faults ports.old) (P.faults ports.new) (result_blame result) }
{
    let mut registers = core.registers();
    let done = step_from(core, &mut registers, ports);
    core.set_registers(registers);
    done
}
