//! The rows of the instruction table, a function for each kind of row.

ghost use Rattle.std.specs.Prelude.{◌≡◌, ◌+◌, ◌-◌, ◌*◌, ◌/◌, ◌%◌, ◌^◌, ◌==◌, if◌then◌else◌};
ghost use Rattle.uxn_stacks.specs.Cells.{pointed};
ghost use Rattle.uxn_opcodes.specs.Words.{word_below, pushed_all, dropped};
ghost use Rattle.uxn_opcodes.specs.Table.{
  taken,
  results_of_row,
  arithmetic_row,
  stack_row,
  compare_row,
  jump_row,
  load_row,
  store_row,
  results,
};
ghost use Rattle.uxn_opcodes.specs.Rule.{found, op_effect_of, ruled};

use crate::operation::{
    ArithmeticOp, CompareOp, JumpOp, LoadOp, Mode, Op, StackOp, StoreOp, Width,
};
use crate::words::{
    load, load_zero, push, relative, store, store_zero, take_byte, take_three, take_two, take_word,
    take_word_and_byte, target,
};
use uxn_memory::Memory;
use uxn_stacks::Ring;

/// What an instruction has still to do at the ports.
#[derive(Clone, Copy)]
pub enum Access {
    /// No port is read or written.
    Nothing,
    /// The word at a port is pushed as the mode says.
    Read(u8, Mode),
    /// A word is written to a port.
    Write(u8, Width, u16),
}

/// An operation in a mode.
#[derive(Clone, Copy)]
pub struct OpInMode {
    /// The operation.
    pub op: Op,
    /// The mode.
    pub mode: Mode,
}

/// `(value >> (shift & 0f)) << (shift >> 4)`.
#[inline(always)]
fn shifted(value: u16, shift: u8) -> u32
    ensures { result ≡ value / 2 ^ (shift % 16) * 2 ^ (shift / 16) }
{
    u32::from(value >> (shift % 16)) << (shift / 16)
}

/// The product.
#[inline(always)]
fn product(a: u16, b: u16) -> u32
    ensures { result ≡ a * b }
{
    u32::from(a) * u32::from(b)
}

/// The quotient, truncated; 0 where the divisor is 0.
#[inline(always)]
fn quotient(a: u16, b: u16) -> u32
    ensures { result ≡ (if b == 0 then 0 else a / b) }
{
    if b == 0 { 0 } else { u32::from(a / b) }
}

/// The row of arithmetic on two words.
#[inline(always)]
fn calculate(op: ArithmeticOp, mode: Mode, this: &mut Ring, this_pointer: &mut u8)
    ensures { pointed this.new this_pointer.new ≡ results mode (arithmetic_row op mode.width) (pointed this.old this_pointer.old) }
{
    let (a, b) = take_two(this, this_pointer, mode, mode.width, mode.width);
    let value = match op {
        ArithmeticOp::Add => u32::from(a) + u32::from(b),
        ArithmeticOp::Sub => u32::from(a) + 65536 - u32::from(b),
        ArithmeticOp::Mul => product(a, b),
        ArithmeticOp::Div => quotient(a, b),
        ArithmeticOp::And => u32::from(a & b),
        ArithmeticOp::Ora => u32::from(a | b),
        ArithmeticOp::Eor => u32::from(a ^ b),
    };
    push(this, this_pointer, mode.width, value);
}

/// The row of comparisons, which push 1 or 0 as one byte.
#[inline(always)]
fn compare(op: CompareOp, mode: Mode, this: &mut Ring, this_pointer: &mut u8)
    ensures { pointed this.new this_pointer.new ≡ results mode (compare_row op mode.width) (pointed this.old this_pointer.old) }
{
    let (a, b) = take_two(this, this_pointer, mode, mode.width, mode.width);
    match op {
        CompareOp::Equ => push(this, this_pointer, Width::Byte, u32::from(a == b)),
        CompareOp::Neq => push(this, this_pointer, Width::Byte, u32::from(a != b)),
        CompareOp::Gth => push(this, this_pointer, Width::Byte, u32::from(a > b)),
        CompareOp::Lth => push(this, this_pointer, Width::Byte, u32::from(a < b)),
    }
}

/// The row of the orders of words.
#[inline(always)]
fn arrange(op: StackOp, mode: Mode, this: &mut Ring, this_pointer: &mut u8)
    ensures { pointed this.new this_pointer.new ≡ results mode (stack_row op mode.width) (pointed this.old this_pointer.old) }
{
    let width = mode.width;
    match op {
        StackOp::Pop => {
            let _a = take_word(this, this_pointer, mode, width);
        }
        StackOp::Nip => {
            let (_a, b) = take_two(this, this_pointer, mode, width, width);
            push(this, this_pointer, width, u32::from(b));
        }
        StackOp::Swp => {
            let (a, b) = take_two(this, this_pointer, mode, width, width);
            push(this, this_pointer, width, u32::from(b));
            push(this, this_pointer, width, u32::from(a));
        }
        StackOp::Rot => {
            let (a, b, c) = take_three(this, this_pointer, mode);
            push(this, this_pointer, width, u32::from(b));
            push(this, this_pointer, width, u32::from(c));
            push(this, this_pointer, width, u32::from(a));
        }
        StackOp::Dup => {
            let a = take_word(this, this_pointer, mode, width);
            push(this, this_pointer, width, u32::from(a));
            push(this, this_pointer, width, u32::from(a));
        }
        StackOp::Ovr => {
            let (a, b) = take_two(this, this_pointer, mode, width, width);
            push(this, this_pointer, width, u32::from(a));
            push(this, this_pointer, width, u32::from(b));
            push(this, this_pointer, width, u32::from(a));
        }
    }
}

/// The row of jumps, which tells the next address.
#[inline(always)]
fn jump(
    op: JumpOp,
    mode: Mode,
    at: u16,
    this: &mut Ring,
    this_pointer: &mut u8,
    other: &mut Ring,
    other_pointer: &mut u8,
) -> u16
    ensures next { result ≡ (results_of_row (jump_row op mode.width at) (pointed this.old this_pointer.old)).next }
    ensures this { pointed this.new this_pointer.new ≡ dropped mode.keep (pointed this.old this_pointer.old) (taken (jump_row op mode.width at)) }
    ensures other { pointed other.new other_pointer.new ≡ pushed_all (pointed other.old other_pointer.old) (results_of_row (jump_row op mode.width at) (pointed this.old this_pointer.old)).passes }
{
    let width = mode.width;
    match op {
        JumpOp::Jmp => {
            let place = take_word(this, this_pointer, mode, width);
            target(width, at, place)
        }
        JumpOp::Jcn => {
            let (test, place) = take_two(this, this_pointer, mode, Width::Byte, width);
            if test == 0 {
                at
            } else {
                target(width, at, place)
            }
        }
        JumpOp::Jsr => {
            let place = take_word(this, this_pointer, mode, width);
            push(other, other_pointer, Width::Short, u32::from(at));
            target(width, at, place)
        }
    }
}

/// The row of loads.
#[inline(always)]
fn load_word(
    op: LoadOp,
    mode: Mode,
    memory: &Memory,
    at: u16,
    this: &mut Ring,
    this_pointer: &mut u8,
)
    ensures { pointed this.new this_pointer.new ≡ results mode (load_row op mode.width memory.now at) (pointed this.old this_pointer.old) }
{
    let width = mode.width;
    match op {
        LoadOp::Ldz => {
            let place = take_byte(this, this_pointer, mode);
            push(
                this,
                this_pointer,
                width,
                u32::from(load_zero(memory, width, place)),
            );
        }
        LoadOp::Ldr => {
            let offset = take_byte(this, this_pointer, mode);
            let place = relative(at, u16::from(offset));
            push(
                this,
                this_pointer,
                width,
                u32::from(load(memory, width, place)),
            );
        }
        LoadOp::Lda => {
            let place = take_word(this, this_pointer, mode, Width::Short);
            push(
                this,
                this_pointer,
                width,
                u32::from(load(memory, width, place)),
            );
        }
    }
}

/// The row of stores.
#[inline(always)]
fn store_word(
    op: StoreOp,
    mode: Mode,
    memory: &mut Memory,
    at: u16,
    this: &mut Ring,
    this_pointer: &mut u8,
)
    ensures memory { memory.new ≡ results_of_row (store_row op mode.width memory.old at) (pointed this.old this_pointer.old) }
    ensures this { pointed this.new this_pointer.new ≡ dropped mode.keep (pointed this.old this_pointer.old) (taken (store_row op mode.width memory.old at)) }
{
    let width = mode.width;
    match op {
        StoreOp::Stz => {
            let (value, place) = take_word_and_byte(this, this_pointer, mode);
            store_zero(memory, width, place, value);
        }
        StoreOp::Str => {
            let (value, offset) = take_word_and_byte(this, this_pointer, mode);
            store(memory, width, relative(at, u16::from(offset)), value);
        }
        StoreOp::Sta => {
            let (value, place) = take_two(this, this_pointer, mode, width, Width::Short);
            store(memory, width, place, value);
        }
    }
}

/// Runs a row on memory, the address after the opcode, this stack and the other stack, and tells what is left to do
/// at the ports.
#[inline(always)]
#[tactic(auto, unfolding(crate::specs::Rule::op_effect_of))]
pub fn perform(
    row: OpInMode,
    memory: &mut Memory,
    at: &mut u16,
    this: &mut Ring,
    this_pointer: &mut u8,
    other: &mut Ring,
    other_pointer: &mut u8,
) -> Access
    ensures sides { found memory.new at.new (pointed this.new this_pointer.new) (pointed other.new other_pointer.new) ≡ ruled row.mode (found memory.old at.old (pointed this.old this_pointer.old) (pointed other.old other_pointer.old))
        (op_effect_of row.op row.mode (found memory.old at.old (pointed this.old this_pointer.old) (pointed other.old other_pointer.old))) }
    ensures access { result ≡ (op_effect_of row.op row.mode (found memory.old at.old (pointed this.old this_pointer.old) (pointed other.old other_pointer.old))).access }
{
    let mode = row.mode;
    match row.op {
        Op::Inc => {
            let a = take_word(this, this_pointer, mode, mode.width);
            push(this, this_pointer, mode.width, u32::from(a) + 1);
            Access::Nothing
        }
        Op::Sft => {
            let (a, shift) = take_word_and_byte(this, this_pointer, mode);
            push(this, this_pointer, mode.width, shifted(a, shift));
            Access::Nothing
        }
        Op::Arithmetic(op) => {
            calculate(op, mode, this, this_pointer);
            Access::Nothing
        }
        Op::Compare(op) => {
            compare(op, mode, this, this_pointer);
            Access::Nothing
        }
        Op::Stack(op) => {
            arrange(op, mode, this, this_pointer);
            Access::Nothing
        }
        Op::Sth => {
            let a = take_word(this, this_pointer, mode, mode.width);
            push(other, other_pointer, mode.width, u32::from(a));
            Access::Nothing
        }
        Op::Jump(op) => {
            *at = jump(op, mode, *at, this, this_pointer, other, other_pointer);
            Access::Nothing
        }
        Op::Load(op) => {
            load_word(op, mode, memory, *at, this, this_pointer);
            Access::Nothing
        }
        Op::Store(op) => {
            store_word(op, mode, memory, *at, this, this_pointer);
            Access::Nothing
        }
        Op::Dei => Access::Read(take_byte(this, this_pointer, mode), mode),
        Op::Deo => {
            let (value, port) = take_word_and_byte(this, this_pointer, mode);
            Access::Write(port, mode.width, value)
        }
    }
}
