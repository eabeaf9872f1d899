//! What an instruction byte says: its operation and its mode.

ghost use Rattle.std.specs.Prelude.{◌≡◌};
ghost use Rattle.uxn_opcodes.specs.Table.{op_of, mode_of};

/// How many bytes a word has.
#[derive(Clone, Copy)]
pub enum Width {
    /// One byte.
    Byte,
    /// Two bytes, the high byte first.
    Short,
}

/// The mode of an instruction.
#[derive(Clone, Copy)]
pub struct Mode {
    /// Short mode makes the words two bytes.
    pub width: Width,
    /// Return mode swaps the roles of the two stacks.
    pub returns: bool,
    /// Keep mode leaves the operands where they are.
    pub keep: bool,
}

/// Arithmetic on two words of one width.
#[derive(Clone, Copy)]
pub enum ArithmeticOp {
    Add,
    Sub,
    Mul,
    Div,
    And,
    Ora,
    Eor,
}

/// Comparisons of unsigned words.
#[derive(Clone, Copy)]
pub enum CompareOp {
    Equ,
    Neq,
    Gth,
    Lth,
}

/// The order of the words on a stack.
#[derive(Clone, Copy)]
pub enum StackOp {
    Pop,
    Nip,
    Swp,
    Rot,
    Dup,
    Ovr,
}

/// Jumps.
#[derive(Clone, Copy)]
pub enum JumpOp {
    Jmp,
    Jcn,
    Jsr,
}

/// Loads from memory.
#[derive(Clone, Copy)]
pub enum LoadOp {
    Ldz,
    Ldr,
    Lda,
}

/// Stores to memory.
#[derive(Clone, Copy)]
pub enum StoreOp {
    Stz,
    Str,
    Sta,
}

/// The 31 operations, by kind.
#[derive(Clone, Copy)]
pub enum Op {
    /// Adds one to a word.
    Inc,
    /// Shifts a word to the right and then to the left.
    Sft,
    Arithmetic(ArithmeticOp),
    Compare(CompareOp),
    Stack(StackOp),
    /// Moves a word to the other stack.
    Sth,
    Jump(JumpOp),
    Load(LoadOp),
    Store(StoreOp),
    /// Reads a port.
    Dei,
    /// Writes a port.
    Deo,
}

impl Op {
    /// The operation that the low five bits of an instruction byte choose; none where they are 0.
    #[inline(always)]
    #[tactic(auto, unfolding(crate::specs::Table::op_of))]
    pub fn of(code: u8) -> Option<Op>
        ensures { result ≡ op_of code }
    {
        Some(match code % 32 {
            0x00 => return None,
            0x01 => Op::Inc,
            0x02 => Op::Stack(StackOp::Pop),
            0x03 => Op::Stack(StackOp::Nip),
            0x04 => Op::Stack(StackOp::Swp),
            0x05 => Op::Stack(StackOp::Rot),
            0x06 => Op::Stack(StackOp::Dup),
            0x07 => Op::Stack(StackOp::Ovr),
            0x08 => Op::Compare(CompareOp::Equ),
            0x09 => Op::Compare(CompareOp::Neq),
            0x0a => Op::Compare(CompareOp::Gth),
            0x0b => Op::Compare(CompareOp::Lth),
            0x0c => Op::Jump(JumpOp::Jmp),
            0x0d => Op::Jump(JumpOp::Jcn),
            0x0e => Op::Jump(JumpOp::Jsr),
            0x0f => Op::Sth,
            0x10 => Op::Load(LoadOp::Ldz),
            0x11 => Op::Store(StoreOp::Stz),
            0x12 => Op::Load(LoadOp::Ldr),
            0x13 => Op::Store(StoreOp::Str),
            0x14 => Op::Load(LoadOp::Lda),
            0x15 => Op::Store(StoreOp::Sta),
            0x16 => Op::Dei,
            0x17 => Op::Deo,
            0x18 => Op::Arithmetic(ArithmeticOp::Add),
            0x19 => Op::Arithmetic(ArithmeticOp::Sub),
            0x1a => Op::Arithmetic(ArithmeticOp::Mul),
            0x1b => Op::Arithmetic(ArithmeticOp::Div),
            0x1c => Op::Arithmetic(ArithmeticOp::And),
            0x1d => Op::Arithmetic(ArithmeticOp::Ora),
            0x1e => Op::Arithmetic(ArithmeticOp::Eor),
            _ => Op::Sft,
        })
    }
}

impl Mode {
    /// The mode of an instruction byte: `20` is short, `40` is return and `80` is keep mode.
    #[inline(always)]
    #[tactic(auto, unfolding(crate::specs::Table::mode_of))]
    pub fn of(code: u8) -> Mode
        ensures { result ≡ mode_of code }
    {
        Mode {
            width: if code & 0x20 == 0 {
                Width::Byte
            } else {
                Width::Short
            },
            returns: code & 0x40 != 0,
            keep: code & 0x80 != 0,
        }
    }
}
