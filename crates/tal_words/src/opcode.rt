//! The names of the opcodes.

ghost use Rattle.std.specs.Prelude.{◌≡◌, ◌%◌, ◌==◌, not, slice_index_or, ℕ, ◌<◌, ◌≤◌, ◌+◌, Some, IfSome, [], ◌∷◌, ◌++◌, take, drop, if◌then◌else◌};
ghost use Rattle.std.specs.List.{position_from};
ghost use Rattle.std.specs.Str.{bytes_eq};
ghost use Rattle.arrayvec.specs.ArrayVec.{array_vec_len};
ghost use Rattle.tal_words.specs.Opcodes.{operation_names, has, is_mode, are_modes, moded_byte};
ghost use Rattle.tal_words.specs.Opcodes.{byte_of_op, name_of_op, is_short, mode_letters, shown_mode};

use arrayvec::ArrayVec;
use uxn_opcodes::{Mode, Width};

/// The operations, in order of the low five bits of their bytes.
static OPERATION_NAMES: [[u8; 3]; 32] = [
    *b"LIT", *b"INC", *b"POP", *b"NIP", *b"SWP", *b"ROT", *b"DUP", *b"OVR", *b"EQU", *b"NEQ",
    *b"GTH", *b"LTH", *b"JMP", *b"JCN", *b"JSR", *b"STH", *b"LDZ", *b"STZ", *b"LDR", *b"STR",
    *b"LDA", *b"STA", *b"DEI", *b"DEO", *b"ADD", *b"SUB", *b"MUL", *b"DIV", *b"AND", *b"ORA",
    *b"EOR", *b"SFT",
];

/// The byte of an opcode word: an operation with each of the modes `2`, `k` and `r` at most once, in
/// any order, or BRK, JCI, JMI or JSI. `None` exactly where it is no opcode word.
#[tactic(auto, unfolding(crate::specs::Opcodes::byte_of_op))]
pub fn op_byte(word: &[u8]) -> Option<u8>
    ensures { result ≡ byte_of_op word.now }
{
    if word == b"BRK".as_slice() {
        return Some(0x00);
    }
    if word == b"JCI".as_slice() {
        return Some(0x20);
    }
    if word == b"JMI".as_slice() {
        return Some(0x40);
    }
    if word == b"JSI".as_slice() {
        return Some(0x60);
    }
    moded_op_byte(word)
}

/// The byte of an operation of three letters and its modes.
fn moded_op_byte(word: &[u8]) -> Option<u8>
    ensures { result ≡ moded_byte (position_from (bytes_eq (take 3 word.now)) 0 operation_names) (drop 3 word.now) }
{
    let (name, modes) = word.split_at(word.len().min(3));
    match operation_of(name) {
        Some(operation) => moded(operation, modes),
        None => None,
    }
}

/// The index of a name among the operations.
#[tactic(auto, using(crate::proofs::Operations::operation_steps))]
fn operation_of(name: &[u8]) -> Option<u8>
    ensures value { result ≡ position_from (bytes_eq name.now) 0 operation_names }
    ensures small { IfSome result (λ code. code < 32) }
{
    for code in 0..32u8 {
        if name == OPERATION_NAMES[code as usize].as_slice() {
            return Some(code);
        }
    }
    None
}

/// An operation with modes, if each of them is a mode and none comes twice.
fn moded(operation: u8, modes: &[u8]) -> Option<u8>
    requires { operation < 32 }
    ensures { result ≡ moded_byte (Some operation) modes.now }
{
    if !are_modes(modes) {
        return None;
    }
    let short = if has(modes, b'2') { 0x20 } else { 0 };
    let returns = if has(modes, b'r') { 0x40 } else { 0 };
    let keep = if has(modes, b'k') || operation == 0 {
        0x80
    } else {
        0
    };
    Some(operation + short + returns + keep)
}

/// Whether a list has a byte.
fn has(bytes: &[u8], byte: u8) -> bool
    ensures { result ≡ has byte bytes.now }
{
    bytes.contains(&byte)
}

/// Whether each byte is a mode, and none comes twice.
#[tactic(auto, using(crate::proofs::Modes::mode_steps))]
fn are_modes(modes: &[u8]) -> bool
    ensures { result ≡ are_modes modes.now }
{
    for (at, mode) in modes.iter().enumerate() {
        if !is_mode(*mode) || has(&modes[at + 1..], *mode) {
            return false;
        }
    }
    true
}

/// Whether a byte is the letter of a mode.
fn is_mode(byte: u8) -> bool
    ensures { result ≡ is_mode byte }
{
    matches!(byte, b'2' | b'k' | b'r')
}

/// The name of a byte: the operation, then those of `2`, `k` and `r` that hold, in this order. LIT
/// never shows `k`.
#[tactic(auto, unfolding(crate::specs::Opcodes::name_of_op))]
pub fn op_name(code: u8) -> ArrayVec<u8, 6>
    ensures { result.items ≡ name_of_op code }
{
    match code {
        0x00 => letters(*b"BRK"),
        0x20 => letters(*b"JCI"),
        0x40 => letters(*b"JMI"),
        0x60 => letters(*b"JSI"),
        _ => moded_op_name(code),
    }
}

/// The name of an operation with the modes of a byte.
fn moded_op_name(code: u8) -> ArrayVec<u8, 6>
    ensures { result.items ≡ slice_index_or operation_names (code % 32) [] ++ mode_letters (shown_mode code) }
{
    let operation = code % 32;
    let mode = Mode::of(code);
    let mut name = letters(OPERATION_NAMES[operation as usize]);
    push_if(&mut name, is_short(mode.width), b'2');
    push_if(&mut name, operation != 0 && mode.keep, b'k');
    push_if(&mut name, mode.returns, b'r');
    name
}

/// Whether words have two bytes.
fn is_short(width: Width) -> bool
    ensures { result ≡ is_short width }
{
    match width {
        Width::Byte => false,
        Width::Short => true,
    }
}

/// The name of three letters.
fn letters(name: [u8; 3]) -> ArrayVec<u8, 6>
    ensures items { result.items ≡ name }
    ensures len { array_vec_len result ≡ 3 }
{
    let mut text = ArrayVec::new();
    text.push(name[0]);
    text.push(name[1]);
    text.push(name[2]);
    text
}

/// Appends the letter of a mode that shows.
fn push_if(name: &mut ArrayVec<u8, 6>, shows: bool, mode: u8)
    requires { array_vec_len name.old < 6 }
    ensures items { name.new.items ≡ name.old.items ++ (if shows then mode ∷ [] else []) }
    ensures len { array_vec_len name.new ≤ array_vec_len name.old + 1 }
{
    if shows {
        name.push(mode);
    }
}

/// The name of each byte is read as this byte.
pub fn names_are_read()
    ensures { (byte : ℕ) → byte < 256 → byte_of_op (name_of_op byte) ≡ Some byte }
{}
