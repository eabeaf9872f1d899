//! The signs by which a stat shows what is there.
ghost use Rattle.std.specs.Prelude.{◌≡◌, ◌%◌, ◌^◌, nat_lt, replicate};
ghost use Rattle.uxn_io_traits.specs.NumberText.{hex_digit};
ghost use Rattle.uxn_memory.specs.Bytes.{with_bytes};
ghost use Rattle.file_ports.specs.Signs.{hex_digits, signs};
ghost use Rattle.file_ports.specs.Actions.{stat_success};

use crate::span::Span;
use uxn_io_traits::{Kind, hex_byte, hex_short};
use uxn_memory::Memory;

/// The sign for nothing there.
const MISSING: u8 = b'!';

/// The sign for a folder.
const FOLDER: u8 = b'-';

/// The sign for a size that needs more digits.
const TOO_BIG: u8 = b'?';

/// The last hexadecimal digit of a number.
fn last_digit(value: u64) -> u8
    ensures { result ≡ hex_digit (value % 16) }
{
    let [_, digit] = hex_byte((value % 16) as u8);
    digit
}

/// Whether so many hexadecimal digits are enough for a number.
fn fits(value: u64, count: u16) -> bool
    ensures { result ≡ nat_lt value (16 ^ count) }
{
    let mut rest = value;
    let mut left = count;
    while rest > 0 && left > 0 {
        rest /= 16;
        left -= 1;
    }
    rest == 0
}

/// Puts a number in so many hexadecimal digits, with zeros before it.
fn put_digits(memory: &mut Memory, span: Span, value: u64)
    ensures { memory.new ≡ with_bytes memory.old span.at (hex_digits span.count value) }
{
    memory.known();
    let mut rest = value;
    let mut left = span.count;
    while left > 0 {
        left -= 1;
        memory.set(span.at + left, last_digit(rest));
        rest /= 16;
    }
}

/// Puts the same sign so many times.
#[tactic(auto, using(crate::proofs::MemoryLemmas::with_same))]
fn put_same(memory: &mut Memory, span: Span, sign: u8)
    ensures { memory.new ≡ with_bytes memory.old span.at (replicate span.count sign) }
{
    memory.known();
    memory.fill(span.count, 0, span.at, sign);
}

/// Puts so many signs for a size.
#[tactic(auto, unfolding(crate::specs::Signs::signs))]
fn put_size(memory: &mut Memory, span: Span, size: u64)
    ensures { memory.new ≡ with_bytes memory.old span.at (signs span.count (Kind.File size)) }
{
    if fits(size, span.count) {
        put_digits(memory, span, size);
    } else {
        put_same(memory, span, TOO_BIG);
    }
}

/// Puts so many signs for what is there, and answers their number, or 0 where nothing is there.
#[tactic(auto, unfolding(crate::specs::Signs::signs))]
pub(crate) fn put_signs(memory: &mut Memory, span: Span, kind: Kind) -> u16
    ensures memory { memory.new ≡ with_bytes memory.old span.at (signs span.count kind) }
    ensures success { result ≡ stat_success kind span.count }
{
    match kind {
        Kind::Missing => {
            put_same(memory, span, MISSING);
            0
        }
        Kind::File(size) => {
            put_size(memory, span, size);
            span.count
        }
        Kind::Folder => {
            put_same(memory, span, FOLDER);
            span.count
        }
    }
}

/// Four signs for what is there.
#[tactic(auto, unfolding(crate::specs::Signs::signs), using(crate::proofs::SignLemmas::short_digits))]
pub(crate) fn four_signs(kind: Kind) -> [u8; 4]
    ensures { result ≡ signs 4 kind }
{
    match kind {
        Kind::Missing => [MISSING; 4],
        Kind::File(size) => {
            if size < 65536 {
                hex_short(size as u16)
            } else {
                [TOO_BIG; 4]
            }
        }
        Kind::Folder => [FOLDER; 4],
    }
}
