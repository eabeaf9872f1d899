//! Words of one or two bytes on a stack and in memory, and the taking of operands.

ghost use Rattle.std.specs.Prelude.{◌≡◌, ◌+◌, ◌-◌, ◌*◌, ◌/◌, ◌%◌, ◌^◌};
ghost use Rattle.uxn_stacks.specs.Cells.{Cells, pointed};
ghost use Rattle.uxn_opcodes.specs.declared.operation.Width.TheVariants.{Byte, Short};
ghost use Rattle.uxn_opcodes.specs.Words.{
  size_of,
  word_below,
  pushed,
  dropped,
  word_loaded,
  memory_with_word,
  relative,
  target,
};

use crate::operation::{Mode, Width};
use uxn_memory::Memory;
use uxn_stacks::Ring;

/// How many bytes a word has.
#[inline(always)]
pub fn size(width: Width) -> u8
    ensures { result ≡ size_of width }
{
    match width {
        Width::Byte => 1,
        Width::Short => 2,
    }
}

/// The word with `depth` bytes between it and the pointer.
#[inline(always)]
#[tactic(auto, unfolding(crate::specs::Words::word_below))]
pub fn word(ring: &Ring, pointer: u8, width: Width, depth: u8) -> u16
    ensures { result ≡ word_below (pointed ring.now pointer) width depth }
{
    match width {
        Width::Byte => u16::from(ring.peek1_at(pointer, depth)),
        Width::Short => ring.peek2_at(pointer, depth),
    }
}

/// The byte at the top.
#[inline(always)]
#[tactic(auto, unfolding(crate::specs::Words::word_below))]
fn top_byte(ring: &Ring, pointer: u8) -> u8
    ensures { result ≡ word_below (pointed ring.now pointer) Byte 0 }
{
    ring.peek1_at(pointer, 0)
}

/// The pointer lowered past operands, unless keep mode is set.
#[inline(always)]
#[tactic(auto, unfolding(crate::specs::Words::dropped))]
fn past_operands(pointer: u8, mode: Mode, count: u8) -> u8
    ensures { (ring : Cells) → pointed ring result ≡ dropped mode.keep (pointed ring pointer) count }
{
    if !mode.keep {
        pointer.wrapping_sub(count)
    } else {
        pointer
    }
}

/// Takes a byte.
#[inline(always)]
pub fn take_byte(ring: &Ring, pointer: &mut u8, mode: Mode) -> u8
    ensures value { result ≡ word_below (pointed ring.now pointer.old) Byte 0 }
    ensures pointer { pointed ring.now pointer.new ≡ dropped mode.keep (pointed ring.now pointer.old) 1 }
{
    let value = top_byte(ring, *pointer);
    *pointer = past_operands(*pointer, mode, 1);
    value
}

/// Takes a word of a width.
#[inline(always)]
pub fn take_word(ring: &Ring, pointer: &mut u8, mode: Mode, width: Width) -> u16
    ensures value { result ≡ word_below (pointed ring.now pointer.old) width 0 }
    ensures pointer { pointed ring.now pointer.new ≡ dropped mode.keep (pointed ring.now pointer.old) (size_of width) }
{
    let value = word(ring, *pointer, width, 0);
    *pointer = past_operands(*pointer, mode, size(width));
    value
}

/// Takes two words of these widths, the deeper one first.
#[inline(always)]
pub fn take_two(
    ring: &Ring,
    pointer: &mut u8,
    mode: Mode,
    first: Width,
    second: Width,
) -> (u16, u16)
    ensures deep { result.0 ≡ word_below (pointed ring.now pointer.old) first (size_of second) }
    ensures top { result.1 ≡ word_below (pointed ring.now pointer.old) second 0 }
    ensures pointer { pointed ring.now pointer.new ≡ dropped mode.keep (pointed ring.now pointer.old) (size_of first + size_of second) }
{
    let deep = word(ring, *pointer, first, size(second));
    let top = word(ring, *pointer, second, 0);
    *pointer = past_operands(*pointer, mode, size(first) + size(second));
    (deep, top)
}

/// Takes three words, the deepest one first.
#[inline(always)]
pub fn take_three(ring: &Ring, pointer: &mut u8, mode: Mode) -> (u16, u16, u16)
    ensures deep { result.0 ≡ word_below (pointed ring.now pointer.old) mode.width (size_of mode.width + size_of mode.width) }
    ensures middle { result.1 ≡ word_below (pointed ring.now pointer.old) mode.width (size_of mode.width) }
    ensures top { result.2 ≡ word_below (pointed ring.now pointer.old) mode.width 0 }
    ensures pointer { pointed ring.now pointer.new ≡ dropped mode.keep (pointed ring.now pointer.old)
        (size_of mode.width + size_of mode.width + size_of mode.width) }
{
    let size = size(mode.width);
    let deep = word(ring, *pointer, mode.width, size + size);
    let middle = word(ring, *pointer, mode.width, size);
    let top = word(ring, *pointer, mode.width, 0);
    *pointer = past_operands(*pointer, mode, size + size + size);
    (deep, middle, top)
}

/// Takes a word with a byte above it.
#[inline(always)]
pub fn take_word_and_byte(ring: &Ring, pointer: &mut u8, mode: Mode) -> (u16, u8)
    ensures deep { result.0 ≡ word_below (pointed ring.now pointer.old) mode.width 1 }
    ensures top { result.1 ≡ word_below (pointed ring.now pointer.old) Byte 0 }
    ensures pointer { pointed ring.now pointer.new ≡ dropped mode.keep (pointed ring.now pointer.old) (size_of mode.width + 1) }
{
    let deep = word(ring, *pointer, mode.width, 1);
    let top = top_byte(ring, *pointer);
    *pointer = past_operands(*pointer, mode, size(mode.width) + 1);
    (deep, top)
}

/// Pushes a word, cut to its width.
#[inline(always)]
#[tactic(auto, unfolding(crate::specs::Words::pushed))]
pub fn push(ring: &mut Ring, pointer: &mut u8, width: Width, value: u32)
    ensures { pointed ring.new pointer.new ≡ pushed (pointed ring.old pointer.old) width value }
{
    match width {
        Width::Byte => *pointer = ring.push1_at(*pointer, (value % 256) as u8),
        Width::Short => *pointer = ring.push2_at(*pointer, (value % 65536) as u16),
    }
}

/// The word of memory at an address.
#[inline(always)]
#[tactic(auto, unfolding(crate::specs::Words::word_loaded))]
pub fn load(memory: &Memory, width: Width, at: u16) -> u16
    ensures { result ≡ word_loaded 65536 width memory.now at }
{
    match width {
        Width::Byte => u16::from(memory.get(at)),
        Width::Short => memory.get2(at),
    }
}

/// The word of memory at a place of the zero page.
#[inline(always)]
#[tactic(auto, unfolding(crate::specs::Words::word_loaded))]
pub fn load_zero(memory: &Memory, width: Width, place: u8) -> u16
    ensures { result ≡ word_loaded 256 width memory.now place }
{
    match width {
        Width::Byte => u16::from(memory.get(u16::from(place))),
        Width::Short => memory.zero2(place),
    }
}

/// Stores a word at an address.
#[inline(always)]
#[tactic(auto, unfolding(crate::specs::Words::memory_with_word))]
pub fn store(memory: &mut Memory, width: Width, at: u16, value: u16)
    ensures { memory.new ≡ memory_with_word 65536 width memory.old at value }
{
    match width {
        Width::Byte => memory.set(at, (value % 256) as u8),
        Width::Short => memory.set2(at, value),
    }
}

/// Stores a word at a place of the zero page.
#[inline(always)]
#[tactic(auto, unfolding(crate::specs::Words::memory_with_word))]
pub fn store_zero(memory: &mut Memory, width: Width, place: u8, value: u16)
    ensures { memory.new ≡ memory_with_word 256 width memory.old place value }
{
    match width {
        Width::Byte => memory.set(u16::from(place), (value % 256) as u8),
        Width::Short => memory.set_zero2(place, value),
    }
}

/// The address at a signed byte from another address.
#[inline(always)]
#[tactic(auto, unfolding(crate::specs::Words::relative))]
pub fn relative(at: u16, offset: u16) -> u16
    ensures { result ≡ relative at offset }
{
    if offset < 128 {
        at.wrapping_add(offset)
    } else {
        at.wrapping_add(offset).wrapping_sub(256)
    }
}

/// Where a jump goes.
#[inline(always)]
#[tactic(auto, unfolding(crate::specs::Words::target))]
pub fn target(width: Width, at: u16, place: u16) -> u16
    ensures { result ≡ target width at place }
{
    match width {
        Width::Byte => relative(at, place),
        Width::Short => place,
    }
}
