//! The stacks of the machine: stacks of 256 bytes, whose pointers wrap.
#![tactic(auto)]

ghost use Rattle.std.specs.Prelude.{◌≡◌, ◌+◌, ◌-◌, ◌*◌, ◌/◌, ◌%◌, ◌<◌, length, slice_index, slice_set, EachIndex};
ghost use Rattle.uxn_stacks.specs.Cells.{
  new_ring,
  cell,
  pointed,
  byte_below,
  short_below,
  lowered,
  pushed_byte,
  pushed_short,
};

use std::marker::Model;

/// A stack of 256 bytes with a pointer to where the next byte is pushed. There is no overflow and no underflow.
#[derive(Clone, Copy)]
pub struct Ring {
    bytes: [u8; 256],
    pointer: u8,
}

impl Model for Ring {
    ghost use Rattle.uxn_stacks.specs.Cells.{Cells};

    ghost Value = { Cells };

    ghost view = { λ r. record { bytes = r.bytes; pointer = r.pointer } };

    ghost inverse = { λ v. record { bytes = v.bytes; pointer = v.pointer } };
}

impl Ring {
    /// A stack whose bytes are all 0, with its pointer at 0.
    #[tactic(auto, unfolding(crate::specs::Cells::new_ring))]
    pub fn new() -> Ring
        ensures { result ≡ new_ring }
    {
        Ring {
            bytes: [0; 256],
            pointer: 0,
        }
    }

    /// Tells contracts what holds of every stack.
    pub fn known(&self)
        ensures size { length self.now.bytes ≡ 256 }
        ensures bytes { EachIndex self.now.bytes (λ k. slice_index self.now.bytes k < 256) }
        ensures pointer { self.now.pointer < 256 }
    {
        bytes_fit(&self.bytes);
        let _pointer = self.pointer;
    }

    /// The place that the next byte is pushed at.
    pub fn pointer(&self) -> u8
        ensures { result ≡ self.now.pointer }
    {
        self.pointer
    }

    /// Moves the pointer to a place; no byte changes.
    pub fn set_pointer(&mut self, value: u8)
        ensures { self.new ≡ record self.old { pointer = value } }
    {
        self.pointer = value;
    }

    /// The byte at a place.
    pub fn at(&self, place: u8) -> u8
        ensures { result ≡ cell self.now place }
    {
        self.bytes[usize::from(place)]
    }

    /// Sets the byte at a place; the pointer stays.
    pub fn set_at(&mut self, place: u8, value: u8)
        ensures { self.new ≡ record self.old { bytes = slice_set self.old.bytes place value } }
    {
        self.bytes[usize::from(place)] = value;
    }

    /// Pushes a byte where the pointer is at a place, and gives the pointer: what `push1` does with the pointer that is kept.
    /// A loop that keeps the pointer in a variable of its own waits for no store of it. The compiler inlines so short a function
    /// by itself. A hint on it would count towards the size of all that it is inlined in, and an instruction's row would then be
    /// too large for its own hint.
    pub fn push1_at(&mut self, pointer: u8, value: u8) -> u8
        ensures { pointed self.new result ≡ pushed_byte (pointed self.old pointer) value }
    {
        self.bytes[usize::from(pointer)] = value;
        pointer.wrapping_add(1)
    }

    /// Pushes a short where the pointer is at a place, and gives the pointer.
    pub fn push2_at(&mut self, pointer: u8, value: u16) -> u8
        ensures { pointed self.new result ≡ pushed_short (pointed self.old pointer) value }
    {
        let next = self.push1_at(pointer, (value / 256) as u8);
        self.push1_at(next, (value % 256) as u8)
    }

    /// The byte with `depth` bytes between it and a pointer.
    pub fn peek1_at(&self, pointer: u8, depth: u8) -> u8
        ensures { result ≡ byte_below (pointed self.now pointer) depth }
    {
        self.at(pointer.wrapping_sub(1).wrapping_sub(depth))
    }

    /// The short with `depth` bytes between it and a pointer.
    pub fn peek2_at(&self, pointer: u8, depth: u8) -> u16
        ensures { result ≡ short_below (pointed self.now pointer) depth }
    {
        u16::from(self.peek1_at(pointer, depth.wrapping_add(1))) * 256
            + u16::from(self.peek1_at(pointer, depth))
    }

    /// Pushes a byte: sets it at the pointer, and raises the pointer by one.
    pub fn push1(&mut self, value: u8)
        ensures { self.new ≡ pushed_byte self.old value }
    {
        self.pointer = self.push1_at(self.pointer, value);
    }

    /// Pushes a short: its high byte, then its low byte.
    pub fn push2(&mut self, value: u16)
        ensures { self.new ≡ pushed_short self.old value }
    {
        self.push1((value / 256) as u8);
        self.push1((value % 256) as u8);
    }

    /// Lowers the pointer by one and gives the byte there.
    pub fn take1(&mut self) -> u8
        ensures value { result ≡ byte_below self.old 0 }
        ensures ring { self.new ≡ lowered self.old 1 }
    {
        self.lower(1);
        self.at(self.pointer())
    }

    /// Takes a short: its low byte, then its high byte.
    pub fn take2(&mut self) -> u16
        ensures value { result ≡ short_below self.old 0 }
        ensures ring { self.new ≡ lowered self.old 2 }
    {
        let value = self.peek2(0);
        self.lower(2);
        value
    }

    /// The byte with `depth` bytes between it and the pointer.
    pub fn peek1(&self, depth: u8) -> u8
        ensures { result ≡ byte_below self.now depth }
    {
        self.at(self.pointer().wrapping_sub(1).wrapping_sub(depth))
    }

    /// The short with `depth` bytes between it and the pointer.
    pub fn peek2(&self, depth: u8) -> u16
        ensures { result ≡ short_below self.now depth }
    {
        u16::from(self.peek1(depth.wrapping_add(1))) * 256 + u16::from(self.peek1(depth))
    }

    /// Lowers the pointer by `count` places.
    pub fn lower(&mut self, count: u8)
        ensures { self.new ≡ lowered self.old count }
    {
        self.pointer = self.pointer.wrapping_sub(count);
    }
}

// Each element of a slice of bytes is below 256.
fn bytes_fit(bytes: &[u8])
    ensures { EachIndex bytes.now (λ k. slice_index bytes.now k < 256) }
{}
