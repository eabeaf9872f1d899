//! The moments that are kept.

ghost use Rattle.std.specs.Prelude.{
  ◌≡◌,
  ℕ,
  ◌+◌,
  ◌-◌,
  ◌<◌,
  ◌≤◌,
  [],
  ◌∷◌,
  ◌++◌,
  length,
  take,
  IfOk,
  Some,
  option_map,
  slice_get,
  slice_index,
  sum_by,
  true,
  nat_lt,
  nat_le,
  ◌&&◌,
};
ghost use Rattle.circular_buffer.specs.Buffer.{buffer};
ghost use Rattle.uxn_undo.specs.Spans.{span_bytes_at};
ghost use Rattle.uxn_undo.specs.Kept.{
  byte_back,
  byte_count,
  held_of,
  holding,
  kept_at,
  most_bytes,
  most_moments,
};
ghost use Rattle.uxn_undo.specs.Slots.{row_in};
ghost use Rattle.uxn_undo.specs.Laws.{GoingBackLaw, HoldingLaw};

use crate::changes::instruction_span;
use crate::row::{Row, put_row};
use crate::span::Span;
use circular_buffer::HeapCircularBuffer;
use std::alloc::{AllocError, Global};
use std::marker::Model;
use uxn_limits::limits::{MOST_HELD, MOST_MOMENTS};
use uxn_memory::Memory;
use uxn_opcodes::{Core, Ports};
use uxn_stacks::Ring;

// What is kept of a moment beside the bytes of bank 0 that its instruction may change. Its stacks and stored bytes stand in a
// slot.
#[derive(Drop)]
pub(crate) struct Record {
    at: u16,
    slot: u16,
    span: Span,
}

/// The newest moments of a run, as many as there is room for. Contracts see them as a list, the newest first.
#[derive(Drop)]
pub struct Undo {
    records: HeapCircularBuffer<Record>,
    bytes: HeapCircularBuffer<u8>,
    rows: Vec<Row>,
    next: u16,
}

impl Model for Undo {
    ghost use Rattle.std.specs.Prelude.{List, vec_len, vec_capacity};
    ghost use Rattle.uxn_undo.specs.Kept.{Kept};
    ghost use Rattle.uxn_undo.specs.Rings.{moments_in, AreRings};
    ghost use Rattle.uxn_undo.specs.Slots.{AreSlots};

    ghost Value = { List Kept };

    ghost view = { λ u. moments_in u.rows.items u.records.items u.bytes.items };

    ghost invariant = { λ u. AreRings u.records u.bytes
        × AreSlots (vec_len u.rows) (vec_capacity u.rows) u.next u.records.items };
}

impl Undo {
    /// No moment is kept. This is the one call of this crate that takes memory, all that it will use; none of it is written yet: where
    /// no moment is held no slot is.
    #[tactic(auto, unfolding(crate::specs::Rings::moments_in))]
    pub fn new(alloc: Global) -> Result<Undo, AllocError>
        ensures { IfOk result (λ undo. undo ≡ []) }
    {
        let records = HeapCircularBuffer::with_capacity(alloc, MOST_MOMENTS)?;
        let bytes = HeapCircularBuffer::with_capacity(alloc, MOST_HELD)?;
        let rows = Vec::with_capacity(alloc, MOST_MOMENTS)?;
        Ok(Undo {
            records,
            bytes,
            rows,
            next: 0,
        })
    }

    /// Keeps this moment, and drops the oldest ones for which there is no room any more.
    pub fn keep<P: Ports>(&mut self, core: &Core, ports: &P)
        ensures { self.new ≡ holding (kept_at core.now (P.stored ports.now) ∷ self.old) }
    {
        let stored = ports.stored_page();
        let span = instruction_span(core, stored);
        self.make_room(usize::from(span.count));
        put_bytes(&mut self.bytes, &core.memory, span);
        let slot = self.next;
        put_row(&mut self.rows, slot, core, stored);
        let pushed = self.records.try_push_front(Record {
            at: core.at,
            slot,
            span,
        });
        match pushed {
            Ok(()) => {}
            Err(_record) => unreachable!(),
        }
        self.next = slot.wrapping_add(1);
    }

    /// How many moments are kept.
    #[tactic(auto, using(crate::proofs::Joined::length_held))]
    pub fn held(&self) -> u32
        ensures { result ≡ length self.now }
    {
        self.records.len() as u32
    }

    /// The address of the moment so many before; 1 is the newest one that is kept.
    pub fn address(&self, back: u32) -> u16
        requires first { 0 < back }
        requires last { back ≤ length self.now }
        ensures { option_map (λ kept. kept.at) (slice_get self.now (back - 1)) ≡ Some result }
    {
        nth(&self.records, back - 1).at
    }

    /// Its working stack.
    #[tactic(auto, using(crate::proofs::Slots::part_of))]
    pub fn working(&self, back: u32) -> Ring
        requires first { 0 < back }
        requires last { back ≤ length self.now }
        ensures { option_map (λ kept. kept.working) (slice_get self.now (back - 1)) ≡ Some result }
    {
        self.row(back).working
    }

    /// Its return stack.
    #[tactic(auto, using(crate::proofs::Slots::part_of))]
    pub fn returns(&self, back: u32) -> Ring
        requires first { 0 < back }
        requires last { back ≤ length self.now }
        ensures { option_map (λ kept. kept.returns) (slice_get self.now (back - 1)) ≡ Some result }
    {
        self.row(back).returns
    }

    /// The byte that was stored in a port.
    pub fn stored(&self, back: u32, port: u8) -> u8
        requires first { 0 < back }
        requires last { back ≤ length self.now }
        ensures { option_map (λ kept. slice_index kept.stored port) (slice_get self.now (back - 1)) ≡ Some result }
    {
        self.row(back).stored[usize::from(port)]
    }

    /// The byte of bank 0 at an address: what the oldest of the newest `back` moments keeps that keeps this address, or else the
    /// byte of the machine's memory.
    pub fn byte(&self, core: &Core, back: u32, at: u16) -> u8
        requires first { 0 < back }
        requires last { back ≤ length self.now }
        ensures { result ≡ byte_back (take back self.now) at (slice_index core.now.memory at) }
    {
        let mut byte = core.memory.get(at);
        let mut begin = 0;
        for index in 0..back {
            let span = &nth(&self.records, index).span;
            if let Some(distance) = span.distance_to(at) {
                byte = byte_in(&self.bytes, begin + usize::from(distance));
            }
            begin += usize::from(span.count);
        }
        byte
    }

    // The row of the moment so many before.
    fn row(&self, back: u32) -> &Row
        requires first { 0 < back }
        requires last { back ≤ length self.now }
        ensures { option_map (λ kept. row_in kept) (slice_get self.now (back - 1)) ≡ Some result.now }
    {
        let slot = nth(&self.records, back - 1).slot;
        let rows = self.rows.as_slice();
        &rows[usize::from(slot)]
    }

    // Drops the oldest moments until there is room for one more that keeps so many bytes.
    fn make_room(&mut self, count: usize)
        requires { count < 65536 }
        ensures { self.new ≡ held_of 65535 (most_bytes - count) self.old }
    {
        while !self.has_room(count) {
            self.forget_oldest();
        }
    }

    // Whether there is room for one more moment that keeps so many bytes.
    #[inline(always)]
    #[tactic(auto, using(crate::proofs::Joined::bytes_held, crate::proofs::Joined::length_held, crate::proofs::Slots::alone_small))]
    fn has_room(&self, count: usize) -> bool
        requires { count < 65536 }
        ensures room { result ≡ (nat_lt (length self.now) most_moments && nat_le (sum_by byte_count self.now + count) most_bytes) }
        ensures alone { length self.now ≤ 1 → result ≡ true }
    {
        self.records.len() < MOST_MOMENTS && self.bytes.len() + count <= MOST_HELD
    }

    // Drops the oldest of several moments.
    fn forget_oldest(&mut self)
        requires { 1 < length self.old }
        ensures { self.new ≡ take (length self.old - 1) self.old }
    {
        let Some(oldest) = self.records.back() else {
            return;
        };
        let count = usize::from(oldest.span.count);
        let bytes = self.bytes.len();
        let records = self.records.len();
        self.bytes.truncate_back(bytes - count);
        self.records.truncate_back(records - 1);
    }
}

// A record, from the newest on.
fn nth(records: &HeapCircularBuffer<Record>, index: u32) -> &Record
    requires { index < length records.now.items }
    ensures { slice_get records.now.items index ≡ Some result.now }
{
    records.get(index as usize).unwrap()
}

// A byte, from the newest on.
fn byte_in(bytes: &HeapCircularBuffer<u8>, index: usize) -> u8
    requires { index < length bytes.now.items }
    ensures { result ≡ slice_index bytes.now.items index }
{
    *bytes.get(index).unwrap()
}

// Puts the bytes of memory at some addresses before those that are there.
fn put_bytes(bytes: &mut HeapCircularBuffer<u8>, memory: &Memory, span: Span)
    requires { length bytes.old.items + span.count ≤ bytes.old.capacity }
    ensures { bytes.new ≡ buffer (span_bytes_at span memory.now ++ bytes.old.items) bytes.old.capacity }
{
    let mut left = span.count;
    while let Some(less) = left.checked_sub(1) {
        left = less;
        bytes.push_front(memory.get(span.address_after_span(left)));
    }
}

/// What keeps one moment after another holds the newest of all of them, as many as there is room for.
#[tactic(auto, using(crate::proofs::Holding::holding_law))]
pub fn the_newest_moments_are_held()
    ensures { HoldingLaw }
{}

/// Where each moment's memory differs from the next one's only within the bytes that are kept for it, going back gives the
/// byte of the memory of the moment gone to.
#[tactic(auto, using(crate::proofs::GoingBack::going_back_law))]
pub fn going_back_gives_the_moment()
    ensures { GoingBackLaw }
{}
