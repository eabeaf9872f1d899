//! A sink in memory, which fails on demand.
ghost use Rattle.std.specs.Prelude.{◌≡◌, ◌<◌, ◌≤◌, ◌==◌, false, [], length, take, IfOk, OnErr};
ghost use Rattle.std.specs.List.{list_any};
ghost use Rattle.uxn_io_traits.specs.Ended.{SinkEnded, SinkFailed};
ghost use Rattle.uxn_io.specs.InMemory.Sinks.{state_of, fails_at, put_answer, after_put};

use std::alloc::{AllocError, Global};
use std::marker::Model;
use uxn_io_traits::{Failed, Sink};

/// A sink that keeps what it takes, up to a room in bytes.
#[derive(Drop)]
pub struct MemSink {
    taken: Vec<u8>,
    room: usize,
    fails: Vec<u32>,
    calls: u64,
    faults: u64,
}

impl Model for MemSink {
    ghost use Rattle.std.specs.Prelude.{◌≤◌, vec_len, vec_capacity};
    ghost use Rattle.uxn_io.specs.InMemory.Sinks.{SinkInMemory};

    ghost Value = { SinkInMemory };

    ghost view = { λ s. record { taken = s.taken.items; room = s.room; fails = s.fails.items; calls = s.calls; faults = s.faults } };

    ghost invariant = { λ s. (vec_len s.taken ≤ s.room) × (s.room ≤ vec_capacity s.taken) };
}

impl MemSink {
    /// A sink with room for so many bytes, whose calls with the listed numbers, from 0, fail. It takes
    /// all its memory now. Errors when out of memory.
    pub fn new(alloc: Global, room: usize, fails: &[u32]) -> Result<MemSink, AllocError>
        ensures { IfOk result (λ sink. sink ≡ record { taken = []; room = room; fails = fails.now; calls = 0; faults = 0 }) }
    {
        Ok(MemSink {
            taken: Vec::with_capacity(alloc, room)?,
            room,
            fails: Vec::from_slice(alloc, fails)?,
            calls: 0,
            faults: 0,
        })
    }

    /// The bytes that it has taken.
    pub fn bytes(&self) -> &[u8]
        ensures { result.now ≡ self.now.taken }
    {
        self.taken.as_slice()
    }

    /// Whether the next `put` of this piece fails.
    fn fails_at(&self, piece: &[u8]) -> bool
        ensures { result ≡ fails_at self.now piece.now }
    {
        let is_full = self.taken.len() == self.room;
        is_listed(&self.fails, self.calls) || (!piece.is_empty() && is_full)
    }
}

impl Sink for MemSink {
    ghost state = { state_of };

    /// Takes as much as fits. It fails exactly where the number of the call is listed, or the piece is
    /// not empty and no room is left.
    fn put(&mut self, piece: &[u8]) -> Result<usize, Failed>
        ensures count { IfOk result (λ n. n ≤ length piece.now) }
        ensures some { IfOk result (λ n. 0 < length piece.now → 0 < n) }
        ensures taken { IfOk result (λ n. SinkEnded (take n piece.now) false (state_of self.old) (state_of self.new)) }
        ensures failed { OnErr result (SinkFailed piece.now (state_of self.old) (state_of self.new)) }

        ensures answer { result ≡ put_answer self.old piece.now }
        ensures after { self.new ≡ after_put self.old piece.now }
    {
        let fails = self.fails_at(piece);
        self.calls = self.calls.saturating_add(1);
        if fails {
            self.faults = self.faults.saturating_add(1);
            return Err(Failed);
        }
        let count = piece.len().min(self.room - self.taken.len());
        self.taken.extend_from_slice(&piece[..count]).unwrap();
        Ok(count)
    }
}

/// Whether a number is among those listed.
fn is_listed(listed: &[u32], number: u64) -> bool
    ensures { result ≡ list_any (λ n. n == number) listed.now }
{
    listed.iter().any(|n| u64::from(*n) == number)
}
