//! A machine in a line, with the bytes that were handed to it.
ghost use Rattle.std.specs.Prelude.{◌≡◌, ◌↔◌, ◌++◌, ◌∷◌, [], ℕ, ◌<◌, ◌≤◌, true, false, IfOk, drop, is_none, length, slice_get};
ghost use Rattle.circular_buffer.specs.Buffer.{buffer};
ghost use Rattle.uxn_memory.specs.Bytes.{largest_rom};
ghost use Rattle.text_lines.specs.ScriptHeld.{bytes_in};
ghost use Rattle.text_lines.specs.ScriptLimits.{IsTime};
ghost use Rattle.text_lines.specs.Scripts.{ScriptView};
ghost use Rattle.vector_loop.specs.Places.{Place, PlaceHasEnded};
ghost use Rattle.uxn_line.specs.Streams.{first_place};
ghost use Rattle.uxn_line.specs.Machines.{MachineRepresents};
ghost use Rattle.uxn_line.specs.Members.{BeginsWith, MemberAt, member_has_ended, next_pending, handed};
ghost use Rattle.uxn_line.specs.MemberTurns.{KeepsRing, HasRun, MemberWasGiven};
ghost use Rattle.uxn_line.specs.Work.{work};

use crate::machine::Machine;
use circular_buffer::HeapCircularBuffer;
use std::alloc::{AllocError, Global};
use text_lines::{Clock, Event};
use uxn_io_traits::Bytes;
use vector_loop::PendingInput;

/// How many bytes the ring before a machine has room for.
const ROOM: usize = 256;

/// A machine in the middle of its run, and its ring.
#[derive(Drop)]
pub struct Member {
    /// The machine.
    pub machine: Machine,
    /// The bytes that were handed to it and that it has not been given yet; none where its run is over.
    pub ring: HeapCircularBuffer<u8>,
    /// Whether it was given all that it is ever given.
    pub all_given: bool,
    /// The byte in the port of its state when it last was idle.
    pub state: u8,
}

impl Member {
    /// A new machine of a ROM, with an empty ring.
    pub fn new(
        alloc: Global,
        rom: &[u8],
        arguments: &[Bytes],
        clock: Clock,
        budget: u32,
        all_given: bool,
    ) -> Result<Member, AllocError>
        requires small { length rom.now ≤ largest_rom }
        requires time { IsTime clock }
        requires some { 1 ≤ budget }
        ensures stands { IfOk result (λ member. (script : ScriptView) → BeginsWith script (bytes_in arguments.now) clock all_given
            → MemberAt member (first_place budget rom.now script)) }
        ensures ring { IfOk result (λ member. member.ring ≡ buffer [] 256) }
    {
        let ring = HeapCircularBuffer::with_capacity(alloc, ROOM)?;
        let machine = Machine::new(alloc, rom, arguments, clock, budget)?;
        Ok(Member {
            machine,
            ring,
            all_given,
            state: 0,
        })
    }

    /// Whether its run is over: it is idle, and its state is not 0 or all was given.
    pub fn is_over(&self) -> bool
        ensures value { result ≡ member_has_ended self.now }
        ensures ended { (now : Place) → MemberAt self.now now → (result ≡ true) ↔ PlaceHasEnded now }
    {
        self.machine.left == 0 && (self.state != 0 || self.all_given)
    }

    // Sees whether the run is over. Then nothing is kept for it.
    fn settle(&mut self)
        ensures stands { (now : Place) → MachineRepresents self.old.machine now → (self.old.all_given ≡ true) ↔ (now.pending_inputs ≡ [])
            → MemberAt self.new now }
        ensures ring { KeepsRing self.old self.new self.old.ring.items }
        ensures left { self.new.machine.left ≡ self.old.machine.left }
        ensures given { self.new.all_given ≡ self.old.all_given }
    {
        if self.machine.left > 0 {
            return;
        }
        self.state = self.machine.state();
        if self.is_over() {
            self.ring.clear();
        }
    }

    /// Runs one instruction of the vector that runs.
    pub fn run(&mut self)
        requires { 0 < self.old.machine.left }
        ensures ran { HasRun self.old self.new }
        ensures work { (budget before : ℕ) → work budget before self.new < work budget before self.old }
    {
        self.machine.run();
        self.settle();
    }

    /// Gives an idle machine whose run is not over what comes next, and says whether that is the last.
    pub fn give(&mut self, pending_input: PendingInput, last: bool, budget: u32)
        requires { self.old.machine.left ≡ 0 }
        ensures { MemberWasGiven budget pending_input last self.old.ring.items self.old self.new }
    {
        self.machine.give(pending_input, budget);
        self.all_given = last;
        self.settle();
    }

    /// Whether its ring is empty and a byte may still be handed to it.
    pub fn must_wait(&self, none_comes: bool) -> bool
        ensures waits { result ≡ true → (self.now.ring.items ≡ []) × (none_comes ≡ false) }
        ensures goes { result ≡ false → self.now.ring.items ≡ [] → none_comes ≡ true }
    {
        self.ring.is_empty() && !none_comes
    }

    /// Gives an idle machine whose run is not over the next byte of its ring, or the end of its input where the ring is empty.
    pub fn give_next(&mut self, budget: u32)
        requires { self.old.machine.left ≡ 0 }
        ensures { MemberWasGiven budget (next_pending (slice_get self.old.ring.items 0)) (is_none (slice_get self.old.ring.items 0))
            (drop 1 self.old.ring.items) self.old self.new }
    {
        let byte = self.ring.pop_front();
        self.give(next_pending(byte), byte.is_none(), budget);
    }

    /// Whether its run is not over and its ring is full.
    pub fn is_full(&self) -> bool
        ensures full { result ≡ true → (member_has_ended self.now ≡ false) × (length self.now.ring.items ≡ self.now.ring.capacity) }
        ensures room { member_has_ended self.now ≡ false → result ≡ false → length self.now.ring.items < self.now.ring.capacity }
    {
        !self.is_over() && self.ring.len() >= self.ring.capacity()
    }

    /// Keeps a byte that is handed to it, unless its run is over.
    pub fn take(&mut self, byte: u8)
        requires { member_has_ended self.old ≡ false → length self.old.ring.items < self.old.ring.capacity }
        ensures { self.new ≡ handed (byte ∷ []) self.old }
    {
        if !self.is_over() {
            self.ring.push_back(byte);
        }
    }
}

/// What comes next to a machine before which this is the first byte: it, or the end where there is none.
fn next_pending(byte: Option<u8>) -> PendingInput
    ensures { result ≡ next_pending byte }
{
    match byte {
        Some(byte) => PendingInput::OfEvent(Event::Input(byte)),
        None => PendingInput::OfEvent(Event::EndInput),
    }
}
