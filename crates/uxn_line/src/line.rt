//! A line of machines, and its turns.
ghost use Rattle.std.specs.Prelude.{◌≡◌, ◌↔◌, ◌-◌, ◌+◌, ◌<◌, ◌≤◌, ◌∷◌, [], ℕ, suc, true, false};
ghost use Rattle.std.specs.Prelude.{option_to_list, Ok, IfOk, OnOk, OnErr, IsOk, is_err, length, slice_get, Some};
ghost use Rattle.std.specs.List.{All};
ghost use Rattle.uxn_io_traits.specs.State.{SinkState};
ghost use Rattle.uxn_memory.specs.Bytes.{largest_rom};
ghost use Rattle.vector_loop.specs.Places.{PlaceHasEnded};
ghost use Rattle.vector_loop.specs.PendingInputs.{pending_inputs_of};
ghost use Rattle.text_lines.specs.ScriptHeld.{bytes_in};
ghost use Rattle.text_lines.specs.ScriptLimits.{IsTime};
ghost use Rattle.uxn_line.specs.Streams.{LineJob, AreOfConsole, rom_at, script_at};
ghost use Rattle.uxn_line.specs.Members.{BeginsWith, IsOpen};
ghost use Rattle.uxn_line.specs.Standing.{Turned, none_turned, machine_place, InLine, LineRepresents, line_job};
ghost use Rattle.uxn_line.specs.declared.member.Member.{Member as LineMember};
ghost use Rattle.uxn_line.specs.Handing.{HandsOn};
ghost use Rattle.uxn_line.specs.Moves.{Came, Fails, Goes, MachineIsHeld, IsUnderWay, IsWaiting, StaysUnderWay, TurnCame, is_move, turned_by};

use crate::member::Member;
use crate::output::next_byte;
use console_port::console_write;
use std::alloc::{AllocError, Global};
use text_lines::{Clock, Script};
use uxn_io_traits::{Bytes, Failed, NoSink, Sink};
use uxn_limits::ports::CONSOLE_WRITE;
use vector_loop::InputQueue;

/// What a turn did, or why it did nothing.
#[derive(Clone, Copy, PartialEq, Eq)]
pub enum Moved {
    /// The machine ran one instruction.
    Ran,
    /// It was given its next byte or event.
    Gave,
    /// It is idle, and the machine before it may still hand on a byte.
    Waits,
    /// The ring behind it is full, and its next instruction hands on a byte.
    Held,
    /// Its run is over.
    Ended,
}

impl Moved {
    /// Whether the machine moved.
    pub(crate) fn is_move(self) -> bool
        ensures { result ≡ is_move self }
    {
        matches!(self, Moved::Ran | Moved::Gave)
    }
}

/// Machines in a line: what each writes to port 18 is given to the next one.
#[derive(Drop)]
pub struct Line<'a> {
    pub(crate) members: Vec<Member>,
    pub(crate) input_queue: InputQueue<'a>,
    pub(crate) budget: u32,
}

impl<'a> Line<'a> {
    /// The line of the ROMs, 2 to 8 of at most 65,280 bytes. The first machine has the script, whose events are of the
    /// console; the budget of every vector is at least 1. Takes all memory that the line will need.
    pub fn new(
        alloc: Global,
        roms: &[Bytes],
        script: &'a Script,
        budget: u32,
    ) -> Result<Line<'a>, AllocError>
        requires least { 2 ≤ length roms.now }
        requires most { length roms.now ≤ 8 }
        requires small { All (λ rom. length rom.list ≤ largest_rom) roms.now }
        requires events { AreOfConsole script.now.events }
        requires some { 1 ≤ budget }
        ensures stands { IfOk result (λ line. LineRepresents (line_job roms.now script.now budget) line none_turned) }
        ensures under_way { IfOk result (λ line. (out : SinkState) → IsUnderWay (line_job roms.now script.now budget) out line out) }
    {
        let input_queue = InputQueue::new(script);
        let members = members_of(alloc, roms, script, budget, input_queue.is_empty())?;
        Ok(Line {
            members,
            input_queue,
            budget,
        })
    }

    /// How many machines there are.
    pub fn machines(&self) -> usize
        ensures { result ≡ length self.now.members.items }
    {
        self.members.len()
    }

    /// Gives a machine, from 1, one turn: an instruction of its vector, or where it is idle what comes next to its console.
    /// Errors where `out` does not take the byte that the last machine writes; then the line and `out` are as before.
    pub fn turn<O: Sink>(&mut self, machine: u8, out: &mut O) -> Result<Moved, Failed>
        requires first { 1 ≤ machine }
        requires there { machine ≤ length self.old.members.items }

        // A line that represented numbers of turns represents the same ones, but one more of the machine where it moved. What the
        // last machine has written more was put.
        ensures goes { IfOk result (λ moved. Goes (turned_by moved (machine - 1)) self.old self.new
            (O.state out.old) (O.state out.new)) }

        // The last three answers come exactly where their causes hold. `Ran` comes only in a vector, and `Gave` only outside one.
        ensures ran { (job : LineJob) (turned : Turned) → LineRepresents job self.old turned → result ≡ Ok Moved.Ran
            → 1 ≤ (machine_place job turned (machine - 1)).left }
        ensures gave { (job : LineJob) (turned : Turned) → LineRepresents job self.old turned → result ≡ Ok Moved.Gave
            → (machine_place job turned (machine - 1)).left ≡ 0 }
        ensures waits { (job : LineJob) (turned : Turned) → LineRepresents job self.old turned
            → (result ≡ Ok Moved.Waits) ↔ IsWaiting job self.old turned (machine - 1) }
        ensures held { (job : LineJob) (turned : Turned) → LineRepresents job self.old turned
            → (result ≡ Ok Moved.Held) ↔ MachineIsHeld job self.old turned (machine - 1) }
        ensures ended { (job : LineJob) (turned : Turned) → LineRepresents job self.old turned
            → (result ≡ Ok Moved.Ended) ↔ PlaceHasEnded (machine_place job turned (machine - 1)) }

        // A failure comes only where the last machine is in a vector, and its next instruction writes a byte to port 18 that `out`
        // does not take; then nothing is changed, nor is it by the other three answers.
        ensures failed { OnErr result (Fails (machine - 1) self.old self.new (O.state out.old) (O.state out.new)) }
        ensures same { IfOk result (λ moved. is_move moved ≡ false → self.new ≡ self.old) }
        ensures machines { length self.new.members.items ≡ length self.old.members.items }

        // Of a line that was begun over `out`: what is put is a prefix of the stream of its last machine, which is not whole where
        // `out` fails, and an `out` that is guaranteed to take that stream does not fail.
        ensures under_way { (job : LineJob) (begun : SinkState) → IsUnderWay job begun self.old (O.state out.old)
            → StaysUnderWay job begun self.new (O.state out.new) (is_err result) }
    {
        self.turn_at(usize::from(machine) - 1, out)
    }

    // The same, counted from 0.
    pub(crate) fn turn_at<O: Sink>(&mut self, index: usize, out: &mut O) -> Result<Moved, Failed>
        requires { index < length self.old.members.items }
        ensures { TurnCame index self.old self.new (O.state out.old) (O.state out.new) result }
    {
        let member = &self.members[index];
        if member.is_over() {
            return Ok(Moved::Ended);
        }
        if member.machine.left == 0 {
            return Ok(self.give_at(index));
        }
        let byte = next_byte(&member.machine.core);
        if !self.hand_on(index, byte, out)? {
            return Ok(Moved::Held);
        }
        self.members[index].run();
        Ok(Moved::Ran)
    }

    // Hands on the byte that a machine is about to write to port 18, if it is: puts it where the machine is the last one, else gives
    // it to the next one. Answers false where the next one has no room for it; then nothing is changed.
    fn hand_on<O: Sink>(
        &mut self,
        index: usize,
        byte: Option<u8>,
        out: &mut O,
    ) -> Result<bool, Failed>
        requires { index < length self.old.members.items }
        ensures { HandsOn index (option_to_list byte) self.old self.new (O.state out.old) (O.state out.new) result }
    {
        match byte {
            Some(byte) => self.hand_on_byte(index, byte, out),
            None => Ok(true),
        }
    }

    // The same of a byte. Not inlined, so that an instruction that hands on nothing does not pay for it.
    #[inline(never)]
    fn hand_on_byte<O: Sink>(&mut self, index: usize, byte: u8, out: &mut O) -> Result<bool, Failed>
        requires { index < length self.old.members.items }
        ensures { HandsOn index (byte ∷ []) self.old self.new (O.state out.old) (O.state out.new) result }
    {
        if index + 1 == self.members.len() {
            console_write(out, &mut NoSink, CONSOLE_WRITE, byte)?;
            return Ok(true);
        }
        if self.members[index + 1].is_full() {
            return Ok(false);
        }
        self.members[index + 1].take(byte);
        Ok(true)
    }

    // Gives an idle machine whose run is not over what comes next.
    fn give_at(&mut self, index: usize) -> Moved
        requires { IsOpen self.old index }
        ensures { Came index result [] self.old self.new }
    {
        if index == 0 {
            return self.give_first();
        }
        self.give_behind(index - 1)
    }

    // Gives the machine behind one what comes next from that.
    fn give_behind(&mut self, before: usize) -> Moved
        requires { IsOpen self.old (suc before) }
        ensures { Came (suc before) result [] self.old self.new }
    {
        let none_comes = self.members[before].is_over();
        let behind = before + 1;
        if self.members[behind].must_wait(none_comes) {
            return Moved::Waits;
        }
        self.members[behind].give_next(self.budget);
        Moved::Gave
    }

    // Gives the first machine what comes next of the script.
    fn give_first(&mut self) -> Moved
        requires { IsOpen self.old 0 }
        ensures { Came 0 result [] self.old self.new }
    {
        let Some(pending_input) = self.input_queue.take() else {
            return Moved::Waits;
        };
        let last = self.input_queue.is_empty();
        self.members[0].give(pending_input, last, self.budget);
        Moved::Gave
    }
}

// The machines of a line of the ROMs, of which none has had a turn. `nothing` says whether the script gives nothing.
fn members_of(
    alloc: Global,
    roms: &[Bytes],
    script: &Script,
    budget: u32,
    nothing: bool,
) -> Result<Vec<Member>, AllocError>
    requires small { All (λ rom. length rom.list ≤ largest_rom) roms.now }
    requires some { 1 ≤ budget }
    requires given { (nothing ≡ true) ↔ (pending_inputs_of script.now ≡ []) }
    ensures count { IfOk result (λ members. length members.items ≡ length roms.now) }
    ensures each { IfOk result (λ members. (machine : ℕ) (member : LineMember) → slice_get members.items machine ≡ Some member
        → InLine (line_job roms.now script.now budget) none_turned machine member) }
{
    let mut members = Vec::with_capacity(alloc, roms.len())?;
    for (index, rom) in roms.iter().enumerate() {
        members.push(member_at(alloc, index, rom, script, budget, nothing)?)?;
    }
    Ok(members)
}

// The machine at a place of a line, from 0, before its first turn.
fn member_at(
    alloc: Global,
    index: usize,
    rom: &Bytes,
    script: &Script,
    budget: u32,
    nothing: bool,
) -> Result<Member, AllocError>
    requires small { length rom.now.list ≤ largest_rom }
    requires some { 1 ≤ budget }
    requires given { (nothing ≡ true) ↔ (pending_inputs_of script.now ≡ []) }
    ensures { IfOk result (λ member. (job : LineJob) → job.script ≡ script.now → job.budget ≡ budget → rom_at job index ≡ rom.now.list
        → InLine job none_turned index member) }
{
    let (arguments, clock, all_given) = start_of(index, script, nothing);
    Member::new(alloc, rom.as_slice(), arguments, clock, budget, all_given)
}

// What the machine at a place of a line begins with, from 0: its arguments, its clock, and whether nothing is given to it. The first one
// has those of the script.
fn start_of(index: usize, script: &Script, nothing: bool) -> (&[Bytes], Clock, bool)
    requires { (nothing ≡ true) ↔ (pending_inputs_of script.now ≡ []) }
    ensures time { IsTime result.1 }
    ensures starts { (job : LineJob) → job.script ≡ script.now → BeginsWith (script_at job index) (bytes_in result.0.now) result.1 result.2 }
{
    if index == 0 {
        script.known();
        return (script.args(), script.clock(), nothing);
    }
    let clock = Clock {
        seconds: 0,
        offset: 0,
    };
    (&[], clock, false)
}
