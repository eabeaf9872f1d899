//! One machine of a line: its core and its devices, with nothing outside. It can stop between any two instructions.
ghost use Rattle.std.specs.Prelude.{◌++◌, ◌≤◌, ◌==◌, IfOk, None, length, ◌≡◌, ℕ, ◌<◌, ◌∷◌, [], List, false};
ghost use Rattle.uxn_limits.specs.declared.ports.TheConstants.{SYSTEM_STATE, CONSOLE_VECTOR, CONSOLE_READ, CONSOLE_TYPE};
ghost use Rattle.uxn_memory.specs.Bytes.{largest_rom};
ghost use Rattle.uxn_opcodes.specs.Rule.{opcode_at};
ghost use Rattle.console_port.specs.Console.{event_byte};
ghost use Rattle.text_lines.specs.ScriptHeld.{bytes_in};
ghost use Rattle.text_lines.specs.ScriptLimits.{IsTime};
ghost use Rattle.text_lines.specs.Scripts.{ScriptView};
ghost use Rattle.uxn_line.specs.Streams.{clock_by, first_place};
ghost use Rattle.varvara_bus.specs.History.{stored, stored_short};
ghost use Rattle.varvara_bus.specs.State.{DeviceState, storing};
ghost use Rattle.varvara_bus.specs.Model.{instruction_effect};
ghost use Rattle.vector_loop.specs.State.{State, is_over};
ghost use Rattle.vector_loop.specs.Trace.{Trace};
ghost use Rattle.vector_loop.specs.declared.pending_input.PendingInput.{PendingInput};
ghost use Rattle.vector_loop.specs.PendingInputs.{console_byte_of};
ghost use Rattle.vector_loop.specs.Places.{Place, vector_begins};
ghost use Rattle.uxn_line.specs.Places.{turn, put_in, IsForConsole};
ghost use Rattle.uxn_line.specs.Machines.{Rests, MachineHasDone, MachineRepresents, handed_on};

use console_port::EventKind;
use std::alloc::{AllocError, Global};
use text_lines::Clock as ScriptClock;
use uxn_io_traits::{Bytes, NoSink, NoTree};
use uxn_limits::ports::{CONSOLE_VECTOR, SYSTEM_STATE};
use uxn_opcodes::{Core, Turn, step};
use varvara_bus::{Bus, Clock, Devices};
use vector_loop::PendingInput;

/// A machine in the middle of its run.
#[derive(Drop)]
pub struct Machine {
    /// The core.
    pub core: Core,
    /// The devices, which have no root.
    pub devices: Devices,
    /// What is left of the budget of the vector that runs; 0 where the machine is idle.
    pub left: u32,
}

/// Runs one instruction, and says whether it was BRK. Nothing outside is there and there is no root, so it never stops.
fn run_instruction(core: &mut Core, devices: &mut Devices) -> bool
    ensures broke { result ≡ (opcode_at core.old == 0) }
    ensures done { (state : DeviceState) → Rests devices.old state → MachineHasDone core.new devices.new (instruction_effect state core.old) }
{
    let mut tree = NoTree;
    let mut out = NoSink;
    let mut err = NoSink;
    let mut bus = Bus::new(devices, &mut tree, &mut out, &mut err);
    let done = step(core, &mut bus);
    done == Ok(Turn::Broke)
}

/// Stores a byte and a kind at the console, and gives the address of its vector.
fn hold(devices: &mut Devices, byte: u8, kind: EventKind) -> u16
    ensures devices { (state : DeviceState) → Rests devices.old state
        → Rests devices.new (storing ((CONSOLE_READ, byte) ∷ (CONSOLE_TYPE, event_byte kind) ∷ []) state) }
    ensures vector { (state : DeviceState) → Rests devices.old state
        → result ≡ stored_short (storing ((CONSOLE_READ, byte) ∷ (CONSOLE_TYPE, event_byte kind) ∷ []) state).history CONSOLE_VECTOR }
{
    devices.give(byte, kind.byte());
    devices.stored_short(CONSOLE_VECTOR)
}

/// The clock of a machine, by that of its script.
pub fn clock_of(clock: ScriptClock) -> Clock
    ensures { result ≡ clock_by clock }
{
    Clock {
        seconds: clock.seconds,
        offset: clock.offset,
    }
}

impl Machine {
    /// The new machine of a ROM, with the arguments and the clock of a script, about to run its reset vector.
    pub fn new(
        alloc: Global,
        rom: &[u8],
        arguments: &[Bytes],
        clock: ScriptClock,
        budget: u32,
    ) -> Result<Machine, AllocError>
        requires small { length rom.now ≤ largest_rom }
        requires time { IsTime clock }
        ensures { IfOk result (λ machine. (script : ScriptView) → script.arguments ≡ bytes_in arguments.now → script.clock ≡ clock
            → MachineRepresents machine (first_place budget rom.now script)) }
    {
        let core = Core::new(alloc, rom)?;
        let mut devices = Devices::new(alloc, None, clock_of(clock))?;
        devices.make_ready(arguments.len());
        Ok(Machine {
            core,
            devices,
            left: budget,
        })
    }

    /// Runs one instruction of the vector that runs.
    pub fn run(&mut self)
        requires { 0 < self.old.left }
        ensures left { self.new.left < self.old.left }
        ensures stands { (budget : ℕ) (now : Place) → MachineRepresents self.old now → MachineRepresents self.new (turn budget now) }
        ensures put { (budget : ℕ) (now : Place) → MachineRepresents self.old now
            → put_in (turn budget now) ≡ put_in now ++ handed_on self.old.core }
    {
        let broke = run_instruction(&mut self.core, &mut self.devices);
        self.left = if broke { 0 } else { self.left - 1 };
    }

    /// Gives an idle machine whose run is not over what comes next. What is not for the console does nothing.
    pub fn give(&mut self, pending_input: PendingInput, budget: u32)
        requires { self.old.left ≡ 0 }
        ensures left { self.new.left ≤ budget }
        ensures stands { (now : Place) (pending_inputs : List PendingInput) → MachineRepresents self.old now
            → now.pending_inputs ≡ pending_input ∷ pending_inputs
            → IsForConsole pending_input → is_over now.done.last ≡ false → MachineRepresents self.new (turn budget now) }
        ensures others { console_byte_of pending_input ≡ None → self.new ≡ self.old }
    {
        let Some((byte, kind)) = pending_input.console_byte() else {
            return;
        };
        let address = hold(&mut self.devices, byte, kind);
        self.begin(address, budget);
    }

    // Begins a vector at an address, unless that is 0.
    fn begin(&mut self, address: u16, budget: u32)
        requires { self.old.left ≡ 0 }
        ensures most { self.new.left ≤ budget }
        ensures begins { (held : State) (done : Trace) (later : List PendingInput) → self.old.core ≡ held.core
            → Rests self.old.devices held.devices → address ≡ stored_short held.devices.history CONSOLE_VECTOR
            → MachineRepresents self.new (vector_begins budget held done later) }
    {
        if address != 0 {
            self.core.at = address;
            self.left = budget;
        }
    }

    /// The byte in the port of the state, which ends the run of an idle machine where it is not 0.
    pub(crate) fn state(&self) -> u8
        ensures { (now : Place) → MachineRepresents self.now now → result ≡ stored now.done.last.devices.history SYSTEM_STATE }
    {
        self.devices.stored(SYSTEM_STATE)
    }
}
