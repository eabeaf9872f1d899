//! Events.
ghost use Rattle.std.specs.Prelude.{◌≡◌, ◌==◌, ◌+◌, ◌*◌, ◌^◌, ◌-◌, ◌<◌, ◌≤◌, ◌⊎◌, None, OnOk, IfErr};
ghost use Rattle.uxn_limits.specs.declared.limits.TheConstants.{MOST_EVENTS};
ghost use Rattle.text_lines.specs.declared.script.Event.TheVariants as events;
ghost use Rattle.uxn_io_traits.specs.Ended.{RefusesNone};
ghost use Rattle.uxn_io_traits.specs.Faults.{Ledger};
ghost use Rattle.uxn_opcodes.specs.Ports.{result_blame};
ghost use Rattle.varvara_bus.specs.Bus.{BusRepresents, SameBorrowed, FilesStay, HasRoot, meaning_of, frames_begun, bus_faults, contents_on};
ghost use Rattle.varvara_bus.specs.ReadsPort.{read_of};
ghost use Rattle.varvara_bus.specs.State.{DeviceState};
ghost use Rattle.vector_loop.specs.State.{counting_expect, is_over};
ghost use Rattle.vector_loop.specs.Event.{vector_in, console, device, happens, give};
ghost use Rattle.vector_loop.specs.Outputs.{OutputsThere};
ghost use Rattle.vector_loop.specs.Follows.{running, models_of, running_state, FollowsFrom, FallsShortFrom, HasGrown, IsCompared};
ghost use Rattle.vector_loop.specs.Stops.{StopsInFrom, ShotLeaves};
ghost use Rattle.vector_loop.specs.Watch.{MayRefuse};
ghost use Rattle.vector_loop.specs.Answers.{of_vectors, of_events, HasTallyRoom, HasOutputs, running_of, Answers};

use crate::output::{Outputs, keep_picture};
use crate::runner::Runner;
use crate::tally::Tally;
use crate::watch::Watcher;
use console_port::EventKind;
use input_ports::{Input, vector_port};
use text_lines::Event;
use uxn_io_traits::{Sink, Tree};
use uxn_limits::ports::{CONSOLE_VECTOR, SYSTEM_STATE};
use uxn_opcodes::{Core, Ports, Stop};
use varvara_bus::Bus;

impl<'r, 'a, T: Tree, O: Sink, E: Sink, W: Watcher> Runner<'r, 'a, T, O, E, W> {
    /// Whether the run is over: the byte in the port of the state is not 0.
    pub(crate) fn is_over(&self) -> bool
        ensures { (devices : DeviceState) → BusRepresents (contents_on T.Tree) self.now.bus.now devices
            → result ≡ is_over (running_state (running_of self.now) devices) }
    {
        self.bus.stored(SYSTEM_STATE) != 0
    }

    /// Runs the vector whose address is in two ports, unless it is 0.
    pub(crate) fn run_vector_in(&mut self, port: u8) -> Result<(), Stop>
        requires port { port < 255 }
        requires room { HasTallyRoom self.old.tally self.old.budget (of_vectors 1) }
        ensures { Answers (models_of T.Tree O.Sink E.Sink W.Watcher) self.old self.new
            (vector_in self.old.budget port) (of_vectors 1) result }
    {
        let at = self.bus.stored_short(port);
        if at == 0 {
            return Ok(());
        }
        self.run_vector(at).and(Ok(()))
    }

    /// Gives the console a byte of a kind.
    pub(crate) fn give_console(&mut self, byte: u8, kind: EventKind) -> Result<(), Stop>
        requires { HasTallyRoom self.old.tally self.old.budget (of_vectors 1) }
        ensures { Answers (models_of T.Tree O.Sink E.Sink W.Watcher) self.old self.new
            (console self.old.budget byte kind) (of_vectors 1) result }
    {
        self.bus.give(byte, kind.byte());
        self.run_vector_in(CONSOLE_VECTOR)
    }

    /// Gives the controller or the mouse an input, which is settled after its vector.
    fn give_device(&mut self, input: &Input) -> Result<(), Stop>
        requires { HasTallyRoom self.old.tally self.old.budget (of_vectors 1) }
        ensures { Answers (models_of T.Tree O.Sink E.Sink W.Watcher) self.old self.new
            (device self.old.budget input.now) (of_vectors 1) result }
    {
        self.bus.apply(input);
        self.run_vector_in(vector_port(input))?;
        if self.is_over() {
            return Ok(());
        }
        self.bus.settle(input);
        Ok(())
    }

    /// Gives an event: its ports are stored, its vector is run unless it is 0, and what is 0 again after the vector is
    /// stored, unless the state is then not 0.
    pub(crate) fn give_event(&mut self, event: &Event, outputs: &Outputs) -> Result<(), Stop>
        requires outputs { HasOutputs (contents_on T.Tree) outputs.now self.old }
        requires frames { event.now ≡ events.Frame → frames_begun self.old.bus.now < MOST_EVENTS }
        requires room { HasTallyRoom self.old.tally self.old.budget (of_events 1) }
        ensures answers { Answers (models_of T.Tree O.Sink E.Sink W.Watcher) self.old self.new
            (give self.old.budget outputs.now event.now) (of_events 1) result }
        ensures shot { event.now ≡ events.Shot → ShotLeaves (contents_on T.Tree) (running_of self.old) (running_of self.new) }
    {
        self.tally.events += 1;
        match event {
            Event::Input(byte) => self.give_console(*byte, EventKind::Input),
            Event::EndInput => self.give_console(0, EventKind::End),
            Event::Device(input) => self.give_device(input),
            Event::Frame => {
                self.tally.frames += 1;
                self.bus.frame_begins();
                self.show_and_sound(outputs)
            }
            Event::Expect(port, byte) => {
                compare(self.core, self.bus, *port, *byte, &mut self.tally);
                Ok(())
            }
            Event::Shot => {
                self.tally.shots += 1;
                let _ = self.bus.refresh();
                keep_picture(self.bus, &outputs.frames)
            }
        }
    }
}

/// Compares what a port reads with a byte. No port is stored, and no vector is run.
fn compare<'a, T: Tree, O: Sink, E: Sink>(
    core: &Core,
    bus: &Bus<'a, T, O, E>,
    port: u8,
    byte: u8,
    tally: &mut Tally,
)
    requires expects { tally.old.expects < 2 ^ 64 - 1 }
    requires misses { tally.old.misses < 2 ^ 64 - 1 }
    ensures counted { (devices : DeviceState) → BusRepresents (contents_on T.Tree) bus.now devices
        → tally.new ≡ counting_expect (read_of devices core.now port == byte) tally.old }
    ensures grown { IsCompared tally.old tally.new }
{
    let read = bus.dei(core, port);
    tally.expects += 1;
    if read != byte {
        tally.misses += 1;
    }
}

/// Gives one event of a script: its ports are stored, its vector is run unless it is 0, and what is 0 again
/// after the vector is stored, unless the state is then not 0.
pub fn run_event<'a, T: Tree, O: Sink, E: Sink, W: Watcher>(
    core: &mut Core,
    bus: &mut Bus<'a, T, O, E>,
    event: &Event,
    outputs: &Outputs,
    budget: u32,
    tally: &mut Tally,
    watcher: &mut W,
) -> Result<(), Stop>
    requires outputs { OutputsThere outputs.now bus.old.devices.now.root (T.state bus.old.tree.now).contents }
    requires frames { event.now ≡ events.Frame → frames_begun bus.old < MOST_EVENTS }
    requires budget { 1 ≤ budget }
    requires instructions { tally.old.instructions ≤ 2 ^ 61 }
    requires vectors { tally.old.vectors ≤ 2 ^ 61 }
    requires cuts { tally.old.cuts ≤ 2 ^ 61 }
    requires event_count { tally.old.events ≤ 2 ^ 61 }
    requires frame_count { tally.old.frames ≤ 2 ^ 61 }
    requires shot_count { tally.old.shots ≤ 2 ^ 61 }
    requires expect_count { tally.old.expects ≤ 2 ^ 61 }
    requires miss_count { tally.old.misses ≤ 2 ^ 61 }

    // From each state that the bus represented, all of the event was done, or a prefix of what it does.
    ensures ok { OnOk result (FollowsFrom (models_of T.Tree O.Sink E.Sink W.Watcher)
        (running core.old bus.old tally.old watcher.old) (running core.new bus.new tally.new watcher.new) (give budget outputs.now event.now)) }
    ensures err { IfErr result (λ stop. FallsShortFrom (models_of T.Tree O.Sink E.Sink W.Watcher)
        (running core.old bus.old tally.old watcher.old) (running core.new bus.new tally.new watcher.new) stop (give budget outputs.now event.now)) }
    ensures grown { HasGrown tally.old tally.new 5 1 budget }

    // Where it stopped, all was done up to one instruction, or up to the picture or the samples that were appended.
    ensures stopped { IfErr result (λ stop. StopsInFrom (models_of T.Tree O.Sink E.Sink W.Watcher)
        (running core.old bus.old tally.old watcher.old) (running core.new bus.new tally.new watcher.new) stop (give budget outputs.now event.now)) }

    // A shot is counted and refreshes the screen, and changes nothing else of the machine, whatever is answered.
    ensures shot { event.now ≡ events.Shot → ShotLeaves (contents_on T.Tree)
        (running core.old bus.old tally.old watcher.old) (running core.new bus.new tally.new watcher.new) }

    // A fault comes only where its count rose; memory runs out only to the watcher, or beneath a root where the event takes
    // the names of a folder.
    ensures ledger { Ledger (bus_faults (meaning_of T.Tree O.Sink E.Sink) bus.old)
        (bus_faults (meaning_of T.Tree O.Sink E.Sink) bus.new) (result_blame result) }
    ensures memory { IfErr result (λ stop. stop ≡ Stop.NoMemory → MayRefuse W.may_refuse ⊎ HasRoot bus.old.devices.now) }
    ensures borrowed { SameBorrowed bus.old bus.new }
    ensures root { bus.new.devices.now.root ≡ bus.old.devices.now.root }
    ensures files { FilesStay bus.old.devices.now.root (T.state bus.old.tree.now).contents (T.state bus.new.tree.now).contents }
    ensures refusals { bus.old.devices.now.root ≡ None → RefusesNone (T.state bus.old.tree.now) (T.state bus.new.tree.now) }
    ensures begun { frames_begun bus.new ≤ frames_begun bus.old + 1 }
{
    let mut runner = Runner {
        core,
        bus,
        watcher,
        tally: *tally,
        budget,
    };
    let given = runner.give_event(event, outputs);
    *tally = runner.tally;
    given
}
