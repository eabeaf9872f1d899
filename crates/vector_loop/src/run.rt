//! Whole runs.
ghost use Rattle.std.specs.Prelude.{◌≡◌, ◌+◌, ◌≤◌, ◌⊎◌, None, OnOk, IfOk, IfErr};
ghost use Rattle.uxn_limits.specs.declared.limits.TheConstants.{MOST_EVENTS};
ghost use Rattle.uxn_io_traits.specs.Ended.{RefusesNone};
ghost use Rattle.uxn_io_traits.specs.Faults.{Ledger};
ghost use Rattle.uxn_opcodes.specs.Ports.{result_blame};
ghost use Rattle.varvara_bus.specs.Bus.{
  SameBorrowed,
  FilesStay,
  HasRoot,
  meaning_of,
  frames_begun,
  bus_faults,
  contents_on,
};
ghost use Rattle.vector_loop.specs.State.{new_tally};
ghost use Rattle.vector_loop.specs.Outputs.{OutputsThere};
ghost use Rattle.vector_loop.specs.Watch.{MayRefuse};
ghost use Rattle.vector_loop.specs.Event.{unless_over, give_each};
ghost use Rattle.vector_loop.specs.Run.{most_of, run};
ghost use Rattle.vector_loop.specs.PendingInputs.{given, input_count, counts_of};
ghost use Rattle.vector_loop.specs.Follows.{running, models_of, FallsShortFrom, EndsFrom};
ghost use Rattle.vector_loop.specs.Stops.{RunStops};
ghost use Rattle.vector_loop.specs.Answers.{HasTallyRoom, HasOutputs, Answers, Finishes};

use crate::input_queue::InputQueue;
use crate::output::Outputs;
use crate::pending_input::PendingInput;
use crate::runner::Runner;
use crate::tally::Tally;
use crate::watch::{Moment, Watcher};
use text_lines::Script;
use uxn_io_traits::{Sink, Tree};
use uxn_opcodes::{Core, Stop};
use varvara_bus::Bus;

/// Where the reset vector begins.
const RESET: u16 = 0x0100;

impl<'r, 'a, T: Tree, O: Sink, E: Sink, W: Watcher> Runner<'r, 'a, T, O, E, W> {
    /// Gives one thing, unless the run is over.
    fn deliver(&mut self, pending_input: PendingInput, outputs: &Outputs) -> Result<(), Stop>
        requires outputs { HasOutputs (contents_on T.Tree) outputs.now self.old }
        requires frames { frames_begun self.old.bus.now + (input_count pending_input).events ≤ MOST_EVENTS }
        requires room { HasTallyRoom self.old.tally self.old.budget (input_count pending_input) }
        ensures { Answers (models_of T.Tree O.Sink E.Sink W.Watcher) self.old self.new
            (unless_over (given self.old.budget outputs.now pending_input)) (input_count pending_input) result }
    {
        if self.is_over() {
            return Ok(());
        }
        match pending_input {
            PendingInput::OfArgument(byte, kind) => self.give_console(byte, kind),
            PendingInput::OfEvent(event) => self.give_event(&event, outputs),
        }
    }

    /// Gives all that is left of a script, one thing after the other, each unless the run is over.
    fn give_all(&mut self, mut input_queue: InputQueue<'_>, outputs: &Outputs) -> Result<(), Stop>
        requires outputs { HasOutputs (contents_on T.Tree) outputs.now self.old }
        requires frames { frames_begun self.old.bus.now + (counts_of input_queue).events ≤ MOST_EVENTS }
        requires room { HasTallyRoom self.old.tally self.old.budget (counts_of input_queue) }
        ensures { Answers (models_of T.Tree O.Sink E.Sink W.Watcher) self.old self.new
            (give_each (given self.old.budget outputs.now) input_queue.entry) (counts_of input_queue.entry) result }
    {
        while let Some(pending_input) = input_queue.take() {
            self.deliver(pending_input, outputs)?;
        }
        Ok(())
    }

    /// Runs the reset vector, and gives the arguments and the events of a script.
    fn run(&mut self, script: &Script, outputs: &Outputs) -> Result<(), Stop>
        requires outputs { HasOutputs (contents_on T.Tree) outputs.now self.old }
        requires frames { frames_begun self.old.bus.now + (most_of script.now).events ≤ MOST_EVENTS }
        requires room { HasTallyRoom self.old.tally self.old.budget (most_of script.now) }
        ensures { Answers (models_of T.Tree O.Sink E.Sink W.Watcher) self.old self.new
            (run self.old.budget outputs.now script.now) (most_of script.now) result }
    {
        self.bus.make_ready(script.args().len());
        self.run_vector(RESET)?;
        self.give_all(InputQueue::new(script), outputs)
    }

    /// Shows the watcher the end of the run, and gives what was counted.
    fn finish(&mut self) -> Result<Tally, Stop>
        ensures { Finishes (models_of T.Tree O.Sink E.Sink W.Watcher) self.old self.new result }
    {
        let moment = Moment {
            instructions: self.tally.instructions,
            address: self.core.at,
        };
        match self.watcher.finish(self.core, self.bus, moment) {
            Ok(()) => Ok(self.tally),
            Err(_) => Err(Stop::NoMemory),
        }
    }
}

/// Runs a program: its reset vector, the arguments and the events of a script, and then the watcher's `finish`.
/// A vector that leaves a byte other than 0 in port 0f ends the run: nothing more is given.
pub fn run_script<'a, T: Tree, O: Sink, E: Sink, W: Watcher>(
    core: &mut Core,
    bus: &mut Bus<'a, T, O, E>,
    script: &Script,
    outputs: &Outputs,
    budget: u32,
    watcher: &mut W,
) -> Result<Tally, Stop>
    requires outputs { OutputsThere outputs.now bus.old.devices.now.root (T.state bus.old.tree.now).contents }
    requires frames { frames_begun bus.old ≡ 0 }
    requires budget { 1 ≤ budget }

    // From each state that the bus represented, all of the run was done, or a prefix of what it does.
    ensures ok { IfOk result (λ tally. EndsFrom (models_of T.Tree O.Sink E.Sink W.Watcher)
        (running core.old bus.old new_tally watcher.old) (running core.new bus.new tally watcher.new) (run budget outputs.now script.now)) }
    ensures err { IfErr result (λ stop. FallsShortFrom (models_of T.Tree O.Sink E.Sink W.Watcher)
        (running core.old bus.old new_tally watcher.old) (running core.new bus.new new_tally watcher.new) stop (run budget outputs.now script.now)) }

    // Where it stopped, all was done up to one instruction, or to the picture or the samples that were appended, or to the end.
    ensures stopped { IfErr result (λ stop. RunStops (models_of T.Tree O.Sink E.Sink W.Watcher)
        (running core.old bus.old new_tally watcher.old) core.new bus.new watcher.new stop (run budget outputs.now script.now)) }

    // A fault comes only where its count rose; memory runs out only to the watcher, or beneath a root where the run takes
    // the names of a folder.
    ensures ledger { Ledger (bus_faults (meaning_of T.Tree O.Sink E.Sink) bus.old)
        (bus_faults (meaning_of T.Tree O.Sink E.Sink) bus.new) (result_blame result) }
    ensures memory { IfErr result (λ stop. stop ≡ Stop.NoMemory → MayRefuse W.may_refuse ⊎ HasRoot bus.old.devices.now) }
    ensures borrowed { SameBorrowed bus.old bus.new }
    ensures files { OnOk result (FilesStay bus.old.devices.now.root (T.state bus.old.tree.now).contents (T.state bus.new.tree.now).contents) }

    // Without a root no file is refused.
    ensures refusals { bus.old.devices.now.root ≡ None → RefusesNone (T.state bus.old.tree.now) (T.state bus.new.tree.now) }
{
    script.known();
    let tally = Tally {
        instructions: 0,
        vectors: 0,
        cuts: 0,
        events: 0,
        frames: 0,
        shots: 0,
        expects: 0,
        misses: 0,
    };
    let mut runner = Runner {
        core,
        bus,
        watcher,
        tally,
        budget,
    };
    runner.run(script, outputs)?;
    runner.finish()
}
