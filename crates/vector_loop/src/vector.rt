//! The run of a vector.
ghost use Rattle.std.specs.Prelude.{◌≡◌, ◌≢◌, ◌+◌, ◌*◌, ◌^◌, ◌<◌, ◌≤◌, ◌-◌, ◌⊎◌, true, false, Ok, IfOk, OnOk, IfErr};
ghost use Rattle.uxn_io_traits.specs.Faults.{Ledger};
ghost use Rattle.uxn_opcodes.specs.Ports.{result_blame};
ghost use Rattle.varvara_bus.specs.State.{DeviceState};
ghost use Rattle.varvara_bus.specs.Bus.{BusRepresents, SameBus, HasRoot, meaning_of, bus_faults, bus_rules, contents_on};
ghost use Rattle.vector_loop.specs.Vector.{vector, vector_end};
ghost use Rattle.vector_loop.specs.Follows.{running, models_of, running_state, FollowsFrom, FallsShortFrom};
ghost use Rattle.vector_loop.specs.Stops.{StopsInFrom};
ghost use Rattle.vector_loop.specs.Watch.{MayRefuse};
ghost use Rattle.vector_loop.specs.Budget.{budget_with_break, counting_run, CountsWhole};
ghost use Rattle.vector_loop.specs.Answers.{of_vectors, HasTallyRoom, running_of, Answers, RanTo};

use crate::runner::Runner;
use crate::tally::{Tally, VectorEnd};
use crate::watch::{Moment, Watcher};
use uxn_io_traits::{Sink, Tree};
use uxn_opcodes::{Core, Stop, Turn, step_from};
use varvara_bus::Bus;

/// How a run of instructions ended, and how much of its budget was left before its end: a BRK has not taken its own from it yet.
#[derive(Drop)]
struct Ran {
    end: Result<VectorEnd, Stop>,
    left: u64,
}

/// Runs instructions from `core.at` on, up to and with the first BRK, or exactly `budget` of them. So much was counted before. The
/// loop counts nothing else and keeps the registers in variables, since it is here that a run spends its time.
#[inline(never)]
fn run_instructions<'a, T: Tree, O: Sink, E: Sink, W: Watcher>(
    core: &mut Core,
    bus: &mut Bus<'a, T, O, E>,
    tally: &Tally,
    budget: u64,
    watcher: &mut W,
) -> Ran
    requires budget { 1 ≤ budget }
    requires room { tally.now.instructions + budget < 2 ^ 64 }
    ensures within { result.left ≤ budget }
    ensures ran { RanTo (models_of T.Tree O.Sink E.Sink W.Watcher) (running core.old bus.old tally.now watcher.old)
        core.new bus.new watcher.new budget (budget - result.left) result.end }
{
    let start = tally.instructions;
    let mut left = budget;
    let mut registers = core.registers();
    loop {
        let moment = Moment {
            instructions: start + (budget - left),
            address: registers.at,
        };
        let Ok(()) = watcher.before_at(core, registers, bus, moment) else {
            core.set_registers(registers);
            return Ran {
                end: Err(Stop::NoMemory),
                left,
            };
        };
        // Written out: `?` leaves one goal more for each clause, over what was converted, in the dearest proof of the crate.
        match step_from(core, &mut registers, bus) {
            Ok(Turn::Ran) => {}
            Ok(Turn::Broke) => {
                core.set_registers(registers);
                return Ran {
                    end: Ok(VectorEnd::Broke),
                    left,
                };
            }
            Err(stop) => {
                core.set_registers(registers);
                return Ran {
                    end: Err(stop),
                    left,
                };
            }
        }
        left -= 1;
        if left == 0 {
            core.set_registers(registers);
            return Ran {
                end: Ok(VectorEnd::Cut),
                left: 0,
            };
        }
    }
}

/// Counts the instructions of a vector, so many of which ran before its end.
fn count_run(tally: &mut Tally, end: Result<VectorEnd, Stop>, before: u64)
    requires instructions { tally.old.instructions + budget_with_break end before < 2 ^ 64 }
    requires cuts { tally.old.cuts + 1 < 2 ^ 64 }
    ensures { tally.new ≡ counting_run end (budget_with_break end before) tally.old }
{
    match end {
        Ok(VectorEnd::Broke) => tally.instructions += before + 1,
        Ok(VectorEnd::Cut) => {
            tally.instructions += before;
            tally.cuts += 1;
        }
        Err(_) => tally.instructions += before,
    }
}

impl<'r, 'a, T: Tree, O: Sink, E: Sink, W: Watcher> Runner<'r, 'a, T, O, E, W> {
    /// Runs instructions from an address on, up to and with the first BRK, or as many as the budget allows.
    pub(crate) fn run_vector(&mut self, at: u16) -> Result<VectorEnd, Stop>
        requires { HasTallyRoom self.old.tally self.old.budget (of_vectors 1) }
        ensures answers { Answers (models_of T.Tree O.Sink E.Sink W.Watcher) self.old self.new
            (vector self.old.budget at) (of_vectors 1) result }
        ensures end { IfOk result (λ end. (devices : DeviceState) → BusRepresents (contents_on T.Tree) self.old.bus.now devices
            → end ≡ vector_end self.old.budget at (running_state (running_of self.old) devices)) }
        ensures counted { CountsWhole (bus_rules (meaning_of T.Tree O.Sink E.Sink)) (MayRefuse W.may_refuse) self.old.budget
            (record self.old.core.now { at = at }) self.old.bus.now result self.new.core.now self.new.bus.now self.old.tally self.new.tally }
        ensures same { SameBus T.Tree self.old.bus.now self.new.bus.now }
    {
        self.core.at = at;
        self.tally.vectors += 1;
        let budget = u64::from(self.budget);
        let ran = run_instructions(self.core, self.bus, &self.tally, budget, self.watcher);
        let before = budget - ran.left;
        count_run(&mut self.tally, ran.end, before);
        ran.end
    }
}

/// Runs instructions from an address on, up to and with the first BRK, or exactly `budget` of them.
pub fn run_vector<'a, T: Tree, O: Sink, E: Sink, W: Watcher>(
    core: &mut Core,
    bus: &mut Bus<'a, T, O, E>,
    at: u16,
    budget: u32,
    tally: &mut Tally,
    watcher: &mut W,
) -> Result<VectorEnd, Stop>
    requires budget { 1 ≤ budget }
    requires instructions { tally.old.instructions ≤ 2 ^ 62 }
    requires vectors { tally.old.vectors ≤ 2 ^ 62 }
    requires cuts { tally.old.cuts ≤ 2 ^ 62 }

    // From each state that the bus represented, all of the vector was done, or a prefix of what it does.
    ensures ok { OnOk result (FollowsFrom (models_of T.Tree O.Sink E.Sink W.Watcher)
        (running core.old bus.old tally.old watcher.old) (running core.new bus.new tally.new watcher.new) (vector budget at)) }
    ensures end { IfOk result (λ end. (devices : DeviceState) → BusRepresents (contents_on T.Tree) bus.old devices
        → end ≡ vector_end budget at (running_state (running core.old bus.old tally.old watcher.old) devices)) }
    ensures err { IfErr result (λ stop. FallsShortFrom (models_of T.Tree O.Sink E.Sink W.Watcher)
        (running core.old bus.old tally.old watcher.old) (running core.new bus.new tally.new watcher.new) stop (vector budget at)) }

    // Where it stopped, all was done up to one instruction, before which the watcher refused, or which stopped at a write.
    ensures stopped { IfErr result (λ stop. StopsInFrom (models_of T.Tree O.Sink E.Sink W.Watcher)
        (running core.old bus.old tally.old watcher.old) (running core.new bus.new tally.new watcher.new) stop (vector budget at)) }

    // Whatever the ports are and whatever is answered, at most `budget` instructions ran whole, fewer where it stopped, and exactly
    // so many are counted.
    ensures counted { CountsWhole (bus_rules (meaning_of T.Tree O.Sink E.Sink)) (MayRefuse W.may_refuse) budget
        (record core.old { at = at }) bus.old result core.new bus.new tally.old tally.new }

    // Memory runs out only to the watcher or where there is a root, and a fault comes only where its count rose.
    ensures ledger { Ledger (bus_faults (meaning_of T.Tree O.Sink E.Sink) bus.old)
        (bus_faults (meaning_of T.Tree O.Sink E.Sink) bus.new) (result_blame result) }
    ensures memory { IfErr result (λ stop. stop ≡ Stop.NoMemory → MayRefuse W.may_refuse ⊎ HasRoot bus.old.devices.now) }
    ensures same { SameBus T.Tree bus.old bus.new }
{
    let mut runner = Runner {
        core,
        bus,
        watcher,
        tally: *tally,
        budget,
    };
    let end = runner.run_vector(at);
    *tally = runner.tally;
    end
}
