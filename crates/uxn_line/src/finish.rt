//! A line to its end.
ghost use Rattle.std.specs.Prelude.{◌≡◌, ◌<◌, IfOk, OnErr, is_err, length};
ghost use Rattle.uxn_io_traits.specs.Ended.{SinkEnded};
ghost use Rattle.uxn_io_traits.specs.State.{SinkState};
ghost use Rattle.uxn_line.specs.Streams.{LineJob, exit_code_at, run_of_machine, stream};
ghost use Rattle.uxn_line.specs.Standing.{Turned, LineRepresents, machine_place};
ghost use Rattle.uxn_line.specs.Moves.{LineFinishes, IsUnderWay, LineStops, MovedOn, last_machine};

use crate::line::Line;
use system_port::exit_code;
use uxn_io_traits::{Failed, Sink};

impl<'a> Line<'a> {
    /// Gives turns to the first machine that moves, as long as it does, again and again, until all have ended: the exit code of
    /// the last machine. Every order of turns gives the same bytes, as `every_order_gives_the_streams` says.
    /// Errors where `out` does not take a byte that the last machine writes.
    pub fn finish<O: Sink>(&mut self, out: &mut O) -> Result<u8, Failed>
        // A line that represented numbers of turns is brought to the end of all runs, or stopped before a byte of the last machine.
        ensures finishes { IfOk result (LineFinishes self.old self.new (O.state out.old) (O.state out.new)) }
        ensures stops { OnErr result (LineStops self.old self.new (O.state out.old) (O.state out.new)) }

        // Of a line that was begun over `out`: all of the stream of its last machine is put, or a prefix of it that is not whole
        // where `out` fails; and an `out` that is guaranteed to take that stream does not fail.
        ensures put { (job : LineJob) (begun : SinkState) → IsUnderWay job begun self.old (O.state out.old)
            → SinkEnded (stream job (last_machine job)) (is_err result) begun (O.state out.new) }
        ensures code { IfOk result (λ code. (job : LineJob) (begun : SinkState) → IsUnderWay job begun self.old (O.state out.old)
            → code ≡ exit_code_at (run_of_machine job (last_machine job)).last) }
    {
        // The machines before `index` are still.
        let mut index = 0;
        'machines: while index < self.members.len() {
            index = if self.move_on(index, out)? {
                0
            } else {
                index + 1
            };
        }
        Ok(self.exit_code())
    }

    // Gives a machine turns as long as it moves, and answers whether it moved at all.
    fn move_on<O: Sink>(&mut self, index: usize, out: &mut O) -> Result<bool, Failed>
        requires { index < length self.old.members.items }
        ensures moved { IfOk result (λ moved. MovedOn index moved self.old self.new (O.state out.old) (O.state out.new)) }
        ensures stops { OnErr result (LineStops self.old self.new (O.state out.old) (O.state out.new)) }
    {
        let mut moved = false;
        'moves: while self.turn_at(index, out)?.is_move() {
            moved = true;
        }
        Ok(moved)
    }

    // The exit code of the last machine, where it is idle.
    fn exit_code(&self) -> u8
        ensures { (job : LineJob) (turned : Turned) → LineRepresents job self.now turned
            → (machine_place job turned (last_machine job)).left ≡ 0
            → result ≡ exit_code_at (machine_place job turned (last_machine job)).done.last }
    {
        let count = self.members.len();
        if count == 0 {
            return 0;
        }
        exit_code(self.members[count - 1].state)
    }
}
