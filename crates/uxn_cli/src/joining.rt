//! What `line` does: the machines of a setup are run in a line.
ghost use Rattle.std.specs.Prelude.{length, is_err};
ghost use Rattle.std.specs.List.{All};
ghost use Rattle.text_lines.specs.SetupLimits.{AreTurns};
ghost use Rattle.uxn_cli.specs.Puts.{Puts};
ghost use Rattle.uxn_cli.specs.Joined.{IsRunnable, LineGoesOn, LineHasDone, job_of_joined};
ghost use Rattle.uxn_cli.specs.Outcome.{line_bytes, line_exit};

use crate::task_files::{Halt, LineInputs};
use std::alloc::Global;
use text_lines::Turns;
use uxn_io_traits::{Failed, Sink};
use uxn_line::Line;
use uxn_opcodes::Stop;

/// Gives the turns of a schedule, in order.
fn follow<O: Sink>(line: &mut Line<'_>, schedule: &[Turns], out: &mut O) -> Result<(), Failed>
    requires { All (AreTurns (length line.old.members.items)) schedule.now }
    ensures way { LineGoesOn line.old (O.state out.old) line.new (O.state out.new) (is_err result) }
{
    for turns in schedule {
        for _ in 0..turns.count {
            line.turn(turns.machine, out)?;
        }
    }
    Ok(())
}

/// Runs the machines: the turns of the setup first, and then each in turn until all have ended.
fn run_all<O: Sink>(line: &mut Line<'_>, schedule: &[Turns], out: &mut O) -> Result<u8, Failed>
    requires { All (AreTurns (length line.old.members.items)) schedule.now }
    ensures done { LineHasDone line.old (O.state out.old) (O.state out.new) result }
{
    follow(line, schedule, out)?;
    line.finish(out)
}

/// Runs the machines of a setup in a line, and gives the exit code of the last one.
pub fn run_line<O: Sink>(alloc: Global, joined: &LineInputs, out: &mut O) -> Result<u8, Halt>
    requires { IsRunnable joined.now }
    ensures { Puts (O.state out.old) (O.state out.new)
        (line_bytes (job_of_joined joined.now)) (line_exit (job_of_joined joined.now)) result }
{
    let mut line = Line::new(alloc, &joined.roms, &joined.script, joined.setup.budget())?;
    match run_all(&mut line, joined.setup.schedule(), out) {
        Ok(status) => Ok(status),
        Err(Failed) => Err(Halt::Stopped(Stop::SinkFault)),
    }
}
