//! The debugger of a run, and the log that it writes.
ghost use Rattle.std.specs.Prelude.{◌≡◌, ◌≤◌, None, Some, IsSome};
ghost use Rattle.uxn_io_traits.specs.Ended.{RefusesNone};
ghost use Rattle.vector_loop.specs.Outputs.{IsOutput};
ghost use Rattle.uxn_debugger.specs.Watching.{new_undo};
ghost use Rattle.uxn_cli.specs.Outside.{SameHost, outside_of};
ghost use Rattle.uxn_cli.specs.Prepared.{AreNew, session_debugging};
ghost use Rattle.uxn_cli.specs.RunsFromRoot.{RunsFromRoot, RunFiles, task_trace, logged_changes};

use super::host::Host;
use super::machine::{Machine, core_known};
use super::running::{RunEnd, run_made, write_text};
use std::alloc::Global;
use tal_words::Label;
use uxn_arguments::{DebugTask, RunTask};
use uxn_debugger::{DebugCommand, Debugger, the_log_is_that_of_the_run};
use uxn_io_traits::{Sink, Tree};
use uxn_opcodes::Stop;
use uxn_undo::Undo;

/// What a debugger does with a run.
#[derive(Drop)]
pub struct Session {
    /// What it is asked.
    pub task: DebugTask,
    /// The commands.
    pub commands: Vec<DebugCommand>,
    /// The labels that its log names.
    pub labels: Vec<Label>,
    /// What keeps the moments that commands go back to, where some command goes back.
    pub undo: Option<Undo>,
}

/// Runs a machine that is ready under its debugger, and writes the report and the log.
pub fn run_session<T: Tree, O: Sink, E: Sink>(
    alloc: Global,
    run: &RunTask,
    machine: &mut Machine,
    session: Session,
    host: &mut Host<'_, '_, '_, T, O, E>,
) -> Result<RunEnd, Stop>
    requires devices { AreNew machine.old.devices machine.old.script run.now.root }
    requires undo { session.undo ≡ new_undo session.commands.items }
    requires budget { 1 ≤ run.now.budget }
    requires files { RunFiles run.now (T.state host.old.tree.now).contents }
    requires log { IsOutput run.now.root (T.state host.old.tree.now).contents session.task.log }
    ensures runs { RunsFromRoot run.now.root (task_trace run.now machine.old)
        (logged_changes run.now machine.old (Some (session_debugging session))) (IsSome (Some session))
        (outside_of T.Tree O.Sink E.Sink host.old) (outside_of T.Tree O.Sink E.Sink host.new) result }
    ensures refusals { run.now.root ≡ None → RefusesNone (T.state host.old.tree.now) (T.state host.new.tree.now) }
    ensures same { SameHost host.old host.new }
{
    the_log_is_that_of_the_run();
    core_known(&machine.core);
    let Session {
        task,
        commands,
        labels,
        undo,
    } = session;
    let mut debugger = Debugger::with_undo(alloc, commands, &labels, undo);
    let end = run_made(run, machine, host, &mut debugger)?;
    write_text(&Some(task.log), debugger.log(), host.tree)
        .and(Ok(end))
        .or(Err(Stop::TreeFault))
}
