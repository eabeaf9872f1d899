//! The run of a machine, and what is written after it.
ghost use Rattle.std.specs.Prelude.{◌≡◌, ◌≤◌, None, OnOk, IfSome, is_err};
ghost use Rattle.uxn_cli.specs.Outside.{SameHost, outside_of};
ghost use Rattle.varvara_bus.specs.Bus.{IsFileWhereKnown};
ghost use Rattle.vector_loop.specs.Outputs.{OutputsThere};
ghost use Rattle.vector_loop.specs.Watch.{MayRefuse};
ghost use Rattle.uxn_cli.specs.World.{requested_output};
ghost use Rattle.uxn_cli.specs.Writing.{filling_all};
ghost use Rattle.uxn_cli.specs.Prepared.{AreNew};
ghost use Rattle.uxn_io_traits.specs.Ended.{RefusesNone, TreeEnded};
ghost use Rattle.uxn_cli.specs.RunsFromRoot.{AtRootView, RunsFromRoot, RunFiles, WasShown};
ghost use Rattle.uxn_cli.specs.RunsFromRoot.{machine_trace, task_trace, reported_changes};

use super::host::Host;
use super::machine::Machine;
use super::report::report;
use system_port::exit_code;
use uxn_arguments::RunTask;
use uxn_io_traits::{Failed, Path, Sink, Tree, append_all};
use uxn_limits::ports::SYSTEM_STATE;
use uxn_opcodes::Stop;
use varvara_bus::Bus;
use vector_loop::{Outputs, Tally, Watcher, run_script};

/// How a run ended.
#[derive(Clone, Copy)]
pub struct RunEnd {
    /// The exit code.
    pub exit: u8,
    /// What was counted.
    pub tally: Tally,
}

/// How a machine is run.
#[derive(Clone, Copy)]
pub struct Settings {
    /// The files that it appends to.
    pub outputs: Outputs,
    /// The greatest number of instructions of a vector.
    pub budget: u32,
}

/// Runs a new machine with a script. Memory runs out only to the watcher, or where the run takes the names of a
/// folder beneath a root.
pub fn run_machine<T: Tree, O: Sink, E: Sink, W: Watcher>(
    machine: &mut Machine,
    settings: &Settings,
    host: &mut Host<'_, '_, '_, T, O, E>,
    watcher: &mut W,
) -> Result<RunEnd, Stop>
    requires devices { AreNew machine.old.devices machine.old.script machine.old.devices.root }
    requires budget { 1 ≤ settings.now.budget }
    requires outputs { OutputsThere settings.now.outputs machine.old.devices.root (T.state host.old.tree.now).contents }
    ensures runs { RunsFromRoot machine.old.devices.root (machine_trace settings.now machine.old) (λ trace. trace.changes) (MayRefuse W.may_refuse)
        (outside_of T.Tree O.Sink E.Sink host.old) (outside_of T.Tree O.Sink E.Sink host.new) result }
    ensures watcher { AtRootView machine.old.devices.root (T.state host.old.tree.now).contents (λ root_view. OnOk result
        (WasShown W.shown W.ended (W.held watcher.old)
        (machine_trace settings.now machine.old root_view) (W.held watcher.new))) }
    ensures refusals { machine.old.devices.root ≡ None → RefusesNone (T.state host.old.tree.now) (T.state host.new.tree.now) }
    ensures same { SameHost host.old host.new }
{
    let mut bus = Bus::new(&mut machine.devices, host.tree, host.out, host.err);
    let tally = run_script(
        &mut machine.core,
        &mut bus,
        &machine.script,
        &settings.outputs,
        settings.budget,
        watcher,
    )?;
    Ok(RunEnd {
        exit: exit_code(bus.stored(SYSTEM_STATE)),
        tally,
    })
}

/// Writes a text to the end of a file, where one is requested.
pub fn write_text<T: Tree>(path: &Option<Path>, text: &[u8], tree: &mut T) -> Result<(), Failed>
    requires { IfSome path.now (IsFileWhereKnown (T.state tree.old).contents) }
    ensures ended { TreeEnded (filling_all (requested_output path.now text.now)) (is_err result) (T.state tree.old) (T.state tree.new) }
    ensures refused { RefusesNone (T.state tree.old) (T.state tree.new) }
{
    match path {
        Some(path) => append_all(tree, path, text),
        None => Ok(()),
    }
}

/// Runs a machine that is ready, and writes the report.
pub fn run_made<T: Tree, O: Sink, E: Sink, W: Watcher>(
    task: &RunTask,
    machine: &mut Machine,
    host: &mut Host<'_, '_, '_, T, O, E>,
    watcher: &mut W,
) -> Result<RunEnd, Stop>
    requires devices { AreNew machine.old.devices machine.old.script task.now.root }
    requires budget { 1 ≤ task.now.budget }
    requires files { RunFiles task.now (T.state host.old.tree.now).contents }
    ensures runs { RunsFromRoot task.now.root (task_trace task.now machine.old) (reported_changes task.now machine.old) (MayRefuse W.may_refuse)
        (outside_of T.Tree O.Sink E.Sink host.old) (outside_of T.Tree O.Sink E.Sink host.new) result }
    ensures watcher { AtRootView task.now.root (T.state host.old.tree.now).contents (λ root_view. OnOk result
        (WasShown W.shown W.ended (W.held watcher.old)
        (task_trace task.now machine.old root_view) (W.held watcher.new))) }
    ensures refusals { task.now.root ≡ None → RefusesNone (T.state host.old.tree.now) (T.state host.new.tree.now) }
    ensures same { SameHost host.old host.new }
{
    let version = machine.script.version_kind();
    let settings = Settings {
        outputs: Outputs {
            frames: task.frames,
            samples: task.samples,
        },
        budget: task.budget,
    };
    let end = run_machine(machine, &settings, host, watcher)?;
    let text = report(version, end.exit, &end.tally);
    write_text(&task.report, &text, host.tree)
        .and(Ok(end))
        .or(Err(Stop::TreeFault))
}
