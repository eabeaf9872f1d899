//! What `play` and `debug` do: a program is run over a script, and a debugger may watch it.
ghost use Rattle.std.specs.Prelude.{◌≡◌, ◌≤◌, None, Some, Ok, IfOk, IfSome, IsSome, length, option_map};
ghost use Rattle.uxn_io_traits.specs.Ended.{RefusesNone};
ghost use Rattle.uxn_arguments.specs.Places.{HasApartOutputs};
ghost use Rattle.uxn_arguments.specs.declared.task.Task.TheVariants as tasks;
ghost use Rattle.vector_loop.specs.Outputs.{IsOutput};
ghost use Rattle.uxn_arguments.specs.Options.{run_outputs as output_paths};
ghost use Rattle.uxn_debugger.specs.Watching.{new_undo};
ghost use Rattle.uxn_cli.specs.Outputs.{paths_of};
ghost use Rattle.uxn_cli.specs.Verdict.{run_plan};
ghost use Rattle.uxn_memory.specs.Bytes.{largest_rom};
ghost use Rattle.uxn_cli.specs.Held.{model_of_inputs, model_of_program};
ghost use Rattle.uxn_cli.specs.RunJob.{debugging};
ghost use Rattle.uxn_cli.specs.Outside.{DoesWork, SameHost, outside_of, state_of_host};
ghost use Rattle.uxn_cli.specs.Prepared.{AreNew, IsReadyRun, Prepares, session_debugging, prepared_debugging, prepared_plan};
ghost use Rattle.uxn_cli.specs.RunsFromRoot.{RunsFromRoot, RunFiles, task_trace, logged_changes};

use super::debugging::{Session, run_session};
use super::host::Host;
use super::machine::{Machine, new_machine};
use super::running::{RunEnd, run_made};
use crate::task_files::{Halt, Output, Program, RunInputs, empty_outputs, make_outputs, read_run};
use std::alloc::{AllocError, Global};
use tal_words::Label;
use uxn_arguments::{DebugTask, RunTask, run_outputs};
use uxn_debugger::{DebugCommand, open_undo};
use uxn_io_traits::{Path, Sink, Tree};
use uxn_opcodes::Stop;
use vector_loop::NoWatch;

/// A machine, what a debugger does with its run, where one watches it, and the files of the run.
#[derive(Drop)]
pub struct Prepared {
    /// The machine.
    pub machine: Box<Machine>,
    /// The session of a debugger.
    pub session: Option<Session>,
    /// The files that its source includes.
    pub included: Vec<Path>,
    /// The files that it writes, which have no bytes yet.
    pub outputs: Vec<Output>,
}

/// The session of a debugger, with all the memory that it takes, where a run has one.
fn open_session(
    alloc: Global,
    debug: &Option<DebugTask>,
    commands: Vec<DebugCommand>,
    labels: Vec<Label>,
) -> Result<Option<Session>, AllocError>
    ensures debugger { IfOk result (λ opened. option_map session_debugging opened
        ≡ option_map (λ task. debugging task commands.items labels.items) debug.now) }
    ensures undo { IfOk result (λ opened. IfSome opened (λ session. session.undo ≡ new_undo session.commands.items)) }
{
    let Some(task) = debug else {
        return Ok(None);
    };
    let undo = open_undo(alloc, commands.as_slice())?;
    Ok(Some(Session {
        task: *task,
        commands,
        labels,
        undo,
    }))
}

/// The files that a run writes, which have no bytes yet.
fn new_outputs(
    alloc: Global,
    run: &RunTask,
    debug: &Option<DebugTask>,
) -> Result<Vec<Output>, AllocError>
    ensures { IfOk result (λ outputs. paths_of outputs.items ≡ output_paths run.now debug.now) }
{
    let paths = run_outputs(alloc, run, debug)?;
    empty_outputs(alloc, &paths)
}

/// What a run has before it begins, of the inputs that were read.
fn ready(
    alloc: Global,
    run: &RunTask,
    debug: &Option<DebugTask>,
    inputs: RunInputs,
) -> Result<Prepared, AllocError>
    requires room { length (model_of_program inputs.program).rom ≤ largest_rom }
    ensures ready { IfOk result (IsReadyRun run.now debug.now (model_of_program inputs.program).rom) }
    ensures plan { IfOk result (λ prepared. prepared_plan run.now (model_of_program inputs.program).rom prepared
        ≡ run_plan run.now debug.now (model_of_inputs inputs)) }
{
    let RunInputs {
        program: Program {
            rom,
            labels,
            included,
        },
        script,
        commands,
    } = inputs;
    let machine = new_machine(alloc, run.root, rom.as_slice(), script)?;
    let outputs = new_outputs(alloc, run, debug)?;
    let session = open_session(alloc, debug, commands, labels)?;
    Ok(Prepared {
        machine,
        session,
        included,
        outputs,
    })
}

/// Reads the inputs of a run, takes all the memory that it needs but for the listing of a folder, and makes its outputs.
#[inline(never)]
fn prepare<T: Tree>(
    alloc: Global,
    run: &RunTask,
    debug: &Option<DebugTask>,
    tree: &mut T,
) -> Result<Prepared, Halt>
    requires { HasApartOutputs (tasks.Run run.now debug.now) }
    ensures { Prepares run.now debug.now (T.state tree.old) (T.state tree.new) result }
{
    let inputs = read_run(alloc, run, debug, tree)?;
    let prepared = ready(alloc, run, debug, inputs)?;
    make_outputs(&prepared.included, &prepared.outputs, tree)?;
    Ok(prepared)
}

/// Runs a machine that is ready, under its debugger where it has one, and writes the report and the log.
fn run_prepared<T: Tree, O: Sink, E: Sink>(
    alloc: Global,
    run: &RunTask,
    prepared: Prepared,
    host: &mut Host<'_, '_, '_, T, O, E>,
) -> Result<RunEnd, Stop>
    requires devices { AreNew prepared.machine.value.devices prepared.machine.value.script run.now.root }
    requires undo { IfSome prepared.session (λ session. session.undo ≡ new_undo session.commands.items) }
    requires budget { 1 ≤ run.now.budget }
    requires files { RunFiles run.now (T.state host.old.tree.now).contents }
    requires log { IfSome (prepared_debugging prepared) (λ debug. IsOutput run.now.root (T.state host.old.tree.now).contents debug.task.log) }
    ensures runs { RunsFromRoot run.now.root (task_trace run.now prepared.machine.value)
        (logged_changes run.now prepared.machine.value (prepared_debugging prepared)) (IsSome (prepared_debugging prepared))
        (outside_of T.Tree O.Sink E.Sink host.old) (outside_of T.Tree O.Sink E.Sink host.new) result }
    ensures refusals { run.now.root ≡ None → RefusesNone (T.state host.old.tree.now) (T.state host.new.tree.now) }
    ensures same { SameHost host.old host.new }
{
    let Prepared {
        mut machine,
        session,
        included: _,
        outputs: _,
    } = prepared;
    match session {
        Some(session) => run_session(alloc, run, &mut machine, session, host),
        None => run_made(run, &mut machine, host, &mut NoWatch),
    }
}

/// Runs a program, which a debugger may watch.
pub fn play<T: Tree, O: Sink, E: Sink>(
    alloc: Global,
    run: &RunTask,
    debug: &Option<DebugTask>,
    host: &mut Host<'_, '_, '_, T, O, E>,
) -> Result<u8, Halt>
    requires apart { HasApartOutputs (tasks.Run run.now debug.now) }
    requires budget { 1 ≤ run.now.budget }
    ensures does { DoesWork (Ok (tasks.Run run.now debug.now))
        (state_of_host T.Tree O.Sink E.Sink host.old) (state_of_host T.Tree O.Sink E.Sink host.new) result }
    ensures same { SameHost host.old host.new }
{
    match prepare(alloc, run, debug, host.tree) {
        Ok(prepared) => match run_prepared(alloc, run, prepared, host) {
            Ok(end) => Ok(end.exit),
            Err(stop) => Err(Halt::Stopped(stop)),
        },
        Err(halt) => Err(halt),
    }
}
