//! The inputs of a task are read and accepted, and then its work is done.
ghost use Rattle.std.specs.Prelude.{Ok};
ghost use Rattle.uxn_arguments.specs.Options.{HasBudget};
ghost use Rattle.uxn_arguments.specs.Places.{HasApartOutputs};
ghost use Rattle.uxn_arguments.specs.declared.task.Task.TheVariants as tasks;
ghost use Rattle.uxn_arguments.specs.declared.task.Task.{Task};
ghost use Rattle.uxn_io_traits.specs.Inquires.{Inquires};
ghost use Rattle.uxn_io_traits.specs.State.{SinkState, TreeState};
ghost use Rattle.uxn_cli.specs.Outside.{DoesWork, SameHost, host_state, state_of_host};
ghost use Rattle.uxn_cli.specs.Prepared.{printed_plan};
ghost use Rattle.uxn_cli.specs.Verdict.{plan_of};

use super::generating::summarize;
use super::host::Host;
use super::joining::run_line;
use super::playing::play;
use crate::task_files::{
    Halt, Refusal, assemble, disassemble_rom, print, read_machines, write_outputs,
};
use std::alloc::Global;
use uxn_arguments::{AssembleTask, Task};
use uxn_io_traits::{Halt as InquiryHalt, Path, Sink, Tree};
use uxn_line::are_of_console;

/// Writes the files of a source.
fn write<T: Tree>(alloc: Global, task: &AssembleTask, tree: &mut T) -> Result<u8, Halt>
    requires { HasApartOutputs (tasks.Assemble task.now) }
    ensures { (out err : SinkState) → DoesWork (Ok (tasks.Assemble task.now))
        (host_state (T.state tree.old) out err) (host_state (T.state tree.new) out err) result }
{
    let written = assemble(alloc, task, tree)?;
    write_outputs(&written, tree).and(Ok(0))
}

/// Prints the text of a task, or hands on why there is none.
fn print_text<O: Sink>(said: Result<Vec<u8>, InquiryHalt<Refusal>>, out: &mut O) -> Result<u8, Halt>
    ensures { (task : Task) (start now : TreeState) (err : SinkState) → Inquires printed_plan (plan_of task) start now said
        → DoesWork (Ok task) (host_state start (O.state out.old) err) (host_state now (O.state out.new) err) result }
{
    let text = said?;
    print(&text, out)
}

/// Runs the machines of a setup in a line, where their script has events of the console alone.
#[inline(never)]
fn join<T: Tree, O: Sink>(alloc: Global, path: &Path, tree: &mut T, out: &mut O) -> Result<u8, Halt>
    ensures { (err : SinkState) → DoesWork (Ok (tasks.Line path.now))
        (host_state (T.state tree.old) (O.state out.old) err) (host_state (T.state tree.new) (O.state out.new) err) result }
{
    let inputs = read_machines(alloc, path, tree)?;
    if !are_of_console(inputs.script.events()) {
        return Err(Halt::Refused(Refusal::OtherEvents));
    }
    run_line(alloc, &inputs, out)
}

/// Does the work of a task.
pub fn carry_out<T: Tree, O: Sink, E: Sink>(
    alloc: Global,
    task: &Task,
    host: &mut Host<'_, '_, '_, T, O, E>,
) -> Result<u8, Halt>
    requires apart { HasApartOutputs task.now }
    requires budget { HasBudget task.now }
    ensures does { DoesWork (Ok task.now) (state_of_host T.Tree O.Sink E.Sink host.old) (state_of_host T.Tree O.Sink E.Sink host.new) result }
    ensures same { SameHost host.old host.new }
{
    match task {
        Task::Run(run, debug) => play(alloc, run, debug, host),
        Task::Assemble(task) => write(alloc, task, host.tree),
        Task::Disassemble(task) => print_text(disassemble_rom(alloc, task, host.tree), host.out),
        Task::Generate(count) => print_text(summarize(alloc, *count), host.out),
        Task::Line(path) => join(alloc, path, host.tree, host.out),
    }
}
