//! What `play` and `debug` are given.
ghost use Rattle.std.specs.Prelude.{◌≡◌, ◌≤◌, length, option_and_then, option_map, IfOk};
ghost use Rattle.uxn_memory.specs.Bytes.{largest_rom};
ghost use Rattle.uxn_io_traits.specs.Inquires.{Inquires};
ghost use Rattle.uxn_cli.specs.Accepted.{run_of};
ghost use Rattle.uxn_cli.specs.Held.{model_of_inputs, model_of_program};

use super::commands::accept_commands;
use super::program::{Program, accept_program};
use super::refusal::Refusal;
use super::scripts::accept_script;
use super::symbols::accept_symbols;
use std::alloc::Global;
use text_lines::Script;
use uxn_arguments::{DebugTask, RunTask};
use uxn_debugger::DebugCommand;
use uxn_io_traits::{Halt, Path, Tree};

/// The file of symbols that a debugger is given.
fn symbols_input(debug: &Option<DebugTask>) -> Option<Path>
    ensures { result ≡ option_and_then (λ debug. debug.symbols) debug.now }
{
    match debug {
        Some(debug) => debug.symbols,
        None => None,
    }
}

/// The file of commands that a debugger is given.
fn commands_input(debug: &Option<DebugTask>) -> Option<Path>
    ensures { result ≡ option_map (λ debug. debug.commands) debug.now }
{
    match debug {
        Some(debug) => Some(debug.commands),
        None => None,
    }
}

/// What a run is given, once all of it is accepted.
#[derive(Drop)]
pub struct RunInputs {
    /// The program, with the labels of a symbol file where one is given.
    pub program: Program,
    /// The script.
    pub script: Script,
    /// The commands of a debugger.
    pub commands: Vec<DebugCommand>,
}

/// Reads the inputs of a run, one after the other.
pub fn read_run<T: Tree>(
    alloc: Global,
    run: &RunTask,
    debug: &Option<DebugTask>,
    tree: &mut T,
) -> Result<RunInputs, Halt<Refusal>>
    ensures reads { Inquires model_of_inputs (run_of run.now debug.now) (T.state tree.old) (T.state tree.new) result }
    ensures room { IfOk result (λ inputs. length (model_of_program inputs.program).rom ≤ largest_rom) }
{
    let program = accept_program(alloc, run.rom, &run.file, tree)?;
    let labels = accept_symbols(alloc, &symbols_input(debug), program.labels, tree)?;
    let script = accept_script(alloc, &run.script, tree)?;
    let commands = accept_commands(alloc, &commands_input(debug), &labels, tree)?;
    Ok(RunInputs {
        program: Program { labels, ..program },
        script,
        commands,
    })
}
