//! The options of each command, and what each sets in the task that is requested.
ghost use Rattle.std.specs.Prelude.{◌≡◌, ◌≤◌, IfOk, IfSome, option_map, option_and_then};
ghost use Rattle.uxn_arguments.specs.Parsing.{found_value, table_choices};
ghost use Rattle.uxn_arguments.specs.Options.{choices_of, debug_task, run_task, requested_run};
ghost use Rattle.uxn_arguments.specs.Options.{assemble_task, disassemble_task, requested_task, HasBudget};
ghost use Rattle.uxn_arguments.specs.Values.{optional_path, requested_budget, requested_count, requested_path, required_path};
ghost use Rattle.uxn_arguments.specs.ReadsArguments.{ReadsArguments};

use super::choice::{Choice, ChoiceKind};
use super::reading::Found;
use super::task::{AssembleTask, DebugTask, DisassembleTask, RunTask, Task};
use super::words::{Command, WordFault, WordStop};
use std::alloc::Global;
use text_lines::number_within;
use uxn_io_traits::{Bytes, Path};
use uxn_limits::limits;

/// How many options only `debug` has; those behind them are the options of a run.
pub(crate) const DEBUG_ONLY: usize = 3;

/// The options of `debug`, and behind its own those of `play`.
pub(crate) static DEBUG: [Choice; 10] = [
    ("commands", ChoiceKind::Required),
    ("log", ChoiceKind::Required),
    ("symbols", ChoiceKind::Optional),
    ("rom", ChoiceKind::Switch),
    ("budget", ChoiceKind::Optional),
    ("script", ChoiceKind::Optional),
    ("root", ChoiceKind::Optional),
    ("frames", ChoiceKind::Optional),
    ("samples", ChoiceKind::Optional),
    ("report", ChoiceKind::Optional),
];

/// The options of `asm`.
pub(crate) static ASSEMBLE: [Choice; 3] = [
    ("out", ChoiceKind::Required),
    ("symbols", ChoiceKind::Optional),
    ("listing", ChoiceKind::Optional),
];

/// The options of `dis`.
pub(crate) static DISASSEMBLE: [Choice; 1] = [("symbols", ChoiceKind::Optional)];

/// The name under which the command's own item stands, which no option has.
const OPERAND: &str = "";

impl Command {
    /// Its options, in the order of its usage line.
    pub(crate) fn choices(self) -> &'static [Choice]
        ensures { table_choices result.now ≡ choices_of self }
    {
        match self {
            Command::Play => &DEBUG[DEBUG_ONLY..],
            Command::Debug => DEBUG.as_slice(),
            Command::Assemble => ASSEMBLE.as_slice(),
            Command::Disassemble => DISASSEMBLE.as_slice(),
            Command::Generate | Command::Line => &[],
        }
    }

    /// What the values of a legal line ask for.
    pub(crate) fn task(self, alloc: Global, found: &Found<'_>) -> Result<Task, WordStop>
        ensures requested { ReadsArguments result (requested_task self (found_value found.now)) }
        ensures budget { IfOk result HasBudget }
    {
        match self {
            Command::Play | Command::Debug => requested_run(alloc, self, found),
            Command::Assemble => assemble_task(alloc, found).map(Task::Assemble),
            Command::Disassemble => disassemble_task(alloc, found).map(Task::Disassemble),
            Command::Generate => match requested_count(found.operand()) {
                Some(count) => Ok(Task::Generate(count)),
                None => Err(WordStop::Refused(WordFault::NotUnderstood)),
            },
            Command::Line => required_path(alloc, found, OPERAND).map(Task::Line),
        }
    }
}

/// The budget that a word says; without a word it is `USUAL_BUDGET`.
fn requested_budget(word: Option<&str>) -> Option<u32>
    ensures number { result ≡ requested_budget (option_map (λ text. text.now) word.entry) }
    ensures some { IfSome result (λ budget. 1 ≤ budget) }
{
    match word {
        Some(word) => {
            let budget = number_within(1, limits::GREATEST_BUDGET, word.as_bytes())?;
            Some(budget as u32)
        }
        None => Some(limits::USUAL_BUDGET),
    }
}

/// The count of a workload that a word says, at least 1.
fn requested_count(word: Option<&str>) -> Option<u16>
    ensures { result ≡ requested_count (option_map (λ text. text.now) word.entry) }
{
    let count = number_within(1, limits::MOST_ROUTINES, word?.as_bytes())?;
    Some(count as u16)
}

/// The path that a word is.
fn requested_path(alloc: Global, word: &str) -> Result<Path, WordStop>
    ensures { ReadsArguments result (requested_path word.now) }
{
    match Path::read(word.as_bytes()) {
        Ok(path) => Ok(path),
        Err(_) => Err(WordStop::Refused(WordFault::NoPath(Bytes::new(alloc, word.as_bytes())?))),
    }
}

/// The path that a line has to give a name.
fn required_path(alloc: Global, found: &Found<'_>, name: &str) -> Result<Path, WordStop>
    ensures { ReadsArguments result (required_path (found_value found.now) name.now) }
{
    match found.value(name) {
        Some(word) => requested_path(alloc, word),
        None => Err(WordStop::Refused(WordFault::NotUnderstood)),
    }
}

/// The path that a line gives a name, where it does.
fn optional_path(alloc: Global, found: &Found<'_>, name: &str) -> Result<Option<Path>, WordStop>
    ensures { ReadsArguments result (optional_path (found_value found.now) name.now) }
{
    match found.value(name) {
        Some(word) => requested_path(alloc, word).map(Some),
        None => Ok(None),
    }
}

/// What a debugger is asked.
#[inline(never)]
fn debug_task(alloc: Global, found: &Found<'_>) -> Result<DebugTask, WordStop>
    ensures { ReadsArguments result (debug_task (found_value found.now)) }
{
    let commands = required_path(alloc, found, "commands")?;
    let log = required_path(alloc, found, "log")?;
    let symbols = optional_path(alloc, found, "symbols")?;
    Ok(DebugTask {
        commands,
        log,
        symbols,
    })
}

/// What a run is asked.
#[inline(never)]
fn run_task(alloc: Global, found: &Found<'_>, budget: u32, file: Path) -> Result<RunTask, WordStop>
    ensures task { ReadsArguments result (run_task (found_value found.now) budget file) }
    ensures budget { IfOk result (λ run. run.budget ≡ budget) }
{
    let script = optional_path(alloc, found, "script")?;
    let root = optional_path(alloc, found, "root")?;
    let frames = optional_path(alloc, found, "frames")?;
    let samples = optional_path(alloc, found, "samples")?;
    let report = optional_path(alloc, found, "report")?;
    Ok(RunTask {
        file,
        rom: found.has("rom"),
        budget,
        script,
        root,
        frames,
        samples,
        report,
    })
}

/// What `play` and `debug` are asked.
fn requested_run(alloc: Global, command: Command, found: &Found<'_>) -> Result<Task, WordStop>
    ensures requested { ReadsArguments result (requested_run command (found_value found.now)) }
    ensures budget { IfOk result HasBudget }
{
    let Some(budget) = requested_budget(found.value("budget")) else {
        return Err(WordStop::Refused(WordFault::NotUnderstood));
    };
    let file = required_path(alloc, found, OPERAND)?;
    let debug = match command {
        Command::Debug => Some(debug_task(alloc, found)?),
        _ => None,
    };
    let run = run_task(alloc, found, budget, file)?;
    Ok(Task::Run(run, debug))
}

/// What `asm` is asked.
#[inline(never)]
fn assemble_task(alloc: Global, found: &Found<'_>) -> Result<AssembleTask, WordStop>
    ensures { ReadsArguments result (assemble_task (found_value found.now)) }
{
    let file = required_path(alloc, found, OPERAND)?;
    let out = required_path(alloc, found, "out")?;
    let symbols = optional_path(alloc, found, "symbols")?;
    let listing = optional_path(alloc, found, "listing")?;
    Ok(AssembleTask {
        file,
        out,
        symbols,
        listing,
    })
}

/// What `dis` is asked.
#[inline(never)]
fn disassemble_task(alloc: Global, found: &Found<'_>) -> Result<DisassembleTask, WordStop>
    ensures { ReadsArguments result (disassemble_task (found_value found.now)) }
{
    let file = required_path(alloc, found, OPERAND)?;
    let symbols = optional_path(alloc, found, "symbols")?;
    Ok(DisassembleTask { file, symbols })
}
