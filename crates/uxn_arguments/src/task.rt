//! What is to be done, and which of the files that it names clash.
ghost use Rattle.std.specs.Prelude.{◌≡◌, ◌++◌, IfOk, OnOk, find, option_copied, option_to_list};
ghost use Rattle.std.specs.List.{flat_map, list_any};
ghost use Rattle.std.specs.Str.{bytes_eq};
ghost use Rattle.uxn_arguments.specs.Options.{inputs_of, outputs_of, run_outputs};
ghost use Rattle.uxn_arguments.specs.Places.{places_of, meets, clashes, first_clash};

use std::alloc::{AllocError, Global};
use uxn_io_traits::Path;

/// A program that is run over a script, as `play` and `debug` do.
#[derive(Clone, Copy)]
pub struct RunTask {
    /// The source, or the ROM.
    pub file: Path,
    /// Whether the file is a ROM.
    pub rom: bool,
    /// The greatest number of instructions of a vector.
    pub budget: u32,
    /// The script.
    pub script: Option<Path>,
    /// The folder of the program's own files.
    pub root: Option<Path>,
    /// The file for the pictures.
    pub frames: Option<Path>,
    /// The file for the samples.
    pub samples: Option<Path>,
    /// The file for the report.
    pub report: Option<Path>,
}

/// A debugger that watches a run.
#[derive(Clone, Copy)]
pub struct DebugTask {
    /// Its commands.
    pub commands: Path,
    /// The file for its log.
    pub log: Path,
    /// The symbols that its log names.
    pub symbols: Option<Path>,
}

/// A source that is assembled.
#[derive(Clone, Copy)]
pub struct AssembleTask {
    /// The source.
    pub file: Path,
    /// The file for the ROM.
    pub out: Path,
    /// The file for the symbols.
    pub symbols: Option<Path>,
    /// The file for the listing.
    pub listing: Option<Path>,
}

/// A ROM that is disassembled.
#[derive(Clone, Copy)]
pub struct DisassembleTask {
    /// The ROM.
    pub file: Path,
    /// The symbols that it is read with.
    pub symbols: Option<Path>,
}

/// What is to be done.
#[derive(Clone, Copy)]
pub enum Task {
    /// A program is run, which a debugger may watch.
    Run(RunTask, Option<DebugTask>),
    /// A source is assembled.
    Assemble(AssembleTask),
    /// A ROM is disassembled.
    Disassemble(DisassembleTask),
    /// A workload of so many routines, 1 to 8,000, is made and run.
    Generate(u16),
    /// The machines of the setup in this file are run in a line.
    Line(Path),
}

impl Task {
    /// The files that it reads. Errors when out of memory.
    fn inputs(&self, alloc: Global) -> Result<Vec<Path>, AllocError>
        ensures { IfOk result (λ paths. paths.items ≡ inputs_of self.now) }
    {
        match self {
            Task::Run(run, Some(debug)) => {
                let commands = Some(debug.commands);
                some_of(
                    alloc,
                    &[Some(run.file), commands, debug.symbols, run.script],
                )
            }
            Task::Run(run, None) => some_of(alloc, &[Some(run.file), run.script]),
            Task::Assemble(task) => some_of(alloc, &[Some(task.file)]),
            Task::Disassemble(task) => some_of(alloc, &[Some(task.file), task.symbols]),
            Task::Generate(_) => Ok(Vec::new(alloc)),
            Task::Line(file) => some_of(alloc, &[Some(*file)]),
        }
    }

    /// The files that it writes, in order. Errors when out of memory.
    fn outputs(&self, alloc: Global) -> Result<Vec<Path>, AllocError>
        ensures { IfOk result (λ paths. paths.items ≡ outputs_of self.now) }
    {
        match self {
            Task::Run(run, debug) => run_outputs(alloc, run, debug),
            Task::Assemble(task) => {
                some_of(alloc, &[Some(task.out), task.symbols, task.listing])
            }
            Task::Disassemble(_) | Task::Generate(_) | Task::Line(_) => Ok(Vec::new(alloc)),
        }
    }

    /// The root and the outputs. Errors when out of memory.
    fn places(&self, alloc: Global, outputs: &[Path]) -> Result<Vec<Path>, AllocError>
        requires { outputs.now ≡ outputs_of self.now }
        ensures { IfOk result (λ paths. paths.items ≡ places_of self.now) }
    {
        let root = match self {
            Task::Run(run, _) => run.root,
            _ => None,
        };
        let mut paths = some_of(alloc, &[root])?;
        paths.extend_from_slice(outputs)?;
        Ok(paths)
    }

    /// The first output that clashes: with another one or the root, or since it is an input. Errors when out of memory.
    pub fn first_clash(&self, alloc: Global) -> Result<Option<Path>, AllocError>
        ensures { IfOk result (λ found. found ≡ first_clash self.now) }
    {
        let outputs = self.outputs(alloc)?;
        let inputs = self.inputs(alloc)?;
        let places = self.places(alloc, &outputs)?;
        Ok(clash_in(&inputs, &places, &outputs).copied())
    }
}

/// Puts a path behind others, where there is one.
fn push_some(paths: &mut Vec<Path>, path: &Option<Path>) -> Result<(), AllocError>
    ensures { OnOk result (paths.new.items ≡ paths.old.items ++ option_to_list path.now) }
{
    if let Some(path) = path {
        paths.push(*path)?;
    }
    Ok(())
}

/// The paths that there are, in order. Errors when out of memory.
fn some_of(alloc: Global, paths: &[Option<Path>]) -> Result<Vec<Path>, AllocError>
    ensures { IfOk result (λ found. found.items ≡ flat_map option_to_list paths.now) }
{
    let mut found = Vec::new(alloc);
    for path in paths {
        push_some(&mut found, path)?;
    }
    Ok(found)
}

/// The files that a run writes, in order. Errors when out of memory.
pub fn run_outputs(
    alloc: Global,
    run: &RunTask,
    debug: &Option<DebugTask>,
) -> Result<Vec<Path>, AllocError>
    ensures { IfOk result (λ paths. paths.items ≡ run_outputs run.now debug.now) }
{
    let log = match debug {
        Some(debug) => Some(debug.log),
        None => None,
    };
    some_of(alloc, &[log, run.frames, run.samples, run.report])
}

/// Whether two paths are the same.
fn is_same(path: &Path, other: &Path) -> bool
    ensures { result ≡ bytes_eq path.now other.now }
{
    path.bytes() == other.bytes()
}

/// Whether a path is among others.
pub fn is_among(path: &Path, others: &[Path]) -> bool
    ensures { result ≡ list_any (bytes_eq path.now) others.now }
{
    others.iter().any(|other| is_same(path, other))
}

/// Whether two paths are the same or one lies under the other.
fn meets(path: &Path, other: &Path) -> bool
    ensures { result ≡ meets path.now other.now }
{
    is_same(path, other) || path.is_under(other) || other.is_under(path)
}

/// Whether an output clashes with another one or the root, or is an input.
#[tactic(auto, unfolding(crate::specs::Places::clashes))]
fn clashes(inputs: &[Path], places: &[Path], path: &Path) -> bool
    ensures { result ≡ clashes inputs.now places.now path.now }
{
    places.iter().filter(|other| meets(path, other)).count() > 1 || is_among(path, inputs)
}

/// The first of the outputs that clashes.
fn clash_in<'a>(inputs: &[Path], places: &[Path], outputs: &'a [Path]) -> Option<&'a Path>
    ensures { option_copied result ≡ find (clashes inputs.now places.now) outputs.now }
{
    outputs.iter().find(|path| clashes(inputs, places, path))
}
