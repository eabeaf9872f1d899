//! The words of the command line.
ghost use Rattle.std.specs.Prelude.{◌≡◌, IfOk, map, string_bytes};
ghost use Rattle.uxn_arguments.specs.Options.{HasBudget};
ghost use Rattle.text_lines.specs.Named.{named_in};
ghost use Rattle.uxn_arguments.specs.Words.{command_task, commands, task_of};
ghost use Rattle.uxn_arguments.specs.ReadsArguments.{ReadsArguments};

use super::reading;
use super::task::Task;
use std::alloc::{AllocError, Global};
use text_lines::{Named, value_named};
use uxn_io_traits::Bytes;

/// What the program is asked to do.
#[derive(Clone, Copy)]
pub enum Command {
    /// `play SRC` and the options of a run: runs a source, or a ROM file.
    Play,
    /// `debug SRC --commands P --log P [--symbols P]` and the options of a run: the same run under a
    /// debugger.
    Debug,
    /// `asm SRC --out P [--symbols P] [--listing P]`: writes the ROM of a source, its symbols and its
    /// listing.
    Assemble,
    /// `dis ROM [--symbols P]`: writes the disassembly of a ROM file to the standard output.
    Disassemble,
    /// `gen N`: makes a workload of N routines, runs it, and writes a summary to the standard output.
    Generate,
    /// `line SETUP`: runs the machines of a setup in a line, each giving its bytes to the next one.
    Line,
}

/// Why words ask for nothing.
#[derive(Drop)]
pub enum WordFault {
    /// They are not legal.
    NotUnderstood,
    /// This word names a file and is no path.
    NoPath(Bytes),
}

/// Why words were not read.
#[derive(Drop)]
pub enum WordStop {
    /// They ask for nothing.
    Refused(WordFault),
    /// Memory runs out.
    NoMemory,
}

impl From<AllocError> for WordStop {
    ghost use Rattle.std.specs.Prelude.{◌≡◌};
    ghost use Rattle.uxn_arguments.specs.declared.words.WordStop.TheVariants as stops;

    ghost from_gives = { λ _ stop. stop ≡ stops.NoMemory };

    fn from(_want: AllocError) -> WordStop {
        WordStop::NoMemory
    }
}

/// The commands by their names.
static COMMANDS: [Named<Command>; 6] = [
    ("play", Command::Play),
    ("debug", Command::Debug),
    ("asm", Command::Assemble),
    ("dis", Command::Disassemble),
    ("gen", Command::Generate),
    ("line", Command::Line),
];

// The commands by their names.
fn commands() -> &'static [Named<Command>]
    ensures { named_in result.now ≡ commands }
{
    COMMANDS.as_slice()
}

impl Command {
    /// What the words after the command's name ask for.
    fn read(self, alloc: Global, words: &[String]) -> Result<Task, WordStop>
        ensures requested { ReadsArguments result (command_task (map string_bytes words.now) self) }
        ensures budget { IfOk result HasBudget }
    {
        match reading::read(alloc, self.choices(), words)? {
            Some(found) => self.task(alloc, &found),
            None => Err(WordStop::Refused(WordFault::NotUnderstood)),
        }
    }
}

/// What the words ask for. They are refused where they are not legal; then where a word that names a file is no path, the
/// first one in the order of the usage line. Errors when out of memory.
#[tactic(auto, unfolding(crate::specs::Words::task_of))]
pub fn read_words(alloc: Global, words: &[String]) -> Result<Task, WordStop>
    ensures requested { ReadsArguments result (task_of (map string_bytes words.now)) }
    ensures budget { IfOk result HasBudget }
{
    let Some((name, rest)) = words.split_first() else {
        return Err(WordStop::Refused(WordFault::NotUnderstood));
    };
    match value_named(commands(), name.as_bytes()) {
        Some(command) => command.read(alloc, rest),
        None => Err(WordStop::Refused(WordFault::NotUnderstood)),
    }
}
