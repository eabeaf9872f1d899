//! Why a call ends before its work is done, and the line of a refusal.
ghost use Rattle.std.specs.Prelude.{◌≡◌, [], ◌∷◌, ◌++◌, codes, decimal, IfOk};
ghost use Rattle.tal_include.specs.Lines.{message_of};
ghost use Rattle.uxn_cli.specs.Lines.{line, refusal_line};
ghost use Rattle.uxn_cli.specs.Statuses.{status_of};
ghost use Rattle.uxn_cli.specs.Blame.{as_step};
ghost use Rattle.uxn_cli.specs.Puts.{Puts};

use std::alloc::{AllocError, Global};
use tal_include::SourceFault;
use tal_symbols::SymbolKind;
use text_lines::{ScriptKind, SetupKind};
use uxn_debugger::CommandKind;
use uxn_io_traits::{Bytes, Failed, Halt as InquiryHalt, Path, Sink, decimal, put_all};
use uxn_opcodes::Stop;

/// Why a call does nothing but put one line on the error output.
#[derive(Drop)]
pub enum Refusal {
    /// The words are not legal.
    NotUnderstood,
    /// This word is no path.
    NoPath(Bytes),
    /// An output, which clashes with another file of the command or cannot be made.
    NoOutput(Path),
    /// An input, which is no file.
    Missing(Path),
    /// The first fault of a source, or of a file that it includes.
    Faulty(SourceFault),
    /// A ROM file has so many bytes, which are too many.
    LongRom(u64),
    /// The first faulty entry of a symbol file, counted from 0, and what is wrong with it.
    BadSymbols(u32, SymbolKind),
    /// The first faulty line of a script, counted from 1, and what is wrong with it.
    BadScript(u32, ScriptKind),
    /// The first faulty line of a debugger's commands, counted from 1, and what is wrong with it.
    BadCommands(u32, CommandKind),
    /// The first faulty line of a setup, counted from 1, and what is wrong with it.
    BadSetup(u32, SetupKind),
    /// The script of a setup has an event that is neither a byte of input nor the end of input.
    OtherEvents,
}

/// Why a call ended before its work was done.
#[derive(Drop)]
pub enum Halt {
    /// It is refused.
    Refused(Refusal),
    /// The tree or a sink failed, or memory runs out.
    Stopped(Stop),
}

impl From<AllocError> for Halt {
    ghost use Rattle.std.specs.Prelude.{◌≡◌};
    ghost use Rattle.uxn_cli.specs.declared.task_files.refusal.Halt.TheVariants as halts;
    ghost use Rattle.uxn_opcodes.specs.declared.Stop.TheVariants as stops;

    ghost from_gives = { λ _ halt. halt ≡ halts.Stopped stops.NoMemory };

    fn from(_want: AllocError) -> Halt {
        Halt::Stopped(Stop::NoMemory)
    }
}

impl From<Failed> for Halt {
    ghost use Rattle.std.specs.Prelude.{◌≡◌};
    ghost use Rattle.uxn_cli.specs.declared.task_files.refusal.Halt.TheVariants as halts;
    ghost use Rattle.uxn_opcodes.specs.declared.Stop.TheVariants as stops;

    ghost from_gives = { λ _ halt. halt ≡ halts.Stopped stops.TreeFault };

    fn from(_fault: Failed) -> Halt {
        Halt::Stopped(Stop::TreeFault)
    }
}

impl From<InquiryHalt<Refusal>> for Halt {
    ghost use Rattle.std.specs.Prelude.{◌≡◌};
    ghost use Rattle.uxn_cli.specs.Blame.{halt_of_inquiry};

    ghost from_gives = { λ inner halt. halt ≡ halt_of_inquiry inner };

    fn from(inner: InquiryHalt<Refusal>) -> Halt {
        match inner {
            InquiryHalt::Refused(refusal) => Halt::Refused(refusal),
            InquiryHalt::TreeFault => Halt::Stopped(Stop::TreeFault),
            InquiryHalt::NoMemory => Halt::Stopped(Stop::NoMemory),
        }
    }
}

impl Refusal {
    /// The status of the call that is refused.
    pub fn status(&self) -> u8
        ensures { result ≡ status_of self.now }
    {
        match self {
            Refusal::NotUnderstood => 128,
            Refusal::NoPath(_) => 129,
            Refusal::NoOutput(_) => 135,
            Refusal::Missing(_) => 130,
            Refusal::Faulty(_) => 131,
            Refusal::LongRom(_) | Refusal::BadSymbols(..) => 134,
            Refusal::BadScript(..) => 132,
            Refusal::BadCommands(..) => 133,
            Refusal::BadSetup(..) | Refusal::OtherEvents => 139,
        }
    }

    /// The line that says why. Errors when out of memory.
    fn line(&self, alloc: Global) -> Result<Vec<u8>, AllocError>
        ensures { IfOk result (λ made. made.items ≡ refusal_line self.now) }
    {
        match self {
            Refusal::NotUnderstood => Vec::from_slice(alloc, b"words: not understood\n"),
            Refusal::NoPath(word) => labelled(alloc, b"path: ", word.as_slice()),
            Refusal::NoOutput(path) => labelled(alloc, b"output: ", path.bytes()),
            Refusal::Missing(path) => labelled(alloc, b"missing: ", path.bytes()),
            Refusal::Faulty(fault) => fault_line(alloc, fault),
            Refusal::LongRom(length) => measured(alloc, b"rom: ", *length, b" bytes"),
            Refusal::BadSymbols(entry, kind) => numbered(alloc, b"symbols ", *entry, kind.name()),
            Refusal::BadScript(line, kind) => numbered(alloc, b"script ", *line, kind.name()),
            Refusal::BadCommands(line, kind) => numbered(alloc, b"commands ", *line, kind.name()),
            Refusal::BadSetup(line, kind) => numbered(alloc, b"setup ", *line, kind.name()),
            Refusal::OtherEvents => Vec::from_slice(alloc, b"setup 0: Events\n"),
        }
    }

    /// Puts the line that says why, and gives the status.
    pub fn put<E: Sink>(&self, alloc: Global, err: &mut E) -> Result<u8, Stop>
        ensures { Puts (E.state err.old) (E.state err.new) (refusal_line self.now) (status_of self.now) (as_step result) }
    {
        let Ok(line) = self.line(alloc) else {
            return Err(Stop::NoMemory);
        };
        match put_all(err, &line) {
            Ok(()) => Ok(self.status()),
            Err(Failed) => Err(Stop::SinkFault),
        }
    }
}

/// What a text is, the text, and a newline.
fn labelled(alloc: Global, label: &[u8], text: &[u8]) -> Result<Vec<u8>, AllocError>
    ensures { IfOk result (λ made. made.items ≡ label.now ++ text.now ++ 10 ∷ []) }
{
    [label, text, b"\n"].as_slice().concat(alloc)
}

/// What an input is, its faulty line or entry, what is wrong with it, and a newline.
fn numbered(alloc: Global, label: &[u8], number: u32, kind: &str) -> Result<Vec<u8>, AllocError>
    ensures { IfOk result (λ made. made.items ≡ line (label.now ++ decimal number ++ codes ": " ++ kind.now)) }
{
    let number = decimal(u64::from(number));
    [label, &number, b": ", kind.as_bytes(), b"\n"]
        .as_slice()
        .concat(alloc)
}

/// What an input is, how large it is, in what unit, and a newline.
fn measured(alloc: Global, label: &[u8], size: u64, unit: &[u8]) -> Result<Vec<u8>, AllocError>
    ensures { IfOk result (λ made. made.items ≡ line (label.now ++ decimal size ++ unit.now)) }
{
    let size = decimal(size);
    [label, &size, unit, b"\n"].as_slice().concat(alloc)
}

/// Names the first fault of a source.
fn fault_line(alloc: Global, fault: &SourceFault) -> Result<Vec<u8>, AllocError>
    ensures { IfOk result (λ made. made.items ≡ line (message_of fault.now)) }
{
    let mut line = fault.message(alloc)?;
    line.push(b'\n')?;
    Ok(line)
}
