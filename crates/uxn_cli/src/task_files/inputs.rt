//! Inputs: the files that are read, one after the other, each by its kind.
ghost use Rattle.std.specs.Prelude.{◌≡◌, ◌≤◌, length, IfOk};
ghost use Rattle.uxn_io_traits.specs.WholeFile.{KeepsLimit};
ghost use Rattle.uxn_io_traits.specs.Inquires.{Inquires, Says};
ghost use Rattle.uxn_cli.specs.Inputs.{text_of, size_rule, kind_text, too_long};

use super::refusal::Refusal;
use std::alloc::Global;
use tal_include::{IncludeKind, SourceFault};
use tal_symbols::SymbolKind;
use tal_words::FaultKind;
use text_lines::{ScriptKind, SetupKind};
use uxn_debugger::CommandKind;
use uxn_io_traits::{Bytes, FileBytes, Halt, Path, Tree, read_whole};
use uxn_limits::limits;

/// What a file is read as.
#[derive(Clone, Copy)]
pub enum InputKind {
    /// A source, or a file that is run as one.
    Source,
    /// A ROM that is run.
    Rom,
    /// A ROM that is disassembled, which ends with bank 0.
    BankRom,
    /// Symbols.
    Symbols,
    /// A script.
    Script,
    /// The commands of a debugger.
    Commands,
    /// The setup of a line of machines.
    Setup,
}

impl InputKind {
    /// No more bytes of a file are read.
    fn limit(self) -> u32
        ensures { result ≡ (size_rule self).most }
    {
        match self {
            InputKind::Rom => limits::LARGEST_ROM as u32,
            InputKind::BankRom => limits::BANK_ROM_LIMIT as u32,
            InputKind::Symbols => limits::SYMBOLS_LIMIT as u32,
            InputKind::Source | InputKind::Script | InputKind::Commands | InputKind::Setup => {
                limits::TEXT_LIMIT as u32
            }
        }
    }

    /// Why a longer file is refused.
    fn long_refusal(self, alloc: Global, length: u64) -> Refusal
        ensures { result ≡ (size_rule self).refusal length }
    {
        match self {
            InputKind::Source => Refusal::Faulty(long_source(alloc)),
            InputKind::Rom => Refusal::LongRom(length),
            InputKind::BankRom => Refusal::LongRom(length),
            InputKind::Symbols => Refusal::BadSymbols(0, SymbolKind::Long),
            InputKind::Script => Refusal::BadScript(1, ScriptKind::LongScript),
            InputKind::Commands => Refusal::BadCommands(1, CommandKind::LongCommands),
            InputKind::Setup => Refusal::BadSetup(1, SetupKind::LongSetup),
        }
    }

    /// The bytes of a file that is there and not too long.
    fn kind_text(self, alloc: Global, path: &Path, file: FileBytes) -> Result<Bytes, Halt<Refusal>>
        ensures says { Says (λ text. text.list) (kind_text self path.now file) result }
        ensures limit { KeepsLimit (size_rule self).most file → IfOk result (λ text. length text.list ≤ (size_rule self).most) }
    {
        match file {
            FileBytes::Found(text) => Ok(text),
            FileBytes::Missing => Err(Halt::Refused(Refusal::Missing(*path))),
            FileBytes::TooLong(length) => Err(Halt::Refused(self.long_refusal(alloc, length))),
        }
    }
}

/// The fault of a source that is too long.
fn long_source(alloc: Global) -> SourceFault
    ensures { result ≡ too_long }
{
    SourceFault {
        file: None,
        line: 1,
        column: 1,
        kind: IncludeKind::Words(FaultKind::LongSource),
        word: Bytes::from(Vec::new(alloc)),
    }
}

/// The bytes of the file at a path, unless none is there or it is too long.
pub fn read_text<T: Tree>(
    alloc: Global,
    kind: InputKind,
    path: &Path,
    tree: &mut T,
) -> Result<Bytes, Halt<Refusal>>
    ensures text { Inquires (λ text. text.list) (text_of kind path.now) (T.state tree.old) (T.state tree.new) result }
    ensures limit { IfOk result (λ text. length text.list ≤ (size_rule kind).most) }
{
    let file = read_whole(alloc, tree, path, kind.limit())?;
    kind.kind_text(alloc, path, file)
}
