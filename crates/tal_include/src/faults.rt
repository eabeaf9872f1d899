//! Where words stand in files, and what can be wrong with includes.

ghost use Rattle.std.specs.Prelude.{◌≡◌, ◌≤◌, length, take};
ghost use Rattle.tal_include.specs.Includes.{include_kind_name, include_fault_at, word_prefix};

use arrayvec::ArrayVec;
use tal_words::FaultKind;
use uxn_io_traits::{Halt, Path};
use uxn_limits::limits::WORD_LIMIT;

/// Where a word stands: in which file, and at which line and column of it.
#[derive(Clone, Copy, Debug)]
pub struct Origin {
    pub path: Path,
    pub line: u32,
    pub column: u32,
}

/// What is wrong where words of files are put together.
#[derive(Clone, Copy, Debug, PartialEq, Eq)]
pub enum IncludeKind {
    /// A file has this fault of its own words.
    Words(FaultKind),
    /// What stands behind the tilde is no path, or none behind the folder of the main source.
    BadPath,
    /// No file is there.
    Missing,
    /// The file has more than `TEXT_LIMIT` bytes.
    Long,
    /// The file would be included more than `INCLUDE_DEPTH` deep.
    Deep,
    /// `INCLUDED_FILES` files were included before.
    Many,
    /// The flat text has more than `TEXT_LIMIT` bytes.
    LongFlat,
}

impl IncludeKind {
    /// The name of the kind, as it is printed.
    pub fn name(self) -> &'static str
        ensures { result.now ≡ include_kind_name self }
    {
        match self {
            IncludeKind::Words(kind) => kind.name(),
            IncludeKind::BadPath => "IncludePath",
            IncludeKind::Missing => "IncludeMissing",
            IncludeKind::Long => "IncludeLong",
            IncludeKind::Deep => "IncludeDeep",
            IncludeKind::Many => "IncludeMany",
            IncludeKind::LongFlat => "IncludeLongText",
        }
    }
}

/// A fault: where the faulty word stands, what is wrong, and the first `WORD_LIMIT` bytes of the word.
#[derive(Debug, Drop)]
pub struct IncludeFault {
    pub origin: Origin,
    pub kind: IncludeKind,
    pub word: ArrayVec<u8, WORD_LIMIT>,
}

impl IncludeFault {
    /// A fault of a kind at a word.
    pub(crate) fn new(origin: Origin, kind: IncludeKind, word: &[u8]) -> IncludeFault
        ensures { result ≡ include_fault_at origin kind word.now }
    {
        IncludeFault {
            origin,
            kind,
            word: copied(word_prefix(word)),
        }
    }
}

/// The first `WORD_LIMIT` bytes of a word, or all of them.
#[tactic(auto, unfolding(crate::specs::Includes::word_prefix))]
fn word_prefix(word: &[u8]) -> &[u8]
    ensures prefix { result.now ≡ word_prefix word.now }
    ensures short { length result.now ≤ WORD_LIMIT }
{
    prefix(word, WORD_LIMIT)
}

/// So many bytes of a text, or all of them.
#[tactic(auto, using(std::proofs::lemmas::List::take_all))]
fn prefix(text: &[u8], most: usize) -> &[u8]
    ensures prefix { result.now ≡ take most text.now }
    ensures short { length result.now ≤ most }
{
    if text.len() > most {
        &text[..most]
    } else {
        text
    }
}

/// A copy of a text that is not too long.
fn copied(text: &[u8]) -> ArrayVec<u8, WORD_LIMIT>
    requires { length text.now ≤ WORD_LIMIT }
    ensures { result.items ≡ text.now }
{
    let mut copy = ArrayVec::new();
    let _ = copy.try_extend_from_slice(text);
    copy
}

/// Why a source is not spliced.
pub type SpliceStop = Halt<IncludeFault>;
