//! What can be wrong with a source.

ghost use Rattle.std.specs.Prelude.{◌≡◌, List, ℕ, true};
ghost use Rattle.tal_words.specs.Faults.{Validated, kind_name, fault_at, fault_text};
ghost use Rattle.tal_words.specs.Comments.{validated_token};
ghost use Rattle.tal_words.specs.FirstFault.{IsFirst, are_in_order};
ghost use Rattle.tal_words.specs.declared.span.Word.{Word as WordSpan};
ghost use Rattle.tal_words.specs.declared.fault.AsmStop.TheVariants.{NoMemory};

use crate::span::Word;
use crate::text::run_end;
use std::alloc::{AllocError, AllocFailed};
use thiserror::Error;

/// The kinds of faults, numbered from 1 in this order. A word has its faults in this order.
#[derive(Clone, Copy, Debug, PartialEq, Eq)]
pub enum FaultKind {
    /// A comment is not closed.
    OpenComment,
    /// A word has more than `WORD_LIMIT` bytes.
    LongWord,
    /// A word begins with `)`.
    StrayParen,
    /// A word that should be a number is none.
    BadNumber,
    /// A word that should be a name is none.
    BadName,
    /// A name is empty.
    NoName,
    /// A word includes a file.
    IncludeHere,
    /// The source has more than `TEXT_LIMIT` bytes.
    LongSource,
    /// A macro is defined twice.
    MacroTwice,
    /// A macro has no body, or a body has a macro in it.
    MacroBody,
    /// Macros are used more than `MACRO_DEPTH` deep.
    MacroDeep,
    /// Macros give too many words.
    ManyWords,
    /// A `}` closes nothing.
    StrayBrace,
    /// A lambda is not closed.
    OpenBrace,
    /// A label is defined twice.
    LabelTwice,
    /// A word has bytes in the zero page.
    ZeroPage,
    /// A word lies past the end of memory.
    Outside,
    /// A word has bytes below those of an earlier word.
    Rewind,
    /// A reference names nothing.
    UnknownName,
    /// A target is too far for a byte.
    TooFar,
}

impl FaultKind {
    /// The name of the kind, as it is printed.
    pub fn name(self) -> &'static str
        ensures { result.now ≡ kind_name self }
    {
        match self {
            FaultKind::OpenComment => "OpenComment",
            FaultKind::LongWord => "LongWord",
            FaultKind::StrayParen => "StrayParen",
            FaultKind::BadNumber => "BadNumber",
            FaultKind::BadName => "BadName",
            FaultKind::NoName => "NoName",
            FaultKind::IncludeHere => "IncludeHere",
            FaultKind::LongSource => "LongSource",
            FaultKind::MacroTwice => "MacroTwice",
            FaultKind::MacroBody => "MacroBody",
            FaultKind::MacroDeep => "MacroDeep",
            FaultKind::ManyWords => "ManyWords",
            FaultKind::StrayBrace => "StrayBrace",
            FaultKind::OpenBrace => "OpenBrace",
            FaultKind::LabelTwice => "LabelTwice",
            FaultKind::ZeroPage => "ZeroPage",
            FaultKind::Outside => "Outside",
            FaultKind::Rewind => "Rewind",
            FaultKind::UnknownName => "UnknownName",
            FaultKind::TooFar => "TooFar",
        }
    }
}

/// A fault: its kind, and where the faulty word begins. The offset counts from 0, line and column
/// from 1.
#[derive(Clone, Copy, Debug)]
pub struct Fault {
    pub at: u32,
    pub line: u32,
    pub column: u32,
    pub kind: FaultKind,
}

impl Fault {
    /// A fault of a kind at a word.
    pub fn new(word: &Word, kind: FaultKind) -> Fault
        ensures { result ≡ fault_at word.now kind }
    {
        Fault {
            at: word.span.start,
            line: word.line,
            column: word.column,
            kind,
        }
    }
}

/// The bytes of the faulty word, which are printed with a fault: the token that begins where the
/// fault is. A source that is too long has none.
pub fn fault_word<'a>(source: &'a [u8], fault: &Fault) -> &'a [u8]
    ensures { result.now ≡ fault_text source.now fault.now }
{
    if let FaultKind::LongSource = fault.kind {
        return &[];
    }
    let start = (fault.at as usize).min(source.len());
    let end = run_end(source, start);
    &source[start..end]
}

/// The first fault is the first: no word before it has one, and its word has none before it, nor one of a lesser number where its
/// kinds stand in order. So those of a token do.
#[tactic(auto, using(crate::proofs::FirstLemmas::first_is, crate::proofs::FirstLemmas::token_in_order))]
pub fn first_fault_is_first()
    ensures first { (words : List Validated) → IsFirst words }
    ensures ordered { (source : List ℕ) (before after : List WordSpan) (token : WordSpan)
        → are_in_order (validated_token source before token after).kinds ≡ true }
{}

/// Why a source is not assembled.
#[derive(Debug, Drop, Error)]
pub enum AsmStop {
    /// The source has this fault, the first of all.
    #[error("the source is refused")]
    Refused(Fault),
    /// Memory ran out.
    #[error("out of memory")]
    NoMemory,
}

impl From<AllocError> for AsmStop {
    ghost from_gives = { λ _ stop. stop ≡ NoMemory };

    fn from(_error: AllocError) -> AsmStop {
        AsmStop::NoMemory
    }
}

impl<T: Drop> From<AllocFailed<T>> for AsmStop {
    ghost from_gives = { λ _ stop. stop ≡ NoMemory };

    fn from(_error: AllocFailed<T>) -> AsmStop {
        AsmStop::NoMemory
    }
}
