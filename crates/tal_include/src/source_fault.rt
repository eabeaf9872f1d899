//! What can be wrong with a source and its includes.

ghost use Rattle.std.specs.Prelude.{◌≡◌, ◌++◌, IfOk, Err};
ghost use Rattle.uxn_io_traits.specs.ByteList.{tight};
ghost use Rattle.tal_include.specs.Includes.{include_kind_name};
ghost use Rattle.tal_include.specs.Lines.{file_text, message_of};
ghost use Rattle.tal_include.specs.Sources.{include_source_fault, other_path, own_fault, sourced_of};
ghost use Rattle.uxn_io_traits.specs.Inquires.{Says};

use super::{IncludeKind, Origin};
use std::alloc::{AllocError, Global};
use tal_words::{Fault, fault_word};
use uxn_io_traits::{Bytes, Halt, Path, decimal};

/// The first fault of a source: the file in which its word stands, where that is not the main source, and its place there; what
/// is wrong, where `Words` has the fault that the text has as a source; and the word.
#[derive(Debug, Drop)]
pub struct SourceFault {
    pub file: Option<Path>,
    pub line: u32,
    pub column: u32,
    pub kind: IncludeKind,
    pub word: Bytes,
}

impl SourceFault {
    /// A fault of a source that stands by itself.
    pub fn own(alloc: Global, source: &[u8], fault: &Fault) -> Result<SourceFault, AllocError>
        ensures { IfOk result (λ made. made ≡ own_fault source.now fault.now) }
    {
        Ok(SourceFault {
            file: None,
            line: fault.line,
            column: fault.column,
            kind: IncludeKind::Words(fault.kind),
            word: Bytes::new(alloc, fault_word(source, fault))?,
        })
    }

    /// The text that is printed: where the word stands, what is wrong, and the word.
    pub fn message(&self, alloc: Global) -> Result<Vec<u8>, AllocError>
        ensures { IfOk result (λ made. made.items ≡ message_of self.now) }
    {
        let (path, space) = self.file_pieces();
        [
            b"source ".as_slice(),
            path,
            space,
            decimal(u64::from(self.line)).as_slice(),
            b":",
            decimal(u64::from(self.column)).as_slice(),
            b": ",
            self.kind_name(),
            b": ",
            self.word.as_slice(),
        ]
        .as_slice()
        .concat(alloc)
    }

    /// The path of the file in which the word stands and a space, where that is not the main source.
    fn file_pieces(&self) -> (&[u8], &[u8])
        ensures { result.0.now ++ result.1.now ≡ file_text self.now.file }
    {
        match &self.file {
            Some(path) => (path.bytes(), b" "),
            None => (b"", b""),
        }
    }

    /// What is wrong, in words.
    fn kind_name(&self) -> &[u8]
        ensures { result.now ≡ include_kind_name self.now.kind }
    {
        self.kind.name().as_bytes()
    }
}

/// The path of a file, where it is another than the main source.
fn other_path(main: &Path, path: &Path) -> Option<Path>
    ensures { result ≡ other_path main.now path.now }
{
    if path.bytes() == main.bytes() {
        None
    } else {
        Some(*path)
    }
}

/// Why a source is not assembled.
pub type SourceStop = Halt<SourceFault>;

/// The refusal of a source at a word of a file, unless memory runs out.
pub(crate) fn refused(
    alloc: Global,
    main: &Path,
    origin: &Origin,
    kind: IncludeKind,
    word: &[u8],
) -> SourceStop
    ensures { Says sourced_of (Err (include_source_fault main.now origin.now kind word.now)) (Err result) }
{
    match Bytes::new(alloc, word) {
        Ok(word) => Halt::Refused(SourceFault {
            file: other_path(main, &origin.path),
            line: origin.line,
            column: origin.column,
            kind,
            word,
        }),
        Err(_) => Halt::NoMemory,
    }
}
