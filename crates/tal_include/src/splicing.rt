//! The walk through a source and the files that it includes.

ghost use Rattle.std.specs.Prelude.{◌≡◌, ℕ, ◌+◌, ◌<◌, ◌==◌, ◌&&◌, None, length, nat_lt, IfOk, IfSome, OnOk, is_some};
ghost use Rattle.std.specs.List.{list_any};
ghost use Rattle.uxn_io_traits.specs.Inquires.{Inquires, Says};
ghost use Rattle.uxn_io_traits.specs.declared.halt.Halt.TheVariants.{Refused};
ghost use Rattle.tal_words.specs.declared.span.Word.{Word};
ghost use Rattle.tal_words.specs.Source.{word_text};
ghost use Rattle.tal_words.specs.Comments.{words_of, word_fault};
ghost use Rattle.tal_include.specs.Includes.{is_include, included_path, path_or_kind, bytes_or_kind, include_fault_at};
ghost use Rattle.tal_include.specs.Flat.{flat_with_path};
ghost use Rattle.tal_include.specs.Splice.{is_long_with, found_at, words_in, at_plain_word, file_at_word, at_include};
ghost use Rattle.tal_include.specs.Splice.{through_words, walk, is_spliced, splice_inquiry};

use crate::faults::{IncludeFault, IncludeKind, Origin, SpliceStop};
use crate::spliced::Spliced;
use std::alloc::{AllocError, Global};
use tal_words::{AsmStop, Word, fault_word, words};
use uxn_io_traits::{Bytes, FileBytes, Path, Tree, read_whole};
use uxn_limits::limits;

/// A file that is gone through: its path, its bytes and its words.
#[derive(Clone, Copy)]
struct SourceFile<'a> {
    path: &'a Path,
    source: &'a [u8],
    words: &'a [Word],
}

/// A word of a file: where it stands, and its bytes.
#[derive(Clone, Copy)]
struct FileWord<'a> {
    origin: Origin,
    text: &'a [u8],
}

/// Puts the words of the files that a source includes in place of the words that include them. The path
/// of a file is read behind the folder of the main source. Refused with the first fault on the way through
/// the words. The tree does not change, and receives no request but to read each file once, as its word is met.
pub fn splice<T: Tree>(
    alloc: Global,
    tree: &mut T,
    main: &Path,
    source: &[u8],
) -> Result<Spliced, SpliceStop>
    ensures { Inquires (λ flat. flat) (splice_inquiry main.now source.now) (T.state tree.old) (T.state tree.new) result }
{
    let words = words_in(alloc, main, source)?;
    splice_words(alloc, tree, main, source, &words)
}

/// The same, of a source without a fault of words that was cut into its words.
pub(crate) fn splice_words<T: Tree>(
    alloc: Global,
    tree: &mut T,
    main: &Path,
    source: &[u8],
    words: &[Word],
) -> Result<Spliced, SpliceStop>
    requires faultless { word_fault source.now ≡ None }
    requires words { words.now ≡ words_of source.now }
    ensures { Inquires (λ flat. flat) (splice_inquiry main.now source.now) (T.state tree.old) (T.state tree.new) result }
{
    let mut flat = Spliced::new(alloc, main, has_include(source, words));
    let file = SourceFile {
        path: main,
        source,
        words,
    };
    flat.add_words(alloc, tree, &file, limits::INCLUDE_DEPTH)?;
    Ok(flat)
}

/// The words of a source that is spliced: it has an include word, and no fault of words. A source without a tilde is not cut.
pub(crate) fn words_to_splice(alloc: Global, source: &[u8]) -> Result<Option<Vec<Word>>, AllocError>
    ensures spliced { IfOk result (λ answer. is_some answer ≡ is_spliced source.now) }
    ensures words { IfOk result (λ answer. IfSome answer (λ words. words.items ≡ words_of source.now)) }
    ensures faultless { IfOk result (λ answer. IfSome answer (λ _. word_fault source.now ≡ None)) }
{
    if !source.contains(&b'~') {
        return Ok(None);
    }
    match words(alloc, source) {
        Ok(words) => {
            if has_include(source, &words) {
                Ok(Some(words))
            } else {
                Ok(None)
            }
        }
        Err(AsmStop::Refused(_)) => Ok(None),
        Err(AsmStop::NoMemory) => Err(AllocError),
    }
}

/// The words of a file, unless it has a fault of words.
fn words_in(alloc: Global, path: &Path, source: &[u8]) -> Result<Vec<Word>, SpliceStop>
    ensures { Says (λ words. words.items) (words_in path.now source.now) result }
{
    match words(alloc, source) {
        Ok(words) => Ok(words),
        Err(AsmStop::Refused(fault)) => {
            let word = FileWord {
                origin: Origin {
                    path: *path,
                    line: fault.line,
                    column: fault.column,
                },
                text: fault_word(source, &fault),
            };
            Err(word.refused(IncludeKind::Words(fault.kind)))
        }
        Err(AsmStop::NoMemory) => Err(SpliceStop::NoMemory),
    }
}

/// Whether a word includes a file.
fn is_include(word: &[u8]) -> bool
    ensures { result ≡ is_include word.now }
{
    match word {
        [first, _, ..] => *first == b'~',
        _ => false,
    }
}

/// Whether some word includes a file.
fn has_include(source: &[u8], words: &[Word]) -> bool
    ensures { result ≡ list_any (λ word. is_include (word_text source.now word)) words.now }
{
    words.iter().any(|word| is_include(word.span.text(source)))
}

/// The path that an include word names.
fn included_path(main: &Path, word: &[u8]) -> Option<Path>
    requires { 0 < length word.now }
    ensures { result ≡ included_path main.now word.now }
{
    match Path::read(&word[1..]) {
        Ok(path) => match main.parent() {
            Some(folder) => folder.join(&path),
            None => Some(path),
        },
        Err(_) => None,
    }
}

impl FileWord<'_> {
    /// A refusal at the word.
    fn refused(&self, kind: IncludeKind) -> SpliceStop
        ensures { result ≡ Refused (include_fault_at self.now.origin kind self.now.text.now) }
    {
        SpliceStop::Refused(IncludeFault::new(self.origin, kind, self.text))
    }

    /// The bytes of the file that the word includes.
    fn bytes_of(&self, file: FileBytes) -> Result<Bytes, SpliceStop>
        ensures { Says (λ bytes. bytes.list) (found_at self.now.origin self.now.text.now (bytes_or_kind file)) result }
    {
        match file {
            FileBytes::Missing => Err(self.refused(IncludeKind::Missing)),
            FileBytes::TooLong(_) => Err(self.refused(IncludeKind::Long)),
            FileBytes::Found(bytes) => Ok(bytes),
        }
    }

    /// Reads the file that the word includes, which is at this path.
    fn read_file<T: Tree>(
        &self,
        alloc: Global,
        tree: &mut T,
        path: &Path,
    ) -> Result<Bytes, SpliceStop>
        ensures { Inquires (λ bytes. bytes.list) (file_at_word self.now.origin self.now.text.now path.now) (T.state tree.old) (T.state tree.new) result }
    {
        let file = read_whole(alloc, tree, path, limits::TEXT_LIMIT as u32)?;
        self.bytes_of(file)
    }
}

impl Spliced {
    /// Goes through the words of the file that was read last.
    #[cycle(walk)]
    fn add_words<T: Tree>(
        &mut self,
        alloc: Global,
        tree: &mut T,
        file: &SourceFile<'_>,
        deeper: u32,
    ) -> Result<(), SpliceStop>
        ensures { Inquires (λ _. self.new)
            (through_words deeper (walk deeper) file.now.path.now file.now.source.now self.old file.now.words.now)
            (T.state tree.old) (T.state tree.new) result }
    {
        let number = self.paths().len();
        for word in file.words {
            let text = word.span.text(file.source);
            let origin = Origin {
                path: *file.path,
                line: word.line,
                column: word.column,
            };
            let at = FileWord { origin, text };
            let added = if is_include(text) {
                self.add_include(alloc, tree, &at, deeper)
            } else {
                self.add_plain(number, word, &at)
            };
            added?;
        }
        Ok(())
    }

    /// Goes through the file that an include word names.
    #[cycle(walk)]
    fn add_include<T: Tree>(
        &mut self,
        alloc: Global,
        tree: &mut T,
        at: &FileWord<'_>,
        deeper: u32,
    ) -> Result<(), SpliceStop>
        requires { 0 < length at.now.text.now }
        ensures { Inquires (λ _. self.new) (at_include deeper (walk deeper) at.now.origin at.now.text.now self.old)
            (T.state tree.old) (T.state tree.new) result }
    {
        let path = self.next_path(at, deeper)?;
        let bytes = at.read_file(alloc, tree, &path)?;
        let source = bytes.as_slice();
        let words = words_in(alloc, &path, source)?;
        let file = SourceFile {
            path: &path,
            source,
            words: &words,
        };
        self.add_words(alloc, tree, &file, deeper - 1)
    }

    /// Adds the path of the file to be read, where files may be included so many deep, and gives it.
    fn next_path(&mut self, at: &FileWord<'_>, deeper: u32) -> Result<Path, SpliceStop>
        requires { 0 < length at.now.text.now }
        ensures value { Says (λ path. path) (found_at at.now.origin at.now.text.now
            (path_or_kind deeper (length self.old.paths) (included_path self.old.main at.now.text.now))) result }
        ensures deep { OnOk result (0 < deeper) }
        ensures added { IfOk result (λ path. self.new ≡ flat_with_path path self.old) }
    {
        match included_path(self.main(), at.text) {
            None => Err(at.refused(IncludeKind::BadPath)),
            Some(path) => {
                if deeper == 0 {
                    Err(at.refused(IncludeKind::Deep))
                } else if self.paths().len() >= limits::INCLUDED_FILES {
                    Err(at.refused(IncludeKind::Many))
                } else {
                    self.add_path(&path)?;
                    Ok(path)
                }
            }
        }
    }

    /// Adds a word that includes no file.
    fn add_plain(&mut self, file: usize, word: &Word, at: &FileWord<'_>) -> Result<(), SpliceStop>
        ensures { Says (λ _. self.new) (at_plain_word file at.now.origin word.now at.now.text.now self.old) result }
    {
        if self.is_long_with(at.text) {
            return Err(at.refused(IncludeKind::LongFlat));
        }
        self.add_word(file, word, at.text).map_err(SpliceStop::from)
    }

    /// Whether the flat text of a source with includes is too long with this word and its newline.
    fn is_long_with(&self, text: &[u8]) -> bool
        ensures { result ≡ is_long_with self.now text.now }
    {
        self.includes() && self.text().len() + text.len() + 1 > limits::TEXT_LIMIT
    }
}
