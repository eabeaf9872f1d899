//! A source with its includes, assembled.

ghost use Rattle.std.specs.Prelude.{◌≡◌, None, Ok, Err, IfOk};
ghost use Rattle.uxn_io_traits.specs.Inquires.{Inquires, Says};
ghost use Rattle.tal_words.specs.Faults.{fault_text};
ghost use Rattle.tal_words.specs.Comments.{word_fault, words_of};
ghost use Rattle.tal_rom.specs.Assembly.{IsAssembled, first_fault};
ghost use Rattle.tal_include.specs.declared.faults.IncludeKind.TheVariants.{Words};
ghost use Rattle.tal_include.specs.Sources.{include_source_fault, flat_answer, origin_in, own_answer, source_inquiry, sourced_of, spliced_inquiry};

use super::source_fault::{SourceFault, SourceStop, refused};
use super::splicing::{splice_words, words_to_splice};
use super::{IncludeKind, Origin, SpliceStop, Spliced};
use std::alloc::Global;
use std::marker::Model;
use tal_rom::{Assembly, assemble};
use tal_words::{AsmStop, Fault, Word, fault_word};
use uxn_io_traits::{Bytes, Path, Tree};

/// A source without a fault: the text that was assembled, which is its own or its flat text, the files that it includes, and
/// what it is assembled to.
#[derive(Drop)]
pub struct AssembledSource {
    text: Bytes,
    paths: Vec<Path>,
    assembly: Assembly,
}

impl Model for AssembledSource {
    ghost use Rattle.std.specs.Prelude.{◌≤◌, length};
    ghost use Rattle.tal_rom.specs.Rom.{rom_limit};
    ghost use Rattle.tal_include.specs.Sources.{SourceView};

    ghost Value = { SourceView };

    ghost view = { λ s. record { text = s.text.list; paths = s.paths.items; assembly = s.assembly } };

    ghost invariant = { λ s. length s.assembly.rom ≤ rom_limit };
}

impl AssembledSource {
    /// The text that was assembled: the source, or its flat text where it has an include word.
    pub fn text(&self) -> &[u8]
        ensures { result.now ≡ self.now.text }
    {
        self.text.as_slice()
    }

    /// What the text is assembled to, and the files that were read beside the main source, in the order of reading. The text is
    /// given up.
    pub fn into_parts(self) -> (Assembly, Vec<Path>)
        ensures assembly { result.0 ≡ self.assembly }
        ensures paths { result.1.items ≡ self.paths }
    {
        (self.assembly, self.paths)
    }

    /// What the text is assembled to.
    pub fn assembly(&self) -> &Assembly
        ensures { result.now ≡ self.now.assembly }
    {
        &self.assembly
    }
}

/// Assembles a source, with the words of its files in place of the words that include them. Refused with its first fault, at
/// the word of the file that has it. The tree does not change, and is asked for each file as its word is met.
pub fn read_source<T: Tree>(
    alloc: Global,
    tree: &mut T,
    main: &Path,
    source: Bytes,
) -> Result<AssembledSource, SourceStop>
    ensures answer { Inquires sourced_of (source_inquiry main.now source.list) (T.state tree.old) (T.state tree.new) result }
    ensures assembled { IfOk result (λ made. IsAssembled made.text (Ok made.assembly)) }
{
    match words_to_splice(alloc, source.as_slice())? {
        Some(words) => read_spliced(alloc, tree, main, source.as_slice(), &words),
        None => assemble_own(alloc, source),
    }
}

/// Assembles a source with include words and these words, none of them faulty.
fn read_spliced<T: Tree>(
    alloc: Global,
    tree: &mut T,
    main: &Path,
    source: &[u8],
    words: &[Word],
) -> Result<AssembledSource, SourceStop>
    requires faultless { word_fault source.now ≡ None }
    requires words { words.now ≡ words_of source.now }
    ensures answer { Inquires sourced_of (spliced_inquiry main.now source.now) (T.state tree.old) (T.state tree.new) result }
    ensures assembled { IfOk result (λ made. IsAssembled made.text (Ok made.assembly)) }
{
    match splice_words(alloc, tree, main, source, words) {
        Ok(flat) => assemble_flat(alloc, main, flat),
        Err(SpliceStop::Refused(fault)) => {
            Err(refused(alloc, main, &fault.origin, fault.kind, &fault.word))
        }
        Err(SpliceStop::TreeFault) => Err(SourceStop::TreeFault),
        Err(SpliceStop::NoMemory) => Err(SourceStop::NoMemory),
    }
}

/// Assembles a source without include words.
fn assemble_own(alloc: Global, source: Bytes) -> Result<AssembledSource, SourceStop>
    ensures answer { Says sourced_of (own_answer source.list) result }
    ensures assembled { IfOk result (λ made. IsAssembled made.text (Ok made.assembly)) }
{
    match assemble(alloc, source.as_slice()) {
        Ok(assembly) => Ok(AssembledSource {
            text: source,
            paths: Vec::new(alloc),
            assembly,
        }),
        Err(AsmStop::Refused(fault)) => {
            let own = SourceFault::own(alloc, source.as_slice(), &fault)?;
            Err(SourceStop::Refused(own))
        }
        Err(AsmStop::NoMemory) => Err(SourceStop::NoMemory),
    }
}

/// Assembles a flat text.
fn assemble_flat(alloc: Global, main: &Path, flat: Spliced) -> Result<AssembledSource, SourceStop>
    ensures answer { Says sourced_of (flat_answer main.now flat) result }
    ensures assembled { IfOk result (λ made. IsAssembled made.text (Ok made.assembly)) }
{
    match assemble(alloc, flat.text()) {
        Ok(assembly) => {
            let (text, paths) = flat.into_parts();
            Ok(AssembledSource {
                text: Bytes::from(text),
                paths,
                assembly,
            })
        }
        Err(AsmStop::Refused(fault)) => Err(flat_refused(alloc, main, &flat, &fault)),
        Err(AsmStop::NoMemory) => Err(SourceStop::NoMemory),
    }
}

/// The refusal of a flat text with a fault, at its word in the file where that stands, unless memory runs out.
fn flat_refused(alloc: Global, main: &Path, flat: &Spliced, fault: &Fault) -> SourceStop
    ensures { Says sourced_of (Err (include_source_fault main.now (origin_in main.now flat.now fault.now.at)
        (Words fault.now.kind) (fault_text flat.now.text fault.now))) (Err result) }
{
    let origin = flat.origin(fault.at).unwrap_or(Origin {
        path: *main,
        line: 1,
        column: 1,
    });
    refused(
        alloc,
        main,
        &origin,
        IncludeKind::Words(fault.kind),
        fault_word(flat.text(), fault),
    )
}
