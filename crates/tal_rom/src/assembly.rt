//! From a source to its ROM.

ghost use Rattle.std.specs.Prelude.{◌≡◌, ◌≤◌, List, None, IfOk, MatchOption, is_some, true, length, [], ℕ};
ghost use Rattle.uxn_limits.specs.declared.limits.TheConstants.{TEXT_LIMIT};
ghost use Rattle.tal_words.specs.Comments.{words_of, word_fault};
ghost use Rattle.tal_labels.specs.Answers.{FindsNone};
ghost use Rattle.tal_rom.specs.Rom.{rom_limit};
ghost use Rattle.tal_rom.specs.Assembly.{IsAssembled, first_fault, layout};
ghost use Rattle.tal_rom.specs.Answers.{CoverOnce};
ghost use Rattle.tal_labels.specs.Placers.{WereAdded};
ghost use Rattle.tal_rom.specs.Passing.{AreAdded, IsOnItsWay};

use crate::patcher::Patcher;
use crate::references::check_references;
use std::alloc::{AllocError, Global};
use std::marker::Model;
use tal_labels::{PlacedWord, Placer, place};
use tal_macros::{Expander, expand};
use tal_words::{AsmStop, Label, Word, words};

/// What a source without a fault is assembled to.
#[derive(Drop)]
pub struct Assembly {
    rom: Vec<u8>,
    places: Vec<PlacedWord>,
    labels: Vec<Label>,
}

impl Model for Assembly {
    ghost use Rattle.std.specs.Prelude.{◌≤◌, length};
    ghost use Rattle.tal_rom.specs.Program.{Program};
    ghost use Rattle.tal_rom.specs.Rom.{rom_limit};

    ghost Value = { Program };

    ghost view = { λ assembly. record { rom = assembly.rom.items; places = assembly.places.items; labels = assembly.labels.items } };

    ghost invariant = { λ assembly. length assembly.rom.items ≤ rom_limit };
}

impl Assembly {
    /// The bytes from the address 0100 on, without the zeros at their end: at most 65,280.
    pub fn rom(&self) -> &[u8]
        ensures value { result.now ≡ self.now.rom }
        ensures room { length result.now ≤ rom_limit }
    {
        &self.rom
    }

    /// The words of the source, its macros' bodies in the place of their uses, each with its address.
    pub fn places(&self) -> &[PlacedWord]
        ensures { result.now ≡ self.now.places }
    {
        &self.places
    }

    /// The labels by their full names, in order of definition.
    pub fn labels(&self) -> &[Label]
        ensures { result.now ≡ self.now.labels }
    {
        &self.labels
    }

    /// The bytes and the labels, all else given up.
    pub fn into_parts(self) -> (Vec<u8>, Vec<Label>)
        ensures rom { result.0.items ≡ self.rom }
        ensures labels { result.1.items ≡ self.labels }
        ensures room { length result.0.items ≤ rom_limit }
    {
        (self.rom, self.labels)
    }
}

/// The assembly of a source, or its first fault: that of the first phase that has one, at its first
/// faulty word, of the least kind there. The phases are the cutting into words, the macros, the forms
/// and braces of words, the labels and places, and the references. A source without a fault is assembled in one
/// pass over its words, which is given up at a fault; then the phases find it one after the other.
pub fn assemble(alloc: Global, source: &[u8]) -> Result<Assembly, AsmStop>
    ensures { IsAssembled source.now result }
{
    let words = words(alloc, source)?;
    match in_one_pass(alloc, source, &words)? {
        Some(assembly) => Ok(assembly),
        None => Err(check_phases(alloc, source, &words).unwrap_err()),
    }
}

/// The assembly of a source, which has these words and no fault before that of a macro, in one pass; none where the pass
/// meets a fault.
fn in_one_pass(alloc: Global, source: &[u8], words: &[Word]) -> Result<Option<Assembly>, AllocError>
    requires words { words.now ≡ words_of source.now }
    requires sound { word_fault source.now ≡ None }
    requires short { length source.now ≤ TEXT_LIMIT }
    ensures { IfOk result (λ found. MatchOption found (is_some (first_fault source.now) ≡ true) (λ assembly. IsAssembled source.now (Ok assembly))) }
{
    let mut placer = Placer::new(alloc);
    let Some(rom) = patch_all(alloc, source, words, &mut placer)? else {
        return Ok(None);
    };
    match placer.finish() {
        Some(placed) => {
            let (places, labels) = placed.into_parts();
            Ok(Some(Assembly {
                rom,
                places,
                labels,
            }))
        }
        None => Ok(None),
    }
}

/// The ROM of a source whose words are added to a placer; none where the pass meets a fault.
fn patch_all(
    alloc: Global,
    source: &[u8],
    words: &[Word],
    placer: &mut Placer,
) -> Result<Option<Vec<u8>>, AllocError>
    requires words { words.now ≡ words_of source.now }
    requires short { length source.now ≤ TEXT_LIMIT }
    requires placed { WereAdded source.now [] placer.old }
    ensures { IfOk result (λ found. MatchOption found (is_some (first_fault source.now) ≡ true) (λ rom. AreAdded source.now placer.new rom.items)) }
{
    let mut patcher = Patcher::new(alloc)?;
    let mut expander = Expander::new(alloc, source, words);
    add_all(source, &mut expander, placer, &mut patcher)
}

/// Adds the words that the expander gives up to the last one, and gives the ROM; none where they have a fault.
fn add_all(
    source: &[u8],
    expander: &mut Expander,
    placer: &mut Placer,
    patcher: &mut Patcher,
) -> Result<Option<Vec<u8>>, AllocError>
    requires short { length source.now ≤ TEXT_LIMIT }
    requires so { IsOnItsWay source.now expander.old placer.old patcher.old }
    ensures { IfOk result (λ found. MatchOption found (is_some (first_fault source.now) ≡ true) (λ rom. AreAdded source.now placer.new rom.items)) }
{
    loop {
        match expander.next() {
            Ok(Some(word)) => match placer.add(source, word)? {
                Some(placed) => patcher.add(source, &placed)?,
                None => return Ok(None),
            },
            Ok(None) => return patcher.rom(),
            Err(AsmStop::Refused(_)) => return Ok(None),
            Err(AsmStop::NoMemory) => return Err(AllocError),
        }
    }
}

/// Finds the first fault of a source, which has these words and no fault before that of a macro, phase by phase.
fn check_phases(alloc: Global, source: &[u8], words: &[Word]) -> Result<(), AsmStop>
    requires words { words.now ≡ words_of source.now }
    requires sound { word_fault source.now ≡ None }
    requires short { length source.now ≤ TEXT_LIMIT }
    ensures { FindsNone result (first_fault source.now) }
{
    let expanded = expand(alloc, source, words)?;
    let placed = place(alloc, source, &expanded)?;
    check_references(alloc, source, &placed)
}

/// In a source without a fault at most one word covers an address, and each word has as many bytes as
/// its size says.
#[tactic(auto, using(crate::proofs::AssemblyLemmas::sound_once))]
pub fn words_cover_once()
    ensures { (source : List ℕ) → first_fault source ≡ None → CoverOnce source (layout source).labels (layout source).words }
{}
