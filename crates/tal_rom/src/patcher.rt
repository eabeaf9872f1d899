//! Words whose bytes are put into memory as they are added.

ghost use Rattle.std.specs.Prelude.{◌≡◌, ◌<◌, ◌≤◌, ◌^◌, ◌-◌, ◌∷◌, ◌++◌, [], ℕ, List, Some, None, OnOk, OnErr, IfOk, MatchOption, length, Ok, true};
ghost use Rattle.std.specs.Option.{option_map};
ghost use Rattle.tal_words.specs.declared.span.Expanded.{Expanded as ExpandedWord};
ghost use Rattle.tal_words.specs.Source.{expanded_text};
ghost use Rattle.tal_labels.specs.Adding.{word_added};
ghost use Rattle.tal_labels.specs.Labels.{defined_name};
ghost use Rattle.tal_macros.specs.Expansion.{expanded_of};
ghost use Rattle.tal_rom.specs.Assembly.{layout, rom_of};
ghost use Rattle.tal_rom.specs.References.{reference_fault};
ghost use Rattle.tal_rom.specs.Rom.{trimmed};
ghost use Rattle.tal_rom.specs.Passing.{IsRom};
ghost use Rattle.tal_rom.specs.Filling.{is_definition};
ghost use Rattle.tal_rom.specs.Patchers.{PatchModel, PatchHolds, WasGiven, WerePatched, model_of};
ghost use Rattle.tal_rom.specs.Patching.{waiting_count, all_fit, image_of};

use crate::hole::Hole;
use crate::patch::Patch;
use crate::references::name_after_rune;
use crate::rom::without_last_zeros;
use std::alloc::{AllocError, Global};
use tal_labels::{PlacedWord, Scope, full_name};
use tal_words::{Form, closes, opens};
use uxn_limits::addresses;

/// Puts the bytes of words into an image of the ROM as the words are added, and fills those of each reference as its
/// target is defined.
#[derive(Drop)]
pub struct Patcher {
    alloc: Global,
    scope: Scope,
    patch: Patch,
}

/// The full name that a label's word defines in a scope.
fn name_defined(alloc: Global, form: Form, scope: &[u8], text: &[u8]) -> Result<Vec<u8>, AllocError>
    requires { is_definition form ≡ true }
    ensures { IfOk result (λ name. Some name.items ≡ defined_name (Ok form) scope.now text.now) }
{
    match form {
        Form::SubDef => full_name(alloc, scope, text),
        _ => {
            let (_, name) = text.split_at(text.len().min(1));
            Vec::from_slice(alloc, name)
        }
    }
}

impl Patcher {
    /// A patcher to which no word was added.
    pub fn new(alloc: Global) -> Result<Patcher, AllocError>
        ensures { IfOk result (λ patcher. (source : List ℕ) → WerePatched source [] patcher) }
    {
        Ok(Patcher {
            alloc,
            scope: Scope::first(),
            patch: Patch::new(alloc)?,
        })
    }

    /// Adds the word that a placer gave next. Its bytes are put into the image, unless it is a reference whose target
    /// is not defined yet; and where it defines a label or closes a lambda, the references that waited for this are
    /// filled. Where memory runs out the word is not added.
    pub fn add(&mut self, source: &[u8], word: &PlacedWord) -> Result<(), AllocError>
        requires source { length source.now < 2 ^ 32 }
        requires given { WasGiven source.now word.now }
        ensures added { OnOk result ((words : List ExpandedWord) → length words < 2 ^ 31 - 1 → WerePatched source.now words self.old
            → word_added source.now words word.now.word ≡ Some word.now → WerePatched source.now (words ++ word.now.word ∷ []) self.new) }
        ensures err { OnErr result ((words : List ExpandedWord) → WerePatched source.now words self.old
            → WerePatched source.now words self.new) }
    {
        let text = word.word.text.text(source);
        self.take(source, word, text)?;
        self.scope = self.scope.after(source, word.form, word.word.text);
        Ok(())
    }

    /// Adds a word of this text; the scope stays.
    fn take(&mut self, source: &[u8], word: &PlacedWord, text: &[u8]) -> Result<(), AllocError>
        requires given { WasGiven source.now word.now }
        requires read { text.now ≡ expanded_text source.now word.now.word }
        ensures scope { self.new.scope ≡ self.old.scope }
        ensures added { OnOk result ((words : List ExpandedWord) → length words < 2 ^ 31 - 1 → WerePatched source.now words self.old
            → word_added source.now words word.now.word ≡ Some word.now
            → PatchHolds (model_of source.now (words ++ word.now.word ∷ [])) self.new.patch) }
        ensures err { OnErr result ((model : PatchModel) → PatchHolds model self.old.patch → PatchHolds model self.new.patch) }
    {
        match word.form {
            Form::Refer(rune) => {
                let hole = Hole {
                    rune,
                    address: word.address as u16,
                };
                if opens(text) {
                    return self.patch.open(hole);
                }
                let name = full_name(self.alloc, self.scope.text(source), name_after_rune(text))?;
                self.patch.refer(self.alloc, name, hole)
            }
            Form::LabelDef | Form::SubDef => {
                let name = name_defined(self.alloc, word.form, self.scope.text(source), text)?;
                self.patch.define(self.alloc, name, word.address as u16)
            }
            form => {
                self.patch.put_word(form, text, word.address);
                if closes(text) {
                    self.patch.close(word.address as u16);
                }
                Ok(())
            }
        }
    }

    /// How many of the words added so far wait for their target.
    #[tactic(auto, unfolding(crate::specs::Patching::waiting_count, crate::specs::Patching::added_of))]
    pub fn waiting(&self) -> u32
        ensures { (source : List ℕ) (words : List ExpandedWord) → WerePatched source words self.now → result ≡ waiting_count source words }
    {
        self.patch.waiting
    }

    /// Whether each word added so far that does not wait fits.
    #[tactic(auto, unfolding(crate::specs::Patching::all_fit, crate::specs::Patching::added_of))]
    pub fn fits(&self) -> bool
        ensures { (source : List ℕ) (words : List ExpandedWord) → WerePatched source words self.now → result ≡ all_fit source words }
    {
        self.patch.fits
    }

    /// The 65,280 bytes from the address 0100 on: those of the words added so far that do not wait and that fit, and
    /// zeros elsewhere.
    pub fn image(&self) -> &[u8]
        ensures { (source : List ℕ) (words : List ExpandedWord) → WerePatched source words self.now → result.now ≡ image_of source words }
    {
        let memory = self.patch.memory();
        let (_, image) = memory.split_at(memory.len().min(addresses::FIRST_ADDRESS as usize));
        image
    }

    /// The bytes of the image without the zeros at their end; none where a word waits or does not fit.
    pub(crate) fn rom(&self) -> Result<Option<Vec<u8>>, AllocError>
        ensures { IfOk result (λ found. (source : List ℕ) (words : List ExpandedWord) → WerePatched source words self.now
            → MatchOption found (waiting_count source words ≡ 0 → all_fit source words ≡ true → ⊥) (λ rom. IsRom source words rom.items)) }
    {
        if self.waiting() > 0 || !self.fits() {
            return Ok(None);
        }
        let rom = Vec::from_slice(self.alloc, without_last_zeros(self.image()))?;
        Ok(Some(rom))
    }
}

/// Of a source whose words were all added to a patcher: the references have no fault exactly where no word waits and
/// all fit. Then the image without the zeros at its end is the ROM.
pub fn patched_sources_are_assembled()
    ensures waits { (source : List ℕ) → reference_fault source (layout source).labels (layout source).words ≡ None
        → (waiting_count source (expanded_of source) ≡ 0) × (all_fit source (expanded_of source) ≡ true) }
    ensures faultless { (source : List ℕ) → waiting_count source (expanded_of source) ≡ 0 → all_fit source (expanded_of source) ≡ true
        → reference_fault source (layout source).labels (layout source).words ≡ None }
    ensures rom { (source : List ℕ) → reference_fault source (layout source).labels (layout source).words ≡ None
        → trimmed (image_of source (expanded_of source)) ≡ rom_of source }
{}
