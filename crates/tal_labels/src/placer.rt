//! Words that are placed one by one.

ghost use Rattle.std.specs.Prelude.{◌≡◌, ◌<◌, ◌^◌, ◌++◌, ◌∷◌, [], ℕ, List, None, Some, Ok, length, nat_lt, is_some, true, false, slice_get};
ghost use Rattle.std.specs.Prelude.{IfOk, IfSome, OnOk, OnErr, OnSome};
ghost use Rattle.std.specs.Prelude.{◌+◌, ◌-◌, ◌≤◌, ◌&&◌, ◌==◌, not, if◌then◌else◌};
ghost use Rattle.std.specs.Option.{option_map};
ghost use Rattle.std.specs.Vec.{vec_len, vec_capacity};
ghost use Rattle.uxn_limits.specs.declared.addresses.TheConstants.{MEMORY_END};
ghost use Rattle.tal_words.specs.Braces.{opens as opens_brace, closes as closes_brace};
ghost use Rattle.tal_words.specs.Forms.{size as size_of, form as form_of_text};
ghost use Rattle.tal_words.specs.Source.{expanded_text};
ghost use Rattle.tal_words.specs.declared.span.Expanded.{Expanded as ExpandedWord};
ghost use Rattle.tal_labels.specs.Answers.{label_of, next_address as address_behind, next_scope as scope_behind};
ghost use Rattle.tal_labels.specs.Placing.{is_defined as is_among, place_kinds, is_mark_form as is_mark, place_fault, layout_of, placed_of};
ghost use Rattle.tal_words.specs.declared.form.Form.{Form as FormValue};
ghost use Rattle.tal_labels.specs.Places.{address_after};
ghost use Rattle.tal_labels.specs.Adding.{word_added, added_fault, open_ones, open_word};
ghost use Rattle.tal_labels.specs.Scopes.{scope_text};
ghost use Rattle.tal_labels.specs.Placers.{PlacerIsMaintained, WereAdded, PlacesNext, IsStep, kept_by, closed_labels, closed_opener, openers_step};

use crate::label_index::LabelIndex;
use crate::labels::{define, defined_name, is_defined};
use crate::placed::{Placed, PlacedWord};
use crate::placing::{is_mark_form, next_address, next_top, placing_kind, size};
use crate::scope::Scope;
use crate::shapes::shape_of;
use std::alloc::{AllocError, Global};
use tal_words::{AsmStop, Expanded, Fault, FaultKind, Form, closes, opens};
use uxn_limits::addresses;

/// Places words one by one: where each lies is known as it is added.
#[derive(Drop)]
pub struct Placer {
    alloc: Global,
    words: Vec<PlacedWord>,
    labels: LabelIndex,
    openers: Vec<usize>,
    scope: Scope,
    address: u64,
    top: u64,
    is_faulty: bool,
}

impl Placer {
    /// A placer to which no word was added.
    pub fn new(alloc: Global) -> Placer
        ensures { (source : List ℕ) → WereAdded source [] result }
    {
        Placer {
            alloc,
            words: Vec::new(alloc),
            labels: LabelIndex::new(alloc),
            openers: Vec::new(alloc),
            scope: Scope::first(),
            address: addresses::FIRST_ADDRESS,
            top: 0,
            is_faulty: false,
        }
    }

    /// Adds the next word of a source, and gives it with its place; the end of a lambda is not known. It gives
    /// None where one of the words added so far is faulty, by its shape (but for lambdas that are open), its label or its
    /// address. The source has fewer than 2^32 bytes, and fewer than 2^31 - 1 words are added. Where memory runs
    /// out the word is not added.
    pub fn add(&mut self, source: &[u8], word: Expanded) -> Result<Option<PlacedWord>, AllocError>
        requires source { length source.now < 2 ^ 32 }
        ensures value { IfOk result (λ placed. (words : List ExpandedWord) → length words < 2 ^ 31 - 1
            → WereAdded source.now words self.old → placed ≡ word_added source.now words word) }
        ensures added { OnOk result ((words : List ExpandedWord) → length words < 2 ^ 31 - 1
            → WereAdded source.now words self.old → WereAdded source.now (words ++ word ∷ []) self.new) }
        ensures err { OnErr result ((words : List ExpandedWord)
            → WereAdded source.now words self.old → WereAdded source.now words self.new) }
    {
        if self.is_faulty {
            return Ok(None);
        }
        match self.place_next(source, word) {
            Ok(placed) => Ok(Some(placed)),
            Err(AsmStop::Refused(_)) => {
                self.is_faulty = true;
                Ok(None)
            }
            Err(AsmStop::NoMemory) => Err(AllocError),
        }
    }

    /// The words that were added with their places, and their labels. It gives None where one of them is faulty, by its
    /// shape, its label or its address.
    pub fn finish(self) -> Option<Placed>
        ensures { (source : List ℕ) (words : List ExpandedWord) → WereAdded source words self
            → result ≡ (if is_some (place_fault source words) then None else Some (layout_of source words)) }
    {
        if !self.is_whole() {
            return None;
        }
        Some(Placed::new(self.words, self.labels))
    }

    /// Whether no word is faulty and no lambda open.
    fn is_whole(&self) -> bool
        ensures { result ≡ (not self.now.is_faulty && length self.now.openers.items == 0) }
    {
        !self.is_faulty && self.openers.is_empty()
    }

    /// Places the next word, or says what is wrong with it. Where it is not placed all stays as it was.
    pub(crate) fn place_next(
        &mut self,
        source: &[u8],
        word: Expanded,
    ) -> Result<PlacedWord, AsmStop>
        requires source { length source.now < 2 ^ 32 }
        ensures flag { self.new.is_faulty ≡ self.old.is_faulty }
        ensures value { (words : List ExpandedWord) → length words < 2 ^ 31 - 1
            → PlacerIsMaintained source.now words (kept_by self.old) → PlacesNext source.now words word result (kept_by self.new) }
        ensures err { OnErr result (kept_by self.new ≡ kept_by self.old) }
    {
        let text = word.text.text(source);
        let form = match shape_of(text, self.openers.len(), true) {
            Ok(form) => form,
            Err(kind) => return Err(AsmStop::Refused(Fault::new(&word.origin, kind))),
        };
        let name = defined_name(self.alloc, form, self.scope.text(source), text)?;
        if let Some(kind) = kind_at(self, form, text, &name) {
            return Err(AsmStop::Refused(Fault::new(&word.origin, kind)));
        }
        let placed = PlacedWord {
            word,
            form,
            address: self.address,
            size: size(form, text) as u16,
            lambda: None,
        };
        self.keep(source, placed, text, name)?;
        Ok(placed)
    }

    /// Keeps a word without a fault, of this text, which defines this name.
    fn keep(
        &mut self,
        source: &[u8],
        placed: PlacedWord,
        text: &[u8],
        name: Option<Vec<u8>>,
    ) -> Result<(), AllocError>
        requires here { placed.address ≡ self.old.address }
        requires size { placed.size ≡ size_of placed.form text.now }
        requires read { text.now ≡ expanded_text source.now placed.word }
        requires shape { form_of_text (expanded_text source.now placed.word) ≡ Ok placed.form }
        requires new { is_among self.old.labels (option_map (λ bytes. bytes.items) name) ≡ false }
        requires named { OnSome name (placed.address < 2 ^ 16) }
        requires closing { closes_brace text.now ≡ true → placed.address < 2 ^ 16 }
        requires within { 0 < placed.size → placed.address + placed.size ≤ MEMORY_END }
        ensures flag { self.new.is_faulty ≡ self.old.is_faulty }
        ensures err { OnErr result (kept_by self.new ≡ kept_by self.old) }
        ensures ok { OnOk result (IsStep source.now placed.form text.now (option_map (λ bytes. bytes.items) name) placed
            (kept_by self.old) (kept_by self.new)) }
    {
        let at = self.words.len();
        self.words.reserve(1)?;
        self.openers.reserve(1)?;
        define(&mut self.labels, self.alloc, name, placed.address)?;
        self.words.push_reserved(placed);
        let opener = match_brace(&mut self.openers, text, at);
        close(&mut self.words, opener, placed.address);
        self.scope = self.scope.after(source, placed.form, placed.word.text);
        self.address = next_address(placed.form, text, placed.address);
        self.top = next_top(self.top, placed.address, placed.size as usize);
        Ok(())
    }
}

/// What is wrong with the address of a word of this form and text that comes next and defines this name.
fn kind_at(placer: &Placer, form: Form, text: &[u8], name: &Option<Vec<u8>>) -> Option<FaultKind>
    ensures { result ≡ slice_get (place_kinds (is_among placer.now.labels (option_map (λ bytes. bytes.items) name.now))
        placer.now.address (size_of form text.now) (is_mark form) (nat_lt placer.now.address placer.now.top)) 0 }
{
    placing_kind(
        is_defined(&placer.labels, name),
        placer.address,
        size(form, text),
        is_mark_form(form),
        placer.address < placer.top,
    )
}

/// Takes the word at an index as an opener, or gives the index of the opener that it closes, by its text.
fn match_brace(openers: &mut Vec<usize>, text: &[u8], at: usize) -> Option<usize>
    requires room { vec_len openers.old < vec_capacity openers.old }
    ensures value { result ≡ closed_opener (opens_brace text.now) (closes_brace text.now) openers.old.items }
    ensures rest { openers.new.items ≡ openers_step (opens_brace text.now) (closes_brace text.now) at openers.old.items }
{
    if opens(text) {
        openers.push_reserved(at);
        return None;
    }
    if closes(text) {
        return openers.pop();
    }
    None
}

/// Tells the word at an index the address of the end of its lambda.
fn close(words: &mut Vec<PlacedWord>, opener: Option<usize>, address: u64)
    requires { IfSome opener (λ _. address < 2 ^ 16) }
    ensures { words.new.items ≡ closed_labels opener address words.old.items }
{
    if let Some(at) = opener {
        if at < words.len() {
            let mut word = words[at];
            word.lambda = Some(address as u16);
            words[at] = word;
        }
    }
}

/// The places of words with one word more: the word's own stands behind theirs, and where it ends a lambda, the last
/// lambda that is open has its end at the word's address.
pub fn one_word_more_is_placed_behind()
    ensures { (source : List ℕ) (words : List ExpandedWord) (word : ExpandedWord) (form : FormValue)
        → added_fault source words ≡ None → form_of_text (expanded_text source word) ≡ Ok form
        → placed_of source (words ++ word ∷ [])
        ≡ closed_labels (closed_opener (opens_brace (expanded_text source word)) (closes_brace (expanded_text source word)) (open_ones source words))
        (address_after source words) (placed_of source words ++ open_word source words word form ∷ []) }
{}
