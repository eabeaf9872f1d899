//! The expanded list of a source, word by word and as a whole.

ghost use Rattle.std.specs.Prelude.{◌≡◌, ◌≤◌, ◌∷◌, ◌++◌, ℕ, List, [], None, Some, IfOk, length, map, true};
ghost use Rattle.std.specs.List.{AllByRecursion};
ghost use Rattle.tal_words.specs.FirstFault.{are_in_order};
ghost use Rattle.tal_macros.specs.Expansion.{Part};
ghost use Rattle.tal_words.specs.declared.span.Expanded.{Expanded as ExpandedWord};
ghost use Rattle.tal_words.specs.Order.{collected};
ghost use Rattle.tal_words.specs.Faults.{Gives};
ghost use Rattle.tal_words.specs.Comments.{words_of};
ghost use Rattle.tal_macros.specs.Expansion.{Visited, expanded_of, expansion_fault, validated_part, visit_list, parts_of};
ghost use Rattle.uxn_limits.specs.declared.limits.TheConstants.{VISIT_LIMIT};
ghost use Rattle.tal_macros.specs.Expansion.{without_uses};
ghost use Rattle.tal_macros.specs.Steps.{Progress, steps_given, given, next_word, words_left, visits_before_fault, advanced};
ghost use Rattle.tal_macros.specs.Steps.{NextGives, progress_after};

use crate::pass::{Pass, Turn};
use std::alloc::Global;
use std::marker::Model;
use tal_words::{AsmStop, Expanded, Word};

/// Gives the expanded list of a source word by word.
#[derive(Drop)]
pub struct Expander<'a> {
    alloc: Global,
    source: &'a [u8],
    words: &'a [Word],
    pass: Pass,
    /// How many words were visited at the end of the last call that did not want memory.
    visited: u32,
}

impl<'a> Model for Expander<'a> {
    ghost use Rattle.tal_macros.specs.Steps.{Progress};

    ghost Value = { Progress };

    ghost use Rattle.tal_macros.specs.Passing.{Follows};

    ghost view = { λ e. record { source = e.source.now; visited = e.visited } };

    ghost invariant = { λ e. Follows e.source.now e.words.now e.visited e.pass };
}

impl<'a> Expander<'a> {
    /// An Expander before the first word of a source, which has these words. It takes no memory.
    pub fn new(alloc: Global, source: &'a [u8], words: &'a [Word]) -> Expander<'a>
        requires { words.now ≡ words_of source.now }
        ensures { result ≡ record { source = source.now; visited = 0 } }
    {
        Expander {
            alloc,
            source,
            words,
            pass: Pass::new(alloc),
            visited: 0,
        }
    }

    /// The next word of the expanded list, or None at its end. Refused with the first fault of the heads
    /// and uses where all words before it were given, and again at each later call. Where memory is
    /// wanting the Expander is unchanged.
    pub fn next(&mut self) -> Result<Option<Expanded>, AsmStop>
        ensures answer { NextGives self.old result }
        ensures progress { self.new ≡ progress_after self.old result }
        ensures bound { self.new.visited ≤ VISIT_LIMIT }
    {
        loop {
            match self.pass.turn(self.alloc, self.source, self.words) {
                Ok(Turn::Passed) => {}
                Ok(Turn::Word(word)) => {
                    self.visited = self.pass.count;
                    return Ok(Some(word));
                }
                Ok(Turn::End) => {
                    self.visited = self.pass.count;
                    return Ok(None);
                }
                Err(AsmStop::Refused(fault)) => {
                    self.visited = self.pass.count;
                    return Err(AsmStop::Refused(fault));
                }
                Err(AsmStop::NoMemory) => return Err(AsmStop::NoMemory),
            }
        }
    }

    /// The words of the expanded list behind those given so far.
    fn rest(&mut self) -> Result<Vec<Expanded>, AsmStop>
        requires { self.old.visited ≤ VISIT_LIMIT }
        ensures value { Gives (λ v. given self.old ++ v.items) result
            (expansion_fault self.old.source) (expanded_of self.old.source) }
        ensures few { IfOk result (λ v. length v.items ≤ VISIT_LIMIT) }
    {
        let mut expanded = Vec::new(self.alloc);
        while let Some(word) = self.next()? {
            expanded.push(word)?;
        }
        Ok(expanded)
    }

    /// How many words of the visit list were given, or opened as uses, so far: at most `VISIT_LIMIT`.
    pub fn visited(&self) -> u32
        ensures value { result ≡ self.now.visited }
        ensures bound { result ≤ VISIT_LIMIT }
    {
        self.visited
    }
}

/// What an Expander gives is the expanded list. A word that it gives stands behind those given so far; where
/// it gives none, all words that the visit list has before the first fault were given, and none is given
/// later. These are a prefix of the visit list, and without a fault all of it. Its steps are validated as
/// the words of the source and those visited for them are.
pub fn expanders_give_the_list()
    ensures more { (progress : Progress) (word : ExpandedWord) → next_word (words_left progress) ≡ Some word
        → given (advanced progress) ≡ given progress ++ word ∷ [] }
    ensures end { (progress : Progress) → next_word (words_left progress) ≡ None
        → given progress ≡ without_uses (visits_before_fault progress.source) }
    ensures again { (progress : Progress) → next_word (words_left progress) ≡ None
        → next_word (words_left (advanced progress)) ≡ None }
    ensures prefix { (source : List ℕ) → (behind : List Visited)
        × (visit_list source (parts_of source) ≡ visits_before_fault source ++ behind) }
    ensures whole { (source : List ℕ) → expansion_fault source ≡ None
        → visits_before_fault source ≡ visit_list source (parts_of source) }
    ensures validated { (source : List ℕ) → map (λ step. step.validated) (collected (steps_given source) [] (parts_of source))
        ≡ collected (validated_part source) [] (parts_of source) }
{}

/// The expanded list of a source, which has these words: the words outside the heads of macros, with
/// what its body gives in the place of each use: at most `VISIT_LIMIT`. Refused with the first fault of a
/// head or a use.
pub fn expand(alloc: Global, source: &[u8], words: &[Word]) -> Result<Vec<Expanded>, AsmStop>
    requires { words.now ≡ words_of source.now }
    ensures value { Gives (λ v. v.items) result (expansion_fault source.now) (expanded_of source.now) }
    ensures few { IfOk result (λ v. length v.items ≤ VISIT_LIMIT) }
{
    let mut expander = Expander::new(alloc, source, words);
    expander.rest()
}

/// What is wrong with a word of the visit list or of a head stands in the order of its kinds, so that the first is the least.
#[tactic(auto, using(crate::proofs::OrderLemmas::part_in_order))]
pub fn faults_of_macros_are_in_order()
    ensures { (source : List ℕ) (before after : List Part) (part : Part)
        → AllByRecursion (λ word. are_in_order word.kinds ≡ true) (validated_part source before part after) }
{}
