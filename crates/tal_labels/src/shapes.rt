//! What is wrong with words by themselves and with their braces.

ghost use Rattle.std.specs.Prelude.{◌≡◌, ◌==◌, not, true, List, ℕ, Ok, ◌+◌, ◌<◌, ◌≤◌, ◌^◌};
ghost use Rattle.tal_words.specs.Source.{expanded_text};
ghost use Rattle.tal_labels.specs.Shapes.{closers_of, shape_fault, open_after, open_count, closes_one_of, validated_shape};
ghost use Rattle.tal_labels.specs.Placing.{validated_place};
ghost use Rattle.tal_words.specs.FirstFault.{are_in_order};
ghost use Rattle.tal_labels.specs.Answers.{IsShape, FindsNone};
ghost use Rattle.tal_words.specs.declared.span.Expanded.{Expanded as ExpandedWord};
ghost use Rattle.tal_words.specs.Braces.{closes as closes_brace};

use crate::closing::closers_of;
use std::alloc::Global;
use tal_words::{AsmStop, Expanded, Fault, FaultKind, Form, closes, form_of, opens};

/// Finds the first fault of the shapes of words.
pub fn check_shapes(alloc: Global, source: &[u8], words: &[Expanded]) -> Result<(), AsmStop>
    ensures { FindsNone result (shape_fault source.now words.now) }
{
    let closers = closers_of(alloc, source, words)?;
    let mut depth = 0usize;
    for (k, word) in words.iter().enumerate() {
        let text = word.text.text(source);
        if let Err(kind) = shape_of(text, depth, closers[k].is_some()) {
            return Err(AsmStop::Refused(Fault::new(&word.origin, kind)));
        }
        depth = open_after(depth, text);
    }
    Ok(())
}

/// How many lambdas are open after a word.
fn open_after(depth: usize, text: &[u8]) -> usize
    requires { depth < 2 ^ 63 }
    ensures value { result ≡ open_after depth text.now }
    ensures small { result ≤ depth + 1 }
{
    if opens(text) {
        depth + 1
    } else if closes(text) {
        depth.saturating_sub(1)
    } else {
        depth
    }
}

/// The form of a word, or what is wrong with its shape, where so many lambdas are open before it, by
/// whether its own is closed.
pub fn shape_of(text: &[u8], depth: usize, is_closed: bool) -> Result<Form, FaultKind>
    ensures { IsShape text.now depth is_closed result }
{
    let form = form_of(text)?;
    if closes(text) && depth == 0 {
        return Err(FaultKind::StrayBrace);
    }
    if opens(text) && !is_closed {
        return Err(FaultKind::OpenBrace);
    }
    Ok(form)
}

/// A `}` finds no lambda open exactly where no opener before it has it as its matching brace.
pub fn strays_match_no_opener()
    ensures { (source : List ℕ) (before : List ExpandedWord) (word : ExpandedWord) → closes_brace (expanded_text source word) ≡ true
        → (open_count source before == 0) ≡ not (closes_one_of source before word) }
{}

/// What is wrong with a word's shape, or with its place, stands in the order of its kinds, so that the first is the least.
#[tactic(auto, using(crate::proofs::OrderLemmas::shape_in_order, crate::proofs::OrderLemmas::place_in_order))]
pub fn faults_of_places_are_in_order()
    ensures shapes { (source : List ℕ) (before after : List ExpandedWord) (word : ExpandedWord)
        → are_in_order (validated_shape source before word after).kinds ≡ true }
    ensures places { (source : List ℕ) (before after : List ExpandedWord) (word : ExpandedWord)
        → are_in_order (validated_place source before word after).kinds ≡ true }
{}
