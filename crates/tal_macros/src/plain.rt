//! Sources of plain words, and words without blanks.

ghost use Rattle.std.specs.Prelude.{◌≡◌, ◌≤◌, ℕ, List, None, length, map};
ghost use Rattle.std.specs.List.{AllByRecursion};
ghost use Rattle.tal_words.specs.Source.{word_text, expanded_text};
ghost use Rattle.tal_words.specs.Comments.{words_of};
ghost use Rattle.tal_words.specs.PlainTexts.{IsBlankFree, IsPlainWord};
ghost use Rattle.uxn_limits.specs.declared.limits.TheConstants.{VISIT_LIMIT};
ghost use Rattle.tal_macros.specs.Expansion.{expanded_of, expansion_fault};

/// Plain words expand to themselves, and have no fault where they are at most `VISIT_LIMIT`.
#[tactic(auto, using(crate::proofs::PlainLemmas::expanded_texts, crate::proofs::PlainLemmas::no_expansion_fault))]
pub fn plain_words_expand_to_themselves()
    ensures words { (source : List ℕ) (texts : List (List ℕ)) → map (word_text source) (words_of source) ≡ texts
        → AllByRecursion IsPlainWord texts → map (expanded_text source) (expanded_of source) ≡ texts }
    ensures faultless { (source : List ℕ) (texts : List (List ℕ)) → map (word_text source) (words_of source) ≡ texts
        → AllByRecursion IsPlainWord texts → length texts ≤ VISIT_LIMIT → expansion_fault source ≡ None }
{}

/// No word of an expanded list has a blank in it.
#[tactic(auto, using(crate::proofs::BlankLemmas::expanded_free))]
pub fn expanded_words_have_no_blanks()
    ensures { (source : List ℕ) → AllByRecursion (λ word. IsBlankFree (expanded_text source word)) (expanded_of source) }
{}
