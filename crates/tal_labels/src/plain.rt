//! Where plain words stand.

ghost use Rattle.std.specs.Prelude.{◌≡◌, ◌≤◌, ◌∷◌, ℕ, List, None, length, map};
ghost use Rattle.std.specs.List.{AllByRecursion};
ghost use Rattle.uxn_limits.specs.declared.limits.TheConstants.{BANK_ROM_LIMIT};
ghost use Rattle.tal_words.specs.declared.span.Expanded.{Expanded};
ghost use Rattle.tal_words.specs.Source.{expanded_text};
ghost use Rattle.tal_labels.specs.Places.{addresses_of};
ghost use Rattle.tal_labels.specs.Placing.{place_fault};
ghost use Rattle.tal_labels.specs.PlainWords.{Coded, RepresentsWord, addresses_from, bytes_of_coded, pad_text, texts_of_coded};

/// Behind the word `|0100` plain words that are opcodes, bytes and shorts stand one behind the other, without a
/// fault where they have at most 65,280 bytes.
pub fn plain_words_stand_one_behind_the_other()
    ensures addresses { (source : List ℕ) (words : List Expanded) (coded : List Coded)
        → map (expanded_text source) words ≡ pad_text ∷ texts_of_coded coded → AllByRecursion RepresentsWord coded
        → addresses_of source words ≡ 256 ∷ addresses_from 0 coded }
    ensures faultless { (source : List ℕ) (words : List Expanded) (coded : List Coded)
        → map (expanded_text source) words ≡ pad_text ∷ texts_of_coded coded → AllByRecursion RepresentsWord coded
        → length (bytes_of_coded coded) ≤ BANK_ROM_LIMIT → place_fault source words ≡ None }
{}
