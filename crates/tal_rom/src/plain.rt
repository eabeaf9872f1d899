//! What texts of plain words assemble to.

ghost use Rattle.std.specs.Prelude.{◌≡◌, ◌≤◌, ◌∷◌, List, length};
ghost use Rattle.std.specs.List.{AllByRecursion};
ghost use Rattle.uxn_limits.specs.declared.limits.TheConstants.{TEXT_LIMIT};
ghost use Rattle.tal_words.specs.PlainTexts.{Item, AreItems, text_of_items, words_of_items};
ghost use Rattle.tal_labels.specs.PlainWords.{Coded, RepresentsWord, bytes_of_coded, pad_text, texts_of_coded};
ghost use Rattle.tal_rom.specs.Rom.{rom_limit};
ghost use Rattle.tal_rom.specs.PlainWords.{AssemblesTo};

/// A text of the word `|0100`, of plain words that are opcodes, bytes and shorts, and of comments assembles to the
/// bytes of these words without the zeros at the end, where it is no longer than a source may be and
/// they are no more than a ROM may have.
#[tactic(auto, using(crate::proofs::PlainLemmas::plain_assembles))]
pub fn plain_words_assemble_to_their_bytes()
    ensures { (items : List Item) (coded : List Coded) → AreItems items
        → words_of_items items ≡ pad_text ∷ texts_of_coded coded → AllByRecursion RepresentsWord coded
        → length (text_of_items items) ≤ TEXT_LIMIT → length (bytes_of_coded coded) ≤ rom_limit
        → AssemblesTo (text_of_items items) (bytes_of_coded coded) }
{}
