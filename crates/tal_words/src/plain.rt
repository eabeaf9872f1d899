//! Plain words: texts that are made of them, and words that are plain.

ghost use Rattle.std.specs.Prelude.{◌≡◌, ◌<◌, ◌≤◌, ℕ, List, None, Ok, length, map};
ghost use Rattle.std.specs.List.{AllByRecursion};
ghost use Rattle.tal_words.specs.declared.form.Form.TheVariants.{Op};
ghost use Rattle.tal_words.specs.Source.{word_text};
ghost use Rattle.uxn_limits.specs.declared.limits.TheConstants.{TEXT_LIMIT};
ghost use Rattle.tal_words.specs.Comments.{words_of, word_fault};
ghost use Rattle.tal_words.specs.Forms.{form};
ghost use Rattle.tal_words.specs.Opcodes.{name_of_op};
ghost use Rattle.tal_words.specs.PlainTexts.{Item, AreItems, IsBlankFree, IsPlainWord, text_of_items, words_of_items};

/// The words of a text that is made of plain words and of comments are these plain words, and none of them
/// has a fault where the text is no longer than a source may be.
pub fn plain_words_are_the_words()
    ensures words { (items : List Item) → AreItems items
        → map (word_text (text_of_items items)) (words_of (text_of_items items)) ≡ words_of_items items }
    ensures faultless { (items : List Item) → AreItems items → length (text_of_items items) ≤ TEXT_LIMIT
        → word_fault (text_of_items items) ≡ None }
{}

/// No word of a source has a blank in it.
pub fn words_have_no_blanks()
    ensures { (source : List ℕ) → AllByRecursion (λ word. IsBlankFree (word_text source word)) (words_of source) }
{}

/// The name of each byte is a plain word, and its form is this opcode.
pub fn names_are_plain()
    ensures plain { (byte : ℕ) → byte < 256 → IsPlainWord (name_of_op byte) }
    ensures opcode { (byte : ℕ) → byte < 256 → form (name_of_op byte) ≡ Ok (Op byte) }
{}
