//! What flat texts are as sources.

ghost use Rattle.std.specs.Prelude.{◌≡◌, ℕ, List, IfOk};
ghost use Rattle.uxn_io_traits.specs.Files.{Nodes};
ghost use Rattle.uxn_io_traits.specs.Along.{AgreeAlong, Always};
ghost use Rattle.uxn_io_traits.specs.Inquiry.{answer_in};
ghost use Rattle.tal_include.specs.Splice.{splice_inquiry};
ghost use Rattle.tal_include.specs.FlatWords.{HasItsWords};

/// The words of a flat text are the spliced words: they begin where these do, so each has an origin, and
/// none has a fault of words. The flat text of a source with includes is no longer than a source may be.
pub fn flat_texts_have_the_spliced_words()
    ensures { (main source : List ℕ) → Always (λ answer. IfOk answer (HasItsWords source)) (splice_inquiry main source) }
{}

/// What splicing results in depends only on the files that the walk asks for: over two trees that reply the same to each
/// question of it, it is the same.
pub fn splicing_looks_at_included_files_alone()
    ensures { (nodes other : Nodes) (main source : List ℕ) → AgreeAlong nodes other (splice_inquiry main source)
        → answer_in nodes (splice_inquiry main source) ≡ answer_in other (splice_inquiry main source) }
{}
