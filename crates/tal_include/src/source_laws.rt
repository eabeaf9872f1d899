//! What a source results in.

ghost use Rattle.std.specs.Prelude.{◌≡◌, ℕ, List, IfOk, true};
ghost use Rattle.uxn_io_traits.specs.Files.{Nodes};
ghost use Rattle.uxn_io_traits.specs.Along.{AgreeAlong, Always};
ghost use Rattle.uxn_io_traits.specs.Inquiry.{answer_in};
ghost use Rattle.tal_include.specs.Splice.{is_spliced, splice_inquiry};
ghost use Rattle.tal_include.specs.Sources.{HasOrigin, source_inquiry};

/// What a source results in depends only on the files that are asked for: over two trees that reply the same to each question,
/// it is the same. So a refused source depends only on its own text and the files that are read before its fault.
pub fn a_source_looks_at_its_files_alone()
    ensures { (nodes other : Nodes) (main source : List ℕ) → AgreeAlong nodes other (source_inquiry main source)
        → answer_in nodes (source_inquiry main source) ≡ answer_in other (source_inquiry main source) }
{}

/// The first fault of a flat text is at one of its words, which has an origin.
pub fn faults_of_flat_texts_have_an_origin()
    ensures { (main source : List ℕ) → is_spliced source ≡ true → Always (λ answer. IfOk answer HasOrigin) (splice_inquiry main source) }
{}
