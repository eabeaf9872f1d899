//! Where names are kept.

ghost use Rattle.std.specs.Prelude.{◌≡◌, ◌<◌, ◌≤◌, ◌++◌, ◌∷◌, [], ℕ, List, length, IfOk, is_ok, if◌then◌else◌};
ghost use Rattle.std.specs.Str.{bytes_eq};
ghost use Rattle.tal_words.specs.Source.{bytes_at};

use std::alloc::AllocError;
use tal_words::Span;

/// Where a name is kept: a part that it shares with others, and the rest.
#[derive(Clone, Copy)]
pub struct Kept {
    pub shared: Span,
    pub rest: Span,
}
