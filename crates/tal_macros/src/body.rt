//! Bodies of macros, and the map from names to bodies.

ghost use Rattle.std.specs.Prelude.{◌≡◌, ◌+◌, ◌<◌, List, [], ◌∷◌, MatchOption, IfSome, length};
ghost use Rattle.std.specs.Option.{option_map};
ghost use Rattle.tal_words.specs.declared.span.Word.{Word as SourceWord};
ghost use Rattle.tal_macros.specs.Expansion.{body_named};
ghost use Rattle.tal_macros.specs.Bodies.{body_words, known_macros};

use indexmap::IndexMap;
use tal_words::Word;

/// Words of a body, by their indices: from `from` up to the one before `to`.
#[derive(Clone, Copy, Default)]
pub struct Body {
    pub from: usize,
    pub to: usize,
}

/// The macros by name, in order of definition.
pub type Macros = IndexMap<Vec<u8>, Body>;

impl Body {
    /// The first of the words.
    pub fn first(self, words: &[Word]) -> Option<Word>
        ensures word { MatchOption result (body_words words.now self ≡ [])
            (λ word. body_words words.now self ≡ word ∷ body_words words.now (record { from = self.from + 1; to = self.to })) }
        ensures within { IfSome result (λ _. self.from < length words.now) }
    {
        let to = self.to.min(words.len());
        if self.from < to {
            Some(words[self.from])
        } else {
            None
        }
    }
}

/// The body of the macro of a name.
pub fn body_named(macros: &Macros, name: &[u8]) -> Option<Body>
    ensures { (words : List SourceWord)
        → option_map (body_words words) result ≡ body_named (known_macros words macros.now.entries) name.now }
{
    macros.get(name).copied()
}
