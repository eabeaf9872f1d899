//! Runes and braces.

ghost use Rattle.std.specs.Prelude.{◌≡◌};
ghost use Rattle.tal_words.specs.Names.{rune_of};
ghost use Rattle.tal_words.specs.Braces.{opens, closes};

use crate::form::Rune;
use crate::text::is_only;

/// The reference that a rune begins.
pub fn rune_of(byte: u8) -> Option<Rune>
    ensures { result ≡ rune_of byte }
{
    match byte {
        b',' => Some(Rune::LitRel),
        b'_' => Some(Rune::RawRel),
        b'.' => Some(Rune::LitZero),
        b'-' => Some(Rune::RawZero),
        b';' => Some(Rune::LitAbs),
        b'=' => Some(Rune::RawAbs),
        b'!' => Some(Rune::Jmi),
        b'?' => Some(Rune::Jci),
        _ => None,
    }
}

/// Whether a word opens a brace: `{`, or the rune of a reference and `{` alone.
pub fn opens(word: &[u8]) -> bool
    ensures { result ≡ opens word.now }
{
    match word {
        [] => false,
        [first, rest @ ..] => {
            is_only(word, b'{') || rune_of(*first).is_some() && is_only(rest, b'{')
        }
    }
}

/// Whether a word closes a brace: `}`.
pub fn closes(word: &[u8]) -> bool
    ensures { result ≡ closes word.now }
{
    is_only(word, b'}')
}
