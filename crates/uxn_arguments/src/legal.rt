//! Which words may stand on a line.
ghost use Rattle.std.specs.Prelude.{◌≡◌, ◌+◌, ◌==◌, position, Some, true, map, string_bytes};
ghost use Rattle.std.specs.Option.{option_map, option_map_or};
ghost use Rattle.std.specs.List.{list_all};
ghost use Rattle.uxn_arguments.specs.Choices.{begins_without, is_plain, is_legal, option_text, value_behind};

/// Whether a text is not empty and does not begin with this byte.
fn begins_without(byte: u8, text: &[u8]) -> bool
    ensures { result ≡ begins_without byte text.now }
{
    match text {
        [] => false,
        [first, ..] => *first != byte,
    }
}

/// Whether a word is an operand or a value: it is not empty and does not begin with `-`.
fn is_plain(word: &[u8]) -> bool
    ensures { result ≡ is_plain word.now }
{
    begins_without(b'-', word)
}

/// The text behind `--`, where there is some.
fn option_text(word: &[u8]) -> Option<&[u8]>
    ensures { option_map (λ text. text.now) result ≡ option_text word.now }
{
    match word {
        [b'-', b'-', _, ..] => Some(&word[2..]),
        _ => None,
    }
}

/// Whether the text behind `--` has no value behind a `=`, or one that is plain.
fn has_plain_value(text: &[u8]) -> bool
    ensures { result ≡ option_map_or is_plain (value_behind text.now) true }
{
    match text.iter().position(|byte| *byte == b'=') {
        Some(at) => is_plain(&text[at + 1..]),
        None => true,
    }
}

/// Whether a word may stand on a line. `clap` takes some that may not: the empty word, `--`, `-`, and
/// an option's value that is empty or begins with `-`.
fn is_legal(word: &[u8]) -> bool
    ensures { result ≡ is_legal word.now }
{
    if is_plain(word) {
        return true;
    }
    match option_text(word) {
        Some(text) => begins_without(b'=', text) && has_plain_value(text),
        None => false,
    }
}

/// Whether all the words are legal.
pub(crate) fn are_legal(words: &[String]) -> bool
    ensures { result ≡ list_all is_legal (map string_bytes words.now) }
{
    words.iter().all(|word| is_legal(word.as_bytes()))
}
