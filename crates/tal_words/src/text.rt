//! Tests of the bytes of a word.

ghost use Rattle.std.specs.Prelude.{◌≡◌, ◌+◌, ◌≤◌, length};
ghost use Rattle.tal_words.specs.Source.{begins, is_only, is_blank, run_length};

/// Whether a byte parts tokens.
pub fn is_blank(byte: u8) -> bool
    ensures { result ≡ is_blank byte }
{
    byte <= b' '
}

/// Whether the text begins with a byte.
pub fn begins(text: &[u8], byte: u8) -> bool
    ensures { result ≡ begins byte text.now }
{
    match text {
        [first, ..] => *first == byte,
        [] => false,
    }
}

/// Whether the text is one byte alone.
pub fn is_only(text: &[u8], byte: u8) -> bool
    ensures { result ≡ is_only byte text.now }
{
    match text {
        [first] => *first == byte,
        _ => false,
    }
}

/// The offset of the next blank from an offset on, or of the end.
pub fn run_end(source: &[u8], from: usize) -> usize
    requires { from ≤ length source.now }
    ensures end { result ≡ from + run_length source.now from }
    ensures within { result ≤ length source.now }
{
    for at in from..source.len() {
        if is_blank(source[at]) {
            return at;
        }
    }
    source.len()
}
