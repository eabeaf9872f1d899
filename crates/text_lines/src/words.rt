//! How a text is cut into lines, and a line into words.

ghost use Rattle.std.specs.Prelude.{◌≡◌, ◌≢◌, ◌∷◌, ◌<◌, ◌≤◌, ◌+◌, [], true, false, length, slice_index, take, IfSome, MatchOption};
ghost use Rattle.std.specs.List.{All};
ghost use Rattle.text_lines.specs.Lines.{is_blank, is_newline, lines_from, words_of};

// Tabs, carriage returns and spaces part words.
fn is_blank(byte: u8) -> bool
    ensures { result ≡ is_blank byte }
{
    byte == b'\t' || byte == b'\r' || byte == b' '
}

// How many bytes at the start are blank, or are not blank.
fn prefix(line: &[u8], blank: bool) -> usize
    ensures within { result ≤ length line.now }
    ensures each { All (λ byte. is_blank byte ≡ blank) (take result line.now) }
    ensures last { result < length line.now → is_blank (slice_index line.now result) ≢ blank }
{
    for (at, byte) in line.iter().enumerate() {
        if is_blank(*byte) != blank {
            return at;
        }
    }
    line.len()
}

// How long the first line of a text is.
fn line_len(text: &[u8]) -> usize
    ensures within { result ≤ length text.now }
    ensures each { All (λ byte. is_newline byte ≡ false) (take result text.now) }
    ensures last { result < length text.now → is_newline (slice_index text.now result) ≡ true }
{
    for (at, byte) in text.iter().enumerate() {
        if *byte == b'\n' {
            return at;
        }
    }
    text.len()
}

// The line that begins at a place of a text; the next one begins behind the newline that ends it.
pub(crate) fn line_at(text: &[u8], start: usize) -> &[u8]
    requires { start ≤ length text.now }
    ensures lines { lines_from text.now start ≡ result.now ∷ lines_from text.now (start + (length result.now + 1)) }
    ensures within { start + length result.now ≤ length text.now }
{
    let left = &text[start..];
    &left[..line_len(left)]
}

/// The first word of a line, if it has one, and what stands behind it.
pub fn first_word(line: &[u8]) -> Option<(&[u8], &[u8])>
    ensures words { MatchOption result (words_of line.now ≡ [])
        (λ cut. words_of line.now ≡ cut.0.now ∷ words_of cut.1.now) }
    ensures some { IfSome result (λ cut. 0 < length cut.0.now) }
    ensures shorter { IfSome result
        (λ cut. length cut.0.now + length cut.1.now ≤ length line.now) }
{
    let line = &line[prefix(line, true)..];
    if line.is_empty() {
        return None;
    }
    Some(line.split_at(prefix(line, false)))
}
