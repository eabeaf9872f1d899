//! Tables of the first words of lines.

ghost use Rattle.std.specs.Prelude.{◌≡◌, ◌≤◌, length, option_map, IfOk, IfSome};
ghost use Rattle.text_lines.specs.Lines.{words_of};
ghost use Rattle.text_lines.specs.Reading.{made};
ghost use Rattle.text_lines.specs.Named.{named_in, value_named};
ghost use Rattle.text_lines.specs.Rows.{counted, with_count, keyword_of};

use crate::named::{Named, row_named};
use crate::numbers::begins_with;
use crate::words::first_word;

/// How many values a line takes behind its first word.
#[derive(Clone, Copy)]
pub enum Counts {
    /// So many.
    Exactly(usize),
    /// From the first number to the second.
    Between(usize, usize),
    /// So many or more.
    AtLeast(usize),
}

/// A row of a table of lines: a first word, how many values it takes, and what it represents.
pub type Row<K> = Named<(Counts, K)>;

/// What can be wrong with the words of a line.
#[derive(Clone, Copy)]
pub enum LineFault {
    /// The first word is in no row.
    Unknown,
    /// There are too few values.
    Missing,
    /// There are too many values.
    Extra,
}

/// The keyword of a line, and the words of its values behind it. A line without words or with `#` before its first has none.
#[tactic(auto, unfolding(crate::specs::Rows::keyword_of))]
pub fn keyword_of<'a, K: Copy>(
    rows: &[Row<K>],
    line: &'a [u8],
) -> Result<Option<(K, &'a [u8])>, LineFault>
    ensures keyword { made (option_map (λ said. (said.0, words_of said.1.now))) result
        ≡ keyword_of (named_in rows.now) (words_of line.now) }
    ensures shorter { IfOk result (λ given. IfSome given (λ said. length said.1.now ≤ length line.now)) }
{
    let Some((name, values)) = first_word(line) else {
        return Ok(None);
    };
    if begins_with(b'#', name) {
        return Ok(None);
    }
    let keyword = keyword_line(rows, name, values)?;
    Ok(Some((keyword, values)))
}

// The keyword of a first word whose row takes as many values as there are words.
fn keyword_line<K: Copy>(rows: &[Row<K>], name: &[u8], values: &[u8]) -> Result<K, LineFault>
    ensures { result ≡ counted (value_named (named_in rows.now) name.now) (length (words_of values.now)) }
{
    match row_named(rows, name) {
        Some(row) => with_count(&row.1, count_words(values)),
        None => Err(LineFault::Unknown),
    }
}

// The keyword of a row, where it takes so many values.
fn with_count<K: Copy>(row: &(Counts, K), count: usize) -> Result<K, LineFault>
    ensures { result ≡ with_count row.now count }
{
    let (least, most) = match row.0 {
        Counts::Exactly(count) => (count, count),
        Counts::Between(least, most) => (least, most),
        Counts::AtLeast(least) => (least, usize::MAX),
    };
    if count < least {
        return Err(LineFault::Missing);
    }
    if most < count {
        return Err(LineFault::Extra);
    }
    Ok(row.1)
}

/// How many words a line has.
pub(crate) fn count_words(line: &[u8]) -> usize
    ensures { result ≡ length (words_of line.now) }
{
    let mut count = 0;
    let mut left = line;
    while let Some((_, more)) = first_word(left) {
        left = more;
        count += 1;
    }
    count
}
