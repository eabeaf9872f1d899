//! Tables of values by their names.

ghost use Rattle.std.specs.Prelude.{◌≡◌, find, option_copied};
ghost use Rattle.std.specs.Str.{bytes_eq};
ghost use Rattle.text_lines.specs.Named.{named_in, value_named};

/// A row of a table: a name, and its value.
pub type Named<V> = (&'static str, V);

/// The value of a name: that of the first row with it.
pub fn value_named<V: Copy>(rows: &[Named<V>], name: &[u8]) -> Option<V>
    ensures { result ≡ value_named (named_in rows.now) name.now }
{
    match row_named(rows, name) {
        Some(row) => Some(row.1),
        None => None,
    }
}

/// The row of a name.
pub(crate) fn row_named<'a, V: Copy>(rows: &'a [Named<V>], name: &[u8]) -> Option<&'a Named<V>>
    ensures { option_copied result ≡ find (λ row. bytes_eq row.0.now name.now) rows.now }
{
    rows.iter().find(|row| row.0.as_bytes() == name)
}
