//! The first words of lines, and how many values stand behind them.

ghost use Rattle.std.specs.Prelude.{◌≡◌};
ghost use Rattle.text_lines.specs.Named.{named_in};
ghost use Rattle.text_lines.specs.SetupLines.{setup_rows};

use super::{Counts, Row};

/// The first word of a line of a setup.
#[derive(Clone, Copy)]
pub(crate) enum Keyword {
    Machine,
    Script,
    Budget,
    Turn,
}

/// The lines of a setup.
pub(crate) static ROWS: [Row<Keyword>; 4] = [
    ("machine", (Counts::Exactly(1), Keyword::Machine)),
    ("script", (Counts::Exactly(1), Keyword::Script)),
    ("budget", (Counts::Exactly(1), Keyword::Budget)),
    ("turn", (Counts::Exactly(2), Keyword::Turn)),
];

// The lines of a setup.
pub(crate) fn rows() -> &'static [Row<Keyword>]
    ensures { named_in result.now ≡ setup_rows }
{
    ROWS.as_slice()
}
