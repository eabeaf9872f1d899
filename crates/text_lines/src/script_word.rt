//! The first words of lines, and how many values stand behind them.

ghost use Rattle.std.specs.Prelude.{◌≡◌};
ghost use Rattle.text_lines.specs.Named.{named_in};
ghost use Rattle.text_lines.specs.ScriptRows.{rows_of};

use super::script::Version;
use super::{Counts, Row};

/// What the first word of a line says.
#[derive(Clone, Copy)]
pub(crate) enum Keyword {
    Script,
    Clock,
    Args,
    Input,
    End,
    Frame,
    Key,
    Down,
    Up,
    Mouse,
    Press,
    Release,
    Scroll,
    Shot,
    Expect,
}

/// How many lines only version 2 has; three of them stand in place of one of version 1 behind them.
pub(crate) const FURTHER: usize = 5;

/// The lines of version 2, and behind the first five those of version 1. Most lines of a script are frames, so their row is
/// the first of version 1.
pub(crate) static ROWS: [Row<Keyword>; 18] = [
    ("script", (Counts::Exactly(1), Keyword::Script)),
    ("expect", (Counts::Exactly(2), Keyword::Expect)),
    ("key", (Counts::Between(1, 2), Keyword::Key)),
    ("down", (Counts::Between(1, 2), Keyword::Down)),
    ("up", (Counts::Between(1, 2), Keyword::Up)),
    ("frame", (Counts::Between(0, 1), Keyword::Frame)),
    ("clock", (Counts::Exactly(2), Keyword::Clock)),
    ("args", (Counts::AtLeast(1), Keyword::Args)),
    ("input", (Counts::AtLeast(1), Keyword::Input)),
    ("end", (Counts::Exactly(0), Keyword::End)),
    ("key", (Counts::Exactly(1), Keyword::Key)),
    ("down", (Counts::Exactly(1), Keyword::Down)),
    ("up", (Counts::Exactly(1), Keyword::Up)),
    ("mouse", (Counts::Exactly(2), Keyword::Mouse)),
    ("press", (Counts::Exactly(1), Keyword::Press)),
    ("release", (Counts::Exactly(1), Keyword::Release)),
    ("scroll", (Counts::Exactly(2), Keyword::Scroll)),
    ("shot", (Counts::Exactly(0), Keyword::Shot)),
];

// The lines of a version.
#[tactic(auto, unfolding(crate::specs::ScriptRows::rows_of))]
pub(crate) fn rows_of(version: Version) -> &'static [Row<Keyword>]
    ensures { named_in result.now ≡ rows_of version }
{
    match version {
        Version::First => &ROWS[FURTHER..],
        Version::Second => ROWS.as_slice(),
    }
}
