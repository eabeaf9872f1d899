//! Lines of a source.
ghost use Rattle.std.specs.Prelude.{◌≡◌, ◌≤◌, length, IfOk, IfErr, MatchResult};
ghost use Rattle.line_source.specs.Lines.{TookLine, StopsLine};

use crate::source::Source;
use std::alloc::AllocFailed;
use uxn_io_traits::Failed;

/// What ends a line.
#[derive(Clone, Copy)]
pub enum Ending {
    /// A newline, and another line follows.
    Newline,
    /// The end of the source.
    End,
}

/// Why a line is not read.
#[derive(Clone, Copy)]
pub enum LineStop {
    /// The source failed.
    Failed,
    /// The line has more bytes than it may have.
    Long,
    /// Memory ran out.
    NoMemory,
}

impl From<Failed> for LineStop {
    ghost use Rattle.std.specs.Prelude.{◌≡◌};
    ghost use Rattle.line_source.specs.declared.lines.LineStop.TheVariants as stops;

    ghost from_gives = { λ _ stop. stop ≡ stops.Failed };

    fn from(_fault: Failed) -> LineStop {
        LineStop::Failed
    }
}

impl<T: Drop> From<AllocFailed<T>> for LineStop {
    ghost use Rattle.std.specs.Prelude.{◌≡◌};
    ghost use Rattle.line_source.specs.declared.lines.LineStop.TheVariants as stops;

    ghost from_gives = { λ _ stop. stop ≡ stops.NoMemory };

    fn from(_error: AllocFailed<T>) -> LineStop {
        LineStop::NoMemory
    }
}

/// Takes the next line of a source, of at most `most` bytes, into `line`, and says what ends it. The newline is taken too, and
/// is no part of the line.
#[tactic(auto, using(crate::proofs::Taking::fails_within))]
pub fn next_line<S: Source>(
    source: &mut S,
    line: &mut Vec<u8>,
    most: usize,
) -> Result<Ending, LineStop>
    ensures took { IfOk result (λ ending. TookLine line.new.items ending (S.state source.old) (S.state source.new)) }
    ensures size { IfOk result (λ _. length line.new.items ≤ most) }
    ensures stops { IfErr result (λ stop. StopsLine stop most (S.state source.old) (S.state source.new)) }
{
    line.clear();
    while line.len() <= most {
        match source.next_byte()? {
            None => return Ok(Ending::End),
            Some(b'\n') => return Ok(Ending::Newline),
            Some(byte) => line.push(byte)?,
        }
    }
    Err(LineStop::Long)
}
