//! What a line of a setup gives.

ghost use Rattle.std.specs.Prelude.{◌≡◌, ◌∷◌, option_map, IfOk, IfSome};
ghost use Rattle.uxn_limits.specs.declared.limits.TheConstants.{GREATEST_BUDGET};
ghost use Rattle.text_lines.specs.Lines.{words_of};
ghost use Rattle.text_lines.specs.Numbers.{number_within};
ghost use Rattle.text_lines.specs.SetupLimits.{IsBudget, IsWithin};
ghost use Rattle.text_lines.specs.SetupLines.{setup_line_of, setup_of_values};
ghost use Rattle.text_lines.specs.declared.setup_word.Keyword.TheVariants as word;
ghost use Rattle.text_lines.specs.declared.setup_line.SetupLine.TheVariants.{Turn};

use super::setup::{SetupKind, Turns};
use super::setup_word::{Keyword, rows};
use super::{first_word, keyword_of, number_within};
use uxn_io_traits::Path;
use uxn_limits::limits;

/// What a line of a setup gives.
#[derive(Clone, Copy)]
pub(crate) enum SetupLine {
    /// The next machine, by the path of its source.
    Machine(Path),
    /// The path of the script of the first machine.
    Script(Path),
    /// The budget of every vector.
    Budget(u32),
    /// Turns of a machine.
    Turn(Turns),
}

// What a line gives, if it gives something, or what is wrong with it by itself.
#[tactic(auto, unfolding(crate::specs::SetupLines::setup_line_of))]
pub(crate) fn setup_line_of(line: &[u8]) -> Result<Option<SetupLine>, SetupKind>
    ensures line { result ≡ setup_line_of (words_of line.now) }
    ensures limits { IfOk result (λ given. IfSome given IsWithin) }
{
    let Some((keyword, values)) = keyword_of(rows(), line)? else {
        return Ok(None);
    };
    match setup_of_values(keyword, values) {
        None => Err(SetupKind::BadValue),
        given => Ok(given),
    }
}

// What the values behind a first word give, as many as it takes; nothing where one is not of its form or range.
#[tactic(auto, unfolding(crate::specs::SetupLines::setup_of_values))]
fn setup_of_values(keyword: Keyword, values: &[u8]) -> Option<SetupLine>
    ensures made { result ≡ setup_of_values keyword (words_of values.now) }
    ensures limits { IfSome result IsWithin }
{
    let (word, more) = first_word(values)?;
    match keyword {
        Keyword::Machine => Path::read(word).ok().map(SetupLine::Machine),
        Keyword::Script => Path::read(word).ok().map(SetupLine::Script),
        Keyword::Budget => budget_of(word).map(SetupLine::Budget),
        Keyword::Turn => turns_of(word, more).map(SetupLine::Turn),
    }
}

// The budget that a word says.
fn budget_of(word: &[u8]) -> Option<u32>
    ensures budget { result ≡ number_within 1 GREATEST_BUDGET word.now }
    ensures limits { IfSome result IsBudget }
{
    let budget = number_within(1, limits::GREATEST_BUDGET, word)?;
    Some(budget as u32)
}

// Turns of a machine, by the word for its number and the values behind it.
#[tactic(auto, unfolding(crate::specs::SetupLines::setup_of_values))]
fn turns_of(machine: &[u8], more: &[u8]) -> Option<Turns>
    ensures turns { option_map Turn result ≡ setup_of_values word.Turn (machine.now ∷ words_of more.now) }
    ensures limits { IfSome result (λ turns. IsWithin (Turn turns)) }
{
    let (count, _) = first_word(more)?;
    let machine = number_within(1, limits::MOST_MACHINES as u64, machine)? as u8;
    let count = number_within(1, limits::TURNS_OF_LINE, count)? as u32;
    Some(Turns { machine, count })
}
