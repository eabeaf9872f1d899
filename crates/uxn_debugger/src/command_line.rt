//! The first words of lines, and what a line means.

ghost use Rattle.std.specs.Prelude.{◌≡◌, ◌<◌, ◌≤◌, ◌^◌, IfOk};
ghost use Rattle.text_lines.specs.Lines.{words_of};
ghost use Rattle.text_lines.specs.Named.{named_in};
ghost use Rattle.uxn_debugger.specs.declared.command_line.Keyword.TheVariants.{Mem};
ghost use Rattle.uxn_debugger.specs.CommandLines.{address_in, address_of_values, command_line_of, command_of, command_rows, count_of_values};

use crate::command::{CommandKind, DebugCommand};
use tal_symbols::LabelNames;
use tal_words::short_number;
use text_lines::{Counts, Row, begins_with, first_word, keyword_of, number_within};
use uxn_limits::limits;

/// The first word of a line that gives a command.
#[derive(Clone, Copy)]
pub(crate) enum Keyword {
    Break,
    Delete,
    Run,
    Step,
    Back,
    Where,
    Stacks,
    Mem,
    Ports,
}

/// The lines of commands.
pub(crate) static ROWS: [Row<Keyword>; 9] = [
    ("break", (Counts::Exactly(1), Keyword::Break)),
    ("delete", (Counts::Exactly(1), Keyword::Delete)),
    ("run", (Counts::Exactly(0), Keyword::Run)),
    ("step", (Counts::Exactly(1), Keyword::Step)),
    ("back", (Counts::Exactly(1), Keyword::Back)),
    ("where", (Counts::Exactly(0), Keyword::Where)),
    ("stacks", (Counts::Exactly(0), Keyword::Stacks)),
    ("mem", (Counts::Exactly(2), Keyword::Mem)),
    ("ports", (Counts::Exactly(0), Keyword::Ports)),
];

// The lines of commands.
pub(crate) fn rows() -> &'static [Row<Keyword>]
    ensures { named_in result.now ≡ command_rows }
{
    ROWS.as_slice()
}

// The command that a line gives, if it gives one, or what is wrong with it by itself.
#[tactic(auto, unfolding(crate::specs::CommandLines::command_line_of))]
pub(crate) fn command_line_of(
    labels: &LabelNames<'_>,
    line: &[u8],
) -> Result<Option<DebugCommand>, CommandKind>
    ensures { result ≡ command_line_of labels.now (words_of line.now) }
{
    match keyword_of(rows(), line)? {
        Some((keyword, values)) => Ok(Some(command_of(labels, keyword, values)?)),
        None => Ok(None),
    }
}

// The command that the values behind a keyword make, as many as it takes.
#[tactic(auto, unfolding(crate::specs::CommandLines::command_of))]
fn command_of(
    labels: &LabelNames<'_>,
    keyword: Keyword,
    values: &[u8],
) -> Result<DebugCommand, CommandKind>
    ensures { result ≡ command_of labels.now keyword (words_of values.now) }
{
    match keyword {
        Keyword::Break => address_of_values(labels, values).map(DebugCommand::Break),
        Keyword::Delete => address_of_values(labels, values).map(DebugCommand::Delete),
        Keyword::Run => Ok(DebugCommand::Run),
        Keyword::Step => count_of_values(limits::MOST_STEPS, values).map(DebugCommand::Step),
        Keyword::Back => {
            count_of_values(limits::MOST_MOMENTS as u64, values).map(DebugCommand::Back)
        }
        Keyword::Where => Ok(DebugCommand::Here),
        Keyword::Stacks => Ok(DebugCommand::Stacks),
        Keyword::Mem => memory_of_values(labels, values),
        Keyword::Ports => Ok(DebugCommand::PortPage),
    }
}

// The bytes of memory that an address and a count give.
#[tactic(auto, unfolding(crate::specs::CommandLines::command_of))]
fn memory_of_values(labels: &LabelNames<'_>, values: &[u8]) -> Result<DebugCommand, CommandKind>
    ensures { result ≡ command_of labels.now Mem (words_of values.now) }
{
    let Some((address, more)) = first_word(values) else {
        return Err(CommandKind::BadValue);
    };
    let count = count_of_values(limits::MOST_PRINTED, more)?;
    Ok(DebugCommand::Mem(address_in(labels, address)?, count as u16))
}

// The first value as a count from 1.
fn count_of_values(most: u64, values: &[u8]) -> Result<u32, CommandKind>
    requires { most < 2 ^ 32 }
    ensures count { result ≡ count_of_values most (words_of values.now) }
    ensures within { IfOk result (λ count. count ≤ most) }
{
    let Some((word, _)) = first_word(values) else {
        return Err(CommandKind::BadValue);
    };
    match number_within(1, most, word) {
        Some(count) => Ok(count as u32),
        None => Err(CommandKind::BadValue),
    }
}

// The first value as an address.
fn address_of_values(labels: &LabelNames<'_>, values: &[u8]) -> Result<u16, CommandKind>
    ensures { result ≡ address_of_values labels.now (words_of values.now) }
{
    let Some((word, _)) = first_word(values) else {
        return Err(CommandKind::BadValue);
    };
    address_in(labels, word)
}

// The address that a word represents: four lowercase digits, or `@` and the name of a label.
#[tactic(auto, unfolding(crate::specs::CommandLines::address_in))]
fn address_in(labels: &LabelNames<'_>, word: &[u8]) -> Result<u16, CommandKind>
    ensures { result ≡ address_in labels.now word.now }
{
    if let Some(address) = short_number(word) {
        return Ok(address);
    }
    if !begins_with(b'@', word) || word.len() == 1 {
        return Err(CommandKind::BadValue);
    }
    match labels.address_of(&word[1..]) {
        Some(address) => Ok(address),
        None => Err(CommandKind::NoSuchLabel),
    }
}
