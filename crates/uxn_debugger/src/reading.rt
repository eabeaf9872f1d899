//! Reading commands.

ghost use Rattle.text_lines.specs.Reading.{made, ReadsText};
ghost use Rattle.uxn_debugger.specs.CommandTexts.{commands_of_text};

use crate::command::{CommandKind, CommandStop, DebugCommand};
use crate::command_line::command_line_of;
use std::alloc::Global;
use tal_symbols::{Label, LabelNames};
use text_lines::Lines;
use uxn_limits::limits;

/// Reads at most `MOST_COMMANDS` commands of at most `TEXT_LIMIT` bytes, whose addresses may be names of these labels. Refused with
/// the first faulty line, counted from 1, and the first fault there. The names are hashed where some may be looked up.
pub fn read_commands(
    alloc: Global,
    text: &[u8],
    labels: &[Label],
) -> Result<Vec<DebugCommand>, CommandStop>
    ensures { ReadsText (made (λ commands. commands.items) result) (commands_of_text labels.now text.now) }
{
    let names = LabelNames::new(alloc, labels, text.contains(&b'@'))?;
    commands_by(alloc, text, &names)
}

// The same, with the labels by their names.
#[tactic(auto, unfolding(crate::specs::CommandTexts::commands_of_text))]
fn commands_by(
    alloc: Global,
    text: &[u8],
    labels: &LabelNames<'_>,
) -> Result<Vec<DebugCommand>, CommandStop>
    ensures { ReadsText (made (λ commands. commands.items) result) (commands_of_text labels.now text.now) }
{
    if text.len() > limits::TEXT_LIMIT {
        return Err(CommandStop::Refused {
            line: 1,
            kind: CommandKind::LongCommands,
        });
    }
    let mut commands = Vec::new(alloc);
    let mut lines = Lines::new(text);
    while let Some(line) = lines.next_line() {
        match command_line_of(labels, line) {
            Ok(Some(_)) if commands.len() == limits::MOST_COMMANDS => {
                return Err(CommandStop::Refused {
                    line: lines.number(),
                    kind: CommandKind::ManyCommands,
                });
            }
            Ok(Some(command)) => commands.push(command)?,
            Ok(None) => {}
            Err(kind) => {
                let line = lines.number();
                return Err(CommandStop::Refused { line, kind });
            }
        }
    }
    Ok(commands)
}
