//! The commands of a debugger.
ghost use Rattle.uxn_io_traits.specs.Inquires.{Inquires, Says};
ghost use Rattle.uxn_cli.specs.Accepted.{commands_of, validated_commands};

use super::inputs::{InputKind, read_text};
use super::refusal::Refusal;
use std::alloc::Global;
use tal_words::Label;
use uxn_debugger::{CommandStop, DebugCommand, read_commands};
use uxn_io_traits::{Halt, Path, Tree};

/// The commands of a text.
fn validate_commands(
    alloc: Global,
    labels: &[Label],
    text: &[u8],
) -> Result<Vec<DebugCommand>, Halt<Refusal>>
    ensures { Says (λ commands. commands.items) (validated_commands labels.now text.now) result }
{
    match read_commands(alloc, text, labels) {
        Ok(commands) => Ok(commands),
        Err(CommandStop::Refused { line, kind }) => {
            Err(Halt::Refused(Refusal::BadCommands(line, kind)))
        }
        Err(CommandStop::NoMemory) => Err(Halt::NoMemory),
    }
}

/// The commands that are requested; without a file there are none.
pub fn accept_commands<T: Tree>(
    alloc: Global,
    path: &Option<Path>,
    labels: &[Label],
    tree: &mut T,
) -> Result<Vec<DebugCommand>, Halt<Refusal>>
    ensures { Inquires (λ commands. commands.items) (commands_of labels.now path.now) (T.state tree.old) (T.state tree.new) result }
{
    let Some(path) = path else {
        return Ok(Vec::new(alloc));
    };
    let text = read_text(alloc, InputKind::Commands, path, tree)?;
    validate_commands(alloc, labels, text.as_slice())
}
