//! The script that a run is given.
ghost use Rattle.uxn_io_traits.specs.Inquires.{Inquires, Says};
ghost use Rattle.uxn_cli.specs.Accepted.{script_of, validated_script};

use super::inputs::{InputKind, read_text};
use super::refusal::Refusal;
use std::alloc::Global;
use text_lines::{Script, ScriptStop, read_script};
use uxn_io_traits::{Halt, Path, Tree};

/// The script of a text.
pub fn validate_script(alloc: Global, text: &[u8]) -> Result<Script, Halt<Refusal>>
    ensures { Says (λ script. script) (validated_script text.now) result }
{
    match read_script(alloc, text) {
        Ok(script) => Ok(script),
        Err(ScriptStop::Refused { line, kind }) => Err(Halt::Refused(Refusal::BadScript(
            line, kind,
        ))),
        Err(ScriptStop::NoMemory) => Err(Halt::NoMemory),
    }
}

/// The script that is requested; without one that of an empty text.
pub fn accept_script<T: Tree>(
    alloc: Global,
    path: &Option<Path>,
    tree: &mut T,
) -> Result<Script, Halt<Refusal>>
    ensures { Inquires (λ script. script) (script_of path.now) (T.state tree.old) (T.state tree.new) result }
{
    let Some(path) = path else {
        return validate_script(alloc, b"");
    };
    let text = read_text(alloc, InputKind::Script, path, tree)?;
    validate_script(alloc, text.as_slice())
}
