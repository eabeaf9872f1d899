//! The program that is run: a ROM, or a source that is assembled.
ghost use Rattle.std.specs.Prelude.{◌≤◌, length, IfOk};
ghost use Rattle.uxn_memory.specs.Bytes.{largest_rom};
ghost use Rattle.uxn_io_traits.specs.Inquires.{Inquires};
ghost use Rattle.uxn_cli.specs.Accepted.{program_of};
ghost use Rattle.uxn_cli.specs.Held.{model_of_program};

use super::inputs::{InputKind, read_text};
use super::refusal::Refusal;
use super::sources::accept_source;
use std::alloc::Global;
use tal_include::AssembledSource;
use tal_words::Label;
use uxn_io_traits::{Bytes, Halt, Path, Tree};

/// What a run has of a program that is accepted.
#[derive(Drop)]
pub struct Program {
    /// The ROM.
    pub rom: Bytes,
    /// The labels of its source, or of a symbol file; a ROM file has none.
    pub labels: Vec<Label>,
    /// The files that its source includes; a ROM file has none.
    pub included: Vec<Path>,
}

/// A source is not needed once it is assembled.
impl From<AssembledSource> for Program {
    ghost use Rattle.std.specs.Prelude.{◌≡◌};
    ghost use Rattle.uxn_cli.specs.Held.{model_of_program, model_of_source};

    ghost from_gives = { λ source program. model_of_program program ≡ model_of_source source };

    fn from(source: AssembledSource) -> Program {
        let (assembly, included) = source.into_parts();
        let (rom, labels) = assembly.into_parts();
        Program {
            rom: Bytes::from(rom),
            labels,
            included,
        }
    }
}

/// The program at a path, where it is accepted.
pub fn accept_program<T: Tree>(
    alloc: Global,
    rom: bool,
    path: &Path,
    tree: &mut T,
) -> Result<Program, Halt<Refusal>>
    ensures loads { Inquires model_of_program (program_of rom path.now) (T.state tree.old) (T.state tree.new) result }
    ensures room { IfOk result (λ program. length (model_of_program program).rom ≤ largest_rom) }
{
    if rom {
        let rom = read_text(alloc, InputKind::Rom, path, tree)?;
        Ok(Program {
            rom,
            labels: Vec::new(alloc),
            included: Vec::new(alloc),
        })
    } else {
        let source = accept_source(alloc, path, tree)?;
        Ok(Program::from(source))
    }
}
