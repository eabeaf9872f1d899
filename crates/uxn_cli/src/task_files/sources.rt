//! Sources that are read.
ghost use Rattle.std.specs.Prelude.{◌≡◌, Ok, IfOk};
ghost use Rattle.tal_rom.specs.Assembly.{IsAssembled};
ghost use Rattle.uxn_io_traits.specs.Inquires.{Inquires, halted_as};
ghost use Rattle.uxn_cli.specs.declared.task_files.refusal.Refusal.TheVariants.{Faulty};
ghost use Rattle.uxn_cli.specs.Accepted.{source_of};
ghost use Rattle.tal_include.specs.Sources.{sourced_of};

use super::inputs::{InputKind, read_text};
use super::refusal::Refusal;
use std::alloc::Global;
use tal_include::{AssembledSource, SourceFault, read_source};
use uxn_io_traits::{Halt, Path, Tree};

/// A source, or the refusal of its first fault.
fn as_faulty(
    said: Result<AssembledSource, Halt<SourceFault>>,
) -> Result<AssembledSource, Halt<Refusal>>
    ensures { result ≡ halted_as Faulty said }
{
    match said {
        Ok(source) => Ok(source),
        Err(Halt::Refused(fault)) => Err(Halt::Refused(Refusal::Faulty(fault))),
        Err(Halt::TreeFault) => Err(Halt::TreeFault),
        Err(Halt::NoMemory) => Err(Halt::NoMemory),
    }
}

/// The source at a path with the files that it includes, unless no file is there or there is a fault.
pub fn accept_source<T: Tree>(
    alloc: Global,
    path: &Path,
    tree: &mut T,
) -> Result<AssembledSource, Halt<Refusal>>
    ensures source { Inquires sourced_of (source_of path.now) (T.state tree.old) (T.state tree.new) result }
    ensures assembled { IfOk result (λ source. IsAssembled source.text (Ok source.assembly)) }
{
    let text = read_text(alloc, InputKind::Source, path, tree)?;
    as_faulty(read_source(alloc, tree, path, text))
}
