//! The outputs of a run, which are made before it.
ghost use Rattle.std.specs.Prelude.{◌≡◌, IfOk};
ghost use Rattle.uxn_cli.specs.Outputs.{paths_of};
ghost use Rattle.uxn_cli.specs.Made.{AreApart, MakesOutputs};

use super::outputs::{Output, look_at, make_all, push_output};
use super::refusal::Halt;
use std::alloc::{AllocError, Global};
use uxn_io_traits::{Path, Tree};

/// The files of a task, which have no bytes yet.
pub fn empty_outputs(alloc: Global, paths: &[Path]) -> Result<Vec<Output>, AllocError>
    ensures { IfOk result (λ outputs. paths_of outputs.items ≡ paths.now) }
{
    let mut outputs = Vec::new(alloc);
    for path in paths {
        push_output(&mut outputs, path, Vec::new(alloc))?;
    }
    Ok(outputs)
}

/// Makes the files that a run writes, unless one of them cannot be made or is an included file: then it makes none.
pub fn make_outputs<T: Tree>(
    included: &[Path],
    outputs: &[Output],
    tree: &mut T,
) -> Result<(), Halt>
    requires { AreApart (paths_of outputs.now) }
    ensures { MakesOutputs included.now (paths_of outputs.now) (T.state tree.old) (T.state tree.new) result }
{
    look_at(included, outputs, tree)?;
    make_all(tree, outputs)
}
