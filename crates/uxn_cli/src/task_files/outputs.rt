//! The files that a command writes.
ghost use Rattle.std.specs.Prelude.{◌≡◌, ◌++◌, ◌∷◌, [], IfSome, OnOk};
ghost use Rattle.uxn_io_traits.specs.Inquires.{Inquires, Says};
ghost use Rattle.uxn_cli.specs.Accepted.{free_output, free_outputs, said_output};
ghost use Rattle.uxn_io_traits.specs.Ended.{creating_all};
ghost use Rattle.uxn_cli.specs.Writing.{filling_all};
ghost use Rattle.uxn_cli.specs.World.{CanMake, AreFiles};
ghost use Rattle.uxn_cli.specs.Outputs.{observed_texts, paths_of};
ghost use Rattle.uxn_cli.specs.Made.{DoesPart};

use super::refusal::{Halt, Refusal};
use std::alloc::AllocError;
use uxn_arguments::is_among;
use uxn_io_traits::{Halt as InquiryHalt, Path, Tree, append_all, can_create};

/// A file that is to be written.
#[derive(Drop)]
pub struct Output {
    /// Where it is to be.
    pub path: Path,
    /// What it is to hold.
    pub bytes: Vec<u8>,
}

/// Puts a file and what it is to hold behind others.
pub(crate) fn push_output(
    outputs: &mut Vec<Output>,
    path: &Path,
    bytes: Vec<u8>,
) -> Result<(), AllocError>
    ensures { OnOk result (outputs.new.items ≡ outputs.old.items ++ record { path = path.now; bytes = bytes } ∷ []) }
{
    outputs.push(Output { path: *path, bytes })?;
    Ok(())
}

/// Refuses an output that cannot be made, or is an included file.
fn said_output(included: &[Path], path: &Path, can: bool) -> Result<(), InquiryHalt<Refusal>>
    ensures { Says (λ free. free) (said_output included.now path.now can) result }
{
    if can && !is_among(path, included) {
        Ok(())
    } else {
        Err(InquiryHalt::Refused(Refusal::NoOutput(*path)))
    }
}

/// Looks at an output, and refuses it so.
fn accept_output<T: Tree>(
    included: &[Path],
    path: &Path,
    tree: &mut T,
) -> Result<(), InquiryHalt<Refusal>>
    ensures { Inquires (λ free. free) (free_output included.now path.now) (T.state tree.old) (T.state tree.new) result }
{
    let can = can_create(tree, path)?;
    said_output(included, path, can)
}

/// Refuses the first output that cannot be made, or is an included file. Nothing changes.
pub fn look_at<T: Tree>(
    included: &[Path],
    outputs: &[Output],
    tree: &mut T,
) -> Result<(), InquiryHalt<Refusal>>
    ensures { Inquires (λ free. free) (free_outputs included.now (paths_of outputs.now)) (T.state tree.old) (T.state tree.new) result }
{
    for output in outputs {
        accept_output(included, &output.path, tree)?;
    }
    Ok(())
}

/// Makes the files, empty and in order, and refuses the first one that the tree does not make. On a tree of
/// known contents each is made.
pub fn make_all<T: Tree>(tree: &mut T, outputs: &[Output]) -> Result<(), Halt>
    requires { IfSome (T.state tree.old).contents (CanMake (observed_texts outputs.now)) }
    ensures { DoesPart (paths_of outputs.now) (creating_all (paths_of outputs.now)) (T.state tree.old) (T.state tree.new) result }
{
    for output in outputs {
        if !tree.create(&output.path)? {
            return Err(Halt::Refused(Refusal::NoOutput(output.path)));
        }
    }
    Ok(())
}

/// Appends to each file its bytes, in order.
pub fn fill_all<T: Tree>(tree: &mut T, outputs: &[Output]) -> Result<(), Halt>
    requires { IfSome (T.state tree.old).contents (AreFiles (observed_texts outputs.now)) }
    ensures { DoesPart [] (filling_all (observed_texts outputs.now)) (T.state tree.old) (T.state tree.new) result }
{
    for output in outputs {
        append_all(tree, &output.path, &output.bytes)?;
    }
    Ok(())
}
