//! The questions, each put to a tree.

ghost use Rattle.std.specs.Prelude.{◌≡◌, [], ◌∷◌, IfOk, IfSome, Some, is_err};
ghost use Rattle.uxn_io_traits.specs.Ended.{TreeLooked};
ghost use Rattle.uxn_io_traits.specs.Files.{has_parent, is_folder_at};
ghost use Rattle.uxn_io_traits.specs.PathText.{parent_of};
ghost use Rattle.uxn_io_traits.specs.Requests.{Receives};
ghost use Rattle.uxn_io_traits.specs.declared.requests.TreeRequest.TheVariants.{LooksAt};
ghost use Rattle.uxn_io_traits.specs.Inquires.{Inquires};
ghost use Rattle.uxn_io_traits.specs.Inquiry.{creatable, file_of};
ghost use Rattle.uxn_io_traits.specs.Question.{at_parent};

use super::{Failed, FileBytes, Halt, Kind, Path, Tree, read_file};
use std::alloc::Global;

/// The whole file at a path, up to a limit.
pub fn read_whole<T: Tree, R: Drop>(
    alloc: Global,
    tree: &mut T,
    path: &Path,
    limit: u32,
) -> Result<FileBytes, Halt<R>>
    ensures { Inquires (λ file. file) (file_of path.now limit) (T.state tree.old) (T.state tree.new) result }
{
    let file = read_file(alloc, tree, path, limit)?;
    Ok(file)
}

/// Whether a folder is at the path.
fn is_folder<T: Tree>(tree: &mut T, path: &Path) -> Result<bool, Failed>
    ensures answer { IfOk result (λ answer. IfSome (T.state tree.old).contents (λ nodes. answer ≡ is_folder_at nodes (Some path.now))) }
    ensures looked { TreeLooked (is_err result) (T.state tree.old) (T.state tree.new) }
    ensures requests { Receives (LooksAt path.now ∷ []) (T.state tree.old).requests (T.state tree.new).requests }
{
    match tree.kind(path)? {
        Kind::Folder => Ok(true),
        Kind::File(_) | Kind::Missing => Ok(false),
    }
}

/// Whether the parent of the path is a folder. The current folder always is.
fn has_parent<T: Tree>(tree: &mut T, path: &Path) -> Result<bool, Failed>
    ensures answer { IfOk result (λ answer. IfSome (T.state tree.old).contents (λ nodes. answer ≡ has_parent nodes path.now)) }
    ensures looked { TreeLooked (is_err result) (T.state tree.old) (T.state tree.new) }
    ensures requests { Receives (at_parent (parent_of path.now)) (T.state tree.old).requests (T.state tree.new).requests }
{
    match path.parent() {
        Some(parent) => is_folder(tree, &parent),
        None => Ok(true),
    }
}

/// Whether a file can be created at the path.
pub fn can_create<T: Tree, R: Drop>(tree: &mut T, path: &Path) -> Result<bool, Halt<R>>
    ensures { Inquires (λ can. can) (creatable path.now) (T.state tree.old) (T.state tree.new) result }
{
    let parent_is_folder = has_parent(tree, path)?;
    let is_folder = is_folder(tree, path)?;
    Ok(parent_is_folder && !is_folder)
}
