//! Writes.
ghost use Rattle.std.specs.Prelude.{◌≡◌, ◌&&◌, ◌||◌, [], map, IfOk, IfSome, IsTrue, IsSome, is_err, is_some};
ghost use Rattle.uxn_io_traits.specs.Ended.{TreeEnded, TreeLooked, RefusedAtMost};
ghost use Rattle.uxn_io_traits.specs.Files.{kind_at, file_at};
ghost use Rattle.uxn_io_traits.specs.Outside.{ToFile};
ghost use Rattle.file_ports.specs.Actions.{observed_file, is_file, begun};
ghost use Rattle.file_ports.specs.AnswersAction.{changes_written};

use uxn_io_traits::{Failed, Kind, Path, Tree, append_all};

/// Whether a write goes on with a file that is there.
fn goes_on<T: Tree>(tree: &mut T, path: &Path, is_writing: bool, keep: bool) -> Result<bool, Failed>
    ensures answer { IfOk result (λ goes. IfSome (T.state tree.old).contents (λ nodes.
        goes ≡ ((is_writing || keep) && is_file (kind_at nodes path.now)))) }
    ensures tree { TreeLooked (is_err result) (T.state tree.old) (T.state tree.new) }
{
    if !is_writing && !keep {
        return Ok(false);
    }
    match tree.kind(path)? {
        Kind::File(_) => Ok(true),
        Kind::Missing | Kind::Folder => Ok(false),
    }
}

/// Begins a write, and says whether bytes can be added to the file then. One that is writing goes on with the
/// file, and so does one that keeps a file which is there; else the file is made empty.
fn begin<T: Tree>(tree: &mut T, path: &Path, is_writing: bool, keep: bool) -> Result<bool, Failed>
    ensures begun { IfOk result (λ goes. IfSome (T.state tree.old).contents (λ nodes. goes
        ≡ is_some (begun is_writing keep (observed_file nodes path.now)))) }
    ensures file { IfOk result (λ goes. IsTrue goes → IfSome (T.state tree.new).contents (λ nodes. IsSome (file_at nodes path.now))) }
    ensures tree { TreeEnded (changes_written is_writing keep (T.state tree.old).contents path.now []) (is_err result)
        (T.state tree.old) (T.state tree.new) }
    ensures refused { RefusedAtMost path.now (T.state tree.old) (T.state tree.new) }
{
    if goes_on(tree, path, is_writing, keep)? {
        return Ok(true);
    }
    if is_writing {
        return Ok(false);
    }
    tree.create(path)
}

/// Writes a piece, and says whether it could begin.
pub(crate) fn add<T: Tree>(
    tree: &mut T,
    path: &Path,
    piece: &[u8],
    is_writing: bool,
    keep: bool,
) -> Result<bool, Failed>
    ensures begun { IfOk result (λ goes. IfSome (T.state tree.old).contents (λ nodes. goes
        ≡ is_some (begun is_writing keep (observed_file nodes path.now)))) }
    ensures tree { TreeEnded (changes_written is_writing keep (T.state tree.old).contents path.now (map (λ byte. ToFile path.now byte) piece.now))
        (is_err result) (T.state tree.old) (T.state tree.new) }
    ensures refused { RefusedAtMost path.now (T.state tree.old) (T.state tree.new) }
{
    if !begin(tree, path, is_writing, keep)? {
        return Ok(false);
    }
    append_all(tree, path, piece)?;
    Ok(true)
}
