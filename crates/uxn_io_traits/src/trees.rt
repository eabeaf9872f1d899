//! Trees of files, and reading a whole file.
ghost use Rattle.std.specs.Prelude.{◌≡◌, ◌<◌, ◌≤◌, length, drop, IfOk, IfSome, IsSome, IsTrue, OnErr, OnOk, None, [], ◌∷◌, is_err, is_some, false};
ghost use Rattle.std.specs.List.{All};
ghost use Rattle.std.specs.FinMap as map;
ghost use Rattle.uxn_io_traits.specs.Files.{IsTree, kind_at, file_at, file_bytes_from, is_folder, GivesBytes};
ghost use Rattle.uxn_io_traits.specs.Changes.{can_create};
ghost use Rattle.uxn_io_traits.specs.Children.{children, IsEntry, has_failed as names_failed};
ghost use Rattle.uxn_io_traits.specs.Requests.{Receives, ReceivesReading, begins_reading};
ghost use Rattle.uxn_io_traits.specs.declared.requests.TreeRequest.TheVariants.{LooksAt, Lists, Makes, AppendsTo, TakesAway, Reads};
ghost use Rattle.uxn_io_traits.specs.State.{TreeState};
ghost use Rattle.uxn_io_traits.specs.Ended.{TreeLooked, TreeEnded, Refused, creating, removing, appending, portion, refused_file};
ghost use Rattle.uxn_io_traits.specs.WholeFile.{whole_file, KeepsLimit, IsAllOf, has_failed};

use super::{Bytes, Failed, Path};
use std::alloc::{AllocError, Global};

/// How many bytes of a file are read at once.
const CHUNK: usize = 4096;

/// What stands at a path.
#[derive(Clone, Copy, PartialEq, Eq)]
pub enum Kind {
    /// Nothing is there.
    Missing,
    /// A file, with its length in bytes.
    File(u64),
    /// A folder.
    Folder,
}

/// What lies in a folder under a name.
#[derive(Clone, Copy)]
pub struct Entry {
    /// The name: a path of one component.
    pub name: Path,
    /// What is there: a file or a folder.
    pub kind: Kind,
}

/// Why a folder was not listed.
#[derive(Clone, Copy, PartialEq, Eq)]
pub enum NamesStop {
    /// The tree failed.
    Failed,
    /// Running out of memory.
    NoMemory,
}

/// Files and folders at paths. The parent of what stands at a path is a folder; the current folder,
/// in which paths of one component lie, is always there.
///
/// A tree counts its faults. A call that answers `Failed` has raised the count, or left it at its last
/// value, 2^64 - 1; no call lowers it. A tree may promise to be exact: then it counts one for each call
/// that answers `Failed`, and none for another, and so it counts the calls of `create` that answer false, and names the file that
/// it refused last. It may tell the requests that it received, each with its path; a file that is read on from a later byte is one.
pub trait Tree {
    /// The known contents, what it has counted, and what it is guaranteed to do without a fault.
    ghost state: { Self → TreeState };

    /// Tells what is there, and changes nothing.
    fn kind(&mut self, path: &Path) -> Result<Kind, Failed>
        ensures answer { IfOk result (λ kind. IfSome (state self.old).contents (λ nodes. kind ≡ kind_at nodes path.now)) }
        ensures shape { OnOk result (IfSome (state self.old).contents IsTree) }
        ensures looked { TreeLooked (is_err result) (state self.old) (state self.new) }
        ensures requests { Receives (LooksAt path.now ∷ []) (state self.old).requests (state self.new).requests };

    /// Puts bytes of the file from the place `from` on at the start of `into`, and says how many: none
    /// only where `into` is empty, the path is no file, or the file has no byte at `from`. The rest of
    /// `into` stays. After `Failed` it may hold any bytes. The tree does not change.
    fn read(&mut self, path: &Path, from: u64, into: &mut [u8]) -> Result<usize, Failed>
        ensures count { IfOk result (λ n. n ≤ length into.old) }
        ensures rest { IfOk result (λ n. drop n into.new ≡ drop n into.old) }
        ensures answer { IfOk result (λ n. IfSome (state self.old).contents
            (λ nodes. GivesBytes (file_bytes_from nodes path.now from) into.old into.new n)) }
        ensures looked { TreeLooked (is_err result) (state self.old) (state self.new) }
        ensures requests { Receives (begins_reading path.now from) (state self.old).requests (state self.new).requests };

    /// Makes the path an empty file, and says whether it did: not where its parent is no folder or the
    /// path is a folder, and then nothing changes. After `Failed` the change has happened or has not.
    fn create(&mut self, path: &Path) -> Result<bool, Failed>
        ensures answer { IfOk result (λ made. IfSome (state self.old).contents (λ nodes. made ≡ can_create nodes path.now)) }
        ensures ended { TreeEnded (creating (state self.old).contents path.now) (is_err result) (state self.old) (state self.new) }
        ensures refused { Refused (refused_file path.now result) (state self.old) (state self.new) }
        ensures requests { Receives (Makes path.now ∷ []) (state self.old).requests (state self.new).requests };

    /// Appends some bytes from the start of the piece to the file at the path, and says how many: at
    /// least one, unless the piece is empty. After `Failed` a prefix of the piece, perhaps empty, was
    /// appended.
    fn append(&mut self, path: &Path, piece: &[u8]) -> Result<usize, Failed>
        requires { IfSome (state self.old).contents (λ nodes. IsSome (file_at nodes path.now)) }
        ensures count { IfOk result (λ n. n ≤ length piece.now) }
        ensures some { IfOk result (λ n. 0 < length piece.now → 0 < n) }
        ensures ended { TreeEnded (appending path.now (portion result piece.now)) (is_err result) (state self.old) (state self.new) }
        ensures refused { Refused None (state self.old) (state self.new) }
        ensures requests { Receives (AppendsTo path.now ∷ []) (state self.old).requests (state self.new).requests };

    /// Takes the file at the path away, and says whether one was there; else nothing changes. After
    /// `Failed` the change has happened or has not.
    fn remove(&mut self, path: &Path) -> Result<bool, Failed>
        ensures answer { IfOk result (λ gone. IfSome (state self.old).contents (λ nodes. gone ≡ is_some (file_at nodes path.now))) }
        ensures ended { TreeEnded (removing (state self.old).contents path.now) (is_err result) (state self.old) (state self.new) }
        ensures refused { Refused None (state self.old) (state self.new) }
        ensures requests { Receives (TakesAway path.now ∷ []) (state self.old).requests (state self.new).requests };

    /// Lists the children of a folder, each once and with what `kind` tells of it, in byte order of their
    /// names, and changes nothing.
    fn names(&mut self, alloc: Global, folder: &Path) -> Result<Vec<Entry>, NamesStop>
        requires { IfSome (state self.old).contents (λ nodes. IsTrue (is_folder (map.get nodes folder.now))) }
        ensures answer { IfOk result (λ entries. IfSome (state self.old).contents (λ nodes. entries.items ≡ children nodes folder.now)) }
        ensures entries { IfOk result (λ entries. All IsEntry entries.items) }
        ensures looked { TreeLooked (names_failed result) (state self.old) (state self.new) }
        ensures requests { Receives (Lists folder.now ∷ []) (state self.old).requests (state self.new).requests };
}

/// Appends the whole piece to the file at the path. After `Failed` a prefix of it was appended; it fails with no empty piece.
pub fn append_all<T: Tree>(tree: &mut T, path: &Path, piece: &[u8]) -> Result<(), Failed>
    requires { IfSome (T.state tree.old).contents (λ nodes. IsSome (file_at nodes path.now)) }
    ensures some { OnErr result (0 < length piece.now) }
    ensures ended { TreeEnded (appending path.now piece.now) (is_err result) (T.state tree.old) (T.state tree.new) }
    ensures refused { Refused None (T.state tree.old) (T.state tree.new) }
{
    let mut at = 0;
    while at < piece.len() {
        at += tree.append(path, &piece[at..])?;
    }
    Ok(())
}

/// What stands at a path, as the bytes of a file.
#[derive(Drop)]
pub enum FileBytes {
    /// All bytes of the file.
    Found(Bytes),
    /// No file is there.
    Missing,
    /// The file is longer than the limit: its length, or, where more bytes than the limit were read,
    /// the limit and one.
    TooLong(u64),
}

/// Why a file was not read.
#[derive(Clone, Copy, PartialEq, Eq)]
pub enum ReadStop {
    /// The tree failed.
    Failed,
    /// Running out of memory.
    NoMemory,
}

impl From<Failed> for ReadStop {
    ghost use Rattle.std.specs.Prelude.{◌≡◌};
    ghost use Rattle.uxn_io_traits.specs.declared.trees.ReadStop.TheVariants as stops;

    ghost from_gives = { λ _ stop. stop ≡ stops.Failed };

    fn from(_fault: Failed) -> ReadStop {
        ReadStop::Failed
    }
}

impl From<AllocError> for ReadStop {
    ghost use Rattle.std.specs.Prelude.{◌≡◌};
    ghost use Rattle.uxn_io_traits.specs.declared.trees.ReadStop.TheVariants as stops;

    ghost from_gives = { λ _ stop. stop ≡ stops.NoMemory };

    fn from(_want: AllocError) -> ReadStop {
        ReadStop::NoMemory
    }
}

/// Reads the whole file at a path, unless it is longer than the limit. On a tree of known contents
/// holds the answer is exactly that of `whole_file`. The tree's count rises
/// where the answer is `Failed`, and only there. A tree of unknown contents may hold more than it said: where more bytes than the limit were read the
/// answer is `TooLong` with the limit and one.
pub fn read_file<T: Tree>(
    alloc: Global,
    tree: &mut T,
    path: &Path,
    limit: u32,
) -> Result<FileBytes, ReadStop>
    ensures answer { IfOk result (λ answer. IfSome (T.state tree.old).contents (λ nodes. answer ≡ whole_file (file_at nodes path.now) limit)) }
    ensures limit { IfOk result (KeepsLimit limit) }
    ensures looked { TreeLooked (has_failed result) (T.state tree.old) (T.state tree.new) }
    ensures requests { ReceivesReading path.now (T.state tree.old).requests (T.state tree.new).requests }
{
    match tree.kind(path)? {
        Kind::File(length) => {
            if length > u64::from(limit) {
                Ok(FileBytes::TooLong(length))
            } else {
                read_within(alloc, tree, path, limit)
            }
        }
        Kind::Missing | Kind::Folder => Ok(FileBytes::Missing),
    }
}

/// Reads until no byte is left or more than the limit were read.
fn read_within<T: Tree>(
    alloc: Global,
    tree: &mut T,
    path: &Path,
    limit: u32,
) -> Result<FileBytes, ReadStop>
    ensures answer { IfOk result (λ answer. IfSome (T.state tree.old).contents (λ nodes. IsAllOf (file_bytes_from nodes path.now 0) limit answer)) }
    ensures limit { IfOk result (KeepsLimit limit) }
    ensures looked { TreeLooked (has_failed result) (T.state tree.old) (T.state tree.new) }
    ensures requests { Receives (Reads path.now ∷ []) (T.state tree.old).requests (T.state tree.new).requests }
{
    let mut bytes = Vec::new(alloc);
    let mut chunk = [0; CHUNK];
    loop {
        let taken = tree.read(path, bytes.len() as u64, &mut chunk)?;
        if taken == 0 {
            return Ok(FileBytes::Found(Bytes::from(bytes)));
        }
        if bytes.len() + taken > limit as usize {
            return Ok(FileBytes::TooLong(u64::from(limit) + 1));
        }
        bytes.extend_from_slice(&chunk[..taken])?;
    }
}
