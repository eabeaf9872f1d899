//! The nodes of a tree in memory, and places for more.
ghost use Rattle.std.specs.Prelude.{◌≡◌, ◌≢◌, ℕ, ◌+◌, ◌-◌, ◌≤◌, ◌<◌, ◌++◌, ◌&&◌, ◌==◌, false, [], ◌∷◌, min, nat_le, length, take, drop, not, vec_len};
ghost use Rattle.std.specs.Prelude.{vec_capacity, slice_index_or, slice_set, unwrap_or, option_map};
ghost use Rattle.std.specs.Prelude.{is_some, is_none, IsTrue, IsSome, IfSome, IfOk, Ok, Err};
ghost use Rattle.std.specs.List.{All, filter_map, insert};
ghost use Rattle.std.specs.Option.{option_copied};
ghost use Rattle.std.specs.FinMap as map;
ghost use Rattle.uxn_io_traits.specs.Files.{IsTree, kind_at, kind_of, file_at, file_bytes_at, is_folder, is_folder_at, has_parent};
ghost use Rattle.uxn_io_traits.specs.PathText.{path_of};
ghost use Rattle.uxn_io_traits.specs.Changes.{can_create};
ghost use Rattle.uxn_io_traits.specs.Children.{children, entry_in, IsEntry};
ghost use Rattle.uxn_io_traits.specs.ByteList.{HasRoom};
ghost use Rattle.uxn_io.specs.InMemory.Places.{node_of, place_entry, nodes_of, place_of, emptied, grown, IsPlace, IsFree, AreOrdered};
ghost use Rattle.uxn_io.specs.InMemory.Trees.{can_hold, created, lacks_place, appended, fitting, lacks_room, removed};

use super::trees::Node;
use std::alloc::{AllocError, Global};
use std::cmp::Ordering;
use std::marker::Model;
use uxn_io_traits::{Bytes, Entry, Kind, Path};

/// The nodes in the order of their paths, and free places for files. Each place has room for the same
/// number of bytes, so that no change takes memory.
#[derive(Drop)]
pub(crate) struct Places {
    used: Vec<(Path, Node)>,
    free: Vec<Bytes>,
    room: usize,
}

impl Model for Places {
    ghost use Rattle.std.specs.Prelude.{vec_len, vec_capacity};
    ghost use Rattle.uxn_io.specs.InMemory.Places.{Places, places_code, nodes_of, ArePlaces};

    ghost Value = { Places };

    ghost coded = { places_code };

    ghost view = { λ p. record { nodes = nodes_of p.used.items; free = vec_len p.free; room = p.room } };

    ghost invariant = { λ p. ArePlaces p.used.items p.free.items p.room (vec_capacity p.used) (vec_capacity p.free) };
}

impl Places {
    /// Places for these nodes and for so many more files, with room for so many bytes in each.
    pub(crate) fn new(
        alloc: Global,
        nodes: &[(Path, Node)],
        more: usize,
        room: usize,
    ) -> Result<Places, AllocError>
        requires { IsTrue (can_hold nodes.now room) }
        ensures { IfOk result (λ places. places ≡ record { nodes = nodes_of nodes.now; free = more; room = room }) }
    {
        let Some(total) = nodes.len().checked_add(more) else {
            return Err(AllocError);
        };
        let used = copies(alloc, nodes, room, total)?;
        let free = empty_places(alloc, more, room, total)?;
        Ok(Places { used, free, room })
    }

    /// The node at a path.
    pub(crate) fn node(&self, path: &Path) -> Option<&Node>
        ensures { option_map node_of (option_copied result) ≡ map.get self.now.nodes path.now }
    {
        lookup(&self.used, path)
    }

    /// What stands at a path.
    pub(crate) fn kind(&self, path: &Path) -> Kind
        ensures kind { result ≡ kind_at self.now.nodes path.now }
        ensures shape { IsTree self.now.nodes }
    {
        kind_there(&self.used, path)
    }

    /// The bytes of the file at a path: none where no file is there.
    pub(crate) fn bytes(&self, path: &Path) -> &[u8]
        ensures { result.now ≡ file_bytes_at self.now.nodes path.now }
    {
        bytes_there(&self.used, path)
    }

    /// Whether a file can be created at a path.
    pub(crate) fn can_create(&self, path: &Path) -> bool
        ensures { result ≡ can_create self.now.nodes path.now }
    {
        has_parent(&self.used, path) && !is_folder(&self.used, path)
    }

    /// Whether a file can be created where nothing is, and no place is free.
    pub(crate) fn lacks_place(&self, path: &Path) -> bool
        ensures { result ≡ lacks_place self.now path.now }
    {
        self.free.is_empty() && self.can_create(path) && self.node(path).is_none()
    }

    /// Makes the path an empty file, and says whether it did.
    pub(crate) fn create(&mut self, path: &Path) -> bool
        requires { lacks_place self.old path.now ≡ false }
        ensures result { result ≡ can_create self.old.nodes path.now }
        ensures after { self.new ≡ created self.old path.now }
    {
        if !self.can_create(path) {
            return false;
        }
        match place_of(&self.used, path) {
            Ok(at) => clear_at(&mut self.used, at),
            Err(at) => {
                if let Some(bytes) = self.free.pop() {
                    let node = Node {
                        folder: false,
                        bytes,
                    };
                    insert_node(&mut self.used, at, path, node);
                }
            }
        }
        true
    }

    /// Whether the file at a path has no room for a byte of the piece.
    pub(crate) fn lacks_room(&self, path: &Path, piece: &[u8]) -> bool
        ensures { result ≡ lacks_room self.now path.now piece.now }
    {
        !piece.is_empty() && self.room <= self.bytes(path).len()
    }

    /// Appends as much of the piece as fits to the file at the path, and says how much.
    pub(crate) fn append(&mut self, path: &Path, piece: &[u8]) -> usize
        requires { IsSome (file_at self.old.nodes path.now) }
        ensures result { result ≡ fitting self.old path.now piece.now }
        ensures after { self.new ≡ appended self.old path.now piece.now }
    {
        let count = piece.len().min(self.room - self.bytes(path).len());
        if count > 0 {
            if let Ok(at) = place_of(&self.used, path) {
                append_at(&mut self.used, at, &piece[..count]);
            }
        }
        count
    }

    /// Takes the file at the path away, and says whether one was there.
    pub(crate) fn remove(&mut self, path: &Path) -> bool
        ensures result { result ≡ is_some (file_at self.old.nodes path.now) }
        ensures after { self.new ≡ removed self.old path.now }
    {
        if !self.is_file(path) {
            return false;
        }
        if let Ok(at) = place_of(&self.used, path) {
            let (_, mut node) = self.used.remove(at);
            node.bytes.clear();
            push_free(&mut self.free, node.bytes);
        }
        true
    }

    /// Whether a file stands at a path.
    pub(crate) fn is_file(&self, path: &Path) -> bool
        ensures { result ≡ is_some (file_at self.now.nodes path.now) }
    {
        match self.node(path) {
            Some(node) => !node.folder,
            None => false,
        }
    }

    /// The children of a folder, in the order of their names. Errors when out of memory.
    pub(crate) fn children(&self, alloc: Global, folder: &Path) -> Result<Vec<Entry>, AllocError>
        ensures children { IfOk result (λ entries. entries.items ≡ children self.now.nodes folder.now) }
        ensures entries { IfOk result (λ entries. All IsEntry entries.items) }
    {
        children(alloc, &self.used, folder)
    }
}

/// Where the path stands, or the place where it would.
fn place_of(used: &[(Path, Node)], path: &Path) -> Result<usize, usize>
    ensures place { result ≡ place_of path.now used.now }
    ensures path { path_of path.now ≡ Ok path.now }
{
    let text = path.bytes();
    for (at, entry) in used.iter().enumerate() {
        match text.cmp(entry.0.bytes()) {
            Ordering::Less => return Err(at),
            Ordering::Equal => return Ok(at),
            Ordering::Greater => {}
        }
    }
    Err(used.len())
}

/// The node at a path: the first that stands there.
fn lookup<'a>(used: &'a [(Path, Node)], path: &Path) -> Option<&'a Node>
    ensures { option_map node_of (option_copied result) ≡ map.get (nodes_of used.now) path.now }
{
    for entry in used {
        if path.bytes() == entry.0.bytes() {
            return Some(&entry.1);
        }
    }
    None
}

/// What stands at a path.
fn kind_there(used: &[(Path, Node)], path: &Path) -> Kind
    ensures { result ≡ kind_at (nodes_of used.now) path.now }
{
    match lookup(used, path) {
        Some(node) => kind_of(node),
        None => Kind::Missing,
    }
}

/// What a node is.
fn kind_of(node: &Node) -> Kind
    ensures kind { result ≡ kind_of (Some (node_of node.now)) }
    ensures there { result ≢ Kind.Missing }
{
    if node.folder {
        Kind::Folder
    } else {
        Kind::File(node.bytes.as_slice().len() as u64)
    }
}

/// The bytes of the file at a path: none where no file is there.
fn bytes_there<'a>(used: &'a [(Path, Node)], path: &Path) -> &'a [u8]
    ensures { result.now ≡ file_bytes_at (nodes_of used.now) path.now }
{
    match lookup(used, path) {
        Some(node) => {
            if node.folder {
                &[]
            } else {
                node.bytes.as_slice()
            }
        }
        None => &[],
    }
}

/// Whether a folder stands at a path.
fn is_folder(used: &[(Path, Node)], path: &Path) -> bool
    ensures { result ≡ is_folder (map.get (nodes_of used.now) path.now) }
{
    match lookup(used, path) {
        Some(node) => node.folder,
        None => false,
    }
}

/// Whether the parent of a path is a folder.
pub(crate) fn has_parent(used: &[(Path, Node)], path: &Path) -> bool
    ensures { result ≡ has_parent (nodes_of used.now) path.now }
{
    match path.parent() {
        Some(parent) => is_folder(used, &parent),
        None => true,
    }
}

/// Takes the bytes of the file at a place away.
fn clear_at(used: &mut Vec<(Path, Node)>, at: usize)
    requires { at < vec_len used.old }
    ensures items { (held : _) → used.new.items ≡ slice_set used.old.items at (emptied (slice_index_or used.old.items at held)) }
    ensures capacity { vec_capacity used.new ≡ vec_capacity used.old }
{
    used[at].1.bytes.clear();
}

/// Puts more bytes behind those of the file at a place.
fn append_at(used: &mut Vec<(Path, Node)>, at: usize, more: &[u8])
    requires within { at < vec_len used.old }
    requires room { (held : _) → length more.now ≤ (slice_index_or used.old.items at held).1.bytes.spare }
    ensures items { (held : _) → used.new.items ≡ slice_set used.old.items at (grown more.now (slice_index_or used.old.items at held)) }
    ensures capacity { vec_capacity used.new ≡ vec_capacity used.old }
{
    used[at].1.bytes.append(more);
}

/// The children of a folder, in the order in which the nodes are held.
fn children(alloc: Global, used: &[(Path, Node)], folder: &Path) -> Result<Vec<Entry>, AllocError>
    ensures children { IfOk result (λ entries. entries.items ≡ filter_map (λ held. entry_in folder.now (place_entry held)) used.now) }
    ensures entries { IfOk result (λ entries. All IsEntry entries.items) }
{
    let mut entries = Vec::new(alloc);
    for held in used {
        if let Some(entry) = entry_in(folder, held) {
            entries.push(entry)?;
        }
    }
    Ok(entries)
}

/// What is listed of a node, if it lies in the folder.
fn entry_in(folder: &Path, held: &(Path, Node)) -> Option<Entry>
    ensures entry { result ≡ entry_in folder.now (place_entry held.now) }
    ensures is_entry { IfSome result IsEntry }
{
    let name = held.0.name_in(folder)?;
    let kind = kind_of(&held.1);
    Some(Entry { name, kind })
}

/// Copies of the nodes in the order of their paths, each with the room, in a list with so many places.
fn copies(
    alloc: Global,
    nodes: &[(Path, Node)],
    room: usize,
    total: usize,
) -> Result<Vec<(Path, Node)>, AllocError>
    requires holds { IsTrue (can_hold nodes.now room) }
    requires total { length nodes.now ≤ total }
    ensures nodes { IfOk result (λ used. nodes_of used.items ≡ nodes_of nodes.now) }
    ensures ordered { IfOk result (λ used. AreOrdered used.items) }
    ensures used { IfOk result (λ used. All (IsPlace room) used.items) }
    ensures few { IfOk result (λ used. vec_len used ≤ length nodes.now) }
    ensures total { IfOk result (λ used. vec_capacity used ≡ total) }
{
    let mut used = Vec::with_capacity(alloc, total)?;
    for i in (0..nodes.len()).rev() {
        let (path, node) = &nodes[i];
        let bytes = Bytes::with_room(alloc, node.bytes.as_slice(), room)?;
        let folder = node.folder;
        put(&mut used, path, Node { folder, bytes });
    }
    Ok(used)
}

/// Puts a node at a path, in the order of the paths.
fn put(used: &mut Vec<(Path, Node)>, path: &Path, node: Node)
    requires ordered { AreOrdered used.old.items }
    requires room { vec_len used.old < vec_capacity used.old }
    ensures nodes { nodes_of used.new.items ≡ map.insert (nodes_of used.old.items) path.now (node_of node) }
    ensures ordered { AreOrdered used.new.items }
    ensures used { (room : ℕ) → HasRoom room node.bytes → All (IsPlace room) used.old.items → All (IsPlace room) used.new.items }
    ensures capacity { vec_capacity used.new ≡ vec_capacity used.old }
    ensures few { vec_len used.new ≤ vec_len used.old + 1 }
{
    match place_of(used, path) {
        Ok(at) => set_node(used, at, node),
        Err(at) => insert_node(used, at, path, node),
    }
}

/// Puts a node in the place of another.
fn set_node(used: &mut Vec<(Path, Node)>, at: usize, node: Node)
    requires { at < vec_len used.old }
    ensures items { (held : _) → used.new.items ≡ slice_set used.old.items at ((slice_index_or used.old.items at held).0, node) }
    ensures capacity { vec_capacity used.new ≡ vec_capacity used.old }
{
    used[at].1 = node;
}

/// Puts a node between others, where there is room.
fn insert_node(used: &mut Vec<(Path, Node)>, at: usize, path: &Path, node: Node)
    requires within { at ≤ vec_len used.old }
    requires room { vec_len used.old < vec_capacity used.old }
    ensures items { used.new.items ≡ insert used.old.items at (path.now, node) }
    ensures capacity { vec_capacity used.new ≡ vec_capacity used.old }
{
    used.insert(at, (*path, node)).unwrap();
}

/// So many empty lists of bytes, each with the room, in a list with so many places.
fn empty_places(
    alloc: Global,
    more: usize,
    room: usize,
    total: usize,
) -> Result<Vec<Bytes>, AllocError>
    requires { more ≤ total }
    ensures count { IfOk result (λ free. vec_len free ≡ more) }
    ensures free { IfOk result (λ free. All (IsFree room) free.items) }
    ensures total { IfOk result (λ free. total ≤ vec_capacity free) }
{
    let mut free = Vec::with_capacity(alloc, total)?;
    for _i in 0..more {
        let bytes = Bytes::with_room(alloc, &[], room)?;
        push_free(&mut free, bytes);
    }
    Ok(free)
}

/// Adds a free place, where there is room.
fn push_free(free: &mut Vec<Bytes>, bytes: Bytes)
    requires { vec_len free.old < vec_capacity free.old }
    ensures items { free.new.items ≡ free.old.items ++ bytes ∷ [] }
    ensures capacity { vec_capacity free.old ≤ vec_capacity free.new }
{
    free.push(bytes).unwrap();
}
