//! A tree in memory, which fails on demand.
ghost use Rattle.std.specs.Prelude.{◌≡◌, ◌+◌, ◌<◌, ◌≤◌, ◌==◌, ◌&&◌, ◌||◌, ◌++◌, ◌∷◌, [], None, false, min, count_by, length};
ghost use Rattle.std.specs.Prelude.{take, drop, option_map, is_err, is_some, IsTrue, IsSome, IfOk, IfSome, OnOk, if◌then◌else◌};
ghost use Rattle.std.specs.List.{All, list_any};
ghost use Rattle.std.specs.Str.{bytes_eq};
ghost use Rattle.std.specs.Option.{option_copied};
ghost use Rattle.std.specs.FinMap as map;
ghost use Rattle.uxn_io_traits.specs.Faults.{Counted, one_more};
ghost use Rattle.uxn_io_traits.specs.Files.{IsTree, kind_at, file_at, file_bytes_at, file_bytes_from, is_folder, GivesBytes};
ghost use Rattle.uxn_io_traits.specs.Changes.{can_create};
ghost use Rattle.uxn_io_traits.specs.Children.{children, IsEntry, has_failed as names_failed};
ghost use Rattle.uxn_io_traits.specs.Ended.{TreeLooked, TreeEnded, Refused, creating, removing, appending, portion, refused_file};
ghost use Rattle.uxn_io_traits.specs.Requests.{Receives, begins_reading};
ghost use Rattle.uxn_io_traits.specs.declared.requests.TreeRequest.TheVariants.{LooksAt, Lists, Makes, AppendsTo, TakesAway};
ghost use Rattle.uxn_io.specs.InMemory.Places.{node_of, nodes_of};
ghost use Rattle.uxn_io.specs.declared.memory.trees.TreeCall.{TreeCall};
ghost use Rattle.uxn_io.specs.InMemory.Trees.{
  no_calls,
  none_refused,
  call_number,
  with_call,
  state_of,
  same_call,
  is_listed,
  is_listed_later,
  answer_of,
  after,
  after_create,
  read_count,
  read_into,
  lacks_place,
  fitting,
  lacks_room,
  appended,
  removed,
  fits,
  is_sound,
  can_hold,
};

use super::places::{Places, has_parent};
use std::alloc::{AllocError, Global};
use std::marker::Model;
use uxn_io_traits::{Bytes, Entry, Failed, Kind, NamesStop, Path, RefusedFiles, Tree};

/// The calls of a tree.
#[derive(Clone, Copy)]
pub enum TreeCall {
    /// `Tree::kind`.
    Kind,
    /// `Tree::read`.
    Read,
    /// `Tree::create`.
    Create,
    /// `Tree::append`.
    Append,
    /// `Tree::remove`.
    Remove,
    /// `Tree::names`.
    Names,
}

/// A file with its bytes, or a folder, whose bytes are empty.
#[derive(Drop)]
pub struct Node {
    /// Whether it is a folder.
    pub folder: bool,
    /// The bytes of a file.
    pub bytes: Bytes,
}

/// How many calls of each variant there were.
#[derive(Drop)]
struct Calls {
    kind: u64,
    read: u64,
    create: u64,
    append: u64,
    remove: u64,
    names: u64,
}

impl Model for Calls {
    ghost use Rattle.uxn_io.specs.InMemory.Trees.{Calls};

    ghost Value = { Calls };

    ghost view = { λ c. record { kind = c.kind; read = c.read; create = c.create; append = c.append; remove = c.remove; names = c.names } };
}

impl Calls {
    /// No calls so far.
    fn new() -> Calls
        ensures { result ≡ no_calls }
    {
        Calls {
            kind: 0,
            read: 0,
            create: 0,
            append: 0,
            remove: 0,
            names: 0,
        }
    }

    /// The number of the next call of a variant, from 0.
    fn call_number(&self, call: TreeCall) -> u64
        ensures { result ≡ call_number call self.now }
    {
        match call {
            TreeCall::Kind => self.kind,
            TreeCall::Read => self.read,
            TreeCall::Create => self.create,
            TreeCall::Append => self.append,
            TreeCall::Remove => self.remove,
            TreeCall::Names => self.names,
        }
    }

    /// Counts a call.
    fn count(&mut self, call: TreeCall)
        ensures after { self.new ≡ with_call call self.old }
        ensures later { (other : TreeCall) → call_number other self.old ≤ call_number other self.new }
    {
        match call {
            TreeCall::Kind => add_one(&mut self.kind),
            TreeCall::Read => add_one(&mut self.read),
            TreeCall::Create => add_one(&mut self.create),
            TreeCall::Append => add_one(&mut self.append),
            TreeCall::Remove => add_one(&mut self.remove),
            TreeCall::Names => add_one(&mut self.names),
        }
    }
}

/// Counts one more.
fn add_one(count: &mut u64)
    ensures after { count.new ≡ one_more count.old }
    ensures later { count.old ≤ count.new }
{
    *count = count.saturating_add(1);
}

/// A tree that is kept in memory.
#[derive(Drop)]
pub struct MemTree {
    held: Places,
    fails: Vec<(TreeCall, u32)>,
    calls: Calls,
    faults: u64,
    refused: RefusedFiles,
}

impl Model for MemTree {
    ghost use Rattle.uxn_io.specs.InMemory.Trees.{TreeInMemory, tree_code};

    ghost Value = { TreeInMemory };

    ghost coded = { tree_code };

    ghost view = { λ t. record { held = t.held; fails = t.fails.items; calls = t.calls; faults = t.faults; refused = t.refused } };
}

impl MemTree {
    /// A tree of these nodes, with places for so many more files and room for so many bytes in each file.
    /// The calls with a listed variant and number, from 0, fail. It takes all its memory now, and its
    /// further calls none, but for the list that `names` gives. Errors when out of memory.
    pub fn new(
        alloc: Global,
        nodes: &[(Path, Node)],
        more: usize,
        room: usize,
        fails: &[(TreeCall, u32)],
    ) -> Result<MemTree, AllocError>
        requires { IsTrue (can_hold nodes.now room) }
        ensures { IfOk result (λ tree. tree ≡ record {
          held = record { nodes = nodes_of nodes.now; free = more; room = room };
          fails = fails.now;
          calls = no_calls;
          faults = 0;
          refused = none_refused;
        }) }
    {
        Ok(MemTree {
            held: Places::new(alloc, nodes, more, room)?,
            fails: Vec::from_slice(alloc, fails)?,
            calls: Calls::new(),
            faults: 0,
            refused: RefusedFiles::new(),
        })
    }

    /// Whether a tree can hold these nodes with this room: each path stands once, its parent is there as a
    /// folder, no file has more bytes than the room, and a folder has none.
    pub fn can_hold(nodes: &[(Path, Node)], room: usize) -> bool
        ensures { result ≡ can_hold nodes.now room }
    {
        nodes.iter().all(|entry| is_sound(nodes, room, entry))
    }

    /// The node at a path.
    pub fn node(&self, path: &Path) -> Option<&Node>
        ensures { option_map node_of (option_copied result) ≡ map.get self.now.held.nodes path.now }
    {
        self.held.node(path)
    }

    /// Counts a call, and a fault where something is lacking for it or it is listed. Whether it fails.
    fn begin(&mut self, call: TreeCall, lacking: bool) -> bool
        ensures fails { result ≡ (lacking || is_listed self.old call) }
        ensures after { self.new ≡ after call self.old lacking self.old.held }
        ensures held { self.new.held ≡ self.old.held }
        ensures counted { Counted (state_of self.old).tally (state_of self.new).tally result }
        ensures guaranteed { is_listed_later self.old ≡ false → result ≡ lacking }
        ensures later { is_listed_later self.old ≡ false → is_listed_later self.new ≡ false }
    {
        let listed = is_listed(&self.fails, call, self.calls.call_number(call));
        let fails = lacking || listed;
        self.calls.count(call);
        if fails {
            add_one(&mut self.faults);
        }
        fails
    }
}

/// A call fails exactly where its variant and number are listed, where `create` would make a file that is
/// not there and no place is free, and where `append` has a piece that is not empty and the file has no
/// room. It then changes nothing.
impl Tree for MemTree {
    ghost state = { state_of };

    /// Tells what is there.
    fn kind(&mut self, path: &Path) -> Result<Kind, Failed>
        ensures answer { IfOk result (λ kind. IfSome (state_of self.old).contents (λ nodes. kind ≡ kind_at nodes path.now)) }
        ensures shape { OnOk result (IfSome (state_of self.old).contents IsTree) }
        ensures looked { TreeLooked (is_err result) (state_of self.old) (state_of self.new) }
        ensures requests { Receives (LooksAt path.now ∷ []) (state_of self.old).requests (state_of self.new).requests }

        ensures exact { result ≡ answer_of TreeCall.Kind self.old false (kind_at self.old.held.nodes path.now) }
        ensures after { self.new ≡ after TreeCall.Kind self.old false self.old.held }
    {
        if self.begin(TreeCall::Kind, false) {
            return Err(Failed);
        }
        Ok(self.held.kind(path))
    }

    /// Puts as many bytes as there are and fit.
    fn read(&mut self, path: &Path, from: u64, into: &mut [u8]) -> Result<usize, Failed>
        ensures count { IfOk result (λ n. n ≤ length into.old) }
        ensures rest { IfOk result (λ n. drop n into.new ≡ drop n into.old) }
        ensures answer { IfOk result (λ n. IfSome (state_of self.old).contents
            (λ nodes. GivesBytes (file_bytes_from nodes path.now from) into.old into.new n)) }
        ensures looked { TreeLooked (is_err result) (state_of self.old) (state_of self.new) }
        ensures requests { Receives (begins_reading path.now from) (state_of self.old).requests (state_of self.new).requests }

        ensures exact { result ≡ answer_of TreeCall.Read self.old false (read_count self.old.held.nodes path.now from into.old) }
        ensures into { into.new ≡ (if is_listed self.old TreeCall.Read then into.old else read_into self.old.held.nodes path.now from into.old) }
        ensures after { self.new ≡ after TreeCall.Read self.old false self.old.held }
    {
        if self.begin(TreeCall::Read, false) {
            return Err(Failed);
        }
        Ok(copy_from(self.held.bytes(path), from, into))
    }

    /// Makes an empty file, in a free place where nothing was.
    fn create(&mut self, path: &Path) -> Result<bool, Failed>
        ensures answer { IfOk result (λ made. IfSome (state_of self.old).contents (λ nodes. made ≡ can_create nodes path.now)) }
        ensures ended { TreeEnded (creating (state_of self.old).contents path.now) (is_err result) (state_of self.old) (state_of self.new) }
        ensures refused { Refused (refused_file path.now result) (state_of self.old) (state_of self.new) }
        ensures requests { Receives (Makes path.now ∷ []) (state_of self.old).requests (state_of self.new).requests }

        ensures exact { result ≡ answer_of TreeCall.Create self.old (lacks_place self.old.held path.now) (can_create self.old.held.nodes path.now) }
        ensures after { self.new ≡ after_create self.old path.now }
    {
        let lacking = self.held.lacks_place(path);
        if self.begin(TreeCall::Create, lacking) {
            return Err(Failed);
        }
        let made = self.held.create(path);
        if !made {
            self.refused.add(path);
        }
        Ok(made)
    }

    /// Takes as much of the piece as the room has.
    fn append(&mut self, path: &Path, piece: &[u8]) -> Result<usize, Failed>
        requires { IfSome (state_of self.old).contents (λ nodes. IsSome (file_at nodes path.now)) }
        ensures count { IfOk result (λ n. n ≤ length piece.now) }
        ensures some { IfOk result (λ n. 0 < length piece.now → 0 < n) }
        ensures ended { TreeEnded (appending path.now (portion result piece.now)) (is_err result) (state_of self.old) (state_of self.new) }
        ensures refused { Refused None (state_of self.old) (state_of self.new) }
        ensures requests { Receives (AppendsTo path.now ∷ []) (state_of self.old).requests (state_of self.new).requests }

        ensures exact { result ≡ answer_of TreeCall.Append self.old (lacks_room self.old.held path.now piece.now)
            (fitting self.old.held path.now piece.now) }
        ensures after { self.new ≡ after TreeCall.Append self.old (lacks_room self.old.held path.now piece.now)
            (appended self.old.held path.now piece.now) }
    {
        let lacking = self.held.lacks_room(path, piece);
        if self.begin(TreeCall::Append, lacking) {
            return Err(Failed);
        }
        Ok(self.held.append(path, piece))
    }

    /// Takes a file away, and frees its place.
    fn remove(&mut self, path: &Path) -> Result<bool, Failed>
        ensures answer { IfOk result (λ gone. IfSome (state_of self.old).contents (λ nodes. gone ≡ is_some (file_at nodes path.now))) }
        ensures ended { TreeEnded (removing (state_of self.old).contents path.now) (is_err result) (state_of self.old) (state_of self.new) }
        ensures refused { Refused None (state_of self.old) (state_of self.new) }
        ensures requests { Receives (TakesAway path.now ∷ []) (state_of self.old).requests (state_of self.new).requests }

        ensures exact { result ≡ answer_of TreeCall.Remove self.old false (is_some (file_at self.old.held.nodes path.now)) }
        ensures after { self.new ≡ after TreeCall.Remove self.old false (removed self.old.held path.now) }
    {
        if self.begin(TreeCall::Remove, false) {
            return Err(Failed);
        }
        Ok(self.held.remove(path))
    }

    /// Lists the children. Running out of memory is no fault.
    fn names(&mut self, alloc: Global, folder: &Path) -> Result<Vec<Entry>, NamesStop>
        requires { IfSome (state_of self.old).contents (λ nodes. IsTrue (is_folder (map.get nodes folder.now))) }
        ensures answer { IfOk result (λ entries. IfSome (state_of self.old).contents (λ nodes. entries.items ≡ children nodes folder.now)) }
        ensures looked { TreeLooked (names_failed result) (state_of self.old) (state_of self.new) }
        ensures entries { IfOk result (λ entries. All IsEntry entries.items) }
        ensures requests { Receives (Lists folder.now ∷ []) (state_of self.old).requests (state_of self.new).requests }

        ensures fails { names_failed result ≡ is_listed self.old TreeCall.Names }
        ensures after { self.new ≡ after TreeCall.Names self.old false self.old.held }
    {
        if self.begin(TreeCall::Names, false) {
            return Err(NamesStop::Failed);
        }
        self.held
            .children(alloc, folder)
            .map_err(|_| NamesStop::NoMemory)
    }
}

/// Puts as many bytes from a place on as there are and fit at the start of the buffer, and says how many.
fn copy_from(bytes: &[u8], from: u64, into: &mut [u8]) -> usize
    ensures count { result ≡ min (length into.old) (length (drop from bytes.now)) }
    ensures into { into.new ≡ take result (drop from bytes.now) ++ drop result into.old }
{
    let start = from as usize;
    if start >= bytes.len() {
        return 0;
    }
    let rest = &bytes[start..];
    let count = into.len().min(rest.len());
    into[..count].copy_from_slice(&rest[..count]);
    count
}

/// Whether the call of this variant and number is among those that fail.
fn is_listed(fails: &[(TreeCall, u32)], call: TreeCall, number: u64) -> bool
    ensures { result ≡ list_any (λ e. same_call e.0 call && e.1 == number) fails.now }
{
    fails.iter().any(|(listed, n)| is_same_call(*listed, call) && u64::from(*n) == number)
}

/// Whether two calls are of one variant.
fn is_same_call(listed: TreeCall, call: TreeCall) -> bool
    ensures { result ≡ same_call listed call }
{
    match listed {
        TreeCall::Kind => matches!(call, TreeCall::Kind),
        TreeCall::Read => matches!(call, TreeCall::Read),
        TreeCall::Create => matches!(call, TreeCall::Create),
        TreeCall::Append => matches!(call, TreeCall::Append),
        TreeCall::Remove => matches!(call, TreeCall::Remove),
        TreeCall::Names => matches!(call, TreeCall::Names),
    }
}

/// Whether the entry's path stands once, its parent is there as a folder, and its node fits.
fn is_sound(nodes: &[(Path, Node)], room: usize, entry: &(Path, Node)) -> bool
    ensures { result ≡ is_sound nodes.now room entry.now }
{
    stands_once(nodes, &entry.0) && has_parent(nodes, &entry.0) && fits(room, &entry.1)
}

/// Whether one entry has the path.
fn stands_once(nodes: &[(Path, Node)], path: &Path) -> bool
    ensures { result ≡ (count_by (λ e. bytes_eq e.0 path.now) nodes.now == 1) }
{
    nodes.iter().filter(|entry| is_at(entry, path)).count() == 1
}

/// Whether the entry has the path.
fn is_at(entry: &(Path, Node), path: &Path) -> bool
    ensures { result ≡ bytes_eq entry.now.0 path.now }
{
    entry.0.bytes() == path.bytes()
}

/// Whether a file has no more bytes than the room, and a folder none.
fn fits(room: usize, node: &Node) -> bool
    ensures { result ≡ fits room node.now }
{
    let count = node.bytes.as_slice().len();
    if node.folder {
        count == 0
    } else {
        count <= room
    }
}
