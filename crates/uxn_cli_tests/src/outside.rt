//! A tree and outputs of unknown contents that count exactly, whose calls are numbered in one row. One of these calls fails.
ghost use Rattle.std.specs.Prelude.{◌≡◌, ◌<◌, ◌≤◌, length, drop, IfOk, is_err};
ghost use Rattle.std.specs.List.{All};
ghost use Rattle.uxn_io_traits.specs.Faults.{Counted};
ghost use Rattle.uxn_io_traits.specs.Unknown.{exactly};
ghost use Rattle.uxn_io_traits.specs.Children.{IsEntry};

use std::alloc::Global;
use std::cell::Cell;
use uxn_io::{Entry, Failed, Kind, MemTree, NamesStop, Path, RefusedFiles, Sink, Tree};

/// How the calls are answered.
#[derive(Clone, Copy)]
pub enum Way {
    /// The call that fails does nothing.
    Undone,
    /// The call that fails has done what it was asked, or appended the first half of its piece.
    Done,
    /// Each call takes half of its piece, if that is long, and the call that fails does nothing.
    Halves,
}

/// The row of calls: how many were made, and which one fails.
#[derive(Drop)]
pub struct Calls {
    made: Cell<u32>,
    failing: u32,
    way: Way,
}

/// A call: its number, and whether it fails, before it does anything or once it has done it.
#[derive(Clone, Copy)]
struct Turn {
    number: u32,
    fails: bool,
}

impl Calls {
    /// No calls so far. The one with this number, from 0, will fail.
    pub fn new(way: Way, failing: u32) -> Calls {
        Calls {
            made: Cell::new(0),
            failing,
            way,
        }
    }

    /// How many were made.
    pub fn made(&self) -> u32 {
        self.made.get()
    }

    /// The next call, unless it fails before it does anything.
    fn begin(&self) -> Result<Turn, Failed> {
        let number = self.made.get();
        self.made.set(number.saturating_add(1));
        let fails = number == self.failing;
        if fails && !matches!(self.way, Way::Done) {
            return Err(Failed);
        }
        Ok(Turn { number, fails })
    }

    /// How much of a piece a call takes.
    fn share(&self, length: usize) -> usize
        ensures most { result ≤ length }
        ensures some { 0 < length → 0 < result }
    {
        if length > 16 && matches!(self.way, Way::Halves) {
            length - length / 2
        } else {
            length
        }
    }
}

impl Turn {
    /// What the call answers once it has done it.
    fn end<T: Drop>(self, answer: T) -> Result<T, Failed>
        ensures { IfOk result (λ value. value ≡ answer) }
    {
        if self.fails { Err(Failed) } else { Ok(answer) }
    }
}

/// The changes that calls have made, byte by byte, each with the number of its call.
#[derive(Drop)]
pub struct Changes {
    bytes: Vec<(u32, u8)>,
    complete: bool,
}

impl Changes {
    /// No changes so far.
    fn new(alloc: Global) -> Changes {
        Changes {
            bytes: Vec::new(alloc),
            complete: true,
        }
    }

    /// Adds those of a call. When out of memory they are no longer complete.
    fn add(&mut self, number: u32, bytes: &[u8]) {
        for byte in bytes {
            if self.bytes.push((number, *byte)).is_err() {
                self.complete = false;
            }
        }
    }

    /// How many bytes the calls below a number have made.
    fn before(&self, number: u32) -> usize {
        self.bytes.iter().filter(|(at, _)| *at < number).count()
    }

    /// Whether these are the changes of a whole run up to one call: all before it, and a prefix of its own.
    pub fn are_cut(&self, whole: &Changes, at: u32) -> bool {
        let made = self.bytes.len();
        self.complete
            && whole.bytes.starts_with(&self.bytes)
            && made >= whole.before(at)
            && made <= whole.before(at.saturating_add(1))
    }

    /// Whether their bytes are just these.
    pub fn are(&self, bytes: &[u8]) -> bool {
        self.complete
            && self.bytes.len() == bytes.len()
            && self
                .bytes
                .iter()
                .zip(bytes.iter())
                .all(|((_, made), byte)| *made == *byte)
    }
}

/// An output of unknown contents.
#[derive(Drop)]
pub struct Output<'a> {
    calls: &'a Calls,
    /// What it has taken.
    pub taken: Changes,
    /// How many of its calls have failed.
    pub faults: u64,
}

impl Output<'_> {
    /// An output that has taken nothing.
    pub fn new(alloc: Global, calls: &Calls) -> Output<'_> {
        Output {
            calls,
            taken: Changes::new(alloc),
            faults: 0,
        }
    }

    /// Takes its share of a piece.
    fn take(calls: &Calls, taken: &mut Changes, piece: &[u8]) -> Result<usize, Failed>
        ensures count { IfOk result (λ n. n ≤ length piece.now) }
        ensures some { IfOk result (λ n. 0 < length piece.now → 0 < n) }
    {
        let turn = calls.begin()?;
        if turn.fails {
            return Err(Failed);
        }
        let share = calls.share(piece.len());
        taken.add(turn.number, &piece[..share]);
        Ok(share)
    }
}

impl Sink for Output<'_> {
    ghost use Rattle.uxn_io_traits.specs.Unknown.{unknown_sink};

    ghost state = { λ output. unknown_sink output.faults };

    #[tactic(auto, using(uxn_io_traits::specs::UnknownLaws::sink_took, uxn_io_traits::specs::UnknownLaws::sink_failed))]
    fn put(&mut self, piece: &[u8]) -> Result<usize, Failed> {
        match Output::take(self.calls, &mut self.taken, piece) {
            Ok(share) => Ok(share),
            Err(Failed) => {
                self.faults = self.faults.saturating_add(1);
                Err(Failed)
            }
        }
    }
}

/// Appends to a file.
#[tactic(auto, using(uxn_io_traits::specs::KindLaws::known_file))]
fn append<T: Tree>(tree: &mut T, path: &Path, piece: &[u8]) -> Result<usize, Failed>
    ensures count { IfOk result (λ n. n ≤ length piece.now) }
    ensures some { IfOk result (λ n. 0 < length piece.now → 0 < n) }
{
    match tree.kind(path)? {
        Kind::File(_) => tree.append(path, piece),
        Kind::Missing | Kind::Folder => Err(Failed),
    }
}

/// Lists a folder.
#[tactic(auto, using(uxn_io_traits::specs::KindLaws::known_folder))]
fn names<T: Tree>(alloc: Global, tree: &mut T, path: &Path) -> Result<Vec<Entry>, NamesStop>
    ensures { IfOk result (λ entries. All IsEntry entries.items) }
{
    match tree.kind(path) {
        Ok(Kind::Folder) => tree.names(alloc, path),
        _ => Err(NamesStop::Failed),
    }
}

/// Files in memory, with the row of calls, and the changes that were made.
#[derive(Drop)]
struct Held<'a> {
    calls: &'a Calls,
    tree: MemTree,
    unmade: &'a [u8],
    changes: Changes,
}

impl Held<'_> {
    fn kind(&mut self, path: &Path) -> Result<Kind, Failed> {
        let turn = self.calls.begin()?;
        let kind = self.tree.kind(path)?;
        turn.end(kind)
    }

    fn read(&mut self, path: &Path, from: u64, into: &mut [u8]) -> Result<usize, Failed>
        ensures count { IfOk result (λ n. n ≤ length into.old) }
        ensures rest { IfOk result (λ n. drop n into.new ≡ drop n into.old) }
    {
        let turn = self.calls.begin()?;
        let taken = self.tree.read(path, from, into)?;
        turn.end(taken)
    }

    fn create(&mut self, path: &Path) -> Result<bool, Failed> {
        let turn = self.calls.begin()?;
        let made = path.bytes() != self.unmade && self.tree.create(path)?;
        if made {
            self.note(turn, b"+", path);
        }
        turn.end(made)
    }

    fn append(&mut self, path: &Path, piece: &[u8]) -> Result<usize, Failed>
        ensures count { IfOk result (λ n. n ≤ length piece.now) }
        ensures some { IfOk result (λ n. 0 < length piece.now → 0 < n) }
    {
        let turn = self.calls.begin()?;
        if turn.fails {
            self.take(turn, path, &piece[..piece.len() / 2])?;
            return Err(Failed);
        }
        let share = self.calls.share(piece.len());
        self.take(turn, path, &piece[..share])
    }

    /// Appends a piece, and notes it.
    fn take(&mut self, turn: Turn, path: &Path, piece: &[u8]) -> Result<usize, Failed>
        ensures count { IfOk result (λ n. n ≤ length piece.now) }
        ensures some { IfOk result (λ n. 0 < length piece.now → 0 < n) }
    {
        let taken = append(&mut self.tree, path, piece)?;
        self.note(turn, b">", path);
        self.changes.add(turn.number, &piece[..taken]);
        Ok(taken)
    }

    fn remove(&mut self, path: &Path) -> Result<bool, Failed> {
        let turn = self.calls.begin()?;
        let gone = self.tree.remove(path)?;
        if gone {
            self.note(turn, b"-", path);
        }
        turn.end(gone)
    }

    fn names(&mut self, alloc: Global, folder: &Path) -> Result<Vec<Entry>, NamesStop>
        ensures { IfOk result (λ entries. All IsEntry entries.items) }
    {
        match self.calls.begin() {
            Ok(turn) if !turn.fails => names(alloc, &mut self.tree, folder),
            _ => Err(NamesStop::Failed),
        }
    }

    /// Notes a change at a path.
    fn note(&mut self, turn: Turn, sign: &[u8], path: &Path) {
        self.changes.add(turn.number, sign);
        self.changes.add(turn.number, path.bytes());
        self.changes.add(turn.number, b"\n");
    }
}

/// A tree of unknown contents.
#[derive(Drop)]
pub struct Files<'a> {
    held: Held<'a>,
    /// How many of its calls have failed.
    pub faults: u64,
    /// The files that it refused to create.
    pub refused: RefusedFiles,
}

impl<'a> Files<'a> {
    /// The tree of these files. It answers false where the path `unmade` is to be made.
    pub fn new(alloc: Global, calls: &'a Calls, tree: MemTree, unmade: &'a [u8]) -> Files<'a> {
        let changes = Changes::new(alloc);
        let held = Held {
            calls,
            tree,
            unmade,
            changes,
        };
        Files {
            held,
            faults: 0,
            refused: RefusedFiles::new(),
        }
    }

    /// The changes that were made: `+` and a path that was made, `-` and one that was taken away, and `>` and one to
    /// which the bytes of the next line were appended.
    pub fn changes(&self) -> &Changes {
        &self.held.changes
    }

    /// The files.
    pub fn tree(&self) -> &MemTree {
        &self.held.tree
    }

    /// What was done, or one fault more.
    #[tactic(auto, using(uxn_io_traits::specs::UnknownLaws::nothing_counted, uxn_io_traits::specs::UnknownLaws::fault_counted))]
    fn counted<T>(&mut self, done: Result<T, Failed>) -> Result<T, Failed>
        ensures counted { Counted (exactly self.old.faults) (exactly self.new.faults) (is_err result) }
        ensures refused { self.new.refused ≡ self.old.refused }
        ensures value { IfOk result (λ value. done ≡ Ok value) }
    {
        match done {
            Ok(value) => Ok(value),
            Err(Failed) => {
                self.faults = self.faults.saturating_add(1);
                Err(Failed)
            }
        }
    }
}

impl Tree for Files<'_> {
    ghost use Rattle.uxn_io_traits.specs.Unknown.{unknown_tree};

    ghost state = { λ files. unknown_tree files.faults files.refused };

    #[tactic(auto, using(uxn_io_traits::specs::UnknownLaws::looked))]
    fn kind(&mut self, path: &Path) -> Result<Kind, Failed> {
        let kind = self.held.kind(path);
        self.counted(kind)
    }

    #[tactic(auto, using(uxn_io_traits::specs::UnknownLaws::looked))]
    fn read(&mut self, path: &Path, from: u64, into: &mut [u8]) -> Result<usize, Failed> {
        let taken = self.held.read(path, from, into);
        self.counted(taken)
    }

    #[tactic(auto, using(uxn_io_traits::specs::UnknownLaws::ended))]
    fn create(&mut self, path: &Path) -> Result<bool, Failed> {
        let made = self.held.create(path);
        let made = self.counted(made)?;
        if !made {
            self.refused.add(path);
        }
        Ok(made)
    }

    #[tactic(auto, using(uxn_io_traits::specs::UnknownLaws::ended))]
    fn append(&mut self, path: &Path, piece: &[u8]) -> Result<usize, Failed> {
        let taken = self.held.append(path, piece);
        self.counted(taken)
    }

    #[tactic(auto, using(uxn_io_traits::specs::UnknownLaws::ended))]
    fn remove(&mut self, path: &Path) -> Result<bool, Failed> {
        let gone = self.held.remove(path);
        self.counted(gone)
    }

    #[tactic(auto, using(uxn_io_traits::specs::UnknownLaws::looked))]
    fn names(&mut self, alloc: Global, folder: &Path) -> Result<Vec<Entry>, NamesStop> {
        match self.held.names(alloc, folder) {
            Ok(entries) => Ok(entries),
            Err(NamesStop::NoMemory) => Err(NamesStop::NoMemory),
            Err(NamesStop::Failed) => {
                self.faults = self.faults.saturating_add(1);
                Err(NamesStop::Failed)
            }
        }
    }
}
