//! The files beneath the current folder as a tree.
ghost use Rattle.std.specs.Prelude.{◌≡◌, ◌<◌, ◌≤◌, None, IfOk, IfSome, OnErr, OnOk, is_err, length, drop, take, min};
ghost use Rattle.std.specs.List.{All};
ghost use Rattle.std.specs.List.Sorted.{IsSortedBy};
ghost use Rattle.uxn_io_traits.specs.Children.{IsEntry};
ghost use Rattle.uxn_io_traits.specs.Ended.{TreeLooked};
ghost use Rattle.uxn_io_traits.specs.Unknown.{unknown_tree};
ghost use Rattle.uxn_io_host.specs.Calls.{faults_after, faults_listed, Answers};
ghost use Rattle.uxn_io_host.specs.Folders.{folder_state, none_refused};
ghost use Rattle.uxn_io_host.specs.Listing.{is_before};
ghost use Rattle.uxn_io_host.specs.Opened.{IsFor, IsSameOpen, Appended};
ghost use Rattle.uxn_io_host.specs.declared.opened.Way.TheVariants as ways;

use super::disk::{create_file, open_file, remove_file};
use super::listing::list;
use super::opened::{CHUNK, OpenedFile, Way};
use super::system::{ProcessFiles, System};
use std::alloc::Global;
use std::io::{self, ErrorKind, Read, Seek, Write};
use std::rt::Files;
use uxn_io_traits::{Entry, Failed, Kind, NamesStop, Path, RefusedFiles, Tree};

/// The current folder of the process. As a tree its contents are unknown. It promises nothing, but
/// that it counts exactly the calls that failed and the files that it refused to create, and names the
/// last of these. The file that was last read from or appended to stays open: a call of the same kind at
/// the same path goes on with it, and each other call closes it first. Nothing is held back in a buffer.
#[derive(Drop)]
pub struct CurrentFolder<'a, R: Files> {
    system: ProcessFiles<'a, R>,
    refused: RefusedFiles,
    opened: Option<OpenedFile<R::File>>,
}

impl<'a, R: Files> CurrentFolder<'a, R> {
    /// The current folder, with no fault and no refused file so far.
    pub fn new(rt: &'a R) -> CurrentFolder<'a, R>
        ensures { folder_state result ≡ unknown_tree 0 none_refused }
    {
        CurrentFolder {
            system: ProcessFiles::new(rt),
            refused: RefusedFiles::new(),
            opened: None,
        }
    }
}

impl<R: Files> CurrentFolder<'_, R> {
    /// Closes the file that is open, if one is. The system may tell only now that it could not keep what
    /// was written, and then this is a fault. So it is called at the end, too.
    pub fn close(&mut self) -> Result<(), Failed>
        ensures { TreeLooked (is_err result) (folder_state self.old) (folder_state self.new) }
    {
        self.let_go()
    }

    /// Closes the file that is open, if one is.
    fn let_go(&mut self) -> Result<(), Failed>
        ensures counted { self.new.system.faults ≡ faults_after result self.old.system.faults }
        ensures refused { self.new.refused ≡ self.old.refused }
        ensures none { self.new.opened ≡ None }
    {
        match self.opened.take() {
            Some(opened) => self.system.close(opened.into_file()),
            None => Ok(()),
        }
    }

    /// Closes the open file, unless it is the one at this path.
    fn keep_only(&mut self, path: &Path) -> Result<(), Failed>
        ensures counted { self.new.system.faults ≡ faults_after result self.old.system.faults }
        ensures refused { self.new.refused ≡ self.old.refused }
    {
        match &self.opened {
            Some(opened) if opened.is_at(path) => Ok(()),
            _ => self.let_go(),
        }
    }

    /// What the system answered for the open file. After a fault none is open.
    fn settle<T: Drop>(&mut self, answer: io::Result<T>) -> Result<T, Failed>
        ensures counted { self.new.system.faults ≡ faults_after result self.old.system.faults }
        ensures refused { self.new.refused ≡ self.old.refused }
        ensures answer { Answers answer result }
        ensures open { OnOk result (self.new.opened ≡ self.old.opened) }
        ensures none { OnErr result (self.new.opened ≡ None) }
    {
        match self.system.counted(answer) {
            Ok(value) => Ok(value),
            Err(fault) => {
                self.opened = None;
                Err(fault)
            }
        }
    }

    /// Closes any other file, and opens the file at a path for this, if one is there and it is not open already.
    fn open(&mut self, path: &Path, way: Way) -> Result<(), Failed>
        ensures counted { self.new.system.faults ≡ faults_after result self.old.system.faults }
        ensures refused { self.new.refused ≡ self.old.refused }
        ensures open { OnOk result (IfSome self.new.opened (IsFor path.now way)) }
        ensures none { OnErr result (self.new.opened ≡ None) }
    {
        match &self.opened {
            Some(opened) if opened.is_for(path, way) => return Ok(()),
            _ => self.let_go()?,
        }
        self.opened = open_file(&mut self.system, path, way)?;
        Ok(())
    }

    /// What is at a path.
    fn look(&mut self, path: &Path) -> Result<Kind, Failed>
        ensures counted { self.new.system.faults ≡ faults_after result self.old.system.faults }
        ensures refused { self.new.refused ≡ self.old.refused }
    {
        self.keep_only(path)?;
        self.system.kind(path)
    }

    /// Makes the path an empty file, and says whether it did.
    fn make(&mut self, path: &Path) -> Result<bool, Failed>
        ensures counted { self.new.system.faults ≡ faults_after result self.old.system.faults }
        ensures refused { self.new.refused ≡ self.old.refused }
    {
        self.let_go()?;
        create_file(&mut self.system, path)
    }

    /// Takes the file at a path away, and says whether one was there.
    fn take_away(&mut self, path: &Path) -> Result<bool, Failed>
        ensures counted { self.new.system.faults ≡ faults_after result self.old.system.faults }
        ensures refused { self.new.refused ≡ self.old.refused }
    {
        self.let_go()?;
        remove_file(&mut self.system, path)
    }

    /// Some bytes of the file at a path, from a place on: how many there are in the chunk. None where no file is there.
    fn read_chunk(
        &mut self,
        path: &Path,
        from: u64,
        chunk: &mut [u8; CHUNK],
    ) -> Result<usize, Failed>
        ensures count { IfOk result (λ taken. taken ≤ 4096) }
        ensures counted { self.new.system.faults ≡ faults_after result self.old.system.faults }
        ensures refused { self.new.refused ≡ self.old.refused }
        ensures open { OnOk result (IfSome self.new.opened (IsFor path.now ways.Reads)) }
    {
        self.open(path, Way::Reads)?;
        let taken = read_from(&mut self.opened, from, chunk);
        self.settle(taken)
    }

    /// Writes some bytes of the piece after those of the file at a path: how many.
    fn append_some(&mut self, path: &Path, piece: &[u8]) -> Result<usize, Failed>
        ensures count { IfOk result (λ taken. taken ≤ length piece.now) }
        ensures some { IfOk result (λ taken. 0 < length piece.now → 0 < taken) }
        ensures counted { self.new.system.faults ≡ faults_after result self.old.system.faults }
        ensures refused { self.new.refused ≡ self.old.refused }
        ensures open { OnOk result (IfSome self.new.opened (IsFor path.now ways.Appends)) }
    {
        self.open(path, Way::Appends)?;
        let taken = append_to(&mut self.opened, piece);
        self.settle(taken)
    }
}

/// Some bytes of the open file. None where no file is open.
fn read_from<F: Read + Write + Seek + Drop>(
    opened: &mut Option<OpenedFile<F>>,
    from: u64,
    chunk: &mut [u8; CHUNK],
) -> io::Result<usize>
    ensures count { IfOk result (λ taken. taken ≤ 4096) }
    ensures same { IsSameOpen opened.old opened.new }
{
    match opened {
        Some(opened) => opened.read(from, chunk),
        None => Ok(0),
    }
}

/// Writes some bytes of the piece to the open file: how many. Exactly these are written.
fn append_to<F: Read + Write + Seek + Drop>(
    opened: &mut Option<OpenedFile<F>>,
    piece: &[u8],
) -> io::Result<usize>
    ensures count { IfOk result (λ taken. taken ≤ length piece.now) }
    ensures some { IfOk result (λ taken. 0 < length piece.now → 0 < taken) }
    ensures bytes { IfOk result (λ taken. Appended F.contents opened.old opened.new (take taken piece.now)) }
    ensures same { IsSameOpen opened.old opened.new }
{
    match opened {
        Some(opened) => opened.append(piece),
        None => Err(io::Error::from(ErrorKind::NotFound)),
    }
}

/// Puts bytes at the start of `into`, as many as it has room for, and says how many.
fn copy_prefix(bytes: &[u8], into: &mut [u8]) -> usize
    ensures count { result ≡ min (length bytes.now) (length into.old) }
    ensures prefix { take result into.new ≡ take result bytes.now }
    ensures rest { drop result into.new ≡ drop result into.old }
{
    let taken = bytes.len().min(into.len());
    into[..taken].copy_from_slice(&bytes[..taken]);
    taken
}

impl<R: Files + AllocGlobal + Clone + Drop> CurrentFolder<'_, R> {
    /// The entries of a folder, in byte order of their names.
    fn listed(&mut self, alloc: Global, folder: &Path) -> Result<Vec<Entry>, NamesStop>
        ensures entries { IfOk result (λ entries. All IsEntry entries.items) }
        ensures order { IfOk result (λ entries. IsSortedBy is_before entries.items) }
        ensures counted { self.new.system.faults ≡ faults_listed result self.old.system.faults }
        ensures refused { self.new.refused ≡ self.old.refused }
    {
        match self.let_go() {
            Ok(()) => list(&mut self.system, alloc, folder),
            Err(Failed) => Err(NamesStop::Failed),
        }
    }
}

impl<R: Files + AllocGlobal + Clone + Drop> Tree for CurrentFolder<'_, R> {
    ghost use Rattle.uxn_io_host.specs.Folders.{folder_state};

    ghost state = { folder_state };

    fn kind(&mut self, path: &Path) -> Result<Kind, Failed> {
        self.look(path)
    }

    #[tactic(auto, using(crate::proofs::Counting::still_looked))]
    fn read(&mut self, path: &Path, from: u64, into: &mut [u8]) -> Result<usize, Failed> {
        let mut chunk = [0; CHUNK];
        let taken = self.read_chunk(path, from, &mut chunk)?;
        Ok(copy_prefix(&chunk[..taken], into))
    }

    #[tactic(auto, using(crate::proofs::Counting::still_ended))]
    fn create(&mut self, path: &Path) -> Result<bool, Failed> {
        let made = self.make(path)?;
        if !made {
            self.refused.add(path);
        }
        Ok(made)
    }

    fn append(&mut self, path: &Path, piece: &[u8]) -> Result<usize, Failed> {
        self.append_some(path, piece)
    }

    fn remove(&mut self, path: &Path) -> Result<bool, Failed> {
        self.take_away(path)
    }

    fn names(&mut self, alloc: Global, folder: &Path) -> Result<Vec<Entry>, NamesStop> {
        self.listed(alloc, folder)
    }
}
