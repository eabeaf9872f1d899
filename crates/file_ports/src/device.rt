//! A file device.
ghost use Rattle.std.specs.Prelude.{◌≡◌, ℕ, ◌+◌, ◌≤◌, List, None, IfSome};
ghost use Rattle.std.specs.Option.{option_copied};
ghost use Rattle.uxn_io_traits.specs.Ended.{TreeEnded, TreeLooked, RefusedAtMost};
ghost use Rattle.file_ports.specs.Device.{idle_at, Suits};
ghost use Rattle.file_ports.specs.Names.{path_named};
ghost use Rattle.file_ports.specs.Actions.{Read, Write, Stat, Delete};
ghost use Rattle.file_ports.specs.AnswersAction.{changes_by, ActedOrStopped, has_failed};

use crate::mode::Mode;
use crate::names::path_named;
use crate::reading::{read_on, reading};
use crate::signs::put_signs;
use crate::span::Span;
use crate::stop::FileStop;
use crate::writing::add;
use std::alloc::Global;
use std::marker::Model;
use std::mem;
use uxn_io_traits::{Kind, Path, Tree};
use uxn_memory::Memory;

/// A file device: the path that was named, if there is one, and what it is doing.
#[derive(Drop)]
pub struct FileDevice {
    alloc: Global,
    path: Option<Path>,
    mode: Mode,
}

impl Model for FileDevice {
    ghost use Rattle.file_ports.specs.Device.{FileState};

    ghost Value = { FileState };

    ghost view = { λ d. record { path = d.path; mode = d.mode } };
}

impl FileDevice {
    /// A device without a path. It takes no memory.
    pub fn new(alloc: Global) -> FileDevice
        ensures { result ≡ idle_at None }
    {
        FileDevice {
            alloc,
            path: None,
            mode: Mode::Idle,
        }
    }

    /// Takes the name at an address: its path beneath the root, or none. The device does nothing then. The
    /// success is 0.
    pub fn name(&mut self, memory: &Memory, at: u16, root: Option<&Path>)
        ensures named { self.new ≡ idle_at (path_named (option_copied root.entry) memory.now at) }
        ensures suits { Suits (option_copied root.entry) self.new }
    {
        self.path = path_named(memory, at, root);
        self.mode = Mode::Idle;
    }

    /// Puts bytes of the file, or of the folder's listing, in memory, and answers how many. After a stop the
    /// device does nothing.
    pub fn read<T: Tree>(
        &mut self,
        tree: &mut T,
        memory: &mut Memory,
        at: u16,
        length: u16,
    ) -> Result<u16, FileStop>
        ensures tree { TreeLooked (has_failed result) (T.state tree.old) (T.state tree.new) }
        ensures acted { ActedOrStopped (Read at length) self.old memory.old (T.state tree.old).contents result self.new memory.new }
        ensures untouched { self.old.path ≡ None → tree.new ≡ tree.old }
    {
        match self.path {
            Some(path) => {
                let mode = mem::replace(&mut self.mode, Mode::Idle);
                let mode = reading(self.alloc, tree, &path, mode)?;
                let (count, mode) = read_on(tree, &path, mode, memory, Span::of(at, length))?;
                self.mode = mode;
                Ok(count)
            }
            None => Ok(0),
        }
    }

    /// Adds bytes of memory to the file, and answers how many: to one that is made empty first, unless the device is
    /// writing already, or is to keep a file that is there. After a stop the device does nothing.
    pub fn write<T: Tree>(
        &mut self,
        tree: &mut T,
        memory: &Memory,
        at: u16,
        length: u16,
        keep: bool,
    ) -> Result<u16, FileStop>
        ensures tree { TreeEnded (changes_by (Write at length keep) (T.state tree.old).contents self.old memory.now) (has_failed result)
            (T.state tree.old) (T.state tree.new) }
        ensures refused { IfSome self.old.path (λ path. RefusedAtMost path (T.state tree.old) (T.state tree.new)) }
        ensures acted { ActedOrStopped (Write at length keep) self.old memory.now (T.state tree.old).contents result self.new memory.now }
        ensures untouched { self.old.path ≡ None → tree.new ≡ tree.old }
    {
        match self.path {
            Some(path) => {
                let is_writing = self.mode.is_writing();
                self.mode = Mode::Idle;
                let span = Span::of(at, length);
                let piece = memory.slice(span.at, span.count);
                if !add(tree, &path, piece, is_writing, keep)? {
                    return Ok(0);
                }
                self.mode = Mode::Writing;
                Ok(piece.len() as u16)
            }
            None => Ok(0),
        }
    }

    /// Puts signs for what is there in memory, and answers their number, or 0 where nothing is there.
    pub fn stat<T: Tree>(
        &mut self,
        tree: &mut T,
        memory: &mut Memory,
        at: u16,
        length: u16,
    ) -> Result<u16, FileStop>
        ensures tree { TreeLooked (has_failed result) (T.state tree.old) (T.state tree.new) }
        ensures acted { ActedOrStopped (Stat at length) self.old memory.old (T.state tree.old).contents result self.new memory.new }
        ensures untouched { self.old.path ≡ None → tree.new ≡ tree.old }
        ensures device { self.new ≡ self.old }
    {
        let span = Span::of(at, length);
        let kind = match self.path {
            Some(path) => tree.kind(&path)?,
            None => Kind::Missing,
        };
        Ok(put_signs(memory, span, kind))
    }

    /// Takes the file away, and answers 1, or 0 where none is there. The device does nothing then.
    pub fn delete<T: Tree>(&mut self, tree: &mut T) -> Result<u16, FileStop>
        ensures tree { (memory : List ℕ) → TreeEnded (changes_by Delete (T.state tree.old).contents self.old memory) (has_failed result)
            (T.state tree.old) (T.state tree.new) }
        ensures acted { (memory : List ℕ) → ActedOrStopped Delete self.old memory (T.state tree.old).contents result self.new memory }
        ensures untouched { self.old.path ≡ None → tree.new ≡ tree.old }
    {
        match self.path {
            Some(path) => {
                self.mode = Mode::Idle;
                Ok(u16::from(tree.remove(&path)?))
            }
            None => Ok(0),
        }
    }
}
