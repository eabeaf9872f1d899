//! A file that stays open.
ghost use Rattle.std.specs.Prelude.{◌≡◌, ◌↔◌, ◌<◌, ◌≤◌, IfOk, IsTrue, length, take};
ghost use Rattle.std.specs.Io.KnownBytes.{Appends};
ghost use Rattle.uxn_io_host.specs.Opened.{IsFor};

use std::io::{self, ErrorKind, Read, Seek, SeekFrom, Write};
use uxn_io_traits::Path;

/// How many bytes are read at once.
pub(crate) const CHUNK: usize = 4096;

/// What a file was opened for.
#[derive(Clone, Copy, PartialEq, Eq)]
pub(crate) enum Way {
    Reads,
    Appends,
}

/// A file that was opened, and where.
#[derive(Drop)]
pub(crate) struct OpenedFile<F: Drop> {
    path: Path,
    way: Way,
    file: F,
    /// Where the next byte is read, in a file that is read.
    place: u64,
}

impl<F: Drop> OpenedFile<F> {
    /// The file at this path, which was opened for this just now.
    pub(crate) fn new(path: &Path, way: Way, file: F) -> OpenedFile<F>
        ensures for_it { IsFor path.now way result }
        ensures file { result.file ≡ file }
        ensures place { result.place ≡ 0 }
    {
        OpenedFile {
            path: *path,
            way,
            file,
            place: 0,
        }
    }

    /// The file itself.
    pub(crate) fn into_file(self) -> F
        ensures { result ≡ self.file }
    {
        self.file
    }

    /// Whether it is the file at this path.
    pub(crate) fn is_at(&self, path: &Path) -> bool
        ensures { IsTrue result ↔ self.now.path ≡ path.now }
    {
        self.path.bytes() == path.bytes()
    }

    /// Whether it is the file at this path, opened for this.
    pub(crate) fn is_for(&self, path: &Path, way: Way) -> bool
        ensures { IsTrue result ↔ IsFor path.now way self.now }
    {
        self.is_at(path) && self.way == way
    }
}

impl<F: Read + Write + Seek + Drop> OpenedFile<F> {
    /// Some bytes of the file, from a place on: how many there are in the chunk.
    pub(crate) fn read(&mut self, from: u64, chunk: &mut [u8; CHUNK]) -> io::Result<usize>
        ensures count { IfOk result (λ taken. taken ≤ 4096) }
        ensures path { self.new.path ≡ self.old.path }
        ensures way { self.new.way ≡ self.old.way }
    {
        if self.place != from {
            self.file.seek(SeekFrom::Start(from))?;
        }
        let taken = self.file.read(chunk)?;
        self.place = from.saturating_add(taken as u64);
        Ok(taken)
    }

    /// Writes some bytes of the piece after those of the file: how many. Exactly these are written.
    pub(crate) fn append(&mut self, piece: &[u8]) -> io::Result<usize>
        ensures count { IfOk result (λ taken. taken ≤ length piece.now) }
        ensures some { IfOk result (λ taken. 0 < length piece.now → 0 < taken) }
        ensures bytes { IfOk result (λ taken. Appends (F.contents self.old.file) (F.contents self.new.file) (take taken piece.now)) }
        ensures path { self.new.path ≡ self.old.path }
        ensures way { self.new.way ≡ self.old.way }
    {
        let taken = self.file.write(piece)?;
        if taken == 0 && !piece.is_empty() {
            return Err(io::Error::from(ErrorKind::WriteZero));
        }
        Ok(taken)
    }
}
