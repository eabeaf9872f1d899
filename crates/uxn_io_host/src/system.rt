//! The system's calls on files beneath the current folder, counted where they fail.
ghost use Rattle.std.specs.Prelude.{◌≡◌, ◌↔◌, ℕ, Option, pos, IfOk, IfSome, IsOk, IsSome, IsTrue, OnOk};
ghost use Rattle.std.specs.Option.{option_map};
ghost use Rattle.uxn_io_traits.specs.Files.{Nodes, kind_at, file_at};
ghost use Rattle.uxn_io_traits.specs.Changes.{can_create, with_created, with_removed};
ghost use Rattle.uxn_io_host.specs.Calls.{faults_after, Answers};
ghost use Rattle.uxn_io_host.specs.Kinds.{IsKindOf, IsKindFound, TellsNothing};
ghost use Rattle.uxn_io_host.specs.Opened.{options_of};

use super::opened::Way;
use std::fs::{self, File, Metadata, OpenOptions};
use std::io::{self, ErrorKind};
use std::rt::Files;
use std::str;
use uxn_io_traits::{Failed, Kind, Path};

/// Calls of a system that has files. Each counts one fault where it fails, and none else. A system may
/// tell its files; then it tells what each call finds and changes. None of these calls looks first.
pub(crate) trait System {
    type File: Drop;

    /// The files, where they are known.
    ghost contents: { Self → Option Nodes };

    /// The faults so far.
    ghost faults: { Self → ℕ };

    /// What is at a path.
    fn kind(&mut self, path: &Path) -> Result<Kind, Failed>
        ensures answer { IfOk result (λ kind. IfSome (contents self.old) (λ nodes. kind ≡ kind_at nodes path.now)) }
        ensures same { contents self.new ≡ contents self.old }
        ensures counted { faults self.new ≡ faults_after result (faults self.old) };

    /// Makes the path an empty file, which can be created, and opens it.
    fn make(&mut self, path: &Path) -> Result<Self::File, Failed>
        requires { IfSome (contents self.old) (λ nodes. IsTrue (can_create nodes path.now)) }
        ensures made { OnOk result (contents self.new ≡ option_map (with_created path.now) (contents self.old)) }
        ensures counted { faults self.new ≡ faults_after result (faults self.old) };

    /// Takes the file at a path away, which is there.
    fn delete(&mut self, path: &Path) -> Result<(), Failed>
        requires { IfSome (contents self.old) (λ nodes. IsSome (file_at nodes path.now)) }
        ensures gone { OnOk result (contents self.new ≡ option_map (with_removed path.now) (contents self.old)) }
        ensures counted { faults self.new ≡ faults_after result (faults self.old) };

    /// Opens the file at a path for this.
    fn open(&mut self, path: &Path, way: Way) -> Result<Self::File, Failed>
        ensures same { contents self.new ≡ contents self.old }
        ensures counted { faults self.new ≡ faults_after result (faults self.old) };

    /// Closes a file. The system may tell only now that it could not keep what was written.
    fn close(&mut self, file: Self::File) -> Result<(), Failed>
        ensures same { contents self.new ≡ contents self.old }
        ensures counted { faults self.new ≡ faults_after result (faults self.old) };
}

/// The files of the process. Their contents are unknown.
#[derive(Drop)]
pub(crate) struct ProcessFiles<'a, R: Files> {
    pub(crate) rt: &'a R,
    pub(crate) faults: u64,
}

/// The text of a path.
#[tactic(auto, using(crate::proofs::PathTexts::path_is_utf8))]
pub(crate) fn text(path: &Path) -> &str {
    str::from_utf8(path.bytes()).unwrap()
}

impl<'a, R: Files> ProcessFiles<'a, R> {
    /// The files of the process, with no fault so far.
    pub(crate) fn new(rt: &'a R) -> ProcessFiles<'a, R>
        ensures { result.faults ≡ 0 }
    {
        ProcessFiles { rt, faults: 0 }
    }

    /// What the system answered, or one fault more.
    pub(crate) fn counted<T: Drop>(&mut self, answer: io::Result<T>) -> Result<T, Failed>
        ensures counted { self.new.faults ≡ faults_after result self.old.faults }
        ensures answer { Answers answer result }
    {
        match answer {
            Ok(value) => Ok(value),
            Err(_) => {
                self.faults = self.faults.saturating_add(1);
                Err(Failed)
            }
        }
    }
}

impl<R: Files> System for ProcessFiles<'_, R> {
    type File = R::File;

    ghost use Rattle.std.specs.Prelude.{None};

    ghost contents = { λ _. None };

    ghost faults = { λ files. files.faults };

    fn kind(&mut self, path: &Path) -> Result<Kind, Failed> {
        self.counted(kind_found(fs::metadata(self.rt, text(path))))
    }

    fn make(&mut self, path: &Path) -> Result<R::File, Failed> {
        self.counted(File::create(self.rt, text(path)))
    }

    fn delete(&mut self, path: &Path) -> Result<(), Failed> {
        self.counted(fs::remove_file(self.rt, text(path)))
    }

    fn open(&mut self, path: &Path, way: Way) -> Result<R::File, Failed> {
        self.counted(options(way).open(self.rt, text(path)))
    }

    /// What the system tells only as it closes a file is not to be had here.
    fn close(&mut self, file: R::File) -> Result<(), Failed> {
        drop(file);
        Ok(())
    }
}

/// How a file is opened for this.
fn options(way: Way) -> OpenOptions
    ensures { result ≡ options_of way }
{
    let mut options = OpenOptions::new();
    match way {
        Way::Reads => options.read(true),
        Way::Appends => options.append(true),
    };
    options
}

/// What is at a path, by what the system found there. A path through a file leads to nothing.
fn kind_found(found: io::Result<Metadata>) -> io::Result<Kind>
    ensures { IsKindFound found result }
{
    match found {
        Ok(metadata) => Ok(kind_of(&metadata)),
        Err(error) if tells_nothing(&error) => Ok(Kind::Missing),
        Err(error) => Err(error),
    }
}

/// A folder, a file, or neither, which is nothing.
fn kind_of(metadata: &Metadata) -> Kind
    ensures { IsKindOf metadata.now result }
{
    if metadata.is_dir() {
        Kind::Folder
    } else if metadata.is_file() {
        Kind::File(metadata.len())
    } else {
        Kind::Missing
    }
}

/// Whether the error tells that nothing is at a path.
fn tells_nothing(error: &io::Error) -> bool
    ensures { IsTrue result ↔ TellsNothing error.now }
{
    match error.kind() {
        ErrorKind::NotFound | ErrorKind::NotADirectory => true,
        _ => false,
    }
}
