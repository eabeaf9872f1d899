//! The entries of a folder.
ghost use Rattle.std.specs.Prelude.{◌≡◌, IfOk, IfSome, OnOk};
ghost use Rattle.std.specs.List.{All};
ghost use Rattle.std.specs.List.Sorted.{IsPermutation, IsSortedBy};
ghost use Rattle.uxn_io_traits.specs.Children.{IsEntry};
ghost use Rattle.uxn_io_host.specs.Calls.{faults_listed};
ghost use Rattle.uxn_io_host.specs.Listing.{IsStopFor, Lists, is_before};

use super::system::{ProcessFiles, System, text};
use std::alloc::{AllocError, Global};
use std::fs::{self, DirEntry};
use std::io::{self, ErrorKind};
use std::rt::Files;
use uxn_io_traits::{Entry, Failed, Kind, NamesStop, Path};

/// How many entries a folder that is listed has at most.
const MOST_ENTRIES: usize = 65_536;

/// Why a folder is not listed: this process has no memory left, or the system failed.
fn stop_for(error: &io::Error) -> NamesStop
    ensures { IsStopFor error.now result }
{
    match (error.kind(), error.raw_os_error()) {
        (ErrorKind::OutOfMemory, None) => NamesStop::NoMemory,
        _ => NamesStop::Failed,
    }
}

/// What the system answered of a folder. A fault is counted.
fn listed<R: Files, T: Drop>(
    files: &mut ProcessFiles<'_, R>,
    answer: io::Result<T>,
) -> Result<T, NamesStop>
    ensures counted { files.new.faults ≡ faults_listed result files.old.faults }
    ensures answer { Lists answer result }
{
    match answer {
        Ok(value) => Ok(value),
        Err(error) => match stop_for(&error) {
            NamesStop::NoMemory => Err(NamesStop::NoMemory),
            NamesStop::Failed => {
                files.faults = files.faults.saturating_add(1);
                Err(NamesStop::Failed)
            }
        },
    }
}

/// What is listed in a folder of what was found at a place: nothing, where the place is no path, or neither a file
/// nor a folder is there.
fn entry<R: Files>(
    files: &mut ProcessFiles<'_, R>,
    folder: &Path,
    place: &str,
) -> Result<Option<Entry>, NamesStop>
    ensures entry { IfOk result (λ entry. IfSome entry IsEntry) }
    ensures counted { files.new.faults ≡ faults_listed result files.old.faults }
{
    let Ok(path) = Path::read(place.as_bytes()) else {
        return Ok(None);
    };
    let Some(name) = path.name_in(folder) else {
        return Ok(None);
    };
    match files.kind(&path) {
        Ok(Kind::Missing) => Ok(None),
        Ok(kind) => Ok(Some(Entry { name, kind })),
        Err(Failed) => Err(NamesStop::Failed),
    }
}

/// The entry of what was found in a folder, if it is listed.
fn entry_found<R: Files + Drop>(
    files: &mut ProcessFiles<'_, R>,
    folder: &Path,
    found: io::Result<DirEntry<R>>,
) -> Result<Option<Entry>, NamesStop>
    ensures entry { IfOk result (λ entry. IfSome entry IsEntry) }
    ensures counted { files.new.faults ≡ faults_listed result files.old.faults }
{
    let found = listed(files, found)?;
    entry(files, folder, found.path().as_str())
}

/// The entries of a folder, in byte order of their names.
pub(crate) fn list<R: Files + AllocGlobal + Clone + Drop>(
    files: &mut ProcessFiles<'_, R>,
    alloc: Global,
    folder: &Path,
) -> Result<Vec<Entry>, NamesStop>
    ensures entries { IfOk result (λ entries. All IsEntry entries.items) }
    ensures order { IfOk result (λ entries. IsSortedBy is_before entries.items) }
    ensures counted { files.new.faults ≡ faults_listed result files.old.faults }
{
    let mut entries = Vec::new(alloc);
    fill(files, &mut entries, folder)?;
    Ok(entries)
}

/// Adds the entries of a folder, and puts all in byte order of their names.
fn fill<R: Files + AllocGlobal + Clone + Drop>(
    files: &mut ProcessFiles<'_, R>,
    entries: &mut Vec<Entry>,
    folder: &Path,
) -> Result<(), NamesStop>
    requires { All IsEntry entries.old.items }
    ensures entries { All IsEntry entries.new.items }
    ensures order { OnOk result (IsSortedBy is_before entries.new.items) }
    ensures counted { files.new.faults ≡ faults_listed result files.old.faults }
{
    let rt = files.rt;
    let mut room = MOST_ENTRIES;
    let all = listed(files, fs::read_dir(rt, text(folder)))?;
    for found in all {
        if room == 0 {
            return listed(files, Err(io::Error::from(ErrorKind::FileTooLarge)));
        }
        room -= 1;
        if let Some(entry) = entry_found(files, folder, found)? {
            match entries.push(entry) {
                Ok(()) => {}
                Err(_) => return Err(NamesStop::NoMemory),
            }
        }
    }
    match sort(entries) {
        Ok(()) => Ok(()),
        Err(_) => Err(NamesStop::NoMemory),
    }
}

/// Puts the entries in byte order of their names.
fn sort(entries: &mut Vec<Entry>) -> Result<(), AllocError>
    requires { All IsEntry entries.old.items }
    ensures entries { All IsEntry entries.new.items }
    ensures same { IsPermutation entries.old.items entries.new.items }
    ensures order { OnOk result (IsSortedBy is_before entries.new.items) }
{
    entries.sort_by(|one, other| one.name.bytes().cmp(other.name.bytes()))
}
