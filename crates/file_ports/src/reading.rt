//! Reads: of a file, and of a folder's listing.
ghost use Rattle.std.specs.Prelude.{◌≡◌, ℕ, ◌+◌, ◌-◌, ◌^◌, ◌<◌, ◌≤◌, false, take, drop, IfOk, IfSome, OnErr, Err, is_err, min};
ghost use Rattle.std.specs.Option.{option_map};
ghost use Rattle.uxn_io_traits.specs.Files.{file_bytes_from, kind_at};
ghost use Rattle.uxn_io_traits.specs.Children.{children};
ghost use Rattle.uxn_io_traits.specs.Ended.{TreeLooked};
ghost use Rattle.file_ports.specs.Device.{is_reading};
ghost use Rattle.file_ports.specs.Listing.{folder_listing};
ghost use Rattle.file_ports.specs.Place.{last_place};
ghost use Rattle.file_ports.specs.Actions.{observed_file, looked, reading, given, moved};
ghost use Rattle.file_ports.specs.AnswersAction.{has_failed, GivesPiece, PutsPrefix};

use crate::listing::Listing;
use crate::mode::Mode;
use crate::span::Span;
use crate::stop::FileStop;
use std::alloc::Global;
use uxn_io_traits::{Failed, Kind, NamesStop, Path, Tree};
use uxn_memory::Memory;

/// How many bytes of a file are read at once.
const CHUNK: usize = 4096;

/// What a device does that looks at its path to read what is there.
fn look<T: Tree>(alloc: Global, tree: &mut T, path: &Path) -> Result<Mode, FileStop>
    ensures mode { IfOk result (λ mode. IfSome (T.state tree.old).contents (λ nodes. mode
        ≡ looked (kind_at nodes path.now) (children nodes path.now))) }
    ensures tree { TreeLooked (has_failed result) (T.state tree.old) (T.state tree.new) }
    ensures folder { result ≡ Err FileStop.NoMemory → IfSome (T.state tree.old).contents (λ nodes. kind_at nodes path.now ≡ Kind.Folder) }
{
    match tree.kind(path)? {
        Kind::Missing => Ok(Mode::Idle),
        Kind::File(_) => Ok(Mode::ReadingFile(0)),
        Kind::Folder => Ok(Mode::ReadingListing(0, list(alloc, tree, path)?)),
    }
}

/// The listing of a folder.
fn list<T: Tree>(alloc: Global, tree: &mut T, folder: &Path) -> Result<Listing, FileStop>
    requires { IfSome (T.state tree.old).contents (λ nodes. kind_at nodes folder.now ≡ Kind.Folder) }
    ensures listing { IfOk result (λ listing. IfSome (T.state tree.old).contents (λ nodes. listing ≡ folder_listing (children nodes folder.now))) }
    ensures tree { TreeLooked (has_failed result) (T.state tree.old) (T.state tree.new) }
{
    match tree.names(alloc, folder) {
        Ok(entries) => Ok(Listing::of(alloc, &entries)?),
        Err(NamesStop::Failed) => Err(FileStop::TreeFault),
        Err(NamesStop::NoMemory) => Err(FileStop::NoMemory),
    }
}

/// What a device reads: one that is not reading first looks at its path.
pub(crate) fn reading<T: Tree>(
    alloc: Global,
    tree: &mut T,
    path: &Path,
    mode: Mode,
) -> Result<Mode, FileStop>
    ensures mode { IfOk result (λ now. IfSome (T.state tree.old).contents (λ nodes. now ≡ reading mode (observed_file nodes path.now))) }
    ensures tree { TreeLooked (has_failed result) (T.state tree.old) (T.state tree.new) }
    ensures looks { result ≡ Err FileStop.NoMemory → is_reading mode ≡ false }
    ensures folder { result ≡ Err FileStop.NoMemory → IfSome (T.state tree.old).contents (λ nodes. kind_at nodes path.now ≡ Kind.Folder) }
{
    match mode {
        Mode::Idle | Mode::Writing => look(alloc, tree, path),
        Mode::ReadingFile(_) | Mode::ReadingListing(..) => Ok(mode),
    }
}

/// Puts bytes of what is read in memory, at most as many as a span has, and says how many and what the device does then.
pub(crate) fn read_on<T: Tree>(
    tree: &mut T,
    path: &Path,
    mode: Mode,
    memory: &mut Memory,
    span: Span,
) -> Result<(u16, Mode), Failed>
    ensures piece { IfOk result (λ read. IfSome (T.state tree.old).contents (λ nodes.
        GivesPiece (given mode (observed_file nodes path.now) span.count) memory.old span.at read.0 memory.new)) }
    ensures mode { IfOk result (λ read. read.1 ≡ moved mode read.0) }
    ensures stopped { OnErr result (PutsPrefix (option_map (λ nodes. given mode (observed_file nodes path.now) span.count) (T.state tree.old).contents)
        span.count memory.old span.at memory.new) }
    ensures tree { TreeLooked (is_err result) (T.state tree.old) (T.state tree.new) }
{
    match mode {
        Mode::Idle | Mode::Writing => Ok((0, mode)),
        Mode::ReadingFile(place) => {
            let taken = put_file(tree, path, place, memory, span.first(u64::MAX - place))?;
            Ok((taken, Mode::ReadingFile(place + u64::from(taken))))
        }
        Mode::ReadingListing(place, listing) => {
            let taken = put_rest(
                listing.as_slice(),
                place,
                memory,
                span.first(u64::MAX - place),
            );
            Ok((
                taken,
                Mode::ReadingListing(place + u64::from(taken), listing),
            ))
        }
    }
}

/// Puts bytes from a place on in a span of memory, or as many as are left, and says how many.
fn put_rest(bytes: &[u8], place: u64, memory: &mut Memory, span: Span) -> u16
    ensures piece { GivesPiece (take span.count (drop place bytes.now)) memory.old span.at result memory.new }
    ensures within { result ≤ span.count }
{
    let start = bytes.len().min(place as usize);
    let rest = &bytes[start..];
    let taken = rest.len().min(usize::from(span.count));
    memory.put(span.at, &rest[..taken]);
    taken as u16
}

/// Puts bytes of a file from a place on in a span of memory, or as many as are left, and says how many.
fn put_file<T: Tree>(
    tree: &mut T,
    path: &Path,
    place: u64,
    memory: &mut Memory,
    span: Span,
) -> Result<u16, Failed>
    requires { place + span.count < 2 ^ 64 }
    ensures piece { IfOk result (λ n. IfSome (T.state tree.old).contents (λ nodes.
        GivesPiece (take span.count (file_bytes_from nodes path.now place)) memory.old span.at n memory.new)) }
    ensures within { IfOk result (λ n. n ≤ span.count) }
    ensures stopped { OnErr result (PutsPrefix (option_map (λ nodes. take span.count (file_bytes_from nodes path.now place)) (T.state tree.old).contents)
        span.count memory.old span.at memory.new) }
    ensures tree { TreeLooked (is_err result) (T.state tree.old) (T.state tree.new) }
{
    memory.known();
    let mut chunk = [0; CHUNK];
    let mut done = 0;
    while done < span.count {
        let wanted = CHUNK.min(usize::from(span.count - done));
        let taken = tree.read(path, place + u64::from(done), &mut chunk[..wanted])?;
        if taken == 0 {
            return Ok(done);
        }
        memory.put(span.at + done, &chunk[..taken]);
        done += taken as u16;
    }
    Ok(done)
}
