//! Creating, deleting and opening files.
ghost use Rattle.std.specs.Prelude.{◌≡◌, IfOk, IfSome, OnOk, Some, is_some, true};
ghost use Rattle.std.specs.Option.{option_map};
ghost use Rattle.uxn_io_traits.specs.Files.{file_at, has_parent, is_folder_at};
ghost use Rattle.uxn_io_traits.specs.Changes.{can_create, with_created, with_removed};
ghost use Rattle.uxn_io_host.specs.Calls.{faults_after};
ghost use Rattle.uxn_io_host.specs.Opened.{IsFor};
ghost use Rattle.uxn_io_host.specs.declared.opened.Way.TheVariants as ways;

use super::opened::{OpenedFile, Way};
use super::system::System;
use uxn_io_traits::{Failed, Kind, Path};

/// Whether a folder is at the path.
fn is_folder<S: System>(system: &mut S, path: &Path) -> Result<bool, Failed>
    ensures answer { IfOk result (λ answer. IfSome (S.contents system.old) (λ nodes. answer ≡ is_folder_at nodes (Some path.now))) }
    ensures same { S.contents system.new ≡ S.contents system.old }
    ensures counted { S.faults system.new ≡ faults_after result (S.faults system.old) }
{
    match system.kind(path)? {
        Kind::Folder => Ok(true),
        Kind::File(_) | Kind::Missing => Ok(false),
    }
}

/// Whether a file is at the path.
fn is_file<S: System>(system: &mut S, path: &Path) -> Result<bool, Failed>
    ensures answer { IfOk result (λ answer. IfSome (S.contents system.old) (λ nodes. answer ≡ is_some (file_at nodes path.now))) }
    ensures same { S.contents system.new ≡ S.contents system.old }
    ensures counted { S.faults system.new ≡ faults_after result (S.faults system.old) }
{
    match system.kind(path)? {
        Kind::File(_) => Ok(true),
        Kind::Folder | Kind::Missing => Ok(false),
    }
}

/// Whether the parent of the path is a folder. The current folder always is.
fn has_parent<S: System>(system: &mut S, path: &Path) -> Result<bool, Failed>
    ensures answer { IfOk result (λ answer. IfSome (S.contents system.old) (λ nodes. answer ≡ has_parent nodes path.now)) }
    ensures same { S.contents system.new ≡ S.contents system.old }
    ensures counted { S.faults system.new ≡ faults_after result (S.faults system.old) }
{
    match path.parent() {
        Some(parent) => is_folder(system, &parent),
        None => Ok(true),
    }
}

/// Whether a file can be created at the path.
fn can_create<S: System>(system: &mut S, path: &Path) -> Result<bool, Failed>
    ensures answer { IfOk result (λ answer. IfSome (S.contents system.old) (λ nodes. answer ≡ can_create nodes path.now)) }
    ensures same { S.contents system.new ≡ S.contents system.old }
    ensures counted { S.faults system.new ≡ faults_after result (S.faults system.old) }
{
    let parent_is_folder = has_parent(system, path)?;
    let is_folder = is_folder(system, path)?;
    Ok(parent_is_folder && !is_folder)
}

/// Makes the path an empty file, and says whether it did: not where its parent is no folder or it is a folder.
pub(crate) fn create_file<S: System>(system: &mut S, path: &Path) -> Result<bool, Failed>
    ensures answer { IfOk result (λ made. IfSome (S.contents system.old) (λ nodes. made ≡ can_create nodes path.now)) }
    ensures made { OnOk result (S.contents system.new ≡ option_map (with_created path.now) (S.contents system.old)) }
    ensures counted { S.faults system.new ≡ faults_after result (S.faults system.old) }
{
    let can = can_create(system, path)?;
    if can {
        let file = system.make(path)?;
        system.close(file)?;
    }
    Ok(can)
}

/// Takes the file at a path away, and says whether one was there.
pub(crate) fn remove_file<S: System>(system: &mut S, path: &Path) -> Result<bool, Failed>
    ensures answer { IfOk result (λ gone. IfSome (S.contents system.old) (λ nodes. gone ≡ is_some (file_at nodes path.now))) }
    ensures gone { OnOk result (S.contents system.new ≡ option_map (with_removed path.now) (S.contents system.old)) }
    ensures counted { S.faults system.new ≡ faults_after result (S.faults system.old) }
{
    let is_there = is_file(system, path)?;
    if is_there {
        system.delete(path)?;
    }
    Ok(is_there)
}

/// Whether there is something to open: a file that is to be read has to be there.
fn can_open<S: System>(system: &mut S, path: &Path, way: Way) -> Result<bool, Failed>
    ensures read { way ≡ ways.Reads → IfOk result (λ can. IfSome (S.contents system.old) (λ nodes. can ≡ is_some (file_at nodes path.now))) }
    ensures append { way ≡ ways.Appends → IfOk result (λ can. can ≡ true) }
    ensures same { S.contents system.new ≡ S.contents system.old }
    ensures counted { S.faults system.new ≡ faults_after result (S.faults system.old) }
{
    match way {
        Way::Reads => is_file(system, path),
        Way::Appends => Ok(true),
    }
}

/// The file at a path, opened for this. None where a file is to be read and none is there.
pub(crate) fn open_file<S: System>(
    system: &mut S,
    path: &Path,
    way: Way,
) -> Result<Option<OpenedFile<S::File>>, Failed>
    ensures opened { IfOk result (λ opened. IfSome opened (IsFor path.now way)) }
    ensures read { way ≡ ways.Reads → IfOk result (λ opened. IfSome (S.contents system.old) (λ nodes. is_some opened ≡ is_some (file_at nodes path.now))) }
    ensures append { way ≡ ways.Appends → IfOk result (λ opened. is_some opened ≡ true) }
    ensures same { S.contents system.new ≡ S.contents system.old }
    ensures counted { S.faults system.new ≡ faults_after result (S.faults system.old) }
{
    let can = can_open(system, path, way)?;
    if !can {
        return Ok(None);
    }
    let file = system.open(path, way)?;
    Ok(Some(OpenedFile::new(path, way, file)))
}
