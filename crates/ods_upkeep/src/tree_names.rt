//! Names of a tree of the host, as `get -r` writes them. A path specifies a directory and a file of the volume, or there is a reason why it specifies
//! none.
ghost use Rattle.std.specs.Prelude.{◌≡◌, ℕ, List, IfOk, IfErr, MatchResult};
ghost use Rattle.ods_upkeep.specs.TreeNames.{AreFolderNames, IsFolderName, IsNoFolderName, IsNoTreeName, IsSaidVersion, IsTreeName, SaysKind, SaysFolders, SaysNoFolders, SaysNoKind, SaysNoPlace, SaysPlace};
ghost use Rattle.ods_upkeep.specs.Wayside.{IsParted};

use crate::failure::Why;
use crate::host_names::{is_no_name, parts, untyped};
use crate::meant::name_said;
use crate::on_the_way::{cut_path, last_part};
use crate::put_fault::PutFault;
use crate::targets::name_of;
use ods_base::{DIRECTORY_TYPE, LAST_VERSION, Name};
use ods_paths::read_step;
use ods_text::{cut_at, is_text, read_small};
use std::alloc::Global;

/// Checks whether a path of a tree specifies a location on the volume. Each of its folders has the name of a directory. The part after the last slash
/// is the name of a file, or is empty.
pub fn judge_path(alloc: Global, path: &str) -> Result<(), Why>
    ensures { MatchResult result (λ _. SaysPlace path.now) (SaysNoPlace path.now) }
{
    let last = last_part(path);
    let _names = folder_names(alloc, path)?;
    if last.is_empty() {
        return Ok(());
    }
    let _said = tree_name(alloc, last)?;
    Ok(())
}

/// Returns the names of the directories for the folders of a path. Each folder is followed by a slash.
pub(crate) fn folder_names(alloc: Global, path: &str) -> Result<Vec<Name>, Why>
    ensures ok { IfOk result (λ names. SaysFolders path.now names.items) }
    // However the path is parted.
    ensures all { IfOk result (λ names. (folders : List (List ℕ)) (last : List ℕ) → IsParted path.now folders last → AreFolderNames folders names.items) }
    ensures err { IfErr result (SaysNoFolders path.now) }
{
    let mut names = Vec::new(alloc);
    let mut rest = path;
    while let Some((folder, behind)) = cut_path(rest) {
        let name = folder_name(alloc, folder)?;
        names.push(name)?;
        rest = behind;
    }
    Ok(names)
}

/// The name of the directory that a folder is: `1,2` and `001,002` are 001002, and any other name is itself. The master directory is none, since it lies in no other.
fn folder_name(alloc: Global, folder: &str) -> Result<Name, Why>
    ensures { MatchResult result (IsFolderName folder.now) (IsNoFolderName folder.now) }
{
    let text = name_said(alloc, &read_step(folder.as_bytes()))?;
    if is_text(&text, b"000000") {
        return Err(Why::BadName);
    }
    name_of(alloc, &text, b"DIR")
}

/// Returns the volume name of a host file, and its version if the name has one after a second dot. A file with the type DIR is not valid.
pub(crate) fn tree_name(alloc: Global, name: &str) -> Result<(Name, Option<u16>), Why>
    ensures { MatchResult result (λ said. IsTreeName name.now said.0 said.1) (IsNoTreeName name.now) }
{
    let bytes = name.as_bytes();
    if is_no_name(bytes) {
        return Err(Why::BadName);
    }
    if let Some(character) = untyped(bytes) {
        return Err(Why::Put(PutFault::Untyped(character)));
    }
    let (title, behind) = parts(bytes);
    let (name, version) = kind_said(alloc, title, behind)?;
    if name.ext() == DIRECTORY_TYPE {
        return Err(Why::DirectoryType);
    }
    Ok((name, version))
}

/// The name of this title whose type and version stand behind its first dot, with a dot between them where a version is said.
fn kind_said(alloc: Global, title: &[u8], behind: &[u8]) -> Result<(Name, Option<u16>), Why>
    ensures { MatchResult result (λ said. SaysKind title.now behind.now said.0 said.1) (SaysNoKind title.now behind.now) }
{
    let Some((kind, digits)) = cut_at(b'.', behind) else {
        let name = name_of(alloc, title, behind)?;
        return Ok((name, None));
    };
    let version = version_said(digits)?;
    let name = name_of(alloc, title, kind)?;
    Ok((name, Some(version)))
}

/// The version that digits say.
fn version_said(digits: &[u8]) -> Result<u16, Why>
    ensures { MatchResult result (IsSaidVersion digits.now) (λ why. (why ≡ Why.BadName) × ((n : ℕ) → ¬ IsSaidVersion digits.now n)) }
{
    match read_small(digits) {
        Some(version) if 0 < version && version <= LAST_VERSION => Ok(version),
        _ => Err(Why::BadName),
    }
}
