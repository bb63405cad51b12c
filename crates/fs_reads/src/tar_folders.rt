//! The directories that a path of `tar` selects, whether it selects many files, and the archive folders of a file.
ghost use Rattle.std.specs.Prelude.{◌≡◌, ℕ, List, IfOk, IfSome, IfNone, MatchBool, string_bytes};
ghost use Rattle.std.specs.List.{All, Contains};
ghost use Rattle.fs_reads.specs.Tars.{AreMeantBy, IsFolderOf, LeadsTo, is_pattern as pattern_said, means_many};
ghost use Rattle.ods_paths.specs.Paths.{Said, Says};
ghost use Rattle.ods_paths.specs.Views.{folder as said_folder, said_files};
ghost use Rattle.ods_shell.specs.Ways.{AreMeant, CountAsClosed};
ghost use Rattle.ods_shell.specs.declared.folders.Directory.{Directory as Holder};
ghost use Rattle.ods_space.specs.Disks.{on};

use crate::rescue_tree::folder_text;
use ods_paths::{
    Files, Folder, Path, Versions, bad_says_nothing, has_wildcard, parse_path, says_one_thing,
};
use ods_shell::{Directory, EntryPlace, Found, find_open, push_path};
use ods_space::Disk;
use std::alloc::{AllocError, Global};

/// The selection of a path.
#[derive(Drop)]
pub(crate) struct Meant {
    /// Whether it selects all files of directories, or the files of a pattern.
    pub many: bool,
    /// The directories; none if the path names a file by its ID.
    pub directories: Vec<Directory>,
}

/// Returns the selection of a path, past these closed directories.
pub(crate) fn meant_by(
    alloc: Global,
    disk: &Disk<'_>,
    path: &str,
    closed: &[u16],
) -> Result<Meant, AllocError>
    ensures many { IfOk result (λ meant. (says : Said) → Says path.now says → meant.many ≡ means_many says) }
    ensures directories { IfOk result (λ meant. (met : List Holder) × ((says : Said) (shut : List ℕ) → Says path.now says → CountAsClosed closed.now met shut → on AreMeantBy disk.now shut says meant.directories.items)) }
{
    says_one_thing();
    bad_says_nothing();
    match parse_path(path.as_bytes()) {
        Ok(Path::Within(folder, files)) => meant_within(alloc, disk, &folder, &files, closed),
        Ok(Path::File(_)) => Ok(Meant {
            many: false,
            directories: Vec::new(alloc),
        }),
        Err(_) => Ok(Meant {
            many: false,
            directories: Vec::new(alloc),
        }),
    }
}

/// What a path means that says this folder and these files, past these closed directories.
fn meant_within(
    alloc: Global,
    disk: &Disk<'_>,
    folder: &Folder<'_>,
    files: &Option<Files<'_>>,
    closed: &[u16],
) -> Result<Meant, AllocError>
    ensures many { IfOk result (λ meant. meant.many ≡ pattern_said (said_files files.now)) }
    ensures directories { IfOk result (λ meant. (met : List Holder) × ((shut : List ℕ) → CountAsClosed closed.now met shut → on AreMeant disk.now shut (said_folder folder.now) meant.directories.items)) }
{
    let found = find_open(alloc, disk, folder, &None, Versions::Every, closed)?;
    Ok(Meant {
        many: is_pattern(files),
        directories: found.directories,
    })
}

/// Whether files are meant by a pattern, or all.
fn is_pattern(files: &Option<Files<'_>>) -> bool
    ensures { result ≡ pattern_said (said_files files.now) }
{
    match files {
        Some(files) => has_wildcard(files.name) || has_wildcard(files.kind),
        None => true,
    }
}

/// Returns the folders of a file, with slashes between them. Its entry is in one of these directories.
pub(crate) fn folder_of(
    alloc: Global,
    directories: &[Directory],
    found: &Found,
) -> Result<String, AllocError>
    ensures { IfOk result (λ text. IsFolderOf directories.now (string_bytes found.now.path) found.now.place (string_bytes text)) }
{
    let Some(place) = found.place() else {
        return Ok(String::new(alloc));
    };
    match directory_of(alloc, directories, &place, found.path.as_str())? {
        Some(directory) => folder_text(alloc, &directory.names),
        None => Ok(String::new(alloc)),
    }
}

/// The first of these directories in which an entry stands that is shown so.
fn directory_of<'a>(
    alloc: Global,
    directories: &'a [Directory],
    place: &EntryPlace,
    shown: &str,
) -> Result<Option<&'a Directory>, AllocError>
    ensures some { IfOk result (λ found. IfSome found (λ d. Contains directories.now d.now × LeadsTo place.now shown.now d.now)) }
    ensures none { IfOk result (λ found. IfNone found (All (λ d. ¬ LeadsTo place.now shown.now d) directories.now)) }
{
    for directory in directories {
        if leads_to(alloc, directory, place, shown)? {
            return Ok(Some(directory));
        }
    }
    Ok(None)
}

/// Whether an entry that is shown so stands in this directory.
fn leads_to(
    alloc: Global,
    directory: &Directory,
    place: &EntryPlace,
    shown: &str,
) -> Result<bool, AllocError>
    ensures { IfOk result (λ leads. MatchBool leads (LeadsTo place.now shown.now directory.now) (¬ LeadsTo place.now shown.now directory.now)) }
{
    if directory.number != place.directory.number {
        return Ok(false);
    }
    let mut text = String::new(alloc);
    push_path(&mut text, &directory.names, &place.entry)?;
    Ok(text.as_str() == shown)
}
