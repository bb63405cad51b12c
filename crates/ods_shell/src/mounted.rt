//! The same functions for a sound volume, on which each chain is whole. Their contracts use the terms of the volume.
ghost use Rattle.std.specs.Prelude.{◌≡◌, ◌≢◌, ◌⊎◌, ◌↔◌, ℕ, List, [], false, true, length, IfOk, IfErr, IsTrue, MatchOption, IsSortedByKey};
ghost use Rattle.std.specs.String.{string_bytes};
ghost use Rattle.ods_mount.specs.Faults.{IsDirectoryFile};
ghost use Rattle.ods_paths.specs.{Order.listing_cmp, Paths.Said, Paths.Says, Views.files as said_files, Views.folder as said_folder, Views.said_files as said_some};
ghost use Rattle.ods_walk.specs.Listing.{IsListing, shown};
ghost use Rattle.ods_shell.specs.Facts.{AreFacts};
ghost use Rattle.ods_shell.specs.{Compared.HasCompared, Compared.HasNone, Contents.IsGot, Contents.IsNotGot, Shown.ContentsAre};
ghost use Rattle.ods_shell.specs.{Listed.AreObjects, Listed.IsListing as IsListed, Listed.IsListingUnder, There.AreUnreached, There.IsNamedByNone, There.IsNotAmong, There.ids_in, Usage.AreLargest, Usage.AreUsage};
ghost use Rattle.ods_shell.specs.{Found.AreFound, Named.AreNamed, Named.AreNamedBy, Named.AreNotNamed, Named.IsPathFault, Ways.AreMeant, Ways.AreMet, Ways.CountAsClosed};
ghost use Rattle.ods_shell.specs.declared.facts.Facts.{Facts as Known};

use crate::alone::Unsaid;
use crate::facts::Facts;
use crate::finding::FoundLines;
use crate::folders::Directory;
use crate::form::{FormFault, Got};
use crate::found::Found;
use crate::ls::Columns;
use crate::path_fault::PathFault;
use ods_base::{FileId, Listed};
use ods_mount::Mounted;
use ods_paths::{Files, Folder, Versions};
use ods_records::Wanted;
use std::alloc::{AllocError, Global};

/// Returns the facts of the file with this number; `None` if it is not the number of a file.
pub fn facts_of(volume: &Mounted, number: u16) -> Option<Facts>
    ensures { MatchOption result ((facts : Known) → ¬ AreFacts volume.now.image volume.now.layout number facts) (AreFacts volume.now.image volume.now.layout number) }
{
    let disk = volume.disk();
    crate::facts::facts_of(&disk, number)
}

/// Returns the facts of the file with this ID; `None` if it is not the ID of a file.
pub fn facts_by_id(volume: &Mounted, file: FileId) -> Option<Facts>
    ensures { MatchOption result ((facts : Known) → AreFacts volume.now.image volume.now.layout file.number facts → facts.file ≢ file)
        (λ facts. AreFacts volume.now.image volume.now.layout file.number facts × (facts.file ≡ file)) }
{
    let disk = volume.disk();
    crate::facts::facts_by_id(&disk, file)
}

/// Returns the lines of a directory, in the order of a listing. Returns none if the number is not the number of a directory.
pub fn lines_of(alloc: Global, volume: &Mounted, number: u16) -> Result<Vec<Listed>, AllocError>
    ensures there { IfOk result (λ lines. IsDirectoryFile volume.now.image volume.now.layout number → IsListing volume.now.image volume.now.layout number lines.items) }
    ensures none { IfOk result (λ lines. ¬ IsDirectoryFile volume.now.image volume.now.layout number → lines.items ≡ []) }
    ensures sorted { IfOk result (λ lines. IsSortedByKey shown listing_cmp lines.items) }
{
    let disk = volume.disk();
    crate::folders::lines_of(alloc, &disk, number)
}

/// Returns the lines that a path finds, or all lines of its directories if `files` is `None`.
pub fn find_open(
    alloc: Global,
    volume: &Mounted,
    folder: &Folder<'_>,
    files: &Option<Files<'_>>,
    unsaid: Versions,
    closed: &[u16],
) -> Result<FoundLines, AllocError>
    ensures directories { IfOk result (λ found. (shut : List ℕ) → CountAsClosed closed.now found.closed.items shut
        → AreMeant volume.now.image volume.now.layout shut (said_folder folder.now) found.directories.items) }
    ensures lines { IfOk result (λ found. AreFound volume.now.image volume.now.layout (said_some files.now) unsaid 0 found.directories.items found.lines.items) }
    ensures met { IfOk result (λ found. AreMet closed.now [] found.closed.items) }
{
    let disk = volume.disk();
    crate::finding::find_open(alloc, &disk, folder, files, unsaid, closed)
}

/// Returns the directories that a folder selects.
pub fn find_directories(
    alloc: Global,
    volume: &Mounted,
    folder: &Folder<'_>,
) -> Result<Vec<Directory>, AllocError>
    ensures { IfOk result (λ found. AreMeant volume.now.image volume.now.layout [] (said_folder folder.now) found.items) }
{
    let disk = volume.disk();
    crate::finding::find_directories(alloc, &disk, folder)
}

/// Returns the files that file names select in these directories.
pub fn find_names(
    alloc: Global,
    volume: &Mounted,
    folder: &Folder<'_>,
    files: Files<'_>,
    unsaid: Option<Versions>,
    closed: &[u16],
) -> Result<(Vec<Found>, Vec<Directory>), PathFault>
    ensures named { IfOk result (λ r. (shut : List ℕ) → CountAsClosed closed.now r.1.items shut
        → AreNamed volume.now.image volume.now.layout shut (said_folder folder.now) (said_files files.entry) unsaid r.0.items) }
    ensures met { IfOk result (λ r. AreMet closed.now [] r.1.items) }
    ensures some { IfOk result (λ r. r.0.items ≡ [] → r.1.items ≢ []) }
    ensures err { IfErr result (AreNotNamed volume.now.image volume.now.layout (said_folder folder.now) (said_files files.entry) unsaid) }
{
    let disk = volume.disk();
    crate::found::find_names(alloc, &disk, folder, files, unsaid, closed)
}

/// Returns the files that a path selects, in the order of a listing.
pub fn find_path(
    alloc: Global,
    volume: &Mounted,
    path: &str,
    unsaid: Unsaid,
    closed: &[u16],
) -> Result<(Vec<Found>, Vec<Directory>), PathFault>
    ensures named { IfOk result (λ r. (says : Said) × Says path.now says
        × ((shut : List ℕ) → CountAsClosed closed.now r.1.items shut → AreNamedBy volume.now.image volume.now.layout shut says unsaid r.0.items)) }
    ensures met { IfOk result (λ r. AreMet closed.now [] r.1.items) }
    ensures some { IfOk result (λ r. r.0.items ≡ [] → r.1.items ≢ []) }
    ensures err { IfErr result (IsPathFault volume.now.image volume.now.layout path.now unsaid) }
{
    let disk = volume.disk();
    crate::found::find_path(alloc, &disk, path, unsaid, closed)
}

/// Returns the contents of the file with this number, in the requested form. No file is refused because of its chain.
pub fn open_contents<'a>(
    alloc: Global,
    volume: &'a Mounted,
    number: u16,
    wanted: Wanted,
) -> Result<Got<'a>, FormFault>
    ensures ok { IfOk result (λ got. (bytes : List ℕ) × ContentsAre got.contents bytes × IsGot volume.now.image volume.now.layout number wanted bytes got.remark) }
    ensures err { IfErr result (IsNotGot volume.now.image volume.now.layout number wanted) }
{
    let disk = volume.disk();
    crate::form::open_contents(alloc, &disk, number, wanted)
}

/// Returns whether two files have the same bytes.
pub fn have_same_bytes(
    alloc: Global,
    one: &Mounted,
    number: u16,
    other: &Mounted,
    other_number: u16,
) -> Result<bool, FormFault>
    ensures ok { IfOk result (λ same. (x : List ℕ) × (y : List ℕ) × HasCompared one.now.image one.now.layout number x
        × HasCompared other.now.image other.now.layout other_number y × (IsTrue same ↔ (x ≡ y))) }
    ensures err { IfErr result (λ fault. HasNone one.now.image one.now.layout number fault ⊎ HasNone other.now.image other.now.layout other_number fault) }
{
    let disk = one.disk();
    let other_disk = other.disk();
    crate::comparing::have_same_bytes(alloc, &disk, number, &other_disk, other_number)
}

/// Returns the found lines, and a last line with the numbers of files and blocks.
pub fn ls_lines(
    alloc: Global,
    volume: &Mounted,
    found: &FoundLines,
    columns: Columns,
) -> Result<String, AllocError>
    ensures plain { columns.headings ≡ false → IfOk result (λ text. IsListed volume.now.image volume.now.layout columns found.now.lines.items (length found.now.lines.items) (string_bytes text)) }
    ensures under { columns.headings ≡ true → IfOk result (λ text. IsListingUnder volume.now.image volume.now.layout columns found.now.directories.items found.now.lines.items (length found.now.lines.items) (string_bytes text)) }
{
    let disk = volume.disk();
    crate::ls::ls_lines(alloc, &disk, found, columns)
}

/// Returns an object for each found line: its path, the ID that it names, and the facts of the file.
pub fn ls_objects(
    alloc: Global,
    volume: &Mounted,
    found: &FoundLines,
    image: &str,
) -> Result<String, AllocError>
    ensures { IfOk result (λ text. AreObjects volume.now.image volume.now.layout image.now found.now.directories.items found.now.lines.items (string_bytes text)) }
{
    let disk = volume.disk();
    crate::json::ls_objects(alloc, &disk, found, image)
}

/// Returns a line with the ID and `-` for each file whose ID is in no found line. With `json`, an object replaces the line.
pub fn unreached_lines(
    alloc: Global,
    volume: &Mounted,
    found: &FoundLines,
    json: bool,
    image: &str,
) -> Result<String, AllocError>
    ensures { IfOk result (λ text. AreUnreached volume.now.image volume.now.layout
        (IsNotAmong volume.now.image volume.now.layout (ids_in found.now.lines.items)) json image.now (string_bytes text)) }
{
    let disk = volume.disk();
    crate::find::unreached_lines(alloc, &disk, found, json, image)
}

/// Returns a line for each file that no line of any directory names. With `json`, an object replaces the line.
pub fn lost_lines(
    alloc: Global,
    volume: &Mounted,
    json: bool,
    image: &str,
) -> Result<String, AllocError>
    ensures { IfOk result (λ text. AreUnreached volume.now.image volume.now.layout
        (IsNamedByNone volume.now.image volume.now.layout) json image.now (string_bytes text)) }
{
    let disk = volume.disk();
    crate::find::lost_lines(alloc, &disk, json, image)
}

/// Returns a line for each directory: the number of blocks of its files, and its name. With `json`, an object replaces the line.
pub fn usage_lines(
    alloc: Global,
    volume: &Mounted,
    found: &FoundLines,
    json: bool,
    image: &str,
) -> Result<String, AllocError>
    ensures { IfOk result (λ text. AreUsage volume.now.image volume.now.layout found.now.directories.items found.now.lines.items json image.now (string_bytes text)) }
{
    let disk = volume.disk();
    crate::usage::usage_lines(alloc, &disk, found, json, image)
}

/// Returns a line for each of the largest files, at most `most`: its number of blocks, and its path. With `json`, an object replaces the line.
pub fn largest_lines(
    alloc: Global,
    volume: &Mounted,
    found: &FoundLines,
    most: usize,
    json: bool,
    image: &str,
) -> Result<String, AllocError>
    ensures { IfOk result (λ text. AreLargest volume.now.image volume.now.layout found.now.directories.items found.now.lines.items most json image.now (string_bytes text)) }
{
    let disk = volume.disk();
    crate::usage::largest_lines(alloc, &disk, found, most, json, image)
}
