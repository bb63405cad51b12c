//! The directories on the way of a path. `mkdir` rules apply when a missing one is created.
ghost use Rattle.std.specs.Prelude.{◌≡◌, ◌<◌, ℕ, List, [], length, IfErr, IfOk, MatchOption, MatchResult, OnOk};
ghost use Rattle.std.specs.String.{string_bytes};
ghost use Rattle.ods_text.specs.Cuts.{cut_of};
ghost use Rattle.ods_paths.specs.Views.{folder as said_folder};
ghost use Rattle.ods_upkeep.specs.Target.{IsNoDirectory, IsTheDirectory, MeansNothing};
ghost use Rattle.ods_upkeep.specs.Wayside.{IsDirectoryAt, IsFreeAt, IsNoFolder, IsNotOpen, IsNotThere, IsOpen, IsParted, IsStepMade, IsStepRefused, IsThereThen, IsWay, StopsOnWay, further, names_nothing as names_nothing_of, path_of_way as path_of, with_part};

use crate::directories::make_directories;
use crate::failure::Why;
use crate::hidden::hides_entries;
use crate::targets::the_directory;
use ods_base::FileId;
use ods_filing::Filing;
use ods_mount::Mounted;
use ods_paths::{Folder, Path, parse_path};
use ods_request::Stamp;
use ods_shell::PathFault;
use std::alloc::{AllocError, Global};

/// Ensures that each directory on the way of a path exists, except its last part. Returns the way to the last of them, which is empty for the master
/// directory.
pub(crate) fn make_way(
    alloc: Global,
    filing: &mut Filing,
    stamp: Stamp,
    path: &str,
) -> Result<String, Why>
    ensures made { IfOk result (λ way. (parts : List (List ℕ)) (last : List ℕ) → IsParted path.now parts last → IsWay stamp parts [] filing.old (string_bytes way) filing.new) }
    // Those before one that is refused are there.
    ensures refused { IfErr result (λ why. (parts : List (List ℕ)) (last : List ℕ) → IsParted path.now parts last → StopsOnWay stamp parts [] filing.old filing.new why) }
{
    let mut way = String::new(alloc);
    let mut rest = path;
    while let Some((part, behind)) = cut_path(rest) {
        make_step(alloc, filing, stamp, &mut way, part)?;
        rest = behind;
    }
    Ok(way)
}

/// Returns the part of a path after its last slash.
pub(crate) fn last_part(path: &str) -> &str
    ensures { (parts : List (List ℕ)) × IsParted path.now parts result.now }
{
    let mut rest = path;
    while let Some((_, behind)) = cut_path(rest) {
        rest = behind;
    }
    rest
}

/// Returns the parts before and after the first slash of a path.
#[tactic(auto, using(crate::proofs::CutTexts::cut_some, crate::proofs::CutTexts::cut_none))]
pub(crate) fn cut_path(path: &str) -> Option<(&str, &str)>
    ensures cut { MatchOption result (cut_of 47 path.now ≡ None) (λ p. cut_of 47 path.now ≡ Some (p.0.now, p.1.now)) }
{
    path.split_once('/')
}

/// Sees that the directory is there to which a way leads behind a part of a path.
fn make_step(
    alloc: Global,
    filing: &mut Filing,
    stamp: Stamp,
    way: &mut String,
    part: &str,
) -> Result<(), Why>
    ensures way { OnOk result (string_bytes way.new ≡ further (string_bytes way.old) part.now) }
    ensures made { OnOk result (IsStepMade stamp (string_bytes way.old) part.now filing.old filing.new) }
    ensures refused { IfErr result (IsStepRefused stamp (string_bytes way.old) part.now filing.old filing.new) }
{
    if names_nothing(part) {
        return Ok(());
    }
    push_part(way, part)?;
    make_there(alloc, filing, stamp, way.as_str())
}

/// Returns whether a part names nothing.
pub(crate) fn names_nothing(part: &str) -> bool
    ensures { result ≡ names_nothing_of part.now }
{
    match part.as_bytes() {
        [] => true,
        [one] => *one == b'.',
        _ => false,
    }
}

/// Lengthens a way by a part.
pub(crate) fn push_part(way: &mut String, part: &str) -> Result<(), AllocError>
    ensures { OnOk result (string_bytes way.new ≡ with_part (string_bytes way.old) part.now) }
{
    if !way.is_empty() {
        way.push('/')?;
    }
    way.push_str(part)
}

/// Ensures that the directory of a path exists, and creates it if it does not.
pub(crate) fn make_there(
    alloc: Global,
    filing: &mut Filing,
    stamp: Stamp,
    path: &str,
) -> Result<(), Why>
    ensures { MatchResult result (λ _. IsThereThen stamp path.now filing.old filing.new) (IsNotThere stamp path.now filing.old filing.new) }
{
    match find_directory(alloc, filing.mounted(), path) {
        Ok(Some(_)) => Ok(()),
        Ok(None) => match make_directories(alloc, filing, stamp, &[path], 0, None) {
            Ok(()) => Ok(()),
            Err(failure) => Err(failure.why),
        },
        Err(why) => Err(why),
    }
}

/// Returns the directory of a path, or `None` if there is none.
pub(crate) fn find_directory(
    alloc: Global,
    volume: &Mounted,
    path: &str,
) -> Result<Option<FileId>, Why>
    ensures { MatchResult result (λ found. MatchOption found (IsFreeAt volume.now.image volume.now.layout path.now) (IsDirectoryAt volume.now.image volume.now.layout path.now))
        (IsNoFolder volume.now.image volume.now.layout path.now) }
{
    match parse_path(path.as_bytes()) {
        Ok(Path::Within(folder, None)) => find_folder(alloc, volume, &folder),
        Ok(Path::Within(_, Some(_))) | Ok(Path::File(_)) => Err(Why::BadName),
        Err(bad) => Err(Why::Path(PathFault::Bad(bad))),
    }
}

/// The one directory that is meant; `None` where there is none.
fn find_folder(alloc: Global, volume: &Mounted, folder: &Folder<'_>) -> Result<Option<FileId>, Why>
    ensures { MatchResult result (λ found. MatchOption found (MeansNothing volume.now.image volume.now.layout (said_folder folder.now)) (IsTheDirectory volume.now.image volume.now.layout (said_folder folder.now)))
        (IsNoDirectory volume.now.image volume.now.layout (said_folder folder.now)) }
{
    match the_directory(alloc, volume, folder) {
        Ok(file) => Ok(Some(file)),
        Err(Why::Path(PathFault::Nothing)) => Ok(None),
        Err(why) => Err(why),
    }
}

/// Returns the directory of a path if it takes names.
pub(crate) fn open_directory(alloc: Global, volume: &Mounted, path: &str) -> Result<FileId, Why>
    ensures { MatchResult result (IsOpen volume.now.image volume.now.layout path.now) (IsNotOpen volume.now.image volume.now.layout path.now) }
{
    let Some(file) = find_directory(alloc, volume, path)? else {
        return Err(Why::Path(PathFault::Nothing));
    };
    if hides_entries(alloc, volume, file.number)? {
        return Err(Why::Hidden);
    }
    Ok(file)
}

/// Returns the path of the directory that a way reaches.
pub(crate) fn path_of_way(way: &str) -> &str
    ensures { result.now ≡ path_of way.now }
{
    if way.is_empty() { "[0,0]" } else { way }
}
