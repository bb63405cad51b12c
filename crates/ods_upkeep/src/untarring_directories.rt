//! `untar`: sees that the directories of an archive exist.
ghost use Rattle.std.specs.Prelude.{IfErr, IfOk, MatchResult};
ghost use Rattle.ods_upkeep.specs.DirectoryUntarred.{IsDirectoryUntarred, IsMadeAs, IsNotDirectoryUntarred, IsNotMadeAs, IsNotThereAs, IsThereAs};
ghost use Rattle.ods_upkeep.specs.Refused.{HasPath};

use crate::directories::make_directories;
use crate::failure::{Failure, Why, of_path};
use crate::on_the_way::{
    find_directory, last_part, make_way, names_nothing, open_directory, push_part,
};
use ods_base::FileId;
use ods_filing::Filing;
use ods_paths::has_wildcard;
use ods_request::Stamp;
use std::alloc::Global;

/// A directory of an archive.
#[derive(Clone, Copy)]
pub struct PackedDirectory<'a> {
    /// Its path: names of directories with slashes between them, without a slash at the end.
    pub path: &'a str,
    /// The time of its creation.
    pub stamp: Stamp,
}

/// Creates a directory of an archive like with `mkdir`, if it is missing, and returns its file. Missing directories on its way are created at the time
/// `run`. A directory that exists stays as it is, and the result is `None`.
pub fn untar_directory(
    alloc: Global,
    filing: &mut Filing,
    run: Stamp,
    packed: &PackedDirectory<'_>,
) -> Result<Option<FileId>, Failure>
    // The directory is there. Its file is returned where it is created. Nothing else is done.
    ensures done { IfOk result (λ made. IsDirectoryUntarred run packed.now made filing.old filing.new) }
    // Refused, it is so for a reason that holds, of this directory, and what was done for it is said.
    ensures refused { IfErr result (λ failure. IsNotDirectoryUntarred run packed.now filing.old filing.new failure.why × HasPath failure packed.now.path.now) }
{
    match untar_one(alloc, filing, run, packed) {
        Ok(made) => Ok(made),
        Err(why) => Err(of_path(alloc, packed.path, why)),
    }
}

/// Creates a directory of an archive, if it is missing.
fn untar_one(
    alloc: Global,
    filing: &mut Filing,
    run: Stamp,
    packed: &PackedDirectory<'_>,
) -> Result<Option<FileId>, Why>
    ensures { MatchResult result (λ made. IsDirectoryUntarred run packed.now made filing.old filing.new) (IsNotDirectoryUntarred run packed.now filing.old filing.new) }
{
    if has_wildcard(packed.path.as_bytes()) {
        return Err(Why::Several);
    }
    let last = last_part(packed.path);
    let mut way = make_way(alloc, filing, run, packed.path)?;
    if names_nothing(last) {
        return Ok(None);
    }
    push_part(&mut way, last)?;
    make_missing(alloc, filing, packed.stamp, way.as_str())
}

/// Creates the directory of a path, if it is missing, and returns its file then.
fn make_missing(
    alloc: Global,
    filing: &mut Filing,
    stamp: Stamp,
    path: &str,
) -> Result<Option<FileId>, Why>
    ensures { MatchResult result (λ made. IsThereAs stamp path.now made filing.old filing.new) (IsNotThereAs stamp path.now filing.old filing.new) }
{
    match find_directory(alloc, filing.mounted(), path) {
        Ok(Some(_)) => Ok(None),
        Ok(None) => match make_one(alloc, filing, stamp, path) {
            Ok(file) => Ok(Some(file)),
            Err(why) => Err(why),
        },
        Err(why) => Err(why),
    }
}

/// Creates the directory of a path, and returns its file.
fn make_one(alloc: Global, filing: &mut Filing, stamp: Stamp, path: &str) -> Result<FileId, Why>
    ensures { MatchResult result (λ file. IsMadeAs stamp path.now file filing.old filing.new) (IsNotMadeAs stamp path.now filing.old filing.new) }
{
    match make_directories(alloc, filing, stamp, &[path], 0, None) {
        Ok(()) => open_directory(alloc, filing.mounted(), path),
        Err(failure) => Err(failure.why),
    }
}
