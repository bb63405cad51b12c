//! `find` and `du`: the paths of a volume, and the blocks below them.
ghost use Rattle.std.specs.Prelude.{◌≡◌, ℕ, List, None, IfErr, IfOk, string_bytes};
ghost use Rattle.ods_paths.specs.Views.{folder as said_folder};
ghost use Rattle.ods_shell.specs.{Found.AreFound, Ways.AreMeant, Ways.CountAsClosed};
ghost use Rattle.fs_reads.specs.{Ends.EndsPath, Named.AreFoundBy, Named.everywhere as all_directories, Named.names_no_directory, Named.searched, Shown.Extends};
ghost use Rattle.ods_space.specs.Files.{FindsFiles};
ghost use Rattle.ods_space.specs.Disks.{on};

use crate::closed::{closed_to, stop_at_closed, stop_at_numbers};
use crate::listing::is_nothing;
use crate::stop::Stop;
use fs_words::Words;
use ods_paths::{Folder, Path, Versions, no_steps, parse_path};
use ods_shell::{
    FoundLines, PathFault, find_lines, find_open, largest_lines, lost_lines, ls_objects,
    unreached_lines, usage_lines,
};
use ods_space::Disk;
use std::alloc::{AllocError, Global};

/// Appends the output of `find`.
#[tactic(auto, using(crate::proofs::Growing::extends_pushed, crate::proofs::Growing::extends_on, crate::proofs::Growing::extends_same))]
pub(crate) fn push_paths<'a>(
    alloc: Global,
    disk: &Disk<'_>,
    words: &Words<'a>,
    lost: bool,
    text: &mut String,
) -> Result<(), Stop<'a>>
    requires { on FindsFiles disk.now }
    ensures { Extends (string_bytes text.old) (string_bytes text.new) }
{
    let closed = closed_to(alloc, disk, words.user)?;
    if lost {
        stop_at_numbers(&closed, words.user)?;
        let lines = lost_lines(alloc, disk, words.json, words.image)?;
        text.push_str(lines.as_str())?;
        return Ok(());
    }
    if words.paths.is_empty() {
        let all = find_all(alloc, disk, &closed)?;
        push_found(alloc, disk, &all, words, text)?;
        stop_at_closed(alloc, &all.closed, words.user)?;
        let lines = unreached_lines(alloc, disk, &all, words.json, words.image)?;
        text.push_str(lines.as_str())?;
        return Ok(());
    }
    for path in &words.paths {
        let found = found_by(alloc, disk, *path, &closed)?;
        push_found(alloc, disk, &found, words, text)?;
        stop_at_closed(alloc, &found.closed, words.user)?;
    }
    Ok(())
}

/// Appends what was found: a line, or an object, for each path.
#[tactic(auto, using(crate::proofs::Growing::extends_pushed, crate::proofs::Growing::extends_on, crate::proofs::Growing::extends_same))]
fn push_found(
    alloc: Global,
    disk: &Disk<'_>,
    found: &FoundLines,
    words: &Words<'_>,
    text: &mut String,
) -> Result<(), AllocError>
    requires { on FindsFiles disk.now }
    ensures { Extends (string_bytes text.old) (string_bytes text.new) }
{
    let lines = if words.json {
        ls_objects(alloc, disk, found, words.image)?
    } else {
        find_lines(alloc, found)?
    };
    text.push_str(lines.as_str())
}

/// Returns everything that a walk from the master directory reaches, except the contents of these directories.
pub(crate) fn find_all(
    alloc: Global,
    disk: &Disk<'_>,
    closed: &[u16],
) -> Result<FoundLines, AllocError>
    ensures directories { IfOk result (λ found. (shut : List ℕ) → CountAsClosed closed.now found.closed.items shut
        → on AreMeant disk.now shut all_directories found.directories.items) }
    ensures lines { IfOk result (λ found. on AreFound disk.now None Versions.Every 0 found.directories.items found.lines.items) }
{
    let everywhere = Folder {
        steps: no_steps(),
        below: true,
    };
    find_open(alloc, disk, &everywhere, &None, Versions::Every, closed)
}

/// What a path finds, with all versions where it says none; a name or a pattern alone is looked for in all directories.
fn found_by<'a>(
    alloc: Global,
    disk: &Disk<'_>,
    path: &'a str,
    closed: &[u16],
) -> Result<FoundLines, Stop<'a>>
    ensures ok { IfOk result (λ found. (shut : List ℕ) → CountAsClosed closed.now found.closed.items shut
        → on AreFoundBy disk.now shut path.entry.now found) }
    ensures err { IfErr result (EndsPath path.entry) }
{
    match parse_path(path.as_bytes()) {
        Ok(Path::Within(folder, files)) => {
            let folder = to_search(path, folder, files.is_some());
            let found = find_open(alloc, disk, &folder, &files, Versions::Every, closed)?;
            if is_nothing(&found, files.is_some()) {
                return Err(Stop::Path(path, PathFault::Nothing));
            }
            Ok(found)
        }
        Ok(Path::File(_)) => Err(Stop::Path(path, PathFault::IsId)),
        Err(bad) => Err(Stop::Path(path, PathFault::Bad(bad))),
    }
}

/// The directories in which a path is looked for: all, where it says files and names no directory.
fn to_search<'a>(path: &str, folder: Folder<'a>, says_files: bool) -> Folder<'a>
    ensures { said_folder result ≡ searched path.now (said_folder folder.entry) says_files }
{
    Folder {
        steps: folder.steps,
        below: folder.below | (says_files & names_no_directory(path)),
    }
}

/// Returns whether a path names no directory: it has no `[` and no `/`.
pub(crate) fn names_no_directory(path: &str) -> bool
    ensures { result ≡ names_no_directory path.now }
{
    let bytes = path.as_bytes();
    !bytes.contains(&b'[') && !bytes.contains(&b'/')
}

/// Appends the output of `du`.
#[tactic(auto, using(crate::proofs::Growing::extends_pushed, crate::proofs::Growing::extends_on, crate::proofs::Growing::extends_same))]
pub(crate) fn push_usage(
    alloc: Global,
    disk: &Disk<'_>,
    top: Option<u32>,
    words: &Words<'_>,
    text: &mut String,
) -> Result<(), AllocError>
    requires { on FindsFiles disk.now }
    ensures { Extends (string_bytes text.old) (string_bytes text.new) }
{
    let all = find_all(alloc, disk, &[])?;
    let lines = match top {
        Some(most) => largest_lines(alloc, disk, &all, most as usize, words.json, words.image)?,
        None => usage_lines(alloc, disk, &all, words.json, words.image)?,
    };
    text.push_str(lines.as_str())
}
