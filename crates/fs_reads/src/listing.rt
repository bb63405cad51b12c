//! `ls`: the names in directories.
ghost use Rattle.std.specs.Prelude.{◌≡◌, ◌&&◌, ◌||◌, ◌==◌, string_bytes, vec_len};
ghost use Rattle.fs_reads.specs.Shown.{Extends};
ghost use Rattle.ods_space.specs.Files.{FindsFiles};
ghost use Rattle.ods_space.specs.Disks.{on};

use crate::closed::{closed_to, stop_at_closed};
use crate::stop::Stop;
use fs_words::Words;
use ods_paths::{Path, Versions, parse_path};
use ods_shell::{Columns, FoundLines, PathFault, find_open, ls_lines, ls_objects};
use ods_space::Disk;
use std::alloc::{AllocError, Global};

/// Appends the output of `ls`.
#[tactic(auto, using(crate::proofs::Growing::extends_pushed, crate::proofs::Growing::extends_on, crate::proofs::Growing::extends_same))]
pub(crate) fn push_listings<'a>(
    alloc: Global,
    disk: &Disk<'_>,
    words: &Words<'a>,
    columns: Columns,
    below: bool,
    text: &mut String,
) -> Result<(), Stop<'a>>
    requires { on FindsFiles disk.now }
    ensures { Extends (string_bytes text.old) (string_bytes text.new) }
{
    if words.paths.is_empty() {
        return push_listing(alloc, disk, "/", columns, below, words, text);
    }
    for path in &words.paths {
        push_listing(alloc, disk, *path, columns, below, words, text)?;
    }
    Ok(())
}

/// Appends what `ls` shows of one path.
#[tactic(auto, using(crate::proofs::Growing::extends_pushed, crate::proofs::Growing::extends_on, crate::proofs::Growing::extends_same))]
fn push_listing<'a>(
    alloc: Global,
    disk: &Disk<'_>,
    path: &'a str,
    columns: Columns,
    below: bool,
    words: &Words<'_>,
    text: &mut String,
) -> Result<(), Stop<'a>>
    requires { on FindsFiles disk.now }
    ensures { Extends (string_bytes text.old) (string_bytes text.new) }
{
    match parse_path(path.as_bytes()) {
        Ok(Path::Within(folder, files)) => {
            let mut folder = folder;
            folder.below = folder.below || below;
            let closed = closed_to(alloc, disk, words.user)?;
            let found = find_open(alloc, disk, &folder, &files, Versions::Every, &closed)?;
            if is_nothing(&found, files.is_some()) {
                return Err(Stop::Path(path, PathFault::Nothing));
            }
            let mut columns = columns;
            columns.headings = columns.headings || found.directories.len() > 1;
            columns.empty = files.is_none();
            push_lines(alloc, disk, &found, columns, words, text)?;
            stop_at_closed(alloc, &found.closed, words.user)
        }
        Ok(Path::File(_)) => Err(Stop::Path(path, PathFault::IsId)),
        Err(bad) => Err(Stop::Path(path, PathFault::Bad(bad))),
    }
}

/// Appends what was found, a line or an object each; nothing where no directory was.
#[tactic(auto, using(crate::proofs::Growing::extends_pushed, crate::proofs::Growing::extends_on, crate::proofs::Growing::extends_same))]
fn push_lines(
    alloc: Global,
    disk: &Disk<'_>,
    found: &FoundLines,
    columns: Columns,
    words: &Words<'_>,
    text: &mut String,
) -> Result<(), AllocError>
    requires { on FindsFiles disk.now }
    ensures { Extends (string_bytes text.old) (string_bytes text.new) }
{
    if found.directories.is_empty() {
        return Ok(());
    }
    let lines = if words.json {
        ls_objects(alloc, disk, found, words.image)?
    } else {
        ls_lines(alloc, disk, found, columns)?
    };
    text.push_str(lines.as_str())
}

/// Returns whether a path finds nothing: no directory, or with `says_files` no file. If a directory is closed, the path finds something.
pub(crate) fn is_nothing(found: &FoundLines, says_files: bool) -> bool
    ensures { result ≡ (vec_len found.now.closed == 0) && ((vec_len found.now.directories == 0) || (says_files && (vec_len found.now.lines == 0))) }
{
    found.closed.is_empty()
        && (found.directories.is_empty() || says_files && found.lines.is_empty())
}
