//! The entries of a refused volume that are passed over because they are bad: the directories that have them, and how many.
ghost use Rattle.std.specs.Prelude.{◌≡◌, IfOk, string_bytes};
ghost use Rattle.fs_reads.specs.Told.{SaysPassed, bad_entries_text, is_no_directory as is_none, more_bad_entries, no_directory_text as none_text, one_bad_entry};
ghost use Rattle.ods_mount.specs.Faults.{IsDirectoryFile};
ghost use Rattle.ods_space.specs.Disks.{on};

use crate::stop::say_about;
use ods_base::Listed;
use ods_shell::{MASTER, is_directory_file, lines_of};
use ods_space::{Disk, last_number, sequence};
use ods_walk::count_bad;
use std::alloc::{AllocError, Global};

/// Of so many directories a line is said. A hostile volume has 65,535.
const MOST_DIRECTORIES: u32 = 100;

/// Prints for each directory of the image at this path how many of its entries are passed over, if any.
/// No clause covers what it prints; `tests/fs` checks that on the built program.
pub(crate) fn say_passed_over<R: AllocGlobal + Eprint>(
    rt: &R,
    path: &str,
    disk: &Disk<'_>,
) -> Result<(), AllocError> {
    let mut told = 0u32;
    for before in 0..last_number(disk.layout) {
        let number = before + 1;
        if !is_directory_file(disk, number) {
            continue;
        }
        let bad = count_bad(rt.alloc(), disk, number)?;
        if bad > 0 {
            told = told.saturating_add(1);
            if told <= MOST_DIRECTORIES {
                let why = passed_text(rt.alloc(), disk, number, bad)?;
                say_about(rt, path, why.as_str());
            }
        }
    }
    let more = told.saturating_sub(MOST_DIRECTORIES);
    if more > 0 {
        let why = format!(in rt.alloc(); "{more} more directories have bad entries")?;
        say_about(rt, path, why.as_str());
    }
    Ok(())
}

/// What is said of the file with this number, which has the type of a directory, and so many bad entries.
fn passed_text(
    alloc: Global,
    disk: &Disk<'_>,
    number: u16,
    bad: usize,
) -> Result<String, AllocError>
    requires { on IsDirectoryFile disk.now number }
    ensures { IfOk result (λ text. on SaysPassed disk.now number bad (string_bytes text)) }
{
    let lines = lines_of(alloc, disk, number)?;
    if is_no_directory(number, &lines) {
        no_directory_text(alloc, number, sequence(disk, number), bad)
    } else {
        bad_text(alloc, number, sequence(disk, number), bad)
    }
}

/// Whether a file with the type of a directory is none: it shows none of these lines, and is not the master directory.
fn is_no_directory(number: u16, lines: &[Listed]) -> bool
    ensures { result ≡ is_none number lines.now }
{
    number != MASTER && lines.is_empty()
}

/// What is said of a file with the type of a directory that has so many bad entries, and no good one.
fn no_directory_text(
    alloc: Global,
    number: u16,
    sequence: u16,
    bad: usize,
) -> Result<String, AllocError>
    ensures { IfOk result (λ text. string_bytes text ≡ none_text number sequence bad) }
{
    let text = format!(in alloc;
        "file {number},{sequence}: not a directory: it has no good entry, and {bad} bad"
    )?;
    Ok(text)
}

/// What is said of a directory of which so many entries are bad.
fn bad_text(alloc: Global, number: u16, sequence: u16, bad: usize) -> Result<String, AllocError>
    ensures { IfOk result (λ text. string_bytes text ≡ bad_entries_text number sequence bad) }
{
    if bad == 1 {
        one_bad_text(alloc, number, sequence)
    } else {
        more_bad_text(alloc, number, sequence, bad)
    }
}

/// What is said of a directory of which one entry is bad.
fn one_bad_text(alloc: Global, number: u16, sequence: u16) -> Result<String, AllocError>
    ensures { IfOk result (λ text. string_bytes text ≡ one_bad_entry number sequence) }
{
    let text = format!(in alloc; "directory {number},{sequence}: a bad entry is passed over")?;
    Ok(text)
}

/// What is said of a directory of which so many entries are bad.
fn more_bad_text(
    alloc: Global,
    number: u16,
    sequence: u16,
    bad: usize,
) -> Result<String, AllocError>
    ensures { IfOk result (λ text. string_bytes text ≡ more_bad_entries number sequence bad) }
{
    let text = format!(in alloc;
        "directory {number},{sequence}: {bad} bad entries are passed over"
    )?;
    Ok(text)
}
