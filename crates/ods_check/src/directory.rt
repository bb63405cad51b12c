//! Directories whose chains are whole, with their end marks.
ghost use Rattle.std.specs.Prelude.{◌≡◌, ℕ, List, IfOk, IfSome, IfNone, MatchBool};
ghost use Rattle.ods_header.specs.Header.{attributes_of};
ghost use Rattle.ods_space.specs.Files.{HasBlocks, IsLayoutOf};
ghost use Rattle.ods_mount.specs.Faults.{IsDirectoryFile};
ghost use Rattle.ods_check.specs.Findings.{IsWholeDirectory};
ghost use Rattle.ods_space.specs.Disks.{header_on, on};

use crate::whole_chain::whole_chain;
use ods_directory::mark_of;
use ods_header::attributes;
use ods_mount::is_directory_file;
use ods_space::{Disk, primary_header};
use std::alloc::{AllocError, Global};

/// A directory with a whole chain: its blocks, and its end mark.
#[derive(Drop)]
pub struct WholeDirectory {
    pub lbns: Vec<u32>,
    pub mark: u64,
}

/// Returns the directory with this number. Returns `None` if the number is not a directory with a whole chain. An error means out of memory.
pub fn whole_directory(
    alloc: Global,
    disk: &Disk<'_>,
    number: u16,
) -> Result<Option<WholeDirectory>, AllocError>
    requires { on IsLayoutOf disk.now }
    ensures some { IfOk result (λ found. IfSome found (λ d. on IsWholeDirectory disk.now number d.lbns.items d.mark)) }
    ensures none { IfOk result (λ found. IfNone found (on IsDirectoryFile disk.now number → (blocks : List ℕ) → ¬ on HasBlocks disk.now number blocks)) }
{
    let Some(first) = primary_header(disk, number) else {
        return Ok(None);
    };
    if !is_directory_file(disk, number) {
        return Ok(None);
    }
    let Some(lbns) = whole_chain(alloc, disk, number)? else {
        return Ok(None);
    };
    let mark = end_mark(disk, number, &attributes(first), &lbns);
    Ok(Some(WholeDirectory { lbns, mark }))
}

/// Returns the end mark of a directory that has these blocks. `attributes` are the file attributes in its header.
pub(crate) fn end_mark(disk: &Disk<'_>, number: u16, attributes: &[u8; 32], lbns: &[u32]) -> u64
    requires whole { on HasBlocks disk.now number lbns.now }
    requires directory { on IsDirectoryFile disk.now number }
    requires attributes { attributes.now ≡ attributes_of (header_on disk.now number) }
    ensures { on IsWholeDirectory disk.now number lbns.now result }
{
    // An image has few blocks, and so has a chain.
    let _ = disk.image.len();
    mark_of(attributes, lbns.len() as u32)
}

/// Returns whether this number belongs to a directory.
pub(crate) fn is_directory(disk: &Disk<'_>, number: u16) -> bool
    ensures { MatchBool result (on IsDirectoryFile disk.now number) (¬ on IsDirectoryFile disk.now number) }
{
    match primary_header(disk, number) {
        Some(_) => is_directory_file(disk, number),
        None => false,
    }
}
