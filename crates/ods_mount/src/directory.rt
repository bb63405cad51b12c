//! The check of a file that is a directory.
ghost use Rattle.std.specs.Prelude.{◌≡◌, List, ℕ, MatchBool, OnOk, IfOk, IfErr};
ghost use Rattle.ods_header.specs.Header.{attributes_of};
ghost use Rattle.ods_space.specs.{Files.IsFile, Files.HasBlocks, Files.IsLayoutOf};
ghost use Rattle.ods_directory.specs.Names.{IsDirectory};
ghost use Rattle.ods_mount.specs.{Faults.IsTrueOf, Faults.IsDirectoryFile, Faults.contents_of, Faults.mark_at, Checks.IsFault};
ghost use Rattle.ods_space.specs.Disks.{header_on, on, seen};

use crate::MountFault;
use crate::blocks::FileBlocks;
use crate::layout::chain_fault;
use ods_directory::{DirBlocks, Verdict, check, mark_of};
use ods_header::is_directory;
use ods_space::{Disk, chain, header_block};
use std::alloc::Global;

/// Checks that the used entries of a directory are valid and distinct. `attributes` are the attributes of its header. A file that is not a directory
/// passes. `BadDirectory` reports a bad entry, and `DuplicateName` two entries of the same name, type and version.
pub fn check_directory(
    alloc: Global,
    disk: &Disk<'_>,
    number: u16,
    attributes: &[u8; 32],
) -> Result<(), MountFault>
    requires layout { on IsLayoutOf disk.now }
    requires file { on IsFile disk.now number }
    requires attributes { attributes.now ≡ attributes_of (header_on disk.now number) }
    ensures ok { OnOk result ((blocks : List ℕ) → on HasBlocks disk.now number blocks → on IsDirectoryFile disk.now number
        → IsDirectory (contents_of disk.now.image.now blocks) (seen mark_at disk.now number blocks)) }
    ensures err { IfErr result (on IsFault disk.now) }
{
    if !is_directory_file(disk, number) {
        return Ok(());
    }
    // An image has few blocks, and so has a chain.
    let _ = disk.image.len();
    let lbns = match file_blocks(alloc, disk, number) {
        Ok(lbns) => lbns,
        Err(fault) => return Err(fault),
    };
    let blocks = FileBlocks::new(disk.image, &lbns);
    let mark = mark_of(attributes, blocks.count());
    match check(alloc, &blocks, mark) {
        Ok(Verdict::Good) => Ok(()),
        Ok(Verdict::BadEntry) => Err(MountFault::BadDirectory(number)),
        Ok(Verdict::Twice) => Err(MountFault::DuplicateName(number)),
        Err(_) => Err(MountFault::NoMemory),
    }
}

/// All blocks of a file. A chain that is not whole is a fault.
fn file_blocks(alloc: Global, disk: &Disk<'_>, number: u16) -> Result<Vec<u32>, MountFault>
    requires layout { on IsLayoutOf disk.now }
    requires file { on IsFile disk.now number }
    ensures ok { IfOk result (λ blocks. on HasBlocks disk.now number blocks.items) }
    ensures err { IfErr result (on IsFault disk.now) }
{
    match chain(alloc, disk, number) {
        Ok(blocks) => Ok(blocks),
        Err(fault) => Err(chain_fault(number, fault)),
    }
}

/// Returns whether this file is a directory: file 4, or a file above 5 whose ident has the type DIR.
pub fn is_directory_file(disk: &Disk<'_>, number: u16) -> bool
    requires { on IsFile disk.now number }
    ensures { MatchBool result (on IsDirectoryFile disk.now number) (¬ on IsDirectoryFile disk.now number) }
{
    match header_block(disk, number) {
        Some(block) => is_directory(number, block),
        None => false,
    }
}
