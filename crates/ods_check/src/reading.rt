//! The check whether the names of directories can be read.
ghost use Rattle.std.specs.Prelude.{IfOk, MatchBool};
ghost use Rattle.ods_space.specs.Files.{IsLayoutOf};
ghost use Rattle.ods_check.specs.Findings.{IsRead, AreAllRead};
ghost use Rattle.ods_space.specs.Disks.{on};

use crate::directory::{is_directory, whole_directory};
use crate::numbers::file_end;
use ods_directory::{Verdict, check};
use ods_mount::FileBlocks;
use ods_space::Disk;
use std::alloc::{AllocError, Global};

/// Returns whether all names of all directories are read: each directory has a whole chain, no bad entry and no two equal names.
pub fn are_all_read(alloc: Global, disk: &Disk<'_>) -> Result<bool, AllocError>
    requires { on IsLayoutOf disk.now }
    ensures { IfOk result (λ read. MatchBool read (on AreAllRead disk.now) (¬ on AreAllRead disk.now)) }
{
    for number in 0..file_end(disk) {
        let read = is_read(alloc, disk, number as u16)?;
        if !read {
            return Ok(false);
        }
    }
    Ok(true)
}

/// Returns whether this is not a directory, or is a directory with a whole chain, no bad entry and no two equal names.
pub(crate) fn is_read(alloc: Global, disk: &Disk<'_>, number: u16) -> Result<bool, AllocError>
    requires { on IsLayoutOf disk.now }
    ensures { IfOk result (λ read. MatchBool read (on IsRead disk.now number) (¬ on IsRead disk.now number)) }
{
    let Some(directory) = whole_directory(alloc, disk, number)? else {
        return Ok(!is_directory(disk, number));
    };
    let blocks = FileBlocks::new(disk.image, &directory.lbns);
    match check(alloc, &blocks, directory.mark) {
        Ok(Verdict::Good) => Ok(true),
        Ok(Verdict::BadEntry) => Ok(false),
        Ok(Verdict::Twice) => Ok(false),
        Err(_) => Err(AllocError),
    }
}
