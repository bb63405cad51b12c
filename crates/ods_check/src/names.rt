//! The names of a directory that is whole and good.
ghost use Rattle.std.specs.Prelude.{IfOk};
ghost use Rattle.ods_space.specs.Files.{IsLayoutOf};
ghost use Rattle.ods_check.specs.Findings.{AreNames};
ghost use Rattle.ods_space.specs.Disks.{on};

use crate::directory::whole_directory;
use ods_base::Listed;
use ods_directory::{Verdict, check, entries};
use ods_mount::FileBlocks;
use ods_space::Disk;
use std::alloc::{AllocError, Global};

/// Returns the names of a directory with a whole chain and good entries. Any other number has none.
pub(crate) fn names_of(
    alloc: Global,
    disk: &Disk<'_>,
    number: u16,
) -> Result<Vec<Listed>, AllocError>
    requires { on IsLayoutOf disk.now }
    ensures { IfOk result (λ lines. on AreNames disk.now number lines.items) }
{
    let Some(directory) = whole_directory(alloc, disk, number)? else {
        return Ok(Vec::new(alloc));
    };
    let blocks = FileBlocks::new(disk.image, &directory.lbns);
    match check(alloc, &blocks, directory.mark) {
        Ok(Verdict::Good) => {
            let lines = entries(alloc, &blocks, directory.mark)?;
            Ok(lines)
        }
        Ok(Verdict::BadEntry) => Ok(Vec::new(alloc)),
        Ok(Verdict::Twice) => Ok(Vec::new(alloc)),
        Err(_) => Err(AllocError),
    }
}
