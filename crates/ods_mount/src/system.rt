//! BITMAP.SYS and the master directory.
ghost use Rattle.std.specs.Prelude.{◌≤◌, length, OnOk, IfErr};
ghost use Rattle.ods_space.specs.Files.{IsFile, IsLayoutOf};
ghost use Rattle.ods_mount.specs.Faults.{IsTrueOf};
ghost use Rattle.ods_space.specs.Disks.{on};

use crate::MountFault;
use ods_space::{Disk, file_header};

/// BITMAP.SYS has a block behind the storage control block, and the master directory, file 4, exists.
pub(crate) fn check_system_files(disk: &Disk<'_>) -> Result<(), MountFault>
    requires { on IsLayoutOf disk.now }
    ensures ok { OnOk result ((2 ≤ length disk.now.layout.now.bitmap) × on IsFile disk.now 4) }
    ensures err { IfErr result (on IsTrueOf disk.now) }
{
    if disk.layout.bitmap().len() < 2 {
        return Err(MountFault::BadStorageMap);
    }
    match file_header(disk, 4) {
        Some(_) => Ok(()),
        None => Err(MountFault::BadMaster),
    }
}
