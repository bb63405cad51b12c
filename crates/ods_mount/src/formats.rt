//! Headers whose pointers are not of format 1.
ghost use Rattle.std.specs.Prelude.{◌≡◌, ◌≤◌, MatchBool, OnOk, IfErr};
ghost use Rattle.ods_header.specs.Header.{IsHeader, IsFormat1};
ghost use Rattle.ods_mount.specs.{Faults.IsTrueOf, Checks.AreFormat1};
ghost use Rattle.ods_space.specs.Disks.{header_on, on};

use crate::MountFault;
use ods_header::{HeaderFault, read_header};
use ods_space::{Disk, header_block, in_use};

/// No header in use is left aside for the format of its pointers alone, also where its number is above H.FMAX.
pub(crate) fn check_formats(disk: &Disk<'_>) -> Result<(), MountFault>
    ensures ok { OnOk result (on AreFormat1 disk.now) }
    ensures err { IfErr result (on IsTrueOf disk.now) }
{
    // The blocks of an image have bytes, so no header has a greater number than a word.
    let _ = disk.image.len();
    let last = (4096 * disk.layout.home().index_bitmap_size as u32).min(65535);
    for k in 0..last {
        let number = (k + 1) as u16;
        if in_use(disk, number) && has_other_format(disk, number) {
            return Err(MountFault::UnsupportedMap(number));
        }
    }
    Ok(())
}

/// Returns whether the header of this number is valid except for the format of its pointers.
pub fn has_other_format(disk: &Disk<'_>, number: u16) -> bool
    ensures { MatchBool result
        (IsHeader (header_on disk.now number) number × ¬ IsFormat1 (header_on disk.now number))
        (IsHeader (header_on disk.now number) number → IsFormat1 (header_on disk.now number)) }
{
    let Some(block) = header_block(disk, number) else {
        return false;
    };
    match read_header(block, number) {
        Ok(_) => false,
        Err(fault) => fault == HeaderFault::UnsupportedMap,
    }
}
