//! The LBNs where a home block may be, below the home block of the volume. A block there could be mistaken for the home block.
ghost use Rattle.std.specs.Prelude.{◌≡◌, ◌↔◌, ◌<◌, ℕ, IsTrue, MatchBool, OnOk, IfErr};
ghost use Rattle.ods_header.specs.Home.{IsHomeAt, IsHomePlace};
ghost use Rattle.ods_space.specs.Free.{is_free_block};
ghost use Rattle.ods_mount.specs.{Faults.IsTrueOf, Checks.NoPlaceIsFree, Checks.IsFixed};
ghost use Rattle.ods_space.specs.Disks.{on};

use crate::MountFault;
use ods_space::{Disk, is_free};

/// Returns whether a home block may be at the LBN: 1, 256, 512, 768 and so on.
pub fn is_home_place(lbn: u32) -> bool
    ensures { IsTrue result ↔ IsHomePlace lbn }
{
    lbn == 1 || (0 < lbn && lbn % 256 == 0)
}

/// No place of a home block below this one is free.
pub(crate) fn check_free_places(disk: &Disk<'_>, home_lbn: u32) -> Result<(), MountFault>
    requires { IsHomeAt disk.now.image.now home_lbn }
    ensures ok { OnOk result (on NoPlaceIsFree disk.now home_lbn) }
    ensures err { IfErr result (on IsTrueOf disk.now) }
{
    for lbn in 0..home_lbn {
        if is_home_place(lbn) && is_free(disk, lbn) {
            return Err(MountFault::BadIndex);
        }
    }
    Ok(())
}

/// Returns whether a home block may be at this LBN below the volume's, and a request can change this block of a file. `index` is the index of the
/// block in the file, from 0. No request changes files 3 and 5, or the first two blocks of INDEXF.SYS.
pub fn is_loose_place(home_lbn: u32, number: u16, index: u32, lbn: u32) -> bool
    ensures { MatchBool result
        (IsHomePlace lbn × (lbn < home_lbn) × ¬ IsFixed number index)
        (IsHomePlace lbn → lbn < home_lbn → IsFixed number index) }
{
    lbn < home_lbn
        && is_home_place(lbn)
        && number != 3
        && number != 5
        && (number != 1 || 2 <= index)
}
