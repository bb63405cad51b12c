//! Faults of the whole volume: its storage bitmap, its master directory, and headers of another format.
ghost use Rattle.std.specs.Prelude.{◌+◌, OnOk, MatchBool};
ghost use Rattle.ods_space.specs.Files.{IsLayoutOf};
ghost use Rattle.ods_mount.specs.Faults.{IsTrueOf};
ghost use Rattle.ods_check.specs.{Lists.Adds, Lists.AddsInTurn, Lines.IsLineOf, Faults.Tells, Turns.turn_of, Turns.volume_turn};
ghost use Rattle.ods_space.specs.Disks.{on};

use crate::add::push_if;
use crate::numbers::header_end;
use crate::sweep::Sought;
use crate::{FaultLine, Told};
use ods_mount::{MountFault, has_other_format};
use ods_space::{Disk, in_use, primary_header};
use std::alloc::{AllocError, Global};

/// Adds a line if the storage bitmap is too short, and a line if there is no master directory.
pub(crate) fn push_system(disk: &Disk<'_>, faults: &mut Told<FaultLine>) -> Result<(), AllocError>
    requires { on IsLayoutOf disk.now }
    ensures adds { OnOk result (Adds (on IsLineOf disk.now) faults.old faults.new) }
    ensures once { OnOk result (AddsInTurn turn_of volume_turn (volume_turn + 2) faults.old faults.new) }
    ensures storage { OnOk result (on IsTrueOf disk.now MountFault.BadStorageMap → Tells faults.new.0 MountFault.BadStorageMap) }
    ensures master { OnOk result (on IsTrueOf disk.now MountFault.BadMaster → Tells faults.new.0 MountFault.BadMaster) }
{
    let short = FaultLine::Plain(MountFault::BadStorageMap);
    push_if(faults, short, is_short(disk))?;
    let without = FaultLine::Plain(MountFault::BadMaster);
    push_if(faults, without, lacks_master(disk))?;
    Ok(())
}

/// Whether the storage bitmap has too few blocks.
fn is_short(disk: &Disk<'_>) -> bool
    requires { on IsLayoutOf disk.now }
    ensures { MatchBool result (on IsTrueOf disk.now MountFault.BadStorageMap) (¬ on IsTrueOf disk.now MountFault.BadStorageMap) }
{
    if disk.layout.bitmap().len() < 2 {
        return true;
    }
    let _ = disk.image.len();
    false
}

/// Whether there is no master directory.
fn lacks_master(disk: &Disk<'_>) -> bool
    ensures { MatchBool result (on IsTrueOf disk.now MountFault.BadMaster) (¬ on IsTrueOf disk.now MountFault.BadMaster) }
{
    match primary_header(disk, 4) {
        Some(_) => false,
        None => true,
    }
}

/// Headers that are skipped only because of the format of their pointers.
#[derive(Drop)]
pub(crate) struct LeftAside;

impl Sought for LeftAside {
    ghost use Rattle.std.specs.Prelude.{⊤};
    ghost use Rattle.ods_mount.specs.declared.fault.MountFault.{MountFault};
    ghost use Rattle.ods_check.specs.declared.fault_line.FaultLine.{FaultLine};
    ghost use Rattle.ods_mount.specs.Faults.{IsTrueOf};

    type Line = FaultLine;

    ghost most = { 65536 };

    ghost fits = { λ _ _ _. ⊤ };

    ghost is = { λ _ I L n. IsTrueOf I L (MountFault.UnsupportedMap n) };

    ghost line_of = { λ _ _ n. FaultLine.Plain (MountFault.UnsupportedMap n) };

    fn end(&self, disk: &Disk<'_>) -> u32 {
        header_end(disk)
    }

    fn holds(&self, _alloc: Global, disk: &Disk<'_>, number: u32) -> Result<bool, AllocError> {
        Ok(is_left_aside(disk, number as u16))
    }

    fn line(&self, _disk: &Disk<'_>, number: u32) -> FaultLine {
        FaultLine::Plain(MountFault::UnsupportedMap(number as u16))
    }
}

/// Whether the header of this number is in use, and right but for the format of its pointers.
fn is_left_aside(disk: &Disk<'_>, number: u16) -> bool
    ensures { MatchBool result (on IsTrueOf disk.now (MountFault.UnsupportedMap number)) (¬ on IsTrueOf disk.now (MountFault.UnsupportedMap number)) }
{
    if in_use(disk, number) {
        return has_other_format(disk, number);
    }
    false
}
