//! `repair free`: blocks that are marked used and that no file holds become free.
ghost use Rattle.std.specs.Prelude.{◌≡◌, ◌≢◌, ◌⊎◌, [], IfErr, IfOk, OnErr, OnOk};
ghost use Rattle.ods_space.specs.Files.{IsLayoutOf};
ghost use Rattle.ods_space.specs.Disks.{on};
ghost use Rattle.ods_repair.specs.Freed.{AreKnown, IsFreed, IsNotFreed, IsUnknown};

use crate::RepairFault;
use ods_check::{
    Finding, Told, find_lost_header, find_missing_header, find_unheld_blocks, find_unheld_runs,
};
use ods_filing::Filing;
use ods_space::Disk;
use std::alloc::Global;

/// Frees each block that the storage bitmap marks used and that no file holds, except the boot block and the locations of home blocks. Returns the
/// runs of these blocks, as they were found. If there are such blocks, the repair is refused if a number in use has no valid header, or no file
/// reaches an extension header: their blocks may be in use. After a refusal, the volume is unchanged.
pub fn free_unheld(alloc: Global, filing: &mut Filing) -> Result<Told<Finding>, RepairFault>
    // All these blocks are free then, none else is, and nothing else was done.
    ensures freed { IfOk result (λ told. IsFreed filing.old told.0 filing.new) }
    // There are such blocks and a header that may hold them, or there is no memory.
    ensures refused { IfErr result (IsNotFreed filing.old) }
    ensures unchanged { OnErr result (filing.new ≡ filing.old) }
{
    let told = find_unheld_runs(alloc, &filing.disk(), u32::MAX)?;
    let blocks = find_unheld_blocks(alloc, &filing.disk())?;
    check_known(alloc, &filing.disk(), &blocks)?;
    filing.mark_blocks(&blocks, true)?;
    Ok(told)
}

/// Why it is not known whether these blocks are held, where there are some and it is not.
fn check_known(alloc: Global, disk: &Disk<'_>, blocks: &[u32]) -> Result<(), RepairFault>
    requires { on IsLayoutOf disk.now }
    ensures ok { OnOk result (blocks.now ≢ [] → on AreKnown disk.now) }
    ensures err { IfErr result (λ why. (why ≡ RepairFault.NoMemory) ⊎ ((blocks.now ≢ []) × on IsUnknown disk.now why)) }
{
    if blocks.is_empty() {
        return Ok(());
    }
    if let Some(number) = find_missing_header(disk) {
        return Err(RepairFault::NoHeader(number));
    }
    if let Some(id) = find_lost_header(alloc, disk)? {
        return Err(RepairFault::Unreached(id));
    }
    Ok(())
}
