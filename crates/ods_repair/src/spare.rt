//! The check before a repair changes blocks of a file: whether they can change without another effect.
ghost use Rattle.std.specs.Prelude.{ℕ, IfErr, MatchBool, OnOk};
ghost use Rattle.ods_space.specs.{Disks.on, Files.AreInside, Files.IsLayoutOf};
ghost use Rattle.ods_repair.specs.{Framed.IsFixedPlace, Spare.AreApart, Spare.AreOnce, Spare.AreSpare, Spare.IsNotSpare};

use crate::RepairFault;
use ods_check::blocks_held_besides;
use ods_mount::{NumberSet, is_home_place};
use ods_space::{Disk, Layout};
use std::alloc::Global;

/// Checks that the blocks of this file, from index `first` on, can change without another effect. None is at a location of a home block, of the
/// index bitmap or of headers 1 to 16. No other file holds one, and the file has no block twice.
pub(crate) fn check_spare(
    alloc: Global,
    disk: &Disk<'_>,
    file: u16,
    blocks: &[u32],
    first: usize,
) -> Result<(), RepairFault>
    requires layout { on IsLayoutOf disk.now }
    requires inside { AreInside disk.now.image.now blocks.now }
    ensures ok { OnOk result (on AreSpare disk.now file blocks.now first) }
    ensures err { IfErr result (on IsNotSpare disk.now file blocks.now first) }
{
    check_once(alloc, disk, file, blocks)?;
    check_apart(alloc, disk, file, blocks, first)?;
    Ok(())
}

/// Checks that the file has no block twice.
pub(crate) fn check_once(
    alloc: Global,
    disk: &Disk<'_>,
    file: u16,
    blocks: &[u32],
) -> Result<(), RepairFault>
    requires { AreInside disk.now.image.now blocks.now }
    ensures ok { OnOk result (AreOnce blocks.now) }
    ensures err { (first : ℕ) → IfErr result (on IsNotSpare disk.now file blocks.now first) }
{
    let mut seen = NumberSet::new(alloc, disk.image.len())?;
    for i in 0..blocks.len() {
        let lbn = blocks[i];
        if seen.contains(lbn) {
            return Err(RepairFault::RepeatedBlock(file, lbn));
        }
        seen.insert(lbn);
    }
    Ok(())
}

/// None of these blocks, from the one with this index on, is a fixed place, and no other file holds one.
fn check_apart(
    alloc: Global,
    disk: &Disk<'_>,
    file: u16,
    blocks: &[u32],
    first: usize,
) -> Result<(), RepairFault>
    requires { on IsLayoutOf disk.now }
    ensures ok { OnOk result (on AreApart disk.now file blocks.now first) }
    ensures err { IfErr result (on IsNotSpare disk.now file blocks.now first) }
{
    let others = blocks_held_besides(alloc, disk, file)?;
    for i in first..blocks.len() {
        let lbn = blocks[i];
        if is_fixed_place(disk.layout, lbn) {
            return Err(RepairFault::FixedBlock(file, lbn));
        }
        if others.contains(lbn) {
            return Err(RepairFault::SharedBlock(file, lbn));
        }
    }
    Ok(())
}

/// Whether the LBN is a place of a home block, or of the index bitmap and headers 1 to 16.
fn is_fixed_place(layout: &Layout, lbn: u32) -> bool
    ensures { MatchBool result (IsFixedPlace layout.now lbn) (¬ IsFixedPlace layout.now lbn) }
{
    let home = layout.home();
    let first = home.index_bitmap_lbn as u64;
    let end = first + home.index_bitmap_size as u64 + 16;
    is_home_place(lbn) || (first <= lbn as u64 && (lbn as u64) < end)
}
