//! Blocks that are marked used and that no file holds.
ghost use Rattle.std.specs.Prelude.{◌≡◌, ◌⊎◌, ◌*◌, ◌<◌, ◌≤◌, ℕ, true, Some, slice_get, length, MatchBool, IfOk, OnOk};
ghost use Rattle.std.specs.List.{All};
ghost use Rattle.ods_space.specs.Files.{IsLayoutOf};
ghost use Rattle.ods_mount.specs.Tables.{has};
ghost use Rattle.ods_check.specs.{Sets.IsSetOf, Findings.HasBlock, Findings.IsHeldByNone, Findings.IsMarkedUsed};
ghost use Rattle.ods_space.specs.Disks.{on};

use crate::numbers::file_end;
use crate::whole_chain::whole_chain;
use ods_mount::{NumberSet, is_home_place};
use ods_space::{Disk, is_free};
use std::alloc::{AllocError, Global};

/// Returns whether the block is marked used, no file holds it, and it is not a location of a home block. `held` is the set of blocks that files
/// hold.
pub(crate) fn is_unheld(disk: &Disk<'_>, held: &NumberSet, lbn: u32) -> bool
    requires { IsSetOf (λ b. (m : ℕ) × on HasBlock disk.now m b) held.now }
    ensures { MatchBool result (on IsHeldByNone disk.now lbn) (¬ on IsHeldByNone disk.now lbn) }
{
    if lbn == 0 || is_home_place(lbn) || held.contains(lbn) {
        return false;
    }
    is_marked_used(disk, lbn)
}

/// Whether the block is one of the image, and the storage bitmap says that it is used.
fn is_marked_used(disk: &Disk<'_>, lbn: u32) -> bool
    ensures { MatchBool result (on IsMarkedUsed disk.now lbn) (¬ on IsMarkedUsed disk.now lbn) }
{
    let is_covered = 1 + lbn as usize / 4096 < disk.layout.bitmap().len();
    lbn < disk.image.len() && is_covered && !is_free(disk, lbn)
}

/// Returns the blocks that files with whole chains hold.
pub(crate) fn held_blocks(alloc: Global, disk: &Disk<'_>) -> Result<NumberSet, AllocError>
    requires { on IsLayoutOf disk.now }
    ensures { IfOk result (IsSetOf (λ b. (m : ℕ) × on HasBlock disk.now m b)) }
{
    let mut held = NumberSet::new(alloc, disk.image.len())?;
    for number in 0..file_end(disk) {
        note_blocks(alloc, disk, number as u16, &mut held)?;
    }
    Ok(held)
}

/// Notes the blocks of a file, if it has a whole chain.
pub(crate) fn note_blocks(
    alloc: Global,
    disk: &Disk<'_>,
    number: u16,
    held: &mut NumberSet,
) -> Result<(), AllocError>
    requires layout { on IsLayoutOf disk.now }
    requires room { length disk.now.image.now ≤ 64 * length held.old }
    ensures with { OnOk result (IsSetOf (λ b. (has held.old b ≡ true) ⊎ on HasBlock disk.now number b) held.new) }
    ensures room { length held.new ≡ length held.old }
{
    let Some(lbns) = whole_chain(alloc, disk, number)? else {
        return Ok(());
    };
    insert_all(&lbns, held);
    Ok(())
}

/// Adds all these numbers to the set.
pub(crate) fn insert_all(numbers: &[u32], set: &mut NumberSet)
    requires { All (λ b. b < 64 * length set.old) numbers.now }
    ensures with { IsSetOf (λ b. (has set.old b ≡ true) ⊎ ((j : ℕ) × (slice_get numbers.now j ≡ Some b))) set.new }
    ensures room { length set.new ≡ length set.old }
{
    for i in 0..numbers.len() {
        set.insert(numbers[i]);
    }
}
