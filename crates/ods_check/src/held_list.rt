//! The input of two repairs: blocks of files that the storage bitmap marks free, and blocks that more than one file has.
ghost use Rattle.std.specs.Prelude.{◌≡◌, ◌*◌, ◌≤◌, ◌++◌, ◌∷◌, ◌⊎◌, ◌↔◌, [], ℕ, true, length, IfOk, MatchBool, OnOk};
ghost use Rattle.std.specs.{List.Contains, List.Sorted.IsStrictlyIncreasing};
ghost use Rattle.ods_space.specs.Files.{IsLayoutOf};
ghost use Rattle.ods_mount.specs.Tables.{has};
ghost use Rattle.ods_check.specs.{Sets.IsSetOf, Findings.HasBlock, HeldFree.HoldsBesides, HeldFree.IsHeldBesides, HeldFree.IsHeldFree};
ghost use Rattle.ods_space.specs.Disks.{on};

use crate::numbers::file_end;
use crate::unheld::{held_blocks, note_blocks};
use ods_mount::NumberSet;
use ods_space::{Disk, is_free};
use std::alloc::{AllocError, Global};

/// Returns the LBNs of the blocks that files with whole chains hold and that the storage bitmap marks free, in ascending order.
pub fn find_free_held_blocks(alloc: Global, disk: &Disk<'_>) -> Result<Vec<u32>, AllocError>
    requires { on IsLayoutOf disk.now }
    ensures all { IfOk result (λ blocks. (b : ℕ) → Contains blocks.items b ↔ on IsHeldFree disk.now b) }
    ensures ascending { IfOk result (λ blocks. IsStrictlyIncreasing blocks.items) }
{
    let held = held_blocks(alloc, disk)?;
    let mut blocks = Vec::new(alloc);
    for lbn in 0..disk.image.len() {
        push_if_free(disk, &held, lbn, &mut blocks)?;
    }
    Ok(blocks)
}

/// Adds a block where a file holds it and the storage bitmap says that it is free.
fn push_if_free(
    disk: &Disk<'_>,
    held: &NumberSet,
    lbn: u32,
    blocks: &mut Vec<u32>,
) -> Result<(), AllocError>
    requires { IsSetOf (λ b. (m : ℕ) × on HasBlock disk.now m b) held.now }
    ensures { OnOk result ((on IsHeldFree disk.now lbn × (blocks.new.items ≡ blocks.old.items ++ lbn ∷ []))
        ⊎ ((¬ on IsHeldFree disk.now lbn) × (blocks.new.items ≡ blocks.old.items))) }
{
    if is_free_held(disk, held, lbn) {
        blocks.push(lbn)?;
    }
    Ok(())
}

/// Whether a file holds the block and the storage bitmap says that it is free. `held` has what files hold.
fn is_free_held(disk: &Disk<'_>, held: &NumberSet, lbn: u32) -> bool
    requires { IsSetOf (λ b. (m : ℕ) × on HasBlock disk.now m b) held.now }
    ensures { MatchBool result (on IsHeldFree disk.now lbn) (¬ on IsHeldFree disk.now lbn) }
{
    held.contains(lbn) && is_free(disk, lbn)
}

/// Returns the blocks that files with whole chains, other than this one, hold.
pub fn blocks_held_besides(
    alloc: Global,
    disk: &Disk<'_>,
    file: u16,
) -> Result<NumberSet, AllocError>
    requires { on IsLayoutOf disk.now }
    ensures { IfOk result (IsSetOf (on IsHeldBesides disk.now file)) }
{
    let mut held = NumberSet::new(alloc, disk.image.len())?;
    for number in 0..file_end(disk) {
        note_unless(alloc, disk, number as u16, file, &mut held)?;
    }
    Ok(held)
}

/// Notes the blocks of a file, where it has a whole chain and is not this one.
fn note_unless(
    alloc: Global,
    disk: &Disk<'_>,
    number: u16,
    file: u16,
    held: &mut NumberSet,
) -> Result<(), AllocError>
    requires layout { on IsLayoutOf disk.now }
    requires room { length disk.now.image.now ≤ 64 * length held.old }
    ensures with { OnOk result (IsSetOf (λ b. (has held.old b ≡ true) ⊎ on HoldsBesides disk.now file number b) held.new) }
    ensures room { length held.new ≡ length held.old }
{
    if number == file {
        return Ok(());
    }
    note_blocks(alloc, disk, number, held)
}
