//! The input of a repair: the blocks that no file holds, with their runs as findings, and the first header whose blocks are unknown.
ghost use Rattle.std.specs.Prelude.{◌≡◌, ◌<◌, ◌↔◌, ◌++◌, ◌∷◌, ◌⊎◌, [], ℕ, IfNone, IfOk, IfSome, MatchBool, OnOk};
ghost use Rattle.std.specs.List.{Contains};
ghost use Rattle.ods_space.specs.Files.{IsLayoutOf};
ghost use Rattle.ods_check.specs.{Sets.IsSetOf, Runs.AddsRuns, Findings.HasAsHeader, Findings.HasBlock, Findings.IsHeldByNone, Findings.IsLostHeader, Findings.LacksHeader, Findings.id_at, Findings.unheld_line as line_of_run};
ghost use Rattle.ods_space.specs.Disks.{on, seen};

use crate::ids::id_of;
use crate::lost_headers::{is_lost_header, reached_headers};
use crate::numbers::header_end;
use crate::unheld::{held_blocks, is_unheld};
use crate::unheld_runs::push_unheld;
use crate::{Finding, Told};
use ods_base::FileId;
use ods_header::is_valid_header;
use ods_mount::NumberSet;
use ods_space::{Disk, header_block, in_use};
use std::alloc::{AllocError, Global};

/// Returns the LBNs of the blocks that are marked used and that no file has, ascending. Locations of a home block are not among them.
pub fn find_unheld_blocks(alloc: Global, disk: &Disk<'_>) -> Result<Vec<u32>, AllocError>
    requires { on IsLayoutOf disk.now }
    ensures { IfOk result (λ blocks. (b : ℕ) → Contains blocks.items b ↔ on IsHeldByNone disk.now b) }
{
    let held = held_blocks(alloc, disk)?;
    let mut blocks = Vec::new(alloc);
    for lbn in 0..disk.image.len() {
        push_if_unheld(disk, &held, lbn, &mut blocks)?;
    }
    Ok(blocks)
}

/// Adds a block where it is marked used, no file holds it, and it is no place of a home block.
fn push_if_unheld(
    disk: &Disk<'_>,
    held: &NumberSet,
    lbn: u32,
    blocks: &mut Vec<u32>,
) -> Result<(), AllocError>
    requires { IsSetOf (λ b. (m : ℕ) × on HasBlock disk.now m b) held.now }
    ensures { OnOk result ((on IsHeldByNone disk.now lbn × (blocks.new.items ≡ blocks.old.items ++ lbn ∷ []))
        ⊎ ((¬ on IsHeldByNone disk.now lbn) × (blocks.new.items ≡ blocks.old.items))) }
{
    if is_unheld(disk, held, lbn) {
        blocks.push(lbn)?;
    }
    Ok(())
}

/// Returns the runs of these blocks as findings, in ascending order. Keeps the first `most` findings.
pub fn find_unheld_runs(
    alloc: Global,
    disk: &Disk<'_>,
    most: u32,
) -> Result<Told<Finding>, AllocError>
    requires { on IsLayoutOf disk.now }
    ensures { IfOk result (AddsRuns (on IsHeldByNone disk.now) line_of_run ([], most)) }
{
    let mut found = Told::new(alloc, most);
    let held = held_blocks(alloc, disk)?;
    push_unheld(disk, &held, &mut found)?;
    Ok(found)
}

/// Returns the first number in use that has no valid header, up to 65,535.
pub fn find_missing_header(disk: &Disk<'_>) -> Option<u16>
    ensures some { IfSome result (on LacksHeader disk.now) }
    ensures none { IfNone result ((n : ℕ) → n < 65536 → ¬ on LacksHeader disk.now n) }
{
    for number in 0..header_end(disk) {
        if lacks_header(disk, number as u16) {
            return Some(number as u16);
        }
    }
    None
}

/// Whether this number is in use and has no valid header.
fn lacks_header(disk: &Disk<'_>, number: u16) -> bool
    ensures { MatchBool result (on LacksHeader disk.now number) (¬ on LacksHeader disk.now number) }
{
    if !in_use(disk, number) {
        return false;
    }
    match header_block(disk, number) {
        Some(block) => !is_valid_header(block, number),
        None => true,
    }
}

/// Returns the ID of the first valid extension header that no file reaches.
pub fn find_lost_header(alloc: Global, disk: &Disk<'_>) -> Result<Option<FileId>, AllocError>
    requires { on IsLayoutOf disk.now }
    ensures some { IfOk result (λ found. IfSome found (λ id. on IsLostHeader disk.now id.number × (id ≡ seen id_at disk.now id.number))) }
    ensures none { IfOk result (λ found. IfNone found ((n : ℕ) → ¬ on IsLostHeader disk.now n)) }
{
    let reached = reached_headers(alloc, disk)?;
    Ok(first_lost(disk, &reached))
}

/// The first of them, where `reached` has the headers of all files.
fn first_lost(disk: &Disk<'_>, reached: &NumberSet) -> Option<FileId>
    requires { IsSetOf (λ n. (m : ℕ) × on HasAsHeader disk.now m n) reached.now }
    ensures some { IfSome result (λ id. on IsLostHeader disk.now id.number × (id ≡ seen id_at disk.now id.number)) }
    ensures none { IfNone result ((n : ℕ) → ¬ on IsLostHeader disk.now n) }
{
    for number in 0..header_end(disk) {
        if is_lost_header(disk, reached, number as u16) {
            return Some(id_of(disk, number as u16));
        }
    }
    None
}
