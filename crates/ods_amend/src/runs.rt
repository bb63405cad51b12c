//! Runs of free blocks: the LBN of the lowest run that is long enough, and the free blocks below an LBN.
ghost use Rattle.std.specs.Prelude.{◌≡◌, ◌∷◌, ◌++◌, [], if◌then◌else◌, IfNone, IfOk, IfSome, OnOk};
ghost use Rattle.ods_space.specs.Free.{is_free_block};
ghost use Rattle.ods_space.specs.Disks.{on, seen};
ghost use Rattle.ods_amend.specs.Runs.{HasNoRun, IsLowestRun, free_below as those_free_below};

use ods_space::{Disk, is_free};
use std::alloc::{AllocError, Global};

/// Returns the LBN of the lowest run of `blocks` consecutive free blocks, or `None` if there is no such run.
pub fn lowest_run(disk: &Disk<'_>, blocks: u32) -> Option<u32>
    ensures some { IfSome result (on IsLowestRun disk.now blocks) }
    ensures none { IfNone result (on HasNoRun disk.now blocks) }
{
    if blocks == 0 {
        return Some(0);
    }
    let mut from = 0;
    for at in 0..disk.image.len() {
        if !is_free(disk, at) {
            from = at + 1;
        } else if blocks <= at + 1 - from {
            return Some(from);
        }
    }
    None
}

/// Returns the LBNs of the free blocks below this LBN, ascending. It fails only when out of memory.
pub fn free_below(alloc: Global, disk: &Disk<'_>, lbn: u32) -> Result<Vec<u32>, AllocError>
    ensures { IfOk result (λ blocks. blocks.items ≡ seen those_free_below disk.now lbn) }
{
    let mut blocks = Vec::new(alloc);
    for at in 0..lbn {
        push_if_free(disk, at, &mut blocks)?;
    }
    Ok(blocks)
}

/// Adds a block where it is free.
fn push_if_free(disk: &Disk<'_>, at: u32, blocks: &mut Vec<u32>) -> Result<(), AllocError>
    ensures { OnOk result (blocks.new.items ≡ blocks.old.items ++ (if seen is_free_block disk.now at then at ∷ [] else [])) }
{
    if is_free(disk, at) {
        blocks.push(at)?;
    }
    Ok(())
}
