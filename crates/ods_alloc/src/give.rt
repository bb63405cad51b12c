//! Blocks and headers that are given back.
ghost use Rattle.std.specs.Prelude.{◌≡◌, length, [], IfOk, OnOk, OnErr};
ghost use Rattle.ods_space.specs.{Files.IsLayoutOf, Draft.applied};
ghost use Rattle.ods_alloc.specs.{Extend.ChangesOnly, Extend.GivesBack, Extend.GivesBits, Extend.IsWellPlaced, Marks.HasPlaces, Marks.Deletes};
ghost use Rattle.ods_space.specs.Disks.{drafted};

use crate::bitmap::{mark_blocks, mark_numbers};
use ods_header::deleted_header;
use ods_space::{Disk, Draft};
use std::alloc::AllocError;

/// Gives blocks back and deletes headers, in a draft. Only the number of a deleted header, which becomes 0, and its checksum change. The bits of the
/// blocks and of the numbers are marked as free. No other block changes. After an `Err` the draft is unchanged.
pub fn give_back(
    disk: &Disk<'_>,
    blocks: &[u32],
    numbers: &[u16],
    draft: &mut Draft,
) -> Result<(), AllocError>
    requires layout { drafted IsLayoutOf disk.now draft.old }
    requires places { IsWellPlaced disk.now.layout.now }
    ensures ok { OnOk result (drafted GivesBack disk.now draft.old blocks.now numbers.now (applied disk.now.image.now draft.new)) }
    ensures err { OnErr result (draft.new ≡ draft.old) }
{
    let mut changed = draft.copy()?;
    delete_headers(disk, numbers, draft, &mut changed)?;
    *draft = mark_free(disk, blocks, numbers, changed)?;
    Ok(())
}

/// Marks blocks and numbers as free in both bitmaps, as far as these cover them, in a draft. Nothing else changes. It takes the draft and returns it,
/// unless it runs out of memory.
pub fn mark_free(
    disk: &Disk<'_>,
    blocks: &[u32],
    numbers: &[u16],
    mut draft: Draft,
) -> Result<Draft, AllocError>
    requires places { HasPlaces (length disk.now.image.now) disk.now.layout.now }
    ensures bits { IfOk result (λ d. drafted GivesBits disk.now draft blocks.now numbers.now (applied disk.now.image.now d)) }
    ensures only { IfOk result (λ d. drafted ChangesOnly disk.now draft [] (applied disk.now.image.now d)) }
{
    mark_numbers(disk, numbers, false, &mut draft)?;
    mark_blocks(disk, blocks, true, &mut draft)?;
    Ok(draft)
}

/// Deletes headers: each is read through the old draft, so that one that is listed twice is deleted once.
fn delete_headers(
    disk: &Disk<'_>,
    numbers: &[u16],
    old: &Draft,
    draft: &mut Draft,
) -> Result<(), AllocError>
    requires places { HasPlaces (length disk.now.image.now) disk.now.layout.now }
    requires same { draft.old ≡ old.now }
    ensures { OnOk result (drafted Deletes disk.now old.now numbers.now (applied disk.now.image.now draft.new)) }
{
    for number in numbers {
        if let Some(lbn) = disk.layout.place(*number) {
            let block = deleted_header(old.block(disk.image, lbn));
            draft.set(lbn, block)?;
        }
    }
    Ok(())
}
