//! `repair used`: blocks that files hold and that the storage bitmap marks free become used, in an image that a mount refuses.
ghost use Rattle.std.specs.Prelude.{◌≡◌, ◌≢◌, ◌↔◌, ◌⊎◌, ◌<◌, ℕ, [], false, length, IfErr, IfOk, IsTrue, OnErr};
ghost use Rattle.std.specs.{List.All, List.Contains, List.Sorted.IsStrictlyIncreasing};
ghost use Rattle.ods_space.specs.{Disks.on, Files.IsLayoutOf, Free.is_covered};
ghost use Rattle.ods_alloc.specs.Marks.{MarksBlocks, PutsBit, block_bit};
ghost use Rattle.ods_check.specs.HeldFree.{IsHeldFree};
ghost use Rattle.ods_repair.specs.{Spare.AreOnce, Used.AreUsed, Used.IsBitmapApart, Used.IsBitmapFault};

use crate::RepairFault;
use crate::spare::check_spare;
use ods_base::{Image, set_bit};
use ods_check::find_free_held_blocks;
use ods_space::{Disk, Layout};
use std::alloc::Global;

/// Marks as used each block that a file with a whole chain holds and that the storage bitmap marks free. Returns the LBNs of these blocks in
/// ascending order. The image may be one that a mount refuses. If there are such blocks, the repair is refused if the storage bitmap cannot change
/// without another effect:
///
/// - one of its blocks is at a location of a home block, of the index bitmap or of headers 1 to 16;
/// - another file holds one of its blocks;
/// - BITMAP.SYS has a block twice.
///
/// After a refusal, the image is unchanged.
pub fn mark_used(alloc: Global, image: &mut Image, layout: &Layout) -> Result<Vec<u32>, RepairFault>
    requires { IsLayoutOf image.old layout.now }
    // These blocks are used then, and nothing else was done.
    ensures used { IfOk result (λ blocks. AreUsed image.old layout.now blocks.items image.new) }
    // The storage bitmap cannot change alone, or there is no memory.
    ensures refused { IfErr result (IsBitmapFault image.old layout.now) }
    // Where it cannot, there is such a block.
    ensures left { IfErr result (λ why. (why ≡ RepairFault.NoMemory) ⊎ ((b : ℕ) × IsHeldFree image.old layout.now b)) }
    ensures unchanged { OnErr result (image.new ≡ image.old) }
{
    let blocks = find_marks(alloc, &Disk { image, layout })?;
    if blocks.len() == 0 {
        return Ok(blocks);
    }
    mark_all(image, layout, &blocks);
    Ok(blocks)
}

/// The blocks that files hold and that are marked free. Where there are some the storage bitmap can change alone.
fn find_marks(alloc: Global, disk: &Disk<'_>) -> Result<Vec<u32>, RepairFault>
    requires { on IsLayoutOf disk.now }
    ensures apart { IfOk result (λ blocks. blocks.items ≢ [] → on IsBitmapApart disk.now) }
    ensures blocks { IfOk result (λ blocks. (b : ℕ) → Contains blocks.items b ↔ on IsHeldFree disk.now b) }
    ensures ascending { IfOk result (λ blocks. IsStrictlyIncreasing blocks.items) }
    ensures refused { IfErr result (on IsBitmapFault disk.now) }
    ensures left { IfErr result (λ why. (why ≡ RepairFault.NoMemory) ⊎ ((b : ℕ) × on IsHeldFree disk.now b)) }
{
    let blocks = find_free_held_blocks(alloc, disk)?;
    if blocks.len() == 0 {
        return Ok(blocks);
    }
    check_spare(alloc, disk, 2, disk.layout.bitmap(), 1)?;
    Ok(blocks)
}

/// Marks these blocks as used, as far as the storage bitmap covers them.
fn mark_all(image: &mut Image, layout: &Layout, blocks: &[u32])
    requires inside { All (λ b. b < length image.old) layout.now.bitmap }
    requires once { AreOnce layout.now.bitmap }
    ensures { MarksBlocks image.old layout.now blocks.now false image.new }
{
    for lbn in blocks {
        mark_one(image, layout, *lbn);
    }
}

/// Marks this block as used, if the storage bitmap covers it.
pub(crate) fn mark_one(image: &mut Image, layout: &Layout, lbn: u32)
    requires inside { All (λ b. b < length image.old) layout.now.bitmap }
    ensures { (IsTrue (is_covered layout.now lbn) × PutsBit image.old (block_bit layout.now lbn).0 (block_bit layout.now lbn).1 false image.new)
        ⊎ ((¬ IsTrue (is_covered layout.now lbn)) × (image.new ≡ image.old)) }
{
    let at = 1 + lbn as usize / 4096;
    if layout.bitmap().len() <= at {
        return;
    }
    let map = layout.bitmap()[at];
    let mut block = *image.block(map);
    set_bit(&mut block, lbn % 4096, false);
    image.set_block(map, block);
}
