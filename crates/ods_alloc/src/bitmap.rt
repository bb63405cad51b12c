//! The bits of both bitmaps, set and cleared in a draft. Each bitmap locates the bit of the block or number that it covers. They share the rest.
ghost use Rattle.std.specs.Prelude.{◌≡◌, ◌^◌, ◌<◌, ◌≤◌, length, IfSome, IsTrue, OnOk};
ghost use Rattle.ods_space.specs.{Draft.applied, Free.is_covered};
ghost use Rattle.ods_alloc.specs.Marks.{HasPlaces, Puts, IsBitOf, IsIndexed, MarksBlocks, MarksNumbers, block_bit as block_bit_of, number_bit as number_bit_of};
ghost use Rattle.ods_space.specs.Disks.{drafted};

use ods_base::{Image, bit};
use ods_space::{Disk, Draft, Layout};
use std::alloc::AllocError;

/// Sets or clears a bit that a bitmap has: a block of it, and a bit of that. Where the bit stands so already, nothing
/// changes.
fn put_bit(
    image: &Image,
    found: Option<(u32, u32)>,
    value: bool,
    draft: &mut Draft,
) -> Result<(), AllocError>
    requires { IfSome found (λ bit. (bit.0 < length image.now) × (bit.1 < 4096)) }
    ensures { OnOk result (Puts (applied image.now draft.old) found value (applied image.now draft.new)) }
{
    if let Some((lbn, i)) = found {
        if bit(draft.block(image, lbn), i) != value {
            // Many bits of one block are one change.
            draft.put_bit(image, lbn, i, value)?;
        }
    }
    Ok(())
}

/// The bit of a block in the storage bitmap.
fn block_bit(layout: &Layout, lbn: u32) -> Option<(u32, u32)>
    ensures { IsBitOf (IsTrue (is_covered layout.now lbn)) (block_bit_of layout.now lbn) result }
{
    let at = 1 + lbn as usize / 4096;
    if layout.bitmap().len() <= at {
        return None;
    }
    Some((layout.bitmap()[at], lbn % 4096))
}

/// The bit of a number in the index bitmap.
fn number_bit(layout: &Layout, number: u16) -> Option<(u32, u32)>
    requires { layout.now.home.index_bitmap_lbn ≤ 2 ^ 20 }
    ensures { IsBitOf (IsIndexed layout.now number) (number_bit_of layout.now number) result }
{
    let home = layout.home();
    if number == 0 || 4096 * (home.index_bitmap_size as u32) < number as u32 {
        return None;
    }
    let i = number as u32 - 1;
    Some((home.index_bitmap_lbn + i / 4096, i % 4096))
}

/// Marks blocks as free or as used, as far as the storage bitmap covers them.
pub fn mark_blocks(
    disk: &Disk<'_>,
    blocks: &[u32],
    free: bool,
    draft: &mut Draft,
) -> Result<(), AllocError>
    requires places { HasPlaces (length disk.now.image.now) disk.now.layout.now }
    ensures { OnOk result (drafted MarksBlocks disk.now draft.old blocks.now free (applied disk.now.image.now draft.new)) }
{
    for lbn in blocks {
        put_bit(disk.image, block_bit(disk.layout, *lbn), free, draft)?;
    }
    Ok(())
}

/// Marks numbers as used or as free, as far as the index bitmap covers them.
pub(crate) fn mark_numbers(
    disk: &Disk<'_>,
    numbers: &[u16],
    used: bool,
    draft: &mut Draft,
) -> Result<(), AllocError>
    requires places { HasPlaces (length disk.now.image.now) disk.now.layout.now }
    ensures { OnOk result (drafted MarksNumbers disk.now draft.old numbers.now used (applied disk.now.image.now draft.new)) }
{
    let _ = disk.image.len();
    for number in numbers {
        put_bit(disk.image, number_bit(disk.layout, *number), used, draft)?;
    }
    Ok(())
}
