//! The size of a volume as its storage control block states it, and when that size is trusted.
ghost use Rattle.std.specs.Prelude.{◌≡◌, ◌+◌, ◌<◌, ◌≤◌, ◌^◌, ℕ, IfOk, IfSome, IfNone, MatchBool, length};
ghost use Rattle.ods_header.specs.Header.{IsLaidOut};
ghost use Rattle.ods_space.specs.{Disks.on, Files.IsLayoutOf};
ghost use Rattle.ods_container.specs.Size.{IsSaid, IsBelieved, IsMappedBelow, AreMappedBelow, EndBelow, SaysSize, SaysNone, size_word as word_of_size};

use ods_base::{Block, Image, MAX_BLOCKS, word};
use ods_header::{is_valid_header, pointer_at, pointer_count};
use ods_mount::read_layout;
use ods_space::{Disk, header_block, in_use, last_number};
use std::alloc::{AllocError, Global};

/// Returns the size in blocks that the volume of this image itself states, if it is trusted. The image may be longer or shorter. It fails only when
/// out of memory.
pub fn believed_size(alloc: Global, image: &Image) -> Result<Option<u32>, AllocError>
    ensures some { IfOk result (λ found. IfSome found (SaysSize image.now)) }
    ensures none { IfOk result (λ found. IfNone found (SaysNone image.now)) }
{
    let fault = match read_layout(alloc, image) {
        Ok((_, layout)) => {
            let disk = Disk {
                image,
                layout: &layout,
            };
            return Ok(size_on(&disk));
        }
        Err(fault) => fault,
    };
    if fault.is_memory() {
        return Err(AllocError);
    }
    Ok(None)
}

/// The size that this disk says, where it is believed.
fn size_on(disk: &Disk<'_>) -> Option<u32>
    requires { on IsLayoutOf disk.now }
    ensures some { IfSome result (on IsBelieved disk.now) }
    ensures none { IfNone result ((S : ℕ) → ¬ on IsBelieved disk.now S) }
{
    let size = said_on(disk)?;
    if are_mapped_below(disk, size) {
        Some(size)
    } else {
        None
    }
}

/// The size that the storage control block says, where BITMAP.SYS has the blocks for it, and as many are counted.
fn said_on(disk: &Disk<'_>) -> Option<u32>
    requires { on IsLayoutOf disk.now }
    ensures some { IfSome result (on IsSaid disk.now) }
    ensures none { IfNone result ((S : ℕ) → ¬ on IsSaid disk.now S) }
{
    let bitmap = disk.layout.bitmap();
    if bitmap.len() < 2 || 257 < bitmap.len() {
        return None;
    }
    let count = bitmap.len() - 1;
    let block = disk.image.block(bitmap[0]);
    let at = size_word(count);
    let size = 65_536 * word(block, at) as u32 + word(block, at + 1) as u32;
    if size == 0 || MAX_BLOCKS < size {
        return None;
    }
    if size.div_ceil(4_096) as usize != count || block.byte(3) as usize != count % 256 {
        return None;
    }
    Some(size)
}

/// Where a storage control block has the size, in words: behind two words for each block of the bitmap, or for none where they are more
/// than 126.
fn size_word(count: usize) -> usize
    ensures value { result ≡ word_of_size count }
    ensures few { result ≤ 254 }
{
    if count <= 126 { 2 + 2 * count } else { 2 }
}

/// Whether each header that counts maps only blocks below this size.
#[tactic(auto, using(crate::proofs::Sizes::next_mapped, crate::proofs::Sizes::all_mapped, crate::proofs::Sizes::not_mapped))]
pub(crate) fn are_mapped_below(disk: &Disk<'_>, size: u32) -> bool
    ensures { MatchBool result (on AreMappedBelow disk.now size) (¬ on AreMappedBelow disk.now size) }
{
    for number in 0..last_number(disk.layout) as u32 + 1 {
        if !is_mapped_below(disk, number as u16, size) {
            return false;
        }
    }
    true
}

/// Whether this header maps only blocks below this size. Header 3 is BADBLK.SYS, whose blocks may lie behind the volume.
#[tactic(auto, using(crate::proofs::Sizes::mapped_by))]
fn is_mapped_below(disk: &Disk<'_>, number: u16, size: u32) -> bool
    ensures { MatchBool result (on IsMappedBelow disk.now size number) (¬ on IsMappedBelow disk.now size number) }
{
    if number == 3 || !in_use(disk, number) {
        return true;
    }
    let Some(block) = header_block(disk, number) else {
        return true;
    };
    if !is_valid_header(block, number) {
        return true;
    }
    end_below(block, size)
}

/// Whether the blocks of each pointer of a header end at this size or before.
fn end_below(block: &Block, size: u32) -> bool
    requires { IsLaidOut block.now }
    ensures { MatchBool result (EndBelow block.now size) (¬ EndBelow block.now size) }
{
    for k in 0..pointer_count(block) {
        let run = pointer_at(block, k);
        if size < run.lbn + run.count as u32 {
            return false;
        }
    }
    true
}
