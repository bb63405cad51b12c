//! The part of an image that can be read if the file of the host ends before the volume.
ghost use Rattle.std.specs.Prelude.{IfOk, MatchBool};
ghost use Rattle.ods_container.specs.Part.{HaveBlocksBelow, IsReadablePart};

use crate::size::are_mapped_below;
use ods_base::Image;
use ods_mount::read_layout;
use ods_space::Disk;
use std::alloc::{AllocError, Global};

/// Returns whether each file of the volume has its blocks among the first `count`. The volume of an image without a layout has no files. The error
/// is for memory.
#[tactic(auto, using(crate::proofs::Lacking::all_below))]
pub fn has_all_blocks(alloc: Global, image: &Image, count: u32) -> Result<bool, AllocError>
    ensures { IfOk result (λ all. MatchBool all (HaveBlocksBelow image.now count) (¬ HaveBlocksBelow image.now count)) }
{
    let fault = match read_layout(alloc, image) {
        Ok((_, layout)) => {
            let disk = Disk {
                image,
                layout: &layout,
            };
            return Ok(are_mapped_below(&disk, count));
        }
        Err(fault) => fault,
    };
    if fault.is_memory() {
        return Err(AllocError);
    }
    Ok(true)
}

/// Returns the image, whose first `count` blocks the file of the host has. If a file of the volume has other blocks too, only the first `count` blocks
/// are returned, so that no reader takes missing blocks for zeros. The error is for memory.
#[tactic(auto, using(crate::proofs::Lacking::part_whole, crate::proofs::Lacking::part_cut, crate::proofs::Lacking::part_short))]
pub fn readable_part(alloc: Global, image: Image, count: u32) -> Result<Image, AllocError>
    ensures { IfOk result (IsReadablePart image count) }
{
    if has_all_blocks(alloc, &image, count)? {
        return Ok(image);
    }
    if image.len() <= count {
        return Ok(image);
    }
    let (part, _) = image.cut(alloc, count)?;
    Ok(part)
}
