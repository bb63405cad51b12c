//! Images that are cut or lengthened in their own memory, without a second list of their blocks.
ghost use Rattle.std.specs.Prelude.{◌≡◌, ◌≤◌, ◌-◌, ◌^◌, ◌++◌, IfOk, length, take, drop, replicate};
ghost use Rattle.ods_base.specs.{Block.zeros, Image.IsImage, Image.image_bytes};

use crate::{Block, Image};
use std::alloc::{AllocError, Global};

impl Image {
    /// Returns the first `count` blocks as an image, and the bytes of the blocks after them. An image over a fixed one first receives its own list of
    /// blocks.
    pub fn cut(self, alloc: Global, count: u32) -> Result<(Image, Vec<u8>), AllocError>
        requires { count ≤ length self }
        ensures image { IfOk result (λ parts. parts.0 ≡ take count self) }
        ensures behind { IfOk result (λ parts. parts.1.items ≡ image_bytes (drop count self)) }
    {
        let _ = self.len();
        let Ok(mut blocks) = self.into_blocks() else {
            return Err(AllocError);
        };
        let behind = bytes_from(alloc, &blocks, count as usize)?;
        blocks.truncate(count as usize);
        Ok((Image::alone(blocks), behind))
    }

    /// Appends blocks of zeros until the image has `count` blocks. An image over a fixed one first receives its own list of blocks.
    pub fn lengthen(self, count: u32) -> Result<Image, AllocError>
        requires more { length self ≤ count }
        requires few { count ≤ 2 ^ 20 }
        ensures { IfOk result (λ image. image ≡ self ++ replicate (count - length self) zeros) }
    {
        let _ = self.len();
        let Ok(mut blocks) = self.into_blocks() else {
            return Err(AllocError);
        };
        blocks.resize(count as usize, Block::zeros())?;
        Ok(Image::alone(blocks))
    }
}

/// The bytes of the blocks from this one on.
fn bytes_from(alloc: Global, blocks: &[Block], first: usize) -> Result<Vec<u8>, AllocError>
    requires image { IsImage blocks.now }
    requires some { first ≤ length blocks.now }
    ensures { IfOk result (λ bytes. bytes.items ≡ image_bytes (drop first blocks.now)) }
{
    let mut bytes = Vec::with_capacity(alloc, 512 * (blocks.len() - first))?;
    for k in first..blocks.len() {
        bytes.extend_from_slice(blocks[k].bytes())?;
    }
    Ok(bytes)
}
