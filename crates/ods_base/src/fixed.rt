//! Immutable images, whose blocks other images share.
ghost use Rattle.std.specs.Prelude.{◌≡◌, ◌<◌, ◌↔◌, IsTrue, length, IfOk, IfErr};
ghost use Rattle.ods_base.specs.{Block.IsBlock, Image.IsImage, Image.block_at};

use crate::{Block, Image};
use std::alloc::AllocError;
use std::marker::Model;
use std::sync::Arc;

/// An immutable image. Images over it share the blocks that they have not changed.
#[derive(Drop)]
pub struct FixedImage {
    blocks: Arc<Vec<Block>>,
}

impl Model for FixedImage {
    ghost use Rattle.std.specs.Prelude.{List, ℕ};
    ghost use Rattle.ods_base.specs.Image.{IsImage};

    ghost Value = { List (List ℕ) };

    ghost view = { λ i. i.blocks.value.items };

    ghost invariant = { λ i. IsImage i.blocks.value.items };
}

impl FixedImage {
    /// The image of these blocks. After a refusal they come back.
    pub(crate) fn new(blocks: Vec<Block>) -> Result<FixedImage, Vec<Block>>
        requires { IsImage blocks.items }
        ensures ok { IfOk result (λ image. image ≡ blocks.items) }
        ensures err { IfErr result (λ same. same.items ≡ blocks.items) }
    {
        let alloc = *blocks.allocator();
        match Arc::new(alloc, blocks) {
            Ok(blocks) => Ok(FixedImage { blocks }),
            Err(refused) => Err(refused.value),
        }
    }

    /// The same image, for another owner.
    pub(crate) fn another(&self) -> Result<FixedImage, AllocError>
        ensures { IfOk result (λ image. image ≡ self.now) }
    {
        let blocks = Arc::try_clone(&self.blocks)?;
        Ok(FixedImage { blocks })
    }

    /// Returns the number of blocks.
    pub fn len(&self) -> u32
        ensures value { result ≡ length self.now }
        ensures image { IsImage self.now }
    {
        self.blocks.len() as u32
    }

    /// Returns the block at this LBN.
    pub fn block(&self, lbn: u32) -> &Block
        requires { lbn < length self.now }
        ensures value { result.now ≡ block_at self.now lbn }
        ensures block { IsBlock result.now }
    {
        &self.blocks[lbn as usize]
    }

    /// Returns whether `image` has the same blocks.
    pub fn is(&self, image: &Image) -> bool
        ensures { IsTrue result ↔ (image.now ≡ self.now) }
    {
        if image.len() != self.len() {
            return false;
        }
        for lbn in 0..image.len() {
            if image.block(lbn) != self.block(lbn) {
                return false;
            }
        }
        true
    }
}
