//! Images: the blocks of a volume, in order.
ghost use Rattle.std.specs.Prelude.{◌≡◌, ◌≢◌, ◌^◌, ◌<◌, ◌≤◌, ◌==◌, [], ◌∷◌, length, slice_set, IfOk, IfErr, MatchBool};
ghost use Rattle.std.specs.Vec.{vec_capacity};
ghost use Rattle.ods_base.specs.{Block.IsBlock, Block.zeros, Image.IsImage, Image.IsNoImage, Image.block_at, Image.image_bytes};

use crate::overlay::Overlay;
use crate::read::store_whole_blocks;
use crate::{Block, FixedImage, ImageError};
use std::alloc::{AllocError, Global};
use std::marker::Model;

/// An image: at most 1,048,576 blocks, numbered from 0. The number of a block is its LBN.
#[derive(Drop)]
pub struct Image {
    kept: Kept,
}

/// The blocks of an image.
#[derive(Drop)]
enum Kept {
    /// In a list of its own, where they change in place.
    Alone(Vec<Block>),
    /// Over blocks that others share.
    Over(Overlay),
}

impl Model for Image {
    ghost use Rattle.std.specs.Prelude.{List, ℕ};
    ghost use Rattle.ods_base.specs.Image.{IsImage};
    ghost use Rattle.ods_base.specs.Kept.{blocks_of};

    ghost Value = { List (List ℕ) };

    ghost view = { λ i. blocks_of i.kept };

    ghost invariant = { λ i. IsImage (blocks_of i.kept) };
}

/// The number of blocks of the largest image.
pub const MAX_BLOCKS: u32 = 1_048_576;

/// The number of bytes of the largest image.
pub const MAX_BYTES: usize = 536_870_912;

/// The most bytes that one read requests, and that one write passes on. An image of a floppy needs some 4 system calls.
pub const PIECE: usize = 65_536;

impl Image {
    /// Makes an image of these bytes. `TooBig` takes precedence over `NotWholeBlocks`. If the bytes are whole blocks within the limit, the only error
    /// is out of memory.
    pub fn from_bytes(alloc: Global, bytes: &[u8]) -> Result<Image, ImageError>
        ensures ok { IfOk result (λ image. IsImage image × (image_bytes image ≡ bytes.now)) }
        ensures err { IfErr result (IsNoImage bytes.now) }
    {
        if bytes.len() > MAX_BYTES {
            return Err(ImageError::TooBig);
        }
        if bytes.len() % 512 != 0 {
            return Err(ImageError::NotWholeBlocks);
        }
        let mut blocks = Vec::with_capacity(alloc, bytes.len() / 512)?;
        store_whole_blocks(&mut blocks, bytes)?;
        Ok(Image::alone(blocks))
    }

    /// The image of these blocks, alone with them.
    pub(crate) fn alone(blocks: Vec<Block>) -> Image
        requires { IsImage blocks.items }
        ensures { result ≡ blocks.items }
    {
        let kept = Kept::Alone(blocks);
        Image { kept }
    }

    /// The image over shared blocks.
    fn over(overlay: Overlay) -> Image
        ensures { result ≡ overlay }
    {
        let _ = overlay.len();
        let kept = Kept::Over(overlay);
        Image { kept }
    }

    /// Returns the number of blocks.
    pub fn len(&self) -> u32
        ensures value { result ≡ length self.now }
        ensures image { IsImage self.now }
    {
        match &self.kept {
            Kept::Alone(blocks) => blocks.len() as u32,
            Kept::Over(overlay) => overlay.len(),
        }
    }

    /// Returns whether the image has no blocks.
    pub fn is_empty(&self) -> bool
        ensures { result ≡ (length self.now == 0) }
    {
        self.len() == 0
    }

    /// Returns the block at this LBN.
    pub fn block(&self, lbn: u32) -> &Block
        requires { lbn < length self.now }
        ensures value { result.now ≡ block_at self.now lbn }
        ensures block { IsBlock result.now }
    {
        match &self.kept {
            Kept::Alone(blocks) => &blocks[lbn as usize],
            Kept::Over(overlay) => overlay.block(lbn),
        }
    }

    /// Replaces the block at this LBN.
    pub fn set_block(&mut self, lbn: u32, block: Block)
        requires { lbn < length self.old }
        ensures { self.new ≡ slice_set self.old lbn block }
    {
        self.copy_block(lbn, &block);
    }

    /// Replaces the block at this LBN with a copy of `block`. The block is copied once.
    pub fn copy_block(&mut self, lbn: u32, block: &Block)
        requires { lbn < length self.old }
        ensures { self.new ≡ slice_set self.old lbn block.now }
    {
        let _ = block.bytes();
        match &mut self.kept {
            Kept::Alone(blocks) => blocks[lbn as usize] = *block,
            Kept::Over(overlay) => overlay.set_block(lbn, block),
        }
    }

    /// Replaces the block at this LBN with zeros. In an image over a fixed one, all blocks that became zeros before they had their own seat share one
    /// block of zeros.
    pub fn set_zeros(&mut self, lbn: u32)
        requires { lbn < length self.old }
        ensures { self.new ≡ slice_set self.old lbn zeros }
    {
        let block = Block::zeros();
        match &mut self.kept {
            Kept::Alone(blocks) => blocks[lbn as usize] = block,
            Kept::Over(overlay) => overlay.set_zeros(lbn),
        }
    }

    /// Returns an equal image. A copy of an image over a fixed one shares its base. Otherwise the copy has its own blocks.
    pub fn copy(&self) -> Result<Image, AllocError>
        ensures { IfOk result (λ image. image ≡ self.now) }
    {
        match &self.kept {
            Kept::Alone(blocks) => {
                let copied = Vec::from_slice(*blocks.allocator(), blocks)?;
                Ok(Image::alone(copied))
            }
            Kept::Over(overlay) => {
                let copied = overlay.copy()?;
                Ok(Image::over(copied))
            }
        }
    }

    /// Splits the image into a fixed one and an equal image over it, with reserved room to change each block. When out of memory, it returns the
    /// image unchanged.
    pub fn split(self) -> Result<(FixedImage, Image), Image>
        ensures ok { IfOk result (λ two. (two.0 ≡ self) × (two.1 ≡ self)) }
        ensures err { IfErr result (λ image. image ≡ self) }
    {
        let blocks = self.into_blocks()?;
        let Ok((seats, own)) = room_for(*blocks.allocator(), blocks.len()) else {
            return Err(Image::alone(blocks));
        };
        match FixedImage::new(blocks) {
            Ok(base) => match base.another() {
                Ok(fixed) => Ok((fixed, Image::over(Overlay::new(base, seats, own)))),
                Err(_) => Err(Image::over(Overlay::new(base, seats, own))),
            },
            Err(blocks) => Err(Image::alone(blocks)),
        }
    }

    /// The blocks, in a list of their own. After a refusal the image comes back.
    pub(crate) fn into_blocks(self) -> Result<Vec<Block>, Image>
        ensures ok { IfOk result (λ blocks. blocks.items ≡ self) }
        ensures image { IsImage self }
        ensures err { IfErr result (λ image. image ≡ self) }
    {
        let _ = self.len();
        match self.kept {
            Kept::Alone(blocks) => Ok(blocks),
            Kept::Over(overlay) => match overlay.gather() {
                Ok(blocks) => Ok(blocks),
                Err(_) => Err(Image::over(overlay)),
            },
        }
    }
}

/// Two images are equal if their blocks have the same bytes.
impl PartialEq for Image {
    ghost use Rattle.std.specs.Prelude.{nat_eq};
    ghost use Rattle.std.specs.Cmp.{partial_equiv_from_equiv};
    ghost use Rattle.std.specs.Cmp.Lexicographic.{pointwise, lists_per, nat_list_eq_equiv};

    ghost eq = { pointwise (pointwise nat_eq) };

    ghost laws = { lists_per (partial_equiv_from_equiv nat_list_eq_equiv) };

    fn eq(&self, other: &Image) -> bool {
        same_blocks(self, other)
    }
}

/// Whether two images have the same blocks.
fn same_blocks(one: &Image, other: &Image) -> bool
    ensures { MatchBool result (one.now ≡ other.now) (one.now ≢ other.now) }
{
    if one.len() != other.len() {
        return false;
    }
    for lbn in 0..one.len() {
        if one.block(lbn) != other.block(lbn) {
            return false;
        }
    }
    true
}

/// Room for each of so many blocks to be changed: no seat, and a block of zeros.
fn room_for(alloc: Global, count: usize) -> Result<(Vec<u32>, Vec<Block>), AllocError>
    requires { count ≤ 2 ^ 20 }
    ensures seats { IfOk result (λ room. (room.0.items ≡ []) × (count ≤ vec_capacity room.0)) }
    ensures own { IfOk result (λ room. (room.1.items ≡ zeros ∷ []) × (count < vec_capacity room.1)) }
{
    let seats = Vec::with_capacity(alloc, count)?;
    let mut own = Vec::with_capacity(alloc, count + 1)?;
    own.push_reserved(Block::zeros());
    Ok((seats, own))
}
