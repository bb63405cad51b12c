//! Images over shared blocks. The changed blocks are stored next to the base.
ghost use Rattle.std.specs.Prelude.{◌≡◌, ◌<◌, length, slice_set, IfOk};
ghost use Rattle.ods_base.specs.{Block.IsBlock, Block.zeros, Image.IsImage, Image.block_at};

use crate::seats::{put_block, put_zeros, seat_of};
use crate::{Block, FixedImage};
use std::alloc::AllocError;
use std::marker::Model;

/// An image over blocks that others share. It has room for each of its blocks to be changed, which is taken when it is made, so that
/// a change takes none.
#[derive(Drop)]
pub(crate) struct Overlay {
    /// The blocks as they were, which never change.
    base: FixedImage,
    /// Where each block that changed stands in `own`, counted from 1; 0, or nothing, for one that did not.
    seats: Vec<u32>,
    /// A block of zeros, and behind it the other blocks that changed, as they are now.
    own: Vec<Block>,
}

impl Model for Overlay {
    ghost use Rattle.std.specs.Prelude.{List, ℕ};
    ghost use Rattle.std.specs.Vec.{vec_capacity};
    ghost use Rattle.ods_base.specs.Overlay.{overlaid, IsHeld};

    ghost Value = { List (List ℕ) };

    ghost view = { λ i. overlaid i.base i.seats.items i.own.items };

    ghost invariant = { λ i. IsHeld i.base i.seats.items i.own.items (vec_capacity i.seats) (vec_capacity i.own) };
}

impl Overlay {
    ghost use Rattle.std.specs.Prelude.{◌∷◌, ◌≤◌, [], IfErr};
    ghost use Rattle.std.specs.Vec.{vec_capacity};

    /// The image as this base is, with this room for changes: no seat, and a block of zeros.
    pub(crate) fn new(base: FixedImage, seats: Vec<u32>, own: Vec<Block>) -> Overlay
        requires seats { seats.items ≡ [] }
        requires own { own.items ≡ zeros ∷ [] }
        requires seat_room { length base ≤ vec_capacity seats }
        requires room { length base < vec_capacity own }
        ensures { result ≡ base }
    {
        let _ = base.len();
        Overlay { base, seats, own }
    }

    /// The number of blocks.
    pub(crate) fn len(&self) -> u32
        ensures value { result ≡ length self.now }
        ensures image { IsImage self.now }
    {
        self.base.len()
    }

    /// The block at this LBN.
    pub(crate) fn block(&self, lbn: u32) -> &Block
        requires { lbn < length self.now }
        ensures value { result.now ≡ block_at self.now lbn }
        ensures block { IsBlock result.now }
    {
        let seat = seat_of(&self.seats, lbn as usize);
        if seat == 0 {
            self.base.block(lbn)
        } else {
            &self.own[seat - 1]
        }
    }

    /// Replaces the block at this LBN.
    pub(crate) fn set_block(&mut self, lbn: u32, block: &Block)
        requires { lbn < length self.old }
        ensures { self.new ≡ slice_set self.old lbn block.now }
    {
        let _ = block.bytes();
        let count = self.base.len();
        put_block(&mut self.seats, &mut self.own, count, lbn as usize, block);
    }

    /// The block at this LBN becomes zeros.
    pub(crate) fn set_zeros(&mut self, lbn: u32)
        requires { lbn < length self.old }
        ensures { self.new ≡ slice_set self.old lbn zeros }
    {
        let count = self.base.len();
        put_zeros(&mut self.seats, &mut self.own, count, lbn as usize);
    }

    /// An equal image over the same base, with room of its own for changes.
    pub(crate) fn copy(&self) -> Result<Overlay, AllocError>
        ensures { IfOk result (λ image. image ≡ self.now) }
    {
        let alloc = *self.own.allocator();
        let count = self.base.len() as usize;
        let mut seats = Vec::with_capacity(alloc, count)?;
        seats.extend_from_slice(&self.seats)?;
        let mut own = Vec::with_capacity(alloc, count + 1)?;
        own.extend_from_slice(&self.own)?;
        let base = self.base.another()?;
        Ok(Overlay { base, seats, own })
    }

    /// The blocks, in a list of their own.
    pub(crate) fn gather(&self) -> Result<Vec<Block>, AllocError>
        ensures { IfOk result (λ blocks. blocks.items ≡ self.now) }
    {
        let mut blocks = Vec::with_capacity(*self.own.allocator(), self.len() as usize)?;
        for lbn in 0..self.len() {
            blocks.push(*self.block(lbn))?;
        }
        Ok(blocks)
    }
}
