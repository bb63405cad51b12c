//! Blocks of an image that are all set to one block. A draft marks the blocks that it sets to zeros as empty.
ghost use Rattle.std.specs.Prelude.{◌≡◌, ◌<◌, false, true, [], length, slice_set};
ghost use Rattle.ods_base.specs.{Block.IsBlock, Block.zeros, Bits.HasBit};
ghost use Rattle.ods_space.specs.{Draft.applied, Changes.filled};

use ods_base::{Block, Image, set_bit};
use ods_header::Run;
use std::marker::Model;

/// The block that a change puts. Where it is marked as empty it is known to be of zeros, and an image need not keep it.
#[derive(Clone, Copy)]
pub(crate) struct Filling {
    block: Block,
    empty: bool,
}

impl Model for Filling {
    ghost use Rattle.std.specs.Prelude.{◌≡◌, ℕ, List, Bool, IsTrue};
    ghost use Rattle.ods_base.specs.{Block.zeros};

    ghost Value = { List ℕ × Bool };

    ghost view = { λ f. (f.block, f.empty) };

    ghost invariant = { λ f. IsTrue f.empty → f.block ≡ zeros };

    ghost inverse = { λ f. record { block = f.0; empty = f.1 } };
}

impl Filling {
    /// This block, of which nothing is known.
    pub(crate) fn of(block: Block) -> Filling
        ensures { result ≡ (block, false) }
    {
        Filling {
            block,
            empty: false,
        }
    }

    /// A block of zeros.
    pub(crate) fn zeros() -> Filling
        ensures { result ≡ (zeros, true) }
    {
        Filling {
            block: Block::zeros(),
            empty: true,
        }
    }

    /// The block.
    pub(crate) fn block(&self) -> &Block
        ensures value { result.now ≡ self.now.0 }
        ensures block { IsBlock self.now.0 }
    {
        let _ = self.block.bytes();
        &self.block
    }

    /// Sets or clears bit `i` of the block, of which nothing is known then.
    pub(crate) fn set_bit(&mut self, i: u32, value: bool)
        requires { i < 4096 }
        ensures { HasBit self.old.0 i value self.new.0 }
    {
        self.empty = false;
        set_bit(&mut self.block, i, value);
    }

    /// The block at this LBN becomes this one.
    fn put(&self, image: &mut Image, lbn: u32)
        requires { lbn < length image.old }
        ensures { image.new ≡ slice_set image.old lbn self.now.0 }
    {
        if self.empty {
            image.set_zeros(lbn);
        } else {
            image.copy_block(lbn, &self.block);
        }
    }
}

/// The blocks of the run become this one, as far as the image has them.
pub(crate) fn fill(image: &mut Image, run: &Run, filling: &Filling)
    ensures { image.new ≡ applied image.old (filled run.now filling.now.0 []) }
{
    let end = image.len().min(run.lbn.saturating_add(run.count as u32));
    for lbn in run.lbn..end {
        filling.put(image, lbn);
    }
}
