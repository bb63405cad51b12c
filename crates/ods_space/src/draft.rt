//! Drafts: changes of single blocks, to be applied all at once.
use crate::fill::{Filling, fill};
use ods_base::{Block, Image};
use ods_header::Run;
use std::alloc::{AllocError, Global};
use std::marker::Model;

/// One change: each block of the run becomes this one. The block comes first, so that a block of an image is copied once where it
/// becomes part of a change.
#[derive(Clone, Copy)]
struct Change {
    filling: Filling,
    run: Run,
}

impl Change {
    ghost use Rattle.std.specs.Prelude.{◌≡◌, ◌≤◌, true, [], Some, None, IfSome, IfNone};
    ghost use Rattle.ods_base.specs.Block.{IsBlock};
    ghost use Rattle.ods_space.specs.{Draft.change_at, Draft.applied, Draft.IsNextChange, Changes.IsOf, Changes.changed};

    /// Whether this change is of the block at this LBN alone.
    fn is_of(&self, lbn: u32) -> bool
        ensures { result ≡ true → IsOf lbn self.now }
    {
        self.run.lbn == lbn && self.run.count == 1
    }

    /// The least LBN from `from` on and below `to` that this change is of, or `to` for none.
    fn next(&self, from: u64, to: u64) -> u64
        requires { from ≤ to }
        ensures { IsNextChange (changed self.now []) from to result }
    {
        let end = self.run.lbn as u64 + self.run.count as u64;
        let at = from.max(self.run.lbn as u64);
        if at < end { at.min(to) } else { to }
    }

    /// The block that stands at this LBN by this change.
    fn block(&self, lbn: u32) -> Option<&Block>
        ensures some { IfSome result (λ block. change_at (changed self.now []) lbn ≡ Some block.now) }
        ensures block { IfSome result (λ block. IsBlock block.now) }
        ensures none { IfNone result (change_at (changed self.now []) lbn ≡ None) }
    {
        if self.run.lbn <= lbn && lbn - self.run.lbn < self.run.count as u32 {
            Some(self.filling.block())
        } else {
            None
        }
    }

    /// What it puts is a block.
    fn is_block(&self)
        ensures { IsBlock self.now.filling.0 }
    {
        let _ = self.filling.block();
    }

    /// Makes this change.
    fn make(&self, image: &mut Image)
        ensures { image.new ≡ applied image.old (changed self.now []) }
    {
        fill(image, &self.run, &self.filling);
    }
}

/// Changes of single blocks of an image, to be applied all at once.
#[derive(Drop)]
pub struct Draft {
    changes: Vec<Change>,
}

impl Model for Draft {
    ghost use Rattle.std.specs.Prelude.{List, ℕ};
    ghost use Rattle.ods_space.specs.Draft.{Changes};

    ghost Value = { Changes };

    ghost use Rattle.ods_space.specs.Changes.{changes_of};

    ghost view = { λ d. changes_of d.changes.items };
}

impl Draft {
    ghost use Rattle.std.specs.Prelude.{◌≡◌, ◌<◌, ◌≤◌, ◌∷◌, ℕ, List, [], length, IfOk, OnOk, OnErr};
    ghost use Rattle.ods_base.specs.{Block.IsBlock, Image.IsImage};
    ghost use Rattle.ods_space.specs.Draft.{ChangesBit, IsNextChange, seen_at, applied, zeroed};

    /// Makes a draft without changes.
    pub fn new(alloc: Global) -> Draft
        ensures { result ≡ [] }
    {
        Draft {
            changes: Vec::new(alloc),
        }
    }

    /// Returns the block at this LBN, read through the draft. The newest change counts.
    pub fn block<'a>(&'a self, image: &'a Image, lbn: u32) -> &'a Block
        requires { lbn < length image.now }
        ensures value { result.now ≡ seen_at image.now self.now lbn }
        ensures block { IsBlock result.now }
    {
        for k in (0..self.changes.len()).rev() {
            if let Some(block) = self.changes[k].block(lbn) {
                return block;
            }
        }
        image.block(lbn)
    }

    /// Returns the least changed LBN in `from..to`, or `to` if there is none.
    pub fn next_change(&self, from: u64, to: u64) -> u64
        requires { from ≤ to }
        ensures { IsNextChange self.now from to result }
    {
        let mut at = to;
        for change in &self.changes {
            at = change.next(from, at);
        }
        at
    }

    /// Adds a change of one block. After an `Err` the draft is unchanged.
    pub fn set(&mut self, lbn: u32, block: Block) -> Result<(), AllocError>
        ensures ok { OnOk result (self.new ≡ (lbn, block) ∷ self.old) }
        ensures err { OnErr result (self.new ≡ self.old) }
    {
        self.changes.reserve(1)?;
        let filling = Filling::of(block);
        let run = Run { lbn, count: 1 };
        self.changes.push_reserved(Change { filling, run });
        Ok(())
    }

    /// Adds a change of one block, or replaces the newest change if that is of the same block. The draft then has the same effect on an image as
    /// after `set`. After an `Err` the draft is unchanged.
    pub fn renew(&mut self, lbn: u32, block: Block) -> Result<(), AllocError>
        ensures ok { OnOk result ((I : List (List ℕ)) → applied I self.new ≡ applied I ((lbn, block) ∷ self.old)) }
        ensures err { OnErr result (self.new ≡ self.old) }
    {
        let count = self.changes.len();
        if 0 < count && self.changes[count - 1].is_of(lbn) {
            self.changes[count - 1].filling = Filling::of(block);
            return Ok(());
        }
        self.set(lbn, block)
    }

    /// Sets or clears bit `i` of a block, as the draft has it. If the newest change is of that block, it is changed in place. After an `Err` the
    /// draft is unchanged.
    pub fn put_bit(
        &mut self,
        image: &Image,
        lbn: u32,
        i: u32,
        value: bool,
    ) -> Result<(), AllocError>
        requires inside { lbn < length image.now }
        requires bit { i < 4096 }
        ensures ok { OnOk result (ChangesBit image.now self.old lbn i value self.new) }
        ensures err { OnErr result (self.new ≡ self.old) }
    {
        let count = self.changes.len();
        if 0 < count && self.changes[count - 1].is_of(lbn) {
            self.changes[count - 1].filling.set_bit(i, value);
            return Ok(());
        }
        self.add_bit(image, lbn, i, value)
    }

    /// Does what `put_bit` does, by one change more.
    fn add_bit(&mut self, image: &Image, lbn: u32, i: u32, value: bool) -> Result<(), AllocError>
        requires inside { lbn < length image.now }
        requires bit { i < 4096 }
        ensures ok { OnOk result (ChangesBit image.now self.old lbn i value self.new) }
        ensures err { OnErr result (self.new ≡ self.old) }
    {
        let count = self.changes.len();
        self.changes.reserve(1)?;
        let filling = Filling::of(*self.block(image, lbn));
        let one = Run { lbn, count: 1 };
        self.changes.push_reserved(Change { filling, run: one });
        self.changes[count].filling.set_bit(i, value);
        Ok(())
    }

    /// Changes the blocks of a run to zeros. After an `Err` the draft is unchanged.
    pub fn zero(&mut self, run: Run) -> Result<(), AllocError>
        ensures ok { OnOk result (self.new ≡ zeroed run self.old) }
        ensures err { OnErr result (self.new ≡ self.old) }
    {
        self.changes.reserve(1)?;
        let filling = Filling::zeros();
        self.changes.push_reserved(Change { filling, run });
        Ok(())
    }

    /// Returns an equal draft, with room for the usual additions to a copy: a header, and a block of each bitmap.
    pub fn copy(&self) -> Result<Draft, AllocError>
        ensures { IfOk result (λ copy. copy ≡ self.now) }
    {
        let room = self.changes.len().saturating_add(3);
        let mut changes = Vec::with_capacity(*self.changes.allocator(), room)?;
        changes.extend_from_slice(&self.changes)?;
        Ok(Draft { changes })
    }

    /// Applies the changes to an image, the oldest first. Changes of blocks that the image lacks have no effect. A block without a change is
    /// unchanged.
    pub fn apply(&self, image: &mut Image)
        ensures { image.new ≡ applied image.old self.now }
    {
        for change in &self.changes {
            change.make(image);
        }
    }

    /// Checks each change once, so that contracts know that the image with the changes is an image: blocks of 512 bytes.
    pub fn makes_image(&self, image: &Image)
        ensures { IsImage (applied image.now self.now) }
    {
        let _ = image.len();
        for change in &self.changes {
            change.is_block();
        }
    }
}
