//! The blocks of BITMAP.SYS, with the number of contiguous ones, so that no caller has to count them.
ghost use Rattle.std.specs.Prelude.{◌≡◌, IfOk};
ghost use Rattle.ods_space.specs.BitmapRun.{IsBitmapRun};

use std::alloc::{AllocError, Global};
use std::marker::Model;

/// The blocks of BITMAP.SYS in order. A contract sees these alone.
#[derive(Drop)]
pub(crate) struct BitmapBlocks {
    blocks: Vec<u32>,
    run: usize,
}

impl Model for BitmapBlocks {
    ghost use Rattle.std.specs.Prelude.{List, ℕ};
    ghost use Rattle.ods_space.specs.BitmapRun.{IsBitmapRun};

    ghost Value = { List ℕ };

    ghost view = { λ b. b.blocks.items };

    ghost invariant = { λ b. IsBitmapRun b.blocks.items b.run };
}

/// How many blocks from the first one that has bits on stand one behind the other, as all do in a contiguous BITMAP.SYS.
fn run_of(blocks: &[u32]) -> usize
    ensures { IsBitmapRun blocks.now result }
{
    let size = blocks.len().saturating_sub(1);
    let mut run = 0;
    while run < size && blocks[run + 1] as u64 == blocks[1] as u64 + run as u64 {
        run += 1;
    }
    run
}

impl BitmapBlocks {
    ghost use Rattle.std.specs.Prelude.{[]};

    /// These blocks.
    pub(crate) fn of(blocks: Vec<u32>) -> BitmapBlocks
        ensures { result ≡ blocks.items }
    {
        let run = run_of(&blocks);
        BitmapBlocks { blocks, run }
    }

    /// No block.
    pub(crate) fn none(alloc: Global) -> BitmapBlocks
        ensures { result ≡ [] }
    {
        BitmapBlocks {
            blocks: Vec::new(alloc),
            run: 0,
        }
    }

    /// These blocks once more, in memory of their own.
    pub(crate) fn copy(&self) -> Result<BitmapBlocks, AllocError>
        ensures { IfOk result (λ copy. copy ≡ self.now) }
    {
        let blocks = Vec::from_slice(*self.blocks.allocator(), &self.blocks)?;
        Ok(BitmapBlocks {
            blocks,
            run: self.run,
        })
    }

    /// The blocks.
    pub(crate) fn as_slice(&self) -> &[u32]
        ensures { result.now ≡ self.now }
    {
        self.blocks.as_slice()
    }

    /// How many stand one behind the other, from the first one that has bits on.
    pub(crate) fn run(&self) -> usize
        ensures { IsBitmapRun self.now result }
    {
        self.run
    }
}
