//! Counts of free blocks and of clear index bits, one for each block of the bitmaps. A volume keeps them next to its image, so that a search skips
//! each bitmap block without free ones.
use crate::counting::{Bitmap, count_blocks, count_numbers, next_changed, recount, size_of};
use ods_space::{Disk, Draft};
use std::alloc::{AllocError, Global};
use std::marker::Model;

/// The number of free blocks in each block of the storage bitmap, and of clear bits in each block of the index bitmap.
#[derive(Drop)]
pub struct FreeCounts {
    blocks: Vec<u32>,
    numbers: Vec<u32>,
}

impl Model for FreeCounts {
    ghost use Rattle.std.specs.Prelude.{◌≤◌, ◌^◌};
    ghost use Rattle.std.specs.List.{sum};
    ghost use Rattle.ods_alloc.specs.Counts.{Counts};

    ghost Value = { Counts };

    ghost view = { λ f. record { blocks = f.blocks.items; numbers = f.numbers.items } };

    // An image has at most so many blocks, so the counts can be added up.
    ghost invariant = { λ f. sum f.blocks.items ≤ 2 ^ 20 };
}

impl FreeCounts {
    ghost use Rattle.std.specs.Prelude.{◌≡◌, ℕ, List, length, IfOk};
    ghost use Rattle.ods_space.specs.{Layout.VolumeLayout, Files.IsLayoutOf, Free.free_blocks, Draft.applied};
    ghost use Rattle.ods_alloc.specs.Counts.{counts_of, AreCountsAfter};
    ghost use Rattle.ods_space.specs.Disks.{on, seen};

    /// Computes the counts of an image.
    pub fn of(alloc: Global, disk: &Disk<'_>) -> Result<FreeCounts, AllocError>
        requires { on IsLayoutOf disk.now }
        ensures { IfOk result (λ counts. counts ≡ seen counts_of disk.now) }
    {
        let blocks = count_blocks(alloc, disk)?;
        let numbers = count_numbers(alloc, disk.image, &disk.layout.home())?;
        Ok(FreeCounts { blocks, numbers })
    }

    /// Returns the counts after a draft is applied, or `None` if it changes no block of either bitmap. Only the changed blocks are counted again.
    pub fn after(&self, disk: &Disk<'_>, draft: &Draft) -> Result<Option<FreeCounts>, AllocError>
        requires layout { on IsLayoutOf disk.now }
        requires counts { self.now ≡ seen counts_of disk.now }
        ensures { IfOk result (AreCountsAfter disk.now.image.now (applied disk.now.image.now draft.now) disk.now.layout.now) }
    {
        let storage = next_changed(disk, draft, Bitmap::Storage, 0);
        let index = next_changed(disk, draft, Bitmap::Index, 0);
        let storage_end = size_of(disk.layout, Bitmap::Storage);
        let index_end = size_of(disk.layout, Bitmap::Index);
        if storage == storage_end && index == index_end {
            return Ok(None);
        }
        // An image has at most 2 ^ 20 blocks.
        let _ = disk.image.len();
        let mut blocks = Vec::from_slice(*self.blocks.allocator(), &self.blocks)?;
        recount(disk, draft, Bitmap::Storage, storage, &mut blocks);
        let mut numbers = Vec::from_slice(*self.numbers.allocator(), &self.numbers)?;
        recount(disk, draft, Bitmap::Index, index, &mut numbers);
        Ok(Some(FreeCounts { blocks, numbers }))
    }

    /// Returns the total number of free blocks.
    pub fn total(&self) -> u32
        ensures { (I : List (List ℕ)) (L : VolumeLayout) → IsLayoutOf I L → self.now ≡ counts_of I L → result ≡ length (free_blocks I L) }
    {
        let mut total = 0;
        for count in &self.blocks {
            total += *count;
        }
        total
    }

    /// Returns the number of free blocks that each block of the storage bitmap covers.
    pub fn as_slice(&self) -> &[u32]
        ensures { result.now ≡ self.now.blocks }
    {
        self.blocks.as_slice()
    }

    /// How many bits of each block of the index bitmap are clear.
    pub(crate) fn numbers(&self) -> &[u32]
        ensures { result.now ≡ self.now.numbers }
    {
        self.numbers.as_slice()
    }
}
