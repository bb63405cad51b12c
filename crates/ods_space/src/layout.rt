//! The locations of a volume's structures.
ghost use Rattle.std.specs.Prelude.{◌≡◌, ◌≤◌, IfOk, IfErr};
ghost use Rattle.std.specs.Vec.{vec_capacity};
ghost use Rattle.ods_header.specs.Home.{IsHomeOf as IsHome};
ghost use Rattle.ods_space.specs.{BitmapRun.IsBitmapRun, Faults.IsLayoutFault as IsFault, Faults.IsOfIndex as IsOfFirst, Faults.IsWholeIndex, Layout.most_index_blocks as most_blocks, Layout.place_of, Layout.with_places};

use crate::LayoutFault;
use crate::bitmap_blocks::BitmapBlocks;
use crate::headers::{most_index_blocks, place};
use crate::system::{read_bitmap, read_index};
use ods_base::Image;
use ods_header::Home;
use std::alloc::{AllocError, Global};
use std::marker::Model;

/// The fields of the home block, and the blocks of INDEXF.SYS and BITMAP.SYS. A layout has room for the most blocks that INDEXF.SYS can ever have, 4
/// bytes each and 512 KiB at most, so it grows without allocation.
#[derive(Drop)]
pub struct Layout {
    home: Home,
    index: Vec<u32>,
    bitmap: BitmapBlocks,
}

impl Model for Layout {
    ghost use Rattle.std.specs.Prelude.{List, ℕ, ◌+◌, ◌≤◌, ◌^◌};
    ghost use Rattle.std.specs.Vec.{vec_capacity};
    ghost use Rattle.ods_space.specs.Layout.{VolumeLayout, most_index_blocks};

    ghost Value = { VolumeLayout };

    ghost view = { λ l. record { home = l.home; index = l.index.items; bitmap = l.bitmap } };

    // Header 1 stands in an image; and there is room for the most blocks of INDEXF.SYS.
    ghost invariant = { λ l. (l.home.index_bitmap_lbn + l.home.index_bitmap_size ≤ 2 ^ 20) × (most_index_blocks l.home ≤ vec_capacity l.index) };
}

impl Layout {
    ghost use Rattle.std.specs.Prelude.{[], IfOk, IfErr};
    ghost use Rattle.ods_header.specs.Home.{IsHomeOf};
    ghost use Rattle.ods_space.specs.{Files.FindsFiles, Files.IsLayoutOf, Faults.IsLayoutFault, Faults.IsOfIndex};

    /// Reads the blocks of INDEXF.SYS and BITMAP.SYS, and reserves room for the most blocks that INDEXF.SYS can ever have. The fault is out of
    /// memory, or the fault of file 1 or 2: it does not exist, or its chain is not whole.
    pub fn read(alloc: Global, image: &Image, home: Home) -> Result<Layout, LayoutFault>
        requires { IsHomeOf image.now home }
        ensures ok { IfOk result (λ layout. IsLayoutOf image.now layout × (layout.home ≡ home)) }
        ensures err { IfErr result (IsLayoutFault image.now home) }
    {
        let index = match roomy_index(alloc, image, &home) {
            Ok(index) => index,
            Err(fault) => return Err(fault),
        };
        match read_bitmap(alloc, image, &home, &index) {
            Ok(bitmap) => Ok(Layout {
                home,
                index,
                bitmap: BitmapBlocks::of(bitmap),
            }),
            Err(fault) => Err(fault),
        }
    }

    /// Reads the blocks of INDEXF.SYS, which locate every file. The list of the blocks of BITMAP.SYS is empty. The fault is out of memory, or the
    /// fault of file 1.
    pub fn read_index(alloc: Global, image: &Image, home: Home) -> Result<Layout, LayoutFault>
        requires { IsHomeOf image.now home }
        ensures ok { IfOk result (λ layout. FindsFiles image.now layout × (layout.home ≡ home) × (layout.bitmap ≡ [])) }
        ensures err { IfErr result (IsLayoutFault image.now home) }
        ensures first { IfErr result IsOfIndex }
    {
        match roomy_index(alloc, image, &home) {
            Ok(index) => Ok(Layout {
                home,
                index,
                bitmap: BitmapBlocks::none(alloc),
            }),
            Err(fault) => Err(fault),
        }
    }

    /// Returns an equal layout, with room of its own.
    pub fn copy(&self) -> Result<Layout, AllocError>
        ensures { IfOk result (λ copy. copy ≡ self.now) }
    {
        let room = most_index_blocks(&self.home).max(self.index.len());
        let mut index = Vec::with_capacity(*self.index.allocator(), room)?;
        index.extend_from_slice(&self.index)?;
        let bitmap = self.bitmap.copy()?;
        Ok(Layout {
            home: self.home,
            index,
            bitmap,
        })
    }

    /// Returns the fields of the home block.
    pub fn home(&self) -> Home
        ensures { result ≡ self.now.home }
    {
        self.home
    }

    /// Returns the blocks of INDEXF.SYS.
    pub fn index(&self) -> &[u32]
        ensures { result.now ≡ self.now.index }
    {
        self.index.as_slice()
    }

    /// Returns the blocks of BITMAP.SYS.
    pub fn bitmap(&self) -> &[u32]
        ensures { result.now ≡ self.now.bitmap }
    {
        self.bitmap.as_slice()
    }

    /// Returns the number of contiguous blocks of BITMAP.SYS, from the first block with bits on.
    pub fn bitmap_run(&self) -> usize
        ensures { IsBitmapRun self.now.bitmap result }
    {
        self.bitmap.run()
    }

    /// Appends these LBNs to the blocks of INDEXF.SYS, in order. LBNs beyond the most blocks that it can ever have are ignored. Room is reserved for
    /// the others, so it allocates no memory and never fails.
    pub fn grow(&mut self, places: &[u32])
        ensures { self.new ≡ with_places self.old places.now }
    {
        let room = most_index_blocks(&self.home).saturating_sub(self.index.len());
        let few = places.len().min(room);
        match self.index.extend_from_slice(&places[..few]) {
            Ok(()) => {}
            Err(_) => unreachable!(),
        }
    }

    /// Returns the LBN of header `number`, or `None` if the layout has none.
    pub fn place(&self, number: u16) -> Option<u32>
        ensures { result ≡ place_of self.now number }
    {
        match place(&self.home, &self.index, number) {
            Some(at) => Some(at as u32),
            None => None,
        }
    }
}

/// The blocks of INDEXF.SYS, with room for the most that it may ever have.
fn roomy_index(alloc: Global, image: &Image, home: &Home) -> Result<Vec<u32>, LayoutFault>
    requires { IsHome image.now home.now }
    ensures ok { IfOk result (λ index. IsWholeIndex image.now home.now index.items) }
    ensures room { IfOk result (λ index. most_blocks home.now ≤ vec_capacity index) }
    ensures err { IfErr result (IsFault image.now home.now) }
    ensures first { IfErr result IsOfFirst }
{
    let mut index = match read_index(alloc, image, home) {
        Ok(index) => index,
        Err(fault) => return Err(fault),
    };
    let room = most_index_blocks(home).saturating_sub(index.len());
    if index.reserve_exact(room).is_err() {
        return Err(LayoutFault::NoMemory);
    }
    Ok(index)
}
