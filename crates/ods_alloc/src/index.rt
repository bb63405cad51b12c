//! INDEXF.SYS grows: it receives blocks, and its last header receives the pointers to them, in a draft of their own.
ghost use Rattle.std.specs.Prelude.{◌≡◌, ◌<◌, ◌≤◌, ◌/◌, ℕ, length, IfOk};
ghost use Rattle.std.specs.List.{All, Contains};
ghost use Rattle.ods_base.specs.Image.{IsImage};
ghost use Rattle.ods_header.specs.Header.{room_of};
ghost use Rattle.ods_space.specs.{Draft.applied, Files.IsLayoutOf};
ghost use Rattle.ods_alloc.specs.{Ends.IsHeaderAt, Extend.IsWellPlaced, Extend.cut, Zeroed.AppendsBlocks};
ghost use Rattle.ods_space.specs.Disks.{on};

use crate::bitmap::mark_blocks;
use crate::zero::zero_runs;
use ods_base::Block;
use ods_header::{Run, append_runs};
use ods_space::{Disk, Draft};
use std::alloc::{AllocError, Global};

/// Makes the draft that appends these blocks to INDEXF.SYS. They become zeros and are marked as used, and the last header `last` receives the
/// pointers in `runs`. No other block changes. The only error is out of memory.
pub fn grow_index(
    alloc: Global,
    disk: &Disk<'_>,
    end: u16,
    last: &Block,
    blocks: &[u32],
    runs: &[Run],
) -> Result<Draft, AllocError>
    requires layout { on IsLayoutOf disk.now }
    requires places { IsWellPlaced disk.now.layout.now }
    requires last { on IsHeaderAt disk.now end last.now }
    requires runs { runs.now ≡ cut blocks.now }
    requires room { length (cut blocks.now) ≤ room_of last.now / 2 }
    requires inside { All (λ b. b < length disk.now.image.now) blocks.now }
    requires apart { (b : ℕ) → Contains blocks.now b → ¬ Contains disk.now.layout.now.index b × ¬ Contains disk.now.layout.now.bitmap b }
    ensures appends { IfOk result (λ d. on AppendsBlocks disk.now end blocks.now (applied disk.now.image.now d)) }
    // What the image becomes is an image.
    ensures image { IfOk result (λ d. IsImage (applied disk.now.image.now d)) }
{
    // An image has fewer blocks than a pointer can say.
    let _ = disk.image.len();
    let mut draft = Draft::new(alloc);
    zero_runs(runs, &mut draft)?;
    let place = disk.layout.place(end).unwrap();
    draft.set(place, append_runs(last, runs))?;
    mark_blocks(disk, blocks, false, &mut draft)?;
    draft.makes_image(disk.image);
    Ok(draft)
}
