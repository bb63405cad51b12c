//! The extent of a chain, whole or not: the blocks that its headers map, up to the last header that exists.
ghost use Rattle.std.specs.Prelude.{◌≡◌, ◌≢◌, ◌≤◌, ℕ, List, length, IfOk, IfSome, IfNone};
ghost use Rattle.ods_space.specs.{Chain.IsIndex, Chain.chain_blocks, Reach.Begins, Reach.ReachesBy, Reach.IsReachOf};
ghost use Rattle.ods_space.specs.Disks.{on};

use crate::Disk;
use crate::collect::{Reached, collect_reached, most};
use crate::files::{index_for, outside};
use crate::survey::Surveyor;
use crate::walk::{segment_block, walk};
use std::alloc::{AllocError, Global};

/// The extent of a chain, counted.
#[derive(Clone, Copy, Debug, PartialEq, Eq)]
pub struct Reach {
    /// The number of blocks that the existing headers map.
    pub count: u32,
    /// One of these blocks that is past the end of the image, if any.
    pub past: Option<u32>,
    /// Whether no header is missing.
    pub is_whole: bool,
}

/// Returns the blocks that the headers of a number map, up to the last header that exists. If the chain is whole, these are all blocks of the file.
/// Returns `None` if the first header does not exist.
pub fn reach_blocks(
    alloc: Global,
    disk: &Disk<'_>,
    number: u16,
) -> Result<Option<Reached>, AllocError>
    ensures some { IfOk result (λ found. IfSome found (λ r. on ReachesBy disk.now number r.blocks.items r.is_whole)) }
    ensures few { IfOk result (λ found. IfSome found (λ r. length r.blocks.items ≤ chain_blocks)) }
    ensures none { IfOk result (λ found. IfNone found (¬ on Begins disk.now number)) }
{
    let index = index_for(disk.layout, number);
    collect_reached(alloc, disk.image, &disk.layout.home(), index, number)
}

/// Counts the blocks that [`reach_blocks`] returns, without allocation. The layout must have the blocks of INDEXF.SYS.
pub fn count_reach(disk: &Disk<'_>, number: u16) -> Option<Reach>
    requires { IsIndex disk.now.image.now disk.now.layout.now.home disk.now.layout.now.index }
    ensures some { IfSome result (λ r. (blocks : List ℕ) × on ReachesBy disk.now number blocks r.is_whole × IsReachOf (length disk.now.image.now) blocks r) }
    ensures none { IfNone result (¬ on Begins disk.now number) }
{
    // An image has few blocks, and so has a chain.
    let len = disk.image.len();
    let index = disk.layout.index();
    if number == 1 {
        return Some(Reach {
            count: index.len() as u32,
            past: outside(disk.image, index),
            is_whole: true,
        });
    }
    count_other(disk, index, len, number)
}

/// How far the chain of another number than that of INDEXF.SYS goes, by the blocks of that.
fn count_other(disk: &Disk<'_>, index: &[u32], len: u32, number: u16) -> Option<Reach>
    requires other { number ≢ 1 }
    requires index { index.now ≡ disk.now.layout.now.index }
    requires len { len ≡ length disk.now.image.now }
    ensures some { IfSome result (λ r. (blocks : List ℕ) × on ReachesBy disk.now number blocks r.is_whole × IsReachOf (length disk.now.image.now) blocks r) }
    ensures none { IfNone result (¬ on Begins disk.now number) }
{
    let home = disk.layout.home();
    let greatest = most(&home, Some(index), &[]);
    let Some(_) = segment_block(disk.image, &home, index, greatest, number, 0) else {
        return None;
    };
    let mut surveyor = Surveyor::new(index, len, 0);
    let Ok(is_whole) = walk(disk.image, &home, number, &mut surveyor);
    let survey = surveyor.survey;
    Some(Reach {
        count: survey.count,
        past: survey.past,
        is_whole,
    })
}
