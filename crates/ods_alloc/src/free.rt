//! Free blocks: their number, and the lowest of them, picked for a file that grows. A stretch of 64 is one step.
ghost use Rattle.std.specs.Prelude.{◌≡◌, ◌+◌, ◌^◌, ◌<◌, ◌≤◌, length, drop, take, IfOk, IfErr, IfSome, IfNone};
ghost use Rattle.ods_space.specs.{Files.IsLayoutOf, Free.is_free_block, Free.free_blocks};
ghost use Rattle.ods_alloc.specs.{Extend.last_of, Scan.IsNext, Scan.NoneIsNext, Scan.start_behind, Faults.IsShort, Counts.ShowsNone, Counts.free_in, Counts.counts_of};
ghost use Rattle.ods_space.specs.Disks.{on, seen};

use crate::words::{first_in, free_word, has_none, later_word};
use crate::{FreeCounts, SpaceFault};
use ods_space::Disk;
use std::alloc::Global;

/// Returns the number of free blocks.
pub fn free_count(disk: &Disk<'_>) -> u32
    requires { on IsLayoutOf disk.now }
    ensures { result ≡ length (seen free_blocks disk.now) }
{
    let mut count = 0;
    for k in 0..disk.image.len().div_ceil(64) {
        count += free_word(disk, k).count_ones();
    }
    count
}

/// The least free block from `from` on. Where a block of the bitmap has none, by the counts, it is passed over whole.
fn next_free(disk: &Disk<'_>, counts: &[u32], from: u32) -> Option<u32>
    requires { ShowsNone counts.now (seen free_in disk.now) }
    ensures few { IfSome result (λ lbn. lbn < 2 ^ 20) }
    ensures some { IfSome result (IsNext (seen is_free_block disk.now) from) }
    ensures none { IfNone result (NoneIsNext (seen is_free_block disk.now) from) }
{
    let mut at = from;
    while at < disk.image.len() {
        if has_none(counts, at / 4096) {
            at = 4096 * (at / 4096 + 1);
        } else {
            if let Some(lbn) = first_in(free_word(disk, at / 64), at) {
                return Some(lbn);
            }
            at = 64 * later_word(disk, at / 64 + 1);
        }
    }
    None
}

/// The LBN behind the last of these blocks, or 0 where there is none.
fn start_behind(blocks: &[u32]) -> u32
    requires { last_of 0 blocks.now < 2 ^ 20 }
    ensures { result ≡ start_behind blocks.now }
{
    let count = blocks.len();
    if count == 0 {
        return 0;
    }
    blocks[count - 1] + 1
}

/// Picks the `count` lowest free blocks, ascending. The fault is `VolumeFull` if fewer blocks are free, and otherwise `NoMemory`.
pub fn pick_blocks(
    alloc: Global,
    disk: &Disk<'_>,
    counts: &FreeCounts,
    count: u32,
) -> Result<Vec<u32>, SpaceFault>
    requires layout { on IsLayoutOf disk.now }
    requires counts { counts.now ≡ seen counts_of disk.now }
    ensures ok { IfOk result (λ blocks. (blocks.items ≡ take count (seen free_blocks disk.now)) × (count ≤ length (seen free_blocks disk.now))) }
    ensures err { IfErr result (IsShort SpaceFault.VolumeFull (length (seen free_blocks disk.now)) count) }
{
    pick_blocks_behind(alloc, disk, counts, &[], count)
}

/// Picks the `count` lowest free blocks after `lowest`, ascending. The blocks in `lowest` are the lowest free ones, and the search continues after
/// the last of them. The fault is `VolumeFull` if fewer blocks are free, and otherwise `NoMemory`.
pub fn pick_blocks_behind(
    alloc: Global,
    disk: &Disk<'_>,
    counts: &FreeCounts,
    lowest: &[u32],
    count: u32,
) -> Result<Vec<u32>, SpaceFault>
    requires layout { on IsLayoutOf disk.now }
    requires counts { counts.now ≡ seen counts_of disk.now }
    requires lowest { lowest.now ≡ take (length lowest.now) (seen free_blocks disk.now) }
    ensures ok { IfOk result (λ blocks. (blocks.items ≡ take count (drop (length lowest.now) (seen free_blocks disk.now)))
        × (length lowest.now + count ≤ length (seen free_blocks disk.now))) }
    ensures err { IfErr result (IsShort SpaceFault.VolumeFull (length (seen free_blocks disk.now)) (length lowest.now + count)) }
{
    if (counts.total() as usize) < lowest.len() + count as usize {
        return Err(SpaceFault::VolumeFull);
    }
    // An image has at most 2 ^ 20 blocks.
    let _ = disk.image.len();
    let mut blocks = Vec::new(alloc);
    let mut from = start_behind(lowest);
    for _k in 0..count {
        let Some(lbn) = next_free(disk, counts.as_slice(), from) else {
            return Err(SpaceFault::VolumeFull);
        };
        blocks.push(lbn)?;
        from = lbn + 1;
    }
    Ok(blocks)
}
