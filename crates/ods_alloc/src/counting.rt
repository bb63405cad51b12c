//! Counting the blocks of the bitmaps one by one: all blocks, or the blocks that a draft changes.
ghost use Rattle.std.specs.Prelude.{◌≡◌, ◌+◌, ◌-◌, ◌<◌, ◌≤◌, ◌^◌, ◌*◌, length, slice_range, true, IfOk};
ghost use Rattle.std.specs.List.{sum};
ghost use Rattle.ods_base.specs.Image.{block_at};
ghost use Rattle.ods_space.specs.Draft.{applied};
ghost use Rattle.ods_alloc.specs.Counts.{IsCountedTo, free_counts, clear_counts, low_bits_set};
ghost use Rattle.ods_alloc.specs.Bitmaps.{IsNextChanged, IsRun, IsStretch, counted, counts_in, place_in, size_of};
ghost use Rattle.ods_space.specs.Disks.{seen};

use crate::words::low_bits;
use ods_base::{Block, Image, bit_word};
use ods_header::Home;
use ods_space::{Disk, Draft, Layout};
use std::alloc::{AllocError, Global};

/// How many of the first `few` bits of a block are set.
fn bits_set(block: &Block, few: u32) -> u32
    ensures { result ≡ low_bits_set few block.now }
{
    let whole = few / 64;
    let mut count = 0;
    for j in 0..whole.min(64) {
        count += bit_word(block, j).count_ones();
    }
    if whole < 64 {
        count += low_bits(bit_word(block, whole), few % 64).count_ones();
    }
    count
}

/// How many of the first `few` bits of the block at this LBN are set.
fn bits_at(image: &Image, lbn: u64, few: u32) -> u32
    ensures { result ≡ low_bits_set few (block_at image.now lbn) }
{
    if image.len() as u64 <= lbn {
        0
    } else {
        bits_set(image.block(lbn as u32), few)
    }
}

/// How many of the 4,096 blocks from LBN `4096 * k` on an image of `len` blocks has, or more than that.
fn few_of(len: u32, k: usize) -> u32
    requires { len ≤ 2 ^ 20 }
    ensures { result ≡ len - 4096 * k }
{
    if k < 256 {
        len.saturating_sub(4096 * k as u32)
    } else {
        0
    }
}

/// The free blocks that each block of the storage bitmap covers.
pub(crate) fn count_blocks(alloc: Global, disk: &Disk<'_>) -> Result<Vec<u32>, AllocError>
    ensures counts { IfOk result (λ counts. counts.items ≡ seen free_counts disk.now) }
    ensures few { IfOk result (λ counts. sum counts.items ≤ 2 ^ 20) }
{
    let len = disk.image.len();
    let bitmap = disk.layout.bitmap();
    let mut counts = Vec::new(alloc);
    for k in 0..bitmap.len().saturating_sub(1) {
        let few = few_of(len, k);
        counts.push(bits_at(disk.image, bitmap[k + 1] as u64, few))?;
    }
    Ok(counts)
}

/// The clear bits of each block of the index bitmap.
pub(crate) fn count_numbers(
    alloc: Global,
    image: &Image,
    home: &Home,
) -> Result<Vec<u32>, AllocError>
    ensures { IfOk result (λ counts. counts.items ≡ clear_counts image.now home.now) }
{
    let mut counts = Vec::new(alloc);
    for k in 0..home.index_bitmap_size {
        let lbn = home.index_bitmap_lbn as u64 + k as u64;
        counts.push(4096 - bits_at(image, lbn, 4096))?;
    }
    Ok(counts)
}

/// One of the two bitmaps of a volume.
#[derive(Clone, Copy)]
pub(crate) enum Bitmap {
    Storage,
    Index,
}

/// How many blocks a bitmap has, the storage control block not counted.
pub(crate) fn size_of(layout: &Layout, bitmap: Bitmap) -> usize
    ensures value { result ≡ size_of layout.now bitmap }
    ensures few { result < 2 ^ 62 }
{
    match bitmap {
        Bitmap::Storage => layout.bitmap().len().saturating_sub(1),
        Bitmap::Index => layout.home().index_bitmap_size as usize,
    }
}

/// The LBN of block `k` of a bitmap.
fn place_in(layout: &Layout, bitmap: Bitmap, k: usize) -> u64
    requires { k < size_of layout.now bitmap }
    ensures value { result ≡ place_in layout.now bitmap k }
    ensures few { result < 2 ^ 33 }
{
    match bitmap {
        Bitmap::Storage => layout.bitmap()[k + 1] as u64,
        Bitmap::Index => layout.home().index_bitmap_lbn as u64 + k as u64,
    }
}

/// How many blocks of a bitmap from its first one on are known to stand one behind the other: of the index bitmap all.
fn run_in(layout: &Layout, bitmap: Bitmap) -> usize
    ensures { IsRun layout.now bitmap result }
{
    match bitmap {
        Bitmap::Storage => layout.bitmap_run(),
        Bitmap::Index => layout.home().index_bitmap_size as usize,
    }
}

/// How many blocks of a bitmap from block `k` on stand one behind the other. Only those behind the first run are looked at.
fn stretch(layout: &Layout, bitmap: Bitmap, k: usize) -> usize
    requires { k < size_of layout.now bitmap }
    ensures { IsStretch layout.now bitmap k result }
{
    let size = size_of(layout, bitmap);
    let run = run_in(layout, bitmap);
    if k < run {
        return run - k;
    }
    let first = place_in(layout, bitmap, k);
    let mut many = 1;
    while many < size - k && place_in(layout, bitmap, k + many) == first + many as u64 {
        many += 1;
    }
    many
}

/// The first block of a bitmap from block `from` on that a draft changes, or the number of its blocks for none. Stretches of blocks are
/// looked for in one pass over the draft.
pub(crate) fn next_changed(disk: &Disk<'_>, draft: &Draft, bitmap: Bitmap, from: usize) -> usize
    requires { from ≤ size_of disk.now.layout.now bitmap }
    ensures { IsNextChanged disk.now.image.now (applied disk.now.image.now draft.now) disk.now.layout.now bitmap from result }
{
    let size = size_of(disk.layout, bitmap);
    let len = disk.image.len() as u64;
    let mut k = from;
    while k < size {
        let many = stretch(disk.layout, bitmap, k);
        let first = place_in(disk.layout, bitmap, k);
        let end = len.min(first + many as u64).max(first);
        let lbn = draft.next_change(first, end);
        if lbn < end {
            return k + (lbn - first) as usize;
        }
        k += many;
    }
    size
}

/// Whether two blocks have the same 64 bytes from byte `64 * k` on.
fn have_same_eighth(one: &Block, other: &Block, k: u32) -> bool
    requires { k < 8 }
    ensures { result ≡ true → slice_range one.now (64 * k) (64 * k + 64) ≡ slice_range other.now (64 * k) (64 * k + 64) }
{
    let at = 64 * k as usize;
    one.bytes()[at..at + 64] == other.bytes()[at..at + 64]
}

/// The count of an old block's bits taken on to a new one for eight words more, from word `first` on: only words that differ are counted.
fn words_after(old: &Block, new: &Block, few: u32, first: u32, count: u32) -> u32
    requires first { first ≤ 56 }
    requires count { IsCountedTo few old.now new.now first count }
    ensures { IsCountedTo few old.now new.now (first + 8) result }
{
    let mut count = count;
    for j in first..first + 8 {
        let (was, is) = (bit_word(old, j), bit_word(new, j));
        if was != is {
            let left = few.saturating_sub(64 * j);
            count += low_bits(is, left).count_ones();
            count -= low_bits(was, left).count_ones();
        }
    }
    count
}

/// How many of the first `few` bits of a new block are set, where so many of the old one are. Eighths that are the same are passed over.
fn bits_after(old: &Block, new: &Block, few: u32, count: u32) -> u32
    requires { count ≡ low_bits_set few old.now }
    ensures { result ≡ low_bits_set few new.now }
{
    let mut count = count;
    for k in 0..8 {
        if !have_same_eighth(old, new, k) {
            count = words_after(old, new, few, 8 * k, count);
        }
    }
    count
}

/// What is counted in block `k` of a bitmap once it is new, on an image of `len` blocks, where `count` was: of the storage bitmap free
/// blocks, of the index bitmap clear bits.
fn count_after(len: u32, bitmap: Bitmap, k: usize, count: u32, old: &Block, new: &Block) -> u32
    requires len { len ≤ 2 ^ 20 }
    requires count { count ≡ counted len bitmap k old.now }
    ensures { result ≡ counted len bitmap k new.now }
{
    match bitmap {
        Bitmap::Storage => bits_after(old, new, few_of(len, k), count),
        Bitmap::Index => 4096 - bits_after(old, new, 4096, 4096 - count),
    }
}

/// Counts anew the blocks of a bitmap that a draft changes, of which this is the first.
pub(crate) fn recount(
    disk: &Disk<'_>,
    draft: &Draft,
    bitmap: Bitmap,
    first: usize,
    counts: &mut [u32],
)
    requires counts { counts.old ≡ seen counts_in disk.now bitmap }
    requires first { IsNextChanged disk.now.image.now (applied disk.now.image.now draft.now) disk.now.layout.now bitmap 0 first }
    ensures counts { counts.new ≡ counts_in (applied disk.now.image.now draft.now) disk.now.layout.now bitmap }
    ensures size { length counts.new ≡ length counts.old }
{
    let size = size_of(disk.layout, bitmap);
    let len = disk.image.len();
    let mut k = first;
    while k < size {
        let lbn = place_in(disk.layout, bitmap, k) as u32;
        let (old, new) = (disk.image.block(lbn), draft.block(disk.image, lbn));
        counts[k] = count_after(len, bitmap, k, counts[k], old, new);
        k = next_changed(disk, draft, bitmap, k + 1);
    }
}
