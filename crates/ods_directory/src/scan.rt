//! One pass over the entries of a directory, block by block.
ghost use Rattle.std.specs.Prelude.{◌≡◌, ◌+◌, ◌-◌, ◌*◌, ◌/◌, ◌^◌, ◌<◌, ◌≤◌, ℕ, [], false, min, length, fold, slice_index_or};
ghost use Rattle.std.specs.List.{All, range_with_len};
ghost use Rattle.ods_directory.specs.{Entry.entry_at, Entry.entry_in, Tags.AreTags, Tags.wants};

use crate::DirBlocks;
use crate::tags::{Tags, Wanted, has_wanted};
use ods_base::Block;

/// The state of a pass over the entries, which reads one entry after another.
pub trait Pass {
    ghost use Rattle.std.specs.Prelude.{ℕ, ◌≡◌, ◌<◌, IsTrue};
    ghost use Rattle.ods_directory.specs.{Entry.Entry, Entry.entry_in, Tags.WantsNoOther};

    /// The state after entry `k` of the directory.
    ghost after: { Self → ℕ → Entry → Self };

    /// Adds entry `k` of the directory, which is entry `at` of this block.
    fn take(&mut self, block: &Block, at: usize, k: u64)
        requires { at < 32 }
        ensures { self.new ≡ after self.old k (entry_in block.now at) };

    /// Returns true only if no further entry changes the state.
    fn is_done(&self) -> bool
        ensures { IsTrue result → (k : ℕ) (e : Entry) → after self.now k e ≡ self.now };

    /// Returns the entries that may change the state. No other entry changes it.
    fn wanted(&self) -> Wanted
        ensures { WantsNoOther after self.now result };
}

/// Passes over the entries before the end mark.
pub fn scan<B: DirBlocks, G: Pass>(blocks: &B, mark: u64, into: &mut G)
    requires { mark ≤ 512 * length (B.blocks blocks.now) }
    ensures after { into.new ≡ fold (λ s k. G.after s k (entry_at (B.blocks blocks.now) k)) into.old (range_with_len 0 (mark / 16)) }
    ensures count { length (B.blocks blocks.now) < 2 ^ 32 }
{
    if !into.wanted().all {
        if let Some(tags) = blocks.tags() {
            scan_wanted(blocks, tags, mark, into);
            return;
        }
    }
    scan_all(blocks, mark, into);
}

/// Takes the entries before the mark of each block that may have one that is wanted. The others change nothing.
fn scan_wanted<B: DirBlocks, G: Pass>(blocks: &B, tags: &[Tags], mark: u64, into: &mut G)
    requires mark { mark ≤ 512 * length (B.blocks blocks.now) }
    requires tags { AreTags (B.blocks blocks.now) tags.now }
    ensures after { into.new ≡ fold (λ s k. G.after s k (entry_at (B.blocks blocks.now) k)) into.old (range_with_len 0 (mark / 16)) }
    ensures count { length (B.blocks blocks.now) < 2 ^ 32 }
{
    // Few blocks are counted, so the mark is small.
    let _ = blocks.count();
    let end = blocks_before(mark);
    let mut at = next_wanted(tags, into.wanted(), 0, end);
    while at < end {
        scan_block(
            blocks.block(at),
            32 * u64::from(at),
            entries_in(mark, at),
            into,
        );
        if into.is_done() {
            return;
        }
        at = next_wanted(tags, into.wanted(), at + 1, end);
    }
}

/// The first block from this one on that may have an entry that is wanted, or the end. It is a loop of its own, so that little is done for each block.
#[inline(never)]
fn next_wanted(tags: &[Tags], wanted: Wanted, from: u32, end: u32) -> u32
    requires range { from ≤ end }
    requires end { end ≤ length tags.now }
    ensures from { from ≤ result }
    ensures end { result ≤ end }
    ensures none { (i : ℕ) → from ≤ i → i < result → All (λ tag. wants wanted tag ≡ false) (slice_index_or tags.now i []) }
{
    for i in from..end {
        if has_wanted(&tags[i as usize], wanted) {
            return i;
        }
    }
    end
}

/// How many blocks have entries before the mark.
fn blocks_before(mark: u64) -> u32
    requires { mark ≤ 512 * 4294967295 }
    ensures { result ≡ (mark / 16 + 31) / 32 }
{
    ((mark / 16 + 31) / 32) as u32
}

/// Takes the entries before the mark, block by block.
fn scan_all<B: DirBlocks, G: Pass>(blocks: &B, mark: u64, into: &mut G)
    requires { mark ≤ 512 * length (B.blocks blocks.now) }
    ensures after { into.new ≡ fold (λ s k. G.after s k (entry_at (B.blocks blocks.now) k)) into.old (range_with_len 0 (mark / 16)) }
    ensures count { length (B.blocks blocks.now) < 2 ^ 32 }
{
    let mut cursor = blocks.cursor();
    for i in 0..blocks.count() {
        let count = entries_in(mark, i);
        if count == 0 || into.is_done() {
            return;
        }
        scan_block(blocks.next(&mut cursor), 32 * u64::from(i), count, into);
    }
}

/// Returns the number of entries of block `i` before the end mark.
pub fn entries_in(mark: u64, i: u32) -> usize
    ensures { result ≡ min (mark / 16 - 32 * i) 32 }
{
    let first = 32 * u64::from(i);
    (mark / 16).saturating_sub(first).min(32) as usize
}

/// Takes the first `count` entries of a block, the first of which is entry `first` of the directory.
fn scan_block<G: Pass>(block: &Block, first: u64, count: usize, into: &mut G)
    requires count { count ≤ 32 }
    requires first { first < 2 ^ 40 }
    ensures { into.new ≡ fold (λ s k. G.after s (first + k) (entry_in block.now k)) into.old (range_with_len 0 count) }
{
    for k in 0..count {
        into.take(block, k, first + k as u64);
    }
}
