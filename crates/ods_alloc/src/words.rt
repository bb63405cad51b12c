//! Both bitmaps, read 64 bits at a time, and the first bit of such a word that is set.
ghost use Rattle.std.specs.Prelude.{◌≡◌, ℕ, ◌+◌, ◌*◌, ◌/◌, ◌^◌, ◌<◌, ◌≤◌, ◌&&◌, ◌==◌, Bool, true, nat_lt, slice_get, Some, IfSome, IfNone};
ghost use Rattle.std.specs.Int.{bit_at};
ghost use Rattle.ods_base.specs.{Bits.IsWordOf, Block.has_bit};
ghost use Rattle.ods_space.specs.{Layout.is_in_use, Free.is_free_block};
ghost use Rattle.ods_alloc.specs.Scan.{IsNext, NonePasses};
ghost use Rattle.ods_space.specs.Disks.{seen};

use ods_base::{Block, Image, bit_word};
use ods_header::Home;
use ods_space::Disk;

/// The lowest `count` bits of a word.
pub(crate) fn low_bits(word: u64, count: u32) -> u64
    ensures { (i : ℕ) → i < 64 → (bit_at result i == 1) ≡ (nat_lt i count && (bit_at word i == 1)) }
{
    if count < 64 {
        word & ((1 << count) - 1)
    } else {
        word
    }
}

/// Which of the blocks from LBN `64 * k` on are free.
pub(crate) fn free_word(disk: &Disk<'_>, k: u32) -> u64
    requires { k < 2 ^ 20 }
    ensures { IsWordOf (λ i. seen is_free_block disk.now (64 * k + i)) result }
{
    let at = 1 + k as usize / 64;
    if disk.image.len() <= 64 * k || disk.layout.bitmap().len() <= at {
        return 0;
    }
    let map = disk.layout.bitmap()[at];
    if disk.image.len() <= map {
        return 0;
    }
    low_bits(
        bit_word(disk.image.block(map), k % 64),
        disk.image.len() - 64 * k,
    )
}

/// Which of the numbers from `64 * k + 1` on have a set index bit.
pub(crate) fn used_word(image: &Image, home: &Home, k: u32) -> u64
    requires { k < 2 ^ 20 }
    ensures { IsWordOf (λ i. is_in_use image.now home.now (64 * k + i + 1)) result }
{
    let map = home.index_bitmap_lbn as u64 + k as u64 / 64;
    if 64 * home.index_bitmap_size as u32 <= k || image.len() as u64 <= map {
        return 0;
    }
    bit_word(image.block(map as u32), k % 64)
}

/// The least number from `at` on that passes a test, where `word` says which do of the 64 that `at` is one of.
pub(crate) fn first_in(word: u64, at: u32) -> Option<u32>
    requires { at < 2 ^ 31 }
    ensures near { IfSome result (λ n. (at ≤ n) × (n < at + 64)) }
    ensures some { IfSome result (λ n. (test : ℕ → Bool) → IsWordOf (λ i. test (64 * (at / 64) + i)) word → IsNext test at n) }
    ensures none { IfNone result ((test : ℕ → Bool) → IsWordOf (λ i. test (64 * (at / 64) + i)) word → NonePasses test at (64 * (at / 64 + 1))) }
{
    let rest = word >> (at % 64);
    if rest == 0 {
        None
    } else {
        Some(at + rest.trailing_zeros())
    }
}

/// The first word of a block from word `from` on that has a set bit, or 64 where none has.
fn first_word(block: &Block, from: u32) -> u32
    requires { from < 64 }
    ensures on { (from ≤ result) × (result ≤ 64) }
    ensures none { NonePasses (has_bit block.now) (64 * from) (64 * result) }
{
    for j in from..64 {
        if bit_word(block, j) != 0 {
            return j;
        }
    }
    64
}

/// Word `k` of the storage bitmap, or a later one: those between, which stand in one block of the bitmap, have no set bit.
pub(crate) fn later_word(disk: &Disk<'_>, k: u32) -> u32
    requires { k < 2 ^ 20 }
    ensures on { (k ≤ result) × (result ≤ k + 64) }
    ensures none { NonePasses (seen is_free_block disk.now) (64 * k) (64 * result) }
{
    let at = 1 + k as usize / 64;
    if disk.layout.bitmap().len() <= at {
        return k;
    }
    let map = disk.layout.bitmap()[at];
    if disk.image.len() <= map {
        return k;
    }
    k - k % 64 + first_word(disk.image.block(map), k % 64)
}

/// Whether a list of counts has a 0 for block `k` of a bitmap.
pub(crate) fn has_none(counts: &[u32], k: u32) -> bool
    ensures { result ≡ true → slice_get counts.now k ≡ Some 0 }
{
    match counts.get(k as usize) {
        Some(count) => *count == 0,
        None => false,
    }
}
