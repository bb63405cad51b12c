//! The noted end of a file's chain of headers, before and after the file grows.
ghost use Rattle.std.specs.Prelude.{◌≡◌, ◌≢◌, ◌+◌, ◌≤◌, ℕ, List, length, IfSome};
ghost use Rattle.ods_alloc.specs.{Ends.IsEndOf, Ends.IsMeasured, Extend.last_of};
ghost use Rattle.ods_space.specs.{Chain.chain_blocks, Files.HasBlocks, Files.IsLayoutOf, Files.IsWhole};
ghost use Rattle.ods_space.specs.Disks.{header_on, on};
ghost use Rattle.ods_state.specs.Ends.{IsKnownIn};
ghost use Rattle.ods_change.specs.Truncating.{IsCutEnd};

use ods_alloc::ChainEnd;
use ods_base::Block;
use ods_header::{pointer_sum, room_words};
use ods_space::{Disk, count_whole, header_block};
use ods_state::KnownEnd;

/// Returns the end of a file's chain. If it is noted, the chain is not walked. `first` is the first header of the file.
pub(crate) fn known_end<'a>(
    disk: &Disk<'a>,
    number: u16,
    first: &'a Block,
    known: &Option<KnownEnd>,
) -> ChainEnd<'a>
    requires layout { on IsLayoutOf disk.now }
    requires whole { (others : List ℕ) × (blocks : List ℕ) × on IsWhole disk.now number others blocks }
    requires first { first.now ≡ header_on disk.now number }
    requires known { on IsKnownIn disk.now known.now }
    ensures end { on IsMeasured disk.now number result }
    ensures last { on IsEndOf disk.now number result }
    ensures few { result.headers ≤ 256 }
    ensures small { result.blocks ≤ chain_blocks }
{
    // The blocks of an image have bytes, so the header has its parts in place.
    let _ = disk.image.len();
    if let Some(end) = known {
        if end.file == number {
            if let Some(block) = header_block(disk, end.last) {
                return ChainEnd {
                    headers: end.headers,
                    blocks: end.blocks,
                    number: end.last,
                    last: block,
                    room: room_words(block) as u32,
                };
            }
        }
    }
    ChainEnd::of(disk, number, first)
}

/// Returns the note of the end of a file's chain. If there is none, it makes one by one walk along the chain. `first` is the first header of the
/// file.
pub(crate) fn noted_end<'a>(
    disk: &Disk<'a>,
    number: u16,
    first: &'a Block,
    known: &Option<KnownEnd>,
) -> Option<KnownEnd>
    requires layout { on IsLayoutOf disk.now }
    requires whole { (others : List ℕ) × (blocks : List ℕ) × on IsWhole disk.now number others blocks }
    requires first { first.now ≡ header_on disk.now number }
    requires known { on IsKnownIn disk.now known.now }
    ensures { on IsKnownIn disk.now result }
{
    if let Some(end) = known {
        if end.file == number {
            return *known;
        }
    }
    let end = ChainEnd::of(disk, number, first);
    Some(KnownEnd {
        file: number,
        headers: end.headers,
        blocks: end.blocks,
        last: end.number,
    })
}

/// Returns the number of blocks of a file. If the end of its chain is noted, the chain is not walked. `first` is the first header of the file.
pub(crate) fn known_count(
    disk: &Disk<'_>,
    number: u16,
    first: &Block,
    known: &Option<KnownEnd>,
) -> u32
    requires layout { on IsLayoutOf disk.now }
    requires other { number ≢ 1 }
    requires whole { (blocks : List ℕ) × on HasBlocks disk.now number blocks }
    requires first { first.now ≡ header_on disk.now number }
    requires known { on IsKnownIn disk.now known.now }
    ensures { (held : List ℕ) → on HasBlocks disk.now number held → result ≡ length held }
{
    if let Some(end) = known {
        if end.file == number {
            return end.blocks;
        }
    }
    count_whole(disk, number, first)
}

/// Returns the end of a file's chain after the file keeps its first `count` blocks. It is known if the end is noted, and the last header keeps some
/// of its own blocks.
pub(crate) fn cut_end(
    disk: &Disk<'_>,
    number: u16,
    count: u32,
    known: &Option<KnownEnd>,
) -> Option<KnownEnd>
    requires layout { on IsLayoutOf disk.now }
    requires whole { (others : List ℕ) × (blocks : List ℕ) × on IsWhole disk.now number others blocks }
    requires known { on IsKnownIn disk.now known.now }
    ensures { IfSome result (λ after. on IsCutEnd disk.now number count known.now after) }
{
    // The blocks of an image have bytes, so the header has its parts in place.
    let _ = disk.image.len();
    if let Some(end) = known {
        if end.file == number {
            if let Some(block) = header_block(disk, end.last) {
                if count <= end.blocks && end.blocks - count < pointer_sum(block) {
                    return Some(KnownEnd {
                        file: end.file,
                        headers: end.headers,
                        blocks: count,
                        last: end.last,
                    });
                }
            }
        }
    }
    None
}

/// Returns the end of this file's chain after the file gains `count` blocks, and these headers after its own. `end` is the former end.
pub(crate) fn grown_end(end: &ChainEnd<'_>, file: u16, count: u32, numbers: &[u16]) -> KnownEnd
    requires few { end.now.headers + length numbers.now ≤ 256 }
    requires small { end.now.blocks ≤ chain_blocks }
    requires count { count ≤ 65535 }
    ensures file { result.file ≡ file }
    ensures headers { result.headers ≡ end.now.headers + length numbers.now }
    ensures blocks { result.blocks ≡ end.now.blocks + count }
    ensures last { result.last ≡ last_of end.now.number numbers.now }
{
    KnownEnd {
        file,
        headers: end.headers + numbers.len() as u32,
        blocks: end.blocks + count,
        last: last_or(numbers, end.number),
    }
}

/// The last of these numbers; where there is none, this one.
fn last_or(numbers: &[u16], other: u16) -> u16
    ensures { result ≡ last_of other numbers.now }
{
    let count = numbers.len();
    if count == 0 {
        return other;
    }
    numbers[count - 1]
}
