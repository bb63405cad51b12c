//! The end of a chain of headers, found by a walk along a whole chain, or along a chain as a draft has it.
ghost use Rattle.std.specs.Prelude.{◌≡◌, ◌≤◌, ℕ, List, length, IfSome, IfNone};
ghost use Rattle.ods_header.specs.Header.{IsValidHeader};
ghost use Rattle.ods_space.specs.{Chain.chain_blocks, Files.IsLayoutOf, Files.IsWhole};
ghost use Rattle.ods_space.specs.Disks.{drafted, header_drafted, header_on, on};
ghost use Rattle.ods_alloc.specs.{Ends.EndsWhereDrafted, Ends.IsEndOf, Ends.IsHeaderAt, Ends.IsMeasured, Marks.HasPlaces};

use ods_base::Block;
use ods_header::{is_valid_header, next_number, pointer_sum, room_words};
use ods_space::{ChainHeaders, Disk, Draft};

/// The most headers of a chain: a segment number is a byte.
pub const CHAIN_HEADERS: u32 = 256;

/// The end of a file's chain. It has the number of headers, the number of blocks that they map, and the last header with its number and its room.
#[derive(Clone, Copy)]
pub struct ChainEnd<'a> {
    /// The number of headers of the chain.
    pub headers: u32,
    /// The number of blocks that the headers map.
    pub blocks: u32,
    /// The number of the last header.
    pub number: u16,
    /// The block of the last header.
    pub last: &'a Block,
    /// The free room after its pointers in words. A pointer takes two words.
    pub room: u32,
}

impl<'a> ChainEnd<'a> {
    ghost use Rattle.ods_space.specs.Disks.{header_on, on};

    /// Finds the end of a file's chain by one walk along it. `first` is its first header. A chain has at most 256 headers.
    pub fn of(disk: &Disk<'a>, number: u16, first: &'a Block) -> Self
        requires layout { on IsLayoutOf disk.now }
        requires whole { (others : List ℕ) × (blocks : List ℕ) × on IsWhole disk.now number others blocks }
        requires first { first.now ≡ header_on disk.now number }
        ensures end { on IsMeasured disk.now number result }
        ensures last { on IsEndOf disk.now number result }
        ensures few { result.headers ≤ 256 }
        ensures small { result.blocks ≤ chain_blocks }
    {
        // The blocks of an image have bytes, so a chain has at most 256 headers.
        let _ = disk.image.len();
        let mut count = 0;
        let mut blocks = 0;
        let mut end = number;
        let mut last = first;
        let mut headers = ChainHeaders::from(disk, number, first);
        while let Some((at, header)) = headers.next() {
            count += 1;
            blocks += pointer_sum(header);
            end = at;
            last = header;
        }
        ChainEnd {
            headers: count,
            blocks,
            number: end,
            last,
            room: room_words(last) as u32,
        }
    }
}

/// A disk with a draft of changes: its blocks as the draft makes them.
#[derive(Clone, Copy)]
pub(crate) struct DraftedDisk<'a> {
    pub(crate) disk: Disk<'a>,
    pub(crate) draft: &'a Draft,
}

/// Where the chain with this first header ends, as a draft has it. Index bits are not looked at, so the chain may be one of
/// any image with these headers.
pub(crate) fn drafted_end<'a>(seen: &DraftedDisk<'a>, number: u16, first: &'a Block) -> ChainEnd<'a>
    requires places { HasPlaces (length seen.now.disk.image.now) seen.now.disk.layout.now }
    requires file { 2 ≤ number }
    ensures { drafted EndsWhereDrafted seen.now.disk seen.now.draft.now number result }
{
    let mut blocks = 0;
    let mut room = 0;
    let mut end = number;
    let mut last = first;
    let mut next = number;
    for k in 0..CHAIN_HEADERS {
        let Some(header) = valid_header(seen, next) else {
            return ChainEnd {
                headers: k,
                blocks,
                number: end,
                last,
                room,
            };
        };
        blocks += pointer_sum(header);
        room = room_words(header) as u32;
        end = next;
        last = header;
        next = next_number(header);
    }
    ChainEnd {
        headers: CHAIN_HEADERS,
        blocks,
        number: end,
        last,
        room,
    }
}

/// The block of a header as a draft has it, where it has a place and is valid.
pub(crate) fn valid_header<'a>(seen: &DraftedDisk<'a>, number: u16) -> Option<&'a Block>
    requires places { HasPlaces (length seen.now.disk.image.now) seen.now.disk.layout.now }
    ensures some { IfSome result (λ header. drafted IsHeaderAt seen.now.disk seen.now.draft.now number header.now) }
    ensures none { IfNone result (¬ IsValidHeader (header_drafted seen.now.disk seen.now.draft.now number) number) }
{
    let Some(lbn) = seen.disk.layout.place(number) else {
        return None;
    };
    let header = seen.draft.block(seen.disk.image, lbn);
    if !is_valid_header(header, number) {
        return None;
    }
    Some(header)
}
