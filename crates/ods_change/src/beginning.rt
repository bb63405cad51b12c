//! The start of a request that takes blocks. If its new headers need it, INDEXF.SYS grows first, in the draft and in the layout. INDEXF.SYS may also
//! grow for later files.
ghost use Rattle.std.specs.Prelude.{◌≡◌, ◌+◌, ◌-◌, ◌≤◌, length, take, IfOk, IfErr, MatchResult, unwrap_or};
ghost use Rattle.ods_alloc.specs.Counts.{counts_of};
ghost use Rattle.ods_header.specs.Header.{room_of};
ghost use Rattle.ods_mount.specs.Sound.{IsSoundBy};
ghost use Rattle.ods_space.specs.{Draft.applied, Files.IsLayoutOf, Free.free_blocks, Layout.greatest_number, Layout.last_number};
ghost use Rattle.ods_state.specs.Wants.{index_end};
ghost use Rattle.ods_change.specs.{Beginning.IsBegun, IndexGrown.IsDraftOfHeaders, IndexGrown.IsWhyNoHeaders, Taking.HasPlaces, Taking.IsWhyNoPlaces};
ghost use Rattle.ods_space.specs.Disks.{header_on, on, seen};

use ods_alloc::{
    ChainEnd, FreeCounts, SpaceFault, greatest_number, grow_index, pick_blocks_behind,
    runs_of_blocks,
};
use ods_request::Refusal;
use ods_space::{Disk, Draft, Layout, header_block, last_number};
use std::alloc::Global;

/// The change of a request that takes blocks: the draft, and the LBNs of the blocks that INDEXF.SYS gains after its own.
#[derive(Drop)]
pub struct Drafted {
    pub draft: Draft,
    pub places: Vec<u32>,
}

impl Drafted {
    ghost use Rattle.std.specs.Prelude.{◌≡◌, []};

    /// Returns the change of this draft, without blocks for INDEXF.SYS. The layout is then unchanged.
    pub fn still(alloc: Global, draft: Draft) -> Drafted
        ensures draft { result.draft ≡ draft }
        ensures places { result.places.items ≡ [] }
    {
        Drafted {
            draft,
            places: Vec::new(alloc),
        }
    }
}

/// Extends INDEXF.SYS by `growth` blocks: the lowest free blocks after `lowest`, which are the lowest free blocks themselves. Returns the draft of
/// this growth, and the layout afterwards. If `growth` is 0, the layout is `None`, and the volume is unchanged.
pub(crate) fn begin(
    alloc: Global,
    disk: &Disk<'_>,
    counts: &FreeCounts,
    lowest: &[u32],
    growth: u32,
) -> Result<(Drafted, Option<Layout>), Refusal>
    requires sound { on IsSoundBy disk.now }
    requires counts { counts.now ≡ seen counts_of disk.now }
    requires lowest { lowest.now ≡ take (length lowest.now) (seen free_blocks disk.now) }
    requires most { last_number disk.now.layout.now + growth ≤ greatest_number disk.now.layout.now.home }
    ensures ok { IfOk result (λ b. on HasPlaces disk.now (length lowest.now) growth b.0.places.items) }
    ensures begun { IfOk result (λ b. on IsBegun disk.now b.0.places.items (applied disk.now.image.now b.0.draft) (unwrap_or b.1 disk.now.layout.now)) }
    ensures err { IfErr result (on IsWhyNoPlaces disk.now (length lowest.now) growth) }
{
    // The blocks of an image have bytes.
    let _ = disk.image.len();
    if growth == 0 {
        let still = Drafted::still(alloc, Draft::new(alloc));
        return Ok((still, None));
    }
    let places = match pick_blocks_behind(alloc, disk, counts, lowest, growth) {
        Ok(places) => places,
        Err(SpaceFault::NoMemory) => return Err(Refusal::NoMemory),
        Err(_) => return Err(Refusal::HeadersFull),
    };
    let runs = match runs_of_blocks(alloc, &places) {
        Ok(runs) => runs,
        Err(_) => return Err(Refusal::NoMemory),
    };
    let end = index_end(disk);
    let room = end.room as usize / 2;
    if room < runs.as_slice().len() {
        return Err(Refusal::HeadersFull);
    }
    let draft = match grow_index(alloc, disk, end.number, end.last, &places, &runs) {
        Ok(draft) => draft,
        Err(_) => return Err(Refusal::NoMemory),
    };
    let mut grown = match disk.layout.copy() {
        Ok(layout) => layout,
        Err(_) => return Err(Refusal::NoMemory),
    };
    grown.grow(&places);
    Ok((Drafted { draft, places }, Some(grown)))
}

/// Where the chain of INDEXF.SYS ends.
fn index_end<'a>(disk: &Disk<'a>) -> ChainEnd<'a>
    requires { on IsLayoutOf disk.now }
    ensures number { result.number ≡ seen index_end disk.now }
    ensures last { result.last.now ≡ header_on disk.now (seen index_end disk.now) }
    ensures room { result.room ≡ room_of (header_on disk.now (seen index_end disk.now)) }
{
    let _ = disk.image.len();
    let first = header_block(disk, 1).unwrap();
    ChainEnd::of(disk, 1, first)
}

/// How many headers more INDEXF.SYS may ever get.
fn headers_left(layout: &Layout) -> u32
    ensures { result ≡ greatest_number layout.now.home - last_number layout.now }
{
    greatest_number(layout).saturating_sub(last_number(layout)) as u32
}

/// Drafts headers for `count` more files in INDEXF.SYS, all at once, from the lowest free blocks. The refusal is HeadersFull if INDEXF.SYS may not
/// have so many, or too few blocks are free. It is HeadersFull too if its last header has no room for the pointers. Otherwise it is NoMemory.
pub fn grow_headers(
    alloc: Global,
    disk: &Disk<'_>,
    counts: &FreeCounts,
    count: u32,
) -> Result<Drafted, Refusal>
    requires sound { on IsSoundBy disk.now }
    requires counts { counts.now ≡ seen counts_of disk.now }
    ensures { MatchResult result (λ d. IsDraftOfHeaders disk.now count d.draft d.places.items)
        (on IsWhyNoHeaders disk.now count) }
{
    // The blocks of an image have bytes.
    let _ = disk.image.len();
    if headers_left(disk.layout) < count {
        return Err(Refusal::HeadersFull);
    }
    match begin(alloc, disk, counts, &[], count) {
        Ok((drafted, _layout)) => Ok(drafted),
        Err(refusal) => Err(refusal),
    }
}
