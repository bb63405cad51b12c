//! The blocks and numbers that a growing file takes: the lowest free blocks, and the lowest free numbers for the headers of their pointers. If more
//! numbers are needed than are free, INDEXF.SYS grows first.
ghost use Rattle.std.specs.Prelude.{◌≡◌, ◌<◌, ◌≤◌, ◌^◌};
ghost use Rattle.ods_state.specs.Wants.{index_growth, new_headers};
ghost use Rattle.ods_change.specs.Taking.{refusal_for};

use crate::beginning::{Drafted, begin};
use ods_alloc::{
    CHAIN_HEADERS, FreeCounts, SpaceFault, pick_blocks, pick_open_numbers, runs_of_blocks,
};
use ods_header::{HEADER_POINTERS, Run};
use ods_request::Refusal;
use ods_space::{Disk, Layout, last_number};
use std::alloc::Global;

/// The blocks that a growing file takes, and the numbers for the headers of their pointers, both ascending. The layout is the one for the rest of the
/// request: in it INDEXF.SYS has a block for each of these numbers.
#[derive(Drop)]
pub(crate) struct Growing {
    pub blocks: Vec<u32>,
    /// The same blocks as runs, as pointers store them.
    pub runs: Vec<Run>,
    pub numbers: Vec<u16>,
    /// The layout, if it differs from the layout of the volume.
    pub layout: Option<Layout>,
}

impl Growing {
    ghost use Rattle.std.specs.Prelude.{◌≡◌, ◌+◌, ◌≤◌, length, IfOk, IfErr, unwrap_or};
    ghost use Rattle.ods_alloc.specs.{Counts.counts_of, Extend.cut};
    ghost use Rattle.ods_mount.specs.Sound.{IsSoundBy};
    ghost use Rattle.ods_space.specs.{Disks.on, Disks.seen, Draft.applied};
    ghost use Rattle.ods_change.specs.{Beginning.IsBegun, Taking.IsAllocatedBy, Taking.IsWhyNotAllocated};

    /// Returns what a file takes to gain `count` blocks, or what the volume lacks. The file has `headers` headers, and `room` words for pointers in
    /// the last header. A new file has no header, and a room of 204. The second result is the start of the draft, in which INDEXF.SYS grows.
    pub(crate) fn begin(
        alloc: Global,
        disk: &Disk<'_>,
        counts: &FreeCounts,
        headers: u32,
        room: u32,
        count: u32,
    ) -> Result<(Growing, Drafted), Refusal>
        requires sound { on IsSoundBy disk.now }
        requires counts { counts.now ≡ seen counts_of disk.now }
        requires few { headers ≤ 256 }
        requires small { count ≤ 65535 }
        ensures ok { IfOk result (λ g. on IsAllocatedBy disk.now headers room count g.0 g.1.places.items) }
        ensures runs { IfOk result (λ g. g.0.runs.items ≡ cut g.0.blocks.items) }
        ensures few { IfOk result (λ g. headers + length g.0.numbers.items ≤ 256) }
        ensures begun { IfOk result (λ g. on IsBegun disk.now g.1.places.items (applied disk.now.image.now g.1.draft) (unwrap_or g.0.layout disk.now.layout.now)) }
        ensures err { IfErr result (on IsWhyNotAllocated disk.now headers room count) }
    {
        let blocks = match pick_blocks(alloc, disk, counts, count) {
            Ok(blocks) => blocks,
            Err(fault) => return Err(refusal_for(fault)),
        };
        let runs = match runs_of_blocks(alloc, &blocks) {
            Ok(runs) => runs,
            Err(_) => return Err(Refusal::NoMemory),
        };
        let needed = headers_wanted(headers, room, runs.as_slice().len());
        let numbers = match pick_open_numbers(alloc, disk, counts, needed) {
            Ok(numbers) => numbers,
            Err(fault) => return Err(refusal_for(fault)),
        };
        let growth = index_growth(disk.layout, &numbers);
        let (drafted, layout) = match begin(alloc, disk, counts, &blocks, growth) {
            Ok(begun) => begun,
            Err(refusal) => return Err(refusal),
        };
        if headers + needed > CHAIN_HEADERS {
            return Err(Refusal::ChainFull);
        }
        let growing = Growing {
            blocks,
            runs,
            numbers,
            layout,
        };
        Ok((growing, drafted))
    }

    /// Returns the layout for the rest of the request, if `layout` is the layout of the volume.
    pub(crate) fn layout_then<'a>(&'a self, layout: &'a Layout) -> &'a Layout
        ensures { result.now ≡ unwrap_or self.now.layout layout.now }
    {
        match &self.layout {
            Some(grown) => grown,
            None => layout,
        }
    }
}

/// How many blocks INDEXF.SYS lacks for these numbers, which ascend.
fn index_growth(layout: &Layout, numbers: &[u16]) -> u32
    ensures growth { result ≡ index_growth layout.now numbers.now }
    ensures few { result ≤ 65535 }
{
    let count = numbers.len();
    if count == 0 {
        return 0;
    }
    numbers[count - 1].saturating_sub(last_number(layout)) as u32
}

/// A want of room as a refusal.
fn refusal_for(fault: SpaceFault) -> Refusal
    ensures { result ≡ refusal_for fault }
{
    match fault {
        SpaceFault::VolumeFull => Refusal::VolumeFull,
        SpaceFault::HeadersFull => Refusal::HeadersFull,
        SpaceFault::ChainFull => Refusal::ChainFull,
        SpaceFault::NoMemory => Refusal::NoMemory,
    }
}

/// How many new headers so many runs need. The file has so many headers, and the last has room for so many words. A
/// pointer takes two words. A new header has room for 102 pointers. A new file needs its first header too.
fn headers_wanted(headers: u32, room: u32, runs: usize) -> u32
    requires few { runs < 2 ^ 32 }
    ensures wanted { result ≡ new_headers headers room runs }
    ensures few { result < 2 ^ 31 }
{
    let more = (runs
        .saturating_sub(room as usize / 2)
        .div_ceil(HEADER_POINTERS)) as u32;
    if headers == 0 { more + 1 } else { more }
}
