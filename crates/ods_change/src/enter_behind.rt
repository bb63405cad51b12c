//! An Enter whose entry is stored in a new block, after the blocks of the directory.
ghost use Rattle.std.specs.Prelude.{◌≡◌, true, IfOk};
ghost use Rattle.ods_alloc.specs.{Counts.counts_of, Ends.IsEndOf, Extend.cut};
ghost use Rattle.ods_base.specs.Image.{IsImage};
ghost use Rattle.ods_mount.specs.Sound.{IsSoundBy};
ghost use Rattle.ods_space.specs.Draft.{applied};
ghost use Rattle.ods_change.specs.{Entering.IsEntering, Entering.IsOwnGrowing, Entering.IsOwnEntry, Entering.IsSomeEntry, Entering.IsAllocatedFor};
ghost use Rattle.ods_space.specs.Disks.{drafted, on, seen};

use crate::beginning::Drafted;
use crate::drafts::marked_header;
use crate::entry::NewEntry;
use crate::growing::Growing;
use ods_alloc::{ChainEnd, FreeCounts, extend_from};
use ods_base::{Block, FileId};
use ods_directory::{DirBlocks, put_entry};
use ods_header::Run;
use ods_request::Refusal;
use ods_space::{Disk, Draft};
use std::alloc::{AllocError, Global};

/// Drafts a new block of zeros with the entry, after the blocks of the directory, or returns what the volume lacks.
pub(crate) fn enter_behind(
    alloc: Global,
    counts: &FreeCounts,
    entry: &NewEntry,
) -> Result<Drafted, Refusal>
    requires sound { on IsSoundBy entry.now.disk }
    requires counts { counts.now ≡ seen counts_of entry.now.disk }
    requires entry { IsOwnEntry entry.now }
    requires grows { entry.now.slot.grows ≡ true }
    ensures { IsOwnGrowing entry.now result }
{
    let disk = &entry.disk;
    let dir = entry.dir;
    let end = ChainEnd::of(disk, dir.number, entry.opened.header);
    let (growing, begun) = match Growing::begin(alloc, disk, counts, end.headers, end.room, 1) {
        Ok(begun) => begun,
        Err(refusal) => return Err(refusal),
    };
    // The blocks of an image have bytes.
    let _ = disk.image.len();
    let Drafted { draft, places } = begun;
    let then = growing.layout_then(disk.layout);
    let later = Disk {
        image: disk.image,
        layout: then,
    };
    match with_block(
        &later,
        draft,
        dir,
        entry,
        &end,
        &growing.blocks,
        &growing.numbers,
        &growing.runs,
    ) {
        Ok(draft) => Ok(Drafted { draft, places }),
        Err(_) => Err(Refusal::NoMemory),
    }
}

/// This draft with more changes, by which an entry stands in the block that a directory whose chain ends so takes, and this block behind its own.
fn with_block(
    disk: &Disk<'_>,
    mut draft: Draft,
    dir: FileId,
    entry: &NewEntry,
    end: &ChainEnd<'_>,
    blocks: &[u32],
    numbers: &[u16],
    runs: &[Run],
) -> Result<Draft, AllocError>
    requires sound { drafted IsSoundBy disk.now draft }
    requires image { IsImage (applied disk.now.image.now draft) }
    requires entry { drafted IsSomeEntry disk.now draft dir entry.now }
    requires grows { entry.now.slot.grows ≡ true }
    requires end { drafted IsEndOf disk.now draft dir.number end.now }
    requires taken { drafted IsAllocatedFor disk.now draft dir.number blocks.now numbers.now }
    requires runs { runs.now ≡ cut blocks.now }
    ensures { IfOk result (λ made. drafted IsEntering disk.now draft dir entry.now (applied disk.now.image.now made) disk.now.layout.now) }
{
    let mut block = Block::zeros();
    put_entry(&mut block, entry.slot.at, &entry.bytes);
    let count = entry.opened.blocks.count() + 1;
    let header = marked_header(entry.opened.header, entry.slot.mark, count);
    let first = disk.layout.place(dir.number).unwrap();
    draft.set(blocks[0], block)?;
    draft.set(first, header)?;
    // The blocks of what the image becomes have bytes, so its chains have at most 256 headers.
    draft.makes_image(disk.image);
    let grown = extend_from(disk, dir.number, &header, end, blocks, numbers, runs, draft)?;
    Ok(grown)
}
