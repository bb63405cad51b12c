//! An Enter whose entry is stored in a block of the directory.
ghost use Rattle.std.specs.Prelude.{◌≡◌, false};
ghost use Rattle.ods_mount.specs.Sound.{IsSoundBy};
ghost use Rattle.ods_change.specs.Entering.{IsOwnEntering, IsOwnEntry};
ghost use Rattle.ods_space.specs.Disks.{on};

use crate::drafts::{marked_header, one_block, two_blocks, with_entry};
use crate::entry::NewEntry;
use ods_directory::DirBlocks;
use ods_request::Refusal;
use ods_space::Draft;
use std::alloc::Global;

/// Drafts an entry in the block of its slot. The first header changes only if the end mark moves.
pub(crate) fn enter_within(alloc: Global, entry: &NewEntry) -> Result<Draft, Refusal>
    requires sound { on IsSoundBy entry.now.disk }
    requires entry { IsOwnEntry entry.now }
    requires within { entry.now.slot.grows ≡ false }
    ensures { IsOwnEntering entry.now result }
{
    let bytes = entry.bytes;
    let (lbn, block) = with_entry(
        &entry.disk,
        entry.dir.number,
        &entry.opened,
        entry.slot.at,
        bytes,
    );
    if entry.slot.mark == entry.opened.mark {
        return match one_block(alloc, lbn, block) {
            Ok(draft) => Ok(draft),
            Err(_) => Err(Refusal::NoMemory),
        };
    }
    let count = entry.opened.blocks.count();
    let header = marked_header(entry.opened.header, entry.slot.mark, count);
    let first = entry.disk.layout.place(entry.dir.number).unwrap();
    match two_blocks(alloc, lbn, block, first, header) {
        Ok(draft) => Ok(draft),
        Err(_) => Err(Refusal::NoMemory),
    }
}
