//! Entries that a directory's end mark hides: they are stored in its blocks, past the mark, and name files.
ghost use Rattle.std.specs.Prelude.{IfOk, MatchBool};
ghost use Rattle.ods_mount.specs.{Faults.IsDirectoryFile, Sound.IsSoundBy};
ghost use Rattle.ods_space.specs.Disks.{on};
ghost use Rattle.ods_upkeep.specs.Hidden.{HidesEntries};

use crate::names::is_directory_file;
use ods_directory::{DirBlocks, has_hidden, mark_of};
use ods_header::attributes;
use ods_mount::{FileBlocks, Mounted};
use ods_space::{ChainFault, Disk, chain, primary_header};
use std::alloc::{AllocError, Global};

/// Returns whether the number belongs to a directory whose end mark hides used entries.
pub(crate) fn hides_entries(
    alloc: Global,
    volume: &Mounted,
    number: u16,
) -> Result<bool, AllocError>
    ensures { IfOk result (λ hides. MatchBool hides (HidesEntries volume.now.image volume.now.layout number) (¬ HidesEntries volume.now.image volume.now.layout number)) }
{
    if !is_directory_file(volume, number) {
        return Ok(false);
    }
    let disk = volume.disk();
    directory_hides(alloc, &disk, number)
}

/// Whether the end mark of a directory hides used entries.
fn directory_hides(alloc: Global, disk: &Disk<'_>, number: u16) -> Result<bool, AllocError>
    requires sound { on IsSoundBy disk.now }
    requires directory { on IsDirectoryFile disk.now number }
    ensures { IfOk result (λ hides. MatchBool hides (on HidesEntries disk.now number) (¬ on HidesEntries disk.now number)) }
{
    // An image has few blocks, and so has a chain.
    let _ = disk.image.len();
    let Some(header) = primary_header(disk, number) else {
        unreachable!()
    };
    let lbns = match chain(alloc, disk, number) {
        Ok(lbns) => lbns,
        Err(ChainFault::NoMemory) => return Err(AllocError),
        Err(ChainFault::BadChain) => unreachable!(),
        Err(ChainFault::OutsideVolume(_)) => unreachable!(),
    };
    let blocks = FileBlocks::new(disk.image, &lbns);
    let mark = mark_of(&attributes(header), blocks.count());
    Ok(has_hidden(&blocks, mark))
}
