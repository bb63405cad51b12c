//! Blocks that the storage bitmap marks as free or in use, while no file of a sound volume changes.
ghost use Rattle.std.specs.Prelude.{◌≡◌, true, IfOk};
ghost use Rattle.std.specs.List.{All};
ghost use Rattle.ods_mount.specs.Sound.{IsSoundBy};
ghost use Rattle.ods_space.specs.{Disks.on, Draft.applied};
ghost use Rattle.ods_amend.specs.Bits.{AreMarked, IsLoose};

use ods_alloc::mark_blocks;
use ods_space::{Disk, Draft};
use std::alloc::{AllocError, Global};

/// Drafts the marks of blocks, given by their LBNs, as free or in use in the storage bitmap. Blocks that the bitmap does not cover are skipped. A
/// block to free must belong to no file, and must not be a place before the home block where a mount searches for one. The volume is unchanged. It
/// fails only when out of memory.
pub fn draft_marks(
    alloc: Global,
    disk: &Disk<'_>,
    blocks: &[u32],
    free: bool,
) -> Result<Draft, AllocError>
    requires sound { on IsSoundBy disk.now }
    requires loose { free ≡ true → All (on IsLoose disk.now) blocks.now }
    ensures { IfOk result (λ draft. on AreMarked disk.now blocks.now free (applied disk.now.image.now draft)) }
{
    let mut draft = Draft::new(alloc);
    match mark_blocks(disk, blocks, free, &mut draft) {
        Ok(()) => Ok(draft),
        Err(lack) => Err(lack),
    }
}
