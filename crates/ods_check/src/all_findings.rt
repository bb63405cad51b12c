//! The problems that do not prevent a mount, on a volume that has a layout.
ghost use Rattle.std.specs.Prelude.{◌≡◌, ◌<◌, ℕ, List, length, IfOk};
ghost use Rattle.std.specs.List.{All};
ghost use Rattle.ods_space.specs.Files.{IsLayoutOf};
ghost use Rattle.ods_check.specs.declared.finding.Finding.{Finding as Line};
ghost use Rattle.ods_check.specs.Findings.{IsFound, FindsAll, TellsHeader, TellsStrays};
ghost use Rattle.ods_space.specs.Disks.{on};

use crate::characteristics::{Locked, MarkedDeleted};
use crate::ends::PastEnds;
use crate::headers::push_bad_headers;
use crate::hidden::Hiding;
use crate::lost_headers::{LostHeaders, reached_headers};
use crate::naming::push_naming;
use crate::strays::push_strays;
use crate::sweep::push_each;
use crate::unheld::held_blocks;
use crate::unheld_runs::push_unheld;
use crate::unnamed::master_names;
use crate::{Finding, Told};
use ods_space::Disk;
use std::alloc::{AllocError, Global};

/// Returns the problems that do not prevent a mount, on a volume with this layout, sound or not:
///
/// - each number in use that has no valid header, and each valid extension header that no file has. The numbers that no file may have are counted
///   in one line;
/// - each run of blocks that are marked used and that no file holds;
/// - each name that names no file, and, if `with_lost`, each file above 5 that no name names;
/// - each file that ends past its blocks, and each directory with used entries after its end;
/// - each file that is marked for deletion, and each locked file;
/// - INDEXF.SYS, BITMAP.SYS and 000000.DIR, if the master directory does not name them.
///
/// Each finding holds, and nothing of these kinds is missing. Each run of blocks is found once, and in order. The list keeps the first `most`
/// findings. The blocks of a file whose chain is not whole are unknown, and so are the names of a directory whose entries are not good and
/// distinct. An error means out of memory.
pub fn findings(
    alloc: Global,
    disk: &Disk<'_>,
    most: u32,
    with_lost: bool,
) -> Result<Told<Finding>, AllocError>
    requires { on IsLayoutOf disk.now }
    ensures each { IfOk result (λ found. All (on IsFound disk.now) found.0) }
    ensures all { IfOk result (λ found. on FindsAll disk.now with_lost found.0) }
    ensures most { IfOk result (λ found. found.1 ≡ most) }
{
    let mut found = Told::new(alloc, most);
    push_bad_headers(disk, &mut found)?;
    push_strays(disk, &mut found)?;
    let reached = reached_headers(alloc, disk)?;
    push_each(alloc, disk, &LostHeaders { reached }, &mut found)?;
    let held = held_blocks(alloc, disk)?;
    push_unheld(disk, &held, &mut found)?;
    push_naming(alloc, disk, with_lost, &mut found)?;
    push_each(alloc, disk, &PastEnds, &mut found)?;
    push_each(alloc, disk, &Hiding, &mut found)?;
    push_each(alloc, disk, &MarkedDeleted, &mut found)?;
    push_each(alloc, disk, &Locked, &mut found)?;
    let master = master_names(alloc, disk)?;
    push_each(alloc, disk, &master, &mut found)?;
    Ok(found)
}

/// Counts the findings. Keeps none.
pub fn count_findings(alloc: Global, disk: &Disk<'_>, with_lost: bool) -> Result<u64, AllocError>
    requires { on IsLayoutOf disk.now }
    ensures { IfOk result (λ count. (found : List Line) × (count ≡ length found) × All (on IsFound disk.now) found × on FindsAll disk.now with_lost found) }
{
    let found = findings(alloc, disk, 0, with_lost)?;
    Ok(found.more())
}

/// Returns the findings for numbers in use without a valid header, up to 65,535. One finding counts the numbers that no file may have.
pub fn bad_headers(alloc: Global, disk: &Disk<'_>, most: u32) -> Result<Told<Finding>, AllocError>
    ensures each { IfOk result (λ found. All (on IsFound disk.now) found.0) }
    ensures all { IfOk result (λ found. (n : ℕ) → n < 65536 → on TellsHeader disk.now n found.0) }
    ensures strays { IfOk result (λ found. on TellsStrays disk.now found.0) }
    ensures most { IfOk result (λ found. found.1 ≡ most) }
{
    let mut found = Told::new(alloc, most);
    push_bad_headers(disk, &mut found)?;
    push_strays(disk, &mut found)?;
    Ok(found)
}
