//! Runs of blocks that are marked used and that no file holds.
ghost use Rattle.std.specs.Prelude.{◌≡◌, ◌<◌, ◌≤◌, ℕ, OnOk, IfOk};
ghost use Rattle.ods_space.specs.Disks.{on};
ghost use Rattle.ods_check.specs.{Sets.IsSetOf, Runs.AddsRuns, Runs.GetsRun, Runs.GoesOn, Findings.HasBlock, Findings.IsHeldByNone, Findings.unheld_line as line_of_run};

use crate::unheld::is_unheld;
use crate::{Finding, Told};
use ods_mount::NumberSet;
use ods_space::Disk;
use std::alloc::AllocError;

/// Adds the runs of blocks that are marked used, that no file holds, and that are not locations of a home block. `held` is the set of blocks that
/// files hold.
pub(crate) fn push_unheld(
    disk: &Disk<'_>,
    held: &NumberSet,
    findings: &mut Told<Finding>,
) -> Result<(), AllocError>
    requires { IsSetOf (λ b. (m : ℕ) × on HasBlock disk.now m b) held.now }
    ensures { OnOk result (AddsRuns (on IsHeldByNone disk.now) line_of_run findings.old findings.new) }
{
    let len = disk.image.len();
    let mut start = 0;
    for lbn in 0..len {
        start = go_on(disk, held, start, lbn, findings)?;
    }
    push_run(start, len, findings)?;
    Ok(())
}

/// Where the run ends before this block it is added. The answer says where the run begins that the next block may be in.
fn go_on(
    disk: &Disk<'_>,
    held: &NumberSet,
    start: u32,
    lbn: u32,
    findings: &mut Told<Finding>,
) -> Result<u32, AllocError>
    requires held { IsSetOf (λ b. (m : ℕ) × on HasBlock disk.now m b) held.now }
    requires start { start ≤ lbn }
    requires few { lbn < 4294967295 }
    ensures { IfOk result (GoesOn (on IsHeldByNone disk.now) line_of_run start lbn findings.old findings.new) }
{
    if is_unheld(disk, held, lbn) {
        return Ok(start);
    }
    push_run(start, lbn, findings)?;
    Ok(lbn + 1)
}

/// Adds the blocks from the first to before the end, where there are any.
fn push_run(start: u32, end: u32, findings: &mut Told<Finding>) -> Result<(), AllocError>
    requires { start ≤ end }
    ensures { OnOk result (GetsRun line_of_run start end findings.old findings.new) }
{
    if start == end {
        return Ok(());
    }
    findings.push(unheld_line(start, end - 1))?;
    Ok(())
}

/// The finding of a run of blocks, or of one block.
fn unheld_line(first: u32, last: u32) -> Finding
    ensures { result ≡ line_of_run first last }
{
    if first == last {
        Finding::HeldByNone(first)
    } else {
        Finding::RunHeldByNone(first, last)
    }
}
