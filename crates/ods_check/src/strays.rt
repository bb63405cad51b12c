//! Numbers in use that no file may have and that have no valid header: their count, and the first of them.
ghost use Rattle.std.specs.Prelude.{◌≡◌, ◌+◌, ◌<◌, ◌≤◌, MatchBool, OnOk};
ghost use Rattle.ods_space.specs.Disks.{on};
ghost use Rattle.ods_check.specs.{Lists.Adds, Findings.IsCountOfStrays, Findings.IsOtherFound, Findings.IsStray, Findings.TellsStrays};

use crate::numbers::header_end;
use crate::{Finding, Told};
use ods_header::is_valid_header;
use ods_space::{Disk, header_block, in_use, last_number};
use std::alloc::AllocError;

/// How many numbers are stray, and the first of them; zeros where none is.
#[derive(Clone, Copy)]
struct Strays {
    count: u32,
    first: u16,
}

/// Counts the numbers up to 65,535 that are in use, that no file may have, and that have no valid header. Adds the count, unless it is 0.
pub(crate) fn push_strays(disk: &Disk<'_>, findings: &mut Told<Finding>) -> Result<(), AllocError>
    ensures adds { OnOk result (Adds (on IsOtherFound disk.now) findings.old findings.new) }
    ensures told { OnOk result (on TellsStrays disk.now findings.new.0) }
{
    let strays = count_strays(disk);
    if strays.count == 0 {
        return Ok(());
    }
    findings.push(Finding::StrayNumbers(strays.count, strays.first))?;
    Ok(())
}

/// How many numbers up to 65,535 are stray.
fn count_strays(disk: &Disk<'_>) -> Strays
    ensures { on IsCountOfStrays disk.now 65536 result.count result.first }
{
    let mut strays = Strays { count: 0, first: 0 };
    for number in 0..header_end(disk) {
        strays = count_on(disk, strays, number);
    }
    strays
}

/// How many numbers are stray below the one behind this, where so many are below it.
fn count_on(disk: &Disk<'_>, strays: Strays, number: u32) -> Strays
    requires strays { on IsCountOfStrays disk.now number strays.count strays.first }
    requires few { strays.count ≤ number }
    requires word { number < 65536 }
    ensures strays { on IsCountOfStrays disk.now (number + 1) result.count result.first }
    ensures few { result.count ≤ number + 1 }
{
    if !is_stray(disk, number as u16) {
        return strays;
    }
    if strays.count == 0 {
        return Strays {
            count: 1,
            first: number as u16,
        };
    }
    Strays {
        count: strays.count + 1,
        first: strays.first,
    }
}

/// Whether this number is in use, no file may have it, and it has no valid header.
fn is_stray(disk: &Disk<'_>, number: u16) -> bool
    ensures { MatchBool result (on IsStray disk.now number) (¬ on IsStray disk.now number) }
{
    if number <= last_number(disk.layout) || !in_use(disk, number) {
        return false;
    }
    match header_block(disk, number) {
        Some(block) => !is_valid_header(block, number),
        None => true,
    }
}
