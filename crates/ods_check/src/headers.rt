//! Numbers in use that have no valid header.
ghost use Rattle.std.specs.Prelude.{◌≡◌, ◌<◌, ℕ, IsTrue, IfSome, IfNone, OnOk};
ghost use Rattle.ods_header.specs.Header.{IsValidHeader};
ghost use Rattle.ods_space.specs.Layout.{is_in_use};
ghost use Rattle.ods_check.specs.{Lists.Adds, Findings.IsWithout, Findings.IsOtherFound, Findings.TellsHeader};
ghost use Rattle.ods_space.specs.Disks.{header_on, on};

use crate::numbers::header_end;
use crate::{Finding, NoHeader, Told};
use ods_header::{HeaderFault, read_header};
use ods_space::{Disk, header_block, in_use, last_number};
use std::alloc::AllocError;

/// Adds each number in use that has no valid header and that a file may have.
pub(crate) fn push_bad_headers(
    disk: &Disk<'_>,
    findings: &mut Told<Finding>,
) -> Result<(), AllocError>
    ensures adds { OnOk result (Adds (on IsOtherFound disk.now) findings.old findings.new) }
    ensures all { OnOk result ((n : ℕ) → n < 65536 → on TellsHeader disk.now n findings.new.0) }
{
    for number in 0..header_end(disk) {
        push_bad_header(disk, number as u16, findings)?;
    }
    Ok(())
}

/// Adds this number, where it is in use and has no valid header.
fn push_bad_header(
    disk: &Disk<'_>,
    number: u16,
    findings: &mut Told<Finding>,
) -> Result<(), AllocError>
    ensures adds { OnOk result (Adds (on IsOtherFound disk.now) findings.old findings.new) }
    ensures told { OnOk result (on TellsHeader disk.now number findings.new.0) }
{
    if last_number(disk.layout) < number || !in_use(disk, number) {
        return Ok(());
    }
    let Some(why) = without_header(disk, number) else {
        return Ok(());
    };
    findings.push(Finding::BadHeader(number, why))?;
    Ok(())
}

/// Why this number has no valid header.
fn without_header(disk: &Disk<'_>, number: u16) -> Option<NoHeader>
    ensures some { IfSome result (on IsWithout disk.now number) }
    ensures none { IfNone result (IsValidHeader (header_on disk.now number) number) }
{
    let Some(block) = header_block(disk, number) else {
        return Some(NoHeader::NoBlock);
    };
    match read_header(block, number) {
        Ok(_) => None,
        Err(HeaderFault::BadSum) => Some(NoHeader::Checksum),
        Err(HeaderFault::WrongNumber) => Some(NoHeader::Number),
        Err(HeaderFault::BadLevel) => Some(NoHeader::Level),
        Err(HeaderFault::BadLayout) => Some(NoHeader::Areas),
        Err(HeaderFault::UnsupportedMap) => Some(NoHeader::Format),
    }
}
