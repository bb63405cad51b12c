//! Files whose records are not whole, or are longer than the attributes specify, on an image that may be refused.
ghost use Rattle.std.specs.Prelude.{◌≡◌, ◌≢◌, ℕ, None, IfOk, IfSome, IfNone};
ghost use Rattle.ods_space.specs.Files.{FindsFiles};
ghost use Rattle.ods_records.specs.declared.faults.RecordFault.{RecordFault as Fault};
ghost use Rattle.ods_shell.specs.Spoiled.{HasLongRecord, HasSpoiledRecords, IsSpoiled, IsTooLongIn};
ghost use Rattle.ods_space.specs.Disks.{on};

use ods_files::{FileBody, FileFault, Form};
use ods_records::{LongRecord, RecordFault, first_long, kind_of, record_size, records_to_text};
use ods_space::{ChainFault, Disk};
use std::alloc::{AllocError, Global};

/// Returns the first fault in the records of the file with this number. Returns `None` if they are whole, or if the file has no records. Also
/// returns `None` if it is not a file with a whole chain and an end within its blocks.
pub fn spoiled_records(
    alloc: Global,
    disk: &Disk<'_>,
    number: u16,
) -> Result<Option<RecordFault>, AllocError>
    requires { on FindsFiles disk.now }
    ensures some { IfOk result (λ found. IfSome found (on HasSpoiledRecords disk.now number)) }
    ensures none { IfOk result (λ found. IfNone found ((fault : Fault) → ¬ on HasSpoiledRecords disk.now number fault)) }
{
    match FileBody::open(alloc, disk, number) {
        Ok(body) => fault_in(alloc, &body),
        Err(fault) => none_of(fault),
    }
}

/// What is told of records where there is no body: none, unless memory ran out.
fn none_of<T: Drop>(fault: FileFault) -> Result<Option<T>, AllocError>
    ensures { IfOk result (λ found. (found ≡ None) × (fault ≢ FileFault.Chain ChainFault.NoMemory)) }
{
    if fault == FileFault::Chain(ChainFault::NoMemory) {
        return Err(AllocError);
    }
    Ok(None)
}

/// What is wrong with the records of a file with this body.
fn fault_in(alloc: Global, body: &FileBody<'_>) -> Result<Option<RecordFault>, AllocError>
    ensures some { IfOk result (λ found. IfSome found (IsSpoiled body.now)) }
    ensures none { IfOk result (λ found. IfNone found ((fault : Fault) → ¬ IsSpoiled body.now fault)) }
{
    let Some(kind) = kind_of(&body.attributes()) else {
        return Ok(None);
    };
    let Some(bytes) = body.read(alloc, Form::Binary)? else {
        return Ok(None);
    };
    match records_to_text(alloc, kind, &bytes) {
        Ok(_) => Ok(None),
        Err(RecordFault::NoMemory) => Err(AllocError),
        Err(fault) => Ok(Some(fault)),
    }
}

/// Returns the first record of the file with this number that is longer than F.RSIZ. Returns `None` if F.RSIZ is 0, if no record is too long, or if
/// `spoiled_records` examines no records.
pub fn long_record(
    alloc: Global,
    disk: &Disk<'_>,
    number: u16,
) -> Result<Option<LongRecord>, AllocError>
    requires { on FindsFiles disk.now }
    ensures some { IfOk result (λ found. IfSome found (λ r. on HasLongRecord disk.now number r.at r.size)) }
    ensures none { IfOk result (λ found. IfNone found ((at : ℕ) (size : ℕ) → ¬ on HasLongRecord disk.now number at size)) }
{
    match FileBody::open(alloc, disk, number) {
        Ok(body) => long_in(alloc, &body),
        Err(fault) => none_of(fault),
    }
}

/// The first record of a file with this body that is longer than F.RSIZ.
fn long_in(alloc: Global, body: &FileBody<'_>) -> Result<Option<LongRecord>, AllocError>
    ensures some { IfOk result (λ found. IfSome found (λ r. IsTooLongIn body.now r.at r.size)) }
    ensures none { IfOk result (λ found. IfNone found ((at : ℕ) (size : ℕ) → ¬ IsTooLongIn body.now at size)) }
{
    let attributes = body.attributes();
    let most = record_size(&attributes);
    if most == 0 {
        return Ok(None);
    }
    let Some(kind) = kind_of(&attributes) else {
        return Ok(None);
    };
    let Some(bytes) = body.read(alloc, Form::Binary)? else {
        return Ok(None);
    };
    Ok(first_long(kind, &bytes, most as usize))
}
