//! The attributes of files that are made or cut.
ghost use Rattle.std.specs.Prelude.{◌≡◌, ◌≤◌, ◌*◌, ◌++◌, replicate, IfErr, IfOk};
ghost use Rattle.ods_files.specs.Body.{are_zeros as all_zeros};
ghost use Rattle.ods_request.specs.declared.refusals.Refusal.{Refusal};
ghost use Rattle.ods_upkeep.specs.Copied.{true_for as true_attributes};
ghost use Rattle.ods_upkeep.specs.Pieces.{like_those, with_end};
ghost use Rattle.ods_upkeep.specs.PutFor.{like_greater as like_the_greater};

use crate::failure::Why;
use ods_base::MAX_BYTES;
use ods_records::{binary_attributes, end_of_file, record_size};
use ods_request::Refusal;

/// Returns these attributes with the end of file after `bytes` bytes, which sets F.HIBK, F.EFBK and F.FFBY. Fails with `VolumeFull` if no volume has
/// room for them.
pub(crate) fn ending_at(attributes: [u8; 32], bytes: u64) -> Result<[u8; 32], Why>
    ensures ok { IfOk result (λ new. new ≡ with_end attributes bytes) }
    ensures err { IfErr result (λ why. (why ≡ Why.Request Refusal.VolumeFull) × (MAX_BYTES ≤ bytes)) }
{
    if bytes >= MAX_BYTES as u64 {
        return Err(Why::Request(Refusal::VolumeFull));
    }
    let made = binary_attributes(bytes);
    let mut new = attributes;
    new[4..14].copy_from_slice(&made[4..14]);
    Ok(new)
}

/// Returns these attributes for a file of `blocks` blocks: F.HIBK is their count, and an end of file past them becomes their end. Attributes of
/// zeros, with which all blocks count, stay. Fails with `VolumeFull` if no volume has room for the blocks.
pub(crate) fn true_for(attributes: [u8; 32], blocks: u32) -> Result<[u8; 32], Why>
    ensures ok { IfOk result (λ new. new ≡ true_attributes attributes blocks) }
    ensures err { IfErr result (λ why. (why ≡ Why.Request Refusal.VolumeFull) × (MAX_BYTES ≤ 512 * blocks)) }
{
    if are_zeros(&attributes) {
        return Ok(attributes);
    }
    let bytes = 512 * u64::from(blocks);
    let all = ending_at(attributes, bytes)?;
    if end_of_file(&attributes) > bytes {
        return Ok(all);
    }
    let mut new = attributes;
    new[4..8].copy_from_slice(&all[4..8]);
    Ok(new)
}

/// Returns whether the attributes were never written: all bytes are zero.
pub(crate) fn are_zeros(attributes: &[u8; 32]) -> bool
    ensures { result ≡ all_zeros attributes.now }
{
    attributes.iter().all(|byte| *byte == 0)
}

/// Returns these attributes with the record type, the record attributes and the record size of `other`.
pub(crate) fn like(attributes: [u8; 32], other: &[u8; 32]) -> [u8; 32]
    ensures { result ≡ like_those attributes other.now }
{
    let mut new = attributes;
    new[..4].copy_from_slice(&other[..4]);
    new
}

/// Returns these attributes with the record type and the record attributes of `other`, and the greater record size of both.
pub(crate) fn like_greater(attributes: [u8; 32], other: &[u8; 32]) -> [u8; 32]
    ensures { result ≡ like_the_greater attributes other.now }
{
    if record_size(&attributes) <= record_size(other) {
        return like(attributes, other);
    }
    let mut new = attributes;
    new[..2].copy_from_slice(&other[..2]);
    new
}

/// Returns attributes with these first four bytes, and zeros otherwise.
pub(crate) fn attributes_of_form(form: [u8; 4]) -> [u8; 32]
    ensures { result ≡ form ++ replicate 28 0 }
{
    let mut new = [0; 32];
    new[..4].copy_from_slice(&form);
    new
}
