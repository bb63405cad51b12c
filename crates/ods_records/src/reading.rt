//! The text of a file of records.
ghost use Rattle.std.specs.Prelude.{◌≡◌, ◌+◌, ◌<◌, ◌≤◌, List, ℕ, length, option_map, slice_index, IfOk, IfErr, MatchResult};
ghost use Rattle.ods_records.specs.{declared.faults.RecordFault.TheVariants.NoMemory, Records.word_at, Records.number_size as size_of_number, Records.Stands, Records.Spells, Records.text_of, Faults.IsFaultAt, Faults.IsFault};

use crate::{RecordFault, RecordKind};
use std::alloc::Global;

/// The size of the longest valid record, in bytes.
pub(crate) const LONGEST: usize = 32_767;

/// The length that says that the rest of the block is not used.
const UNUSED: usize = 65_535;

/// Returns the text of a file of records (the standard's FCS record structure): each record, followed by LF. `bytes` are the bytes of the file up to
/// its end. The bytes of a record are unchanged, also an LF or a CR. The error is the first fault, or NoMemory.
pub fn records_to_text(
    alloc: Global,
    kind: RecordKind,
    bytes: &[u8],
) -> Result<Vec<u8>, RecordFault>
    // What is read is what the bytes spell.
    ensures ok { IfOk result (λ text. (records : List (List ℕ)) × Spells kind bytes.now records × (text.items ≡ text_of records)) }
    // What the bytes spell is read, unless memory runs out.
    ensures only { (records : List (List ℕ)) → Spells kind bytes.now records → MatchResult result (λ text. text.items ≡ text_of records) (λ fault. fault ≡ NoMemory) }
    // A fault is true of the place that it names.
    ensures err { IfErr result (IsFault kind bytes.now) }
{
    let mut text = Vec::new(alloc);
    let mut at = 0;
    while at < bytes.len() {
        let (record, next) = step(kind, bytes, at)?;
        if let Some(record) = record {
            text.extend_from_slice(record)?;
            text.push(b'\n')?;
        }
        at = next;
    }
    Ok(text)
}

/// Reads a record, or the mark that the rest of the block is unused, at an offset. Returns it with the offset after it.
pub(crate) fn step(
    kind: RecordKind,
    bytes: &[u8],
    at: usize,
) -> Result<(Option<&[u8]>, usize), RecordFault>
    requires { at < length bytes.now }
    ensures ok { IfOk result (λ found. Stands kind bytes.now at (option_map (λ slice. slice.now) found.0) found.1) }
    ensures err { IfErr result (λ fault. IsFaultAt kind bytes.now at fault) }
{
    if bytes.len() - at < 2 {
        return Err(RecordFault::CutLength(at));
    }
    let size = word(bytes, at);
    if size == UNUSED {
        let next = at - at % 512 + 512;
        return Ok((None, next.min(bytes.len())));
    }
    if size > LONGEST {
        return Err(RecordFault::TooLong(at));
    }
    let number = number_size(kind);
    if size < number {
        return Err(RecordFault::NoNumber(at));
    }
    let end = at + 2 + size;
    if end > bytes.len() {
        return Err(RecordFault::PastEnd(at));
    }
    let next = end + size % 2;
    Ok((Some(&bytes[at + 2 + number..end]), next.min(bytes.len())))
}

/// The word at a place.
fn word(bytes: &[u8], at: usize) -> usize
    requires { at + 2 ≤ length bytes.now }
    ensures value { result ≡ word_at bytes.now at }
    ensures small { result < 65536 }
{
    usize::from(bytes[at]) + 256 * usize::from(bytes[at + 1])
}

/// How many bytes of a record are its header, in which its number stands.
fn number_size(kind: RecordKind) -> usize
    ensures { result ≡ size_of_number kind }
{
    match kind {
        RecordKind::Variable => 0,
        RecordKind::Sequenced(size) => usize::from(size).min(255),
    }
}
