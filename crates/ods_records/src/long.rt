//! Records that are longer than the record size of their file. The search takes no memory.
ghost use Rattle.std.specs.Prelude.{ℕ, length, IfSome, IfNone};
ghost use Rattle.ods_records.specs.Long.{IsFirstLong};

use crate::RecordKind;
use crate::reading::step;

/// A record that is longer than the record size of its file.
#[derive(Clone, Copy, Debug, PartialEq, Eq)]
pub struct LongRecord {
    /// The offset of its length, in bytes from 0.
    pub at: usize,
    /// The number of its bytes without its header.
    pub size: usize,
}

/// Returns the first record of more than `most` bytes without its header. The search ends at the first fault.
pub fn first_long(kind: RecordKind, bytes: &[u8], most: usize) -> Option<LongRecord>
    ensures some { IfSome result (λ found. IsFirstLong kind bytes.now most found.at found.size) }
    ensures none { IfNone result ((at : ℕ) (size : ℕ) → ¬ IsFirstLong kind bytes.now most at size) }
{
    let mut at = 0;
    while at < bytes.len() {
        let (record, next) = match step(kind, bytes, at) {
            Ok(found) => found,
            Err(_) => return None,
        };
        if let Some(record) = record {
            let size = record.len();
            if size > most {
                return Some(LongRecord { at, size });
            }
        }
        at = next;
    }
    None
}
