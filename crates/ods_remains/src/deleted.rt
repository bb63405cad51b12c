//! Headers that a deletion left, restored to their state before it.
ghost use Rattle.std.specs.Prelude.{◌≡◌, ◌↔◌, ◌<◌, ◌≤◌, ℕ, IsTrue, IfSome, MatchOption};
ghost use Rattle.ods_header.specs.Header.{map_word, segment_of};
ghost use Rattle.ods_remains.specs.Candidates.{IsNamedBy};
ghost use Rattle.ods_remains.specs.Deleted.{HasOldSum, IsDeleted, IsLeftOf, LeadsOn, former as former_of, restored as restored_of};
ghost use Rattle.ods_space.specs.Disks.{on, seen};

use ods_base::{Block, set_word, sum, word};
use ods_header::{
    file_number, file_sequence, is_valid_header, next_number, next_sequence, next_volume, segment,
};
use ods_space::{Disk, header_block, in_use, last_number};

/// A header block as it stood before it was deleted: with this number, and with its sum.
fn restored(block: &Block, number: u16) -> Block
    ensures { result ≡ restored_of block.now number }
{
    let mut header = *block;
    set_word(&mut header, 1, number);
    let total = sum(&header, 255);
    set_word(&mut header, 255, total);
    header
}

/// Whether the sum of a block is right, or was with this number, or is 0.
fn has_old_sum(block: &Block, number: u16) -> bool
    ensures { IsTrue result ↔ HasOldSum block.now number }
{
    let kept = word(block, 255);
    let mut numbered = *block;
    set_word(&mut numbered, 1, number);
    kept == 0 || kept == sum(block, 255) || kept == sum(&numbered, 255)
}

/// Whether a deletion may leave this block of header `number`.
fn is_left(block: &Block, number: u16) -> bool
    ensures { IsTrue result ↔ IsLeftOf block.now number }
{
    let said = file_number(block);
    (said == 0 || said == number)
        && has_old_sum(block, number)
        && is_valid_header(&restored(block, number), number)
}

/// Returns the block of a deleted header, restored to its state before the deletion. Returns `None` if the number is in use, or no header is left.
pub fn deleted_header(disk: &Disk<'_>, number: u16) -> Option<Block>
    ensures { MatchOption result (¬ on IsDeleted disk.now number) (λ b. on IsDeleted disk.now number × (b ≡ seen former_of disk.now number)) }
{
    if number < 6 || last_number(disk.layout) < number || in_use(disk, number) {
        return None;
    }
    let block = header_block(disk, number)?;
    if is_left(block, number) {
        Some(restored(block, number))
    } else {
        None
    }
}

/// Whether a header names another as its next one, on this volume and by number and sequence number, and that is one segment further.
fn names(header: &Block, other: &Block) -> bool
    requires { map_word header.now ≤ 250 }
    ensures { IsTrue result ↔ IsNamedBy header.now other.now }
{
    next_volume(header) == 0
        && file_number(other) == next_number(header)
        && file_sequence(other) == next_sequence(header)
        && segment(other) as u16 == segment(header) as u16 + 1
}

/// Returns the number of the deleted header that the deleted header of this number names as its next one.
pub(crate) fn next_deleted(disk: &Disk<'_>, number: u16) -> Option<u16>
    ensures next { MatchOption result ((c : ℕ) → ¬ on LeadsOn disk.now number c) (on LeadsOn disk.now number) }
    ensures small { IfSome result (λ c. segment_of (seen former_of disk.now c) < 256) }
{
    let Some(header) = deleted_header(disk, number) else {
        return None;
    };
    let next = next_number(&header);
    let Some(other) = deleted_header(disk, next) else {
        return None;
    };
    let _ = segment(&other);
    if names(&header, &other) {
        Some(next)
    } else {
        None
    }
}
