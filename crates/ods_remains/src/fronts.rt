//! The fronts of deleted files: their headers up to the first header that an earlier file reached. So each header is visited once, even if many
//! files share it.
ghost use Rattle.std.specs.Prelude.{◌≡◌, ◌<◌, ◌≤◌, ◌⊎◌, ℕ, true, length, IfOk, IfSome, MatchOption};
ghost use Rattle.std.specs.List.{Contains};
ghost use Rattle.ods_header.specs.Header.{blocks_of, segment_of};
ghost use Rattle.ods_space.specs.Disks.{on, seen as seen_on};
ghost use Rattle.ods_remains.specs.Deleted.{IsDeleted, IsDeletedFile, LeadsOn, former};
ghost use Rattle.ods_remains.specs.Shared.{AreMarked, AreSeen, AreWithin, IsFront, is_seen};

use crate::DeletedFile;
use crate::deleted::{deleted_header, next_deleted};
use crate::deletions::note;
use ods_space::{Disk, last_number, push_header};
use std::alloc::{AllocError, Global};

/// Whether a header was seen. A number that has no flag was not.
fn was_seen(seen: &[bool], number: u16) -> bool
    ensures { result ≡ is_seen seen.now number }
{
    match seen.get(number as usize) {
        Some(flag) => *flag,
        None => false,
    }
}

/// The number of the deleted header that the deleted header of this number names as its next one, unless it was seen.
fn next_unseen(disk: &Disk<'_>, number: u16, seen: &[bool]) -> Option<u16>
    ensures next { MatchOption result
        (((c : ℕ) → ¬ on LeadsOn disk.now number c) ⊎ ((c : ℕ) × on LeadsOn disk.now number c × (is_seen seen.now c ≡ true)))
        (on LeadsOn disk.now number) }
    ensures small { IfSome result (λ c. segment_of (seen_on former disk.now c) < 256) }
{
    let Some(next) = next_deleted(disk, number) else {
        return None;
    };
    if was_seen(seen, next) {
        return None;
    }
    Some(next)
}

/// Returns the front of this deleted file: its headers up to the first seen one.
pub(crate) fn follow_front(
    alloc: Global,
    disk: &Disk<'_>,
    first: u16,
    seen: &[bool],
) -> Result<DeletedFile, AllocError>
    requires deleted { on IsDeletedFile disk.now first }
    requires seen { on AreSeen disk.now (λ n. Unit {0}) seen.now }
    ensures { IfOk result (λ file. on IsFront disk.now seen.now first file.headers.items file.blocks.items) }
{
    // The blocks of an image have bytes, so a chain has at most 256 headers.
    let _ = disk.image.len();
    let mut file = DeletedFile {
        headers: Vec::new(alloc),
        blocks: Vec::new(alloc),
        is_cut: false,
    };
    note(disk, &mut file, first)?;
    let mut at = first;
    while let Some(next) = next_unseen(disk, at, seen) {
        note(disk, &mut file, next)?;
        at = next;
    }
    Ok(file)
}

/// Marks these headers as seen. Ignores numbers that have no flag.
pub(crate) fn mark_all(seen: &mut [bool], headers: &[u16])
    ensures { AreMarked headers.now seen.old seen.new }
{
    for header in headers {
        mark(seen, *header);
    }
}

/// Marks a header as seen.
fn mark(seen: &mut [bool], number: u16)
    ensures size { length seen.new ≡ length seen.old }
    ensures only { (h : ℕ) → is_seen seen.new h ≡ true → (is_seen seen.old h ≡ true) ⊎ (h ≡ number) }
    ensures kept { (h : ℕ) → is_seen seen.old h ≡ true → is_seen seen.new h ≡ true }
    ensures there { number < length seen.old → is_seen seen.new number ≡ true }
{
    let at = number as usize;
    if at < seen.len() {
        seen[at] = true;
    }
}

/// Returns a number above each LBN that a deleted header names.
pub(crate) fn reach(alloc: Global, disk: &Disk<'_>) -> Result<usize, AllocError>
    ensures { IfOk result (on AreWithin disk.now) }
{
    let mut size = 0;
    for before in 0..last_number(disk.layout) {
        size = reach_header(alloc, disk, before + 1, size)?;
    }
    Ok(size)
}

/// A number not below this one, and above each LBN that this header names, where it is a deleted one.
fn reach_header(
    alloc: Global,
    disk: &Disk<'_>,
    number: u16,
    size: usize,
) -> Result<usize, AllocError>
    ensures { IfOk result (λ new. (size ≤ new) × (on IsDeleted disk.now number → (lbn : ℕ) → Contains (blocks_of (seen_on former disk.now number)) lbn → lbn < new)) }
{
    let Some(header) = deleted_header(disk, number) else {
        return Ok(size);
    };
    let mut blocks = Vec::new(alloc);
    push_header(&mut blocks, &header)?;
    Ok(past_all(&blocks, size))
}

/// A number not below this one, and above each of these LBNs.
fn past_all(lbns: &[u32], size: usize) -> usize
    ensures kept { size ≤ result }
    ensures above { (lbn : ℕ) → Contains lbns.now lbn → lbn < result }
{
    let mut past = size;
    for lbn in lbns {
        past = past_one(*lbn, past);
    }
    past
}

/// A number not below this one, and above this LBN.
fn past_one(lbn: u32, size: usize) -> usize
    ensures { (size ≤ result) × (lbn < result) }
{
    if size <= lbn as usize {
        lbn as usize + 1
    } else {
        size
    }
}
