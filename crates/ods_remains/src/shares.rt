//! The facts of deleted files, and the blocks that they share. Many files may share headers, so each header is read only a few times.
ghost use Rattle.std.specs.Prelude.{◌≡◌, ◌≢◌, ◌⊎◌, ◌<◌, ◌≤◌, ℕ, false, length, slice_index, slice_set, None, IfOk, MatchBool, OnOk};
ghost use Rattle.ods_remains.specs.Deleted.{IsDeletedFile};
ghost use Rattle.ods_remains.specs.Shared.{AreFirst, AreSeen, IsFilled, IsNoted, IsOtherOf, is_seen};
ghost use Rattle.ods_remains.specs.Summary.{missing_header as missing_in};
ghost use Rattle.ods_space.specs.Disks.{on};

use crate::Summary;
use crate::deletions::is_deleted_file;
use crate::fronts::{follow_front, mark_all, reach};
use crate::left::{Chain, Left, all_left, chain_by, left_at, named_by, sum_headers};
use crate::twice::names_twice;
use ods_space::{Disk, last_number};
use std::alloc::{AllocError, Global};
use std::marker::Model;

/// The lowest and the highest deleted file that names each LBN, and the facts of each deleted header. A contract sees the blocks with their layout.
#[derive(Drop)]
pub struct Shares<'a> {
    disk: Disk<'a>,
    lowest: Vec<u16>,
    highest: Vec<u16>,
    left: Vec<Left>,
}

impl<'a> Model for Shares<'a> {
    ghost use Rattle.ods_remains.specs.{Shared.AreTables, Summary.AreLeft};
    ghost use Rattle.ods_space.specs.Layout.{Disk};

    ghost Value = { Disk };

    ghost view = { λ s. record { image = s.disk.image.now; layout = s.disk.layout.now } };

    ghost invariant = { λ s. AreTables s.disk.image.now s.disk.layout.now s.lowest.items s.highest.items × AreLeft s.disk.image.now s.disk.layout.now s.left.items };
}

impl<'a> Shares<'a> {
    ghost use Rattle.std.specs.Prelude.{◌≡◌, ℕ, Some, IfOk, IfSome};
    ghost use Rattle.ods_header.specs.Header.{blocks_of};
    ghost use Rattle.std.specs.List.{Contains};
    ghost use Rattle.ods_remains.specs.{Chains.named_at, Deleted.IsDeleted, Deleted.IsDeletedFile, Deleted.former, Shared.IsSharer, Shared.IsSharerAt, Summary.HasSummary, Summary.IsSharerOrSelf};

    /// Builds the tables of a disk. Reads each header a few times, even if many files share it. Takes four bytes for each LBN up to the highest one
    /// that a header names.
    pub fn of(alloc: Global, disk: &Disk<'a>) -> Result<Shares<'a>, AllocError>
        ensures { IfOk result (λ s. (s.image ≡ disk.now.image.now) × (s.layout ≡ disk.now.layout.now)) }
    {
        let size = reach(alloc, disk)?;
        let lowest = lowest_of(alloc, disk, size)?;
        let highest = highest_of(alloc, disk, size)?;
        let left = all_left(alloc, disk)?;
        let disk = *disk;
        Ok(Shares {
            disk,
            lowest,
            highest,
            left,
        })
    }

    /// Another deleted file than this one that names one of these blocks, if there is one.
    fn sharer(&self, number: u16, blocks: &[u32]) -> Option<u16>
        ensures { IsSharer self.now.image self.now.layout number blocks.now result }
    {
        for lbn in blocks {
            if let Some(other) = self.sharer_at(number, *lbn) {
                return Some(other);
            }
        }
        None
    }

    /// Returns the facts of the deleted file with this number. Reads its headers up to the first one that another file has.
    pub fn summary(&self, alloc: Global, number: u16) -> Result<Summary, AllocError>
        requires { IsDeletedFile self.now.image self.now.layout number }
        ensures { IfOk result (HasSummary self.now.image self.now.layout number) }
    {
        let chain = chain_by(alloc, &self.disk, &self.left, number)?;
        let sums = sum_headers(&self.disk, &self.left, &chain.headers);
        let sharer = self.sharer_or_self(alloc, number, &chain.headers)?;
        let is_whole = is_whole(chain.is_cut, sums.used, sharer);
        let missing = missing_header(&chain);
        Ok(Summary {
            blocks: sums.blocks,
            used: sums.used,
            missing,
            sharer,
            is_whole,
        })
    }

    /// A deleted file that names a block of this one, which has these headers, or itself where it names one twice.
    fn sharer_or_self(
        &self,
        alloc: Global,
        number: u16,
        headers: &[u16],
    ) -> Result<Option<u16>, AllocError>
        requires { (h : ℕ) → Contains headers.now h → IsDeleted self.now.image self.now.layout h }
        ensures { IfOk result (IsSharerOrSelf self.now.image self.now.layout number (named_at (former self.now.image self.now.layout) headers.now)) }
    {
        let mut named = Vec::new(alloc);
        for header in headers {
            if let Some(other) = self.sharer_by_first(number, *header) {
                return Ok(Some(other));
            }
            let blocks = named_by(alloc, &self.disk, &self.left, *header)?;
            if let Some(other) = self.sharer(number, &blocks) {
                return Ok(Some(other));
            }
            named.extend_from_slice(&blocks)?;
        }
        let twice = names_twice(alloc, &named)?;
        if twice {
            return Ok(Some(number));
        }
        Ok(None)
    }

    /// Another deleted file than this one that names the first block of this header. Where another one has the header, that names the block.
    fn sharer_by_first(&self, number: u16, header: u16) -> Option<u16>
        requires { IsDeleted self.now.image self.now.layout header }
        ensures { IfSome result (λ m. IsSharer self.now.image self.now.layout number (blocks_of (former self.now.image self.now.layout header)) (Some m)) }
    {
        let left = left_at(&self.disk, &self.left, header);
        if left.blocks == 0 {
            return None;
        }
        self.sharer_at(number, left.first)
    }

    /// Another deleted file than this one that names this block, if there is one.
    fn sharer_at(&self, number: u16, lbn: u32) -> Option<u16>
        ensures { IsSharerAt self.now.image self.now.layout number lbn result }
    {
        let low = entry(&self.lowest, lbn);
        let high = entry(&self.highest, lbn);
        other_of(low, high, number)
    }
}

/// The first header that a deleted file lacks, where it lacks one.
fn missing_header(chain: &Chain) -> Option<u64>
    ensures { result ≡ missing_in chain.now.headers.items chain.now.is_cut }
{
    if chain.is_cut {
        Some(chain.headers.len() as u64 + 1)
    } else {
        None
    }
}

/// Whether a deleted file is whole of which a header is missing or not, so many blocks are used again, and this file names a block, too.
fn is_whole(is_cut: bool, used: u32, sharer: Option<u16>) -> bool
    ensures { MatchBool result ((is_cut ≡ false) × (used ≡ 0) × (sharer ≡ None)) (¬ ((is_cut ≡ false) × (used ≡ 0) × (sharer ≡ None))) }
{
    !is_cut && used == 0 && sharer.is_none()
}

/// What a table has at a place, and 0 past its end.
fn entry(table: &[u16], place: u32) -> u16
    ensures { result ≡ slice_index table.now place }
{
    match table.get(place as usize) {
        Some(number) => *number,
        None => 0,
    }
}

/// Of two numbers one that is neither 0 nor this one.
fn other_of(low: u16, high: u16, number: u16) -> Option<u16>
    ensures { IsOtherOf low high number result }
{
    if low != 0 && low != number {
        return Some(low);
    }
    if high != 0 && high != number {
        return Some(high);
    }
    None
}

/// A table of so many zeros.
fn new_table(alloc: Global, len: usize) -> Result<Vec<u16>, AllocError>
    ensures size { IfOk result (λ table. length table.items ≡ len) }
    ensures zeros { IfOk result (λ table. (i : ℕ) → slice_index table.items i ≡ 0) }
{
    let table = vec![in alloc; 0; len]?;
    Ok(table)
}

/// As many flags as there are headers, of which none was seen.
fn new_flags(alloc: Global, disk: &Disk<'_>) -> Result<Vec<bool>, AllocError>
    ensures { IfOk result (λ seen. (h : ℕ) → is_seen seen.items h ≡ false) }
{
    let seen = vec![in alloc; false; last_number(disk.layout) as usize + 1]?;
    Ok(seen)
}

/// The lowest of the deleted files that name each LBN below this number.
fn lowest_of(alloc: Global, disk: &Disk<'_>, size: usize) -> Result<Vec<u16>, AllocError>
    ensures size { IfOk result (λ table. length table.items ≡ size) }
    ensures lowest { IfOk result (λ table. on AreFirst disk.now (λ m n. m ≤ n) table.items) }
{
    let mut table = new_table(alloc, size)?;
    let mut seen = new_flags(alloc, disk)?;
    note_rising(alloc, disk, &mut table, &mut seen)?;
    Ok(table)
}

/// The highest of the deleted files that name each LBN below this number.
fn highest_of(alloc: Global, disk: &Disk<'_>, size: usize) -> Result<Vec<u16>, AllocError>
    ensures size { IfOk result (λ table. length table.items ≡ size) }
    ensures highest { IfOk result (λ table. on AreFirst disk.now (λ m n. n ≤ m) table.items) }
{
    let mut table = new_table(alloc, size)?;
    let mut seen = new_flags(alloc, disk)?;
    note_falling(alloc, disk, &mut table, &mut seen)?;
    Ok(table)
}

/// Notes the deleted files in a table, from the lowest to the highest.
fn note_rising(
    alloc: Global,
    disk: &Disk<'_>,
    table: &mut [u16],
    seen: &mut [bool],
) -> Result<(), AllocError>
    requires zeros { (i : ℕ) → slice_index table.old i ≡ 0 }
    requires unseen { (h : ℕ) → is_seen seen.old h ≡ false }
    ensures size { OnOk result (length table.new ≡ length table.old) }
    ensures first { OnOk result (on AreFirst disk.now (λ m n. m ≤ n) table.new) }
{
    for before in 0..last_number(disk.layout) {
        note_file(alloc, disk, before + 1, table, seen)?;
    }
    Ok(())
}

/// Notes the deleted files in a table, from the highest to the lowest.
fn note_falling(
    alloc: Global,
    disk: &Disk<'_>,
    table: &mut [u16],
    seen: &mut [bool],
) -> Result<(), AllocError>
    requires zeros { (i : ℕ) → slice_index table.old i ≡ 0 }
    requires unseen { (h : ℕ) → is_seen seen.old h ≡ false }
    ensures size { OnOk result (length table.new ≡ length table.old) }
    ensures first { OnOk result (on AreFirst disk.now (λ m n. n ≤ m) table.new) }
{
    let last = last_number(disk.layout);
    for done in 0..last {
        note_file(alloc, disk, last - done, table, seen)?;
    }
    Ok(())
}

/// Notes the front of this number in a table, where it is a deleted file, and that its headers were seen.
fn note_file(
    alloc: Global,
    disk: &Disk<'_>,
    number: u16,
    table: &mut [u16],
    seen: &mut [bool],
) -> Result<(), AllocError>
    requires { on AreSeen disk.now (λ n. Unit {0}) seen.old }
    ensures { OnOk result (on IsNoted disk.now number table.old seen.old table.new seen.new
        ⊎ ((¬ on IsDeletedFile disk.now number) × (table.new ≡ table.old) × (seen.new ≡ seen.old))) }
{
    if is_deleted_file(disk, number) {
        note_front(alloc, disk, number, table, seen)?;
        Ok(())
    } else {
        Ok(())
    }
}

/// Notes the front of this deleted file in a table, and that its headers were seen.
fn note_front(
    alloc: Global,
    disk: &Disk<'_>,
    number: u16,
    table: &mut [u16],
    seen: &mut [bool],
) -> Result<(), AllocError>
    requires deleted { on IsDeletedFile disk.now number }
    requires seen { on AreSeen disk.now (λ n. Unit {0}) seen.old }
    ensures { OnOk result (on IsNoted disk.now number table.old seen.old table.new seen.new) }
{
    let front = follow_front(alloc, disk, number, seen)?;
    fill(table, &front.blocks, number);
    mark_all(seen, &front.headers);
    Ok(())
}

/// Puts a number at each of these places of a table where 0 stands. Places past its end are passed over.
fn fill(table: &mut [u16], places: &[u32], number: u16)
    requires { number ≢ 0 }
    ensures filled { IsFilled number places.now table.old table.new }
    ensures size { length table.new ≡ length table.old }
{
    for place in places {
        fill_at(table, *place, number);
    }
}

/// Puts a number at a place of a table where 0 stands.
fn fill_at(table: &mut [u16], place: u32, number: u16)
    ensures { ((place < length table.old) × (slice_index table.old place ≡ 0) × (table.new ≡ slice_set table.old place number))
        ⊎ (((length table.old ≤ place) ⊎ (slice_index table.old place ≢ 0)) × (table.new ≡ table.old)) }
{
    let at = place as usize;
    if at < table.len() && table[at] == 0 {
        table[at] = number;
    }
}
