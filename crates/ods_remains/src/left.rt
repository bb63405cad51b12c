//! The next header and the blocks of each deleted header, looked up once. Many files may share headers.
ghost use Rattle.std.specs.Prelude.{◌≡◌, ◌≢◌, ◌⊎◌, ◌+◌, ◌<◌, ◌==◌, [], ◌∷◌, ◌++◌, ℕ, not, length, IfOk, IfSome, OnOk, MatchOption};
ghost use Rattle.std.specs.List.{Contains};
ghost use Rattle.ods_header.specs.Header.{blocks_of, next_number_of, segment_of};
ghost use Rattle.ods_remains.specs.Chains.{named_at};
ghost use Rattle.ods_remains.specs.Deleted.{IsDeleted, IsDeletedFile, IsFormerChain, LeadsOn, counted as counted_of, former, used_again as used_again_of};
ghost use Rattle.ods_remains.specs.Summary.{AreLeft, IsLeft};
ghost use Rattle.ods_space.specs.Disks.{on, seen};

use crate::deleted::{deleted_header, next_deleted};
use crate::deletions::used_again;
use ods_header::next_number;
use ods_space::{Disk, last_number, push_header};
use std::alloc::{AllocError, Global};

/// The facts that are kept for a deleted header.
#[derive(Clone, Copy)]
pub(crate) struct Left {
    /// The number of the next deleted header, or 0 if there is none.
    pub next: u16,
    /// Whether the header names a next header.
    pub names_next: bool,
    /// The number of blocks that it names.
    pub blocks: u32,
    /// The number of these blocks that are used again.
    pub used: u32,
    /// The LBN of the first of these blocks, if there is one.
    pub first: u32,
}

/// The headers of a deleted file.
#[derive(Drop)]
pub(crate) struct Chain {
    /// The numbers of its headers, from the first to the last.
    pub headers: Vec<u16>,
    /// Whether the last header names a next header that is missing.
    pub is_cut: bool,
}

/// The number of blocks of a file, and the number of them that are used again.
#[derive(Clone, Copy)]
pub(crate) struct Totals {
    pub blocks: u32,
    pub used: u32,
}

/// A number, as far as 32 bits count.
fn counted(number: usize) -> u32
    ensures { result ≡ counted_of number }
{
    if number < 4_294_967_295 {
        number as u32
    } else {
        u32::MAX
    }
}

/// The sum of two numbers, as far as 32 bits count.
fn sum(one: u32, other: u32) -> u32
    ensures { result ≡ counted_of (one + other) }
{
    counted(one as usize + other as usize)
}

/// The number of the deleted header that the deleted header of this number names as its next one, and 0 where there is none.
fn next_or_zero(disk: &Disk<'_>, number: u16) -> u16
    ensures { ((result ≡ 0) × ((c : ℕ) → ¬ on LeadsOn disk.now number c)) ⊎ (on LeadsOn disk.now number result × (segment_of (seen former disk.now result) < 256)) }
{
    match next_deleted(disk, number) {
        Some(next) => next,
        None => 0,
    }
}

/// The first of these LBNs, where there is one.
fn first_of(lbns: &[u32]) -> u32
    ensures { length lbns.now ≢ 0 → Contains lbns.now result }
{
    if lbns.is_empty() { 0 } else { lbns[0] }
}

/// What is kept of the deleted header with this number, where there is one.
fn left_of(alloc: Global, disk: &Disk<'_>, number: u16) -> Result<Left, AllocError>
    ensures { IfOk result (λ left. on IsDeleted disk.now number → on IsLeft disk.now number left) }
{
    let Some(header) = deleted_header(disk, number) else {
        return Ok(Left {
            next: 0,
            names_next: false,
            blocks: 0,
            used: 0,
            first: 0,
        });
    };
    let mut blocks = Vec::new(alloc);
    push_header(&mut blocks, &header)?;
    Ok(Left {
        next: next_or_zero(disk, number),
        names_next: next_number(&header) != 0,
        blocks: counted(blocks.len()),
        used: counted(used_again(disk, &blocks)),
        first: first_of(&blocks),
    })
}

/// Returns the facts of each deleted header, at the index that is its number.
pub(crate) fn all_left(alloc: Global, disk: &Disk<'_>) -> Result<Vec<Left>, AllocError>
    ensures { IfOk result (λ all. on AreLeft disk.now all.items) }
{
    let mut all = Vec::new(alloc);
    for number in 0..u32::from(last_number(disk.layout)) + 1 {
        let left = left_of(alloc, disk, number as u16)?;
        all.push(left)?;
    }
    Ok(all)
}

/// Returns the facts of this deleted header.
pub(crate) fn left_at(disk: &Disk<'_>, all: &[Left], number: u16) -> Left
    requires all { on AreLeft disk.now all.now }
    requires deleted { on IsDeleted disk.now number }
    ensures { on IsLeft disk.now number result }
{
    match all.get(number as usize) {
        Some(left) => *left,
        None => unreachable!(),
    }
}

/// The number of the deleted header that this deleted header names as its next one.
fn next_by(disk: &Disk<'_>, all: &[Left], number: u16) -> Option<u16>
    requires all { on AreLeft disk.now all.now }
    requires deleted { on IsDeleted disk.now number }
    ensures next { MatchOption result ((c : ℕ) → ¬ on LeadsOn disk.now number c) (on LeadsOn disk.now number) }
    ensures small { IfSome result (λ c. segment_of (seen former disk.now c) < 256) }
{
    let left = left_at(disk, all, number);
    if left.next == 0 {
        None
    } else {
        Some(left.next)
    }
}

/// Puts this deleted header behind the headers of a chain.
fn take(disk: &Disk<'_>, all: &[Left], chain: &mut Chain, number: u16) -> Result<(), AllocError>
    requires all { on AreLeft disk.now all.now }
    requires deleted { on IsDeleted disk.now number }
    ensures headers { OnOk result (chain.new.headers.items ≡ chain.old.headers.items ++ number ∷ []) }
    ensures cut { OnOk result (chain.new.is_cut ≡ not (next_number_of (seen former disk.now number) == 0)) }
{
    let left = left_at(disk, all, number);
    chain.headers.push(number)?;
    chain.is_cut = left.names_next;
    Ok(())
}

/// Returns the headers of this deleted file, by the facts of each header.
pub(crate) fn chain_by(
    alloc: Global,
    disk: &Disk<'_>,
    all: &[Left],
    first: u16,
) -> Result<Chain, AllocError>
    requires all { on AreLeft disk.now all.now }
    requires deleted { on IsDeletedFile disk.now first }
    ensures { IfOk result (λ chain. on IsFormerChain disk.now first chain.headers.items (named_at (seen former disk.now) chain.headers.items) chain.is_cut) }
{
    // The blocks of an image have bytes, so a chain has at most 256 headers.
    let _ = disk.image.len();
    let mut chain = Chain {
        headers: Vec::new(alloc),
        is_cut: false,
    };
    take(disk, all, &mut chain, first)?;
    let mut at = first;
    while let Some(next) = next_by(disk, all, at) {
        take(disk, all, &mut chain, next)?;
        at = next;
    }
    Ok(chain)
}

/// Counts the blocks that these deleted headers name, and the blocks among them that are used again.
pub(crate) fn sum_headers(disk: &Disk<'_>, all: &[Left], headers: &[u16]) -> Totals
    requires all { on AreLeft disk.now all.now }
    requires deleted { (h : ℕ) → Contains headers.now h → on IsDeleted disk.now h }
    ensures blocks { result.blocks ≡ counted_of (length (named_at (seen former disk.now) headers.now)) }
    ensures used { result.used ≡ counted_of (seen used_again_of disk.now (named_at (seen former disk.now) headers.now)) }
{
    let mut totals = Totals { blocks: 0, used: 0 };
    for number in headers {
        totals = with(totals, left_at(disk, all, *number));
    }
    totals
}

/// The totals with those of one header more.
fn with(totals: Totals, left: Left) -> Totals
    ensures blocks { result.blocks ≡ counted_of (totals.blocks + left.blocks) }
    ensures used { result.used ≡ counted_of (totals.used + left.used) }
{
    Totals {
        blocks: sum(totals.blocks, left.blocks),
        used: sum(totals.used, left.used),
    }
}

/// Returns the blocks that this deleted header names. Does not read a header that names none.
pub(crate) fn named_by(
    alloc: Global,
    disk: &Disk<'_>,
    all: &[Left],
    number: u16,
) -> Result<Vec<u32>, AllocError>
    requires all { on AreLeft disk.now all.now }
    requires deleted { on IsDeleted disk.now number }
    ensures { IfOk result (λ blocks. blocks.items ≡ blocks_of (seen former disk.now number)) }
{
    let mut named = Vec::new(alloc);
    let left = left_at(disk, all, number);
    if left.blocks == 0 {
        return Ok(named);
    }
    let Some(header) = deleted_header(disk, number) else {
        unreachable!()
    };
    push_header(&mut named, &header)?;
    Ok(named)
}
