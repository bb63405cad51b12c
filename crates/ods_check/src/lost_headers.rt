//! Extension headers that no file reaches.
ghost use Rattle.std.specs.Prelude.{◌≡◌, ◌⊎◌, ◌*◌, ◌≤◌, ℕ, List, true, length, MatchBool, IfOk};
ghost use Rattle.ods_space.specs.{Chain.IsChain, Files.IsLayoutOf};
ghost use Rattle.ods_mount.specs.Tables.{has};
ghost use Rattle.ods_check.specs.{Sets.IsSetOf, Findings.HasAsHeader, Findings.IsLostHeader};
ghost use Rattle.ods_space.specs.Disks.{on};

use crate::Finding;
use crate::ids::id_of;
use crate::numbers::{file_end, header_end};
use crate::sweep::Sought;
use ods_header::{is_valid_header, segment};
use ods_mount::NumberSet;
use ods_space::{ChainFault, ChainHeaders, Disk, check_chain, header_block, in_use};
use std::alloc::{AllocError, Global};

/// Valid extension headers that no file has.
#[derive(Drop)]
pub(crate) struct LostHeaders {
    /// The headers of all files that have a chain.
    pub reached: NumberSet,
}

impl Sought for LostHeaders {
    ghost use Rattle.std.specs.Prelude.{ℕ};
    ghost use Rattle.ods_check.specs.{Sets.IsSetOf, Findings.HasAsHeader, Findings.IsLostHeader, Findings.id_at};
    ghost use Rattle.ods_check.specs.declared.finding.Finding.{Finding};

    type Line = Finding;

    ghost most = { 65536 };

    ghost fits = { λ s I L. IsSetOf (λ n. (m : ℕ) × HasAsHeader I L m n) s.reached };

    ghost is = { λ _. IsLostHeader };

    ghost line_of = { λ I L n. Finding.LostHeader (id_at I L n) };

    fn end(&self, disk: &Disk<'_>) -> u32 {
        header_end(disk)
    }

    fn holds(&self, _alloc: Global, disk: &Disk<'_>, number: u32) -> Result<bool, AllocError> {
        Ok(is_lost_header(disk, &self.reached, number as u16))
    }

    fn line(&self, disk: &Disk<'_>, number: u32) -> Finding {
        Finding::LostHeader(id_of(disk, number as u16))
    }
}

/// Returns whether this is a valid extension header that no file has. `reached` is the set of the headers of all files.
pub(crate) fn is_lost_header(disk: &Disk<'_>, reached: &NumberSet, number: u16) -> bool
    requires { IsSetOf (λ n. (m : ℕ) × on HasAsHeader disk.now m n) reached.now }
    ensures { MatchBool result (on IsLostHeader disk.now number) (¬ on IsLostHeader disk.now number) }
{
    if !in_use(disk, number) || reached.contains(number as u32) {
        return false;
    }
    match header_block(disk, number) {
        Some(block) => is_valid_header(block, number) && segment(block) != 0,
        None => false,
    }
}

/// Returns the headers of all files that have a chain.
pub(crate) fn reached_headers(alloc: Global, disk: &Disk<'_>) -> Result<NumberSet, AllocError>
    requires { on IsLayoutOf disk.now }
    ensures { IfOk result (IsSetOf (λ n. (m : ℕ) × on HasAsHeader disk.now m n)) }
{
    // The number of a header is a word.
    let mut reached = NumberSet::new(alloc, 65536)?;
    for number in 0..file_end(disk) {
        note_headers(disk, number as u16, &mut reached);
    }
    Ok(reached)
}

/// Notes the headers of a file, where it has a chain.
fn note_headers(disk: &Disk<'_>, number: u16, reached: &mut NumberSet)
    requires layout { on IsLayoutOf disk.now }
    requires room { 65536 ≤ 64 * length reached.old }
    ensures with { IsSetOf (λ n. (has reached.old n ≡ true) ⊎ on HasAsHeader disk.now number n) reached.new }
    ensures room { length reached.new ≡ length reached.old }
{
    match check_chain(disk, number) {
        Ok(()) => note_chain(disk, number, reached),
        // A chain is there, though it names blocks that the image lacks.
        Err(ChainFault::OutsideVolume(_)) => note_chain(disk, number, reached),
        Err(ChainFault::BadChain) => {}
        Err(ChainFault::NoMemory) => {}
    }
}

/// Notes the headers of a chain.
fn note_chain(disk: &Disk<'_>, number: u16, reached: &mut NumberSet)
    requires layout { on IsLayoutOf disk.now }
    requires chain { (others : List ℕ) × (blocks : List ℕ) × on IsChain disk.now number others blocks }
    requires room { 65536 ≤ 64 * length reached.old }
    ensures with { IsSetOf (λ n. (has reached.old n ≡ true) ⊎ on HasAsHeader disk.now number n) reached.new }
    ensures room { length reached.new ≡ length reached.old }
{
    // The blocks of an image have bytes, so a chain has at most 256 headers.
    let _ = disk.image.len();
    let mut headers = ChainHeaders::of(disk, number);
    while let Some((header, _)) = headers.next() {
        reached.insert(header as u32);
    }
}
