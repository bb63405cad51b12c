//! Headers that belong to the chains of two files.
ghost use Rattle.std.specs.Prelude.{◌≡◌, ◌*◌, ◌+◌, ◌<◌, ◌≤◌, ℕ, List, length, IfOk, OnOk};
ghost use Rattle.std.specs.List.{All};
ghost use Rattle.ods_space.specs.{Chain.IsChain, Files.IsLayoutOf};
ghost use Rattle.ods_check.specs.{Lists.AreDistinct, Sets.IsSetOf, Findings.HasAsHeader, Marks.AreHeaders, Marks.IsOfTwo};
ghost use Rattle.ods_space.specs.Disks.{on};

use crate::numbers::file_end;
use crate::repeats::insert_twice;
use ods_mount::NumberSet;
use ods_space::{ChainFault, ChainHeaders, Disk, check_chain};
use std::alloc::{AllocError, Global};

/// Returns the headers that belong to the chains of two files.
pub(crate) fn shared_headers(alloc: Global, disk: &Disk<'_>) -> Result<NumberSet, AllocError>
    requires { on IsLayoutOf disk.now }
    ensures { IfOk result (IsSetOf (on IsOfTwo disk.now (disk.now.layout.now.home.max_files + 1))) }
{
    // The number of a header is a word.
    let mut once = NumberSet::new(alloc, 65536)?;
    let mut twice = NumberSet::new(alloc, 65536)?;
    for number in 0..file_end(disk) {
        note_headers(alloc, disk, number as u16, &mut once, &mut twice)?;
    }
    Ok(twice)
}

/// Notes the headers of a file: in `once`, which has those of the files before it, and in `twice` those that two of them have.
fn note_headers(
    alloc: Global,
    disk: &Disk<'_>,
    number: u16,
    once: &mut NumberSet,
    twice: &mut NumberSet,
) -> Result<(), AllocError>
    requires layout { on IsLayoutOf disk.now }
    requires room { 65536 ≤ 64 * length once.old }
    requires same { 65536 ≤ 64 * length twice.old }
    requires once { IsSetOf (λ x. (m : ℕ) × (m < number) × on HasAsHeader disk.now m x) once.old }
    requires twice { IsSetOf (on IsOfTwo disk.now number) twice.old }
    ensures once { OnOk result (IsSetOf (λ x. (m : ℕ) × (m < number + 1) × on HasAsHeader disk.now m x) once.new) }
    ensures twice { OnOk result (IsSetOf (on IsOfTwo disk.now (number + 1)) twice.new) }
    ensures room { OnOk result (length once.new ≡ length once.old) }
    ensures same { OnOk result (length twice.new ≡ length twice.old) }
{
    let headers = header_numbers(alloc, disk, number)?;
    insert_twice(&headers, once, twice);
    Ok(())
}

/// Returns the headers of a file, if it has a chain.
pub(crate) fn header_numbers(
    alloc: Global,
    disk: &Disk<'_>,
    number: u16,
) -> Result<Vec<u32>, AllocError>
    requires { on IsLayoutOf disk.now }
    ensures headers { IfOk result (λ numbers. on AreHeaders disk.now number numbers.items) }
    ensures distinct { IfOk result (λ numbers. AreDistinct numbers.items) }
    ensures small { IfOk result (λ numbers. All (λ x. x < 65536) numbers.items) }
{
    match check_chain(disk, number) {
        Ok(()) => chain_numbers(alloc, disk, number),
        // A chain is there, though it names blocks that the image lacks.
        Err(ChainFault::OutsideVolume(_)) => chain_numbers(alloc, disk, number),
        Err(ChainFault::BadChain) => Ok(Vec::new(alloc)),
        Err(ChainFault::NoMemory) => Ok(Vec::new(alloc)),
    }
}

/// The headers of a chain.
fn chain_numbers(alloc: Global, disk: &Disk<'_>, number: u16) -> Result<Vec<u32>, AllocError>
    requires layout { on IsLayoutOf disk.now }
    requires chain { (others : List ℕ) × (blocks : List ℕ) × on IsChain disk.now number others blocks }
    ensures headers { IfOk result (λ numbers. on AreHeaders disk.now number numbers.items) }
    ensures distinct { IfOk result (λ numbers. AreDistinct numbers.items) }
    ensures small { IfOk result (λ numbers. All (λ x. x < 65536) numbers.items) }
{
    // The blocks of an image have bytes, so a chain has at most 256 headers.
    let _ = disk.image.len();
    let mut numbers = Vec::new(alloc);
    let mut headers = ChainHeaders::of(disk, number);
    while let Some((header, _)) = headers.next() {
        numbers.push(header as u32)?;
    }
    Ok(numbers)
}
