//! Deleted files whose headers are still present, and the blocks that these headers name.
ghost use Rattle.std.specs.Prelude.{◌≡◌, ◌⊎◌, ◌==◌, [], ◌∷◌, ◌++◌, not, IfOk, OnOk, MatchBool, MatchOption};
ghost use Rattle.ods_header.specs.Header.{blocks_of, next_number_of};
ghost use Rattle.ods_remains.specs.Deleted.{IsDeleted, IsDeletedFile, AreDeletedFiles, IsFormerFile, former, used_again as used_again_of};
ghost use Rattle.ods_space.specs.Disks.{on, seen};

use crate::DeletedFile;
use crate::deleted::{deleted_header, next_deleted};
use ods_header::{next_number, segment};
use ods_space::{Disk, is_free, last_number, push_header};
use std::alloc::{AllocError, Global};

/// Returns whether a number belongs to a deleted file.
pub fn is_deleted_file(disk: &Disk<'_>, number: u16) -> bool
    ensures { MatchBool result (on IsDeletedFile disk.now number) (¬ on IsDeletedFile disk.now number) }
{
    match deleted_header(disk, number) {
        Some(header) => segment(&header) == 0,
        None => false,
    }
}

/// Puts a number behind these, where it is a deleted file.
fn push_deleted(numbers: &mut Vec<u16>, disk: &Disk<'_>, number: u16) -> Result<(), AllocError>
    ensures { OnOk result ((on IsDeletedFile disk.now number × (numbers.new.items ≡ numbers.old.items ++ number ∷ []))
        ⊎ ((¬ on IsDeletedFile disk.now number) × (numbers.new.items ≡ numbers.old.items))) }
{
    if is_deleted_file(disk, number) {
        numbers.push(number)?;
    }
    Ok(())
}

/// Returns the numbers of all deleted files, in ascending order.
pub fn deleted_files(alloc: Global, disk: &Disk<'_>) -> Result<Vec<u16>, AllocError>
    ensures { IfOk result (λ numbers. on AreDeletedFiles disk.now numbers.items) }
{
    let mut numbers = Vec::new(alloc);
    for before in 0..last_number(disk.layout) {
        push_deleted(&mut numbers, disk, before + 1)?;
    }
    Ok(numbers)
}

/// Returns a deleted file: its headers, the blocks that they name, and whether a header is missing. Returns `None` if the number is not the number
/// of a deleted file.
pub fn deleted_file(
    alloc: Global,
    disk: &Disk<'_>,
    number: u16,
) -> Result<Option<DeletedFile>, AllocError>
    ensures { IfOk result (λ file. MatchOption file (¬ on IsDeletedFile disk.now number) (on IsFormerFile disk.now number)) }
{
    if !is_deleted_file(disk, number) {
        return Ok(None);
    }
    Ok(Some(follow(alloc, disk, number)?))
}

/// The file of this deleted header, from it on.
fn follow(alloc: Global, disk: &Disk<'_>, first: u16) -> Result<DeletedFile, AllocError>
    requires { on IsDeletedFile disk.now first }
    ensures { IfOk result (on IsFormerFile disk.now first) }
{
    // The blocks of an image have bytes, so a chain has at most 256 headers.
    let _ = disk.image.len();
    let mut file = DeletedFile {
        headers: Vec::new(alloc),
        blocks: Vec::new(alloc),
        is_cut: false,
    };
    note(disk, &mut file, first)?;
    let mut at = first;
    while let Some(next) = next_deleted(disk, at) {
        note(disk, &mut file, next)?;
        at = next;
    }
    Ok(file)
}

/// Appends this deleted header to the headers of a file, and the blocks that it names to the blocks of the file.
pub(crate) fn note(disk: &Disk<'_>, file: &mut DeletedFile, number: u16) -> Result<(), AllocError>
    requires { on IsDeleted disk.now number }
    ensures headers { OnOk result (file.new.headers.items ≡ file.old.headers.items ++ number ∷ []) }
    ensures blocks { OnOk result (file.new.blocks.items ≡ file.old.blocks.items ++ blocks_of (seen former disk.now number)) }
    ensures cut { OnOk result (file.new.is_cut ≡ not (next_number_of (seen former disk.now number) == 0)) }
{
    let Some(header) = deleted_header(disk, number) else {
        unreachable!()
    };
    file.headers.push(number)?;
    push_header(&mut file.blocks, &header)?;
    file.is_cut = next_number(&header) != 0;
    Ok(())
}

/// Counts the blocks that are used again: the image lacks them, or they are not free.
pub(crate) fn used_again(disk: &Disk<'_>, blocks: &[u32]) -> usize
    ensures { result ≡ seen used_again_of disk.now blocks.now }
{
    let mut count = 0;
    for lbn in blocks {
        if !is_free(disk, *lbn) {
            count += 1;
        }
    }
    count
}
