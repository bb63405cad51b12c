//! The extension headers by which a chain grows.
ghost use Rattle.std.specs.Prelude.{◌≡◌, ◌+◌, ◌<◌, ◌≤◌, length, take, drop, OnOk};
ghost use Rattle.std.specs.List.{All};
ghost use Rattle.std.specs.List.Sorted.{IsStrictlyIncreasing};
ghost use Rattle.ods_header.specs.Header.{IsRun, sequence_of};
ghost use Rattle.ods_alloc.specs.Extension.{CanBeMade, MakesHeadersDrafted, first_number, sequence_drafted};
ghost use Rattle.ods_alloc.specs.Marks.{HasPlaces};
ghost use Rattle.ods_space.specs.Disks.{drafted, header_drafted};

use ods_base::FileId;
use ods_header::{HEADER_POINTERS, Header, Run, extension_block, file_sequence};
use ods_space::{Disk, Draft};
use std::alloc::AllocError;

/// Writes new extension headers of the file with this first header. Each takes the next 102 runs and names the next one, and their segment numbers
/// follow this one. They are written in their order, and what stands in the place of each is read before it is written.
pub(crate) fn write_extensions(
    disk: &Disk<'_>,
    first: &Header,
    segment: u8,
    numbers: &[u16],
    runs: &[Run],
    draft: &mut Draft,
) -> Result<(), AllocError>
    requires places { HasPlaces (length disk.now.image.now) disk.now.layout.now }
    requires new { All (drafted CanBeMade disk.now draft.old) numbers.now }
    requires rising { IsStrictlyIncreasing numbers.now }
    requires segments { segment + length numbers.now ≤ 255 }
    requires runs { All IsRun runs.now }
    ensures { OnOk result
        (MakesHeadersDrafted disk.now draft.old first.now (segment + 1) numbers.now runs.now draft.new) }
{
    for (i, number) in numbers.iter().enumerate() {
        if let Some(lbn) = disk.layout.place(*number) {
            let file = first_id(disk, draft, &numbers[i..]);
            let next = first_id(disk, draft, &numbers[i + 1..]);
            let pointers = piece(runs, HEADER_POINTERS * i, HEADER_POINTERS);
            let block = extension_block(first, file, segment + (i + 1) as u8, next, pointers);
            draft.set(lbn, block)?;
        }
    }
    Ok(())
}

/// At most so many runs from index `at` on.
pub(crate) fn piece(runs: &[Run], at: usize, most: usize) -> &[Run]
    ensures { result.now ≡ take most (drop at runs.now) }
{
    let from = runs.len().min(at);
    let to = from + most.min(runs.len() - from);
    &runs[from..to]
}

/// The file ID of the first of these new headers: its sequence number is one more than its block had. Number 0
/// where there is none.
pub(crate) fn first_id(disk: &Disk<'_>, draft: &Draft, numbers: &[u16]) -> FileId
    requires places { HasPlaces (length disk.now.image.now) disk.now.layout.now }
    requires few { sequence_drafted disk.now draft.now numbers.now ≤ 65535 }
    ensures number { result.number ≡ first_number numbers.now }
    ensures sequence { result.sequence ≡ sequence_drafted disk.now draft.now numbers.now }
{
    match numbers {
        [] => FileId {
            number: 0,
            sequence: 0,
        },
        [number, ..] => FileId {
            number: *number,
            sequence: new_sequence(disk, draft, *number),
        },
    }
}

/// The sequence number that a new header gets: one more than its block had.
fn new_sequence(disk: &Disk<'_>, draft: &Draft, number: u16) -> u16
    requires places { HasPlaces (length disk.now.image.now) disk.now.layout.now }
    requires below { sequence_of (header_drafted disk.now draft.now number) < 65535 }
    ensures { result ≡ sequence_of (header_drafted disk.now draft.now number) + 1 }
{
    match disk.layout.place(number) {
        Some(lbn) => file_sequence(draft.block(disk.image, lbn)) + 1,
        None => 1,
    }
}
