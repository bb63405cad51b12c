//! The headers of a chain that grows: its last header, and the new headers after it.
ghost use Rattle.std.specs.Prelude.{◌+◌, ◌≤◌, length, OnOk};
ghost use Rattle.std.specs.List.{All, Contains};
ghost use Rattle.std.specs.List.Sorted.{IsStrictlyIncreasing};
ghost use Rattle.ods_header.specs.Header.{IsRun, segment_of};
ghost use Rattle.ods_alloc.specs.Extension.{CanBeMade, WritesHeadersDrafted};
ghost use Rattle.ods_alloc.specs.{Ends.IsHeaderAt, Marks.HasPlaces};
ghost use Rattle.ods_space.specs.Disks.{drafted};

use crate::chain::{first_id, piece, write_extensions};
use ods_base::Block;
use ods_header::{Run, grown_last, read_header, room, segment};
use ods_space::{Disk, Draft};
use std::alloc::AllocError;

/// Writes the headers of file `number` whose chain grows by these runs. Its last header, which is header `end`, takes as many runs as it has room
/// for, and new headers take the others.
pub(crate) fn write_headers(
    disk: &Disk<'_>,
    number: u16,
    first: &Block,
    end: u16,
    last: &Block,
    numbers: &[u16],
    runs: &[Run],
    draft: &mut Draft,
) -> Result<(), AllocError>
    requires places { HasPlaces (length disk.now.image.now) disk.now.layout.now }
    requires first { drafted IsHeaderAt disk.now draft.old number first.now }
    requires last { drafted IsHeaderAt disk.now draft.old end last.now }
    requires apart { ¬ Contains numbers.now end }
    requires new { All (drafted CanBeMade disk.now draft.old) numbers.now }
    requires rising { IsStrictlyIncreasing numbers.now }
    requires segments { segment_of last.now + length numbers.now ≤ 255 }
    requires runs { All IsRun runs.now }
    ensures { OnOk result
        (WritesHeadersDrafted disk.now draft.old number end numbers.now runs.now draft.new) }
{
    let next = first_id(disk, draft, numbers);
    let Some(lbn) = disk.layout.place(end) else {
        return Ok(());
    };
    let grown = grown_last(last, end, runs, next);
    // Where the newest change of the draft is of this header, both are one.
    draft.renew(lbn, grown)?;
    if numbers.is_empty() {
        return Ok(());
    }
    let Ok(fields) = read_header(first, number) else {
        return Ok(());
    };
    let rest = piece(runs, room(last), runs.len());
    write_extensions(disk, &fields, segment(last), numbers, rest, draft)?;
    Ok(())
}
