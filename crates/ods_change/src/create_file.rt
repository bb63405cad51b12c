//! A Create: its check, the first header of the new file, and the draft that makes it.
ghost use Rattle.std.specs.Prelude.{◌≡◌, ◌+◌, ◌<◌, [], IfOk, MatchResult, length};
ghost use Rattle.ods_alloc.specs.{Counts.counts_of, Extend.cut};
ghost use Rattle.ods_base.specs.Image.{IsImage};
ghost use Rattle.ods_header.specs.Header.{sequence_of};
ghost use Rattle.ods_mount.specs.Sound.{IsSoundBy};
ghost use Rattle.ods_request.specs.{declared.answers.Answer.TheVariants.Created, declared.requests.Request.TheVariants.Create};
ghost use Rattle.ods_space.specs.Draft.{applied};
ghost use Rattle.ods_state.specs.{Growth.IsNewFirst, Growth.IsTaking, Moves.new_attributes, Outcome.CanBeAsked, Served.IsRefusalOf, Wants.allocated_blocks};
ghost use Rattle.ods_change.specs.Creating.{IsMadeFile, IsNewHeaderFor, new_id};
ghost use Rattle.ods_space.specs.Disks.{drafted, header_drafted, header_on, on, seen};
ghost use Rattle.ods_change.specs.Steps.{IsDraftFor};

use crate::beginning::Drafted;
use crate::growing::Growing;
use ods_alloc::{ChainEnd, FreeCounts, extend_from, zero_runs};
use ods_base::{Block, DIRECTORY_TYPE, FileId, Name, Uic};
use ods_directory::with_mark;
use ods_header::{HEADER_ROOM, Run, first_block};
use ods_request::{Refusal, Stamp, new_ident};
use ods_space::{Disk, Draft, sequence};
use std::alloc::{AllocError, Global};

/// Drafts a new file of the user, and returns its ID, or the refusal. The file is entered in no directory. If more numbers are needed than are free,
/// INDEXF.SYS grows.
pub fn create(
    alloc: Global,
    disk: &Disk<'_>,
    counts: &FreeCounts,
    who: Uic,
    name: Name,
    version: u16,
    count: u32,
    stamp: Stamp,
) -> Result<(Drafted, FileId), Refusal>
    requires sound { on IsSoundBy disk.now }
    requires counts { counts.now ≡ seen counts_of disk.now }
    requires asked { CanBeAsked (Create name version count stamp) }
    ensures { MatchResult result
        (λ r. IsDraftFor disk.now who (Create name version count stamp) (Created r.1) r.0.draft r.0.places.items)
        (on IsRefusalOf disk.now who (Create name version count stamp)) }
{
    if count > 65535 {
        return Err(Refusal::BadCount);
    }
    let (growing, begun) = match Growing::begin(alloc, disk, counts, 0, HEADER_ROOM as u32, count) {
        Ok(begun) => begun,
        Err(refusal) => return Err(refusal),
    };
    // A name has three words, and the blocks of an image have bytes.
    let _ = name.words();
    let _ = disk.image.len();
    let numbers = growing.numbers.as_slice();
    let file = new_id(disk, numbers[0]);
    let protection = disk.layout.home().protection;
    let header = new_header(file, who, protection, &name, version, count, &stamp);
    let blocks = growing.blocks.as_slice();
    let runs = growing.runs.as_slice();
    let others = &numbers[1..];
    let Drafted { draft, places } = begun;
    let then = growing.layout_then(disk.layout);
    let later = Disk {
        image: disk.image,
        layout: then,
    };
    match new_file(&later, draft, file.number, header, blocks, runs, others) {
        Ok(draft) => Ok((Drafted { draft, places }, file)),
        Err(_) => Err(Refusal::NoMemory),
    }
}

/// The ID of a new file whose first header has this number.
fn new_id(disk: &Disk<'_>, number: u16) -> FileId
    requires { sequence_of (header_on disk.now number) < 65535 }
    ensures { result ≡ seen new_id disk.now number }
{
    FileId {
        number,
        sequence: sequence(disk, number) + 1,
    }
}

/// This draft with a file made, with this first header: the blocks that it takes become zeros, and its chain grows by
/// them, with these headers behind the first.
fn new_file(
    disk: &Disk<'_>,
    mut draft: Draft,
    number: u16,
    header: Block,
    blocks: &[u32],
    runs: &[Run],
    others: &[u16],
) -> Result<Draft, AllocError>
    requires sound { drafted IsSoundBy disk.now draft }
    requires image { IsImage (applied disk.now.image.now draft) }
    requires taking { drafted IsTaking disk.now draft number [] [] (length blocks.now) others.now }
    requires lowest { blocks.now ≡ allocated_blocks (applied disk.now.image.now draft) disk.now.layout.now (length blocks.now) }
    requires runs { runs.now ≡ cut blocks.now }
    requires header { IsNewFirst (header_drafted disk.now draft number) header number }
    ensures { IfOk result (λ made. drafted IsMadeFile disk.now draft number header (length blocks.now) others.now (applied disk.now.image.now made)) }
{
    zero_runs(runs, &mut draft)?;
    let first = disk.layout.place(number).unwrap();
    draft.set(first, header)?;
    // The first header is the last that the chain has.
    let end = ChainEnd {
        headers: 1,
        blocks: 0,
        number,
        last: &header,
        room: HEADER_ROOM as u32,
    };
    let grown = extend_from(disk, number, &header, &end, blocks, others, runs, draft)?;
    Ok(grown)
}

/// The first header of a new file, before its chain has grown.
fn new_header(
    file: FileId,
    who: Uic,
    protection: u16,
    name: &Name,
    version: u16,
    count: u32,
    stamp: &Stamp,
) -> Block
    ensures { IsNewHeaderFor who protection file name.now version count stamp.now result }
{
    let attributes = new_attributes(name, count);
    let ident = new_ident(name, version, stamp);
    first_block(file, who, protection, attributes, ident)
}

/// The attributes of a new file: zeros; or, of a directory, that its records have 16 bytes, how many blocks it has, and
/// that its names end where they begin.
fn new_attributes(name: &Name, count: u32) -> [u8; 32]
    ensures { result ≡ new_attributes name.now count }
{
    let mut attributes = [0; 32];
    if name.ext() != DIRECTORY_TYPE {
        return attributes;
    }
    // F.RTYP: records of one size; F.RSIZ: how many bytes each has.
    attributes[0] = 1;
    attributes[2] = 16;
    with_mark(attributes, 0, count)
}
