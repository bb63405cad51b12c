//! An Extend: its checks, and the draft that adds blocks of zeros after the blocks of the file.
ghost use Rattle.std.specs.Prelude.{Some, ◌≡◌, ◌<◌, ◌==◌, ◌||◌, nat_lt, ℕ, List, IfOk, IfErr, MatchResult};
ghost use Rattle.ods_alloc.specs.{Counts.counts_of, Ends.IsEndOf};
ghost use Rattle.ods_base.specs.Image.{IsImage};
ghost use Rattle.ods_space.specs.Draft.{applied};
ghost use Rattle.ods_mount.specs.Sound.{IsSoundBy};
ghost use Rattle.ods_request.specs.{declared.answers.Answer.TheVariants.Extended, declared.requests.Request.TheVariants.Extend};
ghost use Rattle.ods_state.specs.{Change.IsFaultBy, Ends.IsKnownIn, Served.IsRefusalOf};
ghost use Rattle.ods_change.specs.{Extending.IsExtensible, Extending.IsGrownBy, Extending.IsWanted};
ghost use Rattle.ods_space.specs.Disks.{drafted, header_drafted, header_on, on, seen};
ghost use Rattle.ods_change.specs.Steps.{IsDraftFor, IsKnownThen};

use crate::beginning::Drafted;
use crate::growing::Growing;
use crate::known_end::{grown_end, known_end};
use ods_alloc::{ChainEnd, FreeCounts, extend_from, zero_runs};
use ods_base::{Block, FileId, Uic};
use ods_header::without_contiguous;
use ods_look::opening::{is_granted, plain_header};
use ods_request::{Refusal, Right};
use ods_space::{Disk, Draft};
use ods_state::KnownEnd;
use std::alloc::{AllocError, Global};

/// The first header of a file that the user may extend by so many blocks, or the first fault.
fn open_to_extend<'a>(
    disk: &Disk<'a>,
    who: Uic,
    file: FileId,
    count: u32,
) -> Result<&'a Block, Refusal>
    requires { on IsSoundBy disk.now }
    ensures ok { IfOk result (λ block. on IsExtensible disk.now who file count × (block.now ≡ header_on disk.now file.number)) }
    ensures err { IfErr result (on IsFaultBy disk.now who (Extend file count)) }
{
    let block = match plain_header(disk, file, 5) {
        Ok(block) => block,
        Err(refusal) => return Err(refusal),
    };
    if is_bad_count(count) {
        return Err(Refusal::BadCount);
    }
    if !is_granted(block, who, Right::Extend) {
        return Err(Refusal::Denied);
    }
    Ok(block)
}

/// Whether a file cannot get so many blocks at once.
fn is_bad_count(count: u32) -> bool
    ensures { result ≡ (nat_lt 65535 count || (count == 0)) }
{
    65535 < count || count == 0
}

/// This draft with more changes, by which a file whose chain ends so takes these blocks and numbers. The blocks become zeros, and the
/// first header says no more that the file's blocks are contiguous.
fn grow_file(
    disk: &Disk<'_>,
    mut draft: Draft,
    number: u16,
    first: &Block,
    end: &ChainEnd<'_>,
    growing: &Growing,
) -> Result<Draft, AllocError>
    requires sound { drafted IsSoundBy disk.now draft }
    requires image { IsImage (applied disk.now.image.now draft) }
    requires above { 5 < number }
    requires first { first.now ≡ header_drafted disk.now draft number }
    requires end { drafted IsEndOf disk.now draft number end.now }
    requires wanted { (headers : List ℕ) × (old : List ℕ) × (count : ℕ) × drafted IsWanted disk.now draft number headers old count growing.now }
    ensures { IfOk result (λ made. (headers old : List ℕ) (count : ℕ) → drafted IsWanted disk.now draft number headers old count growing.now
        → drafted IsGrownBy disk.now draft number headers old count growing.now.numbers.items (applied disk.now.image.now made)) }
{
    zero_runs(&growing.runs, &mut draft)?;
    let lbn = disk.layout.place(number).unwrap();
    let header = without_contiguous(first);
    draft.set(lbn, header)?;
    // The blocks of what the image becomes have bytes, so its chains have at most 256 headers.
    draft.makes_image(disk.image);
    let grown = extend_from(
        disk,
        number,
        &header,
        end,
        &growing.blocks,
        &growing.numbers,
        &growing.runs,
        draft,
    )?;
    Ok(grown)
}

/// Drafts `count` more blocks of zeros after the blocks of a file. Returns the draft with the end of the file's chain afterwards, which has the count
/// of its blocks, or the refusal. If more numbers are needed than are free, INDEXF.SYS grows. If the end of this file's chain is noted, the chain is
/// not walked.
pub fn extend(
    alloc: Global,
    disk: &Disk<'_>,
    counts: &FreeCounts,
    who: Uic,
    file: FileId,
    count: u32,
    known: &Option<KnownEnd>,
) -> Result<(Drafted, KnownEnd), Refusal>
    requires sound { on IsSoundBy disk.now }
    requires counts { counts.now ≡ seen counts_of disk.now }
    requires known { on IsKnownIn disk.now known.now }
    ensures end { IfOk result (λ r. IsKnownThen disk.now r.0.draft r.0.places.items (Some r.1)) }
    ensures step { MatchResult result
        (λ r. IsDraftFor disk.now who (Extend file count) (Extended r.1.blocks) r.0.draft r.0.places.items)
        (on IsRefusalOf disk.now who (Extend file count)) }
{
    let first = match open_to_extend(disk, who, file, count) {
        Ok(first) => first,
        Err(refusal) => return Err(refusal),
    };
    let end = known_end(disk, file.number, first, known);
    let (growing, begun) = match Growing::begin(alloc, disk, counts, end.headers, end.room, count) {
        Ok(begun) => begun,
        Err(refusal) => return Err(refusal),
    };
    // The blocks of an image have bytes.
    let _ = disk.image.len();
    let Drafted { draft, places } = begun;
    let then = growing.layout_then(disk.layout);
    let later = Disk {
        image: disk.image,
        layout: then,
    };
    match grow_file(&later, draft, file.number, first, &end, &growing) {
        Ok(draft) => {
            let end = grown_end(&end, file.number, count, &growing.numbers);
            Ok((Drafted { draft, places }, end))
        }
        Err(_) => Err(Refusal::NoMemory),
    }
}
