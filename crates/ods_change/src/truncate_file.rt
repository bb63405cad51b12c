//! A Truncate: its checks, and the draft by which the file keeps its first blocks and gives the others back.
ghost use Rattle.std.specs.Prelude.{◌≡◌, ◌<◌, ◌≤◌, nat_lt, ℕ, List, length, IfOk, IfErr, IfSome, MatchResult};
ghost use Rattle.ods_space.specs.{Draft.applied, Chain.IsChain, Files.HasBlocks, Files.IsFile, Files.IsLayoutOf, Files.IsWhole};
ghost use Rattle.ods_mount.specs.Sound.{IsSoundBy};
ghost use Rattle.ods_request.specs.{declared.answers.Answer.TheVariants.Truncated, declared.requests.Request.TheVariants.Truncate};
ghost use Rattle.ods_state.specs.{Change.IsFaultBy, Cutting.CutsOff, Ends.IsKnownIn, Served.IsStepOf, Served.IsRefusalOf};
ghost use Rattle.ods_change.specs.Truncating.{IsCutPlace, IsCuttable};
ghost use Rattle.ods_space.specs.Disks.{header_on, on};

use crate::delete_file::delete_headers;
use crate::known_end::{cut_end, known_count, noted_end};
use ods_alloc::mark_free;
use ods_base::{Block, FileId, Uic};
use ods_header::{cut_header, pointer_sum};
use ods_look::opening::{is_granted, plain_header};
use ods_request::{Refusal, Right};
use ods_space::{ChainHeaders, Disk, Draft, header_block, push_header};
use ods_state::KnownEnd;
use std::alloc::{AllocError, Global};

/// Drafts the truncation of a file to its first `count` blocks, or returns the refusal. The other blocks are given back, with the headers after the
/// header of the last kept block. If the end of the file's chain is noted, and the cut is in its last header, the chain is not walked. In this case
/// the end of the chain afterwards is returned too.
pub fn truncate(
    alloc: Global,
    disk: &Disk<'_>,
    who: Uic,
    file: FileId,
    count: u32,
    known: &Option<KnownEnd>,
) -> Result<(Draft, Option<KnownEnd>), Refusal>
    requires sound { on IsSoundBy disk.now }
    requires known { on IsKnownIn disk.now known.now }
    ensures end { IfOk result (λ r. IsKnownIn (applied disk.now.image.now r.0) disk.now.layout.now r.1) }
    ensures step { MatchResult result
        (λ r. on IsStepOf disk.now who (Truncate file count) (Truncated count) (applied disk.now.image.now r.0) disk.now.layout.now)
        (on IsRefusalOf disk.now who (Truncate file count)) }
{
    let first = match open_to_truncate(disk, who, file, count, known) {
        Ok(first) => first,
        Err(refusal) => return Err(refusal),
    };
    let noted = noted_end(disk, file.number, first, known);
    match cut_off(alloc, disk, file.number, first, count, &noted) {
        Ok(draft) => Ok((draft, cut_end(disk, file.number, count, &noted))),
        Err(_) => Err(Refusal::NoMemory),
    }
}

/// The first header of a file that the user may cut to so many blocks, or the first fault.
fn open_to_truncate<'a>(
    disk: &Disk<'a>,
    who: Uic,
    file: FileId,
    count: u32,
    known: &Option<KnownEnd>,
) -> Result<&'a Block, Refusal>
    requires sound { on IsSoundBy disk.now }
    requires known { on IsKnownIn disk.now known.now }
    ensures ok { IfOk result (λ first. on IsCuttable disk.now who file count × (first.now ≡ header_on disk.now file.number)) }
    ensures err { IfErr result (on IsFaultBy disk.now who (Truncate file count)) }
{
    let first = match plain_header(disk, file, 5) {
        Ok(first) => first,
        Err(refusal) => return Err(refusal),
    };
    if has_fewer(disk, file.number, first, count, known) {
        return Err(Refusal::BadCount);
    }
    if !is_granted(first, who, Right::Extend) {
        return Err(Refusal::Denied);
    }
    Ok(first)
}

/// Whether the file with this first header has fewer blocks.
fn has_fewer(
    disk: &Disk<'_>,
    number: u16,
    first: &Block,
    count: u32,
    known: &Option<KnownEnd>,
) -> bool
    requires sound { on IsSoundBy disk.now }
    requires file { on IsFile disk.now number }
    requires header { first.now ≡ header_on disk.now number }
    requires above { 5 < number }
    requires known { on IsKnownIn disk.now known.now }
    ensures { (held : List ℕ) → on HasBlocks disk.now number held → result ≡ nat_lt (length held) count }
{
    known_count(disk, number, first, known) < count
}

/// The draft that cuts the file with this first header: the headers behind the cut are deleted along its chain, the
/// header in which it is cut is written, and then the bits of both bitmaps are marked.
fn cut_off(
    alloc: Global,
    disk: &Disk<'_>,
    number: u16,
    first: &Block,
    count: u32,
    known: &Option<KnownEnd>,
) -> Result<Draft, AllocError>
    requires sound { on IsSoundBy disk.now }
    requires file { on IsFile disk.now number }
    requires above { 5 < number }
    requires first { first.now ≡ header_on disk.now number }
    requires known { on IsKnownIn disk.now known.now }
    requires enough { (blocks : List ℕ) → on HasBlocks disk.now number blocks → count ≤ length blocks }
    ensures { IfOk result (λ draft. (others blocks : List ℕ) → on IsWhole disk.now number others blocks
        → on CutsOff disk.now number others blocks count (applied disk.now.image.now draft)) }
{
    // The blocks of an image have bytes.
    let _ = disk.image.len();
    let CutPlace {
        number: last,
        header,
        left,
        behind,
    } = cut_place(disk, number, first, count, known);
    let mut lbns = Vec::new(alloc);
    push_header(&mut lbns, header)?;
    let mut draft = Draft::new(alloc);
    let held = delete_headers(alloc, disk, lbns, behind, &mut draft)?;
    let lbn = disk.layout.place(last).unwrap();
    draft.set(lbn, cut_header(header, left))?;
    let given = mark_free(disk, &held.lbns[left as usize..], &held.numbers, draft)?;
    Ok(given)
}

/// Where a chain is cut: the header that has the last block that is kept, how many of its blocks are kept, and the
/// headers behind it.
#[derive(Drop)]
struct CutPlace<'a> {
    number: u16,
    header: &'a Block,
    left: u32,
    behind: ChainHeaders<'a>,
}

/// Where the chain of a file is cut that keeps so many blocks: in the header that has the last of them, and in the first one where none is kept.
fn cut_place<'a>(
    disk: &Disk<'a>,
    number: u16,
    first: &'a Block,
    count: u32,
    known: &Option<KnownEnd>,
) -> CutPlace<'a>
    requires layout { on IsLayoutOf disk.now }
    requires chain { (others : List ℕ) × (blocks : List ℕ) × on IsChain disk.now number others blocks × (count ≤ length blocks) }
    requires first { first.now ≡ header_on disk.now number }
    requires known { on IsKnownIn disk.now known.now }
    ensures { on IsCutPlace disk.now number count result }
{
    match last_place(disk, number, count, known) {
        Some(place) => place,
        None => walked_place(disk, number, first, count),
    }
}

/// Where the chain of a file is cut that keeps so many blocks, if its end is noted and its last header keeps some of its own blocks.
fn last_place<'a>(
    disk: &Disk<'a>,
    number: u16,
    count: u32,
    known: &Option<KnownEnd>,
) -> Option<CutPlace<'a>>
    requires layout { on IsLayoutOf disk.now }
    requires chain { (others : List ℕ) × (blocks : List ℕ) × on IsChain disk.now number others blocks × (count ≤ length blocks) }
    requires known { on IsKnownIn disk.now known.now }
    ensures { IfSome result (on IsCutPlace disk.now number count) }
{
    // The blocks of an image have bytes, so the header has its parts in place.
    let _ = disk.image.len();
    if let Some(end) = known {
        if end.file == number {
            if let Some(header) = header_block(disk, end.last) {
                let has = pointer_sum(header);
                let gone = end.blocks - count;
                if gone < has {
                    return Some(CutPlace {
                        number: end.last,
                        header,
                        left: has - gone,
                        behind: ChainHeaders::none(disk, header),
                    });
                }
            }
        }
    }
    None
}

/// The same by one walk along the chain.
fn walked_place<'a>(disk: &Disk<'a>, number: u16, first: &'a Block, count: u32) -> CutPlace<'a>
    requires layout { on IsLayoutOf disk.now }
    requires chain { (others : List ℕ) × (blocks : List ℕ) × on IsChain disk.now number others blocks × (count ≤ length blocks) }
    requires first { first.now ≡ header_on disk.now number }
    ensures { on IsCutPlace disk.now number count result }
{
    // The blocks of an image have bytes, so a chain has at most 256 headers.
    let _ = disk.image.len();
    let mut left = count;
    let mut headers = ChainHeaders::from(disk, number, first);
    while let Some((at, header)) = headers.next() {
        let has = pointer_sum(header);
        if left <= has {
            return CutPlace {
                number: at,
                header,
                left,
                behind: headers,
            };
        }
        left -= has;
    }
    unreachable!()
}
