//! A Delete: its checks, and the draft that gives back the blocks and headers of the file.
ghost use Rattle.std.specs.Prelude.{◌≡◌, ◌==◌, ◌<◌, [], ◌∷◌, ◌++◌, ℕ, List, not, IfOk, IfErr, MatchResult, None};
ghost use Rattle.std.specs.List.{All};
ghost use Rattle.std.specs.FinMap.{len};
ghost use Rattle.ods_space.specs.{Draft.applied, Chain.named_by, Chain.numbers_of, Files.IsFile, Files.HasBlocks, Files.IsLayoutOf, Files.IsWhole};
ghost use Rattle.ods_alloc.specs.{Extend.GivesBack, Extend.IsWellPlaced, Marks.Deletes};
ghost use Rattle.ods_mount.specs.{Faults.contents_of, Sound.IsSoundBy};
ghost use Rattle.ods_request.specs.{declared.answers.Answer.TheVariants.Done, declared.requests.Request.TheVariants.Delete, Catalogue.Catalogue, Catalogue.names_of, Faults.fault_of};
ghost use Rattle.ods_look.specs.Opening.{IsFileId};
ghost use Rattle.ods_state.specs.{Change.IsFaultBy, Contents.ShowsBy, Contents.body_of, Served.IsStepOf, Served.IsRefusalOf};
ghost use Rattle.ods_space.specs.Disks.{header_on, on};

use ods_alloc::mark_free;
use ods_base::{Block, FileId, Uic};
use ods_directory::has_names;
use ods_header::{deleted_header, is_directory};
use ods_look::opening::{OpenDirectory, is_granted, named_header};
use ods_request::{Refusal, Right};
use ods_space::{ChainHeaders, Disk, Draft, push_header};
use std::alloc::{AllocError, Global};

/// Drafts the deletion of a file, which gives back its blocks and its numbers, or returns the refusal.
pub fn delete(alloc: Global, disk: &Disk<'_>, who: Uic, file: FileId) -> Result<Draft, Refusal>
    requires { on IsSoundBy disk.now }
    ensures { MatchResult result
        (λ draft. on IsStepOf disk.now who (Delete file) Done (applied disk.now.image.now draft) disk.now.layout.now)
        (on IsRefusalOf disk.now who (Delete file)) }
{
    let first = match open_to_delete(disk, who, file) {
        Ok(first) => first,
        Err(refusal) => return Err(refusal),
    };
    match without_file(alloc, disk, file.number, first) {
        Ok(draft) => Ok(draft),
        Err(_) => Err(Refusal::NoMemory),
    }
}

/// The first header of a file that the user may delete, or the first fault.
fn open_to_delete<'a>(disk: &Disk<'a>, who: Uic, file: FileId) -> Result<&'a Block, Refusal>
    requires { on IsSoundBy disk.now }
    ensures ok { IfOk result (λ first. on IsFileId disk.now file × (5 < file.number) × (first.now ≡ header_on disk.now file.number)
        × ((C : Catalogue) → on ShowsBy disk.now C → fault_of C who (Delete file) ≡ None)) }
    ensures err { IfErr result (on IsFaultBy disk.now who (Delete file)) }
{
    let Some(first) = named_header(disk, file) else {
        return Err(Refusal::NoSuchFile);
    };
    if file.number <= 5 {
        return Err(Refusal::Reserved);
    }
    if !is_granted(first, who, Right::Delete) {
        return Err(Refusal::Denied);
    }
    if is_used_directory(disk, file.number, first) {
        return Err(Refusal::NotEmpty);
    }
    Ok(first)
}

/// Whether the file with this first header is a directory that has a name.
fn is_used_directory(disk: &Disk<'_>, number: u16, first: &Block) -> bool
    requires sound { on IsSoundBy disk.now }
    requires file { on IsFile disk.now number }
    requires header { first.now ≡ header_on disk.now number }
    requires above { 5 < number }
    ensures { (held : List ℕ) → on HasBlocks disk.now number held
        → result ≡ not (len (names_of (body_of number first.now (contents_of disk.now.image.now held))) == 0) }
{
    if !is_directory(number, first) {
        return false;
    }
    let directory = OpenDirectory::of(disk, number, first);
    has_names(&directory.blocks, directory.mark)
}

/// The draft that gives back the blocks and the headers of the file with this first header: the headers are deleted
/// along its chain, and then the bits of both bitmaps are marked.
fn without_file(
    alloc: Global,
    disk: &Disk<'_>,
    number: u16,
    first: &Block,
) -> Result<Draft, AllocError>
    requires sound { on IsSoundBy disk.now }
    requires file { on IsFile disk.now number }
    requires first { first.now ≡ header_on disk.now number }
    ensures { IfOk result (λ draft. (others blocks : List ℕ) → on IsWhole disk.now number others blocks
        → on GivesBack disk.now blocks (number ∷ others) (applied disk.now.image.now draft)) }
{
    // The blocks of an image have bytes, so a chain has at most 256 headers.
    let _ = disk.image.len();
    let headers = ChainHeaders::from(disk, number, first);
    let mut draft = Draft::new(alloc);
    let held = delete_headers(alloc, disk, Vec::new(alloc), headers, &mut draft)?;
    let given = mark_free(disk, &held.lbns, &held.numbers, draft)?;
    Ok(given)
}

/// The blocks and headers that a file gives back: the LBNs of the blocks and the numbers of the headers, both in order.
#[derive(Drop)]
pub(crate) struct Held {
    pub lbns: Vec<u32>,
    pub numbers: Vec<u16>,
}

/// Deletes these headers of a chain in a new draft. Collects their numbers, and their blocks after those already collected. It traverses the chain
/// once.
pub(crate) fn delete_headers(
    alloc: Global,
    disk: &Disk<'_>,
    mut lbns: Vec<u32>,
    mut headers: ChainHeaders<'_>,
    draft: &mut Draft,
) -> Result<Held, AllocError>
    requires layout { on IsLayoutOf disk.now }
    requires places { IsWellPlaced disk.now.layout.now }
    requires read { All (λ h. h.1 ≡ header_on disk.now h.0) headers }
    requires new { draft.old ≡ [] }
    ensures held { IfOk result (λ held. (held.lbns.items ≡ lbns.items ++ named_by headers.entry) × (held.numbers.items ≡ numbers_of headers.entry)) }
    ensures deleted { IfOk result (λ held. on Deletes disk.now held.numbers.items (applied disk.now.image.now draft.new)) }
{
    let mut numbers = Vec::new(alloc);
    while let Some((at, header)) = headers.next() {
        if let Some(lbn) = disk.layout.place(at) {
            draft.set(lbn, deleted_header(header))?;
        }
        push_header(&mut lbns, header)?;
        numbers.push(at)?;
    }
    Ok(Held { lbns, numbers })
}
