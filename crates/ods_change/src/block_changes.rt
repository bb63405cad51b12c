//! The requests that change one block, with their checks: a Write, a SetUser, and a Remove.
ghost use Rattle.std.specs.Prelude.{IfOk, IfSome, MatchResult};
ghost use Rattle.ods_change.specs.Steps.{KeepsEnds};
ghost use Rattle.ods_mount.specs.Sound.{IsSoundBy};
ghost use Rattle.ods_request.specs.{declared.answers.Answer.TheVariants.Done, declared.answers.Answer.TheVariants.Removed};
ghost use Rattle.ods_request.specs.{declared.requests.Request.TheVariants.Write as WriteRequest, declared.requests.Request.TheVariants.SetUser, declared.requests.Request.TheVariants.Remove};
ghost use Rattle.ods_space.specs.Draft.{applied};
ghost use Rattle.ods_state.specs.{Noted.AreNamesKnown, Served.IsStepOf, Served.IsRefusalOf};
ghost use Rattle.ods_space.specs.Disks.{on};

use crate::drafts::{one_block, with_entry};
use ods_base::{Block, FileId, Name, Pick, Uic};
use ods_directory::NO_ENTRY;
use ods_header::with_attributes;
use ods_look::opening::{open_block, open_noted, open_plain};
use ods_request::{Refusal, Right};
use ods_space::{Disk, Draft};
use ods_state::KnownNames;
use std::alloc::Global;

/// Drafts new bytes for the block of a file at `vbn`, counted from 1, or returns the refusal. No chain of headers changes, so each noted end of a
/// chain stays true.
pub fn write(
    alloc: Global,
    disk: &Disk<'_>,
    who: Uic,
    file: FileId,
    vbn: u32,
    block: &Block,
) -> Result<Draft, Refusal>
    requires { on IsSoundBy disk.now }
    ensures known { IfOk result (KeepsEnds disk.now) }
    ensures step { MatchResult result
        (λ draft. on IsStepOf disk.now who (WriteRequest file vbn block.now) Done (applied disk.now.image.now draft) disk.now.layout.now)
        (on IsRefusalOf disk.now who (WriteRequest file vbn block.now)) }
{
    let lbn = match open_block(disk, who, file, 5, Right::Write, vbn) {
        Ok(lbn) => lbn,
        Err(refusal) => return Err(refusal),
    };
    match one_block(alloc, lbn, *block) {
        Ok(draft) => Ok(draft),
        Err(_) => Err(Refusal::NoMemory),
    }
}

/// Drafts these user attributes in the first header of a file, or returns the refusal.
pub fn set_user(
    alloc: Global,
    disk: &Disk<'_>,
    who: Uic,
    file: FileId,
    attributes: [u8; 32],
) -> Result<Draft, Refusal>
    requires { on IsSoundBy disk.now }
    ensures { MatchResult result
        (λ draft. on IsStepOf disk.now who (SetUser file attributes) Done (applied disk.now.image.now draft) disk.now.layout.now)
        (on IsRefusalOf disk.now who (SetUser file attributes)) }
{
    let first = match open_plain(disk, who, file, 5, Right::Write) {
        Ok(first) => first,
        Err(refusal) => return Err(refusal),
    };
    let header = with_attributes(first, &attributes);
    let lbn = disk.layout.place(file.number).unwrap();
    match one_block(alloc, lbn, header) {
        Ok(draft) => Ok(draft),
        Err(_) => Err(Refusal::NoMemory),
    }
}

/// Drafts the removal of a name from a directory: its entry becomes empty. Returns the draft with the file and the version of the entry, or the
/// refusal. In a noted directory it reads only the blocks that may have the name.
pub fn remove<'a>(
    alloc: Global,
    disk: &Disk<'a>,
    who: Uic,
    dir: FileId,
    name: Name,
    pick: Pick,
    names: Option<&'a KnownNames>,
) -> Result<(Draft, FileId, u16), Refusal>
    requires sound { on IsSoundBy disk.now }
    requires names { IfSome names (λ k. on AreNamesKnown disk.now k.now) }
    ensures { MatchResult result
        (λ r. on IsStepOf disk.now who (Remove dir name pick) (Removed r.1 r.2) (applied disk.now.image.now r.0) disk.now.layout.now)
        (on IsRefusalOf disk.now who (Remove dir name pick)) }
{
    let opened = match open_noted(disk, who, dir, Right::Write, names) {
        Ok(opened) => opened,
        Err(refusal) => return Err(refusal),
    };
    // A name has three words.
    let _ = name.words();
    let entry = match ods_directory::remove(&opened.blocks, opened.mark, &name, pick) {
        Ok(entry) => entry,
        Err(_) => return Err(Refusal::NoSuchName),
    };
    let (lbn, block) = with_entry(disk, dir.number, &opened, entry.2, NO_ENTRY);
    match one_block(alloc, lbn, block) {
        Ok(draft) => Ok((draft, entry.0, entry.1)),
        Err(_) => Err(Refusal::NoMemory),
    }
}
