//! The answer of a request, and its change of the volume. Only this file calls the functions of the lower layers that answer a request or draft its
//! change.
ghost use Rattle.std.specs.Prelude.{◌≡◌, false, true, MatchResult, IfOk, IfSome, OnErr};
ghost use Rattle.ods_alloc.specs.Counts.{AreCountsAfter, counts_of};
ghost use Rattle.ods_space.specs.{Draft.applied, Layout.VolumeLayout};
ghost use Rattle.ods_mount.specs.Sound.{IsSoundBy};
ghost use Rattle.ods_request.specs.{declared.requests.Request.TheVariants.List as Lines, Queries.request_of, Table.only_looks, Table.takes_memory};
ghost use Rattle.ods_state.specs.{Noted.AreNamesKnown, Served.IsStepOf, Served.IsRefusalOf, Outcome.CanBeAsked};
ghost use Rattle.ods_change.specs.Steps.{IsDraftFor, IsKnownThen};
ghost use Rattle.ods_volume.specs.{Ends.AreKnownIn, Made.answer_of, Made.end_of};
ghost use Rattle.ods_space.specs.Disks.{on, seen};

use crate::ends::KnownEnds;
use ods_alloc::FreeCounts;
use ods_base::{FileId, Uic};
use ods_change::{Drafted, create, delete, enter, extend, remove, set_user, truncate, write};
use ods_look::{list, look_into_noted};
use ods_request::{Answer, Query, Refusal, Request};
use ods_space::{Disk, Draft};
use ods_state::{KnownEnd, KnownNames};
use std::alloc::{AllocError, Global};

/// Writes the answer of a query into `answer`. It changes no block.
pub(crate) fn look_only<'a>(
    alloc: Global,
    disk: &Disk<'a>,
    who: Uic,
    query: Query,
    names: Option<&'a KnownNames>,
    answer: &mut Answer,
) -> Result<Drafted, Refusal>
    requires sound { on IsSoundBy disk.now }
    requires names { IfSome names (λ k. on AreNamesKnown disk.now k.now) }
    ensures { MatchResult result (λ r. IsDraftFor disk.now who (request_of query) answer.new r.draft r.places.items)
        (on IsRefusalOf disk.now who (request_of query)) }
{
    match look_into_noted(disk, who, query, names, answer) {
        Ok(()) => Ok(Drafted::still(alloc, Draft::new(alloc))),
        Err(refusal) => Err(refusal),
    }
}

/// Writes the answer of a List into this place. It changes no block.
fn list_only(
    alloc: Global,
    disk: &Disk<'_>,
    who: Uic,
    dir: FileId,
    answer: &mut Answer,
) -> Result<Drafted, Refusal>
    requires { on IsSoundBy disk.now }
    ensures { MatchResult result (λ r. IsDraftFor disk.now who (Lines dir) answer.new r.draft r.places.items)
        (on IsRefusalOf disk.now who (Lines dir)) }
{
    match list(alloc, disk, who, dir) {
        Ok(lines) => {
            *answer = Answer::Names(lines);
            Ok(Drafted::still(alloc, Draft::new(alloc)))
        }
        Err(refusal) => Err(refusal),
    }
}

/// The answer of a change. For an Extend it is the end of the file's chain afterwards, with the count of its blocks. For a Truncate it has the same,
/// if that is known. No such answer has a block or lines, so the value is small and cheap to move.
#[derive(Clone, Copy)]
pub(crate) enum Made {
    Created(FileId),
    Extended(KnownEnd),
    Truncated(u32, Option<KnownEnd>),
    Done,
    Entered(u16),
    Removed(FileId, u16),
}

/// Writes the answer of a change into this place.
fn put_answer(answer: &mut Answer, made: Made)
    ensures { answer.new ≡ answer_of made }
{
    match made {
        Made::Created(file) => *answer = Answer::Created(file),
        Made::Extended(end) => *answer = Answer::Extended(end.blocks),
        Made::Truncated(count, _) => *answer = Answer::Truncated(count),
        Made::Done => *answer = Answer::Done,
        Made::Entered(version) => *answer = Answer::Entered(version),
        Made::Removed(file, version) => *answer = Answer::Removed(file, version),
    }
}

/// What a change says of where a chain ends: an Extend says it of its file, and a Truncate may.
fn end_of(made: &Made) -> Option<KnownEnd>
    ensures { result ≡ end_of made.now }
{
    match made {
        Made::Extended(end) => Some(*end),
        Made::Truncated(_, end) => *end,
        _ => None,
    }
}

/// What a request is answered that does not only look, and what it makes of the volume.
fn change<'a>(
    alloc: Global,
    disk: &Disk<'a>,
    counts: &FreeCounts,
    who: Uic,
    request: &Request,
    known: &KnownEnds,
    names: Option<&'a KnownNames>,
) -> Result<(Made, Drafted), Refusal>
    requires asked { CanBeAsked request.now }
    requires changes { only_looks request.now ≡ false }
    requires sound { on IsSoundBy disk.now }
    requires counts { counts.now ≡ seen counts_of disk.now }
    requires known { on AreKnownIn disk.now known.now.ends }
    requires names { IfSome names (λ k. on AreNamesKnown disk.now k.now) }
    ensures end { IfOk result
        (λ p. IsKnownThen disk.now p.1.draft p.1.places.items (end_of p.0)) }
    ensures step { MatchResult result (λ p. IsDraftFor disk.now who request.now (answer_of p.0) p.1.draft p.1.places.items)
        (on IsRefusalOf disk.now who request.now) }
{
    match request {
        Request::Create {
            name,
            version,
            blocks,
            stamp,
        } => match create(alloc, disk, counts, who, *name, *version, *blocks, *stamp) {
            Ok((drafted, file)) => Ok((Made::Created(file), drafted)),
            Err(refusal) => Err(refusal),
        },
        Request::Extend { file, blocks } => {
            let noted = known.of(file.number);
            match extend(alloc, disk, counts, who, *file, *blocks, &noted) {
                Ok((drafted, end)) => Ok((Made::Extended(end), drafted)),
                Err(refusal) => Err(refusal),
            }
        }
        Request::Truncate { file, blocks } => {
            let counted = known.of(file.number);
            match truncate(alloc, disk, who, *file, *blocks, &counted) {
                Ok((draft, end)) => Ok((
                    Made::Truncated(*blocks, end),
                    Drafted::still(alloc, draft),
                )),
                Err(refusal) => Err(refusal),
            }
        }
        Request::Delete { file } => match delete(alloc, disk, who, *file) {
            Ok(draft) => Ok((Made::Done, Drafted::still(alloc, draft))),
            Err(refusal) => Err(refusal),
        },
        Request::Enter {
            dir,
            name,
            version,
            file,
        } => match enter(
            alloc, disk, counts, who, *dir, *name, *version, *file, names,
        ) {
            Ok((drafted, version)) => Ok((Made::Entered(version), drafted)),
            Err(refusal) => Err(refusal),
        },
        Request::Write { file, vbn, block } => {
            match write(alloc, disk, who, *file, *vbn, block) {
                Ok(draft) => Ok((Made::Done, Drafted::still(alloc, draft))),
                Err(refusal) => Err(refusal),
            }
        }
        Request::SetUser { file, attributes } => {
            match set_user(alloc, disk, who, *file, *attributes) {
                Ok(draft) => Ok((Made::Done, Drafted::still(alloc, draft))),
                Err(refusal) => Err(refusal),
            }
        }
        Request::Remove { dir, name, pick } => {
            match remove(alloc, disk, who, *dir, *name, *pick, names) {
                Ok((draft, file, version)) => {
                    let drafted = Drafted::still(alloc, draft);
                    Ok((Made::Removed(file, version), drafted))
                }
                Err(refusal) => Err(refusal),
            }
        }
        // The others only look.
        _ => unreachable!(),
    }
}

/// Writes the answer of a request into `answer`, and returns its change of the volume. An Extend also returns the end of the chain of its file, and a
/// Truncate may.
pub(crate) fn carry_out<'a>(
    alloc: Global,
    disk: &Disk<'a>,
    counts: &FreeCounts,
    who: Uic,
    request: &Request,
    known: &KnownEnds,
    names: Option<&'a KnownNames>,
    answer: &mut Answer,
) -> Result<(Drafted, Option<KnownEnd>), Refusal>
    requires asked { CanBeAsked request.now }
    requires sound { on IsSoundBy disk.now }
    requires counts { counts.now ≡ seen counts_of disk.now }
    requires known { on AreKnownIn disk.now known.now.ends }
    requires names { IfSome names (λ k. on AreNamesKnown disk.now k.now) }
    ensures end { IfOk result (λ r. IsKnownThen disk.now r.0.draft r.0.places.items r.1) }
    ensures step { MatchResult result (λ r. IsDraftFor disk.now who request.now answer.new r.0.draft r.0.places.items)
        (on IsRefusalOf disk.now who request.now) }
{
    if let Some(query) = request.as_query() {
        return match look_only(alloc, disk, who, query, names, answer) {
            Ok(drafted) => Ok((drafted, None)),
            Err(refusal) => Err(refusal),
        };
    }
    if let Request::List { dir } = request {
        return match list_only(alloc, disk, who, *dir, answer) {
            Ok(drafted) => Ok((drafted, None)),
            Err(refusal) => Err(refusal),
        };
    }
    match change(alloc, disk, counts, who, request, known, names) {
        Ok((made, drafted)) => {
            let end = end_of(&made);
            put_answer(answer, made);
            Ok((drafted, end))
        }
        Err(refusal) => Err(refusal),
    }
}

/// Returns the counts of the bitmaps after the draft of a request, or `None` if they are unchanged. A query takes no memory.
pub(crate) fn counts_after(
    counts: &FreeCounts,
    disk: &Disk<'_>,
    request: &Request,
    draft: &Draft,
) -> Result<Option<FreeCounts>, AllocError>
    requires sound { on IsSoundBy disk.now }
    requires counts { counts.now ≡ seen counts_of disk.now }
    requires made { (who : Uic) × (a : Answer) × (M : VolumeLayout) × on IsStepOf disk.now who request.now a (applied disk.now.image.now draft.now) M }
    ensures ok { IfOk result (AreCountsAfter disk.now.image.now (applied disk.now.image.now draft.now) disk.now.layout.now) }
    ensures err { OnErr result (takes_memory request.now ≡ true) }
{
    if let Some(_query) = request.as_query() {
        return Ok(None);
    }
    counts.after(disk, draft)
}
