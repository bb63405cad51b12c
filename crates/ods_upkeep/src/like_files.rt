//! The model file, whose form new files copy.
ghost use Rattle.std.specs.Prelude.{◌≡◌, MatchResult, Some};
ghost use Rattle.std.specs.Option.{option_map};
ghost use Rattle.ods_shell.specs.declared.facts.Facts.{Facts};
ghost use Rattle.ods_upkeep.specs.Begun.{IsLike, IsLikeable, is_contiguous, placing_asked as asked_placing, placing_by as placing_for};
ghost use Rattle.ods_upkeep.specs.Unbegun.{IsNotLike, SaysNoPattern};

use crate::asked::Placing;
use crate::failure::{Failure, Why, of_path};
use ods_header::CONTIGUOUS;
use ods_mount::Mounted;
use ods_request::Refusal;
use ods_shell::mounted::find_path;
use ods_shell::{Alone, Facts, Kind, PathFault, Unsaid};
use std::alloc::Global;

/// Returns the facts of the model file.
pub(crate) fn like_facts(
    alloc: Global,
    volume: &Mounted,
    like: Option<&str>,
) -> Result<Option<Facts>, Failure>
    ensures { MatchResult result (IsLike volume.now.image volume.now.layout like.entry) (IsNotLike volume.now.image volume.now.layout like.entry) }
{
    let Some(path) = like else {
        return Ok(None);
    };
    match facts_at(alloc, volume, path) {
        Ok(facts) => Ok(Some(facts)),
        Err(why) => Err(of_path(alloc, path, why)),
    }
}

/// What is known of the one file that a path names.
fn facts_at(alloc: Global, volume: &Mounted, path: &str) -> Result<Facts, Why>
    ensures { MatchResult result (IsLikeable volume.now.image volume.now.layout path.now) (SaysNoPattern volume.now.image volume.now.layout path.now) }
{
    let (found, _) = find_path(alloc, volume, path, Unsaid::highest(Alone::Refused), &[])?;
    let [one] = found.as_slice() else {
        return Err(Why::Several);
    };
    let Some(facts) = one.facts else {
        return Err(Why::Path(PathFault::NoSuchFile));
    };
    if facts.kind == Kind::Directory {
        return Err(Why::IsDirectory);
    }
    if facts.file.number <= 2 {
        return Err(Why::Request(Refusal::Reserved));
    }
    Ok(facts)
}

/// Returns the attributes of the model file, if there is one.
pub(crate) fn attributes_in(like: &Option<Facts>) -> Option<[u8; 32]>
    ensures { result ≡ option_map (λ (f : Facts). f.attributes) like.now }
{
    match like {
        Some(facts) => Some(facts.attributes),
        None => None,
    }
}

/// Whether the header says that the file is contiguous.
fn is_contiguous(facts: &Facts) -> bool
    ensures { result ≡ is_contiguous facts.now }
{
    facts.user_char >= CONTIGUOUS
}

/// Returns where the blocks of new files are allocated: as `said`, otherwise in one piece if the model file is contiguous. Without a value, the file
/// that each of them replaces determines it.
pub(crate) fn placing_asked(said: Option<Placing>, like: &Option<Facts>) -> Option<Placing>
    ensures { result ≡ asked_placing said like.now }
{
    if said.is_some() {
        return said;
    }
    match like {
        Some(facts) if is_contiguous(facts) => Some(Placing::InOnePiece),
        _ => None,
    }
}

/// Returns where the blocks of a new file are allocated, like the blocks of this one.
pub(crate) fn placing_like(said: Option<Placing>, facts: &Facts) -> Placing
    ensures { result ≡ placing_for said (Some facts.now) }
{
    let like = Some(*facts);
    placing_asked(said, &like).unwrap_or(Placing::Anywhere)
}
