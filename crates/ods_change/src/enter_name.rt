//! An Enter: the draft that puts the entry of a name into a directory.
ghost use Rattle.std.specs.Prelude.{◌≡◌, IfSome, MatchResult};
ghost use Rattle.ods_alloc.specs.Counts.{counts_of};
ghost use Rattle.ods_mount.specs.Sound.{IsSoundBy};
ghost use Rattle.ods_request.specs.{declared.answers.Answer.TheVariants.Entered, declared.requests.Request.TheVariants.Enter};
ghost use Rattle.ods_state.specs.{Noted.AreNamesKnown, Outcome.CanBeAsked, Served.IsRefusalOf};
ghost use Rattle.ods_space.specs.Disks.{on, seen};
ghost use Rattle.ods_change.specs.Steps.{IsDraftFor};

use crate::beginning::Drafted;
use crate::enter_behind::enter_behind;
use crate::enter_within::enter_within;
use crate::entry::new_entry;
use ods_alloc::FreeCounts;
use ods_base::{FileId, Name, Uic};
use ods_request::Refusal;
use ods_space::Disk;
use ods_state::KnownNames;
use std::alloc::Global;

/// Drafts the entry of a file in a directory, and returns the version of the entry, or the refusal. If the directory needs one more block, it takes
/// one. If this takes more numbers than are free, INDEXF.SYS grows.
pub fn enter<'a>(
    alloc: Global,
    disk: &Disk<'a>,
    counts: &FreeCounts,
    who: Uic,
    dir: FileId,
    name: Name,
    version: Option<u16>,
    file: FileId,
    names: Option<&'a KnownNames>,
) -> Result<(Drafted, u16), Refusal>
    requires sound { on IsSoundBy disk.now }
    requires names { IfSome names (λ k. on AreNamesKnown disk.now k.now) }
    requires counts { counts.now ≡ seen counts_of disk.now }
    requires asked { CanBeAsked (Enter dir name version file) }
    ensures { MatchResult result
        (λ r. IsDraftFor disk.now who (Enter dir name version file) (Entered r.1) r.0.draft r.0.places.items)
        (on IsRefusalOf disk.now who (Enter dir name version file)) }
{
    let entry = match new_entry(disk, who, dir, name, version, file, names) {
        Ok(entry) => entry,
        Err(refusal) => return Err(refusal),
    };
    if entry.slot.grows {
        return match enter_behind(alloc, counts, &entry) {
            Ok(drafted) => Ok((drafted, entry.version)),
            Err(refusal) => Err(refusal),
        };
    }
    match enter_within(alloc, &entry) {
        Ok(draft) => Ok((Drafted::still(alloc, draft), entry.version)),
        Err(refusal) => Err(refusal),
    }
}
