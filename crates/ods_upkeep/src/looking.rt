//! Names that a user looks up in a directory, and the next version.
ghost use Rattle.std.specs.Prelude.{◌≡◌, ℕ, MatchOption, Some};
ghost use Rattle.ods_filing.specs.Led.{IsAsked};
ghost use Rattle.ods_upkeep.specs.Looked.{IsNextVersion, IsSeen, IsUnseen};

use ods_base::{FileId, Name, Pick};
use ods_filing::Filing;
use ods_request::{Answer, Request};

/// Returns the file and the version under a name, if the user may see it.
pub(crate) fn look_up(
    filing: &mut Filing,
    dir: FileId,
    name: Name,
    pick: Pick,
) -> Option<(FileId, u16)>
    ensures looked { IsAsked filing.old (Request.LookUp dir name pick) filing.new }
    ensures seen { MatchOption result (IsUnseen filing.old dir name pick filing.new) (λ r. IsSeen filing.old dir name pick r.0 r.1 filing.new) }
{
    let _ = filing.disk();
    match filing.request(&Request::LookUp { dir, name, pick }) {
        Ok(answer) => match answer {
            Answer::Found(file, version) => Some((file, version)),
            // A look-up is answered by what is found.
            _ => unreachable!(),
        },
        Err(_) => None,
    }
}

/// Returns the version for a new entry of a name: the given one, or the highest that the user may see plus one, otherwise 1.
pub(crate) fn next_version(
    filing: &mut Filing,
    dir: FileId,
    name: Name,
    version: Option<u16>,
) -> u16
    ensures looked { IsAsked filing.old (Request.LookUp dir name Pick.Highest) filing.new }
    ensures said { (said : ℕ) → version ≡ Some said → result ≡ said }
    ensures next { IsNextVersion filing.old dir name version result filing.new }
{
    if let Some(version) = version {
        return version;
    }
    match look_up(filing, dir, name, Pick::Highest) {
        Some((_, highest)) => highest.saturating_add(1),
        None => 1,
    }
}
