//! Entries with the same name and version in one directory, which a refused volume may have. A path that matches both is ambiguous.
ghost use Rattle.std.specs.Prelude.{MatchBool};
ghost use Rattle.ods_shell.specs.Twins.{AreTwins, HaveTwins};

use crate::found::Found;

/// Returns whether two consecutive found files are entries of one directory with the same name and version.
pub fn have_twins(found: &[Found]) -> bool
    ensures { MatchBool result (HaveTwins found.now) (¬ HaveTwins found.now) }
{
    for at in 1..found.len() {
        if are_twins(&found[at - 1], &found[at]) {
            return true;
        }
    }
    false
}

/// Whether these are entries of one directory with one name and version.
fn are_twins(one: &Found, other: &Found) -> bool
    ensures { MatchBool result (AreTwins one.now other.now) (¬ AreTwins one.now other.now) }
{
    match (&one.place, &other.place) {
        (Some(one), Some(other)) => {
            one.directory == other.directory
                && one.entry.name == other.entry.name
                && one.entry.version == other.entry.version
        }
        _ => false,
    }
}
