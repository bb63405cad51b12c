//! The volume's own files, and their entries in the master directory, which are never removed.
ghost use Rattle.std.specs.Prelude.{◌↔◌, IsTrue};
ghost use Rattle.ods_upkeep.specs.Pieces.{Stays};

use ods_shell::Found;

/// The number of the master directory.
pub(crate) const MASTER: u16 = 4;

/// The number of the last of the volume's own files.
pub(crate) const LAST_OWN: u16 = 5;

/// Returns whether an entry is never removed: it is in the master directory, and names a file of the volume's own, 1 to 5.
pub(crate) fn stays(found: &Found) -> bool
    ensures { IsTrue result ↔ Stays found.now.place found.now.facts }
{
    match (found.place, found.facts) {
        (Some(place), Some(facts)) => {
            place.directory.number == MASTER && facts.file.number <= LAST_OWN
        }
        _ => false,
    }
}
