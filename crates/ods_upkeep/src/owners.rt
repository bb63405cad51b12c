//! The owner of a new directory.
ghost use Rattle.ods_upkeep.specs.Made.{IsOwner};

use crate::own_files::MASTER;
use ods_base::{FileId, Name, Uic, print_title};
use ods_paths::numbered_name;

/// Returns the owner of a new directory of this name. It is the given user; otherwise, in the master directory, the group and the member in the
/// digits of the name; otherwise the requesting user.
pub(crate) fn owner_of(said: Option<Uic>, user: Uic, dir: FileId, name: &Name) -> Uic
    ensures { IsOwner said user dir name.now result }
{
    if let Some(said) = said {
        return said;
    }
    if dir.number != MASTER {
        return user;
    }
    let title = print_title(name);
    match numbered_name(title.as_bytes()) {
        Some((group, member)) => Uic { group, member },
        None => user,
    }
}
