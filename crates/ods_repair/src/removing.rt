//! `repair names`: entries that name no file are deleted.
ghost use Rattle.std.specs.Prelude.{◌≡◌, IfErr, IfOk};
ghost use Rattle.ods_base.specs.declared.name.Pick.{Pick as Picked};
ghost use Rattle.ods_request.specs.declared.requests.Request.{Request as Asked};
ghost use Rattle.ods_repair.specs.Cleared.{IsCleared, IsNotCleared};

use crate::RepairFault;
use crate::asking::{Plan, ask_all};
use ods_base::{FileId, Name, Pick};
use ods_check::{Dangling, find_dangling};
use ods_filing::Filing;
use ods_request::{Refusal, Request};
use std::alloc::Global;

/// Removes each entry of each directory that names no file, by its name and its version. Returns the removed entries, sorted by directory number
/// and then by name. All entries are found before the first one is removed. No right is required: a directory that denies the request denies nothing
/// while it is made, and then has its protection again. It fails only when out of memory. The earlier entries are then removed, and one directory may
/// be without its protection.
pub fn remove_dangling(alloc: Global, filing: &mut Filing) -> Result<Vec<Dangling>, RepairFault>
    // Done, no name is left that names no file, and each other name is there.
    ensures done { IfOk result (λ found. IsCleared filing.old found.items filing.new) }
    // There is no memory.
    ensures refused { IfErr result (IsNotCleared filing.old filing.new) }
{
    let found = find_dangling(alloc, &filing.disk())?;
    let asked = ask_all(filing, &Removing, &found);
    // The volume is sound still.
    let _ = filing.disk();
    if let Err(why) = asked {
        return Err(why);
    }
    Ok(found)
}

/// Entries go.
#[derive(Clone, Copy)]
struct Removing;

impl Plan for Removing {
    ghost use Rattle.ods_repair.specs.Cleared.{removal_of};
    ghost use Rattle.ods_repair.specs.declared.fault.RepairFault.TheVariants.{NotRemoved};

    type Item = Dangling;

    ghost request_of = { λ _. removal_of };

    ghost fault_of = { NotRemoved };

    fn directory(&self, item: Dangling) -> FileId {
        item.directory
    }

    fn request(&self, item: Dangling) -> Request {
        let line = item.line;
        removal(item.directory, line.name, line.version)
    }

    fn fault(&self, item: Dangling, reason: Refusal) -> RepairFault {
        RepairFault::NotRemoved(item, reason)
    }
}

/// The request that removes this very entry.
fn removal(dir: FileId, name: Name, version: u16) -> Request
    ensures { result ≡ Asked.Remove dir name (Picked.Exact version) }
{
    Request::Remove {
        dir,
        name,
        pick: Pick::Exact(version),
    }
}
