//! The preparation of an Enter before it writes: its checks, and the entry.
ghost use Rattle.std.specs.Prelude.{◌≡◌, IfSome, MatchResult};
ghost use Rattle.ods_mount.specs.Sound.{IsSoundBy};
ghost use Rattle.ods_request.specs.declared.requests.Request.TheVariants.{Enter};
ghost use Rattle.ods_state.specs.{Change.IsFaultBy, Noted.AreNamesKnown, Outcome.CanBeAsked};
ghost use Rattle.ods_change.specs.Entering.{IsNewEntry, refusal_of};
ghost use Rattle.ods_space.specs.Disks.{on};

use ods_base::{FileId, Name, Uic};
use ods_directory::{DirFault, Slot, enter};
use ods_look::opening::{OpenDirectory, named_header, open_noted};
use ods_request::{Refusal, Right};
use ods_space::Disk;
use ods_state::KnownNames;

/// A name that can be entered in a directory: the volume, the directory, the name's version, its slot, and the bytes of its
/// entry.
#[derive(Drop)]
pub struct NewEntry<'a> {
    pub disk: Disk<'a>,
    pub dir: FileId,
    pub opened: OpenDirectory<'a>,
    pub version: u16,
    pub slot: Slot,
    pub bytes: [u8; 16],
}

/// Returns the entry that an Enter writes, or the first fault. If the slot grows, the directory needs one more block. In a noted directory it reads
/// only the blocks that may have the name or room for it.
pub(crate) fn new_entry<'a>(
    disk: &Disk<'a>,
    who: Uic,
    dir: FileId,
    name: Name,
    version: Option<u16>,
    file: FileId,
    names: Option<&'a KnownNames>,
) -> Result<NewEntry<'a>, Refusal>
    requires sound { on IsSoundBy disk.now }
    requires names { IfSome names (λ k. on AreNamesKnown disk.now k.now) }
    requires asked { CanBeAsked (Enter dir name version file) }
    ensures { MatchResult result (on IsNewEntry disk.now who dir name version file)
        (on IsFaultBy disk.now who (Enter dir name version file)) }
{
    let Some(_) = named_header(disk, file) else {
        return Err(Refusal::NoSuchFile);
    };
    let opened = match open_noted(disk, who, dir, Right::Write, names) {
        Ok(opened) => opened,
        Err(refusal) => return Err(refusal),
    };
    // A name has three words.
    let _ = name.words();
    let entered = match enter(&opened.blocks, opened.mark, &name, version, file) {
        Ok(entered) => entered,
        Err(fault) => return Err(refusal_of(fault)),
    };
    let bytes = entered.2;
    Ok(NewEntry {
        disk: *disk,
        dir,
        opened,
        version: entered.0,
        slot: entered.1,
        bytes,
    })
}

/// The refusal of an Enter for a fault of its directory.
fn refusal_of(fault: DirFault) -> Refusal
    ensures { result ≡ refusal_of fault }
{
    match fault {
        DirFault::NoSuchName => Refusal::NoSuchName,
        DirFault::NameTaken => Refusal::NameTaken,
        DirFault::VersionsFull => Refusal::VersionsFull,
    }
}
