//! The check before a file receives another owner or another protection.
ghost use Rattle.std.specs.Prelude.{◌≡◌, IfOk, IfErr};
ghost use Rattle.ods_header.specs.Header.{owner_of};
ghost use Rattle.ods_mount.specs.Sound.{IsSoundBy};
ghost use Rattle.ods_space.specs.Disks.{header_on, on};
ghost use Rattle.ods_amend.specs.Access.{MayBeGiven, IsAccessFault, may_give as user_may_give};

use ods_base::{Block, FileId, Uic};
use ods_header::owner;
use ods_look::opening::named_header;
use ods_request::Refusal;
use ods_space::Disk;

/// The greatest number of the system's files.
const RESERVED: u16 = 5;

/// The greatest group of a system user, 10 octal.
const SYSTEM_GROUP: u8 = 8;

/// Whether this user may give a file of this owner another owner or another protection, or give this owner a file: a system user may, and the owner.
pub fn may_give(who: &Uic, owner: &Uic) -> bool
    ensures { result ≡ user_may_give who.now owner.now }
{
    who.group <= SYSTEM_GROUP || (who.group == owner.group && who.member == owner.member)
}

/// Returns the first header of a file to which the user may give another owner or another protection, or the first fault.
pub(crate) fn open_to_give<'a>(
    disk: &Disk<'a>,
    who: Uic,
    file: FileId,
) -> Result<&'a Block, Refusal>
    requires { on IsSoundBy disk.now }
    ensures ok { IfOk result (λ block. on MayBeGiven disk.now who file × (block.now ≡ header_on disk.now file.number)) }
    ensures err { IfErr result (on IsAccessFault disk.now who file) }
{
    let Some(block) = named_header(disk, file) else {
        return Err(Refusal::NoSuchFile);
    };
    if file.number <= RESERVED {
        return Err(Refusal::Reserved);
    }
    if !may_give(&who, &owner(block)) {
        return Err(Refusal::Denied);
    }
    Ok(block)
}
