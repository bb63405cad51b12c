//! The contents of a file that a user may read, or why there are none.
ghost use Rattle.std.specs.Prelude.{ℕ, List, IfErr, IfOk, IfSome, IsSome, OnOk};
ghost use Rattle.ods_shell.specs.{Contents.IsGot, Contents.IsNotGot, Shown.ContentsAre};
ghost use Rattle.fs_reads.specs.Denied.{IsDenied, IsUnread, MayRead};
ghost use Rattle.ods_space.specs.Files.{FindsFiles};
ghost use Rattle.ods_space.specs.Disks.{on};

use ods_base::Uic;
use ods_request::{Right, permits};
use ods_shell::{Facts, FormFault, Found, Got, Wanted, open_contents};
use ods_space::Disk;
use std::alloc::Global;
use thiserror::Error;

/// Why nothing is read from a file.
#[derive(Clone, Copy, Debug, PartialEq, Eq, Error)]
pub(crate) enum Unread {
    /// The user may not read it.
    #[error("denied to [{group:o},{member:o}]", group = .0.group, member = .0.member)]
    Denied(Uic),
    /// It does not have the requested form.
    #[error("{0}")]
    Form(FormFault),
}

/// Checks whether the user may read a file. Without a user every file is readable.
pub(crate) fn check_right(facts: &Facts, user: Option<Uic>) -> Result<(), Unread>
    ensures ok { OnOk result (MayRead user facts.now) }
    ensures err { IfErr result (IsDenied user facts.now) }
{
    let Some(user) = user else {
        return Ok(());
    };
    if permits(&user, &facts.owner, facts.protection, Right::Read) {
        return Ok(());
    }
    Err(Unread::Denied(user))
}

/// Returns the contents of a file that this user may read.
pub(crate) fn open_found<'a>(
    alloc: Global,
    disk: &Disk<'a>,
    found: &Found,
    wanted: Wanted,
    user: Option<Uic>,
) -> Result<Got<'a>, Unread>
    requires { on FindsFiles disk.now }
    ensures ok { IfOk result (λ got. IfSome found.now.facts (λ facts. MayRead user facts × ((bytes : List ℕ) × ContentsAre got.contents bytes × on IsGot disk.now facts.file.number wanted bytes got.remark))) }
    ensures some { OnOk result (IsSome found.now.facts) }
    ensures err { IfErr result (λ fault. IfSome found.now.facts (λ facts. IsUnread user facts (on IsNotGot disk.now facts.file.number wanted) fault)) }
{
    let Some(facts) = &found.facts else {
        return Err(Unread::Form(FormFault::NoSuchFile));
    };
    check_right(facts, user)?;
    match open_contents(alloc, disk, facts.file.number, wanted) {
        Ok(got) => Ok(got),
        Err(fault) => Err(Unread::Form(fault)),
    }
}
