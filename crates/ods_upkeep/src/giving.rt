//! `chmod` and `chown` give files another protection word, or another owner.
ghost use Rattle.std.specs.Prelude.{◌≡◌, Some, None, IfErr, OnErr, OnOk};
ghost use Rattle.ods_filing.specs.Amended.{HasGiven};
ghost use Rattle.ods_upkeep.specs.Given.{AreGiven, AreNotGiven, GetAccess, GetTheirs, GetsAccess, GetsNone, GetsNotIts, StopsGiving, StopsGivingTheirs};

use crate::failure::{Failure, Why, of_path};
use crate::sources::sources;
use ods_base::{FileId, Uic};
use ods_filing::Filing;
use ods_shell::{Alone, Found, PathFault, Unsaid};
use std::alloc::Global;

/// Gives each selected file another protection word, in which a set bit denies. A path without a version selects the highest. The user of the
/// requests must be the file's owner, or belong to a group of at most 10 octal.
pub fn give_protection(
    alloc: Global,
    filing: &mut Filing,
    paths: &[&str],
    protection: u16,
) -> Result<(), Failure>
    // Done, each file that is named has that protection, and nothing else was done.
    ensures done { OnOk result (AreGiven None (Some protection) paths.now filing.old filing.new) }
    // Refused, it is so for a reason that holds, and of the path that the failure says.
    ensures refused { IfErr result (AreNotGiven None (Some protection) paths.now filing.old filing.new) }
{
    give(alloc, filing, paths, None, Some(protection))
}

/// Gives each selected file another owner. The selection and the required rights are as in `give_protection`.
pub fn give_owner(
    alloc: Global,
    filing: &mut Filing,
    paths: &[&str],
    owner: Uic,
) -> Result<(), Failure>
    // Done, each file that is named has that owner, and nothing else was done.
    ensures done { OnOk result (AreGiven (Some owner) None paths.now filing.old filing.new) }
    // Refused, it is so for a reason that holds, and of the path that the failure says.
    ensures refused { IfErr result (AreNotGiven (Some owner) None paths.now filing.old filing.new) }
{
    give(alloc, filing, paths, Some(owner), None)
}

/// Gives each file that the paths name this owner and this protection, each where it is given.
fn give(
    alloc: Global,
    filing: &mut Filing,
    paths: &[&str],
    owner: Option<Uic>,
    protection: Option<u16>,
) -> Result<(), Failure>
    ensures done { OnOk result (AreGiven owner protection paths.now filing.old filing.new) }
    ensures refused { IfErr result (AreNotGiven owner protection paths.now filing.old filing.new) }
{
    let all = sources(
        alloc,
        filing.mounted(),
        paths,
        Unsaid::highest(Alone::Themselves),
    )?;
    give_all(alloc, filing, &all, owner, protection)
}

/// Gives these, one after another.
fn give_all(
    alloc: Global,
    filing: &mut Filing,
    all: &[Found],
    owner: Option<Uic>,
    protection: Option<u16>,
) -> Result<(), Failure>
    ensures done { OnOk result (GetAccess owner protection all.now filing.old filing.new) }
    ensures refused { IfErr result (StopsGiving owner protection all.now filing.old filing.new) }
{
    for found in all {
        if let Err(why) = give_one(filing, found, owner, protection) {
            return Err(of_path(alloc, &found.path, why));
        }
    }
    Ok(())
}

/// Gives the file of what was found.
fn give_one(
    filing: &mut Filing,
    found: &Found,
    owner: Option<Uic>,
    protection: Option<u16>,
) -> Result<(), Why>
    ensures done { OnOk result (GetsAccess owner protection found.now.facts filing.old filing.new) }
    ensures refused { IfErr result (GetsNone found.now.facts filing.old) }
    ensures unchanged { OnErr result (filing.new ≡ filing.old) }
{
    let Some(facts) = found.facts() else {
        return Err(Why::Path(PathFault::NoSuchFile));
    };
    match filing.set_access(facts.file, owner, protection) {
        Ok(()) => Ok(()),
        Err(refusal) => Err(Why::Request(refusal)),
    }
}

/// The owner and the protection that a file receives.
#[derive(Drop)]
pub struct Access {
    /// Its path, which a failure reports.
    pub path: String,
    /// The file.
    pub file: FileId,
    /// Its owner, if it receives one.
    pub owner: Option<Uic>,
    /// Its protection word, if it receives one.
    pub protection: Option<u16>,
}

/// Gives each of these files its own owner and protection, in order. The required rights are as in `give_protection`.
pub fn give_access(alloc: Global, filing: &mut Filing, all: &[Access]) -> Result<(), Failure>
    // Done, each file has what it receives, and nothing else was done.
    ensures done { OnOk result (GetTheirs all.now filing.old filing.new) }
    // Refused, it is so for a reason that holds, and of the path that the failure says. Those before it have theirs.
    ensures refused { IfErr result (StopsGivingTheirs all.now filing.old filing.new) }
{
    for access in all {
        if let Err(why) = give_its(filing, access) {
            return Err(of_path(alloc, access.path.as_str(), why));
        }
    }
    Ok(())
}

/// Gives a file its owner and its protection.
fn give_its(filing: &mut Filing, access: &Access) -> Result<(), Why>
    ensures done { OnOk result (HasGiven filing.old access.now.file access.now.owner access.now.protection filing.new) }
    ensures refused { IfErr result (GetsNotIts access.now filing.old) }
    ensures unchanged { OnErr result (filing.new ≡ filing.old) }
{
    match filing.set_access(access.file, access.owner, access.protection) {
        Ok(()) => Ok(()),
        Err(refusal) => Err(Why::Request(refusal)),
    }
}
