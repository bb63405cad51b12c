//! `repair lost`: files that no directory names are entered in one.
ghost use Rattle.std.specs.Prelude.{◌≡◌, ◌++◌, ◌∷◌, ◌⊎◌, [], IfErr, IfOk, MatchOption, None, OnOk};
ghost use Rattle.ods_base.specs.Name.{IsName};
ghost use Rattle.ods_space.specs.Disks.{on, seen};
ghost use Rattle.ods_space.specs.Files.{IsFile};
ghost use Rattle.ods_check.specs.Repairs.{AreLost};
ghost use Rattle.ods_request.specs.declared.requests.Request.{Request as Asked};
ghost use Rattle.ods_repair.specs.Found.{AreNamed, IsFound, IsNotFound, name_at};

use crate::RepairFault;
use crate::asking::{Plan, ask_all};
use crate::lost_file::LostFile;
use ods_base::{FileId, Name};
use ods_check::find_lost;
use ods_filing::Filing;
use ods_header::ident;
use ods_remains::name_in;
use ods_request::{Refusal, Request};
use ods_space::{Disk, primary_header};
use std::alloc::{AllocError, Global};

/// Enters in a directory each file above 5 that no directory names, with the name in its header and the next version. Returns the entered files in
/// ascending order of their numbers. A lost directory is entered too. A file whose header has no name stays lost. All files are found before the
/// first one is entered. No right is required: a directory that denies the request denies nothing while it is made, and then has its protection again.
/// After a refusal, the files before the refused one are entered. When out of memory, the directory may be without its protection.
pub fn enter_lost(
    alloc: Global,
    filing: &mut Filing,
    dir: FileId,
) -> Result<Vec<LostFile>, RepairFault>
    // Done, those files alone are lost whose headers have no name, and each name is there that was.
    ensures done { IfOk result (λ found. IsFound filing.old dir found.items filing.new) }
    // The volume refuses to enter one, or there is no memory.
    ensures refused { IfErr result (IsNotFound filing.old dir filing.new) }
{
    let lost = find_lost(alloc, &filing.disk())?;
    let found = with_names(alloc, &filing.disk(), &lost)?;
    let asked = ask_all(filing, &Entering { dir }, &found);
    // The volume is sound still.
    let _ = filing.disk();
    if let Err(why) = asked {
        return Err(why);
    }
    Ok(found)
}

/// Those of these files whose headers have names, with these.
fn with_names(alloc: Global, disk: &Disk<'_>, lost: &[FileId]) -> Result<Vec<LostFile>, AllocError>
    requires { on AreLost disk.now lost.now }
    ensures { IfOk result (λ found. on AreNamed disk.now found.items) }
{
    let mut found = Vec::new(alloc);
    for i in 0..lost.len() {
        push_if_named(disk, lost[i], &mut found)?;
    }
    Ok(found)
}

/// Adds a file where its header has a name.
fn push_if_named(disk: &Disk<'_>, file: FileId, found: &mut Vec<LostFile>) -> Result<(), AllocError>
    requires { on IsFile disk.now file.number }
    ensures { OnOk result ((IsName (seen name_at disk.now file.number) × (found.new.items ≡ found.old.items ++ record { file = file; name = seen name_at disk.now file.number } ∷ []))
        ⊎ ((¬ IsName (seen name_at disk.now file.number)) × (found.new.items ≡ found.old.items))) }
{
    if let Some(name) = name_of(disk, file.number) {
        found.push(LostFile { file, name })?;
    }
    Ok(())
}

/// The name in the header of this file, where its words spell one.
fn name_of(disk: &Disk<'_>, number: u16) -> Option<Name>
    requires { on IsFile disk.now number }
    ensures { MatchOption result (¬ IsName (seen name_at disk.now number)) (λ name. IsName (seen name_at disk.now number) × (name ≡ seen name_at disk.now number)) }
{
    match primary_header(disk, number) {
        Some(header) => name_in(&ident(header)),
        // A file has a header.
        None => unreachable!(),
    }
}

/// Files are entered in this directory.
#[derive(Clone, Copy)]
struct Entering {
    dir: FileId,
}

impl Plan for Entering {
    ghost use Rattle.ods_repair.specs.Found.{entry_of};
    ghost use Rattle.ods_repair.specs.declared.fault.RepairFault.TheVariants.{NotEntered};

    type Item = LostFile;

    ghost request_of = { λ s. entry_of s.dir };

    ghost fault_of = { NotEntered };

    fn directory(&self, _item: LostFile) -> FileId {
        self.dir
    }

    fn request(&self, item: LostFile) -> Request {
        entry(self.dir, item.name, item.file)
    }

    fn fault(&self, item: LostFile, reason: Refusal) -> RepairFault {
        RepairFault::NotEntered(item, reason)
    }
}

/// The request that enters a file in the next version of this name.
fn entry(dir: FileId, name: Name, file: FileId) -> Request
    ensures { result ≡ Asked.Enter dir name None file }
{
    Request::Enter {
        dir,
        name,
        version: None,
        file,
    }
}
