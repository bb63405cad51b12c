//! The requests of a command. The first refused request ends it.
ghost use Rattle.std.specs.Prelude.{◌≡◌, ◌≢◌, ℕ, IfErr, IfOk, OnErr, OnOk};
ghost use Rattle.ods_base.specs.Name.{directory_type};
ghost use Rattle.ods_state.specs.Outcome.{CanBeAsked, IsVersionNumber};
ghost use Rattle.ods_filing.specs.Filed.{IsDone};
ghost use Rattle.ods_filing.specs.Led.{IsAsked, IsObeyed};
ghost use Rattle.ods_filing.specs.Put.{block_count, heading_of};
ghost use Rattle.ods_upkeep.specs.PutFor.{HasNoPlace, IsMadeFor, IsStored, IsUnstored};
ghost use Rattle.ods_upkeep.specs.declared.put_fault.PutFault.TheVariants.{NoRun};
ghost use Rattle.ods_upkeep.specs.Refused.{IsNotDone, IsRefusedBy};
ghost use Rattle.ods_upkeep.specs.Unfiled.{IsUnfiled};

use crate::asked::Placing;
use crate::failure::Why;
use crate::put_fault::PutFault;
use ods_base::{DIRECTORY_TYPE, FileId, LAST_VERSION, Name, Pick, Uic};
use ods_filing::{Filing, NewFile, blocks_for, put_contiguous, put_file};
use ods_header::HEADER_BLOCKS;
use ods_request::{Answer, Refusal, Request};
use ods_shell::space_of;
use std::alloc::Global;

/// Makes a request and returns its answer. A refused request leaves the volume unchanged.
pub(crate) fn make(filing: &mut Filing, request: Request) -> Result<Answer, Why>
    requires { CanBeAsked request }
    ensures done { IfOk result (λ a. IsDone filing.old request a filing.new) }
    ensures asked { IsAsked filing.old request filing.new }
    ensures refused { IfErr result (IsRefusedBy filing.old request) }
    ensures unchanged { OnErr result (filing.new ≡ filing.old) }
{
    match filing.request(&request) {
        Ok(answer) => Ok(answer),
        Err(refusal) => Err(Why::Request(refusal)),
    }
}

/// Makes a request and drops its answer.
pub(crate) fn obey(filing: &mut Filing, request: Request) -> Result<(), Why>
    requires { CanBeAsked request }
    ensures done { OnOk result (IsObeyed filing.old request filing.new) }
    ensures asked { IsAsked filing.old request filing.new }
    ensures refused { IfErr result (IsRefusedBy filing.old request) }
    ensures unchanged { OnErr result (filing.new ≡ filing.old) }
{
    let _answer = make(filing, request)?;
    Ok(())
}

/// Enters a file in a directory. A given version outside 1 to 32,767 is refused with `VersionsFull`, without a request.
pub(crate) fn enter(
    filing: &mut Filing,
    dir: FileId,
    name: Name,
    version: Option<u16>,
    file: FileId,
) -> Result<(), Why>
    ensures done { OnOk result (IsObeyed filing.old (Request.Enter dir name version file) filing.new) }
    ensures asked { IsAsked filing.old (Request.Enter dir name version file) filing.new }
    ensures refused { IfErr result (IsNotDone filing.old (Request.Enter dir name version file)) }
    ensures unchanged { OnErr result (filing.new ≡ filing.old) }
{
    if let Some(version) = version {
        if version == 0 || version > LAST_VERSION {
            return Err(Why::Request(Refusal::VersionsFull));
        }
    }
    obey(
        filing,
        Request::Enter {
            dir,
            name,
            version,
            file,
        },
    )
}

/// Removes exactly this entry.
pub(crate) fn remove(filing: &mut Filing, dir: FileId, name: Name, version: u16) -> Result<(), Why>
    ensures done { OnOk result (IsObeyed filing.old (Request.Remove dir name (Pick.Exact version)) filing.new) }
    ensures asked { IsAsked filing.old (Request.Remove dir name (Pick.Exact version)) filing.new }
    ensures refused { IfErr result (IsRefusedBy filing.old (Request.Remove dir name (Pick.Exact version))) }
    ensures unchanged { OnErr result (filing.new ≡ filing.old) }
{
    obey(
        filing,
        Request::Remove {
            dir,
            name,
            pick: Pick::Exact(version),
        },
    )
}

/// Deletes a file.
pub(crate) fn delete(filing: &mut Filing, file: FileId) -> Result<(), Why>
    ensures done { OnOk result (IsObeyed filing.old (Request.Delete file) filing.new) }
    ensures asked { IsAsked filing.old (Request.Delete file) filing.new }
    ensures refused { IfErr result (IsRefusedBy filing.old (Request.Delete file)) }
    ensures unchanged { OnErr result (filing.new ≡ filing.old) }
{
    obey(filing, Request::Delete { file })
}

/// Puts a new file of the user, its blocks placed so. It is entered nowhere.
fn store(
    alloc: Global,
    filing: &mut Filing,
    placing: Placing,
    file: &NewFile<'_>,
) -> Result<FileId, Why>
    requires version { IsVersionNumber file.now.version }
    requires plain { file.now.name.ext ≢ directory_type }
    ensures stored { IfOk result (λ id. IsStored placing (heading_of file.now) file.now.attributes file.now.bytes.now id filing.old filing.new) }
    ensures refused { IfErr result (IsUnstored placing (heading_of file.now) file.now.attributes file.now.bytes.now filing.old filing.new) }
{
    let stored = match placing {
        Placing::Anywhere => put_file(filing, file),
        Placing::InOnePiece => {
            find_place(filing, file.bytes)?;
            put_contiguous(alloc, filing, file)
        }
    };
    match stored {
        Ok(id) => Ok(id),
        Err(refusal) => Err(Why::Request(refusal)),
    }
}

/// Refuses bytes that are to be in one piece, where no run of free blocks is long enough. More than one header maps it lets pass, since they are refused for that.
fn find_place(filing: &Filing, bytes: &[u8]) -> Result<(), Why>
    ensures found { OnOk result ((longest : ℕ) → ¬ HasNoPlace filing.now.image filing.now.layout (block_count bytes.now) longest) }
    ensures refused { IfErr result (λ why. (longest : ℕ) × HasNoPlace filing.now.image filing.now.layout (block_count bytes.now) longest × (why ≡ Why.Put (NoRun longest (block_count bytes.now)))) }
{
    let count = blocks_for(bytes);
    let longest = space_of(filing.mounted()).longest;
    if count <= HEADER_BLOCKS && (longest as usize) < count {
        return Err(Why::Put(PutFault::NoRun(longest, count)));
    }
    Ok(())
}

/// Creates a new file as its owner, and enters it as the requesting user: under this version, or the next one. Its ident has its own version.
pub(crate) fn put_new(
    alloc: Global,
    filing: &mut Filing,
    placing: Placing,
    owner: Uic,
    dir: FileId,
    version: Option<u16>,
    file: &NewFile<'_>,
) -> Result<FileId, Why>
    ensures made { IfOk result (λ id. IsMadeFor placing owner dir version (heading_of file.now) file.now.attributes file.now.bytes.now id filing.old filing.new) }
    // After a refusal the volume may have the file in part.
    ensures refused { IfErr result (IsUnfiled placing owner dir version (heading_of file.now) file.now.attributes file.now.bytes.now filing.old filing.new) }
{
    if file.name.ext() == DIRECTORY_TYPE {
        return Err(Why::DirectoryType);
    }
    if file.version == 0 || file.version > LAST_VERSION {
        return Err(Why::Request(Refusal::VersionsFull));
    }
    let user = filing.user();
    filing.set_user(owner);
    let made = store(alloc, filing, placing, file);
    filing.set_user(user);
    match made {
        Ok(id) => {
            enter(filing, dir, file.name, version, id)?;
            Ok(id)
        }
        Err(why) => Err(why),
    }
}
