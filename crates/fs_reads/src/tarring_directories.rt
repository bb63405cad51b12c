//! `tar`: the directories that many selected files include, written into an archive without bytes.
ghost use Rattle.std.specs.Prelude.{◌≡◌, ◌⊎◌, [], true, IfErr, IfOk, string_bytes};
ghost use Rattle.std.specs.Io.KnownBytes.{Appends};
ghost use Rattle.fs_reads.specs.{Archives.HoldsMembers, Archives.IsDirectoryIn, Archives.IsOneDirectory, Ends.EndsPrinting, Tars.directory_path as path_of, Tars.is_bare as is_bare_of, Tars.is_folder as is_folder_of, Tars.is_left_out as is_left_out_of, Tars.is_own as is_own_of};
ghost use Rattle.ods_shell.specs.declared.status.Status.{Status as Code};
ghost use Rattle.ods_tar.specs.Written.{directory_plan, member_text};

use crate::rescue_tree::{folder_name, name_below};
use crate::stop::{Stop, say_about};
use crate::tarring::{How, say_twice};
use fs_host::HostFault;
use ods_base::Name;
use ods_shell::{Facts, Found, Kind, Status, push_small};
use ods_tar::{MemberFault, Tarred, records_of, write_directory};
use std::alloc::{AllocError, Global};
use std::collections::BTreeSet;
use std::io::Write;

/// The number of the last of the volume's own files.
const LAST_OWN: u16 = 5;

/// Returns whether a file has no member: it is one of the volume's own files, and many files are selected.
pub(crate) fn is_left_out(many: bool, found: &Found) -> bool
    ensures { result ≡ is_left_out_of many found.now }
{
    many && is_own(found)
}

/// Whether this is one of the volume's own files.
fn is_own(found: &Found) -> bool
    ensures { result ≡ is_own_of found.now.facts }
{
    match found.facts() {
        Some(facts) => facts.file.number <= LAST_OWN,
        None => false,
    }
}

/// Returns whether a file has a member without bytes: it is a directory, and many files are selected.
pub(crate) fn is_bare(many: bool, found: &Found) -> bool
    ensures { result ≡ is_bare_of many found.now }
{
    many && is_folder(found)
}

/// Whether this is a directory in its entry.
fn is_folder(found: &Found) -> bool
    ensures { result ≡ is_folder_of found.now.place found.now.facts }
{
    match (found.place(), found.facts()) {
        (Some(_), Some(facts)) => facts.kind == Kind::Directory,
        _ => false,
    }
}

/// Writes a directory in these folders.
pub(crate) fn tar_directory<'a, R: AllocGlobal + Eprint, W: Write>(
    rt: &R,
    found: &Found,
    folder: &str,
    how: How<'_>,
    written: &mut BTreeSet<String>,
    writer: &mut W,
) -> Result<Status, Stop<'a>>
    requires { is_folder_of found.now.place found.now.facts ≡ true }
    ensures ok { IfOk result (λ s. (s ≡ Code.Done) ⊎ (s ≡ Code.Host)) }
    ensures written { IfOk result (λ s. HoldsMembers (W.contents writer.old) (W.contents writer.new) s (IsDirectoryIn folder.now found.now)) }
    ensures err { IfErr result EndsPrinting }
{
    let Some(facts) = found.facts() else {
        // A directory has facts.
        unreachable!();
    };
    let Some(place) = found.place() else {
        // A directory has an entry.
        unreachable!();
    };
    let name = directory_path(rt.alloc(), folder, &place.entry.name)?;
    tar_named(rt, found.path.as_str(), name, &facts, how, written, writer)
}

/// The path of a directory in an archive.
fn directory_path(alloc: Global, folder: &str, name: &Name) -> Result<String, AllocError>
    ensures { IfOk result (λ path. string_bytes path ≡ path_of folder.now name.now) }
{
    let own = folder_name(alloc, name)?;
    let whole = name_below(alloc, folder, own.as_str())?;
    let mut path = String::new(alloc);
    push_small(&mut path, whole.as_str())?;
    path.push('/')?;
    Ok(path)
}

/// Writes a directory of which this is known under a name that is none of those that were written; how it ended is said.
fn tar_named<'a, R: AllocGlobal + Eprint, W: Write>(
    rt: &R,
    path: &str,
    name: String,
    facts: &Facts,
    how: How<'_>,
    written: &mut BTreeSet<String>,
    writer: &mut W,
) -> Result<Status, Stop<'a>>
    ensures ok { IfOk result (λ s. (s ≡ Code.Done) ⊎ (s ≡ Code.Host)) }
    ensures written { IfOk result (λ s. HoldsMembers (W.contents writer.old) (W.contents writer.new) s (IsOneDirectory facts.now (string_bytes name))) }
    ensures err { IfErr result EndsPrinting }
{
    if written.contains(&name) {
        say_twice(rt, path, name.as_str());
        return Ok(Status::Host);
    }
    let records = records_of(rt.alloc(), facts, false)?;
    let tarred = Tarred {
        path: name.as_str(),
        mtime: how.zone.second_at(&facts.creation_date()),
        records: &records,
    };
    let done = send_directory(rt, path, &tarred, writer)?;
    if done == Status::Done && written.insert(name).is_err() {
        return Err(Stop::NoMemory);
    }
    Ok(done)
}

/// Writes a directory into the archive. One that the archive cannot hold is said, and no fault of the command.
fn send_directory<'a, R: AllocGlobal + Eprint, W: Write>(
    rt: &R,
    path: &str,
    tarred: &Tarred<'_>,
    writer: &mut W,
) -> Result<Status, Stop<'a>>
    ensures ok { IfOk result (λ s. (s ≡ Code.Done) ⊎ (s ≡ Code.Host)) }
    ensures done { IfOk result (λ s. s ≡ Code.Done
        → Appends (W.contents writer.old) (W.contents writer.new) (member_text (directory_plan tarred.now.path.now tarred.now.mtime tarred.now.records.now) [])) }
    ensures large { IfOk result (λ s. s ≡ Code.Host → Appends (W.contents writer.old) (W.contents writer.new) []) }
    ensures err { IfErr result EndsPrinting }
{
    match write_directory(rt.alloc(), tarred, writer) {
        Ok(()) => Ok(Status::Done),
        Err(MemberFault::NoMemory) => Err(Stop::NoMemory),
        Err(MemberFault::Large) => {
            say_about(rt, path, MemberFault::Large);
            Ok(Status::Host)
        }
        Err(MemberFault::Write) => Err(Stop::Unwritten(HostFault::Unknown)),
    }
}
