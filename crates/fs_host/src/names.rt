//! Names of host files: the targets of symbolic links, and the hidden names of files that are being created.
ghost use Rattle.std.specs.Prelude.{◌≡◌, ◌≤◌, IfOk, IfErr, IsTrue, string_bytes};
ghost use Rattle.fs_host.specs.Faults.{is_reason};
ghost use Rattle.fs_host.specs.Names.{AreParts, LeadsTo, IsReached, IsHidden, IsFront, number_in as number_of_name};

use crate::host_fault::HostFault;
use std::alloc::{AllocError, Global};
use std::fs;
use std::rt::Files;

/// The most bytes of a name.
const LONGEST: usize = 255;

/// So many symbolic links have no end.
const MOST_LINKS: u32 = 40;

/// Returns the path whose last part is the file itself. Follows a symbolic link at the end, and the links after it. A file that does not exist is
/// an error.
pub fn follow_links<R: Files + AllocGlobal>(rt: &R, path: &str) -> Result<String, HostFault>
    ensures ok { IfOk result (λ end. IsReached path.now (string_bytes end)) }
    ensures err { IfErr result (λ fault. IsTrue (is_reason fault)) }
{
    follow(rt, path, false)
}

/// Returns the path that symbolic links reach, whether a file exists there or not.
pub fn end_of_links<R: Files + AllocGlobal>(rt: &R, path: &str) -> Result<String, HostFault>
    ensures ok { IfOk result (λ end. IsReached path.now (string_bytes end)) }
    ensures err { IfErr result (λ fault. IsTrue (is_reason fault)) }
{
    follow(rt, path, true)
}

/// Follows symbolic links, fewer than 40. With `to_new` the last one may lead to nothing.
#[tactic(auto, using(crate::proofs::MayEnd::reason_given, crate::proofs::MayEnd::memory_given))]
fn follow<R: Files + AllocGlobal>(rt: &R, path: &str, to_new: bool) -> Result<String, HostFault>
    ensures ok { IfOk result (λ end. IsReached path.now (string_bytes end)) }
    ensures err { IfErr result (λ fault. IsTrue (is_reason fault)) }
{
    let mut end = String::from_str(rt.alloc(), path)?;
    for count in 0..MOST_LINKS {
        match fs::symlink_metadata(rt, end.as_str()) {
            Ok(found) if found.is_symlink() => {}
            Ok(_) => return Ok(end),
            Err(_) if to_new => return Ok(end),
            Err(error) => return Err(error.into()),
        }
        let link = fs::read_link(rt, end.as_str())?;
        end = from_folder(rt.alloc(), end.as_str(), link.as_str())?;
    }
    Err(HostFault::Links)
}

/// The path that a link in the folder of this one leads to.
fn from_folder(alloc: Global, path: &str, link: &str) -> Result<String, AllocError>
    ensures { IfOk result (λ text. LeadsTo path.now link.now (string_bytes text)) }
{
    if link.starts_with('/') {
        return String::from_str(alloc, link);
    }
    match path.rsplit_once('/') {
        Some((folder, _)) => format!(in alloc; "{folder}/{link}"),
        None => String::from_str(alloc, link),
    }
}

/// Returns the folder of a path, and the name in it.
pub fn parts(path: &str) -> (&str, &str)
    ensures { AreParts path.now result.0.now result.1.now }
{
    match path.rsplit_once('/') {
        Some((folder, name)) => {
            if folder.is_empty() {
                ("/", name)
            } else {
                (folder, name)
            }
        }
        None => (".", path),
    }
}

/// Returns the path of the hidden file next to this one, for this use. A name that is too long is cut, and receives a number of its own.
pub fn hidden_name(alloc: Global, path: &str, word: &str) -> Result<String, AllocError>
    ensures { IfOk result (λ text. IsHidden path.now word.now (string_bytes text)) }
{
    let (folder, name) = parts(path);
    let room = LONGEST.saturating_sub(word.len()).saturating_sub(8);
    if name.len() <= room {
        return format!(in alloc; "{folder}/.{name}.f11fs-{word}");
    }
    let number = number_of(name);
    let front = front_of(name, room.saturating_sub(21));
    format!(in alloc; "{folder}/.{front}.{number}.f11fs-{word}")
}

/// Less than so many bytes of a name, in whole letters.
fn front_of(name: &str, most: usize) -> &str
    ensures { IsFront name.now most result.now }
{
    for end in (0..most).rev() {
        if let Some(front) = name.get(..end) {
            return front;
        }
    }
    ""
}

/// A number for a name: that two long ones have one number is no harm, since one of their files is made at a time.
#[tactic(auto, using(crate::proofs::Fronts::next_number))]
fn number_of(name: &str) -> u64
    ensures { result ≡ number_of_name name.now }
{
    let mut number = 0u64;
    for byte in name.as_bytes() {
        number = number.wrapping_mul(257).wrapping_add(u64::from(*byte));
    }
    number
}
