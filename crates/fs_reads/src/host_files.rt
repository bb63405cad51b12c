//! Files of the host that are written: complete under their names, or not at all.
ghost use Rattle.std.specs.Prelude.{◌≡◌, IfErr, IsTrue};
ghost use Rattle.fs_host.specs.Faults.{may_end_beginning};
ghost use Rattle.fs_reads.specs.Host.{EndsFilling, EndsPouring, EndsWriting, IsFoundThere, WouldEnd, unseen_by};

use crate::pouring::pour;
use fs_host::{HostFault, NewFile, end_of_links};
use ods_shell::Contents;
use std::fs;
use std::fs::{File, Metadata, OpenOptions};
use std::os::unix::fs::{MetadataExt, fchown};
use std::rt::Files;

/// The result of writing a file.
#[derive(Clone, Copy, Debug, PartialEq, Eq)]
pub(crate) enum Written {
    Done,
    /// The existing file may not be replaced.
    IsThere,
    /// The file cannot be created.
    Unmade(HostFault),
    /// Writing failed.
    Failed(HostFault),
}

/// What is there by a path of the host.
enum There {
    Nothing,
    /// Something that is not to be replaced.
    Kept,
    /// A plain file that is replaced.
    Plain(Metadata),
    /// A stream, or a device, which is written into.
    Stream,
    /// It cannot be written to.
    Closed(HostFault),
}

/// Returns whether a file could be written to this path, as far as it can be determined without writing.
pub(crate) fn could_write<R: Files>(rt: &R, host: &str, replaces: bool) -> Written
    ensures { WouldEnd replaces result }
{
    match found_at(rt, host, replaces) {
        There::Kept => Written::IsThere,
        There::Closed(fault) => Written::Unmade(fault),
        There::Nothing | There::Plain(_) | There::Stream => Written::Done,
    }
}

/// Writes the contents to this path: to a new file, or with `replaces` to one that takes the place of an existing plain file. If `changed` is given,
/// a plain file receives this modification time, in seconds since 1970.
pub(crate) fn write_host<R: Files<File = File> + AllocGlobal>(
    rt: &R,
    contents: &Contents<'_>,
    host: &str,
    changed: Option<u32>,
    replaces: bool,
) -> Written
    ensures { EndsWriting replaces result }
{
    let old = match found_at(rt, host, replaces) {
        There::Kept => return Written::IsThere,
        There::Closed(fault) => return Written::Unmade(fault),
        There::Stream => return write_into(rt, contents, host),
        There::Nothing => None,
        There::Plain(old) => Some(old),
    };
    let path = match end_of_links(rt, host) {
        Ok(path) => path,
        Err(fault) => return Written::Unmade(fault),
    };
    match begin(rt, path.as_str(), old) {
        Ok(new) => fill(rt, new, contents, changed, replaces),
        Err(fault) => Written::Unmade(fault),
    }
}

/// What is there by a path, where plain files may be replaced or not.
fn found_at<R: Files>(rt: &R, host: &str, replaces: bool) -> There
    ensures { IsFoundThere replaces result }
{
    if let Err(error) = fs::symlink_metadata(rt, host) {
        return unseen(HostFault::of(&error));
    }
    if !replaces {
        return There::Kept;
    }
    match fs::metadata(rt, host) {
        Ok(found) if found.is_dir() => There::Closed(HostFault::IsFolder),
        Ok(found) if found.is_file() && !is_stream(rt, &found) => There::Plain(found),
        Ok(_) => There::Stream,
        // Nothing there is a symbolic link to a file that is made.
        Err(error) => unseen(HostFault::of(&error)),
    }
}

/// What is there by a path that the host does not look at for this reason.
fn unseen(why: HostFault) -> There
    ensures { result ≡ unseen_by why }
{
    match why {
        HostFault::NotThere => There::Nothing,
        why => There::Closed(why),
    }
}

/// Whether the file is standard output or standard error, which others hold open.
fn is_stream<R: Files>(rt: &R, found: &Metadata) -> bool {
    is_file_at(rt, "/proc/self/fd/1", found) || is_file_at(rt, "/proc/self/fd/2", found)
}

/// Whether the file of this path is this one.
fn is_file_at<R: Files>(rt: &R, path: &str, found: &Metadata) -> bool {
    match fs::metadata(rt, path) {
        Ok(other) => other.dev() == found.dev() && other.ino() == found.ino(),
        Err(_) => false,
    }
}

/// A new file for this path. It gets owner, group and mode of the old one, and the mode without the group's rights where the group
/// cannot be kept.
fn begin<R: Files<File = File> + AllocGlobal>(
    rt: &R,
    path: &str,
    old: Option<Metadata>,
) -> Result<NewFile, HostFault>
    ensures { IfErr result (λ why. IsTrue (may_end_beginning why)) }
{
    let Some(old) = old else {
        return NewFile::begin(rt, path, None);
    };
    let mode = old.mode() & 0o777;
    let mut new = NewFile::begin(rt, path, Some(mode))?;
    let _ = fchown(&*new.file(), Some(old.uid()), None);
    if fchown(&*new.file(), None, Some(old.gid())).is_ok() {
        return Ok(new);
    }
    new.give_up(rt);
    NewFile::begin(rt, path, Some(mode & 0o707))
}

/// Writes a new file, which then gets its time and its name.
fn fill<R: Files<File = File>>(
    rt: &R,
    new: NewFile,
    contents: &Contents<'_>,
    changed: Option<u32>,
    replaces: bool,
) -> Written
    ensures { EndsFilling replaces result }
{
    let mut new = new;
    if let Err(why) = pour(contents, new.file()) {
        new.give_up(rt);
        return Written::Failed(why);
    }
    match new.finish(rt, changed, replaces) {
        Ok(()) => Written::Done,
        Err(HostFault::IsThere) => Written::IsThere,
        Err(fault) => Written::Failed(fault),
    }
}

/// Writes into a stream or a device.
fn write_into<R: Files<File = File>>(rt: &R, contents: &Contents<'_>, host: &str) -> Written
    ensures { EndsPouring result }
{
    let mut options = OpenOptions::new();
    options.write(true).truncate(true);
    let mut file = match options.open(rt, host) {
        Ok(file) => file,
        Err(error) => return Written::Unmade(HostFault::of(&error)),
    };
    match pour(contents, &mut file) {
        Ok(()) => Written::Done,
        Err(why) => Written::Failed(why),
    }
}
