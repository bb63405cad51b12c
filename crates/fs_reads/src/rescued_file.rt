//! A file that `rescue` copies: what is there of it, and the host file that receives it.
ghost use Rattle.std.specs.Prelude.{◌≡◌, ◌⊎◌, IfOk};
ghost use Rattle.fs_reads.specs.Ends.{StopsWith};
ghost use Rattle.ods_shell.specs.declared.status.Status.{Status as Code};
ghost use Rattle.ods_space.specs.Files.{FindsFiles};
ghost use Rattle.ods_space.specs.Disks.{on};

use crate::host_files::{Written, write_host};
use crate::rescue_lines::{say_left, say_part, tell};
use crate::rescue_way::{Kept, Way};
use crate::stop::{Stop, say_end, send, stop_about};
use fs_host::{HostFault, SaveFault};
use ods_base::FileId;
use ods_shell::{Contents, Rescued, Status, open_rescued, open_rescued_part, text_object};
use ods_space::Disk;
use std::alloc::Global;
use std::collections::BTreeSet;
use std::fs::File;
use std::rt::Files;

/// How files are copied.
#[derive(Clone, Copy)]
pub(crate) struct How<'a> {
    /// The host folder that receives the files.
    pub folder: &'a str,
    /// Whether records become lines if they are whole.
    pub text: bool,
    /// Whether the available part of a file is copied if headers or blocks are missing.
    pub partial: bool,
    /// Whether the command only prints what it would write.
    pub only_tells: bool,
    pub json: bool,
}

/// Copies the file with this number, where its own chain is whole.
pub(crate) fn rescue_file<'a, R: Files<File = File> + AllocGlobal + Print + Eprint>(
    rt: &R,
    disk: &Disk<'_>,
    number: u16,
    how: How<'_>,
    way: Way<'_>,
    kept: &mut Kept,
) -> Result<Status, Stop<'a>>
    requires { on FindsFiles disk.now }
    ensures { IfOk result (λ s. (s ≡ Code.Done) ⊎ (s ≡ Code.Found)) }
{
    match open_rescued(rt.alloc(), disk, number, how.text)? {
        Rescued::Nothing => Ok(Status::Done),
        Rescued::Broken(file, fault) => {
            let what = way.told(rt.alloc(), file)?;
            let why = format!(in rt.alloc(); "{fault}")?;
            if how.partial {
                return keep_part(
                    rt,
                    disk,
                    number,
                    how,
                    file,
                    what.as_str(),
                    why.as_str(),
                    way,
                    kept,
                );
            }
            let line = format!(in rt.alloc(); "left: {}: {fault}\n", what.as_str())?;
            say_left(rt, what.as_str(), why.as_str(), line.as_str(), how.json)?;
            Ok(Status::Found)
        }
        Rescued::Whole(file, name, contents) => keep_below(
            rt, how, file, name, &contents, way, kept,
        ),
    }
}

/// Copies what is there of a file whose chain is not whole.
fn keep_part<'a, R: Files<File = File> + AllocGlobal + Print + Eprint>(
    rt: &R,
    disk: &Disk<'_>,
    number: u16,
    how: How<'_>,
    file: FileId,
    what: &str,
    why: &str,
    way: Way<'_>,
    kept: &mut Kept,
) -> Result<Status, Stop<'a>>
    ensures { IfOk result (λ s. s ≡ Code.Found) }
{
    let Some(part) = open_rescued_part(rt.alloc(), disk, number, how.text)? else {
        return Ok(Status::Found);
    };
    say_part(rt, what, why, how.json)?;
    keep_below(rt, how, file, part.name, &part.contents, way, kept)?;
    Ok(Status::Found)
}

/// Writes what is got out of a file to where its way leads. `name` is the name in its header.
fn keep_below<'a, R: Files<File = File> + AllocGlobal + Print + Eprint>(
    rt: &R,
    how: How<'_>,
    file: FileId,
    name: String,
    contents: &Contents<'_>,
    way: Way<'_>,
    kept: &mut Kept,
) -> Result<Status, Stop<'a>>
    ensures { IfOk result (λ s. (s ≡ Code.Done) ⊎ (s ≡ Code.Found)) }
{
    if !how.only_tells
        && let Err(stop) = way.make(rt, how.folder, &mut kept.folders)
    {
        return leave_unwritten(rt, stop);
    }
    let name = way.name(rt.alloc(), name.as_str())?;
    keep(rt, how, file, name, contents, &mut kept.names)
}

/// Writes the contents of a file to a new file of the folder, under its name. If the name is taken, the ID is appended to the name. With `only_tells`
/// only prints what it would write.
pub(crate) fn keep<'a, R: Files<File = File> + AllocGlobal + Print + Eprint>(
    rt: &R,
    how: How<'_>,
    file: FileId,
    name: String,
    contents: &Contents<'_>,
    taken: &mut BTreeSet<String>,
) -> Result<Status, Stop<'a>>
    ensures { IfOk result (λ s. (s ≡ Code.Done) ⊎ (s ≡ Code.Found)) }
{
    let name = if taken.contains(&name) {
        format!(in rt.alloc(); "{} #{},{}", name.as_str(), file.number, file.sequence)?
    } else {
        name
    };
    let path = format!(in rt.alloc(); "{}/{}", how.folder, name.as_str())?;
    if how.only_tells {
        tell(rt, file, path.as_str(), how.json)?;
    } else {
        let written = write_host(rt, contents, path.as_str(), None, false);
        if written != Written::Done {
            let stop = stop_unwritten(rt.alloc(), path.as_str(), written);
            return if has_no_room(written) {
                Err(stop)
            } else {
                leave_unwritten(rt, stop)
            };
        }
        let line = if how.json {
            text_object(rt.alloc(), "rescued", name.as_str())?
        } else {
            format!(in rt.alloc(); "{}\n", name.as_str())?
        };
        send(rt, line.as_str())?;
    }
    match taken.insert(name) {
        Ok(_) => Ok(Status::Done),
        Err(_) => Err(Stop::NoMemory),
    }
}

/// Whether the disk of the host is full, so that it takes no other file either.
fn has_no_room(written: Written) -> bool {
    matches!(
        written,
        Written::Unmade(HostFault::NoRoom) | Written::Failed(HostFault::NoRoom)
    )
}

/// Prints why the host does not take a file, which is left. Any other stop ends the rescue.
fn leave_unwritten<'a, R: Eprint>(rt: &R, stop: Stop<'a>) -> Result<Status, Stop<'a>>
    ensures { IfOk result (λ s. s ≡ Code.Found) }
{
    match stop {
        Stop::Lines(_, Status::Host) => {
            let _ = say_end(rt, Err(stop));
            Ok(Status::Found)
        }
        stop => Err(stop),
    }
}

/// The end of a rescue that does not write a file.
fn stop_unwritten<'a>(alloc: Global, path: &str, written: Written) -> Stop<'a>
    ensures { StopsWith result Code.Host }
{
    match written {
        Written::Done | Written::IsThere => {
            stop_about(alloc, path, HostFault::IsThere, Status::Host)
        }
        Written::Failed(HostFault::Left) => stop_about(alloc, path, HostFault::Left, Status::Host),
        Written::Unmade(why) | Written::Failed(why) => {
            stop_about(alloc, path, SaveFault::Write(why), Status::Host)
        }
    }
}
