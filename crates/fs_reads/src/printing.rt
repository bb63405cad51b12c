//! `cat`: files of a volume, written to standard output.
ghost use Rattle.std.specs.Prelude.{◌≡◌, ◌≢◌, ◌++◌, true, IfErr, IfOk, OnOk};
ghost use Rattle.fs_reads.specs.{Denied.IsClosedStatus, Ends.EndsPrinting, Ends.may_name, Cats.AreFilesOutput, Cats.ArePathsOutput, Cats.HoldsFiles, Cats.IsFileOutput, Cats.IsPathOutput, Gets.AreGot, Gets.EndsFile, Named.AddsNamed};
ghost use Rattle.ods_shell.specs.{Contents.IsGot, Contents.IsNotGot};
ghost use Rattle.fs_reads.specs.declared.stop.Stop.{Stop as End};
ghost use Rattle.ods_shell.specs.declared.status.Status.{Status as Code};
ghost use Rattle.ods_space.specs.Files.{FindsFiles};
ghost use Rattle.ods_space.specs.Disks.{on};

use crate::closed::{closed_to, say_closed};
use crate::near::say_fault;
use crate::reading::{Unread, open_found};
use crate::stop::{Stop, say_about, say_twins};
use fs_host::{HostFault, Noting};
use fs_words::Words;
use ods_base::Uic;
use ods_shell::{
    Alone, Directory, FormFault, Found, PathFault, Remark, Status, Unsaid, Wanted, find_path,
    have_twins,
};
use ods_space::Disk;
use std::io;
use std::io::Write;

/// The user who reads, and whether remarks that are not faults are left out.
#[derive(Clone, Copy)]
pub(crate) struct Reader {
    pub user: Option<Uic>,
    pub quiet: bool,
}

impl Reader {
    /// Returns the reader that the words specify.
    pub fn of(words: &Words<'_>) -> Reader
        ensures { (result.user ≡ words.now.user) × (result.quiet ≡ words.now.quiet) }
    {
        Reader {
            user: words.user,
            quiet: words.quiet,
        }
    }
}

/// Prints the files that the paths select (`cat`).
pub(crate) fn cat<'a, R: AllocGlobal + Print + Eprint>(
    rt: &R,
    disk: &Disk<'_>,
    words: &Words<'a>,
    wanted: Wanted,
) -> Result<Status, Stop<'a>>
    requires { on FindsFiles disk.now }
    ensures status { IfOk result (λ s. may_name s ≡ true) }
    ensures done { IfOk result (λ s. s ≡ Code.Done → on AreGot disk.now words.now.user (λ n. on IsGot disk.now n wanted) words.now.paths.items) }
    ensures err { IfErr result EndsPrinting }
{
    let closed = closed_to(rt.alloc(), disk, words.user)?;
    let reader = Reader::of(words);
    let mut output = io::writer(rt);
    let mut noting = Noting::new(&mut output);
    match cat_paths(rt, disk, &words.paths, &closed, wanted, reader, &mut noting) {
        Ok(status) => Ok(status),
        Err(Stop::Unwritten(_)) => Err(Stop::Unwritten(noting.why())),
        Err(stop) => Err(stop),
    }
}

/// Writes the files that these paths name, and says of those that are refused. Why the writer fails its owner knows.
fn cat_paths<'a, R: AllocGlobal + Eprint, W: Write>(
    rt: &R,
    disk: &Disk<'_>,
    paths: &[&str],
    closed: &[u16],
    wanted: Wanted,
    reader: Reader,
    writer: &mut W,
) -> Result<Status, Stop<'a>>
    requires { on FindsFiles disk.now }
    ensures status { IfOk result (λ s. may_name s ≡ true) }
    ensures written { IfOk result (λ s. HoldsFiles (W.contents writer.old) (W.contents writer.new) s (on ArePathsOutput disk.now wanted reader.user closed.now paths.now)) }
    ensures err { IfErr result EndsPrinting }
{
    let mut status = Status::Done;
    for path in paths {
        status = status.or(cat_path(rt, disk, *path, closed, wanted, reader, writer)?);
    }
    Ok(status)
}

/// Writes the files that a path names, and says of those that are refused.
fn cat_path<'a, R: AllocGlobal + Eprint, W: Write>(
    rt: &R,
    disk: &Disk<'_>,
    path: &str,
    closed: &[u16],
    wanted: Wanted,
    reader: Reader,
    writer: &mut W,
) -> Result<Status, Stop<'a>>
    requires { on FindsFiles disk.now }
    ensures status { IfOk result (λ s. may_name s ≡ true) }
    ensures written { IfOk result (λ s. HoldsFiles (W.contents writer.old) (W.contents writer.new) s (on IsPathOutput disk.now wanted reader.user closed.now path.now)) }
    ensures err { IfErr result EndsPrinting }
{
    let mut files = Vec::new(rt.alloc());
    let named = add_named(rt, disk, path, closed, reader.user, &mut files)?;
    let done = cat_files(rt, disk, &files, wanted, reader, writer)?;
    Ok(named.or(done))
}

/// Writes these files, and says of those that are refused.
fn cat_files<'a, R: AllocGlobal + Eprint, W: Write>(
    rt: &R,
    disk: &Disk<'_>,
    files: &[Found],
    wanted: Wanted,
    reader: Reader,
    writer: &mut W,
) -> Result<Status, Stop<'a>>
    requires { on FindsFiles disk.now }
    ensures status { IfOk result (λ s. may_name s ≡ true) }
    ensures written { IfOk result (λ s. HoldsFiles (W.contents writer.old) (W.contents writer.new) s (on AreFilesOutput disk.now wanted reader.user files.now)) }
    ensures err { IfErr result EndsPrinting }
{
    let mut status = Status::Done;
    for found in files {
        status = status.or(cat_file(rt, disk, found, wanted, reader, writer)?);
    }
    Ok(status)
}

/// Adds the files that a path names, past these closed directories, which are said.
fn add_found<'a, R: AllocGlobal + Eprint>(
    rt: &R,
    found: Vec<Found>,
    closed: &[Directory],
    user: Option<Uic>,
    all: &mut Vec<Found>,
) -> Result<Status, Stop<'a>>
    ensures all { OnOk result (all.new.items ≡ all.old.items ++ found.items) }
    ensures status { IfOk result (IsClosedStatus user closed.now) }
    ensures err { IfErr result (λ stop. stop ≡ End.NoMemory) }
{
    let mut found = found;
    all.append(&mut found)?;
    say_closed(rt, closed, user)
}

/// Adds the files that a path selects. Prints a fault if it selects none or two entries with one name, or if a directory is closed; the command goes
/// on.
#[tactic(auto, using(crate::proofs::Statuses::closed_may, crate::proofs::Statuses::path_may, crate::proofs::Statuses::path_fault))]
pub(crate) fn add_named<'a, R: AllocGlobal + Eprint>(
    rt: &R,
    disk: &Disk<'_>,
    path: &str,
    closed: &[u16],
    user: Option<Uic>,
    all: &mut Vec<Found>,
) -> Result<Status, Stop<'a>>
    requires { on FindsFiles disk.now }
    ensures named { IfOk result (on AddsNamed disk.now user closed.now path.now all.old.items all.new.items) }
    ensures status { IfOk result (λ s. may_name s ≡ true) }
    ensures err { IfErr result (λ stop. stop ≡ End.NoMemory) }
{
    match find_path(
        rt.alloc(),
        disk,
        path,
        Unsaid::highest(Alone::Files),
        closed,
    ) {
        Ok((found, met)) => {
            if have_twins(&found) {
                say_twins(rt, path);
                return Ok(Status::Refused);
            }
            add_found(rt, found, &met, user, all)
        }
        Err(PathFault::NoMemory) => Err(Stop::NoMemory),
        Err(fault) => {
            say_fault(rt, disk, path, closed, fault);
            Ok(fault.status())
        }
    }
}

/// Writes one file. A file that is refused is said, and no fault of the command.
fn cat_file<'a, R: AllocGlobal + Eprint, W: Write>(
    rt: &R,
    disk: &Disk<'_>,
    found: &Found,
    wanted: Wanted,
    reader: Reader,
    writer: &mut W,
) -> Result<Status, Stop<'a>>
    requires { on FindsFiles disk.now }
    ensures ok { IfOk result (EndsFile reader.user (λ n. on IsGot disk.now n wanted) (λ n. on IsNotGot disk.now n wanted) found.now) }
    ensures written { IfOk result (λ s. HoldsFiles (W.contents writer.old) (W.contents writer.new) s (on IsFileOutput disk.now wanted reader.user found.now)) }
    ensures err { IfErr result EndsPrinting }
{
    let path = found.path.as_str();
    match open_found(rt.alloc(), disk, found, wanted, reader.user) {
        Ok(got) => {
            say_remark(rt, path, &got.remark, reader.quiet);
            match got.contents.write_to(writer) {
                Ok(()) => Ok(Status::Done),
                Err(_) => Err(Stop::Unwritten(HostFault::Unknown)),
            }
        }
        Err(fault) => say_unread(rt, path, fault),
    }
}

/// Prints the remark on the contents of a file, if there is one and `quiet` is false.
pub(crate) fn say_remark<R: Eprint>(rt: &R, path: &str, remark: &Option<Remark>, quiet: bool) {
    if let Some(remark) = remark {
        if !quiet {
            say_about(rt, path, *remark);
        }
    }
}

/// Prints why nothing is read from a file, and returns the status. If memory is refused the command ends.
pub(crate) fn say_unread<'a, R: Eprint>(
    rt: &R,
    path: &str,
    fault: Unread,
) -> Result<Status, Stop<'a>>
    ensures ok { IfOk result (λ s. (s ≡ Code.Refused) × (fault ≢ Unread.Form FormFault.NoMemory)) }
    ensures err { IfErr result (λ stop. (stop ≡ End.NoMemory) × (fault ≡ Unread.Form FormFault.NoMemory)) }
{
    match fault {
        Unread::Form(FormFault::NoMemory) => Err(Stop::NoMemory),
        _ => {
            say_about(rt, path, fault);
            Ok(Status::Refused)
        }
    }
}
