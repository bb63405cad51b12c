//! Why a command ends early: its text on standard error, and its exit status. Only `say_end` prints it.
ghost use Rattle.std.specs.Prelude.{◌≡◌, ◌⊎◌, IfOk, IfErr, IfSome};
ghost use Rattle.fs_reads.specs.Ends.{EndsPrinting, EndsWith, HasWordStatus, SaysLine, StopsWith, about_line, two_entries};
ghost use Rattle.fs_reads.specs.declared.stop.Stop.{Stop as End};
ghost use Rattle.fs_reads.specs.declared.stop.Stop.TheVariants as ends;
ghost use Rattle.ods_shell.specs.declared.status.Status.{Status as Code};

use crate::volume::VolumeFault;
use fs_host::{HostFault, Noting, SaveFault, Shown};
use ods_base::{Uic, write_bytes};
use ods_shell::{PathFault, Status};
use std::alloc::{AllocError, Global};
use std::fmt::Display;
use std::os::unix::fs::{FileTypeExt, MetadataExt};
use std::rt::Files;
use std::{fs, io};
use thiserror::Error;

/// Why a command ends early. Its text is not printed yet.
#[derive(Drop)]
pub enum Stop<'a> {
    /// A path, and why it selects nothing.
    Path(&'a str, PathFault),
    /// A word of the command, and its fault.
    Word(&'a str, WordFault),
    /// The bytes at this path are not a valid or sound image.
    Image(&'a str, VolumeFault),
    /// This user may not read the names of the directory with this number.
    Closed(u16, Uic),
    /// Writing to standard output failed for this reason.
    Unwritten(HostFault),
    /// The image is saved, and then writing to standard output failed for this reason.
    SavedUnwritten(HostFault),
    /// The host clock has no time.
    NoTime,
    /// The allocator refused memory.
    NoMemory,
    /// The command ends with these lines, and this status.
    Lines(String, Status),
}

impl<'a> From<AllocError> for Stop<'a> {
    ghost from_gives = { λ _ stop. stop ≡ ends.NoMemory };

    fn from(_error: AllocError) -> Stop<'a> {
        Stop::NoMemory
    }
}

/// What is said of a path that two entries of one directory fit, with one name and version, as a refused volume may have them.
const TWO_ENTRIES: &str =
    "two entries have this name; 'find' lists their IDs, and '#N,S' says which is meant";

/// The fault of a word of a command.
#[derive(Clone, Copy, Debug, PartialEq, Eq, Error)]
pub enum WordFault {
    /// Reading this file of the host failed.
    #[error("reading failed: {0}")]
    Unread(HostFault),
    /// Standard output is this image.
    #[error("standard output is the image; send it elsewhere")]
    OwnOutput,
    /// Several files would be written to this file of the host.
    #[error("it is not a folder, and the command needs one")]
    NoFolder,
    /// Files, several directories or an ID, when one directory is required.
    #[error("-r needs exactly one directory: it copies the files in and below it")]
    OneDirectory,
    /// The target is a folder with names, or is not a folder.
    #[error("it exists and is not an empty folder; give a new folder")]
    NotEmpty,
    /// The host cannot create this folder.
    #[error("the folder cannot be made: {0}")]
    Unmade(HostFault),
    /// A folder of the host is put without `-r`.
    #[error("it is a folder; 'put -r' puts a folder with all that is in it")]
    Folder,
    /// No date of a volume is the time at which this file of the host was changed.
    #[error("-p cannot keep its date: the dates of a volume are from 1970 to 2069")]
    NoDate,
    /// The image cannot be locked or saved.
    #[error("{0}")]
    Unsaved(SaveFault),
    /// The image to save is shorter than its volume.
    #[error("the image is shorter than its volume; --force adds zeros for the missing blocks")]
    Short,
    /// The image would be changed, and its file ends before a block of a file of the volume.
    #[error("the image ends before blocks of files; 'check --all' lists these files, 'rescue' copies the others")]
    Lacking,
    /// The image size differs from the size of a floppy in the specified order, given in bytes.
    #[error("OtherSize: a floppy in this order has {0} bytes; another --order may fit")]
    OtherSize(usize),
    /// A file of commands is not valid text.
    #[error("it is not UTF-8 text")]
    NoText,
    /// A file of commands has more bytes than this limit.
    #[error("a file of commands has at most {0} bytes")]
    ManyBytes(u64),
    /// The label is not valid for a volume.
    #[error("not a valid label: use 1 to 12 of A to Z, 0 to 9 and dots")]
    NoLabel,
    /// The specified number of blocks differs from this number, the size of a new floppy in the specified order.
    #[error("a floppy in this order has {0} blocks")]
    OtherBlocks(u32),
    /// Standard input is put, and no path on the volume is given.
    #[error("standard input needs a PATH")]
    NoPath,
    /// A host file with the first number of bytes. The free blocks hold only the second number of bytes.
    #[error("VolumeFull: it has {0} bytes, and the free blocks of the volume hold {1}")]
    Large(u64, u64),
    /// A stream with more bytes than this number, which the free blocks hold.
    #[error("VolumeFull: it has more bytes than the {0} that the free blocks of the volume hold")]
    LargeStream(u64),
}

impl WordFault {
    /// Returns the exit status for this fault.
    pub fn status(&self) -> Status
        ensures { HasWordStatus self.now result }
    {
        match self {
            WordFault::NoFolder
            | WordFault::OneDirectory
            | WordFault::NoText
            | WordFault::ManyBytes(_)
            | WordFault::NoLabel
            | WordFault::OtherBlocks(_)
            | WordFault::OtherSize(_)
            | WordFault::NoPath => Status::Words,
            WordFault::Short
            | WordFault::Lacking
            | WordFault::NoDate
            | WordFault::Large(_, _)
            | WordFault::LargeStream(_) => Status::Refused,
            WordFault::Unread(_)
            | WordFault::OwnOutput
            | WordFault::NotEmpty
            | WordFault::Folder
            | WordFault::Unmade(_)
            | WordFault::Unsaved(_) => Status::Host,
        }
    }
}

/// Returns the end of a command with the line `what: why` and this status.
pub fn stop_about<'a, D: Display + Drop>(
    alloc: Global,
    what: &str,
    why: D,
    status: Status,
) -> Stop<'a>
    ensures status { StopsWith result status ⊎ (result ≡ End.NoMemory) }
    ensures line { IfSome (D.output why) (λ said. SaysLine (about_line what.now said) result) }
{
    let what = Shown(what);
    match format!(in alloc; "{what}: {why}") {
        Ok(line) => Stop::Lines(line, status),
        Err(_) => Stop::NoMemory,
    }
}

/// Prints why a command ended early, if it did, and returns the exit status.
pub fn say_end<R: Eprint>(rt: &R, done: Result<Status, Stop<'_>>) -> Status
    ensures { EndsWith done.entry result }
{
    match done {
        Ok(status) => status,
        Err(stop) => say_stop(rt, &stop),
    }
}

/// Says why a command does not go on, and gives its status.
fn say_stop<R: Eprint>(rt: &R, stop: &Stop<'_>) -> Status
    ensures { StopsWith stop.now result }
{
    match stop {
        Stop::Path(path, fault) => {
            say_about(rt, *path, *fault);
            fault.status()
        }
        Stop::Word(word, fault) => {
            say_about(rt, *word, *fault);
            fault.status()
        }
        Stop::Image(path, fault) => {
            say_refused(rt, *path, *fault);
            Status::Image
        }
        Stop::Closed(number, user) => {
            let _ = eprintln!(rt;
                "f11fs: directory {number}: denied to [{:o},{:o}]",
                user.group, user.member
            );
            Status::Refused
        }
        Stop::Unwritten(why) => {
            say_unwritten(rt, *why);
            Status::Host
        }
        Stop::SavedUnwritten(why) => {
            let _ = eprintln!(rt;
                "f11fs: the image is saved, but writing to standard output failed: {why}"
            );
            Status::Host
        }
        Stop::NoTime => {
            let _ = eprintln!(rt;
                "f11fs: the host's clock gives no valid time; set one with --stamp"
            );
            Status::Host
        }
        Stop::NoMemory => {
            let _ = eprintln!(rt; "f11fs: out of memory");
            Status::Host
        }
        Stop::Lines(lines, status) => {
            say_lines(rt, lines.as_str());
            *status
        }
    }
}

/// Prints each of these lines on standard error.
pub(crate) fn say_lines<R: Eprint>(rt: &R, lines: &str) {
    for line in lines.lines() {
        let _ = eprintln!(rt; "f11fs: {line}");
    }
}

/// Prints the line `what: why` on standard error.
pub(crate) fn say_about<R: Eprint, D: Display + Drop>(rt: &R, what: &str, why: D) {
    let what = Shown(what);
    let _ = eprintln!(rt; "f11fs: {what}: {why}");
}

/// Says that standard output takes no more; that whoever reads it wants no more is no matter.
fn say_unwritten<R: Eprint>(rt: &R, why: HostFault) {
    if why != HostFault::NoReader {
        let _ = eprintln!(rt; "f11fs: writing to standard output failed: {why}");
    }
}

/// Prints that two entries of one directory match a path.
pub(crate) fn say_twins<R: Eprint>(rt: &R, path: &str) {
    say_about(rt, path, TWO_ENTRIES);
}

/// Returns the end of a command whose path matches two entries of one directory.
pub(crate) fn stop_twins<'a>(alloc: Global, path: &str) -> Stop<'a>
    ensures status { StopsWith result Code.Refused ⊎ (result ≡ End.NoMemory) }
    ensures line { SaysLine (about_line path.now two_entries) result }
{
    stop_about(alloc, path, TWO_ENTRIES, Status::Refused)
}

/// Prints the refusal of an image: its name and its reason, and a remedy or the apparent type of the bytes.
pub(crate) fn say_refused<R: Eprint>(rt: &R, path: &str, fault: VolumeFault) {
    let path = Shown(path);
    let _ = match (fault.advice(), fault.look()) {
        (Some(advice), Some(look)) => {
            let why = advice.why;
            eprintln!(rt; "f11fs: {path}: {fault}: {why}; {look}")
        }
        (Some(advice), None) => {
            let (why, what) = (advice.why, advice.what);
            eprintln!(rt; "f11fs: {path}: {fault}: {why}; {what}")
        }
        (None, _) => eprintln!(rt; "f11fs: {path}: {fault}"),
    };
}

/// Writes a text to standard output.
pub fn send<'a, R: Print>(rt: &R, text: &str) -> Result<Status, Stop<'a>>
    ensures ok { IfOk result (λ s. s ≡ Code.Done) }
    ensures err { IfErr result EndsPrinting }
{
    let mut output = io::writer(rt);
    let mut noting = Noting::new(&mut output);
    match write_bytes(&mut noting, text.as_bytes()) {
        Ok(()) => Ok(Status::Done),
        Err(_) => Err(Stop::Unwritten(noting.why())),
    }
}

/// Refuses a command that prints if standard output is the image itself, and not a character device.
pub fn stop_at_own_output<'a, R: Files>(rt: &R, image: &'a str) -> Result<(), Stop<'a>>
    ensures { IfErr result (λ stop. stop ≡ End.Word image.entry WordFault.OwnOutput) }
{
    let (Ok(output), Ok(found)) = (fs::metadata(rt, "/proc/self/fd/1"), fs::metadata(rt, image))
    else {
        return Ok(());
    };
    let is_image = output.dev() == found.dev() && output.ino() == found.ino();
    if !is_image || output.file_type().is_char_device() {
        return Ok(());
    }
    Err(Stop::Word(image, WordFault::OwnOutput))
}
