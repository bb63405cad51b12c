//! `untar`: the files and directories of an archive of the host, put into a volume.
ghost use Rattle.std.specs.Prelude.{◌≡◌, ◌++◌, ◌*◌, ◌≤◌, List, Some, is_some, length, not, IfErr, IfNone, IfSome, IsTrue, OnOk, slice_get};
ghost use Rattle.ods_filing.specs.Filed.{Filed};
ghost use Rattle.ods_request.specs.Stamps.{is_stamp};
ghost use Rattle.ods_upkeep.specs.Given.{GetTheirs};
ghost use Rattle.ods_upkeep.specs.declared.giving.Access.{Access as Given};
ghost use Rattle.f11fs.specs.{Changed.IsRefusal, Given.AreTaken, Unpacked.ArePutFrom, Unpacked.AreUntarred, Unpacked.IsDirectoryPut, Unpacked.IsDue, Unpacked.IsFilePut, Unpacked.IsMemberTime, Unpacked.IsPut, Unpacked.archive_among, Unpacked.directory_among, Unpacked.has_access as gives_access, Unpacked.is_directory as is_directory_kind, Unpacked.placing_told};

use crate::dating::time_at;
use crate::early::{Early, archive_room};
use crate::host::Host;
use crate::putting::taken_or_read;
use crate::refusing::stop_failed;
use fs_host::HostZone;
use fs_reads::{Stop, WordFault, stop_about};
use fs_words::Words;
use ods_archive::{Kind, next_member, path_of};
use ods_base::FileId;
use ods_filing::Filing;
use ods_request::Stamp;
use ods_shell::Status;
use ods_untar::{AskFault, Told, Wanted, directory_below, members_in, path_below};
use ods_upkeep::{
    Access, Packed, PackedDirectory, Placing, give_access, make_ready, untar_directory, untar_file,
};
use std::alloc::{AllocError, Global};
use std::str;

/// The bit of UC.CON among the characteristics of the user.
const CONTIGUOUS: u8 = 128;

/// Runs `untar`: the first word is the archive, or `-`, and the second a directory of the volume.
pub(crate) fn untar<'a, R: Host>(
    rt: &R,
    filing: &mut Filing,
    stamp: Stamp,
    words: &Words<'a>,
    early: &mut Early,
) -> Result<(), Stop<'a>>
    requires { AreTaken (R.gives rt.now) early.old }
    ensures taken { AreTaken (R.gives rt.now) early.new }
    ensures done { OnOk result (AreUntarred (R.gives rt.now) (is_some words.now.stamp) words.now.paths.items stamp filing.old filing.new) }
    ensures refused { IfErr result IsRefusal }
{
    let alloc = rt.alloc();
    let archive = archive_among(words.paths.as_slice());
    let directory = directory_among(words.paths.as_slice());
    let most = most_bytes(filing);
    let bytes = match taken_or_read(rt, archive, most, early) {
        Ok(bytes) => bytes,
        Err(fault) => return Err(Stop::Word(archive, WordFault::Unread(fault))),
    };
    let wanted = match members_in(alloc, bytes.as_slice()) {
        Ok(wanted) => wanted,
        Err(fault) => return Err(stop_asked(alloc, archive, bytes.as_slice(), fault)),
    };
    let files = wanted.as_slice();
    make_ready(filing, files.len(), Placing::Anywhere);
    let times = Times {
        run: stamp,
        zone: HostZone::read_where(rt, words.stamp.is_none()),
    };
    put_and_give(alloc, filing, &times, directory, files)
}

/// Which times files get.
#[derive(Drop)]
struct Times {
    /// The specified time, or else the time of the run.
    run: Stamp,
    /// The zone that turns the times of members into local times, if no time is specified.
    zone: Option<HostZone>,
}

impl Times {
    /// Returns the time of a file or a directory: the specified time, or else the date in its records. Without one it is the time of its member, in
    /// seconds since 1970; if the member has none, the time of the run.
    fn of(&self, date: Option<[u8; 13]>, time: Option<u64>) -> Stamp
        ensures { IsMemberTime (not (is_some self.now.zone)) self.now.run date time result }
    {
        if self.zone.is_none() {
            return self.run;
        }
        if let Some(stamp) = stamp_in(date) {
            return stamp;
        }
        match time {
            Some(second) => time_at(&self.zone, second, self.run),
            None => self.run,
        }
    }
}

/// The date in records as a stamp, if it is one.
fn stamp_in(date: Option<[u8; 13]>) -> Option<Stamp>
    ensures some { IfSome result (λ stamp. (date ≡ Some stamp) × IsTrue (is_stamp stamp)) }
    ensures none { IfNone result (IfSome date (λ text. ¬ IsTrue (is_stamp text))) }
{
    match date {
        Some(text) => Stamp::parse(&text),
        None => None,
    }
}

/// Returns the archive that the words name: the first word, or standard input.
pub fn archive_among<'a>(words: &[&'a str]) -> &'a str
    ensures { result.now ≡ archive_among words.now }
{
    match words.first() {
        Some(word) => *word,
        None => "-",
    }
}

/// The directory below which files go.
fn directory_among<'a>(words: &[&'a str]) -> Option<&'a str>
    ensures { result ≡ directory_among words.now }
{
    words.get(1).copied()
}

/// How many bytes an archive has at most whose files go into this volume.
fn most_bytes(filing: &Filing) -> u64
    ensures { length filing.now.image * 512 ≤ result }
{
    let bytes = (filing.mounted().image().len() as u64).saturating_mul(512);
    archive_room(Some(bytes)).unwrap_or(bytes)
}

/// Puts these files and directories, and then gives directories what remains to be given to them.
fn put_and_give<'a>(
    alloc: Global,
    filing: &mut Filing,
    times: &Times,
    directory: Option<&str>,
    wanted: &[Wanted<'_>],
) -> Result<(), Stop<'a>>
    ensures done { OnOk result ((due : List Given) × (filled : Filed)
        × ArePutFrom (not (is_some times.now.zone)) directory.entry times.now.run wanted.now due filing.old filled × GetTheirs due filled filing.new) }
    ensures refused { IfErr result IsRefusal }
{
    let mut due = Vec::new(alloc);
    put_all(alloc, filing, times, directory, wanted, &mut due)?;
    give_due(alloc, filing, due.as_slice())
}

/// Gives files their owners and protections.
fn give_due<'a>(alloc: Global, filing: &mut Filing, due: &[Access]) -> Result<(), Stop<'a>>
    ensures done { OnOk result (GetTheirs due.now filing.old filing.new) }
    ensures refused { IfErr result IsRefusal }
{
    match give_access(alloc, filing, due) {
        Ok(()) => Ok(()),
        Err(failure) => Err(stop_failed(alloc, &failure)),
    }
}

/// Puts these files and directories, one after another. What remains to be given to directories is added to `due`.
fn put_all<'a>(
    alloc: Global,
    filing: &mut Filing,
    times: &Times,
    directory: Option<&str>,
    wanted: &[Wanted<'_>],
    due: &mut Vec<Access>,
) -> Result<(), Stop<'a>>
    ensures done { OnOk result ((more : List Given) × (due.new.items ≡ due.old.items ++ more)
        × ArePutFrom (not (is_some times.now.zone)) directory.entry times.now.run wanted.now more filing.old filing.new) }
    ensures refused { IfErr result IsRefusal }
{
    for one in wanted {
        put_one(alloc, filing, times, directory, one, due)?;
    }
    Ok(())
}

/// Puts a file or a directory.
fn put_one<'a>(
    alloc: Global,
    filing: &mut Filing,
    times: &Times,
    directory: Option<&str>,
    wanted: &Wanted<'_>,
    due: &mut Vec<Access>,
) -> Result<(), Stop<'a>>
    ensures done { OnOk result ((more : List Given) × (due.new.items ≡ due.old.items ++ more)
        × IsPut (not (is_some times.now.zone)) directory.entry times.now.run wanted.now more filing.old filing.new) }
    ensures refused { IfErr result IsRefusal }
{
    if is_directory(wanted.found.kind) {
        return put_directory(alloc, filing, times, directory, wanted, due);
    }
    put_file(alloc, filing, times, directory, wanted)
}

/// Whether a member of this type is a directory.
fn is_directory(kind: Kind) -> bool
    ensures { result ≡ is_directory_kind kind }
{
    matches!(kind, Kind::Directory)
}

/// Sees that a directory is there.
fn put_directory<'a>(
    alloc: Global,
    filing: &mut Filing,
    times: &Times,
    directory: Option<&str>,
    wanted: &Wanted<'_>,
    due: &mut Vec<Access>,
) -> Result<(), Stop<'a>>
    ensures done { OnOk result ((more : List Given) × (due.new.items ≡ due.old.items ++ more)
        × IsDirectoryPut (not (is_some times.now.zone)) directory.entry times.now.run wanted.now more filing.old filing.new) }
    ensures refused { IfErr result IsRefusal }
{
    let path = directory_below(alloc, directory, &wanted.found)?;
    let Ok(path) = str::from_utf8(path.as_slice()) else {
        return Err(no_text(alloc));
    };
    let packed = PackedDirectory {
        path,
        stamp: times.of(wanted.told.date, wanted.found.mtime),
    };
    let made = match untar_directory(alloc, filing, times.run, &packed) {
        Ok(made) => made,
        Err(failure) => return Err(stop_failed(alloc, &failure)),
    };
    push_due(alloc, due, path, made, &wanted.told)?;
    Ok(())
}

/// Adds what remains to be given to a directory, if it was created.
fn push_due(
    alloc: Global,
    due: &mut Vec<Access>,
    path: &str,
    made: Option<FileId>,
    told: &Told,
) -> Result<(), AllocError>
    ensures { OnOk result ((more : List Given) × (due.new.items ≡ due.old.items ++ more) × IsDue told.now made more) }
{
    let Some(file) = made else {
        return Ok(());
    };
    if !has_access(told) {
        return Ok(());
    }
    let access = Access {
        path: String::from_str(alloc, path)?,
        file,
        owner: told.owner,
        protection: told.protection,
    };
    due.push(access)?;
    Ok(())
}

/// Whether records give an owner or a protection.
fn has_access(told: &Told) -> bool
    ensures { result ≡ gives_access told.now }
{
    told.owner.is_some() || told.protection.is_some()
}

/// The end of a command of whose archive a path is no text.
fn no_text<'a>(alloc: Global) -> Stop<'a>
    ensures { IsRefusal result }
{
    stop_about(
        alloc,
        "an archive",
        "the path of a member is not UTF-8 text",
        Status::Refused,
    )
}

/// Puts a file.
fn put_file<'a>(
    alloc: Global,
    filing: &mut Filing,
    times: &Times,
    directory: Option<&str>,
    wanted: &Wanted<'_>,
) -> Result<(), Stop<'a>>
    ensures done { OnOk result (IsFilePut (not (is_some times.now.zone)) directory.entry times.now.run wanted.now filing.old filing.new) }
    ensures refused { IfErr result IsRefusal }
{
    let path = path_below(alloc, directory, &wanted.found)?;
    let Ok(path) = str::from_utf8(path.as_slice()) else {
        return Err(no_text(alloc));
    };
    let packed = Packed {
        path,
        bytes: wanted.found.bytes,
        stamp: times.of(wanted.told.date, wanted.found.mtime),
        attributes: wanted.told.attributes,
        owner: wanted.told.owner,
        protection: wanted.told.protection,
        placing: placing_told(wanted.told.characteristics),
    };
    match untar_file(alloc, filing, times.run, &packed) {
        Ok(()) => Ok(()),
        Err(failure) => Err(stop_failed(alloc, &failure)),
    }
}

/// Where the blocks of a file stand whose records say these characteristics.
fn placing_told(characteristics: Option<(u8, u8)>) -> Placing
    ensures { result ≡ placing_told characteristics }
{
    match characteristics {
        Some((user, _)) if CONTIGUOUS <= user => Placing::InOnePiece,
        _ => Placing::Anywhere,
    }
}

/// The end of a command whose archive is not taken, with the path of the member that the fault is of, or else of the archive.
fn stop_asked<'a>(alloc: Global, archive: &str, bytes: &[u8], fault: AskFault) -> Stop<'a>
    ensures { IsRefusal result }
{
    if fault == AskFault::NoMemory {
        return Stop::NoMemory;
    }
    let Some(place) = fault.place() else {
        return stop_about(alloc, archive, fault, Status::Refused);
    };
    let Ok(Some(found)) = next_member(bytes, place) else {
        return stop_about(alloc, archive, fault, Status::Refused);
    };
    let Ok(path) = path_of(alloc, &found) else {
        return Stop::NoMemory;
    };
    match str::from_utf8(path.as_slice()) {
        Ok(path) => stop_about(alloc, path, fault, Status::Refused),
        Err(_) => stop_about(alloc, archive, fault, Status::Refused),
    }
}
