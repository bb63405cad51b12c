//! `put`: files of the host, put into a volume.
ghost use Rattle.std.specs.Prelude.{◌≡◌, ◌≤◌, ◌⊎◌, ℕ, List, Ok, Some, IfErr, IfOk, OnOk, is_some, not, slice_get, vec_len};
ghost use Rattle.f11fs.specs.{Changed.ArePut, Changed.ArePutNext, Changed.IsRefusal, Changed.path_among, Dated.IsHostTime, Forms.form_said, Forms.placing_for as placing_by, Forms.placing_said, Given.AreTaken, Given.Bytes, Readings.IsLastPart, Readings.IsTooLarge, Readings.IsUnread, Readings.first_at};
ghost use Rattle.f11fs.specs.declared.early.Taken.{Taken as Read};
ghost use Rattle.ods_upkeep.specs.HostPut.{IsHostPut};

use crate::dating::{host_time, takes_times};
use crate::early::{Early, hosts};
use crate::host::Host;
use crate::refusing::stop_failed;
use fs_host::{HostFault, HostZone, Shown};
use fs_reads::{Stop, WordFault};
use fs_words::{PutWords, Words};
use ods_filing::Filing;
use ods_request::Stamp;
use ods_upkeep::{HostFile, Placing, PutForm, Putting};
use std::fs;
use std::fs::File;
use std::rt::Files;

/// Runs `put`: with two words or more, the last is the path on the volume.
pub(crate) fn put<'a, R: Host>(
    rt: &R,
    filing: &mut Filing,
    stamp: Stamp,
    words: &Words<'a>,
    how: PutWords<'a>,
    early: &mut Early,
) -> Result<(), Stop<'a>>
    requires { AreTaken (R.gives rt.now) early.old }
    ensures taken { AreTaken (R.gives rt.now) early.new }
    ensures done { OnOk result (ArePut (R.gives rt.now) (is_some words.now.stamp) how.entry words.now.paths.items stamp filing.old filing.new) }
    ensures refused { IfErr result IsRefusal }
{
    let hosts = hosts(words.paths.as_slice());
    let to = path_among(words.paths.as_slice());
    if to.is_none() && hosts.iter().any(|host| *host == "-") {
        return Err(Stop::Word("-", WordFault::NoPath));
    }
    let room = u64::from(filing.free_count()).saturating_mul(512);
    let begun = Putting::begin(
        rt.alloc(),
        filing.mounted(),
        stamp,
        to,
        hosts.len() > 1,
        form_of(&how),
        how.like,
        placing_of(&how),
        how.replace,
        how.owner,
    );
    let mut putting = match begun {
        Ok(putting) => putting,
        Err(failure) => return Err(stop_failed(rt.alloc(), &failure)),
    };
    putting.make_ready(filing, hosts.len());
    let zone = HostZone::read_where(rt, takes_times(&how, words.stamp));
    put_each(
        rt,
        &mut putting,
        filing,
        stamp,
        &zone,
        hosts,
        room,
        early,
        words.quiet,
    )
}

/// Puts host files, one after another. Where a zone is given, each gets the local time at which its host file was changed.
#[tactic(auto, using(crate::proofs::Refusals::unread_refusal))]
fn put_each<'a, R: Host>(
    rt: &R,
    putting: &mut Putting,
    filing: &mut Filing,
    stamp: Stamp,
    zone: &Option<HostZone>,
    hosts: &[&'a str],
    room: u64,
    early: &mut Early,
    quiet: bool,
) -> Result<(), Stop<'a>>
    requires { AreTaken (R.gives rt.now) early.old }
    ensures taken { AreTaken (R.gives rt.now) early.new }
    ensures done { OnOk result (ArePutNext (R.gives rt.now) (is_some zone.now) stamp putting.old hosts.now filing.old putting.new filing.new) }
    ensures refused { IfErr result IsRefusal }
{
    for host in hosts {
        let bytes = bytes_to_put(rt, *host, room, early)?;
        let time = time_to_keep(rt, zone, *host, stamp)?;
        putting.set_time(time);
        put_one(rt, putting, filing, *host, bytes.as_slice(), quiet)?;
    }
    Ok(())
}

/// The bytes of a host file that is put. A folder is refused, with the option that puts it.
#[tactic(auto, using(crate::proofs::Refusals::unread_refusal))]
fn bytes_to_put<'a, R: Host>(
    rt: &R,
    path: &'a str,
    room: u64,
    early: &mut Early,
) -> Result<Vec<u8>, Stop<'a>>
    requires { AreTaken (R.gives rt.now) early.old }
    ensures given { IfOk result (λ bytes. R.gives rt.now path.entry.now (Bytes bytes.items)) }
    ensures taken { AreTaken (R.gives rt.now) early.new }
    ensures refused { IfErr result IsRefusal }
{
    match host_bytes(rt, path, room, early) {
        Err(Stop::Word(path, WordFault::Unread(HostFault::IsFolder))) => {
            Err(Stop::Word(path, WordFault::Folder))
        }
        Err(stop) => Err(stop),
        Ok(bytes) => Ok(bytes),
    }
}

/// The time of a host file that is put.
fn time_to_keep<'a, R: Files<File = File>>(
    rt: &R,
    zone: &Option<HostZone>,
    path: &'a str,
    run: Stamp,
) -> Result<Stamp, Stop<'a>>
    ensures done { IfOk result (IsHostTime (not (is_some zone.now)) run) }
    ensures refused { IfErr result IsRefusal }
{
    match host_time(rt, zone, path, run) {
        Some(time) => Ok(time),
        None => Err(Stop::Word(path, WordFault::NoDate)),
    }
}

/// The path on the volume: the last word, where there are two or more.
fn path_among<'a>(words: &[&'a str]) -> Option<&'a str>
    ensures { result ≡ path_among words.now }
{
    if 1 < words.len() {
        words.get(words.len() - 1).copied()
    } else {
        None
    }
}

/// Returns the form that the words specify.
pub(crate) fn form_of(how: &PutWords<'_>) -> PutForm
    ensures { result ≡ form_said how.now }
{
    if let Some(four) = how.form {
        PutForm::Said(four)
    } else if how.text {
        PutForm::Text
    } else if how.binary {
        PutForm::Binary
    } else {
        PutForm::ByContents
    }
}

/// Returns where the blocks of new files are allocated, if the words specify it.
pub(crate) fn placing_of(how: &PutWords<'_>) -> Option<Placing>
    ensures { result ≡ placing_said how.now }
{
    match how.contiguous {
        Some(contiguous) => Some(placing_for(contiguous)),
        None => None,
    }
}

/// Returns where the blocks of files are allocated that must be in one piece, or need not.
pub(crate) fn placing_for(contiguous: bool) -> Placing
    ensures { result ≡ placing_by contiguous }
{
    if contiguous {
        Placing::InOnePiece
    } else {
        Placing::Anywhere
    }
}

/// Puts the bytes of a host file; what is to be remarked is said.
fn put_one<'a, R: AllocGlobal + Eprint>(
    rt: &R,
    putting: &mut Putting,
    filing: &mut Filing,
    host: &'a str,
    bytes: &[u8],
    quiet: bool,
) -> Result<(), Stop<'a>>
    ensures done { OnOk result ((name : List ℕ) × IsLastPart host.now name × IsHostPut putting.old name bytes.now filing.old putting.new filing.new) }
    ensures refused { IfErr result IsRefusal }
{
    let file = HostFile {
        name: last_part(host),
        bytes,
    };
    match putting.put(rt.alloc(), filing, &file) {
        Ok(remark) => {
            if let Some(remark) = remark {
                if !quiet {
                    let host = Shown(host);
                    let _ = eprintln!(rt; "f11fs: {host}: {}", remark.as_str());
                }
            }
            Ok(())
        }
        Err(failure) => Err(stop_failed(rt.alloc(), &failure)),
    }
}

/// The last part of the path of a host file.
fn last_part(path: &str) -> &str
    ensures { IsLastPart path.now result.now }
{
    match path.rsplit_once('/') {
        Some((_, name)) => name,
        None => path,
    }
}

/// Returns the bytes of a host file, at most the bytes that the volume has room for. No form of a file has fewer bytes than the host file.
pub(crate) fn host_bytes<'a, R: Host>(
    rt: &R,
    path: &'a str,
    room: u64,
    early: &mut Early,
) -> Result<Vec<u8>, Stop<'a>>
    requires { AreTaken (R.gives rt.now) early.old }
    ensures given { IfOk result (λ bytes. R.gives rt.now path.entry.now (Bytes bytes.items)) }
    ensures taken { AreTaken (R.gives rt.now) early.new }
    ensures few { IfOk result (λ bytes. vec_len bytes ≤ room) }
    // What was read early is put.
    ensures early { (place : ℕ) (one : Read) → first_at path.now early.old.taken.items ≡ Some place → slice_get early.old.taken.items place ≡ Some one → IfOk result (λ bytes. one.bytes ≡ Ok bytes) }
    ensures err { IfErr result (λ stop. IsTooLarge path.entry room stop ⊎ IsUnread path.entry stop) }
{
    match taken_or_read(rt, path, room, early) {
        Ok(bytes) if bytes.len() as u64 > room => Err(stop_too_large(rt, path, room)),
        Ok(bytes) => Ok(bytes),
        Err(HostFault::TooLarge) => Err(stop_too_large(rt, path, room)),
        Err(fault) => Err(Stop::Word(path, WordFault::Unread(fault))),
    }
}

/// Returns the contents of a host file that were read early, or otherwise reads them now.
#[tactic(auto, using(crate::proofs::Taking::taken_out))]
pub(crate) fn taken_or_read<R: Host>(
    rt: &R,
    path: &str,
    room: u64,
    early: &mut Early,
) -> Result<Vec<u8>, HostFault>
    requires { AreTaken (R.gives rt.now) early.old }
    ensures given { IfOk result (λ bytes. R.gives rt.now path.now (Bytes bytes.items)) }
    ensures taken { AreTaken (R.gives rt.now) early.new }
    ensures early { (place : ℕ) (one : Read) → first_at path.now early.old.taken.items ≡ Some place → slice_get early.old.taken.items place ≡ Some one → result ≡ one.bytes }
{
    match early.take(path) {
        Some(read) => read,
        None => rt.bytes_of(path, room),
    }
}

/// The end of a `put` of a host file that is larger than the room on the volume.
fn stop_too_large<'a, R: Files>(rt: &R, path: &'a str, room: u64) -> Stop<'a>
    ensures { IsTooLarge path.entry room result }
{
    match fs::metadata(rt, path) {
        Ok(found) if found.is_file() => Stop::Word(path, WordFault::Large(found.len(), room)),
        _ => Stop::Word(path, WordFault::LargeStream(room)),
    }
}
