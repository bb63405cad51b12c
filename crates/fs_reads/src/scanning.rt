//! `rescue --scan`: each file whose first header still exists, copied by only its headers.
ghost use Rattle.std.specs.Prelude.{◌≡◌, ◌⊎◌, ◌<◌, ◌+◌, ◌-◌, min, if◌then◌else◌, length, string_bytes, IfOk};
ghost use Rattle.ods_remains.specs.Scanned.{IsScanned};
ghost use Rattle.fs_reads.specs.Scans.{id_text, placed_name, status_lacking};
ghost use Rattle.ods_shell.specs.declared.status.Status.{Status as Code};

use crate::progress::Progress;
use crate::rescue_folder::take_folder;
use crate::rescue_lines::{say_fault, say_left, say_part};
use crate::rescued_file::{How, keep};
use crate::stop::Stop;
use ods_base::{FileId, Image};
use ods_remains::{Scan, Scanned};
use ods_shell::{HeaderName, Status, has_its_number_beside, name_at, open_scanned};
use ods_space::ChainFault;
use std::alloc::{AllocError, Global};
use std::collections::BTreeSet;
use std::fs::File;
use std::rt::Files;
use std::time::Clock;

/// Many first headers may name one chain. So the files that are copied have together at most so many times the blocks of the image.
const TIMES: u64 = 64;

/// What is said of an image where a scan finds nothing.
const NONE: &str = "the image has no file header";

/// Why a file is left that names more than the image has.
const MANY: &str = "it has more headers and blocks than the image has blocks";

/// Why a file is left where the files before it have all that is copied.
const FULL: &str = "the files copied before it have 64 times the blocks of the image";

/// Copies each file that a scan of the image finds.
pub(crate) fn rescue_scanned<'a, R: Files<File = File> + Clock + AllocGlobal + Print + Eprint>(
    rt: &R,
    path: &str,
    image: &Image,
    how: How<'a>,
    progress: &mut Progress,
) -> Result<Status, Stop<'a>> {
    let scan = Scan::of(rt.alloc(), image)?;
    let firsts = scan.files(rt.alloc())?;
    if firsts.is_empty() {
        say_fault(rt, path, NONE, how.json)?;
        return Ok(Status::Found);
    }
    take_folder(rt, how.folder, how.only_tells)?;
    copy_scanned(rt, image, &scan, &firsts, how, progress)
}

/// Copies each file that the first headers at these LBNs tell of.
fn copy_scanned<'a, R: Files<File = File> + Clock + AllocGlobal + Print + Eprint>(
    rt: &R,
    image: &Image,
    scan: &Scan<'_>,
    firsts: &[u32],
    how: How<'_>,
    progress: &mut Progress,
) -> Result<Status, Stop<'a>>
    requires { scan.now ≡ image.now }
{
    let mut taken = BTreeSet::new(rt.alloc());
    let mut status = Status::Done;
    let mut room = TIMES * u64::from(image.len());
    for at in 0..firsts.len() {
        let done = copy_at(rt, image, scan, firsts, at, how, &mut room, &mut taken)?;
        status = status.or(done);
        progress.show(rt, at as u64, firsts.len() as u64);
    }
    Ok(status)
}

/// Copies the file of the first header at one of these LBNs, where there is room for its headers and blocks.
fn copy_at<'a, R: Files<File = File> + AllocGlobal + Print + Eprint>(
    rt: &R,
    image: &Image,
    scan: &Scan<'_>,
    firsts: &[u32],
    at: usize,
    how: How<'_>,
    room: &mut u64,
    taken: &mut BTreeSet<String>,
) -> Result<Status, Stop<'a>>
    requires scanned { scan.now ≡ image.now }
    requires within { at < length firsts.now }
    ensures { IfOk result (λ s. (s ≡ Code.Done) ⊎ (s ≡ Code.Found)) }
{
    let lbn = firsts[at];
    let Some(named) = name_at(rt.alloc(), image, lbn)? else {
        return Ok(Status::Done);
    };
    let place = name_and_place(rt.alloc(), &named, lbn)?;
    if *room == 0 {
        return leave(rt, place.as_str(), FULL, how.json);
    }
    let Some(file) = scan.file(rt.alloc(), lbn)? else {
        return Ok(Status::Done);
    };
    let len = u64::from(image.len());
    let size = size_of(&file);
    let before = *room;
    *room = room_behind(before, size, len);
    if size > len {
        return leave(rt, place.as_str(), MANY, how.json);
    }
    if size > before {
        return leave(rt, place.as_str(), FULL, how.json);
    }
    let has_twin = has_its_number_beside(image, firsts, at);
    keep_scanned(rt, image, lbn, file, named, place, has_twin, how, taken)
}

/// Copies a file that a scan found, or what is there of it: under its name, or under its name and place where another first header has its
/// number.
fn keep_scanned<'a, R: Files<File = File> + AllocGlobal + Print + Eprint>(
    rt: &R,
    image: &Image,
    first: u32,
    file: Scanned,
    named: HeaderName,
    place: String,
    has_twin: bool,
    how: How<'_>,
    taken: &mut BTreeSet<String>,
) -> Result<Status, Stop<'a>>
    requires { IsScanned image.now first file }
    ensures { IfOk result (λ s. (s ≡ Code.Done) ⊎ (s ≡ Code.Found)) }
{
    let found = open_scanned(rt.alloc(), image, first, file, how.text, how.partial)?;
    let Some(contents) = &found.contents else {
        return leave_lacking(rt, place.as_str(), found.missing, how.json);
    };
    let kept = say_missing(rt, place.as_str(), found.missing, how.json)?;
    let id = named.file;
    let name = choose_name(named.name, place, has_twin);
    let done = keep(rt, how, id, name, contents, taken)?;
    Ok(kept.or(done))
}

/// The name of a file, or its name and place where another first header has its number.
fn choose_name(name: String, place: String, has_twin: bool) -> String
    ensures { result ≡ (if has_twin then place else name) }
{
    if has_twin { place } else { name }
}

/// How many headers and blocks a file has.
fn size_of(file: &Scanned) -> u64
    ensures { result ≡ length file.now.headers.items + length file.now.blocks.items }
{
    file.headers.len() as u64 + file.blocks.len() as u64
}

/// The room that is left behind a file of this size on an image of so many blocks.
fn room_behind(room: u64, size: u64, len: u64) -> u64
    ensures { result ≡ room - min size len }
{
    room.saturating_sub(size.min(len))
}

/// The name of a file, its ID and where its first header stands: no two files of a scan have the same.
fn name_and_place(alloc: Global, named: &HeaderName, lbn: u32) -> Result<String, AllocError>
    ensures { IfOk result (λ text. string_bytes text ≡ placed_name (string_bytes named.now.name) (id_text named.now.file) lbn) }
{
    let id = id_text(alloc, named.file)?;
    placed_name(alloc, named.name.as_str(), id.as_str(), lbn)
}

/// An ID, as `#6,1`.
fn id_text(alloc: Global, file: FileId) -> Result<String, AllocError>
    ensures { IfOk result (λ text. string_bytes text ≡ id_text file) }
{
    let (number, sequence) = (file.number, file.sequence);
    let text = format!(in alloc; "#{number},{sequence}")?;
    Ok(text)
}

/// A name, an ID behind it, and the LBN of a header.
fn placed_name(alloc: Global, name: &str, id: &str, lbn: u32) -> Result<String, AllocError>
    ensures { IfOk result (λ text. string_bytes text ≡ placed_name name.now id.now lbn) }
{
    let text = format!(in alloc; "{name} {id} @{lbn}")?;
    Ok(text)
}

/// A line, or an object, for a file that is left since this is missing.
fn leave_lacking<'a, R: AllocGlobal + Print>(
    rt: &R,
    what: &str,
    missing: Option<ChainFault>,
    json: bool,
) -> Result<Status, Stop<'a>>
    ensures { IfOk result (λ s. s ≡ Code.Found) }
{
    match missing {
        None => Ok(Status::Found),
        Some(fault) => {
            let why = format!(in rt.alloc(); "{fault}")?;
            leave(rt, what, why.as_str(), json)
        }
    }
}

/// A line, or an object, for a file of which something is missing, and which is copied all the same.
fn say_missing<'a, R: AllocGlobal + Print>(
    rt: &R,
    what: &str,
    missing: Option<ChainFault>,
    json: bool,
) -> Result<Status, Stop<'a>>
    ensures { IfOk result (λ s. s ≡ status_lacking missing) }
{
    match missing {
        None => Ok(Status::Done),
        Some(fault) => {
            let why = format!(in rt.alloc(); "{fault}")?;
            say_part(rt, what, why.as_str(), json)?;
            Ok(Status::Found)
        }
    }
}

/// A line, or an object, for a file that is left.
fn leave<'a, R: AllocGlobal + Print>(
    rt: &R,
    what: &str,
    why: &str,
    json: bool,
) -> Result<Status, Stop<'a>>
    ensures { IfOk result (λ s. s ≡ Code.Found) }
{
    let line = format!(in rt.alloc(); "left: {what}: {why}\n")?;
    match say_left(rt, what, why, line.as_str(), json) {
        Ok(_) => Ok(Status::Found),
        Err(stop) => Err(stop),
    }
}
