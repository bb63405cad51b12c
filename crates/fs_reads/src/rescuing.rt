//! `rescue`: each file whose own chain is whole, copied out of an image that a mount may refuse.
ghost use Rattle.std.specs.Prelude.{◌≡◌, ◌⊎◌, IfNone, IfOk, IfSome};
ghost use Rattle.ods_shell.specs.declared.status.Status.{Status as Code};
ghost use Rattle.ods_space.specs.Files.{FindsFiles, IsLayoutOf};
ghost use Rattle.ods_space.specs.Layout.{VolumeLayout};
ghost use Rattle.ods_space.specs.Disks.{on};

use crate::finding::find_all;
use crate::progress::Progress;
use crate::rescue_folder::take_folder;
use crate::rescue_image::read_whole_blocks;
use crate::rescue_lines::{say_fault, say_left, say_rest};
use crate::rescue_way::{Kept, Way};
use crate::rescued_file::{How, rescue_file};
use crate::scanning::rescue_scanned;
use crate::stop::{Stop, stop_at_own_output};
use fs_host::Layers;
use fs_words::Words;
use ods_base::{Image, Listed, print_name};
use ods_check::{Finding, bad_headers, check_first};
use ods_mount::readable_layout;
use ods_shell::{Directory, Status, facts_by_id};
use ods_space::{Disk, Layout, last_number};
use std::alloc::{AllocError, Global};
use std::collections::BTreeSet;
use std::fs::File;
use std::rt::Files;
use std::time::Clock;

/// The number from which on files are no reserved ones.
const FIRST: u16 = 6;

/// How many numbers files have, with 0.
const NUMBERS: usize = 65536;

/// `rescue` into the folder that the first word specifies. With `scan`, or if no layout locates the headers, a scan finds the files.
pub fn rescue<'a, R: Files<File = File> + Clock + AllocGlobal + Print + Eprint>(
    rt: &R,
    words: &Words<'a>,
    layers: Layers,
    text: bool,
    scan: bool,
    partial: bool,
    progress: &mut Progress,
) -> Result<Status, Stop<'a>> {
    let path = words.image;
    let Some(folder) = words.paths.first() else {
        return Ok(Status::Words);
    };
    let how = How {
        folder: *folder,
        text,
        partial,
        only_tells: words.saving.only_tells,
        json: words.json,
    };
    stop_at_own_output(rt, path)?;
    let (image, rest) = read_whole_blocks(rt, path, words.blocks, layers)?;
    let mut status = Status::Done;
    if rest > 0 {
        say_rest(rt, path, rest, how.json)?;
        status = Status::Found;
    }
    let done = rescue_image(rt, path, &image, how, scan, progress)?;
    Ok(status.or(done))
}

/// Copies the files of an image: those that its layout finds, or with `scan`, or if there is no layout, those that a scan finds.
fn rescue_image<'a, R: Files<File = File> + Clock + AllocGlobal + Print + Eprint>(
    rt: &R,
    path: &'a str,
    image: &Image,
    how: How<'a>,
    scan: bool,
    progress: &mut Progress,
) -> Result<Status, Stop<'a>> {
    let first = check_first(rt.alloc(), image)?;
    if let Some(fault) = &first.answer {
        let fault = format!(in rt.alloc(); "{fault}")?;
        say_fault(rt, path, fault.as_str(), how.json)?;
    }
    if scan {
        return rescue_scanned(rt, path, image, how, progress);
    }
    match layout_for(rt.alloc(), image, first.layout)? {
        Some(layout) => rescue_laid_out(rt, image, &layout, how, progress),
        None => rescue_scanned(rt, path, image, how, progress),
    }
}

/// Copies the files that the layout of an image finds.
fn rescue_laid_out<'a, R: Files<File = File> + Clock + AllocGlobal + Print + Eprint>(
    rt: &R,
    image: &Image,
    layout: &Layout,
    how: How<'a>,
    progress: &mut Progress,
) -> Result<Status, Stop<'a>>
    requires { FindsFiles image.now layout.now }
{
    take_folder(rt, how.folder, how.only_tells)?;
    rescue_all(rt, &Disk { image, layout }, how, progress)
}

/// The layout by which files are found: the one that is known, or what INDEXF.SYS alone says.
fn layout_for(
    alloc: Global,
    image: &Image,
    known: Option<Layout>,
) -> Result<Option<Layout>, AllocError>
    requires { IfSome known (IsLayoutOf image.now) }
    ensures some { IfOk result (λ found. IfSome found (FindsFiles image.now)) }
    ensures none { IfOk result (λ found. IfNone found ((L : VolumeLayout) → ¬ FindsFiles image.now L)) }
{
    match known {
        Some(layout) => Ok(Some(layout)),
        None => readable_layout(alloc, image),
    }
}

/// Copies each file, and says of which numbers there is no header: first those that a walk reaches, each under the first path that names it,
/// and then the others.
fn rescue_all<'a, R: Files<File = File> + Clock + AllocGlobal + Print + Eprint>(
    rt: &R,
    disk: &Disk<'_>,
    how: How<'_>,
    progress: &mut Progress,
) -> Result<Status, Stop<'a>>
    requires { on FindsFiles disk.now }
    ensures { IfOk result (λ s. (s ≡ Code.Done) ⊎ (s ≡ Code.Found)) }
{
    let mut kept = Kept {
        names: BTreeSet::new(rt.alloc()),
        folders: BTreeSet::new(rt.alloc()),
        numbers: vec![in rt.alloc(); false; NUMBERS]?,
    };
    let named = rescue_named(rt, disk, how, &mut kept, progress)?;
    let lost = rescue_lost(rt, disk, how, &mut kept, progress)?;
    Ok(named.or(lost).or(say_bad_headers(rt, disk, how)?))
}

/// Copies each file that a walk reaches.
fn rescue_named<'a, R: Files<File = File> + Clock + AllocGlobal + Print + Eprint>(
    rt: &R,
    disk: &Disk<'_>,
    how: How<'_>,
    kept: &mut Kept,
    progress: &mut Progress,
) -> Result<Status, Stop<'a>>
    requires { on FindsFiles disk.now }
    ensures { IfOk result (λ s. (s ≡ Code.Done) ⊎ (s ≡ Code.Found)) }
{
    let found = find_all(rt.alloc(), disk, &[])?;
    let all = found.lines.len();
    let mut status = Status::Done;
    for at in 0..all {
        let line = &found.lines[at];
        let (place, entry) = (line.directory, &line.entry);
        status = status.or(rescue_line(rt, disk, &found.directories, place, entry, how, kept)?);
        progress.show(rt, at as u64, all as u64);
    }
    Ok(status)
}

/// Copies the file that an entry of the directory at this place names, where that is not done: under its name, below the folders of the
/// directories on the way.
fn rescue_line<'a, R: Files<File = File> + AllocGlobal + Print + Eprint>(
    rt: &R,
    disk: &Disk<'_>,
    directories: &[Directory],
    place: usize,
    entry: &Listed,
    how: How<'_>,
    kept: &mut Kept,
) -> Result<Status, Stop<'a>>
    requires { on FindsFiles disk.now }
    ensures { IfOk result (λ s. (s ≡ Code.Done) ⊎ (s ≡ Code.Found)) }
{
    if entry.file.number < FIRST || facts_by_id(disk, entry.file).is_none() {
        return Ok(Status::Done);
    }
    let Some(directory) = directories.get(place) else {
        return Ok(Status::Done);
    };
    if !kept.takes(entry.file.number) {
        return Ok(Status::Done);
    }
    let name = print_name(&entry.name, entry.version);
    rescue_file(
        rt,
        disk,
        entry.file.number,
        how,
        Way::To(&directory.names, name.as_str()),
        kept,
    )
}

/// Copies each file that no walk reaches, under the name in its header, to the folder of the lost ones.
fn rescue_lost<'a, R: Files<File = File> + Clock + AllocGlobal + Print + Eprint>(
    rt: &R,
    disk: &Disk<'_>,
    how: How<'_>,
    kept: &mut Kept,
    progress: &mut Progress,
) -> Result<Status, Stop<'a>>
    requires { on FindsFiles disk.now }
    ensures { IfOk result (λ s. (s ≡ Code.Done) ⊎ (s ≡ Code.Found)) }
{
    let mut status = Status::Done;
    let last = last_number(disk.layout);
    for past in FIRST - 1..last {
        status = status.or(rescue_number(rt, disk, past + 1, how, kept)?);
        progress.show(rt, u64::from(past), u64::from(last));
    }
    Ok(status)
}

/// Copies the file with this number, where that is not done, to the folder of the lost ones.
fn rescue_number<'a, R: Files<File = File> + AllocGlobal + Print + Eprint>(
    rt: &R,
    disk: &Disk<'_>,
    number: u16,
    how: How<'_>,
    kept: &mut Kept,
) -> Result<Status, Stop<'a>>
    requires { on FindsFiles disk.now }
    ensures { IfOk result (λ s. (s ≡ Code.Done) ⊎ (s ≡ Code.Found)) }
{
    if !kept.takes(number) {
        return Ok(Status::Done);
    }
    rescue_file(rt, disk, number, how, Way::Lost, kept)
}

/// A line for each number that is marked as used and has no header.
fn say_bad_headers<'a, R: AllocGlobal + Print>(
    rt: &R,
    disk: &Disk<'_>,
    how: How<'_>,
) -> Result<Status, Stop<'a>>
    requires { on FindsFiles disk.now }
    ensures { IfOk result (λ s. (s ≡ Code.Done) ⊎ (s ≡ Code.Found)) }
{
    let mut status = Status::Done;
    for finding in bad_headers(rt.alloc(), disk, u32::MAX)?.kept_lines() {
        status = status.or(say_bad_header(rt, finding, how.json)?);
    }
    Ok(status)
}

/// A line for a number that is marked as used and has no header, or for those that can have none.
fn say_bad_header<'a, R: AllocGlobal + Print>(
    rt: &R,
    finding: &Finding,
    json: bool,
) -> Result<Status, Stop<'a>>
    ensures { IfOk result (λ s. (s ≡ Code.Done) ⊎ (s ≡ Code.Found)) }
{
    let (file, why) = match finding {
        Finding::BadHeader(number, why) => (
            format!(in rt.alloc(); "file number {number}")?,
            format!(in rt.alloc(); "is marked as used and has no header: {why}")?,
        ),
        Finding::StrayNumbers(count, first) => (
            format!(in rt.alloc(); "file numbers past the last header")?,
            format!(in rt.alloc(); "are marked as used: {count}, from {first} on")?,
        ),
        _ => return Ok(Status::Done),
    };
    let line = format!(in rt.alloc(); "left: {finding}\n")?;
    match say_left(rt, file.as_str(), why.as_str(), line.as_str(), json) {
        Ok(_) => Ok(Status::Found),
        Err(stop) => Err(stop),
    }
}
