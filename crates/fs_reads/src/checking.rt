//! `check`: the faults and findings of an image, sound or not.
ghost use Rattle.std.specs.Prelude.{◌≡◌, ◌++◌, ◌⊎◌, None, IfOk, IfSome, MatchOption, OnOk, length, string_bytes, take, true};
ghost use Rattle.ods_mount.specs.Faults.{IsDirectoryFile, IsSound};
ghost use Rattle.ods_shell.specs.ByNumber.{AreNames};
ghost use Rattle.ods_shell.specs.declared.status.Status.{Status as Code};
ghost use Rattle.fs_reads.specs.{Ends.EndsCheck, Shown.StaysSaid, Shown.findings_line};
ghost use Rattle.ods_space.specs.Files.{IsLayoutOf};
ghost use Rattle.ods_space.specs.Disks.{on};

use crate::file_paths::{line_about, paths_beside};
use crate::output::Output;
use crate::stop::{Stop, send, stop_at_own_output};
use crate::volume::{VolumeFault, no_volume, open_image, say_extent};
use fs_host::{Extent, Layers};
use ods_base::Image;
use ods_check::{
    Checked, MOST_LINES, are_all_read, check_all, check_first, count_findings, file_in, findings,
};
use ods_shell::{FileNames, Status, long_record, number_object, spoiled_records};
use ods_space::{Disk, Layout, last_number, sequence};
use std::alloc::{AllocError, Global};
use std::fs::File;
use std::rt::Files;

/// Checks the image at this path and prints what is wrong (`check`).
pub fn check<'a, R: Files<File = File> + AllocGlobal + Print + Eprint>(
    rt: &R,
    path: &'a str,
    given: Option<u32>,
    layers: Layers,
    all: bool,
    json: bool,
) -> Result<Status, Stop<'a>>
    ensures { IfOk result (λ s. (s ≡ Code.Done) ⊎ (s ≡ Code.Found)) }
{
    stop_at_own_output(rt, path)?;
    match open_image(rt, path, given, layers) {
        Ok((image, extent)) => {
            say_extent(rt, path, extent, true);
            check_with(
                rt,
                &image,
                extent.filter(|extent| extent.is_short()),
                all,
                json,
            )
        }
        Err(VolumeFault::Image(refusal, _)) => {
            let mut output = Output::new(rt.alloc(), json);
            output.say(rt, "fault", refusal)?;
            output.end(rt)?;
            Ok(Status::Found)
        }
        Err(fault) => Err(no_volume(path, fault)),
    }
}

/// Checks an image and prints what is wrong. The status is `Done` only if the image is sound.
pub fn check_image<'a, R: AllocGlobal + Print>(
    rt: &R,
    image: &Image,
    all: bool,
    json: bool,
) -> Result<Status, Stop<'a>>
    ensures { IfOk result (EndsCheck (IsSound image.now)) }
{
    check_with(rt, image, None, all, json)
}

/// `check` of an image, with one finding more where it is shorter than its volume.
fn check_with<'a, R: AllocGlobal + Print>(
    rt: &R,
    image: &Image,
    short: Option<Extent>,
    all: bool,
    json: bool,
) -> Result<Status, Stop<'a>>
    ensures { IfOk result (EndsCheck (IsSound image.now)) }
{
    if all {
        tell_all(rt, image, short, json)
    } else {
        tell_first(rt, image, short, json)
    }
}

/// The words of an image on which nothing is found.
fn tell_sound<'a, R: Print>(rt: &R, json: bool) -> Result<Status, Stop<'a>>
    ensures { IfOk result (λ s. s ≡ Code.Done) }
{
    let text = if json {
        "{\"answer\":\"sound\"}\n"
    } else {
        "sound\n"
    };
    send(rt, text)
}

/// The fault that a mount answers, and how many findings there are.
fn tell_first<'a, R: AllocGlobal + Print>(
    rt: &R,
    image: &Image,
    short: Option<Extent>,
    json: bool,
) -> Result<Status, Stop<'a>>
    ensures { IfOk result (EndsCheck (IsSound image.now)) }
{
    let alloc = rt.alloc();
    let first = check_first(alloc, image)?;
    let mut count = u64::from(short.is_some());
    if let Some(layout) = &first.layout {
        let disk = Disk { image, layout };
        count = count.saturating_add(count_all(alloc, &disk)?);
    }
    let mut text = String::new(alloc);
    if let Some(fault) = &first.answer {
        let line = format!(in alloc; "{fault}")?;
        let names = all_names(alloc, image, &first.layout)?;
        let beside = paths_beside(alloc, &names, file_in(fault), None)?;
        let told = line_about(alloc, json, "fault", line.as_str(), &beside)?;
        text.push_str(told.as_str())?;
    } else if count == 0 {
        return tell_sound(rt, json);
    }
    if json {
        text.push_str(number_object(alloc, "findings", count)?.as_str())?;
    } else {
        push_count(&mut text, count)?;
    }
    send(rt, text.as_str())?;
    Ok(Status::Found)
}

/// How many findings there are, with files whose records are not whole, and files that have a longer one than they say.
fn count_all(alloc: Global, disk: &Disk<'_>) -> Result<u64, AllocError>
    requires { on IsLayoutOf disk.now }
{
    let all_read = are_all_read(alloc, disk)?;
    let mut count = count_findings(alloc, disk, all_read)?;
    for number in 3..=last_number(disk.layout) {
        if spoiled_records(alloc, disk, number)?.is_some() {
            count = count.saturating_add(1);
        }
        if long_record(alloc, disk, number)?.is_some() {
            count = count.saturating_add(1);
        }
    }
    Ok(count)
}

/// Appends a line that says how many findings there are.
fn push_count(text: &mut String, count: u64) -> Result<(), AllocError>
    ensures { OnOk result (string_bytes text.new ≡ string_bytes text.old ++ findings_line count) }
{
    match count {
        0 => Ok(()),
        1 => text.push_str("1 finding that a mount does not refuse; check --all lists it\n"),
        _ => {
            writeln!(
                text,
                "{count} findings that a mount does not refuse; check --all lists them"
            )?;
            Ok(())
        }
    }
}

/// A line for each fault, and for each finding, as they are found; behind the most of a kind how many more there are.
fn tell_all<'a, R: AllocGlobal + Print>(
    rt: &R,
    image: &Image,
    short: Option<Extent>,
    json: bool,
) -> Result<Status, Stop<'a>>
    ensures { IfOk result (EndsCheck (IsSound image.now)) }
{
    let checked = check_all(rt.alloc(), image)?;
    let names = all_names(rt.alloc(), image, &checked.layout)?;
    let mut output = Output::new(rt.alloc(), json);
    tell_each(rt, image, short, &checked, &names, &mut output)?;
    if output.is_empty() {
        return tell_sound(rt, json);
    }
    output.end(rt)?;
    Ok(Status::Found)
}

/// A line if the image is shorter than its volume, and for each fault and each finding.
fn tell_each<'a, R: AllocGlobal + Print>(
    rt: &R,
    image: &Image,
    short: Option<Extent>,
    checked: &Checked,
    names: &Option<FileNames>,
    output: &mut Output,
) -> Result<(), Stop<'a>>
    requires { IfSome checked.now.layout (IsLayoutOf image.now) }
    ensures { OnOk result (output.new.is_empty ≡ true → length (take checked.now.faults.1 checked.now.faults.0) ≡ 0) }
{
    if let Some(short) = short {
        output.say(rt, "finding", short)?;
    }
    tell_faults(rt, checked, names, output)?;
    if let Some(layout) = &checked.layout {
        let disk = Disk { image, layout };
        tell_findings(rt, &disk, names, output)?;
        tell_spoiled(rt, &disk, names, output)?;
        tell_long(rt, &disk, names, output)?;
    }
    Ok(())
}

/// A line for each fault, and the numbers of faults that are not listed.
fn tell_faults<'a, R: AllocGlobal + Print>(
    rt: &R,
    checked: &Checked,
    names: &Option<FileNames>,
    output: &mut Output,
) -> Result<(), Stop<'a>>
    ensures { OnOk result (output.new.is_empty ≡ true → length (take checked.now.faults.1 checked.now.faults.0) ≡ 0) }
{
    for fault in checked.faults.kept_lines() {
        let beside = paths_beside(rt.alloc(), names, fault.first_file(), fault.second_file())?;
        output.say_about(rt, "fault", *fault, &beside)?;
    }
    output.say_more(rt, "more_faults", checked.faults.more(), "faults")?;
    output.say_more(
        rt,
        "more_sharing",
        checked.sharing.more(),
        "files that share blocks with earlier files",
    )?;
    Ok(())
}

/// A line for each finding. Where some directory is not read, a file that no other names may be named there: it is not said to be named by
/// none.
fn tell_findings<'a, R: AllocGlobal + Print>(
    rt: &R,
    disk: &Disk<'_>,
    names: &Option<FileNames>,
    output: &mut Output,
) -> Result<Status, Stop<'a>>
    requires { on IsLayoutOf disk.now }
    ensures stays { OnOk result (StaysSaid output.old.is_empty output.new.is_empty) }
    ensures status { IfOk result (λ s. s ≡ Code.Done) }
{
    let all_read = are_all_read(rt.alloc(), disk)?;
    tell_unread(rt, all_read, output)?;
    let found = findings(rt.alloc(), disk, MOST_LINES, all_read)?;
    for finding in found.kept_lines() {
        let beside = paths_beside(rt.alloc(), names, finding.file(), None)?;
        output.say_about(rt, "finding", *finding, &beside)?;
    }
    output.say_more(rt, "more_findings", found.more(), "findings")
}

/// A remark, where not all directories are read.
fn tell_unread<'a, R: Print>(
    rt: &R,
    all_read: bool,
    output: &mut Output,
) -> Result<Status, Stop<'a>>
    ensures stays { OnOk result (StaysSaid output.old.is_empty output.new.is_empty) }
    ensures status { IfOk result (λ s. s ≡ Code.Done) }
{
    if all_read {
        return Ok(Status::Done);
    }
    output.say(
        rt,
        "remark",
        "files that no directory names are not listed, because a directory cannot be read",
    )
}

/// A line for each file above 2 whose records are not whole.
fn tell_spoiled<'a, R: AllocGlobal + Print>(
    rt: &R,
    disk: &Disk<'_>,
    names: &Option<FileNames>,
    output: &mut Output,
) -> Result<Status, Stop<'a>>
    requires { on IsLayoutOf disk.now }
    ensures stays { OnOk result (StaysSaid output.old.is_empty output.new.is_empty) }
    ensures status { IfOk result (λ s. s ≡ Code.Done) }
{
    let mut count = 0u64;
    for before in 2..last_number(disk.layout) {
        let number = before + 1;
        if let Some(fault) = spoiled_records(rt.alloc(), disk, number)? {
            count = count.saturating_add(1);
            if count <= u64::from(MOST_LINES) {
                let sequence = sequence(disk, number);
                let line = format!(in rt.alloc(); "file {number},{sequence}: {fault}")?;
                let beside = paths_beside(rt.alloc(), names, Some(number), None)?;
                output.say_about(rt, "finding", line.as_str(), &beside)?;
            }
        }
    }
    let more = count.saturating_sub(u64::from(MOST_LINES));
    output.say_more(
        rt,
        "more_spoiled",
        more,
        "files whose records are not whole",
    )
}

/// A line for each file above 2 that has a record longer than F.RSIZ says, where that is not 0: the first such record.
fn tell_long<'a, R: AllocGlobal + Print>(
    rt: &R,
    disk: &Disk<'_>,
    names: &Option<FileNames>,
    output: &mut Output,
) -> Result<Status, Stop<'a>>
    requires { on IsLayoutOf disk.now }
    ensures stays { OnOk result (StaysSaid output.old.is_empty output.new.is_empty) }
    ensures status { IfOk result (λ s. s ≡ Code.Done) }
{
    let mut count = 0u64;
    for before in 2..last_number(disk.layout) {
        let number = before + 1;
        if let Some(record) = long_record(rt.alloc(), disk, number)? {
            count = count.saturating_add(1);
            if count <= u64::from(MOST_LINES) {
                let sequence = sequence(disk, number);
                let (at, size) = (record.at, record.size);
                let line = format!(in rt.alloc();
                    "file {number},{sequence}: the record at byte {at} has {size} bytes, more than F.RSIZ"
                )?;
                let beside = paths_beside(rt.alloc(), names, Some(number), None)?;
                output.say_about(rt, "finding", line.as_str(), &beside)?;
            }
        }
    }
    let more = count.saturating_sub(u64::from(MOST_LINES));
    output.say_more(
        rt,
        "more_long",
        more,
        "files with a record longer than F.RSIZ",
    )
}

/// The names of the files of an image, where it has a layout and a master directory.
fn all_names(
    alloc: Global,
    image: &Image,
    layout: &Option<Layout>,
) -> Result<Option<FileNames>, AllocError>
    ensures { IfOk result (λ found. MatchOption layout.now (found ≡ None) (λ L. MatchOption found (¬ IsDirectoryFile image.now L 4) (AreNames image.now L))) }
{
    match layout {
        Some(layout) => {
            let disk = Disk { image, layout };
            FileNames::of(alloc, &disk)
        }
        None => Ok(None),
    }
}
