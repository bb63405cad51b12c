//! The repairs of `repair` on the blocks of an image: each requested kind, in order, with a line for each action.
ghost use Rattle.std.specs.Prelude.{◌≡◌, ◌≢◌, ◌⊎◌, ◌++◌, ◌∷◌, [], ℕ, IfOk, MatchOption, OnOk, true};
ghost use Rattle.std.specs.List.{All, Contains};
ghost use Rattle.ods_mount.specs.declared.fault.MountFault.TheVariants.{DuplicateName};
ghost use Rattle.ods_check.specs.declared.fault_line.FaultLine.TheVariants.{Plain};
ghost use Rattle.ods_space.specs.Files.{IsLayoutOf};
ghost use Rattle.ods_repair.specs.{Doubled.HasRenumbered, Wholly.AreRenumberedIn, Wholly.IsAllUsed};
ghost use Rattle.fs_reads.specs.declared.stop.Stop.{Stop as End};
ghost use Rattle.f11fs.specs.Mended.{IsMended, IsNotLaidOut, IsWhollyMended, IsWhollyRenumbered, IsWhollyUsed, LeavesDirectories, LeavesDirectory, LeavesDouble, LeavesUsed, Wholly, wants_sound};

use crate::mending_shares::mend_share;
use crate::mending_sound::mend_mounted;
use crate::repair_lines::{Part, Report, push_used};
use fs_reads::{Stop, VolumeFault};
use fs_words::Repairs;
use ods_base::Image;
use ods_check::{Checked, FaultLine, check_all};
use ods_mount::{MountFault, read_layout};
use ods_repair::{mark_used, renumber_doubles};
use ods_request::Stamp;
use ods_space::Layout;
use std::alloc::{AllocError, Global};

/// In at most so many directories a run renumbers names: each takes a pass over the image.
const MOST_DOUBLES: usize = 100;

/// The requested repairs: the path of the image, the kinds of repair, the directory for lost files, and the time of a new directory.
#[derive(Clone, Copy)]
pub struct Wishes<'a> {
    pub path: &'a str,
    pub kinds: Repairs,
    pub into: &'a str,
    pub stamp: Stamp,
}

/// Returns the image with the requested repairs, and adds to the report. A sound volume is required only for the kinds `names`, `lost` and `free`.
pub fn mend<'a>(
    alloc: Global,
    image: Image,
    wishes: &Wishes<'a>,
    report: &mut Report,
) -> Result<Image, Stop<'a>>
    ensures leaves { IfOk result (IsMended wishes.now.kinds wishes.now.stamp wishes.now.into image) }
    // Where nothing is told as left, each kind that is asked for was made.
    ensures whole { IfOk result (λ J. Wholly report.old.is_left report.new.is_left (IsWhollyMended wishes.now.kinds wishes.now.stamp wishes.now.into image J)) }
{
    let image = mend_used(alloc, image, wishes, report)?;
    let image = mend_share(alloc, image, wishes, report)?;
    let image = mend_double(alloc, image, wishes, report)?;
    if !wants_sound(&wishes.kinds) {
        return Ok(image);
    }
    mend_mounted(alloc, image, wishes, report)
}

/// Whether a repair is asked for that wants a sound volume.
fn wants_sound(kinds: &Repairs) -> bool
    ensures { result ≡ wants_sound kinds.now }
{
    kinds.names || kinds.lost || kinds.free
}

/// The image with held blocks marked as used, where that is asked for.
fn mend_used<'a>(
    alloc: Global,
    image: Image,
    wishes: &Wishes<'a>,
    report: &mut Report,
) -> Result<Image, Stop<'a>>
    ensures leaves { IfOk result (LeavesUsed wishes.now.kinds.used image) }
    ensures whole { IfOk result (λ J. Wholly report.old.is_left report.new.is_left (IsWhollyUsed wishes.now.kinds.used image J)) }
{
    if !wishes.kinds.used {
        return Ok(image);
    }
    let (_, layout) = match read_layout(alloc, &image) {
        Ok(found) => found,
        Err(fault) => return Err(not_laid_out(wishes.path, fault)),
    };
    mark_held(alloc, image, &layout, report)
}

/// The end of a repair of an image without a layout.
fn not_laid_out<'a>(path: &'a str, fault: MountFault) -> Stop<'a>
    ensures { IsNotLaidOut path.entry fault result }
{
    match fault {
        MountFault::NoMemory => Stop::NoMemory,
        fault => Stop::Image(path, VolumeFault::Volume(fault, None)),
    }
}

/// The image with held blocks marked as used.
fn mark_held<'a>(
    alloc: Global,
    image: Image,
    layout: &Layout,
    report: &mut Report,
) -> Result<Image, Stop<'a>>
    requires { IsLayoutOf image layout.now }
    ensures leaves { IfOk result (LeavesUsed true image) }
    ensures whole { IfOk result (λ J. Wholly report.old.is_left report.new.is_left (IsAllUsed image J)) }
{
    let mut image = image;
    match mark_used(alloc, &mut image, layout) {
        Ok(blocks) => push_used(&mut report.text, &blocks)?,
        Err(fault) => report.tell_left(alloc, Part::Used, &fault)?,
    }
    Ok(image)
}

/// The image with other versions of names that are there twice, where that is asked for.
fn mend_double<'a>(
    alloc: Global,
    image: Image,
    wishes: &Wishes<'a>,
    report: &mut Report,
) -> Result<Image, Stop<'a>>
    ensures leaves { IfOk result (LeavesDouble wishes.now.kinds.double image) }
    ensures whole { IfOk result (λ J. Wholly report.old.is_left report.new.is_left (IsWhollyRenumbered wishes.now.kinds.double image J)) }
{
    if !wishes.kinds.double {
        return Ok(image);
    }
    let Checked {
        layout,
        answer,
        faults,
        ..
    } = check_all(alloc, &image)?;
    let Some(layout) = layout else {
        return Err(unread(wishes.path, answer));
    };
    let doubled = doubled_among(alloc, faults.kept_lines(), report)?;
    report.tell_more(faults.more())?;
    renumber_each(alloc, image, &layout, &doubled, report)
}

/// Returns the end of a repair of an image without a layout. `answer` is the fault that a mount reports, or None if out of memory.
pub(crate) fn unread<'a>(path: &'a str, answer: Option<MountFault>) -> Stop<'a>
    ensures { MatchOption answer (result ≡ End.NoMemory) (λ fault. IsNotLaidOut path.entry fault result) }
{
    match answer {
        Some(fault) => not_laid_out(path, fault),
        None => Stop::NoMemory,
    }
}

/// The directories of these lines that have two names which are one, as many as one run renumbers. The others are told.
fn doubled_among(
    alloc: Global,
    lines: &[FaultLine],
    report: &mut Report,
) -> Result<Vec<u16>, AllocError>
    ensures each { IfOk result (λ ds. All (λ d. Contains lines.now (Plain (DuplicateName d))) ds.items) }
    ensures whole { IfOk result (λ ds. Wholly report.old.is_left report.new.is_left ((d : ℕ) → Contains lines.now (Plain (DuplicateName d)) → Contains ds.items d)) }
{
    let mut doubled = Vec::new(alloc);
    for line in lines {
        push_doubled(alloc, &mut doubled, line, report)?;
    }
    Ok(doubled)
}

/// Adds the directory of a line, where the line says that it has two names which are one, and there are not yet too many.
fn push_doubled(
    alloc: Global,
    doubled: &mut Vec<u16>,
    line: &FaultLine,
    report: &mut Report,
) -> Result<(), AllocError>
    ensures adds { OnOk result ((doubled.new.items ≡ doubled.old.items) ⊎ ((d : ℕ) × (line.now ≡ Plain (DuplicateName d)) × (doubled.new.items ≡ doubled.old.items ++ d ∷ []))) }
    ensures whole { OnOk result (Wholly report.old.is_left report.new.is_left ((d : ℕ) → line.now ≡ Plain (DuplicateName d) → Contains doubled.new.items d)) }
{
    let Some(directory) = doubled_in(line) else {
        return Ok(());
    };
    if doubled.len() >= MOST_DOUBLES {
        return report.tell_later(alloc, Part::Directory(directory));
    }
    doubled.push(directory)?;
    Ok(())
}

/// The directory that has two names which are one, where a line says so.
fn doubled_in(line: &FaultLine) -> Option<u16>
    ensures { MatchOption result ((d : ℕ) → line.now ≢ Plain (DuplicateName d)) (λ d. line.now ≡ Plain (DuplicateName d)) }
{
    match line {
        FaultLine::Plain(MountFault::DuplicateName(directory)) => Some(*directory),
        _ => None,
    }
}

/// The image with other versions of the names in these directories that are there twice.
fn renumber_each<'a>(
    alloc: Global,
    image: Image,
    layout: &Layout,
    directories: &[u16],
    report: &mut Report,
) -> Result<Image, Stop<'a>>
    requires { IsLayoutOf image layout.now }
    ensures leaves { IfOk result (LeavesDirectories layout.now directories.now image) }
    ensures whole { IfOk result (λ J. Wholly report.old.is_left report.new.is_left (AreRenumberedIn layout.now directories.now image J)) }
{
    let mut image = image;
    for directory in directories {
        image = renumber_one(alloc, image, layout, *directory, report)?;
    }
    Ok(image)
}

/// The image with other versions of the names in this directory that are there twice.
fn renumber_one<'a>(
    alloc: Global,
    image: Image,
    layout: &Layout,
    directory: u16,
    report: &mut Report,
) -> Result<Image, Stop<'a>>
    requires { IsLayoutOf image layout.now }
    ensures left { IfOk result (LeavesDirectory layout.now directory image) }
    ensures whole { IfOk result (λ J. Wholly report.old.is_left report.new.is_left (HasRenumbered image layout.now directory J)) }
    ensures layout { IfOk result (λ new. IsLayoutOf new layout.now) }
{
    let mut image = image;
    match renumber_doubles(alloc, &mut image, layout, directory) {
        Ok(()) => report.tell_double(directory)?,
        Err(fault) => report.tell_left(alloc, Part::Directory(directory), &fault)?,
    }
    Ok(image)
}
