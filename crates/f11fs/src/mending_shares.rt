//! The repairs of `repair share` on the blocks of an image. The runs of a file that share blocks with earlier files get blocks of their own.
ghost use Rattle.std.specs.Prelude.{◌≡◌, ◌≢◌, ◌⊎◌, ◌++◌, ◌∷◌, [], ℕ, IfOk, IfSome, MatchBool, MatchOption, OnOk, take, true};
ghost use Rattle.std.specs.List.{All, Contains};
ghost use Rattle.ods_mount.specs.Faults.{HasBadIndex};
ghost use Rattle.ods_check.specs.declared.fault_line.IndexFault.{IndexFault};
ghost use Rattle.ods_check.specs.declared.fault_line.FaultLine.TheVariants.{Index, Shared};
ghost use Rattle.ods_space.specs.Files.{IsLayoutOf};
ghost use Rattle.ods_repair.specs.Wholly.{AreUnsharedIn, IsUnshared};
ghost use Rattle.f11fs.specs.Mended.{IsToldAsShared, IsWhollyUnshared, LeavesFile, LeavesFiles, LeavesShared, TellsLater, Wholly};

use crate::mending::{Wishes, unread};
use crate::repair_lines::{Part, Report};
use fs_reads::Stop;
use ods_base::Image;
use ods_check::{Checked, FaultLine, Told, check_all};
use ods_repair::unshare;
use ods_space::Layout;
use std::alloc::{AllocError, Global};

/// Of at most so many files a run moves blocks: each takes a pass over the image.
const MOST_FILES: usize = 100;

/// The number of INDEXF.SYS.
const INDEX: u16 = 1;

/// Returns the image in which runs with blocks in use twice have blocks of their own, if this repair is requested.
pub fn mend_share<'a>(
    alloc: Global,
    image: Image,
    wishes: &Wishes<'a>,
    report: &mut Report,
) -> Result<Image, Stop<'a>>
    ensures leaves { IfOk result (LeavesShared wishes.now.kinds.share image) }
    ensures whole { IfOk result (λ J. Wholly report.old.is_left report.new.is_left (IsWhollyUnshared wishes.now.kinds.share image J)) }
{
    if !wishes.kinds.share {
        return Ok(image);
    }
    let Checked {
        layout,
        answer,
        faults,
        sharing,
    } = check_all(alloc, &image)?;
    let Some(layout) = layout else {
        return Err(unread(wishes.path, answer));
    };
    if !are_all_kept(&faults, &sharing) {
        report.tell_more_shared()?;
        return Ok(image);
    }
    let lines = faults.kept_lines();
    let files = sharing_files(alloc, lines, report)?;
    if files.len() == 0 {
        return Ok(image);
    }
    if has_index_fault(lines) {
        report.tell_bad_index()?;
        return Ok(image);
    }
    unshare_each(alloc, image, &layout, &files, report)
}

/// Whether all lines of the faults are kept, and no further file is known to share blocks.
fn are_all_kept(faults: &Told<FaultLine>, sharing: &Told<u16>) -> bool
    ensures lines { result ≡ true → take faults.now.1 faults.now.0 ≡ faults.now.0 }
    ensures others { result ≡ true → sharing.now.1 ≡ 0 → sharing.now.0 ≡ [] }
{
    faults.more() == 0 && sharing.more() == 0
}

/// Whether a line says that the index is bad.
fn has_index_fault(lines: &[FaultLine]) -> bool
    ensures { MatchBool result ((why : IndexFault) × Contains lines.now (Index why)) ((why : IndexFault) → ¬ Contains lines.now (Index why)) }
{
    for line in lines {
        if is_index_fault(line) {
            return true;
        }
    }
    false
}

/// Whether this line says that the index is bad.
fn is_index_fault(line: &FaultLine) -> bool
    ensures { MatchBool result ((why : IndexFault) × (line.now ≡ Index why)) ((why : IndexFault) → line.now ≢ Index why) }
{
    match line {
        FaultLine::Index(_) => true,
        _ => false,
    }
}

/// The later files of the pairs of these lines, as many as one run moves. The others are told. Files that share a block with INDEXF.SYS come first: while
/// such a block is shared, the file whose header it is cannot move. The others come from the highest number down, as the lines go.
fn sharing_files(
    alloc: Global,
    lines: &[FaultLine],
    report: &mut Report,
) -> Result<Vec<u16>, AllocError>
    ensures each { IfOk result (λ ns. All (IsToldAsShared lines.now) ns.items) }
    ensures whole { IfOk result (λ ns. Wholly report.old.is_left report.new.is_left ((n : ℕ) → IsToldAsShared lines.now n → Contains ns.items n)) }
{
    let mut files = index_sharers(alloc, lines)?;
    for k in 0..lines.len() {
        push_sharing(alloc, &mut files, &lines[lines.len() - 1 - k], report)?;
    }
    Ok(files)
}

/// The files that share a block with INDEXF.SYS by these lines, from the highest number down, as many as one run moves.
fn index_sharers(alloc: Global, lines: &[FaultLine]) -> Result<Vec<u16>, AllocError>
    ensures { IfOk result (λ ns. All (IsToldAsShared lines.now) ns.items) }
{
    let mut files = Vec::new(alloc);
    for k in 0..lines.len() {
        push_index_sharer(&mut files, &lines[lines.len() - 1 - k])?;
    }
    Ok(files)
}

/// Adds the file that shares a block with INDEXF.SYS by a line, where it is not there and there are not yet too many.
fn push_index_sharer(files: &mut Vec<u16>, line: &FaultLine) -> Result<(), AllocError>
    ensures { OnOk result ((files.new.items ≡ files.old.items) ⊎ ((n : ℕ) × TellsLater line.now n × (files.new.items ≡ files.old.items ++ n ∷ []))) }
{
    let Some(file) = index_sharer(line) else {
        return Ok(());
    };
    if is_there(files, file) || files.len() >= MOST_FILES {
        return Ok(());
    }
    files.push(file)?;
    Ok(())
}

/// The file that shares a block with INDEXF.SYS, where a line tells of one.
fn index_sharer(line: &FaultLine) -> Option<u16>
    ensures { IfSome result (TellsLater line.now) }
{
    match line {
        FaultLine::Shared(INDEX, later, _, _) => Some(*later),
        _ => None,
    }
}

/// Adds the later file of a pair that a line tells of, where it is not there and there are not yet too many.
fn push_sharing(
    alloc: Global,
    files: &mut Vec<u16>,
    line: &FaultLine,
    report: &mut Report,
) -> Result<(), AllocError>
    ensures adds { OnOk result ((files.new.items ≡ files.old.items) ⊎ ((n : ℕ) × TellsLater line.now n × (files.new.items ≡ files.old.items ++ n ∷ []))) }
    ensures whole { OnOk result (Wholly report.old.is_left report.new.is_left ((n : ℕ) → TellsLater line.now n → Contains files.new.items n)) }
{
    let Some(file) = later_file(line) else {
        return Ok(());
    };
    if is_there(files, file) {
        return Ok(());
    }
    if files.len() >= MOST_FILES {
        return report.tell_later(alloc, Part::File(file));
    }
    files.push(file)?;
    Ok(())
}

/// Whether this file is one of these.
fn is_there(files: &[u16], file: u16) -> bool
    ensures { result ≡ true → Contains files.now file }
{
    files.contains(&file)
}

/// The later file of the pair that a line tells of.
fn later_file(line: &FaultLine) -> Option<u16>
    ensures { MatchOption result ((n : ℕ) → ¬ TellsLater line.now n) (λ n. TellsLater line.now n) }
{
    match line {
        FaultLine::Shared(_, later, _, _) => Some(*later),
        _ => None,
    }
}

/// The image with blocks of their own for runs of these files.
fn unshare_each<'a>(
    alloc: Global,
    image: Image,
    layout: &Layout,
    files: &[u16],
    report: &mut Report,
) -> Result<Image, Stop<'a>>
    requires layout { IsLayoutOf image layout.now }
    requires index { ¬ HasBadIndex image layout.now }
    ensures leaves { IfOk result (LeavesFiles layout.now files.now image) }
    ensures whole { IfOk result (λ J. Wholly report.old.is_left report.new.is_left (AreUnsharedIn layout.now files.now image J)) }
{
    let mut image = image;
    for file in files {
        image = unshare_one(alloc, image, layout, *file, report)?;
    }
    Ok(image)
}

/// The image with blocks of their own for runs of this file.
fn unshare_one<'a>(
    alloc: Global,
    image: Image,
    layout: &Layout,
    file: u16,
    report: &mut Report,
) -> Result<Image, Stop<'a>>
    requires layout { IsLayoutOf image layout.now }
    requires index { ¬ HasBadIndex image layout.now }
    ensures left { IfOk result (LeavesFile layout.now file image) }
    ensures whole { IfOk result (λ J. Wholly report.old.is_left report.new.is_left (IsUnshared image layout.now file J)) }
    ensures layout { IfOk result (λ J. IsLayoutOf J layout.now) }
    ensures index { IfOk result (λ J. ¬ HasBadIndex J layout.now) }
{
    let mut image = image;
    match unshare(alloc, &mut image, layout, file) {
        Ok(told) => report.tell_shared(file, &told)?,
        Err(fault) => report.tell_left(alloc, Part::File(file), &fault)?,
    }
    Ok(image)
}
