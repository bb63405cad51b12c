//! All faults of an image.
ghost use Rattle.std.specs.Prelude.{◌≡◌, ◌≢◌, ◌⊎◌, ◌<◌, ◌++◌, ◌∷◌, [], true, MatchBool, OnOk, IfOk, IfSome, IfNone, Some};
ghost use Rattle.std.specs.List.{All, Contains};
ghost use Rattle.ods_header.specs.Home.{IsHomeAt};
ghost use Rattle.ods_space.specs.{Files.IsLayoutOf, Layout.VolumeLayout};
ghost use Rattle.ods_mount.specs.Faults.{IsSound, FaultIsTrue};
ghost use Rattle.ods_check.specs.{Lists.Adds, Lists.AddsInTurn, Lists.AreDistinct, Lines.fault_of, Lines.IsLineOf, Lines.LineIsTrue, Faults.TellsAll, Faults.AreOthers, Turns.turn_of, Turns.last_turn};
ghost use Rattle.ods_space.specs.Disks.{on};

use crate::chains::push_files;
use crate::index_faults::push_index;
use crate::sharing::push_shared;
use crate::sweep::push_each;
use crate::system::{LeftAside, push_system};
use crate::{FaultLine, Told};
use ods_base::Image;
use ods_mount::{MountFault, check_image, read_layout};
use ods_space::{Disk, Layout};
use std::alloc::{AllocError, Global};

/// The result of a check: the layout, if there is one, the fault that a mount reports, and a line for each fault. The first 10,000 lines are kept.
/// `sharing` counts the files that share blocks with earlier files and are reached after these lines are full. A pair of files has no line if the
/// later file is among them.
#[derive(Drop)]
pub struct Checked {
    pub layout: Option<Layout>,
    pub answer: Option<MountFault>,
    pub faults: Told<FaultLine>,
    pub sharing: Told<u16>,
}

/// The greatest number of lines that are kept.
pub const MOST_LINES: u32 = 10_000;

/// Returns every fault of an image, and its layout if it has one. A sound image has no fault. An image without a layout has only the fault that a
/// mount reports. An image with a layout has these faults, and each line is true and occurs once:
///
/// - each reason why the index is bad, a storage bitmap that is too short, and a missing master directory;
/// - each header whose pointers have another format;
/// - each file with no chain, or with a header of another file;
/// - one block for each chain that names blocks which the image lacks;
/// - each block of a whole chain that is marked free;
/// - each directory with a bad entry, and each directory with two equal names;
/// - each pair of files with whole chains that share blocks, with the first shared block and their number. A file that holds blocks twice is such a
///   pair with itself.
///
/// A sound image costs a mount. Any other image costs a few walks over all its chains. Each file that shares a block with an earlier file costs a
/// walk over the chains of all earlier files. During this walk it takes four bytes for each block of the image. So the time is at most one walk
/// over all chains for each kept line. An error means out of memory.
pub fn check_all(alloc: Global, image: &Image) -> Result<Checked, AllocError>
    ensures true_of { IfOk result (λ c. All (λ line. FaultIsTrue image.now (fault_of line)) c.faults.0) }
    ensures lines { IfOk result (λ c. All (LineIsTrue image.now) c.faults.0) }
    ensures answer { IfOk result (λ c. IfSome c.answer (FaultIsTrue image.now) × IfNone c.answer (IsSound image.now)) }
    ensures sound { IfOk result (λ c. c.faults.0 ≡ [] → IsSound image.now) }
    ensures layout { IfOk result (λ c. IfSome c.layout (λ layout. IsLayoutOf image.now layout × TellsAll image.now layout c.sharing.0 c.faults.0 × AreOthers image.now layout c.faults c.sharing.0)) }
    ensures none { IfOk result (λ c. IfNone c.layout ((L : VolumeLayout) → ¬ IsLayoutOf image.now L)) }
    ensures once { IfOk result (λ c. AreDistinct c.faults.0) }
    ensures most { IfOk result (λ c. (c.faults.1 ≡ 10000) × (c.sharing.1 ≡ 0)) }
{
    match check_image(alloc, image) {
        Ok(layout) => Ok(Checked {
            layout: Some(layout),
            answer: None,
            faults: Told::new(alloc, MOST_LINES),
            sharing: Told::new(alloc, 0),
        }),
        Err(fault) => {
            if fault.is_memory() {
                return Err(AllocError);
            }
            all_faults(alloc, image, fault)
        }
    }
}

/// The faults of an image that is not sound, of which one is known.
fn all_faults(alloc: Global, image: &Image, known: MountFault) -> Result<Checked, AllocError>
    requires { FaultIsTrue image.now known }
    ensures true_of { IfOk result (λ c. All (λ line. FaultIsTrue image.now (fault_of line)) c.faults.0) }
    ensures lines { IfOk result (λ c. All (LineIsTrue image.now) c.faults.0) }
    ensures answer { IfOk result (λ c. c.answer ≡ Some known) }
    ensures some { IfOk result (λ c. c.faults.0 ≢ []) }
    ensures layout { IfOk result (λ c. IfSome c.layout (λ layout. IsLayoutOf image.now layout × TellsAll image.now layout c.sharing.0 c.faults.0 × AreOthers image.now layout c.faults c.sharing.0)) }
    ensures none { IfOk result (λ c. IfNone c.layout ((L : VolumeLayout) → ¬ IsLayoutOf image.now L)) }
    ensures once { IfOk result (λ c. AreDistinct c.faults.0) }
    ensures most { IfOk result (λ c. (c.faults.1 ≡ 10000) × (c.sharing.1 ≡ 0)) }
{
    let mut faults = Told::new(alloc, MOST_LINES);
    let mut sharing = Told::new(alloc, 0);
    match read_layout(alloc, image) {
        Ok((home_lbn, found)) => {
            let disk = Disk {
                image,
                layout: &found,
            };
            push_all(alloc, &disk, home_lbn, &mut faults, &mut sharing)?;
            tell(known, &mut faults)?;
            Ok(Checked {
                layout: Some(found),
                answer: Some(known),
                faults,
                sharing,
            })
        }
        Err(MountFault::NoMemory) => Err(AllocError),
        Err(_) => {
            tell(known, &mut faults)?;
            Ok(Checked {
                layout: None,
                answer: Some(known),
                faults,
                sharing,
            })
        }
    }
}

/// Adds a fault that is known, where none of these is the same, or of the same pair of files. So there is one at least. Where as many lines
/// are kept as may be, it adds none.
fn tell(known: MountFault, faults: &mut Told<FaultLine>) -> Result<(), AllocError>
    requires { 0 < faults.old.1 }
    ensures added { OnOk result ((faults.new ≡ faults.old) ⊎ (faults.new ≡ (faults.old.0 ++ FaultLine.Plain known ∷ [], faults.old.1))) }
    ensures most { OnOk result (faults.new.1 ≡ faults.old.1) }
    ensures some { OnOk result (faults.new.0 ≢ []) }
    ensures once { OnOk result (AreDistinct faults.old.0 → AreDistinct faults.new.0) }
{
    if faults.is_full() {
        return Ok(());
    }
    if is_told(known, faults.kept_lines()) {
        return Ok(());
    }
    faults.push(FaultLine::Plain(known))?;
    Ok(())
}

/// Whether one of these faults is this one, or is of the same pair of files.
fn is_told(known: MountFault, faults: &[FaultLine]) -> bool
    ensures { MatchBool result (faults.now ≢ []) (¬ Contains faults.now (FaultLine.Plain known)) }
{
    for i in 0..faults.len() {
        if is_same(faults[i].fault(), known) {
            return true;
        }
    }
    false
}

/// Whether two faults are the same, or of the same pair of files that hold a block.
fn is_same(one: MountFault, other: MountFault) -> bool
    ensures { one ≡ other → result ≡ true }
{
    if one == other {
        return true;
    }
    match pair_of(one) {
        Some(pair) => pair_of(other) == Some(pair),
        None => false,
    }
}

/// The files of a fault that says which two hold a block.
fn pair_of(fault: MountFault) -> Option<(u16, u16)> {
    match fault {
        MountFault::DoublyUsed(one, other, _) => Some((one, other)),
        _ => None,
    }
}

/// Adds the faults of a volume with this layout: those that its index, its system files, the format of its headers and each file by itself
/// show, and the pairs of files that hold the same blocks.
fn push_all(
    alloc: Global,
    disk: &Disk<'_>,
    home_lbn: u32,
    faults: &mut Told<FaultLine>,
    others: &mut Told<u16>,
) -> Result<(), AllocError>
    requires layout { on IsLayoutOf disk.now }
    requires home { IsHomeAt disk.now.image.now home_lbn }
    requires none { others.old.0 ≡ [] }
    ensures adds { OnOk result (Adds (on IsLineOf disk.now) faults.old faults.new) }
    ensures once { OnOk result (AddsInTurn turn_of 0 last_turn faults.old faults.new) }
    ensures all { OnOk result (on TellsAll disk.now others.new.0 faults.new.0) }
    ensures others { OnOk result (on AreOthers disk.now faults.new others.new.0) }
    ensures most { OnOk result (others.new.1 ≡ others.old.1) }
{
    push_index(alloc, disk, home_lbn, faults)?;
    push_system(disk, faults)?;
    push_each(alloc, disk, &LeftAside, faults)?;
    push_files(alloc, disk, home_lbn, faults)?;
    push_shared(alloc, disk, faults, others)?;
    Ok(())
}
