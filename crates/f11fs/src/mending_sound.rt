//! The repairs that require a sound volume: entries that name no file, lost files, and blocks that no file holds.
ghost use Rattle.std.specs.Prelude.{◌≡◌, IfOk, IfSome, MatchBool, MatchOption, OnOk, true};
ghost use Rattle.ods_filing.specs.Amended.{HasProtection};
ghost use Rattle.ods_repair.specs.Asked.{word_of};
ghost use Rattle.f11fs.specs.Mended.{EntersAll, EntersLost, EntersNone, EntersNot, HasDirectory, HasNoLost, IsDirectoryFound, IsDirectoryOf, IsMountedWhollyMended, IsNoDirectoryMade, IsOneDirectory, IsSoundWhollyMended, IsWhollyFreed, LeavesEntered, LeavesFree, LeavesLost, LeavesMounted, LeavesNames, LeavesSound, LosesNone, Wholly};

use crate::changing::{KEEPER, sharing};
use crate::mending::Wishes;
use crate::repair_lines::{Part, Report, push_free, push_lost, push_names};
use fs_reads::{Stop, stop_about};
use ods_base::{FileId, Image, Uic};
use ods_check::find_lost;
use ods_filing::Filing;
use ods_mount::{Mounted, mount};
use ods_repair::{enter_lost, free_unheld, remove_dangling};
use ods_shell::mounted::{facts_of, find_path};
use ods_shell::{Alone, Found, Kind, PathFault, Status, Unsaid};
use ods_upkeep::make_directories;
use std::alloc::{AllocError, Global};

/// The number of the master directory.
const MASTER: u16 = 4;

/// Returns the image with the requested repairs that require a sound volume, if it is one.
pub(crate) fn mend_mounted<'a>(
    alloc: Global,
    image: Image,
    wishes: &Wishes<'a>,
    report: &mut Report,
) -> Result<Image, Stop<'a>>
    ensures leaves { IfOk result (LeavesMounted wishes.now.kinds wishes.now.stamp wishes.now.into image) }
    ensures whole { IfOk result (λ J. Wholly report.old.is_left report.new.is_left (IsMountedWhollyMended wishes.now.kinds wishes.now.stamp wishes.now.into image J)) }
{
    match mount(alloc, image) {
        Ok(volume) => mend_volume(alloc, volume, wishes, report),
        Err((image, fault)) => {
            if fault.is_memory() {
                return Err(Stop::NoMemory);
            }
            report.tell_refused(alloc, &fault)?;
            Ok(image)
        }
    }
}

/// The blocks of a volume with the repairs made. Copies of it, which a refused repair brings back, share its blocks.
fn mend_volume<'a>(
    alloc: Global,
    volume: Mounted,
    wishes: &Wishes<'a>,
    report: &mut Report,
) -> Result<Image, Stop<'a>>
    ensures leaves { IfOk result (LeavesMounted wishes.now.kinds wishes.now.stamp wishes.now.into volume.image) }
    ensures whole { IfOk result (λ J. Wholly report.old.is_left report.new.is_left (IsMountedWhollyMended wishes.now.kinds wishes.now.stamp wishes.now.into volume.image J)) }
{
    match sharing(volume) {
        Ok(shared) => mend_shared(alloc, shared, wishes, report),
        Err(stop) => Err(stop),
    }
}

/// The same of a volume whose copies share its blocks.
fn mend_shared<'a>(
    alloc: Global,
    volume: Mounted,
    wishes: &Wishes<'a>,
    report: &mut Report,
) -> Result<Image, Stop<'a>>
    ensures leaves { IfOk result (LeavesMounted wishes.now.kinds wishes.now.stamp wishes.now.into volume.image) }
    ensures whole { IfOk result (λ J. Wholly report.old.is_left report.new.is_left (IsMountedWhollyMended wishes.now.kinds wishes.now.stamp wishes.now.into volume.image J)) }
{
    let _ = volume.disk();
    let mut filing = Filing::new(alloc, volume, KEEPER)?;
    mend_sound(alloc, &mut filing, wishes, report)?;
    let (image, _) = filing.into_mounted().into_parts();
    Ok(image)
}

/// Makes the repairs of a sound volume.
fn mend_sound<'a>(
    alloc: Global,
    filing: &mut Filing,
    wishes: &Wishes<'a>,
    report: &mut Report,
) -> Result<(), Stop<'a>>
    ensures leaves { OnOk result (LeavesSound wishes.now.kinds wishes.now.stamp wishes.now.into filing.old filing.new) }
    ensures whole { OnOk result (Wholly report.old.is_left report.new.is_left (IsSoundWhollyMended wishes.now.kinds wishes.now.stamp wishes.now.into filing.old filing.new)) }
{
    mend_names(alloc, filing, wishes.kinds.names, report)?;
    mend_free(alloc, filing, wishes.kinds.free, report)?;
    mend_lost(alloc, filing, wishes, report)
}

/// Removes entries that name no file, where that is asked for.
fn mend_names<'a>(
    alloc: Global,
    filing: &mut Filing,
    wanted: bool,
    report: &mut Report,
) -> Result<(), Stop<'a>>
    ensures leaves { OnOk result (LeavesNames wanted filing.old filing.new) }
    ensures whole { OnOk result (Wholly report.old.is_left report.new.is_left (LeavesNames wanted filing.old filing.new)) }
{
    if !wanted {
        return Ok(());
    }
    match remove_dangling(alloc, filing) {
        Ok(found) => {
            push_names(alloc, &mut report.text, &found)?;
            Ok(())
        }
        // It fails only when out of memory.
        Err(_) => Err(Stop::NoMemory),
    }
}

/// Brings a volume back.
fn restore(alloc: Global, filing: &mut Filing, before: Mounted, user: Uic) -> Result<(), AllocError>
    ensures { OnOk result (filing.new ≡ record { image = before.image; layout = before.layout; user = user }) }
{
    *filing = Filing::new(alloc, before, user)?;
    Ok(())
}

/// Enters lost files in the directory that is said, where that is asked for. Where one is refused, none is entered.
fn mend_lost<'a>(
    alloc: Global,
    filing: &mut Filing,
    wishes: &Wishes<'a>,
    report: &mut Report,
) -> Result<(), Stop<'a>>
    ensures leaves { OnOk result (LeavesLost wishes.now.kinds.lost wishes.now.stamp wishes.now.into filing.old filing.new) }
    ensures whole { OnOk result (Wholly report.old.is_left report.new.is_left (LosesNone wishes.now.kinds.lost filing.new)) }
{
    if !wishes.kinds.lost {
        return Ok(());
    }
    if has_no_lost(alloc, filing)? {
        return Ok(());
    }
    enter_or_keep(alloc, filing, wishes, report)
}

/// Enters lost files in the directory that is said. Where one is refused, none is entered.
fn enter_or_keep<'a>(
    alloc: Global,
    filing: &mut Filing,
    wishes: &Wishes<'a>,
    report: &mut Report,
) -> Result<(), Stop<'a>>
    ensures leaves { OnOk result (LeavesEntered wishes.now.stamp wishes.now.into filing.old filing.new) }
    ensures whole { OnOk result (Wholly report.old.is_left report.new.is_left (HasNoLost filing.new)) }
{
    let user = filing.user();
    let before = filing.mounted().copy()?;
    let is_entered = enter_all(alloc, filing, wishes, report)?;
    if is_entered {
        return Ok(());
    }
    restore(alloc, filing, before, user)?;
    Ok(())
}

/// Whether no file is lost.
fn has_no_lost(alloc: Global, filing: &Filing) -> Result<bool, AllocError>
    ensures { IfOk result (λ none. none ≡ true → HasNoLost filing.now) }
{
    let lost = find_lost(alloc, &filing.disk())?;
    match lost.first() {
        Some(_) => Ok(false),
        None => Ok(true),
    }
}

/// Enters lost files in the directory that is said, and returns whether all are entered. Otherwise it is told.
fn enter_all<'a>(
    alloc: Global,
    filing: &mut Filing,
    wishes: &Wishes<'a>,
    report: &mut Report,
) -> Result<bool, Stop<'a>>
    ensures leaves { IfOk result (λ all. MatchBool all (EntersLost wishes.now.stamp wishes.now.into filing.old filing.new) (EntersNone wishes.now.stamp wishes.now.into filing.old)) }
    ensures whole { IfOk result (λ all. MatchBool all (Wholly report.old.is_left report.new.is_left (HasNoLost filing.new)) (report.new.is_left ≡ true)) }
{
    match directory_for(alloc, filing, wishes, report)? {
        Some(dir) => enter_in(alloc, filing, dir, wishes, report),
        None => Ok(false),
    }
}

/// Enters lost files in this directory, and returns whether all are entered. Otherwise it is told.
fn enter_in<'a>(
    alloc: Global,
    filing: &mut Filing,
    dir: FileId,
    wishes: &Wishes<'a>,
    report: &mut Report,
) -> Result<bool, Stop<'a>>
    ensures leaves { IfOk result (λ all. MatchBool all (EntersAll filing.old dir filing.new) (EntersNot filing.old dir)) }
    ensures whole { IfOk result (λ all. MatchBool all (Wholly report.old.is_left report.new.is_left (HasNoLost filing.new)) (report.new.is_left ≡ true)) }
{
    match enter_lost(alloc, filing, dir) {
        Ok(found) => {
            push_lost(&mut report.text, &found, wishes.into)?;
            report.tell_nameless(&find_lost(alloc, &filing.disk())?)?;
            Ok(true)
        }
        Err(fault) => {
            report.tell_left(alloc, Part::Lost, &fault)?;
            Ok(false)
        }
    }
}

/// The directory for lost files, which is made where it is not there. Where it is not made, that is told.
fn directory_for<'a>(
    alloc: Global,
    filing: &mut Filing,
    wishes: &Wishes<'a>,
    report: &mut Report,
) -> Result<Option<FileId>, Stop<'a>>
    ensures made { IfOk result (λ made. MatchOption made (IsNoDirectoryMade wishes.now.stamp wishes.now.into filing.old) (HasDirectory wishes.now.stamp wishes.now.into filing.old filing.new)) }
    ensures told { IfOk result (λ made. MatchOption made (report.new.is_left ≡ true) (λ _. report.new.is_left ≡ report.old.is_left)) }
{
    match directory_of(alloc, filing, wishes.into) {
        Ok(dir) => Ok(Some(dir)),
        Err(Stop::Path(_, PathFault::Nothing)) => make_directory(alloc, filing, wishes, report),
        Err(stop) => Err(stop),
    }
}

/// A new directory for lost files. No right is required for it in the master directory, which denies nothing meanwhile.
fn make_directory<'a>(
    alloc: Global,
    filing: &mut Filing,
    wishes: &Wishes<'a>,
    report: &mut Report,
) -> Result<Option<FileId>, Stop<'a>>
    ensures made { IfOk result (λ made. MatchOption made (IsNoDirectoryMade wishes.now.stamp wishes.now.into filing.old) (HasDirectory wishes.now.stamp wishes.now.into filing.old filing.new)) }
    ensures told { IfOk result (λ made. MatchOption made (report.new.is_left ≡ true) (λ _. report.new.is_left ≡ report.old.is_left)) }
{
    let master = master_of(filing, wishes.into)?;
    let word = protect(filing, master, 0)?;
    let made = make_directories(alloc, filing, wishes.stamp, &[wishes.into], 0, None);
    protect(filing, master, word)?;
    match made {
        Ok(()) => {
            let dir = directory_of(alloc, filing, wishes.into)?;
            Ok(Some(dir))
        }
        Err(failure) => {
            report.tell_unmade(alloc, &failure)?;
            Ok(None)
        }
    }
}

/// The ID of the master directory.
fn master_of<'a>(filing: &Filing, path: &'a str) -> Result<FileId, Stop<'a>>
    ensures { IfOk result (λ master. master.number ≡ 4) }
{
    match facts_of(filing.mounted(), MASTER) {
        Some(facts) => Ok(FileId {
            number: MASTER,
            sequence: facts.file.sequence,
        }),
        // A sound volume has one.
        None => Err(Stop::Path(path, PathFault::NoSuchFile)),
    }
}

/// Sets the protection word of a directory that is there, and returns the word before. It fails only when out of memory.
fn protect<'a>(filing: &mut Filing, dir: FileId, protection: u16) -> Result<u16, Stop<'a>>
    ensures { IfOk result (λ word. HasProtection filing.old dir protection filing.new × (word ≡ word_of filing.old dir)) }
{
    match filing.replace_protection(dir, protection) {
        Ok(word) => Ok(word),
        Err(_) => Err(Stop::NoMemory),
    }
}

/// The one directory that this path means.
fn directory_of<'a>(alloc: Global, filing: &Filing, path: &'a str) -> Result<FileId, Stop<'a>>
    ensures { IfOk result (IsDirectoryOf filing.now path.now) }
{
    let unsaid = Unsaid::highest(Alone::Themselves);
    let found = match find_path(alloc, filing.mounted(), path, unsaid, &[]) {
        Ok((found, _)) => found,
        Err(fault) => return Err(Stop::Path(path, fault)),
    };
    match directory_in(&found) {
        Some(dir) => Ok(dir),
        None => Err(stop_about(
            alloc,
            path,
            "--into needs exactly one directory",
            Status::Words,
        )),
    }
}

/// The one that is found, where it is a directory.
#[tactic(auto, using(crate::proofs::MoreVersions::one_directory))]
fn directory_in(found: &[Found]) -> Option<FileId>
    ensures { IfSome result (IsOneDirectory found.now) }
{
    match found.len() {
        1 => directory_at(&found[0]),
        _ => None,
    }
}

/// What is found, where it is a directory.
fn directory_at(found: &Found) -> Option<FileId>
    ensures { IfSome result (IsDirectoryFound found.now) }
{
    match &found.facts {
        Some(facts) => match facts.kind {
            Kind::Directory => Some(facts.file),
            Kind::Text | Kind::Records | Kind::Binary => None,
        },
        None => None,
    }
}

/// Frees blocks that no file holds, where that is asked for.
fn mend_free<'a>(
    alloc: Global,
    filing: &mut Filing,
    wanted: bool,
    report: &mut Report,
) -> Result<(), Stop<'a>>
    ensures leaves { OnOk result (LeavesFree wanted filing.old filing.new) }
    ensures whole { OnOk result (Wholly report.old.is_left report.new.is_left (IsWhollyFreed wanted filing.old filing.new)) }
{
    if !wanted {
        return Ok(());
    }
    match free_unheld(alloc, filing) {
        Ok(told) => push_free(alloc, &mut report.text, told.kept_lines())?,
        Err(fault) => report.tell_left(alloc, Part::Free, &fault)?,
    }
    Ok(())
}
