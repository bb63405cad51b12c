//! The commands that change a volume: put, cp, mv, rm, purge, mkdir, rmdir, truncate, append, chmod, chown and label.
ghost use Rattle.std.specs.Prelude.{◌≡◌, ◌⊎◌, ◌&&◌, ◌↔◌, true, false, None, IfErr, IfOk, IfSome, IsSomeAnd, IsTrue, MatchOption, OnErr, OnOk, is_some, length, not, unwrap_or};
ghost use Rattle.fs_host.specs.{Found.SaysShort, Times.IsStampOfLocal};
ghost use Rattle.ods_shell.specs.declared.status.Status.{Status as Code};
ghost use Rattle.fs_reads.specs.Volumes.{LacksBlocks};
ghost use Rattle.fs_reads.specs.declared.stop.Stop.{Stop as End};
ghost use Rattle.fs_reads.specs.declared.stop.WordFault.{WordFault as AWordFault};
ghost use Rattle.f11fs.specs.{Changed.IsChanged, Changed.IsLabelled, Changed.IsNoLabel, Changed.IsRefusal, Changed.KeepsTo, Changed.MakesAll, Given.AreTaken, Saved.EndsSaved, Saved.IsNotLocked, Saved.IsNotRead, Saved.IsNotSaved, Saved.IsSavedStatus, Saved.IsWrittenTo, Stores.GainsNoCopy, Stores.ImageStays, Stores.IsMadeAndSaved, Stores.IsSavedIn, Stores.MakesChange};

use crate::appending::append;
use crate::copying_from::copy_from_image;
use crate::early::Early;
use crate::host::Host;
use crate::orders::layers_of;
use crate::putting::placing_for;
use crate::putting_tree::put_files;
use crate::refusing::{end_change, stop_failed};
use crate::store::{OnHost, Store};
use crate::telling::plan_text;
use crate::truncating::truncate;
use crate::untarring::untar;
use fs_host::{Extent, Shown, Unfinished, stamp_of_now};
use fs_reads::{
    Stop, WordFault, image_of, lacks_blocks, say_extent, send, stop_at_own_output, volume_of,
};
use fs_words::{Change, Saving, Words};
use ods_base::{Image, Uic};
use ods_filing::Filing;
use ods_init::Label;
use ods_mount::Mounted;
use ods_request::Stamp;
use ods_shell::Status;
use ods_upkeep::{
    Placing, Removal, copy_files, give_owner, give_protection, is_below_another, make_directories,
    make_ready, move_names, purge_files, remove_directories, remove_files,
};
use std::alloc::{AllocError, Global};

/// The user whose rights apply to changes if no user is specified.
pub const KEEPER: Uic = Uic {
    group: 1,
    member: 1,
};

/// Makes the requested change on the locked image and saves it, or with `-n` prints what would change.
#[tactic(auto, using(crate::proofs::Taking::none_taken))]
pub fn change_image<'a, R: Host>(
    rt: &R,
    words: &Words<'a>,
    change: Change<'a>,
) -> Result<Status, Stop<'a>>
    ensures { IfOk result IsSavedStatus }
{
    stop_at_own_output(rt, words.image)?;
    let mut early = Early::of(rt, words.image);
    early.read_words(rt, words)?;
    let mut store = lock_image(rt, words)?;
    change_store(rt, &mut store, words, change, &mut early)
}

/// Makes the requested change of a locked image and saves it, or with `-n` prints what would change.
fn change_store<'a, R: Host, S: Store>(
    rt: &R,
    store: &mut S,
    words: &Words<'a>,
    change: Change<'a>,
    early: &mut Early,
) -> Result<Status, Stop<'a>>
    requires { AreTaken (R.gives rt.now) early.old }
    ensures status { IfOk result IsSavedStatus }
    // What is only printed is not saved.
    ensures told { words.now.saving.only_tells ≡ true → ImageStays (S.has store.old) (S.has store.new) × GainsNoCopy (S.has_copy store.old) (S.has_copy store.new) }
    // What is saved is the change of the blocks that the image had.
    ensures saved { words.now.saving.only_tells ≡ false → OnOk result (IsMadeAndSaved (MakesChange (R.gives rt.now) change.entry words.now) words.now.saving.out (S.has store.old) (S.has store.new) (S.has_copy store.new)) }
    // If the run fails, the image has its former blocks, or all of the change.
    ensures kept { OnErr result (ImageStays (S.has store.old) (S.has store.new) ⊎ IsMadeAndSaved (MakesChange (R.gives rt.now) change.entry words.now) None (S.has store.old) (S.has store.new) (S.has_copy store.new)) }
{
    let volume = read_volume(rt, store, words, false)?;
    let asker = asker_of(rt, words)?;
    let before = kept_before(words, &volume)?;
    let filing = changed(rt, volume, asker, words, change, early)?;
    let finished = finish(rt, words, store, &before, filing.mounted())?;
    Ok(status_of(finished))
}

/// The volume with the change that the words ask for, made whole.
fn changed<'a, R: Host>(
    rt: &R,
    volume: Mounted,
    asker: Asker,
    words: &Words<'a>,
    change: Change<'a>,
    early: &mut Early,
) -> Result<Filing, Stop<'a>>
    requires { AreTaken (R.gives rt.now) early.old }
    ensures { IfOk result (IsChanged (R.gives rt.now) change.entry words.now.paths.items asker.stamp (record { image = volume.image; layout = volume.layout; user = asker.user })) }
{
    let mut filing = Filing::new(rt.alloc(), volume, asker.user)?;
    change_volume(rt, &mut filing, asker.stamp, words, change, early)?;
    Ok(filing)
}

/// Locks the image that the words name.
pub(crate) fn lock_image<'r, 'a, R: Host>(
    rt: &'r R,
    words: &Words<'a>,
) -> Result<OnHost<'r, R>, Stop<'a>>
    ensures { IfErr result (IsNotLocked words.now.image (not (is_some words.now.saving.out) && not words.now.saving.only_tells) words.now.force) }
{
    let writes = words.saving.out.is_none() && !words.saving.only_tells;
    match OnHost::lock(rt, words.image, writes, words.force) {
        Ok(store) => {
            say_unseen(rt, words.image, store.unseen());
            Ok(store)
        }
        Err(fault) => Err(Stop::Word(words.image, WordFault::Unsaved(fault))),
    }
}

/// Reads the volume of a locked image. With `is_copied`, or if the command only prints what would change, the volume shares its blocks with its
/// copies.
pub(crate) fn read_volume<'a, R: Host, S: Store>(
    rt: &R,
    store: &mut S,
    words: &Words<'a>,
    is_copied: bool,
) -> Result<Mounted, Stop<'a>>
    ensures read { IfOk result (λ volume. S.has store.old volume.image) }
    ensures stays { ImageStays (S.has store.old) (S.has store.new) }
    ensures copies { GainsNoCopy (S.has_copy store.old) (S.has_copy store.new) }
    ensures err { IfErr result (IsNotRead words.now.image) }
{
    let image = match read_image(rt, store, words) {
        Ok(image) => image,
        Err(stop) => return Err(stop),
    };
    let volume = match volume_of(rt, words.image, Ok(image)) {
        Ok(volume) => volume,
        Err(stop) => return Err(stop),
    };
    if is_copied || words.saving.only_tells {
        sharing(volume)
    } else {
        Ok(volume)
    }
}

/// Reads the blocks of a locked image. An image that ends before a block of a file is refused.
pub(crate) fn read_image<'a, R: Host, S: Store>(
    rt: &R,
    store: &mut S,
    words: &Words<'a>,
) -> Result<Image, Stop<'a>>
    ensures read { IfOk result (λ image. S.has store.old image) }
    ensures whole { IfOk result (λ image. ¬ LacksBlocks (S.remark store.new) image) }
    ensures stays { ImageStays (S.has store.old) (S.has store.new) }
    ensures copies { GainsNoCopy (S.has_copy store.old) (S.has_copy store.new) }
    ensures err { IfErr result (IsNotRead words.now.image) }
{
    let image = store.read(rt.alloc(), words.blocks, layers_of(words.order));
    say_extent(rt, words.image, store.extent(), false);
    let image = match image_of(rt, words.image, image) {
        Ok(image) => image,
        Err(stop) => return Err(stop),
    };
    match lacks_blocks(rt.alloc(), &image, store.extent()) {
        Ok(false) => Ok(image),
        Ok(true) => Err(Stop::Word(words.image, WordFault::Lacking)),
        Err(_) => Err(Stop::from(AllocError)),
    }
}

/// Says how many processes may have the image open, if the search for one ran out of time.
fn say_unseen<R: Eprint>(rt: &R, path: &str, count: u32) {
    if count > 0 {
        let path = Shown(path);
        let _ = eprintln!(rt;
            "f11fs: {path}: {count} processes could not be looked at in time; one of them may have it open"
        );
    }
}

/// Returns the volume over blocks that its copies share. Each of them holds only what it changes.
pub(crate) fn sharing<'a>(volume: Mounted) -> Result<Mounted, Stop<'a>>
    ensures ok { IfOk result (λ shared. (shared.image ≡ volume.image) × (shared.layout ≡ volume.layout)) }
    ensures err { IfErr result (λ stop. stop ≡ End.NoMemory) }
{
    match volume.split() {
        Ok((_, image, layout)) => Ok(Mounted::of(image, layout)),
        Err(_) => Err(Stop::from(AllocError)),
    }
}

/// Returns a copy of the volume before a change, if the command only prints what would change.
pub fn kept_before<'a>(words: &Words<'_>, volume: &Mounted) -> Result<Option<Mounted>, Stop<'a>>
    ensures { IfOk result (λ kept. MatchOption kept (words.now.saving.only_tells ≡ false) (λ copy. (words.now.saving.only_tells ≡ true) × (copy ≡ volume.now))) }
{
    if words.saving.only_tells {
        Ok(Some(volume.copy()?))
    } else {
        Ok(None)
    }
}

/// How a run of changes ended, if nothing failed.
#[derive(Clone, Copy)]
pub enum Finished {
    /// The changes were printed and not saved, or nothing has changed.
    Told(Status),
    /// The changed image is saved.
    Saved(Status),
}

/// Returns the exit status of a run that ended this way.
pub fn status_of(finished: Finished) -> Status
    ensures { EndsSaved finished → IsSavedStatus result }
{
    match finished {
        Finished::Told(status) => status,
        Finished::Saved(status) => status,
    }
}

/// The requesting user, and the time of new files.
#[derive(Clone, Copy)]
pub struct Asker {
    pub user: Uic,
    pub stamp: Stamp,
}

/// Returns the requesting user, and the time of new files: from the words, otherwise `KEEPER` and the local time. Fails with `NoTime` if the words
/// specify no time and the host has none.
pub fn asker_of<'a, R: Host>(rt: &R, words: &Words<'a>) -> Result<Asker, Stop<'a>>
    ensures user { IfOk result (λ asker. asker.user ≡ unwrap_or words.now.user KEEPER) }
    ensures stamp { IfOk result (λ asker. MatchOption words.now.stamp (IsStampOfLocal asker.stamp) (λ said. asker.stamp ≡ said)) }
    ensures err { IfErr result (λ stop. (stop ≡ End.NoTime) × (words.now.stamp ≡ None)) }
{
    let user = words.user.unwrap_or(KEEPER);
    match words.stamp {
        Some(stamp) => Ok(Asker { user, stamp }),
        None => match stamp_of_now(rt) {
            Some(stamp) => Ok(Asker { user, stamp }),
            None => Err(Stop::NoTime),
        },
    }
}

/// Prints what would change, if the volume before is given. Otherwise saves the changed image as the words specify. An unchanged image is not
/// written.
pub fn finish<'a, R: Host, S: Store>(
    rt: &R,
    words: &Words<'a>,
    store: &mut S,
    before: &Option<Mounted>,
    volume: &Mounted,
) -> Result<Finished, Stop<'a>>
    ensures told { IfSome before.now (λ _. IfOk result (λ f. f ≡ Finished.Told Code.Done)) }
    // What is only printed is not saved.
    ensures unsaved { IfSome before.now (λ _. store.new ≡ store.old) }
    ensures status { IfOk result EndsSaved }
    ensures saved { before.now ≡ None → OnOk result (IsSavedIn words.now.saving.out (S.has store.old) (S.has store.new) (S.has_copy store.new) volume.now.image) }
    ensures kept { OnErr result (ImageStays (S.has store.old) (S.has store.new) ⊎ S.has store.new volume.now.image) }
    ensures out { before.now ≡ None → IfSome words.now.saving.out (λ out. IsWrittenTo (S.is_floppy store.old) out result) }
    // An image that is shorter than its volume is written only where the words say so.
    ensures short { before.now ≡ None → words.now.saving.out ≡ None → words.now.force ≡ false → IsSomeAnd (S.remark store.old) SaysShort → IfOk result (λ f. f ≡ Finished.Told Code.Done) }
    ensures err { before.now ≡ None → words.now.saving.out ≡ None → IfErr result (IsNotSaved words.now.image (S.is_floppy store.old) (S.force store.old) words.now.saving.backup words.now.saving.break_links) }
{
    if let Some(before) = before {
        let text = plan_text(rt.alloc(), before, volume, words.json)?;
        return Ok(Finished::Told(send(rt, text.as_str())?));
    }
    save_image(rt, words, store, volume.image())
}

/// Saves the changed image as the words specify. Without `-o`, an unchanged image is not written, and an image shorter than its volume only with
/// `--force`.
pub fn save_image<'a, R: Host, S: Store>(
    rt: &R,
    words: &Words<'a>,
    store: &mut S,
    image: &Image,
) -> Result<Finished, Stop<'a>>
    ensures status { IfOk result EndsSaved }
    ensures saved { OnOk result (IsSavedIn words.now.saving.out (S.has store.old) (S.has store.new) (S.has_copy store.new) image.now) }
    ensures kept { OnErr result (ImageStays (S.has store.old) (S.has store.new) ⊎ S.has store.new image.now) }
    ensures out { IfSome words.now.saving.out (λ out. IsWrittenTo (S.is_floppy store.old) out result) }
    // An image that is shorter than its volume is written only where the words say so.
    ensures short { words.now.saving.out ≡ None → words.now.force ≡ false → IsSomeAnd (S.remark store.old) SaysShort → IfOk result (λ f. f ≡ Finished.Told Code.Done) }
    ensures err { words.now.saving.out ≡ None → IfErr result (IsNotSaved words.now.image (S.is_floppy store.old) (S.force store.old) words.now.saving.backup words.now.saving.break_links) }
{
    if let Some(out) = words.saving.out {
        return match store.write_copy(out, image) {
            Ok(wanting) => Ok(Finished::Saved(say_unfinished(rt, out, wanting))),
            Err(fault) => Err(Stop::Word(out, WordFault::Unsaved(fault))),
        };
    }
    if store.is(image) {
        return Ok(Finished::Told(Status::Done));
    }
    if is_short(store.extent()) && !words.force {
        return Err(Stop::Word(words.image, WordFault::Short));
    }
    let Saving {
        backup,
        break_links,
        ..
    } = words.saving;
    match store.save(image, backup, break_links) {
        Ok(wanting) => Ok(Finished::Saved(say_unfinished(rt, words.image, wanting))),
        Err(fault) => Err(Stop::Word(words.image, WordFault::Unsaved(fault))),
    }
}

/// Whether an image with this remark is shorter than its volume.
fn is_short(remark: Option<Extent>) -> bool
    ensures { IsTrue result ↔ IsSomeAnd remark SaysShort }
{
    match remark {
        Some(extent) => extent.is_short(),
        None => false,
    }
}

/// Prints what is unfinished about a saved image, if anything, and returns the status: `Host` in that case.
pub fn say_unfinished<R: Eprint>(rt: &R, path: &str, wanting: Option<Unfinished>) -> Status
    ensures { MatchOption wanting (result ≡ Code.Done) (λ _. result ≡ Code.Host) }
{
    match wanting {
        None => Status::Done,
        Some(remark) => {
            let path = Shown(path);
            let _ = eprintln!(rt; "f11fs: {path}: {remark}");
            Status::Host
        }
    }
}

/// Makes the requested change. A refused change may be made in part.
#[tactic(auto, using(crate::proofs::Giving::done_or_same, crate::proofs::Giving::some_got, crate::proofs::Leading::through, crate::proofs::Leading::unmoved))]
pub(crate) fn change_volume<'a, R: Host>(
    rt: &R,
    filing: &mut Filing,
    stamp: Stamp,
    words: &Words<'a>,
    change: Change<'a>,
    early: &mut Early,
) -> Result<(), Stop<'a>>
    requires { AreTaken (R.gives rt.now) early.old }
    ensures taken { AreTaken (R.gives rt.now) early.new }
    ensures done { OnOk result (IsChanged (R.gives rt.now) change.entry words.now.paths.items stamp filing.old filing.new) }
    ensures refused { IfErr result IsRefusal }
    ensures kept { KeepsTo change.entry filing.old filing.new }
{
    let alloc = rt.alloc();
    let paths = words.paths.as_slice();
    match change {
        Change::Put(how) => put_files(rt, filing, stamp, words, how, early),
        Change::Untar => untar(rt, filing, stamp, words, early),
        Change::CpFrom(how) => copy_from_image(rt, filing, stamp, words, how, early),
        Change::Cp { contiguous } => match paths.split_last() {
            Some((to, paths)) => {
                let placing = placing_for(contiguous);
                let done = copy_files(alloc, filing, stamp, placing, paths, *to);
                end_change(alloc, filing, done)
            }
            None => Err(Stop::Lines(String::new(alloc), Status::Words)),
        },
        Change::Mv => match paths.split_last() {
            Some((to, paths)) => {
                let done = move_names(alloc, filing, paths, *to);
                end_change(alloc, filing, done)
            }
            None => Err(Stop::Lines(String::new(alloc), Status::Words)),
        },
        Change::Rm {
            entry_alone,
            newest,
        } => {
            let removal = Removal {
                entry_alone,
                newest,
            };
            let done = remove_files(alloc, filing, paths, removal);
            end_change(alloc, filing, done)
        }
        Change::Purge { keep } => {
            let done = purge_files(alloc, filing, paths, keep);
            end_change(alloc, filing, done)
        }
        Change::Mkdir { names, owner } => {
            make_all(alloc, filing, stamp, paths, names.unwrap_or(0), owner)?;
            say_nested(rt, words);
            Ok(())
        }
        Change::Rmdir => {
            let done = remove_directories(alloc, filing, paths);
            end_change(alloc, filing, done)
        }
        Change::Truncate { bytes } => truncate(rt, filing, words, bytes),
        Change::Append => append(rt, filing, words, early),
        Change::Chmod { protection } => {
            let done = give_protection(alloc, filing, paths, protection);
            end_change(alloc, filing, done)
        }
        Change::Chown { owner } => {
            let done = give_owner(alloc, filing, paths, owner);
            end_change(alloc, filing, done)
        }
        Change::Label { text } => label_volume(filing, text),
    }
}

/// Makes the directories of `mkdir`, and before them the headers that they lack.
fn make_all<'a>(
    alloc: Global,
    filing: &mut Filing,
    stamp: Stamp,
    paths: &[&str],
    names: u32,
    owner: Option<Uic>,
) -> Result<(), Stop<'a>>
    ensures done { OnOk result (MakesAll owner names stamp paths.now filing.old filing.new) }
    ensures refused { IfErr result IsRefusal }
{
    make_ready(filing, paths.len(), Placing::Anywhere);
    match make_directories(alloc, filing, stamp, paths, names, owner) {
        Ok(()) => Ok(()),
        Err(failure) => Err(stop_failed(alloc, &failure)),
    }
}

/// Gives the volume the label that a text says.
fn label_volume<'a>(filing: &mut Filing, text: &'a str) -> Result<(), Stop<'a>>
    ensures done { OnOk result (IsLabelled text.entry.now filing.old filing.new) }
    ensures refused { IfErr result (λ stop. (stop ≡ End.NoMemory) ⊎ ((stop ≡ End.Word text.entry AWordFault.NoLabel) × IsNoLabel text.entry.now)) }
    ensures kept { OnErr result (filing.new ≡ filing.old) }
{
    let Some(label) = Label::parse(text) else {
        return Err(Stop::Word(text, WordFault::NoLabel));
    };
    match filing.set_label(&label) {
        Ok(()) => Ok(()),
        Err(_) => Err(Stop::NoMemory),
    }
}

/// Says of each directory that would lie below another than the master directory that RSX has none such.
fn say_nested<R: AllocGlobal + Eprint>(rt: &R, words: &Words<'_>) {
    if words.quiet {
        return;
    }
    for path in &words.paths {
        if let Ok(true) = is_below_another(rt.alloc(), *path) {
            let path = Shown(*path);
            let _ = eprintln!(rt;
                "f11fs: {path}: RSX knows only directories in the master directory"
            );
        }
    }
}
