//! `repair`: repairs an image, also one that a mount refuses, and saves the result.
ghost use Rattle.std.specs.Prelude.{◌≡◌, ◌⊎◌, true, false, None, IfOk, OnErr, OnOk, if◌then◌else◌};
ghost use Rattle.ods_shell.specs.declared.status.Status.{Status as Code};
ghost use Rattle.f11fs.specs.{Saved.EndsSaved, Stores.GainsNoCopy, Stores.ImageStays, Stores.IsMadeAndSaved, Stores.IsSavedIn, Stores.MakesRepairs};

use crate::changing::{Finished, asker_of, lock_image, read_image, save_image, status_of};
use crate::host::Host;
use crate::mending::{Wishes, mend};
use crate::repair_lines::Report;
use crate::store::Store;
use fs_reads::{Stop, send, stop_at_own_output};
use fs_words::{Repairs, Words};
use ods_base::Image;
use ods_shell::Status;

/// The directory of lost files where none is said.
const LOST: &str = "[1,3]";

/// Makes the requested repairs, and saves the resulting image. The lines are printed after it is saved. With `-n` nothing is saved.
pub fn repair_image<'a, R: Host>(
    rt: &R,
    words: &Words<'a>,
    kinds: Repairs,
    into: Option<&'a str>,
) -> Result<Status, Stop<'a>>
    ensures { IfOk result (λ s. (s ≡ Code.Done) ⊎ ((s ≡ Code.Found) ⊎ (s ≡ Code.Host))) }
{
    stop_at_own_output(rt, words.image)?;
    let mut store = lock_image(rt, words)?;
    repair_store(rt, &mut store, words, kinds, into.unwrap_or(LOST))
}

/// Makes the requested repairs of a locked image, and saves the resulting image.
fn repair_store<'a, R: Host, S: Store>(
    rt: &R,
    store: &mut S,
    words: &Words<'a>,
    kinds: Repairs,
    into: &'a str,
) -> Result<Status, Stop<'a>>
    ensures status { IfOk result (λ s. (s ≡ Code.Done) ⊎ ((s ≡ Code.Found) ⊎ (s ≡ Code.Host))) }
    ensures told { words.now.saving.only_tells ≡ true → ImageStays (S.has store.old) (S.has store.new) × GainsNoCopy (S.has_copy store.old) (S.has_copy store.new) }
    // What is saved comes of the requested repairs of the blocks that the image had.
    ensures saved { words.now.saving.only_tells ≡ false → OnOk result (IsMadeAndSaved (MakesRepairs kinds words.now into.entry) words.now.saving.out (S.has store.old) (S.has store.new) (S.has_copy store.new)) }
    // If the run fails, the image has its former blocks, or those that come of the repairs.
    ensures kept { OnErr result (ImageStays (S.has store.old) (S.has store.new) ⊎ IsMadeAndSaved (MakesRepairs kinds words.now into.entry) None (S.has store.old) (S.has store.new) (S.has_copy store.new)) }
{
    let image = read_image(rt, store, words)?;
    let asker = asker_of(rt, words)?;
    let wishes = Wishes {
        path: words.image,
        kinds,
        into,
        stamp: asker.stamp,
    };
    let mut report = Report::new(rt.alloc());
    let image = mend(rt.alloc(), image, &wishes, &mut report)?;
    let finished = save_mended(rt, words, store, &image)?;
    match send(rt, report.text.as_str()) {
        Ok(_) => Ok(status_of(finished).or(status_left(&report))),
        Err(stop) => Err(unsent(finished, stop)),
    }
}

/// Saves the image that comes of the repairs; with `-n` nothing is saved.
fn save_mended<'a, R: Host, S: Store>(
    rt: &R,
    words: &Words<'a>,
    store: &mut S,
    image: &Image,
) -> Result<Finished, Stop<'a>>
    ensures status { IfOk result EndsSaved }
    ensures told { words.now.saving.only_tells ≡ true → store.new ≡ store.old }
    ensures saved { words.now.saving.only_tells ≡ false → OnOk result (IsSavedIn words.now.saving.out (S.has store.old) (S.has store.new) (S.has_copy store.new) image.now) }
    ensures kept { OnErr result (ImageStays (S.has store.old) (S.has store.new) ⊎ S.has store.new image.now) }
{
    if words.saving.only_tells {
        return Ok(Finished::Told(Status::Done));
    }
    match save_image(rt, words, store, image) {
        Ok(finished) => Ok(finished),
        Err(stop) => Err(stop),
    }
}

/// The end of repairs whose lines cannot be printed: it says so if the image is saved.
fn unsent<'a>(finished: Finished, stop: Stop<'a>) -> Stop<'a> {
    match (finished, stop) {
        (Finished::Saved(_), Stop::Unwritten(why)) => Stop::SavedUnwritten(why),
        (_, stop) => stop,
    }
}

/// The status of repairs: something is found where something stays that was to be repaired.
fn status_left(report: &Report) -> Status
    ensures { result ≡ (if report.now.is_left then Code.Found else Code.Done) }
{
    if report.is_left {
        Status::Found
    } else {
        Status::Done
    }
}
