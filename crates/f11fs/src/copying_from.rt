//! `cp --from`: copies files of another image, which a mount may refuse, into the volume.
ghost use Rattle.std.specs.Prelude.{◌≡◌, ℕ, IfErr, IfOk, OnOk, Some, is_some, slice_get};
ghost use Rattle.fs_reads.specs.Readable.{IsReadableOf};
ghost use Rattle.f11fs.specs.{Changed.IsRefusal, CopiedOver.CopiesBelow, CopiedOver.CopiesOver, CopiedOver.CopiesTreeOver, CopiedOver.copying_said, CopiedOver.reader_for, Given.AreTaken, Given.GivesVolume, Given.Volume, Readings.first_image};
ghost use Rattle.f11fs.specs.declared.early.OtherImage.{OtherImage as AnImage};

use crate::early::Early;
use crate::host::Host;
use crate::putting::placing_for;
use crate::refusing::stop_failed;
use fs_host::Extent;
use fs_reads::{Readable, Stop, VolumeFault, WordFault, readable_of, stop_about};
use fs_words::{FromWords, Words};
use ods_base::{Image, Uic};
use ods_filing::Filing;
use ods_request::{Refusal, Stamp};
use ods_shell::Status;
use ods_upkeep::{CopyFrom, Failure, Why, copy_from, copy_tree_from};
use std::alloc::Global;
use thiserror::Error;

/// Copies files of the volume of another image, as the words specify. Rights on the other volume are checked only if the words specify a user.
pub(crate) fn copy_from_image<'a, R: Host>(
    rt: &R,
    filing: &mut Filing,
    stamp: Stamp,
    words: &Words<'a>,
    how: FromWords<'a>,
    early: &mut Early,
) -> Result<(), Stop<'a>>
    requires { AreTaken (R.gives rt.now) early.old }
    ensures taken { AreTaken (R.gives rt.now) early.new }
    ensures done { OnOk result (CopiesBelow (R.gives rt.now) how.entry.below (is_some words.now.user) how.entry words.now.paths.items stamp filing.old filing.new) }
    ensures refused { IfErr result IsRefusal }
{
    if how.below {
        return copy_tree_over(rt, filing, stamp, words, how, early);
    }
    copy_over(rt, filing, stamp, words, how, early)
}

/// Copies the files that the words but the last find on the volume of another image to the last one. Why a mount refuses that image is said, and where
/// INDEXF.SYS has a whole chain there its files with whole chains are copied. Refused, some may be copied.
fn copy_over<'a, R: Host>(
    rt: &R,
    filing: &mut Filing,
    stamp: Stamp,
    words: &Words<'a>,
    how: FromWords<'a>,
    early: &mut Early,
) -> Result<(), Stop<'a>>
    requires { AreTaken (R.gives rt.now) early.old }
    ensures taken { AreTaken (R.gives rt.now) early.new }
    ensures done { OnOk result (CopiesOver (R.gives rt.now) (is_some words.now.user) how.entry words.now.paths.items stamp filing.old filing.new) }
    ensures refused { IfErr result IsRefusal }
{
    let Some((to, paths)) = words.paths.as_slice().split_last() else {
        return Err(Stop::Lines(String::new(rt.alloc()), Status::Words));
    };
    let opened = open_other(rt, how.from, early)?;
    let user = filing.user();
    let how = how_to_copy(reader_for(words.user.is_some(), user), &how);
    let disk = opened.disk();
    match copy_from(rt.alloc(), filing, &disk, stamp, how, paths, *to) {
        Ok(()) => Ok(()),
        Err(failure) => Err(stop_copied(rt.alloc(), &failure, user)),
    }
}

/// Copies the files in the directory that the first of two words says on the volume of another image, and below it, to the directory of the second
/// word, and below it. Refused, some may be copied.
fn copy_tree_over<'a, R: Host>(
    rt: &R,
    filing: &mut Filing,
    stamp: Stamp,
    words: &Words<'a>,
    how: FromWords<'a>,
    early: &mut Early,
) -> Result<(), Stop<'a>>
    requires { AreTaken (R.gives rt.now) early.old }
    ensures taken { AreTaken (R.gives rt.now) early.new }
    ensures done { OnOk result (CopiesTreeOver (R.gives rt.now) (is_some words.now.user) how.entry words.now.paths.items stamp filing.old filing.new) }
    ensures refused { IfErr result IsRefusal }
{
    let Some((to, paths)) = words.paths.as_slice().split_last() else {
        return Err(Stop::Lines(String::new(rt.alloc()), Status::Words));
    };
    let Some((path, others)) = paths.split_first() else {
        return Err(Stop::Lines(String::new(rt.alloc()), Status::Words));
    };
    if others.len() > 0 {
        return Err(Stop::Word(*path, WordFault::OneDirectory));
    }
    let opened = open_other(rt, how.from, early)?;
    let user = filing.user();
    let how = how_to_copy(reader_for(words.user.is_some(), user), &how);
    let disk = opened.disk();
    match copy_tree_from(rt.alloc(), filing, &disk, stamp, how, *path, *to) {
        Ok(()) => Ok(()),
        Err(failure) => Err(stop_copied(rt.alloc(), &failure, user)),
    }
}

/// The volume of the other image.
fn open_other<'a, R: Host>(rt: &R, image: &'a str, early: &mut Early) -> Result<Readable, Stop<'a>>
    requires { AreTaken (R.gives rt.now) early.old }
    ensures taken { AreTaken (R.gives rt.now) early.new }
    ensures given { IfOk result (λ volume. GivesVolume (R.gives rt.now) image.entry.now volume.image volume.layout) }
    // What was read early is copied from.
    ensures early { (place : ℕ) (one : AnImage) → first_image image.entry.now early.old.images.items ≡ Some place → slice_get early.old.images.items place ≡ Some one → IfOk result (λ volume. IsReadableOf one.opened volume) }
    ensures err { IfErr result IsRefusal }
{
    let opened = taken_or_opened(rt, image, early);
    readable_of(rt, image, opened, false)
}

/// The other image, if it was read early; otherwise it is read now.
fn taken_or_opened<R: Host>(
    rt: &R,
    path: &str,
    early: &mut Early,
) -> Result<(Image, Option<Extent>), VolumeFault>
    requires { AreTaken (R.gives rt.now) early.old }
    ensures taken { AreTaken (R.gives rt.now) early.new }
    ensures given { IfOk result (λ opened. R.gives rt.now path.now (Volume opened.0)) }
    ensures early { (place : ℕ) (one : AnImage) → first_image path.now early.old.images.items ≡ Some place → slice_get early.old.images.items place ≡ Some one → result ≡ one.opened }
{
    match early.take_image(path) {
        Some(opened) => opened,
        None => rt.volume_of(path),
    }
}

/// Whose rights are checked on the other volume: those of the user in force, if the words specify one. Otherwise it is read without rights.
fn reader_for(is_said: bool, user: Uic) -> Option<Uic>
    ensures { result ≡ reader_for is_said user }
{
    if is_said { Some(user) } else { None }
}

/// How files are copied, by what the words say.
fn how_to_copy(reader: Option<Uic>, how: &FromWords<'_>) -> CopyFrom
    ensures { result ≡ copying_said reader how.now }
{
    let placing = match how.contiguous {
        Some(contiguous) => Some(placing_for(contiguous)),
        None => None,
    };
    CopyFrom {
        reader,
        placing,
        next: how.next,
        owners: how.owners,
    }
}

/// Why rights forbid a copy, with the user in force.
#[derive(Clone, Copy, Debug, PartialEq, Eq, Error)]
enum Denied {
    /// A user whose group is above 10 octal.
    #[error("Denied: the protection of the file denies this access to [{group:o},{member:o}]; act as its owner, or as a system user with -u [1,1]", group = .0.group, member = .0.member)]
    User(Uic),
    /// A system user.
    #[error("Denied: the protection of the file denies this access to [{group:o},{member:o}]; act as its owner, or change the protection with 'chmod'", group = .0.group, member = .0.member)]
    System(Uic),
}

/// The greatest group of a system user, 10 octal.
const SYSTEM: u8 = 8;

/// Returns why rights forbid a copy to this user.
fn why_denied(user: Uic) -> Denied {
    if user.group <= SYSTEM {
        Denied::System(user)
    } else {
        Denied::User(user)
    }
}

/// Returns the end of a command whose copy is refused. Where rights forbid it, the line names the user in force.
#[tactic(auto, using(crate::proofs::Refusals::is_refusal))]
fn stop_copied<'a>(alloc: Global, failure: &Failure, user: Uic) -> Stop<'a>
    ensures { IsRefusal result }
{
    if failure.why == Why::Request(Refusal::Denied) {
        return stop_about(
            alloc,
            failure.path.as_str(),
            why_denied(user),
            failure.status(),
        );
    }
    stop_failed(alloc, failure)
}
