//! Files of commands that only look at a volume: they take no lock, and go on if a mount refuses the volume.
ghost use Rattle.std.specs.Prelude.{◌≡◌, ◌⊎◌, ℕ, List, false, true, IfErr, IfOk, IsTrue};
ghost use Rattle.std.specs.{List.Contains, Str.Lines.lines};
ghost use Rattle.fs_host.specs.Faults.{is_reason};
ghost use Rattle.fs_host.specs.declared.host_fault.HostFault.{HostFault as Why};
ghost use Rattle.fs_reads.specs.declared.stop.Stop.{Stop as End};
ghost use Rattle.fs_reads.specs.declared.volume.VolumeFault.{VolumeFault as Fault};
ghost use Rattle.fs_reads.specs.Volumes.{IsNoVolume};
ghost use Rattle.f11fs.specs.Looks.{IsForMounted, WantsMounted, is_for_mounted};
ghost use Rattle.ods_shell.specs.declared.status.Status.{Status as Code};

use crate::command_files::{NO_COMMAND, SAVED_BEFORE, as_outer, ends_run, write_printed};
use crate::host::Host;
use crate::lines::{say_bad_line, say_bad_words, say_wrong};
use crate::orders::layers_of;
use crate::version::VERSION;
use fs_host::{Collecting, most_printed};
use fs_reads::{Progress, Readable, Stop, check_image, info_image, obey, open_readable, say_end};
use fs_words::{Action, LineFault, Words, WordsFault, line_words, parse_line};
use ods_shell::Status;
use std::alloc::{AllocError, Global};
use std::cell::RefCell;

/// Returns whether these lines only look at the volume of an image. A mount may refuse the volume.
pub fn only_look<'a>(alloc: Global, image: &'a str, text: &str) -> Result<bool, AllocError>
    ensures { IfOk result (λ looks. looks ≡ false → (line : List ℕ) × Contains (lines text.now) line × WantsMounted image.entry line) }
{
    for line in text.lines() {
        if want_mounted(alloc, image, line)? {
            return Ok(false);
        }
    }
    Ok(true)
}

/// Whether the words of a line want a volume that is mounted.
fn want_mounted(alloc: Global, image: &str, line: &str) -> Result<bool, AllocError>
    ensures { IfOk result (λ wants. wants ≡ true → WantsMounted image.entry line.now) }
{
    let words = match line_words(alloc, line) {
        Ok(words) => words,
        Err(LineFault::Open) => return Ok(false),
        Err(LineFault::NoMemory) => return Err(AllocError),
    };
    match parse_line(alloc, image, words.as_slice(), VERSION) {
        Ok(Some(own)) => Ok(is_for_mounted(&own.action)),
        Err(WordsFault::NoMemory) => Err(AllocError),
        Ok(None) | Err(_) => Ok(false),
    }
}

/// Whether a command wants a volume that is mounted: it changes it, or counts its free blocks.
fn is_for_mounted(action: &Action<'_>) -> bool
    ensures { result ≡ is_for_mounted action.now }
{
    matches!(action, Action::Change(_) | Action::Df)
}

/// Runs lines that only look at a volume, and prints their output. A refusal ends the run, unless `keep_going`.
pub fn look_all<'a, R: Host>(
    rt: &R,
    words: &Words<'a>,
    file: &'a str,
    keep_going: bool,
    text: &str,
) -> Result<Status, Stop<'a>>
    ensures { IfErr result (λ stop. ((fault : Fault) × IsNoVolume words.now.image fault stop) ⊎ ((why : Why) × (stop ≡ End.Unwritten why) × IsTrue (is_reason why))) }
{
    let layers = layers_of(words.order);
    let volume = open_readable(rt, words.image, words.blocks, layers, false)?;
    let printed = RefCell::new(Vec::new(rt.alloc()));
    let most = most_printed(volume.disk().image.len());
    let mut status = Status::Done;
    let mut number = 0usize;
    for line in text.lines() {
        number = number.saturating_add(1);
        let one = Collecting {
            rt,
            printed: &printed,
            most,
            file,
            line: number,
        };
        let done = look_line(&one, &volume, words, line);
        status = status.or(done);
        if ends_run(done, true, keep_going) {
            break;
        }
    }
    match write_printed(rt, printed.into_inner().as_slice()) {
        Ok(()) => Ok(volume.ends(status)),
        Err(why) => Err(Stop::Unwritten(why)),
    }
}

/// Obeys the command in a line, and gives how it ended.
fn look_line<R: Host>(rt: &R, volume: &Readable, outer: &Words<'_>, line: &str) -> Status {
    let words = match line_words(rt.alloc(), line) {
        Ok(words) => words,
        Err(fault) => return say_bad_line(rt, fault),
    };
    match parse_line(rt.alloc(), outer.image, words.as_slice(), VERSION) {
        Ok(Some(own)) => look_words(rt, volume, outer, own),
        Ok(None) => Status::Done,
        Err(fault) => say_bad_words(rt, fault),
    }
}

/// Obeys a command that only looks. What its line does not say of users and forms is as in the words of the run.
fn look_words<R: Host>(rt: &R, volume: &Readable, outer: &Words<'_>, own: Words<'_>) -> Status
    ensures { IsForMounted own.entry.action → result ≡ Code.Words }
{
    if !own.saving.says_nothing() {
        return say_wrong(rt, SAVED_BEFORE);
    }
    let own = as_outer(own, outer);
    let image = volume.disk().image;
    match own.action {
        Action::Check { all } => say_end(rt, check_image(rt, image, all, own.json)),
        Action::Info => {
            let done = info_image(rt, outer.image, image, volume.behind(), own.json);
            say_end(rt, done)
        }
        Action::Commands { .. }
        | Action::Init { .. }
        | Action::Convert { .. }
        | Action::Rescue { .. }
        | Action::Repair { .. }
        | Action::Change(_)
        | Action::Df => say_wrong(rt, NO_COMMAND),
        _ => {
            let done = obey(rt, &volume.disk(), &own, &mut Progress::none());
            say_end(rt, done)
        }
    }
}
