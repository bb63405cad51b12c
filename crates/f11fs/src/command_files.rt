//! Commands in a file of the host, one per line. They run in order on the volume in memory, and then the image is saved, once.
ghost use Rattle.std.specs.Prelude.{◌≡◌, ◌≤◌, ◌⊎◌, ◌&&◌, ◌||◌, ℕ, true, false, None, codes, IfErr, IfOk, IsTrue, IsUtf8, MatchOption, OnErr, OnOk, length, not, unwrap_or, vec_len};
ghost use Rattle.std.specs.{List.list_any, Str.Lines.lines, Str.bytes_eq};
ghost use Rattle.fs_host.specs.Faults.{is_reason};
ghost use Rattle.fs_reads.specs.declared.stop.Stop.{Stop as End};
ghost use Rattle.f11fs.specs.{Stores.GainsNoCopy, Stores.ImageStays, Stores.IsMadeAndSaved, Stores.MakesLines, Looks.IsAsOuter, Changed.AreAllDone, Changed.AreLinesEnded, Changed.AsksChange, Changed.IsChange, Changed.IsChanged, Changed.IsDoneBy, Changed.IsDoneNow, Changed.IsLineDone, Changed.is_refused, Given.AreTaken, Readings.IsUnread, Readings.behind_mark, Readings.reads_commands, Readings.takes_input, Readings.untars_input};
ghost use Rattle.ods_shell.specs.declared.status.Status.{Status as Code};

use crate::changing::{
    Asker, Finished, asker_of, change_volume, finish, kept_before, lock_image, read_volume,
};
use crate::early::Early;
use crate::host::Host;
use crate::lines::{say_bad_line, say_bad_words, say_no_memory, say_wrong};
use crate::looking::{look_all, only_look};
use crate::store::Store;
use crate::version::VERSION;
use fs_host::{Collecting, HostFault, Noting, most_printed};
use fs_reads::{
    Progress, Stop, WordFault, check_image, info_image, obey, say_end, show_space,
    stop_at_own_output,
};
use fs_words::{Action, Change, Words, line_words, parse_line};
use ods_base::write_bytes;
use ods_filing::Filing;
use ods_mount::Mounted;
use ods_request::Stamp;
use ods_shell::Status;
use std::cell::RefCell;
use std::fs::File;
use std::io;
use std::io::Input;
use std::rt::Files;

/// The most bytes of a file of commands.
const MOST: u64 = 1_048_576;

/// The message for a command that a file of commands may not contain.
pub const NO_COMMAND: &str = "error: a file of commands cannot have this command";

/// The message for a line with an option that specifies how the image is saved.
pub const SAVED_BEFORE: &str = "error: -o, --backup, --break-links and -n must be before IMAGE";

/// Runs the commands in this file. A refusal ends the run, and nothing is saved. With `keep_going` the run goes on, and the refused command has done
/// nothing.
#[tactic(auto, using(crate::proofs::Taking::none_taken))]
pub fn obey_file<'a, R: Host>(
    rt: &R,
    words: &Words<'a>,
    file: &'a str,
    keep_going: bool,
) -> Result<Status, Stop<'a>> {
    stop_at_own_output(rt, words.image)?;
    let bytes = commands_in(rt, file)?;
    let Some(text) = commands_text(bytes.as_slice()) else {
        return Err(Stop::Word(file, WordFault::NoText));
    };
    if words.saving.out.is_none() && only_look(rt.alloc(), words.image, text)? {
        return look_all(rt, words, file, keep_going, text);
    }
    let mut early = Early::of(rt, words.image);
    read_early(rt, words, text, &mut early)?;
    let mut store = lock_image(rt, words)?;
    let printed = RefCell::new(Vec::new(rt.alloc()));
    let saved = save_lines(
        rt, &mut store, words, file, keep_going, text, &mut early, &printed,
    );
    let written = write_printed(rt, printed.into_inner().as_slice());
    match (saved?, written) {
        ((status, None), _) => Ok(status),
        ((status, Some(Finished::Told(later) | Finished::Saved(later))), Ok(())) => {
            Ok(status.or(later))
        }
        ((_, Some(Finished::Told(_))), Err(why)) => Err(Stop::Unwritten(why)),
        ((_, Some(Finished::Saved(_))), Err(why)) => Err(Stop::SavedUnwritten(why)),
    }
}

/// Runs the commands of this text on a locked image, and saves the result. Returns the status of the lines. If a line ends the run, nothing is saved.
fn save_lines<'a, R: Host, S: Store>(
    rt: &R,
    store: &mut S,
    words: &Words<'a>,
    file: &'a str,
    keep_going: bool,
    text: &str,
    early: &mut Early,
    printed: &RefCell<Vec<u8>>,
) -> Result<(Status, Option<Finished>), Stop<'a>>
    requires { AreTaken (R.gives rt.now) early.old }
    ensures told { words.now.saving.only_tells ≡ true → ImageStays (S.has store.old) (S.has store.new) × GainsNoCopy (S.has_copy store.old) (S.has_copy store.new) }
    // What is saved is what all lines make of the blocks that the image had.
    ensures saved { words.now.saving.only_tells ≡ false → IfOk result (λ ended. MatchOption ended.1 (ImageStays (S.has store.old) (S.has store.new) × GainsNoCopy (S.has_copy store.old) (S.has_copy store.new))
        (λ _. IsMadeAndSaved (MakesLines (R.gives rt.now) keep_going words.now text.now) words.now.saving.out (S.has store.old) (S.has store.new) (S.has_copy store.new))) }
    // If the run fails, the image has its former blocks, or those that all lines make.
    ensures kept { OnErr result (ImageStays (S.has store.old) (S.has store.new) ⊎ IsMadeAndSaved (MakesLines (R.gives rt.now) keep_going words.now text.now) None (S.has store.old) (S.has store.new) (S.has_copy store.new)) }
{
    let volume = read_volume(rt, store, words, keep_going)?;
    let asker = asker_of(rt, words)?;
    let before = kept_before(words, &volume)?;
    let run = Run {
        asker,
        outer: words,
        file,
        keep_going,
        behind: store.behind().len() as u64,
        most: most_printed(volume.image().len()),
    };
    let (status, done) = obey_text(rt, &run, printed, volume, text, early)?;
    let Some(filing) = done else {
        return Ok((status, None));
    };
    let finished = finish(rt, words, store, &before, filing.mounted())?;
    Ok((status, Some(finished)))
}

/// What is the same for each line of a run.
#[derive(Clone, Copy)]
struct Run<'r, 'a> {
    /// The requesting user and the time of new files, for lines without their own.
    asker: Asker,
    /// The words of the run.
    outer: &'r Words<'a>,
    file: &'a str,
    keep_going: bool,
    /// How many bytes come past the volume.
    behind: u64,
    /// How many bytes the commands may print.
    most: usize,
}

/// The bytes of a file of commands, or of standard input.
fn commands_in<'a, R: Host>(rt: &R, file: &'a str) -> Result<Vec<u8>, Stop<'a>>
    ensures few { IfOk result (λ bytes. vec_len bytes ≤ MOST) }
    ensures err { IfErr result (λ stop. (stop ≡ End.Word file.entry (WordFault.ManyBytes MOST)) ⊎ IsUnread file.entry stop) }
{
    match rt.bytes_of(file, MOST) {
        Ok(bytes) => Ok(bytes),
        Err(HostFault::TooLarge) => Err(Stop::Word(file, WordFault::ManyBytes(MOST))),
        Err(fault) => Err(Stop::Word(file, WordFault::Unread(fault))),
    }
}

/// The text of a file of commands, without a byte order mark at its front; None where its bytes are no UTF-8 text.
fn commands_text(bytes: &[u8]) -> Option<&str>
    ensures { MatchOption result (¬ IsUtf8 bytes.now) (λ text. text.now ≡ behind_mark bytes.now) }
{
    match str::from_utf8(bytes) {
        Ok(text) => Some(without_mark(text)),
        Err(_) => None,
    }
}

/// A text without the byte order mark at its front.
fn without_mark(text: &str) -> &str
    ensures { result.now ≡ behind_mark text.now }
{
    match text.strip_prefix("\u{feff}") {
        Some(rest) => rest,
        None => text,
    }
}

/// Reads the pipes and devices that the lines put. A line with a fault is passed over here: it is said when its turn comes.
fn read_early<'a, R: Host>(
    rt: &R,
    outer: &Words<'_>,
    text: &str,
    early: &mut Early,
) -> Result<(), Stop<'a>>
    requires { AreTaken (R.gives rt.now) early.old }
    ensures { OnOk result (AreTaken (R.gives rt.now) early.new) }
{
    for line in text.lines() {
        read_line_early(rt, outer, line, early)?;
    }
    Ok(())
}

/// Reads the pipes and devices that a line puts.
fn read_line_early<'a, R: Host>(
    rt: &R,
    outer: &Words<'_>,
    line: &str,
    early: &mut Early,
) -> Result<(), Stop<'a>>
    requires { AreTaken (R.gives rt.now) early.old }
    ensures { OnOk result (AreTaken (R.gives rt.now) early.new) }
{
    let words = match line_words(rt.alloc(), line) {
        Ok(words) => words,
        Err(_) => return Ok(()),
    };
    match parse_line(rt.alloc(), outer.image, words.as_slice(), VERSION) {
        Ok(Some(own)) => {
            if reads_input(outer, &own) {
                return Ok(());
            }
            early.read_words(rt, &own)
        }
        Ok(None) | Err(_) => Ok(()),
    }
}

/// What the lines of a text make of a volume, which is to be saved, with the status of the run; no volume where a line ended the run.
fn obey_text<'a, R: Host>(
    rt: &R,
    run: &Run<'_, '_>,
    printed: &RefCell<Vec<u8>>,
    volume: Mounted,
    text: &str,
    early: &mut Early,
) -> Result<(Status, Option<Filing>), Stop<'a>>
    requires { AreTaken (R.gives rt.now) early.old }
    ensures { IfOk result (λ done. MatchOption done.1
        (AreLinesEnded (R.gives rt.now) run.now.outer.now.image run.now.asker.stamp run.now.asker.user run.now.keep_going (lines text.now) done.0 (record { image = volume.image; layout = volume.layout; user = run.now.asker.user }))
        (AreAllDone (R.gives rt.now) run.now.outer.now.image run.now.asker.stamp run.now.asker.user run.now.keep_going (lines text.now) done.0 (record { image = volume.image; layout = volume.layout; user = run.now.asker.user }))) }
{
    let mut filing = Filing::new(rt.alloc(), volume, run.asker.user)?;
    let (status, goes_on) = obey_lines(rt, run, printed, &mut filing, text, early);
    if goes_on {
        Ok((status, Some(filing)))
    } else {
        Ok((status, None))
    }
}

/// Obeys the lines, and gives how they ended, and whether the run goes on: it does not behind a refusal, unless the words say so and the refused
/// line has done nothing.
fn obey_lines<R: Host>(
    rt: &R,
    run: &Run<'_, '_>,
    printed: &RefCell<Vec<u8>>,
    filing: &mut Filing,
    text: &str,
    early: &mut Early,
) -> (Status, bool)
    requires { AreTaken (R.gives rt.now) early.old }
    // Where the run goes on, each line has left the volume as it was, or has made the change whole that its words ask for. The status is that of the
    // first line that is not done.
    ensures done { result.1 ≡ true → AreAllDone (R.gives rt.now) run.now.outer.now.image run.now.asker.stamp run.now.asker.user run.now.keep_going (lines text.now) result.0 filing.old filing.new }
    // Where it does not, the status is that of the line that ended it.
    ensures ended { result.1 ≡ false → AreLinesEnded (R.gives rt.now) run.now.outer.now.image run.now.asker.stamp run.now.asker.user run.now.keep_going (lines text.now) result.0 filing.old }
{
    let mut status = Status::Done;
    let mut number = 0usize;
    for line in text.lines() {
        number = number.saturating_add(1);
        let one = Collecting {
            rt,
            printed,
            most: run.most,
            file: run.file,
            line: number,
        };
        let (done, stands) = obey_line(&one, filing, run, line, early);
        status = status.or(done);
        if ends_run(done, stands, run.keep_going) {
            return (done, false);
        }
    }
    (status, true)
}

/// Returns whether a line ends the run. It does if it has changed the volume in part, or if it is refused and the run does not go on after a refusal.
pub fn ends_run(done: Status, stands: bool, goes_on: bool) -> bool
    ensures { result ≡ (not stands || (is_refused done && not goes_on)) }
{
    !stands || (is_refused(done) && !goes_on)
}

/// Whether a command is refused that ends with this status.
fn is_refused(done: Status) -> bool
    ensures { result ≡ is_refused done }
{
    !matches!(done, Status::Done | Status::Found)
}

/// Writes what the commands printed.
pub fn write_printed<R: Print>(rt: &R, printed: &[u8]) -> Result<(), HostFault>
    ensures { IfErr result (λ why. IsTrue (is_reason why)) }
{
    let mut output = io::writer(rt);
    let mut noting = Noting::new(&mut output);
    match write_bytes(&mut noting, printed) {
        Ok(()) => Ok(()),
        Err(_) => Err(noting.why()),
    }
}

/// Obeys the command in a line, and gives how it ended, and whether the volume stands: it does not where a change was made in part.
fn obey_line<R: Host>(
    rt: &R,
    filing: &mut Filing,
    run: &Run<'_, '_>,
    line: &str,
    early: &mut Early,
) -> (Status, bool)
    requires { AreTaken (R.gives rt.now) early.old }
    ensures taken { AreTaken (R.gives rt.now) early.new }
    ensures done { result.1 ≡ true → IsLineDone (R.gives rt.now) run.now.outer.now.image run.now.asker.stamp run.now.asker.user line.now result.0 filing.old filing.new }
    ensures ended { result.1 ≡ false → AsksChange run.now.outer.now.image line.now }
    ensures refused { result.1 ≡ false → is_refused result.0 ≡ true }
{
    let words = match line_words(rt.alloc(), line) {
        Ok(words) => words,
        Err(fault) => return (say_bad_line(rt, fault), true),
    };
    match parse_line(rt.alloc(), run.outer.image, words.as_slice(), VERSION) {
        Ok(Some(own)) => obey_words(rt, filing, run, own, early),
        Ok(None) => (Status::Done, true),
        Err(fault) => (say_bad_words(rt, fault), true),
    }
}

/// Whether a command wants the standard input that has the commands.
fn reads_input(outer: &Words<'_>, own: &Words<'_>) -> bool
    ensures { result ≡ (reads_commands outer.now.action && takes_input own.now.action own.now.paths.items) }
{
    is_from_input(&outer.action) && takes_input(own.action, own.paths.as_slice())
}

/// Whether a command of these words reads standard input.
fn takes_input(action: Action<'_>, paths: &[&str]) -> bool
    ensures { result ≡ takes_input action.entry paths.now }
{
    name_input(paths) || untars_input(action, paths)
}

/// Whether it is an `untar` without words.
fn untars_input(action: Action<'_>, paths: &[&str]) -> bool
    ensures { result ≡ untars_input action.entry paths.now }
{
    match action {
        Action::Change(Change::Untar) => paths.is_empty(),
        _ => false,
    }
}

/// Whether one of these paths is that of standard input.
fn name_input(paths: &[&str]) -> bool
    ensures { result ≡ list_any (λ path. bytes_eq path.now (codes "-")) paths.now }
{
    paths.iter().any(|path| *path == "-")
}

/// Whether the commands come from standard input.
fn is_from_input(action: &Action<'_>) -> bool
    ensures { result ≡ reads_commands action.now }
{
    match action {
        Action::Commands { file, .. } => *file == "-",
        _ => false,
    }
}

/// Obeys a command. What its line does not say of users, stamps and forms is as in the words of the run.
fn obey_words<R: Host>(
    rt: &R,
    filing: &mut Filing,
    run: &Run<'_, '_>,
    own: Words<'_>,
    early: &mut Early,
) -> (Status, bool)
    requires { AreTaken (R.gives rt.now) early.old }
    ensures taken { AreTaken (R.gives rt.now) early.new }
    // Where the volume stands it is as it was, or the change of the command is made whole.
    ensures done { result.1 ≡ true → IsDoneBy (R.gives rt.now) own.entry.action own.entry.paths.items (unwrap_or own.entry.stamp run.now.asker.stamp) (unwrap_or own.entry.user run.now.asker.user) result.0 filing.old filing.new }
    ensures ended { result.1 ≡ false → IsChange own.entry.action }
    ensures refused { result.1 ≡ false → is_refused result.0 ≡ true }
{
    if !own.saving.says_nothing() {
        return (say_wrong(rt, SAVED_BEFORE), true);
    }
    filing.set_user(own.user.unwrap_or(run.asker.user));
    let stamp = own.stamp.unwrap_or(run.asker.stamp);
    obey_action(rt, filing, run, stamp, &as_outer(own, run.outer), early)
}

/// Returns the words of a line completed from the words of the run. It takes their user if it has none, and `--force`, `--json` and `-q` if either
/// has them. `-n` is taken from the run.
pub fn as_outer<'a>(own: Words<'a>, outer: &Words<'_>) -> Words<'a>
    ensures { IsAsOuter own.entry outer.now result }
{
    let mut own = own;
    own.user = own.user.or(outer.user);
    own.force |= outer.force;
    own.json |= outer.json;
    own.quiet |= outer.quiet;
    own.saving.only_tells = outer.saving.only_tells;
    own
}

/// Obeys a command for the user of the filing, with this stamp for new files.
#[tactic(auto, using(crate::proofs::Leading::changed_now, crate::proofs::Leading::kept_now, crate::proofs::Refusals::refused_status))]
fn obey_action<R: Host>(
    rt: &R,
    filing: &mut Filing,
    run: &Run<'_, '_>,
    stamp: Stamp,
    own: &Words<'_>,
    early: &mut Early,
) -> (Status, bool)
    requires { AreTaken (R.gives rt.now) early.old }
    ensures taken { AreTaken (R.gives rt.now) early.new }
    ensures done { result.1 ≡ true → IsDoneNow (R.gives rt.now) own.now.action own.now.paths.items stamp result.0 filing.old filing.new }
    ensures ended { result.1 ≡ false → IsChange own.now.action }
    ensures refused { result.1 ≡ false → is_refused result.0 ≡ true }
{
    match own.action {
        Action::Change(Change::Put(_) | Change::Append | Change::Untar)
            if reads_input(run.outer, own) => {
            (
                say_wrong(
                    rt,
                    "error: standard input has the commands; name a file instead",
                ),
                true,
            )
        }
        Action::Change(change) if run.keep_going => {
            change_or_keep(rt, filing, stamp, own, change, early)
        }
        Action::Change(change) => match change_volume(rt, filing, stamp, own, change, early) {
            Ok(()) => (Status::Done, true),
            Err(stop) => (say_end(rt, Err(stop)), false),
        },
        Action::Check { all } => {
            let done = check_image(rt, filing.mounted().image(), all, own.json);
            (say_end(rt, done), true)
        }
        Action::Info => {
            let image = filing.mounted().image();
            let done = info_image(rt, run.outer.image, image, run.behind, own.json);
            (say_end(rt, done), true)
        }
        Action::Df => (say_end(rt, show_space(rt, filing.mounted(), own)), true),
        Action::Commands { .. }
        | Action::Init { .. }
        | Action::Convert { .. }
        | Action::Rescue { .. }
        | Action::Repair { .. } => (say_wrong(rt, NO_COMMAND), true),
        _ => {
            let disk = filing.mounted().disk();
            let done = obey(rt, &disk, own, &mut Progress::none());
            (say_end(rt, done), true)
        }
    }
}

/// Makes a change; refused, it has done nothing. The copy of the volume that is kept for that shares its blocks.
#[tactic(auto, using(crate::proofs::Refusals::refused_status))]
fn change_or_keep<'a, R: Host>(
    rt: &R,
    filing: &mut Filing,
    stamp: Stamp,
    words: &Words<'a>,
    change: Change<'a>,
    early: &mut Early,
) -> (Status, bool)
    requires { AreTaken (R.gives rt.now) early.old }
    ensures taken { AreTaken (R.gives rt.now) early.new }
    // Where the volume stands, the change is made, or it is refused and nothing is.
    ensures done { result.1 ≡ true → ((result.0 ≡ Code.Done) × IsChanged (R.gives rt.now) change.entry words.now.paths.items stamp filing.old filing.new) ⊎ ((is_refused result.0 ≡ true) × (filing.new ≡ filing.old)) }
    ensures refused { result.1 ≡ false → is_refused result.0 ≡ true }
{
    let Ok(kept) = filing.mounted().copy() else {
        return (say_no_memory(rt), true);
    };
    let user = filing.user();
    match change_volume(rt, filing, stamp, words, change, early) {
        Ok(()) => (Status::Done, true),
        Err(stop) => {
            let status = say_end(rt, Err(stop));
            match Filing::new(rt.alloc(), kept, user) {
                Ok(before) => {
                    *filing = before;
                    (status, true)
                }
                Err(_) => (say_no_memory(rt), false),
            }
        }
    }
}
