//! The command that the words request is the one that runs.
ghost use Rattle.std.specs.Prelude.{◌≡◌, ◌⊎◌, ◌&&◌, IfOk, not};
ghost use Rattle.fs_reads.specs.Ends.{StopsWith};
ghost use Rattle.fs_reads.specs.declared.stop.Stop.{Stop as End};
ghost use Rattle.f11fs.specs.Seen.{prints_names};

use crate::host::Host;
use crate::running::Commands;
use fs_reads::{Progress, Stop, say_end};
use fs_words::{Action, Words};
use ods_shell::Status;

/// Which streams are terminals, and therefore seen by people.
#[derive(Clone, Copy)]
pub struct Seen {
    pub errors: bool,
    pub output: bool,
}

/// Runs the requested command, and returns its exit status: the one with which it ended, or the one of the reason for which it stopped.
#[tactic(auto, using(crate::proofs::Refusals::ended))]
pub fn run_command<R: Host, C: Commands>(
    rt: &R,
    commands: &mut C,
    words: &Words<'_>,
    seen: Seen,
) -> Status
    ensures { C.ran commands.new words.now words.now.action result ⊎ ((stop : End) × StopsWith stop result) }
{
    let mut progress = Progress::begin(rt, shows_progress(words, seen));
    let done = obey_action(commands, words, &mut progress);
    // Lines about a file are written over the progress. Any other end comes behind it.
    if let Err(Stop::Lines(_, _)) = &done {
        let status = say_end(rt, done);
        progress.end(rt);
        return status;
    }
    progress.end(rt);
    say_end(rt, done)
}

/// Runs the command that the words request, and returns how it ended.
fn obey_action<'a, C: Commands>(
    commands: &mut C,
    words: &Words<'a>,
    progress: &mut Progress,
) -> Result<Status, Stop<'a>>
    ensures { IfOk result (C.ran commands.new words.now words.now.action) }
{
    match words.action {
        Action::Check { all } => commands.check(words, all),
        Action::Info => commands.info(words),
        Action::Rescue {
            text,
            scan,
            partial,
        } => commands.rescue(words, text, scan, partial, progress),
        Action::Change(change) => commands.change(words, change),
        Action::Repair { kinds, into } => commands.repair(words, kinds, into),
        Action::Init {
            blocks,
            files,
            label,
            order,
        } => commands.init(words, blocks, files, label, order),
        Action::Convert { order, alone } => commands.convert(words, order, alone),
        Action::Commands { file, keep_going } => commands.obey_lines(words, file, keep_going),
        Action::Ls { .. }
        | Action::Find { .. }
        | Action::Stat
        | Action::Cat(_)
        | Action::Get { .. }
        | Action::Tar { .. }
        | Action::Df
        | Action::Du { .. }
        | Action::Cmp { .. } => commands.read(words, progress),
    }
}

/// Whether progress is shown: people see standard error, and the words do not ask for quiet. The names that a rescue prints are its
/// progress where people see these.
fn shows_progress(words: &Words<'_>, seen: Seen) -> bool
    ensures { result ≡ (seen.errors && not words.now.quiet && not (prints_names words.now.action && seen.output)) }
{
    let prints = is_rescue(&words.action);
    seen.errors && !words.quiet && !(prints && seen.output)
}

/// Whether the command is a rescue.
fn is_rescue(action: &Action<'_>) -> bool
    ensures { result ≡ prints_names action.now }
{
    matches!(action, Action::Rescue { .. })
}
