//! The commands that read a volume, sound or not, and leave it unchanged; and `df`, which requires a sound volume.
ghost use Rattle.std.specs.Prelude.{string_bytes};
ghost use Rattle.fs_reads.specs.Shown.{Extends};
ghost use Rattle.ods_space.specs.Files.{FindsFiles};
ghost use Rattle.ods_space.specs.Disks.{on};

use crate::closed::closed_to;
use crate::comparing::compare_all;
use crate::deleted::push_deleted;
use crate::finding::{push_paths, push_usage};
use crate::getting::get;
use crate::getting_deleted::get_deleted;
use crate::getting_tree::get_tree;
use crate::listing::push_listings;
use crate::near::stop_nothing;
use crate::printing::cat;
use crate::progress::Progress;
use crate::showing::push_stats;
use crate::stop::{Stop, send, stop_at_own_output};
use crate::targets::HostTargets;
use crate::tarring::tar;
use fs_host::HostZone;
use fs_words::{Action, Words};
use ods_mount::Mounted;
use ods_shell::{Columns, PathFault, Status, space_lines, space_object, space_of};
use ods_space::Disk;
use std::alloc::Global;
use std::fs::File;
use std::rt::{Env, Files};
use std::time::Clock;

/// Runs a command on a volume.
/// No clause covers what it prints and writes; `tests/fs` checks that on the built program.
pub fn obey<'a, R: Files<File = File> + Clock + Env + AllocGlobal + Print + Eprint + Clone + Drop>(
    rt: &R,
    disk: &Disk<'_>,
    words: &Words<'a>,
    progress: &mut Progress,
) -> Result<Status, Stop<'a>>
    requires { on FindsFiles disk.now }
{
    stop_at_own_output(rt, words.image)?;
    match run(rt, disk, words, progress) {
        Err(Stop::Path(path, PathFault::Nothing)) => {
            let closed = closed_to(rt.alloc(), disk, words.user)?;
            Err(stop_nothing(rt.alloc(), disk, path, &closed))
        }
        done => done,
    }
}

/// Runs a command on a volume.
fn run<'a, R: Files<File = File> + Clock + Env + AllocGlobal + Print + Eprint + Clone + Drop>(
    rt: &R,
    disk: &Disk<'_>,
    words: &Words<'a>,
    progress: &mut Progress,
) -> Result<Status, Stop<'a>>
    requires { on FindsFiles disk.now }
{
    match words.action {
        Action::Cat(wanted) => cat(rt, disk, words, wanted),
        Action::Get {
            wanted,
            target,
            below,
            deleted,
            partial,
            dated,
        } => {
            let zone = HostZone::read_where(rt, dated);
            let zone = zone.as_ref();
            let mut targets = HostTargets { rt };
            if deleted {
                get_deleted(
                    rt,
                    &mut targets,
                    disk,
                    words,
                    target,
                    wanted,
                    partial,
                    zone,
                    progress,
                )
            } else if below {
                get_tree(
                    rt,
                    &mut targets,
                    disk,
                    words,
                    target,
                    wanted,
                    zone,
                    progress,
                )
            } else {
                get(
                    rt,
                    &mut targets,
                    disk,
                    words,
                    target,
                    wanted,
                    partial,
                    zone,
                    progress,
                )
            }
        }
        Action::Cmp { all } => compare_all(rt, disk, words, all, progress),
        Action::Tar { text } => tar(rt, disk, words, text),
        _ => {
            let mut text = String::new(rt.alloc());
            let done = push_shown(rt.alloc(), disk, words, &mut text);
            send(rt, text.as_str())?;
            done?;
            Ok(Status::Done)
        }
    }
}

/// Appends what a command shows that only looks at a volume. What was appended before an end is still shown.
#[tactic(auto, using(crate::proofs::Growing::extends_pushed, crate::proofs::Growing::extends_on, crate::proofs::Growing::extends_same))]
fn push_shown<'a>(
    alloc: Global,
    disk: &Disk<'_>,
    words: &Words<'a>,
    text: &mut String,
) -> Result<(), Stop<'a>>
    requires { on FindsFiles disk.now }
    ensures { Extends (string_bytes text.old) (string_bytes text.new) }
{
    match words.action {
        Action::Ls { long, ids, below } => {
            let columns = Columns {
                long,
                ids,
                headings: below,
                empty: false,
            };
            push_listings(alloc, disk, words, columns, below, text)
        }
        Action::Find {
            lost: _,
            deleted: true,
            long,
        } => push_deleted(alloc, disk, words, long, text),
        Action::Find {
            lost,
            deleted: false,
            long: _,
        } => push_paths(alloc, disk, words, lost, text),
        Action::Stat => push_stats(alloc, disk, words, text),
        Action::Du { top } => Ok(push_usage(alloc, disk, top, words, text)?),
        // These write as they go on, want a sound volume, or have no volume that is there and stays.
        Action::Cat(_)
        | Action::Df
        | Action::Get { .. }
        | Action::Tar { .. }
        | Action::Cmp { .. }
        | Action::Info
        | Action::Check { .. }
        | Action::Rescue { .. }
        | Action::Repair { .. }
        | Action::Change(_)
        | Action::Init { .. }
        | Action::Convert { .. }
        | Action::Commands { .. } => Ok(()),
    }
}

/// `df`: prints how much of a sound volume is used.
/// No clause covers what it prints; `tests/fs` checks that on the built program.
pub fn show_space<'a, R: Files<File = File> + AllocGlobal + Print>(
    rt: &R,
    volume: &Mounted,
    words: &Words<'a>,
) -> Result<Status, Stop<'a>> {
    stop_at_own_output(rt, words.image)?;
    let space = space_of(volume);
    let lines = if words.json {
        space_object(rt.alloc(), &space)?
    } else {
        space_lines(rt.alloc(), &space)?
    };
    send(rt, lines.as_str())
}
