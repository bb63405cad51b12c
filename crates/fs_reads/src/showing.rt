//! `stat`: the facts of files.
ghost use Rattle.std.specs.Prelude.{ℕ, List, ◌⊎◌, IfErr, IfOk, string_bytes};
ghost use Rattle.ods_shell.specs.declared.status.Status.{Status as Code};
ghost use Rattle.ods_shell.specs.Ways.{CountAsClosed};
ghost use Rattle.fs_reads.specs.{Ends.EndsPath, Ends.StopsWith, Named.AreOfPath, Shown.Extends};
ghost use Rattle.ods_space.specs.Files.{FindsFiles};
ghost use Rattle.ods_space.specs.Disks.{on};

use crate::closed::{closed_to, stop_at_closed};
use crate::stop::{Stop, stop_about, stop_twins};
use fs_words::Words;
use ods_shell::{
    Alone, Directory, FormFault, Found, PathFault, Status, Unsaid, find_path, have_twins,
    stat_lines, stat_object,
};
use ods_space::{Disk, reach_blocks};
use std::alloc::Global;

/// Appends the output of `stat`.
#[tactic(auto, using(crate::proofs::Growing::extends_pushed, crate::proofs::Growing::extends_on, crate::proofs::Growing::extends_same))]
pub(crate) fn push_stats<'a>(
    alloc: Global,
    disk: &Disk<'_>,
    words: &Words<'a>,
    text: &mut String,
) -> Result<(), Stop<'a>>
    requires { on FindsFiles disk.now }
    ensures { Extends (string_bytes text.old) (string_bytes text.new) }
{
    let closed = closed_to(alloc, disk, words.user)?;
    for path in &words.paths {
        let (all, met) = found_at(alloc, disk, *path, &closed)?;
        for found in &all {
            push_stat(alloc, disk, found, words.json, text)?;
        }
        stop_at_closed(alloc, &met, words.user)?;
    }
    Ok(())
}

/// What a path names, and the closed directories on the way; the highest version where the path says none, and directories alone themselves.
fn found_at<'a>(
    alloc: Global,
    disk: &Disk<'_>,
    path: &'a str,
    closed: &[u16],
) -> Result<(Vec<Found>, Vec<Directory>), Stop<'a>>
    requires { on FindsFiles disk.now }
    ensures ok { IfOk result (λ r. (shut : List ℕ) → CountAsClosed closed.now r.1.items shut
        → on AreOfPath disk.now Alone.Themselves shut path.entry.now r.0.items) }
    ensures err { IfErr result (λ stop. EndsPath path.entry stop ⊎ StopsWith stop Code.Refused) }
{
    match find_path(
        alloc,
        disk,
        path,
        Unsaid::highest(Alone::Themselves),
        closed,
    ) {
        Ok((all, met)) => {
            if have_twins(&all) {
                return Err(stop_twins(alloc, path));
            }
            Ok((all, met))
        }
        Err(PathFault::NoMemory) => Err(Stop::NoMemory),
        Err(fault) => Err(Stop::Path(path, fault)),
    }
}

/// Appends what `stat` shows of one file.
#[tactic(auto, using(crate::proofs::Growing::extends_pushed, crate::proofs::Growing::extends_on, crate::proofs::Growing::extends_same))]
fn push_stat<'a>(
    alloc: Global,
    disk: &Disk<'_>,
    found: &Found,
    json: bool,
    text: &mut String,
) -> Result<(), Stop<'a>>
    requires { on FindsFiles disk.now }
    ensures { Extends (string_bytes text.old) (string_bytes text.new) }
{
    let path = found.path.as_str();
    let Some(facts) = &found.facts else {
        return Err(stop_about(alloc, path, FormFault::NoSuchFile, Status::Refused));
    };
    if json {
        let object = stat_object(alloc, path, facts)?;
        text.push_str(object.as_str())?;
        return Ok(());
    }
    let Some(reached) = reach_blocks(alloc, disk, facts.file.number)? else {
        return Err(stop_about(alloc, path, FormFault::NoSuchFile, Status::Refused));
    };
    let lines = stat_lines(alloc, path, facts, &reached.blocks)?;
    text.push_str(lines.as_str())?;
    Ok(())
}
