//! Directories whose names a user may not read.
ghost use Rattle.std.specs.Prelude.{◌≡◌, ◌⊎◌, [], ◌++◌, None, IfErr, IfOk, IfSome, OnOk, MatchBool, string_bytes};
ghost use Rattle.fs_reads.specs.Denied.{AddsClosed, AreClosedTo, IsClosedStatus, IsClosedTo, closed_text, denied_text, user_text};
ghost use Rattle.fs_reads.specs.Ends.{SaysLine, StopsWith};
ghost use Rattle.ods_shell.specs.Texts.{shown_directory};
ghost use Rattle.fs_reads.specs.declared.stop.Stop.{Stop as End};
ghost use Rattle.ods_shell.specs.declared.status.Status.{Status as Code};
ghost use Rattle.ods_space.specs.Files.{FindsFiles};
ghost use Rattle.ods_space.specs.Disks.{on};

use crate::stop::{Stop, say_lines};
use ods_base::Uic;
use ods_request::{Right, permits};
use ods_shell::{Directory, Kind, Status, facts_of, push_directory};
use ods_space::{Disk, last_number};
use std::alloc::{AllocError, Global};

/// Returns the numbers of the directories whose names this user may not read, or none without a user.
pub(crate) fn closed_to(
    alloc: Global,
    disk: &Disk<'_>,
    user: Option<Uic>,
) -> Result<Vec<u16>, AllocError>
    requires { on FindsFiles disk.now }
    ensures { IfOk result (λ closed. on AreClosedTo disk.now user closed.items) }
{
    let mut closed = Vec::new(alloc);
    let Some(user) = user else {
        return Ok(closed);
    };
    for before in 0..last_number(disk.layout) {
        push_closed(disk, before + 1, user, &mut closed)?;
    }
    Ok(closed)
}

/// Adds the number, where it is that of a directory that this user may not read.
fn push_closed(
    disk: &Disk<'_>,
    number: u16,
    user: Uic,
    closed: &mut Vec<u16>,
) -> Result<(), AllocError>
    requires { on FindsFiles disk.now }
    ensures { OnOk result (on AddsClosed disk.now user number closed.old.items closed.new.items) }
{
    if is_closed(disk, number, user) {
        closed.push(number)?;
    }
    Ok(())
}

/// Whether the number is that of a directory that this user may not read.
fn is_closed(disk: &Disk<'_>, number: u16, user: Uic) -> bool
    requires { on FindsFiles disk.now }
    ensures { MatchBool result (on IsClosedTo disk.now user number) (¬ on IsClosedTo disk.now user number) }
{
    match facts_of(disk, number) {
        Some(facts) => {
            facts.kind == Kind::Directory
                && !permits(&user, &facts.owner, facts.protection, Right::Read)
        }
        None => false,
    }
}

/// A line for each of these directories, which this user may not read.
fn closed_lines(alloc: Global, closed: &[Directory], user: Uic) -> Result<String, AllocError>
    ensures { IfOk result (λ lines. string_bytes lines ≡ closed_text user closed.now) }
{
    let mut lines = String::new(alloc);
    for directory in closed {
        push_closed_line(&mut lines, directory, user)?;
    }
    Ok(lines)
}

/// Appends the line of a directory, which this user may not read.
fn push_closed_line(lines: &mut String, directory: &Directory, user: Uic) -> Result<(), AllocError>
    ensures { OnOk result (string_bytes lines.new ≡ string_bytes lines.old ++ shown_directory directory.now.names.items ++ denied_text user) }
{
    push_directory(lines, &directory.names)?;
    push_denied(lines, user)
}

/// Appends what is said of a directory, which this user may not read.
fn push_denied(lines: &mut String, user: Uic) -> Result<(), AllocError>
    ensures { OnOk result (string_bytes lines.new ≡ string_bytes lines.old ++ denied_text user) }
{
    lines.push_str(": denied to ")?;
    push_user(lines, user)?;
    lines.push_str("\n")
}

/// Appends a user, `[g,m]` in octal.
#[tactic(auto, unfolding(crate::specs::Denied::user_text))]
fn push_user(lines: &mut String, user: Uic) -> Result<(), AllocError>
    ensures { OnOk result (string_bytes lines.new ≡ string_bytes lines.old ++ user_text user) }
{
    write!(lines, "[{:o},{:o}]", user.group, user.member)
}

/// Prints for each closed directory that this user may not read it, and returns the status.
pub(crate) fn say_closed<'a, R: AllocGlobal + Eprint>(
    rt: &R,
    closed: &[Directory],
    user: Option<Uic>,
) -> Result<Status, Stop<'a>>
    ensures ok { IfOk result (IsClosedStatus user closed.now) }
    ensures err { IfErr result (λ stop. stop ≡ End.NoMemory) }
{
    let Some(user) = user else {
        return Ok(Status::Done);
    };
    match closed {
        [] => Ok(Status::Done),
        _ => {
            let lines = closed_lines(rt.alloc(), closed, user)?;
            say_lines(rt, lines.as_str());
            Ok(Status::Refused)
        }
    }
}

/// Ends a command that met a closed directory.
pub(crate) fn stop_at_closed<'a>(
    alloc: Global,
    closed: &[Directory],
    user: Option<Uic>,
) -> Result<(), Stop<'a>>
    ensures ok { OnOk result ((user ≡ None) ⊎ (closed.now ≡ [])) }
    ensures err { IfErr result (λ stop. StopsWith stop Code.Refused ⊎ (stop ≡ End.NoMemory)) }
    ensures lines { IfErr result (λ stop. IfSome user (λ who. SaysLine (closed_text who closed.now) stop)) }
{
    let Some(user) = user else {
        return Ok(());
    };
    match closed {
        [] => Ok(()),
        _ => Err(Stop::Lines(closed_lines(alloc, closed, user)?, Status::Refused)),
    }
}

/// Ends a command that requires the names of all directories, if one is closed.
pub(crate) fn stop_at_numbers<'a>(closed: &[u16], user: Option<Uic>) -> Result<(), Stop<'a>>
    ensures ok { OnOk result ((user ≡ None) ⊎ (closed.now ≡ [])) }
    ensures err { IfErr result (λ stop. StopsWith stop Code.Refused) }
{
    let Some(user) = user else {
        return Ok(());
    };
    match closed {
        [] => Ok(()),
        [number, ..] => Err(Stop::Closed(*number, user)),
    }
}
