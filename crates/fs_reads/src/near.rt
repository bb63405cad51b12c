//! A path that selects nothing: the file of that name in another directory, if there is one.
ghost use Rattle.std.specs.Prelude.{◌≡◌, ◌⊎◌, ℕ, List, IfSome, Some, string_bytes};
ghost use Rattle.std.specs.List.{slice_get};
ghost use Rattle.fs_reads.specs.{Denied.AreClosedTo, Ends.StopsWith, Near.IsNear};
ghost use Rattle.fs_reads.specs.declared.stop.Stop.{Stop as End};
ghost use Rattle.ods_shell.specs.declared.found.Found.{Found as One};
ghost use Rattle.ods_shell.specs.declared.status.Status.{Status as Code};
ghost use Rattle.ods_space.specs.Files.{FindsFiles};
ghost use Rattle.ods_space.specs.Disks.{on};

use crate::closed::closed_to;
use crate::stop::{Stop, say_about, stop_about};
use fs_host::Shown;
use ods_base::Uic;
use ods_paths::{Folder, Path, Versions, has_wildcard, no_steps, parse_path};
use ods_shell::{Found, PathFault, Status, find_names};
use ods_space::Disk;
use std::alloc::Global;

/// Prints why a path selects no files. If nothing has its name, prints also the path of a file of that name in another directory. No names in the `closed`
/// directories are read.
/// No clause covers what it prints; `tests/fs` checks that on the built program.
pub(crate) fn say_fault<R: AllocGlobal + Eprint>(
    rt: &R,
    disk: &Disk<'_>,
    path: &str,
    closed: &[u16],
    fault: PathFault,
)
    requires { on FindsFiles disk.now }
{
    match near_path(rt.alloc(), disk, path, closed, fault) {
        Some(near) => {
            let (path, near) = (Shown(path), Shown(near.as_str()));
            let _ = eprintln!(rt; "f11fs: {path}: {fault}; {near} has this name");
        }
        None => say_about(rt, path, fault),
    }
}

/// Returns the end of a command whose path selects nothing, with the line of `say_fault`.
pub(crate) fn stop_nothing<'a>(
    alloc: Global,
    disk: &Disk<'_>,
    path: &'a str,
    closed: &[u16],
) -> Stop<'a>
    requires { on FindsFiles disk.now }
    ensures { StopsWith result Code.Nothing ⊎ (result ≡ End.NoMemory) }
{
    let Some(near) = near_path(alloc, disk, path, closed, PathFault::Nothing) else {
        return Stop::Path(path, PathFault::Nothing);
    };
    let (fault, near) = (PathFault::Nothing, Shown(near.as_str()));
    match format!(in alloc; "{fault}; {near} has this name") {
        Ok(why) => stop_about(alloc, path, why, Status::Nothing),
        Err(_) => Stop::NoMemory,
    }
}

/// Returns the path of a file of the same name in another directory, if the path has no wildcard and this user may read that directory. If memory
/// runs out, there is none.
pub fn path_elsewhere(alloc: Global, disk: &Disk<'_>, path: &str, user: Uic) -> Option<String>
    requires { on FindsFiles disk.now }
    ensures { IfSome result (λ near. (closed : List ℕ) × (on AreClosedTo disk.now (Some user) closed × on IsNear disk.now closed path.now (string_bytes near))) }
{
    match closed_to(alloc, disk, Some(user)) {
        Ok(closed) => near_path(alloc, disk, path, closed.as_slice(), PathFault::Nothing),
        Err(_) => None,
    }
}

/// The path of a file of the same name in another directory, if a path without a wildcard selects nothing. If memory runs out, there is none.
fn near_path(
    alloc: Global,
    disk: &Disk<'_>,
    path: &str,
    closed: &[u16],
    fault: PathFault,
) -> Option<String>
    requires { on FindsFiles disk.now }
    ensures { IfSome result (λ near. on IsNear disk.now closed.now path.now (string_bytes near)) }
{
    if fault != PathFault::Nothing || has_wildcard(path.as_bytes()) {
        return None;
    }
    let Ok(Path::Within(_, Some(files))) = parse_path(path.as_bytes()) else {
        return None;
    };
    let everywhere = Folder {
        steps: no_steps(),
        below: true,
    };
    let highest = Some(Versions::Highest);
    match find_names(alloc, disk, &everywhere, files, highest, closed) {
        Ok((found, _)) => first_path(alloc, &found),
        Err(_) => None,
    }
}

/// The path of the first of these.
fn first_path(alloc: Global, found: &[Found]) -> Option<String>
    ensures { IfSome result (λ text. (first : One) × (slice_get found.now 0 ≡ Some first) × (string_bytes text ≡ string_bytes first.path)) }
{
    let first = found.first()?;
    match String::from_str(alloc, first.path.as_str()) {
        Ok(path) => Some(path),
        Err(_) => None,
    }
}
