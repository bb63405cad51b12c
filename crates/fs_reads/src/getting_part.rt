//! `get --partial`: what is left of a file whose chain is not whole.
ghost use Rattle.ods_space.specs.Files.{FindsFiles};
ghost use Rattle.ods_space.specs.Disks.{on};
ghost use Rattle.fs_reads.specs.Targets.{StayTaken};

use crate::getting::{How, keep, second_for};
use crate::reading::check_right;
use crate::stop::{Stop, say_about};
use crate::targets::Targets;
use ods_shell::{Found, Rescued, Wanted, open_rescued, open_rescued_part};
use ods_space::Disk;
use std::fs::File;
use std::rt::Files;

/// Writes what is left of a file whose chain is not whole to this path of the host, and says so. These are its bytes up to the end of file. With `-t`
/// they are its text, if the records are whole. Does nothing without `partial`, or if the user may not read the file.
pub(crate) fn keep_part<'a, R: Files<File = File> + AllocGlobal + Print + Eprint, T: Targets>(
    rt: &R,
    targets: &mut T,
    disk: &Disk<'_>,
    found: &Found,
    host: &str,
    how: How<'_>,
) -> Result<(), Stop<'a>>
    requires { on FindsFiles disk.now }
    ensures { StayTaken (T.took targets.old) (T.took targets.new) }
{
    if !how.partial {
        return Ok(());
    }
    let Some(facts) = &found.facts else {
        return Ok(());
    };
    if check_right(facts, how.reader.user).is_err() {
        return Ok(());
    }
    let number = facts.file.number;
    let text = how.wanted == Wanted::Text;
    let Rescued::Broken(_, _) = open_rescued(rt.alloc(), disk, number, text)? else {
        return Ok(());
    };
    let Some(part) = open_rescued_part(rt.alloc(), disk, number, text)? else {
        return Ok(());
    };
    let path = found.path.as_str();
    say_about(
        rt,
        path,
        "what is left of it is copied, with zeros for blocks outside the image",
    );
    let changed = second_for(how.zone, found.facts());
    keep(rt, targets, path, &part.contents, host, changed, how)?;
    Ok(())
}
