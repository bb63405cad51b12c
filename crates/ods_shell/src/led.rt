//! The entries of the directories that a path reaches, each in its parent directory.
ghost use Rattle.std.specs.Prelude.{◌≡◌, ◌++◌, ℕ, List, [], IfOk, OnOk};
ghost use Rattle.ods_paths.specs.Views.{step as said_step, steps as said_steps};
ghost use Rattle.ods_shell.specs.declared.found.Found.{Found as One};
ghost use Rattle.ods_shell.specs.Choosing.{AreEach};
ghost use Rattle.ods_shell.specs.Named.{AreEntries, AreLed, AreLedBy};
ghost use Rattle.ods_shell.specs.Ways.{AreMet, CountAsClosed};
ghost use Rattle.ods_space.specs.Files.{FindsFiles};
ghost use Rattle.ods_space.specs.Disks.{on};

use crate::folders::{Closed, Directory};
use crate::found::{Found, file_at};
use crate::ways::{find_starts, ways_by, ways_from};
use ods_base::Listed;
use ods_paths::{Step, Steps};
use ods_space::Disk;
use std::alloc::{AllocError, Global};

/// Returns the entries that a last step selects in the directories that the steps before it reach, and the closed directories on the way.
pub(crate) fn find_led(
    alloc: Global,
    disk: &Disk<'_>,
    before: &Steps<'_>,
    step: &Step<'_>,
    closed: &[u16],
) -> Result<(Vec<Found>, Vec<Directory>), AllocError>
    requires { on FindsFiles disk.now }
    ensures led { IfOk result (λ r. (shut : List ℕ) → CountAsClosed closed.now r.1.items shut
        → on AreLed disk.now shut (said_steps before.now) (said_step step.now) r.0.items) }
    ensures met { IfOk result (λ r. AreMet closed.now [] r.1.items) }
{
    let mut shut = Closed {
        numbers: closed,
        met: Vec::new(alloc),
    };
    let starts = find_starts(alloc, disk, before, &mut shut)?;
    let all = led_from(alloc, disk, &starts, step, &mut shut)?;
    Ok((all, shut.met))
}

/// The entries by which a step leads on from these directories, one after another.
fn led_from(
    alloc: Global,
    disk: &Disk<'_>,
    from: &[Directory],
    step: &Step<'_>,
    closed: &mut Closed<'_>,
) -> Result<Vec<Found>, AllocError>
    requires { on FindsFiles disk.now }
    ensures found { IfOk result (λ found. (shut : List ℕ) → CountAsClosed closed.old.numbers.now closed.new.met.items shut
        → AreEach (on AreLedBy disk.now shut (said_step step.now)) from.now found.items) }
    ensures same { closed.new.numbers ≡ closed.old.numbers }
    ensures met { OnOk result (AreMet closed.old.numbers.now closed.old.met.items closed.new.met.items) }
{
    let mut found = Vec::new(alloc);
    for directory in from {
        add_led(alloc, disk, directory, step, closed, &mut found)?;
    }
    Ok(found)
}

/// Adds the entries by which a step leads on from this directory.
fn add_led(
    alloc: Global,
    disk: &Disk<'_>,
    from: &Directory,
    step: &Step<'_>,
    closed: &mut Closed<'_>,
    found: &mut Vec<Found>,
) -> Result<(), AllocError>
    requires { on FindsFiles disk.now }
    ensures found { OnOk result ((next : List One) × (found.new.items ≡ found.old.items ++ next)
        × ((shut : List ℕ) → CountAsClosed closed.old.numbers.now closed.new.met.items shut → on AreLedBy disk.now shut (said_step step.now) from.now next)) }
    ensures same { closed.new.numbers ≡ closed.old.numbers }
    ensures met { OnOk result (AreMet closed.old.numbers.now closed.old.met.items closed.new.met.items) }
{
    let ways = ways_from(alloc, disk, from.number, &from.names, closed)?;
    let those = ways_by(alloc, &ways, step)?;
    add_entries(alloc, disk, from, &those, found)
}

/// Adds what these entries of a directory name.
fn add_entries(
    alloc: Global,
    disk: &Disk<'_>,
    directory: &Directory,
    entries: &[Listed],
    found: &mut Vec<Found>,
) -> Result<(), AllocError>
    requires { on FindsFiles disk.now }
    ensures { OnOk result ((more : List One) × (found.new.items ≡ found.old.items ++ more) × on AreEntries disk.now directory.now entries.now more) }
{
    for entry in entries {
        found.push(file_at(alloc, disk, directory, entry)?)?;
    }
    Ok(())
}
