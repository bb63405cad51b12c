//! The input of a repair: each file above 5 that no directory names.
ghost use Rattle.std.specs.Prelude.{◌≡◌, ◌++◌, ◌∷◌, ◌⊎◌, [], ℕ, IfOk, OnOk};
ghost use Rattle.ods_space.specs.Files.{IsLayoutOf};
ghost use Rattle.ods_check.specs.{Sets.IsSetOf, Findings.IsLostFile, Findings.NamesFile, Findings.id_at, Repairs.AreLost};
ghost use Rattle.ods_space.specs.Disks.{on, seen};

use crate::Told;
use crate::ids::id_of;
use crate::naming::{is_lost, push_names};
use crate::numbers::file_end;
use ods_base::FileId;
use ods_mount::NumberSet;
use ods_space::Disk;
use std::alloc::{AllocError, Global};

/// Returns the ID of each file above 5 that no directory names, in ascending order. It does not matter whether a walk reaches the directory.
pub fn find_lost(alloc: Global, disk: &Disk<'_>) -> Result<Vec<FileId>, AllocError>
    requires { on IsLayoutOf disk.now }
    ensures { IfOk result (λ found. on AreLost disk.now found.items) }
{
    let named = named_files(alloc, disk)?;
    let mut found = Vec::new(alloc);
    for number in 0..file_end(disk) {
        push_if_lost(disk, &named, number as u16, &mut found)?;
    }
    Ok(found)
}

/// The numbers of the files that names of directories name.
fn named_files(alloc: Global, disk: &Disk<'_>) -> Result<NumberSet, AllocError>
    requires { on IsLayoutOf disk.now }
    ensures { IfOk result (λ named. IsSetOf (λ n. (d : ℕ) × on NamesFile disk.now d n) named) }
{
    // The number of a file is a word. No finding is kept.
    let mut named = NumberSet::new(alloc, 65536)?;
    let mut none = Told::new(alloc, 0);
    for number in 0..file_end(disk) {
        push_names(alloc, disk, number as u16, &mut named, &mut none)?;
    }
    Ok(named)
}

/// Adds the ID of this number where it is a file above 5 that no name names.
fn push_if_lost(
    disk: &Disk<'_>,
    named: &NumberSet,
    number: u16,
    found: &mut Vec<FileId>,
) -> Result<(), AllocError>
    requires { IsSetOf (λ n. (d : ℕ) × on NamesFile disk.now d n) named.now }
    ensures { OnOk result ((on IsLostFile disk.now number × (found.new.items ≡ found.old.items ++ seen id_at disk.now number ∷ []))
        ⊎ ((¬ on IsLostFile disk.now number) × (found.new.items ≡ found.old.items))) }
{
    if is_lost(disk, named, number) {
        found.push(id_of(disk, number))?;
    }
    Ok(())
}
