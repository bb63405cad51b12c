//! Files whose characteristics mark them for deletion, or as locked.
ghost use Rattle.std.specs.Prelude.{MatchBool};
ghost use Rattle.ods_space.specs.Disks.{on};
ghost use Rattle.ods_check.specs.Findings.{IsMarkedDeleted, IsLocked, SaysDeleted, SaysLocked};

use crate::Finding;
use crate::ids::id_of;
use crate::numbers::file_end;
use crate::sweep::Sought;
use ods_base::Block;
use ods_header::{system_char, user_char};
use ods_space::{Disk, primary_header};
use std::alloc::{AllocError, Global};

/// Files that are marked for deletion.
#[derive(Drop)]
pub(crate) struct MarkedDeleted;

impl Sought for MarkedDeleted {
    ghost use Rattle.std.specs.Prelude.{⊤};
    ghost use Rattle.ods_check.specs.Findings.{IsMarkedDeleted, id_at};
    ghost use Rattle.ods_check.specs.declared.finding.Finding.{Finding};

    type Line = Finding;

    ghost most = { 65536 };

    ghost fits = { λ _ _ _. ⊤ };

    ghost is = { λ _. IsMarkedDeleted };

    ghost line_of = { λ I L n. Finding.MarkedDeleted (id_at I L n) };

    fn end(&self, disk: &Disk<'_>) -> u32 {
        file_end(disk)
    }

    fn holds(&self, _alloc: Global, disk: &Disk<'_>, number: u32) -> Result<bool, AllocError> {
        Ok(is_marked(disk, number as u16))
    }

    fn line(&self, disk: &Disk<'_>, number: u32) -> Finding {
        Finding::MarkedDeleted(id_of(disk, number as u16))
    }
}

/// Files that are locked.
#[derive(Drop)]
pub(crate) struct Locked;

impl Sought for Locked {
    ghost use Rattle.std.specs.Prelude.{⊤};
    ghost use Rattle.ods_check.specs.Findings.{IsLocked, id_at};
    ghost use Rattle.ods_check.specs.declared.finding.Finding.{Finding};

    type Line = Finding;

    ghost most = { 65536 };

    ghost fits = { λ _ _ _. ⊤ };

    ghost is = { λ _. IsLocked };

    ghost line_of = { λ I L n. Finding.Locked (id_at I L n) };

    fn end(&self, disk: &Disk<'_>) -> u32 {
        file_end(disk)
    }

    fn holds(&self, _alloc: Global, disk: &Disk<'_>, number: u32) -> Result<bool, AllocError> {
        Ok(is_locked(disk, number as u16))
    }

    fn line(&self, disk: &Disk<'_>, number: u32) -> Finding {
        Finding::Locked(id_of(disk, number as u16))
    }
}

/// Whether this is a file that is marked for deletion.
fn is_marked(disk: &Disk<'_>, number: u16) -> bool
    ensures { MatchBool result (on IsMarkedDeleted disk.now number) (¬ on IsMarkedDeleted disk.now number) }
{
    match primary_header(disk, number) {
        Some(first) => has_mark(first),
        None => false,
    }
}

/// Whether this is a file that is locked.
fn is_locked(disk: &Disk<'_>, number: u16) -> bool
    ensures { MatchBool result (on IsLocked disk.now number) (¬ on IsLocked disk.now number) }
{
    match primary_header(disk, number) {
        Some(first) => has_lock(first),
        None => false,
    }
}

/// Whether this header says that its file is marked for deletion.
fn has_mark(header: &Block) -> bool
    ensures { MatchBool result (SaysDeleted header.now) (¬ SaysDeleted header.now) }
{
    system_char(header) / 128 % 2 == 1
}

/// Whether this header says that its file is locked.
fn has_lock(header: &Block) -> bool
    ensures { MatchBool result (SaysLocked header.now) (¬ SaysLocked header.now) }
{
    user_char(header) / 64 % 2 == 1
}
