//! The reasons why the index of a volume is bad, without the locations of a home block that files hold.
ghost use Rattle.std.specs.Prelude.{◌≡◌, ℕ, OnOk};
ghost use Rattle.std.specs.List.{Contains};
ghost use Rattle.ods_header.specs.Home.{IsHomeAt};
ghost use Rattle.ods_space.specs.Files.{IsLayoutOf};
ghost use Rattle.ods_mount.specs.Checks.{IsElsewhere};
ghost use Rattle.ods_check.specs.{Lists.Adds, Lists.AddsInTurn, Lines.IsIndexFault, Lines.IsLineOf, Faults.TellsIndex, Turns.turn_of, Turns.volume_turn};
ghost use Rattle.ods_space.specs.Disks.{on};

use crate::add::push_if;
use crate::sweep::{Sought, push_each};
use crate::{FaultLine, IndexFault, Told};
use ods_mount::{first_misplaced, is_home_place, is_index_short, is_other_home};
use ods_space::{Disk, is_free};
use std::alloc::{AllocError, Global};

/// Adds each reason why the index is bad, without the locations of a home block that files hold.
pub(crate) fn push_index(
    alloc: Global,
    disk: &Disk<'_>,
    home_lbn: u32,
    faults: &mut Told<FaultLine>,
) -> Result<(), AllocError>
    requires layout { on IsLayoutOf disk.now }
    requires home { IsHomeAt disk.now.image.now home_lbn }
    ensures adds { OnOk result (Adds (on IsLineOf disk.now) faults.old faults.new) }
    ensures once { OnOk result (AddsInTurn turn_of 0 volume_turn faults.old faults.new) }
    ensures index { OnOk result (on TellsIndex disk.now faults.new.0) }
{
    let short = FaultLine::Index(IndexFault::TooShort);
    push_if(faults, short, is_index_short(disk.layout))?;
    push_misplaced(disk, faults)?;
    let other = FaultLine::Index(IndexFault::OtherHome(home_lbn));
    push_if(faults, other, is_other_home(disk.layout, home_lbn))?;
    push_each(alloc, disk, &FreePlaces { home_lbn }, faults)?;
    Ok(())
}

/// Adds the first block of INDEXF.SYS that is not where the index bitmap or one of the first 16 headers is.
fn push_misplaced(disk: &Disk<'_>, faults: &mut Told<FaultLine>) -> Result<(), AllocError>
    ensures adds { OnOk result (Adds (on IsLineOf disk.now) faults.old faults.new) }
    ensures once { OnOk result (AddsInTurn turn_of 1 2 faults.old faults.new) }
    ensures some { OnOk result ((i : ℕ) → IsElsewhere disk.now.layout.now i → (v : ℕ) × Contains faults.new.0 (FaultLine.Index (IndexFault.Misplaced v))) }
    ensures first { OnOk result ((v : ℕ) → on IsIndexFault disk.now (IndexFault.Misplaced v) → Contains faults.new.0 (FaultLine.Index (IndexFault.Misplaced v))) }
{
    let Some(at) = first_misplaced(disk.layout) else {
        return Ok(());
    };
    faults.push(FaultLine::Index(IndexFault::Misplaced(at + 3)))?;
    Ok(())
}

/// Places of a home block below this one that are free.
#[derive(Drop)]
struct FreePlaces {
    home_lbn: u32,
}

impl Sought for FreePlaces {
    ghost use Rattle.std.specs.Prelude.{◌<◌, ⊤, IsTrue};
    ghost use Rattle.ods_header.specs.Home.{IsHomePlace};
    ghost use Rattle.ods_space.specs.Free.{is_free_block};
    ghost use Rattle.ods_check.specs.declared.fault_line.IndexFault.{IndexFault};
    ghost use Rattle.ods_check.specs.declared.fault_line.FaultLine.{FaultLine};

    type Line = FaultLine;

    ghost most = { 4294967296 };

    ghost fits = { λ _ _ _. ⊤ };

    ghost is = { λ s I L k. (k < s.home_lbn) × IsHomePlace k × IsTrue (is_free_block I L k) };

    ghost line_of = { λ _ _ k. FaultLine.Index (IndexFault.FreePlace k) };

    fn end(&self, _disk: &Disk<'_>) -> u32 {
        self.home_lbn
    }

    fn holds(&self, _alloc: Global, disk: &Disk<'_>, number: u32) -> Result<bool, AllocError> {
        Ok(number < self.home_lbn && is_home_place(number) && is_free(disk, number))
    }

    fn line(&self, _disk: &Disk<'_>, number: u32) -> FaultLine {
        FaultLine::Index(IndexFault::FreePlace(number))
    }
}
