//! A sweep over numbers that checks each number and adds a line for each match.
ghost use Rattle.std.specs.Prelude.{ℕ, ◌<◌, OnOk};
ghost use Rattle.ods_space.specs.Files.{IsLayoutOf};
ghost use Rattle.ods_check.specs.Lists.{AddsEach};
ghost use Rattle.ods_space.specs.Disks.{on, seen};

use crate::Told;
use crate::add::push_if;
use ods_space::Disk;
use std::alloc::{AllocError, Global};

/// The target of a sweep: files, headers or blocks of one kind, by their numbers.
pub(crate) trait Sought {
    ghost use Rattle.std.specs.Prelude.{ℕ, List, ◌≡◌, ◌<◌, ◌≤◌, IfOk, MatchBool};
    ghost use Rattle.ods_space.specs.{Layout.VolumeLayout, Files.IsLayoutOf, Disks.on, Disks.seen};

    /// A line that tells one.
    type Line: Copy;

    /// No volume has a match with this number or above.
    ghost most: { ℕ };

    /// Its content fits a volume with these blocks and this layout.
    ghost fits: { Self → List (List ℕ) → VolumeLayout → Type 0 };

    /// Number `n` is a match.
    ghost is: { Self → List (List ℕ) → VolumeLayout → ℕ → Type 0 };

    /// The line of number `n`.
    ghost line_of: { List (List ℕ) → VolumeLayout → ℕ → Self.Line };

    /// A number above each of them.
    fn end(&self, disk: &Disk<'_>) -> u32
        ensures above { (n : ℕ) → on (is self.now) disk.now n → n < result }
        ensures most { result ≤ most };

    /// Whether this number is one. An error is for memory.
    fn holds(&self, alloc: Global, disk: &Disk<'_>, number: u32) -> Result<bool, AllocError>
        requires layout { on IsLayoutOf disk.now }
        requires fits { on (fits self.now) disk.now }
        requires number { number < most }
        ensures { IfOk result (λ holds. MatchBool holds (on (is self.now) disk.now number) (¬ on (is self.now) disk.now number)) };

    /// The line of this number.
    fn line(&self, disk: &Disk<'_>, number: u32) -> Self::Line
        requires { number < most }
        ensures { result ≡ seen line_of disk.now number };
}

/// Adds the line of each match. An error means out of memory.
pub(crate) fn push_each<S: Sought>(
    alloc: Global,
    disk: &Disk<'_>,
    sought: &S,
    told: &mut Told<S::Line>,
) -> Result<(), AllocError>
    requires layout { on IsLayoutOf disk.now }
    requires fits { on (S.fits sought.now) disk.now }
    ensures each { OnOk result (AddsEach (on (S.is sought.now) disk.now) (seen S.line_of disk.now) told.old told.new) }
    ensures few { OnOk result ((n : ℕ) → on (S.is sought.now) disk.now n → n < S.most) }
{
    for number in 0..sought.end(disk) {
        let holds = sought.holds(alloc, disk, number)?;
        push_if(told, sought.line(disk, number), holds)?;
    }
    Ok(())
}
