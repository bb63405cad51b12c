//! What INDEXF.SYS maps: the index bitmap, headers 1 to 16 and the home block. The check needs only a layout.
ghost use Rattle.std.specs.Prelude.{◌≡◌, ◌≢◌, ◌<◌, ◌+◌, ℕ, Some, length, slice_get, MatchBool, OnOk, IfErr, IfNone, IfSome};
ghost use Rattle.ods_header.specs.Home.{IsHomeAt};
ghost use Rattle.ods_mount.specs.{Faults.IsTrueOf, Checks.IsWellIndexed, Checks.IsBadlyIndexed, Checks.IsElsewhere, Checks.NoPlaceIsFree};
ghost use Rattle.ods_space.specs.Disks.{on};

use crate::MountFault;
use crate::places::check_free_places;
use ods_space::{Disk, Layout};

/// Checks that INDEXF.SYS maps the index bitmap, headers 1 to 16 and the home block. No lower LBN of a home block may be free. Otherwise the fault is
/// BadIndex, which holds for the image.
pub fn check_index(disk: &Disk<'_>, home_lbn: u32) -> Result<(), MountFault>
    requires { IsHomeAt disk.now.image.now home_lbn }
    ensures ok { OnOk result (IsWellIndexed disk.now.layout.now home_lbn × on NoPlaceIsFree disk.now home_lbn) }
    ensures err { IfErr result (on IsTrueOf disk.now) }
{
    if !is_well_indexed(disk.layout, home_lbn) {
        return Err(MountFault::BadIndex);
    }
    check_free_places(disk, home_lbn)
}

/// Whether INDEXF.SYS maps the index bitmap and headers 1 to 16 from VBN 3 on, and the home block as VBN 1 or 2.
fn is_well_indexed(layout: &Layout, home_lbn: u32) -> bool
    ensures { MatchBool result (IsWellIndexed layout.now home_lbn) (IsBadlyIndexed layout.now home_lbn) }
{
    if is_index_short(layout) || is_other_home(layout, home_lbn) {
        return false;
    }
    match first_misplaced(layout) {
        None => true,
        Some(_) => false,
    }
}

/// Returns whether INDEXF.SYS has fewer blocks than boot block, home block, index bitmap and headers 1 to 16 take.
pub fn is_index_short(layout: &Layout) -> bool
    ensures { MatchBool result
        (length layout.now.index < layout.now.home.index_bitmap_size + 18)
        (¬ (length layout.now.index < layout.now.home.index_bitmap_size + 18)) }
{
    layout.index().len() < layout.home().index_bitmap_size as usize + 18
}

/// Returns whether INDEXF.SYS has the home block neither as VBN 1 nor as VBN 2.
pub fn is_other_home(layout: &Layout, home_lbn: u32) -> bool
    ensures { MatchBool result
        ((slice_get layout.now.index 0 ≢ Some home_lbn) × (slice_get layout.now.index 1 ≢ Some home_lbn))
        (¬ ((slice_get layout.now.index 0 ≢ Some home_lbn) × (slice_get layout.now.index 1 ≢ Some home_lbn))) }
{
    let index = layout.index();
    !is_at(index, 0, home_lbn as u64) && !is_at(index, 1, home_lbn as u64)
}

/// Returns the first block of the index bitmap and headers 1 to 16 that INDEXF.SYS does not map as the home block locates it. The index counts from
/// 0.
pub fn first_misplaced(layout: &Layout) -> Option<u32>
    ensures some { IfSome result (λ i. IsElsewhere layout.now i × ((k : ℕ) → k < i → ¬ IsElsewhere layout.now k)) }
    ensures few { IfSome result (λ i. i < 65536 + 16) }
    ensures none { IfNone result ((i : ℕ) → ¬ IsElsewhere layout.now i) }
{
    let index = layout.index();
    let first = layout.home().index_bitmap_lbn as u64;
    for i in 0..layout.home().index_bitmap_size as u32 + 16 {
        if !is_at(index, 2 + i as usize, first + i as u64) {
            return Some(i);
        }
    }
    None
}

/// Whether INDEXF.SYS maps this LBN as this block, counted from 0.
fn is_at(index: &[u32], at: usize, lbn: u64) -> bool
    ensures { MatchBool result (slice_get index.now at ≡ Some lbn) (slice_get index.now at ≢ Some lbn) }
{
    match index.get(at) {
        Some(mapped) => *mapped as u64 == lbn,
        None => false,
    }
}
