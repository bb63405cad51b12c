//! Blocks that files hold twice.
ghost use Rattle.std.specs.Prelude.{◌≡◌, ℕ, List, MatchBool};
ghost use Rattle.std.specs.List.{Contains};
ghost use Rattle.ods_header.specs.Header.{IsLaidOut, blocks_of};
ghost use Rattle.ods_space.specs.{Chain.headers_of, Chain.named_by, Files.HasBlocks, Files.Holds, Files.IsLayoutOf};
ghost use Rattle.ods_mount.specs.{Faults.IsTrueOf, Checks.IsHeldTwice};
ghost use Rattle.ods_space.specs.Disks.{on, seen};

use crate::MountFault;
use ods_base::Block;
use ods_header::{pointer_at, pointer_count};
use ods_space::{ChainHeaders, Disk, check_chain};

/// The fault of a file that has a block which is held twice: by a file before it too, or by itself.
pub(crate) fn double_use(disk: &Disk<'_>, number: u16, lbn: u32) -> MountFault
    requires layout { on IsLayoutOf disk.now }
    requires twice { on IsHeldTwice disk.now number lbn }
    ensures { on IsTrueOf disk.now result }
{
    for other in 1..number {
        if holds(disk, other, lbn) {
            return MountFault::DoublyUsed(other, number, lbn);
        }
    }
    MountFault::DoublyUsed(number, number, lbn)
}

/// Whether this number is a file with a whole chain that has this block.
fn holds(disk: &Disk<'_>, number: u16, lbn: u32) -> bool
    requires { on IsLayoutOf disk.now }
    ensures { MatchBool result
        ((v : ℕ) × on Holds disk.now number v lbn)
        ((v : ℕ) → ¬ on Holds disk.now number v lbn) }
{
    // The blocks of an image have bytes, so a chain has at most 256 headers.
    let _ = disk.image.len();
    match check_chain(disk, number) {
        Ok(()) => one_names(disk, number, lbn),
        Err(_) => false,
    }
}

/// Whether one of the headers of a file's chain names this block.
fn one_names(disk: &Disk<'_>, number: u16, lbn: u32) -> bool
    requires layout { on IsLayoutOf disk.now }
    requires whole { (blocks : List ℕ) × on HasBlocks disk.now number blocks }
    ensures { MatchBool result
        (Contains (named_by (seen headers_of disk.now number)) lbn)
        (¬ Contains (named_by (seen headers_of disk.now number)) lbn) }
{
    let mut headers = ChainHeaders::of(disk, number);
    while let Some((_, header)) = headers.next() {
        if names(header, lbn) {
            return true;
        }
    }
    false
}

/// Whether this header names this block.
fn names(header: &Block, lbn: u32) -> bool
    requires { IsLaidOut header.now }
    ensures { MatchBool result (Contains (blocks_of header.now) lbn) (¬ Contains (blocks_of header.now) lbn) }
{
    for k in 0..pointer_count(header) {
        let run = pointer_at(header, k);
        let end = run.lbn + run.count as u32;
        if run.lbn <= lbn && lbn < end {
            return true;
        }
    }
    false
}
