//! The blocks that the headers of a file map. Each block is checked, and noted in the table of the blocks that files hold.
ghost use Rattle.std.specs.Prelude.{◌≡◌, ℕ, ◌+◌, ◌*◌, ◌^◌, ◌<◌, ◌≤◌, List, length, OnOk, IfOk, IfErr};
ghost use Rattle.ods_header.specs.{Header.IsLaidOut, Header.IsRun, Header.run_blocks, Header.blocks_of, Home.IsHomeAt};
ghost use Rattle.ods_space.specs.{Chain.header_blocks, Chain.chain_blocks, Files.HasBlocks, Files.Holds, Files.IsLayoutOf};
ghost use Rattle.ods_mount.specs.{Checks.IsFault, Checks.IsPassed, Checks.HoldsFrom, Checks.NoneIsFree, Checks.NoneIsPlace, Tables.IsTable};
ghost use Rattle.ods_space.specs.Disks.{on};

use crate::MountFault;
use crate::held_twice::double_use;
use crate::places::is_loose_place;
use crate::set::NumberSet;
use ods_base::Block;
use ods_header::{Run, pointer_at, pointer_count};
use ods_space::{ChainHeaders, Disk, is_free};

/// All blocks of a file: none is held already, none is free, and a home block could be put into none.
pub(crate) fn check_blocks(
    disk: &Disk<'_>,
    home_lbn: u32,
    number: u16,
    held: &mut NumberSet,
) -> Result<(), MountFault>
    requires layout { on IsLayoutOf disk.now }
    requires home { IsHomeAt disk.now.image.now home_lbn }
    requires whole { (blocks : List ℕ) × on HasBlocks disk.now number blocks }
    requires room { length disk.now.image.now ≤ 64 * length held.old }
    requires table { IsTable (on Holds disk.now) number held.old }
    ensures file { OnOk result ((blocks : List ℕ) × on HasBlocks disk.now number blocks
        × on NoneIsFree disk.now blocks × NoneIsPlace home_lbn number blocks) }
    ensures table { OnOk result (IsTable (on Holds disk.now) (number + 1) held.new) }
    ensures err { IfErr result (on IsFault disk.now) }
    ensures room { length held.new ≡ length held.old }
{
    // The blocks of an image have bytes, so a chain names few blocks.
    let _ = disk.image.len();
    let mut first = 0;
    let mut headers = ChainHeaders::of(disk, number);
    while let Some((_, header)) = headers.next() {
        match check_header_blocks(disk, home_lbn, number, first, header, held) {
            Ok(next) => first = next,
            Err(fault) => return Err(fault),
        }
    }
    Ok(())
}

/// The blocks that one header names, of which the first is block `first` of the file, counted from 0. The answer is the block
/// of the file behind them.
fn check_header_blocks(
    disk: &Disk<'_>,
    home_lbn: u32,
    number: u16,
    first: u32,
    header: &Block,
    held: &mut NumberSet,
) -> Result<u32, MountFault>
    requires layout { on IsLayoutOf disk.now }
    requires home { IsHomeAt disk.now.image.now home_lbn }
    requires areas { IsLaidOut header.now }
    requires names { on HoldsFrom disk.now number first (blocks_of header.now) }
    requires fits { first ≤ chain_blocks }
    requires room { length disk.now.image.now ≤ 64 * length held.old }
    requires passed { on IsPassed disk.now home_lbn number first held.old }
    ensures next { IfOk result (λ next. (next ≡ first + length (blocks_of header.now)) × (next ≤ first + header_blocks)) }
    ensures passed { IfOk result (λ next. on IsPassed disk.now home_lbn number next held.new) }
    ensures err { IfErr result (on IsFault disk.now) }
    ensures room { length held.new ≡ length held.old }
{
    let mut next = first;
    for k in 0..pointer_count(header) {
        let run = pointer_at(header, k);
        if let Err(fault) = check_run(disk, home_lbn, number, next, &run, held) {
            return Err(fault);
        }
        next += run.count as u32;
    }
    Ok(next)
}

/// The blocks of one run, of which the first is block `first` of the file, counted from 0.
fn check_run(
    disk: &Disk<'_>,
    home_lbn: u32,
    number: u16,
    first: u32,
    run: &Run,
    held: &mut NumberSet,
) -> Result<(), MountFault>
    requires layout { on IsLayoutOf disk.now }
    requires home { IsHomeAt disk.now.image.now home_lbn }
    requires run { IsRun run.now }
    requires names { on HoldsFrom disk.now number first (run_blocks run.now) }
    requires fits { first + 256 < 2 ^ 32 }
    requires room { length disk.now.image.now ≤ 64 * length held.old }
    requires passed { on IsPassed disk.now home_lbn number first held.old }
    ensures ok { OnOk result (on IsPassed disk.now home_lbn number (first + run.now.count) held.new) }
    ensures err { IfErr result (on IsFault disk.now) }
    ensures room { length held.new ≡ length held.old }
{
    for j in 0..run.count as u32 {
        let lbn = run.lbn + j;
        if let Err(fault) = check_block(disk, home_lbn, number, first + j, lbn, held) {
            return Err(fault);
        }
    }
    Ok(())
}

/// The block of a file with this index, counted from 0: it is not held already, not free, and no home block could be put into it.
fn check_block(
    disk: &Disk<'_>,
    home_lbn: u32,
    number: u16,
    index: u32,
    lbn: u32,
    held: &mut NumberSet,
) -> Result<(), MountFault>
    requires layout { on IsLayoutOf disk.now }
    requires home { IsHomeAt disk.now.image.now home_lbn }
    requires holds { on Holds disk.now number (index + 1) lbn }
    requires room { length disk.now.image.now ≤ 64 * length held.old }
    requires passed { on IsPassed disk.now home_lbn number index held.old }
    ensures ok { OnOk result (on IsPassed disk.now home_lbn number (index + 1) held.new) }
    ensures err { IfErr result (on IsFault disk.now) }
    ensures room { length held.new ≡ length held.old }
{
    if held.contains(lbn) {
        return Err(double_use(disk, number, lbn));
    }
    held.insert(lbn);
    if is_free(disk, lbn) {
        return Err(MountFault::MarkedFree(number, lbn));
    }
    if is_loose_place(home_lbn, number, index, lbn) {
        return Err(MountFault::BadIndex);
    }
    Ok(())
}
