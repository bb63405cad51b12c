//! Blocks that two files share, and blocks that one file holds twice.
ghost use Rattle.std.specs.Prelude.{◌≡◌, ◌⊎◌, ◌*◌, ◌+◌, ◌<◌, ◌≤◌, ℕ, [], Some, true, false, slice_get, slice_index, length, OnOk, IfSome, IfNone};
ghost use Rattle.std.specs.List.{All, Contains};
ghost use Rattle.ods_space.specs.Files.{HasBlocks, IsLayoutOf};
ghost use Rattle.ods_mount.specs.{Tables.has};
ghost use Rattle.ods_check.specs.{Lists.Adds, Lists.AddsInTurn, Lists.AreDistinct, Lists.IsFull, Sets.IsSetOf, Findings.HasBlock, Holders.noted, Holders.IsBefore, Holders.IsStamped, Lines.IsLineOf, Faults.TellsPair, Faults.AreOthers, Faults.IsOneMore, Marks.HasShared, Marks.IsFirstIn, Turns.turn_of, Turns.pair_turn, Turns.last_turn};
ghost use Rattle.ods_space.specs.Disks.{on};

use crate::before::Before;
use crate::counting::count_of;
use crate::holders::{insert_holders, note_holder};
use crate::numbers::file_end;
use crate::repeats::{insert_new, insert_twice};
use crate::unheld::insert_all;
use crate::whole_chain::whole_chain;
use crate::{FaultLine, Told};
use ods_mount::NumberSet;
use ods_space::Disk;
use std::alloc::{AllocError, Global};

/// Adds each pair of files with whole chains that share blocks, and each such file that has a block twice. A line has the first such block and their
/// number. A file is compared with the earlier files that are noted for one of its blocks. When the kept lines are full, no file is compared. Then a
/// file that shares a block with an earlier file is added to `others`. So this takes one walk over all chains, and one along the chain of a file for
/// each line.
pub(crate) fn push_shared(
    alloc: Global,
    disk: &Disk<'_>,
    faults: &mut Told<FaultLine>,
    others: &mut Told<u16>,
) -> Result<(), AllocError>
    requires layout { on IsLayoutOf disk.now }
    requires none { others.old.0 ≡ [] }
    ensures adds { OnOk result (Adds (on IsLineOf disk.now) faults.old faults.new) }
    ensures once { OnOk result (AddsInTurn turn_of (pair_turn 0 0) last_turn faults.old faults.new) }
    ensures all { OnOk result ((m n : ℕ) → m ≤ n → on TellsPair disk.now faults.new.0 m n ⊎ Contains others.new.0 n) }
    ensures others { OnOk result (on AreOthers disk.now faults.new others.new.0) }
    ensures most { OnOk result (others.new.1 ≡ others.old.1) }
{
    let mut before = Before::first(alloc, disk)?;
    for number in 0..file_end(disk) {
        push_shared_of(alloc, disk, number as u16, &mut before, faults, others)?;
    }
    Ok(())
}

/// Adds each pair of this file with one before it and with itself, and notes its blocks.
fn push_shared_of(
    alloc: Global,
    disk: &Disk<'_>,
    number: u16,
    before: &mut Before,
    faults: &mut Told<FaultLine>,
    others: &mut Told<u16>,
) -> Result<(), AllocError>
    requires layout { on IsLayoutOf disk.now }
    requires before { on IsBefore disk.now (IsFull faults.old) number before.old }
    ensures adds { OnOk result (Adds (on IsLineOf disk.now) faults.old faults.new) }
    ensures once { OnOk result (AddsInTurn turn_of (pair_turn 0 number) (pair_turn 0 (number + 1)) faults.old faults.new) }
    ensures told { OnOk result ((m : ℕ) → m ≤ number → on TellsPair disk.now faults.new.0 m number ⊎ Contains others.new.0 number) }
    ensures others { OnOk result ((others.new ≡ others.old) ⊎ on IsOneMore disk.now faults.old number others.old others.new) }
    ensures before { OnOk result (on IsBefore disk.now (IsFull faults.new) (number + 1) before.new) }
{
    let Some(lbns) = whole_chain(alloc, disk, number)? else {
        return Ok(());
    };
    push_shared_blocks(alloc, disk, number, &lbns, before, faults, others)
}

/// Adds each pair of this file, which has these blocks, with one before it and with itself, and notes the blocks.
fn push_shared_blocks(
    alloc: Global,
    disk: &Disk<'_>,
    number: u16,
    lbns: &[u32],
    before: &mut Before,
    faults: &mut Told<FaultLine>,
    others: &mut Told<u16>,
) -> Result<(), AllocError>
    requires layout { on IsLayoutOf disk.now }
    requires whole { on HasBlocks disk.now number lbns.now }
    requires before { on IsBefore disk.now (IsFull faults.old) number before.old }
    ensures adds { OnOk result (Adds (on IsLineOf disk.now) faults.old faults.new) }
    ensures once { OnOk result (AddsInTurn turn_of (pair_turn 0 number) (pair_turn 0 (number + 1)) faults.old faults.new) }
    ensures told { OnOk result ((m : ℕ) → m ≤ number → on TellsPair disk.now faults.new.0 m number ⊎ Contains others.new.0 number) }
    ensures others { OnOk result ((others.new ≡ others.old) ⊎ on IsOneMore disk.now faults.old number others.old others.new) }
    ensures before { OnOk result (on IsBefore disk.now (IsFull faults.new) (number + 1) before.new) }
{
    push_pairs(alloc, disk, number, lbns, before, faults, others)?;
    let is_new = insert_new(lbns, &mut before.held);
    push_own(
        alloc,
        disk,
        number,
        lbns,
        is_new,
        &mut before.stamps,
        faults,
    )?;
    note_unless_full(&mut before.holders, lbns, number, faults)?;
    Ok(())
}

/// Notes a file as one that holds these blocks, unless as many lines are kept as may be.
fn note_unless_full(
    lists: &mut [Vec<u16>],
    lbns: &[u32],
    number: u16,
    faults: &Told<FaultLine>,
) -> Result<(), AllocError>
    requires { All (λ b. b < length lists.old) lbns.now }
    ensures noted { OnOk result (¬ IsFull faults.now → (j b : ℕ) → slice_get lbns.now j ≡ Some b → Contains (noted lists.new b) number) }
    ensures kept { OnOk result ((b m : ℕ) → Contains (noted lists.old b) m → Contains (noted lists.new b) m) }
    ensures size { length lists.new ≡ length lists.old }
{
    if faults.is_full() {
        return Ok(());
    }
    note_holder(lists, lbns, number)
}

/// Adds each pair of this file, which has these blocks, with one before it, or, where no more lines are kept, the file to the others.
fn push_pairs(
    alloc: Global,
    disk: &Disk<'_>,
    number: u16,
    lbns: &[u32],
    before: &mut Before,
    faults: &mut Told<FaultLine>,
    others: &mut Told<u16>,
) -> Result<(), AllocError>
    requires layout { on IsLayoutOf disk.now }
    requires whole { on HasBlocks disk.now number lbns.now }
    requires before { on IsBefore disk.now (IsFull faults.old) number before.old }
    ensures adds { OnOk result (Adds (on IsLineOf disk.now) faults.old faults.new) }
    ensures once { OnOk result (AddsInTurn turn_of (pair_turn 0 number) (pair_turn number number) faults.old faults.new) }
    ensures told { OnOk result ((m : ℕ) → m < number → on TellsPair disk.now faults.new.0 m number ⊎ Contains others.new.0 number) }
    ensures others { OnOk result ((others.new ≡ others.old) ⊎ on IsOneMore disk.now faults.old number others.old others.new) }
    ensures held { before.new.held ≡ before.old.held }
    ensures holders { before.new.holders ≡ before.old.holders }
    ensures stamps { IsStamped disk.now.image.now before.new.stamps.items (65536 * number + number) }
{
    let Some(_) = first_in(lbns, &before.held) else {
        return Ok(());
    };
    if faults.is_full() {
        others.push(number)?;
        return Ok(());
    }
    let mut own = NumberSet::new(alloc, disk.image.len())?;
    insert_all(lbns, &mut own);
    let mut near = NumberSet::new(alloc, 65_536)?;
    insert_holders(&before.holders, lbns, &mut near);
    push_each_pair(alloc, disk, number, &own, &near, &mut before.stamps, faults)?;
    Ok(())
}

/// Adds each pair of this file, which has the blocks `own`, with one before it. `near` has those before it that share a block with it.
fn push_each_pair(
    alloc: Global,
    disk: &Disk<'_>,
    number: u16,
    own: &NumberSet,
    near: &NumberSet,
    stamps: &mut [u64],
    faults: &mut Told<FaultLine>,
) -> Result<(), AllocError>
    requires layout { on IsLayoutOf disk.now }
    requires own { IsSetOf (on HasBlock disk.now number) own.now }
    requires near { (m b : ℕ) → m < number → on HasBlock disk.now m b → on HasBlock disk.now number b → has near.now m ≡ true }
    requires stamps { IsStamped disk.now.image.now stamps.old (65536 * number) }
    ensures adds { OnOk result (Adds (on IsLineOf disk.now) faults.old faults.new) }
    ensures once { OnOk result (AddsInTurn turn_of (pair_turn 0 number) (pair_turn number number) faults.old faults.new) }
    ensures told { OnOk result ((m : ℕ) → m < number → on TellsPair disk.now faults.new.0 m number) }
    ensures stamps { IsStamped disk.now.image.now stamps.new (65536 * number + number) }
{
    for one in 0..number {
        if near.contains(u32::from(one)) {
            push_pair(alloc, disk, one, number, own, stamps, faults)?;
        }
    }
    Ok(())
}

/// Adds this pair of files, where they share blocks. `own` has the blocks of the second.
fn push_pair(
    alloc: Global,
    disk: &Disk<'_>,
    one: u16,
    other: u16,
    own: &NumberSet,
    stamps: &mut [u64],
    faults: &mut Told<FaultLine>,
) -> Result<(), AllocError>
    requires layout { on IsLayoutOf disk.now }
    requires before { one < other }
    requires own { IsSetOf (on HasBlock disk.now other) own.now }
    requires stamps { IsStamped disk.now.image.now stamps.old (65536 * other + one) }
    ensures adds { OnOk result (Adds (on IsLineOf disk.now) faults.old faults.new) }
    ensures once { OnOk result (AddsInTurn turn_of (pair_turn one other) (pair_turn one other + 1) faults.old faults.new) }
    ensures told { OnOk result (on TellsPair disk.now faults.new.0 one other) }
    ensures stamps { IsStamped disk.now.image.now stamps.new (65536 * other + one + 1) }
{
    let Some(lbns) = whole_chain(alloc, disk, one)? else {
        return Ok(());
    };
    let stamp = 65_536 * u64::from(other) + u64::from(one) + 1;
    push_common(disk, one, other, &lbns, own, stamps, stamp, faults)
}

/// Adds that this file holds blocks twice, where it does. `is_new` says that no block of it was met before.
fn push_own(
    alloc: Global,
    disk: &Disk<'_>,
    number: u16,
    lbns: &[u32],
    is_new: bool,
    stamps: &mut [u64],
    faults: &mut Told<FaultLine>,
) -> Result<(), AllocError>
    requires layout { on IsLayoutOf disk.now }
    requires whole { on HasBlocks disk.now number lbns.now }
    requires new { is_new ≡ true → AreDistinct lbns.now }
    requires stamps { IsStamped disk.now.image.now stamps.old (65536 * number + number) }
    ensures adds { OnOk result (Adds (on IsLineOf disk.now) faults.old faults.new) }
    ensures once { OnOk result (AddsInTurn turn_of (pair_turn number number) (pair_turn number number + 1) faults.old faults.new) }
    ensures told { OnOk result (on TellsPair disk.now faults.new.0 number number) }
    ensures stamps { IsStamped disk.now.image.now stamps.new (65536 * number + number + 1) }
{
    if is_new {
        return Ok(());
    }
    let mut once = NumberSet::new(alloc, disk.image.len())?;
    let mut twice = NumberSet::new(alloc, disk.image.len())?;
    insert_twice(lbns, &mut once, &mut twice);
    let stamp = 65_536 * u64::from(number) + u64::from(number) + 1;
    push_common(disk, number, number, lbns, &twice, stamps, stamp, faults)
}

/// Adds a pair of files, where they share blocks. `lbns` are the blocks of the first, of which `shared` has those that they share.
/// `stamps` has a number for each block of the image, all of them below `stamp`.
fn push_common(
    disk: &Disk<'_>,
    one: u16,
    other: u16,
    lbns: &[u32],
    shared: &NumberSet,
    stamps: &mut [u64],
    stamp: u64,
    faults: &mut Told<FaultLine>,
) -> Result<(), AllocError>
    requires whole { on HasBlocks disk.now one lbns.now }
    requires shared { on HasShared disk.now one other shared.now }
    requires size { length stamps.old ≡ length disk.now.image.now }
    requires stamps { (i : ℕ) → slice_index stamps.old i < stamp }
    ensures adds { OnOk result (Adds (on IsLineOf disk.now) faults.old faults.new) }
    ensures once { OnOk result (AddsInTurn turn_of (pair_turn one other) (pair_turn one other + 1) faults.old faults.new) }
    ensures told { OnOk result (on TellsPair disk.now faults.new.0 one other) }
    ensures stamps { IsStamped disk.now.image.now stamps.new stamp }
{
    // An image has few blocks, and so has a chain.
    let _ = disk.image.len();
    let Some(lbn) = first_in(lbns, shared) else {
        return Ok(());
    };
    let count = count_of(lbns, shared, stamps, stamp);
    faults.push(FaultLine::Shared(one, other, lbn, count))?;
    Ok(())
}

/// Returns the first of these numbers that is in the set.
pub(crate) fn first_in(numbers: &[u32], set: &NumberSet) -> Option<u32>
    ensures some { IfSome result (λ x. IsFirstIn numbers.now set.now x) }
    ensures none { IfNone result ((j x : ℕ) → slice_get numbers.now j ≡ Some x → has set.now x ≡ false) }
{
    for i in 0..numbers.len() {
        if set.contains(numbers[i]) {
            return Some(numbers[i]);
        }
    }
    None
}
