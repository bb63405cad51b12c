//! `repair share`: runs of a file with blocks that are held twice receive blocks of their own, in an image that a mount refuses.
ghost use Rattle.std.specs.Prelude.{◌≡◌, ◌≢◌, ℕ, ◌*◌, ◌/◌, ◌^◌, ◌+◌, ◌<◌, ◌≤◌, length, IfErr, IfOk, MatchBool, OnErr, OnOk, Some};
ghost use Rattle.std.specs.List.{All};
ghost use Rattle.ods_header.specs.Header.{used_words_of};
ghost use Rattle.ods_mount.specs.{Faults.HasBadIndex, Tables.IsWith};
ghost use Rattle.ods_space.specs.{Disks.on, Files.HasBlocks, Files.IsLayoutOf, Layout.header_at, Layout.place_of};
ghost use Rattle.ods_check.specs.{HeldFree.IsHeldBesides, HeldFree.IsHeldFree, Sets.IsSetOf};
ghost use Rattle.ods_repair.specs.{Moved.CanMove, Moved.run_named, Settled.AreNewFrom, Settled.AreSettled, Settled.HasRunToo, Settled.IsCopyTo, Settled.IsSettled, Settled.IsToldOf, Settled.MeetsFrom, Settled.MeetsRun, Settled.MissesRun, Spare.AreOnce, Spare.AreSpare, Unshared.HasOwnRuns, Unshared.IsNotUnshared};

use crate::RepairFault;
use crate::run_moving::move_run;
use crate::spare::{check_once, check_spare};
use ods_amend::lowest_run;
use ods_base::{Block, Image};
use ods_check::{blocks_held_besides, find_free_held_blocks};
use ods_header::{Run, pointer_at, pointer_count};
use ods_mount::NumberSet;
use ods_space::{ChainFault, Disk, Layout, chain};
use std::alloc::{AllocError, Global};

/// The number of runs of a file that received blocks of their own, and the number that still have a block that is held twice. Runs, and blocks that
/// extension headers name, count.
#[derive(Clone, Copy, Debug, PartialEq, Eq)]
pub struct Unshared {
    pub moved: u32,
    pub left: u32,
}

/// What becomes of a run.
#[derive(Clone, Copy)]
enum Outcome {
    /// None of its blocks is held twice.
    Stays,
    /// It received blocks of its own.
    Moved,
    /// No run of free blocks is long enough.
    Left,
}

/// Gives runs of a file blocks of their own, if they have a block that another file also holds or that the file has earlier. A run moves with its
/// bytes to the lowest run of free blocks that is long enough. A run without such a free run is left and counted, and so are the blocks that
/// extension headers name. Blocks that the file leaves stay marked used. The image may be one that a mount refuses, but its index is good. After a
/// refusal, the image is unchanged.
pub fn unshare(
    alloc: Global,
    image: &mut Image,
    layout: &Layout,
    file: u16,
) -> Result<Unshared, RepairFault>
    requires layout { IsLayoutOf image.old layout.now }
    requires index { ¬ HasBadIndex image.old layout.now }
    // No file loses a byte, no fault is new, and no run moves without need. Where nothing is left no block of the file is held twice.
    ensures own { IfOk result (λ told. HasOwnRuns image.old layout.now file told image.new) }
    ensures refused { IfErr result (IsNotUnshared image.old layout.now file) }
    ensures unchanged { OnErr result (image.new ≡ image.old) }
{
    let (blocks, mut seen) = find_movable(alloc, &Disk { image, layout }, file)?;
    Ok(settle_all(image, layout, file, &blocks, &mut seen))
}

/// The blocks of a file whose runs can move, and the set of those that other files hold.
fn find_movable(
    alloc: Global,
    disk: &Disk<'_>,
    file: u16,
) -> Result<(Vec<u32>, NumberSet), RepairFault>
    requires layout { on IsLayoutOf disk.now }
    requires index { ¬ on HasBadIndex disk.now }
    ensures can { OnOk result (on CanMove disk.now file) }
    ensures blocks { IfOk result (λ found. on HasBlocks disk.now file found.0.items) }
    ensures held { IfOk result (λ found. IsSetOf (on IsHeldBesides disk.now file) found.1) }
    ensures room { IfOk result (λ found. length disk.now.image.now ≤ 64 * length found.1) }
    ensures refused { IfErr result (on IsNotUnshared disk.now file) }
{
    let blocks = blocks_of_plain(alloc, disk, file)?;
    check_layout(alloc, disk)?;
    check_header(alloc, disk, file)?;
    check_used(alloc, disk)?;
    let held = others_held(alloc, disk, file)?;
    Ok((blocks, held))
}

/// The blocks of a file that is none of the volume's own.
fn blocks_of_plain(alloc: Global, disk: &Disk<'_>, file: u16) -> Result<Vec<u32>, RepairFault>
    requires { on IsLayoutOf disk.now }
    ensures blocks { IfOk result (λ blocks. on HasBlocks disk.now file blocks.items) }
    ensures other { OnOk result (5 < file) }
    ensures refused { IfErr result (on IsNotUnshared disk.now file) }
{
    if file <= 5 {
        return Err(RepairFault::Reserved(file));
    }
    match chain(alloc, disk, file) {
        Ok(blocks) => Ok(blocks),
        Err(ChainFault::NoMemory) => Err(RepairFault::NoMemory),
        Err(ChainFault::BadChain) => Err(RepairFault::NoChain(file)),
        Err(ChainFault::OutsideVolume(_)) => Err(RepairFault::NoChain(file)),
    }
}

/// INDEXF.SYS has no block twice, and the blocks of BITMAP.SYS can change with nothing else.
fn check_layout(alloc: Global, disk: &Disk<'_>) -> Result<(), RepairFault>
    requires { on IsLayoutOf disk.now }
    ensures once { OnOk result (AreOnce disk.now.layout.now.index) }
    ensures bitmap { OnOk result (on AreSpare disk.now 2 disk.now.layout.now.bitmap 0) }
    ensures refused { (file : ℕ) → IfErr result (on IsNotUnshared disk.now file) }
{
    match check_once(alloc, disk, 1, disk.layout.index()) {
        Err(why) => Err(why),
        Ok(()) => match check_spare(alloc, disk, 2, disk.layout.bitmap(), 0) {
            Err(why) => Err(why),
            Ok(()) => Ok(()),
        },
    }
}

/// No file but INDEXF.SYS holds the block of the file's first header.
fn check_header(alloc: Global, disk: &Disk<'_>, file: u16) -> Result<(), RepairFault>
    requires { on IsLayoutOf disk.now }
    ensures alone { OnOk result ((x : ℕ) → place_of disk.now.layout.now file ≡ Some x → ¬ on IsHeldBesides disk.now 1 x) }
    ensures refused { IfErr result (on IsNotUnshared disk.now file) }
{
    let held = blocks_held_besides(alloc, disk, 1)?;
    match disk.layout.place(file) {
        Some(place) => {
            if held.contains(place) {
                return Err(RepairFault::SharedBlock(1, place));
            }
            Ok(())
        }
        None => Ok(()),
    }
}

/// No block that a file holds is marked as free.
fn check_used(alloc: Global, disk: &Disk<'_>) -> Result<(), RepairFault>
    requires { on IsLayoutOf disk.now }
    ensures used { OnOk result ((b : ℕ) → ¬ on IsHeldFree disk.now b) }
    ensures refused { (file : ℕ) → IfErr result (on IsNotUnshared disk.now file) }
{
    let free = find_free_held_blocks(alloc, disk)?;
    match free.first() {
        Some(lbn) => Err(RepairFault::HeldFree(*lbn)),
        None => Ok(()),
    }
}

/// The set of blocks that other files hold, with room for each block of the image.
fn others_held(alloc: Global, disk: &Disk<'_>, file: u16) -> Result<NumberSet, AllocError>
    requires { on IsLayoutOf disk.now }
    ensures held { IfOk result (IsSetOf (on IsHeldBesides disk.now file)) }
    ensures room { IfOk result (λ held. length disk.now.image.now ≤ 64 * length held) }
{
    let others = blocks_held_besides(alloc, disk, file)?;
    let held = roomy_copy(alloc, &others, disk.image.len())?;
    Ok(held)
}

/// The numbers of the set below this one, in a set with room for all of them.
fn roomy_copy(alloc: Global, set: &NumberSet, end: u32) -> Result<NumberSet, AllocError>
    ensures copied { IfOk result (λ copy. IsCopyTo set.now copy end) }
    ensures room { IfOk result (λ copy. end ≤ 64 * length copy) }
{
    let mut copy = NumberSet::new(alloc, end)?;
    for number in 0..end {
        insert_if(&mut copy, set.contains(number), number);
    }
    Ok(copy)
}

/// Puts this block into the set, where that is said.
fn insert_if(set: &mut NumberSet, is_in: bool, lbn: u32)
    requires { lbn < 64 * length set.old }
    ensures with { MatchBool is_in (IsWith set.new set.old lbn) (set.new ≡ set.old) }
    ensures room { length set.new ≡ length set.old }
{
    if is_in {
        set.insert(lbn);
    }
}

/// Settles all blocks of a file: the runs of its first header, and then those that extension headers name, which stay.
fn settle_all(
    image: &mut Image,
    layout: &Layout,
    file: u16,
    blocks: &[u32],
    seen: &mut NumberSet,
) -> Unshared
    requires can { CanMove image.old layout.now file }
    requires has { HasBlocks image.old layout.now file blocks.now }
    requires held { IsSetOf (IsHeldBesides image.old layout.now file) seen.old }
    requires room { length image.old ≤ 64 * length seen.old }
    ensures { HasOwnRuns image.old layout.now file result image.new }
{
    let (told, mapped) = settle_runs(image, layout, file, seen);
    let met = count_met(blocks, mapped, seen);
    Unshared {
        moved: told.moved,
        left: told.left.saturating_add(met),
    }
}

/// Settles the runs that the first header of a file names. It gives what became of them, and how many blocks they have.
fn settle_runs(
    image: &mut Image,
    layout: &Layout,
    file: u16,
    seen: &mut NumberSet,
) -> (Unshared, usize)
    requires can { CanMove image.old layout.now file }
    requires held { IsSetOf (IsHeldBesides image.old layout.now file) seen.old }
    requires room { length image.old ≤ 64 * length seen.old }
    ensures { AreSettled image.old layout.now file (used_words_of (header_at image.old layout.now file) / 2) result.0 result.1 seen.new image.new }
{
    let count = pointer_count(first_header(image, layout, file));
    let mut told = Unshared { moved: 0, left: 0 };
    let mut mapped = 0;
    for at in 0..count {
        let run = run_of(image, layout, file, at);
        let outcome = settle_run(image, layout, file, at, seen);
        told = told_of(told, outcome);
        mapped += run.count as usize;
    }
    (told, mapped)
}

/// What is told of the runs, with one more.
fn told_of(told: Unshared, outcome: Outcome) -> Unshared
    ensures { IsToldOf told outcome result }
{
    let Unshared { moved, left } = told;
    match outcome {
        Outcome::Stays => told,
        Outcome::Moved => Unshared {
            moved: moved.saturating_add(1),
            left,
        },
        Outcome::Left => Unshared {
            moved,
            left: left.saturating_add(1),
        },
    }
}

/// How many of these blocks, from the one with this index on, are in the set, or come before. The set gets them.
fn count_met(blocks: &[u32], first: usize, seen: &mut NumberSet) -> u32
    requires room { All (λ b. b < 64 * length seen.old) blocks.now }
    ensures none { result ≡ 0 → AreNewFrom blocks.now first seen.old }
    ensures some { result ≢ 0 → MeetsFrom blocks.now first seen.old }
{
    let mut met: u32 = 0;
    for i in first..blocks.len() {
        met = more_met(met, seen.contains(blocks[i]));
        seen.insert(blocks[i]);
    }
    met
}

/// So many, with one more where it was met.
fn more_met(met: u32, is_met: bool) -> u32
    ensures { MatchBool is_met (result ≢ 0) (result ≡ met) }
{
    if is_met { met.saturating_add(1) } else { met }
}

/// Gives run `at` of a file blocks of its own, where one of its blocks is in the set. The set gets its blocks then.
fn settle_run(
    image: &mut Image,
    layout: &Layout,
    file: u16,
    at: usize,
    seen: &mut NumberSet,
) -> Outcome
    requires can { CanMove image.old layout.now file }
    requires inside { at < used_words_of (header_at image.old layout.now file) / 2 }
    requires room { length image.old ≤ 64 * length seen.old }
    ensures settled { IsSettled image.old layout.now file at seen.old result image.new seen.new }
    ensures room { length image.new ≤ 64 * length seen.new }
{
    let run = run_of(image, layout, file, at);
    if !meets_run(seen, &run) {
        insert_run(seen, &run);
        return Outcome::Stays;
    }
    let _ = image.len();
    let Some(to) = lowest_run(&Disk { image, layout }, run.count as u32) else {
        insert_run(seen, &run);
        return Outcome::Left;
    };
    move_run(image, layout, file, at, to);
    insert_run(
        seen,
        &Run {
            lbn: to,
            count: run.count,
        },
    );
    Outcome::Moved
}

/// The run that retrieval pointer `at` of the file's first header names.
fn run_of(image: &Image, layout: &Layout, file: u16, at: usize) -> Run
    requires can { CanMove image.now layout.now file }
    requires inside { at < used_words_of (header_at image.now layout.now file) / 2 }
    ensures run { result ≡ run_named image.now layout.now file at }
    ensures inside { result.lbn + result.count ≤ length image.now }
    ensures small { result.lbn + result.count < 2 ^ 32 }
    ensures few { result.count ≤ 256 }
{
    let _ = image.len();
    pointer_at(first_header(image, layout, file), at)
}

/// The first header of the file.
fn first_header<'a>(image: &'a Image, layout: &Layout, file: u16) -> &'a Block
    requires { CanMove image.now layout.now file }
    ensures { result.now ≡ header_at image.now layout.now file }
{
    match layout.place(file) {
        Some(place) => image.block(place),
        None => unreachable!(),
    }
}

/// Whether a block of the run is in the set.
fn meets_run(set: &NumberSet, run: &Run) -> bool
    requires { run.now.lbn + run.now.count < 2 ^ 32 }
    ensures { MatchBool result (MeetsRun set.now run.now) (MissesRun set.now run.now) }
{
    for k in 0..run.count as u32 {
        if set.contains(run.lbn + k) {
            return true;
        }
    }
    false
}

/// Puts the blocks of the run into the set.
fn insert_run(set: &mut NumberSet, run: &Run)
    requires small { run.now.lbn + run.now.count < 2 ^ 32 }
    requires room { run.now.lbn + run.now.count ≤ 64 * length set.old }
    ensures with { HasRunToo set.new set.old run.now }
    ensures room { length set.new ≡ length set.old }
{
    for k in 0..run.count as u32 {
        set.insert(run.lbn + k);
    }
}
