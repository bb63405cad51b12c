//! Faults of one file: its chain, its blocks that are marked free or are locations of a home block, and the names of a directory.
ghost use Rattle.std.specs.Prelude.{◌≡◌, ◌⊎◌, ◌+◌, ◌*◌, ℕ, OnOk};
ghost use Rattle.std.specs.List.{Contains};
ghost use Rattle.ods_header.specs.Home.{IsHomeAt};
ghost use Rattle.ods_header.specs.Header.{attributes_of};
ghost use Rattle.ods_space.specs.{Files.HasBlocks, Files.IsFile, Files.IsLayoutOf};
ghost use Rattle.ods_mount.specs.Faults.{IsTrueOf, SharesHeader};
ghost use Rattle.ods_check.specs.{Lists.Adds, Lists.AddsInTurn, Sets.IsSetOf, Holders.IsStamped, Lines.IsLineOf, Lines.IsIndexFault, Faults.Tells, Faults.TellsFile, Faults.TellsWhole, Marks.IsOfTwo, Turns.turn_of, Turns.file_turn, Turns.pair_turn};
ghost use Rattle.ods_space.specs.Disks.{header_on, on};

use crate::add::push_if;
use crate::counting::{new_counted, put_stamp};
use crate::directory::end_mark;
use crate::numbers::file_end;
use crate::shared_headers::{header_numbers, shared_headers};
use crate::sharing::first_in;
use crate::{FaultLine, IndexFault, Told};
use ods_directory::{has_bad_entry, has_twins};
use ods_header::attributes;
use ods_mount::{
    FileBlocks, MountFault, NumberSet, chain_fault, is_directory_file, is_loose_place,
};
use ods_space::{Disk, chain, check_chain, is_free, primary_header};
use std::alloc::{AllocError, Global};

/// Adds the faults of each file.
pub(crate) fn push_files(
    alloc: Global,
    disk: &Disk<'_>,
    home_lbn: u32,
    faults: &mut Told<FaultLine>,
) -> Result<(), AllocError>
    requires layout { on IsLayoutOf disk.now }
    requires home { IsHomeAt disk.now.image.now home_lbn }
    ensures adds { OnOk result (Adds (on IsLineOf disk.now) faults.old faults.new) }
    ensures once { OnOk result (AddsInTurn turn_of (file_turn 0) (pair_turn 0 0) faults.old faults.new) }
    ensures files { OnOk result ((n : ℕ) → on TellsFile disk.now faults.new.0 n) }
{
    let shared = shared_headers(alloc, disk)?;
    let mut stamps = new_counted(alloc, disk.image.len())?;
    push_each_file(alloc, disk, home_lbn, &shared, &mut stamps, faults)?;
    Ok(())
}

/// Adds the faults of each file. `shared` has the headers that chains of two files have. `stamps` has a zero for each block of the image.
fn push_each_file(
    alloc: Global,
    disk: &Disk<'_>,
    home_lbn: u32,
    shared: &NumberSet,
    stamps: &mut [u64],
    faults: &mut Told<FaultLine>,
) -> Result<(), AllocError>
    requires layout { on IsLayoutOf disk.now }
    requires home { IsHomeAt disk.now.image.now home_lbn }
    requires shared { IsSetOf (on IsOfTwo disk.now (disk.now.layout.now.home.max_files + 1)) shared.now }
    requires stamps { IsStamped disk.now.image.now stamps.old 0 }
    ensures adds { OnOk result (Adds (on IsLineOf disk.now) faults.old faults.new) }
    ensures once { OnOk result (AddsInTurn turn_of (file_turn 0) (pair_turn 0 0) faults.old faults.new) }
    ensures files { OnOk result ((n : ℕ) → on TellsFile disk.now faults.new.0 n) }
{
    for number in 0..file_end(disk) {
        push_file(alloc, disk, home_lbn, number as u16, shared, stamps, faults)?;
    }
    Ok(())
}

/// Adds the faults of a file, where the number is one. `shared` has the headers that chains of two files have. `stamps` has a number
/// for each block of the image, which says of which file a line of the block was told last.
fn push_file(
    alloc: Global,
    disk: &Disk<'_>,
    home_lbn: u32,
    number: u16,
    shared: &NumberSet,
    stamps: &mut [u64],
    faults: &mut Told<FaultLine>,
) -> Result<(), AllocError>
    requires layout { on IsLayoutOf disk.now }
    requires home { IsHomeAt disk.now.image.now home_lbn }
    requires shared { IsSetOf (on IsOfTwo disk.now (disk.now.layout.now.home.max_files + 1)) shared.now }
    requires stamps { IsStamped disk.now.image.now stamps.old (2 * number) }
    ensures adds { OnOk result (Adds (on IsLineOf disk.now) faults.old faults.new) }
    ensures once { OnOk result (AddsInTurn turn_of (file_turn number) (file_turn number + 6) faults.old faults.new) }
    ensures file { OnOk result (on TellsFile disk.now faults.new.0 number) }
    ensures stamps { OnOk result (IsStamped disk.now.image.now stamps.new (2 * number + 2)) }
{
    let Some(first) = primary_header(disk, number) else {
        return Ok(());
    };
    push_sharing(alloc, disk, number, shared, faults)?;
    if let Err(fault) = check_chain(disk, number) {
        faults.push(FaultLine::Plain(chain_fault(number, fault)))?;
        return Ok(());
    }
    match chain(alloc, disk, number) {
        Ok(blocks) => {
            let attributes = attributes(first);
            push_whole(
                alloc,
                disk,
                home_lbn,
                number,
                &attributes,
                &blocks,
                stamps,
                faults,
            )?;
            Ok(())
        }
        Err(_) => Err(AllocError),
    }
}

/// Adds that a file shares a header with another one, where it does. `shared` has the headers that chains of two files have.
fn push_sharing(
    alloc: Global,
    disk: &Disk<'_>,
    number: u16,
    shared: &NumberSet,
    faults: &mut Told<FaultLine>,
) -> Result<(), AllocError>
    requires layout { on IsLayoutOf disk.now }
    requires file { on IsFile disk.now number }
    requires shared { IsSetOf (on IsOfTwo disk.now (disk.now.layout.now.home.max_files + 1)) shared.now }
    ensures adds { OnOk result (Adds (on IsLineOf disk.now) faults.old faults.new) }
    ensures once { OnOk result (AddsInTurn turn_of (file_turn number) (file_turn number + 1) faults.old faults.new) }
    ensures shares { OnOk result (on SharesHeader disk.now number → Tells faults.new.0 (MountFault.BadChain number)) }
    ensures only { OnOk result ((faults.new ≡ faults.old) ⊎ on SharesHeader disk.now number) }
{
    let headers = header_numbers(alloc, disk, number)?;
    let Some(_) = first_in(&headers, shared) else {
        return Ok(());
    };
    faults.push(FaultLine::Plain(MountFault::BadChain(number)))?;
    Ok(())
}

/// Adds the faults of a file that has these blocks.
fn push_whole(
    alloc: Global,
    disk: &Disk<'_>,
    home_lbn: u32,
    number: u16,
    attributes: &[u8; 32],
    lbns: &[u32],
    stamps: &mut [u64],
    faults: &mut Told<FaultLine>,
) -> Result<(), AllocError>
    requires home { IsHomeAt disk.now.image.now home_lbn }
    requires whole { on HasBlocks disk.now number lbns.now }
    requires attributes { attributes.now ≡ attributes_of (header_on disk.now number) }
    requires stamps { IsStamped disk.now.image.now stamps.old (2 * number) }
    ensures adds { OnOk result (Adds (on IsLineOf disk.now) faults.old faults.new) }
    ensures once { OnOk result (AddsInTurn turn_of (file_turn number + 2) (file_turn number + 6) faults.old faults.new) }
    ensures file { OnOk result (on TellsWhole disk.now faults.new.0 number) }
    ensures stamps { OnOk result (IsStamped disk.now.image.now stamps.new (2 * number + 2)) }
{
    push_free(disk, number, lbns, stamps, faults)?;
    push_places(disk, home_lbn, number, lbns, stamps, faults)?;
    push_names(alloc, disk, number, attributes, lbns, faults)?;
    Ok(())
}

/// Adds each place of a home block below that in force which this file holds, and a request can change. A place that the file holds twice is
/// told once.
fn push_places(
    disk: &Disk<'_>,
    home_lbn: u32,
    number: u16,
    lbns: &[u32],
    stamps: &mut [u64],
    faults: &mut Told<FaultLine>,
) -> Result<(), AllocError>
    requires home { IsHomeAt disk.now.image.now home_lbn }
    requires whole { on HasBlocks disk.now number lbns.now }
    requires stamps { IsStamped disk.now.image.now stamps.old (2 * number + 1) }
    ensures adds { OnOk result (Adds (on IsLineOf disk.now) faults.old faults.new) }
    ensures once { OnOk result (AddsInTurn turn_of (file_turn number + 3) (file_turn number + 4) faults.old faults.new) }
    ensures places { OnOk result ((k : ℕ) → on IsIndexFault disk.now (IndexFault.HeldPlace k number)
        → Contains faults.new.0 (FaultLine.Index (IndexFault.HeldPlace k number))) }
    ensures stamps { OnOk result (IsStamped disk.now.image.now stamps.new (2 * number + 2)) }
{
    // An image has few blocks, and so has a chain.
    let _ = disk.image.len();
    let stamp = 2 * u64::from(number) + 2;
    for i in 0..lbns.len() {
        let lbn = lbns[i];
        let loose = is_loose_place(home_lbn, number, i as u32, lbn);
        let is_first = put_stamp(lbn, loose, stamps, stamp);
        let place = FaultLine::Index(IndexFault::HeldPlace(lbn, number));
        push_if(faults, place, is_first)?;
    }
    Ok(())
}

/// Adds each block of a file that is marked free. A block that the file holds twice is told once.
fn push_free(
    disk: &Disk<'_>,
    number: u16,
    lbns: &[u32],
    stamps: &mut [u64],
    faults: &mut Told<FaultLine>,
) -> Result<(), AllocError>
    requires whole { on HasBlocks disk.now number lbns.now }
    requires stamps { IsStamped disk.now.image.now stamps.old (2 * number) }
    ensures adds { OnOk result (Adds (on IsLineOf disk.now) faults.old faults.new) }
    ensures once { OnOk result (AddsInTurn turn_of (file_turn number + 2) (file_turn number + 3) faults.old faults.new) }
    ensures free { OnOk result ((b : ℕ) → on IsTrueOf disk.now (MountFault.MarkedFree number b) → Tells faults.new.0 (MountFault.MarkedFree number b)) }
    ensures stamps { OnOk result (IsStamped disk.now.image.now stamps.new (2 * number + 1)) }
{
    let stamp = 2 * u64::from(number) + 1;
    for i in 0..lbns.len() {
        let lbn = lbns[i];
        let free = is_free(disk, lbn);
        let is_first = put_stamp(lbn, free, stamps, stamp);
        let marked = FaultLine::Plain(MountFault::MarkedFree(number, lbn));
        push_if(faults, marked, is_first)?;
    }
    Ok(())
}

/// Adds that a directory has a bad entry, and that two of its names are one, where it is so.
fn push_names(
    alloc: Global,
    disk: &Disk<'_>,
    number: u16,
    attributes: &[u8; 32],
    lbns: &[u32],
    faults: &mut Told<FaultLine>,
) -> Result<(), AllocError>
    requires whole { on HasBlocks disk.now number lbns.now }
    requires attributes { attributes.now ≡ attributes_of (header_on disk.now number) }
    ensures adds { OnOk result (Adds (on IsLineOf disk.now) faults.old faults.new) }
    ensures once { OnOk result (AddsInTurn turn_of (file_turn number + 4) (file_turn number + 6) faults.old faults.new) }
    ensures names { OnOk result (on IsTrueOf disk.now (MountFault.BadDirectory number) → Tells faults.new.0 (MountFault.BadDirectory number)) }
    ensures twins { OnOk result (on IsTrueOf disk.now (MountFault.DuplicateName number) → Tells faults.new.0 (MountFault.DuplicateName number)) }
{
    if !is_directory_file(disk, number) {
        return Ok(());
    }
    let mark = end_mark(disk, number, attributes, lbns);
    let blocks = FileBlocks::new(disk.image, lbns);
    let bad = has_bad_entry(&blocks, mark);
    push_if(
        faults,
        FaultLine::Plain(MountFault::BadDirectory(number)),
        bad,
    )?;
    let twins = has_twins(alloc, &blocks, mark)?;
    push_if(
        faults,
        FaultLine::Plain(MountFault::DuplicateName(number)),
        twins,
    )?;
    Ok(())
}
