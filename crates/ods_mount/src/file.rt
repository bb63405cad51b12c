//! The checks that examine one file after another.
ghost use Rattle.std.specs.Prelude.{◌≡◌, ℕ, ◌+◌, ◌*◌, ◌≤◌, ◌<◌, List, length, OnOk, IfOk, IfErr};
ghost use Rattle.ods_header.specs.Home.{IsHomeAt};
ghost use Rattle.ods_space.specs.Files.{IsFile, HasBlocks, Holds, IsLayoutOf};
ghost use Rattle.ods_mount.specs.{Checks.IsFault, Checks.IsCheckedFile, Checks.HasHeader, Tables.IsTable};
ghost use Rattle.ods_space.specs.Disks.{on};

use crate::MountFault;
use crate::apart::check_apart;
use crate::directory::check_directory;
use crate::file_blocks::check_blocks;
use crate::layout::chain_fault;
use crate::set::NumberSet;
use ods_space::{Disk, check_chain, file_header};
use std::alloc::Global;

/// The chain of a file is whole.
fn check_whole(disk: &Disk<'_>, number: u16) -> Result<(), MountFault>
    requires layout { on IsLayoutOf disk.now }
    requires file { on IsFile disk.now number }
    ensures ok { OnOk result ((blocks : List ℕ) × on HasBlocks disk.now number blocks) }
    ensures err { IfErr result (on IsFault disk.now) }
{
    match check_chain(disk, number) {
        Ok(()) => Ok(()),
        Err(fault) => Err(chain_fault(number, fault)),
    }
}

/// Where the number is a file, all that is asked of it: a whole chain, headers that no file before it has, blocks that are not
/// free, no file before it holds and no home block could be put into; and good names where it is a directory. Its headers and
/// its blocks are noted in the tables of what files have.
fn check_file(
    alloc: Global,
    disk: &Disk<'_>,
    home_lbn: u32,
    number: u16,
    named: &mut NumberSet,
    held: &mut NumberSet,
) -> Result<(), MountFault>
    requires layout { on IsLayoutOf disk.now }
    requires home { IsHomeAt disk.now.image.now home_lbn }
    requires numbers { 65536 ≤ 64 * length named.old }
    requires named { IsTable (on HasHeader disk.now) number named.old }
    requires room { length disk.now.image.now ≤ 64 * length held.old }
    requires table { IsTable (on Holds disk.now) number held.old }
    ensures file { OnOk result (on IsFile disk.now number → on IsCheckedFile disk.now home_lbn number) }
    ensures named { OnOk result (IsTable (on HasHeader disk.now) (number + 1) named.new) }
    ensures table { OnOk result (IsTable (on Holds disk.now) (number + 1) held.new) }
    ensures err { IfErr result (on IsFault disk.now) }
    ensures numbers { length named.new ≡ length named.old }
    ensures room { length held.new ≡ length held.old }
{
    let Some(header) = file_header(disk, number) else {
        return Ok(());
    };
    if let Err(fault) = check_whole(disk, number) {
        return Err(fault);
    }
    if let Err(fault) = check_apart(disk, number, named) {
        return Err(fault);
    }
    if let Err(fault) = check_blocks(disk, home_lbn, number, held) {
        return Err(fault);
    }
    if let Err(fault) = check_directory(alloc, disk, number, &header.attributes) {
        return Err(fault);
    }
    Ok(())
}

/// What is asked of each file and of all together: `check_file` of each number that a header can have.
pub(crate) fn check_files(alloc: Global, disk: &Disk<'_>, home_lbn: u32) -> Result<(), MountFault>
    requires layout { on IsLayoutOf disk.now }
    requires home { IsHomeAt disk.now.image.now home_lbn }
    ensures files { OnOk result ((n : ℕ) → on IsFile disk.now n → on IsCheckedFile disk.now home_lbn n) }
    ensures apart { OnOk result ((m n v w x : ℕ) → on HasHeader disk.now m v x → on HasHeader disk.now n w x → m ≡ n) }
    ensures once { OnOk result ((m n v w b : ℕ) → on Holds disk.now m v b → on Holds disk.now n w b → (m ≡ n) × (v ≡ w)) }
    ensures err { IfErr result (on IsFault disk.now) }
{
    // The number of a header is a word.
    let Ok(mut named) = NumberSet::new(alloc, 65536) else {
        return Err(MountFault::NoMemory);
    };
    let Ok(mut held) = NumberSet::new(alloc, disk.image.len()) else {
        return Err(MountFault::NoMemory);
    };
    for number in 0..disk.layout.home().max_files as u32 + 1 {
        if let Err(fault) = check_file(
            alloc,
            disk,
            home_lbn,
            number as u16,
            &mut named,
            &mut held,
        ) {
            return Err(fault);
        }
    }
    Ok(())
}
