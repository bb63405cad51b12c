//! Headers that two files share.
ghost use Rattle.std.specs.Prelude.{◌≡◌, ℕ, ◌+◌, ◌*◌, ◌≤◌, List, length, OnOk, IfErr};
ghost use Rattle.ods_space.specs.Files.{HasBlocks, IsLayoutOf};
ghost use Rattle.ods_mount.specs.{Checks.IsFault, Checks.HasHeader, Tables.IsTable};
ghost use Rattle.ods_space.specs.Disks.{on};

use crate::MountFault;
use crate::set::NumberSet;
use ods_space::{ChainHeaders, Disk};

/// Notes the headers of one file more in the table of what files have. No file before it has one of them.
pub(crate) fn check_apart(
    disk: &Disk<'_>,
    number: u16,
    named: &mut NumberSet,
) -> Result<(), MountFault>
    requires layout { on IsLayoutOf disk.now }
    requires whole { (blocks : List ℕ) × on HasBlocks disk.now number blocks }
    requires room { 65536 ≤ 64 * length named.old }
    requires table { IsTable (on HasHeader disk.now) number named.old }
    ensures ok { OnOk result (IsTable (on HasHeader disk.now) (number + 1) named.new) }
    ensures err { IfErr result (on IsFault disk.now) }
    ensures room { length named.new ≡ length named.old }
{
    // The blocks of an image have bytes, so a chain has at most 256 headers.
    let _ = disk.image.len();
    let mut headers = ChainHeaders::of(disk, number);
    while let Some((header, _)) = headers.next() {
        if named.contains(header as u32) {
            return Err(MountFault::BadChain(number));
        }
        named.insert(header as u32);
    }
    Ok(())
}
