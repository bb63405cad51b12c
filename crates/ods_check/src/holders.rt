//! The files that hold each block: a list for each block of an image.
ghost use Rattle.std.specs.Prelude.{◌≡◌, ◌*◌, ◌<◌, ◌≤◌, ℕ, Some, true, slice_get, length, OnOk, IfOk};
ghost use Rattle.std.specs.List.{All, Contains};
ghost use Rattle.ods_mount.specs.Tables.{has};
ghost use Rattle.ods_check.specs.Holders.{noted};

use ods_mount::NumberSet;
use std::alloc::{AllocError, Global};

/// Returns an empty list for each block of an image of `len` blocks.
pub(crate) fn no_holders(alloc: Global, len: u32) -> Result<Vec<Vec<u16>>, AllocError>
    ensures { IfOk result (λ lists. length lists.items ≡ len) }
{
    let mut lists = Vec::new(alloc);
    for _i in 0..len {
        lists.push(Vec::new(alloc))?;
    }
    Ok(lists)
}

/// Notes a file as a holder of these blocks.
pub(crate) fn note_holder(
    lists: &mut [Vec<u16>],
    lbns: &[u32],
    number: u16,
) -> Result<(), AllocError>
    requires { All (λ b. b < length lists.old) lbns.now }
    ensures noted { OnOk result ((j b : ℕ) → slice_get lbns.now j ≡ Some b → Contains (noted lists.new b) number) }
    ensures kept { OnOk result ((b m : ℕ) → Contains (noted lists.old b) m → Contains (noted lists.new b) m) }
    ensures size { length lists.new ≡ length lists.old }
{
    for i in 0..lbns.len() {
        add_last(&mut lists[lbns[i] as usize], number)?;
    }
    Ok(())
}

/// Adds a number to a list, where it is not the last one there.
fn add_last(list: &mut Vec<u16>, number: u16) -> Result<(), AllocError>
    ensures added { OnOk result (Contains list.new.items number) }
    ensures kept { OnOk result ((m : ℕ) → Contains list.old.items m → Contains list.new.items m) }
{
    if list.last() == Some(&number) {
        return Ok(());
    }
    list.push(number)?;
    Ok(())
}

/// Adds to the set each file that is noted as a holder of one of these blocks.
pub(crate) fn insert_holders(lists: &[Vec<u16>], lbns: &[u32], files: &mut NumberSet)
    requires inside { All (λ b. b < length lists.now) lbns.now }
    requires room { 65536 ≤ 64 * length files.old }
    ensures { (j b m : ℕ) → slice_get lbns.now j ≡ Some b → Contains (noted lists.now b) m → has files.new m ≡ true }
{
    for i in 0..lbns.len() {
        insert_list(&lists[lbns[i] as usize], files);
    }
}

/// Puts all these numbers into the set.
fn insert_list(list: &[u16], files: &mut NumberSet)
    requires { 65536 ≤ 64 * length files.old }
    ensures listed { (m : ℕ) → Contains list.now m → has files.new m ≡ true }
    ensures kept { (m : ℕ) → has files.old m ≡ true → has files.new m ≡ true }
    ensures room { length files.new ≡ length files.old }
{
    for k in 0..list.len() {
        files.insert(u32::from(list[k]));
    }
}
