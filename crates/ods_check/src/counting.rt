//! Stamps, with which each number of a list is counted or reported only once.
ghost use Rattle.std.specs.Prelude.{◌≡◌, ◌^◌, ◌<◌, ◌≤◌, ◌⊎◌, ℕ, List, length, slice_index, IfOk};
ghost use Rattle.std.specs.List.{All};
ghost use Rattle.ods_check.specs.Marks.{AreBoth, IsCounted, PutsStamp};

use ods_mount::NumberSet;
use std::alloc::{AllocError, Global};

/// Returns a list with a zero for each block of an image of `len` blocks.
pub(crate) fn new_counted(alloc: Global, len: u32) -> Result<Vec<u64>, AllocError>
    ensures size { IfOk result (λ counted. length counted.items ≡ len) }
    ensures zeros { IfOk result (λ counted. (i : ℕ) → slice_index counted.items i ≡ 0) }
{
    let counted = vec![in alloc; 0; len as usize]?;
    Ok(counted)
}

/// Counts the distinct numbers that are in the set. For each counted number, `counted` receives `stamp` at that index. No entry of `counted` has
/// `stamp` before.
pub(crate) fn count_of(numbers: &[u32], set: &NumberSet, counted: &mut [u64], stamp: u64) -> u32
    requires few { length numbers.now < 2 ^ 32 }
    requires inside { All (λ b. b < length counted.old) numbers.now }
    requires counted { (i : ℕ) → slice_index counted.old i < stamp }
    ensures count { (ys : List ℕ) × (result ≡ length ys) × AreBoth numbers.now set.now ys }
    ensures size { length counted.new ≡ length counted.old }
    ensures counted { (i : ℕ) → slice_index counted.new i ≤ stamp }
{
    let mut count = 0;
    for i in 0..numbers.len() {
        count += count_one(numbers[i], set, counted, stamp);
    }
    count
}

/// One, where the number is in the set and not counted yet, else none.
fn count_one(number: u32, set: &NumberSet, counted: &mut [u64], stamp: u64) -> u32
    requires { number < length counted.old }
    ensures { IsCounted set.now number stamp counted.old result counted.new }
{
    if !set.contains(number) || counted[number as usize] == stamp {
        return 0;
    }
    counted[number as usize] = stamp;
    1
}

/// Sets this stamp for the number if `holds` is true and the number has another stamp. Returns whether it set the stamp.
pub(crate) fn put_stamp(number: u32, holds: bool, stamps: &mut [u64], stamp: u64) -> bool
    requires { number < length stamps.old }
    ensures { PutsStamp number holds stamp stamps.old result stamps.new }
{
    if !holds || stamps[number as usize] == stamp {
        return false;
    }
    stamps[number as usize] = stamp;
    true
}
