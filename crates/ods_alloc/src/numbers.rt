//! Free file numbers: tested, counted and picked for new headers. Used numbers are skipped 64 at a time.
ghost use Rattle.std.specs.Prelude.{◌≡◌, ◌≤◌, true, length, take, IfOk, IfErr, IfSome, IfNone};
ghost use Rattle.std.specs.List.{filter, range_with_len};
ghost use Rattle.ods_space.specs.{Files.FindsFiles, Free.is_free_number, Free.free_numbers, Free.is_open_number, Free.open_numbers, Layout.greatest_number as greatest_of};
ghost use Rattle.ods_alloc.specs.{Scan.IsNext, Scan.NoneIsNext, Scan.NonePasses, Scan.is_clear, Faults.IsShort, Counts.ShowsNone, Counts.clear_in, Counts.counts_of};
ghost use Rattle.ods_space.specs.Disks.{on, seen};

use crate::words::{first_in, has_none, used_word};
use crate::{FreeCounts, SpaceFault};
use ods_base::Image;
use ods_header::Home;
use ods_space::{Disk, Layout, in_use, last_number, sequence};
use std::alloc::Global;

/// Returns whether a new header may have this number.
pub fn is_number_free(disk: &Disk<'_>, number: u16) -> bool
    requires { on FindsFiles disk.now }
    ensures { result ≡ seen is_free_number disk.now number }
{
    is_number_open(disk, last_number(disk.layout), number)
}

/// Whether a number may be given to a new header, where this is the greatest that may be.
fn is_number_open(disk: &Disk<'_>, most: u16, number: u16) -> bool
    requires { on FindsFiles disk.now }
    ensures { result ≡ seen is_open_number disk.now most number }
{
    if number < 6 || most < number {
        return false;
    }
    !in_use(disk, number) && sequence(disk, number) < 65535
}

/// Returns the number of free file numbers.
pub fn number_count(disk: &Disk<'_>) -> u32
    requires { on FindsFiles disk.now }
    ensures { result ≡ length (seen free_numbers disk.now) }
{
    let last = last_number(disk.layout);
    let mut count = 0;
    let mut from = 1;
    while let Some(number) = next_open_number(disk, &[], last, from) {
        count += 1;
        from = number as u32 + 1;
    }
    count
}

/// The least number from `from` on that is open up to this one.
fn next_open_number(disk: &Disk<'_>, counts: &[u32], most: u16, from: u32) -> Option<u16>
    requires layout { on FindsFiles disk.now }
    requires counts { ShowsNone counts.now (clear_in disk.now.image.now disk.now.layout.now.home) }
    ensures some { IfSome result (IsNext (seen is_open_number disk.now most) from) }
    ensures none { IfNone result (NoneIsNext (seen is_open_number disk.now most) from) }
{
    let last = most as u32;
    let home = disk.layout.home();
    let mut at = skip_used(disk.image, &home, counts, from.max(6), last);
    while at <= last {
        if is_number_open(disk, most, at as u16) {
            return Some(at as u16);
        }
        at = skip_used(disk.image, &home, counts, at + 1, last);
    }
    None
}

/// The least number from `from` on whose index bit is clear, or one behind `last`. Where a block of the bitmap has no clear bit, by the
/// counts, it is passed over whole.
fn skip_used(image: &Image, home: &Home, counts: &[u32], from: u32, last: u32) -> u32
    requires counts { ShowsNone counts.now (clear_in image.now home.now) }
    requires some { 1 ≤ from }
    requires few { last ≤ 65535 }
    ensures above { from ≤ result }
    ensures used { NonePasses (is_clear image.now home.now) from result }
    ensures stops { result ≤ last → is_clear image.now home.now result ≡ true }
{
    let mut at = from;
    while at <= last {
        if has_none(counts, (at - 1) / 4096) {
            at = 4096 * ((at - 1) / 4096 + 1) + 1;
        } else {
            if let Some(bit) = first_in(!used_word(image, home, (at - 1) / 64), at - 1) {
                return bit + 1;
            }
            at = 64 * ((at - 1) / 64 + 1) + 1;
        }
    }
    at
}

/// Picks the `count` lowest free file numbers, ascending. The fault is `HeadersFull` if fewer numbers are free, and otherwise `NoMemory`.
pub fn pick_numbers(
    alloc: Global,
    disk: &Disk<'_>,
    counts: &FreeCounts,
    count: u32,
) -> Result<Vec<u16>, SpaceFault>
    requires layout { on FindsFiles disk.now }
    requires counts { counts.now ≡ seen counts_of disk.now }
    ensures ok { IfOk result (λ numbers. (numbers.items ≡ take count (seen free_numbers disk.now)) × (count ≤ length (seen free_numbers disk.now))) }
    ensures err { IfErr result (IsShort SpaceFault.HeadersFull (length (seen free_numbers disk.now)) count) }
{
    pick_up_to(alloc, disk, counts, last_number(disk.layout), count)
}

/// Picks the `count` lowest numbers for new headers, ascending. Free numbers come first, then numbers for which INDEXF.SYS has no block yet, so that
/// it has to grow. The fault is `HeadersFull` if there are fewer such numbers, and otherwise `NoMemory`.
pub fn pick_open_numbers(
    alloc: Global,
    disk: &Disk<'_>,
    counts: &FreeCounts,
    count: u32,
) -> Result<Vec<u16>, SpaceFault>
    requires layout { on FindsFiles disk.now }
    requires counts { counts.now ≡ seen counts_of disk.now }
    ensures ok { IfOk result (λ numbers. (numbers.items ≡ take count (seen open_numbers disk.now)) × (count ≤ length (seen open_numbers disk.now))) }
    ensures err { IfErr result (IsShort SpaceFault.HeadersFull (length (seen open_numbers disk.now)) count) }
{
    pick_up_to(alloc, disk, counts, greatest_number(disk.layout), count)
}

/// Returns the greatest number for which INDEXF.SYS can ever have a header.
pub fn greatest_number(layout: &Layout) -> u16
    ensures { result ≡ greatest_of layout.now.home }
{
    let home = layout.home();
    let size = home.index_bitmap_size as usize;
    (home.max_files as usize).min(4096 * size) as u16
}

/// The lowest numbers that are open up to this one, ascending.
fn pick_up_to(
    alloc: Global,
    disk: &Disk<'_>,
    counts: &FreeCounts,
    most: u16,
    count: u32,
) -> Result<Vec<u16>, SpaceFault>
    requires layout { on FindsFiles disk.now }
    requires counts { counts.now ≡ seen counts_of disk.now }
    ensures ok { IfOk result (λ numbers. (numbers.items ≡ take count (filter (seen is_open_number disk.now most) (range_with_len 1 most)))
        × (count ≤ length (filter (seen is_open_number disk.now most) (range_with_len 1 most)))) }
    ensures err { IfErr result (IsShort SpaceFault.HeadersFull (length (filter (seen is_open_number disk.now most) (range_with_len 1 most))) count) }
{
    let mut numbers = Vec::new(alloc);
    let mut from = 1;
    for _k in 0..count {
        let Some(number) = next_open_number(disk, counts.numbers(), most, from) else {
            return Err(SpaceFault::HeadersFull);
        };
        numbers.push(number)?;
        from = number as u32 + 1;
    }
    Ok(numbers)
}
