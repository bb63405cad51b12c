//! The lines of a directory in listing order: by name, then by type, each as text. For one name the highest version is first.
ghost use Rattle.std.specs.Prelude.{◌≡◌, ◌<◌, ◌≤◌, length, nat_le, IfOk, IsPermutation, IsSortedByKey};
ghost use Rattle.std.specs.List.{All};
ghost use Rattle.ods_text.specs.Cuts.{IsFirst};
ghost use Rattle.ods_mount.specs.Faults.{IsDirectoryFile};
ghost use Rattle.ods_base.specs.Name.{title as title_of, type_text};
ghost use Rattle.ods_paths.specs.{Order.listing_cmp, Lines.line};
ghost use Rattle.ods_walk.specs.Listing.{IsListing, IsRead, AreEntries, ArePassedOver, shown, up_to_end};
ghost use Rattle.ods_space.specs.Disks.{on};

use arrayvec::ArrayString;
use ods_base::{Listed, print_title, print_type};
use ods_directory::{good_entries, mark_of};
use ods_header::attributes;
use ods_mount::FileBlocks;
use ods_paths::{Shown, compare};
use ods_space::{Disk, primary_header, reach_blocks};
use std::alloc::{AllocError, Global};
use std::cmp::Ordering;

/// Returns the lines of a directory in listing order. The image may be a refused one: then the lines are its good entries, in its blocks up to the
/// first missing block. It fails only when out of memory.
pub fn listing(alloc: Global, disk: &Disk<'_>, number: u16) -> Result<Vec<Listed>, AllocError>
    requires { on IsDirectoryFile disk.now number }
    ensures { IfOk result (λ lines. on IsListing disk.now number lines.items) }
{
    let (entries, _) = read_entries(alloc, disk, number)?;
    in_order(alloc, &entries)
}

/// Returns the lines of a listing in the order of the directory's blocks. To sort only a few of them, filter them first. It fails only when out of
/// memory.
pub fn shown_entries(alloc: Global, disk: &Disk<'_>, number: u16) -> Result<Vec<Listed>, AllocError>
    requires { on IsDirectoryFile disk.now number }
    ensures { IfOk result (λ entries. on AreEntries disk.now number entries.items) }
{
    let (shown, _) = read_entries(alloc, disk, number)?;
    Ok(shown)
}

/// Returns the number of entries of a directory that a listing skips, since they are bad. A sound volume has none. It fails only when out of memory.
pub fn count_bad(alloc: Global, disk: &Disk<'_>, number: u16) -> Result<usize, AllocError>
    requires { on IsDirectoryFile disk.now number }
    ensures { IfOk result (on ArePassedOver disk.now number) }
{
    let (_, bad) = read_entries(alloc, disk, number)?;
    Ok(bad)
}

/// The entries that a directory shows, and how many it passes over.
fn read_entries(
    alloc: Global,
    disk: &Disk<'_>,
    number: u16,
) -> Result<(Vec<Listed>, usize), AllocError>
    requires { on IsDirectoryFile disk.now number }
    ensures shown { IfOk result (λ r. on AreEntries disk.now number r.0.items) }
    ensures bad { IfOk result (λ r. on ArePassedOver disk.now number r.1) }
{
    let (there, mark) = directory_blocks(alloc, disk, number)?;
    let blocks = FileBlocks::new(disk.image, &there);
    let (lines, bad) = good_entries(alloc, &blocks, mark)?;
    Ok((lines, bad))
}

/// Returns the existing blocks of a directory, and its end mark.
pub(crate) fn directory_blocks(
    alloc: Global,
    disk: &Disk<'_>,
    number: u16,
) -> Result<(Vec<u32>, u64), AllocError>
    requires { on IsDirectoryFile disk.now number }
    ensures { IfOk result (λ r. on IsRead disk.now number r.0.items r.1) }
{
    let Some(header) = primary_header(disk, number) else {
        unreachable!()
    };
    let Some(reached) = reach_blocks(alloc, disk, number)? else {
        unreachable!()
    };
    let there = up_to_end(disk.image.len(), &reached.blocks);
    let mark = mark_of(&attributes(header), there.len() as u32);
    let lbns = Vec::from_slice(alloc, there)?;
    Ok((lbns, mark))
}

/// The first of these LBNs, up to one past an image of so many blocks.
fn up_to_end(len: u32, lbns: &[u32]) -> &[u32]
    ensures front { result.now ≡ up_to_end len lbns.now }
    ensures inside { All (λ lbn. lbn < len) result.now }
    ensures few { length result.now ≤ length lbns.now }
{
    &lbns[..place_past(len, lbns)]
}

/// The place of the first LBN past an image of so many blocks, or how many LBNs there are.
fn place_past(len: u32, lbns: &[u32]) -> usize
    ensures { IsFirst (λ lbn. nat_le len lbn) lbns.now result }
{
    lbns.iter()
        .position(|lbn| len <= *lbn)
        .unwrap_or(lbns.len())
}

/// Returns these lines in listing order. It fails only when out of memory.
pub fn in_order(alloc: Global, entries: &[Listed]) -> Result<Vec<Listed>, AllocError>
    ensures permutation { IfOk result (λ lines. IsPermutation entries.now lines.items) }
    ensures order { IfOk result (λ lines. IsSortedByKey shown listing_cmp lines.items) }
{
    let mut titled = Vec::with_capacity(alloc, entries.len())?;
    for entry in entries {
        titled.push(Titled::of(*entry))?;
    }
    titled.sort_unstable_by(compare_titled);
    let mut lines = Vec::with_capacity(alloc, entries.len())?;
    for line in titled.iter() {
        lines.push(line.entry)?;
    }
    Ok(lines)
}

/// A line with the texts by which a listing is in order, made once.
#[derive(Clone, Copy)]
struct Titled {
    entry: Listed,
    title: ArrayString<9>,
    kind: ArrayString<3>,
    ghost title_is: { title.bytes ≡ title_of entry.name },
    ghost kind_is: { kind.bytes ≡ type_text entry.name },
}

impl Titled {
    /// The line with its texts.
    fn of(entry: Listed) -> Titled
        ensures { result.entry ≡ entry }
    {
        Titled {
            entry,
            title: print_title(&entry.name),
            kind: print_type(&entry.name),
        }
    }

    /// What a listing shows of it.
    fn shown_line(&self) -> Shown<'_>
        ensures { line result ≡ shown self.now.entry }
    {
        Shown {
            name: self.title.as_bytes(),
            kind: self.kind.as_bytes(),
            version: self.entry.version,
        }
    }
}

/// How two lines stand in a listing.
fn compare_titled(one: &Titled, other: &Titled) -> Ordering
    ensures { result ≡ listing_cmp (shown one.now.entry) (shown other.now.entry) }
{
    compare(&one.shown_line(), &other.shown_line())
}
