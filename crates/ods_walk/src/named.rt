//! The entries of a directory with one name: found by the words of the name, without a list of the other entries.
ghost use Rattle.std.specs.Prelude.{◌≡◌, ◌++◌, ◌∷◌, ◌*◌, ◌<◌, ◌≤◌, ℕ, [], false, true, length, IfOk, MatchBool, OnOk};
ghost use Rattle.std.specs.List.{filter};
ghost use Rattle.ods_base.specs.{Image.block_at, Names.is_of};
ghost use Rattle.ods_directory.specs.{Entry.entry_in, Entry.used_entries, Lines.good_lines};
ghost use Rattle.ods_mount.specs.Faults.{IsDirectoryFile, contents_of};
ghost use Rattle.ods_space.specs.Files.{AreInside};
ghost use Rattle.ods_walk.specs.Listing.{AreEntriesOf, has_name};
ghost use Rattle.ods_space.specs.Disks.{on};

use crate::ordering::directory_blocks;
use ods_base::{Block, Image, Listed, Name, word};
use ods_directory::good_entries;
use ods_mount::FileBlocks;
use ods_space::Disk;
use std::alloc::{AllocError, Global};
use std::slice;

/// Returns the shown entries of a directory with this name, in the order of its blocks. Most other entries are skipped by their words. It fails only
/// when out of memory.
pub fn entries_of(
    alloc: Global,
    disk: &Disk<'_>,
    number: u16,
    name: &Name,
) -> Result<Vec<Listed>, AllocError>
    requires { on IsDirectoryFile disk.now number }
    ensures { IfOk result (λ found. on AreEntriesOf disk.now number name.now found.items) }
{
    let (there, mark) = directory_blocks(alloc, disk, number)?;
    named_in(alloc, disk.image, &there, mark, name)
}

/// The good entries of this name before the mark, in these blocks.
fn named_in(
    alloc: Global,
    image: &Image,
    lbns: &[u32],
    mark: u64,
    name: &Name,
) -> Result<Vec<Listed>, AllocError>
    requires inside { AreInside image.now lbns.now }
    requires mark { mark ≤ 512 * length lbns.now }
    ensures { IfOk result (λ found. found.items ≡ filter (has_name name.now) (good_lines (used_entries (contents_of image.now lbns.now) mark))) }
{
    let mut found = Vec::new(alloc);
    let mut left = mark;
    for lbn in lbns {
        let here = left.min(512);
        add_named(alloc, image, *lbn, here, name, &mut found)?;
        left -= here;
    }
    Ok(found)
}

/// Adds the good entries of this name before the mark, in one block. Where none has the words of the name, no entry is made.
fn add_named(
    alloc: Global,
    image: &Image,
    lbn: u32,
    mark: u64,
    name: &Name,
    found: &mut Vec<Listed>,
) -> Result<(), AllocError>
    requires inside { lbn < length image.now }
    requires mark { mark ≤ 512 }
    ensures { OnOk result (found.new.items
        ≡ found.old.items ++ filter (has_name name.now) (good_lines (used_entries (block_at image.now lbn ∷ []) mark))) }
{
    if !has_words(image.block(lbn), name) {
        return Ok(());
    }
    let blocks = FileBlocks::new(image, slice::from_ref(&lbn));
    let (entries, _) = good_entries(alloc, &blocks, mark)?;
    push_named(&entries, name, found)
}

/// Whether an entry of the block, a used one or not, has the words of this name.
fn has_words(block: &Block, name: &Name) -> bool
    ensures { MatchBool result ((k : ℕ) × (k < 32) × (is_of name.now (entry_in block.now k).key ≡ true))
        ((k : ℕ) → k < 32 → is_of name.now (entry_in block.now k).key ≡ false) }
{
    for k in 0..32 {
        if has_words_at(block, k, name) {
            return true;
        }
    }
    false
}

/// Whether entry `k` of the block has the words of this name.
fn has_words_at(block: &Block, k: usize, name: &Name) -> bool
    requires { k < 32 }
    ensures { result ≡ is_of name.now (entry_in block.now k).key }
{
    let words = name.words();
    word(block, 8 * k + 3) == words[0]
        && word(block, 8 * k + 4) == words[1]
        && word(block, 8 * k + 5) == words[2]
        && word(block, 8 * k + 6) == name.ext()
}

/// Adds those of these entries that have this name.
fn push_named(entries: &[Listed], name: &Name, found: &mut Vec<Listed>) -> Result<(), AllocError>
    ensures { OnOk result (found.new.items ≡ found.old.items ++ filter (has_name name.now) entries.now) }
{
    for entry in entries {
        if is_named(entry, name) {
            found.push(*entry)?;
        }
    }
    Ok(())
}

/// Whether the entry has this name.
fn is_named(entry: &Listed, name: &Name) -> bool
    ensures { result ≡ has_name name.now entry.now }
{
    let (ours, words) = (entry.name.words(), name.words());
    ours[0] == words[0]
        && ours[1] == words[1]
        && ours[2] == words[2]
        && entry.name.ext() == name.ext()
}
