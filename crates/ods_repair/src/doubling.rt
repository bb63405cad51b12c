//! `repair double`: each repeated name in a directory except the first receives the next version of its name, in an image that a mount refuses.
ghost use Rattle.std.specs.Prelude.{◌≡◌, ◌≢◌, ◌*◌, ◌/◌, ◌+◌, ◌<◌, ◌≤◌, ◌⊎◌, ℕ, List, length, map, IfErr, IfNone, IfOk, IfSome, IsTrue, OnErr, OnOk, slice_set};
ghost use Rattle.std.specs.List.{All};
ghost use Rattle.ods_base.specs.Image.{block_at};
ghost use Rattle.ods_space.specs.{Disks.on, Disks.seen, Files.HasBlocks, Files.IsLayoutOf};
ghost use Rattle.ods_directory.specs.Entry.{Entry, entry_at, is_used};
ghost use Rattle.ods_mount.specs.Faults.{contents_of, mark_at};
ghost use Rattle.ods_check.specs.Findings.{IsWholeDirectory};
ghost use Rattle.ods_repair.specs.Doubled.{AreRenumbered, HasRenumbered, IsFull, IsNotRenumbered, IsPut, IsReadyDirectory, name_part, version_part, with_version};
ghost use Rattle.ods_repair.specs.Noted.{AreHighest, IsPartly, number_in};

use crate::RepairFault;
use crate::noted::{Key, Noted};
use crate::spare::check_spare;
use ods_base::{Block, Image, LAST_VERSION, set_word, word};
use ods_check::{WholeDirectory, whole_directory};
use ods_directory::has_bad_entry;
use ods_mount::FileBlocks;
use ods_space::{Disk, Layout};
use std::alloc::{AllocError, Global};

/// Gives an entry of a directory the next version if an earlier entry has its name, type and version. The next version is one more than the highest.
/// The image may be one that a mount refuses. The repair is refused if:
///
/// - the directory has no whole chain, or an entry is not a valid name;
/// - a name has no next version;
/// - the blocks of the directory are fixed or shared, so that their change would change something else;
/// - memory runs out.
///
/// After a refusal, the image is unchanged.
pub fn renumber_doubles(
    alloc: Global,
    image: &mut Image,
    layout: &Layout,
    directory: u16,
) -> Result<(), RepairFault>
    requires { IsLayoutOf image.old layout.now }
    // No two names are one then, and nothing else was done.
    ensures done { OnOk result (HasRenumbered image.old layout.now directory image.new) }
    ensures refused { IfErr result (IsNotRenumbered image.old layout.now directory) }
    ensures unchanged { OnErr result (image.new ≡ image.old) }
{
    let (lbns, blocks) = renumbered(alloc, &Disk { image, layout }, directory)?;
    put_blocks(image, &lbns, &blocks);
    Ok(())
}

/// The blocks of a directory by their LBNs, and what they become.
fn renumbered(
    alloc: Global,
    disk: &Disk<'_>,
    directory: u16,
) -> Result<(Vec<u32>, Vec<Block>), RepairFault>
    requires { on IsLayoutOf disk.now }
    ensures ready { IfOk result (λ r. on IsReadyDirectory disk.now directory r.0.items) }
    ensures names { IfOk result (λ r. AreRenumbered (entry_at (contents_of disk.now.image.now r.0.items)) (entry_at r.1.items) (seen mark_at disk.now directory r.0.items / 16)) }
    ensures long { IfOk result (λ r. length r.1.items ≡ length r.0.items) }
    ensures refused { IfErr result (on IsNotRenumbered disk.now directory) }
{
    let found = ready_directory(alloc, disk, directory)?;
    let mut blocks = copied_blocks(alloc, disk.image, &found.lbns)?;
    let count = (found.mark / 16) as usize;
    renumber(alloc, &mut blocks, count)?;
    Ok((found.lbns, blocks))
}

/// The directory with its mark, where its blocks can change with nothing else and each of its entries is a name.
fn ready_directory(
    alloc: Global,
    disk: &Disk<'_>,
    directory: u16,
) -> Result<WholeDirectory, RepairFault>
    requires { on IsLayoutOf disk.now }
    ensures whole { IfOk result (λ d. on IsWholeDirectory disk.now directory d.lbns.items d.mark) }
    ensures ready { IfOk result (λ d. on IsReadyDirectory disk.now directory d.lbns.items) }
    ensures refused { IfErr result (on IsNotRenumbered disk.now directory) }
{
    let Some(found) = whole_directory(alloc, disk, directory)? else {
        return Err(RepairFault::NoDirectory);
    };
    check_ready(alloc, disk, directory, &found)?;
    Ok(found)
}

/// The blocks of the directory can change with nothing else, and each of its entries is a name.
fn check_ready(
    alloc: Global,
    disk: &Disk<'_>,
    directory: u16,
    found: &WholeDirectory,
) -> Result<(), RepairFault>
    requires layout { on IsLayoutOf disk.now }
    requires whole { on IsWholeDirectory disk.now directory found.now.lbns.items found.now.mark }
    ensures ready { OnOk result (on IsReadyDirectory disk.now directory found.now.lbns.items) }
    ensures refused { IfErr result (on IsNotRenumbered disk.now directory) }
{
    check_spare(alloc, disk, directory, &found.lbns, 0)?;
    let blocks = FileBlocks::new(disk.image, &found.lbns);
    if has_bad_entry(&blocks, found.mark) {
        return Err(RepairFault::BadEntry);
    }
    Ok(())
}

/// The blocks at these LBNs.
fn copied_blocks(alloc: Global, image: &Image, lbns: &[u32]) -> Result<Vec<Block>, AllocError>
    requires { All (λ b. b < length image.now) lbns.now }
    ensures { IfOk result (λ blocks. blocks.items ≡ contents_of image.now lbns.now) }
{
    let mut blocks = Vec::with_capacity(alloc, lbns.len())?;
    for lbn in lbns {
        blocks.push(*image.block(*lbn))?;
    }
    Ok(blocks)
}

/// Gives the names among the first `count` entries of a directory that are there already the next version.
fn renumber(alloc: Global, blocks: &mut [Block], count: usize) -> Result<(), RepairFault>
    requires { count ≤ 32 * length blocks.old }
    ensures names { OnOk result (AreRenumbered (entry_at blocks.old) (entry_at blocks.new) count) }
    ensures long { length blocks.new ≡ length blocks.old }
    ensures refused { IfErr result (λ why. (why ≡ RepairFault.NoMemory) ⊎ ((why ≡ RepairFault.VersionsFull) × IsFull (entry_at blocks.old) count)) }
{
    let mut highest = highest_versions(alloc, blocks, count)?;
    let mut seen = Noted::new(alloc);
    for k in 0..count {
        renumber_one(blocks, k, &mut highest, &mut seen)?;
    }
    Ok(())
}

/// The highest version of each name among the first `count` entries.
fn highest_versions(alloc: Global, blocks: &[Block], count: usize) -> Result<Noted, AllocError>
    requires { count ≤ 32 * length blocks.now }
    ensures { IfOk result (λ highest. AreHighest (entry_at blocks.now) count count (number_in highest)) }
{
    let mut highest = Noted::new(alloc);
    for k in 0..count {
        note_version(blocks, k, &mut highest)?;
    }
    Ok(highest)
}

/// Notes the version of entry `k`, where it is used and that is the highest of its name so far.
fn note_version(blocks: &[Block], k: usize, highest: &mut Noted) -> Result<(), AllocError>
    requires { k < 32 * length blocks.now }
    ensures { OnOk result ((count : ℕ) → k < count → AreHighest (entry_at blocks.now) count k (number_in highest.old) → AreHighest (entry_at blocks.now) count (k + 1) (number_in highest.new)) }
{
    let Some(key) = used_key(blocks, k) else {
        return Ok(());
    };
    let name = name_of(&key);
    let known = highest.get(&name).unwrap_or(0);
    highest.put(name, known.max(key[4]))?;
    Ok(())
}

/// Gives entry `k` the next version of its name where its key came before. `highest` has the highest version of each name, and `seen` the keys before.
fn renumber_one(
    blocks: &mut [Block],
    k: usize,
    highest: &mut Noted,
    seen: &mut Noted,
) -> Result<(), RepairFault>
    requires { k < 32 * length blocks.old }
    ensures ok { OnOk result ((old : ℕ → Entry) (count : ℕ) → ((j : ℕ) → length (old j).key ≡ 5) → k < count
        → IsPartly old (entry_at blocks.old) count k (number_in highest.old) (number_in seen.old)
        → IsPartly old (entry_at blocks.new) count (k + 1) (number_in highest.new) (number_in seen.new)) }
    ensures long { length blocks.new ≡ length blocks.old }
    ensures refused { IfErr result (λ why. (why ≡ RepairFault.NoMemory) ⊎ ((why ≡ RepairFault.VersionsFull)
        × ((old : ℕ → Entry) (count : ℕ) → k < count → IsPartly old (entry_at blocks.old) count k (number_in highest.old) (number_in seen.old) → IsFull old count))) }
{
    let Some(key) = used_key(blocks, k) else {
        return Ok(());
    };
    if seen.get(&key).is_none() {
        seen.put(key, 0)?;
        return Ok(());
    }
    let name = name_of(&key);
    let known = highest.get(&name).unwrap_or(0);
    if LAST_VERSION <= known {
        return Err(RepairFault::VersionsFull);
    }
    highest.put(name, known + 1)?;
    set_version(blocks, k, known + 1);
    Ok(())
}

/// The key of entry `k`, where it is used.
fn used_key(blocks: &[Block], k: usize) -> Option<Key>
    requires { k < 32 * length blocks.now }
    ensures some { IfSome result (λ key. IsTrue (is_used (entry_at blocks.now k)) × (key ≡ (entry_at blocks.now k).key)) }
    ensures none { IfNone result (¬ IsTrue (is_used (entry_at blocks.now k))) }
{
    let block = &blocks[k / 32];
    let at = 8 * (k % 32);
    if word(block, at) == 0 {
        return None;
    }
    Some([
        word(block, at + 3),
        word(block, at + 4),
        word(block, at + 5),
        word(block, at + 6),
        word(block, at + 7),
    ])
}

/// The key with 0 for its version.
fn name_of(key: &Key) -> Key
    ensures { result ≡ slice_set key.now 4 0 }
{
    let mut name = *key;
    name[4] = 0;
    name
}

/// Entry `k` gets this version.
fn set_version(blocks: &mut [Block], k: usize, version: u16)
    requires { k < 32 * length blocks.old }
    ensures here { entry_at blocks.new k ≡ with_version (entry_at blocks.old k) version }
    ensures others { (j : ℕ) → j ≢ k → entry_at blocks.new j ≡ entry_at blocks.old j }
    ensures long { length blocks.new ≡ length blocks.old }
{
    set_word(&mut blocks[k / 32], 8 * (k % 32) + 7, version);
}

/// Puts these blocks at these LBNs.
fn put_blocks(image: &mut Image, lbns: &[u32], blocks: &[Block])
    requires inside { All (λ b. b < length image.old) lbns.now }
    requires long { length blocks.now ≡ length lbns.now }
    ensures { IsPut image.old lbns.now blocks.now (length lbns.now) image.new }
{
    for i in 0..lbns.len() {
        image.copy_block(lbns[i], &blocks[i]);
    }
}
