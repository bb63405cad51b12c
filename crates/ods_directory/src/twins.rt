//! Two names of a directory that are equal.
ghost use Rattle.std.specs.Prelude.{◌≡◌, ◌*◌, ◌≤◌, length, IfOk, MatchBool};
ghost use Rattle.std.specs.List.Sorted.{IsPermutation};
ghost use Rattle.ods_directory.specs.{Entry.used_entries, Names.AreDistinct, Names.HasTwins, Lines.IsInOrder, Lines.HasTwinNeighbours, Lines.HasNoTwinNeighbours};

use crate::DirBlocks;
use crate::lines::{Key, read_rows};
use std::alloc::{AllocError, Global};

/// Returns whether two used entries before the end mark have the same name, type and version. The entries need not be valid. The only error is out of
/// memory; it needs ten bytes for each used entry.
pub fn has_twins<B: DirBlocks>(alloc: Global, blocks: &B, mark: u64) -> Result<bool, AllocError>
    requires { mark ≤ 512 * length (B.blocks blocks.now) }
    ensures { IfOk result (λ twins. MatchBool twins (HasTwins (used_entries (B.blocks blocks.now) mark)) (AreDistinct (used_entries (B.blocks blocks.now) mark))) }
{
    let mut keys: Vec<Key> = read_rows(alloc, blocks, mark)?;
    sort_keys(&mut keys);
    Ok(has_twin_neighbours(&keys))
}

/// Puts keys into order.
fn sort_keys(keys: &mut Vec<Key>)
    ensures permutation { IsPermutation keys.old.items keys.new.items }
    ensures order { IsInOrder (λ key. key) keys.new.items }
{
    keys.sort_unstable_by_key(key);
}

/// The key itself.
fn key(key: &Key) -> Key
    ensures { result ≡ key.now }
{
    *key
}

/// Whether two neighbours are the same.
fn has_twin_neighbours(keys: &[Key]) -> bool
    ensures { MatchBool result (HasTwinNeighbours (λ key. key) keys.now) (HasNoTwinNeighbours (λ key. key) keys.now (length keys.now)) }
{
    for i in 1..keys.len() {
        let one = &keys[i - 1];
        let other = &keys[i];
        if one == other {
            return true;
        }
    }
    false
}
