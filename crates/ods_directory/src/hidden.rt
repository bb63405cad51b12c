//! Used entries past the end mark of a directory.
ghost use Rattle.std.specs.Prelude.{◌≡◌, ◌*◌, ◌<◌, length, MatchBool};
ghost use Rattle.ods_directory.specs.{Entry.entry_at, Entry.is_used, Hidden.HasHidden};

use crate::{DirBlocks, entry};

/// Returns whether an entry past the end mark is used. No request reads such an entry, and a request that grows the directory overwrites it.
pub fn has_hidden<B: DirBlocks>(blocks: &B, mark: u64) -> bool
    ensures { MatchBool result (HasHidden (B.blocks blocks.now) mark) (¬ HasHidden (B.blocks blocks.now) mark) }
{
    for k in mark / 16..32 * u64::from(blocks.count()) {
        if is_used_at(blocks, k) {
            return true;
        }
    }
    false
}

/// Whether entry `k` of the blocks is used.
fn is_used_at<B: DirBlocks>(blocks: &B, k: u64) -> bool
    requires { k < 32 * length (B.blocks blocks.now) }
    ensures { result ≡ is_used (entry_at (B.blocks blocks.now) k) }
{
    let _ = blocks.count();
    entry::is_used(blocks.block((k / 32) as u32), (k % 32) as usize)
}
