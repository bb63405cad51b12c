//! The number of names in a directory, and whether it has one.
ghost use Rattle.std.specs.Prelude.{◌≡◌, ◌==◌, ◌*◌, ◌≤◌, not, length, map, filter};
ghost use Rattle.std.specs.List.{range_with_len};
ghost use Rattle.std.specs.FinMap.{len};
ghost use Rattle.ods_directory.specs.{Entry.entry_in, Entry.is_used, Names.IsDirectory, Names.names_of};

use crate::first::{Kind, first_entry};
use crate::scan::entries_in;
use crate::{DirBlocks, entry};
use ods_base::Block;

/// Returns the number of names.
pub fn name_count<B: DirBlocks>(blocks: &B, mark: u64) -> u64
    requires directory { IsDirectory (B.blocks blocks.now) mark }
    requires mark { mark ≤ 512 * length (B.blocks blocks.now) }
    ensures { result ≡ len (names_of (B.blocks blocks.now) mark) }
{
    let mut names = 0;
    for i in 0..blocks.count() {
        let count = entries_in(mark, i);
        if count == 0 {
            return names;
        }
        names += used_in(blocks.block(i), count);
    }
    names
}

/// Returns whether there is a name. The pass ends with the block of the first name.
pub fn has_names<B: DirBlocks>(blocks: &B, mark: u64) -> bool
    requires directory { IsDirectory (B.blocks blocks.now) mark }
    requires mark { mark ≤ 512 * length (B.blocks blocks.now) }
    ensures { result ≡ not (len (names_of (B.blocks blocks.now) mark) == 0) }
{
    first_entry(blocks, mark, Kind::Used).is_some()
}

/// How many of the first `count` entries of a block name a file.
fn used_in(block: &Block, count: usize) -> u64
    requires { count ≤ 32 }
    ensures used { result ≡ length (filter is_used (map (entry_in block.now) (range_with_len 0 count))) }
    ensures most { result ≤ count }
{
    let mut used = 0;
    for k in 0..count {
        if entry::is_used(block, k) {
            used += 1;
        }
    }
    used
}
