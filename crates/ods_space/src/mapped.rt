//! Lookup of a block among the blocks that a header maps.
ghost use Rattle.std.specs.Prelude.{◌≡◌, slice_get};
ghost use Rattle.ods_header.specs.Header.{IsLaidOut, blocks_of};

use ods_base::Block;
use ods_header::{pointer_at, pointer_count};

/// The LBN of one of the blocks that a header maps, counted from 0.
pub(crate) fn mapped_block(header: &Block, index: u32) -> Option<u32>
    requires { IsLaidOut header.now }
    ensures { result ≡ slice_get (blocks_of header.now) index }
{
    let mut left = index;
    for k in 0..pointer_count(header) {
        let run = pointer_at(header, k);
        let count = run.count as u32;
        if left < count {
            return Some(run.lbn + left);
        }
        left -= count;
    }
    None
}
