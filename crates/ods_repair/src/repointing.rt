//! Headers with one changed retrieval pointer.
ghost use Rattle.std.specs.Prelude.{◌^◌, ◌/◌, ◌<◌};
ghost use Rattle.ods_header.specs.Header.{IsLaidOut, used_words_of};
ghost use Rattle.ods_repair.specs.Repointed.{IsRepointed};

use ods_base::{Block, set_word, sum};

/// Returns the block of a header with this LBN in retrieval pointer `at`, counted from 0, and with its new checksum. The pointer names as many
/// blocks as before, and every other byte is unchanged.
pub(crate) fn repointed(block: &Block, at: usize, to: u32) -> Block
    requires layout { IsLaidOut block.now }
    requires inside { at < used_words_of block.now / 2 }
    requires small { to < 2 ^ 24 }
    ensures { IsRepointed block.now at to result }
{
    let _ = block.bytes();
    let place = 2 * block.byte(1) as usize + 10 + 4 * at;
    let low = ((to % 65536) as u16).to_le_bytes();
    let bytes = [(to / 65536) as u8, block.byte(place + 1), low[0], low[1]];
    let mut changed = *block;
    changed.set_bytes(place, &bytes);
    let total = sum(&changed, 255);
    set_word(&mut changed, 255, total);
    changed
}
