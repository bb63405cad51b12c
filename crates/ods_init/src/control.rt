//! The storage control block, by which RSX knows the bitmap after it.
ghost use Rattle.std.specs.Prelude.{◌≡◌, ◌≤◌, ◌<◌, ◌^◌};
ghost use Rattle.ods_init.specs.Blocks.{IsControlBlock, counted, first_in, free_in};

use crate::Places;
use ods_base::{Block, set_word};

/// The most blocks of a bitmap for which the control block has two words each.
const MOST_COUNTED: u32 = 126;

/// Returns the storage control block. Byte 3 is the low byte of the number of the bitmap's blocks. For each of these blocks two words follow: the
/// number of free blocks, and the first free block. The size of the volume is last, its high word first. If the bitmap has more than 126 blocks, the
/// pairs of words are left out.
pub fn control_block(blocks: u32, places: Places) -> Block
    requires map { places.map_blocks ≤ 256 }
    requires master { places.master < 2 ^ 20 }
    requires size { blocks ≤ 2 ^ 20 }
    ensures { IsControlBlock blocks places result }
{
    let count = counted_blocks(places.map_blocks);
    let mut block = Block::zeros();
    set_word(&mut block, 1, 256 * (places.map_blocks % 256) as u16);
    for k in 0..count {
        let first = (places.master + 1).saturating_sub(4_096 * k).min(4_096);
        let end = blocks.saturating_sub(4_096 * k).min(4_096);
        set_word(
            &mut block,
            2 + 2 * k as usize,
            end.saturating_sub(first) as u16,
        );
        set_word(&mut block, 3 + 2 * k as usize, (first % 4_096) as u16);
    }
    let at = 2 + 2 * count as usize;
    set_word(&mut block, at, (blocks / 65_536) as u16);
    set_word(&mut block, at + 1, (blocks % 65_536) as u16);
    block
}

/// How many blocks of a bitmap are counted: all where the control block has room for them, or none.
fn counted_blocks(map_blocks: u32) -> u32
    ensures value { result ≡ counted map_blocks }
    ensures few { result ≤ 126 }
{
    if map_blocks <= MOST_COUNTED {
        map_blocks
    } else {
        0
    }
}
