//! Blocks of bitmaps.
ghost use Rattle.std.specs.Prelude.{◌≡◌};
ghost use Rattle.ods_init.specs.Blocks.{HasBits};

use ods_base::{Block, set_bit};

/// Returns the block whose bits from `from` on and before `end` are set. Bits past the 4,096 of a block are skipped.
pub fn bits_between(from: u32, end: u32) -> Block
    ensures { HasBits result from end }
{
    let end = end.min(4_096);
    let mut block = Block::zeros();
    for i in from.min(end)..end {
        set_bit(&mut block, i, true);
    }
    block
}
