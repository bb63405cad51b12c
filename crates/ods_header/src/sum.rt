//! The checksum of a header.
ghost use Rattle.std.specs.Prelude.{◌≡◌};
ghost use Rattle.ods_base.specs.Block.{IsBlock};
ghost use Rattle.ods_header.specs.Writing.{with_sum};

use ods_base::{Block, set_word, sum};

/// H.CKSM, the sum of the words before it, made anew.
pub(crate) fn set_sum(block: &mut Block)
    ensures changed { block.new ≡ with_sum block.old }
    ensures stays { IsBlock block.new }
{
    let total = sum(block, 255);
    set_word(block, 255, total);
}
