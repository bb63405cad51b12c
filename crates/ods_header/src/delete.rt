//! Headers that are deleted.
ghost use Rattle.std.specs.Prelude.{◌≡◌};
ghost use Rattle.ods_base.specs.Block.{IsBlock};
ghost use Rattle.ods_header.specs.Writing.{deleted};

use crate::sum::set_sum;
use ods_base::{Block, set_word};

/// Returns the block of a header after its deletion. Only its number, which becomes 0, and its checksum change.
pub fn deleted_header(block: &Block) -> Block
    ensures block { IsBlock result }
    ensures value { result ≡ deleted block.now }
{
    let mut cleared = *block;
    set_word(&mut cleared, 1, 0);
    set_sum(&mut cleared);
    cleared
}
