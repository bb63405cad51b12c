//! Blocks that are valid headers, at any LBN.
ghost use Rattle.std.specs.Prelude.{◌↔◌, IsTrue};
ghost use Rattle.ods_remains.specs.Candidates.{IsCandidate};

use ods_base::Block;
use ods_header::{file_number, is_valid_header};

/// Returns whether a block is a valid header of the number in it, and this number is not 0.
pub fn is_candidate(block: &Block) -> bool
    ensures { IsTrue result ↔ IsCandidate block.now }
{
    let number = file_number(block);
    number != 0 && is_valid_header(block, number)
}
