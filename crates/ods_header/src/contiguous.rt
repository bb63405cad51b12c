//! The bit of a header that marks the blocks of its file as contiguous.
ghost use Rattle.ods_base.specs.Block.{IsBlock};
ghost use Rattle.ods_header.specs.Contiguous.{IsWithoutContiguous, KeepsAllButContiguous};

use crate::sum::set_sum;
use ods_base::Block;

/// UC.CON of the user characteristics, H.UCHA: the blocks of the file are contiguous.
pub const CONTIGUOUS: u8 = 128;

/// Returns the block of a header with the contiguous bit cleared (UC.CON, bit 7 of the user characteristics) and a new checksum. Every other byte is
/// unchanged, so a valid header stays valid and keeps its other fields.
pub fn without_contiguous(block: &Block) -> Block
    ensures block { IsBlock result }
    ensures changed { IsWithoutContiguous block.now result }
    ensures fields { KeepsAllButContiguous block.now result }
{
    let _ = block.bytes();
    let mut changed = *block;
    changed.set_bytes(12, &[block.byte(12) & 127]);
    set_sum(&mut changed);
    changed
}
