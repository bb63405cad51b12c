//! Changing the attributes of a header.
ghost use Rattle.ods_base.specs.Block.{IsBlock};
ghost use Rattle.ods_header.specs.Attributes.{IsWithAttributes, KeepsOtherFields};

use crate::sum::set_sum;
use ods_base::Block;

/// Returns the block of a header with these attributes and a new checksum. Every other byte is unchanged, so a valid header stays valid and keeps its
/// other fields.
pub fn with_attributes(block: &Block, attributes: &[u8; 32]) -> Block
    ensures block { IsBlock result }
    ensures changed { IsWithAttributes block.now attributes.now result }
    ensures fields { KeepsOtherFields block.now attributes.now result }
{
    let _ = block.bytes();
    let mut changed = *block;
    changed.set_bytes(14, attributes);
    set_sum(&mut changed);
    changed
}
