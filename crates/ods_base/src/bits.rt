//! Bits of a block, numbered from the low end of each byte: one at a time, or 64 at once.
ghost use Rattle.std.specs.Prelude.{◌≡◌, ◌+◌, ◌*◌, ◌<◌};
ghost use Rattle.ods_base.specs.{Block.IsBlock, Block.has_bit, Bits.HasBit, Bits.IsWordOf};

use crate::Block;

/// Returns bit `i` of a block.
pub fn bit(block: &Block, i: u32) -> bool
    requires { i < 4096 }
    ensures { result ≡ has_bit block.now i }
{
    block.byte((i / 8) as usize) >> (i % 8) & 1 == 1
}

/// Sets or clears bit `i` of a block. Every other bit is unchanged.
pub fn set_bit(block: &mut Block, i: u32, value: bool)
    requires { i < 4096 }
    ensures stays { IsBlock block.new }
    ensures bits { HasBit block.old i value block.new }
{
    let _ = block.bytes();
    let at = (i / 8) as usize;
    let old = block.byte(at);
    let mask = 1u8 << (i % 8);
    let byte = if value { old | mask } else { old & !mask };
    block.set_bytes(at, &[byte]);
}

/// Returns 64 bits of a block, from bit `64 * k` on.
pub fn bit_word(block: &Block, k: u32) -> u64
    requires { k < 64 }
    ensures { IsWordOf (λ i. has_bit block.now (64 * k + i)) result }
{
    let at = 8 * k as usize;
    let mut bytes = [0; 8];
    bytes.copy_from_slice(&block.bytes()[at..at + 8]);
    u64::from_le_bytes(bytes)
}
