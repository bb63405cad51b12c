//! Bytes as blocks.
ghost use Rattle.std.specs.Prelude.{◌≡◌, ◌*◌, ◌≤◌, length};
ghost use Rattle.ods_filing.specs.Put.{block_with, block_count};

use ods_base::Block;

/// Returns the number of blocks for these bytes, 512 bytes each.
pub fn blocks_for(bytes: &[u8]) -> usize
    ensures { result ≡ block_count bytes.now }
{
    bytes.len().div_ceil(512)
}

/// Returns block `k` of these bytes, counted from 0. The last block is padded with zeros.
pub(crate) fn block_of(bytes: &[u8], k: usize) -> Block
    requires { 512 * k ≤ length bytes.now }
    ensures { result ≡ block_with bytes.now k }
{
    let rest = &bytes[512 * k..];
    let here = &rest[..rest.len().min(512)];
    let mut block = Block::zeros();
    block.set_bytes(0, here);
    block
}
