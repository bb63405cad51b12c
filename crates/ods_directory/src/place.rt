//! The location of an entry in the blocks of its directory, and how it is written there.
ghost use Rattle.std.specs.Prelude.{◌≡◌, ◌+◌, ◌/◌, ◌%◌, ◌≤◌};
ghost use Rattle.ods_base.specs.Block.{with_bytes};

use ods_base::Block;

/// How many words an entry has.
pub(crate) const ENTRY_WORDS: usize = 8;

/// The bytes of an entry that names no file. A removed name leaves these bytes.
pub const NO_ENTRY: [u8; 16] = [0; 16];

/// Returns the index of the block that has the entry at this byte of the directory, counted from 0.
pub fn entry_block(at: u64) -> u64
    ensures { result ≡ at / 512 }
{
    at / 512
}

/// Writes an entry into its block. `at` is the byte position of the entry in the directory.
pub fn put_entry(block: &mut Block, at: u64, entry: &[u8; 16])
    requires { at % 512 + 16 ≤ 512 }
    ensures { block.new ≡ with_bytes block.old (at % 512) entry.now }
{
    block.set_bytes((at % 512) as usize, entry);
}
