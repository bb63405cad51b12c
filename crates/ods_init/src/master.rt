//! The master directory of a new volume.
ghost use Rattle.std.specs.Prelude.{◌≡◌, ◌≤◌, length};
ghost use Rattle.ods_init.specs.Blocks.{master_block, reserved_entry, starting};

use crate::reserved::reserved_name;
use ods_base::Block;

/// Returns the master directory: the entries of the five reserved files.
pub fn master_directory() -> Block
    ensures { result ≡ master_block }
{
    let entries = [
        entry_of(1),
        entry_of(2),
        entry_of(3),
        entry_of(4),
        entry_of(5),
    ];
    starting(entries.as_flattened())
}

/// A block that begins with these bytes, and has zeros behind them.
fn starting(bytes: &[u8]) -> Block
    requires { length bytes.now ≤ 512 }
    ensures { result ≡ starting bytes.now }
{
    let mut block = Block::zeros();
    block.set_bytes(0, bytes);
    block
}

/// The entry of the reserved file of a number.
fn entry_of(number: u16) -> [u8; 16]
    ensures { result ≡ reserved_entry number }
{
    let name = reserved_name(number);
    let [first, second, third] = name.words();
    let id = number.to_le_bytes();
    let (first, second) = (first.to_le_bytes(), second.to_le_bytes());
    let (third, ext) = (third.to_le_bytes(), name.ext().to_le_bytes());
    [
        id[0], id[1], id[0], id[1], 0, 0, first[0], first[1], second[0], second[1], third[0],
        third[1], ext[0], ext[1], 1, 0,
    ]
}
