//! The slot for the next name of a directory.
ghost use Rattle.std.specs.Prelude.{◌≡◌, ◌*◌, ◌/◌, ◌<◌, ◌≤◌, false, length};
ghost use Rattle.std.specs.Option.{ForSome};
ghost use Rattle.ods_base.specs.{Block.IsBlock, Image.block_at};
ghost use Rattle.ods_directory.specs.{First.slot_of, Mark.IsSlot, Names.IsDirectory};

use crate::first::{Kind, first_entry};
use crate::{DirBlocks, Slot};

/// Returns the slot for the next name: the first empty entry before the end mark, or otherwise the entry at the mark.
pub fn slot_for<B: DirBlocks>(blocks: &B, mark: u64) -> Slot
    requires directory { IsDirectory (B.blocks blocks.now) mark }
    requires mark { mark ≤ 512 * length (B.blocks blocks.now) }
    ensures { IsSlot (B.blocks blocks.now) mark result }
{
    let empty = first_entry(blocks, mark, Kind::Empty);
    slot_at(empty, mark, blocks.count())
}

/// Returns the slot for a name, from the first empty entry before the end mark. If the slot does not grow, the directory has a whole block at its
/// position.
pub fn slot_in<B: DirBlocks>(blocks: &B, mark: u64, empty: Option<u64>) -> Slot
    requires empty { ForSome empty (λ k. k < mark / 16) }
    requires mark { mark ≤ 512 * length (B.blocks blocks.now) }
    ensures slot { result ≡ slot_of empty mark (length (B.blocks blocks.now)) }
    ensures whole { result.grows ≡ false → IsBlock (block_at (B.blocks blocks.now) (result.at / 512)) }
{
    let slot = slot_at(empty, mark, blocks.count());
    if !slot.grows {
        // What is read is a whole block.
        let _ = blocks.block((slot.at / 512) as u32);
    }
    slot
}

/// The slot, by the first empty entry before the mark and the count of blocks.
fn slot_at(empty: Option<u64>, mark: u64, count: u32) -> Slot
    requires empty { ForSome empty (λ k. k < mark / 16) }
    requires mark { mark ≤ 512 * count }
    ensures { result ≡ slot_of empty mark count }
{
    if let Some(position) = empty {
        return Slot {
            at: 16 * position,
            mark,
            grows: false,
        };
    }
    let at = mark / 16 * 16;
    Slot {
        at,
        mark: at + 16,
        grows: 512 * u64::from(count) <= at,
    }
}
