//! Retrieval pointers, written into a block.
ghost use Rattle.std.specs.Prelude.{◌≡◌, ◌+◌, ◌*◌, ◌≤◌, length};
ghost use Rattle.ods_base.specs.Block.{IsBlock};
ghost use Rattle.ods_header.specs.Writing.{pointer_bytes, HasPointersAt, SameOutside};

use crate::Run;
use ods_base::Block;

/// Writes pointers from byte `at` on.
pub(crate) fn write_pointers(block: &mut Block, at: usize, runs: &[Run])
    requires few { at + 4 * length runs.now ≤ 512 }
    ensures pointers { HasPointersAt block.new at runs.now }
    ensures outside { SameOutside block.old block.new at (at + 4 * length runs.now) }
    ensures block { IsBlock block.new }
{
    let _ = block.bytes();
    for (k, run) in runs.iter().enumerate() {
        block.set_bytes(at + 4 * k, &pointer(run));
    }
}

/// The four bytes of a pointer.
fn pointer(run: &Run) -> [u8; 4]
    ensures { result ≡ pointer_bytes run.now }
{
    let low = ((run.lbn % 65536) as u16).to_le_bytes();
    [
        (run.lbn / 65536 % 256) as u8,
        (run.count.saturating_sub(1) % 256) as u8,
        low[0],
        low[1],
    ]
}
