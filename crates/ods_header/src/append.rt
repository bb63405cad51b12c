//! The last header of a chain that grows: it receives more pointers and the number of the next header.
ghost use Rattle.std.specs.Prelude.{◌≡◌, ℕ, ◌+◌, ◌*◌, ◌/◌, ◌≤◌, length};
ghost use Rattle.std.specs.List.{All};
ghost use Rattle.ods_base.specs.Block.{IsBlock};
ghost use Rattle.ods_header.specs.{Header.IsLaidOut, Header.IsRun, Header.IsValidHeader, Header.room_of, Header.runs_of, Pointing.KeepsFields, Pointing.IsWithRuns, Pointing.IsWithNext, Pointing.IsGrown, Pointing.link_bytes};

use crate::Run;
use crate::map_area::{room, used_words};
use crate::pointers::write_pointers;
use crate::sum::set_sum;
use ods_base::{Block, FileId};

/// Returns the block of a header with these runs appended to its pointers. Only M.USE, the new pointers and the checksum change, so a valid header
/// stays valid.
pub fn append_runs(block: &Block, runs: &[Run]) -> Block
    requires layout { IsLaidOut block.now }
    requires room { length runs.now ≤ room_of block.now / 2 }
    requires runs { All IsRun runs.now }
    ensures block { IsBlock result }
    ensures changed { IsWithRuns block.now runs.now result }
    ensures fields { KeepsFields block.now result }
    ensures valid { (n : ℕ) → IsValidHeader block.now n → IsValidHeader result n }
{
    let _ = block.bytes();
    let map = 2 * block.byte(1) as usize;
    let used = used_words(block) as usize;
    let mut changed = *block;
    write_pointers(&mut changed, map + 10 + 2 * used, runs);
    let now = (used + 2 * runs.len()) as u8;
    changed.set_bytes(map + 8, &[now]);
    set_sum(&mut changed);
    changed
}

/// Returns the block of a header whose next header is `next`. Only M.ERVN, M.EFNU, M.EFSQ and the checksum change, so a valid header stays valid and
/// keeps its pointers.
pub fn with_next(block: &Block, next: FileId) -> Block
    requires layout { IsLaidOut block.now }
    ensures block { IsBlock result }
    ensures changed { IsWithNext block.now next.number next.sequence result }
    ensures fields { KeepsFields block.now result }
    ensures pointers { runs_of result ≡ runs_of block.now }
    ensures valid { (n : ℕ) → IsValidHeader block.now n → IsValidHeader result n }
{
    let _ = block.bytes();
    let map = 2 * block.byte(1) as usize;
    let mut changed = *block;
    changed.set_bytes(map + 1, &link(next));
    set_sum(&mut changed);
    changed
}

/// M.ERVN, M.EFNU and M.EFSQ of a link to this header.
fn link(next: FileId) -> [u8; 5]
    ensures { result ≡ link_bytes next.number next.sequence }
{
    let number = next.number.to_le_bytes();
    let sequence = next.sequence.to_le_bytes();
    [0, number[0], number[1], sequence[0], sequence[1]]
}

/// Returns the last header of a chain after the chain grows. It appends as many of the runs as the header has room for. If the number of `next` is
/// not 0, `next` becomes the next header. A valid header stays valid and keeps its other fields.
pub fn grown_last(block: &Block, number: u16, runs: &[Run], next: FileId) -> Block
    requires valid { IsValidHeader block.now number }
    requires runs { All IsRun runs.now }
    ensures block { IsBlock result }
    ensures grown { IsGrown block.now runs.now next.number next.sequence result }
{
    let taken = &runs[..room(block).min(runs.len())];
    let grown = append_runs(block, taken);
    if next.number == 0 {
        grown
    } else {
        with_next(&grown, next)
    }
}
