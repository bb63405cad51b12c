//! Headers of files that are cut: fewer pointers, and no next header.
ghost use Rattle.std.specs.Prelude.{ℕ};
ghost use Rattle.ods_base.specs.Block.{IsBlock};
ghost use Rattle.ods_header.specs.{Header.IsLaidOut, Header.IsValidHeader, Header.runs_of, Pointing.KeepsFields, Cutting.IsCutTo, Cutting.IsCutEnd, Cutting.first_runs};

use crate::map_area::{pointer_at, pointer_count};
use crate::sum::set_sum;
use ods_base::Block;

/// Returns the block of a header that keeps the first `count` of the blocks that it maps, and has no next header. Pointers past these blocks are
/// dropped, and the last kept pointer ends with the last kept block. A header that maps fewer blocks keeps all its pointers. Only M.EFNU, M.EFSQ,
/// M.USE, the count of the last pointer and the checksum change, so a valid header stays valid.
pub fn cut_header(block: &Block, count: u32) -> Block
    requires { IsLaidOut block.now }
    ensures block { IsBlock result }
    ensures changed { IsCutTo block.now (first_runs count (runs_of block.now)) result }
    ensures fields { KeepsFields block.now result }
    ensures valid { (n : ℕ) → IsValidHeader block.now n → IsValidHeader result n }
{
    let _ = block.bytes();
    let map = 2 * block.byte(1) as usize;
    let (pointers, last) = cut_end(block, count);
    let mut changed = *block;
    changed.set_bytes(map + 2, &[0, 0, 0, 0]);
    changed.set_bytes(map + 7 + 4 * pointers as usize, &[last]);
    changed.set_bytes(map + 8, &[2 * pointers]);
    set_sum(&mut changed);
    changed
}

/// How many pointers the first blocks of a header take, so many blocks or all, and the count byte that the last of
/// these pointers has then. With no pointer it is the byte at the place where it would stand, which is M.LBSZ.
fn cut_end(block: &Block, count: u32) -> (u8, u8)
    requires { IsLaidOut block.now }
    ensures { IsCutEnd block.now count result.0 result.1 }
{
    let _ = block.bytes();
    let map = 2 * block.byte(1) as usize;
    let mut left = count;
    for k in 0..pointer_count(block) {
        if left == 0 {
            return (k as u8, block.byte(map + 7 + 4 * k));
        }
        let run = pointer_at(block, k);
        if left < run.count as u32 {
            return (k as u8 + 1, (left - 1) as u8);
        }
        left -= run.count as u32;
    }
    let all = pointer_count(block);
    (all as u8, block.byte(map + 7 + 4 * all))
}
