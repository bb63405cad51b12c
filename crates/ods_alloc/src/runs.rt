//! Blocks as runs, as retrieval pointers store them.
ghost use Rattle.std.specs.Prelude.{◌≡◌, ◌<◌, ◌^◌, IfOk};
ghost use Rattle.std.specs.List.{All, flat_map};
ghost use Rattle.ods_header.specs.Header.{IsRun, run_blocks};
ghost use Rattle.ods_alloc.specs.Extend.{cut};

use ods_header::Run;
use std::alloc::{AllocError, Global};

/// Returns blocks as runs that pointers can store, in the order of the blocks. Each run is as long as possible.
pub fn runs_of_blocks(alloc: Global, blocks: &[u32]) -> Result<Vec<Run>, AllocError>
    ensures cut { IfOk result (λ runs. runs.items ≡ cut blocks.now) }
    ensures blocks { IfOk result (λ runs. flat_map run_blocks runs.items ≡ blocks.now) }
    ensures runs { IfOk result (λ runs. All (λ b. b < 2 ^ 24) blocks.now → All IsRun runs.items) }
{
    let mut runs = Vec::new(alloc);
    let Some((first, rest)) = blocks.split_first() else {
        return Ok(runs);
    };
    let mut open = Run {
        lbn: *first,
        count: 1,
    };
    for block in rest {
        if *block as u64 == open.lbn as u64 + open.count as u64 && open.count < 256 {
            open.count += 1;
        } else {
            runs.push(open)?;
            open = Run {
                lbn: *block,
                count: 1,
            };
        }
    }
    runs.push(open)?;
    Ok(runs)
}
