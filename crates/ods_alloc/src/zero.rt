//! Setting blocks to zeros.
ghost use Rattle.std.specs.Prelude.{List, ℕ, OnOk};
ghost use Rattle.std.specs.List.{flat_map};
ghost use Rattle.ods_header.specs.Header.{run_blocks};
ghost use Rattle.ods_space.specs.Draft.{applied};
ghost use Rattle.ods_alloc.specs.Zeroed.{IsZeroed};

use ods_header::Run;
use ods_space::Draft;
use std::alloc::AllocError;

/// Sets the blocks of these runs to zeros in a draft. No other block changes. After an `Err` the draft may change some of these blocks to zeros.
pub fn zero_runs(runs: &[Run], draft: &mut Draft) -> Result<(), AllocError>
    ensures { OnOk result ((I : List (List ℕ)) → IsZeroed (applied I draft.old) (flat_map run_blocks runs.now) (applied I draft.new)) }
{
    for run in runs {
        draft.zero(*run)?;
    }
    Ok(())
}
