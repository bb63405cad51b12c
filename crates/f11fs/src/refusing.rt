//! The ends of changes that are refused: why, and of which path.
ghost use Rattle.std.specs.Prelude.{◌≡◌, ◌⊎◌, IfErr, IsOk, OnOk};
ghost use Rattle.fs_reads.specs.Ends.{StopsWith};
ghost use Rattle.fs_reads.specs.declared.stop.Stop.{Stop as End};
ghost use Rattle.ods_shell.specs.declared.status.Status.{Status as Code};
ghost use Rattle.ods_upkeep.specs.Pieces.{HasStatus};
ghost use Rattle.f11fs.specs.Changed.{IsRefusal};

use fs_host::Shown;
use fs_reads::{Stop, path_elsewhere, stop_about};
use ods_filing::Filing;
use ods_shell::PathFault;
use ods_upkeep::{Failure, Why};
use std::alloc::Global;

/// The end of a command whose change is made, or is refused.
pub(crate) fn end_change<'a>(
    alloc: Global,
    filing: &Filing,
    done: Result<(), Failure>,
) -> Result<(), Stop<'a>>
    ensures done { OnOk result (IsOk done) }
    ensures refused { IfErr result IsRefusal }
{
    match done {
        Ok(()) => Ok(()),
        Err(failure) => Err(stop_unfound(alloc, filing, &failure)),
    }
}

/// Returns the end of a command whose change is refused. If its path selects nothing, the line has also the path of a file of that name in another
/// directory.
pub fn stop_unfound<'a>(alloc: Global, filing: &Filing, failure: &Failure) -> Stop<'a>
    ensures refused { IsRefusal result }
    ensures status { (s : Code) × (HasStatus failure.now.why s × (StopsWith result s ⊎ (result ≡ End.NoMemory))) }
{
    match unfound_text(alloc, filing, failure) {
        Some(text) => stop_about(alloc, failure.path.as_str(), text, failure.status()),
        None => stop_failed(alloc, failure),
    }
}

/// Why a path selects nothing, with the path of a file of its name in another directory; None if there is none or another reason.
fn unfound_text(alloc: Global, filing: &Filing, failure: &Failure) -> Option<String> {
    if failure.why != Why::Path(PathFault::Nothing) {
        return None;
    }
    let near = path_elsewhere(alloc, &filing.disk(), failure.path.as_str(), filing.user())?;
    let (why, near) = (failure.why, Shown(near.as_str()));
    format!(in alloc; "{why}; {near} has this name").ok()
}

/// Returns the end of a command whose change is refused.
#[tactic(auto, using(crate::proofs::Refusals::is_refusal))]
pub fn stop_failed<'a>(alloc: Global, failure: &Failure) -> Stop<'a>
    ensures refused { IsRefusal result }
    ensures status { (s : Code) × (HasStatus failure.now.why s × (StopsWith result s ⊎ (result ≡ End.NoMemory))) }
{
    stop_about(alloc, failure.path.as_str(), failure.why, failure.status())
}
