//! `truncate` cuts a file to fewer bytes.
ghost use Rattle.std.specs.Prelude.{◌≤◌, ◌*◌, nat_lt, if◌then◌else◌, List, [], ◌∷◌, IfErr, MatchResult, OnOk};
ghost use Rattle.ods_filing.specs.Led.{IsLed};
ghost use Rattle.ods_request.specs.declared.requests.Request.{Request as Asked};
ghost use Rattle.ods_upkeep.specs.Cut.{AreCuts, IsCut, IsCuttable, IsNoCut, IsNotCut, IsNotTruncated, IsTruncated, StopsCutting};
ghost use Rattle.ods_upkeep.specs.{Kinds.Cuts, Refused.StopsAt, Removed.Does};

use crate::asking::obey;
use crate::attributes::ending_at;
use crate::failure::{Failure, Why, of_path};
use ods_filing::Filing;
use ods_mount::Mounted;
use ods_request::{Refusal, Request};
use ods_shell::mounted::find_path;
use ods_shell::{Alone, Facts, Kind, PathFault, Unsaid};
use std::alloc::Global;

/// Cuts a file to `bytes` bytes: frees the blocks past them, and sets F.EFBK, F.FFBY and F.HIBK. A file never grows.
pub fn truncate_file(
    alloc: Global,
    filing: &mut Filing,
    path: &str,
    bytes: u64,
) -> Result<(), Failure>
    // Refused or not, it is what Truncate and SetUser leave.
    ensures led { IsLed Cuts filing.old filing.new }
    // Done, the one file that the path names has so many bytes.
    ensures done { OnOk result (IsTruncated path.now bytes filing.old filing.new) }
    // Refused, it is so for a reason that holds, and of the path.
    ensures refused { IfErr result (IsNotTruncated path.now bytes filing.old filing.new) }
{
    let facts = match the_file(alloc, filing.mounted(), path, bytes) {
        Ok(facts) => facts,
        Err(why) => return Err(of_path(alloc, path, why)),
    };
    match cut(filing, &facts, bytes) {
        Ok(()) => Ok(()),
        Err(why) => Err(of_path(alloc, path, why)),
    }
}

/// The one file that is meant, where it has so many bytes.
fn the_file(alloc: Global, volume: &Mounted, path: &str, bytes: u64) -> Result<Facts, Why>
    ensures { MatchResult result (IsCut volume.now.image volume.now.layout path.now bytes) (IsNotCut volume.now.image volume.now.layout path.now bytes) }
{
    let (found, _) = find_path(alloc, volume, path, Unsaid::highest(Alone::Refused), &[])?;
    let [one] = found.as_slice() else {
        return Err(Why::Several);
    };
    to_be_cut(one.facts, bytes)
}

/// What is known of a file, where it can be cut to so many bytes.
fn to_be_cut(known: Option<Facts>, bytes: u64) -> Result<Facts, Why>
    ensures { MatchResult result (IsCuttable known bytes) (IsNoCut known bytes) }
{
    let Some(facts) = known else {
        return Err(Why::Path(PathFault::NoSuchFile));
    };
    if facts.kind == Kind::Directory {
        return Err(Why::IsDirectory);
    }
    if facts.file.number <= 5 {
        return Err(Why::Request(Refusal::Reserved));
    }
    if bytes > facts.bytes {
        return Err(Why::PastEnd);
    }
    if bytes > u64::from(facts.blocks).saturating_mul(512) {
        return Err(Why::PastEnd);
    }
    Ok(facts)
}

/// Cuts the file.
fn cut(filing: &mut Filing, facts: &Facts, bytes: u64) -> Result<(), Why>
    requires { bytes ≤ 512 * facts.now.blocks }
    ensures led { IsLed Cuts filing.old filing.new }
    ensures done { OnOk result ((requests : List Asked) × AreCuts facts.now bytes requests × Does filing.old requests filing.new) }
    ensures refused { IfErr result (StopsCutting facts.now bytes filing.old filing.new) }
{
    let attributes = ending_at(facts.attributes, bytes)?;
    at_most(filing, facts, bytes.div_ceil(512) as u32)?;
    if attributes == facts.attributes {
        return Ok(());
    }
    obey(
        filing,
        Request::SetUser {
            file: facts.file,
            attributes,
        },
    )
}

/// Keeps the first blocks, where there are more.
fn at_most(filing: &mut Filing, facts: &Facts, blocks: u32) -> Result<(), Why>
    ensures led { IsLed Cuts filing.old filing.new }
    ensures done { OnOk result (Does filing.old (if nat_lt blocks facts.now.blocks then Request.Truncate facts.now.file blocks ∷ [] else []) filing.new) }
    ensures refused { IfErr result (StopsAt filing.old (if nat_lt blocks facts.now.blocks then Request.Truncate facts.now.file blocks ∷ [] else []) filing.new) }
{
    if blocks >= facts.blocks {
        return Ok(());
    }
    obey(
        filing,
        Request::Truncate {
            file: facts.file,
            blocks,
        },
    )
}
