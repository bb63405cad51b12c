//! The runs of INDEXF.SYS, as `info` shows them in a JSON object.
ghost use Rattle.std.specs.Prelude.{◌≡◌, ◌+◌, ◌++◌, ◌<◌, ◌≤◌, false, if◌then◌else◌, length, map, IfOk, OnOk};
ghost use Rattle.std.specs.List.{flat_map, range_with_len};
ghost use Rattle.serde_json.specs.Data.{object};
ghost use Rattle.serde_json.specs.View.{members_view, view};
ghost use Rattle.serde_json.specs.Written.{members_have_float};
ghost use Rattle.ods_shell.specs.Info.{run_ended, run_item, run_members, with_runs};
ghost use Rattle.ods_shell.specs.Stat.{is_run_end};

use crate::json::{add, add_number, no_fields};
use crate::stat::ends_run;
use serde_json::{Map, Value};
use std::alloc::{AllocError, Global};

/// Adds the runs of these blocks: an object for each, with the LBN of its first block and its number of blocks.
#[tactic(auto, using(crate::proofs::RunObjects::runs_put_plain))]
pub(crate) fn add_runs(
    alloc: Global,
    members: &mut Map<String, Value>,
    lbns: &[u32],
) -> Result<(), AllocError>
    ensures members { OnOk result (members_view members.new.entries ≡ with_runs lbns.now (members_view members.old.entries)) }
    ensures plain { members_have_float (members_view members.old.entries) ≡ false → OnOk result (members_have_float (members_view members.new.entries) ≡ false) }
{
    let runs = run_values(alloc, lbns)?;
    add(alloc, members, "index_runs", Value::Array(runs))
}

/// An object for each run.
fn run_values(alloc: Global, lbns: &[u32]) -> Result<Vec<Value>, AllocError>
    ensures { IfOk result (λ runs. map view runs.items ≡ flat_map (run_item lbns.now) (range_with_len 0 (length lbns.now))) }
{
    let mut runs = Vec::new(alloc);
    let mut from = 0;
    for at in 0..lbns.len() {
        from = push_run_value(alloc, &mut runs, lbns, from, at)?;
    }
    Ok(runs)
}

/// Adds the run that ends with this block, where one does. The answer is where the run of the next block begins.
fn push_run_value(
    alloc: Global,
    runs: &mut Vec<Value>,
    lbns: &[u32],
    from: usize,
    at: usize,
) -> Result<usize, AllocError>
    requires block { at < length lbns.now }
    requires start { from ≤ at }
    ensures next { IfOk result (λ next. next ≡ (if is_run_end lbns.now at then at + 1 else from)) }
    ensures runs { OnOk result (map view runs.new.items ≡ map view runs.old.items ++ run_ended lbns.now from at) }
{
    if !ends_run(lbns, at) {
        return Ok(from);
    }
    runs.push(run_value(alloc, lbns, from, at)?)?;
    Ok(at + 1)
}

/// The object of a run: the LBN of its first block, and how many blocks it has.
#[tactic(auto, using(crate::proofs::RunObjects::object_seen))]
fn run_value(alloc: Global, lbns: &[u32], from: usize, at: usize) -> Result<Value, AllocError>
    requires block { at < length lbns.now }
    requires start { from ≤ at }
    ensures { IfOk result (λ value. view value ≡ object (run_members lbns.now from at)) }
{
    let blocks = at + 1 - from;
    let first = (lbns[at] as usize).saturating_sub(at - from);
    let mut members = no_fields(alloc);
    add_number(alloc, &mut members, "blocks", blocks as u64)?;
    add_number(alloc, &mut members, "lbn", first as u64)?;
    Ok(Value::Object(members))
}
