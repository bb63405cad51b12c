//! The output of `info` for a volume as one JSON object.
ghost use Rattle.std.specs.Prelude.{◌≡◌, ◌+◌, codes, false, IfOk, OnOk};
ghost use Rattle.std.specs.String.{string_bytes};
ghost use Rattle.serde_json.specs.View.{members_view};
ghost use Rattle.serde_json.specs.Written.{members_have_float};
ghost use Rattle.ods_shell.specs.Info.{info_members, with_answer, with_bitmap, with_index, with_limits, with_said};
ghost use Rattle.ods_shell.specs.Json.{object_line};

use crate::info::Info;
use crate::info_runs::add_runs;
use crate::info_texts::{behind_bitmap, label_text};
use crate::json::{add_number, add_text, fields_of_image, push_object};
use crate::texts::{date_text, push_user, rights_text};
use serde_json::{Map, Value};
use std::alloc::{AllocError, Global};

/// Returns a JSON object with the facts of the volume in this image. `index` has the LBNs of INDEXF.SYS, `behind` is the number of image bytes
/// after the volume, and `answer` is the result of a mount.
pub fn info_object(
    alloc: Global,
    image: &str,
    info: &Info,
    index: &[u32],
    behind: u64,
    answer: &str,
) -> Result<String, AllocError>
    ensures { IfOk result (λ line. string_bytes line ≡ object_line (info_members image.now info.now index.now behind answer.now)) }
{
    let mut members = fields_of_image(alloc, image)?;
    add_said(alloc, info, &mut members)?;
    add_limits(alloc, &mut members, info.blocks, info.most, info.ready)?;
    add_number(alloc, &mut members, "home_block", u64::from(info.home))?;
    add_bitmap(alloc, &mut members, info.bitmap, info.bitmap_blocks)?;
    add_index(alloc, &mut members, behind_bitmap(info), info.index_blocks)?;
    add_runs(alloc, &mut members, index)?;
    add_answer(alloc, &mut members, behind, answer)?;
    let mut text = String::new(alloc);
    push_object(alloc, &mut text, members)?;
    Ok(text)
}

/// Adds what the home block says of the volume.
#[tactic(auto, unfolding(crate::specs::Info::with_said))]
fn add_said(alloc: Global, info: &Info, members: &mut Map<String, Value>) -> Result<(), AllocError>
    ensures members { OnOk result (members_view members.new.entries ≡ with_said info.now (members_view members.old.entries)) }
    ensures plain { members_have_float (members_view members.old.entries) ≡ false → OnOk result (members_have_float (members_view members.new.entries) ≡ false) }
{
    add_text(alloc, members, "label", label_text(&info.label).as_str())?;
    let mut owner = String::new(alloc);
    push_user(&mut owner, info.owner)?;
    add_text(alloc, members, "owner", owner.as_str())?;
    let level = format!(in alloc; "{:o}", info.level)?;
    add_text(alloc, members, "level", level.as_str())?;
    let protection = rights_text(info.protection);
    add_text(alloc, members, "protection", protection.as_str())?;
    add_text(alloc, members, "made", date_text(&info.made).as_str())
}

/// Adds how large the volume is.
#[tactic(auto, unfolding(crate::specs::Info::with_limits))]
fn add_limits(
    alloc: Global,
    members: &mut Map<String, Value>,
    blocks: u32,
    most: u16,
    ready: u32,
) -> Result<(), AllocError>
    ensures members { OnOk result (members_view members.new.entries ≡ with_limits blocks most ready (members_view members.old.entries)) }
    ensures plain { members_have_float (members_view members.old.entries) ≡ false → OnOk result (members_have_float (members_view members.new.entries) ≡ false) }
{
    add_number(alloc, members, "blocks", u64::from(blocks))?;
    add_number(alloc, members, "numbers", u64::from(most))?;
    add_number(alloc, members, "numbers_ready", u64::from(ready))
}

/// Adds where the index bitmap lies.
#[tactic(auto, unfolding(crate::specs::Info::with_bitmap))]
fn add_bitmap(
    alloc: Global,
    members: &mut Map<String, Value>,
    bitmap: u32,
    blocks: u16,
) -> Result<(), AllocError>
    ensures members { OnOk result (members_view members.new.entries ≡ with_bitmap bitmap blocks (members_view members.old.entries)) }
    ensures plain { members_have_float (members_view members.old.entries) ≡ false → OnOk result (members_have_float (members_view members.new.entries) ≡ false) }
{
    add_number(alloc, members, "index_bitmap", u64::from(bitmap))?;
    add_number(alloc, members, "index_bitmap_blocks", u64::from(blocks))
}

/// Adds where the header of INDEXF.SYS stands, and how many blocks that file has.
#[tactic(auto, unfolding(crate::specs::Info::with_index))]
fn add_index(
    alloc: Global,
    members: &mut Map<String, Value>,
    header: u64,
    blocks: u64,
) -> Result<(), AllocError>
    ensures members { OnOk result (members_view members.new.entries ≡ with_index header blocks (members_view members.old.entries)) }
    ensures plain { members_have_float (members_view members.old.entries) ≡ false → OnOk result (members_have_float (members_view members.new.entries) ≡ false) }
{
    add_number(alloc, members, "index_header", header)?;
    add_number(alloc, members, "index_blocks", blocks)
}

/// Adds how many bytes stand behind the volume, and what a mount answers.
#[tactic(auto, unfolding(crate::specs::Info::with_answer))]
fn add_answer(
    alloc: Global,
    members: &mut Map<String, Value>,
    behind: u64,
    answer: &str,
) -> Result<(), AllocError>
    ensures members { OnOk result (members_view members.new.entries ≡ with_answer behind answer.now (members_view members.old.entries)) }
    ensures plain { members_have_float (members_view members.old.entries) ≡ false → OnOk result (members_have_float (members_view members.new.entries) ≡ false) }
{
    add_number(alloc, members, "bytes_behind", behind)?;
    add_text(alloc, members, "answer", answer)
}
