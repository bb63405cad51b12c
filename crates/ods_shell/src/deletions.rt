//! The lines and the JSON objects of `find --deleted`.
ghost use Rattle.std.specs.Prelude.{◌≡◌, ◌++◌, false, true, Some, IfOk, OnOk};
ghost use Rattle.std.specs.String.{string_bytes};
ghost use Rattle.ods_shell.specs.Deletions.{count_text, cut_part, date_column, deletion_line, deletion_lines as lines_of_all, deletion_members, deletion_objects as objects_of_all, name_columns, shared_label, shared_part, state_part, state_word, used_label, used_part, used_text, with_missing, with_sharer};
ghost use Rattle.ods_shell.specs.Facts.{created_in};
ghost use Rattle.ods_shell.specs.Json.{object_line};
ghost use Rattle.ods_shell.specs.Lines.{column};
ghost use Rattle.ods_shell.specs.Texts.{shown_date};
ghost use Rattle.serde_json.specs.View.{members_view};
ghost use Rattle.serde_json.specs.Written.{members_have_float};

use crate::deleted::Deletion;
use crate::json::{add_number, add_text, fields_of_image, push_object};
use crate::ls::{push_column, push_sizes};
use crate::texts::{date_text, push_id};
use ods_base::FileId;
use ods_header::print_ident;
use serde_json::{Map, Value};
use std::alloc::{AllocError, Global};

/// Returns a line for each of these deleted files.
pub fn deletion_lines(alloc: Global, all: &[Deletion], long: bool) -> Result<String, AllocError>
    ensures { IfOk result (λ text. string_bytes text ≡ lines_of_all long all.now) }
{
    let mut text = String::new(alloc);
    for deletion in all {
        push_line(alloc, &mut text, deletion, long)?;
    }
    Ok(text)
}

/// Appends the line of a deleted file.
fn push_line(
    alloc: Global,
    text: &mut String,
    deletion: &Deletion,
    long: bool,
) -> Result<(), AllocError>
    ensures { OnOk result (string_bytes text.new ≡ string_bytes text.old ++ deletion_line long deletion.now) }
{
    if long {
        push_long(alloc, text, deletion)
    } else {
        push_short(text, deletion)
    }
}

/// Appends the ID and the name.
fn push_short(text: &mut String, deletion: &Deletion) -> Result<(), AllocError>
    ensures { OnOk result (string_bytes text.new ≡ string_bytes text.old ++ deletion_line false deletion.now) }
{
    push_id(text, deletion.file)?;
    text.push_str("  ")?;
    text.push_str(print_ident(&deletion.ident).as_str())?;
    text.push_str("\n")
}

/// Appends all columns.
fn push_long(alloc: Global, text: &mut String, deletion: &Deletion) -> Result<(), AllocError>
    ensures { OnOk result (string_bytes text.new ≡ string_bytes text.old ++ deletion_line true deletion.now) }
{
    push_name(alloc, text, deletion)?;
    push_sizes(text, deletion.blocks, deletion.bytes)?;
    push_date(text, &deletion.ident)?;
    push_state(text, deletion)?;
    text.push_str("\n")
}

/// Appends the ID and the name, in columns.
#[tactic(auto, unfolding(crate::specs::Deletions::name_columns))]
fn push_name(alloc: Global, text: &mut String, deletion: &Deletion) -> Result<(), AllocError>
    ensures { OnOk result (string_bytes text.new ≡ string_bytes text.old ++ name_columns deletion.now) }
{
    let mut id = String::new(alloc);
    push_id(&mut id, deletion.file)?;
    push_column(text, id.as_str(), 12)?;
    text.push_str("  ")?;
    push_column(text, print_ident(&deletion.ident).as_str(), 19)
}

/// Appends the date and time of creation, in a column.
#[tactic(auto, unfolding(crate::specs::Deletions::date_column))]
fn push_date(text: &mut String, ident: &[u8; 46]) -> Result<(), AllocError>
    ensures { OnOk result (string_bytes text.new ≡ string_bytes text.old ++ date_column ident.now) }
{
    push_column(text, date_text(&created(ident)).as_str(), 18)
}

/// The date and time of creation in an ident area.
fn created(ident: &[u8; 46]) -> [u8; 13]
    ensures { result ≡ created_in ident.now }
{
    let mut date = [0; 13];
    date.copy_from_slice(&ident[25..38]);
    date
}

/// Appends whether the file is whole, and if not, why.
fn push_state(text: &mut String, deletion: &Deletion) -> Result<(), AllocError>
    ensures { OnOk result (string_bytes text.new ≡ string_bytes text.old ++ state_part deletion.now) }
{
    if deletion.whole {
        return text.push_str("  whole");
    }
    push_used(text, deletion.used, deletion.blocks)?;
    push_cut(text, deletion.missing)?;
    push_shared(text, deletion.sharer)
}

/// Appends how many blocks are used again, where some are.
fn push_used(text: &mut String, used: u32, blocks: u32) -> Result<(), AllocError>
    ensures { OnOk result (string_bytes text.new ≡ string_bytes text.old ++ used_part used blocks) }
{
    if used == 0 {
        Ok(())
    } else {
        push_some_used(text, used, blocks)
    }
}

/// Appends how many blocks are used again.
fn push_some_used(text: &mut String, used: u32, blocks: u32) -> Result<(), AllocError>
    ensures { OnOk result (string_bytes text.new ≡ string_bytes text.old ++ used_text used blocks) }
{
    text.push_str("  ")?;
    push_count(text, used, blocks)?;
    text.push_str(behind_used())
}

/// Appends how many there are of so many.
#[tactic(auto, unfolding(crate::specs::Deletions::count_text))]
fn push_count(text: &mut String, count: u32, all: u32) -> Result<(), AllocError>
    ensures { OnOk result (string_bytes text.new ≡ string_bytes text.old ++ count_text count all) }
{
    write!(text, "{count} of {all}")
}

/// What stands behind how many blocks are used again.
#[tactic(auto, unfolding(crate::specs::Deletions::used_label))]
fn behind_used() -> &'static str
    ensures { result.now ≡ used_label }
{
    " blocks used again"
}

/// Appends the first header that is missing.
fn push_cut(text: &mut String, missing: Option<u64>) -> Result<(), AllocError>
    ensures { OnOk result (string_bytes text.new ≡ string_bytes text.old ++ cut_part missing) }
{
    match missing {
        Some(header) => write!(text, "  cut at header {header}"),
        None => Ok(()),
    }
}

/// Appends the deleted file that shares blocks.
fn push_shared(text: &mut String, sharer: Option<FileId>) -> Result<(), AllocError>
    ensures { OnOk result (string_bytes text.new ≡ string_bytes text.old ++ shared_part sharer) }
{
    match sharer {
        Some(file) => push_sharer(text, file),
        None => Ok(()),
    }
}

/// Appends this deleted file, which shares blocks.
fn push_sharer(text: &mut String, file: FileId) -> Result<(), AllocError>
    ensures { OnOk result (string_bytes text.new ≡ string_bytes text.old ++ shared_part (Some file)) }
{
    text.push_str(before_sharer())?;
    push_id(text, file)
}

/// What stands before a deleted file that shares blocks.
#[tactic(auto, unfolding(crate::specs::Deletions::shared_label))]
fn before_sharer() -> &'static str
    ensures { result.now ≡ shared_label }
{
    "  shares blocks with "
}

/// Returns a JSON object for each of these deleted files.
pub fn deletion_objects(alloc: Global, image: &str, all: &[Deletion]) -> Result<String, AllocError>
    ensures { IfOk result (λ text. string_bytes text ≡ objects_of_all image.now all.now) }
{
    let mut text = String::new(alloc);
    for deletion in all {
        push_deletion_object(alloc, &mut text, image, deletion)?;
    }
    Ok(text)
}

/// Appends the object of a deleted file.
fn push_deletion_object(
    alloc: Global,
    text: &mut String,
    image: &str,
    deletion: &Deletion,
) -> Result<(), AllocError>
    ensures { OnOk result (string_bytes text.new ≡ string_bytes text.old ++ object_line (deletion_members image.now deletion.now)) }
{
    let mut members = fields_of_image(alloc, image)?;
    let id = format!(in alloc; "{},{}", deletion.file.number, deletion.file.sequence)?;
    add_text(alloc, &mut members, "id", id.as_str())?;
    add_text(
        alloc,
        &mut members,
        "name",
        print_ident(&deletion.ident).as_str(),
    )?;
    add_number(alloc, &mut members, "blocks", u64::from(deletion.blocks))?;
    add_number(alloc, &mut members, "bytes", deletion.bytes)?;
    add_text(
        alloc,
        &mut members,
        "created",
        date_text(&created(&deletion.ident)).as_str(),
    )?;
    add_text(alloc, &mut members, "state", state(deletion.whole))?;
    add_number(alloc, &mut members, "used_again", u64::from(deletion.used))?;
    add_missing(alloc, deletion.missing, &mut members)?;
    add_sharer(alloc, deletion.sharer, &mut members)?;
    push_object(alloc, text, members)
}

/// The word for whether a deleted file is whole.
fn state(whole: bool) -> &'static str
    ensures { result.now ≡ state_word whole }
{
    if whole { "whole" } else { "not whole" }
}

/// Adds the first header that is missing, where one is.
fn add_missing(
    alloc: Global,
    missing: Option<u64>,
    members: &mut Map<String, Value>,
) -> Result<(), AllocError>
    ensures members { OnOk result (members_view members.new.entries ≡ with_missing missing (members_view members.old.entries)) }
    ensures plain { members_have_float (members_view members.old.entries) ≡ false → OnOk result (members_have_float (members_view members.new.entries) ≡ false) }
{
    match missing {
        Some(header) => add_number(alloc, members, "missing_header", header),
        None => Ok(()),
    }
}

/// Adds the deleted file that shares blocks, where one does.
fn add_sharer(
    alloc: Global,
    sharer: Option<FileId>,
    members: &mut Map<String, Value>,
) -> Result<(), AllocError>
    ensures members { OnOk result (members_view members.new.entries ≡ with_sharer sharer (members_view members.old.entries)) }
    ensures plain { members_have_float (members_view members.old.entries) ≡ false → OnOk result (members_have_float (members_view members.new.entries) ≡ false) }
{
    match sharer {
        Some(file) => add_id(alloc, file, members),
        None => Ok(()),
    }
}

/// Adds this deleted file, which shares blocks.
fn add_id(alloc: Global, file: FileId, members: &mut Map<String, Value>) -> Result<(), AllocError>
    ensures members { OnOk result (members_view members.new.entries ≡ with_sharer (Some file) (members_view members.old.entries)) }
    ensures plain { members_have_float (members_view members.old.entries) ≡ false → OnOk result (members_have_float (members_view members.new.entries) ≡ false) }
{
    let id = format!(in alloc; "{},{}", file.number, file.sequence)?;
    add_text(alloc, members, "shares_blocks_with", id.as_str())
}
