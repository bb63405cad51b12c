//! The output of commands as JSON: one object per line.
ghost use Rattle.std.specs.Prelude.{◌≡◌, ◌++◌, codes, false, Option, IfOk, OnOk};
ghost use Rattle.std.specs.String.{string_bytes};
ghost use Rattle.serde_json.specs.Data.{no_members, object, put};
ghost use Rattle.serde_json.specs.View.{members_view, view};
ghost use Rattle.serde_json.specs.Written.{compact_text, members_have_float};
ghost use Rattle.ods_shell.specs.Json.{of_image, entry_members, object_line, space_members, stat_members, text_line, with_block_counts, with_condition, with_facts, with_file_numbers, with_known, with_number, with_text};
ghost use Rattle.ods_shell.specs.Listed.{AreObjects};
ghost use Rattle.ods_shell.specs.Named.{IsKnown};
ghost use Rattle.ods_shell.specs.There.{line_path};
ghost use Rattle.ods_shell.specs.declared.facts.Facts.{Facts as KnownFacts};
ghost use Rattle.ods_space.specs.Files.{FindsFiles};
ghost use Rattle.ods_space.specs.Disks.{on};

use crate::facts::{Condition, Facts, facts_by_id};
use crate::find::push_path_of;
use crate::finding::FoundLines;
use crate::folders::Directory;
use crate::space::Space;
use crate::texts::{date_text, push_user, rights_text};
use ods_base::FileId;
use ods_header::print_ident;
use ods_space::Disk;
use ods_walk::Line;
use serde_json::{Map, Value};
use std::alloc::{AllocError, Global};

/// Returns an empty object.
pub(crate) fn no_fields(alloc: Global) -> Map<String, Value>
    ensures members { members_view result.entries ≡ no_members }
    ensures plain { members_have_float (members_view result.entries) ≡ false }
{
    Map::new(alloc)
}

/// Returns an object with one member, the name of the image.
pub(crate) fn fields_of_image(alloc: Global, image: &str) -> Result<Map<String, Value>, AllocError>
    ensures members { IfOk result (λ members. members_view members.entries ≡ of_image image.now) }
    ensures plain { IfOk result (λ members. members_have_float (members_view members.entries) ≡ false) }
{
    let mut members = no_fields(alloc);
    add_text(alloc, &mut members, "image", image)?;
    Ok(members)
}

/// Adds a member to an object.
#[tactic(auto, using(crate::proofs::Objects::entries_put))]
pub(crate) fn add(
    alloc: Global,
    members: &mut Map<String, Value>,
    name: &str,
    value: Value,
) -> Result<(), AllocError>
    ensures { OnOk result (members_view members.new.entries ≡ put name.now (view value) (members_view members.old.entries)) }
{
    match members.insert(String::from_str(alloc, name)?, value) {
        Ok(_) => Ok(()),
        Err(_) => Err(AllocError),
    }
}

/// Adds a text member.
#[tactic(auto, using(crate::proofs::Objects::text_put_plain))]
pub(crate) fn add_text(
    alloc: Global,
    members: &mut Map<String, Value>,
    name: &str,
    text: &str,
) -> Result<(), AllocError>
    ensures members { OnOk result (members_view members.new.entries ≡ with_text name.now text.now (members_view members.old.entries)) }
    ensures plain { members_have_float (members_view members.old.entries) ≡ false → OnOk result (members_have_float (members_view members.new.entries) ≡ false) }
{
    add(
        alloc,
        members,
        name,
        Value::String(String::from_str(alloc, text)?),
    )
}

/// Adds a number member.
#[tactic(auto, using(crate::proofs::Objects::number_put_plain))]
pub(crate) fn add_number(
    alloc: Global,
    members: &mut Map<String, Value>,
    name: &str,
    number: u64,
) -> Result<(), AllocError>
    ensures members { OnOk result (members_view members.new.entries ≡ with_number name.now number (members_view members.old.entries)) }
    ensures plain { members_have_float (members_view members.old.entries) ≡ false → OnOk result (members_have_float (members_view members.new.entries) ≡ false) }
{
    add(alloc, members, name, Value::from(number))
}

/// The text of an object.
#[tactic(auto, using(crate::proofs::Objects::compact_is))]
fn object_text(alloc: Global, members: Map<String, Value>) -> Result<String, AllocError>
    ensures { members_have_float (members_view members.entries) ≡ false → IfOk result (λ text. string_bytes text ≡ compact_text (object (members_view members.entries))) }
{
    let object = Value::Object(members);
    object.to_string(alloc)
}

/// Appends an object and a line feed.
#[tactic(auto, unfolding(crate::specs::Json::object_line))]
pub(crate) fn push_object(
    alloc: Global,
    text: &mut String,
    members: Map<String, Value>,
) -> Result<(), AllocError>
    ensures { members_have_float (members_view members.entries) ≡ false → OnOk result (string_bytes text.new ≡ string_bytes text.old ++ object_line (members_view members.entries)) }
{
    text.push_str(object_text(alloc, members)?.as_str())?;
    text.push_str("\n")
}

/// Returns an object with one text: `{"fault":".."}`.
pub fn text_object(alloc: Global, name: &str, text: &str) -> Result<String, AllocError>
    ensures { IfOk result (λ line. string_bytes line ≡ text_line name.now text.now) }
{
    let mut members = no_fields(alloc);
    add_text(alloc, &mut members, name, text)?;
    let mut line = String::new(alloc);
    push_object(alloc, &mut line, members)?;
    Ok(line)
}

/// Returns an object with one number.
pub fn number_object(alloc: Global, name: &str, number: u64) -> Result<String, AllocError>
    ensures { IfOk result (λ line. string_bytes line ≡ object_line (with_number name.now number no_members)) }
{
    let mut members = no_fields(alloc);
    add_number(alloc, &mut members, name, number)?;
    let mut line = String::new(alloc);
    push_object(alloc, &mut line, members)?;
    Ok(line)
}

/// Appends an object for an image with a text and a number of blocks.
pub(crate) fn push_blocks(
    alloc: Global,
    text: &mut String,
    image: &str,
    name: &str,
    value: &str,
    blocks: u64,
) -> Result<(), AllocError>
    ensures { OnOk result (string_bytes text.new ≡ string_bytes text.old ++ object_line (with_number (codes "blocks") blocks (with_text name.now value.now (of_image image.now)))) }
{
    let mut members = fields_of_image(alloc, image)?;
    add_text(alloc, &mut members, name, value)?;
    add_number(alloc, &mut members, "blocks", blocks)?;
    push_object(alloc, text, members)
}

/// Returns an object with two texts.
pub fn pair_object(
    alloc: Global,
    name: &str,
    value: &str,
    other: &str,
    other_value: &str,
) -> Result<String, AllocError>
    ensures { IfOk result (λ line. string_bytes line ≡ object_line (with_text other.now other_value.now (with_text name.now value.now no_members))) }
{
    let mut members = no_fields(alloc);
    add_text(alloc, &mut members, name, value)?;
    add_text(alloc, &mut members, other, other_value)?;
    let mut line = String::new(alloc);
    push_object(alloc, &mut line, members)?;
    Ok(line)
}

/// Returns an object with three texts.
pub fn trio_object(
    alloc: Global,
    name: &str,
    value: &str,
    other: &str,
    other_value: &str,
    third: &str,
    third_value: &str,
) -> Result<String, AllocError>
    ensures { IfOk result (λ line. string_bytes line ≡ object_line (with_text third.now third_value.now (with_text other.now other_value.now (with_text name.now value.now no_members)))) }
{
    let mut members = no_fields(alloc);
    add_text(alloc, &mut members, name, value)?;
    add_text(alloc, &mut members, other, other_value)?;
    add_text(alloc, &mut members, third, third_value)?;
    let mut line = String::new(alloc);
    push_object(alloc, &mut line, members)?;
    Ok(line)
}

/// Returns an object for each found line: its path, the ID that it names, and the facts of the file.
pub fn ls_objects(
    alloc: Global,
    disk: &Disk<'_>,
    found: &FoundLines,
    image: &str,
) -> Result<String, AllocError>
    requires { on FindsFiles disk.now }
    ensures { IfOk result (λ text. on AreObjects disk.now image.now found.now.directories.items found.now.lines.items (string_bytes text)) }
{
    let mut text = String::new(alloc);
    for line in &found.lines {
        push_found_object(alloc, &mut text, disk, &found.directories, line, image)?;
    }
    Ok(text)
}

/// Appends the object of a line that was found.
fn push_found_object(
    alloc: Global,
    text: &mut String,
    disk: &Disk<'_>,
    directories: &[Directory],
    line: &Line,
    image: &str,
) -> Result<(), AllocError>
    requires { on FindsFiles disk.now }
    ensures { OnOk result ((known : Option KnownFacts) × on IsKnown disk.now line.now.entry.file known
        × (string_bytes text.new ≡ string_bytes text.old ++ object_line (entry_members image.now (line_path directories.now line.now) line.now.entry.file known))) }
{
    let mut path = String::new(alloc);
    push_path_of(&mut path, directories, line)?;
    let known = facts_by_id(disk, line.entry.file);
    push_entry(alloc, text, image, path.as_str(), line.entry.file, &known)
}

/// Appends an object of the path of an entry, the ID that it names, and what is known of the file.
fn push_entry(
    alloc: Global,
    text: &mut String,
    image: &str,
    path: &str,
    file: FileId,
    known: &Option<Facts>,
) -> Result<(), AllocError>
    ensures { OnOk result (string_bytes text.new ≡ string_bytes text.old ++ object_line (entry_members image.now path.now file known.now)) }
{
    let mut members = fields_of_image(alloc, image)?;
    add_text(alloc, &mut members, "path", path)?;
    let id = format!(in alloc; "{},{}", file.number, file.sequence)?;
    add_text(alloc, &mut members, "id", id.as_str())?;
    add_known(alloc, known, &mut members)?;
    push_object(alloc, text, members)
}

/// Adds what is known of a file, where it is known.
fn add_known(
    alloc: Global,
    known: &Option<Facts>,
    members: &mut Map<String, Value>,
) -> Result<(), AllocError>
    ensures members { OnOk result (members_view members.new.entries ≡ with_known known.now (members_view members.old.entries)) }
    ensures plain { members_have_float (members_view members.old.entries) ≡ false → OnOk result (members_have_float (members_view members.new.entries) ≡ false) }
{
    match known {
        Some(facts) => add_facts(alloc, facts, members),
        None => Ok(()),
    }
}

/// Adds what is known of a file.
fn add_facts(
    alloc: Global,
    facts: &Facts,
    members: &mut Map<String, Value>,
) -> Result<(), AllocError>
    ensures members { OnOk result (members_view members.new.entries ≡ with_facts facts.now (members_view members.old.entries)) }
    ensures plain { members_have_float (members_view members.old.entries) ≡ false → OnOk result (members_have_float (members_view members.new.entries) ≡ false) }
{
    add_number(alloc, members, "blocks", u64::from(facts.blocks))?;
    add_number(alloc, members, "bytes", facts.bytes)?;
    add_text(alloc, members, "kind", facts.kind.word())?;
    let mut owner = String::new(alloc);
    push_user(&mut owner, facts.owner)?;
    add_text(alloc, members, "owner", owner.as_str())?;
    add_text(
        alloc,
        members,
        "protection",
        rights_text(facts.protection).as_str(),
    )?;
    add_text(
        alloc,
        members,
        "created",
        date_text(&facts.creation_date()).as_str(),
    )?;
    add_text(
        alloc,
        members,
        "revised",
        date_text(&facts.revision_date()).as_str(),
    )?;
    add_condition(alloc, facts.condition, members)
}

/// Adds how much of a file is there, where that is not all.
fn add_condition(
    alloc: Global,
    condition: Condition,
    members: &mut Map<String, Value>,
) -> Result<(), AllocError>
    ensures members { OnOk result (members_view members.new.entries ≡ with_condition condition (members_view members.old.entries)) }
    ensures plain { members_have_float (members_view members.old.entries) ≡ false → OnOk result (members_have_float (members_view members.new.entries) ≡ false) }
{
    match condition {
        Condition::Whole => Ok(()),
        Condition::Broken => add_text(alloc, members, "condition", Condition::Broken.word()),
        Condition::Outside => add_text(alloc, members, "condition", Condition::Outside.word()),
    }
}

/// Returns an object with the facts of a file that a path selects.
pub fn stat_object(alloc: Global, path: &str, facts: &Facts) -> Result<String, AllocError>
    ensures { IfOk result (λ line. string_bytes line ≡ object_line (stat_members path.now facts.now)) }
{
    let mut members = no_fields(alloc);
    add_text(alloc, &mut members, "path", path)?;
    let id = format!(in alloc; "{},{}", facts.file.number, facts.file.sequence)?;
    add_text(alloc, &mut members, "id", id.as_str())?;
    add_text(
        alloc,
        &mut members,
        "name",
        print_ident(&facts.ident).as_str(),
    )?;
    add_number(alloc, &mut members, "revision", u64::from(facts.revision()))?;
    add_facts(alloc, facts, &mut members)?;
    let mut text = String::new(alloc);
    push_object(alloc, &mut text, members)?;
    Ok(text)
}

/// Returns an object with the usage of a volume.
pub fn space_object(alloc: Global, space: &Space) -> Result<String, AllocError>
    ensures { IfOk result (λ line. string_bytes line ≡ object_line (space_members space.now)) }
{
    let mut members = no_fields(alloc);
    add_space(alloc, space, &mut members)?;
    let mut text = String::new(alloc);
    push_object(alloc, &mut text, members)?;
    Ok(text)
}

/// Adds how much of a volume is used.
fn add_space(
    alloc: Global,
    space: &Space,
    members: &mut Map<String, Value>,
) -> Result<(), AllocError>
    ensures members { OnOk result (members_view members.new.entries ≡ with_file_numbers space.now (with_block_counts space.now (members_view members.old.entries))) }
    ensures plain { members_have_float (members_view members.old.entries) ≡ false → OnOk result (members_have_float (members_view members.new.entries) ≡ false) }
{
    add_block_counts(alloc, space, members)?;
    add_file_numbers(alloc, space, members)
}

/// Adds how many blocks a volume has, how many are free, and the longest free run.
#[tactic(auto, unfolding(crate::specs::Json::with_block_counts))]
fn add_block_counts(
    alloc: Global,
    space: &Space,
    members: &mut Map<String, Value>,
) -> Result<(), AllocError>
    ensures members { OnOk result (members_view members.new.entries ≡ with_block_counts space.now (members_view members.old.entries)) }
    ensures plain { members_have_float (members_view members.old.entries) ≡ false → OnOk result (members_have_float (members_view members.new.entries) ≡ false) }
{
    add_number(alloc, members, "blocks", u64::from(space.blocks))?;
    add_number(alloc, members, "free", u64::from(space.free))?;
    add_number(alloc, members, "largest_free_run", u64::from(space.longest))
}

/// Adds how many file numbers are in use, ready, and there.
#[tactic(auto, unfolding(crate::specs::Json::with_file_numbers))]
fn add_file_numbers(
    alloc: Global,
    space: &Space,
    members: &mut Map<String, Value>,
) -> Result<(), AllocError>
    ensures members { OnOk result (members_view members.new.entries ≡ with_file_numbers space.now (members_view members.old.entries)) }
    ensures plain { members_have_float (members_view members.old.entries) ≡ false → OnOk result (members_have_float (members_view members.new.entries) ≡ false) }
{
    add_number(alloc, members, "numbers_in_use", u64::from(space.numbers))?;
    add_number(alloc, members, "numbers_ready", u64::from(space.ready))?;
    add_number(alloc, members, "numbers", u64::from(space.most))
}
