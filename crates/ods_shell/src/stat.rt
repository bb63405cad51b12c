//! The lines of `stat`: one field of a file per line.
ghost use Rattle.std.specs.Prelude.{◌≡◌, ◌<◌, ◌≤◌, ◌+◌, ◌/◌, ◌==◌, ◌&&◌, ◌++◌, if◌then◌else◌, length, IfOk, OnOk};
ghost use Rattle.std.specs.String.{string_bytes};
ghost use Rattle.ods_shell.specs.Stat.{blocks_line, bytes_line, carriage_words, characteristics_label, characteristics_text, condition_line, contiguous_word, created_line, dates_text, head_text, header_name_line, id_line, is_run_end, kind_line, locked_word, owner_line, no_words, path_line, protection_label, protection_line, said_line, system_words, user_words, revised_line, record_type_word, records_text, run_line, runs_text, size_text, stat_text, text_if};

use crate::facts::{Condition, Facts, Kind};
use crate::texts::{date_text, push_rights, push_user};
use ods_base::{FileId, Uic};
use ods_header::print_ident;
use std::alloc::{AllocError, Global};

/// Returns the facts of a file, one field per line. `path` is first, and the blocks in order are last. `lbns` has all of them.
pub fn stat_lines(
    alloc: Global,
    path: &str,
    facts: &Facts,
    lbns: &[u32],
) -> Result<String, AllocError>
    ensures { IfOk result (λ text. string_bytes text ≡ stat_text path.now facts.now lbns.now) }
{
    let mut text = String::new(alloc);
    push_head(&mut text, path, facts)?;
    push_size(&mut text, facts)?;
    push_dates(&mut text, facts)?;
    push_records(&mut text, facts)?;
    push_characteristics(&mut text, facts)?;
    push_runs(&mut text, lbns)?;
    Ok(text)
}

/// The path, the ID, the name in the header, what the file holds, and how much of it is there.
fn push_head(text: &mut String, path: &str, facts: &Facts) -> Result<(), AllocError>
    ensures { OnOk result (string_bytes text.new ≡ string_bytes text.old ++ head_text path.now facts.now) }
{
    push_path_line(text, path)?;
    push_id_line(text, facts.file)?;
    push_header_name(text, &facts.ident)?;
    push_kind(text, facts.kind)?;
    push_condition(text, facts.condition)
}

/// The line of the path.
#[tactic(auto, unfolding(crate::specs::Stat::path_line))]
fn push_path_line(text: &mut String, path: &str) -> Result<(), AllocError>
    ensures { OnOk result (string_bytes text.new ≡ string_bytes text.old ++ path_line path.now) }
{
    writeln!(text, "Path: {path}")
}

/// The line of the ID.
#[tactic(auto, unfolding(crate::specs::Stat::id_line))]
fn push_id_line(text: &mut String, file: FileId) -> Result<(), AllocError>
    ensures { OnOk result (string_bytes text.new ≡ string_bytes text.old ++ id_line file) }
{
    writeln!(text, "ID: {},{}", file.number, file.sequence)
}

/// The line of the name in the header.
#[tactic(auto, unfolding(crate::specs::Stat::header_name_line))]
fn push_header_name(text: &mut String, ident: &[u8; 46]) -> Result<(), AllocError>
    ensures { OnOk result (string_bytes text.new ≡ string_bytes text.old ++ header_name_line ident.now) }
{
    writeln!(text, "Name in header: {}", print_ident(ident))
}

/// The line of what the file holds.
#[tactic(auto, unfolding(crate::specs::Stat::kind_line))]
fn push_kind(text: &mut String, kind: Kind) -> Result<(), AllocError>
    ensures { OnOk result (string_bytes text.new ≡ string_bytes text.old ++ kind_line kind) }
{
    writeln!(text, "Kind: {}", kind.word())
}

/// The line of how much of the file is there, where that is not all.
#[tactic(auto, unfolding(crate::specs::Stat::condition_line))]
fn push_condition(text: &mut String, condition: Condition) -> Result<(), AllocError>
    ensures { OnOk result (string_bytes text.new ≡ string_bytes text.old ++ condition_line condition) }
{
    match condition {
        Condition::Whole => Ok(()),
        Condition::Broken => text.push_str("Chain: broken\n"),
        Condition::Outside => text.push_str("Chain: outside\n"),
    }
}

/// How large the file is, whose it is, and its protection.
fn push_size(text: &mut String, facts: &Facts) -> Result<(), AllocError>
    ensures { OnOk result (string_bytes text.new ≡ string_bytes text.old ++ size_text facts.now) }
{
    push_blocks(text, facts.blocks)?;
    push_bytes(text, facts.bytes)?;
    push_owner(text, facts.owner)?;
    push_protection(text, facts.protection)
}

/// Appends the line with the number of blocks of the file.
#[tactic(auto, unfolding(crate::specs::Stat::blocks_line))]
pub(crate) fn push_blocks(text: &mut String, blocks: u32) -> Result<(), AllocError>
    ensures { OnOk result (string_bytes text.new ≡ string_bytes text.old ++ blocks_line blocks) }
{
    writeln!(text, "Blocks: {blocks}")
}

/// The line of how many bytes the file has.
#[tactic(auto, unfolding(crate::specs::Stat::bytes_line))]
fn push_bytes(text: &mut String, bytes: u64) -> Result<(), AllocError>
    ensures { OnOk result (string_bytes text.new ≡ string_bytes text.old ++ bytes_line bytes) }
{
    writeln!(text, "Bytes: {bytes}")
}

/// Appends the line with the owner of the file.
#[tactic(auto, unfolding(crate::specs::Stat::owner_line))]
pub(crate) fn push_owner(text: &mut String, owner: Uic) -> Result<(), AllocError>
    ensures { OnOk result (string_bytes text.new ≡ string_bytes text.old ++ owner_line owner) }
{
    text.push_str("Owner: ")?;
    push_user(text, owner)?;
    text.push_str("\n")
}

/// The line of the protection.
#[tactic(auto, unfolding(crate::specs::Stat::protection_line))]
fn push_protection(text: &mut String, protection: u16) -> Result<(), AllocError>
    ensures { OnOk result (string_bytes text.new ≡ string_bytes text.old ++ protection_line protection) }
{
    text.push_str(before_protection())?;
    push_rights(text, protection)?;
    text.push_str("\n")
}

/// What stands before the protection.
#[tactic(auto, unfolding(crate::specs::Stat::protection_label))]
fn before_protection() -> &'static str
    ensures { result.now ≡ protection_label }
{
    "Protection: "
}

/// The dates of the ident area.
fn push_dates(text: &mut String, facts: &Facts) -> Result<(), AllocError>
    ensures { OnOk result (string_bytes text.new ≡ string_bytes text.old ++ dates_text facts.now.ident) }
{
    push_created(text, facts)?;
    push_revised(text, facts)
}

/// The line of the date of creation.
#[tactic(auto, unfolding(crate::specs::Stat::created_line))]
fn push_created(text: &mut String, facts: &Facts) -> Result<(), AllocError>
    ensures { OnOk result (string_bytes text.new ≡ string_bytes text.old ++ created_line facts.now.ident) }
{
    writeln!(text, "Created: {}", date_text(&facts.creation_date()))
}

/// The line of the last revision.
#[tactic(auto, unfolding(crate::specs::Stat::revised_line))]
fn push_revised(text: &mut String, facts: &Facts) -> Result<(), AllocError>
    ensures { OnOk result (string_bytes text.new ≡ string_bytes text.old ++ revised_line facts.now.ident) }
{
    let revised = date_text(&facts.revision_date());
    let revision = facts.revision();
    writeln!(text, "Revised: {revised}, revision {revision}")
}

/// The record attributes in words.
fn push_records(text: &mut String, facts: &Facts) -> Result<(), AllocError>
    ensures { OnOk result (string_bytes text.new ≡ string_bytes text.old ++ records_text facts.now.attributes) }
{
    if facts.has_no_attributes() {
        return text.push_str("Records: nothing is said\n");
    }
    let kind = record_word(facts.attributes[0]);
    let control = control_word(facts.attributes[1]);
    let size = u16::from_le_bytes([facts.attributes[2], facts.attributes[3]]);
    let blocks = word_if(facts.attributes[1] / 8 % 2 == 1, ", within blocks");
    push_said(text, kind, control, blocks, size)
}

/// The line of these words for records, and of their size.
#[tactic(auto, unfolding(crate::specs::Stat::said_line))]
fn push_said(
    text: &mut String,
    kind: &str,
    control: &str,
    blocks: &str,
    size: u16,
) -> Result<(), AllocError>
    ensures { OnOk result (string_bytes text.new ≡ string_bytes text.old ++ said_line kind.now control.now blocks.now size) }
{
    writeln!(text, "Records: {kind}, {control}{blocks}, size {size}")
}

/// A text where something holds, and else nothing.
#[tactic(auto, unfolding(crate::specs::Stat::text_if))]
fn word_if(holds: bool, word: &'static str) -> &'static str
    ensures { result.now ≡ text_if holds word.now }
{
    if holds { word } else { "" }
}

/// The word for F.RTYP.
#[tactic(auto, unfolding(crate::specs::Stat::record_type_word))]
fn record_word(kind: u8) -> &'static str
    ensures { result.now ≡ record_type_word kind }
{
    match kind % 16 {
        1 => "fixed",
        2 => "variable",
        3 => "sequenced",
        4 => "stream",
        5 => "stream of LF",
        6 => "stream of CR",
        _ => "undefined",
    }
}

/// The words for the three lowest bits of F.RATT.
#[tactic(auto, unfolding(crate::specs::Stat::carriage_words))]
fn control_word(attributes: u8) -> &'static str
    ensures { result.now ≡ carriage_words attributes }
{
    if attributes % 2 == 1 {
        "FORTRAN carriage control"
    } else if attributes / 2 % 2 == 1 {
        "implied carriage return"
    } else if attributes / 4 % 2 == 1 {
        "print file"
    } else {
        "no carriage control"
    }
}

/// The characteristics in words.
fn push_characteristics(text: &mut String, facts: &Facts) -> Result<(), AllocError>
    ensures { OnOk result (string_bytes text.new ≡ string_bytes text.old ++ characteristics_text facts.now.user_char facts.now.system_char) }
{
    text.push_str(before_characteristics())?;
    push_user_words(text, facts.user_char)?;
    push_system_words(text, facts.system_char)?;
    push_no_words(text, facts.user_char, facts.system_char)?;
    text.push_str("\n")
}

/// What stands before the characteristics.
#[tactic(auto, unfolding(crate::specs::Stat::characteristics_label))]
fn before_characteristics() -> &'static str
    ensures { result.now ≡ characteristics_label }
{
    "Characteristics:"
}

/// The words for the user's characteristics.
#[tactic(auto, unfolding(crate::specs::Stat::user_words))]
fn push_user_words(text: &mut String, user: u8) -> Result<(), AllocError>
    ensures { OnOk result (string_bytes text.new ≡ string_bytes text.old ++ user_words user) }
{
    text.push_str(contiguous(user))?;
    text.push_str(locked(user))
}

/// The word for bit 7 of the user's characteristics.
#[tactic(auto, unfolding(crate::specs::Stat::contiguous_word))]
fn contiguous(user: u8) -> &'static str
    ensures { result.now ≡ contiguous_word user }
{
    word_if(user / 128 % 2 == 1, " contiguous")
}

/// The word for bit 6 of the user's characteristics.
#[tactic(auto, unfolding(crate::specs::Stat::locked_word))]
fn locked(user: u8) -> &'static str
    ensures { result.now ≡ locked_word user }
{
    word_if(user / 64 % 2 == 1, " locked")
}

/// The words for the system's characteristics.
#[tactic(auto, unfolding(crate::specs::Stat::system_words))]
fn push_system_words(text: &mut String, system: u8) -> Result<(), AllocError>
    ensures { OnOk result (string_bytes text.new ≡ string_bytes text.old ++ system_words system) }
{
    text.push_str(word_if(system / 128 % 2 == 1, " marked for deletion"))?;
    text.push_str(word_if(system / 64 % 2 == 1, " bad data"))
}

/// The word where no characteristic is set that has one.
#[tactic(auto, unfolding(crate::specs::Stat::no_words))]
fn push_no_words(text: &mut String, user: u8, system: u8) -> Result<(), AllocError>
    ensures { OnOk result (string_bytes text.new ≡ string_bytes text.old ++ no_words user system) }
{
    let is_plain = are_low(user, system);
    text.push_str(word_if(is_plain, " none"))
}

/// Whether bits 7 and 6 of both bytes are clear.
fn are_low(user: u8, system: u8) -> bool
    ensures { result ≡ ((user / 64 == 0) && (system / 64 == 0)) }
{
    user / 64 == 0 && system / 64 == 0
}

/// Appends the runs of the blocks, one per line: the VBNs in the file and the LBNs in the image.
pub(crate) fn push_runs(text: &mut String, lbns: &[u32]) -> Result<(), AllocError>
    ensures { OnOk result (string_bytes text.new ≡ string_bytes text.old ++ runs_text lbns.now) }
{
    let mut from = 0;
    for at in 0..lbns.len() {
        from = push_run(text, lbns, from, at)?;
    }
    Ok(())
}

/// The line of the run that ends with this block, where one does. The answer is where the run of the next block begins.
#[tactic(auto, unfolding(crate::specs::Stat::text_if))]
fn push_run(text: &mut String, lbns: &[u32], from: usize, at: usize) -> Result<usize, AllocError>
    requires block { at < length lbns.now }
    requires start { from ≤ at }
    ensures next { IfOk result (λ next. next ≡ (if is_run_end lbns.now at then at + 1 else from)) }
    ensures text { OnOk result (string_bytes text.new ≡ string_bytes text.old ++ text_if (is_run_end lbns.now at) (run_line lbns.now from at)) }
{
    if !ends_run(lbns, at) {
        return Ok(from);
    }
    let last = lbns[at] as usize;
    let first = last.saturating_sub(at - from);
    let vbn = from + 1;
    let end = at + 1;
    writeln!(text, "Run: VBN {vbn} to {end} at LBN {first} to {last}")?;
    Ok(end)
}

/// Returns whether the block is the last one, or the next block does not follow it in the image.
pub(crate) fn ends_run(lbns: &[u32], at: usize) -> bool
    requires { at < length lbns.now }
    ensures { result ≡ is_run_end lbns.now at }
{
    if at + 1 == lbns.len() {
        return true;
    }
    u64::from(lbns[at]) + 1 != u64::from(lbns[at + 1])
}
