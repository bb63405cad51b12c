//! The lines of `ls`.
ghost use Rattle.std.specs.Prelude.{◌≡◌, ◌≤◌, ◌+◌, ◌-◌, ◌∷◌, ◌^◌, min, nat_le, false, true, Option, IfOk, ◌++◌, [], if◌then◌else◌, length, replicate, slice_get, Some, ◌==◌, OnOk};
ghost use Rattle.std.specs.Fmt.{decimal};
ghost use Rattle.std.specs.List.{range_with_len};
ghost use Rattle.std.specs.String.{string_bytes, string_len};
ghost use Rattle.ods_shell.specs.declared.facts.Facts.{Facts as KnownFacts};
ghost use Rattle.ods_shell.specs.Listed.{IsListing, IsListingUnder, blocks_of, headed_by, places_before, places_from, total_line};
ghost use Rattle.ods_shell.specs.Named.{IsKnown};
ghost use Rattle.ods_shell.specs.Lines.{heading, column, columns_text, condition_column, counted_word, entry_line, facts_columns, kind_columns, known_columns, rights_columns, size_columns, with_headings};
ghost use Rattle.ods_space.specs.Files.{FindsFiles};
ghost use Rattle.ods_space.specs.Disks.{on};

use crate::facts::{Condition, Facts, Kind, facts_by_id};
use crate::finding::FoundLines;
use crate::folders::Directory;
use crate::texts::{date_text, push_directory, push_id, push_rights, push_user};
use ods_base::{Listed as Entry, Uic, print_name};
use ods_space::Disk;
use std::alloc::{AllocError, Global};

/// The parts of the output of `ls`.
#[derive(Clone, Copy, Debug, PartialEq, Eq)]
pub struct Columns {
    /// ID, blocks, bytes, kind, owner, protection and date of creation.
    pub long: bool,
    /// The ID.
    pub ids: bool,
    /// A line with the name of a directory before its lines.
    pub headings: bool,
    /// Such a line even for a directory without lines.
    pub empty: bool,
}

/// Returns the found lines, and a last line with the numbers of files and blocks.
pub fn ls_lines(
    alloc: Global,
    disk: &Disk<'_>,
    found: &FoundLines,
    columns: Columns,
) -> Result<String, AllocError>
    requires { on FindsFiles disk.now }
    ensures plain { columns.headings ≡ false → IfOk result (λ text. on IsListing disk.now columns found.now.lines.items (length found.now.lines.items) (string_bytes text)) }
    ensures under { columns.headings ≡ true → IfOk result (λ text. on IsListingUnder disk.now columns found.now.directories.items found.now.lines.items (length found.now.lines.items) (string_bytes text)) }
{
    let mut text = String::new(alloc);
    let mut blocks: u64 = 0;
    // The places below this one have their heading.
    let mut headed = 0;
    for line in &found.lines {
        headed = push_before(&mut text, found, columns, headed, line.directory)?;
        blocks = push_listed(&mut text, disk, &line.entry, columns, blocks)?;
    }
    push_after(&mut text, found, columns, headed)?;
    push_total(&mut text, found.lines.len() as u64, blocks)?;
    Ok(text)
}

/// The headings that stand before a line of the directory at this place, where those below the first place have theirs. The answer is below
/// which place they have theirs then.
fn push_before(
    text: &mut String,
    found: &FoundLines,
    columns: Columns,
    headed: usize,
    place: usize,
) -> Result<usize, AllocError>
    ensures plain { columns.headings ≡ false → OnOk result (string_bytes text.new ≡ string_bytes text.old) }
    ensures next { columns.headings ≡ true → IfOk result (λ next. next ≡ headed_by headed place) }
    ensures text { columns.headings ≡ true → OnOk result (string_bytes text.new ≡ with_headings found.now.directories.items (string_bytes text.old) (places_before columns.empty headed place)) }
{
    if !columns.headings {
        return Ok(headed);
    }
    if !is_due(headed, place) {
        return Ok(headed);
    }
    push_due(text, &found.directories, columns.empty, headed, place)?;
    Ok(place.saturating_add(1))
}

/// Whether the directory at this place has no heading yet, where those below the first place have theirs.
fn is_due(headed: usize, place: usize) -> bool
    ensures { result ≡ nat_le headed place }
{
    headed <= place
}

/// The heading of the directory at this place, behind those of the ones from the first place on where these are shown.
fn push_due(
    text: &mut String,
    directories: &[Directory],
    empty: bool,
    headed: usize,
    place: usize,
) -> Result<(), AllocError>
    ensures { OnOk result (string_bytes text.new ≡ with_headings directories.now (string_bytes text.old) (places_from empty headed place ++ place ∷ [])) }
{
    push_empty(text, directories, empty, headed, place)?;
    push_heading(text, directories, place)
}

/// The headings that stand behind all lines.
fn push_after(
    text: &mut String,
    found: &FoundLines,
    columns: Columns,
    headed: usize,
) -> Result<(), AllocError>
    ensures plain { columns.headings ≡ false → OnOk result (string_bytes text.new ≡ string_bytes text.old) }
    ensures text { columns.headings ≡ true → OnOk result (string_bytes text.new ≡ with_headings found.now.directories.items (string_bytes text.old) (places_from columns.empty headed (length found.now.directories.items))) }
{
    if !columns.headings {
        return Ok(());
    }
    let count = found.directories.len();
    push_empty(text, &found.directories, columns.empty, headed, count)
}

/// The headings of the directories from this place on, and before the other, where those without lines are shown.
fn push_empty(
    text: &mut String,
    directories: &[Directory],
    empty: bool,
    from: usize,
    to: usize,
) -> Result<(), AllocError>
    ensures { OnOk result (string_bytes text.new ≡ with_headings directories.now (string_bytes text.old) (places_from empty from to)) }
{
    if empty {
        push_headings(text, directories, from, to)
    } else {
        Ok(())
    }
}

/// The line of an entry. The answer is the blocks with those of the file that it names.
fn push_listed(
    text: &mut String,
    disk: &Disk<'_>,
    entry: &Entry,
    columns: Columns,
    blocks: u64,
) -> Result<u64, AllocError>
    requires { on FindsFiles disk.now }
    ensures { IfOk result (λ sum. (known : Option KnownFacts) × on IsKnown disk.now entry.now.file known
        × (sum ≡ min (blocks + blocks_of known) (2 ^ 64 - 1)) × (string_bytes text.new ≡ string_bytes text.old ++ entry_line entry.now known columns)) }
{
    let facts = facts_by_id(disk, entry.file);
    push_line(text, entry, &facts, columns)?;
    Ok(blocks.saturating_add(count_of(&facts)))
}

/// The last line: how many files and blocks these are.
#[tactic(auto, unfolding(crate::specs::Listed::total_line))]
fn push_total(text: &mut String, files: u64, blocks: u64) -> Result<(), AllocError>
    ensures { OnOk result (string_bytes text.new ≡ string_bytes text.old ++ total_line files blocks) }
{
    let files_word = plural(files, "file", "files");
    let blocks_word = plural(blocks, "block", "blocks");
    writeln!(text, "{files} {files_word}, {blocks} {blocks_word}")
}

/// The word for one or for several.
fn plural(count: u64, one: &'static str, several: &'static str) -> &'static str
    ensures { result.now ≡ counted_word count one.now several.now }
{
    if count == 1 { one } else { several }
}

/// How many blocks a file has.
fn count_of(facts: &Option<Facts>) -> u64
    ensures { result ≡ blocks_of facts.now }
{
    match facts {
        Some(facts) => u64::from(facts.blocks),
        None => 0,
    }
}

/// A line with its name for each directory from this place on, and before the other.
fn push_headings(
    text: &mut String,
    directories: &[Directory],
    from: usize,
    to: usize,
) -> Result<(), AllocError>
    ensures { OnOk result (string_bytes text.new ≡ with_headings directories.now (string_bytes text.old) (range_with_len from (to - from))) }
{
    for place in from..to {
        push_heading(text, directories, place)?;
    }
    Ok(())
}

/// A line with the name of a directory.
fn push_heading(
    text: &mut String,
    directories: &[Directory],
    place: usize,
) -> Result<(), AllocError>
    ensures { OnOk result (string_bytes text.new ≡ string_bytes text.old ++ heading (string_len text.old == 0) (slice_get directories.now place)) }
{
    match directories.get(place) {
        Some(directory) => push_named(text, directory),
        None => Ok(()),
    }
}

/// A line with the name of this directory.
fn push_named(text: &mut String, directory: &Directory) -> Result<(), AllocError>
    ensures { OnOk result (string_bytes text.new ≡ string_bytes text.old ++ heading (string_len text.old == 0) (Some directory.now)) }
{
    let is_first = text.is_empty();
    text.push_str(gap(is_first))?;
    push_directory(text, &directory.names)?;
    text.push_str(":\n")
}

/// What stands before a heading: nothing before the first line, and else an empty line.
fn gap(is_first: bool) -> &'static str
    ensures { result.now ≡ (if is_first then [] else 10 ∷ []) }
{
    if is_first { "" } else { "\n" }
}

/// The line of an entry.
fn push_line(
    text: &mut String,
    entry: &Entry,
    facts: &Option<Facts>,
    columns: Columns,
) -> Result<(), AllocError>
    ensures { OnOk result (string_bytes text.new ≡ string_bytes text.old ++ entry_line entry.now facts.now columns) }
{
    let name = print_name(&entry.name, entry.version);
    if columns.long || columns.ids {
        push_column(text, name.as_str(), 19)?;
        push_columns(text, entry, facts, columns.long)?;
        text.push_str("\n")
    } else {
        writeln!(text, "{name}")
    }
}

/// What stands behind the name of an entry.
fn push_columns(
    text: &mut String,
    entry: &Entry,
    facts: &Option<Facts>,
    long: bool,
) -> Result<(), AllocError>
    ensures { OnOk result (string_bytes text.new ≡ string_bytes text.old ++ columns_text entry.now facts.now long) }
{
    text.push_str("  ")?;
    push_id(text, entry.file)?;
    if long {
        pad(text, entry.file.number, entry.file.sequence)?;
        push_known(text, facts)
    } else {
        Ok(())
    }
}

/// What is known of a file, in columns, where it is known.
fn push_known(text: &mut String, facts: &Option<Facts>) -> Result<(), AllocError>
    ensures { OnOk result (string_bytes text.new ≡ string_bytes text.old ++ known_columns facts.now) }
{
    match facts {
        Some(facts) => push_facts(text, facts),
        None => text.push_str("  no such file"),
    }
}

/// Appends a text, and spaces up to this width.
pub(crate) fn push_column(text: &mut String, part: &str, width: usize) -> Result<(), AllocError>
    ensures { OnOk result (string_bytes text.new ≡ string_bytes text.old ++ column width part.now) }
{
    text.push_str(part)?;
    push_spaces(text, width.saturating_sub(part.len()))
}

/// Appends so many spaces.
fn push_spaces(text: &mut String, count: usize) -> Result<(), AllocError>
    ensures { OnOk result (string_bytes text.new ≡ string_bytes text.old ++ replicate count 32) }
{
    for _place in 0..count {
        text.push_str(" ")?;
    }
    Ok(())
}

/// The ID takes twelve places.
fn pad(text: &mut String, number: u16, sequence: u16) -> Result<(), AllocError>
    ensures { OnOk result (string_bytes text.new ≡ string_bytes text.old ++ replicate (10 - (length (decimal number) + length (decimal sequence))) 32) }
{
    push_spaces(text, 10 - (digits(number) + digits(sequence)))
}

/// How many decimal digits a number has.
#[tactic(auto, using(crate::proofs::Digits::length_1, crate::proofs::Digits::length_2, crate::proofs::Digits::length_3, crate::proofs::Digits::length_4, crate::proofs::Digits::length_5))]
fn digits(number: u16) -> usize
    ensures value { result ≡ length (decimal number) }
    ensures few { result ≤ 5 }
{
    match number {
        0..=9 => 1,
        10..=99 => 2,
        100..=999 => 3,
        1_000..=9_999 => 4,
        _ => 5,
    }
}

/// What is known of a file, in columns.
fn push_facts(text: &mut String, facts: &Facts) -> Result<(), AllocError>
    ensures { OnOk result (string_bytes text.new ≡ string_bytes text.old ++ facts_columns facts.now) }
{
    push_sizes(text, facts.blocks, facts.bytes)?;
    push_kind(text, facts.kind, facts.owner)?;
    push_rights_and_date(text, facts)?;
    push_condition(text, facts.condition)
}

/// How much of a file is there, as the last column, where that is not all.
#[tactic(auto, unfolding(crate::specs::Lines::condition_column))]
fn push_condition(text: &mut String, condition: Condition) -> Result<(), AllocError>
    ensures { OnOk result (string_bytes text.new ≡ string_bytes text.old ++ condition_column condition) }
{
    match condition {
        Condition::Whole => Ok(()),
        Condition::Broken => text.push_str("  chain broken"),
        Condition::Outside => text.push_str("  outside"),
    }
}

/// What a file holds, and whose it is, in columns.
#[tactic(auto, unfolding(crate::specs::Lines::kind_columns))]
fn push_kind(text: &mut String, kind: Kind, owner: Uic) -> Result<(), AllocError>
    ensures { OnOk result (string_bytes text.new ≡ string_bytes text.old ++ kind_columns kind owner) }
{
    push_column(text, kind.word(), 9)?;
    text.push_str("  ")?;
    push_user(text, owner)
}

/// The protection and the date of creation, in columns.
#[tactic(auto, unfolding(crate::specs::Lines::rights_columns))]
fn push_rights_and_date(text: &mut String, facts: &Facts) -> Result<(), AllocError>
    ensures { OnOk result (string_bytes text.new ≡ string_bytes text.old ++ rights_columns facts.now.protection facts.now.ident) }
{
    text.push_str("  ")?;
    push_rights(text, facts.protection)?;
    text.push_str("  ")?;
    text.push_str(date_text(&facts.creation_date()).as_str())
}

/// Appends the numbers of blocks and bytes of a file, in columns.
#[tactic(auto, unfolding(crate::specs::Lines::size_columns, crate::specs::Lines::number_column))]
pub(crate) fn push_sizes(text: &mut String, blocks: u32, bytes: u64) -> Result<(), AllocError>
    ensures { OnOk result (string_bytes text.new ≡ string_bytes text.old ++ size_columns blocks bytes) }
{
    write!(text, "  {blocks:>7}  {bytes:>10}  ")
}
