//! The lines of `du`: the number of blocks of the files in each directory. Each file counts once, under the first path that names it.
ghost use Rattle.std.specs.Prelude.{◌≡◌, ◌+◌, ◌-◌, ◌^◌, ◌<◌, ◌++◌, ◌∷◌, ℕ, List, Option, Some, [], false, true, length, min, slice_get, slice_index, slice_index_or, slice_set, take, IfOk, OnOk, IsPermutation};
ghost use Rattle.std.specs.List.{flat_map, range_with_len};
ghost use Rattle.std.specs.Ordering.{nat_cmp};
ghost use Rattle.std.specs.String.{string_bytes};
ghost use Rattle.ods_walk.specs.declared.tables.Line.{Line as OneLine};
ghost use Rattle.ods_shell.specs.Lines.{usage_line};
ghost use Rattle.ods_shell.specs.Named.{IsKnown};
ghost use Rattle.ods_shell.specs.There.{AreFlags, ids_in};
ghost use Rattle.ods_shell.specs.Usage.{AreFalling, AreLargest, AreUsage, AreUses, IsCounted, IsUse, blocks_at, directory_use, file_use, use_text};
ghost use Rattle.ods_shell.specs.declared.facts.Facts.{Facts as KnownFacts};
ghost use Rattle.ods_shell.specs.declared.usage.Use.{Use as OneUse};
ghost use Rattle.ods_space.specs.Files.{FindsFiles};
ghost use Rattle.ods_space.specs.Disks.{on};

use crate::facts::facts_by_id;
use crate::find::{is_noted, note_number, push_path_of};
use crate::finding::FoundLines;
use crate::folders::Directory;
use crate::json::push_blocks;
use crate::texts::push_directory;
use ods_space::Disk;
use ods_walk::Line;
use std::alloc::{AllocError, Global};
use std::cmp::Ordering;

/// A line that was found first of its file, and how many blocks the file has.
#[derive(Clone, Copy)]
struct Use {
    line: Line,
    blocks: u32,
}

/// The lines that name a file first, with its blocks.
fn uses(alloc: Global, disk: &Disk<'_>, found: &FoundLines) -> Result<Vec<Use>, AllocError>
    requires { on FindsFiles disk.now }
    ensures { IfOk result (λ uses. on AreUses disk.now [] found.now.lines.items uses.items) }
{
    let mut is_seen = vec![in alloc; false; 65_536]?;
    let mut all = Vec::new(alloc);
    for line in &found.lines {
        add_use(disk, line, &mut is_seen, &mut all)?;
    }
    Ok(all)
}

/// Adds the blocks of the file that a line names, unless a line before named it.
fn add_use(
    disk: &Disk<'_>,
    line: &Line,
    is_seen: &mut Vec<bool>,
    all: &mut Vec<Use>,
) -> Result<(), AllocError>
    requires { on FindsFiles disk.now }
    ensures { OnOk result ((before : List OneLine) → AreFlags (on IsCounted disk.now (ids_in before)) is_seen.old.items
        → (known : Option KnownFacts) × ((counted : List OneUse) × on IsKnown disk.now line.now.entry.file known × IsUse before line.now known counted
        × (all.new.items ≡ all.old.items ++ counted) × AreFlags (on IsCounted disk.now (ids_in (before ++ line.now ∷ []))) is_seen.new.items)) }
{
    let Some(facts) = facts_by_id(disk, line.entry.file) else {
        return Ok(());
    };
    if see(is_seen, line.entry.file.number) {
        return Ok(());
    }
    all.push(Use {
        line: *line,
        blocks: facts.blocks,
    })?;
    Ok(())
}

/// Notes a number. The answer is whether it was noted before.
fn see(is_seen: &mut Vec<bool>, number: u16) -> bool
    ensures before { result ≡ slice_index_or is_seen.old.items number false }
    ensures noted { is_seen.new.items ≡ slice_set is_seen.old.items number true }
    ensures word { number < 65536 }
{
    let before = is_noted(is_seen, number);
    note_number(is_seen, number);
    before
}

/// Returns a line for each directory: the number of blocks of its files, and its name. With `json`, an object replaces the line.
pub fn usage_lines(
    alloc: Global,
    disk: &Disk<'_>,
    found: &FoundLines,
    json: bool,
    image: &str,
) -> Result<String, AllocError>
    requires { on FindsFiles disk.now }
    ensures { IfOk result (λ text. on AreUsage disk.now found.now.directories.items found.now.lines.items json image.now (string_bytes text)) }
{
    let all = uses(alloc, disk, found)?;
    directory_lines(alloc, &found.directories, &all, json, image)
}

/// A line for each of these directories.
fn directory_lines(
    alloc: Global,
    directories: &[Directory],
    uses: &[Use],
    json: bool,
    image: &str,
) -> Result<String, AllocError>
    ensures { IfOk result (λ text. string_bytes text ≡ flat_map (λ place. directory_use json image.now (slice_get directories.now place) (blocks_at uses.now place)) (range_with_len 0 (length directories.now))) }
{
    let sums = sums_of(alloc, uses, directories.len())?;
    let mut text = String::new(alloc);
    for place in 0..directories.len() {
        let blocks = sum_at(&sums, place);
        push_directory_use(alloc, &mut text, directories, place, blocks, json, image)?;
    }
    Ok(text)
}

/// The blocks of each directory, of which there are so many.
fn sums_of(alloc: Global, uses: &[Use], many: usize) -> Result<Vec<u64>, AllocError>
    ensures { IfOk result (λ sums. (place : ℕ) → place < many → slice_index sums.items place ≡ blocks_at uses.now place) }
{
    let mut sums = vec![in alloc; 0; many]?;
    for used in uses {
        add_blocks(&mut sums, used);
    }
    Ok(sums)
}

/// Adds the blocks of a file to those of its directory.
fn add_blocks(sums: &mut Vec<u64>, used: &Use)
    ensures { sums.new.items ≡ slice_set sums.old.items used.now.line.directory (min (slice_index sums.old.items used.now.line.directory + used.now.blocks) (2 ^ 64 - 1)) }
{
    if let Some(sum) = sums.get_mut(used.line.directory) {
        *sum = add(*sum, used.blocks);
    }
}

/// The blocks of the directory at this place.
fn sum_at(sums: &[u64], place: usize) -> u64
    ensures { result ≡ slice_index sums.now place }
{
    match sums.get(place) {
        Some(sum) => *sum,
        None => 0,
    }
}

/// Appends the blocks of a directory.
fn push_directory_use(
    alloc: Global,
    text: &mut String,
    directories: &[Directory],
    place: usize,
    blocks: u64,
    json: bool,
    image: &str,
) -> Result<(), AllocError>
    ensures { OnOk result (string_bytes text.new ≡ string_bytes text.old ++ directory_use json image.now (slice_get directories.now place) blocks) }
{
    match directories.get(place) {
        Some(directory) => push_one_directory(alloc, text, directory, blocks, json, image),
        None => Ok(()),
    }
}

/// Appends the blocks of this directory.
fn push_one_directory(
    alloc: Global,
    text: &mut String,
    directory: &Directory,
    blocks: u64,
    json: bool,
    image: &str,
) -> Result<(), AllocError>
    ensures { OnOk result (string_bytes text.new ≡ string_bytes text.old ++ directory_use json image.now (Some directory.now) blocks) }
{
    let mut name = String::new(alloc);
    push_directory(&mut name, &directory.names)?;
    push_use(alloc, text, "directory", name.as_str(), blocks, json, image)
}

/// Appends how many blocks something has: a line, or an object.
fn push_use(
    alloc: Global,
    text: &mut String,
    what: &str,
    name: &str,
    blocks: u64,
    json: bool,
    image: &str,
) -> Result<(), AllocError>
    ensures { OnOk result (string_bytes text.new ≡ string_bytes text.old ++ use_text json image.now what.now name.now blocks) }
{
    if json {
        push_blocks(alloc, text, image, what, name, blocks)
    } else {
        push_usage_line(text, name, blocks)
    }
}

/// Appends the line of how many blocks something has.
#[tactic(auto, unfolding(crate::specs::Lines::number_column))]
fn push_usage_line(text: &mut String, name: &str, blocks: u64) -> Result<(), AllocError>
    ensures { OnOk result (string_bytes text.new ≡ string_bytes text.old ++ usage_line name.now blocks) }
{
    writeln!(text, "{blocks:>8}  {name}")
}

/// A sum of blocks.
fn add(sum: u64, blocks: u32) -> u64
    ensures { result ≡ min (sum + blocks) (2 ^ 64 - 1) }
{
    sum.saturating_add(u64::from(blocks))
}

/// Returns a line for each of the largest files, at most `most`: its number of blocks, and its path. With `json`, an object replaces the line.
pub fn largest_lines(
    alloc: Global,
    disk: &Disk<'_>,
    found: &FoundLines,
    most: usize,
    json: bool,
    image: &str,
) -> Result<String, AllocError>
    requires { on FindsFiles disk.now }
    ensures { IfOk result (λ text. on AreLargest disk.now found.now.directories.items found.now.lines.items most json image.now (string_bytes text)) }
{
    let mut all = uses(alloc, disk, found)?;
    sort_uses(&mut all)?;
    file_lines(
        alloc,
        &found.directories,
        first_uses(&all, most),
        json,
        image,
    )
}

/// Puts files with more blocks before those with fewer.
fn sort_uses(uses: &mut Vec<Use>) -> Result<(), AllocError>
    ensures permutation { IsPermutation uses.old.items uses.new.items }
    ensures order { OnOk result (AreFalling uses.new.items) }
{
    uses.sort_by(compare_uses)
}

/// How two files stand where those with the most blocks come first.
fn compare_uses(one: &Use, other: &Use) -> Ordering
    ensures { result ≡ nat_cmp other.now.blocks one.now.blocks }
{
    other.blocks.cmp(&one.blocks)
}

/// The first of these, at most so many.
fn first_uses(uses: &[Use], most: usize) -> &[Use]
    ensures { result.now ≡ take most uses.now }
{
    if most < uses.len() {
        &uses[..most]
    } else {
        uses
    }
}

/// A line for each of these files.
fn file_lines(
    alloc: Global,
    directories: &[Directory],
    uses: &[Use],
    json: bool,
    image: &str,
) -> Result<String, AllocError>
    ensures { IfOk result (λ text. string_bytes text ≡ flat_map (file_use json image.now directories.now) uses.now) }
{
    let mut text = String::new(alloc);
    for used in uses {
        push_file_use(alloc, &mut text, directories, used, json, image)?;
    }
    Ok(text)
}

/// Appends the blocks of a file, and its path.
fn push_file_use(
    alloc: Global,
    text: &mut String,
    directories: &[Directory],
    used: &Use,
    json: bool,
    image: &str,
) -> Result<(), AllocError>
    ensures { OnOk result (string_bytes text.new ≡ string_bytes text.old ++ file_use json image.now directories.now used.now) }
{
    let mut path = String::new(alloc);
    push_path_of(&mut path, directories, &used.line)?;
    let blocks = u64::from(used.blocks);
    push_use(alloc, text, "path", path.as_str(), blocks, json, image)
}
