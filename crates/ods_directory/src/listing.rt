//! The check of a directory, and the list of all its names.
ghost use Rattle.std.specs.Prelude.{◌≡◌, ◌+◌, ◌*◌, ◌≤◌, length, IfOk, OnErr, MatchBool};
ghost use Rattle.std.specs.List.{All, filter_map};
ghost use Rattle.ods_base.specs.Names.{lines_of};
ghost use Rattle.ods_directory.specs.{Entry.IsGoodEntry, Entry.used_entries, Lines.good_lines, Names.IsDirectory, Names.HasBadEntry, Names.HasTwins, Names.names_of};

use crate::first::{Kind, first_entry};
use crate::lines::{read_rows, sort};
use crate::twins::has_twins;
use crate::{DirBlocks, Verdict};
use ods_base::Listed;
use std::alloc::{AllocError, Global};

/// Checks the used entries before the end mark: all must be valid, and no two may have the same name, type and version. It runs out of memory only if
/// each entry is valid.
pub fn check<B: DirBlocks>(alloc: Global, blocks: &B, mark: u64) -> Result<Verdict, AllocError>
    ensures good { result ≡ Ok Verdict.Good → IsDirectory (B.blocks blocks.now) mark }
    ensures bad { result ≡ Ok Verdict.BadEntry → HasBadEntry (used_entries (B.blocks blocks.now) mark) }
    ensures twice { result ≡ Ok Verdict.Twice → HasTwins (used_entries (B.blocks blocks.now) mark) }
    ensures memory { OnErr result (All IsGoodEntry (used_entries (B.blocks blocks.now) mark)) }
{
    let cut = mark.min(512 * u64::from(blocks.count()));
    if has_bad_entry(blocks, cut) {
        return Ok(Verdict::BadEntry);
    }
    let twins = has_twins(alloc, blocks, cut)?;
    if twins {
        return Ok(Verdict::Twice);
    }
    Ok(Verdict::Good)
}

/// Returns whether a used entry before the end mark is not valid. In such an entry a word of the name or type, the version, or the relative volume
/// number is out of range.
pub fn has_bad_entry<B: DirBlocks>(blocks: &B, mark: u64) -> bool
    requires { mark ≤ 512 * length (B.blocks blocks.now) }
    ensures { MatchBool result (HasBadEntry (used_entries (B.blocks blocks.now) mark)) (All IsGoodEntry (used_entries (B.blocks blocks.now) mark)) }
{
    first_entry(blocks, mark, Kind::Bad).is_some()
}

/// Returns the valid entries among the used ones before the end mark, in the order of the blocks, and the number of bad entries. It reads what
/// remains of a damaged directory.
pub fn good_entries<B: DirBlocks>(
    alloc: Global,
    blocks: &B,
    mark: u64,
) -> Result<(Vec<Listed>, usize), AllocError>
    requires { mark ≤ 512 * length (B.blocks blocks.now) }
    ensures good { IfOk result (λ r. r.0.items ≡ good_lines (used_entries (B.blocks blocks.now) mark)) }
    ensures bad { IfOk result (λ r. length r.0.items + r.1 ≡ length (used_entries (B.blocks blocks.now) mark)) }
{
    let rows: Vec<Option<Listed>> = read_rows(alloc, blocks, mark)?;
    let good = kept_lines(alloc, &rows)?;
    let bad = rows.len() - good.len();
    Ok((good, bad))
}

/// The lines among these rows, in their order.
fn kept_lines(alloc: Global, rows: &[Option<Listed>]) -> Result<Vec<Listed>, AllocError>
    ensures { IfOk result (λ lines. lines.items ≡ filter_map (λ row. row) rows.now) }
{
    let mut lines = Vec::new(alloc);
    let mut left = rows;
    while let Some((row, rest)) = left.split_first() {
        if let Some(line) = row {
            lines.push(*line)?;
        }
        left = rest;
    }
    Ok(lines)
}

/// Returns all names, ascending by name, type and version.
pub fn entries<B: DirBlocks>(
    alloc: Global,
    blocks: &B,
    mark: u64,
) -> Result<Vec<Listed>, AllocError>
    requires directory { IsDirectory (B.blocks blocks.now) mark }
    requires mark { mark ≤ 512 * length (B.blocks blocks.now) }
    ensures { IfOk result (λ names. names.items ≡ lines_of (names_of (B.blocks blocks.now) mark)) }
{
    let mut lines = read_rows(alloc, blocks, mark)?;
    sort(&mut lines);
    Ok(lines)
}
