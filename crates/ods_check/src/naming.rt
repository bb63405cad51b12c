//! Names that name no file, and files that no name names.
ghost use Rattle.std.specs.Prelude.{◌≡◌, ◌⊎◌, ◌*◌, ◌≤◌, ℕ, true, Some, slice_get, length, MatchBool, OnOk};
ghost use Rattle.std.specs.List.{All, Contains};
ghost use Rattle.ods_base.specs.declared.listed.Listed.{Listed as Line};
ghost use Rattle.ods_space.specs.Files.{IsLayoutOf};
ghost use Rattle.ods_mount.specs.Tables.{has};
ghost use Rattle.ods_check.specs.{Lists.Adds, Sets.IsSetOf, Findings.IsOtherFound, Findings.HasName, Findings.NamesFile, Findings.NamesAt, Findings.IsNumberOf, Findings.IsIdOfFile, Findings.IsNamingNone, Findings.IsLostFile, Findings.id_at};
ghost use Rattle.ods_space.specs.Disks.{on, seen};

use crate::ids::id_of;
use crate::names::names_of;
use crate::numbers::file_end;
use crate::sweep::{Sought, push_each};
use crate::{Finding, Told};
use ods_base::{FileId, Listed};
use ods_mount::NumberSet;
use ods_space::{Disk, primary_header, sequence};
use std::alloc::{AllocError, Global};

/// Adds each name that names no file, and, if `with_lost`, each file above 5 that no name names.
pub(crate) fn push_naming(
    alloc: Global,
    disk: &Disk<'_>,
    with_lost: bool,
    findings: &mut Told<Finding>,
) -> Result<(), AllocError>
    requires { on IsLayoutOf disk.now }
    ensures adds { OnOk result (Adds (on IsOtherFound disk.now) findings.old findings.new) }
    ensures names { OnOk result ((d : ℕ) (line : Line) → on IsNamingNone disk.now d line → Contains findings.new.0 (Finding.NamesNone d line)) }
    ensures lost { OnOk result (with_lost ≡ true → (n : ℕ) → on IsLostFile disk.now n → Contains findings.new.0 (Finding.LostFile (seen id_at disk.now n))) }
{
    // The number of a file is a word.
    let mut named = NumberSet::new(alloc, 65536)?;
    for number in 0..file_end(disk) {
        push_names(alloc, disk, number as u16, &mut named, findings)?;
    }
    if !with_lost {
        return Ok(());
    }
    push_each(alloc, disk, &LostFiles { named }, findings)?;
    Ok(())
}

/// Files above 5 that no name names.
#[derive(Drop)]
struct LostFiles {
    /// The files that are named.
    named: NumberSet,
}

impl Sought for LostFiles {
    ghost use Rattle.std.specs.Prelude.{ℕ};
    ghost use Rattle.ods_check.specs.{Sets.IsSetOf, Findings.NamesFile, Findings.IsLostFile, Findings.id_at};
    ghost use Rattle.ods_check.specs.declared.finding.Finding.{Finding};

    type Line = Finding;

    ghost most = { 65536 };

    ghost fits = { λ s I L. IsSetOf (λ n. (d : ℕ) × NamesFile I L d n) s.named };

    ghost is = { λ _. IsLostFile };

    ghost line_of = { λ I L n. Finding.LostFile (id_at I L n) };

    fn end(&self, disk: &Disk<'_>) -> u32 {
        file_end(disk)
    }

    fn holds(&self, _alloc: Global, disk: &Disk<'_>, number: u32) -> Result<bool, AllocError> {
        Ok(is_lost(disk, &self.named, number as u16))
    }

    fn line(&self, disk: &Disk<'_>, number: u32) -> Finding {
        Finding::LostFile(id_of(disk, number as u16))
    }
}

/// Returns whether this is a file above 5 that no name names.
pub(crate) fn is_lost(disk: &Disk<'_>, named: &NumberSet, number: u16) -> bool
    requires { IsSetOf (λ n. (d : ℕ) × on NamesFile disk.now d n) named.now }
    ensures { MatchBool result (on IsLostFile disk.now number) (¬ on IsLostFile disk.now number) }
{
    if number <= 5 {
        return false;
    }
    match primary_header(disk, number) {
        Some(_) => !named.contains(number as u32),
        None => false,
    }
}

/// Adds each name of a directory that names no file, and notes the files that the other names name.
pub(crate) fn push_names(
    alloc: Global,
    disk: &Disk<'_>,
    directory: u16,
    named: &mut NumberSet,
    findings: &mut Told<Finding>,
) -> Result<(), AllocError>
    requires layout { on IsLayoutOf disk.now }
    requires room { 65536 ≤ 64 * length named.old }
    ensures adds { OnOk result (Adds (on IsOtherFound disk.now) findings.old findings.new) }
    ensures names { OnOk result ((line : Line) → on IsNamingNone disk.now directory line → Contains findings.new.0 (Finding.NamesNone directory line)) }
    ensures named { OnOk result (IsSetOf (λ n. (has named.old n ≡ true) ⊎ on NamesFile disk.now directory n) named.new) }
    ensures room { length named.new ≡ length named.old }
{
    let lines = names_of(alloc, disk, directory)?;
    push_lines(disk, directory, &lines, named, findings)?;
    Ok(())
}

/// Adds each of these lines that names no file, and notes the files that the others name.
fn push_lines(
    disk: &Disk<'_>,
    directory: u16,
    lines: &[Listed],
    named: &mut NumberSet,
    findings: &mut Told<Finding>,
) -> Result<(), AllocError>
    requires lines { All (on HasName disk.now directory) lines.now }
    requires room { 65536 ≤ 64 * length named.old }
    ensures adds { OnOk result (Adds (on IsOtherFound disk.now) findings.old findings.new) }
    ensures names { OnOk result ((i : ℕ) (line : Line) → slice_get lines.now i ≡ Some line
        → ¬ on IsIdOfFile disk.now line.file
        → Contains findings.new.0 (Finding.NamesNone directory line)) }
    ensures named { OnOk result (IsSetOf (λ n. (has named.old n ≡ true) ⊎ ((i : ℕ) × on NamesAt disk.now lines.now i n)) named.new) }
    ensures room { length named.new ≡ length named.old }
{
    for i in 0..lines.len() {
        push_line(disk, directory, &lines[i], named, findings)?;
    }
    Ok(())
}

/// Adds a line that names no file, or notes the file that it names.
fn push_line(
    disk: &Disk<'_>,
    directory: u16,
    line: &Listed,
    named: &mut NumberSet,
    findings: &mut Told<Finding>,
) -> Result<(), AllocError>
    requires line { on HasName disk.now directory line.now }
    requires room { 65536 ≤ 64 * length named.old }
    ensures adds { OnOk result (Adds (on IsOtherFound disk.now) findings.old findings.new) }
    ensures told { OnOk result (¬ on IsIdOfFile disk.now line.now.file → Contains findings.new.0 (Finding.NamesNone directory line.now)) }
    ensures named { OnOk result (IsSetOf (λ n. (has named.old n ≡ true) ⊎ on IsNumberOf disk.now line.now n) named.new) }
    ensures room { length named.new ≡ length named.old }
{
    if is_id_of_file(disk, line.file) {
        named.insert(line.file.number as u32);
        return Ok(());
    }
    findings.push(Finding::NamesNone(directory, *line))?;
    Ok(())
}

/// Returns whether this is the ID of a file.
pub(crate) fn is_id_of_file(disk: &Disk<'_>, file: FileId) -> bool
    ensures { MatchBool result (on IsIdOfFile disk.now file) (¬ on IsIdOfFile disk.now file) }
{
    match primary_header(disk, file.number) {
        Some(_) => sequence(disk, file.number) == file.sequence,
        None => false,
    }
}
