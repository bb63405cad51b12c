//! INDEXF.SYS, BITMAP.SYS and 000000.DIR, if the master directory does not name them.
ghost use Rattle.std.specs.Prelude.{◌≡◌, ◌++◌, ◌∷◌, [], MatchBool, IfOk};
ghost use Rattle.std.specs.List.{Contains};
ghost use Rattle.ods_base.specs.declared.listed.Listed.{Listed as Line};
ghost use Rattle.ods_space.specs.{Disks.on, Files.IsLayoutOf};
ghost use Rattle.ods_check.specs.Findings.{IsRead, AreNames, IsUnnamed, IsSystemFile, IsLineOf, system_words as words_of_system};

use crate::Finding;
use crate::names::names_of;
use crate::reading::is_read;
use crate::sweep::Sought;
use ods_base::{Listed, Name};
use ods_space::{Disk, primary_header, sequence};
use std::alloc::{AllocError, Global};

/// The number of the master directory.
const MASTER: u16 = 4;

/// System files that the master directory does not name.
#[derive(Drop)]
pub(crate) struct Unnamed {
    /// Whether all names of the master directory are read.
    pub read: bool,
    /// The lines of the master directory.
    pub lines: Vec<Listed>,
}

impl Sought for Unnamed {
    ghost use Rattle.std.specs.Prelude.{MatchBool};
    ghost use Rattle.ods_check.specs.Findings.{IsRead, AreNames, IsUnnamed};
    ghost use Rattle.ods_check.specs.declared.finding.Finding.{Finding};

    type Line = Finding;

    ghost most = { 65536 };

    ghost fits = { λ s I L. MatchBool s.read (IsRead I L 4) (¬ IsRead I L 4) × AreNames I L 4 s.lines.items };

    ghost is = { λ _. IsUnnamed };

    ghost line_of = { λ _ _. Finding.Unnamed };

    fn end(&self, _disk: &Disk<'_>) -> u32 {
        5
    }

    fn holds(&self, _alloc: Global, disk: &Disk<'_>, number: u32) -> Result<bool, AllocError> {
        Ok(is_unnamed(disk, self.read, &self.lines, number as u16))
    }

    fn line(&self, _disk: &Disk<'_>, number: u32) -> Finding {
        Finding::Unnamed(number as u16)
    }
}

/// Returns the lines of the master directory, and whether all its names are read.
pub(crate) fn master_names(alloc: Global, disk: &Disk<'_>) -> Result<Unnamed, AllocError>
    requires { on IsLayoutOf disk.now }
    ensures read { IfOk result (λ s. MatchBool s.read (on IsRead disk.now 4) (¬ on IsRead disk.now 4)) }
    ensures lines { IfOk result (λ s. on AreNames disk.now 4 s.lines.items) }
{
    let read = is_read(alloc, disk, MASTER)?;
    let lines = names_of(alloc, disk, MASTER)?;
    Ok(Unnamed { read, lines })
}

/// Whether this is a file of the system, the names of the master directory are read, and none of its lines has the file's name and
/// its ID.
fn is_unnamed(disk: &Disk<'_>, read: bool, lines: &[Listed], number: u16) -> bool
    requires read { MatchBool read (on IsRead disk.now 4) (¬ on IsRead disk.now 4) }
    requires lines { on AreNames disk.now 4 lines.now }
    ensures { MatchBool result (on IsUnnamed disk.now number) (¬ on IsUnnamed disk.now number) }
{
    if !is_system_file(number) {
        return false;
    }
    if !read {
        return false;
    }
    match primary_header(disk, number) {
        Some(_) => !is_named(lines, &system_words(number), number, sequence(disk, number)),
        None => false,
    }
}

/// Whether this is the number of INDEXF.SYS, BITMAP.SYS or 000000.DIR.
fn is_system_file(number: u16) -> bool
    ensures { MatchBool result (IsSystemFile number) (¬ IsSystemFile number) }
{
    number == 1 || number == 2 || number == 4
}

/// The words of the name of a file of the system, and the word of its type.
fn system_words(number: u16) -> [u16; 4]
    ensures { result ≡ words_of_system number }
{
    match number {
        1 => [14964, 8966, 0, 31419],
        2 => [3580, 20856, 0, 31419],
        _ => [49230, 49230, 0, 6778],
    }
}

/// Whether one of these lines has a name of these words, and names the file of this ID.
fn is_named(lines: &[Listed], words: &[u16; 4], number: u16, sequence: u16) -> bool
    ensures { MatchBool result
        ((line : Line) × Contains lines.now line × IsLineOf words.now number sequence line)
        ((line : Line) → Contains lines.now line → ¬ IsLineOf words.now number sequence line) }
{
    for i in 0..lines.len() {
        if is_line(&lines[i], words, number, sequence) {
            return true;
        }
    }
    false
}

/// Whether this line has a name of these words, and names the file of this ID.
fn is_line(line: &Listed, words: &[u16; 4], number: u16, sequence: u16) -> bool
    ensures { MatchBool result (IsLineOf words.now number sequence line.now) (¬ IsLineOf words.now number sequence line.now) }
{
    has_words(&line.name, words) && line.file.number == number && line.file.sequence == sequence
}

/// Whether the name has these words, its type last.
fn has_words(name: &Name, words: &[u16; 4]) -> bool
    ensures { MatchBool result (name.now.words ++ name.now.ext ∷ [] ≡ words.now) (¬ (name.now.words ++ name.now.ext ∷ [] ≡ words.now)) }
{
    name_words(name) == *words
}

/// The words of a name, its type last.
fn name_words(name: &Name) -> [u16; 4]
    ensures { result ≡ name.now.words ++ name.now.ext ∷ [] }
{
    let [first, second, third] = name.words();
    [first, second, third, name.ext()]
}
