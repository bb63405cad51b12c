//! The names of a directory, as a list of lines in the order of their names and versions.
ghost use Rattle.std.specs.Prelude.{◌≡◌, ◌≤◌, length, not, false, nat_eq, IfOk, OnOk, OnErr};
ghost use Rattle.std.specs.List.{filter};
ghost use Rattle.std.specs.Ordering.{nat_cmp};
ghost use Rattle.std.specs.Cmp.Lexicographic.{slice_cmp};
ghost use Rattle.std.specs.FinMap as finite;
ghost use lib.Pointwise.{pointwise};
ghost use Rattle.ods_base.specs.{Name.key_of, Names.is_of, Names.highest_of, Names.lowest_of, Names.picked_version, Names.last_version, Names.lines_of};
ghost use Rattle.ods_plain.specs.Lines.{entries_of, versions_in, higher_of, lower_of, gap_for};

use ods_base::{FileId, Listed, Name, Pick};
use std::alloc::{AllocError, Global};
use std::marker::Model;

/// The names of a directory. A contract sees them as a finite map from a name with its version to a file.
#[derive(Drop, Debug)]
pub struct Names {
    lines: Vec<Listed>,
}

impl Model for Names {
    ghost use Rattle.ods_base.specs.Names.{NameMap};
    ghost use Rattle.ods_plain.specs.{Codes.coded_names, Lines.names_in, Lines.AreLines};

    ghost Value = { NameMap };

    ghost coded = { coded_names };

    ghost view = { λ n. names_in n.lines.items };

    ghost invariant = { λ n. AreLines n.lines.items };
}

/// The numbers by which names with their versions are in order.
fn key(name: &Name, version: u16) -> [u16; 5]
    ensures value { result ≡ key_of name.now version }
    ensures named { length name.now.words ≡ 3 }
{
    let [first, second, third] = name.words();
    [first, second, third, name.ext(), version]
}

/// The file of the line with this key.
fn find(lines: &[Listed], wanted: &[u16; 5]) -> Option<FileId>
    ensures { result ≡ finite.find (slice_cmp nat_cmp) wanted.now (entries_of lines.now) }
{
    for line in lines {
        if key(&line.name, line.version) == *wanted {
            return Some(line.file);
        }
    }
    None
}

/// Whether the line has this name, in whatever version.
fn has_name(line: &Listed, name: &Name) -> bool
    ensures value { result ≡ is_of name.now (key_of line.now.name line.now.version) }
    ensures named { length line.now.name.words ≡ 3 }
{
    key(&line.name, line.version) == key(name, line.version)
}

/// The higher one of a version and the highest so far.
fn higher(highest: Option<u16>, version: u16) -> u16
    ensures { result ≡ higher_of highest version }
{
    match highest {
        None => version,
        Some(so_far) => so_far.max(version),
    }
}

/// The lower one of a version and the lowest so far.
fn lower(lowest: Option<u16>, version: u16) -> u16
    ensures { result ≡ lower_of lowest version }
{
    match lowest {
        None => version,
        Some(so_far) => so_far.min(version),
    }
}

/// The lowest and the highest version of a name.
fn ends(lines: &[Listed], name: &Name) -> (Option<u16>, Option<u16>)
    ensures lowest { result.0 ≡ lowest_of (versions_in lines.now name.now) }
    ensures highest { result.1 ≡ highest_of (versions_in lines.now name.now) }
{
    let mut lowest = None;
    let mut highest = None;
    for line in lines {
        if has_name(line, name) {
            lowest = Some(lower(lowest, line.version));
            highest = Some(higher(highest, line.version));
        }
    }
    (lowest, highest)
}

/// Where a key goes: before the first line with a higher one.
fn gap(lines: &[Listed], wanted: &[u16; 5]) -> usize
    ensures value { result ≡ gap_for wanted.now lines.now }
    ensures within { result ≤ length lines.now }
{
    for (i, line) in lines.iter().enumerate() {
        if wanted.cmp(&key(&line.name, line.version)).is_lt() {
            return i;
        }
    }
    lines.len()
}

/// Takes out the line with this key.
fn take_out(lines: &mut Vec<Listed>, wanted: &[u16; 5])
    ensures { lines.new.items ≡ filter (λ l. not (pointwise nat_eq (key_of l.name l.version) wanted.now)) lines.old.items }
{
    lines.retain(|line| key(&line.name, line.version) != *wanted);
}

impl Names {
    /// Makes a directory without names.
    pub fn new(alloc: Global) -> Names
        ensures { result ≡ finite.empty }
    {
        Names {
            lines: Vec::new(alloc),
        }
    }

    /// How many names there are.
    pub(crate) fn len(&self) -> usize
        ensures { result ≡ finite.len self.now }
    {
        self.lines.as_slice().len()
    }

    /// Returns the file with this name and version, or `None` if there is none.
    pub fn get(&self, name: &Name, version: u16) -> Option<FileId>
        ensures { result ≡ finite.get self.now (key_of name.now version) }
    {
        find(self.lines.as_slice(), &key(name, version))
    }

    /// The version of a name that is meant.
    pub(crate) fn pick(&self, name: &Name, pick: Pick) -> Option<u16>
        ensures { result ≡ picked_version self.now name.now pick }
    {
        match pick {
            Pick::Exact(version) => self.get(name, version).map(|_| version),
            Pick::Highest => ends(self.lines.as_slice(), name).1,
            Pick::Lowest => ends(self.lines.as_slice(), name).0,
        }
    }

    /// The highest version of a name, or 0.
    pub(crate) fn last_version(&self, name: &Name) -> u16
        ensures { result ≡ last_version self.now name.now }
    {
        self.pick(name, Pick::Highest).unwrap_or(0)
    }

    /// Adds a name that the directory does not have. When out of memory, the names are unchanged.
    pub fn insert(&mut self, name: Name, version: u16, file: FileId) -> Result<(), AllocError>
        requires { finite.contains_key self.old (key_of name version) ≡ false }
        ensures ok { OnOk result (self.new ≡ finite.insert self.old (key_of name version) file) }
        ensures err { OnErr result (self.new ≡ self.old) }
    {
        let at = gap(self.lines.as_slice(), &key(&name, version));
        let line = Listed {
            name,
            version,
            file,
        };
        self.lines.insert(at, line)?;
        Ok(())
    }

    /// Takes a name out.
    pub(crate) fn remove(&mut self, name: &Name, version: u16)
        ensures { self.new ≡ finite.remove self.old (key_of name.now version) }
    {
        take_out(&mut self.lines, &key(name, version));
    }

    /// Returns the lines, in the order of their names and versions.
    pub fn lines(&self, alloc: Global) -> Result<Vec<Listed>, AllocError>
        ensures { IfOk result (λ lines. lines.items ≡ lines_of self.now) }
    {
        Vec::from_slice(alloc, self.lines.as_slice())
    }
}
