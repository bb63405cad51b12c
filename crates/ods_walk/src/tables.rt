//! The result of a walk: its lines, and the table of the entered directories, by which each line has its path.
ghost use Rattle.std.specs.Prelude.{◌≡◌, ◌++◌, IfOk, OnOk, length, reverse, slice_get};
ghost use Rattle.std.specs.Option.{option_copied};
ghost use Rattle.ods_walk.specs.Paths.{path_to};

use ods_base::{Listed, Name};
use std::alloc::{AllocError, Global};
use std::marker::Model;

/// A line of a walk: an entry, and the index of its directory among the entered directories.
#[derive(Clone, Copy, Debug, PartialEq, Eq)]
pub struct Line {
    pub directory: usize,
    pub entry: Listed,
}

/// An entered directory: its number, the index of the directory with its entry, and its name there. The directory where the walk starts has index 0,
/// and no such entry.
#[derive(Clone, Copy, Debug, PartialEq, Eq)]
pub struct Entered {
    pub number: u16,
    pub from: Option<(usize, Name)>,
}

/// The result of a walk: the directories in the order in which they were entered, and the lines.
#[derive(Drop, Debug)]
pub struct Walk {
    pub(crate) directories: Vec<Entered>,
    pub(crate) lines: Vec<Line>,
}

impl Model for Walk {
    ghost use Rattle.ods_walk.specs.Paths.{Tables};

    ghost Value = { Tables };

    ghost view = { λ w. record { directories = w.directories.items; lines = w.lines.items } };
}

impl Walk {
    /// Returns all lines, in order.
    pub fn lines(&self) -> &[Line]
        ensures { result.now ≡ self.now.lines }
    {
        self.lines.as_slice()
    }

    /// Returns the number of entered directories.
    pub fn directory_count(&self) -> usize
        ensures { result ≡ length self.now.directories }
    {
        self.directories.len()
    }

    /// Returns the directory at this index, or `None` past the last one.
    pub fn directory(&self, place: usize) -> Option<&Entered>
        ensures { option_copied result ≡ slice_get self.now.directories place }
    {
        self.directories.get(place)
    }

    /// Returns the names of the path from the start of the walk to the directory at this index. It fails only when out of memory.
    pub fn path(&self, alloc: Global, place: usize) -> Result<Vec<Name>, AllocError>
        ensures { IfOk result (λ names. names.items ≡ path_to self.now.directories place) }
    {
        let mut names = Vec::new(alloc);
        push_way(self.directories.as_slice(), place, &mut names)?;
        names.reverse();
        Ok(names)
    }
}

/// Adds the names that lead to this place, the last one first.
fn push_way(directories: &[Entered], place: usize, names: &mut Vec<Name>) -> Result<(), AllocError>
    ensures { OnOk result (names.new.items ≡ names.old.items ++ reverse (path_to directories.now place)) }
{
    let mut before = directories;
    let mut at = place;
    while let Some(entered) = before.get(at) {
        let Some((from, name)) = entered.from else {
            return Ok(());
        };
        names.push(name)?;
        before = &before[..at];
        at = from;
    }
    Ok(())
}
