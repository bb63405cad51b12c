//! The highest version of each name in the directory that receives many files. It is not looked up anew for each file.
ghost use Rattle.std.specs.Prelude.{◌≡◌, max, IfOk, OnOk};
ghost use Rattle.ods_upkeep.specs.Versions.{AreHighest, IsNoted, behind, key_of, version_in};

use ods_base::{FileId, Name};
use ods_mount::Mounted;
use ods_shell::mounted::lines_of;
use std::alloc::{AllocError, Global};
use std::collections::BTreeMap;
use std::marker::Model;

/// A name: the word of its type, and its three words.
type Key = [u16; 4];

/// The names of a directory, each with its highest version.
#[derive(Drop)]
pub(crate) struct Highest {
    versions: BTreeMap<Key, u16>,
}

impl Model for Highest {
    ghost use Rattle.ods_upkeep.specs.Versions.{Noted};

    ghost Value = { Noted };

    ghost view = { λ h. h.versions.entries };
}

impl Highest {
    /// Returns the names of a directory; none if the file is not a directory.
    pub fn of(alloc: Global, volume: &Mounted, directory: FileId) -> Result<Highest, AllocError>
        ensures { IfOk result (AreHighest volume.now.image volume.now.layout directory.number) }
    {
        let mut highest = Highest {
            versions: BTreeMap::new(alloc),
        };
        let entries = lines_of(alloc, volume, directory.number)?;
        for entry in &entries {
            highest.note(&entry.name, entry.version)?;
        }
        Ok(highest)
    }

    /// Returns the version after the highest of this name, or 1 if there is none.
    pub fn next(&self, name: &Name) -> u16
        ensures { result ≡ behind (version_in self.now name.now) }
    {
        match self.known(name) {
            Some(version) => version.saturating_add(1),
            None => 1,
        }
    }

    /// The highest version of this name.
    fn known(&self, name: &Name) -> Option<u16>
        ensures { result ≡ version_in self.now name.now }
    {
        self.versions.get(&key(name)).copied()
    }

    /// Records this version of the name.
    pub fn note(&mut self, name: &Name, version: u16) -> Result<(), AllocError>
        ensures { OnOk result (IsNoted self.old name.now version self.new) }
    {
        let highest = greater(self.known(name).unwrap_or(0), version);
        self.versions.insert(key(name), highest)?;
        Ok(())
    }
}

/// The greater one of two versions.
fn greater(one: u16, other: u16) -> u16
    ensures { result ≡ max one other }
{
    if one < other { other } else { one }
}

/// The words of a name.
fn key(name: &Name) -> Key
    ensures { result ≡ key_of name.now }
{
    let words = name.words();
    [name.ext(), words[0], words[1], words[2]]
}
