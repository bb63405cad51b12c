//! The names that several versions have, so that each file has a unique name on a host.
ghost use Rattle.std.specs.Prelude.{◌≡◌, List, IfOk, MatchBool, OnOk};
ghost use Rattle.ods_shell.specs.Versioned.{AreKnownOf, HasOther, IsJoined, is_other, joined, known_of, name_key, version_at};
ghost use Rattle.ods_shell.specs.declared.found.Found.{Found as One};

use crate::found::{EntryPlace, Found};
use std::alloc::{AllocError, Global};
use std::collections::BTreeMap;
use std::marker::Model;

/// A name in a directory: the number of the directory's file, the word of the type, and the three words of the name.
type Key = [u16; 5];

/// The names of some files in their directories. Each has its single version, or none if there are several versions.
#[derive(Drop)]
pub struct Versioned {
    versions: BTreeMap<Key, Option<u16>>,
}

impl Model for Versioned {
    ghost use Rattle.ods_shell.specs.Versioned.{Known};

    ghost Value = { Known };

    ghost view = { λ v. v.versions.entries };
}

impl Versioned {
    /// Collects the names of these files.
    pub fn of(alloc: Global, files: &[Found]) -> Result<Versioned, AllocError>
        ensures { IfOk result (AreKnownOf files.now) }
    {
        let mut all = Versioned {
            versions: BTreeMap::new(alloc),
        };
        for file in files {
            all.note(&file.place)?;
        }
        Ok(all)
    }

    /// Returns whether the name of this file is present with another version.
    pub fn has_other(&self, file: &Found) -> bool
        ensures { (files : List One) → AreKnownOf files self.now → MatchBool result (HasOther files file.now.place) (¬ HasOther files file.now.place) }
    {
        is_other(self.known(&file.place), version_of(&file.place))
    }

    /// What is known of the name of an entry.
    fn known(&self, place: &Option<EntryPlace>) -> Option<Option<u16>>
        ensures { result ≡ known_of self.now (name_key place.now) }
    {
        self.versions.get(&key(place)).copied()
    }

    /// An entry is there too.
    fn note(&mut self, place: &Option<EntryPlace>) -> Result<(), AllocError>
        ensures { OnOk result (IsJoined self.old (name_key place.now) (version_at place.now) self.new) }
    {
        let now = joined(self.known(place), version_of(place));
        self.versions.insert(key(place), now)?;
        Ok(())
    }
}

/// The directory of an entry, and the words of its name; zeros if a path selects the file by its ID.
fn key(place: &Option<EntryPlace>) -> Key
    ensures { result ≡ name_key place.now }
{
    match place {
        Some(place) => {
            let words = place.entry.name.words();
            let ext = place.entry.name.ext();
            [place.directory.number, ext, words[0], words[1], words[2]]
        }
        None => [0; 5],
    }
}

/// The version of an entry; 0 where a file is named by its ID.
fn version_of(place: &Option<EntryPlace>) -> u16
    ensures { result ≡ version_at place.now }
{
    match place {
        Some(place) => place.entry.version,
        None => 0,
    }
}

/// What is known of a name of which there is this version too.
fn joined(known: Option<Option<u16>>, version: u16) -> Option<u16>
    ensures { result ≡ joined known version }
{
    match known {
        None => Some(version),
        Some(Some(one)) if one == version => Some(one),
        Some(_) => None,
    }
}

/// Whether another version than this one is there, by what is known of the name.
fn is_other(known: Option<Option<u16>>, version: u16) -> bool
    ensures { result ≡ is_other known version }
{
    match known {
        Some(Some(one)) => one != version,
        Some(None) => true,
        None => false,
    }
}
