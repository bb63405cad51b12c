//! Keys of names, each with a number.
ghost use Rattle.std.specs.Prelude.{◌≡◌, [], OnOk};
ghost use Rattle.ods_repair.specs.Noted.{Sets, number_in};

use std::alloc::{AllocError, Global};
use std::collections::BTreeMap;
use std::marker::Model;

/// The three words of a name, the word of its type, and a version.
pub(crate) type Key = [u16; 5];

/// Keys, each with a number.
#[derive(Drop)]
pub(crate) struct Noted {
    numbers: BTreeMap<Key, u16>,
}

impl Model for Noted {
    ghost use Rattle.ods_repair.specs.Noted.{Numbers};

    ghost Value = { Numbers };

    ghost view = { λ n. n.numbers.entries };
}

impl Noted {
    /// Returns an empty list.
    pub fn new(alloc: Global) -> Noted
        ensures { result ≡ [] }
    {
        Noted {
            numbers: BTreeMap::new(alloc),
        }
    }

    /// Returns the number of a key.
    pub fn get(&self, key: &Key) -> Option<u16>
        ensures { result ≡ number_in self.now key.now }
    {
        self.numbers.get(key).copied()
    }

    /// Sets the number of a key.
    pub fn put(&mut self, key: Key, number: u16) -> Result<(), AllocError>
        ensures { OnOk result (Sets (number_in self.old) key number (number_in self.new)) }
    {
        self.numbers.insert(key, number)?;
        Ok(())
    }
}
