//! A folder in memory whose calls can be made to fail. It is for tests of programs that save, and shows that the trait requires nothing impossible.
ghost use Rattle.std.specs.Prelude.{◌⊎◌, ℕ, List, Option, ◌≡◌, [], if◌then◌else◌, Some, None, OnOk, OnErr, MatchOption};
ghost use Rattle.fs_saving.specs.Folder.{OthersStay, OthersLast};
ghost use Rattle.fs_saving.specs.Memory.{changes_of, failed_in, held, left_by, Holds, HeldOnce};
ghost use Rattle.fs_saving.specs.declared.memory.MemoryFault.TheVariants.{NoMemory};

mod calls;

use std::alloc::{AllocError, Global};

/// The reason why a call of a folder in memory fails.
#[derive(Clone, Copy, Debug, PartialEq, Eq)]
pub enum MemoryFault {
    /// The call was planned to fail.
    Failed,
    /// There is no such file.
    NotThere,
    /// The allocator refused memory.
    NoMemory,
}

impl From<AllocError> for MemoryFault {
    ghost from_gives = { λ _ fault. fault ≡ NoMemory };

    fn from(_error: AllocError) -> MemoryFault {
        MemoryFault::NoMemory
    }
}

/// A change of one name: it has a file with these bytes, or none.
#[derive(Drop)]
struct Change {
    name: Vec<u8>,
    is_there: bool,
    bytes: Vec<u8>,
}

/// A folder in memory.
#[derive(Drop)]
pub struct MemoryFolder {
    alloc: Global,
    /// All changes of the folder so far.
    changes: Vec<Change>,
    /// The number of the call that fails, counted from 1 on; 0 is none.
    failing: u32,
    /// The number of the write whose last byte is another, counted from 1 on; 0 is none.
    turning: u32,
    has_failed: bool,
    has_left: bool,
}

/// An open file of a folder in memory.
#[derive(Drop)]
pub struct MemoryFile {
    name: Vec<u8>,
    given: Vec<u8>,
    is_synced: bool,
}

impl MemoryFolder {
    /// Returns a folder without files. The call with number `failing` fails, and the write with number `turning` changes a byte. 0 is no call.
    pub fn new(alloc: Global, failing: u32, turning: u32) -> MemoryFolder
        ensures { changes_of result ≡ [] }
    {
        MemoryFolder {
            alloc,
            changes: Vec::new(alloc),
            failing,
            turning,
            has_failed: false,
            has_left: false,
        }
    }

    /// Sets the file under a name to these bytes. No planned failure applies here.
    pub fn set(&mut self, name: &[u8], bytes: &[u8]) -> Result<(), MemoryFault>
        ensures ok { OnOk result (Holds self.new name.now (Some bytes.now)) }
        ensures err { OnErr result (changes_of self.new ≡ changes_of self.old) }
        ensures others { OthersStay (Holds self.old) (Holds self.new) name.now }
    {
        let bytes = Vec::from_slice(self.alloc, bytes)?;
        self.put(name, true, bytes)
    }

    /// Returns the bytes of the file under this name, or `None` if there is no file.
    pub fn get(&self, name: &[u8]) -> Option<&[u8]>
        ensures { MatchOption result (Holds self.now name.now None) (λ bytes. Holds self.now name.now (Some bytes.now)) }
    {
        match find(&self.changes, name) {
            Some(change) if change.is_there => Some(&change.bytes),
            _ => None,
        }
    }

    /// Returns whether a call has failed, or a file was not the expected one.
    pub fn has_failed(&self) -> bool
        ensures { result ≡ failed_in self.now }
    {
        self.has_failed
    }

    /// Gives a name a file with these bytes, or none.
    fn put(&mut self, name: &[u8], is_there: bool, bytes: Vec<u8>) -> Result<(), MemoryFault>
        ensures ok { OnOk result (Holds self.new name.now (if is_there then Some bytes.items else None)) }
        ensures err { OnErr result (changes_of self.new ≡ changes_of self.old) }
        ensures others { OthersStay (Holds self.old) (Holds self.new) name.now }
        ensures moments { OthersLast (HeldOnce self.old) (HeldOnce self.new) name.now }
        ensures own { (held : Option (List ℕ)) → HeldOnce self.new name.now held
            → HeldOnce self.old name.now held ⊎ ((if is_there then Some bytes.items else None) ≡ held) }
        ensures failed { self.new.has_failed ≡ self.old.has_failed }
    {
        let name = Vec::from_slice(self.alloc, name)?;
        self.changes.reserve(1)?;
        self.changes.push_reserved(Change {
            name,
            is_there,
            bytes,
        });
        Ok(())
    }
}

/// The last change of a name.
#[tactic(auto, using(crate::proofs::Changes::found_last, crate::proofs::Changes::passed_last, crate::proofs::Changes::found_none))]
fn find<'a>(changes: &'a [Change], name: &[u8]) -> Option<&'a Change>
    ensures { MatchOption result (held changes.now name.now ≡ None) (λ change. held changes.now name.now ≡ left_by change.now) }
{
    let mut rest = changes;
    while let Some((change, before)) = rest.split_last() {
        if change.name.as_slice() == name {
            return Some(change);
        }
        rest = before;
    }
    None
}
