//! The requests of a user on a volume.
ghost use Rattle.std.specs.Prelude.{◌≡◌, ◌↔◌, IsTrue, Some};
ghost use Rattle.ods_request.specs.Queries.{request_of};

use crate::stamps::Stamp;
use ods_base::{Block, FileId, Name, Pick};

/// A request. Each request except Create names a file or a directory first.
#[derive(Clone, Copy, PartialEq, Eq, Debug)]
pub enum Request {
    /// Makes a file of the user with `blocks` blocks of zeros, or an empty directory if the type is DIR. No directory has an entry for it.
    Create {
        name: Name,
        version: u16,
        blocks: u32,
        stamp: Stamp,
    },
    /// Appends `blocks` blocks of zeros to a file.
    Extend {
        file: FileId,
        blocks: u32,
    },
    /// Keeps the first `blocks` blocks of a file, and frees the others.
    Truncate {
        file: FileId,
        blocks: u32,
    },
    /// Deletes a file. Its names in directories remain.
    Delete {
        file: FileId,
    },
    /// Enters a file in a directory, under the given version, or otherwise the highest of the name plus one, or 1.
    Enter {
        dir: FileId,
        name: Name,
        version: Option<u16>,
        file: FileId,
    },
    /// Looks a name up in a directory.
    LookUp {
        dir: FileId,
        name: Name,
        pick: Pick,
    },
    /// Removes a name from a directory. The file remains.
    Remove {
        dir: FileId,
        name: Name,
        pick: Pick,
    },
    /// Reads the block with this virtual block number, counted from 1.
    Read {
        file: FileId,
        vbn: u32,
    },
    /// Replaces the block with this virtual block number, counted from 1.
    Write {
        file: FileId,
        vbn: u32,
        block: Block,
    },
    /// Lists a directory.
    List {
        dir: FileId,
    },
    /// Returns the facts about a file.
    Stat {
        file: FileId,
    },
    /// Replaces the 32 bytes of user attributes of a file.
    SetUser {
        file: FileId,
        attributes: [u8; 32],
    },
}

impl Request {
    /// Returns whether the two requests are equal, as `==` does.
    pub fn is_same(&self, other: &Request) -> bool
        ensures { IsTrue result ↔ (self.now ≡ other.now) }
    {
        self == other
    }

    /// Returns the query that the request is, or `None` if it is not a query.
    pub fn as_query(&self) -> Option<Query>
        ensures { (q : Query) → (result ≡ Some q) ↔ (request_of q ≡ self.now) }
    {
        match *self {
            Request::LookUp { dir, name, pick } => Some(Query::LookUp { dir, name, pick }),
            Request::Read { file, vbn } => Some(Query::Read { file, vbn }),
            Request::Stat { file } => Some(Query::Stat { file }),
            _ => None,
        }
    }
}

/// A request that changes nothing and needs no memory.
#[derive(Clone, Copy, PartialEq, Eq, Debug)]
pub enum Query {
    /// Looks a name up in a directory.
    LookUp { dir: FileId, name: Name, pick: Pick },
    /// Reads the block with this virtual block number, counted from 1.
    Read { file: FileId, vbn: u32 },
    /// Returns the facts about a file.
    Stat { file: FileId },
}
