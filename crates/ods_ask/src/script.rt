//! Scripts as values: the commands that the lines of a session's script contain.
use ods_base::{Block, FileId, Name, Pick, Uic};
use std::alloc::Global;
use std::sync::Arc;

/// A file in a command: its ID, or `$`. `$` stands for the last ID in an answer to a Create, a LookUp or a Remove of the session.
#[derive(Clone, Copy, PartialEq, Eq, Debug)]
pub enum Id {
    /// The file with this ID.
    Given(FileId),
    /// The file for which `$` stands.
    Last,
}

/// A request as a script writes it: an [`Id`] stands for each file, and the run gives the stamp of a new file.
#[derive(Drop, PartialEq, Eq, Debug)]
pub enum Ask {
    /// Makes a file of the user, of this many blocks of zeros, or a directory if the type is DIR.
    Create {
        name: Name,
        /// From 1 to 32,767.
        version: u16,
        blocks: u32,
    },
    /// Adds this many blocks of zeros after the blocks of a file.
    Extend {
        file: Id,
        blocks: u32,
    },
    /// Keeps the first `blocks` blocks of a file, and gives the others back.
    Truncate {
        file: Id,
        blocks: u32,
    },
    /// Deletes a file.
    Delete {
        file: Id,
    },
    /// Enters a file in a directory, under the given version. Without one it is the highest version of the name plus one, or 1.
    Enter {
        dir: Id,
        name: Name,
        /// From 1 to 32,767, if one is given.
        version: Option<u16>,
        file: Id,
    },
    /// Looks a name up in a directory.
    LookUp {
        dir: Id,
        name: Name,
        pick: Pick,
    },
    /// Removes a name from a directory.
    Remove {
        dir: Id,
        name: Name,
        pick: Pick,
    },
    /// Reads the block with this virtual block number, counted from 1.
    Read {
        file: Id,
        vbn: u32,
    },
    /// Replaces the block with this virtual block number, counted from 1.
    Write {
        file: Id,
        vbn: u32,
        /// The block is shared with the list and the call of the command, so that it is stored once. Other commands stay small.
        block: Arc<Block, Global>,
    },
    /// Lists a directory.
    List {
        dir: Id,
    },
    /// Returns the facts of a file.
    Stat {
        file: Id,
    },
    /// Replaces a file's 32 bytes of user attributes.
    SetUser {
        file: Id,
        attributes: [u8; 32],
    },
}

/// A query as a script writes it.
#[derive(Clone, Copy, PartialEq, Eq, Debug)]
pub enum Look {
    /// Looks a name up in a directory.
    LookUp { dir: Id, name: Name, pick: Pick },
    /// Reads the block with this virtual block number, counted from 1.
    Read { file: Id, vbn: u32 },
    /// Returns the facts of a file.
    Stat { file: Id },
}

/// The action of a line of a script.
#[derive(Drop, PartialEq, Eq, Debug)]
pub enum Action {
    /// Sets the user of the next commands.
    User(Uic),
    /// Submits a request to the desk.
    Submit(Ask),
    /// Answers a query without the lock.
    View(Look),
    /// The line is not a valid command.
    Bad,
}

/// A command with the number of its line, or any other number that the caller gives.
#[derive(Drop, PartialEq, Eq, Debug)]
pub struct Command {
    pub nth: u32,
    pub action: Action,
}

/// A session's commands, in order.
#[derive(Drop, PartialEq, Eq, Debug)]
pub struct Script {
    pub commands: Vec<Command>,
}
