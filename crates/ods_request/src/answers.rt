//! The answers to requests, and the entries of accepted requests in a list.
ghost use Rattle.std.specs.Prelude.{◌≡◌, ◌↔◌, IsTrue, IfOk, OnErr};
ghost use Rattle.ods_request.specs.Lines.{HasLines};

use crate::compact_request::CompactRequest;
use ods_base::{Block, FileId, Listed, Uic};
use std::alloc::AllocError;
use std::marker::Model;

/// The lines of a directory, in the order of their names and versions. A contract sees the list.
#[derive(Drop, Debug)]
pub struct Listing {
    names: Vec<Listed>,
}

impl Model for Listing {
    ghost use Rattle.std.specs.Prelude.{List};
    ghost use Rattle.ods_base.specs.declared.listed.Listed.{Listed};

    ghost Value = { List Listed };

    ghost view = { λ l. l.names.items };
}

impl Listing {
    /// Makes a listing of these lines. It allocates no memory.
    pub fn new(lines: Vec<Listed>) -> Listing
        ensures { result ≡ lines.items }
    {
        Listing { names: lines }
    }

    /// Returns the lines.
    pub fn names(&self) -> &[Listed]
        ensures { result.now ≡ self.now }
    {
        self.names.as_slice()
    }

    /// Returns the lines and drops the listing. It allocates no memory.
    pub fn into_names(self) -> Vec<Listed>
        ensures { result.items ≡ self }
    {
        let Listing { names } = self;
        names
    }

    /// Returns an equal listing, in memory of its own.
    pub fn copy(&self) -> Result<Listing, AllocError>
        ensures { IfOk result (λ copy. copy ≡ self.now) }
    {
        let names = Vec::from_slice(*self.names.allocator(), &self.names)?;
        Ok(Listing { names })
    }
}

impl PartialEq for Listing {
    ghost use lib.Pointwise.{pointwise};
    ghost use Rattle.ods_request.specs.{Equal.same_line, Same.lines_partial_equivalence};

    ghost eq = { pointwise same_line };

    ghost laws = { lines_partial_equivalence };

    fn eq(&self, other: &Listing) -> bool {
        self.names == other.names
    }
}

impl Eq for Listing {
    ghost use Rattle.ods_request.specs.Same.{lines_equivalence};

    ghost laws = { lines_equivalence };
}

/// The kind of a file, as `Stat` returns it.
#[derive(Clone, Copy, PartialEq, Eq, Debug)]
pub enum Kind {
    /// A plain file with `blocks` blocks, and its 32 bytes of user attributes.
    Plain { blocks: u32, attributes: [u8; 32] },
    /// A directory with `names` names.
    Directory { names: u32 },
    /// INDEXF.SYS or BITMAP.SYS.
    System,
}

/// The facts that `Stat` returns about a file.
#[derive(Clone, Copy, PartialEq, Eq, Debug)]
pub struct Stat {
    pub file: FileId,
    /// The ident area of its header: its name, version, revision and dates.
    pub ident: [u8; 46],
    pub owner: Uic,
    /// The protection word: sixteen bits. A set bit denies.
    pub protection: u16,
    /// The user's byte of the characteristics.
    pub user_char: u8,
    /// The system's byte of the characteristics.
    pub system_char: u8,
    pub kind: Kind,
}

/// The answer to an accepted request.
#[derive(Drop, Debug, PartialEq, Eq)]
pub enum Answer {
    /// Create: the ID of the new file.
    Created(FileId),
    /// Extend: the new number of blocks of the file.
    Extended(u32),
    /// Truncate: the new number of blocks of the file.
    Truncated(u32),
    /// Delete, Write and SetUser: no further data.
    Done,
    /// Enter: the version under which the file was entered.
    Entered(u16),
    /// LookUp: the file and the version.
    Found(FileId, u16),
    /// Remove: the file and the version of the removed name.
    Removed(FileId, u16),
    /// Read: the block.
    Bytes(Block),
    /// List: the lines of the directory.
    Names(Listing),
    /// Stat: the facts about the file.
    Info(Stat),
}

impl Answer {
    /// Returns whether the two answers are equal, as `==` does.
    pub fn is_same(&self, other: &Answer) -> bool
        ensures { IsTrue result ↔ (self.now ≡ other.now) }
    {
        self == other
    }

    /// Returns an equal answer. Only the lines of a directory need memory.
    pub fn copy(&self) -> Result<Answer, AllocError>
        ensures ok { IfOk result (λ copy. copy ≡ self.now) }
        ensures err { OnErr result (HasLines self.now) }
    {
        match self {
            Answer::Created(id) => Ok(Answer::Created(*id)),
            Answer::Extended(count) => Ok(Answer::Extended(*count)),
            Answer::Truncated(count) => Ok(Answer::Truncated(*count)),
            Answer::Done => Ok(Answer::Done),
            Answer::Entered(version) => Ok(Answer::Entered(*version)),
            Answer::Found(file, version) => Ok(Answer::Found(*file, *version)),
            Answer::Removed(file, version) => Ok(Answer::Removed(*file, *version)),
            Answer::Bytes(block) => Ok(Answer::Bytes(*block)),
            Answer::Names(lines) => match lines.copy() {
                Ok(copy) => Ok(Answer::Names(copy)),
                Err(error) => Err(error),
            },
            Answer::Info(stat) => Ok(Answer::Info(*stat)),
        }
    }
}

/// An accepted request with its answer.
#[derive(Drop, Debug, PartialEq, Eq)]
pub struct Entry {
    /// The session that made the request.
    pub session: u16,
    /// The number that the caller assigned. The program assigns the line of its script.
    pub nth: u32,
    /// The user of the request.
    pub who: Uic,
    /// The request, in compact form.
    pub request: CompactRequest,
    pub answer: Answer,
}

impl Entry {
    /// Returns whether the two entries are equal.
    pub fn is_same(&self, other: &Entry) -> bool
        ensures { IsTrue result ↔ (self.now ≡ other.now) }
    {
        self.session == other.session
            && self.nth == other.nth
            && self.who == other.who
            && self.request.is_same(&other.request)
            && self.answer.is_same(&other.answer)
    }
}
