//! Compact requests, as lists store them. Several requests can share the block of a Write.
ghost use Rattle.std.specs.Prelude.{◌≡◌, ◌↔◌, IsTrue, IfOk, OnErr, Some, true};
ghost use Rattle.std.specs.Arc.{arc_value};
ghost use Rattle.ods_request.specs.{CompactRequest.has_block, Queries.request_of, RequestForms.request_in};

use crate::requests::{Query, Request};
use crate::stamps::Stamp;
use ods_base::{Block, FileId, Name, Pick};
use std::alloc::{AllocError, Global};
use std::marker::Model;
use std::sync::Arc;

/// A compact request: 40 bytes, and memory only for the block of a Write. Equal requests can share this block. A contract sees the request.
#[derive(Drop, Debug)]
pub struct CompactRequest {
    form: RequestForm,
}

/// The form of a compact request. The block of a Write can be shared.
#[derive(Drop, PartialEq, Eq, Debug)]
pub enum RequestForm {
    /// Makes a file of the user with `blocks` blocks of zeros, or an empty directory if the type is DIR.
    Create {
        name: Name,
        version: u16,
        blocks: u32,
        stamp: Stamp,
    },
    /// Appends `blocks` blocks of zeros to a file.
    Extend {
        file: FileId,
        blocks: u32,
    },
    /// Keeps the first `blocks` blocks of a file, and frees the others.
    Truncate {
        file: FileId,
        blocks: u32,
    },
    /// Deletes a file.
    Delete {
        file: FileId,
    },
    /// Enters a file in a directory, under the given version, or otherwise the highest of the name plus one, or 1.
    Enter {
        dir: FileId,
        name: Name,
        version: Option<u16>,
        file: FileId,
    },
    /// Looks a name up in a directory.
    LookUp {
        dir: FileId,
        name: Name,
        pick: Pick,
    },
    /// Removes a name from a directory.
    Remove {
        dir: FileId,
        name: Name,
        pick: Pick,
    },
    /// Reads the block with this virtual block number, counted from 1.
    Read {
        file: FileId,
        vbn: u32,
    },
    /// Replaces the block with this virtual block number, counted from 1.
    Write {
        file: FileId,
        vbn: u32,
        block: Arc<Block, Global>,
    },
    /// Lists a directory.
    List {
        dir: FileId,
    },
    /// Returns the facts about a file.
    Stat {
        file: FileId,
    },
    /// Replaces the 32 bytes of user attributes of a file.
    SetUser {
        file: FileId,
        attributes: [u8; 32],
    },
}

impl Model for CompactRequest {
    ghost use Rattle.ods_request.specs.declared.requests.Request.{Request};

    ghost Value = { Request };

    ghost use Rattle.ods_request.specs.RequestForms.{request_in};

    ghost view = { λ c. request_in c.form };
}

impl CompactRequest {
    /// Makes the compact request of this form. It allocates no memory.
    pub fn new(form: RequestForm) -> CompactRequest
        ensures { result ≡ request_in form }
    {
        CompactRequest { form }
    }

    /// Makes a compact copy of a request. Only a Write needs memory.
    pub fn of(alloc: Global, request: &Request) -> Result<CompactRequest, AllocError>
        ensures ok { IfOk result (λ c. c ≡ request.now) }
        ensures err { OnErr result (has_block request.now ≡ true) }
    {
        let form = match *request {
            Request::Create {
                name,
                version,
                blocks,
                stamp,
            } => RequestForm::Create {
                name,
                version,
                blocks,
                stamp,
            },
            Request::Extend { file, blocks } => RequestForm::Extend { file, blocks },
            Request::Truncate { file, blocks } => RequestForm::Truncate { file, blocks },
            Request::Delete { file } => RequestForm::Delete { file },
            Request::Enter {
                dir,
                name,
                version,
                file,
            } => RequestForm::Enter {
                dir,
                name,
                version,
                file,
            },
            Request::LookUp { dir, name, pick } => RequestForm::LookUp { dir, name, pick },
            Request::Remove { dir, name, pick } => RequestForm::Remove { dir, name, pick },
            Request::Read { file, vbn } => RequestForm::Read { file, vbn },
            Request::Write {
                file,
                vbn,
                ref block,
            } => RequestForm::Write {
                file,
                vbn,
                block: block_to_share(alloc, block)?,
            },
            Request::List { dir } => RequestForm::List { dir },
            Request::Stat { file } => RequestForm::Stat { file },
            Request::SetUser { file, attributes } => RequestForm::SetUser { file, attributes },
        };
        Ok(CompactRequest { form })
    }

    /// Returns an equal request, which shares the block of a Write. It allocates no memory. It fails only if the block has the most owners that can
    /// be counted.
    pub fn share(&self) -> Result<CompactRequest, AllocError>
        ensures ok { IfOk result (λ c. c ≡ self.now) }
        ensures err { OnErr result (has_block self.now ≡ true) }
    {
        let form = match self.form {
            RequestForm::Create {
                name,
                version,
                blocks,
                stamp,
            } => RequestForm::Create {
                name,
                version,
                blocks,
                stamp,
            },
            RequestForm::Extend { file, blocks } => RequestForm::Extend { file, blocks },
            RequestForm::Truncate { file, blocks } => RequestForm::Truncate { file, blocks },
            RequestForm::Delete { file } => RequestForm::Delete { file },
            RequestForm::Enter {
                dir,
                name,
                version,
                file,
            } => RequestForm::Enter {
                dir,
                name,
                version,
                file,
            },
            RequestForm::LookUp { dir, name, pick } => RequestForm::LookUp { dir, name, pick },
            RequestForm::Remove { dir, name, pick } => RequestForm::Remove { dir, name, pick },
            RequestForm::Read { file, vbn } => RequestForm::Read { file, vbn },
            RequestForm::Write {
                file,
                vbn,
                ref block,
            } => RequestForm::Write {
                file,
                vbn,
                block: Arc::try_clone(block)?,
            },
            RequestForm::List { dir } => RequestForm::List { dir },
            RequestForm::Stat { file } => RequestForm::Stat { file },
            RequestForm::SetUser { file, attributes } => RequestForm::SetUser { file, attributes },
        };
        Ok(CompactRequest { form })
    }

    /// Returns the request. It allocates no memory.
    pub fn get(&self) -> Request
        ensures { result ≡ self.now }
    {
        match &self.form {
            RequestForm::Create {
                name,
                version,
                blocks,
                stamp,
            } => Request::Create {
                name: *name,
                version: *version,
                blocks: *blocks,
                stamp: *stamp,
            },
            RequestForm::Extend { file, blocks } => Request::Extend {
                file: *file,
                blocks: *blocks,
            },
            RequestForm::Truncate { file, blocks } => Request::Truncate {
                file: *file,
                blocks: *blocks,
            },
            RequestForm::Delete { file } => Request::Delete { file: *file },
            RequestForm::Enter {
                dir,
                name,
                version,
                file,
            } => Request::Enter {
                dir: *dir,
                name: *name,
                version: *version,
                file: *file,
            },
            RequestForm::LookUp { dir, name, pick } => Request::LookUp {
                dir: *dir,
                name: *name,
                pick: *pick,
            },
            RequestForm::Remove { dir, name, pick } => Request::Remove {
                dir: *dir,
                name: *name,
                pick: *pick,
            },
            RequestForm::Read { file, vbn } => Request::Read {
                file: *file,
                vbn: *vbn,
            },
            RequestForm::Write { file, vbn, block } => Request::Write {
                file: *file,
                vbn: *vbn,
                block: **block,
            },
            RequestForm::List { dir } => Request::List { dir: *dir },
            RequestForm::Stat { file } => Request::Stat { file: *file },
            RequestForm::SetUser { file, attributes } => Request::SetUser {
                file: *file,
                attributes: *attributes,
            },
        }
    }

    /// Returns the query that the request is, or `None` if it is not a query.
    pub fn as_query(&self) -> Option<Query>
        ensures { (q : Query) → (result ≡ Some q) ↔ (request_of q ≡ self.now) }
    {
        match &self.form {
            RequestForm::LookUp { dir, name, pick } => Some(Query::LookUp {
                dir: *dir,
                name: *name,
                pick: *pick,
            }),
            RequestForm::Read { file, vbn } => Some(Query::Read {
                file: *file,
                vbn: *vbn,
            }),
            RequestForm::Stat { file } => Some(Query::Stat { file: *file }),
            _ => None,
        }
    }

    /// Returns whether the two requests are equal, as `==` does.
    pub fn is_same(&self, other: &CompactRequest) -> bool
        ensures { IsTrue result ↔ (self.now ≡ other.now) }
    {
        self == other
    }

    /// Returns whether the compact request equals this request.
    pub fn is(&self, request: &Request) -> bool
        ensures { IsTrue result ↔ (self.now ≡ request.now) }
    {
        self.get().is_same(request)
    }
}

/// A block that can be shared. It stands by itself, so that what has no block does not pay for one.
fn block_to_share(alloc: Global, block: &Block) -> Result<Arc<Block, Global>, AllocError>
    ensures { IfOk result (λ shared. arc_value shared ≡ block.now) }
{
    let shared = Arc::new(alloc, *block)?;
    Ok(shared)
}

impl PartialEq for CompactRequest {
    ghost use Rattle.ods_request.specs.{Equal.same_request, Deciding.requests_partial_equivalence};

    ghost eq = { same_request };

    ghost laws = { requests_partial_equivalence };

    fn eq(&self, other: &CompactRequest) -> bool {
        self.form == other.form
    }
}

impl Eq for CompactRequest {
    ghost use Rattle.ods_request.specs.Deciding.{requests_equivalence};

    ghost laws = { requests_equivalence };
}
