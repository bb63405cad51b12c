//! The request or query of a command, and the value of `$` in the next command.
ghost use Rattle.std.specs.Prelude.{◌≡◌, MatchOption, IfOk, Some, None};
ghost use Rattle.ods_ask.specs.Asked.{resolved as id_of, request_of, query_of, last_after};

use crate::script::{Ask, Id, Look};
use ods_base::FileId;
use ods_request::{AnswerForm, CompactAnswer, CompactRequest, Query, RequestForm, Stamp};
use std::alloc::AllocError;
use std::sync::Arc;

/// The file that is meant; none where `$` stands for none.
fn resolve(last: Option<FileId>, id: Id) -> Option<FileId>
    ensures { result ≡ id_of last id }
{
    match id {
        Id::Given(file) => Some(file),
        Id::Last => last,
    }
}

/// Returns the value of `$` after an answer.
pub fn last_from(last: Option<FileId>, answer: &CompactAnswer) -> Option<FileId>
    ensures { result ≡ last_after last answer.now }
{
    match answer.form() {
        AnswerForm::Created(file) | AnswerForm::Found(file, _) | AnswerForm::Removed(file, _) =>
            Some(*file),
        _ => last,
    }
}

/// Returns the request of a command, or `None` if it uses `$`, and `$` stands for no file. A Write shares the block of the command. It takes no
/// memory, and fails only if that block already has as many owners as can be counted.
pub fn request_for(
    stamp: Stamp,
    last: Option<FileId>,
    ask: &Ask,
) -> Option<Result<CompactRequest, AllocError>>
    ensures { MatchOption result (request_of stamp last ask.now ≡ None)
        (λ r. IfOk r (λ q. request_of stamp last ask.now ≡ Some q)) }
{
    let form = match ask {
        Ask::Create {
            name,
            version,
            blocks,
        } => RequestForm::Create {
            name: *name,
            version: *version,
            blocks: *blocks,
            stamp,
        },
        Ask::Extend { file, blocks } => RequestForm::Extend {
            file: resolve(last, *file)?,
            blocks: *blocks,
        },
        Ask::Truncate { file, blocks } => RequestForm::Truncate {
            file: resolve(last, *file)?,
            blocks: *blocks,
        },
        Ask::Delete { file } => RequestForm::Delete {
            file: resolve(last, *file)?,
        },
        Ask::Enter {
            dir,
            name,
            version,
            file,
        } => RequestForm::Enter {
            dir: resolve(last, *dir)?,
            name: *name,
            version: *version,
            file: resolve(last, *file)?,
        },
        Ask::LookUp { dir, name, pick } => RequestForm::LookUp {
            dir: resolve(last, *dir)?,
            name: *name,
            pick: *pick,
        },
        Ask::Remove { dir, name, pick } => RequestForm::Remove {
            dir: resolve(last, *dir)?,
            name: *name,
            pick: *pick,
        },
        Ask::Read { file, vbn } => RequestForm::Read {
            file: resolve(last, *file)?,
            vbn: *vbn,
        },
        Ask::Write { file, vbn, block } => {
            let file = resolve(last, *file)?;
            let Ok(block) = Arc::try_clone(block) else {
                return Some(Err(AllocError));
            };
            RequestForm::Write {
                file,
                vbn: *vbn,
                block,
            }
        }
        Ask::List { dir } => RequestForm::List {
            dir: resolve(last, *dir)?,
        },
        Ask::Stat { file } => RequestForm::Stat {
            file: resolve(last, *file)?,
        },
        Ask::SetUser { file, attributes } => RequestForm::SetUser {
            file: resolve(last, *file)?,
            attributes: *attributes,
        },
    };
    Some(Ok(CompactRequest::new(form)))
}

/// Returns the query of a view, or `None` if it uses `$`, and `$` stands for no file.
pub fn query_for(last: Option<FileId>, look: &Look) -> Option<Query>
    ensures { result ≡ query_of last look.now }
{
    match look {
        Look::LookUp { dir, name, pick } => {
            let dir = resolve(last, *dir)?;
            Some(Query::LookUp {
                dir,
                name: *name,
                pick: *pick,
            })
        }
        Look::Read { file, vbn } => {
            let file = resolve(last, *file)?;
            Some(Query::Read { file, vbn: *vbn })
        }
        Look::Stat { file } => {
            let file = resolve(last, *file)?;
            Some(Query::Stat { file })
        }
    }
}
