//! Steps of a catalogue: a request, its answer, and the resulting catalogue.
ghost use Rattle.std.specs.Prelude.{◌≡◌, None, Some, IfOk, OnErr, IfErr};
ghost use Rattle.ods_request.specs.{Faults.fault_of, Steps.step as step_of};
ghost use Rattle.ods_plain.specs.declared.steps.StepError.TheVariants.{NoMemory};

use crate::catalogue::Catalogue;
use ods_base::{FileId, Uic};
use ods_request::{Answer, Refusal, Request};
use std::alloc::AllocError;
use thiserror::Error;

/// The reason why a step was not made. The catalogue is then unchanged.
#[derive(Clone, Copy, PartialEq, Eq, Debug, Error)]
pub enum StepError {
    /// The request is refused.
    #[error("{0}")]
    Refused(Refusal),
    /// A new file may not have the ID in `new`.
    #[error("NotNew")]
    NotNew,
    /// The allocator refused memory, or a count does not fit into its answer.
    #[error("NoMemory")]
    NoMemory,
}

impl From<AllocError> for StepError {
    ghost from_gives = { λ _ e. e ≡ NoMemory };

    fn from(_error: AllocError) -> StepError {
        StepError::NoMemory
    }
}

impl Catalogue {
    ghost use Rattle.ods_plain.specs.Steps.{IsStepError};

    /// Makes a request that is not refused. A file that it makes gets the ID handed in.
    fn change(&mut self, who: Uic, request: &Request, new: FileId) -> Result<Answer, StepError>
        requires { fault_of self.old who request.now ≡ None }
        ensures ok { IfOk result (λ a. step_of self.old who request.now a ≡ Some self.new) }
        ensures err { OnErr result (self.new ≡ self.old) }
        ensures why { IfErr result (IsStepError self.old who request.now new) }
    {
        match request {
            Request::Create {
                name,
                version,
                blocks,
                stamp,
            } => {
                if !self.is_new(new) {
                    return Err(StepError::NotNew);
                }
                self.create(who, name, *version, *blocks, stamp, new)?;
                Ok(Answer::Created(new))
            }
            Request::Extend {
                file,
                blocks: count,
            } => Ok(Answer::Extended(self.extend(*file, *count)?)),
            Request::Truncate { file, blocks } => {
                self.truncate(*file, *blocks);
                Ok(Answer::Truncated(*blocks))
            }
            Request::Delete { file } => {
                self.delete(*file);
                Ok(Answer::Done)
            }
            Request::Enter {
                dir,
                name,
                version,
                file,
            } => Ok(Answer::Entered(self.enter(*dir, *name, *version, *file)?)),
            Request::LookUp { dir, name, pick } => {
                let (file, version) = self.look_up(*dir, name, *pick);
                Ok(Answer::Found(file, version))
            }
            Request::Remove { dir, name, pick } => {
                let (file, version) = self.remove(*dir, name, *pick);
                Ok(Answer::Removed(file, version))
            }
            Request::Read { file, vbn } => Ok(Answer::Bytes(self.read(*file, *vbn))),
            Request::Write { file, vbn, block } => {
                self.write(*file, *vbn, block);
                Ok(Answer::Done)
            }
            Request::List { dir } => Ok(Answer::Names(self.list(*dir)?)),
            Request::Stat { file } => Ok(Answer::Info(self.stat(*file)?)),
            Request::SetUser { file, attributes } => {
                self.set_user(*file, attributes);
                Ok(Answer::Done)
            }
        }
    }

    /// Makes a step: returns the answer to a request, or why there is none. A file that it creates receives the ID in `new`.
    pub fn step(&mut self, who: Uic, request: &Request, new: FileId) -> Result<Answer, StepError>
        ensures ok { IfOk result (λ a. step_of self.old who request.now a ≡ Some self.new) }
        ensures err { OnErr result (self.new ≡ self.old) }
        ensures why { IfErr result (IsStepError self.old who request.now new) }
    {
        if let Some(refusal) = self.fault(&who, request) {
            return Err(StepError::Refused(refusal));
        }
        self.change(who, request, new)
    }
}
