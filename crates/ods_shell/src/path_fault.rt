//! The reason why a path selects no files, and the exit status for it.
ghost use Rattle.ods_shell.specs.Found.{HasPathStatus};

use crate::status::Status;
use ods_paths::BadPath;
use std::alloc::{AllocError, AllocFailed};
use thiserror::Error;

/// The reason why a path selects no files.
#[derive(Clone, Copy, Debug, PartialEq, Eq, Error)]
pub enum PathFault {
    /// The text is not a valid path.
    #[error("{0}")]
    Bad(BadPath),
    /// The path selects a directory and no file in it.
    #[error("it is a directory: A/*.* selects all files in A, and A. is the file A with no type")]
    NoName,
    /// Versions are required, and the path specifies none.
    #[error("the path has no version: give one, ';*' (in quotes) for all, or --newest")]
    NoVersion,
    /// The path is an ID, and the command lists names.
    #[error("this command takes no ID; stat shows a file by its ID")]
    IsId,
    /// The path selects nothing.
    #[error("no such file or directory")]
    Nothing,
    /// The ID is not the ID of a file.
    #[error("no such file")]
    NoSuchFile,
    /// The allocator refused memory.
    #[error("out of memory")]
    NoMemory,
}

impl From<AllocError> for PathFault {
    fn from(_error: AllocError) -> PathFault {
        PathFault::NoMemory
    }
}

impl<T: Drop> From<AllocFailed<T>> for PathFault {
    fn from(_error: AllocFailed<T>) -> PathFault {
        PathFault::NoMemory
    }
}

impl PathFault {
    /// Returns the exit status of a command that is refused for this reason.
    pub fn status(&self) -> Status
        ensures { HasPathStatus self.now result }
    {
        match self {
            PathFault::Bad(_) | PathFault::NoName | PathFault::NoVersion | PathFault::IsId => {
                Status::Words
            }
            PathFault::Nothing => Status::Nothing,
            PathFault::NoSuchFile => Status::Refused,
            PathFault::NoMemory => Status::Host,
        }
    }
}
