//! Why a command is refused, and for which path or file.
ghost use Rattle.std.specs.Prelude.{◌≡◌};
ghost use Rattle.ods_shell.specs.declared.path_fault.PathFault.TheVariants as path_faults;
ghost use Rattle.ods_upkeep.specs.declared.failure.Why.TheVariants as whys;
ghost use Rattle.ods_upkeep.specs.Pieces.{HasStatus};
ghost use Rattle.ods_upkeep.specs.Refused.{HasPath, for_fault, no_memory, reason_text, refusal_name, remedy_text};
ghost use Rattle.ods_shell.specs.Remedies.{row_of};

use crate::put_fault::PutFault;
use ods_base::{Coded, NameFault};
use ods_paths::BadPath;
use ods_records::TextFault;
use ods_request::Refusal;
use ods_shell::{PathFault, Status, remedy};
use std::alloc::{AllocError, AllocFailed, Global};
use thiserror::Error;

/// Why a command is refused.
#[derive(Clone, Copy, Debug, PartialEq, Eq, Error)]
pub enum Why {
    /// The path is refused for this reason.
    #[error("{0}")]
    Path(PathFault),
    /// The volume refuses a request of the command for this reason.
    #[error("{}: {}; {}", self.refusal(), self.reason(), self.remedy())]
    Request(Refusal),
    /// The bytes are not a text that can be written as records.
    #[error("{0}")]
    Text(TextFault),
    /// The host file cannot be put for this reason.
    #[error("{0}")]
    Put(PutFault),
    /// A text, or the name in a header, is not a valid name of a file.
    #[error("not a valid file name: a name has at most 9 and a type at most 3 of A to Z, 0 to 9, $")]
    BadName,
    /// A directory is given, but a file is required.
    #[error("it is a directory, and the command needs a file: 'rmdir' removes an empty directory, 'mv' moves one")]
    IsDirectory,
    /// A file with the type DIR would be created, or an entry of that type would name no directory.
    #[error("the type DIR is for directories, and each directory has it: 'mkdir' makes one")]
    DirectoryType,
    /// A directory with this name exists.
    #[error("NameTaken: a directory of this name exists; 'ls' shows it")]
    DirectoryThere,
    /// A directory would be entered in itself, or below itself.
    #[error("a directory cannot be moved into itself or below itself")]
    IntoItself,
    /// An ID is given, but a name is required.
    #[error("the command needs a name, not an ID: 'find' shows the names of all files")]
    IsId,
    /// Patterns, several files or directories, or several versions are given, but one is required.
    #[error("only one file or directory is possible here: use no * or ?, and a directory for several files")]
    Several,
    /// Versions are given, but only names are allowed.
    #[error("purge itself selects the versions: give the name without ';'")]
    Versioned,
    /// A file that would be deleted by its ID has a name.
    #[error("it still has a name: 'find' shows it, and 'rm' of all its names deletes the file")]
    IsNamed,
    /// A file would be cut past its end.
    #[error("past the end of the file: 'stat' shows how many bytes it has")]
    PastEnd,
    /// Entries past the end mark of a directory name files. A new name could be one of theirs.
    #[error("the directory's end mark hides used entries: 'check --all' lists such directories")]
    Hidden,
}

impl Why {
    /// Returns the name of the refusal of a request.
    fn refusal(&self) -> &'static str
        ensures { result.now ≡ refusal_name self.now }
    {
        match self {
            Why::Request(refusal) => refusal.name(),
            Why::Path(_)
            | Why::Text(_)
            | Why::Put(_)
            | Why::BadName
            | Why::IsDirectory
            | Why::DirectoryType
            | Why::DirectoryThere
            | Why::IntoItself
            | Why::IsId
            | Why::Several
            | Why::Versioned
            | Why::IsNamed
            | Why::PastEnd
            | Why::Hidden => "",
        }
    }

    /// Returns why a request is refused.
    fn reason(&self) -> &'static str
        ensures { result.now ≡ reason_text (row_of (refusal_name self.now)) }
    {
        match remedy(self.refusal()) {
            Some(advice) => advice.why,
            None => "it is refused",
        }
    }

    /// Returns the remedy for a refused request.
    fn remedy(&self) -> &'static str
        ensures { result.now ≡ remedy_text (row_of (refusal_name self.now)) }
    {
        match remedy(self.refusal()) {
            Some(advice) => advice.what,
            None => "'check --all' says what is wrong with the volume",
        }
    }
}

impl From<AllocError> for Why {
    ghost from_gives = { λ _ why. why ≡ no_memory };

    fn from(_error: AllocError) -> Why {
        Why::Request(Refusal::NoMemory)
    }
}

impl<T: Drop> From<AllocFailed<T>> for Why {
    ghost from_gives = { λ _ why. why ≡ no_memory };

    fn from(_error: AllocFailed<T>) -> Why {
        Why::Request(Refusal::NoMemory)
    }
}

impl From<Refusal> for Why {
    ghost from_gives = { λ refusal why. why ≡ whys.Request refusal };

    fn from(refusal: Refusal) -> Why {
        Why::Request(refusal)
    }
}

impl From<PathFault> for Why {
    ghost from_gives = { λ fault why. why ≡ for_fault fault };

    fn from(fault: PathFault) -> Why {
        match fault {
            PathFault::NoMemory => Why::Request(Refusal::NoMemory),
            fault => Why::Path(fault),
        }
    }
}

impl From<BadPath> for Why {
    ghost from_gives = { λ bad why. why ≡ whys.Path (path_faults.Bad bad) };

    fn from(bad: BadPath) -> Why {
        Why::Path(PathFault::Bad(bad))
    }
}

impl From<NameFault> for Why {
    ghost from_gives = { λ _ why. why ≡ whys.BadName };

    fn from(_fault: NameFault) -> Why {
        Why::BadName
    }
}

impl From<TextFault> for Why {
    ghost from_gives = { λ fault why. why ≡ whys.Text fault };

    fn from(fault: TextFault) -> Why {
        Why::Text(fault)
    }
}

impl Why {
    /// Returns the exit status of a command with this refusal.
    pub fn status(&self) -> Status
        ensures { HasStatus self.now result }
    {
        match self {
            Why::Path(fault) => fault.status(),
            Why::Put(fault) => fault.status(),
            Why::Request(Refusal::NoMemory) | Why::Text(TextFault::NoMemory) => Status::Host,
            Why::BadName | Why::IsId | Why::Several | Why::Versioned => Status::Words,
            Why::Request(_)
            | Why::Text(_)
            | Why::IsDirectory
            | Why::DirectoryType
            | Why::DirectoryThere
            | Why::IntoItself
            | Why::IsNamed
            | Why::PastEnd
            | Why::Hidden => Status::Refused,
        }
    }
}

/// Why a command is refused, and its path or file.
#[derive(Drop, Debug)]
pub struct Failure {
    pub path: String,
    pub why: Why,
}

impl Failure {
    /// Returns the exit status of the command.
    pub fn status(&self) -> Status
        ensures { HasStatus self.now.why result }
    {
        self.why.status()
    }
}

/// Returns the failure of this path. If there is no memory for the path, it is left out.
pub(crate) fn of_path(alloc: Global, path: &str, why: Why) -> Failure
    ensures path { HasPath result path.now }
    ensures why { result.why ≡ why }
{
    let path = match String::from_str(alloc, path) {
        Ok(path) => path,
        Err(_) => String::new(alloc),
    };
    Failure { path, why }
}
