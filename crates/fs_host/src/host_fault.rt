//! The reason why the host does not do what is requested, in words.
ghost use Rattle.std.specs.Prelude.{◌≡◌};
ghost use Rattle.fs_host.specs.Reasons.{reason_of, reason_of_number};
ghost use Rattle.fs_host.specs.declared.host_fault.HostFault.TheVariants.{NoMemory};

use std::alloc::AllocError;
use std::io;
use std::io::ErrorKind;
use thiserror::Error;

/// The reason why the host does not do what is requested.
#[derive(Clone, Copy, Debug, PartialEq, Eq, Error)]
pub enum HostFault {
    /// There is no such file.
    #[error("no such file or folder")]
    NotThere,
    /// The host denies permission.
    #[error("no permission")]
    Denied,
    /// The path reaches a folder.
    #[error("it is a folder")]
    IsFolder,
    /// A part of the path before the last is not a folder.
    #[error("a part of its path is not a folder")]
    NotFolder,
    /// The path reaches a file that is not a plain file.
    #[error("it is not a regular file")]
    NotPlain,
    /// A file with this name exists already.
    #[error("it already exists")]
    IsThere,
    /// Another run has locked the hidden new file.
    #[error("another program is writing to it")]
    Held,
    /// Another program replaced the file.
    #[error("another program changed or replaced it meanwhile")]
    Changed,
    /// The file is written, and its hidden name could not be removed.
    #[error("it is written, but its second, hidden name could not be removed")]
    Left,
    /// The device or the quota is full.
    #[error("no space left")]
    NoRoom,
    /// Out of memory.
    #[error("out of memory")]
    NoMemory,
    /// The file is larger than the limit.
    #[error("it is too large")]
    TooLarge,
    /// The file system is read-only.
    #[error("the file system is read-only")]
    ReadOnly,
    /// The process or the host has too many files open.
    #[error("too many files are open")]
    TooManyOpen,
    /// The host accepts no file with this name.
    #[error("its name is too long or not valid")]
    BadName,
    /// A name in a folder is not UTF-8 text, so the folder cannot be listed.
    #[error("a name in it is not UTF-8 text")]
    NotText,
    /// Symbolic links form a cycle.
    #[error("its symbolic links form a loop")]
    Links,
    /// The file or device is in use.
    #[error("it is in use")]
    Busy,
    /// The stream is closed.
    #[error("it is closed")]
    Closed,
    /// The reader of the pipe is gone.
    #[error("nobody reads it any more")]
    NoReader,
    /// The device reports an error of input or output.
    #[error("the device failed")]
    Device,
    /// The file system does not support the call.
    #[error("the file system cannot do it")]
    Unsupported,
    /// Another system error, by its number.
    #[error("system error {0}")]
    Failed(i32),
    /// The host gives no reason.
    #[error("the system gives no reason")]
    Unknown,
}

impl HostFault {
    /// Returns the reason of an error.
    pub fn of(error: &io::Error) -> HostFault
        ensures { result ≡ reason_of error.now }
    {
        match error.kind() {
            ErrorKind::NotFound => HostFault::NotThere,
            ErrorKind::PermissionDenied => HostFault::Denied,
            ErrorKind::IsADirectory => HostFault::IsFolder,
            ErrorKind::NotADirectory => HostFault::NotFolder,
            ErrorKind::AlreadyExists => HostFault::IsThere,
            ErrorKind::StorageFull | ErrorKind::QuotaExceeded => HostFault::NoRoom,
            ErrorKind::OutOfMemory => HostFault::NoMemory,
            ErrorKind::FileTooLarge => HostFault::TooLarge,
            ErrorKind::ReadOnlyFilesystem => HostFault::ReadOnly,
            ErrorKind::InvalidFilename => HostFault::BadName,
            ErrorKind::FilesystemLoop => HostFault::Links,
            ErrorKind::ResourceBusy | ErrorKind::ExecutableFileBusy => HostFault::Busy,
            ErrorKind::BrokenPipe => HostFault::NoReader,
            ErrorKind::Unsupported => HostFault::Unsupported,
            _ => HostFault::of_number(error.raw_os_error()),
        }
    }

    /// The reason of an error that its kind does not tell.
    fn of_number(number: Option<i32>) -> HostFault
        ensures { result ≡ reason_of_number number }
    {
        match number {
            Some(5) => HostFault::Device,
            Some(9) => HostFault::Closed,
            Some(23 | 24) => HostFault::TooManyOpen,
            Some(number) => HostFault::Failed(number),
            None => HostFault::Unknown,
        }
    }
}

impl From<io::Error> for HostFault {
    ghost from_gives = { λ error fault. fault ≡ reason_of error };

    fn from(error: io::Error) -> HostFault {
        HostFault::of(&error)
    }
}

impl From<AllocError> for HostFault {
    ghost from_gives = { λ _ fault. fault ≡ NoMemory };

    fn from(_error: AllocError) -> HostFault {
        HostFault::NoMemory
    }
}
