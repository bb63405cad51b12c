//! The reasons why a run ends without its replies.
ghost use Rattle.std.specs.Prelude.{◌≡◌};
ghost use Rattle.ods_cli.specs.declared.fault.ServeFault.TheVariants.{NoMemory};

use ods_base::WriteFault;
use std::alloc::AllocError;
use thiserror::Error;

/// The reason why a run ends without its replies, or without the image that it was to write.
#[derive(Clone, Copy, Debug, PartialEq, Eq, Error)]
pub enum ServeFault {
    /// The bytes that were read are not a sound image. The line with this number is among the replies.
    #[error("refused")]
    Refused(u16),
    /// A read failed.
    #[error("reading failed")]
    Read,
    /// A write of the replies failed.
    #[error("writing failed")]
    Write,
    /// A write of the image failed. The fault has the number of bytes written.
    #[error("writing failed")]
    WriteOut(WriteFault),
    /// The allocator refused memory.
    #[error("no memory")]
    NoMemory,
    /// A thread could not be started.
    #[error("no thread")]
    NoThread,
    /// The volume's list does not consist of the sessions' calls.
    #[error("unmatched")]
    Unmatched,
}

impl From<AllocError> for ServeFault {
    ghost from_gives = { λ _ e. e ≡ NoMemory };

    fn from(_error: AllocError) -> ServeFault {
        ServeFault::NoMemory
    }
}
