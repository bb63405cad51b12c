//! The reason why an image cannot be locked for a change, or cannot be saved.
ghost use Rattle.std.specs.Prelude.{◌≡◌};
ghost use Rattle.fs_host.specs.declared.faults.SaveFault.TheVariants.{NoMemory};

use crate::holders::Holder;
use crate::host_fault::HostFault;
use std::alloc::AllocError;
use thiserror::Error;

/// The reason why an image is not locked for a change, or not saved.
#[derive(Clone, Copy, Debug, PartialEq, Eq, Error)]
pub enum SaveFault {
    /// Opening or reading the image failed.
    #[error("reading failed: {0}")]
    Read(HostFault),
    /// The user of the host has no right to write the image.
    #[error("no permission to write to it")]
    Denied,
    /// The image is not a plain file.
    #[error("it is not a regular file")]
    NotPlain,
    /// Another program has locked the image.
    #[error("another program has locked it")]
    Held,
    /// Locking the image failed.
    #[error("locking failed: {0}")]
    Lock(HostFault),
    /// This process has the image open.
    #[error("{0} has it open; detach it there, or use --force")]
    InUse(Holder),
    /// Another program changed or replaced the image since it was locked.
    #[error("another program changed or replaced it meanwhile")]
    Changed,
    /// The image has several names, as hard links.
    #[error("it has several names (hard links); --break-links changes only this one")]
    Links,
    /// The file to write exists already.
    #[error("it already exists")]
    IsThere,
    /// The new file cannot be created.
    #[error("no new file .NAME.f11fs-new can be made beside it: {0}")]
    Make(HostFault),
    /// The new file cannot receive the owner or the mode of the image.
    #[error("its owner or mode cannot be kept: {0}")]
    Mode(HostFault),
    /// Opening the image for writing failed, or writing the new file failed.
    #[error("writing failed: {0}")]
    Write(HostFault),
    /// The bytes that were read back differ from the bytes that were written.
    #[error("the bytes read back differ from the bytes written")]
    Differs,
    /// The volume does not fill the sectors of the floppy.
    #[error("the volume and the floppy differ in size")]
    Unfit,
    /// The old image cannot be kept under its other name.
    #[error("the old image cannot be kept: {0}")]
    Backup(HostFault),
    /// The new file cannot take its name.
    #[error("the new file cannot take its name: {0}")]
    Rename(HostFault),
    /// The allocator refused memory.
    #[error("out of memory")]
    NoMemory,
}

impl From<AllocError> for SaveFault {
    ghost from_gives = { λ _ fault. fault ≡ NoMemory };

    fn from(_error: AllocError) -> SaveFault {
        SaveFault::NoMemory
    }
}

/// The incomplete step after an image is saved under its name.
#[derive(Clone, Copy, Debug, PartialEq, Eq, Error)]
pub enum Unfinished {
    /// Syncing the folder of the image failed.
    #[error("the image is saved, but its folder could not be synced: {0}")]
    Unsynced(HostFault),
    /// The hidden name of the new file could not be removed.
    #[error("the image is saved, but its second, hidden name could not be removed")]
    Left,
}
