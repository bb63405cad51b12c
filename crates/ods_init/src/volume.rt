//! The parameters of a new volume, and the reasons why no volume can be made from them.
ghost use Rattle.std.specs.Prelude.{◌≡◌, ◌≤◌, ◌^◌};
ghost use Rattle.ods_init.specs.Places.{HasRoom, default_of};

use crate::Label;
use ods_base::Uic;
use ods_request::Stamp;
use thiserror::Error;

/// The parameters of a new volume.
#[derive(Clone, Copy)]
pub struct NewVolume {
    /// The number of blocks: 40 to 1,048,576.
    pub blocks: u32,
    /// The number of files, in addition to the five reserved ones, for which INDEXF.SYS has a header ready, at least. INDEXF.SYS always has at least
    /// 16 headers.
    pub files: u32,
    pub label: Label,
    /// The owner of the volume and of its reserved files.
    pub owner: Uic,
    /// The date and time of its creation.
    pub stamp: Stamp,
}

/// The reason why there is no such volume.
#[derive(Clone, Copy, Debug, PartialEq, Eq, Error)]
pub enum InitFault {
    /// The volume has fewer than 40 blocks.
    #[error("a volume has at least 40 blocks")]
    TooSmall,
    /// The volume has more than 1,048,576 blocks.
    #[error("a volume has at most 1048576 blocks")]
    TooLarge,
    /// The structures with the headers do not fit into the volume, or INDEXF.SYS would have more than 26,112 blocks, the most that one header maps.
    #[error("too many files for the volume")]
    TooManyFiles,
    /// The allocator refused memory.
    #[error("out of memory")]
    NoMemory,
}

/// Returns the default of [`NewVolume::files`] for a volume of `blocks` blocks. It is one file for each 16 blocks, and at most 26,089, the limit of
/// one header for INDEXF.SYS. The structures then fit into each volume of 40 to 1,048,576 blocks.
pub fn default_files(blocks: u32) -> u32
    ensures default { result ≡ default_of blocks }
    ensures room { 40 ≤ blocks → blocks ≤ 2 ^ 20 → HasRoom blocks result }
{
    (blocks / 16).min(26_089)
}
