//! The block that a Read returns.
ghost use Rattle.std.specs.Prelude.{MatchResult};
ghost use Rattle.ods_request.specs.{declared.requests.Request.TheVariants.Read as ReadRequest, declared.answers.Answer.TheVariants.Bytes};
ghost use Rattle.ods_state.specs.{Change.IsAnsweredBy, Served.IsRefusalOf};
ghost use Rattle.ods_mount.specs.Sound.{IsSoundBy};
ghost use Rattle.ods_space.specs.Disks.{on};

use crate::opening::open_block;
use ods_base::{Block, FileId, Uic};
use ods_request::{Refusal, Right};
use ods_space::Disk;

/// The block of a file with this virtual block number, counted from 1, in the image, or the first fault of reading it.
pub(crate) fn shown_block<'a>(
    disk: &Disk<'a>,
    who: Uic,
    file: FileId,
    vbn: u32,
) -> Result<&'a Block, Refusal>
    requires { on IsSoundBy disk.now }
    ensures { MatchResult result (λ block. on IsAnsweredBy disk.now who (ReadRequest file vbn) (Bytes block.now))
        (on IsRefusalOf disk.now who (ReadRequest file vbn)) }
{
    match open_block(disk, who, file, 2, Right::Read, vbn) {
        Ok(lbn) => Ok(disk.image.block(lbn)),
        Err(refusal) => Err(refusal),
    }
}

/// Returns the block of a file with this virtual block number, counted from 1, or the first fault. It allocates no memory.
pub fn read(disk: &Disk<'_>, who: Uic, file: FileId, vbn: u32) -> Result<Block, Refusal>
    requires { on IsSoundBy disk.now }
    ensures { MatchResult result (λ block. on IsAnsweredBy disk.now who (ReadRequest file vbn) (Bytes block))
        (on IsRefusalOf disk.now who (ReadRequest file vbn)) }
{
    match shown_block(disk, who, file, vbn) {
        Ok(block) => Ok(*block),
        Err(refusal) => Err(refusal),
    }
}
