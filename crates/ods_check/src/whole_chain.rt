//! The blocks of a file whose chain is whole.
ghost use Rattle.std.specs.Prelude.{ℕ, List, IfOk, IfSome, IfNone};
ghost use Rattle.ods_space.specs.Files.{HasBlocks, IsLayoutOf};
ghost use Rattle.ods_space.specs.Disks.{on};

use ods_space::{ChainFault, Disk, chain};
use std::alloc::{AllocError, Global};

/// Returns the blocks of a file. Returns `None` if its chain is not whole. An error means out of memory.
pub(crate) fn whole_chain(
    alloc: Global,
    disk: &Disk<'_>,
    number: u16,
) -> Result<Option<Vec<u32>>, AllocError>
    requires { on IsLayoutOf disk.now }
    ensures some { IfOk result (λ found. IfSome found (λ lbns. on HasBlocks disk.now number lbns.items)) }
    ensures none { IfOk result (λ found. IfNone found ((blocks : List ℕ) → ¬ on HasBlocks disk.now number blocks)) }
{
    match chain(alloc, disk, number) {
        Ok(lbns) => Ok(Some(lbns)),
        Err(ChainFault::NoMemory) => Err(AllocError),
        Err(ChainFault::BadChain) => Ok(None),
        Err(ChainFault::OutsideVolume(_)) => Ok(None),
    }
}
