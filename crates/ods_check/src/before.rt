//! The facts of the earlier files, so that only files that share blocks are compared.
ghost use Rattle.std.specs.Prelude.{IfOk};
ghost use Rattle.ods_check.specs.Holders.{IsBefore};

use crate::counting::new_counted;
use crate::holders::no_holders;
use ods_mount::NumberSet;
use ods_space::Disk;
use std::alloc::{AllocError, Global};

/// The facts of the files before one file.
#[derive(Drop)]
pub(crate) struct Before {
    /// The blocks that these files hold.
    pub held: NumberSet,
    /// The files that hold each block, as long as lines are kept.
    pub holders: Vec<Vec<u16>>,
    /// A number for each block of the image: the pair of files for which it was counted last.
    pub stamps: Vec<u64>,
}

impl Before {
    /// Returns the empty facts before the first file. Takes about 32 bytes for each block of the image.
    pub(crate) fn first(alloc: Global, disk: &Disk<'_>) -> Result<Before, AllocError>
        ensures { IfOk result (λ before. IsBefore disk.now.image.now disk.now.layout.now ⊥ 0 before) }
    {
        let len = disk.image.len();
        let held = NumberSet::new(alloc, len)?;
        let holders = no_holders(alloc, len)?;
        let stamps = new_counted(alloc, len)?;
        Ok(Before {
            held,
            holders,
            stamps,
        })
    }
}
