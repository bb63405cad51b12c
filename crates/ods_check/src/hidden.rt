//! Directories with used entries after their end.
use crate::Finding;
use crate::directory::whole_directory;
use crate::numbers::file_end;
use crate::sweep::Sought;
use ods_directory::has_hidden;
use ods_mount::FileBlocks;
use ods_space::Disk;
use std::alloc::{AllocError, Global};

/// Directories with a whole chain and with used entries after their end.
#[derive(Drop)]
pub(crate) struct Hiding;

impl Sought for Hiding {
    ghost use Rattle.std.specs.Prelude.{⊤};
    ghost use Rattle.ods_check.specs.Findings.{IsHiding};
    ghost use Rattle.ods_check.specs.declared.finding.Finding.{Finding};

    type Line = Finding;

    ghost most = { 65536 };

    ghost fits = { λ _ _ _. ⊤ };

    ghost is = { λ _. IsHiding };

    ghost line_of = { λ _ _. Finding.HiddenEntries };

    fn end(&self, disk: &Disk<'_>) -> u32 {
        file_end(disk)
    }

    fn holds(&self, alloc: Global, disk: &Disk<'_>, number: u32) -> Result<bool, AllocError> {
        let Some(directory) = whole_directory(alloc, disk, number as u16)? else {
            return Ok(false);
        };
        let blocks = FileBlocks::new(disk.image, &directory.lbns);
        Ok(has_hidden(&blocks, directory.mark))
    }

    fn line(&self, _disk: &Disk<'_>, number: u32) -> Finding {
        Finding::HiddenEntries(number as u16)
    }
}
