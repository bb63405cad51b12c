//! Files that end past their blocks.
ghost use Rattle.std.specs.Prelude.{◌*◌, ◌<◌, length, MatchBool};
ghost use Rattle.ods_space.specs.Files.{IsLayoutOf};
ghost use Rattle.ods_check.specs.Findings.{IsEndPast, end_of};
ghost use Rattle.ods_space.specs.Disks.{on};

use crate::Finding;
use crate::ids::id_of;
use crate::numbers::file_end;
use crate::sweep::Sought;
use ods_directory::mark_of;
use ods_header::attributes;
use ods_mount::is_directory_file;
use ods_space::{Disk, block_count, primary_header};
use std::alloc::{AllocError, Global};

/// Files above 2 that are not directories and end past their blocks.
#[derive(Drop)]
pub(crate) struct PastEnds;

impl Sought for PastEnds {
    ghost use Rattle.std.specs.Prelude.{⊤};
    ghost use Rattle.ods_check.specs.Findings.{IsEndPast, id_at};
    ghost use Rattle.ods_check.specs.declared.finding.Finding.{Finding};

    type Line = Finding;

    ghost most = { 65536 };

    ghost fits = { λ _ _ _. ⊤ };

    ghost is = { λ _. IsEndPast };

    ghost line_of = { λ I L n. Finding.EndPast (id_at I L n) };

    fn end(&self, disk: &Disk<'_>) -> u32 {
        file_end(disk)
    }

    fn holds(&self, _alloc: Global, disk: &Disk<'_>, number: u32) -> Result<bool, AllocError> {
        Ok(ends_past(disk, number as u16))
    }

    fn line(&self, disk: &Disk<'_>, number: u32) -> Finding {
        Finding::EndPast(id_of(disk, number as u16))
    }
}

/// Whether this is a file above 2, and no directory, that ends past its blocks.
fn ends_past(disk: &Disk<'_>, number: u16) -> bool
    requires { on IsLayoutOf disk.now }
    ensures { MatchBool result (on IsEndPast disk.now number) (¬ on IsEndPast disk.now number) }
{
    if number < 3 {
        return false;
    }
    let Some(first) = primary_header(disk, number) else {
        return false;
    };
    if is_directory_file(disk, number) {
        return false;
    }
    // An image has few blocks, and so has a file.
    let _ = disk.image.len();
    match block_count(disk, number) {
        Some(count) => is_past(&attributes(first), count),
        None => false,
    }
}

/// Whether these attributes say that a file ends past so many blocks.
fn is_past(attributes: &[u8; 32], count: u32) -> bool
    requires { count < 4294967295 }
    ensures { MatchBool result (512 * count < end_of attributes.now) (¬ (512 * count < end_of attributes.now)) }
{
    // An end cut to one block more lies past the blocks just where the end does.
    512 * u64::from(count) < mark_of(attributes, count + 1)
}
