//! File IDs of headers.
ghost use Rattle.std.specs.Prelude.{◌≡◌};
ghost use Rattle.ods_check.specs.Findings.{id_at};
ghost use Rattle.ods_space.specs.Disks.{seen};

use ods_base::FileId;
use ods_space::{Disk, sequence};

/// Returns the ID of the header with this number: its number and its sequence number.
pub(crate) fn id_of(disk: &Disk<'_>, number: u16) -> FileId
    ensures { result ≡ seen id_at disk.now number }
{
    let sequence = sequence(disk, number);
    FileId { number, sequence }
}
