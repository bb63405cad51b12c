//! Looking names up.
ghost use Rattle.std.specs.Prelude.{◌≡◌, ◌*◌, ◌≤◌, length, IfOk, IfErr};
ghost use Rattle.ods_base.specs.Names.{Finds};
ghost use Rattle.ods_directory.specs.{Faults.IsLookUpFault, Names.IsDirectory, Names.names_of};

use crate::search::find_entry;
use crate::{DirBlocks, DirFault};
use ods_base::{FileId, Name, Pick};

/// Returns the file and the version that a name with a pick selects. If the pick selects no version, the fault is `NoSuchName`.
pub fn look_up<B: DirBlocks>(
    blocks: &B,
    mark: u64,
    name: &Name,
    pick: Pick,
) -> Result<(FileId, u16), DirFault>
    requires directory { IsDirectory (B.blocks blocks.now) mark }
    requires mark { mark ≤ 512 * length (B.blocks blocks.now) }
    ensures ok { IfOk result (λ found. Finds (names_of (B.blocks blocks.now) mark) name.now pick found.0 found.1) }
    ensures err { IfErr result (IsLookUpFault (names_of (B.blocks blocks.now) mark) name.now pick) }
{
    match find_entry(blocks, mark, name, pick) {
        Some(found) => Ok((found.file, found.version)),
        None => Err(DirFault::NoSuchName),
    }
}
