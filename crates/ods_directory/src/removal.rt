//! Removing names from a directory.
ghost use Rattle.std.specs.Prelude.{◌≡◌, ℕ, ◌*◌, ◌/◌, ◌<◌, ◌≤◌, length, replicate, IfOk, IfErr, IsTrue};
ghost use Rattle.std.specs.FinMap.{remove};
ghost use Rattle.ods_base.specs.{Name.key_of, Names.Finds};
ghost use Rattle.ods_directory.specs.{Entry.entry_at, Entry.is_used, Faults.IsLookUpFault, Mark.written, Names.IsDirectory, Names.names_of};

use crate::search::find_entry;
use crate::{DirBlocks, DirFault};
use ods_base::{FileId, Name, Pick};

/// Returns the file and the version that a name with a pick selects, and the position of their entry in bytes. If 16 zero bytes are written there,
/// the directory no longer has the name. Its mark is unchanged. If the pick selects no version, the fault is `NoSuchName`.
pub fn remove<B: DirBlocks>(
    blocks: &B,
    mark: u64,
    name: &Name,
    pick: Pick,
) -> Result<(FileId, u16, u64), DirFault>
    requires directory { IsDirectory (B.blocks blocks.now) mark }
    requires mark { mark ≤ 512 * length (B.blocks blocks.now) }
    ensures found { IfOk result (λ r. Finds (names_of (B.blocks blocks.now) mark) name.now pick r.0 r.1) }

    // The position is that of the name's entry, which is in use. With 16 zero bytes there the directory has that name less.
    ensures position { IfOk result (λ r. (k : ℕ) × (k < mark / 16) × (r.2 ≡ 16 * k)
        × (entry_at (B.blocks blocks.now) k ≡ record { file = r.0; volume = 0; key = key_of name.now r.1 }) × IsTrue (is_used (entry_at (B.blocks blocks.now) k))) }
    ensures names { IfOk result (λ r. names_of (written (B.blocks blocks.now) r.2 (replicate 16 0)) mark
        ≡ remove (names_of (B.blocks blocks.now) mark) (key_of name.now r.1)) }
    ensures stays { IfOk result (λ r. IsDirectory (written (B.blocks blocks.now) r.2 (replicate 16 0)) mark) }
    ensures err { IfErr result (IsLookUpFault (names_of (B.blocks blocks.now) mark) name.now pick) }
{
    match find_entry(blocks, mark, name, pick) {
        Some(found) => {
            // What is read is a whole block, so the entry can be written there.
            let _ = blocks.block((found.position / 32) as u32);
            Ok((found.file, found.version, 16 * found.position))
        }
        None => Err(DirFault::NoSuchName),
    }
}
