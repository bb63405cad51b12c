//! Extension headers of a file.
ghost use Rattle.std.specs.Prelude.{◌≡◌, ◌+◌, ◌*◌, ◌≤◌, ℕ, List, length};
ghost use Rattle.std.specs.List.{All};
ghost use Rattle.ods_base.specs.Block.{IsBlock};
ghost use Rattle.ods_header.specs.{Header.IsRun, Header.IsValidHeader, Header.header_of, Writing.AreZeros, Extension.IsExtensionOf, Extension.extension_of};

use crate::header::{HEADER_POINTERS, HEADER_ROOM};
use crate::{Header, Run, write_header};
use arrayvec::ArrayVec;
use ods_base::{Block, FileId};

/// Returns the block of a new extension header for the file with the first header `first`. It has these pointers, at most 102, and `next` as its next
/// header. It copies the owner, the protection and the ident of `first`. Characteristics and attributes are zero.
pub fn extension_block(
    first: &Header,
    file: FileId,
    segment: u8,
    next: FileId,
    runs: &[Run],
) -> Block
    requires few { length runs.now ≤ 102 }
    requires runs { All IsRun runs.now }
    ensures block { IsBlock result }
    ensures valid { IsValidHeader result file.number }
    ensures fields { header_of result ≡ extension_of first.now file segment next runs.now }
    ensures made { (f : List ℕ) → header_of f ≡ first.now → IsExtensionOf f result }
    ensures rest { AreZeros result (102 + 4 * length runs.now) 510 }
{
    let pointers = copy_runs(runs);
    let header = Header {
        file,
        owner: first.owner,
        protection: first.protection,
        user_char: 0,
        system_char: 0,
        attributes: [0; 32],
        ident: first.ident,
        segment,
        next,
        next_volume: 0,
        ident_offset: 23,
        map_offset: 46,
        most_words: HEADER_ROOM,
        pointers,
    };
    write_header(&header)
}

/// These runs, in a header's own memory.
fn copy_runs(runs: &[Run]) -> ArrayVec<Run, HEADER_POINTERS>
    requires { length runs.now ≤ 102 }
    ensures { result.items ≡ runs.now }
{
    let mut pointers = ArrayVec::new();
    let _ = pointers.try_extend_from_slice(runs);
    pointers
}
