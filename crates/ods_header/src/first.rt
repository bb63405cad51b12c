//! First headers of new files.
ghost use Rattle.std.specs.Prelude.{◌≡◌};
ghost use Rattle.ods_base.specs.Block.{IsBlock};
ghost use Rattle.ods_header.specs.{First.primary_header, Header.IsValidHeader, Header.header_of, Writing.AreZeros};

use crate::header::HEADER_ROOM;
use crate::{Header, write_header};
use arrayvec::ArrayVec;
use ods_base::{Block, FileId, Uic};

/// Returns the block of the first header of a new file, with no pointers and no next header. The header is valid, and its bytes from word 51 up to
/// the checksum are zeros.
pub fn first_block(
    file: FileId,
    owner: Uic,
    protection: u16,
    attributes: [u8; 32],
    ident: [u8; 46],
) -> Block
    ensures block { IsBlock result }
    ensures valid { IsValidHeader result file.number }
    ensures fields { header_of result ≡ primary_header file owner protection attributes ident }
    ensures rest { AreZeros result 102 510 }
{
    let header = Header {
        file,
        owner,
        protection,
        user_char: 0,
        system_char: 0,
        attributes,
        ident,
        segment: 0,
        next: FileId {
            number: 0,
            sequence: 0,
        },
        next_volume: 0,
        ident_offset: 23,
        map_offset: 46,
        most_words: HEADER_ROOM,
        pointers: ArrayVec::new(),
    };
    write_header(&header)
}
