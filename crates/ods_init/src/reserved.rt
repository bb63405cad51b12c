//! The five reserved files: their names and their headers.
ghost use Rattle.std.specs.Prelude.{◌≡◌, ◌+◌, ◌*◌, ◌/◌, ◌^◌, ◌≤◌, length};
ghost use Rattle.std.specs.List.{All, flat_map, range_with_len};
ghost use Rattle.ods_header.specs.Header.{IsRun, run_blocks};
ghost use Rattle.ods_init.specs.Places.{first_of, count_of};
ghost use Rattle.ods_init.specs.Blocks.{reserved_name, bare_ident, fixed_attributes, reserved_attributes, reserved_characteristics, reserved_ident, IsReservedHeader};

use crate::{Blueprint, Places};
use arrayvec::ArrayVec;
use ods_base::{Block, DIRECTORY_TYPE, FileId, Name};
use ods_header::{HEADER_POINTERS, HEADER_ROOM, Header, Run, write_header};
use ods_request::new_ident;

/// The protection of new files and of the reserved files: the world may only read.
pub const PROTECTION: u16 = 0o160000;

/// The type SYS.
const SYS: u16 = 31419;

/// Returns the name of the reserved file with a number.
pub fn reserved_name(number: u16) -> Name
    ensures { result ≡ reserved_name number }
{
    match number {
        1 => Name::new([14964, 8966, 0], SYS),
        2 => Name::new([3580, 20856, 0], SYS),
        3 => Name::new([3244, 3691, 0], SYS),
        4 => Name::new([49230, 49230, 0], DIRECTORY_TYPE),
        _ => Name::new([5418, 14927, 0], SYS),
    }
}

/// The first block of the reserved file of a number, and how many it has.
fn blocks_of(places: Places, number: u16) -> (u32, u32)
    requires { places.map_blocks ≤ 256 }
    ensures first { result.0 ≡ first_of places number }
    ensures count { result.1 ≡ count_of places number }
{
    match number {
        1 => (0, places.control),
        2 => (places.control, 1 + places.map_blocks),
        4 => (places.master, 1),
        _ => (places.master, 0),
    }
}

/// The pointers of a file whose blocks follow one another: each of 256 blocks, but the last.
fn pointers_to(first: u32, count: u32) -> ArrayVec<Run, HEADER_POINTERS>
    requires few { count ≤ 26112 }
    requires inside { first + count ≤ 2 ^ 20 }
    ensures runs { All IsRun result.items }
    ensures few { length result.items ≡ (count + 255) / 256 }
    ensures blocks { flat_map run_blocks result.items ≡ range_with_len first count }
{
    let mut pointers = ArrayVec::new();
    for k in 0..(count + 255) / 256 {
        pointers.push(Run {
            lbn: first + 256 * k,
            count: (count - 256 * k).min(256) as u16,
        });
    }
    pointers
}

/// The attributes of a file of records of one size: F.RTYP 1, F.RSIZ, F.HIBK, F.EFBK and F.FFBY.
fn fixed_attributes(record_size: u16, blocks: u16, end_block: u16, end_byte: u16) -> [u8; 32]
    ensures { result ≡ fixed_attributes record_size blocks end_block end_byte }
{
    let (size, blocks) = (record_size.to_le_bytes(), blocks.to_le_bytes());
    let (block, byte) = (end_block.to_le_bytes(), end_byte.to_le_bytes());
    [
        1, 0, size[0], size[1], 0, 0, blocks[0], blocks[1], 0, 0, block[0], block[1], byte[0],
        byte[1], 0, 0, 0, 0, 0, 0, 0, 0, 0, 0, 0, 0, 0, 0, 0, 0, 0, 0,
    ]
}

/// The attributes of a reserved file. The master directory has records of 16 bytes, one block, and five names. The blocks of INDEXF.SYS and
/// BITMAP.SYS are records, all in use; of these a bare volume says nothing.
fn attributes_of(blueprint: &Blueprint, number: u16) -> [u8; 32]
    requires map { blueprint.now.places.map_blocks ≤ 256 }
    requires index { blueprint.now.places.control ≤ 26112 }
    ensures { result ≡ reserved_attributes blueprint.now.details number (count_of blueprint.now.places number) }
{
    match &blueprint.details {
        Some(_) => match number {
            1 => block_attributes(blueprint.places.control),
            2 => block_attributes(1 + blueprint.places.map_blocks),
            4 => fixed_attributes(16, 1, 1, 80),
            _ => [0; 32],
        },
        None => match number {
            4 => fixed_attributes(16, 1, 1, 80),
            _ => [0; 32],
        },
    }
}

/// The attributes of a file of so many blocks, each of which is a record.
fn block_attributes(blocks: u32) -> [u8; 32]
    requires { blocks ≤ 26112 }
    ensures { result ≡ fixed_attributes 512 blocks (blocks + 1) 0 }
{
    fixed_attributes(512, blocks as u16, blocks as u16 + 1, 0)
}

/// H.UCHA of a reserved file: UC.CON for BITMAP.SYS, whose blocks follow one another; a bare volume does not say it.
fn characteristics_of(blueprint: &Blueprint, number: u16) -> u8
    ensures { result ≡ reserved_characteristics blueprint.now.details number }
{
    match &blueprint.details {
        Some(_) => match number {
            2 => 0o200,
            _ => 0,
        },
        None => 0,
    }
}

/// The ident of a reserved file: its name, its type, version 1, and when it was made. A bare volume has no dates.
fn ident_of(blueprint: &Blueprint, number: u16) -> [u8; 46]
    ensures { result ≡ reserved_ident blueprint.now.details (reserved_name number) }
{
    match &blueprint.details {
        Some(details) => new_ident(&reserved_name(number), 1, &details.stamp),
        None => bare_ident(number),
    }
}

/// The ident of a reserved file with no dates: its name, its type and version 1.
fn bare_ident(number: u16) -> [u8; 46]
    ensures { result ≡ bare_ident (reserved_name number) }
{
    let name = reserved_name(number);
    let [first, second, third] = name.words();
    let (first, second) = (first.to_le_bytes(), second.to_le_bytes());
    let (third, ext) = (third.to_le_bytes(), name.ext().to_le_bytes());
    [
        first[0], first[1], second[0], second[1], third[0], third[1], ext[0], ext[1], 1, 0, 0, 0,
        0, 0, 0, 0, 0, 0, 0, 0, 0, 0, 0, 0, 0, 0, 0, 0, 0, 0, 0, 0, 0, 0, 0, 0, 0, 0, 0, 0, 0, 0,
        0, 0, 0, 0,
    ]
}

/// Returns the header of the reserved file with a number.
pub fn header_block(blueprint: &Blueprint, number: u16) -> Block
    requires map { blueprint.now.places.map_blocks ≤ 256 }
    requires index { blueprint.now.places.control ≤ 26112 }
    requires master { blueprint.now.places.master ≡ blueprint.now.places.control + 1 + blueprint.now.places.map_blocks }
    ensures { IsReservedHeader blueprint.now number result }
{
    let (first, count) = blocks_of(blueprint.places, number);
    write_header(&Header {
        file: FileId {
            number,
            sequence: number,
        },
        owner: blueprint.owner,
        protection: PROTECTION,
        user_char: characteristics_of(blueprint, number),
        system_char: 0,
        attributes: attributes_of(blueprint, number),
        ident: ident_of(blueprint, number),
        segment: 0,
        next: FileId {
            number: 0,
            sequence: 0,
        },
        next_volume: 0,
        ident_offset: 23,
        map_offset: 46,
        most_words: HEADER_ROOM,
        pointers: pointers_to(first, count),
    })
}
