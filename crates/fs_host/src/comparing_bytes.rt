//! The comparison of a host file with the bytes of a volume and the bytes after it.
ghost use Rattle.std.specs.Prelude.{◌≡◌, ◌+◌, ◌%◌, ◌<◌, ◌≤◌, ◌++◌, ℕ, List, IfSome, IsSome, IsTrue, true, false, length, take};
ghost use Rattle.std.specs.List.{list_all};
ghost use Rattle.std.specs.Io.KnownBytes.{Consumes, IsAtEnd};
ghost use Rattle.ods_base.specs.Image.{image_bytes};
ghost use Rattle.fs_host.specs.Compared.{Gives, HasAll, is_zero};
ghost use Rattle.fs_host.specs.Found.{ReadsWhole};

use ods_base::{Block, Image};
use std::io::{Read, Seek, SeekFrom};

/// How many bytes are compared at once: some whole blocks.
const PIECE: usize = 65_536;

/// Returns whether the file has the bytes of this image, then `behind`, and nothing more. With `ends_in_zeros` the file may lack zeros at the end.
pub fn has_bytes<F: Read + Seek>(
    file: &mut F,
    image: &Image,
    behind: &[u8],
    ends_in_zeros: bool,
) -> bool
    // Of a file whose bytes are known.
    ensures { ReadsWhole F.remaining F.stream_position F.stream_bytes → IsSome (F.stream_position file.old)
        → IfSome (F.stream_bytes file.old) (λ all. IsTrue result → HasAll ends_in_zeros all (image_bytes image.now ++ behind.now)) }
{
    match file.seek(SeekFrom::Start(0)) {
        Ok(_) => gives_whole(file, image, behind, ends_in_zeros),
        Err(_) => false,
    }
}

/// Returns whether the file has exactly these bytes.
pub fn has_only<F: Read + Seek>(file: &mut F, bytes: &[u8]) -> bool
    // Of a file whose bytes are known.
    ensures { ReadsWhole F.remaining F.stream_position F.stream_bytes → IsSome (F.stream_position file.old)
        → IfSome (F.stream_bytes file.old) (λ all. IsTrue result → HasAll false all bytes.now) }
{
    match file.seek(SeekFrom::Start(0)) {
        Ok(_) => gives_only(file, bytes),
        Err(_) => false,
    }
}

/// Whether a reader gives these bytes, and no more.
fn gives_only<R: Read>(reader: &mut R, bytes: &[u8]) -> bool
    ensures { IfSome (R.remaining reader.old) (λ all. IsTrue result → HasAll false all bytes.now) }
{
    if !gives(reader, bytes, false) {
        return false;
    }
    is_at_end(reader)
}

/// Whether a reader gives the bytes of an image and these behind them, and no more.
fn gives_whole<R: Read>(reader: &mut R, image: &Image, behind: &[u8], ends_in_zeros: bool) -> bool
    ensures { IfSome (R.remaining reader.old) (λ all. IsTrue result → HasAll ends_in_zeros all (image_bytes image.now ++ behind.now)) }
{
    if !gives_image(reader, image, ends_in_zeros) {
        return false;
    }
    if !gives(reader, behind, ends_in_zeros) {
        return false;
    }
    is_at_end(reader)
}

/// Whether a reader gives the bytes of an image next. Pieces of some blocks are compared at once.
fn gives_image<R: Read>(reader: &mut R, image: &Image, ends_in_zeros: bool) -> bool
    ensures { IsTrue result → Gives ends_in_zeros (R.remaining reader.old) (R.remaining reader.new) (image_bytes image.now) }
{
    let mut piece = [0; PIECE];
    let mut held = 0;
    for lbn in 0..image.len() {
        match hold(reader, &mut piece, held, image.block(lbn), ends_in_zeros) {
            Some(now) => held = now,
            None => return false,
        }
    }
    gives(reader, &piece[..held], ends_in_zeros)
}

/// Holds a block behind the others of a piece, and compares the piece with what a reader gives next where it is full then. How many bytes are
/// held back, where none differ.
fn hold<R: Read>(
    reader: &mut R,
    piece: &mut [u8],
    held: usize,
    block: &Block,
    ends_in_zeros: bool,
) -> Option<usize>
    requires size { length piece.old ≡ PIECE }
    requires room { held + 512 ≤ PIECE }
    requires aligned { held % 512 ≡ 0 }
    ensures room { IfSome result (λ now. now + 512 ≤ PIECE) }
    ensures aligned { IfSome result (λ now. now % 512 ≡ 0) }
    ensures given { IfSome result (λ now. (given : List ℕ) × Gives ends_in_zeros (R.remaining reader.old) (R.remaining reader.new) given
        × (given ++ take now piece.new ≡ take held piece.old ++ block.now)) }
{
    piece[held..held + 512].copy_from_slice(block.bytes());
    let now = held + 512;
    if now < PIECE {
        return Some(now);
    }
    if gives(reader, piece, ends_in_zeros) {
        Some(0)
    } else {
        None
    }
}

/// Whether a reader gives these bytes next, or where `ends_in_zeros` the front of them, which zeros follow, and is at its end.
fn gives<R: Read>(reader: &mut R, wanted: &[u8], ends_in_zeros: bool) -> bool
    ensures { IsTrue result → Gives ends_in_zeros (R.remaining reader.old) (R.remaining reader.new) wanted.now }
{
    let mut piece = [0; PIECE];
    let mut at = 0;
    while at < wanted.len() {
        let Some(count) = give_some(reader, &wanted[at..], &mut piece) else {
            return false;
        };
        if count == 0 {
            return may_lack(&wanted[at..], ends_in_zeros);
        }
        at += count;
    }
    true
}

/// Reads once, at most as many bytes as are wanted. How many came, where they are those that are wanted.
fn give_some<R: Read>(reader: &mut R, wanted: &[u8], piece: &mut [u8]) -> Option<usize>
    requires wanted { 0 < length wanted.now }
    requires room { 0 < length piece.old }
    ensures few { IfSome result (λ count. count ≤ length wanted.now) }
    ensures given { IfSome result (λ count. Consumes (R.remaining reader.old) (R.remaining reader.new) (take count wanted.now)) }
    ensures end { IfSome result (λ count. count ≡ 0 → IsAtEnd (R.remaining reader.new)) }
{
    let most = wanted.len().min(piece.len());
    let room = &mut piece[..most];
    let Ok(count) = reader.read(room) else {
        return None;
    };
    if room[..count] == wanted[..count] {
        Some(count)
    } else {
        None
    }
}

/// Whether these bytes may be lacking at the end: they are zeros, and `ends_in_zeros`.
fn may_lack(bytes: &[u8], ends_in_zeros: bool) -> bool
    ensures { IsTrue result → IsTrue ends_in_zeros × (list_all is_zero bytes.now ≡ true) }
{
    if !ends_in_zeros {
        return false;
    }
    are_zeros(bytes)
}

/// Returns whether each byte is zero.
pub fn are_zeros(bytes: &[u8]) -> bool
    ensures { result ≡ list_all is_zero bytes.now }
{
    bytes.iter().all(|byte| *byte == 0)
}

/// Whether a reader gives nothing more.
fn is_at_end<R: Read>(reader: &mut R) -> bool
    ensures { IsTrue result → IsAtEnd (R.remaining reader.old) }
{
    matches!(reader.read(&mut [0; 1]), Ok(0))
}
