//! All bytes of a reader.
ghost use Rattle.std.specs.Prelude.{◌≡◌, ◌<◌, ◌≤◌, ℕ, List, length, take, IfOk, IfErr, MatchResult};
ghost use Rattle.std.specs.Io.KnownBytes.{Consumes, IsAtEnd, Keeps};
ghost use Rattle.ods_container.specs.Container.{AreAll, AreNotRead};

use ods_base::{ImageError, PIECE};
use std::alloc::Global;
use std::io::Read;

/// The most bytes of a file that are read: the bytes of the largest image, and 65,536 after it.
pub const MOST_BYTES: usize = 536_936_448;

/// Reads all bytes of a reader, to its end. A failed read is not tried again. More than [`MOST_BYTES`] bytes are TooBig.
pub(crate) fn read_all<R: Read>(alloc: Global, reader: &mut R) -> Result<Vec<u8>, ImageError>
    ensures { (bytes : List ℕ) × Consumes (R.remaining reader.old) (R.remaining reader.new) bytes
        × MatchResult result (λ all. AreAll bytes (R.remaining reader.new) all.items) (AreNotRead bytes) }
{
    let mut piece = [0u8; PIECE];
    read_pieces(alloc, reader, &mut piece)
}

/// The bytes that a reader gives, to its end. The piece is room to read into.
fn read_pieces<R: Read>(
    alloc: Global,
    reader: &mut R,
    piece: &mut [u8],
) -> Result<Vec<u8>, ImageError>
    requires { 0 < length piece.old }
    ensures { (bytes : List ℕ) × Consumes (R.remaining reader.old) (R.remaining reader.new) bytes
        × MatchResult result (λ all. AreAll bytes (R.remaining reader.new) all.items) (AreNotRead bytes) }
{
    let mut all = Vec::new(alloc);
    'pieces: loop {
        let count = read_piece(reader, piece)?;
        if count == 0 {
            return Ok(all);
        }
        all.extend_from_slice(&piece[..count])?;
        if all.len() > MOST_BYTES {
            return Err(ImageError::TooBig);
        }
    }
}

/// One read into the piece. Any failure is the device's.
fn read_piece<R: Read>(reader: &mut R, piece: &mut [u8]) -> Result<usize, ImageError>
    requires { 0 < length piece.old }
    ensures ok { IfOk result (λ count. (count ≤ length piece.new) × Consumes (R.remaining reader.old) (R.remaining reader.new) (take count piece.new)
        × (count ≡ 0 → IsAtEnd (R.remaining reader.new))) }
    ensures err { IfErr result (λ e. (e ≡ ImageError.ReadFailed) × Keeps (R.remaining reader.old) (R.remaining reader.new)) }
{
    match reader.read(piece) {
        Ok(count) => Ok(count),
        Err(_) => Err(ImageError::ReadFailed),
    }
}
