//! Reading of images: in pieces of 64 KiB, each block stored once.
ghost use Rattle.std.specs.Prelude.{◌≡◌, ◌+◌, ◌*◌, ◌/◌, ◌%◌, ◌<◌, ◌≤◌, ◌++◌, ℕ, List, [], length, take, drop, vec_len, IfOk, IfErr, OnOk, MatchResult};
ghost use Rattle.std.specs.List.{All};
ghost use Rattle.std.specs.Io.KnownBytes.{Consumes, IsAtEnd, Keeps};
ghost use Rattle.ods_base.specs.{Block.IsBlock, Image.IsImage, Image.IsNoReading, Image.ReadsBehind, Image.image_bytes};

use crate::image::{MAX_BYTES, PIECE};
use crate::{Block, Image, ImageError};
use std::alloc::{AllocError, Global};
use std::io::Read;

impl Image {
    /// Reads an image up to the end of the reader. It takes at most 536,870,913 bytes, and a read of 0 bytes is the end. A failed read is not
    /// retried, whatever its error. The reader may return its bytes in pieces of any size.
    pub fn read_from<R: Read>(alloc: Global, reader: &mut R) -> Result<Image, ImageError>
        ensures { (bytes : List ℕ) × Consumes (R.remaining reader.old) (R.remaining reader.new) bytes
            × MatchResult result (λ image. IsImage image × (image_bytes image ≡ bytes) × IsAtEnd (R.remaining reader.new))
            (IsNoReading bytes (R.remaining reader.new)) }
    {
        let mut piece = zeroed_bytes(alloc, PIECE)?;
        let mut blocks = Vec::new(alloc);
        read_blocks(reader, &mut piece, &mut blocks)?;
        Ok(Image::alone(blocks))
    }
}

/// Reads to the end, and stores the blocks. The piece is room to read into.
fn read_blocks<R: Read>(
    reader: &mut R,
    piece: &mut [u8],
    blocks: &mut Vec<Block>,
) -> Result<(), ImageError>
    requires size { length piece.old ≡ PIECE }
    requires none { blocks.old.items ≡ [] }
    ensures { (bytes : List ℕ) × Consumes (R.remaining reader.old) (R.remaining reader.new) bytes
        × MatchResult result (λ _. IsImage blocks.new.items × (image_bytes blocks.new.items ≡ bytes) × IsAtEnd (R.remaining reader.new))
        (IsNoReading bytes (R.remaining reader.new)) }
{
    let mut held = 0;
    'pieces: loop {
        let taken = 512 * blocks.len() + held;
        let room = (PIECE - held).min(MAX_BYTES + 1 - taken);
        let count = read_once(reader, piece, held, room)?;
        if count == 0 {
            break 'pieces;
        }
        if taken + count > MAX_BYTES {
            return Err(ImageError::TooBig);
        }
        let end = held + count;
        store_whole_blocks(blocks, &piece[..end])?;
        held = keep_rest(piece, end);
    }
    if held != 0 {
        return Err(ImageError::NotWholeBlocks);
    }
    Ok(())
}

/// One read of at most `most` bytes, which go behind the first `held` ones of the piece. Any failure is the
/// device's.
fn read_once<R: Read>(
    reader: &mut R,
    piece: &mut [u8],
    held: usize,
    most: usize,
) -> Result<usize, ImageError>
    requires some { 0 < most }
    requires room { held + most ≤ length piece.old }
    ensures ok { IfOk result (λ count. (count ≤ most)
        × ReadsBehind (R.remaining reader.old) (R.remaining reader.new) held count piece.old piece.new) }
    ensures err { IfErr result (λ e. (e ≡ ImageError.ReadFailed) × Keeps (R.remaining reader.old) (R.remaining reader.new)) }
{
    match reader.read(&mut piece[held..held + most]) {
        Ok(count) => Ok(count),
        Err(_) => Err(ImageError::ReadFailed),
    }
}

/// This many bytes to read into.
fn zeroed_bytes(alloc: Global, count: usize) -> Result<Vec<u8>, AllocError>
    ensures { IfOk result (λ bytes. vec_len bytes ≡ count) }
{
    vec![in alloc; 0; count]
}

/// Moves what is no whole block of the first `end` bytes to the front, and says how much that is.
fn keep_rest(piece: &mut [u8], end: usize) -> usize
    requires { end ≤ length piece.old }
    ensures count { result ≡ end % 512 }
    ensures rest { take result piece.new ≡ drop (512 * (end / 512)) (take end piece.old) }
{
    let start = end - end % 512;
    piece.copy_within(start..end, 0);
    end % 512
}

/// Appends the blocks of the bytes; a last block that is not whole is left out.
pub(crate) fn store_whole_blocks(blocks: &mut Vec<Block>, bytes: &[u8]) -> Result<(), AllocError>
    requires { All IsBlock blocks.old.items }
    ensures ok { OnOk result (image_bytes blocks.new.items ≡ image_bytes blocks.old.items ++ take (512 * (length bytes.now / 512)) bytes.now) }
    ensures count { OnOk result (vec_len blocks.new ≡ vec_len blocks.old + length bytes.now / 512) }
    ensures each { OnOk result (All IsBlock blocks.new.items) }
{
    for i in 0..bytes.len() / 512 {
        let block = Block::from_slice(&bytes[512 * i..512 * i + 512]);
        blocks.push(block)?;
    }
    Ok(())
}
