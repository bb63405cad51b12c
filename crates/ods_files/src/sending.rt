//! The first bytes of some blocks of an image, in order, with zeros for blocks after its end. They are written to a writer in pieces of 64 KiB, or
//! appended in memory.
ghost use Rattle.std.specs.Prelude.{◌≡◌, ◌+◌, ◌*◌, ◌^◌, ◌<◌, ◌≤◌, ◌++◌, ℕ, List, Option, length, take, OnOk, IfOk, IfErr};
ghost use Rattle.std.specs.Io.KnownBytes.{Appends};
ghost use Rattle.ods_base.specs.{Block.zeros as zeros_are, Image.image_bytes, Image.TookBytes};
ghost use Rattle.ods_space.specs.Chain.{chain_blocks};
ghost use Rattle.ods_files.specs.{Body.block_or_zeros, Body.padded, Sending.IsSending};

use arrayvec::ArrayVec;
use ods_base::{Block, Image, PIECE, WriteFault, write_piece};
use std::alloc::AllocError;
use std::io::Write;

/// Writes the first `size` bytes of the blocks at these LBNs, by its own loop over `write`. The fault has the number of bytes that the writer took
/// before it.
pub(crate) fn send_first<W: Write>(
    image: &Image,
    lbns: &[u32],
    size: u64,
    writer: &mut W,
) -> Result<(), WriteFault>
    requires few { length lbns.now ≤ chain_blocks }
    requires size { size ≤ 512 * length lbns.now }
    ensures ok { OnOk result (Appends (W.contents writer.old) (W.contents writer.new) (take size (image_bytes (padded image.now lbns.now)))) }
    ensures err { IfErr result (λ fault. TookBytes (W.contents writer.old) (W.contents writer.new) (take size (image_bytes (padded image.now lbns.now))) fault.written) }
{
    // The blocks of an image are whole.
    let _ = image.len();
    let zeros = Block::zeros();
    let mut piece: ArrayVec<u8, PIECE> = ArrayVec::new();
    let mut written: u64 = 0;
    for k in 0..size.div_ceil(512) {
        let count = (size - 512 * k).min(512) as usize;
        written = match send_on(
            writer,
            &mut piece,
            written,
            block_or_zeros(image, &zeros, lbns[k as usize]),
            count,
        ) {
            Ok(after) => after,
            Err(fault) => return Err(fault),
        };
    }
    match write_piece(writer, &piece, written) {
        Ok(_) => Ok(()),
        Err(fault) => Err(fault),
    }
}

/// The piece takes the first `count` bytes of a block; where it has no room for a block, it goes out before. Says how many bytes have gone
/// out then.
fn send_on<W: Write>(
    writer: &mut W,
    piece: &mut ArrayVec<u8, PIECE>,
    before: u64,
    block: &Block,
    count: usize,
) -> Result<u64, WriteFault>
    requires count { count ≤ 512 }
    requires small { before + length piece.old.items < 2 ^ 64 }
    ensures ok { IfOk result (λ after. (start : Option (List ℕ)) (bytes : List ℕ) (at : ℕ) → IsSending bytes start (W.contents writer.old) at before piece.old.items
        → take (at + count) bytes ≡ take at bytes ++ take count block.now → IsSending bytes start (W.contents writer.new) (at + count) after piece.new.items) }
    ensures err { IfErr result (λ fault. (start : Option (List ℕ)) (bytes : List ℕ) (at : ℕ) → IsSending bytes start (W.contents writer.old) at before piece.old.items
        → at ≤ length bytes → TookBytes start (W.contents writer.new) bytes fault.written) }
{
    let after = match make_room(writer, piece, before) {
        Ok(after) => after,
        Err(fault) => return Err(fault),
    };
    hold_back(piece, block, count);
    Ok(after)
}

/// Where the piece has no room for a block, it goes out. Says how many bytes have gone out then.
fn make_room<W: Write>(
    writer: &mut W,
    piece: &mut ArrayVec<u8, PIECE>,
    before: u64,
) -> Result<u64, WriteFault>
    requires small { before + length piece.old.items < 2 ^ 64 }
    ensures room { OnOk result (length piece.new.items + 512 ≤ PIECE) }
    ensures ok { IfOk result (λ after. (start : Option (List ℕ)) (bytes : List ℕ) (at : ℕ) → IsSending bytes start (W.contents writer.old) at before piece.old.items
        → IsSending bytes start (W.contents writer.new) at after piece.new.items) }
    ensures err { IfErr result (λ fault. (start : Option (List ℕ)) (bytes : List ℕ) (at : ℕ) → IsSending bytes start (W.contents writer.old) at before piece.old.items
        → at ≤ length bytes → TookBytes start (W.contents writer.new) bytes fault.written) }
{
    if piece.len() <= PIECE - 512 {
        return Ok(before);
    }
    match write_piece(writer, piece, before) {
        Ok(after) => {
            piece.clear();
            Ok(after)
        }
        Err(fault) => Err(fault),
    }
}

/// The piece takes the first `count` bytes of a block, for which it has room.
fn hold_back(piece: &mut ArrayVec<u8, PIECE>, block: &Block, count: usize)
    requires count { count ≤ 512 }
    requires room { length piece.old.items + count ≤ PIECE }
    ensures taken { piece.new.items ≡ piece.old.items ++ take count block.now }
    ensures long { length (take count block.now) ≡ count }
{
    let _ = piece.try_extend_from_slice(&block.bytes()[..count]);
}

/// Appends the first `size` bytes of the blocks at these LBNs to `bytes`. After an error some of them may be appended.
pub(crate) fn push_first(
    image: &Image,
    lbns: &[u32],
    size: u64,
    bytes: &mut Vec<u8>,
) -> Result<(), AllocError>
    requires few { length lbns.now ≤ chain_blocks }
    requires size { size ≤ 512 * length lbns.now }
    ensures { OnOk result (bytes.new.items ≡ bytes.old.items ++ take size (image_bytes (padded image.now lbns.now))) }
{
    // The blocks of an image are whole.
    let _ = image.len();
    let zeros = Block::zeros();
    for k in 0..size.div_ceil(512) {
        let count = (size - 512 * k).min(512) as usize;
        let block = block_or_zeros(image, &zeros, lbns[k as usize]);
        bytes.extend_from_slice(&block.bytes()[..count])?;
    }
    Ok(())
}

/// Returns the block at this LBN, or these zeros if it is past the image.
pub(crate) fn block_or_zeros<'a>(image: &'a Image, zeros: &'a Block, lbn: u32) -> &'a Block
    requires { zeros.now ≡ zeros_are }
    ensures { result.now ≡ block_or_zeros image.now lbn }
{
    if lbn < image.len() {
        image.block(lbn)
    } else {
        zeros
    }
}
