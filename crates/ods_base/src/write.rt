//! Writing of images: in pieces of 64 KiB, with a count of the written bytes.
ghost use Rattle.std.specs.Prelude.{◌≡◌, ◌+◌, ◌^◌, ◌<◌, ◌≤◌, ◌++◌, ℕ, length, take, OnOk, IfOk, IfErr};
ghost use Rattle.std.specs.Io.KnownBytes.{Appends};
ghost use Rattle.ods_base.specs.Image.{image_bytes, TookBytes};

use crate::image::PIECE;
use crate::{Block, Image, WriteFault};
use arrayvec::ArrayVec;
use std::io::Write;

impl Image {
    /// Writes the bytes of all blocks in order, by its own loop over `write`. A write of 0 bytes counts as failed. The fault has the number of bytes
    /// that the writer took before.
    pub fn write_to<W: Write>(&self, writer: &mut W) -> Result<(), WriteFault>
        ensures ok { OnOk result (Appends (W.contents writer.old) (W.contents writer.new) (image_bytes self.now)) }
        ensures err { IfErr result (λ fault. TookBytes (W.contents writer.old) (W.contents writer.new) (image_bytes self.now) fault.written) }
    {
        let mut piece: ArrayVec<u8, PIECE> = ArrayVec::new();
        let mut written: u64 = 0;
        for lbn in 0..self.len() {
            hold_back(&mut piece, self.block(lbn));
            if piece.is_full() {
                written = write_piece(writer, &piece, written)?;
                piece.clear();
            }
        }
        write_piece(writer, &piece, written)?;
        Ok(())
    }
}

/// The piece takes a block, for which it has room.
fn hold_back(piece: &mut ArrayVec<u8, PIECE>, block: &Block)
    requires { length piece.old.items + 512 ≤ PIECE }
    ensures { piece.new.items ≡ piece.old.items ++ block.now }
{
    let _ = piece.try_extend_from_slice(block.bytes());
}

/// Writes all bytes of a piece as [`write_bytes`] does, after `before` bytes. Returns the total number of written bytes. A fault counts the `before`
/// bytes too.
pub fn write_piece<W: Write>(writer: &mut W, piece: &[u8], before: u64) -> Result<u64, WriteFault>
    requires { before + length piece.now < 2 ^ 64 }
    ensures ok { IfOk result (λ after. (after ≡ before + length piece.now)
        × Appends (W.contents writer.old) (W.contents writer.new) piece.now) }
    ensures err { IfErr result (λ fault. (count : ℕ) × (count ≤ length piece.now) × (fault.written ≡ before + count)
        × Appends (W.contents writer.old) (W.contents writer.new) (take count piece.now)) }
{
    match write_bytes(writer, piece) {
        Ok(()) => Ok(before + piece.len() as u64),
        Err(fault) => Err(WriteFault {
            written: before + fault.written,
        }),
    }
}

/// Writes all of these bytes, by its own loop over `write`. A write of 0 bytes counts as failed, and a failed write is not retried. The fault has the
/// number of bytes that the writer took before.
pub fn write_bytes<W: Write>(writer: &mut W, bytes: &[u8]) -> Result<(), WriteFault>
    ensures ok { OnOk result (Appends (W.contents writer.old) (W.contents writer.new) bytes.now) }
    ensures err { IfErr result (λ fault. TookBytes (W.contents writer.old) (W.contents writer.new) bytes.now fault.written) }
{
    let mut at = 0;
    while at < bytes.len() {
        match writer.write(&bytes[at..]) {
            Ok(0) => break,
            Ok(count) => at += count,
            Err(_) => break,
        }
    }
    if at < bytes.len() {
        return Err(WriteFault { written: at as u64 });
    }
    Ok(())
}
