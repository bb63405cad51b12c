//! The writer of a volume with the bytes after it.
ghost use Rattle.std.specs.Prelude.{◌++◌, OnOk, IfErr};
ghost use Rattle.std.specs.Io.KnownBytes.{Appends};
ghost use Rattle.ods_base.specs.Image.{image_bytes, TookBytes};

use ods_base::{Image, WriteFault, write_bytes};
use std::io::Write;

/// Writes the bytes of a volume, and `behind` after them. The fault has the number of bytes that the writer took before it.
pub fn write_contained<W: Write>(
    writer: &mut W,
    image: &Image,
    behind: &[u8],
) -> Result<(), WriteFault>
    ensures ok { OnOk result (Appends (W.contents writer.old) (W.contents writer.new) (image_bytes image.now ++ behind.now)) }
    ensures err { IfErr result (λ fault. TookBytes (W.contents writer.old) (W.contents writer.new) (image_bytes image.now ++ behind.now) fault.written) }
{
    match image.write_to(writer) {
        Ok(()) => {}
        Err(fault) => return Err(fault),
    }
    match write_bytes(writer, behind) {
        Ok(()) => Ok(()),
        Err(fault) => Err(WriteFault {
            written: 512 * image.len() as u64 + fault.written,
        }),
    }
}
