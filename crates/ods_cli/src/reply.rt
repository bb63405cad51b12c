//! The functions with which a run reads its image and writes its reply.
ghost use Rattle.std.specs.Prelude.{◌≡◌, ℕ, List, IfOk, MatchResult};
ghost use Rattle.std.specs.String.{string_bytes};
ghost use Rattle.std.specs.Io.KnownBytes.{Appends, Consumes};
ghost use Rattle.ods_base.specs.Image.{TookBytes};
ghost use Rattle.ods_cli.specs.Reply.{AreImageBytes, AreNoImage, IsReplyFault, refusal_line};

use crate::ServeFault;
use ods_base::{Coded, Image, ImageError, write_bytes};
use std::alloc::{AllocError, Global};
use std::io::{Read, Write};

/// A reply.
#[derive(Drop)]
pub(crate) struct Reply {
    /// Whether it has the requested result, and is not a refusal.
    pub(crate) found: bool,
    /// Its lines, each with its line feed.
    pub(crate) text: String,
}

/// The refusal of bytes that are not an image, or not a sound one: its number, and its line with its line feed.
#[derive(Drop)]
pub(crate) struct NoImage {
    pub(crate) number: u16,
    pub(crate) line: String,
}

/// Returns the image of the reader's bytes, or the refusal if they are not an image.
pub(crate) fn read_image<R: Read>(
    alloc: Global,
    reader: &mut R,
) -> Result<Result<Image, NoImage>, ServeFault>
    ensures { (bytes : List ℕ) × Consumes (R.remaining reader.old) (R.remaining reader.new) bytes
        × MatchResult result (λ found. MatchResult found (AreImageBytes bytes (R.remaining reader.new))
        (λ n. AreNoImage bytes (R.remaining reader.new) n.number (string_bytes n.line)))
        (IsReplyFault bytes) }
{
    match Image::read_from(alloc, reader) {
        Ok(image) => Ok(Ok(image)),
        Err(ImageError::ReadFailed) => Err(ServeFault::Read),
        Err(ImageError::NoMemory) => Err(ServeFault::NoMemory),
        Err(refusal) => {
            let number = refusal.code();
            let line = refusal_line(alloc, number, refusal.name())?;
            Ok(Err(NoImage { number, line }))
        }
    }
}

/// Returns the line of a refusal without parameters.
pub(crate) fn refusal_line(alloc: Global, number: u16, name: &str) -> Result<String, AllocError>
    ensures { IfOk result (λ line. string_bytes line ≡ refusal_line number name.now) }
{
    let line = format!(in alloc; "NO {number} {name}\n")?;
    Ok(line)
}

/// Writes the reply, and returns whether it has the requested result.
pub(crate) fn send<W: Write>(replies: &mut W, reply: &Reply) -> Result<bool, ServeFault>
    ensures { MatchResult result
        (λ found. (found ≡ reply.now.found) × Appends (W.contents replies.old) (W.contents replies.new) (string_bytes reply.now.text))
        (λ fault. (fault ≡ ServeFault.Write)
        × ((count : ℕ) × TookBytes (W.contents replies.old) (W.contents replies.new) (string_bytes reply.now.text) count)) }
{
    match write_bytes(replies, reply.text.as_bytes()) {
        Ok(()) => Ok(reply.found),
        Err(_) => Err(ServeFault::Write),
    }
}
