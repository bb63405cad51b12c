//! One header line from the bytes of an image.
ghost use Rattle.std.specs.Prelude.{◌≡◌, ◌≤◌, ◌++◌, ℕ, List, [], ◌∷◌, true, false, IfOk, IsOkUnless, MatchResult};
ghost use Rattle.std.specs.String.{string_bytes};
ghost use Rattle.std.specs.Io.KnownBytes.{Consumes};
ghost use Rattle.ods_cli.specs.{HeaderReply.IsImageReply, HeaderRun.EndsHeaderRun, Reply.IsReply, Reply.IsReplyFault};

use crate::ServeFault;
use crate::reply::{Reply, read_image, refusal_line, send};
use ods_base::{Coded, Image};
use ods_header::{LineFault, find_home, header_line};
use std::alloc::{AllocError, Global};
use std::io::{Read, Write};

/// Reads an image and writes one line about header `number`, from 1 to 16. If the header is valid, the line is its header line and the result is
/// `true`. Otherwise the line is `NO number Name` and the result is `false`. The refusals are: the bytes are not an image (1, 2), there is no home
/// block (15), or the block is not a valid header of this number (10 to 14). The image is not mounted.
pub fn header_run<R: Read, W: Write>(
    alloc: Global,
    reader: &mut R,
    number: u16,
    replies: &mut W,
) -> Result<bool, ServeFault>
    requires some { 1 ≤ number }
    requires most { number ≤ 16 }
    ensures { (bytes : List ℕ) × Consumes (R.remaining reader.old) (R.remaining reader.new) bytes
        × EndsHeaderRun bytes (R.remaining reader.new) number (W.contents replies.old) (W.contents replies.new) result }
{
    let reply = reply_to(alloc, reader, number)?;
    send(replies, &reply)
}

/// The reply about a header of what the reader gives.
fn reply_to<R: Read>(alloc: Global, reader: &mut R, number: u16) -> Result<Reply, ServeFault>
    requires some { 1 ≤ number }
    requires most { number ≤ 16 }
    ensures { (bytes : List ℕ) × Consumes (R.remaining reader.old) (R.remaining reader.new) bytes
        × MatchResult result (λ reply. IsReply (IsImageReply number) bytes (R.remaining reader.new) reply.found (string_bytes reply.text))
        (IsReplyFault bytes) }
{
    match read_image(alloc, reader)? {
        Ok(image) => reply_about(alloc, &image, number),
        Err(no_image) => Ok(missing(no_image.line)),
    }
}

/// The reply about a header of an image.
fn reply_about(alloc: Global, image: &Image, number: u16) -> Result<Reply, ServeFault>
    requires some { 1 ≤ number }
    requires most { number ≤ 16 }
    ensures ok { IfOk result (λ reply. IsImageReply number image.now reply.found (string_bytes reply.text)) }
    ensures err { IsOkUnless result ServeFault.NoMemory }
{
    let home = match find_home(image) {
        Ok((_, home)) => home,
        Err(fault) => return Ok(missing(refusal_line(alloc, fault.code(), fault.name())?)),
    };
    match header_line(alloc, image, &home, number) {
        Ok(line) => Ok(header_reply(line)?),
        Err(LineFault::NoMemory) => Err(ServeFault::NoMemory),
        Err(fault) => Ok(missing(refusal_line(alloc, fault.code(), fault.name())?)),
    }
}

/// The reply with a header's line.
fn header_reply(mut line: String) -> Result<Reply, AllocError>
    ensures { IfOk result (λ reply. (reply.found ≡ true) × (string_bytes reply.text ≡ string_bytes line ++ 10 ∷ [])) }
{
    line.push('\n')?;
    Ok(Reply {
        found: true,
        text: line,
    })
}

/// The reply with the line of a refusal.
fn missing(text: String) -> Reply
    ensures found { result.found ≡ false }
    ensures text { string_bytes result.text ≡ string_bytes text }
{
    Reply { found: false, text }
}
