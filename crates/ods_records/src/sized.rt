//! Records of one size as lines, and streams as texts.
ghost use Rattle.std.specs.Prelude.{◌≡◌, ◌+◌, ◌^◌, ◌<◌, ◌&&◌, ◌==◌, ℕ, List, length, slice_index, take, drop, IfOk};
ghost use Rattle.ods_records.specs.{Records.text_of, Sized.next_line as line_behind, Sized.LinesFrom, Sized.without_cr};

use std::alloc::{AllocError, Global};

/// Returns the text of a file with records of one size: each record, followed by LF. A short last record is a line too. If `blocked`, a record that
/// would cross the end of a block begins in the next block. It fails only when out of memory.
pub fn fixed_to_text(
    alloc: Global,
    size: u16,
    blocked: bool,
    bytes: &[u8],
) -> Result<Vec<u8>, AllocError>
    requires { 0 < size }
    ensures { IfOk result (λ text. (lines : List (List ℕ)) × LinesFrom blocked size bytes.now 0 lines × (text.items ≡ text_of lines)) }
{
    let mut text = Vec::new(alloc);
    let mut at = 0;
    while at < bytes.len() {
        text.extend_from_slice(line_at(bytes, at, size))?;
        text.push(b'\n')?;
        at = next_line(blocked, size, at);
    }
    Ok(text)
}

/// The line at a place.
fn line_at(bytes: &[u8], at: usize, size: u16) -> &[u8]
    requires { at < length bytes.now }
    ensures { result.now ≡ take size (drop at bytes.now) }
{
    let rest = &bytes[at..];
    &rest[..rest.len().min(usize::from(size))]
}

/// Where the line behind the one at this place begins.
fn next_line(blocked: bool, size: u16, at: usize) -> usize
    requires small { at + 65536 < 2 ^ 64 }
    requires some { 0 < size }
    ensures value { result ≡ line_behind blocked size at }
    ensures further { at < result }
{
    let size = usize::from(size);
    if blocked && 513 <= at % 512 + 2 * size {
        return 512 * (at / 512 + 1);
    }
    at + size
}

/// Returns the text of a stream: the bytes, with CR LF as LF. It fails only when out of memory.
pub fn stream_to_text(alloc: Global, bytes: &[u8]) -> Result<Vec<u8>, AllocError>
    ensures { IfOk result (λ text. text.items ≡ without_cr bytes.now) }
{
    let mut text = Vec::new(alloc);
    for at in 0..bytes.len() {
        if !is_cr_lf(bytes, at) {
            text.push(bytes[at])?;
        }
    }
    Ok(text)
}

/// Returns whether CR LF is at an offset.
pub(crate) fn is_cr_lf(bytes: &[u8], at: usize) -> bool
    requires { at < length bytes.now }
    ensures { result ≡ ((slice_index bytes.now at == 13) && (slice_index bytes.now (at + 1) == 10)) }
{
    bytes[at] == b'\r' && at + 1 < bytes.len() && bytes[at + 1] == b'\n'
}
