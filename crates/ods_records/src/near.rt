//! Texts that records would keep unchanged except for one defect, and that defect.
ghost use Rattle.std.specs.Prelude.{◌≡◌, ◌↔◌, ◌⊎◌, ◌==◌, ◌<◌, ℕ, length, slice_index, take, IsTrue, IfSome, IfNone, MatchOption};
ghost use Rattle.std.specs.List.{count_by};
ghost use Rattle.ods_records.specs.declared.near.NearText.{NearText as Near};
ghost use Rattle.ods_records.specs.Near.{IsEnded, IsShort, LacksCrLf, IsFirstCrLf, LacksOdd, IsFirstOdd, IsNear, line_of as line_with};
ghost use Rattle.ods_records.specs.Lines.{is_text_byte};

use crate::sized::is_cr_lf;
use crate::texts::{ends_with_lf, has_short_lines, may_stand};
use thiserror::Error;

/// The only defect that prevents bytes from being put as a text. A line is counted from 1.
#[derive(Clone, Copy, Debug, PartialEq, Eq, Error)]
pub enum NearText {
    /// The last line does not end with LF.
    #[error("the last line has no LF")]
    NoLastLf,
    /// The number of the first line that ends with CR LF.
    #[error("line {0} ends with CR LF")]
    CrLf(usize),
    /// A line has more than 32,767 bytes.
    #[error("a line has more than 32767 bytes")]
    LongLine,
    /// The number of the first line with such a byte, and the byte.
    #[error("line {0} has the byte {1}")]
    OddByte(usize, u8),
}

/// Returns the defect of these bytes, if they have exactly one defect as a text that records keep unchanged. The defects are: the last line has no
/// LF, a line ends with CR LF, a line has more than 32,767 bytes, or a byte is not 7 to 13, 27 or 32 to 126. It returns `None` for no defect, and for
/// more than one.
pub fn why_no_text(text: &[u8]) -> Option<NearText>
    ensures some { IfSome result (IsNear text.now) }
    ensures none { IfNone result ((near : Near) → ¬ IsNear text.now near) }
{
    match (first_cr_lf(text), first_odd(text)) {
        (None, None) => missing_shape(text),
        (Some(at), None) if is_shaped(text) => Some(NearText::CrLf(line_of(text, at))),
        (None, Some(at)) if is_shaped(text) => Some(NearText::OddByte(line_of(text, at), text[at])),
        _ => None,
    }
}

/// Whether a text is empty or ends with LF, and no line is too long.
fn is_shaped(text: &[u8]) -> bool
    ensures { IsTrue result ↔ (IsEnded text.now × IsShort text.now) }
{
    ends_with_lf(text) && has_short_lines(text)
}

/// The first place of CR LF.
fn first_cr_lf(text: &[u8]) -> Option<usize>
    ensures found { MatchOption result (LacksCrLf text.now) (IsFirstCrLf text.now) }
    ensures inside { IfSome result (λ at. at < length text.now) }
{
    for at in 0..text.len() {
        if is_cr_lf(text, at) {
            return Some(at);
        }
    }
    None
}

/// The first place of a byte that may stand in no text.
fn first_odd(text: &[u8]) -> Option<usize>
    ensures found { MatchOption result (LacksOdd text.now) (IsFirstOdd text.now) }
    ensures inside { IfSome result (λ at. at < length text.now) }
{
    for at in 0..text.len() {
        if !may_stand(text[at]) {
            return Some(at);
        }
    }
    None
}

/// The number of the line in which this place is.
fn line_of(text: &[u8], at: usize) -> usize
    requires { at < length text.now }
    ensures { result ≡ line_with text.now at }
{
    let mut count = 0;
    for k in 0..at {
        if text[k] == b'\n' {
            count += 1;
        }
    }
    count + 1
}

/// Which one of two a text lacks: an LF at its end, or lines that are short enough.
fn missing_shape(text: &[u8]) -> Option<NearText>
    ensures some { IfSome result (λ near. ((near ≡ Near.NoLastLf) × (¬ IsEnded text.now) × IsShort text.now) ⊎ ((near ≡ Near.LongLine) × IsEnded text.now × (¬ IsShort text.now))) }
    ensures none { IfNone result ((¬ (IsEnded text.now × (¬ IsShort text.now))) × (¬ ((¬ IsEnded text.now) × IsShort text.now))) }
{
    let ended = ends_with_lf(text);
    let short = has_short_lines(text);
    if ended == short {
        return None;
    }
    if ended {
        Some(NearText::LongLine)
    } else {
        Some(NearText::NoLastLf)
    }
}
