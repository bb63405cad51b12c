//! The tests whether bytes are a text, and whether records keep a text unchanged.
ghost use Rattle.std.specs.Prelude.{◌≡◌, ◌≢◌, ◌↔◌, ℕ, ◌+◌, ◌-◌, ◌<◌, ◌≤◌, length, slice_index, IsTrue};
ghost use Rattle.std.specs.List.{All, list_all};
ghost use Rattle.std.specs.Str.Lines.{lines};
ghost use Rattle.ods_records.specs.Lines.{is_text_byte, IsPlainText};

use crate::lines::first_line;
use crate::reading::LONGEST;

/// Returns whether each byte is valid in a text: 7 to 13 (BEL to CR), 27 (ESC), and 32 to 126.
pub fn is_text(bytes: &[u8]) -> bool
    ensures { result ≡ list_all is_text_byte bytes.now }
{
    bytes.iter().all(|b| matches!(*b, 7..=13 | 27 | 32..=126))
}

/// Returns whether this byte is valid in a text.
pub(crate) fn may_stand(byte: u8) -> bool
    ensures { result ≡ is_text_byte byte }
{
    matches!(byte, 7..=13 | 27 | 32..=126)
}

/// Returns whether a text that is written as records is read unchanged. It is empty or ends with LF, no CR is directly before an LF, and no line has
/// more than 32,767 bytes.
pub fn is_plain_text(text: &[u8]) -> bool
    ensures { IsTrue result ↔ IsPlainText text.now }
{
    ends_with_lf(text) && has_no_cr_before_lf(text) && has_short_lines(text)
}

/// Returns whether a text is empty or ends with LF.
pub(crate) fn ends_with_lf(text: &[u8]) -> bool
    ensures { IsTrue result ↔ (0 < length text.now → slice_index text.now (length text.now - 1) ≡ 10) }
{
    text.is_empty() || text[text.len() - 1] == b'\n'
}

/// Whether no CR stands directly before an LF.
fn has_no_cr_before_lf(text: &[u8]) -> bool
    ensures { IsTrue result ↔ ((i : ℕ) → slice_index text.now i ≡ 13 → slice_index text.now (i + 1) ≢ 10) }
{
    for at in 1..text.len() {
        if text[at - 1] == b'\r' && text[at] == b'\n' {
            return false;
        }
    }
    true
}

/// Returns whether no line has more than 32,767 bytes.
pub(crate) fn has_short_lines(text: &[u8]) -> bool
    ensures { IsTrue result ↔ All (λ line. length line ≤ 32767) (lines text.now) }
{
    let mut rest = text;
    while !rest.is_empty() {
        let (line, behind) = first_line(rest);
        if line.len() > LONGEST {
            return false;
        }
        rest = behind;
    }
    true
}
