//! The form of a file in words: `variable,cr,80`, by the first four bytes of its attributes.
ghost use Rattle.std.specs.Prelude.{◌≡◌};
ghost use Rattle.ods_text.specs.One.{IsTheOne};
ghost use Rattle.ods_text.specs.Cuts.{IsPair};
ghost use Rattle.ods_records.specs.Forms.{same as same_bytes, kind_said, control_said, IsKind, IsControl, IsSize, IsForm};

use crate::attributes::word_bytes;
use ods_text::{cut_at, read_small};
use std::fmt;

/// The greatest F.RSIZ.
const MOST: u16 = 32_767;

/// Parses a form `KIND,CONTROL,SIZE` into the first four bytes of the attributes of a file. KIND is undefined, fixed, variable, sequenced or stream.
/// CONTROL is none, ftn, cr or print, each optionally followed by `+blk`. SIZE is F.RSIZ, at most 32,767. Any other text gives `None`.
pub fn parse_form(text: &[u8]) -> Option<[u8; 4]>
    ensures { IsTheOne (IsForm text.now) result }
{
    let Some((kind, (control, size))) = read_parts(text) else {
        return None;
    };
    let [low, high] = word_bytes(u64::from(size));
    Some([kind, control, low, high])
}

/// Kind, control and size, with commas between them.
fn read_parts(text: &[u8]) -> Option<(u8, (u8, u16))>
    ensures { IsTheOne (IsPair 44 IsKind (IsPair 44 IsControl IsSize) text.now) result }
{
    let (front, back) = cut_at(b',', text)?;
    let kind = read_kind(front)?;
    let rest = read_rest(back)?;
    Some((kind, rest))
}

/// Control and size, with a comma between them.
fn read_rest(text: &[u8]) -> Option<(u8, u16)>
    ensures { IsTheOne (IsPair 44 IsControl IsSize text.now) result }
{
    let (front, back) = cut_at(b',', text)?;
    let control = read_control(front)?;
    let size = read_size(back)?;
    Some((control, size))
}

/// F.RTYP by its word.
fn read_kind(text: &[u8]) -> Option<u8>
    ensures { result ≡ kind_said text.now }
{
    if is_same(text, b"undefined") {
        return Some(0);
    }
    if is_same(text, b"fixed") {
        return Some(1);
    }
    if is_same(text, b"variable") {
        return Some(2);
    }
    if is_same(text, b"sequenced") {
        return Some(3);
    }
    if is_same(text, b"stream") {
        return Some(4);
    }
    None
}

/// F.RATT by its words.
fn read_control(text: &[u8]) -> Option<u8>
    ensures { result ≡ control_said text.now }
{
    if is_same(text, b"none") {
        return Some(0);
    }
    if is_same(text, b"ftn") {
        return Some(1);
    }
    if is_same(text, b"cr") {
        return Some(2);
    }
    if is_same(text, b"print") {
        return Some(4);
    }
    if is_same(text, b"none+blk") {
        return Some(8);
    }
    if is_same(text, b"ftn+blk") {
        return Some(9);
    }
    if is_same(text, b"cr+blk") {
        return Some(10);
    }
    if is_same(text, b"print+blk") {
        return Some(12);
    }
    None
}

/// Whether these are the same bytes.
fn is_same(text: &[u8], word: &[u8]) -> bool
    ensures { result ≡ same_bytes text.now word.now }
{
    text == word
}

/// F.RSIZ by its digits.
fn read_size(digits: &[u8]) -> Option<u16>
    ensures { IsTheOne (IsSize digits.now) result }
{
    let Some(size) = read_small(digits) else {
        return None;
    };
    if size > MOST {
        return None;
    }
    Some(size)
}

/// The form of a file in words, as [`parse_form`] reads it, if it reads this form.
#[derive(Clone, Copy)]
pub struct FormWords {
    form: [u8; 4],
}

/// Returns the form of the first four bytes of attributes, in words. No clause states the printed words.
pub fn print_form(form: &[u8; 4]) -> FormWords {
    FormWords { form: *form }
}

impl fmt::Display for FormWords {
    fn fmt<W: fmt::Write>(&self, f: &mut fmt::Formatter<W>) -> fmt::Result {
        let kind = kind_word(self.form[0]);
        let control = control_word(self.form[1]);
        let blocks = if self.form[1] / 8 % 2 == 1 {
            "+blk"
        } else {
            ""
        };
        let size = u16::from_le_bytes([self.form[2], self.form[3]]);
        write!(f, "{kind},{control}{blocks},{size}")
    }
}

/// The word of F.RTYP.
fn kind_word(kind: u8) -> &'static str {
    match kind % 16 {
        1 => "fixed",
        2 => "variable",
        3 => "sequenced",
        4 | 5 | 6 => "stream",
        _ => "undefined",
    }
}

/// The word of the three lowest bits of F.RATT.
fn control_word(control: u8) -> &'static str {
    if control % 2 == 1 {
        "ftn"
    } else if control / 2 % 2 == 1 {
        "cr"
    } else if control / 4 % 2 == 1 {
        "print"
    } else {
        "none"
    }
}
