//! Host names and words, as messages print them.
ghost use Rattle.std.specs.Prelude.{◌≡◌, Some};
ghost use Rattle.std.specs.Fmt.{WritesOnOk};
ghost use Rattle.fs_host.specs.Texts.{reorders, shown_letter, shown_text};

use std::fmt;
use std::fmt::{Display, Formatter};

/// A text whose control characters are printed as `\x1b`, so that none reaches a terminal. So are characters that reorder the text after them.
#[derive(Clone, Copy, Debug)]
pub struct Shown<'a>(pub &'a str);

impl Display for Shown<'_> {
    ghost output = { λ shown. Some (shown_text shown.0.now) };

    fn fmt<W: fmt::Write>(&self, f: &mut Formatter<W>) -> fmt::Result {
        write_text(f, self.0)
    }
}

/// Writes a text, with its control characters as numbers.
fn write_text<W: fmt::Write>(f: &mut Formatter<W>, text: &str) -> fmt::Result
    ensures { WritesOnOk W.write_str_gives f.old result (shown_text text.now) f.new }
{
    for letter in text.chars() {
        write_letter(f, letter)?;
    }
    Ok(())
}

/// Writes a letter, a control character or one that reorders text as its number.
fn write_letter<W: fmt::Write>(f: &mut Formatter<W>, letter: char) -> fmt::Result
    ensures { WritesOnOk W.write_str_gives f.old result (shown_letter letter) f.new }
{
    if letter.is_control() || reorders(letter) {
        write!(f, "\\x{:02x}", u32::from(letter))
    } else {
        f.write_char(letter)
    }
}

/// Whether a letter reorders the text after it: a control of Unicode's bidirectional algorithm.
fn reorders(letter: char) -> bool
    ensures { result ≡ reorders letter }
{
    matches!(u32::from(letter), 1564 | 8206..=8207 | 8234..=8238 | 8294..=8297)
}
