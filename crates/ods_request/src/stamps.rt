//! Stamps: the date and time of a new file.
ghost use Rattle.std.specs.Prelude.{◌≡◌, SomeIff, IsTrue};
ghost use Rattle.std.specs.List.{list_all};
ghost use Rattle.std.specs.Char.{is_ascii_digit};
ghost use Rattle.ods_request.specs.Stamps.{is_stamp, is_capital};

use std::marker::Model;

/// A date and time as thirteen characters, `DDMMMYYHHMMSS`. All are digits except the three capital letters of the month. The date is not checked
/// against a calendar. A contract sees the characters.
#[derive(Clone, Copy, PartialEq, Eq, Debug)]
pub struct Stamp {
    text: [u8; 13],
}

impl Model for Stamp {
    ghost use Rattle.std.specs.Prelude.{ℕ, List, IsTrue};
    ghost use Rattle.ods_request.specs.Stamps.{is_stamp};

    ghost Value = { List ℕ };

    ghost view = { λ s. s.text };

    ghost invariant = { λ s. IsTrue (is_stamp s.text) };

    ghost inverse = { λ v. record { text = v } };
}

/// Whether each character is a digit.
fn all_digits(text: &[u8]) -> bool
    ensures { result ≡ list_all is_ascii_digit text.now }
{
    text.iter().all(|c| c.is_ascii_digit())
}

/// Whether each character is a letter from A to Z.
fn all_capitals(text: &[u8]) -> bool
    ensures { result ≡ list_all is_capital text.now }
{
    text.iter().all(|c| c.is_ascii_uppercase())
}

impl Stamp {
    /// Parses a stamp: two digits, three capital letters, and eight digits. Returns `None` if the text is not a valid stamp.
    pub fn parse(text: &[u8]) -> Option<Stamp>
        ensures { SomeIff result (IsTrue (is_stamp text.now)) text.now }
    {
        if text.len() != 13 {
            return None;
        }
        if all_digits(&text[..2]) && all_capitals(&text[2..5]) && all_digits(&text[5..]) {
            let mut own = [0; 13];
            own.copy_from_slice(text);
            Some(Stamp { text: own })
        } else {
            None
        }
    }

    /// Returns the characters.
    pub fn text(&self) -> &[u8; 13]
        ensures value { result.now ≡ self.now }
        ensures stamp { IsTrue (is_stamp self.now) }
    {
        &self.text
    }
}
