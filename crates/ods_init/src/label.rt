//! Labels of volumes.
ghost use Rattle.std.specs.Prelude.{◌≡◌, IsTrue, length, SomeIff};
ghost use Rattle.std.specs.List.{list_all};
ghost use Rattle.ods_init.specs.Label.{is_label_character, is_label_text, label_of, zero_padded, IsLabel};

use std::marker::Model;

/// The label of a volume: 1 to 12 characters of A to Z, 0 to 9 and dots, padded with spaces to 12.
#[derive(Clone, Copy, Debug, PartialEq, Eq)]
pub struct Label {
    text: [u8; 12],
}

impl Model for Label {
    ghost use Rattle.std.specs.Prelude.{List, ℕ};
    ghost use Rattle.ods_init.specs.Label.{IsLabel};

    ghost Value = { List ℕ };

    ghost view = { λ l. l.text };

    ghost invariant = { λ l. IsLabel l.text };

    ghost inverse = { λ text. record { text = text } };
}

impl Label {
    /// Parses a text of 1 to 12 letters, digits and dots into a label. Small letters become capitals. Any other text gives `None`.
    pub fn parse(text: &str) -> Option<Label>
        ensures { SomeIff result (IsTrue (is_label_text text.now)) (label_of text.now) }
    {
        let given = text.as_bytes();
        let count = given.len();
        if count == 0 || count > 12 || !are_label_characters(given) {
            return None;
        }
        let mut own = [b' '; 12];
        for i in 0..count {
            own[i] = given[i].to_ascii_uppercase();
        }
        Some(Label { text: own })
    }

    /// Returns the 12 characters.
    pub fn text(&self) -> &[u8; 12]
        ensures value { result.now ≡ self.now }
        ensures label { IsLabel self.now }
    {
        &self.text
    }

    /// Returns the characters, with zero bytes in place of the trailing spaces.
    pub(crate) fn zero_padded(&self) -> [u8; 12]
        ensures { result ≡ zero_padded self.now }
    {
        self.text.map(|c| if c == b' ' { 0 } else { c })
    }
}

/// Whether each character may stand in a label.
fn are_label_characters(text: &[u8]) -> bool
    ensures { result ≡ list_all is_label_character text.now }
{
    text.iter().all(|c| c.is_ascii_alphanumeric() || *c == b'.')
}
