//! Numbers in octal.
ghost use Rattle.std.specs.Prelude.{◌≡◌, ◌-◌, ◌≤◌, ◌↔◌, ℕ, length, IsTrue};
ghost use Rattle.std.specs.List.{All};
ghost use Rattle.ods_text.specs.One.{IsTheOne};
ghost use Rattle.ods_text.specs.Numbers.{IsOctal, octal_value as value_of_octal};

/// Parses an octal number of one to three digits, at most 377. Returns `None` if the text is not such a number.
pub fn read_octal(text: &[u8]) -> Option<u8>
    ensures { IsTheOne (IsOctal text.now) result }
{
    if text.is_empty() || text.len() > 3 || !are_octal(text) {
        return None;
    }
    let value = octal_value(text);
    if value > 255 {
        return None;
    }
    Some(value as u8)
}

fn are_octal(text: &[u8]) -> bool
    ensures { IsTrue result ↔ All (λ c. (48 ≤ c) × (c ≤ 55)) text.now }
{
    text.iter().all(|c| 48 <= *c && *c <= 55)
}

/// The value of up to three octal digits.
fn octal_value(text: &[u8]) -> u16
    requires some { 1 ≤ length text.now }
    requires few { length text.now ≤ 3 }
    requires digits { All (λ c. (48 ≤ c) × (c ≤ 55)) text.now }
    ensures { result ≡ value_of_octal 0 text.now }
{
    if text.len() == 1 {
        return digit(text[0]);
    }
    if text.len() == 2 {
        return digit(text[0]) * 8 + digit(text[1]);
    }
    (digit(text[0]) * 8 + digit(text[1])) * 8 + digit(text[2])
}

fn digit(character: u8) -> u16
    requires low { 48 ≤ character }
    requires high { character ≤ 55 }
    ensures value { result ≡ character - 48 }
{
    u16::from(character - 48)
}
