//! Comparing texts, and splitting them at a byte.
ghost use Rattle.std.specs.Prelude.{◌≡◌, ◌↔◌, IsTrue, MatchOption};
ghost use Rattle.std.specs.List.{before_first, after_first, before_last, after_last};
ghost use Rattle.ods_text.specs.Cuts.{is, IsFirst, Has, Lacks, cut_of};

/// Returns whether the bytes equal `text`.
pub fn is_text(bytes: &[u8], text: &[u8]) -> bool
    ensures { IsTrue result ↔ (bytes.now ≡ text.now) }
{
    bytes == text
}

/// Returns the index of the first `byte`, or the length of the text if it has none.
pub fn place_of(byte: u8, text: &[u8]) -> usize
    ensures { IsFirst (is byte) text.now result }
{
    text.iter().position(|b| *b == byte).unwrap_or(text.len())
}

/// Returns whether the text contains the byte.
pub fn has_byte(byte: u8, text: &[u8]) -> bool
    ensures { IsTrue result ↔ Has byte text.now }
{
    place_of(byte, text) < text.len()
}

/// Splits the text at the first `byte`, which neither part keeps. Returns `None` if the text does not contain the byte.
pub fn cut_at(byte: u8, text: &[u8]) -> Option<(&[u8], &[u8])>
    ensures place { MatchOption result (Lacks byte text.now) (λ p. Has byte text.now
        × (p.0.now ≡ before_first (is byte) text.now) × (p.1.now ≡ after_first (is byte) text.now)) }
    ensures cut { MatchOption result (cut_of byte text.now ≡ None) (λ p. cut_of byte text.now ≡ Some (p.0.now, p.1.now)) }
{
    let place = place_of(byte, text);
    if place == text.len() {
        return None;
    }
    Some((&text[..place], &text[place + 1..]))
}

/// Splits the text at the last `byte`, which neither part keeps. If the text does not contain the byte, the first part is empty and the second is the
/// whole text.
pub fn cut_last(byte: u8, text: &[u8]) -> (&[u8], &[u8])
    ensures { (result.0.now ≡ before_last (is byte) text.now) × (result.1.now ≡ after_last (is byte) text.now) }
{
    let mut kept = text.len();
    while kept > 0 && text[kept - 1] != byte {
        kept -= 1;
    }
    (&text[..kept.saturating_sub(1)], &text[kept..])
}
