//! Groups and members, in octal.
ghost use Rattle.std.specs.Prelude.{◌≡◌, ℕ, MatchOption};
ghost use Rattle.std.specs.List.{before_first, after_first};
ghost use Rattle.ods_text.specs.Cuts.{is};
ghost use Rattle.ods_paths.specs.Numbers.{choice_of, IsNumberedName};

use ods_text::{cut_at, is_text, read_octal};

/// Returns the text before the first `byte`, and the text after it. If there is no such byte, returns the whole text and an empty text.
pub(crate) fn cut_first(byte: u8, text: &[u8]) -> (&[u8], &[u8])
    ensures { (result.0.now ≡ before_first (is byte) text.now) × (result.1.now ≡ after_first (is byte) text.now) }
{
    match cut_at(byte, text) {
        Some(parts) => parts,
        None => (text, &text[text.len()..]),
    }
}

/// Reads a group or a member: `Some(Some(n))` for one, `Some(None)` for all, and `None` for any other text.
pub(crate) fn read_choice(text: &[u8]) -> Option<Option<u8>>
    ensures { result ≡ choice_of text.now }
{
    if is_text(text, b"*") {
        return Some(None);
    }
    match read_octal(text) {
        Some(value) => Some(Some(value)),
        None => None,
    }
}

/// Returns the group and the member in the name of a directory, such as `001002`. Returns `None` for every other name.
/// The group and the member have three octal digits each, and are at most octal 377.
pub fn numbered_name(name: &[u8]) -> Option<(u8, u8)>
    ensures { MatchOption result ((group member : ℕ) → IsNumberedName name.now group member → ⊥) (λ n. IsNumberedName name.now n.0 n.1) }
{
    if name.len() != 6 {
        return None;
    }
    let Some(group) = read_octal(&name[..3]) else {
        return None;
    };
    let Some(member) = read_octal(&name[3..]) else {
        return None;
    };
    Some((group, member))
}
