//! The characters of names and of patterns.
ghost use Rattle.std.specs.Prelude.{◌≡◌, ◌↔◌, IsTrue, ◌≤◌, count_by, not, ◌==◌};
ghost use Rattle.std.specs.List.{AllPass, list_all};
ghost use Rattle.ods_paths.specs.Patterns.{is_name_char as name_char, is_wildcard as wildcard, has_wildcard as wild, IsPattern};

/// Returns whether the text is a pattern for a name or a type of at most `most` characters.
pub fn is_pattern(most: usize, text: &[u8]) -> bool
    ensures { IsTrue result ↔ IsPattern most text.now }
{
    text.iter().all(|c| is_name_char(*c) || is_wildcard(*c))
        && text.iter().filter(|c| **c != b'*').count() <= most
        && !text.ends_with(b"_")
}

/// Returns whether the text has a `*` or a `?`.
pub fn has_wildcard(text: &[u8]) -> bool
    ensures { result ≡ wild text.now }
{
    text.iter().any(|c| is_wildcard(*c))
}

/// Whether names have the character, in either case.
fn is_name_char(c: u8) -> bool
    ensures { result ≡ name_char c }
{
    matches!(c, b'A'..=b'Z' | b'a'..=b'z' | b'0'..=b'9' | b'$' | b'%' | b'&' | b'_')
}

fn is_wildcard(c: u8) -> bool
    ensures { result ≡ wildcard c }
{
    c == b'*' || c == b'?'
}
