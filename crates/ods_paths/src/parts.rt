//! The texts before a path, and the meaning of its last part.
ghost use Rattle.std.specs.Prelude.{◌≡◌};
ghost use Rattle.std.specs.List.{list_all, list_any};
ghost use Rattle.ods_text.specs.Cuts.{is};
ghost use Rattle.ods_paths.specs.{Numbers.is_octal_digit, Paths.is_device, Paths.is_letter, Paths.names_directory, Paths.past_device, Paths.past_slash, Paths.begins_slash, Paths.begins_version};

use crate::has_wildcard;
use ods_text::cut_at;

/// Returns the text after a leading device and its `:`, such as `DK0:`.
pub(crate) fn past_device(text: &[u8]) -> &[u8]
    ensures { result.now ≡ past_device text.now }
{
    if let Some((front, behind)) = cut_at(b':', text) {
        if is_device(front) {
            return behind;
        }
    }
    text
}

/// Whether the text is two letters and at most three octal digits.
fn is_device(text: &[u8]) -> bool
    ensures { result ≡ is_device text.now }
{
    let Some((first, rest)) = text.split_first() else {
        return false;
    };
    let Some((second, digits)) = rest.split_first() else {
        return false;
    };
    is_letter(*first) && is_letter(*second) && digits.len() <= 3 && are_octal(digits)
}

/// Whether the text has octal digits alone.
fn are_octal(text: &[u8]) -> bool
    ensures { result ≡ list_all is_octal_digit text.now }
{
    text.iter().all(|c| is_octal_digit(*c))
}

fn is_octal_digit(c: u8) -> bool
    ensures { result ≡ is_octal_digit c }
{
    b'0' <= c && c <= b'7'
}

/// Whether the character is a letter, of either case.
fn is_letter(c: u8) -> bool
    ensures { result ≡ is_letter c }
{
    matches!(c, b'A'..=b'Z' | b'a'..=b'z')
}

/// Returns the text after one leading `/`. If a second `/` follows the first, the text is unchanged.
pub(crate) fn past_slash(text: &[u8]) -> &[u8]
    ensures { result.now ≡ past_slash text.now }
{
    let Some((first, behind)) = text.split_first() else {
        return text;
    };
    if *first == b'/' && !begins_slash(behind) {
        return behind;
    }
    text
}

/// Whether the text begins with `/`.
fn begins_slash(text: &[u8]) -> bool
    ensures { result ≡ begins_slash text.now }
{
    match text.split_first() {
        Some((first, _)) => *first == b'/',
        None => false,
    }
}

/// Returns whether the last part of a path is one more directory, and selects no files.
pub(crate) fn names_directory(text: &[u8]) -> bool
    ensures { result ≡ names_directory text.now }
{
    1 <= text.len()
        && !has_dot(text)
        && !has_version(text)
        && (!has_wildcard(text) || has_comma(text))
}

fn has_dot(text: &[u8]) -> bool
    ensures { result ≡ list_any (is 46) text.now }
{
    text.iter().any(|c| *c == b'.')
}

fn has_comma(text: &[u8]) -> bool
    ensures { result ≡ list_any (is 44) text.now }
{
    text.iter().any(|c| *c == b',')
}

/// Whether there is a `;` or a `:`.
fn has_version(text: &[u8]) -> bool
    ensures { result ≡ list_any begins_version text.now }
{
    text.iter().any(|c| *c == b';' || *c == b':')
}
