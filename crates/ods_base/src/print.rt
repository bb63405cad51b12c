//! Printing of names.
ghost use Rattle.std.specs.Prelude.{◌≡◌, ◌+◌, ◌-◌, ◌≤◌, ◌==◌, ◌++◌, length, take, slice_index};
ghost use Rattle.std.specs.List.{suffix_len};
ghost use Rattle.arrayvec.specs.ArrayString.{array_string_len};
ghost use Rattle.ods_base.specs.Name.{rad50_codes, rad50_char, part_text, title, type_text, name_version_text};

use crate::Name;
use arrayvec::ArrayString;
use itoa::Buffer;

/// Returns the text of a name with its version, such as `A.TXT;1`: at most 19 characters.
pub fn print_name(name: &Name, version: u16) -> ArrayString<19>
    ensures { result.bytes ≡ name_version_text name.now version }
{
    print_words(name.words(), name.ext(), version)
}

/// Returns the text of a name without its type, such as `A`: at most nine characters.
pub fn print_title(name: &Name) -> ArrayString<9>
    ensures { result.bytes ≡ title name.now }
{
    let mut text = ArrayString::new();
    push_part(&mut text, &name_codes(name.words()));
    text
}

/// Returns the text of the type of a name, such as `TXT`: at most three characters.
pub fn print_type(name: &Name) -> ArrayString<3>
    ensures { result.bytes ≡ type_text name.now }
{
    let mut text = ArrayString::new();
    push_part(&mut text, &codes_of(name.ext()));
    text
}

/// Returns the text of unchecked name words with a version. A word of 64,000 or more spells no characters and is printed as `???`.
pub fn print_words(words: [u16; 3], ext: u16, version: u16) -> ArrayString<19>
    ensures { result.bytes ≡ name_version_text (record { words = words; ext = ext }) version }
{
    let mut text = ArrayString::new();
    push_part(&mut text, &name_codes(words));
    text.push('.');
    push_part(&mut text, &codes_of(ext));
    text.push(';');
    text.push_str(Buffer::new().format(version));
    text
}

/// The nine codes of the name words.
fn name_codes(words: [u16; 3]) -> [u8; 9]
    ensures { result ≡ rad50_codes (slice_index words 0) ++ rad50_codes (slice_index words 1) ++ rad50_codes (slice_index words 2) }
{
    let [a, b, c] = codes_of(words[0]);
    let [d, e, f] = codes_of(words[1]);
    let [g, h, i] = codes_of(words[2]);
    [a, b, c, d, e, f, g, h, i]
}

/// The three codes of a word; those of a word of 64,000 or more are no codes of characters.
fn codes_of(word: u16) -> [u8; 3]
    ensures { result ≡ rad50_codes word }
{
    if word < 64_000 {
        [
            (word / 1600) as u8,
            (word / 40 % 40) as u8,
            (word % 40) as u8,
        ]
    } else {
        [40, 40, 40]
    }
}

/// Appends the text of a part, the name or the type, from its codes.
fn push_part<const ROOM: usize>(text: &mut ArrayString<ROOM>, codes: &[u8])
    requires { array_string_len text.old + length codes.now ≤ ROOM }
    ensures { text.new.bytes ≡ text.old.bytes ++ part_text codes.now }
{
    for code in without_spaces(codes) {
        text.push(char_of(*code));
    }
}

/// The codes without the spaces at their end.
fn without_spaces(codes: &[u8]) -> &[u8]
    ensures { result.now ≡ take (length codes.now - suffix_len (λ c. c == 0) codes.now) codes.now }
{
    let mut kept = codes.len();
    while kept > 0 && codes[kept - 1] == 0 {
        kept -= 1;
    }
    &codes[..kept]
}

/// The character of a code, and `?` for what is no code.
fn char_of(code: u8) -> char
    ensures { result ≡ rad50_char code }
{
    match code {
        0 => '_',
        1..=26 => char::from(b'A' - 1 + code),
        27 => '$',
        28 => '&',
        29 => '%',
        30..=39 => char::from(b'0' - 30 + code),
        _ => '?',
    }
}
