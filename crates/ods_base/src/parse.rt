//! Parsing of names.
ghost use Rattle.std.specs.Prelude.{◌≡◌, ◌<◌, ◌≤◌, ℕ, List, length, IfOk, IsOkAnd};
ghost use Rattle.std.specs.Fmt.{decimal};
ghost use Rattle.std.specs.List.{All};
ghost use Rattle.ods_base.specs.{Name.RadName, Name.Spells, Name.IsVersionText, Name.rad50_char, Name.rad50_codes, NameParts.FallsInto, NameParts.IsPart, declared.name.Pick.Pick};

use crate::{Name, NameFault, Pick};
use ods_text::{place_of, read_small};

/// The highest version that a file can have.
pub const LAST_VERSION: u16 = 32_767;

/// Parses a name such as `A.TXT;1`, with the version that it picks. That is a number, the lowest for `;-1`, or the highest for `;0` or no version.
/// Returns a `NameFault` if the text is not a valid name.
pub fn parse_name(text: &[u8]) -> Result<(Name, Pick), NameFault>
    ensures ok { IfOk result (λ found. Spells text.now found.0 found.1) }
    ensures only { (n : RadName) (pick : Pick) → Spells text.now n pick → result ≡ Ok (n, pick) }
{
    let (name, ext, behind) = split(text)?;
    let name: [u8; 9] = part_codes(name)?;
    let ext: [u8; 3] = part_codes(ext)?;
    let words = [
        word_of(&name[..3]),
        word_of(&name[3..6]),
        word_of(&name[6..]),
    ];
    let pick = parse_version(behind)?;
    Ok((Name::new(words, word_of(&ext)), pick))
}

/// The name, the type, and what stands behind them. A `NameFault` where there is no `.`.
fn split(text: &[u8]) -> Result<(&[u8], &[u8], &[u8]), NameFault>
    ensures ok { IfOk result (λ parts. FallsInto text.now parts.0.now parts.1.now parts.2.now) }
    ensures only { (name ext behind : List ℕ) → FallsInto text.now name ext behind → IsOkAnd result (λ parts. (parts.0.now ≡ name) × (parts.1.now ≡ ext) × (parts.2.now ≡ behind)) }
{
    let dot = place_of(b'.', text);
    if dot == text.len() {
        return Err(NameFault);
    }
    let rest = &text[dot + 1..];
    let end = place_of(b';', rest);
    Ok((&text[..dot], &rest[..end], &rest[end..]))
}

/// The codes of a part, the name or the type, with spaces behind those of its characters.
fn part_codes<const N: usize>(part: &[u8]) -> Result<[u8; N], NameFault>
    ensures ok { IfOk result (IsPart part.now N) }
    ensures only { (cs : List ℕ) → IsPart part.now N cs → result ≡ Ok cs }
{
    if part.len() > N || part.ends_with(b"_") {
        return Err(NameFault);
    }
    let mut codes = [0; N];
    for (i, character) in part.iter().enumerate() {
        codes[i] = code_of(*character)?;
    }
    Ok(codes)
}

/// The code of a character; a `_` is a space before a later character.
fn code_of(character: u8) -> Result<u8, NameFault>
    ensures ok { IfOk result (λ c. (c < 40) × (rad50_char c ≡ character)) }
    ensures only { (c : ℕ) → c < 40 → rad50_char c ≡ character → result ≡ Ok c }
{
    match character {
        b'_' => Ok(0),
        b'A'..=b'Z' => Ok(character - b'A' + 1),
        b'$' => Ok(27),
        b'&' => Ok(28),
        b'%' => Ok(29),
        b'0'..=b'9' => Ok(character - b'0' + 30),
        _ => Err(NameFault),
    }
}

/// The word of three codes.
fn word_of(codes: &[u8]) -> u16
    requires three { length codes.now ≡ 3 }
    requires each { All (λ c. c < 40) codes.now }
    ensures word { result < 64000 }
    ensures spells { rad50_codes result ≡ codes.now }
{
    u16::from(codes[0]) * 1600 + u16::from(codes[1]) * 40 + u16::from(codes[2])
}

/// The version that is picked by what stands behind the type.
fn parse_version(text: &[u8]) -> Result<Pick, NameFault>
    ensures ok { IfOk result (λ pick. IsVersionText pick text.now) }
    ensures only { (pick : Pick) → IsVersionText pick text.now → result ≡ Ok pick }
{
    match text {
        [] | b";0" => Ok(Pick::Highest),
        b";-1" => Ok(Pick::Lowest),
        [b';', digits @ ..] => Ok(Pick::Exact(parse_number(digits)?)),
        _ => Err(NameFault),
    }
}

/// The version that the digits spell, from 1 to 32,767, without leading zeros.
fn parse_number(digits: &[u8]) -> Result<u16, NameFault>
    ensures ok { IfOk result (λ version. (1 ≤ version) × (version ≤ 32767) × (digits.now ≡ decimal version)) }
    ensures only { (version : ℕ) → 1 ≤ version → version ≤ 32767 → digits.now ≡ decimal version → result ≡ Ok version }
{
    match read_small(digits) {
        Some(version) if 1 <= version && version <= LAST_VERSION => Ok(version),
        _ => Err(NameFault),
    }
}
