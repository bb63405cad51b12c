//! The printable texts of paths, owners, protection words and dates.
ghost use Rattle.std.specs.Prelude.{◌≡◌, ◌+◌, ◌<◌, ◌≤◌, ◌==◌, if◌then◌else◌, [], ◌++◌, OnOk, length, map};
ghost use Rattle.std.specs.List.{flat_map};
ghost use Rattle.std.specs.String.{string_bytes};
ghost use Rattle.arrayvec.specs.ArrayString.{array_string_len};
ghost use Rattle.ods_base.specs.Name.{title as title_of};
ghost use Rattle.ods_files.specs.Body.{are_zeros as all_zeros};
ghost use Rattle.ods_shell.specs.Texts.{class_rights, dotted, shown_byte, shown_date, shown_directory, shown_id, shown_inner, shown_numbers, shown_one, shown_path, shown_rights, shown_user};

use arrayvec::ArrayString;
use ods_base::{FileId, Listed, Name, Uic, print_name, print_title};
use ods_paths::numbered_name;
use std::alloc::AllocError;

/// Appends a directory as in a path: `[0,0]` for the master directory, `[g,m]` for a group and a member, otherwise the names with dots between
/// them. Another directory named 000000.DIR has no path of its own, since `[000000]` is the master directory. It is shown as `[0,0.000000]`, which
/// is not a valid path.
pub fn push_directory(text: &mut String, names: &[Name]) -> Result<(), AllocError>
    ensures { OnOk result (string_bytes text.new ≡ string_bytes text.old ++ shown_directory names.now) }
{
    text.push_str("[")?;
    push_inner(text, names)?;
    text.push_str("]")
}

/// Appends what stands between the brackets.
fn push_inner(text: &mut String, names: &[Name]) -> Result<(), AllocError>
    ensures { OnOk result (string_bytes text.new ≡ string_bytes text.old ++ shown_inner names.now) }
{
    let Some((first, rest)) = names.split_first() else {
        return text.push_str("0,0");
    };
    if rest.is_empty() {
        push_directory_name(text, first)
    } else {
        text.push_str(print_title(first).as_str())?;
        push_names(text, rest)
    }
}

/// Appends the name of a directory as in a path of the master directory: `1,2` for a group and a member, otherwise the name.
#[tactic(auto, using(crate::proofs::Numbered::shown_by_numbers, crate::proofs::Numbered::shown_by_name))]
pub fn push_directory_name(text: &mut String, name: &Name) -> Result<(), AllocError>
    ensures { OnOk result (string_bytes text.new ≡ string_bytes text.old ++ shown_one (title_of name.now)) }
{
    let title = print_title(name);
    match numbered_name(title.as_bytes()) {
        Some((group, member)) => push_numbers(text, group, member),
        None => text.push_str(title.as_str()),
    }
}

/// Appends a group and a member, in octal. A directory 000000 that is not the master directory is shown otherwise.
fn push_numbers(text: &mut String, group: u8, member: u8) -> Result<(), AllocError>
    ensures { OnOk result (string_bytes text.new ≡ string_bytes text.old ++ shown_numbers group member) }
{
    if group == 0 && member == 0 {
        text.push_str("0,0.000000")
    } else {
        write!(text, "{group:o},{member:o}")
    }
}

/// Appends names, each behind a dot.
fn push_names(text: &mut String, names: &[Name]) -> Result<(), AllocError>
    ensures { OnOk result (string_bytes text.new ≡ string_bytes text.old ++ flat_map dotted names.now) }
{
    for name in names {
        write!(text, ".{}", print_title(name))?;
    }
    Ok(())
}

/// Appends the path of an entry of the directory with these names.
pub fn push_path(text: &mut String, names: &[Name], entry: &Listed) -> Result<(), AllocError>
    ensures { OnOk result (string_bytes text.new ≡ string_bytes text.old ++ shown_path names.now entry.now) }
{
    push_directory(text, names)?;
    text.push_str(print_name(&entry.name, entry.version).as_str())
}

/// Appends a file ID as in a path, `#6,1`.
pub(crate) fn push_id(text: &mut String, file: FileId) -> Result<(), AllocError>
    ensures { OnOk result (string_bytes text.new ≡ string_bytes text.old ++ shown_id file) }
{
    write!(text, "#{},{}", file.number, file.sequence)
}

/// Appends a user, `[g,m]` in octal.
#[tactic(auto, unfolding(crate::specs::Texts::shown_user))]
pub(crate) fn push_user(text: &mut String, user: Uic) -> Result<(), AllocError>
    ensures { OnOk result (string_bytes text.new ≡ string_bytes text.old ++ shown_user user) }
{
    write!(text, "[{:o},{:o}]", user.group, user.member)
}

/// Returns a protection word as the rights that it grants to the system, the owner, the group and the world: `[RWED,RWED,RWED,R]`.
#[tactic(auto, unfolding(crate::specs::Texts::shown_rights))]
pub(crate) fn rights_text(protection: u16) -> ArrayString<21>
    ensures { result.bytes ≡ shown_rights protection }
{
    let mut text = ArrayString::new();
    text.push_str("[");
    text.push_str(rights(protection % 16).as_str());
    text.push_str(",");
    text.push_str(rights(protection / 16 % 16).as_str());
    text.push_str(",");
    text.push_str(rights(protection / 256 % 16).as_str());
    text.push_str(",");
    text.push_str(rights(protection / 4096).as_str());
    text.push_str("]");
    text
}

/// Appends the rights that a protection word grants.
pub(crate) fn push_rights(text: &mut String, protection: u16) -> Result<(), AllocError>
    ensures { OnOk result (string_bytes text.new ≡ string_bytes text.old ++ shown_rights protection) }
{
    text.push_str(rights_text(protection).as_str())
}

/// The rights whose bits are clear.
#[tactic(auto, unfolding(crate::specs::Texts::class_rights))]
fn rights(denied: u16) -> ArrayString<4>
    ensures { result.bytes ≡ class_rights denied }
{
    let mut text = ArrayString::new();
    text.push_str(letter(denied % 2, "R"));
    text.push_str(letter(denied / 2 % 2, "W"));
    text.push_str(letter(denied / 4 % 2, "E"));
    text.push_str(letter(denied / 8 % 2, "D"));
    text
}

/// The letter of a right, where its bit is clear.
fn letter(bit: u16, right: &'static str) -> &'static str
    ensures value { result.now ≡ (if bit == 0 then right.now else []) }
    ensures len { length result.now ≤ length right.now }
{
    if bit == 0 { right } else { "" }
}

/// Returns a date of an ident area, its 13 bytes `01JAN80103000`, as `01-JAN-80 10:30:00`. Returns `-` if it is all zeros, and `?` for each byte
/// that is not a character.
#[tactic(auto, unfolding(crate::specs::Texts::shown_date))]
pub(crate) fn date_text(date: &[u8; 13]) -> ArrayString<18>
    ensures { result.bytes ≡ shown_date date.now }
{
    let mut text = ArrayString::new();
    if is_blank(date) {
        text.push_str("-");
        return text;
    }
    push_some(&mut text, &date[0..2], "-");
    push_some(&mut text, &date[2..5], "-");
    push_some(&mut text, &date[5..7], " ");
    push_some(&mut text, &date[7..9], ":");
    push_some(&mut text, &date[9..11], ":");
    push_some(&mut text, &date[11..13], "");
    text
}

/// Whether a date is all zeros.
fn is_blank(date: &[u8; 13]) -> bool
    ensures { result ≡ all_zeros date.now }
{
    date.iter().all(|byte| *byte == 0)
}

/// Appends bytes, and then the text `behind`.
pub(crate) fn push_some(text: &mut ArrayString<18>, bytes: &[u8], behind: &str)
    requires { array_string_len text.old + length bytes.now + length behind.now ≤ 18 }
    ensures bytes { text.new.bytes ≡ text.old.bytes ++ map shown_byte bytes.now ++ behind.now }
    ensures len { array_string_len text.new ≡ array_string_len text.old + length bytes.now + length behind.now }
{
    for byte in bytes {
        text.push(printable(*byte));
    }
    text.push_str(behind);
}

/// A byte as a character, `?` where it is none that is printed.
fn printable(byte: u8) -> char
    ensures value { result ≡ shown_byte byte }
    ensures ascii { result < 128 }
{
    if 32 <= byte && byte < 127 {
        char::from(byte)
    } else {
        '?'
    }
}
