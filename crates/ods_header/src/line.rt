//! A printed line about a header.
ghost use Rattle.std.specs.Prelude.{◌≡◌, ◌+◌, ◌≤◌, ◌++◌, IfOk, IfErr, OnOk};
ghost use Rattle.arrayvec.specs.ArrayString.{array_string_len};
ghost use Rattle.std.specs.String.{string_bytes};
ghost use Rattle.std.specs.List.{flat_map};
ghost use Rattle.ods_header.specs.{Header.IsValidHeader, Header.header_of, Line.line_block, Line.IsLineFault, Text.header_text, Text.name_part, Text.owner_text, Text.segment_part, Text.ident_text, Text.run_text, Text.octal as octal_text, Text.octal_digits as octal_digits_text};

use crate::{Header, HeaderFault, Home, LineFault, Run, read_header};
use arrayvec::ArrayString;
use ods_base::{Image, Uic, print_words};
use std::alloc::{AllocError, Global};

/// Returns the line of one of the first 16 headers, which follow the index bitmap on the disk. The line has the fields and the pointers as text,
/// without a line feed. A block that the image lacks is read as zeros. If the block is not a valid header of this number, it returns the first fault.
pub fn header_line(
    alloc: Global,
    image: &Image,
    home: &Home,
    number: u16,
) -> Result<String, LineFault>
    requires some { 1 ≤ number }
    requires most { number ≤ 16 }
    ensures ok { IfOk result (λ line. IsValidHeader (line_block image.now home.now number) number
        × (string_bytes line ≡ header_text (header_of (line_block image.now home.now number)))) }
    ensures err { IfErr result (IsLineFault image.now home.now number) }
{
    let lbn = home.index_bitmap_lbn as u64 + home.index_bitmap_size as u64 + number as u64 - 1;
    if lbn >= image.len() as u64 {
        return Err(LineFault::Header(HeaderFault::WrongNumber));
    }
    match read_header(image.block(lbn as u32), number) {
        Ok(header) => Ok(text_of(alloc, &header)?),
        Err(fault) => Err(LineFault::Header(fault)),
    }
}

/// The text of a header.
fn text_of(alloc: Global, header: &Header) -> Result<String, AllocError>
    ensures { IfOk result (λ line. string_bytes line ≡ header_text header.now) }
{
    let mut line = String::new(alloc);
    push_name(&mut line, header)?;
    push_owner(
        &mut line,
        header.owner,
        header.protection,
        header.user_char,
        header.system_char,
    )?;
    push_segment(&mut line, header)?;
    push_runs(&mut line, header.pointers.as_slice())?;
    Ok(line)
}

/// Appends the file ID and the name.
fn push_name(line: &mut String, header: &Header) -> Result<(), AllocError>
    ensures { OnOk result (string_bytes line.new ≡ string_bytes line.old ++ name_part header.now) }
{
    let file = header.file;
    let name = print_ident(&header.ident);
    write!(line, "HEADER {},{} {name}", file.number, file.sequence)
}

/// Appends an owner, a protection word and the two bytes of characteristics, the user's and the system's, in octal.
pub fn push_owner(
    line: &mut String,
    owner: Uic,
    protection: u16,
    user_char: u8,
    system_char: u8,
) -> Result<(), AllocError>
    ensures { OnOk result (string_bytes line.new ≡ string_bytes line.old ++ owner_text owner protection user_char system_char) }
{
    let group = octal(owner.group);
    let member = octal(owner.member);
    let protection = octal_digits(protection, 6);
    let user = octal_digits(user_char as u16, 3);
    let system = octal_digits(system_char as u16, 3);
    write!(line, " [{group},{member}] {protection} {user},{system}")
}

/// Appends the segment and the next header.
fn push_segment(line: &mut String, header: &Header) -> Result<(), AllocError>
    ensures { OnOk result (string_bytes line.new ≡ string_bytes line.old ++ segment_part header.now) }
{
    let segment = header.segment;
    let next = header.next;
    write!(
        line,
        " segment {segment} next {},{} runs",
        next.number, next.sequence
    )
}

/// Appends the texts of pointers.
fn push_runs(line: &mut String, runs: &[Run]) -> Result<(), AllocError>
    ensures { OnOk result (string_bytes line.new ≡ string_bytes line.old ++ flat_map run_text runs.now) }
{
    for run in runs {
        write!(line, " {}+{}", run.lbn, run.count)?;
    }
    Ok(())
}

/// A byte in octal, without zeros in front.
fn octal(byte: u8) -> ArrayString<6>
    ensures { result.bytes ≡ octal_text byte }
{
    let digits = match byte {
        0..=7 => 1,
        8..=63 => 2,
        _ => 3,
    };
    octal_digits(byte as u16, digits)
}

/// The last octal digits of a number, zeros in front.
fn octal_digits(number: u16, digits: usize) -> ArrayString<6>
    requires { digits ≤ 6 }
    ensures { result.bytes ≡ octal_digits_text digits number }
{
    let mut text = ArrayString::new();
    push_octal(&mut text, number, digits);
    text
}

/// Appends the last octal digits of a number: those before the last one, and then that.
fn push_octal(text: &mut ArrayString<6>, number: u16, digits: usize)
    requires { array_string_len text.old + digits ≤ 6 }
    ensures { text.new.bytes ≡ text.old.bytes ++ octal_digits_text digits number }
{
    if digits > 0 {
        push_octal(text, number / 8, digits - 1);
        text.push(char::from(b'0' + (number % 8) as u8));
    }
}

/// Returns the name and the version of an ident, from its 46 bytes: three name words, the type word and the version word. A word that spells no
/// characters is printed as `???`.
pub fn print_ident(ident: &[u8; 46]) -> ArrayString<19>
    ensures { result.bytes ≡ ident_text ident.now }
{
    let word = |k: usize| u16::from_le_bytes([ident[2 * k], ident[2 * k + 1]]);
    print_words([word(0), word(1), word(2)], word(3), word(4))
}
