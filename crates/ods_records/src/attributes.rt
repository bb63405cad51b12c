//! The attributes of a file: the kind of its records, and its end.
ghost use Rattle.std.specs.Prelude.{◌≡◌, ◌*◌, ◌<◌, ◌^◌, if◌then◌else◌};
ghost use Rattle.ods_records.specs.Attributes.{attributes, end_of, kind_in, text_form_in, record_type as record_type_in, header_size as header_size_in, is_controlled as controlled, is_blocked as blocked, has_cards as cards, IsSized, ending_at as attributes_ending, word as word_of, block as block_of};
ghost use Rattle.ods_records.specs.declared.kind.TextForm.{TextForm};
ghost use Rattle.ods_records.specs.Records.{word_at};

use crate::{RecordKind, TextForm};

/// Returns the attributes (the standard's FCS file attributes) of a file of `length` bytes with variable records. Each record is a line of text
/// (F.RATT 2, carriage return is implied). `longest` is the size of the longest record in bytes.
pub fn text_attributes(longest: u16, length: u64) -> [u8; 32]
    requires { length < 512 * 2 ^ 20 }
    ensures value { result ≡ attributes 2 2 longest length }
    ensures end { end_of result ≡ length }
{
    attributes_of(2, 2, longest, length)
}

/// Returns the attributes of a file of `length` bytes in records of 512 bytes.
pub fn binary_attributes(length: u64) -> [u8; 32]
    requires { length < 512 * 2 ^ 20 }
    ensures value { result ≡ attributes 1 0 512 length }
    ensures end { end_of result ≡ length }
{
    attributes_of(1, 0, 512, length)
}

/// Returns the kind of the records of a file with these attributes, by F.RTYP. It returns `None` if the records have no length. These are F.RTYP 1,
/// the values 0 and above 6, which are read as 1, and the streams 4 to 6.
pub fn kind_of(attributes: &[u8; 32]) -> Option<RecordKind>
    ensures { result ≡ kind_in attributes.now }
{
    match record_type(attributes) {
        2 => Some(RecordKind::Variable),
        3 => Some(RecordKind::Sequenced(header_size(attributes))),
        _ => None,
    }
}

/// Returns how the bytes of a file with these attributes are read as a text.
pub fn text_form(attributes: &[u8; 32]) -> TextForm
    ensures value { result ≡ text_form_in attributes.now }
    ensures sized { IsSized result }
{
    match record_type(attributes) {
        2 => TextForm::Records(RecordKind::Variable),
        3 => TextForm::Records(RecordKind::Sequenced(header_size(attributes))),
        4 => TextForm::Stream,
        _ => fixed_form(attributes),
    }
}

/// How the bytes of a file that has no records with a length, and is no stream of CR LF, are read as a text.
fn fixed_form(attributes: &[u8; 32]) -> TextForm
    ensures sized { IsSized result }
    ensures value { result ≡ (if cards attributes.now then (if blocked attributes.now then TextForm.Blocked (word_at attributes.now 2) else TextForm.Fixed (word_at attributes.now 2)) else TextForm.Bytes) }
{
    let size = record_size(attributes);
    if record_type(attributes) != 1 || !is_controlled(attributes) || size == 0 {
        return TextForm::Bytes;
    }
    if is_blocked(attributes) {
        TextForm::Blocked(size)
    } else {
        TextForm::Fixed(size)
    }
}

/// F.RTYP.
fn record_type(attributes: &[u8; 32]) -> u8
    ensures { result ≡ record_type_in attributes.now }
{
    let kind = attributes[0] % 16;
    if kind == 0 {
        return 1;
    }
    if 7 <= kind {
        return 1;
    }
    kind
}

/// How many bytes the header of a sequenced record has.
fn header_size(attributes: &[u8; 32]) -> u8
    ensures { result ≡ header_size_in attributes.now }
{
    if attributes[15] == 0 {
        2
    } else {
        attributes[15]
    }
}

/// Returns whether the records are lines by F.RATT: FORTRAN carriage control, an implied carriage return, or print control.
pub fn is_controlled(attributes: &[u8; 32]) -> bool
    ensures { result ≡ controlled attributes.now }
{
    attributes[1] % 8 != 0
}

/// Whether F.RATT says that no record goes on in the next block.
fn is_blocked(attributes: &[u8; 32]) -> bool
    ensures { result ≡ blocked attributes.now }
{
    attributes[1] / 8 % 2 == 1
}

/// Returns the record size in bytes, F.RSIZ.
pub fn record_size(attributes: &[u8; 32]) -> u16
    ensures { result ≡ word_at attributes.now 2 }
{
    word(attributes, 2) as u16
}

/// Returns these attributes for a file of `length` bytes: F.HIBK, F.EFBK and F.FFBY are set, all else is unchanged.
pub fn ending_at(attributes: &[u8; 32], length: u64) -> [u8; 32]
    requires { length < 512 * 2 ^ 20 }
    ensures value { result ≡ attributes_ending attributes.now length }
{
    let made = binary_attributes(length);
    let mut new = *attributes;
    new[4..14].copy_from_slice(&made[4..14]);
    new
}

/// Returns the end of file, in bytes: `(F.EFBK - 1) * 512 + F.FFBY`, or 0 if F.EFBK is 0. It depends only on the attributes, and may be past the
/// blocks of the file.
pub fn end_of_file(attributes: &[u8; 32]) -> u64
    ensures { result ≡ end_of attributes.now }
{
    let block = 65536 * word(attributes, 8) + word(attributes, 10);
    if block == 0 {
        return 0;
    }
    (block - 1) * 512 + word(attributes, 12)
}

/// The word at a byte of the attributes.
fn word(attributes: &[u8; 32], at: usize) -> u64
    requires { at < 31 }
    ensures value { result ≡ word_at attributes.now at }
    ensures small { result < 65536 }
{
    u64::from(attributes[at]) + 256 * u64::from(attributes[at + 1])
}

/// Attributes of this record type, these record attributes, this record size and this length.
fn attributes_of(rtyp: u8, ratt: u8, rsiz: u16, length: u64) -> [u8; 32]
    requires { length < 512 * 2 ^ 20 }
    ensures value { result ≡ attributes rtyp ratt rsiz length }
    ensures end { end_of result ≡ length }
{
    let [size_low, size_high] = word_bytes(u64::from(rsiz));
    let [used_0, used_1, used_2, used_3] = block_bytes((length + 511) / 512);
    let [end_0, end_1, end_2, end_3] = block_bytes(length / 512 + 1);
    let [byte_low, byte_high] = word_bytes(length % 512);
    [
        rtyp, ratt, size_low, size_high, used_0, used_1, used_2, used_3, end_0, end_1, end_2,
        end_3, byte_low, byte_high, 0, 0, 0, 0, 0, 0, 0, 0, 0, 0, 0, 0, 0, 0, 0, 0, 0, 0,
    ]
}

/// Returns the bytes of a word, the low byte first.
pub(crate) fn word_bytes(word: u64) -> [u8; 2]
    requires { word < 2 ^ 16 }
    ensures { result ≡ word_of word }
{
    [(word % 256) as u8, (word / 256) as u8]
}

/// The bytes of a block number, the high word first.
fn block_bytes(block: u64) -> [u8; 4]
    requires { block < 2 ^ 32 }
    ensures { result ≡ block_of block }
{
    let [a, b] = word_bytes(block / 65536);
    let [c, d] = word_bytes(block % 65536);
    [a, b, c, d]
}
