//! The kinds of records of a file, the ways to read a file as a text, and the forms of its bytes.

/// The kind of the records of a file, by F.RTYP of its attributes (the standard's FCS record structure). It excludes records of one size (F.RTYP 1):
/// such a file is its bytes.
#[derive(Clone, Copy, Debug, PartialEq, Eq)]
pub enum RecordKind {
    /// F.RTYP 2: a word with the length in bytes, and that many bytes.
    Variable,
    /// F.RTYP 3: the same, and the first bytes of the record are its header, which contains its number. The value is the size of the header in bytes.
    Sequenced(u8),
}

/// The way to read the bytes of a file as a text, by its attributes.
#[derive(Clone, Copy, Debug, PartialEq, Eq)]
pub enum TextForm {
    /// Each record is a line.
    Records(RecordKind),
    /// Lines of this many bytes.
    Fixed(u16),
    /// The same, and a line that would cross the end of a block of 512 bytes begins in the next block.
    Blocked(u16),
    /// The bytes, with CR LF as LF.
    Stream,
    /// The bytes, unchanged.
    Bytes,
}

/// The form in which the bytes of a file are requested.
#[derive(Clone, Copy, Debug, PartialEq, Eq)]
pub enum Wanted {
    /// Lines if the file has records that come back from lines, or is a stream of lines. Otherwise bytes.
    ByKind,
    /// A text, by the attributes: the lines of records, a stream with CR LF as LF, or the bytes.
    Text,
    /// The bytes up to the end of file.
    Binary,
    /// The bytes of all blocks.
    Raw,
}
