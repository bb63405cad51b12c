//! The forms in which a file is extracted.

/// The choice of the bytes of a file.
#[derive(Clone, Copy, Debug, PartialEq, Eq)]
pub enum Form {
    /// The bytes up to the end of file, or all bytes if the attributes are zeros.
    Binary,
    /// The bytes of all blocks.
    Raw,
}
