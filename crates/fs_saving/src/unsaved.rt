//! The reasons why bytes are not saved.

/// The reason why bytes are not saved, with the fault of the host if it failed.
#[derive(Clone, Copy, Debug, PartialEq, Eq)]
pub enum Unsaved<E> {
    /// The hidden file could not be made.
    Make(E),
    /// The bytes could not be written or synced.
    Write(E),
    /// The bytes that are read back differ from the written ones.
    Differs,
    /// The hidden file could not be renamed.
    Rename(E),
}
