//! A deleted file whose headers are still present.

/// A deleted file, from its first header on.
#[derive(Drop)]
pub struct DeletedFile {
    /// The numbers of its headers, from the first to the last.
    pub headers: Vec<u16>,
    /// The LBNs of its blocks, in the order of the file. A pointer may name an LBN that the image lacks.
    pub blocks: Vec<u32>,
    /// Whether the last header names a next header that is missing.
    pub is_cut: bool,
}
