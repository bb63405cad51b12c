//! A file that a scan found.

/// A file that a scan found, from its first header on.
#[derive(Drop)]
pub struct Scanned {
    /// The LBNs of its headers, from the first to the last.
    pub headers: Vec<u32>,
    /// The LBNs of its blocks, in the order of the file. A pointer may name an LBN that the image lacks.
    pub blocks: Vec<u32>,
    /// Whether the last header names a next header that is missing.
    pub is_cut: bool,
}
