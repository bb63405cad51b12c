//! The facts of a deleted file.

/// The facts of a deleted file, from its headers and the headers of all other deleted files.
#[derive(Clone, Copy, Debug)]
pub struct Summary {
    /// The number of blocks that its headers name, at most 2^32 - 1.
    pub blocks: u32,
    /// The number of these blocks that are used again, at most 2^32 - 1.
    pub used: u32,
    /// The index of its first missing header, if one is missing. The first header has index 1.
    pub missing: Option<u64>,
    /// A deleted file that also names one of its blocks. It is the file itself if the file names a block twice and no other file names one.
    pub sharer: Option<u16>,
    /// Whether no header is missing, and each block is free and named once, only by this file.
    pub is_whole: bool,
}
