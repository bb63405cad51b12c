//! Notes about a file that are kept from one request to the next.

/// The end of a file's chain: the number of its headers, the number of blocks that they map, and the number of the last header.
#[derive(Clone, Copy)]
pub struct KnownEnd {
    pub file: u16,
    pub headers: u32,
    pub blocks: u32,
    pub last: u16,
}
