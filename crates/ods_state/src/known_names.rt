//! Notes about a directory that are kept from one request to the next.
use ods_directory::Tags;

/// The blocks of a directory in order, and the tags of the entries in each block.
#[derive(Drop)]
pub struct KnownNames {
    pub file: u16,
    pub blocks: Vec<u32>,
    pub tags: Vec<Tags>,
}
