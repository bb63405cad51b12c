//! Chains of headers, the bits of blocks and numbers, and drafts of Files-11 volumes of structure level 1.
#![tactic(auto)]

mod bitmap_blocks;
mod bits;
mod collect;
mod cursor;
mod disk;
mod draft;
mod fault;
mod files;
mod fill;
mod headers;
mod laws;
mod layout;
mod mapped;
mod reaching;
mod survey;
mod system;
mod walk;
mod whole_chain;

pub use bits::{in_use, is_free};
pub use collect::{Reached, push_header};
pub use cursor::BlockCursor;
pub use disk::Disk;
pub use draft::Draft;
pub use fault::{ChainFault, LayoutFault};
pub use files::{block_count, chain, check_chain, file_header, locate, primary_header};
pub use headers::{header_block, last_number, sequence};
pub use laws::{places_stay, reached_is_one, whole_is_chain};
pub use layout::Layout;
pub use reaching::{Reach, count_reach, reach_blocks};
pub use whole_chain::{ChainHeaders, count_whole, locate_whole};
