//! Home blocks and file headers of Files-11 volumes of structure level 1.
#![tactic(auto)]

mod append;
mod contiguous;
mod cut;
mod delete;
mod extension;
mod fault;
mod fields;
mod find;
mod first;
mod header;
mod home;
mod line;
mod map_area;
mod pointer_sums;
mod pointers;
mod read;
mod set_attributes;
mod sum;
mod write;

pub use append::{append_runs, grown_last, with_next};
pub use contiguous::{CONTIGUOUS, without_contiguous};
pub use cut::cut_header;
pub use delete::deleted_header;
pub use extension::extension_block;
pub use fault::LineFault;
pub use fields::{
    attributes, file_number, file_sequence, ident, is_directory, owner, protection, system_char,
    user_char,
};
pub use find::find_home;
pub use first::first_block;
pub use header::{HEADER_BLOCKS, HEADER_POINTERS, HEADER_ROOM, Header, HeaderFault, Run};
pub use home::{Home, HomeFault};
pub use line::{header_line, print_ident, push_owner};
pub use map_area::{
    is_valid_header, next_number, next_sequence, next_volume, pointer_at, pointer_count, room,
    room_words, segment,
};
pub use pointer_sums::pointer_sum;
pub use read::read_header;
pub use set_attributes::with_attributes;
pub use write::write_header;
