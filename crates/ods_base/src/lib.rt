//! Blocks, words, checksums, images and names of Files-11 volumes of structure level 1.
#![tactic(auto)]

mod bits;
mod block;
mod faults;
mod file_id;
mod fixed;
mod image;
mod laws;
mod listed;
mod name;
mod overlay;
mod parse;
mod print;
mod read;
mod refusal;
mod resize;
mod seats;
mod write;

pub use bits::{bit, bit_word, set_bit};
pub use block::{Block, set_word, sum, word};
pub use faults::{ImageError, NameFault, NoMemory, WriteFault};
pub use file_id::{FileId, Uic};
pub use fixed::FixedImage;
pub use image::{Image, MAX_BLOCKS, MAX_BYTES, PIECE};
pub use laws::{picked_by_keys, picked_by_one_text};
pub use listed::Listed;
pub use name::{DIRECTORY_TYPE, Name, Pick};
pub use parse::{LAST_VERSION, parse_name};
pub use print::{print_name, print_title, print_type, print_words};
pub use refusal::{Coded, Row};
pub use write::{write_bytes, write_piece};
