//! The complete check of an image.
#![tactic(auto)]

mod apart;
mod blocks;
mod check;
mod directory;
mod fault;
mod file;
mod file_blocks;
mod formats;
mod held_twice;
mod index;
mod laws;
mod layout;
mod mounted;
mod places;
mod set;
mod system;

pub use blocks::FileBlocks;
pub use check::{check_image, mount};
pub use directory::{check_directory, is_directory_file};
pub use fault::MountFault;
pub use formats::has_other_format;
pub use index::{check_index, first_misplaced, is_index_short, is_other_home};
pub use laws::sound_has_no_fault;
pub use layout::{chain_fault, read_layout, readable_layout};
pub use mounted::Mounted;
pub use places::{is_home_place, is_loose_place};
pub use set::NumberSet;
