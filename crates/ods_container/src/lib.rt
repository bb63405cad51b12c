//! The bytes of a host file that are the volume: the first blocks, as many as the volume itself states, padded with zeros. The bytes after them are
//! kept.
#![tactic(auto)]

mod container;
mod filling;
mod footer;
mod part;
mod reading;
mod size;
mod writing;

pub use container::{Contained, contained_in, read_contained};
pub use footer::{Footer, footer_of};
pub use part::{has_all_blocks, readable_part};
pub use reading::MOST_BYTES;
pub use size::believed_size;
pub use writing::write_contained;
