//! Allocation by the two bitmaps: counts and picks of free blocks and numbers, and the growth of chains by pointers and extension headers. It also
//! marks what a file allocates or gives back.
#![tactic(auto)]

mod bitmap;
mod chain;
mod counting;
mod counts;
mod end;
mod extend;
mod fault;
mod free;
mod give;
mod headers;
mod index;
mod laws;
mod numbers;
mod runs;
mod words;
mod zero;

pub use bitmap::mark_blocks;
pub use counts::FreeCounts;
pub use end::{CHAIN_HEADERS, ChainEnd};
pub use extend::{extend_chain, extend_from};
pub use fault::SpaceFault;
pub use free::{free_count, pick_blocks, pick_blocks_behind};
pub use give::{give_back, mark_free};
pub use index::grow_index;
pub use laws::chain_grows;
pub use numbers::{greatest_number, is_number_free, number_count, pick_numbers, pick_open_numbers};
pub use runs::runs_of_blocks;
pub use zero::zero_runs;
