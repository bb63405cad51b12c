//! Directories of Files-11 volumes of structure level 1, as finite maps from names to file IDs.
#![tactic(auto)]

mod blocks;
mod count;
mod entering;
mod entry;
mod fault;
mod first;
mod hidden;
mod laws;
mod lines;
mod listing;
mod lookup;
mod mark;
mod place;
mod removal;
mod scan;
mod search;
mod slot;
mod slots;
mod tags;
mod twins;

pub use blocks::DirBlocks;
pub use count::{has_names, name_count};
pub use entering::enter;
pub use fault::{DirFault, Verdict};
pub use hidden::has_hidden;
pub use laws::good_lines_are_names;
pub use listing::{check, entries, good_entries, has_bad_entry};
pub use lookup::look_up;
pub use mark::{mark_of, with_mark};
pub use place::{NO_ENTRY, entry_block, put_entry};
pub use removal::remove;
pub use slot::Slot;
pub use slots::slot_for;
pub use tags::{Tags, block_tags};
pub use twins::has_twins;
