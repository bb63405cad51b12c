//! What the blocks of a volume show, and how requests change it: its catalogue and versions, and what a request allocates and moves. The crate has
//! definitions, laws, and notes about files between requests, but no running code.
#![tactic(auto)]

mod known_end;
mod known_names;
mod laws;

pub use known_end::KnownEnd;
pub use known_names::KnownNames;
pub use laws::{
    carried_out_is_step, catalogue_is_one, grown_index_is_sound, has_catalogue,
    linked_header_keeps_blocks, mounted_is_lawful, refusal_is_one, step_behind_growth,
    step_stays_lawful, untouched_files_stay, wants_stay,
};
