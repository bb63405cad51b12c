//! The directories of a volume, sound or refused, as listings show them. A listing has the lines of one directory in order; a walk has all
//! directories below one.
#![tactic(auto)]

mod entering;
mod laws;
mod named;
mod ordering;
mod tables;
mod walking;

pub use entering::enter_all;
pub use laws::{lists_the_names, walks_are_complete};
pub use named::entries_of;
pub use ordering::{count_bad, in_order, listing, shown_entries};
pub use tables::{Entered, Line, Walk};
pub use walking::{names_directory, walk_from, walk_past};
