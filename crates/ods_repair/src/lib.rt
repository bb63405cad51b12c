//! Repairs of a volume. Each repair removes the faults of one kind, and changes nothing else.
#![tactic(auto)]

mod asking;
mod doubling;
mod entering;
mod fault;
mod freeing;
mod laws;
mod lost_file;
mod noted;
mod removing;
mod repointing;
mod run_moving;
mod spare;
mod unsharing;
mod used;

pub use doubling::renumber_doubles;
pub use entering::enter_lost;
pub use fault::RepairFault;
pub use freeing::free_unheld;
pub use laws::{mended_is_sound, mended_lines_are_sound, tables_say_all};
pub use lost_file::LostFile;
pub use removing::remove_dangling;
pub use unsharing::{Unshared, unshare};
pub use used::mark_used;
