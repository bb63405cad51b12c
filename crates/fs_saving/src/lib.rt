//! Images saved whole or not at all, over any host: the host is a trait, and each promise holds over every host that meets it.
#![tactic(auto)]

mod folder;
mod memory;
mod saving;
mod unsaved;

pub use folder::Folder;
pub use memory::{MemoryFault, MemoryFile, MemoryFolder};
pub use saving::save;
pub use unsaved::Unsaved;
