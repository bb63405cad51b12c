//! The requests that leave a sound image unchanged: reading a block, looking a name up, listing a directory, and returning the facts about a file. It
//! also opens files and directories, on which requests that change them depend.
#![tactic(auto)]

mod blocks;
mod directory;
mod noting;
pub mod opening;
mod query;
mod reading;
mod shown;

pub use blocks::{BlocksToCome, DirectoryBlocks};
pub use directory::{list, look_up};
pub use noting::known_names;
pub use query::{look, look_into, look_into_noted};
pub use reading::read;
pub use shown::stat;
