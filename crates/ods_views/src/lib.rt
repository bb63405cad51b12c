//! Versions of a volume for readers. A version is a value, and an operation turns it into the next one. A rule holds over all versions. Viewers read
//! versions without the lock, and the writer publishes them.
#![tactic(auto)]

mod laws;
mod naming;
mod rule;
mod told;
mod version;
mod viewer;
mod writing;

pub use laws::answers_by_the_list;
pub use naming::Naming;
pub use rule::{Adding, Adds, Asking, Lists, Looks, View};
pub use told::{Told, entry_count};
pub use version::{Change, Version};
pub use viewer::{ViewFault, Viewer, make_viewers};
pub use writing::{DeskWriter, MOST_SESSIONS, add_change, open_writer, publish_change};
