//! The command language: the command of each line of a script, and the text of each reply.
#![tactic(auto)]

mod answers;
mod hex_bytes;
mod hex_text;
mod ids;
mod laws;
mod lines;
mod names;
mod numbers;
mod replies;
mod scripts;
mod spelled;
mod stats;
mod verbs;

pub use laws::{cuts_at_first, versions_are_versions};
pub use lines::parse_line;
pub use replies::{push_reply, sessions_text};
pub use scripts::parse_script;
