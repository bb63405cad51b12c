//! Scripts as values: the commands of a session, the request of each command, and the outcome. The crate has no volume, thread or text.
#![tactic(auto)]

mod asking;
mod outcome;
mod script;

pub use asking::{last_from, query_for, request_for};
pub use outcome::{Call, Outcome, Reply};
pub use script::{Action, Ask, Command, Id, Look, Script};
