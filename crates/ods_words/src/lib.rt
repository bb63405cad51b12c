//! Command lines: why a command line requests no action, and the text that reports it. Both programs depend on it.
#![tactic(auto)]

mod fault;

pub use fault::{WordsFault, say_wrong, tell_error};
