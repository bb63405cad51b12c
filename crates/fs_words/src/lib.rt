//! The words of `f11fs`: the requests of the command line, and of a line in a file of commands.
//! Clauses state which options serve a command, which words clap takes for which command, and the resulting request. `tests/fs` checks the
//! texts of the help, and the messages for refused words, on the built program.
#![tactic(auto)]

mod actions;
mod arguments;
mod commands;
mod days;
mod devices;
mod forms;
mod help;
mod hints;
mod laws;
mod layering;
mod line;
mod numbers;
mod options;
mod parse;
mod placing;
mod protections;
mod repairs;
mod said;
mod users;
mod verbs;
mod words;

pub use actions::{Action, Change, FromWords, PutWords, Repairs};
pub use days::is_true_day;
pub use devices::{device_blocks, device_order};
pub use laws::floppies_fit;
pub use layering::Layering;
pub use line::{LineFault, line_words};
pub use ods_words::WordsFault;
pub use options::{Choice, serves};
pub use verbs::Verb;
pub use words::{Saving, Words, parse_line, parse_words};
