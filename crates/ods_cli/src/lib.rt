//! The engine of `f11`: runs over any reader and writer, its words, and its sample volumes.
#![tactic(auto)]

mod endings;
mod engine;
mod fault;
mod headers;
mod printed;
mod reply;
mod runs;
mod samples;
mod script_text;
mod sessions;
mod sound;
mod words;
mod writing;

pub use endings::{WRONG_WORDS, status};
pub use engine::{Options, serve};
pub use fault::ServeFault;
pub use headers::header_run;
pub use ods_words::WordsFault;
pub use printed::Printed;
pub use runs::{Run, run_for};
pub use samples::sample;
pub use script_text::{ScriptFault, parse_scripts, read_script, read_script_text};
pub use words::{Words, parse_words};
