//! A plain and slow program next to the definitions of requests: a catalogue over vectors, whose calls return the defined answers.
#![tactic(auto)]

mod catalogue;
mod faults;
mod files;
mod makes;
mod names;
mod rows;
mod steps;

pub use catalogue::Catalogue;
pub use files::{Body, File};
pub use names::Names;
pub use steps::StepError;
