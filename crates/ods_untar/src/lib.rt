//! The files and directories of a tar archive for a volume, with the attributes, owners and protections of their records. The crate has no volume.
#![tactic(auto)]

mod asking;
mod below;
mod faults;
mod laws;
mod octal;
mod reading;
mod told;
mod wanted;

pub use asking::members_in;
pub use below::{directory_below, path_below};
pub use faults::AskFault;
pub use laws::one_told;
pub use told::Told;
pub use wanted::Wanted;
