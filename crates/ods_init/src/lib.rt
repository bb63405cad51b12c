//! New volumes: the image of a sound volume with five reserved files, a master directory with their names, and the rest free.
#![tactic(auto)]

mod bits;
mod blueprint;
mod control;
mod filling;
mod home;
mod image;
mod label;
mod laws;
mod master;
mod places;
mod reserved;
mod volume;

pub use blueprint::{Blueprint, Details};
pub use image::{init, make_volume};
pub use label::Label;
pub use laws::new_volume_is_sound;
pub use places::Places;
pub use volume::{InitFault, NewVolume, default_files};
