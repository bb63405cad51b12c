//! A volume: a mounted image that changes by requests, and the list of the accepted requests. Without a list, a volume can also get another label,
//! other marks of its storage bitmap and more file headers. A file of it can get another owner, protection or characteristics.
#![tactic(auto)]

mod change;
mod ends;
mod entries;
mod noted;
mod planned;
mod prepare;
mod sound;
mod volume;

pub use entries::Entries;
pub use ods_look::look;
pub use planned::Prepared;
pub use sound::{Change, Sound};
pub use volume::Volume;
