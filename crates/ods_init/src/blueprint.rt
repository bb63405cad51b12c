//! Volumes that can be made: their size, the LBNs of their structures, and their texts.
use crate::{Label, Places};
use ods_base::Uic;
use ods_request::Stamp;

/// A volume that can be made.
#[derive(Clone, Copy)]
pub struct Blueprint {
    /// The number of blocks.
    pub blocks: u32,
    /// The LBNs and sizes of its structures.
    pub places: Places,
    /// The owner of its reserved files.
    pub owner: Uic,
    /// The label and the date of the volume. A bare volume has none, and stores only what a mount reads.
    pub details: Option<Details>,
    /// The value of each byte of its free blocks.
    pub filling: u8,
}

/// The label and the date of a volume, for people and for RSX.
#[derive(Clone, Copy)]
pub struct Details {
    pub label: Label,
    /// The date and time of its creation.
    pub stamp: Stamp,
}
