//! Floppies in physical order. Such a container has the sectors of a volume in the order of the disk's surface, as RX01, RX02 and RX50 images often
//! do. The volume is read from it, and written back to the same offsets.
#![tactic(auto)]

mod fault;
mod laws;
mod order;
mod reading;
mod writing;

pub use fault::OrderFault;
pub use laws::{
    can_be_laid_out, each_byte_has_a_sector, first_track_stays, laid_out_in_one_way,
    own_volume_changes_nothing, places_are_apart, places_lie_inside, sectors_are_interleaved,
};
pub use order::Order;
pub use reading::read_volume;
pub use writing::{empty_container, write_contained_volume, write_volume};
