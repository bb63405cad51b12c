//! Versions for readers: the blocks at one moment with their layout, and the number of entries that produced them.
ghost use Rattle.ods_views.specs.Versions.{led_on};

use left_right::Absorb;
use ods_base::Image;
use ods_space::{Draft, Layout};
use std::alloc::AllocError;

/// A version of a volume. A desk keeps two of them, and shows one.
#[derive(Drop)]
pub struct Version {
    pub image: Image,
    pub layout: Layout,
    /// The number of entries that produced these blocks.
    pub count: u64,
}

/// The change of one accepted entry: the changed blocks, the LBNs that INDEXF.SYS gains, and the number of entries including this one.
#[derive(Drop)]
pub struct Change {
    pub draft: Draft,
    pub places: Vec<u32>,
    pub count: u64,
}

impl Absorb<Change> for Version {
    type State = Version;

    ghost state = { λ v. v };

    ghost applied = { led_on };

    ghost never_fails = { Unit {0} };

    fn absorb_first(&mut self, operation: &Change, _other: &Version) -> Result<(), AllocError> {
        operation.draft.apply(&mut self.image);
        self.layout.grow(&operation.places);
        self.count = operation.count;
        Ok(())
    }
}
