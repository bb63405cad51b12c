//! The blocks of a volume together with its layout.
use crate::Layout;
use ods_base::Image;

/// The blocks of a volume and their layout, passed by reference. Each function that finds headers, chains or bits reads both. `on IsLayoutOf
/// disk.now` is the condition that the layout belongs to these blocks.
#[derive(Clone, Copy)]
pub struct Disk<'a> {
    pub image: &'a Image,
    pub layout: &'a Layout,
}
