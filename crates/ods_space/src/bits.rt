//! The bits of blocks and numbers.
ghost use Rattle.std.specs.Prelude.{◌≡◌};
ghost use Rattle.ods_space.specs.{Layout.is_in_use, Free.is_free_block};
ghost use Rattle.ods_space.specs.Disks.{seen};

use crate::Disk;
use ods_base::{Image, bit};
use ods_header::Home;

/// Whether the index bit of a number is set.
pub(crate) fn is_used(image: &Image, home: &Home, number: u16) -> bool
    ensures { result ≡ is_in_use image.now home.now number }
{
    if number == 0 || 4096 * (home.index_bitmap_size as u32) < number as u32 {
        return false;
    }
    let at = home.index_bitmap_lbn as u64 + (number as u64 - 1) / 4096;
    at < image.len() as u64 && bit(image.block(at as u32), (number as u32 - 1) % 4096)
}

/// Returns whether a block is free. A set bit of the storage bitmap marks a block of the image as free.
pub fn is_free(disk: &Disk<'_>, lbn: u32) -> bool
    ensures { result ≡ seen is_free_block disk.now lbn }
{
    let at = 1 + lbn as usize / 4096;
    if disk.image.len() <= lbn || disk.layout.bitmap().len() <= at {
        return false;
    }
    let map = disk.layout.bitmap()[at];
    map < disk.image.len() && bit(disk.image.block(map), lbn % 4096)
}

/// Returns whether the index bit of a number is set.
pub fn in_use(disk: &Disk<'_>, number: u16) -> bool
    ensures { result ≡ is_in_use disk.now.image.now disk.now.layout.now.home number }
{
    is_used(disk.image, &disk.layout.home(), number)
}
