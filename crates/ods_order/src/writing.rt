//! Writing of a volume back into a container.
ghost use Rattle.std.specs.Prelude.{◌≡◌, ◌+◌, ◌*◌, ◌<◌, ◌++◌, length, replicate, IfOk};
ghost use Rattle.ods_base.specs.Image.{image_bytes};
ghost use Rattle.ods_order.specs.Order.{block_count, container_size, sector_count, sector_size};
ghost use Rattle.ods_order.specs.Volumes.{IsLaidOut, sector_of};

use crate::Order;
use ods_base::Image;
use std::alloc::{AllocError, Global};

/// Writes the sectors of a volume into a container. Every other byte is unchanged.
pub fn write_volume(order: Order, container: &mut [u8], image: &Image)
    requires size { length container.old ≡ container_size order }
    requires blocks { length image.now ≡ block_count order }
    ensures { IsLaidOut order container.old (image_bytes image.now) container.new }
{
    write_contained_volume(order, container, image, &[]);
}

/// Writes the sectors of a volume that has `behind` as other bytes after it, as `contained_in` of `ods_container` finds them. Every other byte is
/// unchanged.
pub fn write_contained_volume(order: Order, container: &mut [u8], image: &Image, behind: &[u8])
    requires size { length container.old ≡ container_size order }
    requires whole { 512 * length image.now + length behind.now ≡ 512 * block_count order }
    ensures { IsLaidOut order container.old (image_bytes image.now ++ behind.now) container.new }
{
    let _ = image.len();
    let size = order.sector_size();
    for n in 0..order.sector_count() {
        let at = order.place(n);
        let sector = sector(order, image, behind, n);
        container[at..at + size].copy_from_slice(sector);
    }
}

/// The bytes of sector `n` of a volume with others behind it.
fn sector<'a>(order: Order, image: &'a Image, behind: &'a [u8], n: usize) -> &'a [u8]
    requires whole { 512 * length image.now + length behind.now ≡ 512 * block_count order }
    requires inside { n < sector_count order }
    ensures value { result.now ≡ sector_of order (image_bytes image.now ++ behind.now) n }
    ensures size { length result.now ≡ sector_size order }
{
    let size = order.sector_size();
    let at = size * n;
    let end = 512 * image.len() as usize;
    if at < end {
        let block = image.block((at / 512) as u32);
        let from = at % 512;
        return &block.bytes()[from..from + size];
    }
    &behind[at - end..at - end + size]
}

/// Makes a container of zeros, for a new volume.
pub fn empty_container(alloc: Global, order: Order) -> Result<Vec<u8>, AllocError>
    ensures { IfOk result (λ bytes. bytes.items ≡ replicate (container_size order) 0) }
{
    vec![in alloc; 0; order.container_size()]
}
