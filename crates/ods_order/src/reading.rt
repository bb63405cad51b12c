//! Reading of a volume from a container.
ghost use Rattle.std.specs.Prelude.{◌≡◌, ◌<◌, length, IfOk, IfErr};
ghost use Rattle.ods_base.specs.Block.{IsBlock};
ghost use Rattle.ods_order.specs.Order.{block_count, container_size};
ghost use Rattle.ods_order.specs.Volumes.{IsVolumeOf, IsNoVolume, block_in, volume_of};

use crate::{Order, OrderFault};
use ods_base::{Block, Image};
use std::alloc::Global;

/// Reads the volume of a container of this order: its sectors, in the order of the volume. The image is the only large allocation. If the size is
/// wrong, the fault is `OtherSize`.
pub fn read_volume(alloc: Global, order: Order, container: &[u8]) -> Result<Image, OrderFault>
    ensures ok { IfOk result (IsVolumeOf order container.now) }
    ensures err { IfErr result (IsNoVolume order container.now) }
{
    if container.len() != order.container_size() {
        return Err(OrderFault::OtherSize);
    }
    // As many bytes as the volume has give the image its room.
    let size = 512 * order.block_count() as usize;
    match Image::from_bytes(alloc, &container[..size]) {
        Ok(mut image) => {
            put_blocks(order, container, &mut image);
            Ok(image)
        }
        Err(_) => Err(OrderFault::NoMemory),
    }
}

/// Each block of an image becomes that of the volume.
fn put_blocks(order: Order, container: &[u8], image: &mut Image)
    requires size { length container.now ≡ container_size order }
    requires blocks { length image.old ≡ block_count order }
    ensures { IsVolumeOf order container.now image.new }
{
    for lbn in 0..order.block_count() {
        let block = block_of(order, container, lbn as usize);
        image.set_block(lbn, block);
    }
    let _ = image.len();
}

/// A block of the volume: some sectors, one behind another.
fn block_of(order: Order, container: &[u8], lbn: usize) -> Block
    requires size { length container.now ≡ container_size order }
    requires inside { lbn < block_count order }
    ensures value { result ≡ block_in (volume_of order container.now) lbn }
    ensures block { IsBlock result }
{
    let size = order.sector_size();
    let many = 512 / size;
    let mut block = Block::zeros();
    for k in 0..many {
        let at = order.place(many * lbn + k);
        block.set_bytes(size * k, &container[at..at + size]);
    }
    block
}
