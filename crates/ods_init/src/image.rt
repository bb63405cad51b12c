//! The image of a new volume.
ghost use Rattle.std.specs.Prelude.{◌≡◌, ◌≤◌, IfOk, IfErr};
ghost use Rattle.ods_mount.specs.Faults.{IsSound};
ghost use Rattle.ods_init.specs.Places.{AreFit};
ghost use Rattle.ods_init.specs.Blocks.{IsControlOf, IsNewBlock};
ghost use Rattle.ods_init.specs.New.{IsInitFault, IsNewVolume, IsVolumeOf};

use crate::bits::bits_between;
use crate::control::control_block;
use crate::filling::filled_image;
use crate::home::home_block;
use crate::master::master_directory;
use crate::places::places_of;
use crate::reserved::header_block;
use crate::{Blueprint, Details, InitFault, NewVolume};
use ods_base::{Block, Image, MAX_BLOCKS};
use std::alloc::{AllocError, Global};

/// The fewest blocks of a volume.
const LEAST_BLOCKS: u32 = 40;

/// Returns the image of a new, sound volume with five reserved files, and a master directory with their names. The fault is the first of TooSmall,
/// TooLarge and TooManyFiles that holds, or NoMemory.
pub fn init(alloc: Global, volume: &NewVolume) -> Result<Image, InitFault>
    ensures sound { IfOk result IsSound }
    ensures new { IfOk result (IsNewVolume volume.now) }
    ensures err { IfErr result (IsInitFault volume.now) }
{
    if volume.blocks < LEAST_BLOCKS {
        return Err(InitFault::TooSmall);
    }
    if volume.blocks > MAX_BLOCKS {
        return Err(InitFault::TooLarge);
    }
    let Some(places) = places_of(volume) else {
        return Err(InitFault::TooManyFiles);
    };
    let blueprint = Blueprint {
        blocks: volume.blocks,
        places,
        owner: volume.owner,
        details: Some(Details {
            label: volume.label,
            stamp: volume.stamp,
        }),
        filling: 0,
    };
    match make_volume(alloc, &blueprint) {
        Ok(image) => Ok(image),
        Err(_) => Err(InitFault::NoMemory),
    }
}

/// Returns the image of the volume of a blueprint, which is sound. It fails only when out of memory.
pub fn make_volume(alloc: Global, blueprint: &Blueprint) -> Result<Image, AllocError>
    requires { AreFit blueprint.now.blocks blueprint.now.places }
    ensures sound { IfOk result IsSound }
    ensures new { IfOk result (IsVolumeOf blueprint.now) }
{
    let mut image = filled_image(alloc, blueprint.blocks, blueprint.filling)?;
    for lbn in 0..blueprint.places.master + 1 {
        image.set_block(lbn, block_at(blueprint, lbn));
    }
    let _ = image.len();
    Ok(image)
}

/// The block at an LBN up to the master directory.
fn block_at(blueprint: &Blueprint, lbn: u32) -> Block
    requires fit { AreFit blueprint.now.blocks blueprint.now.places }
    requires used { lbn ≤ blueprint.now.places.master }
    ensures { IsNewBlock blueprint.now lbn result }
{
    let places = blueprint.places;
    let headers = 2 + places.index_bitmap_size;
    if lbn == 0 {
        Block::zeros()
    } else if lbn == 1 {
        home_block(blueprint)
    } else if lbn < headers {
        bits_between(0, 5u32.saturating_sub(4_096 * (lbn - 2)))
    } else if lbn < headers + 5 {
        header_block(blueprint, (lbn - headers) as u16 + 1)
    } else if lbn < places.control {
        Block::zeros()
    } else if lbn == places.control {
        control_of(blueprint)
    } else if lbn < places.master {
        let from = 4_096 * (lbn - places.control - 1);
        bits_between(
            (places.master + 1).saturating_sub(from),
            blueprint.blocks.saturating_sub(from),
        )
    } else {
        master_directory()
    }
}

/// The storage control block, which says nothing on a bare volume.
fn control_of(blueprint: &Blueprint) -> Block
    requires { AreFit blueprint.now.blocks blueprint.now.places }
    ensures { IsControlOf blueprint.now.details blueprint.now result }
{
    match &blueprint.details {
        Some(_) => control_block(blueprint.blocks, blueprint.places),
        None => Block::zeros(),
    }
}
