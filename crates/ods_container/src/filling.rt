//! The first blocks of some bytes as an image.
ghost use Rattle.std.specs.Prelude.{◌≡◌, ◌≤◌, ◌^◌, OnOk, IfOk};
ghost use Rattle.ods_base.specs.Image.{IsImage, image_bytes};
ghost use Rattle.ods_container.specs.Container.{volume_bytes};

use ods_base::Image;
use std::alloc::{AllocError, Global};

/// Returns the image of the first `count` blocks of these bytes, padded with zeros. If it succeeds, the bytes are unchanged.
pub(crate) fn first_blocks(
    alloc: Global,
    bytes: &mut Vec<u8>,
    count: u32,
) -> Result<Image, AllocError>
    requires { count ≤ 2 ^ 20 }
    ensures image { IfOk result (λ image. IsImage image × (image_bytes image ≡ volume_bytes bytes.old.items count)) }
    ensures stays { OnOk result (bytes.new.items ≡ bytes.old.items) }
{
    let length = bytes.len();
    let size = 512 * count as usize;
    let filled = length.max(size);
    bytes.reserve_exact(filled - length)?;
    bytes.resize(filled, 0)?;
    let Ok(image) = Image::from_bytes(alloc, &bytes[..size]) else {
        return Err(AllocError);
    };
    bytes.truncate(length);
    Ok(image)
}
