//! Images whose bytes all have one value.
ghost use Rattle.std.specs.Prelude.{◌≡◌, ◌≤◌, ◌^◌, IfOk, replicate};

use ods_base::Image;
use std::alloc::{AllocError, Global};
use std::io;
use std::io::Read;

/// Returns the image of `blocks` blocks, whose bytes are all `byte`. It takes only the memory of the image and a piece of 64 KiB.
pub fn filled_image(alloc: Global, blocks: u32, byte: u8) -> Result<Image, AllocError>
    requires { blocks ≤ 2 ^ 20 }
    ensures { IfOk result (λ image. image ≡ replicate blocks (replicate 512 byte)) }
{
    let mut bytes = Filling {
        byte,
        left: 512 * blocks as usize,
    };
    match Image::read_from(alloc, &mut bytes) {
        Ok(image) => Ok(image),
        Err(_) => Err(AllocError),
    }
}

/// A reader that gives one byte so many times.
#[derive(Drop)]
struct Filling {
    byte: u8,
    left: usize,
}

impl Read for Filling {
    ghost use Rattle.std.specs.Prelude.{Some, replicate};

    ghost remaining = { λ f. Some (replicate f.left f.byte) };

    fn read(&mut self, buf: &mut [u8]) -> io::Result<usize> {
        let count = buf.len().min(self.left);
        buf[..count].fill(self.byte);
        self.left -= count;
        Ok(count)
    }
}
