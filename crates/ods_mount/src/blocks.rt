//! The blocks of a file, read as the blocks of a directory.
ghost use Rattle.std.specs.Prelude.{◌≡◌, ◌<◌, ◌^◌, length};
ghost use Rattle.ods_space.specs.Files.{AreInside};

use ods_base::{Block, Image};
use ods_directory::{DirBlocks, Tags};

/// The blocks of an image at these LBNs.
#[derive(Drop)]
pub struct FileBlocks<'a> {
    image: &'a Image,
    lbns: &'a [u32],
    ghost inside: { AreInside image.now lbns.now },
    ghost few: { length lbns.now < 2 ^ 32 },
}

impl<'a> FileBlocks<'a> {
    /// Makes the list of the blocks at these LBNs, all inside the image.
    pub fn new(image: &'a Image, lbns: &'a [u32]) -> FileBlocks<'a>
        requires inside { AreInside image.now lbns.now }
        requires few { length lbns.now < 2 ^ 32 }
        ensures { (result.image.now ≡ image.now) × (result.lbns.now ≡ lbns.now) }
    {
        FileBlocks { image, lbns }
    }
}

impl DirBlocks for FileBlocks<'_> {
    ghost use Rattle.std.specs.Prelude.{◌≡◌, map, drop};
    ghost use Rattle.ods_base.specs.Image.{block_at};

    ghost blocks = { λ f. map (block_at f.image.now) f.lbns.now };

    /// The number of the next block.
    type Cursor = u32;

    ghost leads = { λ f i rest. rest ≡ drop i (map (block_at f.image.now) f.lbns.now) };

    fn count(&self) -> u32 {
        self.lbns.len() as u32
    }

    fn block(&self, i: u32) -> &Block {
        self.image.block(self.lbns[i as usize])
    }

    /// A mount reads each block once.
    fn tags(&self) -> Option<&[Tags]> {
        None
    }

    fn cursor(&self) -> u32 {
        0
    }

    fn next(&self, cursor: &mut u32) -> &Block {
        let i = *cursor;
        *cursor += 1;
        self.image.block(self.lbns[i as usize])
    }
}
