//! The LBNs and sizes of the structures of a new volume.
ghost use Rattle.std.specs.Prelude.{◌≡◌, ◌≤◌, ◌^◌, MatchOption};
ghost use Rattle.ods_init.specs.Places.{HasRoom, places};

use crate::NewVolume;
use ods_header::HEADER_BLOCKS;

/// The blocks that the one header of INDEXF.SYS can map.
const MOST_INDEX_BLOCKS: u32 = HEADER_BLOCKS as u32;

/// The LBNs and sizes of the structures of a new volume. INDEXF.SYS has the blocks from LBN 0 on, and the index bitmap begins at LBN 2.
#[derive(Clone, Copy)]
pub struct Places {
    /// The highest file number, H.FMAX.
    pub most_files: u32,
    /// The number of blocks of the index bitmap, H.IBSZ.
    pub index_bitmap_size: u32,
    /// The LBN of the storage control block, which is the first block after INDEXF.SYS.
    pub control: u32,
    /// The number of blocks of the storage bitmap, which follows the storage control block.
    pub map_blocks: u32,
    /// The LBN of the master directory, after the bitmap. The blocks after it are free.
    pub master: u32,
}

/// Returns the structures of a volume. It returns `None` if they do not fit into the volume, or if INDEXF.SYS has more blocks than one header maps.
pub fn places_of(volume: &NewVolume) -> Option<Places>
    requires { volume.now.blocks ≤ 2 ^ 20 }
    ensures { MatchOption result (¬ HasRoom volume.now.blocks volume.now.files)
        (λ found. HasRoom volume.now.blocks volume.now.files × (found ≡ places volume.now.blocks volume.now.files)) }
{
    let most_files = volume.blocks.min(65_535);
    let index_bitmap_size = (most_files + 4_095) / 4_096;
    let map_blocks = (volume.blocks + 4_095) / 4_096;
    if volume.files > MOST_INDEX_BLOCKS {
        return None;
    }
    let control = 2 + index_bitmap_size + (volume.files + 5).max(16);
    let master = control + 1 + map_blocks;
    if control > MOST_INDEX_BLOCKS || master >= volume.blocks {
        return None;
    }
    Some(Places {
        most_files,
        index_bitmap_size,
        control,
        map_blocks,
        master,
    })
}
