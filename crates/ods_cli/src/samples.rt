//! Sample volumes: bare ones of 40 and of 512 blocks, made in memory.
ghost use Rattle.std.specs.Prelude.{◌≡◌, ◌*◌, ◌⊎◌, IfOk, vec_len};
ghost use Rattle.ods_cli.specs.Sample.{IsSample, sample_blueprint};

use ods_base::Uic;
use ods_init::{Blueprint, Places, make_volume};
use std::alloc::{AllocError, Global};

/// Returns the bytes of a sample volume of 40 or 512 blocks. Its blocks from LBN 22 on are free, and each of their bytes is 0x5A. It fails only when
/// out of memory.
pub fn sample(alloc: Global, blocks: u32) -> Result<Vec<u8>, AllocError>
    requires { (blocks ≡ 40) ⊎ (blocks ≡ 512) }
    ensures blocks { IfOk result (λ bytes. IsSample blocks bytes.items) }
    ensures size { IfOk result (λ bytes. vec_len bytes ≡ 512 * blocks) }
{
    let image = make_volume(alloc, &sample_blueprint(blocks))?;
    let mut bytes = Vec::with_capacity(alloc, 512 * blocks as usize)?;
    match image.write_to(&mut bytes) {
        Ok(()) => Ok(bytes),
        Err(_) => Err(AllocError),
    }
}

/// The blueprint of a sample volume: 16 files at most, structures up to LBN 21, the owner [1,1], no label and no dates.
fn sample_blueprint(blocks: u32) -> Blueprint
    ensures { result ≡ sample_blueprint blocks }
{
    Blueprint {
        blocks,
        places: Places {
            most_files: 16,
            index_bitmap_size: 1,
            control: 19,
            map_blocks: 1,
            master: 21,
        },
        owner: Uic {
            group: 1,
            member: 1,
        },
        details: None,
        filling: 0x5a,
    }
}
