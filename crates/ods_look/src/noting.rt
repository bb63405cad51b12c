//! Notes about a directory: its blocks, and the tags of their entries.
ghost use Rattle.std.specs.Prelude.{◌≡◌, ◌++◌, ℕ, List, IfOk, IfSome, OnOk};
ghost use Rattle.ods_space.specs.{Files.AreInside, Files.HasBlocks, Files.IsFile};
ghost use Rattle.ods_space.specs.Disks.{header_on, on};
ghost use Rattle.ods_mount.specs.Sound.{IsSoundBy};
ghost use Rattle.ods_state.specs.Noted.{AreNamesKnown};
ghost use Rattle.ods_look.specs.Blocks.{AreTaggedBlocks};

use ods_base::{Block, Image};
use ods_directory::{Tags, block_tags};
use ods_header::is_directory;
use ods_space::{BlockCursor, Disk, count_whole, primary_header};
use ods_state::KnownNames;
use std::alloc::{AllocError, Global};

/// The fewest blocks of a directory that is worth a note.
const FEWEST: u32 = 3;

/// Makes the notes about the directory with this number. Returns `None` if the directory has few blocks, or memory is refused.
pub fn known_names(alloc: Global, disk: &Disk<'_>, number: u16) -> Option<KnownNames>
    requires { on IsSoundBy disk.now }
    ensures { IfSome result (on AreNamesKnown disk.now) }
{
    let Some(header) = primary_header(disk, number) else {
        return None;
    };
    if !is_directory(number, header) {
        return None;
    }
    let count = count_whole(disk, number, header);
    if count < FEWEST {
        return None;
    }
    let Ok((blocks, tags)) = tagged_blocks(alloc, disk, number, header, count) else {
        return None;
    };
    Some(KnownNames {
        file: number,
        blocks,
        tags,
    })
}

/// The blocks of a file, so many, and the tags of each.
fn tagged_blocks(
    alloc: Global,
    disk: &Disk<'_>,
    number: u16,
    header: &Block,
    count: u32,
) -> Result<(Vec<u32>, Vec<Tags>), AllocError>
    requires sound { on IsSoundBy disk.now }
    requires file { on IsFile disk.now number }
    requires header { header.now ≡ header_on disk.now number }
    ensures { IfOk result (λ r. (held : List ℕ) × on HasBlocks disk.now number held × (r.0.items ≡ held) × AreTaggedBlocks disk.now.image.now held r.1.items) }
{
    // The blocks of an image have bytes.
    let _ = disk.image.len();
    let mut blocks = Vec::with_capacity(alloc, count as usize)?;
    let mut tags = Vec::with_capacity(alloc, count as usize)?;
    let mut lbns = BlockCursor::from(disk, number, header);
    note_each(disk.image, &mut lbns, &mut blocks, &mut tags)?;
    Ok((blocks, tags))
}

/// Adds each block that is to come, and its tags.
fn note_each(
    image: &Image,
    lbns: &mut BlockCursor<'_>,
    blocks: &mut Vec<u32>,
    tags: &mut Vec<Tags>,
) -> Result<(), AllocError>
    requires inside { AreInside image.now lbns.old }
    requires before { AreTaggedBlocks image.now blocks.old.items tags.old.items }
    ensures blocks { OnOk result (blocks.new.items ≡ blocks.old.items ++ lbns.old) }
    ensures tags { OnOk result (AreTaggedBlocks image.now blocks.new.items tags.new.items) }
{
    while let Some(lbn) = lbns.next() {
        blocks.push(lbn)?;
        tags.push(block_tags(image.block(lbn)))?;
    }
    Ok(())
}
