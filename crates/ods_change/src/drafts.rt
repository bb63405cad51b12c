//! Common drafts of requests: drafts of one or two blocks, and the blocks of a directory with another entry or another end mark.
ghost use Rattle.std.specs.Prelude.{◌≡◌, ◌+◌, ◌*◌, ◌/◌, ◌%◌, ◌<◌, ◌≤◌, ◌∷◌, [], IfOk, length};
ghost use Rattle.ods_base.specs.{Block.with_bytes, Image.block_at};
ghost use Rattle.ods_header.specs.{Attributes.IsWithAttributes, Attributes.KeepsOtherFields, Header.attributes_of};
ghost use Rattle.ods_space.specs.Files.{Holds};
ghost use Rattle.ods_directory.specs.Mark.{marked};
ghost use Rattle.ods_mount.specs.Sound.{IsSoundBy};
ghost use Rattle.ods_look.specs.Opening.{IsDirectoryAt};
ghost use Rattle.ods_space.specs.Disks.{on};

use ods_base::Block;
use ods_directory::{entry_block, put_entry, with_mark};
use ods_header::{attributes, with_attributes};
use ods_look::opening::OpenDirectory;
use ods_space::{Disk, Draft, locate_whole};
use std::alloc::{AllocError, Global};

/// Returns the draft that sets one block.
pub(crate) fn one_block(alloc: Global, lbn: u32, block: Block) -> Result<Draft, AllocError>
    ensures { IfOk result (λ draft. draft ≡ (lbn, block) ∷ []) }
{
    let mut draft = Draft::new(alloc);
    draft.set(lbn, block)?;
    Ok(draft)
}

/// Returns the draft that sets two blocks.
pub(crate) fn two_blocks(
    alloc: Global,
    lbn: u32,
    block: Block,
    other: u32,
    header: Block,
) -> Result<Draft, AllocError>
    ensures { IfOk result (λ draft. draft ≡ (other, header) ∷ (lbn, block) ∷ []) }
{
    let mut draft = one_block(alloc, lbn, block)?;
    draft.set(other, header)?;
    Ok(draft)
}

/// Returns the LBN of the directory block with the entry at byte `at`, and that block with `bytes` for the entry.
pub(crate) fn with_entry(
    disk: &Disk<'_>,
    number: u16,
    opened: &OpenDirectory,
    at: u64,
    bytes: [u8; 16],
) -> (u32, Block)
    requires sound { on IsSoundBy disk.now }
    requires directory { on IsDirectoryAt disk.now number opened.now }
    requires within { at / 512 < length opened.now.blocks }
    requires whole { at % 512 + 16 ≤ 512 }
    ensures held { on Holds disk.now number (at / 512 + 1) result.0 }
    ensures block { result.1 ≡ with_bytes (block_at disk.now.image.now result.0) (at % 512) bytes }
{
    let vbn = entry_block(at) as u32 + 1;
    let lbn = locate_whole(disk, number, opened.header, vbn).unwrap();
    let mut block = *disk.image.block(lbn);
    put_entry(&mut block, at, &bytes);
    (lbn, block)
}

/// Returns the first header of a directory with another end mark.
pub(crate) fn marked_header(header: &Block, mark: u64, count: u32) -> Block
    requires { mark < 512 * 4294967295 }
    ensures size { length (attributes_of header.now) ≡ 32 }
    ensures changed { IsWithAttributes header.now (marked (attributes_of header.now) mark count) result }
    ensures fields { KeepsOtherFields header.now (marked (attributes_of header.now) mark count) result }
{
    let attributes = with_mark(attributes(header), mark, count);
    with_attributes(header, &attributes)
}
