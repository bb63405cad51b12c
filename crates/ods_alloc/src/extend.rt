//! Growing chains. A file receives blocks, and headers if its own have no room for their pointers, all in a draft.
ghost use Rattle.std.specs.Prelude.{◌≡◌, ◌≢◌, List, ℕ, IfOk, OnOk, OnErr};
ghost use Rattle.ods_space.specs.Files.{IsLayoutOf};
ghost use Rattle.ods_alloc.specs.Ends.{AreEnds};
ghost use Rattle.ods_alloc.specs.Extend.{CanExtend, ExtendsDrafted, HasChainInUse, IsWellPlaced, cut};
ghost use Rattle.ods_space.specs.Disks.{drafted};

use crate::ChainEnd;
use crate::bitmap::{mark_blocks, mark_numbers};
use crate::end::{DraftedDisk, drafted_end, valid_header};
use crate::headers::write_headers;
use crate::runs::runs_of_blocks;
use ods_base::Block;
use ods_header::Run;
use ods_space::{Disk, Draft};
use std::alloc::{AllocError, Global};

/// Appends blocks to the chain of a file in a draft, with these extension headers. The first header is already written but may not be in use yet. The
/// bits of all of them are marked as used. Each new header has the old sequence number of its block, plus one. The appended blocks keep their bytes.
/// After an `Err` the draft is unchanged.
pub fn extend_chain(
    alloc: Global,
    disk: &Disk<'_>,
    number: u16,
    blocks: &[u32],
    numbers: &[u16],
    draft: &mut Draft,
) -> Result<(), AllocError>
    ghost chain: { List ℕ × List ℕ }
    requires layout { drafted IsLayoutOf disk.now draft.old }
    requires places { IsWellPlaced disk.now.layout.now }
    requires chain { drafted HasChainInUse disk.now draft.old number chain }
    requires grows { drafted CanExtend disk.now draft.old number chain.0 blocks.now numbers.now }
    ensures ok { OnOk result
        (ExtendsDrafted disk.now draft.old number chain blocks.now numbers.now draft.new) }
    ensures err { OnErr result (draft.new ≡ draft.old) }
{
    let seen = DraftedDisk { disk: *disk, draft };
    let first = valid_header(&seen, number).unwrap();
    let end = drafted_end(&seen, number, first);
    let runs = runs_of_blocks(alloc, blocks)?;
    let changed = draft.copy()?;
    let grown = extend_from(disk, number, first, &end, blocks, numbers, &runs, changed)?;
    *draft = grown;
    Ok(())
}

/// Appends blocks, which these runs describe, to the chain of a file with this end, in a draft and with these extension headers. The first header is
/// written in the draft but may not be in use yet. Of the other existing headers only the last is used, and the caller supplies it. The bits of all
/// of them are marked as used, and the appended blocks keep their bytes. It takes the draft and returns it, unless it runs out of memory.
pub fn extend_from(
    disk: &Disk<'_>,
    number: u16,
    first: &Block,
    end: &ChainEnd<'_>,
    blocks: &[u32],
    numbers: &[u16],
    runs: &[Run],
    mut draft: Draft,
) -> Result<Draft, AllocError>
    ghost chain: { List ℕ × List ℕ }
    requires layout { drafted IsLayoutOf disk.now draft }
    requires places { IsWellPlaced disk.now.layout.now }
    requires chain { drafted HasChainInUse disk.now draft number chain }
    requires grows { drafted CanExtend disk.now draft number chain.0 blocks.now numbers.now }
    requires ends { drafted AreEnds disk.now draft number chain.0 first.now end.now }
    requires runs { runs.now ≡ cut blocks.now }
    ensures { IfOk result (ExtendsDrafted disk.now draft number chain blocks.now numbers.now) }
{
    let _ = disk.image.len();
    let last = last_header(number, first, end.number, end.last);
    write_headers(
        disk, number, first, end.number, last, numbers, runs, &mut draft,
    )?;
    mark_numbers(disk, numbers, true, &mut draft)?;
    mark_numbers(disk, &[number], true, &mut draft)?;
    mark_blocks(disk, blocks, false, &mut draft)?;
    Ok(draft)
}

/// The last header of a chain whose first is this one, as it is now, and whose last was that: one header is both.
fn last_header<'a>(number: u16, first: &'a Block, end: u16, last: &'a Block) -> &'a Block
    ensures one { end ≡ number → result.now ≡ first.now }
    ensures other { end ≢ number → result.now ≡ last.now }
{
    if end == number { first } else { last }
}
