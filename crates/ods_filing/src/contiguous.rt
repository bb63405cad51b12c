//! Files put into a volume as one run of blocks.
ghost use Rattle.std.specs.Prelude.{◌≡◌, ◌≢◌, ◌<◌, ◌≤◌, replicate, IfErr, IfOk, OnErr};
ghost use Rattle.std.specs.List.{range_with_len};
ghost use Rattle.ods_amend.specs.Runs.{IsLowestRun};
ghost use Rattle.ods_base.specs.Name.{directory_type};
ghost use Rattle.ods_request.specs.{Catalogue.Plain, Steps.zero_blocks};
ghost use Rattle.ods_space.specs.Files.{HasBlocks};
ghost use Rattle.ods_state.specs.Outcome.{IsVersionNumber};
ghost use Rattle.ods_filing.specs.Contiguous.{IsAddedInOnePiece, IsNotInOnePiece, IsUnmadeInRun};
ghost use Rattle.ods_filing.specs.Put.{IsAdded, block_count, blocks_with, heading_of};

use crate::Filing;
use crate::put::{NewFile, fill, make, obey};
use crate::slices::blocks_for;
use ods_amend::{free_below, lowest_run};
use ods_base::FileId;
use ods_header::{CONTIGUOUS, HEADER_BLOCKS};
use ods_request::{Refusal, Request};
use std::alloc::Global;

/// Makes a file of the user, of so many blocks of zeros from this LBN on, where the lowest run of so many free blocks begins. While it is made the free blocks
/// before that count as taken, so that a Create, which takes the lowest ones, takes the run. INDEXF.SYS grows behind it, if it has to.
fn make_in_run(
    alloc: Global,
    filing: &mut Filing,
    file: &NewFile<'_>,
    blocks: usize,
    first: u32,
) -> Result<FileId, Refusal>
    requires version { IsVersionNumber file.now.version }
    requires plain { file.now.name.ext ≢ directory_type }
    requires few { blocks ≤ HEADER_BLOCKS }
    requires run { IsLowestRun filing.old.image filing.old.layout blocks first }
    ensures ok { IfOk result (λ id. IsAdded filing.old (heading_of file.now) id (Plain (replicate 32 0) (zero_blocks blocks)) filing.new) }
    ensures place { IfOk result (λ id. HasBlocks filing.new.image filing.new.layout id.number (range_with_len first blocks)) }
    ensures err { IfErr result (IsUnmadeInRun (heading_of file.now) blocks first filing.old filing.new) }
{
    let Ok(below) = free_below(alloc, &filing.disk(), first) else {
        return Err(Refusal::NoMemory);
    };
    let Ok(()) = filing.mark_blocks(&below, false) else {
        return Err(Refusal::NoMemory);
    };
    let id = make(filing, file, blocks)?;
    let _ = filing.disk();
    match filing.mark_blocks(&below, true) {
        Ok(()) => Ok(id),
        Err(_) => Err(Refusal::NoMemory),
    }
}

/// Adds a new file with these bytes in one run of blocks, as `put_file` does. Its blocks are the lowest run of enough free blocks,
/// and its header marks it as contiguous if it has any block. The refusal is ChainFull if one header cannot map so many blocks, and VolumeFull if no
/// run is long enough. After a refusal the volume may have a part of the file, and blocks that count as in use: for all or nothing, keep a copy.
pub fn put_contiguous(
    alloc: Global,
    filing: &mut Filing,
    file: &NewFile<'_>,
) -> Result<FileId, Refusal>
    requires version { IsVersionNumber file.now.version }
    requires plain { file.now.name.ext ≢ directory_type }
    ensures ok { IfOk result (λ id. IsAddedInOnePiece filing.old (heading_of file.now) id (block_count file.now.bytes.now)
        (Plain file.now.attributes (blocks_with file.now.bytes.now)) filing.new) }
    ensures err { IfErr result (IsNotInOnePiece (heading_of file.now) file.now.attributes file.now.bytes.now filing.old filing.new) }
{
    let count = blocks_for(file.bytes);
    if count > HEADER_BLOCKS {
        return Err(Refusal::ChainFull);
    }
    let Some(first) = lowest_run(&filing.disk(), count as u32) else {
        return Err(Refusal::VolumeFull);
    };
    let id = make_in_run(alloc, filing, file, count, first)?;
    fill(filing, id, file.bytes)?;
    let request = Request::SetUser {
        file: id,
        attributes: file.attributes,
    };
    obey(filing, request)?;
    let _ = filing.disk();
    if count > 0 {
        filing.set_characteristics(id, CONTIGUOUS)?;
    }
    Ok(id)
}
