//! Files put into a volume.
ghost use Rattle.std.specs.Prelude.{◌≡◌, ◌≢◌, ◌≤◌, replicate, IfOk, IfErr, OnErr, OnOk};
ghost use Rattle.ods_base.specs.{declared.file_id.FileId.FileId, Name.directory_type, Name.RadName};
ghost use Rattle.ods_request.specs.{declared.refusals.Refusal.Refusal, Catalogue.Plain, Steps.zero_blocks};
ghost use Rattle.ods_request.specs.declared.answers.Answer.{Answer};
ghost use Rattle.ods_request.specs.declared.answers.Answer.TheVariants as answer;
ghost use Rattle.ods_filing.specs.Contiguous.{IsWrittenShort, KeepsBlocks};
ghost use Rattle.ods_state.specs.Outcome.{IsVersionNumber, CanBeAsked};
ghost use Rattle.ods_filing.specs.Filed.{Filed, IsDone, IsRefusedFor};
ghost use Rattle.ods_filing.specs.Led.{Fills, IsLed};
ghost use Rattle.ods_filing.specs.Put.{Heading, IsAdded, block_count, blocks_with, heading_of};
ghost use Rattle.ods_filing.specs.Unput.{IsInPart, IsNotFilled, IsNotGrown, IsUnput};

use crate::Filing;
use crate::slices::{block_of, blocks_for};
use ods_base::{FileId, MAX_BLOCKS, Name};
use ods_request::{Answer, Refusal, Request, Stamp};

/// A file to be put: the name, version and date for its header, its 32 bytes of user attributes, and its bytes.
#[derive(Drop)]
pub struct NewFile<'a> {
    pub name: Name,
    /// From 1 to 32,767.
    pub version: u16,
    pub stamp: Stamp,
    pub attributes: [u8; 32],
    pub bytes: &'a [u8],
}

/// How many blocks one request asks for at most.
const MOST: usize = 65_535;

/// Makes a file of the user, of this many blocks of zeros, by one request.
pub(crate) fn make(
    filing: &mut Filing,
    file: &NewFile<'_>,
    blocks: usize,
) -> Result<FileId, Refusal>
    requires version { IsVersionNumber file.now.version }
    requires plain { file.now.name.ext ≢ directory_type }
    requires few { blocks ≤ MOST }
    ensures ok { IfOk result (λ id. IsAdded filing.old (heading_of file.now) id (Plain (replicate 32 0) (zero_blocks blocks)) filing.new) }
    ensures done { IfOk result (λ id. IsDone filing.old (Request.Create file.now.name file.now.version blocks file.now.stamp) (answer.Created id) filing.new) }
    ensures led { OnOk result (IsLed Fills filing.old filing.new) }
    ensures err { IfErr result (IsRefusedFor filing.old (Request.Create file.now.name file.now.version blocks file.now.stamp)) }
    ensures unchanged { OnErr result (filing.new ≡ filing.old) }
{
    let _ = filing.disk();
    let made = filing.request(&Request::Create {
        name: file.name,
        version: file.version,
        blocks: blocks as u32,
        stamp: file.stamp,
    })?;
    match made {
        Answer::Created(id) => Ok(id),
        // Create is answered by the new file.
        _ => unreachable!(),
    }
}

/// Carries out one request and drops its answer.
pub(crate) fn obey(filing: &mut Filing, request: Request) -> Result<(), Refusal>
    requires { CanBeAsked request }
    ensures ok { OnOk result ((a : Answer) × IsDone filing.old request a filing.new) }
    ensures err { IfErr result (IsRefusedFor filing.old request) }
    ensures unchanged { OnErr result (filing.new ≡ filing.old) }
{
    let _made = filing.request(&request)?;
    Ok(())
}

/// Puts blocks of zeros behind the `first` that a new file has, until it has `count`.
fn extend_to(filing: &mut Filing, id: FileId, first: usize, count: usize) -> Result<(), Refusal>
    requires { first ≤ count }
    ensures ok { OnOk result ((old : Filed) (heading : Heading) → IsAdded old heading id (Plain (replicate 32 0) (zero_blocks first)) filing.old
        → IsAdded old heading id (Plain (replicate 32 0) (zero_blocks count)) filing.new) }
    ensures led { OnOk result (IsLed Fills filing.old filing.new) }
    // Refused, it has some of them, and the next ones are refused.
    ensures err { IfErr result (λ f. (old : Filed) (heading : Heading) → IsInPart old heading id (zero_blocks first) filing.old → IsNotGrown old heading id first count filing.new f) }
{
    let mut have = first;
    while have < count {
        let more = (count - have).min(MOST);
        let request = Request::Extend {
            file: id,
            blocks: more as u32,
        };
        obey(filing, request)?;
        have += more;
    }
    Ok(())
}

/// Writes the bytes into the blocks of a new file, which has enough blocks.
pub(crate) fn fill(filing: &mut Filing, id: FileId, bytes: &[u8]) -> Result<(), Refusal>
    requires { block_count bytes.now ≤ MAX_BLOCKS }
    ensures ok { OnOk result ((old : Filed) (heading : Heading) → IsAdded old heading id (Plain (replicate 32 0) (zero_blocks (block_count bytes.now))) filing.old
        → IsAdded old heading id (Plain (replicate 32 0) (blocks_with bytes.now)) filing.new) }
    ensures led { OnOk result (IsLed Fills filing.old filing.new) }
    ensures kept { OnOk result (KeepsBlocks filing.old filing.new) }
    ensures stops { IfErr result (λ f. (old : Filed) (heading : Heading) → IsAdded old heading id (Plain (replicate 32 0) (zero_blocks (block_count bytes.now))) filing.old
        → IsWrittenShort old heading id bytes.now filing.new f) }
    // Refused, it has the bytes of some blocks, and those of the next one are refused.
    ensures err { IfErr result (λ f. (old : Filed) (heading : Heading) → IsInPart old heading id (zero_blocks (block_count bytes.now)) filing.old
        → IsNotFilled old heading id bytes.now filing.new f) }
{
    for k in 0..blocks_for(bytes) {
        let request = Request::Write {
            file: id,
            vbn: k as u32 + 1,
            block: block_of(bytes, k),
        };
        obey(filing, request)?;
        let _ = filing.disk();
    }
    Ok(())
}

/// Adds a new file with these bytes, and returns its new ID. The file belongs to the user, and has the default protection, these attributes, and this
/// name, version and date in its ident. Its blocks hold the bytes, 512 each, and the last block is padded with zeros. The file is entered in no
/// directory. The name must not have type DIR, which would make a directory. After a refusal the volume may have a part of the file: for all or
/// nothing, keep a copy.
pub fn put_file(filing: &mut Filing, file: &NewFile<'_>) -> Result<FileId, Refusal>
    requires version { IsVersionNumber file.now.version }
    requires plain { file.now.name.ext ≢ directory_type }
    ensures ok { IfOk result (λ id. IsAdded filing.old (heading_of file.now) id (Plain file.now.attributes (blocks_with file.now.bytes.now)) filing.new) }
    // The volume is what Create, Extend, Write and SetUser leave, and nothing else is asked for.
    ensures led { OnOk result (IsLed Fills filing.old filing.new) }
    // Refused, the first of its requests that the volume refuses says why, and all before that are done. Or no volume has as many blocks as the bytes take.
    ensures err { IfErr result (IsUnput (heading_of file.now) file.now.attributes file.now.bytes.now filing.old filing.new) }
{
    let count = blocks_for(file.bytes);
    if count > MAX_BLOCKS as usize {
        return Err(Refusal::VolumeFull);
    }
    let first = count.min(MOST);
    let id = make(filing, file, first)?;
    extend_to(filing, id, first, count)?;
    fill(filing, id, file.bytes)?;
    let request = Request::SetUser {
        file: id,
        attributes: file.attributes,
    };
    obey(filing, request)?;
    Ok(id)
}
