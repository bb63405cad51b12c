//! `append` writes bytes of the host past the end of a file.
ghost use Rattle.std.specs.Prelude.{◌≡◌, ◌≤◌, ◌⊎◌, ◌+◌, ◌*◌, ◌-◌, ◌^◌, ◌==◌, ◌<◌, ◌++◌, if◌then◌else◌, [], ◌∷◌, length, replicate, IfErr, IfOk, MatchResult, OnOk};
ghost use Rattle.ods_filing.specs.Led.{IsLed};
ghost use Rattle.ods_filing.specs.Put.{block_count, block_with};
ghost use Rattle.ods_records.specs.Faults.{IsFirstFault};
ghost use Rattle.ods_records.specs.declared.faults.RecordFault.{RecordFault};
ghost use Rattle.ods_records.specs.declared.kind.RecordKind.TheVariants.{Variable};
ghost use Rattle.ods_request.specs.declared.refusals.Refusal.{Refusal};
ghost use Rattle.ods_space.specs.{Disks.on, Files.FindsFiles, Free.free_blocks};
ghost use Rattle.ods_upkeep.specs.Appended.{AreBehind, AreBytesBehind, AreNotBehind, HasBytes, IsCompleted, IsGrown, IsNoTextBehind, IsNotGrown, IsNotOpen, IsNotOpened, IsOpen, IsOpened, IsPadded, IsTextBehind, IsUnended, appends, grows, kind_number, with_size as sized_as, writes};
ghost use Rattle.ods_upkeep.specs.declared.put_fault.PutFault.TheVariants.{NoRecords};
ghost use Rattle.ods_upkeep.specs.{Kinds.Appends, Pieces.with_end, Refused.HasPath, Refused.StopsAt, Refused.no_memory, Removed.Does};

use crate::asking::obey;
use crate::attributes::are_zeros;
use crate::copying::why_unread;
use crate::failure::{Failure, Why, of_path};
use crate::put_fault::PutFault;
use crate::written::lacks_last_lf;
use ods_base::{Block, FileId, MAX_BYTES};
use ods_files::{FileBody, Form};
use ods_filing::{Filing, blocks_for};
use ods_mount::Mounted;
use ods_records::{RecordKind, ending_at, record_size, survey_records, text_to_records};
use ods_request::{Refusal, Request};
use ods_shell::mounted::find_path;
use ods_shell::{Alone, Facts, Kind, PathFault, Unsaid};
use ods_space::Disk;
use std::alloc::{AllocError, Global};

/// How many blocks one request asks for at most.
const MOST: usize = 65_535;

/// Returns the one file that a path selects, if bytes can be appended to it.
pub fn open_end(alloc: Global, volume: &Mounted, path: &str) -> Result<Facts, Failure>
    ensures { MatchResult result (IsOpened volume.now.image volume.now.layout path.now)
        (λ failure. HasPath failure path.now × IsNotOpened volume.now.image volume.now.layout path.now failure.why) }
{
    match the_file(alloc, volume, path) {
        Ok(facts) => Ok(facts),
        Err(why) => Err(of_path(alloc, path, why)),
    }
}

/// Returns the number of bytes that the volume has room for past the end of a file.
pub fn room_behind(filing: &Filing, facts: &Facts) -> u64
    ensures { result ≡ 512 * (length (free_blocks filing.now.image filing.now.layout) + facts.now.blocks) - facts.now.bytes }
{
    let blocks = u64::from(filing.free_count()) + u64::from(facts.blocks);
    (512 * blocks).saturating_sub(facts.bytes)
}

/// Appends bytes of the host to a file: as records if it has variable records, otherwise unchanged. Returns whether a last line without LF became a
/// record.
pub fn append_bytes(
    alloc: Global,
    filing: &mut Filing,
    path: &str,
    facts: &Facts,
    bytes: &[u8],
) -> Result<bool, Failure>
    // Refused or not, it is what Extend, Write and SetUser leave.
    ensures led { IsLed Appends filing.old filing.new }
    // Done, the file has the new bytes behind the old ones, and nothing else was done.
    ensures done { OnOk result (IsGrown facts.now bytes.now filing.old filing.new) }
    ensures completed { IfOk result (IsCompleted facts.now bytes.now) }
    // Refused, it is so for a reason that holds, and of the path.
    ensures refused { IfErr result (λ failure. HasPath failure path.now × IsNotGrown facts.now bytes.now filing.old filing.new failure.why) }
{
    match append(alloc, filing, facts, bytes) {
        Ok(()) => Ok(is_completed(facts, bytes)),
        Err(why) => Err(of_path(alloc, path, why)),
    }
}

/// Whether a last line without LF becomes a record.
fn is_completed(facts: &Facts, bytes: &[u8]) -> bool
    ensures { IsCompleted facts.now bytes.now result }
{
    has_records(&facts.attributes) && lacks_last_lf(bytes)
}

/// The one file that a path names, where bytes can go behind its end.
fn the_file(alloc: Global, volume: &Mounted, path: &str) -> Result<Facts, Why>
    ensures { MatchResult result (IsOpened volume.now.image volume.now.layout path.now) (IsNotOpened volume.now.image volume.now.layout path.now) }
{
    let (found, _) = find_path(alloc, volume, path, Unsaid::highest(Alone::Refused), &[])?;
    let [one] = found.as_slice() else {
        return Err(Why::Several);
    };
    with_open_end(one.facts)
}

/// What is known of a file, where bytes can go behind its end.
fn with_open_end(known: Option<Facts>) -> Result<Facts, Why>
    ensures { MatchResult result (IsOpen known) (IsNotOpen known) }
{
    let Some(facts) = known else {
        return Err(Why::Path(PathFault::NoSuchFile));
    };
    if facts.kind == Kind::Directory {
        return Err(Why::IsDirectory);
    }
    if facts.file.number <= 5 {
        return Err(Why::Request(Refusal::Reserved));
    }
    if are_zeros(&facts.attributes) {
        return Err(Why::Put(PutFault::NoEnd));
    }
    let kind = kind_number(&facts.attributes);
    if kind > 2 {
        return Err(Why::Put(PutFault::OtherKind(kind)));
    }
    Ok(facts)
}

/// F.RTYP.
fn kind_number(attributes: &[u8; 32]) -> u8
    ensures { result ≡ kind_number attributes.now }
{
    attributes[0] % 16
}

/// Whether a file with these attributes has variable records.
fn has_records(attributes: &[u8; 32]) -> bool
    ensures { result ≡ (kind_number attributes.now == 2) }
{
    kind_number(attributes) == 2
}

/// Puts bytes behind the end of a file. Where there are none, nothing is done.
fn append(alloc: Global, filing: &mut Filing, facts: &Facts, bytes: &[u8]) -> Result<(), Why>
    ensures done { OnOk result (IsGrown facts.now bytes.now filing.old filing.new) }
    ensures refused { IfErr result (IsNotGrown facts.now bytes.now filing.old filing.new) }
{
    if bytes.is_empty() {
        return Ok(());
    }
    let mut all = bytes_to_end(alloc, filing, facts.file)?;
    let held = all.len();
    let attributes = add(alloc, &facts.attributes, &mut all, bytes)?;
    write_behind(filing, facts, held, all.as_slice(), attributes)
}

/// The bytes of a file up to its end.
fn bytes_to_end(alloc: Global, filing: &Filing, file: FileId) -> Result<Vec<u8>, Why>
    ensures ok { IfOk result (λ bytes. HasBytes filing.now.image filing.now.layout file.number bytes.items) }
    ensures err { IfErr result (IsUnended filing.now.image filing.now.layout file.number) }
{
    let disk = filing.disk();
    end_bytes_on(alloc, &disk, file)
}

/// The same on a disk.
fn end_bytes_on(alloc: Global, disk: &Disk<'_>, file: FileId) -> Result<Vec<u8>, Why>
    requires { on FindsFiles disk.now }
    ensures ok { IfOk result (λ bytes. on HasBytes disk.now file.number bytes.items) }
    ensures err { IfErr result (on IsUnended disk.now file.number) }
{
    let body = match FileBody::open(alloc, disk, file.number) {
        Ok(body) => body,
        Err(fault) => return Err(why_unread(fault)),
    };
    let read = match body.read(alloc, Form::Binary) {
        Ok(read) => read,
        Err(_) => return Err(Why::Request(Refusal::NoMemory)),
    };
    match read {
        Some(bytes) => Ok(bytes),
        None => Err(Why::Put(PutFault::PastBlocks)),
    }
}

/// Puts new bytes behind old ones in memory, as the attributes of the file say; gives its attributes then.
fn add(alloc: Global, own: &[u8; 32], all: &mut Vec<u8>, bytes: &[u8]) -> Result<[u8; 32], Why>
    ensures ok { IfOk result (λ attributes. AreBehind own.now all.old.items bytes.now all.new.items attributes) }
    ensures err { IfErr result (AreNotBehind own.now all.old.items bytes.now) }
{
    if has_records(own) {
        add_text(alloc, own, all, bytes)
    } else {
        add_bytes(own, all, bytes)
    }
}

/// Puts bytes behind others as they are.
fn add_bytes(own: &[u8; 32], all: &mut Vec<u8>, bytes: &[u8]) -> Result<[u8; 32], Why>
    ensures ok { IfOk result (AreBytesBehind own.now all.old.items bytes.now all.new.items) }
    ensures err { IfErr result (λ why. (why ≡ no_memory) ⊎ ((why ≡ Why.Request Refusal.VolumeFull) × (512 * 2 ^ 20 ≤ length all.old.items + length bytes.now))) }
{
    all.extend_from_slice(bytes)?;
    let attributes = end_behind(own, all.as_slice())?;
    Ok(attributes)
}

/// These attributes with the end of file behind these bytes.
fn end_behind(own: &[u8; 32], all: &[u8]) -> Result<[u8; 32], Why>
    ensures ok { IfOk result (λ attributes. (length all.now < 512 * 2 ^ 20) × (attributes ≡ with_end own.now (length all.now))) }
    ensures err { IfErr result (λ why. (why ≡ Why.Request Refusal.VolumeFull) × (512 * 2 ^ 20 ≤ length all.now)) }
{
    let length = all.len();
    if length >= MAX_BYTES {
        return Err(Why::Request(Refusal::VolumeFull));
    }
    Ok(ending_at(own, length as u64))
}

/// Puts the lines of a text as records behind others.
fn add_text(alloc: Global, own: &[u8; 32], all: &mut Vec<u8>, text: &[u8]) -> Result<[u8; 32], Why>
    ensures ok { IfOk result (IsTextBehind own.now all.old.items text.now all.new.items) }
    ensures err { IfErr result (IsNoTextBehind all.old.items text.now) }
{
    let pad = pad_behind(alloc, all.as_slice())?;
    let records = match text_to_records(alloc, text) {
        Ok(records) => records,
        Err(fault) => return Err(Why::Text(fault)),
    };
    push_zeros(all, pad)?;
    all.extend_from_slice(records.bytes.as_slice())?;
    let attributes = end_behind(&with_size(own, records.longest), all.as_slice())?;
    Ok(attributes)
}

/// How many zeros stand between whole records and those that follow: one where the last lacks its pad byte, and the rest of a block that is not used.
fn pad_behind(alloc: Global, old: &[u8]) -> Result<usize, Why>
    ensures ok { IfOk result (IsPadded old.now) }
    ensures err { IfErr result (λ why. ((fault : RecordFault) × (why ≡ Why.Put (NoRecords fault)) × IsFirstFault Variable old.now fault) ⊎ (why ≡ no_memory)) }
{
    if let Err(fault) = survey_records(RecordKind::Variable, old) {
        return Err(Why::Put(PutFault::NoRecords(fault)));
    }
    let odd = old.len() % 2;
    // One byte more is no length of a record. Where it stands for nothing, the rest of the block is not used.
    let longer = with_zeros(alloc, old, odd + 1)?;
    match survey_records(RecordKind::Variable, longer.as_slice()) {
        Ok(_) => Ok(512 - old.len() % 512),
        Err(_) => Ok(odd),
    }
}

/// These bytes with so many zeros behind them.
fn with_zeros(alloc: Global, bytes: &[u8], count: usize) -> Result<Vec<u8>, AllocError>
    ensures { IfOk result (λ longer. longer.items ≡ bytes.now ++ replicate count 0) }
{
    let mut longer = Vec::new(alloc);
    longer.extend_from_slice(bytes)?;
    push_zeros(&mut longer, count)?;
    Ok(longer)
}

/// Puts so many zeros at the end.
fn push_zeros(bytes: &mut Vec<u8>, count: usize) -> Result<(), AllocError>
    ensures { OnOk result (bytes.new.items ≡ bytes.old.items ++ replicate count 0) }
{
    for done in 0..count {
        bytes.push(0)?;
    }
    Ok(())
}

/// These attributes for a longest record of so many bytes: F.RSIZ is the greater of both, where it is not 0.
fn with_size(own: &[u8; 32], longest: u16) -> [u8; 32]
    ensures { result ≡ sized_as own.now longest }
{
    let size = record_size(own);
    if size == 0 || longest <= size {
        return *own;
    }
    let mut new = *own;
    new[2] = (longest % 256) as u8;
    new[3] = (longest / 256) as u8;
    new
}

/// Makes these all bytes of a file, of which so many stand.
fn write_behind(
    filing: &mut Filing,
    facts: &Facts,
    held: usize,
    all: &[u8],
    attributes: [u8; 32],
) -> Result<(), Why>
    requires small { length all.now < 512 * 2 ^ 20 }
    requires longer { held ≤ length all.now }
    ensures done { OnOk result (Does filing.old (appends facts.now held all.now attributes) filing.new) }
    ensures refused { IfErr result (StopsAt filing.old (appends facts.now held all.now attributes) filing.new) }
{
    let blocks = facts.blocks as usize;
    grow(filing, facts.file, blocks_for(all).saturating_sub(blocks))?;
    write_from(filing, facts.file, all, held / 512)?;
    obey(
        filing,
        Request::SetUser {
            file: facts.file,
            attributes,
        },
    )
}

/// Gives a file so many blocks more.
fn grow(filing: &mut Filing, file: FileId, more: usize) -> Result<(), Why>
    ensures done { OnOk result (Does filing.old (grows file more) filing.new) }
    ensures refused { IfErr result (StopsAt filing.old (grows file more) filing.new) }
{
    for done in 0..more / MOST {
        obey(
            filing,
            Request::Extend {
                file,
                blocks: MOST as u32,
            },
        )?;
    }
    grow_rest(filing, file, more % MOST)
}

/// Gives a file so many blocks more, which one request asks for, where there are any.
fn grow_rest(filing: &mut Filing, file: FileId, more: usize) -> Result<(), Why>
    requires { more ≤ MOST }
    ensures done { OnOk result (Does filing.old (if more == 0 then [] else Request.Extend file more ∷ []) filing.new) }
    ensures refused { IfErr result (StopsAt filing.old (if more == 0 then [] else Request.Extend file more ∷ []) filing.new) }
{
    if more == 0 {
        return Ok(());
    }
    obey(
        filing,
        Request::Extend {
            file,
            blocks: more as u32,
        },
    )
}

/// Writes the blocks of these bytes into a file, from one on.
fn write_from(filing: &mut Filing, file: FileId, all: &[u8], first: usize) -> Result<(), Why>
    requires small { length all.now < 512 * 2 ^ 20 }
    requires within { first ≤ block_count all.now }
    ensures done { OnOk result (Does filing.old (writes file all.now first (block_count all.now - first)) filing.new) }
    ensures refused { IfErr result (StopsAt filing.old (writes file all.now first (block_count all.now - first)) filing.new) }
{
    for k in first..blocks_for(all) {
        obey(
            filing,
            Request::Write {
                file,
                vbn: k as u32 + 1,
                block: block_of(all, k),
            },
        )?;
    }
    Ok(())
}

/// Block k of these bytes, counted from 0, with zeros behind the last byte.
fn block_of(bytes: &[u8], k: usize) -> Block
    requires { 512 * k ≤ length bytes.now }
    ensures { result ≡ block_with bytes.now k }
{
    let rest = &bytes[512 * k..];
    let here = &rest[..rest.len().min(512)];
    let mut block = Block::zeros();
    block.set_bytes(0, here);
    block
}
