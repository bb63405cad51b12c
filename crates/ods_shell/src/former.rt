//! The contents of a deleted file whose headers are still present: the free blocks of its chain.
ghost use Rattle.std.specs.Prelude.{◌≡◌, ◌≤◌, ℕ, List, false, true, length, map, not, IfOk, IfErr, MatchBool, MatchOption};
ghost use Rattle.ods_files.specs.Body.{padded};
ghost use Rattle.ods_remains.specs.Deleted.{IsDeleted, IsFormerFile, former as former_header};
ghost use Rattle.ods_space.specs.Disks.{on, seen};
ghost use Rattle.ods_shell.specs.Contents.{IsGotBy, IsNotGotBy};
ghost use Rattle.ods_shell.specs.Deleted.{deleted_id as id_of_deleted};
ghost use Rattle.ods_shell.specs.Facts.{HasCondition, facts_in as facts_shown};
ghost use Rattle.ods_shell.specs.Former.{HasChain, IsFormer, IsFormerId, IsNotUndeleted, IsGotOfLeft, IsUndeleted, left_block, left_body, left_lbn as lbn_left};
ghost use Rattle.ods_shell.specs.Shown.{ContentsAre};
ghost use Rattle.ods_shell.specs.declared.facts.Condition.{Condition as HowMuch};

use crate::by_blocks::contents_of_blocks;
use crate::deleted::{Deletion, deleted_id, known};
use crate::facts::{Condition, Facts, facts_in};
use crate::form::{FormFault, Got};
use crate::found::Found;
use crate::texts::push_id;
use ods_base::{FileId, Image};
use ods_files::outside;
use ods_header::attributes;
use ods_records::Wanted;
use ods_remains::{DeletedFile, Shares, deleted_file, deleted_header};
use ods_space::{Disk, is_free, last_number};
use std::alloc::{AllocError, Global};
use std::fmt;

/// A deleted file that a path selects by its ID.
#[derive(Drop)]
pub struct Former {
    /// The file, selected by its ID in a path.
    pub found: Found,
    /// The facts that remain of it.
    pub known: Deletion,
    /// Its headers, and the blocks that they name.
    pub file: DeletedFile,
}

/// The reason why the contents of a deleted file are refused.
#[derive(Clone, Copy, Debug)]
pub enum FormerFault {
    /// Parts are not requested, and only these facts remain of the file.
    NotWhole(Deletion),
    /// The remaining contents are not available in the requested form.
    Form(FormFault),
}

impl fmt::Display for FormerFault {
    fn fmt<W: fmt::Write>(&self, f: &mut fmt::Formatter<W>) -> fmt::Result {
        match self {
            FormerFault::NotWhole(left) => write_lacking(f, left),
            FormerFault::Form(fault) => write!(f, "{fault}"),
        }
    }
}

/// Writes why a deleted file is not whole.
fn write_lacking<W: fmt::Write>(f: &mut fmt::Formatter<W>, left: &Deletion) -> fmt::Result {
    f.write_str("it is not whole")?;
    if left.used != 0 {
        let (used, blocks) = (left.used, left.blocks);
        write!(f, ", {used} of {blocks} blocks used again")?;
    }
    if let Some(header) = left.missing {
        write!(f, ", cut at header {header}")?;
    }
    if let Some(file) = left.sharer {
        let (number, sequence) = (file.number, file.sequence);
        write!(f, ", shares blocks with #{number},{sequence}")?;
    }
    f.write_str("; --partial copies what is left")
}

/// Returns the deleted file with this ID. Returns `None` if the ID is not the ID of a deleted file.
pub fn find_former(
    alloc: Global,
    disk: &Disk<'_>,
    shares: &Shares<'_>,
    file: FileId,
) -> Result<Option<Former>, AllocError>
    requires image { shares.now.image ≡ disk.now.image.now }
    requires layout { shares.now.layout ≡ disk.now.layout.now }
    ensures { IfOk result (λ found. MatchOption found (¬ on IsFormerId disk.now file) (λ f. (f.known.file ≡ file) × on IsFormer disk.now f)) }
{
    match chain_of(alloc, disk, file)? {
        Some(chain) => Ok(Some(former_of(alloc, disk, shares, file, chain)?)),
        None => Ok(None),
    }
}

/// The chain of the deleted file with this ID.
fn chain_of(alloc: Global, disk: &Disk<'_>, file: FileId) -> Result<Option<DeletedFile>, AllocError>
    ensures { IfOk result (λ chain. MatchOption chain (¬ on IsFormerId disk.now file) (on HasChain disk.now file)) }
{
    let Some(chain) = deleted_file(alloc, disk, file.number)? else {
        return Ok(None);
    };
    let id = deleted_id(disk, file.number);
    if id == file {
        return Ok(Some(chain));
    }
    Ok(None)
}

/// What is known of the deleted file with this ID and this chain.
fn former_of(
    alloc: Global,
    disk: &Disk<'_>,
    shares: &Shares<'_>,
    file: FileId,
    chain: DeletedFile,
) -> Result<Former, AllocError>
    requires image { shares.now.image ≡ disk.now.image.now }
    requires layout { shares.now.layout ≡ disk.now.layout.now }
    requires chain { on HasChain disk.now file chain }
    ensures { IfOk result (λ f. (f.known.file ≡ file) × on IsFormer disk.now f) }
{
    let left = known(alloc, disk, shares, file.number)?;
    let facts = facts_left(disk, file.number, &chain, left.blocks);
    let mut path = String::new(alloc);
    push_id(&mut path, file)?;
    let found = Found {
        path,
        place: None,
        facts: Some(facts),
    };
    Ok(Former {
        found,
        known: left,
        file: chain,
    })
}

/// What the first header of a deleted file says, which has this chain and so many blocks.
fn facts_left(disk: &Disk<'_>, number: u16, chain: &DeletedFile, blocks: u32) -> Facts
    requires { on IsDeleted disk.now number }
    ensures { (condition : HowMuch) × HasCondition (length disk.now.image.now) chain.now.blocks.items (not chain.now.is_cut) condition
        × (result ≡ facts_shown number (seen former_header disk.now number) blocks condition) }
{
    let Some(header) = deleted_header(disk, number) else {
        unreachable!()
    };
    let condition = condition_left(disk.image, &chain.blocks, chain.is_cut);
    facts_in(number, &header, blocks, condition)
}

/// How much of a deleted file is there whose headers name these blocks, and of which a header is missing or not.
fn condition_left(image: &Image, lbns: &[u32], is_cut: bool) -> Condition
    ensures { HasCondition (length image.now) lbns.now (not is_cut) result }
{
    if is_cut {
        return Condition::Broken;
    }
    match outside(image, lbns) {
        Some(_) => Condition::Outside,
        None => Condition::Whole,
    }
}

/// Returns the contents of a deleted file in the requested form. The error is `NotWhole` if the file is not whole and parts are not requested. A
/// part has the blocks up to the first missing header. Blocks that are used again or past the image are zeros. If the end of file is past the
/// blocks, the part contains all of them.
pub fn open_former<'a>(
    alloc: Global,
    disk: &Disk<'a>,
    former: &Former,
    wanted: Wanted,
    partial: bool,
) -> Result<Got<'a>, FormerFault>
    requires { on IsFormer disk.now former.now }
    ensures ok { IfOk result (λ got. (bytes : List ℕ) × ContentsAre got.contents bytes × on IsUndeleted disk.now former.now.known.file wanted partial bytes got.remark) }
    ensures err { IfErr result (on IsNotUndeleted disk.now former.now.known.file wanted partial) }
{
    let lacks = is_lacking(&former.known, partial);
    if lacks {
        return Err(FormerFault::NotWhole(former.known));
    }
    let number = former.known.file.number;
    match open_left(alloc, disk, number, &former.file, wanted, partial) {
        Ok(got) => Ok(got),
        Err(fault) => Err(FormerFault::Form(fault)),
    }
}

/// Whether too little is left of a deleted file: parts are not asked for, and it is not whole.
fn is_lacking(left: &Deletion, partial: bool) -> bool
    ensures { MatchBool result ((partial ≡ false) × (left.now.whole ≡ false)) (partial ≡ false → left.now.whole ≡ true) }
{
    !partial && !left.whole
}

/// What is got out of what is left of the deleted file with this number and this chain: all blocks where parts are asked for, and its end
/// lies past these.
fn open_left<'a>(
    alloc: Global,
    disk: &Disk<'a>,
    number: u16,
    chain: &DeletedFile,
    wanted: Wanted,
    partial: bool,
) -> Result<Got<'a>, FormFault>
    requires { on IsFormerFile disk.now number chain.now }
    ensures ok { IfOk result (λ got. (bytes : List ℕ) × ContentsAre got.contents bytes × IsGotOfLeft wanted partial (seen left_body disk.now number chain.now.blocks.items) bytes got.remark) }
    ensures err { IfErr result (IsNotGotBy wanted (seen left_body disk.now number chain.now.blocks.items)) }
{
    match left_contents(alloc, disk, number, chain, wanted) {
        Ok(got) => Ok(got),
        Err(FormFault::EndPastBlocks) if partial => {
            left_contents(alloc, disk, number, chain, Wanted::Raw)
        }
        Err(fault) => Err(fault),
    }
}

/// What is got out of the free blocks of the deleted file with this number and this chain.
fn left_contents<'a>(
    alloc: Global,
    disk: &Disk<'a>,
    number: u16,
    chain: &DeletedFile,
    wanted: Wanted,
) -> Result<Got<'a>, FormFault>
    requires { on IsFormerFile disk.now number chain.now }
    ensures ok { IfOk result (λ got. (bytes : List ℕ) × ContentsAre got.contents bytes × IsGotBy wanted (seen left_body disk.now number chain.now.blocks.items) bytes got.remark) }
    ensures err { IfErr result (IsNotGotBy wanted (seen left_body disk.now number chain.now.blocks.items)) }
{
    // The blocks of an image have bytes, and numbers are words, so a chain names few blocks.
    let _ = disk.image.len();
    let _ = last_number(disk.layout);
    let Some(header) = deleted_header(disk, number) else {
        unreachable!()
    };
    let lbns = left_lbns(alloc, disk, &chain.blocks)?;
    contents_of_blocks(alloc, disk.image, lbns, attributes(&header), wanted)
}

/// These LBNs, with one past the image in place of each that is not free.
fn left_lbns(alloc: Global, disk: &Disk<'_>, lbns: &[u32]) -> Result<Vec<u32>, AllocError>
    ensures size { IfOk result (λ left. length left.items ≡ length lbns.now) }
    ensures blocks { IfOk result (λ left. padded disk.now.image.now left.items ≡ map (seen left_block disk.now) lbns.now) }
{
    let mut left = Vec::new(alloc);
    for lbn in lbns {
        left.push(left_lbn(disk, *lbn))?;
    }
    Ok(left)
}

/// This LBN, or one past the image where it is not free.
fn left_lbn(disk: &Disk<'_>, lbn: u32) -> u32
    ensures { result ≡ seen lbn_left disk.now lbn }
{
    if is_free(disk, lbn) {
        lbn
    } else {
        disk.image.len()
    }
}
