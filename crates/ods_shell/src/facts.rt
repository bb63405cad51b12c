//! The facts of a file: the fields of its first header, and its numbers of blocks and bytes.
ghost use Rattle.std.specs.Prelude.{◌≡◌, ◌≢◌, ◌≤◌, ◌+◌, ℕ, List, slice_range, MatchOption};
ghost use Rattle.ods_header.specs.Header.{IsLaidOut};
ghost use Rattle.ods_files.specs.Body.{are_zeros as all_zeros};
ghost use Rattle.ods_shell.specs.Facts.{AreFacts, HasCondition, condition_word, facts_in as facts_shown, kind_by as kind_shown, kind_word, bytes_by, created_in, revised_in, revision_in};
ghost use Rattle.ods_space.specs.Files.{FindsFiles, IsFile};
ghost use Rattle.ods_space.specs.Reach.{IsReachOf};
ghost use Rattle.ods_space.specs.Disks.{on};

use ods_base::{Block, FileId, Uic};
use ods_header::{
    attributes, file_sequence, ident, is_directory, owner, protection, system_char, user_char,
};
use ods_records::{end_of_file, is_controlled, kind_of};
use ods_space::{Disk, Reach, count_reach, primary_header};

/// The kind of the contents of a file, by its header.
#[derive(Clone, Copy, Debug, PartialEq, Eq)]
pub enum Kind {
    /// A directory.
    Directory,
    /// Records with a length. The carriage control makes each record a line.
    Text,
    /// Records with a length and without carriage control.
    Records,
    /// Bytes: neither a directory nor records with a length.
    Binary,
}

impl Kind {
    /// Returns the word for the kind.
    pub fn word(&self) -> &'static str
        ensures { result.now ≡ kind_word self.now }
    {
        match self {
            Kind::Directory => "directory",
            Kind::Text => "text",
            Kind::Records => "records",
            Kind::Binary => "binary",
        }
    }
}

/// The part of a file that is present.
#[derive(Clone, Copy, Debug, PartialEq, Eq)]
pub enum Condition {
    /// All of it: each header of its chain, and each block.
    Whole,
    /// A header of its chain is missing.
    Broken,
    /// Each header is present, and a block is past the image.
    Outside,
}

impl Condition {
    /// Returns the word for the condition. The word for a whole file is empty.
    pub fn word(&self) -> &'static str
        ensures { result.now ≡ condition_word self.now }
    {
        match self {
            Condition::Whole => "",
            Condition::Broken => "chain broken",
            Condition::Outside => "outside",
        }
    }
}

/// The facts of a file.
#[derive(Clone, Copy, Debug)]
pub struct Facts {
    pub file: FileId,
    pub kind: Kind,
    pub condition: Condition,
    /// The number of blocks that the present headers name.
    pub blocks: u32,
    /// The number of bytes up to the end of file, or in all blocks if the attributes are zeros.
    pub bytes: u64,
    pub owner: Uic,
    pub protection: u16,
    pub user_char: u8,
    pub system_char: u8,
    /// The ident area: name, revision and dates.
    pub ident: [u8; 46],
    /// The record attributes; F.RTYP is first.
    pub attributes: [u8; 32],
}

/// Returns the facts of the file with this number; `None` if it is not the number of a file.
pub fn facts_of(disk: &Disk<'_>, number: u16) -> Option<Facts>
    requires { on FindsFiles disk.now }
    ensures { MatchOption result (¬ on IsFile disk.now number) (on AreFacts disk.now number) }
{
    let Some(header) = primary_header(disk, number) else {
        return None;
    };
    let Some(reach) = count_reach(disk, number) else {
        return None;
    };
    Some(facts_in(number, header, reach.count, condition_in(&reach)))
}

/// How much of a file is there whose chain goes so far.
fn condition_in(reach: &Reach) -> Condition
    ensures { (len : ℕ) (lbns : List ℕ) → IsReachOf len lbns reach.now → HasCondition len lbns reach.now.is_whole result }
{
    if !reach.is_whole {
        return Condition::Broken;
    }
    match reach.past {
        Some(_) => Condition::Outside,
        None => Condition::Whole,
    }
}

/// Returns the facts of the file with this ID; `None` if it is not the ID of a file.
pub fn facts_by_id(disk: &Disk<'_>, file: FileId) -> Option<Facts>
    requires { on FindsFiles disk.now }
    ensures { MatchOption result ((facts : Facts) → on AreFacts disk.now file.number facts → facts.file ≢ file)
        (λ facts. on AreFacts disk.now file.number facts × (facts.file ≡ file)) }
{
    match facts_of(disk, file.number) {
        Some(facts) if facts.file == file => Some(facts),
        _ => None,
    }
}

/// Returns the facts of the file with this number from its first header. `blocks` is the number of its blocks.
pub(crate) fn facts_in(number: u16, header: &Block, blocks: u32, condition: Condition) -> Facts
    requires { IsLaidOut header.now }
    ensures { result ≡ facts_shown number header.now blocks condition }
{
    let attributes = attributes(header);
    Facts {
        file: FileId {
            number,
            sequence: file_sequence(header),
        },
        kind: kind_by(number, header),
        condition,
        blocks,
        bytes: size(&attributes, blocks),
        owner: owner(header),
        protection: protection(header),
        user_char: user_char(header),
        system_char: system_char(header),
        ident: ident(header),
        attributes,
    }
}

/// What a file holds, by its first header.
fn kind_by(number: u16, header: &Block) -> Kind
    requires { IsLaidOut header.now }
    ensures { result ≡ kind_shown number header.now }
{
    if is_directory(number, header) {
        return Kind::Directory;
    }
    let attributes = attributes(header);
    if kind_of(&attributes).is_none() {
        return Kind::Binary;
    }
    if is_controlled(&attributes) {
        Kind::Text
    } else {
        Kind::Records
    }
}

/// Returns the number of bytes of a file.
pub(crate) fn size(attributes: &[u8; 32], blocks: u32) -> u64
    ensures { result ≡ bytes_by attributes.now blocks }
{
    if are_zeros(attributes) {
        512 * u64::from(blocks)
    } else {
        end_of_file(attributes)
    }
}

/// Whether nothing was ever written into the attributes.
fn are_zeros(attributes: &[u8; 32]) -> bool
    ensures { result ≡ all_zeros attributes.now }
{
    attributes.iter().all(|byte| *byte == 0)
}

impl Facts {
    /// Returns whether the attributes are all zeros, so that nothing was ever written into them.
    pub fn has_no_attributes(&self) -> bool
        ensures { result ≡ all_zeros self.now.attributes }
    {
        are_zeros(&self.attributes)
    }

    /// Returns the date and time of creation, such as `01JAN80` and `103000`.
    pub fn creation_date(&self) -> [u8; 13]
        ensures { result ≡ created_in self.now.ident }
    {
        self.date_at(25)
    }

    /// Returns the date and time of the last revision.
    pub fn revision_date(&self) -> [u8; 13]
        ensures { result ≡ revised_in self.now.ident }
    {
        self.date_at(12)
    }

    /// The 13 bytes of the ident area from this one on.
    fn date_at(&self, at: usize) -> [u8; 13]
        requires { at ≤ 33 }
        ensures { result ≡ slice_range self.now.ident at (at + 13) }
    {
        let mut date = [0; 13];
        date.copy_from_slice(&self.ident[at..at + 13]);
        date
    }

    /// Returns the number of revisions of the file.
    pub fn revision(&self) -> u16
        ensures { result ≡ revision_in self.now.ident }
    {
        u16::from_le_bytes([self.ident[10], self.ident[11]])
    }
}
