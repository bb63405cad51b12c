//! The facts of deleted files whose headers are still present, found by the name in their ident.
ghost use Rattle.std.specs.Prelude.{◌≡◌, ◌⊎◌, ◌++◌, ◌∷◌, [], IfOk, IfSome, OnOk, MatchBool, MatchOption, option_map};
ghost use Rattle.ods_header.specs.Header.{IsLaidOut};
ghost use Rattle.ods_base.specs.Block.{word as word_in};
ghost use Rattle.ods_base.specs.Name.{IsName};
ghost use Rattle.ods_paths.specs.Views.{files as said, said_files};
ghost use Rattle.ods_remains.specs.Deleted.{IsDeleted, IsDeletedFile};
ghost use Rattle.ods_space.specs.Disks.{on, seen};
ghost use Rattle.ods_shell.specs.Choosing.{IsMatched};
ghost use Rattle.ods_shell.specs.Deleted.{AreDeletions, HasVersion, IsDeletion, IsSought, IsSoughtFile, deleted_id as id_of_deleted, deletion_by};
ghost use Rattle.ods_remains.specs.Idents.{name_in as name_of};
ghost use Rattle.ods_shell.specs.declared.deleted.Deletion.{Deletion as Known};

use crate::choosing::is_matched;
use crate::facts::size;
use ods_base::{Block, FileId};
use ods_header::{attributes, file_sequence, ident};
use ods_paths::{Files, Versions};
use ods_remains::{Shares, Summary, deleted_header, ident_word, is_deleted_file, name_in};
use ods_space::{Disk, last_number};
use std::alloc::{AllocError, Global};

/// The facts of a deleted file.
#[derive(Clone, Copy, Debug)]
pub struct Deletion {
    pub file: FileId,
    /// The ident area of its first header: name, revision and dates.
    pub ident: [u8; 46],
    /// The number of blocks that its headers name.
    pub blocks: u32,
    /// The number of bytes up to the end of file, or in all blocks if the attributes are zeros.
    pub bytes: u64,
    /// The number of its blocks that are used again.
    pub used: u32,
    /// The index of its first missing header, if one is missing. The first header has index 1.
    pub missing: Option<u64>,
    /// The ID of a deleted file that shares blocks with it. It is the file itself if the file names a block twice and no other file names one.
    pub sharer: Option<FileId>,
    /// Whether no header is missing, and each block is free and named once, only by this file.
    pub whole: bool,
}

/// Returns the facts of each deleted file that `files` selects, or of all if it is `None`. Each header is read a few times, even if many files
/// share it.
pub fn known_deletions(
    alloc: Global,
    disk: &Disk<'_>,
    files: &Option<Files<'_>>,
) -> Result<Vec<Deletion>, AllocError>
    ensures { IfOk result (λ all. on AreDeletions disk.now (said_files files.now) all.items) }
{
    let shares = Shares::of(alloc, disk)?;
    let mut all = Vec::new(alloc);
    for before in 0..last_number(disk.layout) {
        add_sought(alloc, disk, &shares, before + 1, files, &mut all)?;
    }
    Ok(all)
}

/// Adds what is known of this number, where it is a deleted file that is looked for.
fn add_sought(
    alloc: Global,
    disk: &Disk<'_>,
    shares: &Shares<'_>,
    number: u16,
    files: &Option<Files<'_>>,
    all: &mut Vec<Deletion>,
) -> Result<(), AllocError>
    requires image { shares.now.image ≡ disk.now.image.now }
    requires layout { shares.now.layout ≡ disk.now.layout.now }
    ensures { OnOk result ((on IsSoughtFile disk.now (said_files files.now) number × ((one : Known) × on IsDeletion disk.now number one × (all.new.items ≡ all.old.items ++ one ∷ [])))
        ⊎ ((¬ on IsSoughtFile disk.now (said_files files.now) number) × (all.new.items ≡ all.old.items))) }
{
    let Some(one) = known_deletion(alloc, disk, shares, number)? else {
        return Ok(());
    };
    if is_sought(&one.ident, files) {
        all.push(one)?;
    }
    Ok(())
}

/// Returns the facts of the deleted file with this number, if there is one.
pub fn known_deletion(
    alloc: Global,
    disk: &Disk<'_>,
    shares: &Shares<'_>,
    number: u16,
) -> Result<Option<Deletion>, AllocError>
    requires image { shares.now.image ≡ disk.now.image.now }
    requires layout { shares.now.layout ≡ disk.now.layout.now }
    ensures { IfOk result (λ one. MatchOption one (¬ on IsDeletedFile disk.now number) (on IsDeletion disk.now number)) }
{
    if is_deleted_file(disk, number) {
        Ok(Some(known(alloc, disk, shares, number)?))
    } else {
        Ok(None)
    }
}

/// Returns the facts of the deleted file with this number.
pub(crate) fn known(
    alloc: Global,
    disk: &Disk<'_>,
    shares: &Shares<'_>,
    number: u16,
) -> Result<Deletion, AllocError>
    requires image { shares.now.image ≡ disk.now.image.now }
    requires layout { shares.now.layout ≡ disk.now.layout.now }
    requires deleted { on IsDeletedFile disk.now number }
    ensures { IfOk result (on IsDeletion disk.now number) }
{
    let Some(header) = deleted_header(disk, number) else {
        unreachable!()
    };
    let summary = shares.summary(alloc, number)?;
    let sharer = id_of_sharer(disk, summary.sharer);
    Ok(told(number, &header, &summary, sharer))
}

/// What is known of a deleted file: what its first header says, and what was found out of its blocks.
fn told(number: u16, header: &Block, summary: &Summary, sharer: Option<FileId>) -> Deletion
    requires { IsLaidOut header.now }
    ensures { result ≡ deletion_by number header.now summary.now sharer }
{
    Deletion {
        file: FileId {
            number,
            sequence: file_sequence(header),
        },
        ident: ident(header),
        blocks: summary.blocks,
        bytes: size(&attributes(header), summary.blocks),
        used: summary.used,
        missing: summary.missing,
        sharer,
        whole: summary.is_whole,
    }
}

/// The ID of the deleted file that shares blocks with another one.
fn id_of_sharer(disk: &Disk<'_>, sharer: Option<u16>) -> Option<FileId>
    requires { IfSome sharer (on IsDeleted disk.now) }
    ensures { result ≡ option_map (seen id_of_deleted disk.now) sharer }
{
    match sharer {
        Some(number) => Some(deleted_id(disk, number)),
        None => None,
    }
}

/// Returns the ID of the deleted header with this number.
pub(crate) fn deleted_id(disk: &Disk<'_>, number: u16) -> FileId
    requires { on IsDeleted disk.now number }
    ensures { result ≡ seen id_of_deleted disk.now number }
{
    let Some(header) = deleted_header(disk, number) else {
        unreachable!()
    };
    FileId {
        number,
        sequence: file_sequence(&header),
    }
}

/// Whether a deleted file with this ident is looked for.
fn is_sought(ident: &[u8; 46], files: &Option<Files<'_>>) -> bool
    ensures { MatchBool result (IsSought (said_files files.now) ident.now) (¬ IsSought (said_files files.now) ident.now) }
{
    match files {
        Some(files) => is_named_so(ident, files),
        None => true,
    }
}

/// Whether the patterns match the name in this ident, and its version is looked for.
fn is_named_so(ident: &[u8; 46], files: &Files<'_>) -> bool
    ensures { MatchBool result
        (IsName (name_of ident.now) × IsMatched (said files.now) (name_of ident.now) × HasVersion files.now.versions (word_in ident.now 4))
        (¬ (IsName (name_of ident.now) × IsMatched (said files.now) (name_of ident.now) × HasVersion files.now.versions (word_in ident.now 4))) }
{
    match name_in(ident) {
        Some(name) => is_matched(&name, files) && has_version(ident_word(ident, 4), files.versions),
        None => false,
    }
}

/// Whether a version is looked for.
fn has_version(version: u16, versions: Option<Versions>) -> bool
    ensures { MatchBool result (HasVersion versions version) (¬ HasVersion versions version) }
{
    match versions {
        Some(Versions::Exact(said)) => version == said,
        _ => true,
    }
}
