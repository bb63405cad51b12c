//! Opening a file by its ID: a plain file, one of its blocks, or a directory, to which the user has a right.
ghost use Rattle.std.specs.Prelude.{◌≡◌, ◌≤◌, true, IfOk, IfErr, IfSome, IfNone};
ghost use Rattle.ods_header.specs.Header.{is_directory_header, owner_of, protection_of};
ghost use Rattle.ods_space.specs.{Files.IsFile};
ghost use Rattle.ods_mount.specs.Sound.{IsSoundBy};
ghost use Rattle.ods_request.specs.Rights.{permits};
ghost use Rattle.ods_look.specs.Opening.{kind_checks, plain_checks, directory_checks, IsFileId, IsPlainFile, IsRefusedByChecks, IsRefusedBlock, IsOpenPlain, IsOpenBlock, IsDirectoryAt, IsOpenDirectory, MayBeOpened};
ghost use Rattle.ods_state.specs.Noted.{AreNamesKnown};
ghost use Rattle.ods_space.specs.Disks.{header_on, on};

use crate::blocks::DirectoryBlocks;
use ods_base::{Block, FileId, Uic};
use ods_directory::{DirBlocks, mark_of};
use ods_header::{attributes, file_sequence, is_directory, owner, protection};
use ods_request::{Refusal, Right, permits};
use ods_space::{Disk, locate_whole, primary_header};
use ods_state::KnownNames;

/// Returns the first header of the file with this ID, or `None` if no file has it.
pub fn named_header<'a>(disk: &Disk<'a>, file: FileId) -> Option<&'a Block>
    ensures some { IfSome result (λ block. on IsFileId disk.now file × (block.now ≡ header_on disk.now file.number)) }
    ensures none { IfNone result (¬ on IsFileId disk.now file) }
{
    let block = primary_header(disk, file.number)?;
    if file_sequence(block) == file.sequence {
        Some(block)
    } else {
        None
    }
}

/// Returns whether the protection word of this first header grants the user this right.
pub fn is_granted(header: &Block, who: Uic, right: Right) -> bool
    ensures { result ≡ permits who (owner_of header.now) (protection_of header.now) right }
{
    permits(&who, &owner(header), protection(header), right)
}

/// Returns the first header of a plain file, or the first fault. Its number must be above `reserved`.
pub fn plain_header<'a>(disk: &Disk<'a>, file: FileId, reserved: u16) -> Result<&'a Block, Refusal>
    requires { on IsSoundBy disk.now }
    ensures ok { IfOk result (λ block. on IsPlainFile disk.now file reserved × (block.now ≡ header_on disk.now file.number)) }
    ensures err { IfErr result (on IsRefusedByChecks disk.now file (kind_checks file reserved)) }
{
    let Some(block) = named_header(disk, file) else {
        return Err(Refusal::NoSuchFile);
    };
    if file.number <= reserved {
        return Err(Refusal::Reserved);
    }
    if is_directory(file.number, block) {
        return Err(Refusal::IsDirectory);
    }
    Ok(block)
}

/// Returns the first header of a plain file to which the user has this right, or the first fault. Its number must be above `reserved`.
pub fn open_plain<'a>(
    disk: &Disk<'a>,
    who: Uic,
    file: FileId,
    reserved: u16,
    right: Right,
) -> Result<&'a Block, Refusal>
    requires sound { on IsSoundBy disk.now }
    requires maps { 2 ≤ reserved }
    ensures ok { IfOk result (λ block. on IsOpenPlain disk.now file reserved who right × (block.now ≡ header_on disk.now file.number)) }
    ensures err { IfErr result (on IsRefusedByChecks disk.now file (plain_checks file reserved who right)) }
{
    let block = match plain_header(disk, file, reserved) {
        Ok(block) => block,
        Err(refusal) => return Err(refusal),
    };
    if !is_granted(block, who, right) {
        return Err(Refusal::Denied);
    }
    Ok(block)
}

/// Returns the LBN of a block of a plain file, counted from 1, to which the user has this right, or the first fault. The number of the file must be
/// above `reserved`.
pub fn open_block(
    disk: &Disk<'_>,
    who: Uic,
    file: FileId,
    reserved: u16,
    right: Right,
    vbn: u32,
) -> Result<u32, Refusal>
    requires sound { on IsSoundBy disk.now }
    requires maps { 2 ≤ reserved }
    ensures ok { IfOk result (on IsOpenBlock disk.now file reserved who right vbn) }
    ensures err { IfErr result (on IsRefusedBlock disk.now file reserved who right vbn) }
{
    let first = match open_plain(disk, who, file, reserved, right) {
        Ok(first) => first,
        Err(refusal) => return Err(refusal),
    };
    match locate_whole(disk, file.number, first, vbn) {
        Some(lbn) => Ok(lbn),
        None => Err(Refusal::NoSuchBlock),
    }
}

/// A directory of a sound image: its first header, its blocks, and the end mark of its names in bytes.
#[derive(Drop)]
pub struct OpenDirectory<'a> {
    pub header: &'a Block,
    pub blocks: DirectoryBlocks<'a>,
    pub mark: u64,
}

/// Opens a directory to which the user has this right, or returns the first fault.
pub fn open_directory<'a>(
    disk: &Disk<'a>,
    who: Uic,
    dir: FileId,
    right: Right,
) -> Result<OpenDirectory<'a>, Refusal>
    requires { on IsSoundBy disk.now }
    ensures ok { IfOk result (on IsOpenDirectory disk.now dir who right) }
    ensures err { IfErr result (on IsRefusedByChecks disk.now dir (directory_checks who right)) }
{
    open_noted(disk, who, dir, right, None)
}

/// Opens a directory as [`open_directory`] does. If `names` are notes about this directory, its names are located by them.
pub fn open_noted<'a>(
    disk: &Disk<'a>,
    who: Uic,
    dir: FileId,
    right: Right,
    names: Option<&'a KnownNames>,
) -> Result<OpenDirectory<'a>, Refusal>
    requires sound { on IsSoundBy disk.now }
    requires names { IfSome names (λ k. on AreNamesKnown disk.now k.now) }
    ensures ok { IfOk result (on IsOpenDirectory disk.now dir who right) }
    ensures err { IfErr result (on IsRefusedByChecks disk.now dir (directory_checks who right)) }
{
    match directory_header(disk, who, dir, right) {
        Ok(header) => Ok(OpenDirectory::noted(disk, dir.number, header, names)),
        Err(refusal) => Err(refusal),
    }
}

/// The first header of a directory on which the user has this right; or the first fault.
fn directory_header<'a>(
    disk: &Disk<'a>,
    who: Uic,
    dir: FileId,
    right: Right,
) -> Result<&'a Block, Refusal>
    requires { on IsSoundBy disk.now }
    ensures ok { IfOk result (λ header. on MayBeOpened disk.now dir who right × (header.now ≡ header_on disk.now dir.number)) }
    ensures err { IfErr result (on IsRefusedByChecks disk.now dir (directory_checks who right)) }
{
    let Some(block) = named_header(disk, dir) else {
        return Err(Refusal::NoSuchFile);
    };
    if !is_directory(dir.number, block) {
        return Err(Refusal::NotADirectory);
    }
    if !is_granted(block, who, right) {
        return Err(Refusal::Denied);
    }
    Ok(block)
}

impl<'a> OpenDirectory<'a> {
    ghost use Rattle.ods_space.specs.Disks.{header_on, on};

    /// Makes the directory with this first header.
    pub fn of(disk: &Disk<'a>, number: u16, header: &'a Block) -> Self
        requires sound { on IsSoundBy disk.now }
        requires file { on IsFile disk.now number }
        requires header { header.now ≡ header_on disk.now number }
        requires directory { is_directory_header number header.now ≡ true }
        ensures { on IsDirectoryAt disk.now number result }
    {
        OpenDirectory::noted(disk, number, header, None)
    }

    /// The same, where something may be noted of it.
    fn noted(disk: &Disk<'a>, number: u16, header: &'a Block, names: Option<&'a KnownNames>) -> Self
        requires sound { on IsSoundBy disk.now }
        requires file { on IsFile disk.now number }
        requires header { header.now ≡ header_on disk.now number }
        requires directory { is_directory_header number header.now ≡ true }
        requires names { IfSome names (λ k. on AreNamesKnown disk.now k.now) }
        ensures { on IsDirectoryAt disk.now number result }
    {
        let blocks = DirectoryBlocks::noted(disk, number, header, names);
        let mark = mark_of(&attributes(header), blocks.count());
        OpenDirectory {
            header,
            blocks,
            mark,
        }
    }
}
