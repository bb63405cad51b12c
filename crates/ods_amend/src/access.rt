//! Another owner, another protection or other characteristics of a file of a sound volume.
ghost use Rattle.std.specs.Prelude.{◌≡◌, Some, None, IfOk, MatchResult};
ghost use Rattle.ods_header.specs.Header.{protection_of};
ghost use Rattle.ods_mount.specs.Sound.{IsSoundBy};
ghost use Rattle.ods_space.specs.{Disks.header_on, Disks.on, Draft.applied};
ghost use Rattle.ods_look.specs.Opening.{IsFileId};
ghost use Rattle.ods_amend.specs.Access.{Gives, IsGiven, IsNotGiven, IsNotProtected, IsSet};

use crate::header::with_access;
use crate::opening::open_to_give;
use ods_base::{Block, FileId, Uic};
use ods_header::protection as protection_in;
use ods_look::opening::named_header;
use ods_mount::Mounted;
use ods_request::Refusal;
use ods_space::{Disk, Draft};
use std::alloc::{AllocError, Global};

/// Drafts a new owner (H.FOWN), protection (H.FPRO) and user characteristics (H.UCHA) of a file, each if given: its first header, with a new
/// checksum. The volume is unchanged. The refusals are those of [`set_protection`].
pub fn draft_access(
    alloc: Global,
    disk: &Disk<'_>,
    who: Uic,
    file: FileId,
    owner: Option<Uic>,
    protection: Option<u16>,
    flags: Option<u8>,
) -> Result<Draft, Refusal>
    requires { on IsSoundBy disk.now }
    ensures { MatchResult result
        (λ draft. on IsGiven disk.now who file owner protection flags (applied disk.now.image.now draft))
        (on IsNotGiven disk.now who file) }
{
    let first = match open_to_give(disk, who, file) {
        Ok(first) => first,
        Err(refusal) => return Err(refusal),
    };
    match draft_header(alloc, disk, file, first, owner, protection, flags) {
        Ok(draft) => Ok(draft),
        Err(_) => Err(Refusal::NoMemory),
    }
}

/// Drafts another protection word (H.FPRO) of a file: its first header, with a new checksum. Also returns the present word. The file may be a system
/// file, and no right is required. The volume is unchanged. The refusals are NoSuchFile and NoMemory.
pub fn draft_protection(
    alloc: Global,
    disk: &Disk<'_>,
    file: FileId,
    protection: u16,
) -> Result<(Draft, u16), Refusal>
    requires { on IsSoundBy disk.now }
    ensures { MatchResult result
        (λ drafted. on IsSet disk.now file None (Some protection) None (applied disk.now.image.now drafted.0) × (drafted.1 ≡ protection_of (header_on disk.now file.number)))
        (on IsNotProtected disk.now file) }
{
    let Some(first) = named_header(disk, file) else {
        return Err(Refusal::NoSuchFile);
    };
    match draft_header(alloc, disk, file, first, None, Some(protection), None) {
        Ok(draft) => Ok((draft, protection_in(first))),
        Err(_) => Err(Refusal::NoMemory),
    }
}

/// Drafts the first header of a file with this owner, this protection and these characteristics, each where it is given.
fn draft_header(
    alloc: Global,
    disk: &Disk<'_>,
    file: FileId,
    first: &Block,
    owner: Option<Uic>,
    protection: Option<u16>,
    flags: Option<u8>,
) -> Result<Draft, AllocError>
    requires sound { on IsSoundBy disk.now }
    requires file { on IsFileId disk.now file }
    requires first { first.now ≡ header_on disk.now file.number }
    ensures { IfOk result (λ draft. on IsSet disk.now file owner protection flags (applied disk.now.image.now draft)) }
{
    let header = with_access(first, owner, protection, flags);
    let lbn = disk.layout.place(file.number).unwrap();
    let mut draft = Draft::new(alloc);
    draft.set(lbn, header)?;
    Ok(draft)
}

/// Gives a file this owner and this protection, each where it is given. Refused, it changes nothing.
fn set_access(
    volume: &mut Mounted,
    alloc: Global,
    who: Uic,
    file: FileId,
    owner: Option<Uic>,
    protection: Option<u16>,
) -> Result<(), Refusal>
    ensures { MatchResult result
        (λ _. Gives volume.old who file owner protection volume.new)
        (λ f. IsNotGiven volume.old.image volume.old.layout who file f × (volume.new ≡ volume.old)) }
{
    match draft_access(alloc, &volume.disk(), who, file, owner, protection, None) {
        Ok(draft) => {
            volume.apply(draft, &[]);
            Ok(())
        }
        Err(refusal) => Err(refusal),
    }
}

/// Sets the protection word of a file, H.FPRO of its first header: four bits for each class of users, where a set bit denies. The checksum of the
/// header is renewed. Every other byte of the volume is unchanged, also in extension headers. The user must be a system user, whose group is at most
/// 10 octal, or the owner of the file. The refusals, in this order: NoSuchFile; Reserved for the files 1 to 5; Denied; NoMemory. If refused, it
/// changes nothing.
pub fn set_protection(
    volume: &mut Mounted,
    alloc: Global,
    who: Uic,
    file: FileId,
    protection: u16,
) -> Result<(), Refusal>
    ensures { MatchResult result
        (λ _. Gives volume.old who file None (Some protection) volume.new)
        (λ f. IsNotGiven volume.old.image volume.old.layout who file f × (volume.new ≡ volume.old)) }
{
    set_access(volume, alloc, who, file, None, Some(protection))
}

/// Sets the owner of a file, H.FOWN of its first header. The checksum of the header is renewed. Every other byte of the volume is unchanged. The
/// rights and refusals are those of [`set_protection`].
pub fn set_owner(
    volume: &mut Mounted,
    alloc: Global,
    who: Uic,
    file: FileId,
    owner: Uic,
) -> Result<(), Refusal>
    ensures { MatchResult result
        (λ _. Gives volume.old who file (Some owner) None volume.new)
        (λ f. IsNotGiven volume.old.image volume.old.layout who file f × (volume.new ≡ volume.old)) }
{
    set_access(volume, alloc, who, file, Some(owner), None)
}
