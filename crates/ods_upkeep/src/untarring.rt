//! `untar`: puts the files of an archive one by one.
ghost use Rattle.std.specs.Prelude.{◌≡◌, ℕ, length, true, None, IfErr, MatchOption, MatchResult, OnOk};
ghost use Rattle.ods_text.specs.Cuts.{cut_of};
ghost use Rattle.ods_text.specs.One.{IsTheOne};
ghost use Rattle.ods_upkeep.specs.HostPut.{IsVersionFor};
ghost use Rattle.ods_upkeep.specs.Refused.{HasPath};
ghost use Rattle.ods_upkeep.specs.Untarred.{IsFiled, IsMemberName, IsNoMemberName, IsNotFiled, IsNotUnpacked, IsNotUntarred, IsUnpacked, IsUntarred, IsVersionText, SaysFile, SaysNoFile, unless_zero as unless_none, zeros_or};
ghost use Rattle.ods_upkeep.specs.Written.{bytes_of};

use crate::asking::put_new;
use crate::attributes::are_zeros;
use crate::failure::{Failure, Why, of_path};
use crate::host_names::{name_for, parts};
use crate::looking::next_version;
use crate::on_the_way::{last_part, make_way, open_directory, path_of_way};
use crate::targets::name_of;
use crate::written::{Written, write_host};
use crate::{Placing, PutForm};
use ods_base::{FileId, Name, Uic};
use ods_filing::{Filing, NewFile};
use ods_paths::{BadPath, has_wildcard};
use ods_request::Stamp;
use ods_shell::PathFault;
use ods_text::read_small;
use std::alloc::Global;

/// A file of an archive.
#[derive(Clone, Copy)]
pub struct Packed<'a> {
    /// Its path: names of directories, each followed by a slash, and its name, which may have a `;` and a version. With an owner, the name may be
    /// any name of a volume.
    pub path: &'a str,
    /// Its bytes.
    pub bytes: &'a [u8],
    /// The time of its creation.
    pub stamp: Stamp,
    /// Its attributes, if its records specify them.
    pub attributes: Option<[u8; 32]>,
    /// Its owner, if its records specify one.
    pub owner: Option<Uic>,
    /// Its protection word, if its records specify one.
    pub protection: Option<u16>,
    /// Where its blocks are allocated.
    pub placing: Placing,
}

/// Puts a file of an archive. Missing directories on its way are created like with `mkdir`, at the time `stamp`. The user makes the file, and gives
/// it the owner and the protection in its records.
pub fn untar_file(
    alloc: Global,
    filing: &mut Filing,
    stamp: Stamp,
    packed: &Packed<'_>,
) -> Result<(), Failure>
    // The file is there, in its directory, with what its member says. Nothing else is done.
    ensures done { OnOk result (IsUntarred stamp packed.now filing.old filing.new) }
    // Refused, it is so for a reason that holds, of this file, and what was done for it is said.
    ensures refused { IfErr result (λ failure. IsNotUntarred stamp packed.now filing.old filing.new failure.why × HasPath failure packed.now.path.now) }
{
    match untar_one(alloc, filing, stamp, packed) {
        Ok(()) => Ok(()),
        Err(why) => Err(of_path(alloc, packed.path, why)),
    }
}

/// Puts a file of an archive.
fn untar_one(
    alloc: Global,
    filing: &mut Filing,
    stamp: Stamp,
    packed: &Packed<'_>,
) -> Result<(), Why>
    ensures { MatchResult result (λ _. IsUntarred stamp packed.now filing.old filing.new) (IsNotUntarred stamp packed.now filing.old filing.new) }
{
    if has_wildcard(packed.path.as_bytes()) {
        return Err(Why::Several);
    }
    let (name, said) = file_said(alloc, packed.owner.is_some(), last_part(packed.path))?;
    let written = unpack(alloc, &packed.attributes, packed.bytes)?;
    let way = make_way(alloc, filing, stamp, packed.path)?;
    let dir = open_directory(alloc, filing.mounted(), path_of_way(way.as_str()))?;
    file_in(alloc, filing, packed, dir, name, said, &written)
}

/// The name that the last part of a path says, and the version, where it says one. `own` is whether the member is a file of a volume.
fn file_said(alloc: Global, own: bool, last: &str) -> Result<(Name, Option<u16>), Why>
    ensures { MatchResult result (λ r. SaysFile own last.now r.0 r.1) (SaysNoFile own last.now) }
{
    let Some((front, digits)) = cut_version(last) else {
        if last == "." {
            return Err(Why::BadName);
        }
        let name = member_name(alloc, own, last)?;
        return Ok((name, None));
    };
    let Some(version) = version_in(digits) else {
        return Err(Why::Path(PathFault::Bad(BadPath::Version)));
    };
    let name = member_name(alloc, own, front)?;
    Ok((name, unless_zero(version)))
}

/// The name of a member: of a file of a volume, any name of a volume; otherwise a name as of a host file.
fn member_name(alloc: Global, own: bool, text: &str) -> Result<Name, Why>
    ensures { MatchResult result (IsMemberName own text.now) (IsNoMemberName own text.now) }
{
    if !own {
        return name_for(alloc, None, text);
    }
    own_name(alloc, text)
}

/// The name of a file of a volume, as `tar` writes it.
fn own_name(alloc: Global, text: &str) -> Result<Name, Why>
    ensures { MatchResult result (IsMemberName true text.now) (IsNoMemberName true text.now) }
{
    let (title, kind) = parts(text.as_bytes());
    name_of(alloc, title, kind)
}

/// The version in decimal digits, at most 32767.
fn version_in(digits: &str) -> Option<u16>
    ensures { IsTheOne (IsVersionText digits.now) result }
{
    let version = read_small(digits.as_bytes())?;
    if version > 32767 {
        return None;
    }
    Some(version)
}

/// What stands before the first `;`, and what stands behind it.
#[tactic(auto, using(crate::proofs::CutTexts::cut_some, crate::proofs::CutTexts::cut_none))]
fn cut_version(text: &str) -> Option<(&str, &str)>
    ensures cut { MatchOption result (cut_of 59 text.now ≡ None) (λ p. cut_of 59 text.now ≡ Some (p.0.now, p.1.now)) }
{
    text.split_once(';')
}

/// The version, unless it is 0.
fn unless_zero(version: u16) -> Option<u16>
    ensures { result ≡ unless_none version }
{
    if version == 0 {
        return None;
    }
    Some(version)
}

/// What is written of a file of an archive, by the attributes that its records say.
fn unpack<'a>(alloc: Global, own: &Option<[u8; 32]>, bytes: &'a [u8]) -> Result<Written<'a>, Why>
    ensures { MatchResult result (λ written. IsUnpacked own.now bytes.now written.attributes (bytes_of written)) (IsNotUnpacked own.now bytes.now) }
{
    let Some(attributes) = own else {
        return write_host(alloc, PutForm::ByContents, &None, bytes);
    };
    if !are_zeros(attributes) {
        return write_host(alloc, PutForm::Binary, own, bytes);
    }
    let mut written = write_host(alloc, PutForm::Binary, &None, bytes)?;
    written.attributes = zeros_or(bytes.len(), written.attributes);
    Ok(written)
}

/// Zeros for whole blocks, or else these attributes.
fn zeros_or(size: usize, attributes: [u8; 32]) -> [u8; 32]
    ensures { result ≡ zeros_or size attributes }
{
    if size % 512 == 0 {
        return [0; 32];
    }
    attributes
}

/// Puts what is written of a file of an archive into a directory, under this name.
fn file_in(
    alloc: Global,
    filing: &mut Filing,
    packed: &Packed<'_>,
    dir: FileId,
    name: Name,
    said: Option<u16>,
    written: &Written<'_>,
) -> Result<(), Why>
    ensures { MatchResult result (λ _. IsFiled packed.now dir name said written.now.attributes (bytes_of written.now) filing.old filing.new)
        (IsNotFiled packed.now dir name said written.now.attributes (bytes_of written.now) filing.old filing.new) }
{
    let version = version_for(filing, dir, name, said);
    let file = NewFile {
        name,
        version,
        stamp: packed.stamp,
        attributes: written.attributes,
        bytes: written.bytes(),
    };
    let user = filing.user();
    match put_new(alloc, filing, packed.placing, user, dir, said, &file) {
        Ok(id) => match filing.set_access(id, packed.owner, packed.protection) {
            Ok(()) => Ok(()),
            Err(refusal) => Err(Why::Request(refusal)),
        },
        Err(why) => Err(why),
    }
}

/// The version that is said, or the next one.
fn version_for(filing: &mut Filing, dir: FileId, name: Name, said: Option<u16>) -> u16
    ensures { IsVersionFor None filing.old dir name said result filing.new }
{
    match said {
        Some(version) => version,
        None => next_version(filing, dir, name, None),
    }
}
