//! The form that `put` keeps: that of the version before, if `get` then gives the bytes of the host file.
ghost use Rattle.std.specs.Prelude.{◌≡◌, ◌↔◌, IsTrue, IfOk};
ghost use Rattle.ods_space.specs.Disks.{on};
ghost use Rattle.ods_space.specs.Files.{FindsFiles};
ghost use Rattle.ods_records.specs.Attributes.{kind_in};
ghost use Rattle.ods_upkeep.specs.Before.{AreOfPick, IsBefore, IsPicked, pick_of};
ghost use Rattle.ods_upkeep.specs.Kept.{has_no_form as no_form, AreRaw, AreRawRecords, IsKept, IsNotKept, StayBytes, StayLines};

use crate::PutForm;
use crate::attributes::are_zeros;
use crate::written::is_put_as_text;
use ods_base::{FileId, Listed, Name};
use ods_records::{
    RecordKind, is_controlled, is_plain_text, is_text, kind_of, record_size, survey_records,
};
use ods_shell::{Kind, facts_by_id, is_directory_file, is_line_stream};
use ods_space::Disk;
use ods_walk::entries_of;
use std::alloc::{AllocError, Global};

/// Returns the attributes of the version before: of the file with this name in a directory, and with this version or else the highest.
pub(crate) fn attributes_before(
    alloc: Global,
    disk: &Disk<'_>,
    dir: FileId,
    name: &Name,
    said: Option<u16>,
) -> Result<Option<[u8; 32]>, AllocError>
    requires { on FindsFiles disk.now }
    ensures { IfOk result (on IsBefore disk.now dir.number name.now said) }
{
    if !is_directory_file(disk, dir.number) {
        return Ok(None);
    }
    let entries = entries_of(alloc, disk, dir.number, name)?;
    let picked = pick(&entries, said);
    Ok(attributes_of(disk, &picked))
}

/// The entry with this version, or else with the highest.
fn pick(entries: &[Listed], said: Option<u16>) -> Option<Listed>
    ensures { IsPicked said entries.now result }
{
    let mut picked = None;
    for entry in entries {
        picked = later(said, picked, *entry);
    }
    picked
}

/// The one of two entries that is picked.
fn later(said: Option<u16>, before: Option<Listed>, entry: Listed) -> Option<Listed>
    ensures { result ≡ pick_of said before entry }
{
    match said {
        Some(version) => {
            if entry.version == version {
                Some(entry)
            } else {
                before
            }
        }
        None => match before {
            Some(before) => {
                if before.version <= entry.version {
                    Some(entry)
                } else {
                    Some(before)
                }
            }
            None => Some(entry),
        },
    }
}

/// The attributes of the file that an entry names; none if it is a directory, or is not there.
fn attributes_of(disk: &Disk<'_>, picked: &Option<Listed>) -> Option<[u8; 32]>
    requires { on FindsFiles disk.now }
    ensures { on AreOfPick disk.now picked.now result }
{
    let Some(entry) = picked else {
        return None;
    };
    let Some(facts) = facts_by_id(disk, entry.file) else {
        return None;
    };
    if facts.kind == Kind::Directory {
        return None;
    }
    Some(facts.attributes)
}

/// Returns the form of a file, and the attributes that it gets, after a version with these attributes. The third part is these attributes, if their
/// form is not kept.
pub(crate) fn kept_form(
    before: &Option<[u8; 32]>,
    bytes: &[u8],
) -> (PutForm, Option<[u8; 32]>, Option<[u8; 32]>)
    ensures kept { IsKept before.now bytes.now result.0 result.1 }
    ensures former { IsNotKept before.now bytes.now result.2 }
{
    let Some(own) = before else {
        return (PutForm::ByContents, None, None);
    };
    if stay_bytes(own, bytes) {
        return (PutForm::Binary, Some(*own), None);
    }
    if stay_lines(own, bytes) {
        return (PutForm::ByContents, Some(*own), None);
    }
    (PutForm::ByContents, None, Some(*own))
}

/// Whether the lines of these bytes are extracted again from records of this form.
fn stay_lines(own: &[u8; 32], bytes: &[u8]) -> bool
    ensures { IsTrue result ↔ StayLines own.now bytes.now }
{
    own[0] == 2 && is_plain_text(bytes) && (is_controlled(own) || is_text(bytes))
}

/// Whether these bytes, which are not a text, are extracted again from a file of this form.
fn stay_bytes(own: &[u8; 32], bytes: &[u8]) -> bool
    ensures { IsTrue result ↔ StayBytes own.now bytes.now }
{
    !is_put_as_text(PutForm::ByContents, &None, bytes) && !has_no_form(own) && are_raw(own, bytes)
}

/// Whether attributes say no more than those that bytes get by their contents.
fn has_no_form(own: &[u8; 32]) -> bool
    ensures { result ≡ no_form own.now }
{
    are_zeros(own) || (own[0] == 1 && own[1] == 0 && record_size(own) == 512)
}

/// Whether a file of this form with these bytes is extracted as bytes.
fn are_raw(own: &[u8; 32], bytes: &[u8]) -> bool
    ensures { IsTrue result ↔ AreRaw (kind_in own.now) own.now bytes.now }
{
    match kind_of(own) {
        Some(kind) => are_raw_records(kind, own, bytes),
        None => !is_line_stream(own),
    }
}

/// Whether these bytes are records of this form that are not extracted as lines.
fn are_raw_records(kind: RecordKind, own: &[u8; 32], bytes: &[u8]) -> bool
    ensures { IsTrue result ↔ AreRawRecords kind own.now bytes.now }
{
    let Ok(survey) = survey_records(kind, bytes) else {
        return false;
    };
    let size = record_size(own);
    (size == 0 || survey.longest <= usize::from(size)) && !survey.come_as_lines(own)
}
