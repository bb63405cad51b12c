//! The comparison of the bytes of files on two volumes.
ghost use Rattle.std.specs.Prelude.{◌≡◌, ◌↔◌, ◌⊎◌, ℕ, List, IsTrue, IfOk, IfErr, Some};
ghost use Rattle.ods_files.specs.Body.{bytes_in};
ghost use Rattle.ods_shell.specs.Compared.{AreCompared, HasCompared, HasNone};
ghost use Rattle.ods_space.specs.Files.{FindsFiles};
ghost use Rattle.ods_space.specs.Disks.{on};

use crate::FormFault;
use crate::form::body_of;
use ods_files::{FileBody, Form};
use ods_space::Disk;
use std::alloc::Global;

/// Returns whether two files have the same bytes, up to their end of file, or in all blocks if the end is past them. The error is `NoSuchFile` if
/// the number of one is not the number of a file.
pub fn have_same_bytes(
    alloc: Global,
    one: &Disk<'_>,
    number: u16,
    other: &Disk<'_>,
    other_number: u16,
) -> Result<bool, FormFault>
    requires one { on FindsFiles one.now }
    requires other { on FindsFiles other.now }
    ensures ok { IfOk result (λ same. (x : List ℕ) × (y : List ℕ) × on HasCompared one.now number x
        × on HasCompared other.now other_number y × (IsTrue same ↔ (x ≡ y))) }
    ensures err { IfErr result (λ fault. on HasNone one.now number fault ⊎ on HasNone other.now other_number fault) }
{
    let body = match body_of(alloc, one, number) {
        Ok(body) => body,
        Err(fault) => return Err(fault),
    };
    let other_body = match body_of(alloc, other, other_number) {
        Ok(body) => body,
        Err(fault) => return Err(fault),
    };
    let form = form_of(&body);
    let other_form = form_of(&other_body);
    Ok(body.is_same(form, &other_body, other_form))
}

/// The form in which a body is compared: up to the end of file, or all blocks where that lies past them.
fn form_of(body: &FileBody<'_>) -> Form
    ensures { (bytes : List ℕ) × (bytes_in result body.now ≡ Some bytes) × AreCompared body.now bytes }
{
    match body.size(Form::Binary) {
        Some(_) => Form::Binary,
        None => Form::Raw,
    }
}
