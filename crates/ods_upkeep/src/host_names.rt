//! The names of host files, as names of the volume.
ghost use Rattle.std.specs.Prelude.{◌≡◌, ◌↔◌, ℕ, Err, IfErr, IfOk, IsTrue, MatchOption, MatchResult};
ghost use Rattle.ods_upkeep.specs.HostNames.{IsHostName, IsNameFor, IsNoName, IsTyped, IsUntyped, title_of, type_of};
ghost use Rattle.ods_upkeep.specs.Unput.{IsNameless, IsNoHostName};

use crate::failure::Why;
use crate::put_fault::PutFault;
use crate::targets::name_of;
use ods_base::Name;
use ods_text::{cut_at, has_byte};
use std::alloc::Global;

/// Returns the given name, or the name of the host file.
pub(crate) fn name_for(alloc: Global, said: Option<Name>, host: &str) -> Result<Name, Why>
    ensures { MatchResult result (IsNameFor said host.now) (IsNameless said host.now) }
{
    match said {
        Some(name) => Ok(name),
        None => host_name(alloc, host),
    }
}

/// The name of a host file as a name of the volume. A character is refused that stands for one of the volume's that RSX cannot type.
fn host_name(alloc: Global, name: &str) -> Result<Name, Why>
    ensures ok { IfOk result (IsHostName name.now) }
    ensures bad { IsNoName name.now → result ≡ Err Why.BadName }
    ensures untyped { ¬ IsNoName name.now → (c : ℕ) → IsUntyped name.now c → result ≡ Err (Why.Put (PutFault.Untyped c)) }
    ensures err { IfErr result (IsNoHostName name.now) }
{
    let bytes = name.as_bytes();
    if is_no_name(bytes) {
        return Err(Why::BadName);
    }
    if let Some(character) = untyped(bytes) {
        return Err(Why::Put(PutFault::Untyped(character)));
    }
    let (title, kind) = parts(bytes);
    let name = name_of(alloc, title, kind)?;
    Ok(name)
}

/// Returns the part before the first dot, or the whole name, and the part after it.
pub(crate) fn parts(name: &[u8]) -> (&[u8], &[u8])
    ensures { (result.0.now ≡ title_of name.now) × (result.1.now ≡ type_of name.now) }
{
    match cut_at(b'.', name) {
        Some(parts) => parts,
        None => (name, &name[name.len()..]),
    }
}

/// Returns whether the name is not a file name: it is empty, or has a version.
pub(crate) fn is_no_name(name: &[u8]) -> bool
    ensures { IsTrue result ↔ IsNoName name.now }
{
    name.is_empty() || has_byte(b';', name)
}

/// Returns the first of three characters in the name that stand for characters that RSX cannot type.
pub(crate) fn untyped(name: &[u8]) -> Option<char>
    ensures { MatchOption result (IsTyped name.now) (IsUntyped name.now) }
{
    if has_byte(b'_', name) {
        return Some('_');
    }
    if has_byte(b'%', name) {
        return Some('%');
    }
    if has_byte(b'&', name) {
        return Some('&');
    }
    None
}
