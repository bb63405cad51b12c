//! The reasons why a request is refused: for each request a table of conditions with their refusals. The first condition that holds decides.
ghost use Rattle.std.specs.Prelude.{◌≡◌};
ghost use Rattle.ods_request.specs.Faults.{first_of as first_refusal, fault_of, is_map as is_map_file, is_reserved as is_reserved_file};

use crate::catalogue::Catalogue;
use ods_base::{FileId, LAST_VERSION, Name, Uic};
use ods_request::{Refusal, Request, Right};

/// The first of these refusals whose condition holds.
fn first_of(rows: &[(bool, Refusal)]) -> Option<Refusal>
    ensures { result ≡ first_refusal rows.now }
{
    for (holds, refusal) in rows {
        if *holds {
            return Some(*refusal);
        }
    }
    None
}

/// Whether the file is one of the system's.
fn is_reserved(id: FileId) -> bool
    ensures { result ≡ is_reserved_file id }
{
    id.number <= 5
}

/// Whether the file is INDEXF.SYS or BITMAP.SYS.
fn is_map(id: FileId) -> bool
    ensures { result ≡ is_map_file id }
{
    id.number <= 2
}

/// The first refusal of a table that holds of a file, or that there is no such file.
macro_rules! on_file {
    ($file:expr, $found:ident => [$($row:expr),* $(,)?]) => {
        match $file {
            None => Some(Refusal::NoSuchFile),
            Some($found) => first_of(&[$($row),*]),
        }
    };
}

impl Catalogue {
    /// Why an Enter is refused.
    #[tactic(auto, unfolding(ods_request::specs::Faults::fault_of))]
    fn enter_fault(
        &self,
        who: &Uic,
        dir: FileId,
        name: &Name,
        version: Option<u16>,
        file: FileId,
    ) -> Option<Refusal>
        ensures { result ≡ fault_of self.now who.now (Request.Enter dir name.now version file) }
    {
        let Some(found) = self.file(dir) else {
            return Some(Refusal::NoSuchFile);
        };
        let by_name = match version {
            Some(version) => (found.has(name, version), Refusal::NameTaken),
            None => (
                found.last_version(name) >= LAST_VERSION,
                Refusal::VersionsFull,
            ),
        };
        first_of(&[
            (self.file(file).is_none(), Refusal::NoSuchFile),
            (!found.is_directory(), Refusal::NotADirectory),
            (found.is_denied(who, Right::Write), Refusal::Denied),
            by_name,
        ])
    }

    /// Returns the first refusal that holds for a request, or `None`.
    #[tactic(auto, unfolding(ods_request::specs::Faults::fault_of))]
    pub fn fault(&self, who: &Uic, request: &Request) -> Option<Refusal>
        ensures { result ≡ fault_of self.now who.now request.now }
    {
        match request {
            Request::Create { blocks, .. } => first_of(&[(*blocks > 65_535, Refusal::BadCount)]),
            Request::Extend { file, blocks } => on_file!(self.file(*file), found => [
                (is_reserved(*file), Refusal::Reserved),
                (found.is_directory(), Refusal::IsDirectory),
                (*blocks > 65_535 || *blocks == 0, Refusal::BadCount),
                (found.is_denied(who, Right::Extend), Refusal::Denied),
            ]),
            Request::Truncate { file, blocks } => on_file!(self.file(*file), found => [
                (is_reserved(*file), Refusal::Reserved),
                (found.is_directory(), Refusal::IsDirectory),
                (found.has_fewer(*blocks), Refusal::BadCount),
                (found.is_denied(who, Right::Extend), Refusal::Denied),
            ]),
            Request::Delete { file } => on_file!(self.file(*file), found => [
                (is_reserved(*file), Refusal::Reserved),
                (found.is_denied(who, Right::Delete), Refusal::Denied),
                (!found.is_empty(), Refusal::NotEmpty),
            ]),
            Request::Enter {
                dir,
                name,
                version,
                file,
            } => self.enter_fault(who, *dir, name, *version, *file),
            Request::LookUp { dir, name, pick } => on_file!(self.file(*dir), found => [
                (!found.is_directory(), Refusal::NotADirectory),
                (found.is_denied(who, Right::Read), Refusal::Denied),
                (found.pick(name, *pick).is_none(), Refusal::NoSuchName),
            ]),
            Request::Remove { dir, name, pick } => on_file!(self.file(*dir), found => [
                (!found.is_directory(), Refusal::NotADirectory),
                (found.is_denied(who, Right::Write), Refusal::Denied),
                (found.pick(name, *pick).is_none(), Refusal::NoSuchName),
            ]),
            Request::Read { file, vbn } => on_file!(self.file(*file), found => [
                (is_map(*file), Refusal::Reserved),
                (found.is_directory(), Refusal::IsDirectory),
                (found.is_denied(who, Right::Read), Refusal::Denied),
                (found.lacks_block(*vbn), Refusal::NoSuchBlock),
            ]),
            Request::Write { file, vbn, .. } => on_file!(self.file(*file), found => [
                (is_reserved(*file), Refusal::Reserved),
                (found.is_directory(), Refusal::IsDirectory),
                (found.is_denied(who, Right::Write), Refusal::Denied),
                (found.lacks_block(*vbn), Refusal::NoSuchBlock),
            ]),
            Request::List { dir } => on_file!(self.file(*dir), found => [
                (!found.is_directory(), Refusal::NotADirectory),
                (found.is_denied(who, Right::Read), Refusal::Denied),
            ]),
            Request::Stat { file } => on_file!(self.file(*file), _found => []),
            Request::SetUser { file, .. } => on_file!(self.file(*file), found => [
                (is_reserved(*file), Refusal::Reserved),
                (found.is_directory(), Refusal::IsDirectory),
                (found.is_denied(who, Right::Write), Refusal::Denied),
            ]),
        }
    }
}
