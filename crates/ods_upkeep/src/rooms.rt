//! Room for files that replace others.
ghost use Rattle.std.specs.Prelude.{◌≡◌, is_some, slice_index, IfErr, IfOk, MatchResult, OnOk};
ghost use Rattle.ods_upkeep.specs.Rooms.{IsNotPlain, IsReplaced, IsRoomMade, IsThere, counts_left, file_left, pick_for};
ghost use Rattle.ods_upkeep.specs.{Refused.StopsAt, Removed.Does, Unput.IsNoRoom, Unput.IsNotReplaced};

use crate::asking::{delete, remove};
use crate::failure::Why;
use crate::looking::look_up;
use crate::names::Names;
use ods_base::{FileId, Name, Pick};
use ods_filing::Filing;
use ods_request::{Answer, Kind, Refusal, Request, Stat};

/// If files are replaced and an entry has the name: removes it, and deletes its file if no other entry names it. Returns the version that is free
/// then, and what a Stat shows of the file, if it exists.
pub(crate) fn make_room(
    filing: &mut Filing,
    dir: FileId,
    name: Name,
    version: Option<u16>,
    names: &mut Option<Names>,
) -> Result<(Option<u16>, Option<Stat>), Why>
    ensures room { IfOk result (λ made. IsRoomMade dir name version made.0 made.1 names.old names.new filing.old filing.new) }
    ensures replaces { is_some names.new ≡ is_some names.old }
    ensures err { IfErr result (IsNoRoom dir name version names.old filing.old filing.new) }
{
    let Some(names) = names else {
        return Ok((None, None));
    };
    let Some((file, found)) = look_up(filing, dir, name, pick_for(version)) else {
        return Ok((None, None));
    };
    let held = replace(filing, dir, name, found, file, names)?;
    Ok((Some(found), held))
}

/// The version that is looked up: the one that is said, or the highest.
fn pick_for(version: Option<u16>) -> Pick
    ensures { result ≡ pick_for version }
{
    match version {
        Some(version) => Pick::Exact(version),
        None => Pick::Highest,
    }
}

/// This entry goes, and its file where no other entry names it. Returns what is known of the file, if it exists.
fn replace(
    filing: &mut Filing,
    dir: FileId,
    name: Name,
    version: u16,
    file: FileId,
    names: &mut Names,
) -> Result<Option<Stat>, Why>
    ensures { MatchResult result (λ held. IsReplaced dir name version file held names.old names.new filing.old filing.new) (IsNotReplaced dir name version file names.old filing.old filing.new) }
{
    let held = shown_of(filing, file)?;
    remove(filing, dir, name, version)?;
    take_name(filing, held.is_some(), file, names)?;
    Ok(held)
}

/// One entry less names the file, where it is there. It is deleted where none names it then.
fn take_name(
    filing: &mut Filing,
    is_there: bool,
    file: FileId,
    names: &mut Names,
) -> Result<(), Why>
    ensures counted { slice_index names.new ≡ counts_left is_there (slice_index names.old) file }
    ensures gone { OnOk result (Does filing.old (file_left is_there (counts_left is_there (slice_index names.old) file) file) filing.new) }
    ensures err { IfErr result (StopsAt filing.old (file_left is_there (counts_left is_there (slice_index names.old) file) file) filing.new) }
{
    if !is_there {
        return Ok(());
    }
    names.take(file);
    if names.count(file) == 0 {
        return delete(filing, file);
    }
    Ok(())
}

/// What a Stat shows of the file with this ID, if there is one. A directory is not replaced, nor is a file of the system.
fn shown_of(filing: &mut Filing, file: FileId) -> Result<Option<Stat>, Why>
    ensures ok { IfOk result (λ held. IsThere filing.old file held filing.new) }
    ensures err { IfErr result (IsNotPlain filing.old file filing.new) }
{
    let _ = filing.disk();
    match filing.request(&Request::Stat { file }) {
        Ok(answer) => match answer {
            Answer::Info(stat) => match stat.kind {
                Kind::Plain { .. } => Ok(Some(stat)),
                Kind::Directory { .. } => Err(Why::IsDirectory),
                Kind::System => Err(Why::Request(Refusal::Reserved)),
            },
            // A Stat is answered by what the file is.
            _ => unreachable!(),
        },
        Err(Refusal::NoSuchFile) => Ok(None),
        Err(refusal) => Err(Why::Request(refusal)),
    }
}
