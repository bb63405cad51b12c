//! The target that a path specifies.
ghost use Rattle.std.specs.Prelude.{◌≡◌, ◌⊎◌, ◌++◌, ◌∷◌, ◌↔◌, [], IfErr, IfOk, IsTrue, MatchOption, MatchResult};
ghost use Rattle.ods_base.specs.Name.{RadName, Spells};
ghost use Rattle.ods_base.specs.declared.file_id.FileId.{FileId as Id};
ghost use Rattle.ods_paths.specs.Patterns.{capitals};
ghost use Rattle.ods_paths.specs.{Paths.Said, Paths.Says, Paths.Within, Views.files as said_files, Views.said_files as said_some, Views.folder as said_folder, Views.said};
ghost use Rattle.ods_shell.specs.declared.facts.Facts.{Facts as Known};
ghost use Rattle.ods_shell.specs.declared.folders.Directory.{Directory as Holder};
ghost use Rattle.ods_shell.specs.Facts.{AreFacts};
ghost use Rattle.ods_shell.specs.Ways.{AreMeant};
ghost use Rattle.ods_upkeep.specs.Hidden.{HidesEntries};
ghost use Rattle.ods_upkeep.specs.Refused.{HasPath, no_memory};
ghost use Rattle.ods_upkeep.specs.declared.failure.Why.{Why as Reason};
ghost use Rattle.ods_upkeep.specs.Target.{AreExact, AreNoTarget, GivesName, IsAlone, IsDirectoryNamed, IsIdOfNone, IsInto, IsNoDirectory, IsNoName, IsNoTarget, IsNoTargetOf, IsTarget, IsTargetOf, IsTheDirectory, IsWhole, MayBeDirectory, SaysNoTarget, SaysNoVersion, SaysVersion};

use crate::failure::{Failure, Why, of_path};
use crate::hidden::hides_entries;
use crate::parts::has_dot;
use crate::target::Target;
use ods_base::{FileId, Name, Pick, parse_name};
use ods_mount::Mounted;
use ods_paths::{Files, Folder, Path, Versions, has_wildcard, parse_path};
use ods_shell::mounted::{facts_by_id, facts_of, find_directories, find_names};
use ods_shell::{Found, Kind, PathFault};
use std::alloc::Global;

/// Returns the target of `count` files: a name is the target of only one file.
pub(crate) fn target_of(
    alloc: Global,
    volume: &Mounted,
    count: usize,
    to: &str,
) -> Result<Target, Failure>
    ensures { MatchResult result (IsTarget volume.now.image volume.now.layout count to.now)
        (λ failure. IsNoTarget volume.now.image volume.now.layout count to.now failure.why × HasPath failure to.now) }
{
    match read_target(alloc, volume, to) {
        Ok(target) => {
            if count > 1 && target.name.is_some() {
                return Err(of_path(alloc, to, Why::Several));
            }
            Ok(target)
        }
        Err(why) => Err(of_path(alloc, to, why)),
    }
}

/// The target that a path says: a directory that is there, or a name in one. A directory that hides entries is refused, since a name that is
/// entered there could be one of them.
fn read_target(alloc: Global, volume: &Mounted, to: &str) -> Result<Target, Why>
    ensures { MatchResult result (λ target. (says : Said) × Says to.now says × IsTargetOf volume.now.image volume.now.layout to.now says target
        × ¬ HidesEntries volume.now.image volume.now.layout target.directory.number) (SaysNoTarget volume.now.image volume.now.layout to.now) }
{
    let target = match parse_path(to.as_bytes()) {
        Ok(path) => target_said(alloc, volume, to.as_bytes(), &path)?,
        Err(bad) => return Err(Why::Path(PathFault::Bad(bad))),
    };
    if hides_entries(alloc, volume, target.directory.number)? {
        return Err(Why::Hidden);
    }
    Ok(target)
}

/// The target of a path that says this.
fn target_said(alloc: Global, volume: &Mounted, text: &[u8], path: &Path<'_>) -> Result<Target, Why>
    ensures { MatchResult result (IsTargetOf volume.now.image volume.now.layout text.now (said path.now))
        (IsNoTargetOf volume.now.image volume.now.layout text.now (said path.now)) }
{
    match path {
        Path::File(file) => directory_with(volume, *file),
        Path::Within(folder, files) => target_within(alloc, volume, text, folder, files),
    }
}

/// The target of a path that says these files, or none, in a folder.
fn target_within(
    alloc: Global,
    volume: &Mounted,
    text: &[u8],
    folder: &Folder<'_>,
    files: &Option<Files<'_>>,
) -> Result<Target, Why>
    ensures { MatchResult result (IsTargetOf volume.now.image volume.now.layout text.now (Within (said_folder folder.now) (said_some files.now)))
        (IsNoTargetOf volume.now.image volume.now.layout text.now (Within (said_folder folder.now) (said_some files.now))) }
{
    match files {
        None => Ok(whole(the_directory(alloc, volume, folder)?)),
        Some(files) => named_within(alloc, volume, text, folder, *files),
    }
}

/// The directory with this ID.
fn directory_with(volume: &Mounted, file: FileId) -> Result<Target, Why>
    ensures { MatchResult result (λ target. IsWhole file target
        × ((facts : Known) × AreFacts volume.now.image volume.now.layout file.number facts × (facts.file ≡ file) × (facts.kind ≡ Kind.Directory)))
        (IsIdOfNone volume.now.image volume.now.layout file) }
{
    match facts_by_id(volume, file) {
        Some(facts) if facts.kind == Kind::Directory => Ok(whole(file)),
        _ => Err(Why::IsId),
    }
}

/// A directory, where each file keeps its name.
fn whole(directory: FileId) -> Target
    ensures { IsWhole directory result }
{
    Target {
        directory,
        name: None,
        version: None,
    }
}

/// Returns the one selected directory.
pub(crate) fn the_directory(
    alloc: Global,
    volume: &Mounted,
    folder: &Folder<'_>,
) -> Result<FileId, Why>
    ensures { MatchResult result (IsTheDirectory volume.now.image volume.now.layout (said_folder folder.now))
        (IsNoDirectory volume.now.image volume.now.layout (said_folder folder.now)) }
{
    let found = find_directories(alloc, volume, folder)?;
    match found.as_slice() {
        [] => Err(Why::Path(PathFault::Nothing)),
        [one] => match facts_of(volume, one.number) {
            Some(facts) => Ok(facts.file),
            None => Err(Why::Path(PathFault::Nothing)),
        },
        _ => Err(Why::Several),
    }
}

/// The target of a name in a directory; where the name may be that of a directory, and one is there, it is meant itself.
fn named_within(
    alloc: Global,
    volume: &Mounted,
    text: &[u8],
    folder: &Folder<'_>,
    files: Files<'_>,
) -> Result<Target, Why>
    ensures exact { IfOk result (λ target. AreExact (said_files files.entry)) }
    ensures target { IfOk result (λ target.
        ((file : Id) × IsInto volume.now.image volume.now.layout text.now (said_folder folder.now) (said_files files.entry) file × IsWhole file target)
        ⊎ (((file : Id) → ¬ IsInto volume.now.image volume.now.layout text.now (said_folder folder.now) (said_files files.entry) file)
        × GivesName volume.now.image volume.now.layout (said_folder folder.now) (said_files files.entry) target)) }
    ensures refused { IfErr result (AreNoTarget volume.now.image volume.now.layout text.now (said_folder folder.now) (said_files files.entry)) }
{
    if has_wildcard(files.name) || has_wildcard(files.kind) {
        return Err(Why::Several);
    }
    let version = version_said(files.versions)?;
    if let Some(directory) = directory_into(alloc, volume, text, folder, files, version)? {
        return Ok(whole(directory));
    }
    let directory = the_directory(alloc, volume, folder)?;
    let name = name_of(alloc, files.name, files.kind)?;
    Ok(Target {
        directory,
        name: Some(name),
        version,
    })
}

/// The version that a name gets; `None` where it is the next one.
fn version_said(versions: Option<Versions>) -> Result<Option<u16>, Why>
    ensures { MatchResult result (SaysVersion versions) (λ why. (why ≡ Reason.Several) × SaysNoVersion versions) }
{
    match versions {
        None | Some(Versions::Highest) => Ok(None),
        Some(Versions::Exact(version)) => Ok(Some(version)),
        Some(Versions::Lowest) | Some(Versions::Every) => Err(Why::Several),
    }
}

/// The directory that is meant itself, where no version is said, the name may be that of one, and it is there.
fn directory_into(
    alloc: Global,
    volume: &Mounted,
    text: &[u8],
    folder: &Folder<'_>,
    files: Files<'_>,
    version: Option<u16>,
) -> Result<Option<FileId>, Why>
    requires { SaysVersion files.versions version }
    ensures { MatchResult result (λ found. MatchOption found
        ((directory : Holder) → AreMeant volume.now.image volume.now.layout [] (said_folder folder.now) (directory ∷ [])
        → (file : Id) → ¬ IsInto volume.now.image volume.now.layout text.now (said_folder folder.now) (said_files files.entry) file)
        (IsInto volume.now.image volume.now.layout text.now (said_folder folder.now) (said_files files.entry)))
        (λ why. why ≡ no_memory) }
{
    if version.is_some() {
        return Ok(None);
    }
    if !may_be_directory(text, files.kind) {
        return Ok(None);
    }
    directory_named(alloc, volume, folder, files.name)
}

/// Returns whether a path with this type may name a directory: its type is DIR, or it has none, and no dot either. `A.` is a name with the empty
/// type.
pub(crate) fn may_be_directory(path: &[u8], kind: &[u8]) -> bool
    ensures { IsTrue result ↔ MayBeDirectory path.now (capitals kind.now) }
{
    if kind.is_empty() {
        return !has_dot(path);
    }
    kind.eq_ignore_ascii_case(b"DIR")
}

/// The directory of this name.
fn directory_named(
    alloc: Global,
    volume: &Mounted,
    folder: &Folder<'_>,
    name: &[u8],
) -> Result<Option<FileId>, Why>
    ensures { MatchResult result (λ found. MatchOption found
        ((directory : Holder) → AreMeant volume.now.image volume.now.layout [] (said_folder folder.now) (directory ∷ [])
        → (file : Id) → ¬ IsDirectoryNamed volume.now.image volume.now.layout (said_folder folder.now) (capitals name.now) file)
        (IsDirectoryNamed volume.now.image volume.now.layout (said_folder folder.now) (capitals name.now)))
        (λ why. why ≡ no_memory) }
{
    let _ = volume.layout();
    let files = Files {
        name,
        kind: b"DIR",
        versions: Some(Versions::Highest),
    };
    match find_names(alloc, volume, folder, files, None, &[]) {
        Ok((found, _)) => Ok(one_directory(&found)),
        Err(PathFault::Nothing) => Ok(None),
        Err(fault) => Err(fault.into()),
    }
}

/// The one that was found, where it is a directory.
fn one_directory(found: &[Found]) -> Option<FileId>
    ensures { MatchOption result ((file : Id) → ¬ IsAlone found.now file) (IsAlone found.now) }
{
    let [one] = found else {
        return None;
    };
    let Some(facts) = one.facts else {
        return None;
    };
    if facts.kind != Kind::Directory {
        return None;
    }
    Some(facts.file)
}

/// Returns the name with these characters, in either case, and this type.
pub(crate) fn name_of(alloc: Global, name: &[u8], kind: &[u8]) -> Result<Name, Why>
    ensures { MatchResult result (λ n. Spells (capitals name.now ++ 46 ∷ capitals kind.now) n Pick.Highest) (IsNoName (capitals name.now) (capitals kind.now)) }
{
    let mut text = Vec::new(alloc);
    push_capitals(&mut text, name)?;
    text.push(b'.')?;
    push_capitals(&mut text, kind)?;
    spelled(&text)
}

/// The name that a text without a version spells.
fn spelled(text: &[u8]) -> Result<Name, Why>
    ensures { MatchResult result (λ n. Spells text.now n Pick.Highest) (λ why. (why ≡ Reason.BadName) × ((n : RadName) → ¬ Spells text.now n Pick.Highest)) }
{
    match parse_name(text) {
        Ok((name, Pick::Highest)) => Ok(name),
        Ok((_, Pick::Lowest)) => Err(Why::BadName),
        Ok((_, Pick::Exact(_))) => Err(Why::BadName),
        Err(_) => Err(Why::BadName),
    }
}

/// Appends characters as capitals.
fn push_capitals(text: &mut Vec<u8>, part: &[u8]) -> Result<(), Why>
    ensures { MatchResult result (λ _. text.new.items ≡ text.old.items ++ capitals part.now) (λ why. why ≡ no_memory) }
{
    for character in part {
        text.push(character.to_ascii_uppercase())?;
    }
    Ok(())
}
