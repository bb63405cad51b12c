//! `find --deleted`: deleted files whose headers are still there.
ghost use Rattle.std.specs.Prelude.{◌≡◌, ◌++◌, false, ℕ, List, None, string_bytes, IfErr, IfOk, OnOk};
ghost use Rattle.ods_paths.specs.Views.{files as said};
ghost use Rattle.fs_reads.specs.Deleted.{EndsDeleted, EndsWords, SaysDeleted, ShowsAsked, ShowsDeleted, ShowsPath, ShowsPaths, counts_from_others as from_others, deletions_text};
ghost use Rattle.fs_reads.specs.Shown.{Extends};

use crate::finding::names_no_directory;
use crate::stop::{Stop, stop_about};
use fs_words::Words;
use ods_paths::{Files, Path, Versions, parse_path};
use ods_shell::{Deletion, PathFault, Status, deletion_lines, deletion_objects, known_deletions};
use ods_space::Disk;
use std::alloc::{AllocError, Global};

/// Appends the output of `find --deleted`. If a path is refused, the text of the paths before it stays.
pub(crate) fn push_deleted<'a>(
    alloc: Global,
    disk: &Disk<'_>,
    words: &Words<'a>,
    long: bool,
    text: &mut String,
) -> Result<(), Stop<'a>>
    ensures ok { OnOk result ((more : List ℕ) × ShowsAsked disk.now.image.now disk.now.layout.now words.now.json words.now.image.now long words.now.paths.items more × (string_bytes text.new ≡ string_bytes text.old ++ more)) }
    ensures extends { Extends (string_bytes text.old) (string_bytes text.new) }
{
    push_asked(
        alloc,
        disk,
        &words.paths,
        words.json,
        words.image,
        long,
        text,
    )
}

/// Appends the deleted files that these paths look for, or all where there are no paths.
#[tactic(auto, using(crate::proofs::DeletedShown::shown_all, crate::proofs::DeletedShown::shown_asked))]
fn push_asked<'a>(
    alloc: Global,
    disk: &Disk<'_>,
    paths: &[&'a str],
    json: bool,
    image: &str,
    long: bool,
    text: &mut String,
) -> Result<(), Stop<'a>>
    ensures ok { OnOk result ((more : List ℕ) × ShowsAsked disk.now.image.now disk.now.layout.now json image.now long paths.now more × (string_bytes text.new ≡ string_bytes text.old ++ more)) }
    ensures extends { Extends (string_bytes text.old) (string_bytes text.new) }
{
    if 0 < paths.len() {
        push_each(alloc, disk, paths, json, image, long, text)?;
        Ok(())
    } else {
        Ok(push_all(alloc, disk, json, image, long, text)?)
    }
}

/// Appends the deleted files that each of these paths looks for.
#[tactic(auto, using(crate::proofs::Growing::extends_pushed, crate::proofs::Growing::extends_on, crate::proofs::Growing::extends_same))]
fn push_each<'a>(
    alloc: Global,
    disk: &Disk<'_>,
    paths: &[&'a str],
    json: bool,
    image: &str,
    long: bool,
    text: &mut String,
) -> Result<(), Stop<'a>>
    ensures ok { OnOk result ((more : List ℕ) × ShowsPaths disk.now.image.now disk.now.layout.now json image.now long paths.now more × (string_bytes text.new ≡ string_bytes text.old ++ more)) }
    ensures extends { Extends (string_bytes text.old) (string_bytes text.new) }
{
    for path in paths {
        push_path(alloc, disk, *path, json, image, long, text)?;
    }
    Ok(())
}

/// Appends all deleted files.
#[tactic(auto, using(crate::proofs::Growing::extends_pushed, crate::proofs::Growing::extends_on, crate::proofs::Growing::extends_same))]
fn push_all(
    alloc: Global,
    disk: &Disk<'_>,
    json: bool,
    image: &str,
    long: bool,
    text: &mut String,
) -> Result<(), AllocError>
    ensures ok { OnOk result ((more : List ℕ) × ShowsDeleted disk.now.image.now disk.now.layout.now json image.now long None more × (string_bytes text.new ≡ string_bytes text.old ++ more)) }
    ensures extends { Extends (string_bytes text.old) (string_bytes text.new) }
{
    let all = known_deletions(alloc, disk, &None)?;
    push_deletions(alloc, &all, json, image, long, text)?;
    Ok(())
}

/// Appends the deleted files that a path looks for. A path that finds none is refused.
#[tactic(auto, using(crate::proofs::Growing::extends_pushed, crate::proofs::Growing::extends_on, crate::proofs::Growing::extends_same))]
fn push_path<'a>(
    alloc: Global,
    disk: &Disk<'_>,
    path: &'a str,
    json: bool,
    image: &str,
    long: bool,
    text: &mut String,
) -> Result<(), Stop<'a>>
    ensures ok { OnOk result ((more : List ℕ) × ShowsPath disk.now.image.now disk.now.layout.now json image.now long path.entry.now more × (string_bytes text.new ≡ string_bytes text.old ++ more)) }
    ensures err { IfErr result (EndsDeleted disk.now.image.now disk.now.layout.now path.entry) }
    ensures extends { Extends (string_bytes text.old) (string_bytes text.new) }
{
    let files = files_alone(alloc, path)?;
    let all = known_deletions(alloc, disk, &Some(files))?;
    if 0 < all.len() {
        Ok(push_deletions(alloc, &all, json, image, long, text)?)
    } else {
        Err(Stop::Path(path, PathFault::Nothing))
    }
}

/// Appends an object, or a line, for each of these deleted files.
#[tactic(auto, using(crate::proofs::Growing::extends_pushed, crate::proofs::Growing::extends_on, crate::proofs::Growing::extends_same))]
fn push_deletions(
    alloc: Global,
    all: &[Deletion],
    json: bool,
    image: &str,
    long: bool,
    text: &mut String,
) -> Result<(), AllocError>
    ensures ok { OnOk result (string_bytes text.new ≡ string_bytes text.old ++ deletions_text json image.now long all.now) }
    ensures extends { Extends (string_bytes text.old) (string_bytes text.new) }
{
    let lines = text_of(alloc, all, json, image, long)?;
    text.push_str(lines.as_str())
}

/// An object, or a line, for each of these deleted files.
fn text_of(
    alloc: Global,
    all: &[Deletion],
    json: bool,
    image: &str,
    long: bool,
) -> Result<String, AllocError>
    ensures { IfOk result (λ text. string_bytes text ≡ deletions_text json image.now long all.now) }
{
    if json {
        deletion_objects(alloc, image, all)
    } else {
        deletion_lines(alloc, all, long)
    }
}

/// The files that a path says by name alone, for deleted files are in no directory.
fn files_alone<'a>(alloc: Global, path: &'a str) -> Result<Files<'a>, Stop<'a>>
    ensures ok { IfOk result (λ files. SaysDeleted path.entry.now (said files)) }
    ensures err { IfErr result EndsWords }
{
    if !names_no_directory(path) {
        let why = "a deleted file is in no directory: give only its name";
        return Err(stop_about(alloc, path, why, Status::Words));
    }
    match parse_path(path.as_bytes()) {
        Ok(Path::Within(_, Some(files))) => own_versions(alloc, path, files),
        Ok(Path::Within(_, None)) => Err(Stop::Path(path, PathFault::NoName)),
        Ok(Path::File(_)) => Err(Stop::Path(path, PathFault::IsId)),
        Err(bad) => Err(Stop::Path(path, PathFault::Bad(bad))),
    }
}

/// These files, unless their version counts from others.
fn own_versions<'a>(alloc: Global, path: &'a str, files: Files<'a>) -> Result<Files<'a>, Stop<'a>>
    ensures ok { IfOk result (λ own. (own ≡ files.entry) × (from_others files.entry.versions ≡ false)) }
    ensures err { IfErr result EndsWords }
{
    if counts_from_others(files.versions) {
        let why =
            "the other versions of a deleted file are not known: give a version such as ;3, or none";
        return Err(stop_about(alloc, path, why, Status::Words));
    }
    Ok(files)
}

/// Whether a version is the highest or the lowest of several.
fn counts_from_others(versions: Option<Versions>) -> bool
    ensures { result ≡ from_others versions }
{
    match versions {
        Some(Versions::Highest) | Some(Versions::Lowest) => true,
        _ => false,
    }
}
