//! The meaning of the text of a path.
ghost use Rattle.std.specs.Prelude.{◌∷◌, [], MatchResult};
ghost use Rattle.std.specs.List.{after_last};
ghost use Rattle.ods_text.specs.{Cuts.is, One.IsTheOne};
ghost use Rattle.ods_paths.specs.{Numbers.IsId, Paths.Says, Paths.SaysHere, Paths.IsWithin, Paths.before_files, Paths.files_in, Bad.IsBad, Bad.IsBadHere, Bad.IsBadWithin, Views.said};

use crate::files::read_files;
use crate::folders::read_folder;
use crate::parts::{names_directory, past_device, past_slash};
use crate::{BadPath, Files, Folder};
use ods_base::FileId;
use ods_text::{cut_at, cut_last, read_small};

/// A parsed path: a file by its ID, or directories and, if the path specifies them, files in them.
#[derive(Clone, Copy)]
pub enum Path<'a> {
    /// The file with this ID.
    File(FileId),
    /// Directories, and the files in them if the path selects some.
    Within(Folder<'a>, Option<Files<'a>>),
}

/// Parses the text of a path. An error states the bad part of the text.
pub fn parse_path(text: &[u8]) -> Result<Path<'_>, BadPath>
    ensures { MatchResult result (λ p. Says text.now (said p)) (IsBad text.now) }
{
    if text.is_empty() {
        return Err(BadPath::Empty);
    }
    parse_here(past_device(text))
}

/// What a text without a device says.
fn parse_here(text: &[u8]) -> Result<Path<'_>, BadPath>
    ensures { MatchResult result (λ p. SaysHere text.now (said p)) (IsBadHere text.now) }
{
    let Some((first, rest)) = text.split_first() else {
        return parse_slashed(text);
    };
    if *first == b'#' || *first == b'@' {
        let Some(file) = read_id(rest) else {
            return Err(BadPath::Id);
        };
        return Ok(Path::File(file));
    }
    if *first == b'[' {
        return parse_bracketed(rest);
    }
    parse_slashed(past_slash(text))
}

/// What a text says that begins with `[`, from what stands behind that.
fn parse_bracketed(rest: &[u8]) -> Result<Path<'_>, BadPath>
    ensures { MatchResult result (λ p. SaysHere (91 ∷ rest.now) (said p)) (IsBadHere (91 ∷ rest.now)) }
{
    let Some((dir, last)) = cut_at(b']', rest) else {
        return Err(BadPath::Bracket);
    };
    if dir.is_empty() {
        return Err(BadPath::Bracket);
    }
    if names_directory(last) {
        return within(b'.', dir, last, b"");
    }
    within(b'.', dir, b"", last)
}

/// What a text without brackets says, behind a `/` that it begins with.
fn parse_slashed(text: &[u8]) -> Result<Path<'_>, BadPath>
    ensures { MatchResult result (λ p. IsWithin 47 (before_files text.now) [] (files_in (after_last (is 47) text.now)) (said p))
        (IsBadWithin 47 (before_files text.now) [] (files_in (after_last (is 47) text.now))) }
{
    let (dir, last) = cut_last(b'/', text);
    if names_directory(last) {
        return within(b'/', text, b"", b"");
    }
    within(b'/', dir, b"", last)
}

/// The directories that the text of a DIR says, with this separator between names, and one more behind it; and the files in them.
fn within<'a>(
    separator: u8,
    dir: &'a [u8],
    more: &'a [u8],
    files: &'a [u8],
) -> Result<Path<'a>, BadPath>
    ensures { MatchResult result (λ p. IsWithin separator dir.now more.now files.now (said p)) (IsBadWithin separator dir.now more.now files.now) }
{
    let Some(folder) = read_folder(separator, dir, more) else {
        return Err(BadPath::Directory);
    };
    if files.is_empty() {
        return Ok(Path::Within(folder, None));
    }
    match read_files(files) {
        Ok(files) => Ok(Path::Within(folder, Some(files))),
        Err(bad) => Err(bad),
    }
}

/// The file that a text names by number and sequence number, as `6,1`.
fn read_id(text: &[u8]) -> Option<FileId>
    ensures { IsTheOne (IsId text.now) result }
{
    let Some((front, back)) = cut_at(b',', text) else {
        return None;
    };
    let Some(number) = read_small(front) else {
        return None;
    };
    let Some(sequence) = read_small(back) else {
        return None;
    };
    if number == 0 {
        return None;
    }
    Some(FileId { number, sequence })
}
