//! The paths of files, next to the lines that `check` prints about them.
ghost use Rattle.std.specs.Prelude.{◌≡◌, ◌++◌, ◌∷◌, [], true, false, Some, IfOk, option_map, string_bytes};
ghost use Rattle.ods_shell.specs.ByNumber.{path_noted};
ghost use Rattle.fs_reads.specs.Told.{path_told, told_line};

use ods_shell::{FileNames, pair_object, text_object, trio_object};
use std::alloc::{AllocError, Global};

/// The paths of the one or two files that a line describes.
#[derive(Drop)]
pub(crate) struct Beside {
    pub first: Option<String>,
    pub second: Option<String>,
}

/// Returns the paths of the files that a line describes, if they are known.
pub(crate) fn paths_beside(
    alloc: Global,
    names: &Option<FileNames>,
    first: Option<u16>,
    second: Option<u16>,
) -> Result<Beside, AllocError>
    ensures first { IfOk result (λ beside. option_map string_bytes beside.first ≡ path_told names.now first) }
    ensures second { IfOk result (λ beside. option_map string_bytes beside.second ≡ path_told names.now second) }
{
    Ok(Beside {
        first: path_of(alloc, names, first)?,
        second: path_of(alloc, names, second)?,
    })
}

/// The path of a file that a line is of, where it is known.
fn path_of(
    alloc: Global,
    names: &Option<FileNames>,
    file: Option<u16>,
) -> Result<Option<String>, AllocError>
    ensures { IfOk result (λ path. option_map string_bytes path ≡ path_told names.now file) }
{
    let Some(names) = names else {
        return Ok(None);
    };
    match file {
        Some(number) => names.path(alloc, number),
        None => Ok(None),
    }
}

/// Returns a line followed by the paths, or an object with the line as the text of this name, and the paths.
pub(crate) fn line_about(
    alloc: Global,
    json: bool,
    name: &str,
    line: &str,
    beside: &Beside,
) -> Result<String, AllocError>
    ensures { IfOk result (λ text. string_bytes text ≡ told_line json name.now line.now (option_map string_bytes beside.now.first) (option_map string_bytes beside.now.second)) }
{
    if json {
        object_about(alloc, name, line, beside)
    } else {
        text_about(alloc, line, beside)
    }
}

/// An object with a line as the text of this name, and with paths.
fn object_about(
    alloc: Global,
    name: &str,
    line: &str,
    beside: &Beside,
) -> Result<String, AllocError>
    ensures { IfOk result (λ text. string_bytes text ≡ told_line true name.now line.now (option_map string_bytes beside.now.first) (option_map string_bytes beside.now.second)) }
{
    match &beside.first {
        Some(first) => match &beside.second {
            Some(second) => trio_object(
                alloc,
                name,
                line,
                "path",
                first.as_str(),
                "other_path",
                second.as_str(),
            ),
            None => pair_object(alloc, name, line, "path", first.as_str()),
        },
        None => match &beside.second {
            Some(second) => pair_object(alloc, name, line, "other_path", second.as_str()),
            None => text_object(alloc, name, line),
        },
    }
}

/// A line with paths behind it.
fn text_about(alloc: Global, line: &str, beside: &Beside) -> Result<String, AllocError>
    ensures { IfOk result (λ text. string_bytes text ≡ told_line false [] line.now (option_map string_bytes beside.now.first) (option_map string_bytes beside.now.second)) }
{
    match &beside.first {
        Some(first) => match &beside.second {
            Some(second) => text_of_two(alloc, line, first.as_str(), second.as_str()),
            None => text_of_one(alloc, line, "  ", first.as_str()),
        },
        None => match &beside.second {
            Some(second) => text_of_one(alloc, line, "  -  ", second.as_str()),
            None => text_of_none(alloc, line),
        },
    }
}

/// A line.
fn text_of_none(alloc: Global, line: &str) -> Result<String, AllocError>
    ensures { IfOk result (λ text. string_bytes text ≡ line.now ++ 10 ∷ []) }
{
    let text = format!(in alloc; "{line}\n")?;
    Ok(text)
}

/// A line with a path behind it.
fn text_of_one(alloc: Global, line: &str, gap: &str, path: &str) -> Result<String, AllocError>
    ensures { IfOk result (λ text. string_bytes text ≡ line.now ++ ((gap.now ++ path.now) ++ 10 ∷ [])) }
{
    let text = format!(in alloc; "{line}{gap}{path}\n")?;
    Ok(text)
}

/// A line with two paths behind it.
fn text_of_two(alloc: Global, line: &str, first: &str, second: &str) -> Result<String, AllocError>
    ensures { IfOk result (λ text. string_bytes text ≡ told_line false [] line.now (Some first.now) (Some second.now)) }
{
    let text = format!(in alloc; "{line}  {first}  {second}\n")?;
    Ok(text)
}
