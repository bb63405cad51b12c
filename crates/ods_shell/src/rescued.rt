//! The files of an image that may be refused: each file whose own chain is whole.
ghost use Rattle.std.specs.Prelude.{◌≡◌, ◌⊎◌, IfOk, IfSome, IfNone};
ghost use Rattle.ods_space.specs.Files.{FindsFiles, IsFile};
ghost use Rattle.ods_space.specs.Disks.{on};
ghost use Rattle.ods_shell.specs.Rescued.{HasText, IsKept, IsRescued, IsRescuedPart, LacksText};

use crate::form::{Contents, FormFault, text_in};
use ods_base::FileId;
use ods_files::{FileBody, FileFault, Form};
use ods_header::{file_sequence, ident, is_directory, print_ident};
use ods_space::{ChainFault, Disk, primary_header};
use std::alloc::{AllocError, Global};

/// The contents that are rescued from a file number.
#[derive(Drop)]
pub enum Rescued<'a> {
    /// The number is not the number of a file, or is the number of a directory.
    Nothing,
    /// The chain of this file is not whole.
    Broken(FileId, ChainFault),
    /// The file with this name in its header, and its bytes.
    Whole(FileId, String, Contents<'a>),
}

/// Returns the contents of the file with this number. These are its bytes up to the end of file if that is in its blocks, otherwise all its blocks.
/// With `text`, returns the lines of its records if they are whole.
pub fn open_rescued<'a>(
    alloc: Global,
    disk: &Disk<'a>,
    number: u16,
    text: bool,
) -> Result<Rescued<'a>, AllocError>
    requires { on FindsFiles disk.now }
    ensures { IfOk result (on IsRescued disk.now number text) }
{
    let Some(header) = primary_header(disk, number) else {
        return Ok(Rescued::Nothing);
    };
    if is_directory(number, header) {
        return Ok(Rescued::Nothing);
    }
    let file = FileId {
        number,
        sequence: file_sequence(header),
    };
    match FileBody::open(alloc, disk, number) {
        Ok(body) => {
            let name = String::from_str(alloc, print_ident(&ident(header)).as_str())?;
            Ok(Rescued::Whole(file, name, rescued_contents(alloc, body, text)?))
        }
        Err(FileFault::NoSuchFile) => Ok(Rescued::Nothing),
        Err(FileFault::Chain(ChainFault::NoMemory)) => Err(AllocError),
        Err(FileFault::Chain(fault)) => Ok(Rescued::Broken(file, fault)),
    }
}

/// The name in the header of a file, and the kept contents of its present blocks.
#[derive(Drop)]
pub struct RescuedPart<'a> {
    pub name: String,
    pub contents: Contents<'a>,
}

/// Returns the present part of the file with this number, whether its chain is whole or not: the blocks whose headers are present. Blocks past the
/// image are zeros. Returns `None` for file 1 and if the number is not the number of a file.
pub fn open_rescued_part<'a>(
    alloc: Global,
    disk: &Disk<'a>,
    number: u16,
    text: bool,
) -> Result<Option<RescuedPart<'a>>, AllocError>
    ensures some { IfOk result (λ found. IfSome found (on IsRescuedPart disk.now number text)) }
    ensures none { IfOk result (λ found. IfNone found ((number ≡ 1) ⊎ ¬ on IsFile disk.now number)) }
{
    let Some(header) = primary_header(disk, number) else {
        return Ok(None);
    };
    let name = String::from_str(alloc, print_ident(&ident(header)).as_str())?;
    let Some((body, _is_whole)) = FileBody::open_part(alloc, disk, number)? else {
        return Ok(None);
    };
    let contents = rescued_contents(alloc, body, text)?;
    Ok(Some(RescuedPart { name, contents }))
}

/// Returns the kept contents of a file with this body.
pub(crate) fn rescued_contents<'a>(
    alloc: Global,
    body: FileBody<'a>,
    text: bool,
) -> Result<Contents<'a>, AllocError>
    ensures { IfOk result (IsKept text body.entry) }
{
    if text {
        if let Some(lines) = whole_lines(alloc, &body)? {
            return Ok(Contents::Lines(lines));
        }
    }
    let form = if body.size(Form::Binary).is_some() {
        Form::Binary
    } else {
        Form::Raw
    };
    Ok(Contents::Body(body, form))
}

/// The text of a file, where it is another than its bytes, and its records are whole.
fn whole_lines(alloc: Global, body: &FileBody<'_>) -> Result<Option<Vec<u8>>, AllocError>
    ensures some { IfOk result (λ lines. IfSome lines (λ text. HasText body.now text.items)) }
    ensures none { IfOk result (λ lines. IfNone lines (LacksText body.now)) }
{
    let Some(bytes) = body.read(alloc, Form::Binary)? else {
        return Ok(None);
    };
    match text_in(alloc, &body.attributes(), &bytes) {
        Ok(text) => Ok(text),
        Err(FormFault::NoMemory) => Err(AllocError),
        Err(_) => Ok(None),
    }
}
