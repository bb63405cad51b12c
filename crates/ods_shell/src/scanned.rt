//! The contents of a file that a scan of an image found.
ghost use Rattle.std.specs.Prelude.{◌≡◌, ◌<◌, ◌↔◌, IfOk, IfSome, IfNone, IsTrue, length};
ghost use Rattle.ods_base.specs.Image.{block_at};
ghost use Rattle.ods_header.specs.Header.{number_of};
ghost use Rattle.ods_remains.specs.{Candidates.HasFirst, Scanned.IsScanned};
ghost use Rattle.ods_shell.specs.Scanned.{HasItsNumberBeside, IsKeptPart, IsMissing, IsNamedAt, IsRefound, IsSought};

use crate::form::Contents;
use crate::rescued::rescued_contents;
use ods_base::{FileId, Image};
use ods_files::{FileBody, outside};
use ods_header::{
    attributes, file_number, file_sequence, ident, is_directory, print_ident, segment,
};
use ods_remains::{Scanned, is_candidate};
use ods_space::ChainFault;
use std::alloc::{AllocError, Global};

/// The ID and the name in a first header.
#[derive(Drop)]
pub struct HeaderName {
    pub file: FileId,
    pub name: String,
}

/// The contents of a file that a scan found.
#[derive(Drop)]
pub struct Refound<'a> {
    /// What is missing: `BadChain` for a header, `OutsideVolume` for a block.
    pub missing: Option<ChainFault>,
    /// The kept contents of the file. `None` if some of it is missing and parts are not requested.
    pub contents: Option<Contents<'a>>,
}

/// Returns the ID and the name of the file of the first header at this LBN. Returns `None` if no first header is there, or if the header belongs to
/// a reserved file or to a directory.
pub fn name_at(alloc: Global, image: &Image, first: u32) -> Result<Option<HeaderName>, AllocError>
    ensures some { IfOk result (λ found. IfSome found (IsNamedAt image.now first)) }
    ensures none { IfOk result (λ found. IfNone found (¬ (HasFirst image.now first × IsSought (block_at image.now first)))) }
{
    if image.len() <= first {
        return Ok(None);
    }
    let header = image.block(first);
    if !is_candidate(header) || segment(header) != 0 {
        return Ok(None);
    }
    let number = file_number(header);
    if number <= 5 || is_directory(number, header) {
        return Ok(None);
    }
    let name = String::from_str(alloc, print_ident(&ident(header)).as_str())?;
    Ok(Some(HeaderName {
        file: FileId {
            number,
            sequence: file_sequence(header),
        },
        name,
    }))
}

/// Returns the contents of the file of the first header at this LBN. These are its bytes up to the end of file if that is in its blocks, otherwise
/// all its blocks. With `text`, returns the lines of its records if they are whole. If a header or a block is missing, returns the present part only
/// with `partial`.
pub fn open_scanned<'a>(
    alloc: Global,
    image: &'a Image,
    first: u32,
    file: Scanned,
    text: bool,
    partial: bool,
) -> Result<Refound<'a>, AllocError>
    requires { IsScanned image.now first file }
    ensures { IfOk result (IsRefound image.now first text partial file) }
{
    // The blocks of an image have bytes, so a header names few blocks.
    let _ = image.len();
    let header = image.block(first);
    let missing = missing_of(image, &file.blocks, file.is_cut);
    let body = FileBody::of_blocks(image, file.blocks, attributes(header));
    let contents = keep_part(alloc, body, missing, text, partial)?;
    Ok(Refound { missing, contents })
}

/// What is missing of a file whose headers name the blocks at these LBNs, and whose chain is cut or not.
fn missing_of(image: &Image, lbns: &[u32], is_cut: bool) -> Option<ChainFault>
    ensures { IsMissing image.now lbns.now is_cut result }
{
    if is_cut {
        return Some(ChainFault::BadChain);
    }
    match outside(image, lbns) {
        Some(lbn) => Some(ChainFault::OutsideVolume(lbn)),
        None => None,
    }
}

/// What is kept of a file with this body, of which this is missing.
fn keep_part<'a>(
    alloc: Global,
    body: FileBody<'a>,
    missing: Option<ChainFault>,
    text: bool,
    partial: bool,
) -> Result<Option<Contents<'a>>, AllocError>
    ensures { IfOk result (IsKeptPart text partial body.entry missing) }
{
    if !partial && missing.is_some() {
        return Ok(None);
    }
    Ok(Some(rescued_contents(alloc, body, text)?))
}

/// Returns whether the header at LBN `at` of the list has the number of the header before it or after it in the list.
pub fn has_its_number_beside(image: &Image, lbns: &[u32], at: usize) -> bool
    requires { at < length lbns.now }
    ensures { IsTrue result ↔ HasItsNumberBeside image.now lbns.now at }
{
    let number = number_at(image, lbns[at]);
    if at > 0 && number_at(image, lbns[at - 1]) == number {
        return true;
    }
    at + 1 < lbns.len() && number_at(image, lbns[at + 1]) == number
}

/// The number that the header at this LBN has; 0 past the image.
fn number_at(image: &Image, lbn: u32) -> u16
    ensures { result ≡ number_of (block_at image.now lbn) }
{
    if lbn < image.len() {
        file_number(image.block(lbn))
    } else {
        0
    }
}
