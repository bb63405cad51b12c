//! The contents of a file: its bytes unchanged, or a text of it.
ghost use Rattle.std.specs.Prelude.{◌≡◌, ◌⊎◌, ℕ, List, take, IfOk, IfErr, OnOk, IfSome, IfNone, Some, None};
ghost use Rattle.std.specs.Io.KnownBytes.{Appends};
ghost use Rattle.ods_base.specs.Image.{TookBytes};
ghost use Rattle.ods_shell.specs.declared.form.FormFault.TheVariants as faults;
ghost use Rattle.ods_shell.specs.{Contents.IsGot, Contents.IsGotBy, Contents.IsNotGot, Contents.IsNotGotBy, Contents.AreBytes, Contents.AreStreamLines, Contents.IsGotAlone, Contents.is_line_stream as line_stream, Contents.IsChosen, Contents.IsTextOf, Contents.HasNoText, Contents.has_words as words_for, Contents.has_known_header as header_known, Contents.is_taken_back as taken_back, Contents.bytes_remark as said_of_bytes, Contents.end_remark as remark_of_end, Contents.ends_early as early, Contents.form_got as form_wanted, Shown.ContentsAre, Compared.HasNone};
ghost use Rattle.ods_files.specs.Body.{HasBody, bytes_in};
ghost use Rattle.ods_files.specs.declared.form.Form.TheVariants as forms;
ghost use Rattle.ods_records.specs.Attributes.{kind_in, text_form_in};
ghost use Rattle.ods_records.specs.declared.kind.TextForm.TheVariants as texts;
ghost use Rattle.ods_space.specs.Files.{FindsFiles};
ghost use Rattle.ods_space.specs.Disks.{on};

use ods_base::{WriteFault, write_bytes};
use ods_files::{CopyFault, FileBody, FileFault, Form};
use ods_records::{
    RecordFault, RecordKind, TextForm, Wanted, end_of_file, fixed_to_text, kind_of, print_form,
    record_size, records_to_text, stream_to_text, survey_records, text_form,
};
use ods_space::{ChainFault, Disk};
use std::alloc::{AllocError, Global};
use std::fmt;
use std::io::Write;
use thiserror::Error;

/// The reason why the contents of a file are refused.
#[derive(Clone, Copy, Debug, PartialEq, Eq, Error)]
pub enum FormFault {
    /// The number is not the number of a file.
    #[error("no such file")]
    NoSuchFile,
    /// A header of its chain is missing.
    #[error("its header chain is broken")]
    BadChain,
    /// Its headers name this block, which is past the image.
    #[error("it uses block {0}, which is past the end of the image")]
    OutsideVolume(u32),
    /// The end of file is past the blocks, and not all blocks are requested.
    #[error("its end of file is past its last block")]
    EndPastBlocks,
    /// The first fault of the records.
    #[error("{0}")]
    Records(RecordFault),
    /// Fixed-length records of this many bytes that do not cross a block boundary are longer than a block.
    #[error("records of {0} bytes do not fit in a block")]
    TooLongForBlock(u16),
    /// The allocator refused memory.
    #[error("out of memory")]
    NoMemory,
}

impl From<AllocError> for FormFault {
    ghost from_gives = { λ _ e. e ≡ faults.NoMemory };

    fn from(_error: AllocError) -> FormFault {
        FormFault::NoMemory
    }
}

/// A remark on extracted contents.
#[derive(Clone, Copy, Debug, PartialEq, Eq)]
pub enum Remark {
    /// The records are not a valid text, so the contents are bytes, and no form was requested. `put -b --form` stores the bytes again with the
    /// first four bytes of the attributes.
    NoText([u8; 4]),
    /// The records are not a valid text, so the contents are bytes. No form that can be specified stores them again.
    NoForm,
    /// The attributes are all zeros, so nothing was ever written into them.
    NoAttributes,
    /// The file ends at byte 0, and has blocks.
    NoEnd,
}

impl fmt::Display for Remark {
    fn fmt<W: fmt::Write>(&self, f: &mut fmt::Formatter<W>) -> fmt::Result {
        match self {
            Remark::NoText(form) => {
                let form = print_form(form);
                write!(
                    f,
                    "its records are not text, so it is copied as bytes; put -b --form {form} restores the records"
                )
            }
            Remark::NoForm => f.write_str("its records are not text, so it is copied as bytes"),
            Remark::NoAttributes => {
                f.write_str("its attributes do not state its end, so all blocks are copied")
            }
            Remark::NoEnd => f.write_str(
                "its end of file is 0, but it has blocks; --raw copies them",
            ),
        }
    }
}

/// The bytes of the extracted contents.
#[derive(Drop)]
pub enum Contents<'a> {
    /// The bytes of a text.
    Lines(Vec<u8>),
    /// The bytes of its blocks, in a form that yields some.
    Body(FileBody<'a>, Form),
}

/// The extracted contents of a file, and a remark on them.
#[derive(Drop)]
pub struct Got<'a> {
    pub contents: Contents<'a>,
    pub remark: Option<Remark>,
}

/// Returns the contents of the file with this number, in the requested form. The errors are:
///
/// - `NoSuchFile`: the number is not the number of a file.
/// - `BadChain`, `OutsideVolume`: its chain is not whole.
/// - `EndPastBlocks`: its end is past its blocks, and not all blocks are requested.
/// - `Records`: the first fault of its records, if they are read.
/// - `TooLongForBlock`: a text is requested, and fixed-length records that do not cross a block boundary are longer than a block.
/// - `NoMemory`: out of memory.
pub fn open_contents<'a>(
    alloc: Global,
    disk: &Disk<'a>,
    number: u16,
    wanted: Wanted,
) -> Result<Got<'a>, FormFault>
    requires { on FindsFiles disk.now }
    ensures ok { IfOk result (λ got. (bytes : List ℕ) × ContentsAre got.contents bytes × on IsGot disk.now number wanted bytes got.remark) }
    ensures err { IfErr result (on IsNotGot disk.now number wanted) }
{
    match body_of(alloc, disk, number) {
        Ok(body) => contents_of(alloc, body, wanted),
        Err(FormFault::NoSuchFile) => Err(FormFault::NoSuchFile),
        Err(FormFault::BadChain) => Err(FormFault::BadChain),
        Err(FormFault::OutsideVolume(lbn)) => Err(FormFault::OutsideVolume(lbn)),
        Err(_) => Err(FormFault::NoMemory),
    }
}

/// Returns the body of the file with this number.
pub(crate) fn body_of<'a>(
    alloc: Global,
    disk: &Disk<'a>,
    number: u16,
) -> Result<FileBody<'a>, FormFault>
    requires { on FindsFiles disk.now }
    ensures ok { IfOk result (on HasBody disk.now number) }
    ensures err { IfErr result (on HasNone disk.now number) }
{
    match FileBody::open(alloc, disk, number) {
        Ok(body) => Ok(body),
        Err(FileFault::NoSuchFile) => Err(FormFault::NoSuchFile),
        Err(FileFault::Chain(ChainFault::NoMemory)) => Err(FormFault::NoMemory),
        Err(FileFault::Chain(ChainFault::BadChain)) => Err(FormFault::BadChain),
        Err(FileFault::Chain(ChainFault::OutsideVolume(lbn))) => {
            Err(FormFault::OutsideVolume(lbn))
        }
    }
}

/// Returns the contents of a file with this body, in the requested form.
pub(crate) fn contents_of<'a>(
    alloc: Global,
    body: FileBody<'a>,
    wanted: Wanted,
) -> Result<Got<'a>, FormFault>
    ensures ok { IfOk result (λ got. (bytes : List ℕ) × ContentsAre got.contents bytes × IsGotBy wanted body.entry bytes got.remark) }
    ensures err { IfErr result (IsNotGotBy wanted body.entry) }
{
    match wanted {
        Wanted::ByKind => match kind_of(&body.attributes()) {
            Some(kind) => chosen(alloc, body, kind),
            None => without_records(alloc, body),
        },
        Wanted::Text => as_text(alloc, body),
        Wanted::Binary => as_bytes(body, Wanted::Binary),
        Wanted::Raw => as_bytes(body, Wanted::Raw),
    }
}

/// What is got without a word of a file that has no records with a length: the lines of a stream, or its bytes.
fn without_records<'a>(alloc: Global, body: FileBody<'a>) -> Result<Got<'a>, FormFault>
    ensures ok { IfOk result (λ got. (bytes : List ℕ) × ContentsAre got.contents bytes × IsGotAlone None body.entry bytes got.remark) }
    ensures err { IfErr result (IsNotGotBy Wanted.ByKind body.entry) }
{
    if is_line_stream(&body.attributes()) {
        return as_lines(alloc, body);
    }
    as_bytes(body, Wanted::ByKind)
}

/// Returns whether a file with these attributes is a stream of lines.
pub fn is_line_stream(attributes: &[u8; 32]) -> bool
    ensures { result ≡ line_stream attributes.now }
{
    match text_form(attributes) {
        TextForm::Stream => attributes[1] == 2,
        _ => false,
    }
}

/// The lines of a stream.
fn as_lines<'a>(alloc: Global, body: FileBody<'a>) -> Result<Got<'a>, FormFault>
    ensures ok { IfOk result (λ got. (bytes : List ℕ) × ContentsAre got.contents bytes × AreStreamLines body.entry bytes got.remark) }
    ensures err { IfErr result (IsNotGotBy Wanted.ByKind body.entry) }
{
    let bytes = bytes_to_end(alloc, &body)?;
    let remark = end_remark(&body, Wanted::ByKind);
    let text = stream_to_text(alloc, &bytes)?;
    Ok(Got {
        contents: Contents::Lines(text),
        remark,
    })
}

/// The bytes of a file, as they are.
fn as_bytes<'a>(body: FileBody<'a>, wanted: Wanted) -> Result<Got<'a>, FormFault>
    ensures ok { IfOk result (λ got. (bytes : List ℕ) × ContentsAre got.contents bytes × AreBytes wanted body.entry bytes got.remark) }
    ensures err { IfErr result (λ f. (f ≡ faults.EndPastBlocks) × (bytes_in (form_wanted wanted) body.entry ≡ None)) }
{
    let form = form_got(wanted);
    let remark = end_remark(&body, wanted);
    match body.size(form) {
        Some(_) => Ok(Got {
            contents: Contents::Body(body, form),
            remark,
        }),
        None => Err(FormFault::EndPastBlocks),
    }
}

/// What is got of records of this kind without a word: their lines, where these come back as the records, else the bytes.
fn chosen<'a>(alloc: Global, body: FileBody<'a>, kind: RecordKind) -> Result<Got<'a>, FormFault>
    ensures ok { IfOk result (λ got. (given : List ℕ) × ContentsAre got.contents given × ((bytes : List ℕ) × (bytes_in forms.Binary body.entry ≡ Some bytes) × IsChosen kind body.entry bytes given got.remark)) }
    ensures err { IfErr result (λ f. kind_in body.entry.attributes ≡ Some kind → IsNotGotBy Wanted.ByKind body.entry f) }
{
    let bytes = bytes_to_end(alloc, &body)?;
    let attributes = body.attributes();
    let survey = match survey_records(kind, &bytes) {
        Ok(survey) => survey,
        Err(fault) => return Err(FormFault::Records(fault)),
    };
    if survey.come_as_lines(&attributes) {
        let remark = end_remark(&body, Wanted::ByKind);
        return match records_to_text(alloc, kind, &bytes) {
            Ok(text) => Ok(Got {
                contents: Contents::Lines(text),
                remark,
            }),
            Err(_) => Err(FormFault::NoMemory),
        };
    }
    let remark = Some(bytes_remark(&attributes, survey.longest));
    Ok(Got {
        contents: Contents::Body(body, Form::Binary),
        remark,
    })
}

/// What is to be said of records of a file with these attributes that are got as bytes. The longest has so many bytes.
fn bytes_remark(attributes: &[u8; 32], longest: usize) -> Remark
    ensures { result ≡ said_of_bytes attributes.now longest }
{
    if is_taken_back(attributes, longest) {
        return Remark::NoText(first_four(attributes));
    }
    Remark::NoForm
}

/// Whether `put -b --form` takes back records of a file with these attributes, of which the longest has so many bytes.
fn is_taken_back(attributes: &[u8; 32], longest: usize) -> bool
    ensures { result ≡ taken_back attributes.now longest }
{
    let size = record_size(attributes);
    attributes[0] <= 4
        && has_words(attributes[1])
        && has_known_header(attributes)
        && size <= 32_767
        && (size == 0 || longest <= usize::from(size))
}

/// Whether the header of the records has two bytes where they are sequenced.
fn has_known_header(attributes: &[u8; 32]) -> bool
    ensures { result ≡ header_known attributes.now }
{
    attributes[0] != 3 || attributes[15] == 0 || attributes[15] == 2
}

/// Whether `--form` has words for this F.RATT.
fn has_words(control: u8) -> bool
    ensures { result ≡ words_for control }
{
    match control {
        0 | 1 | 2 | 4 | 8 | 9 | 10 | 12 => true,
        _ => false,
    }
}

/// The first four bytes of the attributes.
fn first_four(attributes: &[u8; 32]) -> [u8; 4]
    ensures { result ≡ take 4 attributes.now }
{
    let mut four = [0; 4];
    four.copy_from_slice(&attributes[..4]);
    four
}

/// The text of a file.
fn as_text<'a>(alloc: Global, body: FileBody<'a>) -> Result<Got<'a>, FormFault>
    ensures ok { IfOk result (λ got. (given : List ℕ) × ContentsAre got.contents given × IsGotBy Wanted.Text body.entry given got.remark) }
    ensures err { IfErr result (IsNotGotBy Wanted.Text body.entry) }
{
    let bytes = bytes_to_end(alloc, &body)?;
    let remark = end_remark(&body, Wanted::Text);
    let text = match text_in(alloc, &body.attributes(), &bytes) {
        Ok(Some(text)) => text,
        Ok(None) => bytes,
        Err(fault) => return Err(fault),
    };
    Ok(Got {
        contents: Contents::Lines(text),
        remark,
    })
}

/// Returns the text of the bytes up to the end of a file with these attributes; `None` if the bytes are their own text.
pub(crate) fn text_in(
    alloc: Global,
    attributes: &[u8; 32],
    bytes: &[u8],
) -> Result<Option<Vec<u8>>, FormFault>
    ensures some { IfOk result (λ text. IfSome text (λ text. IsTextOf (text_form_in attributes.now) bytes.now text.items)) }
    ensures none { IfOk result (λ text. IfNone text (text_form_in attributes.now ≡ texts.Bytes)) }
    ensures err { IfErr result (HasNoText attributes.now bytes.now) }
{
    let text = match text_form(attributes) {
        TextForm::Records(kind) => match records_to_text(alloc, kind, bytes) {
            Ok(text) => text,
            Err(RecordFault::NoMemory) => return Err(FormFault::NoMemory),
            Err(fault) => return Err(FormFault::Records(fault)),
        },
        TextForm::Fixed(size) => fixed_to_text(alloc, size, false, bytes)?,
        TextForm::Blocked(size) => {
            if size > 512 {
                return Err(FormFault::TooLongForBlock(size));
            }
            fixed_to_text(alloc, size, true, bytes)?
        }
        TextForm::Stream => stream_to_text(alloc, bytes)?,
        TextForm::Bytes => return Ok(None),
    };
    Ok(Some(text))
}

/// Which bytes are read.
fn form_got(wanted: Wanted) -> Form
    ensures { result ≡ form_wanted wanted }
{
    match wanted {
        Wanted::Raw => Form::Raw,
        Wanted::ByKind | Wanted::Text | Wanted::Binary => Form::Binary,
    }
}

/// What is said of the end of a file.
fn end_remark(body: &FileBody<'_>, wanted: Wanted) -> Option<Remark>
    ensures { result ≡ remark_of_end wanted body.now }
{
    if body.has_no_attributes() {
        return Some(Remark::NoAttributes);
    }
    if ends_early(wanted) && end_of_file(&body.attributes()) == 0 && body.block_count() != 0 {
        return Some(Remark::NoEnd);
    }
    None
}

/// Whether not all blocks are asked for.
fn ends_early(wanted: Wanted) -> bool
    ensures { result ≡ early wanted }
{
    match wanted {
        Wanted::Raw => false,
        Wanted::ByKind | Wanted::Text | Wanted::Binary => true,
    }
}

/// The bytes of a file up to its end.
fn bytes_to_end<'a>(alloc: Global, body: &FileBody<'a>) -> Result<Vec<u8>, FormFault>
    ensures ok { IfOk result (λ bytes. bytes_in forms.Binary body.now ≡ Some bytes.items) }
    ensures err { IfErr result (λ f. (f ≡ faults.NoMemory) ⊎ ((f ≡ faults.EndPastBlocks) × (bytes_in forms.Binary body.now ≡ None))) }
{
    let Some(bytes) = body.read(alloc, Form::Binary)? else {
        return Err(FormFault::EndPastBlocks);
    };
    Ok(bytes)
}

impl<'a> Contents<'a> {
    /// Writes all contents in order. A fault states how many bytes the writer took.
    pub fn write_to<W: Write>(&self, writer: &mut W) -> Result<(), WriteFault>
        ensures ok { OnOk result ((bytes : List ℕ) → ContentsAre self.now bytes → Appends (W.contents writer.old) (W.contents writer.new) bytes) }
        ensures err { IfErr result (λ fault. (bytes : List ℕ) → ContentsAre self.now bytes
            → TookBytes (W.contents writer.old) (W.contents writer.new) bytes fault.written) }
    {
        match self {
            Contents::Lines(text) => write_bytes(writer, text),
            Contents::Body(body, form) => match body.write_to(*form, writer) {
                Ok(()) => Ok(()),
                Err(CopyFault::Write(fault)) => Err(fault),
                Err(CopyFault::EndPastBlocks) => Ok(()),
            },
        }
    }
}
