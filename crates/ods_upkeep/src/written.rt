//! The bytes of a host file as they are put.
ghost use Rattle.std.specs.Prelude.{◌≡◌, ◌↔◌, false, length, None, IsTrue, OnOk, IfOk, IfErr};
ghost use Rattle.ods_upkeep.specs.PutFor.{FitsForm, IsUnfit};
ghost use Rattle.ods_upkeep.specs.Remarks.{AreSeen, AreSeenByContents, IsLack, IsNothingSeen, IsUnended};
ghost use Rattle.ods_upkeep.specs.Written.{ArePutAsText, AreBytes, AreInForm, AreNoRecords, AreNotInForm, AreRecords, IsByContents, IsNotByContents, IsTooLong, IsUnwritten, IsWritten, bytes_like, bytes_of, records_like};

use crate::PutForm;
use crate::attributes::{attributes_of_form, like as like_of, like_greater};
use crate::failure::Why;
use crate::put_fault::PutFault;
use ods_base::MAX_BYTES;
use ods_records::{
    NearText, RecordKind, binary_attributes, ending_at, is_plain_text, is_text, kind_of,
    record_size, survey_records, text_attributes, text_to_records, why_no_text,
};
use ods_request::Refusal;
use std::alloc::Global;

/// The bytes to write for a host file, and its attributes.
#[derive(Drop)]
pub(crate) struct Written<'a> {
    host: &'a [u8],
    /// The records, if it is put as records.
    records: Option<Vec<u8>>,
    pub attributes: [u8; 32],
    /// Whether a last line without LF became a record.
    pub is_completed: bool,
    /// What the bytes lack to be put as records, if it is one thing, and no form is given.
    pub near: Option<NearText>,
}

impl<'a> Written<'a> {
    /// Returns the bytes to write.
    pub fn bytes(&self) -> &[u8]
        ensures { result.now ≡ bytes_of self.now }
    {
        match &self.records {
            Some(records) => records.as_slice(),
            None => self.host,
        }
    }
}

/// Returns these bytes in a form. The attributes of a model file, if given, determine the form of the records.
pub(crate) fn write_host<'a>(
    alloc: Global,
    form: PutForm,
    like: &Option<[u8; 32]>,
    bytes: &'a [u8],
) -> Result<Written<'a>, Why>
    ensures ok { IfOk result (λ written. IsWritten form like.now bytes.now written.attributes (bytes_of written)) }
    ensures err { IfErr result (IsUnwritten form like.now bytes.now) }
    ensures seen { IfOk result (λ written. AreSeen form like.now bytes.now written.is_completed written.near) }
{
    match (form, like) {
        (PutForm::Said(four), _) => in_form(&attributes_of_form(four), bytes),
        (PutForm::Binary, Some(like)) => in_form(like, bytes),
        _ => by_contents(alloc, form, like, bytes),
    }
}

/// These bytes as records, or as they are.
fn by_contents<'a>(
    alloc: Global,
    form: PutForm,
    like: &Option<[u8; 32]>,
    bytes: &'a [u8],
) -> Result<Written<'a>, Why>
    ensures ok { IfOk result (λ written. IsByContents form like.now bytes.now written.attributes (bytes_of written)) }
    ensures err { IfErr result (IsNotByContents form like.now bytes.now) }
    ensures seen { IfOk result (λ written. AreSeenByContents form like.now bytes.now written.is_completed written.near) }
{
    if is_put_as_text(form, like, bytes) {
        return as_records(alloc, like, bytes);
    }
    as_bytes(like, bytes, lack_of(form, like, bytes))
}

/// Bytes as they are, with the attributes of others but for the end of file. Where these are of records with a length, the bytes are to be such,
/// and none longer than their F.RSIZ where that is not 0.
fn in_form<'a>(own: &[u8; 32], bytes: &'a [u8]) -> Result<Written<'a>, Why>
    ensures ok { IfOk result (λ written. AreInForm own.now bytes.now written.attributes (bytes_of written)) }
    ensures err { IfErr result (AreNotInForm own.now bytes.now) }
    ensures seen { IfOk result (λ written. IsNothingSeen written.is_completed written.near) }
{
    if let Err(fault) = fits(own, bytes) {
        return Err(Why::Put(fault));
    }
    let length = bytes.len();
    if length >= MAX_BYTES {
        return Err(Why::Request(Refusal::VolumeFull));
    }
    Ok(Written {
        host: bytes,
        records: None,
        attributes: ending_at(own, length as u64),
        is_completed: false,
        near: None,
    })
}

/// Whether bytes fit attributes.
fn fits(own: &[u8; 32], bytes: &[u8]) -> Result<(), PutFault>
    ensures ok { OnOk result (FitsForm own.now bytes.now) }
    ensures err { IfErr result (IsUnfit own.now bytes.now) }
{
    let Some(kind) = kind_of(own) else {
        return Ok(());
    };
    let survey = match survey_records(kind, bytes) {
        Ok(survey) => survey,
        Err(fault) => return Err(PutFault::NoRecords(fault)),
    };
    let size = record_size(own);
    if size != 0 && usize::from(size) < survey.longest {
        return Err(PutFault::LongRecord(survey.longest, size));
    }
    Ok(())
}

/// Returns whether these bytes are put as records.
pub(crate) fn is_put_as_text(form: PutForm, like: &Option<[u8; 32]>, bytes: &[u8]) -> bool
    ensures { IsTrue result ↔ ArePutAsText form like.now bytes.now }
{
    if let Some(attributes) = like {
        return kind_of(attributes) == Some(RecordKind::Variable);
    }
    match form {
        PutForm::Text => true,
        PutForm::Binary | PutForm::Said(_) => false,
        PutForm::ByContents => is_text(bytes) && is_plain_text(bytes),
    }
}

/// What bytes that are put as they are lack to be put as records, where nothing is said.
fn lack_of(form: PutForm, like: &Option<[u8; 32]>, bytes: &[u8]) -> Option<NearText>
    ensures { IsLack form like.now bytes.now result }
{
    match form {
        PutForm::ByContents => match like {
            Some(_) => None,
            None => why_no_text(bytes),
        },
        PutForm::Text | PutForm::Binary | PutForm::Said(_) => None,
    }
}

/// A text as records.
fn as_records<'a>(
    alloc: Global,
    like: &Option<[u8; 32]>,
    bytes: &'a [u8],
) -> Result<Written<'a>, Why>
    ensures ok { IfOk result (λ written. AreRecords like.now bytes.now written.attributes (bytes_of written)) }
    ensures err { IfErr result (AreNoRecords bytes.now) }
    ensures seen { IfOk result (λ written. (IsTrue written.is_completed ↔ IsUnended bytes.now) × (written.near ≡ None)) }
{
    let records = match text_to_records(alloc, bytes) {
        Ok(records) => records,
        Err(fault) => return Err(Why::Text(fault)),
    };
    let length = records.bytes.as_slice().len();
    if length >= MAX_BYTES {
        return Err(Why::Request(Refusal::VolumeFull));
    }
    let own = text_attributes(records.longest, length as u64);
    Ok(Written {
        host: bytes,
        records: Some(records.bytes),
        attributes: records_like(own, like),
        is_completed: lacks_last_lf(bytes),
        near: None,
    })
}

/// The attributes of records, where a file is given that they are to be like.
fn records_like(own: [u8; 32], like: &Option<[u8; 32]>) -> [u8; 32]
    ensures { result ≡ records_like like.now own }
{
    match like {
        Some(like) => like_greater(own, like),
        None => own,
    }
}

/// Returns whether the last line has no LF.
pub(crate) fn lacks_last_lf(bytes: &[u8]) -> bool
    ensures { IsTrue result ↔ IsUnended bytes.now }
{
    !bytes.is_empty() && bytes[bytes.len() - 1] != b'\n'
}

/// Bytes as they are.
fn as_bytes<'a>(
    like: &Option<[u8; 32]>,
    bytes: &'a [u8],
    near: Option<NearText>,
) -> Result<Written<'a>, Why>
    ensures ok { IfOk result (λ written. AreBytes like.now bytes.now written.attributes (bytes_of written)) }
    ensures err { IfErr result (IsTooLong (length bytes.now)) }
    ensures seen { IfOk result (λ written. (written.is_completed ≡ false) × (written.near ≡ near)) }
{
    let length = bytes.len();
    if length >= MAX_BYTES {
        return Err(Why::Request(Refusal::VolumeFull));
    }
    let own = binary_attributes(length as u64);
    Ok(Written {
        host: bytes,
        records: None,
        attributes: bytes_like(own, like),
        is_completed: false,
        near,
    })
}

/// The attributes of bytes, where a file is given that they are to be like.
fn bytes_like(own: [u8; 32], like: &Option<[u8; 32]>) -> [u8; 32]
    ensures { result ≡ bytes_like like.now own }
{
    match like {
        Some(like) => like_of(own, like),
        None => own,
    }
}
