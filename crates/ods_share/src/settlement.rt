//! The settlement, after all sessions have ended: the comparison of a volume's list with the calls of the sessions.
ghost use Rattle.std.specs.Prelude.{◌≡◌, ◌<◌, ◌≤◌, ◌^◌, ◌↔◌, All, IsTrue, IfOk, length, map, slice_index_or};
ghost use Rattle.ods_request.specs.declared.answers.Entry.{Entry};
ghost use Rattle.ods_share.specs.Settles.{call_in, calls_of, EachMatches, IsSettled, SettlesAs};

use crate::faults::SettleFault;
use ods_ask::Call;
use ods_base::Image;
use ods_views::entry_count;
use ods_volume::{Entries, Volume};
use std::alloc::{AllocError, Global};

/// The number of entries of a settled list, in total and for each session.
#[derive(Drop, PartialEq, Eq, Debug)]
pub struct Report {
    /// The number of all entries.
    pub entries: u32,
    /// The number of entries of each session, session 1 first.
    pub of_session: Vec<u32>,
}

/// Whether the call is that of the entry at this place.
fn is_entry(call: &Call, entries: &Entries, at: usize) -> bool
    requires { at < length entries.now.items }
    ensures { (e : Entry) → IsTrue result ↔ (call.now ≡ call_in (slice_index_or entries.now.items at e)) }
{
    call.nth == entries.nth(at)
        && call.who == entries.who(at)
        && call.request.is_same(entries.request(at))
        && entries.has_answer(at, &call.answer)
}

/// Whether the entries of a session are these calls.
fn matches(entries: &Entries, session: usize, calls: &[Call]) -> bool
    ensures { IsTrue result ↔ (calls.now ≡ calls_of session entries.now.items) }
{
    let mut calls = calls;
    for at in 0..entries.len() {
        if entries.session(at) as usize == session {
            let Some((call, others)) = calls.split_first() else {
                return false;
            };
            if !is_entry(call, entries, at) {
                return false;
            }
            calls = others;
        }
    }
    calls.is_empty()
}

/// Whether each session's entries are its calls.
fn each_matches(entries: &Entries, calls: &[Vec<Call>]) -> bool
    ensures { IsTrue result ↔ EachMatches entries.now.items calls.now }
{
    for (k, list) in calls.iter().enumerate() {
        if !matches(entries, k + 1, list.as_slice()) {
            return false;
        }
    }
    true
}

/// Whether this is one of so many sessions.
fn is_session(session: u16, sessions: usize) -> bool
    ensures { IsTrue result ↔ ((1 ≤ session) × (session ≤ sessions)) }
{
    1 <= session && session as usize <= sessions
}

/// Whether each entry is of one of so many sessions.
fn in_range(entries: &Entries, sessions: usize) -> bool
    ensures { IsTrue result ↔ All (λ e. (1 ≤ e.session) × (e.session ≤ sessions)) entries.now.items }
{
    for at in 0..entries.len() {
        if !is_session(entries.session(at), sessions) {
            return false;
        }
    }
    true
}

/// Whether the image is the one that was mounted.
fn is_mounted(image: &Image, volume: &Volume) -> bool
    ensures { IsTrue result ↔ (image.now ≡ volume.now.mounted) }
{
    volume.mounted().is(image)
}

/// Whether the list is settled with an image that is the mounted one.
fn follows(volume: &Volume, calls: &[Vec<Call>]) -> bool
    ensures { IsTrue result ↔ IsSettled volume.now.mounted volume.now calls.now }
{
    if !in_range(volume.entries(), calls.len()) {
        return false;
    }
    each_matches(volume.entries(), calls)
}

/// How many calls each session made. None made as many as 2^32.
fn lengths(alloc: Global, calls: &[Vec<Call>]) -> Result<Vec<u32>, AllocError>
    requires { All (λ c. length c.items < 2 ^ 32) calls.now }
    ensures { IfOk result (λ v. v.items ≡ map (λ c. length c.items) calls.now) }
{
    let mut lengths = Vec::with_capacity(alloc, calls.len())?;
    for list in calls {
        let count = list.as_slice().len() as u32;
        if lengths.push(count).is_err() {
            return Err(AllocError);
        }
    }
    Ok(lengths)
}

/// Compares a volume's mounted image with this one, and its list with the calls of the sessions, session 1 first. The list is settled if each entry
/// belongs to a session, and each session's entries are exactly its calls, in order. If the images differ or the list is not settled, the error is
/// Unmatched. If the list is settled, but the report is out of memory, the error is NoMemory.
pub fn settle(
    alloc: Global,
    image: &Image,
    volume: &Volume,
    calls: &[Vec<Call>],
) -> Result<Report, SettleFault>
    ensures { SettlesAs image.now volume.now calls.now result }
{
    if !is_mounted(image, volume) {
        return Err(SettleFault::Unmatched);
    }
    settle_mounted(alloc, volume, calls)
}

/// Compares a volume's list with the calls of the sessions as [`settle`] does for the mounted image, and reads no block.
pub fn settle_mounted(
    alloc: Global,
    volume: &Volume,
    calls: &[Vec<Call>],
) -> Result<Report, SettleFault>
    ensures { SettlesAs volume.now.mounted volume.now calls.now result }
{
    if !follows(volume, calls) {
        return Err(SettleFault::Unmatched);
    }
    let entries = entry_count(volume);
    match lengths(alloc, calls) {
        Ok(of_session) => Ok(Report {
            entries,
            of_session,
        }),
        Err(_) => Err(SettleFault::NoMemory),
    }
}
