//! The ends of the chains of some files, which a volume notes from one request to the next.
ghost use Rattle.std.specs.Prelude.{◌≡◌, ◌<◌, ◌≢◌, ℕ, List, None, Some, IfSome, map, slice_get};
ghost use Rattle.std.specs.List.{All, Contains};
ghost use Rattle.ods_volume.specs.Ends.{AreNotedThen, IsNotOf, IsOneMore, falls_for, kept_by, stays};

use ods_request::{Answer, Request};
use ods_state::KnownEnd;

/// The notes that a change invalidates.
#[derive(Clone, Copy)]
pub(crate) enum Falls {
    Nothing,
    /// The notes of the file with this number, whose chain changes, and of INDEXF.SYS, which may grow.
    File(u16),
    /// The same, but the file may only gain a block after its own, without another change of its chain.
    Growth(u16),
    Everything,
}

/// The ends of the chains of up to eight files. It takes no memory of its own.
#[derive(Clone, Copy)]
pub(crate) struct KnownEnds {
    ends: [Option<KnownEnd>; 8],
    next: usize,
}

/// Returns the notes that a request with this answer invalidates.
pub(crate) fn falls_for(request: &Request, answer: &Answer) -> Falls
    ensures { result ≡ falls_for request.now answer.now }
{
    match request {
        Request::Create { .. } => match answer {
            Answer::Created(file) => Falls::File(file.number),
            _ => Falls::Everything,
        },
        Request::Extend { file, .. } | Request::Truncate { file, .. } | Request::Delete { file } =>
            Falls::File(file.number),
        Request::Enter { dir, .. } => Falls::Growth(dir.number),
        // The others change no chain.
        _ => Falls::Nothing,
    }
}

/// Whether what is noted of a file stays.
fn stays(falls: Falls, file: u16) -> bool
    ensures { result ≡ stays falls file }
{
    match falls {
        Falls::Nothing => true,
        Falls::File(number) | Falls::Growth(number) => file != number && file != 1,
        Falls::Everything => false,
    }
}

/// What is left of one that is noted.
fn kept_by(falls: Falls, noted: Option<KnownEnd>) -> Option<KnownEnd>
    ensures { result ≡ kept_by falls noted }
{
    match noted {
        None => None,
        Some(end) => {
            if stays(falls, end.file) {
                Some(end)
            } else {
                None
            }
        }
    }
}

impl KnownEnds {
    /// Returns a table without notes.
    pub(crate) fn new() -> KnownEnds
        ensures { All (λ noted. noted ≡ None) result.ends }
    {
        KnownEnds {
            ends: [None; 8],
            next: 0,
        }
    }

    /// Returns the note of this file, if there is one.
    pub(crate) fn of(&self, file: u16) -> Option<KnownEnd>
        ensures some { IfSome result (λ end. (end.file ≡ file) × Contains self.now.ends (Some end)) }
        ensures none { result ≡ None → All (IsNotOf file) self.now.ends }
    {
        for noted in &self.ends {
            if let Some(end) = noted {
                if end.file == file {
                    return Some(*end);
                }
            }
        }
        None
    }

    /// Removes the notes that a change invalidates, and adds the end of the chain of its file, if it is given. If all slots are taken, each new note
    /// replaces another in turn.
    pub(crate) fn follow(&mut self, falls: Falls, end: Option<KnownEnd>)
        ensures { AreNotedThen self.old.ends falls end self.new.ends }
    {
        self.forget(falls);
        let Some(end) = end else {
            return;
        };
        self.note(end);
    }

    /// What a change makes untrue is noted no more.
    fn forget(&mut self, falls: Falls)
        ensures { self.new.ends ≡ map (kept_by falls) self.old.ends }
    {
        if let Falls::Nothing = falls {
            return;
        }
        for place in 0..8usize {
            self.ends[place] = kept_by(falls, self.ends[place]);
        }
    }

    /// This end is noted too.
    fn note(&mut self, end: KnownEnd)
        ensures { IsOneMore self.old.ends end self.new.ends }
    {
        let place = self.place();
        self.ends[place] = Some(end);
    }

    /// The first empty place, or else the one whose turn it is; then it is the turn of the next one.
    fn place(&mut self) -> usize
        ensures within { result < 8 }
        ensures empty { (i : ℕ) → slice_get self.old.ends i ≡ Some None → slice_get self.old.ends result ≡ Some None }
        ensures same { self.new.ends ≡ self.old.ends }
    {
        for (place, noted) in self.ends.iter().enumerate() {
            if noted.is_none() {
                return place;
            }
        }
        let place = self.next % 8;
        self.next = (place + 1) % 8;
        place
    }
}
