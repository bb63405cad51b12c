//! A request that is accepted, before its change is made.
ghost use Rattle.std.specs.Prelude.{◌≡◌, IfOk, OnErr};
ghost use Rattle.ods_request.specs.Lines.{HasLines};
ghost use Rattle.ods_volume.specs.{Ends.falls_for, Kept.AreLinesOf, Preparing.plan_of};

use crate::sound::Change;
use ods_base::Uic;
use ods_request::{Answer, CompactAnswer, CompactRequest, Entry, Listing};
use ods_space::Draft;
use std::alloc::{AllocError, Global};
use std::marker::Model;

/// An accepted request with its answer and its change, which is not made yet. The lines of a directory are stored twice, once for the list and once
/// for the caller. So making the change takes no memory for them.
#[derive(Drop)]
pub struct Prepared {
    pub(crate) entry: Entry,
    pub(crate) lines: Option<Listing>,
    pub(crate) change: Change,
}

impl Model for Prepared {
    ghost use Rattle.std.specs.Prelude.{◌≡◌};
    ghost use Rattle.ods_state.specs.Outcome.{Plan};

    ghost Value = { Plan };

    ghost view = { λ p. record { entry = p.entry; changes = p.change.changes; places = p.change.places; counts = p.change.counts; end = p.change.end } };

    ghost use Rattle.ods_volume.specs.Kept.{AreLinesOf};
    ghost use Rattle.ods_volume.specs.Ends.{falls_for};

    ghost invariant = { λ p. AreLinesOf p.entry.answer p.lines × (p.change.falls ≡ falls_for p.entry.request p.entry.answer) };
}

/// The lines of an answer once more, where it has lines. Only they take memory.
fn lines_of(answer: &Answer) -> Result<Option<Listing>, AllocError>
    ensures ok { IfOk result (AreLinesOf answer.now) }
    ensures err { OnErr result (HasLines answer.now) }
{
    match answer {
        Answer::Names(lines) => match lines.copy() {
            Ok(copy) => Ok(Some(copy)),
            Err(error) => Err(error),
        },
        _ => Ok(None),
    }
}

impl Prepared {
    /// Returns the plan of a request with this answer and this change, under a session's number. Only the lines of the answer take memory.
    pub(crate) fn of(
        session: u16,
        nth: u32,
        who: Uic,
        request: CompactRequest,
        answer: Answer,
        change: Change,
    ) -> Result<Prepared, AllocError>
        requires { change.falls ≡ falls_for request answer }
        ensures ok { IfOk result (λ p. p ≡ plan_of session nth who request answer change) }
        ensures err { OnErr result (HasLines answer) }
    {
        match lines_of(&answer) {
            Ok(lines) => Ok(Prepared {
                entry: Entry {
                    session,
                    nth,
                    who,
                    request,
                    answer,
                },
                lines,
                change,
            }),
            Err(error) => Err(error),
        }
    }

    /// Returns the blocks that the request changes.
    pub fn changes(&self) -> &Draft
        ensures { result.now ≡ self.now.changes }
    {
        &self.change.draft
    }

    /// Returns the LBNs of the blocks that INDEXF.SYS gains after its own blocks.
    pub fn places(&self) -> &[u32]
        ensures { result.now ≡ self.now.places }
    {
        self.change.places.as_slice()
    }

    /// Returns a compact copy of the answer. It fails only when out of memory.
    pub fn copy_answer(&self) -> Result<CompactAnswer, AllocError>
        ensures { IfOk result (λ answer. answer ≡ self.now.entry.answer) }
    {
        CompactAnswer::copy_of(*self.change.places.allocator(), &self.entry.answer)
    }

    /// Returns a copy of [`Prepared::places`]. It fails only when out of memory.
    pub fn copy_places(&self) -> Result<Vec<u32>, AllocError>
        ensures { IfOk result (λ places. places.items ≡ self.now.places) }
    {
        Vec::from_slice(*self.change.places.allocator(), &self.change.places)
    }
}
