//! The desk: a volume for a lock, and the writer that shows its versions. Its type names the image, the opening list and the limit of that list, so
//! contracts know them under the lock.
ghost use Rattle.std.specs.Prelude.{◌≡◌, ◌<◌, ◌≤◌, All, length, vec_len, IfOk, IfErr, IsErr, OnErr, Err, Some, None};
ghost use Rattle.ods_request.specs.{declared.refusals.Refusal.Refusal, Catalogue.Catalogue, Faults.fault_of, Lists.Begins};
ghost use Rattle.ods_state.specs.{Version.IsPresent, Version.IsLawful, Wants.Lacks, Outcome.Accepts, Outcome.CanBeAsked, Outcome.IsLawfulPlan, Outcome.entry_of};
ghost use Rattle.ods_share.specs.Desks.{IsDeskReason, IsSubmitted};
ghost use Rattle.ods_views.specs.Viewers.{newly};

use ods_base::{NoMemory, Uic};
use ods_request::{Answer, CompactAnswer, CompactRequest, Refusal, Request};
use ods_views::{
    Change, DeskWriter, MOST_SESSIONS, Naming, Told, Viewer, add_change, entry_count, make_viewers,
    open_writer, publish_change,
};
use ods_volume::{Prepared, Volume};
use std::alloc::{AllocError, Global};
use std::marker::{Brand, Model};
use std::mem;
use std::snapshot::Snapshot;
use std::sync::Wait;

/// A volume for several sessions, to be put under a lock, with the writer that shows its versions to viewers outside the lock.
///
/// Contracts see the volume, which is lawful whenever the lock is free. Its mounted image and its limit are always those of the desk's name, and its
/// list begins with the entries of the name. Viewers see the volume's list and blocks. Only [`Desk::close`] ends a desk. While the lock is free no
/// change is pending. A desk without viewers has no writer.
pub struct Desk<J: Naming> {
    volume: Volume,
    writer: Option<DeskWriter<J>>,
}

impl<J: Naming> Model for Desk<J> {
    ghost use Rattle.std.specs.Prelude.{◌≡◌, drop, MatchOption};
    ghost use Rattle.ods_state.specs.Version.{State};
    ghost use Rattle.ods_views.specs.Viewers.{IsOpened, IsTied};

    ghost Value = { State };

    ghost view = { λ d. d.volume };

    ghost invariant = { λ d. IsOpened J.mounted J.opening d.volume × (d.volume.limit ≡ J.limit) × MatchOption d.writer (Unit {0}) (λ w. IsTied w.desk.place w.desk.shown.value (drop w.behind w.log.items) d.volume) };
}

impl<J: Naming> Desk<J> {
    /// Returns the desk of this volume, for 1 to [`MOST_SESSIONS`] places, and a viewer for each place, which has seen the volume's list. When out of
    /// memory, it returns the volume with the error.
    pub fn new<R: Wait>(
        rt: &R,
        alloc: Global,
        volume: Volume,
        places: usize,
    ) -> Result<(Desk<J>, Vec<Viewer<J>>), (Volume, NoMemory)>
        requires low { 1 ≤ places }
        requires high { places ≤ MOST_SESSIONS }
        requires mounted { volume.mounted ≡ J.mounted }
        requires opening { volume.entries ≡ J.opening }
        requires limit { volume.limit ≡ J.limit }
        ensures ok { IfOk result (λ p. p.0 ≡ volume) }
        ensures viewers { IfOk result (λ p. (vec_len p.1 ≡ places) × All (λ v. v ≡ newly volume.entries) p.1.items) }
        ensures err { IfErr result (λ e. e.0 ≡ volume) }
    {
        let writer = match open_writer::<J>(alloc, &volume, places) {
            Ok(writer) => writer,
            Err(_) => return Err((volume, NoMemory)),
        };
        match make_viewers(alloc, &writer, places) {
            Ok(viewers) => {
                let desk = Desk {
                    volume,
                    writer: Some(writer),
                };
                Ok((desk, viewers))
            }
            Err(_) => {
                writer.take(rt);
                Err((volume, NoMemory))
            }
        }
    }

    /// Returns the desk of this volume for a run in which no session looks, with a viewer for each place. Such a viewer replies Closed. The desk
    /// keeps no version, so a change is made only once. When out of memory, it returns the volume with the error.
    pub(crate) fn without_views(
        alloc: Global,
        volume: Volume,
        places: usize,
    ) -> Result<(Desk<J>, Vec<Viewer<J>>), (Volume, NoMemory)>
        requires mounted { volume.mounted ≡ J.mounted }
        requires opening { volume.entries ≡ J.opening }
        requires limit { volume.limit ≡ J.limit }
        ensures ok { IfOk result (λ p. p.0 ≡ volume) }
        ensures viewers { IfOk result (λ p. (vec_len p.1 ≡ places) × All (λ v. v ≡ newly volume.entries) p.1.items) }
        ensures err { IfErr result (λ e. e.0 ≡ volume) }
    {
        match idle_viewers(alloc, places) {
            Ok(viewers) => {
                let quiet = Desk {
                    volume,
                    writer: None,
                };
                Ok((quiet, viewers))
            }
            Err(_) => Err((volume, NoMemory)),
        }
    }

    /// Returns the volume as it is now.
    pub fn volume(&self) -> &Volume
        ensures { result.now ≡ self.now }
    {
        &self.volume
    }

    /// Each desk has a lawful volume, over the image of its name and with the limit of its name.
    pub(crate) fn is_of_its_name(&self)
        ensures mounted { self.now.mounted ≡ J.mounted }
        ensures limit { self.now.limit ≡ J.limit }
        ensures lawful { IsLawful self.now }
    {
        self.volume.is_lawful();
    }

    /// Submits a request to the volume, for a session, as a user, under a number of the caller. An accepted request is entered into the list, and the
    /// resulting version is shown. A refused request changes and shows nothing. In both cases the list after the request is returned too. Any request
    /// may be refused with NoMemory, after its other faults.
    pub fn submit<R: Wait>(
        &mut self,
        rt: &R,
        session: u16,
        nth: u32,
        who: Uic,
        request: Request,
    ) -> (Result<Answer, Refusal>, Told<J>)
        requires { CanBeAsked request }
        // At the limit nothing else is looked at.
        ensures full { length self.old.entries ≡ self.old.limit → result.0 ≡ Err Refusal.ListFull }
        // Below it the first fault that holds of the present catalogue is the answer.
        ensures refused { (C : Catalogue) (f : Refusal) → length self.old.entries < self.old.limit → IsPresent self.old C
            → fault_of C who request ≡ Some f → result.0 ≡ Err f }
        // Accepted, it is one step of that catalogue and one entry more.
        ensures accepted { IfOk result.0 (λ a. Accepts self.old (entry_of session nth who request a) self.new) }
        // What the volume lacks is never given.
        ensures lacking { (f : Refusal) → Lacks self.old.image self.old.layout request f → IsErr result.0 }
        ensures reason { IfErr result.0 (λ f. IsDeskReason self.old who request f) }
        // Refused, it changes nothing.
        ensures unchanged { OnErr result.0 (self.new ≡ self.old) }
        ensures told { result.1 ≡ self.new.entries }
        // What was told before is the beginning of what is told now.
        ensures grown { Begins self.old.entries result.1 }
    {
        match self.volume.prepare(session, nth, who, request) {
            Ok(prepared) => self.apply_and_show(rt, prepared),
            Err(refusal) => (Err(refusal), self.tell()),
        }
    }

    /// Submits a request as [`Desk::submit`] does. The list shares the block of a Write with the given request, and the answer is compact. Each
    /// clause of `submit` holds for the request that the compact one represents. The memory of the answer is taken before the volume changes.
    pub fn submit_shared<R: Wait>(
        &mut self,
        rt: &R,
        session: u16,
        nth: u32,
        who: Uic,
        request: &CompactRequest,
    ) -> (Result<CompactAnswer, Refusal>, Told<J>)
        requires { CanBeAsked request.now }
        ensures submitted { IsSubmitted self.old session nth who request.now result.0 self.new }
        ensures told { result.1 ≡ self.new.entries }
        ensures grown { Begins self.old.entries result.1 }
    {
        if self.writer.is_none() {
            let made = self.volume.request_shared(session, nth, who, request);
            return (made, self.tell());
        }
        self.submit_and_show(rt, session, nth, who, request)
    }

    /// Makes a request as [`Desk::submit_shared`] does, where a writer shows its version.
    fn submit_and_show<R: Wait>(
        &mut self,
        rt: &R,
        session: u16,
        nth: u32,
        who: Uic,
        request: &CompactRequest,
    ) -> (Result<CompactAnswer, Refusal>, Told<J>)
        requires { CanBeAsked request.now }
        ensures submitted { IsSubmitted self.old session nth who request.now result.0 self.new }
        ensures told { result.1 ≡ self.new.entries }
        ensures grown { Begins self.old.entries result.1 }
    {
        let planned = match self.volume.prepare_shared(session, nth, who, request) {
            Ok(planned) => planned,
            Err(fault) => return (Err(fault), self.tell()),
        };
        let Ok(answer) = planned.copy_answer() else {
            return (Err(Refusal::NoMemory), self.tell());
        };
        let (done, told) = self.apply_and_show(rt, planned);
        match done {
            Ok(_) => (Ok(answer), told),
            Err(fault) => (Err(fault), told),
        }
    }

    /// Makes a change that was prepared, and shows the version to which it leads. All that may want memory comes before the volume changes:
    /// the copies of the draft and of the places, and the writer's room for it. Where there is no writer nothing is shown. What is told is made here, since each function on an answer's way moves it.
    fn apply_and_show<R: Wait>(
        &mut self,
        rt: &R,
        prepared: Prepared,
    ) -> (Result<Answer, Refusal>, Told<J>)
        requires { IsLawfulPlan self.old prepared }
        ensures accepted { IfOk result.0 (λ a. Accepts self.old prepared.entry self.new × (a ≡ prepared.entry.answer)) }
        ensures refused { IfErr result.0 (λ f. (f ≡ Refusal.NoMemory) × (self.new ≡ self.old)) }
        ensures told { result.1 ≡ self.new.entries }
    {
        if self.writer.is_none() {
            let done = self.volume.apply(prepared);
            return (Ok(done), self.tell());
        }
        let Ok(draft) = prepared.changes().copy() else {
            return (Err(Refusal::NoMemory), self.tell());
        };
        let Ok(places) = prepared.copy_places() else {
            return (Err(Refusal::NoMemory), self.tell());
        };
        let count = u64::from(entry_count(&self.volume)) + 1;
        let writer = self.writer.take().unwrap();
        let writer = match add_change(
            writer,
            Change {
                draft,
                places,
                count,
            },
        ) {
            Ok(writer) => writer,
            Err(writer) => {
                put_back(&mut self.writer, writer);
                return (Err(Refusal::NoMemory), self.tell());
            }
        };
        let plan = Snapshot::of(&prepared);
        let answer = self.volume.apply(prepared);
        let writer = publish_change::<J, Brand, R>(rt, writer, plan, &self.volume);
        put_back(&mut self.writer, writer);
        (Ok(answer), self.tell())
    }

    /// The list as it stands.
    fn tell(&self) -> Told<J>
        ensures { result ≡ self.now.entries }
    {
        Told::of(&self.volume)
    }

    /// Returns the volume, and stops showing versions. The volume is lawful, over the image that was mounted, with its former limit. Its list begins
    /// with the list at [`Desk::new`].
    pub fn close<R: Wait>(self, rt: &R) -> Volume
        ensures volume { result ≡ self }
        ensures mounted { result.mounted ≡ J.mounted }
        ensures opening { Begins J.opening result.entries }
        ensures limit { result.limit ≡ J.limit }
        ensures lawful { IsLawful result }
    {
        let Desk { volume, writer } = self;
        if let Some(writer) = writer {
            writer.take(rt);
        }
        volume.is_lawful();
        volume
    }
}

/// So many viewers without a place.
fn idle_viewers<J: Naming>(alloc: Global, count: usize) -> Result<Vec<Viewer<J>>, AllocError>
    ensures { IfOk result (λ v. (vec_len v ≡ count) × All (λ x. x ≡ newly J.opening) v.items) }
{
    let mut viewers = Vec::with_capacity(alloc, count)?;
    for _ in 0..count {
        if viewers.push(Viewer::without_place()).is_err() {
            return Err(AllocError);
        }
    }
    Ok(viewers)
}

/// Puts the writer back where it was taken from.
fn put_back<J: Naming>(place: &mut Option<DeskWriter<J>>, writer: DeskWriter<J>)
    requires { place.old ≡ None }
    ensures { place.new ≡ Some writer }
{
    match mem::replace(place, Some(writer)) {
        None => {}
        Some(_) => unreachable!(),
    }
}
