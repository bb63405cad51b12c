//! Requests that are accepted: their change, and their entry in the list.
ghost use Rattle.std.specs.Prelude.{◌≡◌, ◌≢◌, ◌<◌, false, length, IfOk, IfErr, IsErr, MatchResult, OnErr, Some};
ghost use Rattle.ods_request.specs.{declared.refusals.Refusal.Refusal, Catalogue.Catalogue, Faults.fault_of, Table.takes_memory};
ghost use Rattle.ods_state.specs.{Version.IsPresent, Wants.Lacks, Outcome.Accepts, Outcome.CanBeAsked, Outcome.IsReason, Outcome.IsLawfulPlan, Outcome.carried_out, Outcome.entry_of};
ghost use Rattle.ods_volume.specs.{Ends.falls_for, Kept.AreLinesOf, Preparing.IsMade, Preparing.IsPlanned, Preparing.IsPrepared, Preparing.IsWhyNotPlanned, Preparing.plan_of};

use crate::planned::Prepared;
use crate::sound::Change;
use crate::volume::Volume;
use ods_base::Uic;
use ods_request::{Answer, CompactAnswer, CompactRequest, Entry, Listing, Refusal, Request};

impl Volume {
    /// Prepares a request: returns its plan, with all the memory that its change takes. [`Volume::apply`] then takes memory at most to note a
    /// directory. The volume is unchanged. At the limit of the list the refusal is ListFull. Otherwise it is the first fault for the present
    /// catalogue, a lack of the volume, or NoMemory.
    pub fn prepare(
        &self,
        session: u16,
        nth: u32,
        who: Uic,
        request: Request,
    ) -> Result<Prepared, Refusal>
        // A version that is given is 1 to 32,767.
        requires { CanBeAsked request }
        // At the limit nothing else is looked at.
        ensures full { length self.now.entries ≡ self.now.limit → result ≡ Err Refusal.ListFull }
        // Below it the first fault that holds of the present catalogue is the answer.
        ensures refused { (C : Catalogue) (f : Refusal) → length self.now.entries < self.now.limit → IsPresent self.now C
            → fault_of C who request ≡ Some f → result ≡ Err f }
        ensures plan { IfOk result (λ p. IsLawfulPlan self.now p × (p.entry ≡ entry_of session nth who request p.entry.answer)) }
        // What the volume lacks is never given.
        ensures lacking { (f : Refusal) → Lacks self.now.image self.now.layout request f → IsErr result }
        ensures reason { IfErr result (λ f. IsReason self.now who request f) }
        // LookUp, Read and Stat are never refused for want of memory.
        ensures memory { takes_memory request ≡ false → result ≢ Err Refusal.NoMemory }
    {
        self.plan(session, nth, who, &request)
    }

    /// Prepares a request as [`Volume::prepare`] does. The list is to share the block of a Write with the given request.
    pub fn prepare_shared(
        &self,
        session: u16,
        nth: u32,
        who: Uic,
        request: &CompactRequest,
    ) -> Result<Prepared, Refusal>
        // A version that is given is 1 to 32,767.
        requires { CanBeAsked request.now }
        ensures { IsPrepared self.now session nth who request.now result }
    {
        self.is_lawful();
        let mut answer = Answer::Done;
        let (kept, change) = match self.plan_shared(who, request, &mut answer) {
            Ok(planned) => planned,
            Err(refusal) => return Err(refusal),
        };
        match Prepared::of(session, nth, who, kept, answer, change) {
            Ok(prepared) => Ok(prepared),
            Err(_) => Err(Refusal::NoMemory),
        }
    }

    /// What a request would do.
    fn plan(&self, session: u16, nth: u32, who: Uic, request: &Request) -> Result<Prepared, Refusal>
        requires { CanBeAsked request.now }
        ensures { IsPrepared self.now session nth who request.now result }
    {
        if self.entries.len() >= self.limit as usize {
            return Err(Refusal::ListFull);
        }
        let mut answer = Answer::Done;
        let change = match self.sound.prepare(who, request, &mut answer) {
            Ok(change) => change,
            Err(refusal) => return Err(refusal),
        };
        let Ok(kept) = CompactRequest::of(self.entries.allocator(), request) else {
            return Err(Refusal::NoMemory);
        };
        match Prepared::of(session, nth, who, kept, answer, change) {
            Ok(prepared) => Ok(prepared),
            Err(_) => Err(Refusal::NoMemory),
        }
    }

    /// Writes what a request is answered into this place, and gives what it changes, with a share of the request for the list. Nothing with room for a
    /// block is made of a request that only looks.
    fn plan_shared(
        &self,
        who: Uic,
        request: &CompactRequest,
        answer: &mut Answer,
    ) -> Result<(CompactRequest, Change), Refusal>
        requires { CanBeAsked request.now }
        ensures { MatchResult result (λ p. (p.0 ≡ request.now) × IsPlanned self.now who request.now answer.new p.1)
            (IsWhyNotPlanned self.now who request.now) }
    {
        if self.entries.len() >= self.limit as usize {
            return Err(Refusal::ListFull);
        }
        let change = match self.sound.prepare_shared(who, request, answer) {
            Ok(change) => change,
            Err(refusal) => return Err(refusal),
        };
        let Ok(kept) = request.share() else {
            return Err(Refusal::NoMemory);
        };
        Ok((kept, change))
    }

    /// Applies a change that was prepared for this volume as it is now, appends its entry to the list and returns its answer. It never fails, and
    /// takes memory at most to note a directory. It reads the answer from the list last, so that only one copy is made.
    pub fn apply(&mut self, prepared: Prepared) -> Answer
        requires { IsLawfulPlan self.old prepared }
        ensures changed { self.new ≡ carried_out self.old prepared }
        ensures answered { result ≡ prepared.entry.answer }
    {
        if let Some(lines) = self.store(prepared) {
            return Answer::Names(lines);
        }
        // Lines were given already.
        self.entries.answer(self.entries.len() - 1)
    }

    /// Makes a change that was prepared, puts its entry into the list, and gives the lines of its answer, where it has lines.
    fn store(&mut self, prepared: Prepared) -> Option<Listing>
        requires { IsLawfulPlan self.old prepared }
        ensures changed { self.new ≡ carried_out self.old prepared }
        ensures lines { AreLinesOf prepared.entry.answer result }
    {
        let Prepared {
            entry,
            lines,
            change,
        } = prepared;
        let Entry {
            session,
            nth,
            who,
            request,
            answer,
        } = entry;
        let mut answer = answer;
        self.store_answered(session, nth, who, request, &mut answer, change);
        lines
    }

    /// Makes a change that was planned, and puts its entry into the list, of which the answer lies in this place. Lines are taken out of the place.
    fn store_answered(
        &mut self,
        session: u16,
        nth: u32,
        who: Uic,
        request: CompactRequest,
        answer: &mut Answer,
        change: Change,
    )
        requires plan { IsLawfulPlan self.old (plan_of session nth who request answer.old change) }
        requires falls { change.falls ≡ falls_for request answer.old }
        ensures { self.new ≡ carried_out self.old (plan_of session nth who request answer.old change) }
    {
        // The blocks of an image have bytes.
        let _ = self.sound.disk().image.len();
        self.entries
            .push_answered(session, nth, who, request, answer);
        self.sound.apply(change);
    }

    /// Prepares a request and makes its change, as [`Volume::request`] does. The list shares the block of a Write with the given request. The answer
    /// is compact. The memory of the answer is taken before the change, so any request may be refused with NoMemory, after its other faults.
    pub fn request_shared(
        &mut self,
        session: u16,
        nth: u32,
        who: Uic,
        request: &CompactRequest,
    ) -> Result<CompactAnswer, Refusal>
        // A version that is given is 1 to 32,767.
        requires { CanBeAsked request.now }
        ensures { IsMade self.old session nth who request.now result self.new }
    {
        self.is_lawful();
        let mut answer = Answer::Done;
        let (kept, change) = match self.plan_shared(who, request, &mut answer) {
            Ok(planned) => planned,
            Err(refusal) => return Err(refusal),
        };
        let Ok(given) = CompactAnswer::copy_of(self.entries.allocator(), &answer) else {
            return Err(Refusal::NoMemory);
        };
        self.store_answered(session, nth, who, kept, &mut answer, change);
        Ok(given)
    }

    /// Prepares a request and makes its change. At the limit of the list the refusal is ListFull. Otherwise it is the first fault for the present
    /// catalogue, a lack of the volume, or NoMemory. After a refusal the volume is unchanged.
    pub fn request(
        &mut self,
        session: u16,
        nth: u32,
        who: Uic,
        request: Request,
    ) -> Result<Answer, Refusal>
        // A version that is given is 1 to 32,767.
        requires { CanBeAsked request }
        // At the limit nothing else is looked at.
        ensures full { length self.old.entries ≡ self.old.limit → result ≡ Err Refusal.ListFull }
        // Below it the first fault that holds of the present catalogue is the answer.
        ensures refused { (C : Catalogue) (f : Refusal) → length self.old.entries < self.old.limit → IsPresent self.old C
            → fault_of C who request ≡ Some f → result ≡ Err f }
        // Accepted, it is one step of that catalogue and one entry more.
        ensures accepted { IfOk result (λ a. Accepts self.old (entry_of session nth who request a) self.new) }
        // What the volume lacks is never given.
        ensures lacking { (f : Refusal) → Lacks self.old.image self.old.layout request f → IsErr result }
        ensures reason { IfErr result (λ f. IsReason self.old who request f) }
        // LookUp, Read and Stat are never refused for want of memory.
        ensures memory { takes_memory request ≡ false → result ≢ Err Refusal.NoMemory }
        // Refused, it changes nothing.
        ensures unchanged { OnErr result (self.new ≡ self.old) }
    {
        match self.prepare(session, nth, who, request) {
            Ok(prepared) => Ok(self.apply(prepared)),
            Err(refusal) => Err(refusal),
        }
    }
}
