//! The desk of a run, with the number of refusals because its list is full.
ghost use Rattle.std.specs.Prelude.{◌≡◌, ◌+◌, ◌<◌, length, IfErr, OnOk};
ghost use Rattle.ods_request.specs.Lists.{Begins};
ghost use Rattle.ods_state.specs.{Version.IsLawful, Outcome.CanBeAsked};
ghost use Rattle.ods_share.specs.Scripts.{IsRefused, fulls_in};
ghost use Rattle.ods_ask.specs.declared.outcome.Reply.TheVariants.{No};

use crate::desk::Desk;
use ods_base::Uic;
use ods_request::{CompactAnswer, CompactRequest, Refusal};
use ods_views::Naming;
use ods_volume::Volume;
use std::marker::Model;
use std::sync::Wait;
use std::sync::ledger::{Book, Ledger, Share};

/// A desk, with the number of requests that it refused because its list is full. Each session has a share in the count, so a session with such a
/// refusal knows afterwards that the list was filled. The count takes no bytes: only contracts see it.
pub(crate) struct Counter<J: Naming, L: Ledger> {
    desk: Desk<J>,
    fulls: Book<L>,
}

impl<J: Naming, L: Ledger> Model for Counter<J, L> {
    ghost use Rattle.std.specs.Prelude.{◌≡◌, ◌<◌, length};
    ghost use Rattle.ods_state.specs.Version.{State};

    ghost Value = { State };

    ghost view = { λ c. c.desk };

    ghost invariant = { λ c. 0 < c.fulls.total → length c.desk.entries ≡ c.desk.limit };
}

/// Counts a refusal that says that the list is full.
fn count<L: Ledger>(fulls: &mut Book<L>, mine: &mut Share<L>, refusal: Refusal)
    requires { 0 < mine.old.parts }
    ensures total { fulls.new.total ≡ fulls.old.total + fulls_in (No refusal) }
    ensures amount { mine.new.amount ≡ mine.old.amount + fulls_in (No refusal) }
    ensures part { mine.new.parts ≡ mine.old.parts }
{
    if refusal == Refusal::ListFull {
        fulls.add(mine, 1);
    }
}

impl<J: Naming, L: Ledger> Counter<J, L> {
    /// Returns the counter of this desk, which has refused nothing yet.
    pub(crate) fn new(desk: Desk<J>, fulls: Book<L>) -> Counter<J, L>
        requires { fulls.total ≡ 0 }
        ensures { result ≡ desk }
    {
        Counter { desk, fulls }
    }

    /// Submits a request to the desk, and counts a refusal because the list is full.
    pub(crate) fn submit<R: Wait>(
        &mut self,
        rt: &R,
        session: u16,
        nth: u32,
        who: Uic,
        request: &CompactRequest,
        mine: &mut Share<L>,
    ) -> Result<CompactAnswer, Refusal>
        requires can { CanBeAsked request.now }
        requires part { 0 < mine.old.parts }
        ensures refused { IfErr result (IsRefused J.mounted who request.now) }
        ensures counted { IfErr result (λ f. mine.new.amount ≡ mine.old.amount + fulls_in (No f)) }
        ensures same { OnOk result (mine.new.amount ≡ mine.old.amount) }
        ensures part { mine.new.parts ≡ mine.old.parts }
    {
        self.desk.is_of_its_name();
        let (result, _told) = self.desk.submit_shared(rt, session, nth, who, request);
        match result {
            Ok(answer) => Ok(answer),
            Err(refusal) => {
                count(&mut self.fulls, mine, refusal);
                Err(refusal)
            }
        }
    }

    /// Returns the volume, with the count. The volume is lawful, over the image that was mounted, with its former limit. Its list begins with its
    /// former entries. If a refusal was counted, the list is full.
    pub(crate) fn close<R: Wait>(self, rt: &R) -> (Volume, Book<L>)
        ensures mounted { result.0.mounted ≡ J.mounted }
        ensures opening { Begins J.opening result.0.entries }
        ensures limit { result.0.limit ≡ J.limit }
        ensures lawful { IsLawful result.0 }
        ensures full { 0 < result.1.total → length result.0.entries ≡ result.0.limit }
    {
        let Counter { desk, fulls } = self;
        (desk.close(rt), fulls)
    }
}
