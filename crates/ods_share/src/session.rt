//! One session, which carries out its script command by command.
ghost use Rattle.std.specs.Prelude.{◌≡◌, ◌+◌, ◌<◌, ◌≤◌, IfOk, length};
ghost use Rattle.std.specs.Vec.{vec_capacity};
ghost use Rattle.ods_state.specs.Outcome.{CanBeAsked};
ghost use Rattle.ods_share.specs.{Scripts.CanBeObeyed, Scripts.CanBeRun, Scripts.fulls_in, Keeping.IsSat, Keeping.TellsOn, Sittings.room_of, Sittings.IsReply, Sittings.IsView, Sittings.stands, Sittings.TellsContext};

use crate::counter::Counter;
use crate::gate::Gate;
use crate::keeping::{Ended, Keep, reserve};
use ods_ask::{Action, Call, Command, Reply, last_from, query_for, request_for};
use ods_base::{FileId, Uic};
use ods_request::{CompactAnswer, CompactRequest, Query, Stamp};
use ods_views::{Naming, ViewFault, Viewer};
use std::alloc::{AllocError, Global};
use std::hint::spin_loop;
use std::sync::ledger::{Ledger, Share};
use std::sync::{Mutex, MutexGuard, Wait};

/// How often a desk that is in use is tried before its lock is waited for, which is a sleep as soon as another session sleeps.
const TRIES: u32 = 50;

/// A session with its number, from 1, at a desk. It has its runtime, the gate, the allocator of its results, and the stamp of the files that it
/// makes.
#[derive(Drop)]
pub(crate) struct Session<'a, J: Naming, L: Ledger, G: Gate, R: Wait> {
    pub(crate) rt: &'a R,
    pub(crate) desk: &'a Mutex<Counter<J, L>>,
    pub(crate) gate: &'a G,
    pub(crate) alloc: Global,
    pub(crate) number: u16,
    pub(crate) stamp: Stamp,
}

/// What a command leaves for the next one: the user in force, and the value of `$`.
#[derive(Drop)]
pub(crate) struct Context {
    pub(crate) who: Uic,
    pub(crate) last: Option<FileId>,
}

/// The belongings of a session: its viewer, and its share in the count of refusals because the list is full.
#[derive(Drop)]
pub(crate) struct Chair<J: Naming, L: Ledger> {
    pub(crate) viewer: Viewer<J>,
    pub(crate) fulls: Share<L>,
}

/// The result of a session, and its share in that count.
#[derive(Drop)]
pub(crate) struct Sat<K, L: Ledger> {
    pub(crate) ended: Ended<K>,
    pub(crate) fulls: Share<L>,
}

impl<J: Naming, L: Ledger, G: Gate, R: Wait> Session<'_, J, L, G, R> {
    /// Makes a request of the desk, and puts it behind the calls where it is accepted. Nothing else is done under the lock.
    fn submit(
        &self,
        nth: u32,
        who: Uic,
        request: CompactRequest,
        calls: &mut Vec<Call>,
        fulls: &mut Share<L>,
    ) -> Result<Reply, AllocError>
        requires can { CanBeAsked request }
        requires part { 0 < fulls.old.parts }
        requires room { length calls.old.items < vec_capacity calls.old }
        ensures tells { IfOk result (λ r. IsReply J.mounted nth who request r calls.old.items calls.new.items) }
        ensures counted { IfOk result (λ r. fulls.new.amount ≡ fulls.old.amount + fulls_in r) }
        ensures part { fulls.new.parts ≡ fulls.old.parts }
        ensures few { IfOk result (λ _. length calls.new.items ≤ length calls.old.items + 1) }
        ensures capacity { vec_capacity calls.new ≡ vec_capacity calls.old }
    {
        let mut guard = take(self.rt, self.desk);
        self.gate.held(self.number, nth);
        let result = guard.submit(self.rt, self.number, nth, who, &request, fulls);
        MutexGuard::unlock(guard);
        match result {
            Ok(answer) => {
                // The call and the reply both keep the answer.
                let replied = answer.copy(self.alloc)?;
                calls.push_reserved(Call {
                    nth,
                    who,
                    request,
                    answer,
                });
                Ok(Reply::Got(replied))
            }
            Err(refusal) => Ok(Reply::No(refusal)),
        }
    }

    /// Obeys one command, and puts its call, if it is one, behind the others.
    fn obey(
        &self,
        chair: &mut Chair<J, L>,
        context: &mut Context,
        calls: &mut Vec<Call>,
        command: &Command,
    ) -> Result<Reply, AllocError>
        requires can { CanBeObeyed command.now.action }
        requires part { 0 < chair.old.fulls.parts }
        requires room { length calls.old.items + room_of command.now.action ≤ vec_capacity calls.old }
        ensures tells { IfOk result (λ r. TellsContext J.mounted self.now.stamp command.now (stands context.old chair.old.viewer chair.old.fulls.amount) calls.old.items r (stands context.new chair.new.viewer chair.new.fulls.amount) calls.new.items) }
        ensures part { chair.new.fulls.parts ≡ chair.old.fulls.parts }
        ensures few { IfOk result (λ _. length calls.new.items ≤ length calls.old.items + room_of command.now.action) }
        ensures capacity { vec_capacity calls.new ≡ vec_capacity calls.old }
    {
        match &command.action {
            Action::User(who) => {
                context.who = *who;
                Ok(Reply::User)
            }
            Action::Submit(ask) => {
                let Some(meant) = request_for(self.stamp, context.last, ask) else {
                    return Ok(Reply::Bad);
                };
                let request = meant?;
                let reply = self.submit(
                    command.nth,
                    context.who,
                    request,
                    calls,
                    &mut chair.fulls,
                )?;
                if let Reply::Got(answer) = &reply {
                    context.last = last_from(context.last, answer);
                }
                Ok(reply)
            }
            Action::View(look) => {
                let Some(query) = query_for(context.last, look) else {
                    return Ok(Reply::Bad);
                };
                let reply = reply_to_view(self.alloc, &mut chair.viewer, context.who, query)?;
                if let Reply::Got(answer) = &reply {
                    context.last = last_from(context.last, answer);
                }
                Ok(reply)
            }
            Action::Bad => Ok(Reply::Bad),
        }
    }

    /// One command, between the gate's calls. There is room for its call, which takes no memory where it is put.
    fn take_turn<K: Keep>(
        &self,
        chair: &mut Chair<J, L>,
        context: &mut Context,
        ended: &mut Ended<K>,
        command: &Command,
    ) -> Result<(), AllocError>
        requires can { CanBeObeyed command.now.action }
        requires part { 0 < chair.old.fulls.parts }
        requires room { length ended.old.calls.items + room_of command.now.action ≤ vec_capacity ended.old.calls }
        ensures room { IfOk result (λ _. vec_capacity ended.new.calls ≡ vec_capacity ended.old.calls) }
        ensures calls { IfOk result (λ _. length ended.new.calls.items ≤ length ended.old.calls.items + room_of command.now.action) }
        ensures tells { IfOk result (λ _. TellsOn K.keeps J.mounted self.now.stamp command.now (stands context.old chair.old.viewer chair.old.fulls.amount) ended.old (stands context.new chair.new.viewer chair.new.fulls.amount) ended.new) }
        ensures part { chair.new.fulls.parts ≡ chair.old.fulls.parts }
    {
        self.gate.before(self.number, command.nth);
        let reply = self.obey(chair, context, &mut ended.calls, command)?;
        self.gate.after(self.number, command.nth);
        ended.kept.keep(command, reply)?;
        Ok(())
    }

    /// Runs a script from its first command on, as user [1,1], with a viewer and a share of its own. The list of calls takes all its room first.
    /// Memory is taken later only by the desk, the copies of directory names, the boxes of long answers, and the kept replies.
    pub(crate) fn sit<K: Keep>(
        &self,
        chair: Chair<J, L>,
        script: &[Command],
    ) -> Result<Sat<K, L>, AllocError>
        requires can { CanBeRun script.now }
        requires part { 0 < chair.fulls.parts }
        ensures { IfOk result (IsSat K.keeps J.mounted self.now.stamp chair.viewer.seen script.now) }
    {
        let mut chair = chair;
        let mut ended = reserve::<K>(self.alloc, script)?;
        let mut context = Context {
            who: Uic {
                group: 1,
                member: 1,
            },
            last: None,
        };
        for command in script {
            self.take_turn(&mut chair, &mut context, &mut ended, command)?;
        }
        Ok(Sat {
            ended,
            fulls: chair.fulls,
        })
    }
}

/// The desk, once no other session is at it. Before it waits it tries so long as about one request takes: a sleep and a wake cost more.
fn take<'a, J: Naming, L: Ledger, R: Wait>(
    rt: &R,
    desk: &'a Mutex<Counter<J, L>>,
) -> MutexGuard<'a, Counter<J, L>> {
    for _ in 0..TRIES {
        if let Some(guard) = desk.try_lock() {
            return guard;
        }
        spin_loop();
    }
    desk.lock(rt)
}

/// Answers a query by a session's viewer, beside the lock.
fn reply_to_view<J: Naming>(
    alloc: Global,
    viewer: &mut Viewer<J>,
    who: Uic,
    query: Query,
) -> Result<Reply, AllocError>
    ensures view { IfOk result (λ r. IsView J.mounted viewer.old.seen viewer.new.seen who query r) }
    ensures never_full { IfOk result (λ r. fulls_in r ≡ 0) }
{
    match viewer.ask(who, query) {
        Ok(answer) => {
            let compact = CompactAnswer::of(alloc, answer)?;
            Ok(Reply::Got(compact))
        }
        Err(ViewFault::Refused(refusal)) => Ok(Reply::No(refusal)),
        Err(ViewFault::Closed) => Ok(Reply::Closed),
    }
}
