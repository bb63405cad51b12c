//! The threads of a run: one for each script, with a viewer, all joined.
ghost use Rattle.std.specs.Prelude.{◌≡◌, ◌+◌, ◌<◌, ◌≤◌, All, length, vec_len, IfOk, IfErr};
ghost use Rattle.ods_share.specs.declared.faults.RunFault.TheVariants.{NoThread};
ghost use Rattle.ods_share.specs.{Scripts.CanBeRun, Scripts.seen_first, Keeping.IsSat, Keeping.EachIfOk};

use crate::counter::Counter;
use crate::faults::RunFault;
use crate::gate::Gate;
use crate::keeping::Keep;
use crate::session::{Chair, Sat, Session};
use ods_ask::Script;
use ods_request::Stamp;
use ods_views::{MOST_SESSIONS, Naming, Viewer};
use std::alloc::{AllocError, Global};
use std::marker::PhantomData;
use std::snapshot::Snapshot;
use std::sync::ledger::{Ledger, Share};
use std::sync::{Mutex, Wait};
use std::thread;
use std::thread::{Promise, PromisedHandle, Scope, Threads};

/// The promise that the result of a thread is the result of this script. The session is at a desk of this name, with a viewer that had seen the same
/// list.
#[derive(Drop)]
pub(crate) struct OfScript<J: Naming, K> {
    viewer: Snapshot<Viewer<J>>,
    script: Snapshot<Script>,
    stamp: Snapshot<Stamp>,
    kept: PhantomData<K>,
}

impl<J: Naming, K: Keep, L: Ledger> Promise<Result<Sat<K, L>, AllocError>> for OfScript<J, K> {
    ghost use Rattle.std.specs.Prelude.{IfOk};
    ghost use Rattle.ods_share.specs.Keeping.{IsSat};

    ghost kept_by = { λ p r. IfOk r (IsSat K.keeps J.mounted p.stamp.value p.viewer.value.seen p.script.value.commands.items) };
}

type Handle<J, K, L> = PromisedHandle<Result<Sat<K, L>, AllocError>, OfScript<J, K>>;

/// Obeys a script as the session with this number, at this chair.
fn run_session<K: Keep, J: Naming, L: Ledger, G: Gate, R: Wait>(
    rt: &R,
    alloc: Global,
    desk: &Mutex<Counter<J, L>>,
    gate: &G,
    number: u16,
    chair: Chair<J, L>,
    stamp: &Stamp,
    script: &Script,
) -> Result<Sat<K, L>, AllocError>
    requires can { CanBeRun script.now.commands.items }
    requires part { 0 < chair.fulls.parts }
    ensures { IfOk result (IsSat K.keeps J.mounted stamp.now chair.viewer.seen script.now.commands.items) }
{
    let session = Session {
        rt,
        desk,
        gate,
        alloc,
        number,
        stamp: *stamp,
    };
    session.sit(chair, script.commands.as_slice())
}

/// Starts the thread of one script. The error is that of a thread: the toolchain starts none for want of memory too.
fn begin_thread<
    's,
    E,
    K: Keep + Send + 's,
    J: Naming + Send + Sync + 's,
    L: Ledger + Send + Sync + 's,
    G: Gate + Sync,
    R: Threads + Wait + Sync,
>(
    scope: &Scope<'s, E>,
    rt: &'s R,
    alloc: Global,
    desk: &'s Mutex<Counter<J, L>>,
    gate: &'s G,
    number: u16,
    chair: Chair<J, L>,
    stamp: &'s Stamp,
    script: &'s Script,
) -> Result<Handle<J, K, L>, RunFault>
    requires can { CanBeRun script.now.commands.items }
    requires part { 0 < chair.fulls.parts }
    ensures ok { IfOk result (λ h. (h.promise.script.value ≡ script.entry.now) × (h.promise.stamp.value ≡ stamp.entry.now) × (h.promise.viewer.value ≡ chair.viewer)) }
    ensures err { IfErr result (λ f. f ≡ NoThread) }
{
    let seen = Snapshot::of(&chair.viewer);
    let work = move || -> Result<Sat<K, L>, AllocError>
        requires { CanBeRun script.now.commands.items × (0 < chair.fulls.parts) }
        ensures { IfOk result (IsSat K.keeps J.mounted stamp.entry.now chair.viewer.seen script.entry.now.commands.items) }
    { run_session(rt, alloc, desk, gate, number, chair, stamp, script) };
    let promise = OfScript {
        viewer: seen,
        script: Snapshot::of(script),
        stamp: Snapshot::of(stamp),
        kept: PhantomData,
    };
    match scope.spawn_with(promise, work) {
        Ok(handle) => Ok(handle),
        Err(_) => Err(RunFault::NoThread),
    }
}

/// Starts a thread for each script, with the next viewer and a part of this share, and waits for all.
fn begin_all<
    's,
    E,
    K: Keep + Send + 's,
    J: Naming + Send + Sync + 's,
    L: Ledger + Send + Sync + 's,
    G: Gate + Sync,
    R: Threads + Wait + Sync,
>(
    scope: &Scope<'s, E>,
    rt: &'s R,
    alloc: Global,
    desk: &'s Mutex<Counter<J, L>>,
    gate: &'s G,
    viewers: Vec<Viewer<J>>,
    fulls: Share<L>,
    scripts: &'s [Script],
    stamp: &'s Stamp,
) -> Result<Vec<Result<Sat<K, L>, AllocError>>, RunFault>
    requires few { length scripts.now ≤ MOST_SESSIONS }
    requires enough { length scripts.now ≤ vec_len viewers }
    requires parts { length scripts.now ≤ fulls.parts }
    requires none { fulls.amount ≡ 0 }
    requires can { All (λ s. CanBeRun s.commands.items) scripts.now }
    ensures { IfOk result (λ v. (vec_len v ≡ length scripts.entry.now) × EachIfOk K.keeps J.mounted stamp.entry.now (seen_first viewers.items) scripts.entry.now v.items) }
{
    let Ok(mut handles) = Vec::with_capacity(alloc, scripts.len()) else {
        return Err(RunFault::NoMemory);
    };
    let mut number = 0u16;
    let mut viewers = viewers.into_iter();
    let mut fulls = fulls;
    for script in scripts {
        number += 1;
        let chair = Chair {
            viewer: viewers.next().unwrap(),
            fulls: fulls.split_off(1, 0),
        };
        let handle = begin_thread(scope, rt, alloc, desk, gate, number, chair, stamp, script)?;
        handles.push_reserved(handle);
    }
    match thread::join_promised(rt, handles) {
        Ok(done) => Ok(done),
        Err(_) => Err(RunFault::NoMemory),
    }
}

/// Runs each script as a session in a thread of its own, the first as session 1, with the first viewer. All threads have ended when it returns, also
/// if one could not be started.
pub(crate) fn run_all<
    K: Keep + Send,
    J: Naming + Send + Sync,
    L: Ledger + Send + Sync,
    G: Gate + Sync,
    R: Threads + Wait + Sync,
>(
    rt: &R,
    alloc: Global,
    desk: &Mutex<Counter<J, L>>,
    gate: &G,
    viewers: Vec<Viewer<J>>,
    fulls: Share<L>,
    scripts: &[Script],
    stamp: &Stamp,
) -> Result<Vec<Result<Sat<K, L>, AllocError>>, RunFault>
    requires few { length scripts.now ≤ MOST_SESSIONS }
    requires enough { length scripts.now ≤ vec_len viewers }
    requires parts { length scripts.now ≤ fulls.parts }
    requires none { fulls.amount ≡ 0 }
    requires can { All (λ s. CanBeRun s.commands.items) scripts.now }
    ensures { IfOk result (λ v. (vec_len v ≡ length scripts.now) × EachIfOk K.keeps J.mounted stamp.now (seen_first viewers.items) scripts.now v.items) }
{
    thread::scope(
        thread::scope_env(),
        rt,
        |scope| -> Result<Vec<Result<Sat<K, L>, AllocError>>, RunFault>
            requires { (length scripts.now ≤ MOST_SESSIONS) × (length scripts.now ≤ vec_len viewers) × (length scripts.now ≤ fulls.parts) × (fulls.amount ≡ 0) × All (λ s. CanBeRun s.commands.items) scripts.now }
            ensures { IfOk result (λ v. (vec_len v ≡ length scripts.entry.now) × EachIfOk K.keeps J.mounted stamp.entry.now (seen_first viewers.items) scripts.entry.now v.items) }
        { begin_all(scope, rt, alloc, desk, gate, viewers, fulls, scripts, stamp) },
    )
}
