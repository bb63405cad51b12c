//! All sessions: they run at one desk, and the desk returns the volume.
ghost use Rattle.std.specs.Prelude.{◌≡◌, ◌≤◌, All, length, map, Ok, vec_len, IfOk};
ghost use Rattle.std.specs.List.{list_any};
ghost use Rattle.ods_request.specs.Lists.{Begins};
ghost use Rattle.ods_share.specs.{Keeping.EachEnded, Scripts.CanBeRun, Scripts.EachOutcome, Scripts.all_saw, Scripts.is_view, Scripts.looks_beside, Scripts.seen_first};
ghost use Rattle.ods_views.specs.Viewers.{newly};

use crate::counter::Counter;
use crate::desk::Desk;
use crate::faults::RunFault;
use crate::gate::Gate;
use crate::keeping::{Ended, Keep, outcomes};
use crate::session::Sat;
use crate::threads::run_all;
use ods_ask::{Action, Command, Outcome, Reply, Script};
use ods_base::NoMemory;
use ods_request::Stamp;
use ods_views::{MOST_SESSIONS, Naming, Viewer};
use ods_volume::Volume;
use std::alloc::{AllocError, Global};
use std::marker::Brand;
use std::sync::ledger::{Blank, Book, Ledger};
use std::sync::{Mutex, Wait};
use std::thread::Threads;

/// What came of all sessions, if each came to its end.
fn unpack<K: Keep, L: Ledger>(
    alloc: Global,
    done: Vec<Result<Sat<K, L>, AllocError>>,
) -> Result<Vec<Sat<K, L>>, AllocError>
    ensures { IfOk result (λ v. done.items ≡ map Ok v.items) }
{
    let mut all = Vec::with_capacity(alloc, done.len())?;
    for one in done {
        if all.push(one?).is_err() {
            return Err(AllocError);
        }
    }
    Ok(all)
}

/// What each session keeps. No share has counted more than all of them together.
fn audit<K: Keep, L: Ledger>(
    alloc: Global,
    all: Vec<Sat<K, L>>,
    fulls: Book<L>,
) -> Result<Vec<Ended<K>>, AllocError>
    ensures ended { IfOk result (λ v. v.items ≡ map (λ s. s.ended) all.items) }
    ensures bound { IfOk result (λ _. All (λ s. s.fulls.amount ≤ fulls.total) all.items) }
{
    let mut ended = Vec::with_capacity(alloc, all.len())?;
    let mut fulls = fulls;
    for one in all {
        let mut share = one.fulls;
        fulls.audit(&mut share);
        if ended.push(one.ended).is_err() {
            return Err(AllocError);
        }
    }
    Ok(ended)
}

/// Runs the scripts at a desk as [`run_desk`] does, with a new ledger of this name.
fn run_counted<
    K: Keep + Send,
    J: Naming + Send + Sync,
    L: Ledger + Send + Sync,
    G: Gate + Sync,
    R: Threads + Wait + Sync,
>(
    rt: &R,
    alloc: Global,
    desk: Desk<J>,
    viewers: Vec<Viewer<J>>,
    blank: Blank,
    scripts: &[Script],
    stamp: Stamp,
    gate: &G,
) -> Result<(Volume, Vec<Ended<K>>), RunFault>
    requires name { blank.name ≡ L.name }
    requires parts { blank.parts ≡ L.parts }
    requires many { MOST_SESSIONS ≤ L.parts }
    requires few { length scripts.now ≤ MOST_SESSIONS }
    requires enough { length scripts.now ≤ vec_len viewers }
    requires can { All (λ s. CanBeRun s.commands.items) scripts.now }
    ensures mounted { IfOk result (λ p. p.0.mounted ≡ J.mounted) }
    ensures opening { IfOk result (λ p. Begins J.opening p.0.entries) }
    ensures limit { IfOk result (λ p. p.0.limit ≡ J.limit) }
    ensures ended { IfOk result (λ p. (vec_len p.1 ≡ length scripts.now) × EachEnded K.keeps J.mounted stamp (seen_first viewers.items) (length p.0.entries ≡ J.limit) scripts.now p.1.items) }
{
    let (book, share) = blank.open::<L>();
    let lock = Mutex::new(Counter::new(desk, book));
    let done = run_all::<K, J, L, G, R>(rt, alloc, &lock, gate, viewers, share, scripts, &stamp);
    let (volume, fulls) = lock.into_inner().close(rt);
    let done = match done {
        Ok(done) => done,
        Err(fault) => return Err(fault),
    };
    let Ok(all) = unpack(alloc, done) else {
        return Err(RunFault::NoMemory);
    };
    let Ok(ended) = audit(alloc, all, fulls) else {
        return Err(RunFault::NoMemory);
    };
    Ok((volume, ended))
}

/// Runs the scripts at a desk as [`run_sessions`] does, and gives the volume back with what each session kept.
fn run_desk<K: Keep + Send, J: Naming + Send + Sync, G: Gate + Sync, R: Threads + Wait + Sync>(
    rt: &R,
    alloc: Global,
    desk: Desk<J>,
    viewers: Vec<Viewer<J>>,
    scripts: &[Script],
    stamp: Stamp,
    gate: &G,
) -> Result<(Volume, Vec<Ended<K>>), RunFault>
    requires few { length scripts.now ≤ MOST_SESSIONS }
    requires enough { length scripts.now ≤ vec_len viewers }
    requires can { All (λ s. CanBeRun s.commands.items) scripts.now }
    ensures mounted { IfOk result (λ p. p.0.mounted ≡ J.mounted) }
    ensures opening { IfOk result (λ p. Begins J.opening p.0.entries) }
    ensures limit { IfOk result (λ p. p.0.limit ≡ J.limit) }
    ensures ended { IfOk result (λ p. (vec_len p.1 ≡ length scripts.now) × EachEnded K.keeps J.mounted stamp (seen_first viewers.items) (length p.0.entries ≡ J.limit) scripts.now p.1.items) }
{
    let blank = Blank::new(MOST_SESSIONS as u64);
    run_counted::<K, J, Brand, G, R>(rt, alloc, desk, viewers, blank, scripts, stamp, gate)
}

/// Runs each of at most [`MOST_SESSIONS`] scripts as a session in a thread of its own. The first is session 1 and has the first viewer. It waits for
/// all sessions, and returns the volume with the outcome of each script, in the order of the scripts. New files have this stamp. After a fault, of
/// memory or of threads, all threads have ended too, and the volume is dropped.
///
/// An outcome has one reply for each command, in order. Its calls are exactly the accepted requests, each once and in order. The reply that the list
/// is full comes only if the list of the returned volume has as many entries as its limit. The reply BAD comes exactly to a line that is not a
/// valid command, and to a command whose `$` stands for no file. A query without the lock is not a call. The first VIEW of a session shows a list that
/// begins with the entries that its viewer had seen. The returned volume is over the same mounted image and has the same limit, and its list begins
/// with its former entries.
pub fn run_sessions<J: Naming + Send + Sync, G: Gate + Sync, R: Threads + Wait + Sync>(
    rt: &R,
    alloc: Global,
    desk: Desk<J>,
    viewers: Vec<Viewer<J>>,
    scripts: &[Script],
    stamp: Stamp,
    gate: &G,
) -> Result<(Volume, Vec<Outcome>), RunFault>
    requires few { length scripts.now ≤ MOST_SESSIONS }
    requires enough { length scripts.now ≤ vec_len viewers }
    requires can { All (λ s. CanBeRun s.commands.items) scripts.now }
    ensures mounted { IfOk result (λ p. p.0.mounted ≡ J.mounted) }
    ensures opening { IfOk result (λ p. Begins J.opening p.0.entries) }
    ensures limit { IfOk result (λ p. p.0.limit ≡ J.limit) }
    ensures outcomes { IfOk result (λ p. (vec_len p.1 ≡ length scripts.now) × EachOutcome J.mounted stamp (seen_first viewers.items) (length p.0.entries ≡ J.limit) scripts.now p.1.items) }
{
    match run_desk::<Vec<Reply>, J, G, R>(rt, alloc, desk, viewers, scripts, stamp, gate) {
        Ok((volume, ended)) => match outcomes(alloc, ended) {
            Ok(outcomes) => Ok((volume, outcomes)),
            Err(_) => Err(RunFault::NoMemory),
        },
        Err(fault) => Err(fault),
    }
}

/// How many places a desk has: one for each script, and one where there is none.
fn places_for(scripts: usize) -> usize
    requires { scripts ≤ MOST_SESSIONS }
    ensures low { 1 ≤ result }
    ensures high { result ≤ MOST_SESSIONS }
    ensures enough { scripts ≤ result }
{
    if scripts == 0 { 1 } else { scripts }
}

/// Opens a desk of a volume for these scripts, with a viewer for each. Where no script looks, no version is kept.
fn open_desk<J: Naming, R: Wait>(
    rt: &R,
    alloc: Global,
    volume: Volume,
    scripts: &[Script],
) -> Result<(Desk<J>, Vec<Viewer<J>>), (Volume, NoMemory)>
    requires mounted { volume.mounted ≡ J.mounted }
    requires opening { volume.entries ≡ J.opening }
    requires limit { volume.limit ≡ J.limit }
    requires few { length scripts.now ≤ MOST_SESSIONS }
    ensures ok { IfOk result (λ p. p.0 ≡ volume) }
    ensures viewers { IfOk result (λ p. (length scripts.now ≤ vec_len p.1) × All (λ v. v ≡ newly volume.entries) p.1.items) }
{
    let places = places_for(scripts.len());
    if have_views(scripts) {
        Desk::new(rt, alloc, volume, places)
    } else {
        Desk::without_views(alloc, volume, places)
    }
}

/// Whether one of these scripts looks beside the lock.
fn have_views(scripts: &[Script]) -> bool
    ensures { result ≡ list_any (λ s. looks_beside s.commands.items) scripts.now }
{
    scripts
        .iter()
        .any(|script| has_view(script.commands.as_slice()))
}

/// Whether one of these commands looks beside the lock.
fn has_view(commands: &[Command]) -> bool
    ensures { result ≡ looks_beside commands.now }
{
    commands.iter().any(|command| is_view(&command.action))
}

/// Whether a command looks beside the lock.
fn is_view(action: &Action) -> bool
    ensures { result ≡ is_view action.now }
{
    matches!(action, Action::View(_))
}

/// Opens a desk with this name, and runs the scripts at it. It is apart from [`run_keeping`] since a name is picked at a call alone.
fn run_named<K: Keep + Send, J: Naming + Send + Sync, G: Gate + Sync, R: Threads + Wait + Sync>(
    rt: &R,
    alloc: Global,
    volume: Volume,
    scripts: &[Script],
    stamp: Stamp,
    gate: &G,
) -> Result<(Volume, Vec<Ended<K>>), RunFault>
    requires mounted { volume.mounted ≡ J.mounted }
    requires opening { volume.entries ≡ J.opening }
    requires limit { volume.limit ≡ J.limit }
    requires few { length scripts.now ≤ MOST_SESSIONS }
    requires can { All (λ s. CanBeRun s.commands.items) scripts.now }
    ensures mounted { IfOk result (λ p. p.0.mounted ≡ volume.mounted) }
    ensures opening { IfOk result (λ p. Begins volume.entries p.0.entries) }
    ensures limit { IfOk result (λ p. p.0.limit ≡ volume.limit) }
    ensures ended { IfOk result (λ p. (vec_len p.1 ≡ length scripts.now) × EachEnded K.keeps volume.mounted stamp (all_saw volume.entries) (length p.0.entries ≡ volume.limit) scripts.now p.1.items) }
{
    match open_desk::<J, R>(rt, alloc, volume, scripts) {
        Ok((desk, viewers)) => {
            run_desk::<K, J, G, R>(rt, alloc, desk, viewers, scripts, stamp, gate)
        }
        Err(_) => Err(RunFault::NoMemory),
    }
}

/// Opens a desk of a volume, and runs each of at most [`MOST_SESSIONS`] scripts as a session at it, as [`run_sessions`] does. The caller picks no
/// name. A session keeps what `K` derives from each reply, in its own thread and as soon as the reply is there. The relation `keeps` of `K` holds for
/// the commands, their replies and the kept value.
pub fn run_keeping<K: Keep + Send, G: Gate + Sync, R: Threads + Wait + Sync>(
    rt: &R,
    alloc: Global,
    volume: Volume,
    scripts: &[Script],
    stamp: Stamp,
    gate: &G,
) -> Result<(Volume, Vec<Ended<K>>), RunFault>
    requires few { length scripts.now ≤ MOST_SESSIONS }
    requires can { All (λ s. CanBeRun s.commands.items) scripts.now }
    ensures mounted { IfOk result (λ p. p.0.mounted ≡ volume.mounted) }
    ensures opening { IfOk result (λ p. Begins volume.entries p.0.entries) }
    ensures limit { IfOk result (λ p. p.0.limit ≡ volume.limit) }
    ensures ended { IfOk result (λ p. (vec_len p.1 ≡ length scripts.now) × EachEnded K.keeps volume.mounted stamp (all_saw volume.entries) (length p.0.entries ≡ volume.limit) scripts.now p.1.items) }
{
    run_named::<K, Brand, G, R>(rt, alloc, volume, scripts, stamp, gate)
}

/// Opens a desk of a volume, and runs each of at most [`MOST_SESSIONS`] scripts as a session at it, as [`run_sessions`] does. The caller picks no
/// name.
pub fn run_scripts<G: Gate + Sync, R: Threads + Wait + Sync>(
    rt: &R,
    alloc: Global,
    volume: Volume,
    scripts: &[Script],
    stamp: Stamp,
    gate: &G,
) -> Result<(Volume, Vec<Outcome>), RunFault>
    requires few { length scripts.now ≤ MOST_SESSIONS }
    requires can { All (λ s. CanBeRun s.commands.items) scripts.now }
    ensures mounted { IfOk result (λ p. p.0.mounted ≡ volume.mounted) }
    ensures opening { IfOk result (λ p. Begins volume.entries p.0.entries) }
    ensures limit { IfOk result (λ p. p.0.limit ≡ volume.limit) }
    ensures outcomes { IfOk result (λ p. (vec_len p.1 ≡ length scripts.now) × EachOutcome volume.mounted stamp (all_saw volume.entries) (length p.0.entries ≡ volume.limit) scripts.now p.1.items) }
{
    match run_keeping::<Vec<Reply>, G, R>(rt, alloc, volume, scripts, stamp, gate) {
        Ok((volume, ended)) => match outcomes(alloc, ended) {
            Ok(all) => Ok((volume, all)),
            Err(_) => Err(RunFault::NoMemory),
        },
        Err(fault) => Err(fault),
    }
}
