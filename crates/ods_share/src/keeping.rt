//! What a session keeps of the replies to its commands: the replies themselves, or what a caller derives from each.
ghost use Rattle.std.specs.Prelude.{◌≡◌, ◌≤◌, [], IfOk, length, map};
ghost use Rattle.std.specs.Vec.{vec_capacity};
ghost use Rattle.ods_share.specs.Sittings.{room_for};
ghost use Rattle.ods_share.specs.Keeping.{outcome_of};

use ods_ask::{Action, Call, Command, Outcome, Reply};
use std::alloc::{AllocError, Global};

/// A store for what a session keeps of the replies to the commands of its script.
pub trait Keep: Drop {
    ghost use Rattle.std.specs.Prelude.{List, [], ◌∷◌, ◌++◌, IfOk, OnOk};
    ghost use Rattle.ods_ask.specs.declared.script.Command.{Command};
    ghost use Rattle.ods_ask.specs.declared.outcome.Reply.{Reply};

    /// The relation of the kept value to these commands and their replies.
    ghost keeps: { List Command → List Reply → Self → Type 0 };

    /// Returns the kept value before the first command of a script. It fails only when out of memory.
    fn begin(alloc: Global, script: &[Command]) -> Result<Self, AllocError>
        ensures { IfOk result (λ kept. keeps [] [] kept) };

    /// Keeps the reply to the next command. It fails only when out of memory.
    fn keep(&mut self, command: &Command, reply: Reply) -> Result<(), AllocError>
        ensures { (cs : List Command) (rs : List Reply) → keeps cs rs self.old → OnOk result (keeps (cs ++ command.now ∷ []) (rs ++ reply ∷ []) self.new) };
}

/// The replies themselves, for all of which there is room from the start.
impl Keep for Vec<Reply> {
    ghost use Rattle.ods_share.specs.Keeping.{AreReplies};

    ghost keeps = { AreReplies };

    fn begin(alloc: Global, script: &[Command]) -> Result<Vec<Reply>, AllocError> {
        Vec::with_capacity(alloc, script.len())
    }

    fn keep(&mut self, _command: &Command, reply: Reply) -> Result<(), AllocError> {
        if self.push(reply).is_err() {
            return Err(AllocError);
        }
        Ok(())
    }
}

/// The result of a session: its accepted requests in order, and what is kept of its replies.
#[derive(Drop)]
pub struct Ended<K> {
    pub calls: Vec<Call>,
    pub kept: K,
}

/// How many calls may come of these commands: one of each request.
fn submit_count(script: &[Command]) -> usize
    ensures value { result ≡ room_for script.now }
    ensures bound { result ≤ length script.now }
{
    let mut count = 0;
    for command in script {
        if let Action::Submit(_) = &command.action {
            count += 1;
        }
    }
    count
}

/// Returns an empty result, with room for all calls that a script can produce.
pub(crate) fn reserve<K: Keep>(alloc: Global, script: &[Command]) -> Result<Ended<K>, AllocError>
    ensures calls { IfOk result (λ e. e.calls.items ≡ []) }
    ensures room { IfOk result (λ e. room_for script.now ≤ vec_capacity e.calls) }
    ensures kept { IfOk result (λ e. K.keeps [] [] e.kept) }
{
    let calls = Vec::with_capacity(alloc, submit_count(script))?;
    let kept = K::begin(alloc, script)?;
    Ok(Ended { calls, kept })
}

/// Returns the outcome of each script, if the replies themselves were kept.
pub(crate) fn outcomes(
    alloc: Global,
    ended: Vec<Ended<Vec<Reply>>>,
) -> Result<Vec<Outcome>, AllocError>
    ensures { IfOk result (λ v. v.items ≡ map outcome_of ended.items) }
{
    let mut outcomes = Vec::with_capacity(alloc, ended.len())?;
    for one in ended {
        let outcome = Outcome {
            calls: one.calls,
            replies: one.kept,
        };
        if outcomes.push(outcome).is_err() {
            return Err(AllocError);
        }
    }
    Ok(outcomes)
}
