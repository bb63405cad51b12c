//! The answers to queries.
ghost use Rattle.std.specs.Prelude.{◌≡◌, IfSome, MatchResult};
ghost use Rattle.ods_state.specs.{Change.IsAnsweredBy, Noted.AreNamesKnown, Served.IsRefusalOf, Outcome.request_of};
ghost use Rattle.ods_request.specs.declared.answers.Answer.TheVariants.{Bytes};
ghost use Rattle.ods_mount.specs.Sound.{IsSoundBy};
ghost use Rattle.ods_space.specs.Disks.{on};

use crate::directory::look_up;
use crate::reading::shown_block;
use crate::shown::stat;
use ods_base::{Block, Uic};
use ods_request::{Answer, Query, Refusal};
use ods_space::Disk;
use ods_state::KnownNames;

/// Writes the answer to a query into `answer`. Otherwise returns the first fault, and leaves `answer` unchanged. It allocates no memory.
pub fn look_into(
    disk: &Disk<'_>,
    who: Uic,
    query: Query,
    answer: &mut Answer,
) -> Result<(), Refusal>
    requires { on IsSoundBy disk.now }
    ensures { MatchResult result (λ _. on IsAnsweredBy disk.now who (request_of query) answer.new)
        (λ f. on IsRefusalOf disk.now who (request_of query) f × (answer.new ≡ answer.old)) }
{
    look_into_noted(disk, who, query, None, answer)
}

/// Writes the answer to a query as [`look_into`] does. `names` may have notes about one directory.
pub fn look_into_noted<'a>(
    disk: &Disk<'a>,
    who: Uic,
    query: Query,
    names: Option<&'a KnownNames>,
    answer: &mut Answer,
) -> Result<(), Refusal>
    requires sound { on IsSoundBy disk.now }
    requires names { IfSome names (λ k. on AreNamesKnown disk.now k.now) }
    ensures { MatchResult result (λ _. on IsAnsweredBy disk.now who (request_of query) answer.new)
        (λ f. on IsRefusalOf disk.now who (request_of query) f × (answer.new ≡ answer.old)) }
{
    match query {
        Query::LookUp { dir, name, pick } => match look_up(disk, who, dir, name, pick, names) {
            Ok(found) => {
                *answer = Answer::Found(found.0, found.1);
                Ok(())
            }
            Err(refusal) => Err(refusal),
        },
        Query::Read { file, vbn } => match shown_block(disk, who, file, vbn) {
            Ok(block) => {
                put_block(answer, block);
                Ok(())
            }
            Err(refusal) => Err(refusal),
        },
        Query::Stat { file } => match stat(disk, file) {
            Ok(stat) => {
                *answer = Answer::Info(stat);
                Ok(())
            }
            Err(refusal) => Err(refusal),
        },
    }
}

/// Writes a block into this place. One that has a block takes it without a second copy.
fn put_block(answer: &mut Answer, block: &Block)
    ensures { answer.new ≡ Bytes block.now }
{
    if !matches!(answer, Answer::Bytes(_)) {
        *answer = Answer::Bytes(Block::zeros());
    }
    match answer {
        Answer::Bytes(place) => *place = *block,
        _ => unreachable!(),
    }
}

/// Returns the answer to a query, or its first fault. It allocates no memory.
pub fn look(disk: &Disk<'_>, who: Uic, query: Query) -> Result<Answer, Refusal>
    requires { on IsSoundBy disk.now }
    ensures { MatchResult result (on IsAnsweredBy disk.now who (request_of query)) (on IsRefusalOf disk.now who (request_of query)) }
{
    let mut result = Ok(Answer::Bytes(Block::zeros()));
    let Ok(answer) = &mut result else {
        unreachable!()
    };
    if let Err(refusal) = look_into(disk, who, query, answer) {
        return Err(refusal);
    }
    result
}
