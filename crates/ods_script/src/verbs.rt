//! The verbs: the word of each, and the words that may follow it.
ghost use Rattle.std.specs.Prelude.{◌≡◌, MatchOption, Some, None, IfOk};
ghost use Rattle.ods_script.specs.declared.verbs.Verb.TheVariants.{Write as the_write};
ghost use Rattle.ods_text.specs.One.{IsTheOne};
ghost use Rattle.ods_script.specs.{Commands.verb_text, Commands.Behind, Commands.Begins, Commands.IsSplit, Commands.Viewed, Said.said};

use crate::names::{GivenName, NewName, WantedName};
use crate::spelled::Spelled;
use ods_ask::{Action, Ask, Id, Look};
use ods_base::{Block, Uic};
use ods_text::cut_at;
use std::alloc::{AllocError, Global};
use std::sync::Arc;

/// The word that a command begins with.
#[derive(Clone, Copy, Debug, PartialEq, Eq)]
pub enum Verb {
    /// `USER`: sets the user of the next commands.
    User,
    /// `CREATE`: makes a file.
    Create,
    /// `EXTEND`: adds blocks to a file.
    Extend,
    /// `TRUNCATE`: removes the last blocks of a file.
    Truncate,
    /// `DELETE`: deletes a file.
    Delete,
    /// `ENTER`: enters a name in a directory.
    Enter,
    /// `LOOK`: looks up a name in a directory.
    LookUp,
    /// `REMOVE`: removes a name from a directory.
    Remove,
    /// `READ`: reads a block of a file by its VBN.
    Read,
    /// `WRITE`: writes a block of a file by its VBN.
    Write,
    /// `LIST`: lists the names in a directory.
    List,
    /// `STAT`: prints the facts of a file's header.
    Stat,
    /// `SETUSER`: sets the 32 bytes of user attributes of a file.
    SetUser,
    /// `VIEW`: queries a view of the volume, by LOOK, READ or STAT.
    View,
}

/// The verb that a word is.
fn read_verb(word: &[u8]) -> Option<Verb>
    ensures { IsTheOne (λ v. word.now ≡ verb_text v) result }
{
    match word {
        b"USER" => Some(Verb::User),
        b"CREATE" => Some(Verb::Create),
        b"EXTEND" => Some(Verb::Extend),
        b"TRUNCATE" => Some(Verb::Truncate),
        b"DELETE" => Some(Verb::Delete),
        b"ENTER" => Some(Verb::Enter),
        b"LOOK" => Some(Verb::LookUp),
        b"REMOVE" => Some(Verb::Remove),
        b"READ" => Some(Verb::Read),
        b"WRITE" => Some(Verb::Write),
        b"LIST" => Some(Verb::List),
        b"STAT" => Some(Verb::Stat),
        b"SETUSER" => Some(Verb::SetUser),
        b"VIEW" => Some(Verb::View),
        _ => None,
    }
}

/// Splits a text into its verb and the words after it.
pub(crate) fn split_verb(text: &[u8]) -> Option<(Verb, &[u8])>
    ensures { MatchOption result (IsTheOne (IsSplit text.now) None) (λ x. IsTheOne (IsSplit text.now) (Some (x.0, x.1.now))) }
{
    let (word, args) = cut_at(b' ', text)?;
    let verb = read_verb(word)?;
    Some((verb, args))
}

/// Returns the action of the words after a verb: a row for each verb. It fails only when out of memory.
pub(crate) fn read_behind(alloc: Global, verb: Verb, args: &[u8]) -> Result<Action, AllocError>
    ensures { IfOk result (λ a. IsTheOne (Behind verb args.now) (said a)) }
{
    match verb {
        Verb::User => Ok(Uic::read(args).map_or(Action::Bad, |who| Action::User(who))),
        Verb::Create => Ok(<(NewName, u32)>::read(args).map_or(
            Action::Bad,
            |(name, blocks)| Action::Submit(Ask::Create {
                name: name.name,
                version: name.version,
                blocks,
            }),
        )),
        Verb::Extend => Ok(<(Id, u32)>::read(args).map_or(
            Action::Bad,
            |(file, blocks)| Action::Submit(Ask::Extend { file, blocks }),
        )),
        Verb::Truncate => Ok(<(Id, u32)>::read(args).map_or(
            Action::Bad,
            |(file, blocks)| Action::Submit(Ask::Truncate { file, blocks }),
        )),
        Verb::Delete => Ok(Id::read(args).map_or(
            Action::Bad,
            |file| Action::Submit(Ask::Delete { file }),
        )),
        Verb::Enter => Ok(<(Id, (GivenName, Id))>::read(args).map_or(
            Action::Bad,
            |(dir, (name, file))| Action::Submit(Ask::Enter {
                dir,
                name: name.name,
                version: name.version,
                file,
            }),
        )),
        Verb::LookUp => Ok(<(Id, WantedName)>::read(args).map_or(
            Action::Bad,
            |(dir, name)| Action::Submit(Ask::LookUp {
                dir,
                name: name.name,
                pick: name.version,
            }),
        )),
        Verb::Remove => Ok(<(Id, WantedName)>::read(args).map_or(
            Action::Bad,
            |(dir, name)| Action::Submit(Ask::Remove {
                dir,
                name: name.name,
                pick: name.version,
            }),
        )),
        Verb::Read => Ok(<(Id, u32)>::read(args).map_or(
            Action::Bad,
            |(file, vbn)| Action::Submit(Ask::Read { file, vbn }),
        )),
        Verb::Write => read_write(alloc, args),
        Verb::List => Ok(Id::read(args).map_or(
            Action::Bad,
            |dir| Action::Submit(Ask::List { dir }),
        )),
        Verb::Stat => Ok(Id::read(args).map_or(
            Action::Bad,
            |file| Action::Submit(Ask::Stat { file }),
        )),
        Verb::SetUser => Ok(<(Id, [u8; 32])>::read(args).map_or(
            Action::Bad,
            |(file, attributes)| Action::Submit(Ask::SetUser { file, attributes }),
        )),
        Verb::View => Ok(read_view(args)),
    }
}

/// The WRITE that the words spell, with a block that can be shared. It stands by itself, so that no
/// other command pays for a block.
fn read_write(alloc: Global, args: &[u8]) -> Result<Action, AllocError>
    ensures { IfOk result (λ a. IsTheOne (Behind the_write args.now) (said a)) }
{
    let Some((file, written)) = <(Id, (u32, Block))>::read(args) else {
        return Ok(Action::Bad);
    };
    let Ok(block) = Arc::new(alloc, written.1) else {
        return Err(AllocError);
    };
    Ok(Action::Submit(Ask::Write {
        file,
        vbn: written.0,
        block,
    }))
}

/// The query that the words behind VIEW spell: a row for each verb that can be viewed.
fn read_view(text: &[u8]) -> Action
    ensures { IsTheOne (Begins Viewed text.now) (said result) }
{
    let Some((verb, args)) = split_verb(text) else {
        return Action::Bad;
    };
    match verb {
        Verb::LookUp => <(Id, WantedName)>::read(args).map_or(
            Action::Bad,
            |(dir, name)| Action::View(Look::LookUp {
                dir,
                name: name.name,
                pick: name.version,
            }),
        ),
        Verb::Read => <(Id, u32)>::read(args).map_or(
            Action::Bad,
            |(file, vbn)| Action::View(Look::Read { file, vbn }),
        ),
        Verb::Stat => Id::read(args).map_or(Action::Bad, |file| Action::View(Look::Stat { file })),
        _ => Action::Bad,
    }
}
