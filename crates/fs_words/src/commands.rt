//! The commands: each has a file with its row, and with the request that its words specify.
ghost use Rattle.std.specs.Prelude.{◌≡◌, IfErr, IfOk};
ghost use Rattle.clap.specs.Simple.{app_of};
ghost use Rattle.fs_words.specs.{Asked.Asks, Refused.HasReason, Refused.IsUnasked, Rules.command_app, Rules.own_rules, Rules.rules_in};

mod append;
mod cat;
mod check;
mod chmod;
mod chown;
mod cmp;
mod convert;
mod cp;
mod df;
mod du;
mod find;
mod get;
mod info;
mod init;
mod label;
mod ls;
mod mkdir;
mod mv;
mod purge;
mod put;
mod repair;
mod rescue;
mod rm;
mod rmdir;
mod stat;
mod tar;
mod truncate;
mod untar;

use crate::actions::{Action, Change};
use crate::arguments::{Row, command_in};
use crate::forms::wanted_form;
use crate::hints::wanting;
use crate::verbs::Verb;
use clap::{ArgMatches, Command};
use ods_words::WordsFault;
use std::alloc::{AllocError, Global};

/// The row of the commands of a file, which have no name.
const FILE_ROW: Row<'static> = Row {
    usage: "",
    about: "",
    arguments: &[],
    conflicts: &[],
};

/// Returns a command with only its own arguments.
#[tactic(auto, unfolding(crate::specs::Rules::command_app))]
pub(crate) fn command_of<'a>(alloc: Global, verb: Verb) -> Result<Command<'a>, AllocError>
    ensures { IfOk result (λ c. app_of c ≡ command_app verb) }
{
    let command = command_in(alloc, verb.name(), &row_of(verb))?;
    Ok(command)
}

/// The row of a command.
#[tactic(auto, unfolding(crate::specs::Rules::own_rules))]
fn row_of(verb: Verb) -> Row<'static>
    ensures { rules_in result ≡ own_rules verb }
{
    match verb {
        Verb::Ls => ls::ROW,
        Verb::Find => find::ROW,
        Verb::Stat => stat::ROW,
        Verb::Cat => cat::ROW,
        Verb::Get => get::ROW,
        Verb::Tar => tar::ROW,
        Verb::Df => df::ROW,
        Verb::Info => info::ROW,
        Verb::Du => du::ROW,
        Verb::Check => check::ROW,
        Verb::Rescue => rescue::ROW,
        Verb::Cmp => cmp::ROW,
        Verb::Put => put::ROW,
        Verb::Untar => untar::ROW,
        Verb::Cp => cp::ROW,
        Verb::Mv => mv::ROW,
        Verb::Rm => rm::ROW,
        Verb::Purge => purge::ROW,
        Verb::Mkdir => mkdir::ROW,
        Verb::Rmdir => rmdir::ROW,
        Verb::Truncate => truncate::ROW,
        Verb::Append => append::ROW,
        Verb::Chmod => chmod::ROW,
        Verb::Chown => chown::ROW,
        Verb::Label => label::ROW,
        Verb::Repair => repair::ROW,
        Verb::Init => init::ROW,
        Verb::Convert => convert::ROW,
        Verb::File => FILE_ROW,
    }
}

/// Returns the request in the words of a command. `out` is the value of `-o`.
pub(crate) fn action_of<'a>(
    alloc: Global,
    verb: Verb,
    own: &ArgMatches<'a>,
    out: Option<&'a str>,
) -> Result<Action<'a>, WordsFault>
    ensures asked { IfOk result (Asks verb own.now out.entry) }
    ensures refused { IfErr result (HasReason (IsUnasked verb own.now)) }
{
    match verb {
        Verb::Ls => Ok(ls::action(own)),
        Verb::Find => find::action(alloc, own),
        Verb::Stat => Ok(Action::Stat),
        Verb::Cat => Ok(Action::Cat(wanted_form(own))),
        Verb::Get => get::action(alloc, own, out),
        Verb::Tar => Ok(tar::action(own)),
        Verb::Df => Ok(Action::Df),
        Verb::Info => Ok(Action::Info),
        Verb::Du => du::action(alloc, own),
        Verb::Check => Ok(check::action(own)),
        Verb::Rescue => Ok(rescue::action(own)),
        Verb::Cmp => Ok(cmp::action(own)),
        Verb::Put => put::action(alloc, own),
        Verb::Untar => untar::action(alloc, own),
        Verb::Cp => cp::action(alloc, own),
        Verb::Mv => Ok(Action::Change(Change::Mv)),
        Verb::Rm => Ok(rm::action(own)),
        Verb::Purge => purge::action(alloc, own),
        Verb::Mkdir => mkdir::action(alloc, own),
        Verb::Rmdir => Ok(Action::Change(Change::Rmdir)),
        Verb::Truncate => truncate::action(alloc, own),
        Verb::Append => append::action(alloc, own),
        Verb::Chmod => chmod::action(alloc, own),
        Verb::Chown => chown::action(alloc, own),
        Verb::Label => label::action(alloc, own),
        Verb::Repair => repair::action(alloc, own),
        Verb::Init => init::action(alloc, own),
        Verb::Convert => convert::action(alloc, own),
        // No name of a command gives it.
        Verb::File => Err(wanting(alloc, false)?),
    }
}
