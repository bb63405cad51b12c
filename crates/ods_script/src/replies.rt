//! Replies as they are printed: a line for each command, and the lines of all sessions.
ghost use Rattle.std.specs.Prelude.{◌≡◌, ◌++◌, ◌<◌, ◌≤◌, ◌+◌, ◌^◌, OnOk, IfOk, length};
ghost use Rattle.std.specs.String.{string_bytes};
ghost use Rattle.ods_script.specs.Texts.{refusal_line, asked_name, looked_name, spoken_name, no_name, reply_text, replies_text, session_text, replied_text};

use crate::answers::push_answer;
use ods_ask::{Action, Ask, Command, Look, Reply, Script};
use ods_base::{Coded, Name};
use std::alloc::{AllocError, Global};

/// The name of blanks, for what speaks of no name.
fn blank_name() -> Name
    ensures { result ≡ no_name }
{
    Name::new([0, 0, 0], 0)
}

/// The name that a request speaks of.
fn ask_name(ask: &Ask) -> Name
    ensures { result ≡ asked_name ask.now }
{
    match ask {
        Ask::Create { name, .. }
        | Ask::Enter { name, .. }
        | Ask::LookUp { name, .. }
        | Ask::Remove { name, .. } => *name,
        Ask::Extend { .. }
        | Ask::Truncate { .. }
        | Ask::Delete { .. }
        | Ask::Read { .. }
        | Ask::Write { .. }
        | Ask::List { .. }
        | Ask::Stat { .. }
        | Ask::SetUser { .. } => blank_name(),
    }
}

/// The name that a VIEW speaks of.
fn look_name(look: &Look) -> Name
    ensures { result ≡ looked_name look.now }
{
    match look {
        Look::LookUp { name, .. } => *name,
        Look::Read { .. } | Look::Stat { .. } => blank_name(),
    }
}

/// The name that a command speaks of.
fn action_name(action: &Action) -> Name
    ensures { result ≡ spoken_name action.now }
{
    match action {
        Action::Submit(ask) => ask_name(ask),
        Action::View(look) => look_name(look),
        Action::User(_) | Action::Bad => blank_name(),
    }
}

/// Appends the line of a refusal, with its line feed.
fn push_refusal(text: &mut String, number: u16, name: &str) -> Result<(), AllocError>
    ensures { OnOk result (string_bytes text.new ≡ string_bytes text.old ++ refusal_line number name.now) }
{
    write!(text, "NO {number} {name}\n")
}

/// Appends the reply to a command, with its line feed. It fails only when out of memory.
pub fn push_reply(text: &mut String, command: &Command, reply: &Reply) -> Result<(), AllocError>
    ensures { OnOk result (string_bytes text.new ≡ string_bytes text.old ++ reply_text command.now reply.now) }
{
    match reply {
        Reply::User => text.push_str("OK\n"),
        Reply::Got(answer) => {
            text.push_str("OK")?;
            push_answer(text, &action_name(&command.action), answer)?;
            text.push_str("\n")
        }
        Reply::No(refusal) => push_refusal(text, refusal.code(), refusal.name()),
        Reply::Closed => push_refusal(text, 61, "Closed"),
        Reply::Bad => {
            let nth = command.nth;
            write!(text, "BAD {nth}\n")
        }
    }
}

/// Appends the replies to a script's commands, in order.
fn push_replies(
    text: &mut String,
    commands: &[Command],
    replies: &[Reply],
) -> Result<(), AllocError>
    ensures { OnOk result (string_bytes text.new ≡ string_bytes text.old ++ replies_text commands.now replies.now) }
{
    let mut commands = commands;
    let mut replies = replies;
    while let Some((command, later)) = commands.split_first() {
        let Some((reply, others)) = replies.split_first() else {
            return Ok(());
        };
        push_reply(text, command, reply)?;
        commands = later;
        replies = others;
    }
    Ok(())
}

/// Returns the printed text of the sessions of these scripts. For each session, in order, it has the line `session k`, with k from 1, and the
/// replies. It fails only when out of memory.
pub fn sessions_text(
    alloc: Global,
    scripts: &[Script],
    replies: &[Vec<Reply>],
) -> Result<String, AllocError>
    requires { length scripts.now < 65535 }
    ensures { IfOk result (λ text. string_bytes text ≡ replied_text 1 scripts.now replies.now) }
{
    let mut text = String::new(alloc);
    let mut number: u16 = 1;
    let mut scripts = scripts;
    let mut replies = replies;
    while let Some((script, later)) = scripts.split_first() {
        let Some((list, others)) = replies.split_first() else {
            return Ok(text);
        };
        push_session(&mut text, number, script, list.as_slice())?;
        number += 1;
        scripts = later;
        replies = others;
    }
    Ok(text)
}

/// Appends the line `session k` and the session's replies.
fn push_session(
    text: &mut String,
    number: u16,
    script: &Script,
    replies: &[Reply],
) -> Result<(), AllocError>
    ensures { OnOk result (string_bytes text.new ≡ string_bytes text.old ++ session_text number script.now replies.now) }
{
    write!(text, "session {number}\n")?;
    push_replies(text, script.commands.as_slice(), replies)
}
