//! The writing of the replies: part by part, so that the texts of the sessions are not joined in memory.
ghost use Rattle.std.specs.Prelude.{◌≡◌, ◌≤◌, length, OnOk, IfErr};
ghost use Rattle.std.specs.Io.KnownBytes.{Appends};
ghost use Rattle.ods_cli.specs.{Printed.printed_session, Printed.printed_text, Printed.said_text, Printed.session_line, Writing.IsCut};

use crate::ServeFault;
use crate::printed::Printed;
use crate::sessions::Said;
use ods_base::write_bytes;
use ods_views::MOST_SESSIONS;
use std::io::Write;

/// Writes the replies of each session, and then the totals.
pub(crate) fn write_said<W: Write>(writer: &mut W, said: &Said) -> Result<(), ServeFault>
    requires { length said.now.printed.items ≤ MOST_SESSIONS }
    ensures ok { OnOk result (Appends (W.contents writer.old) (W.contents writer.new) (said_text said.now)) }
    ensures err { IfErr result (IsCut (W.contents writer.old) (W.contents writer.new) (said_text said.now)) }
{
    write_sessions(writer, said.printed.as_slice())?;
    write_part(writer, said.totals.as_bytes())
}

/// Writes for each session, in order, the line `session k`, with k from 1, and what it printed.
fn write_sessions<W: Write>(writer: &mut W, sessions: &[Printed]) -> Result<(), ServeFault>
    requires { length sessions.now ≤ MOST_SESSIONS }
    ensures ok { OnOk result (Appends (W.contents writer.old) (W.contents writer.new) (printed_text 1 sessions.now)) }
    ensures err { IfErr result (IsCut (W.contents writer.old) (W.contents writer.new) (printed_text 1 sessions.now)) }
{
    let mut number: u8 = 1;
    let mut sessions = sessions;
    while let Some((session, later)) = sessions.split_first() {
        write_session(writer, number, session)?;
        number += 1;
        sessions = later;
    }
    Ok(())
}

/// Writes the line `session k` and what the session printed.
fn write_session<W: Write>(writer: &mut W, number: u8, session: &Printed) -> Result<(), ServeFault>
    requires { number ≤ MOST_SESSIONS }
    ensures ok { OnOk result (Appends (W.contents writer.old) (W.contents writer.new) (printed_session number session.now)) }
    ensures err { IfErr result (IsCut (W.contents writer.old) (W.contents writer.new) (printed_session number session.now)) }
{
    write_part(writer, &line_of(number))?;
    write_part(writer, session.text.as_bytes())
}

/// The line of a session, whose number has one digit.
fn line_of(number: u8) -> [u8; 10]
    requires { number ≤ MOST_SESSIONS }
    ensures { result ≡ session_line number }
{
    let mut line = *b"session 0\n";
    line[8] += number;
    line
}

/// Writes a part of what is written.
fn write_part<W: Write>(writer: &mut W, bytes: &[u8]) -> Result<(), ServeFault>
    ensures ok { OnOk result (Appends (W.contents writer.old) (W.contents writer.new) bytes.now) }
    ensures err { IfErr result (IsCut (W.contents writer.old) (W.contents writer.new) bytes.now) }
{
    match write_bytes(writer, bytes) {
        Ok(()) => Ok(()),
        Err(_) => Err(ServeFault::Write),
    }
}
