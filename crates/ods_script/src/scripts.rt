//! The commands of a script.
ghost use Rattle.std.specs.Prelude.{◌≡◌, ◌<◌, ◌^◌, length, IfOk, OnOk};
ghost use Rattle.ods_ask.specs.Asked.{CanBeRun};
ghost use Rattle.ods_script.specs.Numbered.{AreCommandsOf, Takes};

use crate::lines::parse_line;
use ods_ask::{Command, Script};
use ods_text::cut_at;
use std::alloc::{AllocError, Global};

/// Parses a script into its commands: one for each line that is not empty, in order, with its line number from 1. A line that is not a valid command
/// is `Bad`. The last line may lack its line feed. It fails only when out of memory.
pub fn parse_script(alloc: Global, text: &[u8]) -> Result<Script, AllocError>
    requires { length text.now < 2 ^ 31 }
    ensures commands { IfOk result (λ s. AreCommandsOf text.now s.commands.items) }
    ensures asked { IfOk result (λ s. CanBeRun s.commands.items) }
{
    let mut commands = Vec::new(alloc);
    let mut nth: u32 = 1;
    let mut rest = text;
    while let Some((line, behind)) = cut_at(b'\n', rest) {
        take_line(alloc, &mut commands, nth, line)?;
        nth += 1;
        rest = behind;
    }
    take_line(alloc, &mut commands, nth, rest)?;
    Ok(Script { commands })
}

/// Keeps the command of a line that is not empty.
fn take_line(
    alloc: Global,
    commands: &mut Vec<Command>,
    nth: u32,
    line: &[u8],
) -> Result<(), AllocError>
    ensures { OnOk result (Takes commands.old.items nth line.now commands.new.items) }
{
    if line.is_empty() {
        return Ok(());
    }
    let action = parse_line(alloc, line)?;
    if commands.push(Command { nth, action }).is_err() {
        return Err(AllocError);
    }
    Ok(())
}
