//! `f11fs`: looks at RSX-11 volumes, structure level 1, extracts files and changes them. `ods_shell` determines what a path finds and what is
//! printed, and `ods_upkeep` what a change does. This crate has the files of the host, the streams and the exit status.
#![tactic(auto)]

ghost use Rattle.std.specs.Prelude.{◌≡◌, ◌≤◌, IfSome};
ghost use Rattle.ods_shell.specs.declared.status.Status.{Status as Code};

mod appending;
mod changing;
mod command_files;
mod commands;
mod converting;
mod copying_from;
mod dating;
mod early;
mod host;
mod images;
mod judging_tree;
mod laws;
mod lines;
mod looking;
mod making;
mod mending;
mod mending_shares;
mod mending_sound;
mod orders;
mod putting;
mod putting_tree;
mod refusing;
mod repair_lines;
mod repairing;
mod running;
mod store;
mod telling;
mod truncating;
mod untarring;
mod version;

use commands::{Seen, run_command};
use fs_host::hold_streams;
use fs_words::parse_words;
use host::Host;
use lines::{say_bad_words, say_no_memory, say_wrong};
use ods_shell::Status;
use running::HostCommands;
use std::io::IsTerminal;
use std::process::ExitCode;
use std::{env, io};
use version::VERSION;

fn main(rt: HostRuntime) -> ExitCode {
    // They live until `main` returns, so that no file that is opened is a stream.
    let Some(_streams) = hold_streams(&rt) else {
        return ExitCode::from(Status::Host.code());
    };
    ExitCode::from(run(
        &rt,
        Seen {
            errors: rt.stderr().is_terminal(),
            output: rt.stdout().is_terminal(),
        },
    )
    .code())
}

/// Does what the words of the command line ask for.
fn run<R: Host>(rt: &R, seen: Seen) -> Status {
    let args = match env::args(rt) {
        Ok(args) => args,
        Err(error) if error.kind() == io::ErrorKind::InvalidData => {
            return say_no_text(rt);
        }
        Err(_) => return say_no_memory(rt),
    };
    let Ok(words) = args.skip(1).collect::<Vec<String>>(rt.alloc()) else {
        return say_no_memory(rt);
    };
    match parse_words(rt.alloc(), words.as_slice(), VERSION) {
        Ok(found) => run_command(rt, &mut HostCommands { rt }, &found, seen),
        Err(fault) => say_bad_words(rt, fault),
    }
}

/// The longest word that a host gives.
const WORD: usize = 131_072;

/// Says that a word is no UTF-8 text, with the number of the first such word; the first word behind the program's name is word 1.
fn say_no_text<R: Host>(rt: &R) -> Status
    ensures { result ≡ Code.Words }
{
    match spoiled_word(rt) {
        Some(number) => {
            let _ = eprintln!(rt; "error: word {number} is not UTF-8 text");
            Status::Words
        }
        None => say_wrong(rt, "error: a word is not UTF-8 text"),
    }
}

/// The number of the first word that is no UTF-8 text.
fn spoiled_word<R: Host>(rt: &R) -> Option<usize>
    ensures { IfSome result (λ number. 1 ≤ number) }
{
    let Ok(mut word) = vec![in rt.alloc(); 0; WORD] else {
        return None;
    };
    for number in 1..usize::MAX {
        let Ok(count) = rt.arg(number, word.as_mut_slice()) else {
            return None;
        };
        if str::from_utf8(word.get(..count)?).is_err() {
            return Some(number);
        }
    }
    None
}
