//! `f11`: a processor of RSX-11 volumes, structure level 1. The crate `ods_cli` does the work; this crate has the files, the streams and the exit
//! status.
#![tactic(auto)]

mod headers;
mod out_file;
mod served;
mod version;

use fs_host::hold_streams;
use headers::print_header;
use ods_cli::{Run, ServeFault, WRONG_WORDS, WordsFault, parse_words, run_for};
use served::{ServedFault, serve_bare, serve_words};
use std::process::ExitCode;
use std::rt::{Env, Files};
use std::sync::Wait;
use std::thread::Threads;
use std::{env, io};
use version::VERSION;

fn main(rt: HostRuntime) -> ExitCode {
    // They live until `main` returns, so that no file that is opened is a stream.
    let Some(_streams) = hold_streams(&rt) else {
        let _ = eprintln!(rt; "f11: /dev/null cannot be opened");
        return ExitCode::from(ServeFault::Read.status());
    };
    match run(&rt) {
        Ok(code) => code,
        Err(fault) => {
            if let Some(line) = fault.line() {
                let _ = eprintln!(rt; "{line}");
            }
            ExitCode::from(fault.status())
        }
    }
}

/// Does what the words of the command line ask for.
fn run<R: Env + Files + Input + AllocGlobal + Print + Eprint + Threads + Wait + Sync>(
    rt: &R,
) -> Result<ExitCode, ServeFault> {
    let words = match env::args(rt) {
        Ok(args) => args.skip(1).collect::<Vec<String>>(rt.alloc())?,
        Err(error) if error.kind() == io::ErrorKind::InvalidData => {
            return Ok(wrong(rt, "error: an argument is not valid UTF-8"));
        }
        Err(_) => return Err(ServeFault::NoMemory),
    };
    match parse_words(rt.alloc(), words.as_slice(), VERSION) {
        Ok(found) => match run_for(&found) {
            Run::SampleHeader(number) => print_header(rt, None, number),
            Run::ImageHeader(path, number) => print_header(rt, Some(path), number),
            Run::Input => end_run(rt, serve_bare(rt, &found)),
            Run::Scripts => end_run(rt, serve_words(rt, &found)),
        },
        Err(WordsFault::Help(text)) => match print!(rt; "{text}") {
            Ok(()) => Ok(ExitCode::SUCCESS),
            Err(_) => Err(ServeFault::Write),
        },
        Err(WordsFault::Wrong(line)) => Ok(wrong(rt, line.as_str())),
        Err(WordsFault::NoMemory) => Err(ServeFault::NoMemory),
    }
}

/// How a run ends that was to serve scripts.
fn end_run(rt: &impl Eprint, answer: Result<(), ServedFault<'_>>) -> Result<ExitCode, ServeFault> {
    match answer {
        Ok(()) => Ok(ExitCode::SUCCESS),
        Err(ServedFault::TooLarge(Some(path))) => {
            let _ = eprintln!(rt; "error: script '{path}' has more than 1048576 bytes");
            Ok(ExitCode::from(WRONG_WORDS))
        }
        Err(ServedFault::TooLarge(None)) => Ok(wrong(
            rt,
            "error: the script on standard input has more than 1048576 bytes",
        )),
        Err(ServedFault::Fault(fault)) => Err(fault),
    }
}

/// One line about wrong words.
fn wrong(rt: &impl Eprint, line: &str) -> ExitCode {
    let _ = eprintln!(rt; "{line}");
    ExitCode::from(WRONG_WORDS)
}
