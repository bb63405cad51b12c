//! Messages for words that are not run, of the command line or of a line in a file of commands.
ghost use Rattle.std.specs.Prelude.{◌≡◌};
ghost use Rattle.f11fs.specs.Wrong.{IsSaidOf, said_of_line};
ghost use Rattle.ods_shell.specs.declared.status.Status.{Status as Code};

use fs_host::Shown;
use fs_words::{LineFault, WordsFault};
use ods_shell::Status;

/// Prints what is wrong with words, without control characters, and returns the status.
pub fn say_wrong<R: Eprint>(rt: &R, text: &str) -> Status
    ensures { result ≡ Code.Words }
{
    for line in text.lines() {
        let line = Shown(line);
        let _ = eprintln!(rt; "{line}");
    }
    Status::Words
}

/// Prints that the allocator refused memory, and returns the status.
pub fn say_no_memory<R: Eprint>(rt: &R) -> Status
    ensures { result ≡ Code.Host }
{
    let _ = eprintln!(rt; "f11fs: out of memory");
    Status::Host
}

/// Prints why a line of a file of commands has no words, and returns the status.
pub fn say_bad_line<R: Eprint>(rt: &R, fault: LineFault) -> Status
    ensures { result ≡ said_of_line fault }
{
    match fault {
        LineFault::Open => say_wrong(rt, "error: a quote is not closed"),
        LineFault::NoMemory => say_no_memory(rt),
    }
}

/// Prints why words request nothing, or the help that they request, and returns the status.
pub fn say_bad_words<R: Print + Eprint>(rt: &R, fault: WordsFault) -> Status
    ensures { IsSaidOf fault result }
{
    match fault {
        WordsFault::Help(text) => match print!(rt; "{text}") {
            Ok(()) => Status::Done,
            Err(_) => Status::Host,
        },
        WordsFault::Wrong(text) => say_wrong(rt, text.as_str()),
        WordsFault::NoMemory => say_no_memory(rt),
    }
}
