//! The end of a run of the program: its exit status, and its line on standard error if it fails.
ghost use Rattle.std.specs.Prelude.{◌≡◌, MatchOption, None, Some};
ghost use Rattle.ods_cli.specs.Endings.{status_of, fault_status, line_of};

use crate::ServeFault;

/// The exit status if the words are wrong.
pub const WRONG_WORDS: u8 = 2;

/// Returns the exit status of a run: 0 if the reply is the requested one, 1 if it refuses the image or the header. Otherwise it is the status of the
/// fault.
pub fn status(answer: &Result<bool, ServeFault>) -> u8
    ensures { result ≡ status_of answer.now }
{
    match *answer {
        Ok(true) => 0,
        Ok(false) => 1,
        Err(fault) => fault.status(),
    }
}

impl ServeFault {
    /// Returns the exit status of a run that fails with this fault: 1 for a refusal, 4 for an unmatched list, otherwise 3.
    pub fn status(&self) -> u8
        ensures { result ≡ fault_status self.now }
    {
        match self {
            ServeFault::Refused(_) => 1,
            ServeFault::Read
            | ServeFault::Write
            | ServeFault::WriteOut(_)
            | ServeFault::NoMemory
            | ServeFault::NoThread => 3,
            ServeFault::Unmatched => 4,
        }
    }

    /// Returns the line for standard error, without a line feed. A refusal has none: its line is among the replies.
    pub fn line(&self) -> Option<&'static str>
        ensures { MatchOption result (line_of self.now ≡ None) (λ line. line_of self.now ≡ Some line.now) }
    {
        match self {
            ServeFault::Refused(_) => None,
            ServeFault::Read => Some("f11: reading failed"),
            ServeFault::Write | ServeFault::WriteOut(_) => Some("f11: writing failed"),
            ServeFault::NoMemory => Some("f11: no memory"),
            ServeFault::NoThread => Some("f11: no thread"),
            ServeFault::Unmatched => Some("f11: unmatched"),
        }
    }
}
