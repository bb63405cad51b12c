//! The exit status of a command.
ghost use Rattle.std.specs.Prelude.{◌≡◌};
ghost use Rattle.ods_shell.specs.Statuses.{status_number};

/// The exit status of a command.
/// No clause covers the status of each command; `tests/fs` checks it on the built program.
#[derive(Clone, Copy, Debug, PartialEq, Eq)]
pub enum Status {
    /// The command did everything that was requested.
    Done,
    /// The image is refused.
    Image,
    /// The arguments are wrong, or the path is not a valid path.
    Words,
    /// A fault of the host: reading, writing, or out of memory.
    Host,
    /// The file is refused.
    Refused,
    /// The path selects nothing.
    Nothing,
    /// `check` or `cmp` found something.
    Found,
}

impl Status {
    /// Returns the number of the status.
    pub fn code(&self) -> u8
        ensures { result ≡ status_number self.now }
    {
        match self {
            Status::Done => 0,
            Status::Image => 1,
            Status::Words => 2,
            Status::Host => 3,
            Status::Refused => 5,
            Status::Nothing => 6,
            Status::Found => 7,
        }
    }

    /// Returns this status, or `later` if this one is `Done`. So several faults end with the status of the first.
    pub fn or(self, later: Status) -> Status
        ensures done { self ≡ Status.Done → result ≡ later }
        ensures fault { ¬ (self ≡ Status.Done) → result ≡ self }
    {
        match self {
            Status::Done => later,
            _ => self,
        }
    }
}
