//! Progress of a command on standard error, in a line that the next line overwrites.
ghost use Rattle.std.specs.Prelude.{◌≡◌, false};
ghost use Rattle.fs_reads.specs.Shown.{IsUnseen};

use std::time::{Clock, Instant};

/// How many milliseconds of a command show nothing.
const FIRST: u128 = 1_000;

/// How many milliseconds lie between two lines.
const BETWEEN: u128 = 200;

/// The progress of a command. Its line is shorter than any line of a fault, and the cursor is at its start. Therefore a fault overwrites it.
#[derive(Drop)]
pub struct Progress {
    /// When the command began; `None` if no progress is shown.
    start: Option<Instant>,
    /// When the next line is shown, in milliseconds after the command began.
    next: u128,
}

impl Progress {
    /// Returns the progress of a command that begins. Nothing is ever shown unless `is_wanted`.
    pub fn begin(clock: &impl Clock, is_wanted: bool) -> Progress
        ensures { is_wanted ≡ false → IsUnseen result }
    {
        let start = if is_wanted {
            Instant::now(clock).ok()
        } else {
            None
        };
        Progress { start, next: FIRST }
    }

    /// Returns the progress of a command that never shows any.
    pub fn none() -> Progress
        ensures { IsUnseen result }
    {
        Progress {
            start: None,
            next: FIRST,
        }
    }

    /// Shows that `done` parts of `all` are done, if the next line is due.
    pub fn show<R: Clock + Eprint>(&mut self, rt: &R, done: u64, all: u64)
        ensures { IsUnseen self.old → self.new ≡ self.old }
    {
        let Some(start) = &self.start else {
            return;
        };
        let Ok(elapsed) = start.elapsed(rt) else {
            return;
        };
        let now = elapsed.as_millis();
        if now < self.next {
            return;
        }
        self.next = now.saturating_add(BETWEEN);
        let percent = done.saturating_mul(100) / all.max(1);
        let _ = eprint!(rt; "f11fs: {percent}%\r");
    }

    /// Ends the command, and removes a line that is shown.
    pub fn end<R: Eprint>(&self, rt: &R) {
        if self.next != FIRST {
            let _ = eprint!(rt; "           \r");
        }
    }
}
