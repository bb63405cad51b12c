//! The time that a search for programs takes, and what it leaves out.
use std::rt::Clock;
use std::time::{Duration, Instant};

/// The milliseconds after which a search ends.
const LIMIT: u64 = 2_000;

/// A search that ends after a time.
#[derive(Drop)]
pub struct Watch {
    begin: Option<Instant>,
    is_over: bool,
    /// How many processes could not be looked at.
    unseen: u32,
}

impl Watch {
    /// A search that begins now.
    pub fn begun<R: Clock>(rt: &R) -> Watch {
        Watch {
            begin: Instant::now(rt).ok(),
            is_over: false,
            unseen: 0,
        }
    }

    /// Whether its time is over. Without a clock it is.
    pub fn is_over<R: Clock>(&mut self, rt: &R) -> bool {
        if self.is_over {
            return true;
        }
        let limit = Duration::from_millis(LIMIT);
        self.is_over = match (&self.begin, Instant::now(rt)) {
            (Some(begin), Ok(now)) => now.duration_since(*begin) >= limit,
            _ => true,
        };
        self.is_over
    }

    /// Looks at the processes from the first one again.
    pub fn restart(&mut self) {
        self.unseen = 0;
    }

    /// Counts a process that could not be looked at.
    pub fn pass(&mut self) {
        self.unseen = self.unseen.saturating_add(1);
    }

    /// How many processes could not be looked at, if the time was over before the search ended. The processes of other users are
    /// never looked at, so a search that came to its end has nothing to report.
    pub fn left_out(&self) -> u32 {
        if self.is_over { self.unseen } else { 0 }
    }
}
