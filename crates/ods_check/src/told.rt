//! Lines of which the first ones are kept and the others are counted.
ghost use Rattle.std.specs.Prelude.{◌≡◌, ◌-◌, ◌≤◌, ◌++◌, ◌∷◌, [], length, take, OnOk, MatchBool};

use crate::whole::Whole;
use std::alloc::{AllocError, Global};
use std::marker::Model;

/// Lines of which the first ones are kept and the others are counted. Clauses see all lines in order, kept or not, and the greatest number of kept
/// ones.
#[derive(Drop)]
pub struct Told<T> {
    kept: Vec<T>,
    more: u64,
    most: u32,
    whole: Whole<T>,
}

impl<T> Model for Told<T> {
    ghost use Rattle.std.specs.Prelude.{ℕ, List};
    ghost use Rattle.ods_check.specs.Lists.{IsCut};

    ghost Value = { List T × ℕ };

    ghost view = { λ l. (l.whole.items, l.most) };

    ghost invariant = { λ l. IsCut l.kept.items l.more l.most l.whole.items };
}

impl<T: Copy> Told<T> {
    /// Returns an empty list that keeps at most `most` lines.
    pub(crate) fn new(alloc: Global, most: u32) -> Told<T>
        ensures { result ≡ ([], most) }
    {
        Told {
            kept: Vec::new(alloc),
            more: 0,
            most,
            whole: Whole::new(),
        }
    }

    /// Adds a line. Keeps it if fewer lines are kept than may be, otherwise counts it. An error means out of memory.
    pub(crate) fn push(&mut self, one: T) -> Result<(), AllocError>
        ensures { OnOk result (self.new ≡ (self.old.0 ++ one ∷ [], self.old.1)) }
    {
        if self.kept.len() < self.most as usize {
            self.kept.push(one)?;
        } else {
            match self.more.checked_add(1) {
                Some(more) => self.more = more,
                None => return Err(AllocError),
            }
        }
        self.whole = self.whole.and(&one);
        Ok(())
    }

    /// Returns the kept lines.
    pub fn kept_lines(&self) -> &[T]
        ensures { result.now ≡ take self.now.1 self.now.0 }
    {
        self.kept.as_slice()
    }

    /// Returns the number of lines that are not kept.
    pub fn more(&self) -> u64
        ensures { result ≡ length self.now.0 - self.now.1 }
    {
        self.more
    }

    /// Returns whether the list holds as many lines as it may keep.
    pub(crate) fn is_full(&self) -> bool
        ensures { MatchBool result (self.now.1 ≤ length self.now.0) (¬ (self.now.1 ≤ length self.now.0)) }
    {
        self.kept.len() >= self.most as usize
    }
}
