//! Sets of numbers, with one bit for each.
ghost use Rattle.std.specs.Prelude.{◌≡◌, ℕ, ◌*◌, ◌<◌, ◌≤◌, false, length, IfOk};
ghost use Rattle.ods_mount.specs.Tables.{has, IsWith};

use std::alloc::{AllocError, Global};
use std::marker::Model;

/// A set of numbers below 64 times the number of its words.
#[derive(Drop)]
pub struct NumberSet {
    words: Vec<u64>,
}

impl Model for NumberSet {
    ghost use Rattle.std.specs.Prelude.{List, ℕ};

    ghost Value = { List ℕ };

    ghost view = { λ s. s.words.items };
}

impl NumberSet {
    /// Makes an empty set with room for the numbers below `len`.
    pub fn new(alloc: Global, len: u32) -> Result<NumberSet, AllocError>
        ensures empty { IfOk result (λ set. (b : ℕ) → has set b ≡ false) }
        ensures room { IfOk result (λ set. len ≤ 64 * length set) }
    {
        let words = vec![in alloc; 0; len.div_ceil(64) as usize]?;
        Ok(NumberSet { words })
    }

    /// Returns whether the number is in the set.
    pub fn contains(&self, number: u32) -> bool
        ensures { result ≡ has self.now number }
    {
        match self.words.get(number as usize / 64) {
            Some(word) => (*word >> (number % 64)) & 1 == 1,
            None => false,
        }
    }

    /// Adds the number to the set.
    pub fn insert(&mut self, number: u32)
        requires { number < 64 * length self.old }
        ensures with { IsWith self.new self.old number }
        ensures room { length self.new ≡ length self.old }
    {
        let at = number as usize / 64;
        self.words[at] = self.words[at] | 1 << (number % 64);
    }
}
