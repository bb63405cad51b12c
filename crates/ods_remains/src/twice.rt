//! The search for a repeated block in a list of blocks.
ghost use Rattle.std.specs.Prelude.{nat_eq, IfOk, MatchBool};
ghost use Rattle.std.specs.List.{IsDistinct};
ghost use Rattle.std.specs.List.Sorted.{IsNonDecreasing};

use std::alloc::{AllocError, Global};

/// Returns whether one of these blocks occurs twice. Takes memory for as many blocks.
pub(crate) fn names_twice(alloc: Global, blocks: &[u32]) -> Result<bool, AllocError>
    ensures { IfOk result (λ twice. MatchBool twice (¬ IsDistinct nat_eq blocks.now) (IsDistinct nat_eq blocks.now)) }
{
    let mut sorted = Vec::from_slice(alloc, blocks)?;
    sorted.sort_unstable();
    Ok(has_equal_neighbours(&sorted))
}

/// Whether two neighbours of numbers that do not fall are the same.
fn has_equal_neighbours(numbers: &[u32]) -> bool
    requires { IsNonDecreasing numbers.now }
    ensures { MatchBool result (¬ IsDistinct nat_eq numbers.now) (IsDistinct nat_eq numbers.now) }
{
    for i in 1..numbers.len() {
        let one = numbers[i - 1];
        let other = numbers[i];
        if one == other {
            return true;
        }
    }
    false
}
