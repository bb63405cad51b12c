//! Numbers that occur more than once.
ghost use Rattle.std.specs.Prelude.{◌≡◌, ◌*◌, ◌<◌, ◌⊎◌, ℕ, Some, true, slice_get, length};
ghost use Rattle.std.specs.List.{All};
ghost use Rattle.ods_mount.specs.Tables.{has, IsThere};
ghost use Rattle.ods_check.specs.{Sets.IsSetOf, Lists.AreDistinct};

use ods_mount::NumberSet;

/// Adds all these numbers to the set. Returns whether they are distinct and none was in the set before.
pub(crate) fn insert_new(numbers: &[u32], set: &mut NumberSet) -> bool
    requires { All (λ b. b < 64 * length set.old) numbers.now }
    ensures with { IsSetOf (λ b. (has set.old b ≡ true) ⊎ ((j : ℕ) × (slice_get numbers.now j ≡ Some b))) set.new }
    ensures room { length set.new ≡ length set.old }
    ensures new { result ≡ true → AreDistinct numbers.now }
{
    let mut is_new = true;
    for i in 0..numbers.len() {
        is_new = is_new & !set.contains(numbers[i]);
        set.insert(numbers[i]);
    }
    is_new
}

/// Adds all these numbers to the set `once`. Adds each number to `twice` that was in `once` at that time.
pub(crate) fn insert_twice(numbers: &[u32], once: &mut NumberSet, twice: &mut NumberSet)
    requires once { All (λ b. b < 64 * length once.old) numbers.now }
    requires twice { All (λ b. b < 64 * length twice.old) numbers.now }
    ensures once { IsSetOf (λ b. (has once.old b ≡ true) ⊎ ((j : ℕ) × (slice_get numbers.now j ≡ Some b))) once.new }
    ensures twice { IsSetOf (λ b. (has twice.old b ≡ true) ⊎ IsThere once.old numbers.now b) twice.new }
    ensures room { length once.new ≡ length once.old }
    ensures same { length twice.new ≡ length twice.old }
{
    for i in 0..numbers.len() {
        let there = once.contains(numbers[i]);
        insert_if(twice, numbers[i], there);
        once.insert(numbers[i]);
    }
}

/// Puts the number into the set where it holds.
fn insert_if(set: &mut NumberSet, number: u32, holds: bool)
    requires { number < 64 * length set.old }
    ensures with { IsSetOf (λ b. (has set.old b ≡ true) ⊎ ((holds ≡ true) × (b ≡ number))) set.new }
    ensures room { length set.new ≡ length set.old }
{
    if holds {
        set.insert(number);
    }
}
