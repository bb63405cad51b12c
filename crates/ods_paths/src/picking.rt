//! The choice of versions from the existing versions.
ghost use Rattle.std.specs.Prelude.{◌≡◌, ◌≤◌, ◌↔◌, ℕ, max, IsTrue};
ghost use Rattle.std.specs.List.{All};
ghost use Rattle.ods_paths.specs.Picked.{AreFromTo};

use crate::Versions;

/// The versions from `low` to `high`.
#[derive(Clone, Copy, Debug, PartialEq, Eq)]
pub struct Span {
    pub low: u16,
    pub high: u16,
}

impl Span {
    /// Returns whether the version is in the span.
    pub fn has(&self, version: u16) -> bool
        ensures { IsTrue result ↔ ((self.now.low ≤ version) × (version ≤ self.now.high)) }
    {
        self.low <= version && version <= self.high
    }
}

/// Returns the range of the versions that the choice picks from `versions`.
pub fn choose_span(choice: Versions, versions: &[u16]) -> Span
    ensures { AreFromTo choice versions.now result.low result.high }
{
    match choice {
        Versions::Exact(version) => span_of(version, version),
        Versions::Highest => {
            let most = highest(versions);
            span_of(most, most)
        }
        Versions::Lowest => {
            let least = lowest(versions);
            span_of(least, least)
        }
        Versions::Every => span_of(0, u16::MAX),
    }
}

fn span_of(low: u16, high: u16) -> Span
    ensures { (result.low ≡ low) × (result.high ≡ high) }
{
    Span { low, high }
}

/// The highest of the versions, or 0 where there is none.
fn highest(versions: &[u16]) -> u16
    ensures { (v : ℕ) → (result ≤ v) ↔ All (λ w. w ≤ v) versions.now }
{
    let mut most = 0;
    for version in versions {
        most = larger(most, *version);
    }
    most
}

fn larger(a: u16, b: u16) -> u16
    ensures { result ≡ max a b }
{
    if a < b { b } else { a }
}

/// The lowest of the versions, or 65,535 where there is none.
fn lowest(versions: &[u16]) -> u16
    ensures { (v : ℕ) → v ≤ 65535 → ((v ≤ result) ↔ All (λ w. v ≤ w) versions.now) }
{
    let mut least = u16::MAX;
    for version in versions {
        least = least.min(*version);
    }
    least
}
