//! A binary search for the nearest LBN among the keys with one number, sequence number and segment.
ghost use Rattle.std.specs.Prelude.{◌+◌, ◌*◌, ◌<◌, ◌≤◌, ◌^◌, length};
ghost use Rattle.std.specs.List.Sorted.{IsNonDecreasing, IsPartitionPoint};
ghost use Rattle.ods_remains.specs.{Keys.IsLbnAt, Keys.IsLbnBefore, Keys.IsCloserOf, Keys.IsNearestOf};

use crate::keys::LBNS;

/// How many of these keys are below this one.
fn count_below(keys: &[u64], key: u64) -> usize
    requires { IsNonDecreasing keys.now }
    ensures bound { result ≤ length keys.now }
    ensures point { IsPartitionPoint (λ y. y < key) (λ y. key ≤ y) keys.now result }
{
    keys.partition_point(|other| *other < key)
}

/// The LBN of the key with this index, where it has this place in a chain.
fn lbn_at(keys: &[u64], at: usize, place: u64) -> Option<u32>
    ensures { IsLbnAt keys.now at place result }
{
    let key = *keys.get(at)?;
    if key / LBNS == place {
        Some((key % LBNS) as u32)
    } else {
        None
    }
}

/// The LBN of the key before the one with this index, where there is one and it has this place in a chain.
fn lbn_before(keys: &[u64], at: usize, place: u64) -> Option<u32>
    ensures { IsLbnBefore keys.now at place result }
{
    if at == 0 {
        return None;
    }
    lbn_at(keys, at - 1, place)
}

/// The one of two LBNs that is nearer to this one, and the first where they are as near.
fn closer(first: Option<u32>, second: Option<u32>, lbn: u32) -> Option<u32>
    ensures { IsCloserOf lbn first second result }
{
    let Some(a) = first else {
        return second;
    };
    let Some(c) = second else {
        return Some(a);
    };
    if lbn.abs_diff(a) <= lbn.abs_diff(c) {
        Some(a)
    } else {
        Some(c)
    }
}

/// Returns the LBN nearest to `lbn` among the keys that have this place. Returns `None` if no key has it.
pub(crate) fn nearest(keys: &[u64], place: u64, lbn: u32) -> Option<u32>
    requires ascending { IsNonDecreasing keys.now }
    requires place { place < 2 ^ 40 }
    requires low { lbn < 1048576 }
    ensures { IsNearestOf keys.now place lbn result }
{
    let at = count_below(keys, LBNS * place + lbn as u64);
    closer(lbn_before(keys, at, place), lbn_at(keys, at, place), lbn)
}
