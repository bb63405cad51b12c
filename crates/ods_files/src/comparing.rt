//! The comparison of the first bytes of two lists of blocks. The blocks are compared in their images, and none is copied.
ghost use Rattle.std.specs.Prelude.{◌≡◌, ◌≢◌, ◌*◌, ◌≤◌, MatchBool, length, take};
ghost use Rattle.ods_base.specs.Image.{image_bytes};
ghost use Rattle.ods_files.specs.Body.{padded};

use crate::sending::block_or_zeros;
use ods_base::{Block, Image};

/// Returns whether the first `size` bytes of one list of blocks equal the first `other_size` bytes of another. A block past its image counts as
/// zeros.
pub(crate) fn have_same_sized(
    image: &Image,
    lbns: &[u32],
    size: u64,
    other: &Image,
    others: &[u32],
    other_size: u64,
) -> bool
    requires size { size ≤ 512 * length lbns.now }
    requires others { other_size ≤ 512 * length others.now }
    ensures { MatchBool result (take size (image_bytes (padded image.now lbns.now)) ≡ take other_size (image_bytes (padded other.now others.now)))
        (take size (image_bytes (padded image.now lbns.now)) ≢ take other_size (image_bytes (padded other.now others.now))) }
{
    // The blocks of an image are whole.
    let _ = image.len();
    let _ = other.len();
    if size != other_size {
        return false;
    }
    have_same_first(image, lbns, other, others, size)
}

/// Whether the first `size` bytes of both are the same.
fn have_same_first(image: &Image, lbns: &[u32], other: &Image, others: &[u32], size: u64) -> bool
    requires size { size ≤ 512 * length lbns.now }
    requires others { size ≤ 512 * length others.now }
    ensures { MatchBool result (take size (image_bytes (padded image.now lbns.now)) ≡ take size (image_bytes (padded other.now others.now)))
        (take size (image_bytes (padded image.now lbns.now)) ≢ take size (image_bytes (padded other.now others.now))) }
{
    // The blocks of an image are whole.
    let _ = image.len();
    let _ = other.len();
    let zeros = Block::zeros();
    for k in 0..size.div_ceil(512) {
        let count = (size - 512 * k).min(512) as usize;
        let one = block_or_zeros(image, &zeros, lbns[k as usize]);
        let another = block_or_zeros(other, &zeros, others[k as usize]);
        if !have_same_front(one, another, count) {
            return false;
        }
    }
    true
}

/// Whether two blocks begin with the same `count` bytes.
fn have_same_front(one: &Block, other: &Block, count: usize) -> bool
    requires { count ≤ 512 }
    ensures { MatchBool result (take count one.now ≡ take count other.now) (take count one.now ≢ take count other.now) }
{
    one.bytes()[..count] == other.bytes()[..count]
}
