//! Blocks past the end of an image.
ghost use Rattle.std.specs.Prelude.{◌≤◌, length, IfSome, IfNone};
ghost use Rattle.std.specs.List.{Contains};
ghost use Rattle.ods_space.specs.Files.{AreInside};

use ods_base::Image;

/// Returns the first of these LBNs that is past the end of the image, if there is one.
pub fn outside(image: &Image, lbns: &[u32]) -> Option<u32>
    ensures some { IfSome result (λ lbn. Contains lbns.now lbn × (length image.now ≤ lbn)) }
    ensures none { IfNone result (AreInside image.now lbns.now) }
{
    let len = image.len();
    for lbn in lbns {
        if len <= *lbn {
            return Some(*lbn);
        }
    }
    None
}
