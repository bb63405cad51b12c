//! The contents of the blocks that a header names. The header need not be in an index file.
ghost use Rattle.std.specs.Prelude.{◌≤◌, ℕ, List, length, IfOk, IfErr};
ghost use Rattle.ods_space.specs.Chain.{chain_blocks};
ghost use Rattle.ods_files.specs.Body.{body_at};
ghost use Rattle.ods_shell.specs.{Contents.IsGotBy, Contents.IsNotGotBy, Shown.ContentsAre};

use crate::form::{FormFault, Got, contents_of};
use ods_base::Image;
use ods_files::FileBody;
use ods_records::Wanted;
use std::alloc::Global;

/// Returns the contents of a file with these attributes and the blocks at these LBNs, in the requested form. A block past the image consists of
/// zeros.
pub fn contents_of_blocks<'a>(
    alloc: Global,
    image: &'a Image,
    lbns: Vec<u32>,
    attributes: [u8; 32],
    wanted: Wanted,
) -> Result<Got<'a>, FormFault>
    requires { length lbns.items ≤ chain_blocks }
    ensures ok { IfOk result (λ got. (bytes : List ℕ) × ContentsAre got.contents bytes × IsGotBy wanted (body_at image.now lbns.items attributes) bytes got.remark) }
    ensures err { IfErr result (IsNotGotBy wanted (body_at image.now lbns.items attributes)) }
{
    contents_of(alloc, FileBody::of_blocks(image, lbns, attributes), wanted)
}
