//! The home block of a new volume.
ghost use Rattle.std.specs.Prelude.{◌≡◌, ◌<◌, ◌≤◌, length};
ghost use Rattle.ods_init.specs.Blocks.{IsNewHome};
ghost use Rattle.ods_init.specs.HomeBytes.{front_bytes, home_text, middle_bytes};

use crate::Blueprint;
use ods_base::{Block, Uic, set_word, sum};

/// What a home block says to people and to RSX.
#[derive(Clone, Copy)]
struct HomeText {
    /// H.VNAM.
    name: [u8; 12],
    /// H.VOWN, H.VPRO, H.VCHA, H.DFPR, and what RSX keeps at hand.
    middle: [u8; 28],
    /// H.VDAT.
    stamp: [u8; 13],
    /// H.INDN.
    label: [u8; 12],
    /// H.INDO and H.INDF.
    end: [u8; 24],
}

/// Returns the home block of a new volume. Its index bitmap is at LBN 2. It has the label, owner and date of the volume, if there are any.
pub fn home_block(blueprint: &Blueprint) -> Block
    requires size { (1 ≤ blueprint.now.places.index_bitmap_size) × (blueprint.now.places.index_bitmap_size < 65536) }
    requires files { (1 ≤ blueprint.now.places.most_files) × (blueprint.now.places.most_files < 65536) }
    ensures { IsNewHome blueprint.now result }
{
    let places = blueprint.places;
    let text = home_text(blueprint);
    let mut block = Block::zeros();
    block.set_bytes(
        0,
        &front(places.index_bitmap_size as u16, places.most_files as u16),
    );
    block.set_bytes(14, &text.name);
    block.set_bytes(30, &text.middle);
    let first = sum(&block, 29);
    set_word(&mut block, 29, first);
    block.set_bytes(60, &text.stamp);
    block.set_bytes(472, &text.label);
    block.set_bytes(484, &text.end);
    let second = sum(&block, 255);
    set_word(&mut block, 255, second);
    block
}

/// What the home block says: label, owner and stamp, or zeros in their place.
fn home_text(blueprint: &Blueprint) -> HomeText
    ensures value { result ≡ home_text blueprint.now }
    ensures name { length result.name ≡ 12 }
    ensures stamp { length result.stamp ≡ 13 }
    ensures label { length result.label ≡ 12 }
{
    match &blueprint.details {
        Some(details) => HomeText {
            name: details.label.zero_padded(),
            middle: middle(blueprint.owner, [7, 5, 3]),
            stamp: *details.stamp.text(),
            label: *details.label.text(),
            end: *b"            DECFILE11A  ",
        },
        None => HomeText {
            name: [0; 12],
            middle: middle(
                Uic {
                    group: 0,
                    member: 0,
                },
                [0, 0, 0],
            ),
            stamp: [0; 13],
            label: [0; 12],
            end: *b"\0\0\0\0\0\0\0\0\0\0\0\0DECFILE11A  ",
        },
    }
}

/// Bytes 0 to 13: H.IBSZ, H.IBLB, H.FMAX, H.SBCL, H.DVTY and H.VLEV.
fn front(size: u16, files: u16) -> [u8; 14]
    ensures { result ≡ front_bytes size files }
{
    let (size, files) = (size.to_le_bytes(), files.to_le_bytes());
    [
        size[0], size[1], 0, 0, 2, 0, files[0], files[1], 1, 0, 0, 0, 1, 1,
    ]
}

/// Bytes 30 to 57: H.VOWN, H.VPRO and H.VCHA, of which nothing is set, H.DFPR, and what RSX keeps at hand unless told otherwise: pointers of
/// an open file, blocks by which one is extended, directories.
fn middle(owner: Uic, kept: [u8; 3]) -> [u8; 28]
    ensures { result ≡ middle_bytes owner kept }
{
    let (member, group) = (owner.member, owner.group);
    let [pointers, blocks, folders] = kept;
    [
        member, group, 0, 0, 0, 0, 0, 224, 0, 0, 0, 0, 0, 0, pointers, blocks, folders, 0, 0, 0, 0,
        0, 0, 0, 0, 0, 0, 0,
    ]
}
