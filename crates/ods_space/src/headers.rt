//! The location of headers.
ghost use Rattle.std.specs.Prelude.{◌≡◌, ◌+◌, ◌^◌, ◌<◌, ◌≤◌, [], IfSome, IfNone};
ghost use Rattle.ods_header.specs.Header.{sequence_of};
ghost use Rattle.ods_space.specs.Layout.{place_by, header_by, last_number as last_of, most_index_blocks as most_blocks};
ghost use Rattle.ods_space.specs.Disks.{header_on};

use crate::{Disk, Layout};
use ods_base::{Block, Image};
use ods_header::{Home, file_sequence};

/// Where header `number` stands, where `index` has the blocks of INDEXF.SYS.
pub(crate) fn place(home: &Home, index: &[u32], number: u16) -> Option<u64>
    ensures value { result ≡ place_by home.now index.now number }
    ensures small { home.now.index_bitmap_lbn + home.now.index_bitmap_size ≤ 2 ^ 20 → IfSome result (λ at. at < 2 ^ 32) }
{
    let size = home.index_bitmap_size as u64;
    match number {
        0 => None,
        1..=16 => Some(home.index_bitmap_lbn as u64 + size + number as u64 - 1),
        _ => match index.get(1 + size as usize + number as usize) {
            Some(lbn) => Some(*lbn as u64),
            None => None,
        },
    }
}

/// The block of header `number`, where `index` has the blocks of INDEXF.SYS.
pub(crate) fn block_by<'a>(
    image: &'a Image,
    home: &Home,
    index: &[u32],
    number: u16,
) -> Option<&'a Block>
    ensures some { IfSome result (λ block. block.now ≡ header_by image.now home.now index.now number) }
    ensures none { IfNone result (header_by image.now home.now index.now number ≡ []) }
{
    let at = place(home, index, number)?;
    if at < image.len() as u64 {
        Some(image.block(at as u32))
    } else {
        None
    }
}

/// Returns the block of header `number`, or `None` if no LBN is known for the number or the image lacks the block.
pub fn header_block<'a>(disk: &Disk<'a>, number: u16) -> Option<&'a Block>
    ensures some { IfSome result (λ block. block.now ≡ header_on disk.now number) }
    ensures none { IfNone result (header_on disk.now number ≡ []) }
{
    block_by(disk.image, &disk.layout.home(), disk.layout.index(), number)
}

/// Returns the sequence word of header `number`, or 0 if there is no such block.
pub fn sequence(disk: &Disk<'_>, number: u16) -> u16
    ensures { result ≡ sequence_of (header_on disk.now number) }
{
    match header_block(disk, number) {
        Some(block) => file_sequence(block),
        None => 0,
    }
}

/// How many blocks INDEXF.SYS may ever have: two, the index bitmap, and a header for each number that H.FMAX and the bitmap allow.
pub(crate) fn most_index_blocks(home: &Home) -> usize
    ensures value { result ≡ most_blocks home.now }
    ensures few { result ≤ 2 ^ 18 }
{
    let size = home.index_bitmap_size as usize;
    2 + size + (home.max_files as usize).min(4096 * size)
}

/// Returns the greatest file number.
pub fn last_number(layout: &Layout) -> u16
    ensures { result ≡ last_of layout.now }
{
    let home = layout.home();
    let size = home.index_bitmap_size as usize;
    let headers = layout.index().len().saturating_sub(size + 2);
    (home.max_files as usize).min(4096 * size).min(headers) as u16
}
