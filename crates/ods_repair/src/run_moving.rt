//! The move of one run of a file to blocks of its own. It changes their bytes, the bits of the new blocks, and the pointer that names the run.
ghost use Rattle.std.specs.Prelude.{◌≡◌, ◌≢◌, ℕ, ◌+◌, ◌/◌, ◌<◌, ◌≤◌, false, length, true};
ghost use Rattle.std.specs.List.{All, range_with_len};
ghost use Rattle.ods_header.specs.Header.{used_words_of};
ghost use Rattle.ods_space.specs.Layout.{header_at};
ghost use Rattle.ods_space.specs.Free.{is_free_block};
ghost use Rattle.ods_alloc.specs.Marks.{MarksBlocks};
ghost use Rattle.ods_repair.specs.{Moved.CanMove, Moved.IsCopied, Moved.IsMoved, Moved.run_named, Spare.AreOnce};

use crate::repointing::repointed;
use crate::used::mark_one;
use ods_base::Image;
use ods_header::pointer_at;
use ods_space::Layout;

/// Points retrieval pointer `at` of the first header of this file to the blocks from LBN `to` on. Pointers are counted from 0; its block count stays.
/// These blocks receive the bytes of the old ones and are marked used.
pub(crate) fn move_run(image: &mut Image, layout: &Layout, file: u16, at: usize, to: u32)
    requires can { CanMove image.old layout.now file }
    requires inside { at < used_words_of (header_at image.old layout.now file) / 2 }
    requires free { (x : ℕ) → to ≤ x → x < to + (run_named image.old layout.now file at).count → is_free_block image.old layout.now x ≡ true }
    ensures { IsMoved image.old layout.now file at to image.new }
{
    let Some(place) = layout.place(file) else {
        return;
    };
    let _ = image.len();
    let block = *image.block(place);
    let run = pointer_at(&block, at);
    copy_blocks(image, run.lbn, to, run.count);
    mark_blocks(image, layout, to, run.count);
    image.set_block(place, repointed(&block, at, to));
}

/// Copies so many blocks, from this LBN on to that one on.
fn copy_blocks(image: &mut Image, from: u32, to: u32, count: u16)
    requires inside { from + count ≤ length image.old }
    requires room { to + count ≤ length image.old }
    requires apart { (k j : ℕ) → k < count → j < count → to + k ≢ from + j }
    ensures { IsCopied image.old from to count image.new }
{
    // An image has few blocks.
    let _ = image.len();
    for k in 0..count as u32 {
        let block = *image.block(from + k);
        image.set_block(to + k, block);
    }
}

/// Marks so many blocks as used, from this LBN on, as far as the storage bitmap covers them.
fn mark_blocks(image: &mut Image, layout: &Layout, lbn: u32, count: u16)
    requires room { lbn + count ≤ length image.old }
    requires inside { All (λ b. b < length image.old) layout.now.bitmap }
    requires once { AreOnce layout.now.bitmap }
    ensures { MarksBlocks image.old layout.now (range_with_len lbn count) false image.new }
{
    let _ = image.len();
    for k in 0..count as u32 {
        mark_one(image, layout, lbn + k);
    }
}
