//! The changed blocks of an image: the seat of each, and its bytes.
ghost use Rattle.std.specs.Prelude.{◌≡◌, ◌+◌, ◌^◌, ◌<◌, ◌≤◌, ℕ, List, length, slice_index, slice_set};
ghost use Rattle.std.specs.Vec.{vec_capacity};
ghost use Rattle.ods_base.specs.{Block.zeros, Overlay.overlaid, Overlay.IsOverlay, Overlay.HasReached};

use crate::Block;

/// Where the block at this LBN stands among the own ones, counted from 1; 0 for one that did not change.
pub(crate) fn seat_of(seats: &[u32], at: usize) -> usize
    ensures { result ≡ slice_index seats.now at }
{
    if at < seats.len() {
        seats[at] as usize
    } else {
        0
    }
}

/// The block at this LBN of an image of so many blocks becomes this one. There is room for each of them to be changed, so no memory is taken.
pub(crate) fn put_block(
    seats: &mut Vec<u32>,
    own: &mut Vec<Block>,
    count: u32,
    at: usize,
    block: &Block,
)
    requires inside { at < count }
    requires small { count ≤ 2 ^ 20 }
    requires seat_room { count ≤ vec_capacity seats.old }
    requires room { count < vec_capacity own.old }
    requires overlay { IsOverlay count seats.old.items own.old.items }
    ensures seat_room { vec_capacity seats.new ≡ vec_capacity seats.old }
    ensures room { vec_capacity own.new ≡ vec_capacity own.old }
    ensures overlay { IsOverlay count seats.new.items own.new.items }
    ensures changed { (B : List (List ℕ)) → overlaid B seats.new.items own.new.items ≡ slice_set (overlaid B seats.old.items own.old.items) at block.now }
{
    let _ = count;
    reach(seats, at);
    let seat = seats[at] as usize;
    if seat < 2 {
        own.push_reserved(*block);
        seats[at] = own.len() as u32;
    } else {
        own[seat - 1] = *block;
    }
}

/// Makes the block at this LBN of an image of so many blocks zeros. They are those of seat 1 if the block has no seat of its own.
pub(crate) fn put_zeros(seats: &mut Vec<u32>, own: &mut Vec<Block>, count: u32, at: usize)
    requires inside { at < count }
    requires seat_room { count ≤ vec_capacity seats.old }
    requires overlay { IsOverlay count seats.old.items own.old.items }
    ensures seat_room { vec_capacity seats.new ≡ vec_capacity seats.old }
    ensures room { vec_capacity own.new ≡ vec_capacity own.old }
    ensures overlay { IsOverlay count seats.new.items own.new.items }
    ensures changed { (B : List (List ℕ)) → overlaid B seats.new.items own.new.items ≡ slice_set (overlaid B seats.old.items own.old.items) at zeros }
{
    let _ = count;
    reach(seats, at);
    let seat = seats[at] as usize;
    if seat < 2 {
        seats[at] = 1;
    } else {
        own[seat - 1] = Block::zeros();
    }
}

/// The seats go on with zeros up to this one.
fn reach(seats: &mut Vec<u32>, at: usize)
    requires { at < vec_capacity seats.old }
    ensures room { vec_capacity seats.new ≡ vec_capacity seats.old }
    ensures reached { at < length seats.new.items }
    ensures same { HasReached (at + 1) seats.old.items seats.new.items }
{
    for _k in seats.len()..at + 1 {
        seats.push_reserved(0);
    }
}
