//! The map area of a header, read in place: its segment, the next header of the chain, and the pointers.
ghost use Rattle.std.specs.Prelude.{◌≡◌, ◌/◌, ◌<◌, ◌≤◌, ◌↔◌, IsTrue, Some, length, slice_get};
ghost use Rattle.ods_header.specs.Header.{IsLaidOut, IsValidHeader, IsRun, map_word, segment_of, next_volume_of, next_number_of, next_sequence_of, used_words_of, most_words_of, room_of, runs_of};

use crate::Run;
use crate::read::{check, pointer};
use ods_base::{Block, word};

/// Returns whether the block is a valid header of this number.
pub fn is_valid_header(block: &Block, number: u16) -> bool
    ensures { IsTrue result ↔ IsValidHeader block.now number }
{
    match check(block, number) {
        Ok(()) => true,
        Err(_) => false,
    }
}

/// Returns M.ESQN, the segment: the index of the header in its chain, from 0.
pub fn segment(block: &Block) -> u8
    ensures { result ≡ segment_of block.now }
{
    block.byte(2 * block.byte(1) as usize)
}

/// Returns M.ERVN, the volume of the next header of the chain, 0 on a single volume.
pub fn next_volume(block: &Block) -> u8
    ensures { result ≡ next_volume_of block.now }
{
    block.byte(2 * block.byte(1) as usize + 1)
}

/// Returns M.EFNU, the number of the next header of the chain, 0 if there is none.
pub fn next_number(block: &Block) -> u16
    requires { map_word block.now ≤ 250 }
    ensures { result ≡ next_number_of block.now }
{
    word(block, block.byte(1) as usize + 1)
}

/// Returns M.EFSQ, the sequence number of the next header of the chain.
pub fn next_sequence(block: &Block) -> u16
    requires { map_word block.now ≤ 250 }
    ensures { result ≡ next_sequence_of block.now }
{
    word(block, block.byte(1) as usize + 2)
}

/// M.USE: the words of pointers in use.
pub(crate) fn used_words(block: &Block) -> u8
    requires { map_word block.now ≤ 250 }
    ensures { result ≡ used_words_of block.now }
{
    block.byte(2 * block.byte(1) as usize + 8)
}

/// M.MAX: the words available for pointers.
pub(crate) fn most_words(block: &Block) -> u8
    requires { map_word block.now ≤ 250 }
    ensures { result ≡ most_words_of block.now }
{
    block.byte(2 * block.byte(1) as usize + 9)
}

/// Returns the number of retrieval pointers in a header.
pub fn pointer_count(block: &Block) -> usize
    requires { IsLaidOut block.now }
    ensures count { result ≡ length (runs_of block.now) }
    ensures few { result ≤ 102 }
{
    used_words(block) as usize / 2
}

/// Returns retrieval pointer `k` of a header, counted from 0.
pub fn pointer_at(block: &Block, k: usize) -> Run
    requires layout { IsLaidOut block.now }
    requires inside { k < length (runs_of block.now) }
    ensures value { slice_get (runs_of block.now) k ≡ Some result }
    ensures run { IsRun result }
{
    let _ = block.bytes();
    pointer(block, block.byte(1) as usize, k)
}

/// Returns the number of words that are free after the pointers of a header.
pub fn room_words(block: &Block) -> usize
    requires { IsLaidOut block.now }
    ensures { result ≡ room_of block.now }
{
    let map = 2 * block.byte(1) as usize;
    let used = used_words(block) as usize;
    let most = most_words(block) as usize;
    most.min((510 - (map + 10)) / 2) - used
}

/// Returns the number of pointers that a header has room for after its own.
pub fn room(block: &Block) -> usize
    requires { IsLaidOut block.now }
    ensures { result ≡ room_of block.now / 2 }
{
    room_words(block) / 2
}
