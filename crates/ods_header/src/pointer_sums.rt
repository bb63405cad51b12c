//! The number of blocks that the pointers of a header map, added in units of four bytes.
ghost use Rattle.std.specs.Prelude.{◌≡◌, ◌*◌, ◌≤◌, length};
ghost use Rattle.ods_header.specs.Header.{IsLaidOut, blocks_of, runs_of};

use crate::header::HEADER_POINTERS;
use crate::map_area::pointer_count;
use ods_base::Block;

/// Returns the number of blocks that the retrieval pointers of a header map, at most 26,112. A full header has its own loop, whose length is known at
/// compile time, because most headers of a long chain are full.
pub fn pointer_sum(header: &Block) -> u32
    requires { IsLaidOut header.now }
    ensures count { result ≡ length (blocks_of header.now) }
    ensures few { result ≤ 256 * 102 }
{
    let count = pointer_count(header);
    if count == HEADER_POINTERS {
        return sum_of(header, HEADER_POINTERS);
    }
    sum_of(header, count)
}

/// How many blocks the pointers of a header name that has so many. The loop goes over whole words, so that it becomes vector code.
fn sum_of(header: &Block, count: usize) -> u32
    requires layout { IsLaidOut header.now }
    requires pointers { count ≡ length (runs_of header.now) }
    ensures count { result ≡ length (blocks_of header.now) }
    ensures few { result ≤ 256 * 102 }
{
    let at = 2 * header.byte(1) as usize + 10;
    let bytes = header.bytes();
    let (pointers, _) = bytes[at..at + 4 * count].as_chunks::<4>();
    let mut sum = 0;
    // The second byte of a pointer is its count less one. It is added where it stands, as 256 times its value.
    for pointer in pointers {
        let low = u32::from_le_bytes(*pointer) % 65536;
        sum += low - low % 256;
    }
    sum / 256 + count as u32
}
