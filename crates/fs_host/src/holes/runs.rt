//! Runs of pieces that are zeros, or are not.
ghost use Rattle.std.specs.Prelude.{◌≡◌, ◌≤◌, true, length, take};
ghost use Rattle.std.specs.List.{list_all};
ghost use Rattle.fs_host.specs.Compared.{is_zero};
ghost use Rattle.fs_host.specs.Holes.{IsRun, begins_in_zeros as zeros_begin};

use crate::comparing_bytes::are_zeros;

/// The bytes of a piece: a block of most file systems.
const PIECE: usize = 4096;

/// Whether these bytes begin with a whole piece of zeros.
pub fn begins_in_zeros(bytes: &[u8]) -> bool
    ensures { result ≡ zeros_begin 4096 bytes.now }
{
    bytes.len() >= PIECE && are_zeros(&bytes[..PIECE])
}

/// How many bytes at the front are whole pieces of zeros; or else, stand before the first whole piece of zeros.
pub fn run_len(bytes: &[u8], of_zeros: bool) -> usize
    ensures within { result ≤ length bytes.now }
    ensures zeros { of_zeros ≡ true → list_all is_zero (take result bytes.now) ≡ true }
    ensures run { IsRun 4096 bytes.now of_zeros result }
{
    for place in 0..bytes.len().div_ceil(PIECE) {
        if begins_in_zeros(&bytes[PIECE * place..]) != of_zeros {
            return PIECE * place;
        }
    }
    bytes.len()
}
