//! The keys of all candidates of an image in ascending order, built in one pass, and the LBNs in them.
ghost use Rattle.std.specs.Prelude.{◌≡◌, ◌+◌, ◌<◌, ◌⊎◌, ◌^◌, [], ◌∷◌, ◌++◌, length, map, IfOk, OnOk};
ghost use Rattle.std.specs.List.{filter};
ghost use Rattle.ods_remains.specs.{Candidates.IsCandidate, Keys.key_of, Keys.place_in_chain as place_of_numbers, Keys.place_of, Keys.lbn_in, Keys.is_first_key, Keys.AreKeysBelow, Keys.IsIndexOf};

use crate::candidates::is_candidate;
use ods_base::{Block, Image};
use ods_header::{file_number, file_sequence, segment};
use std::alloc::{AllocError, Global};

/// The number of LBNs that a key distinguishes: the blocks of the largest image.
pub(crate) const LBNS: u64 = 1_048_576;

/// Packs the number, sequence number and segment of a header into one number.
pub(crate) fn place_in_chain(number: u16, sequence: u16, segment: u8) -> u64
    ensures value { result ≡ place_of_numbers number sequence segment }
    ensures small { result < 2 ^ 40 }
{
    16_777_216 * number as u64 + 256 * sequence as u64 + segment as u64
}

/// Puts the key of this block behind these, where it is a candidate.
fn push_candidate(keys: &mut Vec<u64>, block: &Block, lbn: u32) -> Result<(), AllocError>
    ensures { OnOk result ((IsCandidate block.now × (keys.new.items ≡ keys.old.items ++ key_of (place_of block.now) lbn ∷ []))
        ⊎ ((¬ IsCandidate block.now) × (keys.new.items ≡ keys.old.items))) }
{
    if is_candidate(block) {
        let place = place_in_chain(file_number(block), file_sequence(block), segment(block));
        keys.push(LBNS * place + lbn as u64)?;
    }
    Ok(())
}

/// The keys of the candidates of an image, in the order of their LBNs.
fn find_keys(alloc: Global, image: &Image) -> Result<Vec<u64>, AllocError>
    ensures { IfOk result (λ keys. AreKeysBelow image.now (length image.now) keys.items) }
{
    let mut keys = Vec::new(alloc);
    for lbn in 0..image.len() {
        push_candidate(&mut keys, image.block(lbn), lbn)?;
    }
    Ok(keys)
}

/// Returns the keys of all candidates of an image, in ascending order.
pub(crate) fn index(alloc: Global, image: &Image) -> Result<Vec<u64>, AllocError>
    ensures { IfOk result (λ keys. IsIndexOf image.now keys.items) }
{
    // An image has few blocks.
    let _ = image.len();
    let mut keys = find_keys(alloc, image)?;
    keys.sort_unstable();
    Ok(keys)
}

/// Appends the LBNs in the keys to `lbns`.
pub(crate) fn push_lbns(lbns: &mut Vec<u32>, keys: &[u64]) -> Result<(), AllocError>
    ensures { OnOk result (lbns.new.items ≡ lbns.old.items ++ map lbn_in keys.now) }
{
    for key in keys {
        lbns.push((*key % LBNS) as u32)?;
    }
    Ok(())
}

/// Appends the LBNs in the keys of first headers to `firsts`.
pub(crate) fn push_first_lbns(firsts: &mut Vec<u32>, keys: &[u64]) -> Result<(), AllocError>
    ensures { OnOk result (firsts.new.items ≡ firsts.old.items ++ map lbn_in (filter is_first_key keys.now)) }
{
    for key in keys {
        if *key / LBNS % 256 == 0 {
            firsts.push((*key % LBNS) as u32)?;
        }
    }
    Ok(())
}
