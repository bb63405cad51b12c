//! One walk along an unchecked chain. Each header is checked before it is noted.
ghost use Rattle.std.specs.Prelude.{◌≡◌, ◌+◌, ◌<◌, ◌≤◌, [], ℕ, List, length, IfSome, IfNone, IfOk, MatchBool};
ghost use Rattle.ods_header.specs.Header.{map_word, next_number_of};
ghost use Rattle.ods_space.specs.{Layout.header_by, Chain.IsSegment, Chain.Follows, Chain.chain_blocks, Chain.known, Chain.most as most_of, Reach.Reaches, Walk.IsLink};

use crate::bits::is_used;
use crate::headers::block_by;
use ods_base::{Block, Image};
use ods_header::{Home, file_sequence, is_valid_header, next_number, next_sequence, next_volume};

/// What a walk notes of the blocks that the headers of a chain name.
pub(crate) trait Notes {
    ghost use Rattle.std.specs.Prelude.{◌≡◌, ◌+◌, ◌*◌, ◌≤◌, ◌++◌, ℕ, List, length, Option, OnOk};
    ghost use Rattle.ods_header.specs.Header.{IsLaidOut, blocks_of};
    ghost use Rattle.ods_space.specs.Chain.{known as known_of, most as most_of, chain_blocks};

    /// Why it cannot note a header.
    type Full: Drop;

    /// The blocks of INDEXF.SYS, or none where it is they that are noted.
    ghost placed_by: { Self → Option (List ℕ) };

    /// Since it was as it was at the start of the walk it has noted these blocks, in this order.
    ghost has: { Self → Self → List ℕ → Type 0 };

    /// The blocks of INDEXF.SYS by which the next header is placed.
    fn known_index(&self) -> &[u32]
        ensures { (start : Self) (blocks : List ℕ) → has start self.now blocks → result.now ≡ known_of (placed_by start) blocks };

    /// The greatest number that the next header may have.
    fn most(&self, home: &Home) -> u16
        ensures { (start : Self) (blocks : List ℕ) → has start self.now blocks → result ≡ most_of home.now (placed_by start) blocks };

    /// Notes the blocks of one header more.
    fn note(&mut self, block: &Block) -> Result<(), Self::Full>
        requires layout { IsLaidOut block.now }
        requires fits { (start : Self) × (blocks : List ℕ) × has start self.old blocks × (length blocks ≤ chain_blocks) }
        ensures { OnOk result ((start : Self) (blocks : List ℕ) → has start self.old blocks → has start self.new (blocks ++ blocks_of block.now)) };
}

/// Whether from header `number` on there is a chain. Its blocks are noted, from its first header to its last.
pub(crate) fn walk<N: Notes>(
    image: &Image,
    home: &Home,
    number: u16,
    notes: &mut N,
) -> Result<bool, N::Full>
    requires { N.has notes.old notes.old [] }
    ensures whole { IfOk result (λ whole. MatchBool whole
        ((others : List ℕ) × (blocks : List ℕ) × Follows image.now home.now (N.placed_by notes.old) [] 0 number others blocks × N.has notes.old notes.new blocks)
        ((others blocks : List ℕ) → ¬ Follows image.now home.now (N.placed_by notes.old) [] 0 number others blocks)) }
    // Where the first header is there, the blocks are noted of each that is.
    ensures reached { IfOk result (λ whole. IsSegment image.now home.now (known (N.placed_by notes.old) []) (most_of home.now (N.placed_by notes.old) []) number 0
        → (blocks : List ℕ) × Reaches image.now home.now (N.placed_by notes.old) number blocks whole × N.has notes.old notes.new blocks × (length blocks ≤ chain_blocks)) }
{
    // The blocks of an image have bytes, so a header names few blocks.
    let _ = image.len();
    let Some(first) = segment_block(
        image,
        home,
        notes.known_index(),
        notes.most(home),
        number,
        0,
    ) else {
        return Ok(false);
    };
    let mut block = first;
    for segment in 0..256 {
        if let Err(full) = notes.note(block) {
            return Err(full);
        }
        if next_number(block) == 0 {
            return Ok(true);
        }
        let most = notes.most(home);
        let Some(next) = next_block(image, home, notes.known_index(), most, block, segment + 1)
        else {
            return Ok(false);
        };
        block = next;
    }
    Ok(false)
}

/// The block of header `number`, where its index bit is set and it is a valid header of this segment of its chain. `index` has the
/// blocks of INDEXF.SYS, and `most` is the greatest number.
pub(crate) fn segment_block<'a>(
    image: &'a Image,
    home: &Home,
    index: &[u32],
    most: u16,
    number: u16,
    segment: u16,
) -> Option<&'a Block>
    ensures some { IfSome result (λ block. IsSegment image.now home.now index.now most number segment
        × (block.now ≡ header_by image.now home.now index.now number) × (segment < 256)) }
    ensures none { IfNone result (¬ IsSegment image.now home.now index.now most number segment) }
{
    if number == 0 || most < number || !is_used(image, home, number) {
        return None;
    }
    let block = block_by(image, home, index, number)?;
    if is_valid_header(block, number) && ods_header::segment(block) as u16 == segment {
        Some(block)
    } else {
        None
    }
}

/// The block of the next header, if this one names it by its sequence number and it is this segment of the chain.
pub(crate) fn next_block<'a>(
    image: &'a Image,
    home: &Home,
    index: &[u32],
    most: u16,
    block: &Block,
    segment: u16,
) -> Option<&'a Block>
    requires { map_word block.now ≤ 250 }
    ensures some { IfSome result (λ next. IsLink image.now home.now index.now most block.now segment
        × (next.now ≡ header_by image.now home.now index.now (next_number_of block.now)) × (segment < 256)) }
    ensures none { IfNone result (¬ IsLink image.now home.now index.now most block.now segment) }
{
    if next_volume(block) != 0 {
        return None;
    }
    let next = segment_block(image, home, index, most, next_number(block), segment)?;
    if file_sequence(next) == next_sequence(block) {
        Some(next)
    } else {
        None
    }
}
