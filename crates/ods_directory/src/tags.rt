//! Tags of entries: 16 bits each. With them a pass skips most blocks that have no entry for it.
ghost use Rattle.std.specs.Prelude.{◌≡◌, ◌≢◌, ◌<◌, ℕ, false, slice_index};
ghost use Rattle.std.specs.List.{All};
ghost use Rattle.ods_base.specs.Name.{IsName};
ghost use Rattle.ods_directory.specs.{Entry.entry_in, Tags.block_tags, Tags.name_tag, Tags.tag_by, Tags.tag_of, Tags.wants};

use crate::entry;
use crate::place::ENTRY_WORDS;
use ods_base::{Block, Name, word};

/// The tags of the entries of a block.
pub type Tags = [u16; 32];

/// The entries that a pass needs: all, or the entries with one of two tags.
#[derive(Clone, Copy, Debug, PartialEq, Eq)]
pub struct Wanted {
    pub all: bool,
    pub one: u16,
    pub other: u16,
}

/// The tag of a name with these words and this type.
#[tactic(auto, unfolding(crate::specs::Tags::tag_by))]
fn tag_by(first: u16, second: u16, third: u16, ext: u16) -> u16
    ensures { result ≡ tag_by first second third ext }
{
    let mixed = u32::from(first)
        + 331 * u32::from(second)
        + 4093 * u32::from(third)
        + 8191 * u32::from(ext);
    (mixed % 65535 + 1) as u16
}

/// The tag of a name.
pub(crate) fn name_tag(name: &Name) -> u16
    ensures tag { result ≡ name_tag name.now }
    ensures name { IsName name.now }
{
    let words = name.words();
    tag_by(words[0], words[1], words[2], name.ext())
}

/// The tag of entry `k` of the block.
fn tag_of(block: &Block, k: usize) -> u16
    requires { k < 32 }
    ensures { result ≡ tag_of (entry_in block.now k) }
{
    if !entry::is_used(block, k) {
        return 0;
    }
    tag_by(
        word(block, ENTRY_WORDS * k + 3),
        word(block, ENTRY_WORDS * k + 4),
        word(block, ENTRY_WORDS * k + 5),
        word(block, ENTRY_WORDS * k + 6),
    )
}

/// Returns the tags of the entries of a block.
pub fn block_tags(block: &Block) -> Tags
    ensures { result ≡ block_tags block.now }
{
    let mut tags = [0; 32];
    for k in 0..32usize {
        tags[k] = tag_of(block, k);
    }
    tags
}

/// Whether one of these tags is this one. Each is looked at, with no early end, so that several are compared at once.
#[inline(always)]
fn has_tag(tags: &Tags, tag: u16) -> bool
    ensures { result ≡ false → (k : ℕ) → k < 32 → slice_index tags.now k ≢ tag }
{
    let mut found = false;
    for k in 0..32usize {
        found |= tags[k] == tag;
    }
    found
}

/// Whether a block with these tags may have an entry that is wanted.
#[inline(always)]
pub(crate) fn has_wanted(tags: &Tags, wanted: Wanted) -> bool
    ensures { result ≡ false → All (λ tag. wants wanted tag ≡ false) tags.now }
{
    if wanted.all {
        return true;
    }
    if has_tag(tags, wanted.one) {
        return true;
    }
    if wanted.other == wanted.one {
        return false;
    }
    has_tag(tags, wanted.other)
}
