//! The used entries of a directory as rows, and the order of their keys.
ghost use Rattle.std.specs.Prelude.{ℕ, ◌≡◌, ◌++◌, ◌*◌, ◌<◌, ◌≤◌, length, map, filter, IsTrue, OnOk, IfOk, MatchBool};
ghost use Rattle.std.specs.List.{All, range_with_len};
ghost use Rattle.std.specs.List.Sorted.{IsPermutation};
ghost use Rattle.ods_directory.specs.{Entry.entry_in, Entry.is_used, Entry.used_entries, Lines.line_key, Lines.IsInOrder, Lines.HasTwinNeighbours, Lines.HasNoTwinNeighbours};

use crate::place::ENTRY_WORDS;
use crate::scan::entries_in;
use crate::{DirBlocks, entry};
use ods_base::{Block, Listed, Name, word};
use std::alloc::{AllocError, Global};

/// The data that a pass keeps for a used entry.
pub trait Row: Copy {
    ghost use Rattle.std.specs.Prelude.{◌≡◌, ◌<◌};
    ghost use Rattle.ods_directory.specs.Entry.{Entry, entry_in};

    /// The condition under which an entry has a row.
    ghost fits: { Entry → Type 0 };

    /// The row of an entry.
    ghost row_of: { Entry → Self };

    /// Returns the row of entry `k` of the block.
    fn of(block: &Block, k: usize) -> Self
        requires entry { k < 32 }
        requires fits { fits (entry_in block.now k) }
        ensures { result ≡ row_of (entry_in block.now k) };
}

/// The name, type and version of an entry, as five words. It is a row of any entry.
pub type Key = [u16; 5];

impl Row for Key {
    ghost use Rattle.std.specs.Prelude.{⊤};
    ghost use Rattle.ods_directory.specs.Entry.{Entry};

    ghost fits = { λ (e : Entry). ⊤ };

    ghost row_of = { λ (e : Entry). e.key };

    fn of(block: &Block, k: usize) -> Key {
        [
            word(block, ENTRY_WORDS * k + 3),
            word(block, ENTRY_WORDS * k + 4),
            word(block, ENTRY_WORDS * k + 5),
            word(block, ENTRY_WORDS * k + 6),
            word(block, ENTRY_WORDS * k + 7),
        ]
    }
}

impl Row for Listed {
    ghost use Rattle.ods_directory.specs.{Entry.IsGoodEntry, Lines.line_of};

    ghost fits = { IsGoodEntry };

    ghost row_of = { line_of };

    fn of(block: &Block, k: usize) -> Listed {
        let [one, two, three, ext, version] = Key::of(block, k);
        Listed {
            name: Name::new([one, two, three], ext),
            version,
            file: entry::file(block, k),
        }
    }
}

/// The line of an entry, if it is valid.
impl Row for Option<Listed> {
    ghost use Rattle.std.specs.Prelude.{⊤};
    ghost use Rattle.ods_directory.specs.{Entry.Entry, Lines.good_line};

    ghost fits = { λ (e : Entry). ⊤ };

    ghost row_of = { good_line };

    fn of(block: &Block, k: usize) -> Option<Listed> {
        if entry::is_good(block, k) {
            Some(Listed::of(block, k))
        } else {
            None
        }
    }
}

/// Returns the rows of the used entries before the end mark, in the order of the blocks.
pub fn read_rows<B: DirBlocks, R: Row>(
    alloc: Global,
    blocks: &B,
    mark: u64,
) -> Result<Vec<R>, AllocError>
    requires fit { All R.fits (used_entries (B.blocks blocks.now) mark) }
    requires mark { mark ≤ 512 * length (B.blocks blocks.now) }
    ensures { IfOk result (λ rows. rows.items ≡ map R.row_of (used_entries (B.blocks blocks.now) mark)) }
{
    let mut rows = Vec::new(alloc);
    for i in 0..blocks.count() {
        let count = entries_in(mark, i);
        if count == 0 {
            return Ok(rows);
        }
        push_rows(blocks.block(i), count, &mut rows)?;
    }
    Ok(rows)
}

/// Adds the rows of the used ones among the first `count` entries of a block.
fn push_rows<R: Row>(block: &Block, count: usize, rows: &mut Vec<R>) -> Result<(), AllocError>
    requires count { count ≤ 32 }
    requires fit { (k : ℕ) → k < count → IsTrue (is_used (entry_in block.now k)) → R.fits (entry_in block.now k) }
    ensures { OnOk result (rows.new.items
        ≡ rows.old.items ++ map R.row_of (filter is_used (map (entry_in block.now) (range_with_len 0 count)))) }
{
    for k in 0..count {
        if entry::is_used(block, k) {
            rows.push(R::of(block, k))?;
        }
    }
    Ok(())
}

/// Sorts lines by their keys.
pub fn sort(lines: &mut Vec<Listed>)
    ensures permutation { IsPermutation lines.old.items lines.new.items }
    ensures order { IsInOrder line_key lines.new.items }
{
    lines.sort_unstable_by_key(key);
}

/// The key of a line.
fn key(line: &Listed) -> Key
    ensures { result ≡ line_key line.now }
{
    let words = line.name.words();
    [words[0], words[1], words[2], line.name.ext(), line.version]
}
