//! The entries of a block, read in place.
ghost use Rattle.std.specs.Prelude.{◌≡◌, ◌<◌};
ghost use Rattle.ods_base.specs.Names.{is_of, version_of};
ghost use Rattle.ods_directory.specs.Entry.{entry_in, is_used, is_good};

use crate::place::ENTRY_WORDS;
use ods_base::{Block, FileId, LAST_VERSION, Name, word};

/// How many words spell three characters in Radix-50.
const WORDS: u16 = 64_000;

/// Returns whether entry `k` of the block names a file.
pub fn is_used(block: &Block, k: usize) -> bool
    requires { k < 32 }
    ensures { result ≡ is_used (entry_in block.now k) }
{
    word(block, ENTRY_WORDS * k) != 0
}

/// Returns the file that entry `k` of the block names.
pub fn file(block: &Block, k: usize) -> FileId
    requires { k < 32 }
    ensures { result ≡ (entry_in block.now k).file }
{
    let number = word(block, ENTRY_WORDS * k);
    let sequence = word(block, ENTRY_WORDS * k + 1);
    FileId { number, sequence }
}

/// Returns the version in entry `k` of the block.
pub fn version(block: &Block, k: usize) -> u16
    requires { k < 32 }
    ensures { result ≡ version_of (entry_in block.now k).key }
{
    word(block, ENTRY_WORDS * k + 7)
}

/// Returns whether entry `k` of the block has this name.
pub fn is_of(block: &Block, k: usize, name: &Name) -> bool
    requires { k < 32 }
    ensures { result ≡ is_of name.now (entry_in block.now k).key }
{
    let words = name.words();
    word(block, ENTRY_WORDS * k + 3) == words[0]
        && word(block, ENTRY_WORDS * k + 4) == words[1]
        && word(block, ENTRY_WORDS * k + 5) == words[2]
        && word(block, ENTRY_WORDS * k + 6) == name.ext()
}

/// Returns whether entry `k` of the block is valid for a used entry.
pub fn is_good(block: &Block, k: usize) -> bool
    requires { k < 32 }
    ensures { result ≡ is_good (entry_in block.now k) }
{
    let version = version(block, k);
    word(block, ENTRY_WORDS * k + 3) < WORDS
        && word(block, ENTRY_WORDS * k + 4) < WORDS
        && word(block, ENTRY_WORDS * k + 5) < WORDS
        && word(block, ENTRY_WORDS * k + 6) < WORDS
        && 1 <= version
        && version <= LAST_VERSION
        && word(block, ENTRY_WORDS * k + 2) == 0
}
