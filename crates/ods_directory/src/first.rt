//! The first entry of a kind.
ghost use Rattle.std.specs.Prelude.{◌≡◌, ◌*◌, ◌/◌, ◌<◌, ◌≤◌, length};
ghost use Rattle.ods_directory.specs.{Entry.entry_at, Entry.entry_in, First.IsFirst};

use crate::scan::{Pass, scan};
use crate::tags::Wanted;
use crate::{DirBlocks, entry};
use ods_base::Block;

/// The kind of an entry to search for.
#[derive(Clone, Copy, Debug, PartialEq, Eq)]
pub enum Kind {
    /// An entry that names no file.
    Empty,
    /// An entry that names a file and is not valid.
    Bad,
    /// An entry that names a file.
    Used,
}

/// The position of the first entry of a kind, as far as the pass has read.
#[derive(Clone, Copy, Debug, PartialEq, Eq)]
pub struct First {
    pub kind: Kind,
    pub position: Option<u64>,
}

impl First {
    /// Starts a search without a position.
    pub fn of(kind: Kind) -> First
        ensures { result ≡ record { kind = kind; position = None } }
    {
        First {
            kind,
            position: None,
        }
    }

    ghost use Rattle.ods_directory.specs.First.{is_kind};

    /// Whether entry `at` of the block is of the kind.
    fn is_kind(&self, block: &Block, at: usize) -> bool
        requires { at < 32 }
        ensures { result ≡ is_kind self.now.kind (entry_in block.now at) }
    {
        match self.kind {
            Kind::Empty => !entry::is_used(block, at),
            Kind::Bad => entry::is_used(block, at) && !entry::is_good(block, at),
            Kind::Used => entry::is_used(block, at),
        }
    }
}

impl Pass for First {
    ghost use Rattle.ods_directory.specs.First.{first_after};

    ghost after = { first_after };

    fn take(&mut self, block: &Block, at: usize, k: u64) {
        if self.position.is_none() && self.is_kind(block, at) {
            self.position = Some(k);
        }
    }

    fn is_done(&self) -> bool {
        self.position.is_some()
    }

    fn wanted(&self) -> Wanted {
        // An empty entry has the tag 0.
        match self.kind {
            Kind::Empty => Wanted {
                all: false,
                one: 0,
                other: 0,
            },
            Kind::Bad | Kind::Used => Wanted {
                all: true,
                one: 0,
                other: 0,
            },
        }
    }
}

/// Returns the position of the first entry of this kind before the end mark, or `None` if there is none.
pub fn first_entry<B: DirBlocks>(blocks: &B, mark: u64, kind: Kind) -> Option<u64>
    requires { mark ≤ 512 * length (B.blocks blocks.now) }
    ensures { IsFirst kind (entry_at (B.blocks blocks.now)) (mark / 16) result }
{
    let mut first = First::of(kind);
    scan(blocks, mark, &mut first);
    first.position
}
