//! The entry that a name with a pick selects.
ghost use Rattle.std.specs.Prelude.{◌≡◌, ◌*◌, ◌/◌, ◌^◌, ◌<◌, ◌≤◌, length};
ghost use Rattle.ods_directory.specs.Entry.{entry_at, entry_in};

use crate::scan::{Pass, scan};
use crate::tags::{Wanted, name_tag};
use crate::{DirBlocks, entry};
use ods_base::{Block, FileId, Name, Pick};

/// An entry of the name: its position in the directory, its file and its version.
#[derive(Clone, Copy, Debug, PartialEq, Eq)]
pub struct Found {
    pub position: u64,
    pub file: FileId,
    pub version: u16,
}

/// The selected entry, as far as the pass has read.
#[derive(Clone, Copy, Debug, PartialEq, Eq)]
pub struct Search {
    pub name: Name,
    pub pick: Pick,
    pub found: Option<Found>,
}

impl Search {
    ghost use Rattle.ods_directory.specs.Search.{is_better};

    /// Starts a search without a result.
    pub fn of(name: Name, pick: Pick) -> Search
        ensures { result ≡ record { name = name; pick = pick; found = None } }
    {
        Search {
            name,
            pick,
            found: None,
        }
    }

    /// Whether a version of the name is meant rather than what is found so far.
    fn is_better(&self, version: u16) -> bool
        ensures { result ≡ is_better self.now.pick self.now.found version }
    {
        match (self.pick, self.found) {
            (Pick::Exact(exact), None) => version == exact,
            (Pick::Exact(_), Some(_)) => false,
            (Pick::Highest, None) => true,
            (Pick::Highest, Some(found)) => found.version < version,
            (Pick::Lowest, None) => true,
            (Pick::Lowest, Some(found)) => version < found.version,
        }
    }
}

impl Pass for Search {
    ghost use Rattle.ods_directory.specs.Search.{search_after};

    ghost after = { search_after };

    fn take(&mut self, block: &Block, at: usize, k: u64) {
        // Most entries have another name, so that is the first test.
        if !entry::is_of(block, at, &self.name) || !entry::is_used(block, at) {
            return;
        }
        let version = entry::version(block, at);
        if self.is_better(version) {
            self.found = Some(Found {
                position: k,
                file: entry::file(block, at),
                version,
            });
        }
    }

    fn is_done(&self) -> bool {
        match self.pick {
            Pick::Exact(_) => self.found.is_some(),
            Pick::Highest | Pick::Lowest => false,
        }
    }

    fn wanted(&self) -> Wanted {
        let tag = name_tag(&self.name);
        Wanted {
            all: false,
            one: tag,
            other: tag,
        }
    }
}

ghost use Rattle.ods_directory.specs.Search.{IsFound};

/// Returns the entry before the end mark that a name with a pick selects, if there is one.
pub fn find_entry<B: DirBlocks>(blocks: &B, mark: u64, name: &Name, pick: Pick) -> Option<Found>
    requires { mark ≤ 512 * length (B.blocks blocks.now) }
    ensures found { IsFound (entry_at (B.blocks blocks.now)) (mark / 16) name.now pick result }
    ensures count { length (B.blocks blocks.now) < 2 ^ 32 }
{
    let mut meant = Search::of(*name, pick);
    scan(blocks, mark, &mut meant);
    meant.found
}
