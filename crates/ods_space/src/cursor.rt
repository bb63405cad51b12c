//! Cursors over a file with a whole chain: its runs and its blocks in order, from the first on. They allocate no memory.
ghost use Rattle.std.specs.Prelude.{◌≡◌};
ghost use Rattle.ods_space.specs.{Chain.IsChain, Files.IsLayoutOf};

use crate::Disk;
use crate::whole_chain::ChainHeaders;
use ods_base::Block;
use ods_header::{Run, pointer_at, pointer_count};
use std::marker::Model;

/// The runs of a chain, header after header. A contract sees the LBNs that are still to come.
#[derive(Drop)]
pub struct ChainRuns<'a> {
    /// The headers after the present one.
    headers: ChainHeaders<'a>,
    /// The present header, with its next pointer.
    header: &'a Block,
    pointer: usize,
}

impl<'a> Model for ChainRuns<'a> {
    ghost use Rattle.std.specs.Prelude.{◌≤◌, ◌++◌, ℕ, List, length, drop};
    ghost use Rattle.std.specs.List.{flat_map};
    ghost use Rattle.ods_header.specs.Header.{IsLaidOut, runs_of, run_blocks};
    ghost use Rattle.ods_space.specs.Chain.{named_by};

    ghost Value = { List ℕ };

    ghost view = { λ r. flat_map run_blocks (drop r.pointer (runs_of r.header.now)) ++ named_by r.headers };

    ghost invariant = { λ r. IsLaidOut r.header.now × (r.pointer ≤ length (runs_of r.header.now)) };
}

impl<'a> ChainRuns<'a> {
    ghost use Rattle.std.specs.Prelude.{◌≡◌, [], ◌++◌, ℕ, List, IfSome, IfNone};
    ghost use Rattle.ods_header.specs.Header.{IsRun, run_blocks};
    ghost use Rattle.ods_space.specs.{Chain.IsChain, Chain.headers_of, Chain.named_by, Files.IsLayoutOf};
    ghost use Rattle.ods_space.specs.Disks.{header_on, on, seen};

    /// Makes a cursor over the runs of the chain with this first header.
    pub fn from(disk: &Disk<'a>, number: u16, first: &'a Block) -> Self
        requires layout { on IsLayoutOf disk.now }
        requires chain { (others : List ℕ) × (blocks : List ℕ) × on IsChain disk.now number others blocks }
        requires first { first.now ≡ header_on disk.now number }
        ensures { result ≡ named_by (seen headers_of disk.now number) }
    {
        // The blocks of an image have bytes, so a chain has at most 256 headers.
        let _ = disk.image.len();
        let headers = ChainHeaders::from(disk, number, first);
        // As if the pointers of a header before the first had come.
        Self {
            headers,
            header: first,
            pointer: pointer_count(first),
        }
    }

    /// Returns the next run, or `None` after the last one.
    pub fn next(&mut self) -> Option<Run>
        ensures some { IfSome result (λ run. IsRun run × (self.old ≡ run_blocks run ++ self.new)) }
        ensures none { IfNone result (self.old ≡ []) }
    {
        while self.pointer == pointer_count(self.header) {
            let Some((_, header)) = self.headers.next() else {
                return None;
            };
            self.header = header;
            self.pointer = 0;
        }
        let run = pointer_at(self.header, self.pointer);
        self.pointer += 1;
        Some(run)
    }
}

/// The blocks of a chain, run after run. A contract sees the LBNs that are still to come. A cursor allocates no memory.
#[derive(Drop)]
pub struct BlockCursor<'a> {
    /// The runs after the present one.
    runs: ChainRuns<'a>,
    /// The next block of the present run, and the number of blocks that it still has.
    lbn: u32,
    left: u32,
}

impl<'a> Model for BlockCursor<'a> {
    ghost use Rattle.std.specs.Prelude.{◌+◌, ◌^◌, ◌<◌, ◌++◌, ℕ, List};
    ghost use Rattle.std.specs.List.{range_with_len};

    ghost Value = { List ℕ };

    ghost view = { λ c. range_with_len c.lbn c.left ++ c.runs };

    ghost invariant = { λ c. c.lbn + c.left < 2 ^ 32 };
}

impl<'a> BlockCursor<'a> {
    ghost use Rattle.std.specs.Prelude.{◌≡◌, [], ◌∷◌, ℕ, List, IfSome, IfNone};
    ghost use Rattle.ods_space.specs.{Chain.IsChain, Chain.headers_of, Chain.named_by, Files.IsLayoutOf};
    ghost use Rattle.ods_space.specs.Disks.{header_on, on, seen};

    /// Makes a cursor over the blocks of the chain with this first header.
    pub fn from(disk: &Disk<'a>, number: u16, first: &'a Block) -> Self
        requires layout { on IsLayoutOf disk.now }
        requires chain { (others : List ℕ) × (blocks : List ℕ) × on IsChain disk.now number others blocks }
        requires first { first.now ≡ header_on disk.now number }
        ensures { result ≡ named_by (seen headers_of disk.now number) }
    {
        let runs = ChainRuns::from(disk, number, first);
        Self {
            runs,
            lbn: 0,
            left: 0,
        }
    }

    /// Returns the LBN of the next block, or `None` after the last one.
    pub fn next(&mut self) -> Option<u32>
        ensures some { IfSome result (λ lbn. self.old ≡ lbn ∷ self.new) }
        ensures none { IfNone result (self.old ≡ []) }
    {
        let lbn = self.lbn;
        if self.left > 0 {
            self.lbn = lbn + 1;
            self.left -= 1;
            return Some(lbn);
        }
        let Some(run) = self.runs.next() else {
            return None;
        };
        self.lbn = run.lbn + 1;
        self.left = run.count as u32 - 1;
        Some(run.lbn)
    }
}
