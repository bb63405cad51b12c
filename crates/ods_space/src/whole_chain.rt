//! Chains that are known to be whole, as in a sound image. No header is checked again.
ghost use Rattle.std.specs.Prelude.{◌≡◌, ◌≢◌, ℕ, List, length, IfSome, IfNone};
ghost use Rattle.ods_space.specs.{Chain.IsChain, Files.HasBlocks, Files.Holds, Files.IsLayoutOf};
ghost use Rattle.ods_space.specs.Disks.{header_on, on};

use crate::Disk;
use crate::headers::header_block;
use crate::mapped::mapped_block;
use ods_base::Block;
use ods_header::{next_number, pointer_sum};
use std::marker::Model;

/// The headers of a chain, in order. A contract sees the headers that are still to come, each with its number. The chain is known to be whole, so no
/// header is checked again.
#[derive(Drop)]
pub struct ChainHeaders<'a> {
    disk: Disk<'a>,
    /// The next header, 0 if there is none, and its block.
    number: u16,
    block: &'a Block,
    /// The most headers that can still come.
    left: u16,
}

impl<'a> Model for ChainHeaders<'a> {
    ghost use Rattle.std.specs.Prelude.{◌≡◌, ◌≢◌, ℕ, List};
    ghost use Rattle.ods_space.specs.{Layout.header_at, Chain.headers_along, Chain.AreValid};

    ghost Value = { List (ℕ × List ℕ) };

    ghost view = { λ h. headers_along h.disk.image.now h.disk.layout.now h.left h.number };

    ghost invariant = { λ h. (h.number ≢ 0 → h.block.now ≡ header_at h.disk.image.now h.disk.layout.now h.number)
        × AreValid (headers_along h.disk.image.now h.disk.layout.now h.left h.number) };
}

impl<'a> ChainHeaders<'a> {
    ghost use Rattle.std.specs.Prelude.{◌≡◌, [], ◌∷◌, ℕ, List, IfSome, IfNone};
    ghost use Rattle.ods_header.specs.Header.{IsValidHeader};
    ghost use Rattle.ods_space.specs.{Chain.IsChain, Chain.headers_of, Files.IsLayoutOf};
    ghost use Rattle.ods_space.specs.Disks.{header_on, on, seen};

    /// Makes a cursor over the headers of the chain of this file.
    pub fn of(disk: &Disk<'a>, number: u16) -> Self
        requires layout { on IsLayoutOf disk.now }
        requires chain { (others : List ℕ) × (blocks : List ℕ) × on IsChain disk.now number others blocks }
        ensures { result ≡ seen headers_of disk.now number }
    {
        // The blocks of an image have bytes, so a chain has at most 256 headers.
        let _ = disk.image.len();
        let first = header_block(disk, number).unwrap();
        ChainHeaders::from(disk, number, first)
    }

    /// Makes a cursor over the headers of the chain with this first header.
    pub fn from(disk: &Disk<'a>, number: u16, first: &'a Block) -> Self
        requires layout { on IsLayoutOf disk.now }
        requires chain { (others : List ℕ) × (blocks : List ℕ) × on IsChain disk.now number others blocks }
        requires first { first.now ≡ header_on disk.now number }
        ensures { result ≡ seen headers_of disk.now number }
    {
        // The blocks of an image have bytes, so a chain has at most 256 headers.
        let _ = disk.image.len();
        Self {
            disk: *disk,
            number,
            block: first,
            left: 256,
        }
    }

    /// Makes an empty cursor, past the last header of a chain. `last` is any header of the chain.
    pub fn none(disk: &Disk<'a>, last: &'a Block) -> Self
        ensures { result ≡ [] }
    {
        Self {
            disk: *disk,
            number: 0,
            block: last,
            left: 0,
        }
    }

    /// Returns the next header and its number, or `None` after the last one.
    pub fn next(&mut self) -> Option<(u16, &'a Block)>
        ensures some { IfSome result (λ h. (self.old ≡ (h.0, h.1.now) ∷ self.new) × IsValidHeader h.1.now h.0) }
        ensures none { IfNone result (self.old ≡ []) }
    {
        if self.number == 0 || self.left == 0 {
            return None;
        }
        let header = (self.number, self.block);
        self.left -= 1;
        self.number = next_number(self.block);
        match header_block(&self.disk, self.number) {
            Some(block) => self.block = block,
            None => self.number = 0,
        }
        Some(header)
    }
}

/// Returns the LBN of one block of a file with a whole chain, counted from 1, or `None` if there is no such block. The file is not INDEXF.SYS, and
/// `first` is its first header. It skips headers before the block by the counts of their pointers.
pub fn locate_whole(disk: &Disk<'_>, number: u16, first: &Block, vbn: u32) -> Option<u32>
    requires layout { on IsLayoutOf disk.now }
    requires other { number ≢ 1 }
    requires whole { (blocks : List ℕ) × on HasBlocks disk.now number blocks }
    requires first { first.now ≡ header_on disk.now number }
    ensures found { IfSome result (on Holds disk.now number vbn) }
    ensures none { IfNone result ((lbn : ℕ) → ¬ on Holds disk.now number vbn lbn) }
{
    // The blocks of an image have bytes, so a chain names few blocks.
    let _ = disk.image.len();
    if vbn == 0 {
        return None;
    }
    let mut index = vbn - 1;
    let mut headers = ChainHeaders::from(disk, number, first);
    while let Some((_, header)) = headers.next() {
        let count = pointer_sum(header);
        if index < count {
            return mapped_block(header, index);
        }
        index -= count;
    }
    None
}

/// Returns the number of blocks of a file with a whole chain. The file is not INDEXF.SYS, and `first` is its first header.
pub fn count_whole(disk: &Disk<'_>, number: u16, first: &Block) -> u32
    requires layout { on IsLayoutOf disk.now }
    requires other { number ≢ 1 }
    requires whole { (blocks : List ℕ) × on HasBlocks disk.now number blocks }
    requires first { first.now ≡ header_on disk.now number }
    ensures { (blocks : List ℕ) × on HasBlocks disk.now number blocks × (result ≡ length blocks) }
{
    // The blocks of an image have bytes, so a chain names few blocks.
    let _ = disk.image.len();
    let mut count = 0;
    let mut headers = ChainHeaders::from(disk, number, first);
    while let Some((_, header)) = headers.next() {
        count += pointer_sum(header);
    }
    count
}
