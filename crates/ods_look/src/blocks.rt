//! The blocks of a directory on the volume, each located by its index in the file, without a list of them.
ghost use Rattle.std.specs.Prelude.{◌≡◌, ◌≢◌, ◌≤◌, ℕ, List, length, IfSome};
ghost use Rattle.ods_space.specs.{Files.IsFile, Files.HasBlocks, Chain.chain_blocks};
ghost use Rattle.ods_mount.specs.{Faults.contents_of, Sound.IsSoundBy};
ghost use Rattle.ods_state.specs.Noted.{AreNamesKnown};

use ods_base::{Block, Image};
use ods_directory::{DirBlocks, Tags};
use ods_space::{BlockCursor, Disk, count_whole, locate_whole};
use ods_state::KnownNames;
use std::marker::Model;

/// The blocks of a file of a sound image, except INDEXF.SYS. A contract sees the list of them.
#[derive(Drop)]
pub struct DirectoryBlocks<'a> {
    disk: Disk<'a>,
    number: u16,
    count: u32,
    /// The first header.
    header: &'a Block,
    /// The notes about the file, if there are any.
    names: Option<&'a KnownNames>,
}

impl<'a> Model for DirectoryBlocks<'a> {
    ghost use Rattle.std.specs.Prelude.{◌≡◌, ◌≢◌, ◌≤◌, ℕ, List, length, IfSome};
    ghost use Rattle.ods_space.specs.{Layout.header_at, Files.HasBlocks, Chain.chain_blocks};
    ghost use Rattle.ods_mount.specs.{Faults.contents_of, Sound.IsSoundBy};
    ghost use Rattle.ods_look.specs.Blocks.{AreInOrder, blocks_in_order};

    ghost Value = { List (List ℕ) };

    ghost view = { λ d. contents_of d.disk.image.now (blocks_in_order d.disk.image.now d.disk.layout.now d.number) };

    ghost invariant = { λ d. IsSoundBy d.disk.image.now d.disk.layout.now
        × HasBlocks d.disk.image.now d.disk.layout.now d.number (blocks_in_order d.disk.image.now d.disk.layout.now d.number)
        × (d.count ≡ length (blocks_in_order d.disk.image.now d.disk.layout.now d.number))
        × (length (blocks_in_order d.disk.image.now d.disk.layout.now d.number) ≤ chain_blocks)
        × (d.header.now ≡ header_at d.disk.image.now d.disk.layout.now d.number)
        × (d.number ≢ 1)
        × IfSome d.names (λ k. AreInOrder d.disk.image.now d.disk.layout.now d.number k.now) };
}

impl<'a> DirectoryBlocks<'a> {
    ghost use Rattle.ods_space.specs.Disks.{header_on, on};

    /// The blocks of the file with this first header.
    pub(crate) fn of(disk: &Disk<'a>, number: u16, header: &'a Block) -> Self
        requires sound { on IsSoundBy disk.now }
        requires file { on IsFile disk.now number }
        requires other { number ≢ 1 }
        requires header { header.now ≡ header_on disk.now number }
        ensures contents { (held : List ℕ) → on HasBlocks disk.now number held → result ≡ contents_of disk.now.image.now held }
        ensures few { length result ≤ chain_blocks }
    {
        // An image has few blocks, and so has a chain.
        let _ = disk.image.len();
        let count = count_whole(disk, number, header);
        DirectoryBlocks {
            disk: *disk,
            number,
            count,
            header,
            names: None,
        }
    }

    /// The same, where something may be noted of the file: then its chain is not gone along.
    pub(crate) fn noted(
        disk: &Disk<'a>,
        number: u16,
        header: &'a Block,
        names: Option<&'a KnownNames>,
    ) -> Self
        requires sound { on IsSoundBy disk.now }
        requires file { on IsFile disk.now number }
        requires other { number ≢ 1 }
        requires header { header.now ≡ header_on disk.now number }
        requires names { IfSome names (λ k. on AreNamesKnown disk.now k.now) }
        ensures contents { (held : List ℕ) → on HasBlocks disk.now number held → result ≡ contents_of disk.now.image.now held }
        ensures few { length result ≤ chain_blocks }
    {
        let Some(known) = names else {
            return DirectoryBlocks::of(disk, number, header);
        };
        if known.file != number {
            return DirectoryBlocks::of(disk, number, header);
        }
        // An image has few blocks, and so has a chain.
        let _ = disk.image.len();
        DirectoryBlocks {
            disk: *disk,
            number,
            count: known.blocks.len() as u32,
            header,
            names,
        }
    }
}

/// The blocks of a file that are still to come, located in order and without allocation. A contract sees the list of them.
#[derive(Drop)]
pub struct BlocksToCome<'a> {
    image: &'a Image,
    lbns: BlockCursor<'a>,
}

impl<'a> Model for BlocksToCome<'a> {
    ghost use Rattle.std.specs.Prelude.{ℕ, List};
    ghost use Rattle.ods_space.specs.Files.{AreInside};
    ghost use Rattle.ods_mount.specs.Faults.{contents_of};

    ghost Value = { List (List ℕ) };

    ghost view = { λ c. contents_of c.image.now c.lbns };

    ghost invariant = { λ c. AreInside c.image.now c.lbns };
}

impl<'a> BlocksToCome<'a> {
    ghost use Rattle.std.specs.Prelude.{◌≡◌, ◌≢◌, [], ◌∷◌};

    /// The next block. There is one.
    fn next(&mut self) -> &'a Block
        requires { self.old ≢ [] }
        ensures { self.old ≡ result.now ∷ self.new }
    {
        let lbn = self.lbns.next().unwrap();
        self.image.block(lbn)
    }
}

impl<'a> DirBlocks for DirectoryBlocks<'a> {
    ghost use Rattle.std.specs.Prelude.{◌≡◌};

    ghost blocks = { λ d. d };

    type Cursor = BlocksToCome<'a>;

    ghost leads = { λ d c rest. c ≡ rest };

    fn count(&self) -> u32 {
        self.count
    }

    fn block(&self, i: u32) -> &Block {
        if let Some(known) = self.names {
            return self.disk.image.block(known.blocks[i as usize]);
        }
        let lbn = locate_whole(&self.disk, self.number, self.header, i + 1).unwrap();
        self.disk.image.block(lbn)
    }

    fn tags(&self) -> Option<&[Tags]> {
        match self.names {
            Some(known) => Some(&known.tags),
            None => None,
        }
    }

    fn cursor(&self) -> BlocksToCome<'a> {
        BlocksToCome {
            image: self.disk.image,
            lbns: BlockCursor::from(&self.disk, self.number, self.header),
        }
    }

    fn next(&self, cursor: &mut BlocksToCome<'a>) -> &Block {
        cursor.next()
    }
}
