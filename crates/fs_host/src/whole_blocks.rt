//! The image of a reader whose last block may be cut off. It keeps no second copy of the blocks.
ghost use Rattle.std.specs.Prelude.{◌≡◌, ◌+◌, ◌<◌, ◌≤◌, ◌++◌, IfOk, IfSome, OnErr, OnOk, length, take};
ghost use Rattle.std.specs.Io.{ReadsAtMost};
ghost use Rattle.std.specs.Io.KnownBytes.{IsAtEnd, Keeps, ReadConsumes, prepend_known};
ghost use Rattle.ods_base.specs.Image.{ReadsBehind, image_bytes};
ghost use Rattle.fs_host.specs.Blocks.{blocks_left, whole_front};

use ods_base::{Image, ImageError};
use std::alloc::Global;
use std::io;
use std::io::{ErrorKind, Read};

/// The bytes of a block.
const BLOCK: usize = 512;

/// How many bytes are held at most.
const PIECE: usize = 65_536;

/// A reader that gives whole blocks, and holds back what is none.
#[derive(Drop)]
struct WholeBlocks<R> {
    reader: R,
    piece: [u8; PIECE],
    /// How many bytes at the front of the piece are not given yet.
    held: usize,
    ghost within: { held ≤ 65536 },
}

impl<R: Read> Read for WholeBlocks<R> {
    ghost remaining = { λ blocks. blocks_left (take blocks.held blocks.piece) (R.remaining blocks.reader) };

    /// A read into less room than a whole block fails where there is one.
    fn read(&mut self, bytes: &mut [u8]) -> io::Result<usize>
        ensures bound { ReadsAtMost result bytes.new }
        ensures bytes { ReadConsumes (blocks_left (take self.old.held self.old.piece) (R.remaining self.old.reader))
            (blocks_left (take self.new.held self.new.piece) (R.remaining self.new.reader)) result bytes.new }
    {
        self.hold_block()?;
        let count = BLOCK * (self.held / BLOCK).min(bytes.len() / BLOCK);
        if count == 0 && self.held >= BLOCK {
            return Err(io::Error::from(ErrorKind::Other));
        }
        bytes[..count].copy_from_slice(&self.piece[..count]);
        self.drop_front(count);
        Ok(count)
    }
}

impl<R: Read> WholeBlocks<R> {
    /// Reads until a whole block is held, or the reader is at its end. What was read before a failure is held too.
    fn hold_block(&mut self) -> io::Result<()>
        ensures kept { Keeps (prepend_known (take self.old.held self.old.piece) (R.remaining self.old.reader))
            (prepend_known (take self.new.held self.new.piece) (R.remaining self.new.reader)) }
        ensures end { OnOk result (self.new.held < 512 → IsAtEnd (R.remaining self.new.reader)) }
    {
        while self.held < BLOCK {
            if self.hold_more()? == 0 {
                return Ok(());
            }
        }
        Ok(())
    }

    /// Reads once, and says how many bytes came.
    fn hold_more(&mut self) -> io::Result<usize>
        requires { self.old.held < 65536 }
        ensures kept { Keeps (prepend_known (take self.old.held self.old.piece) (R.remaining self.old.reader))
            (prepend_known (take self.new.held self.new.piece) (R.remaining self.new.reader)) }
        ensures more { IfOk result (λ count. self.new.held ≡ self.old.held + count) }
        ensures end { IfOk result (λ count. count ≡ 0 → IsAtEnd (R.remaining self.new.reader)) }
    {
        match read_behind(&mut self.reader, &mut self.piece, self.held) {
            Ok(count) => {
                self.held += count;
                Ok(count)
            }
            Err(error) => Err(error),
        }
    }

    /// So many bytes at the front are given.
    fn drop_front(&mut self, count: usize)
        requires { count ≤ self.old.held }
        ensures given { take self.old.held self.old.piece ≡ take count self.old.piece ++ take self.new.held self.new.piece }
        ensures fewer { self.new.held + count ≡ self.old.held }
        ensures reader { self.new.reader ≡ self.old.reader }
    {
        self.piece.copy_within(count..self.held, 0);
        self.held -= count;
    }
}

/// One read, whose bytes go behind the first `held` ones of the piece.
fn read_behind<R: Read>(reader: &mut R, piece: &mut [u8], held: usize) -> io::Result<usize>
    requires { held < length piece.old }
    ensures ok { IfOk result (λ count. (held + count ≤ length piece.old)
        × ReadsBehind (R.remaining reader.old) (R.remaining reader.new) held count piece.old piece.new) }
    ensures err { OnErr result (Keeps (R.remaining reader.old) (R.remaining reader.new) × (take held piece.new ≡ take held piece.old)) }
{
    match reader.read(&mut piece[held..]) {
        Ok(count) => Ok(count),
        Err(error) => Err(error),
    }
}

/// Reads the image of the whole blocks of a reader up to its end, and the number of bytes after them. A reader with more bytes than the largest
/// image is refused.
pub fn read_cut_image<R: Read + Drop>(
    alloc: Global,
    reader: R,
) -> Result<(Image, usize), ImageError>
    ensures image { IfOk result (λ found. IfSome (R.remaining reader) (λ all. image_bytes found.0 ≡ whole_front all)) }
    ensures rest { IfOk result (λ found. found.1 < 512) }
{
    let mut blocks = WholeBlocks {
        reader,
        piece: [0; PIECE],
        held: 0,
    };
    match Image::read_from(alloc, &mut blocks) {
        Ok(image) => Ok((image, blocks.held % BLOCK)),
        // A block more was there, for which an image has no room.
        Err(ImageError::ReadFailed) if blocks.held >= BLOCK => Err(ImageError::TooBig),
        Err(fault) => Err(fault),
    }
}
