//! The body of a file: its blocks in the image, without copies, and the size of its bytes.
ghost use Rattle.std.specs.Prelude.{◌≡◌, ◌≢◌, ◌⊎◌, ◌*◌, ◌≤◌, length, ℕ, List, Some, None, IfSome, IfNone, IfOk, IfErr, MatchBool, OnOk};
ghost use Rattle.std.specs.Io.KnownBytes.{Appends};
ghost use Rattle.ods_space.specs.Files.{FindsFiles, IsFile};
ghost use Rattle.ods_space.specs.Chain.{chain_blocks};
ghost use Rattle.ods_files.specs.Body.{HasBody, HasPart, IsFileFault, are_zeros, body_at, size_in, bytes_in, IsCopyFault};

use crate::comparing::have_same_sized;
use crate::sending::{push_first, send_first};
use crate::{CopyFault, FileFault, Form};
use ods_base::Image;
use ods_directory::mark_of;
use ods_header::attributes;
use ods_space::{Disk, chain, primary_header, reach_blocks};
use std::alloc::{AllocError, Global};
use std::io::Write;
use std::marker::Model;

/// The blocks of a file, by their LBNs, and the attributes of its first header. The image may be a refused one.
#[derive(Drop)]
pub struct FileBody<'a> {
    image: &'a Image,
    lbns: Vec<u32>,
    attributes: [u8; 32],
}

impl<'a> Model for FileBody<'a> {
    ghost use Rattle.std.specs.Prelude.{◌≤◌, length};
    ghost use Rattle.ods_space.specs.Chain.{chain_blocks};
    ghost use Rattle.ods_files.specs.Body.{Body, padded};

    ghost Value = { Body };

    ghost view = { λ b. record { blocks = padded b.image.now b.lbns.items; attributes = b.attributes } };

    ghost invariant = { λ b. length b.lbns.items ≤ chain_blocks };
}

impl<'a> FileBody<'a> {
    ghost use Rattle.ods_space.specs.Disks.{on};

    /// Returns the body of a file whose own chain is whole. INDEXF.SYS and directories have bodies too. The fault is `NoSuchFile` if the number is
    /// not a file. Otherwise it is the fault of its chain, or out of memory.
    pub fn open(alloc: Global, disk: &Disk<'a>, number: u16) -> Result<FileBody<'a>, FileFault>
        requires { on FindsFiles disk.now }
        ensures ok { IfOk result (on HasBody disk.now number) }
        ensures err { IfErr result (on IsFileFault disk.now number) }
    {
        // An image has few blocks, and so has a chain.
        let _ = disk.image.len();
        let Some(first) = primary_header(disk, number) else {
            return Err(FileFault::NoSuchFile);
        };
        match chain(alloc, disk, number) {
            Ok(lbns) => Ok(FileBody {
                image: disk.image,
                lbns,
                attributes: attributes(first),
            }),
            Err(fault) => Err(FileFault::Chain(fault)),
        }
    }

    /// Returns the existing part of a file, and whether its chain is whole. The part is the blocks whose headers exist, with zeros for the blocks
    /// past the image. It returns `None` if the number is not a file, or is the number of INDEXF.SYS, by which headers are found.
    pub fn open_part(
        alloc: Global,
        disk: &Disk<'a>,
        number: u16,
    ) -> Result<Option<(FileBody<'a>, bool)>, AllocError>
        ensures some { IfOk result (λ found. IfSome found (λ part. on HasPart disk.now number part.0 part.1)) }
        ensures none { IfOk result (λ found. IfNone found ((number ≡ 1) ⊎ ¬ on IsFile disk.now number)) }
    {
        if number == 1 {
            return Ok(None);
        }
        let Some(first) = primary_header(disk, number) else {
            return Ok(None);
        };
        let Some(reached) = reach_blocks(alloc, disk, number)? else {
            return Ok(None);
        };
        let body = FileBody {
            image: disk.image,
            lbns: reached.blocks,
            attributes: attributes(first),
        };
        Ok(Some((body, reached.is_whole)))
    }

    /// Returns the body of the blocks at these LBNs, in this order, with these attributes. A block past the image counts as zeros.
    pub fn of_blocks(image: &'a Image, lbns: Vec<u32>, attributes: [u8; 32]) -> FileBody<'a>
        requires { length lbns.items ≤ chain_blocks }
        ensures { result ≡ body_at image.now lbns.items attributes }
    {
        FileBody {
            image,
            lbns,
            attributes,
        }
    }

    /// Returns the number of blocks.
    pub fn block_count(&self) -> u32
        ensures { result ≡ length self.now.blocks }
    {
        self.lbns.len() as u32
    }

    /// Returns the attributes of the first header.
    pub fn attributes(&self) -> [u8; 32]
        ensures { result ≡ self.now.attributes }
    {
        self.attributes
    }

    /// Returns whether the attributes were never written: all 32 bytes are zeros.
    pub fn has_no_attributes(&self) -> bool
        ensures { result ≡ are_zeros self.now.attributes }
    {
        self.attributes.iter().all(|byte| *byte == 0)
    }

    /// Returns the number of bytes in this form, or `None` if the end of file is past the blocks.
    pub fn size(&self, form: Form) -> Option<u64>
        ensures { result ≡ size_in form self.now }
    {
        let count = self.block_count();
        let all = 512 * u64::from(count);
        match form {
            Form::Raw => Some(all),
            Form::Binary => {
                if self.has_no_attributes() {
                    return Some(all);
                }
                // By one block more, so that an end past the blocks shows.
                let end = mark_of(&self.attributes, count + 1);
                if end <= all { Some(end) } else { None }
            }
        }
    }

    /// Writes the bytes in this form, in order, in pieces of 64 KiB. A write of 0 bytes counts as failed. If the end of file is past the blocks, the
    /// fault is `EndPastBlocks`, and nothing is written.
    pub fn write_to<W: Write>(&self, form: Form, writer: &mut W) -> Result<(), CopyFault>
        ensures ok { OnOk result ((bytes : List ℕ) × (bytes_in form self.now ≡ Some bytes) × Appends (W.contents writer.old) (W.contents writer.new) bytes) }
        ensures err { IfErr result (IsCopyFault form self.now (W.contents writer.old) (W.contents writer.new)) }
    {
        let Some(size) = self.size(form) else {
            return Err(CopyFault::EndPastBlocks);
        };
        match send_first(self.image, &self.lbns, size, writer) {
            Ok(()) => Ok(()),
            Err(fault) => Err(CopyFault::Write(fault)),
        }
    }

    /// Returns whether the bytes in this form equal the bytes of another file in its form. If neither has bytes in its form, they are equal; if only
    /// one has, they differ. Nothing is copied.
    pub fn is_same(&self, form: Form, other: &FileBody<'_>, other_form: Form) -> bool
        ensures { MatchBool result (bytes_in form self.now ≡ bytes_in other_form other.now) (bytes_in form self.now ≢ bytes_in other_form other.now) }
    {
        match (self.size(form), other.size(other_form)) {
            (Some(size), Some(other_size)) => have_same_sized(
                self.image,
                &self.lbns,
                size,
                other.image,
                &other.lbns,
                other_size,
            ),
            (None, None) => true,
            _ => false,
        }
    }

    /// Reads the bytes in this form into memory, or returns `None` if the end of file is past the blocks.
    pub fn read(&self, alloc: Global, form: Form) -> Result<Option<Vec<u8>>, AllocError>
        ensures some { IfOk result (λ read. IfSome read (λ bytes. bytes_in form self.now ≡ Some bytes.items)) }
        ensures none { IfOk result (λ read. IfNone read (bytes_in form self.now ≡ None)) }
    {
        let Some(size) = self.size(form) else {
            return Ok(None);
        };
        let mut bytes = Vec::new(alloc);
        push_first(self.image, &self.lbns, size, &mut bytes)?;
        Ok(Some(bytes))
    }
}
