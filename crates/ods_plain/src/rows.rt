//! A file with its ID.
ghost use Rattle.std.specs.Prelude.{◌≡◌, ◌==◌, ◌≤◌, ◌+◌, length, not, false, IsTrue, IfOk, OnOk, OnErr};
ghost use Rattle.std.specs.List.{filter, list_any};
ghost use Rattle.std.specs.FinMap as finite;
ghost use Rattle.ods_base.specs.Name.{key_of};
ghost use Rattle.ods_request.specs.{Catalogue.Directory, Catalogue.Plain, Catalogue.is_directory, Catalogue.names_of, Catalogue.blocks_of, Equal.same_id, Faults.is_reserved, Faults.lacks_block, Steps.with_body, Steps.grown, Steps.first_blocks, Steps.written};
ghost use Rattle.ods_plain.specs.Rows.{place_of};

use crate::files::File;
use ods_base::{Block, FileId, Name};
use std::alloc::AllocError;
use std::marker::Model;

/// A file with its ID. A contract sees the pair. Only files 1 to 5 are the system's.
#[derive(Drop, Debug)]
pub(crate) struct Row {
    id: FileId,
    file: File,
}

impl Model for Row {
    ghost use Rattle.std.specs.Prelude.{IsTrue};
    ghost use Rattle.std.specs.Coded.{coded×};
    ghost use Rattle.ods_base.specs.declared.file_id.FileId.{FileId};
    ghost use Rattle.ods_request.specs.Catalogue.{File};
    ghost use Rattle.ods_plain.specs.{Codes.coded_id, Codes.coded_file, Files.body_of, Files.file_of, Files.may_have};

    ghost Value = { FileId × File };

    ghost coded = { coded× coded_id coded_file };

    ghost view = { λ r. (r.id, file_of r.file) };

    ghost invariant = { λ r. IsTrue (may_have r.id (body_of r.file.body)) };
}

impl Row {
    ghost use Rattle.ods_plain.specs.Files.{body_of, file_of, may_have};

    /// A file with its ID.
    pub(crate) fn new(id: FileId, file: File) -> Row
        requires { IsTrue (may_have id (body_of file.body)) }
        ensures { result ≡ (id, file_of file) }
    {
        Row { id, file }
    }

    /// The file's ID.
    pub(crate) fn id(&self) -> FileId
        ensures { result ≡ self.now.0 }
    {
        self.id
    }

    /// The file.
    pub(crate) fn file(&self) -> &File
        ensures { file_of result.now ≡ self.now.1 }
    {
        &self.file
    }

    /// Puts blocks of zeros behind the file's own, and answers how many it has then.
    pub(crate) fn grow(&mut self, blocks: u32) -> Result<u32, AllocError>
        requires own { is_reserved self.old.0 ≡ false }
        requires no_directory { is_directory self.old.1.body ≡ false }
        ensures count { IfOk result (λ n. n ≡ length (blocks_of self.old.1.body) + blocks) }
        ensures ok { OnOk result (self.new ≡ (self.old.0, grown self.old.1 blocks)) }
        ensures err { OnErr result (self.new ≡ self.old) }
    {
        self.file.grow(blocks)
    }

    /// Keeps so many of the file's blocks, the first ones.
    pub(crate) fn keep(&mut self, count: u32)
        requires own { is_reserved self.old.0 ≡ false }
        requires no_directory { is_directory self.old.1.body ≡ false }
        ensures { self.new ≡ (self.old.0, with_body self.old.1 (first_blocks self.old.1.body count)) }
    {
        self.file.keep(count);
    }

    /// Replaces the block with this virtual block number, counted from 1.
    pub(crate) fn write(&mut self, vbn: u32, block: &Block)
        requires { lacks_block self.old.1 vbn ≡ false }
        ensures { self.new ≡ (self.old.0, with_body self.old.1 (written self.old.1.body vbn block.now)) }
    {
        self.file.write(vbn, block);
    }

    /// Replaces the file's user attributes.
    pub(crate) fn set_user(&mut self, attributes: &[u8; 32])
        requires own { is_reserved self.old.0 ≡ false }
        requires no_directory { is_directory self.old.1.body ≡ false }
        ensures { self.new ≡ (self.old.0, with_body self.old.1 (Plain attributes.now (blocks_of self.old.1.body))) }
    {
        self.file.set_user(attributes);
    }

    /// Enters a file in the directory that this is.
    pub(crate) fn enter(&mut self, name: Name, version: u16, file: FileId) -> Result<(), AllocError>
        requires directory { IsTrue (is_directory self.old.1.body) }
        requires absent { finite.contains_key (names_of self.old.1.body) (key_of name version) ≡ false }
        ensures ok { OnOk result (self.new ≡ (self.old.0, with_body self.old.1 (Directory (finite.insert (names_of self.old.1.body) (key_of name version) file)))) }
        ensures err { OnErr result (self.new ≡ self.old) }
    {
        self.file.enter(name, version, file)
    }

    /// Takes a name out of the directory that this is.
    pub(crate) fn remove(&mut self, name: &Name, version: u16)
        requires { IsTrue (is_directory self.old.1.body) }
        ensures { self.new ≡ (self.old.0, with_body self.old.1 (Directory (finite.remove (names_of self.old.1.body) (key_of name.now version)))) }
    {
        self.file.remove(name, version);
    }
}

/// Where the file with this ID stands, or how many files there are.
pub(crate) fn place(rows: &[Row], id: FileId) -> usize
    ensures value { result ≡ place_of id rows.now }
    ensures within { result ≤ length rows.now }
{
    for (i, row) in rows.iter().enumerate() {
        if row.id() == id {
            return i;
        }
    }
    rows.len()
}

/// Takes out the file with this ID.
pub(crate) fn take_out(rows: &mut Vec<Row>, id: FileId)
    ensures { rows.new.items ≡ filter (λ r. not (same_id r.0 id)) rows.old.items }
{
    rows.retain(|row| row.id() != id);
}

/// Whether the number is some file's.
pub(crate) fn is_used(rows: &[Row], number: u16) -> bool
    ensures { result ≡ list_any (λ r. r.0.number == number) rows.now }
{
    rows.iter().any(|row| row.id().number == number)
}
