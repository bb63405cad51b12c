//! Files, and what a request requires of one.
ghost use Rattle.std.specs.Prelude.{◌≡◌, ◌==◌, ◌<◌, ◌+◌, ◌-◌, [], length, nat_lt, slice_index_or, unwrap_or, false, None, IsTrue, IfOk, OnOk, OnErr};
ghost use Rattle.std.specs.FinMap as finite;
ghost use Rattle.ods_base.specs.{Name.key_of, Names.picked_version, Names.last_version, Names.entered_version, Names.lines_of};
ghost use Rattle.ods_request.specs.{Catalogue.Directory, Catalogue.Plain, Catalogue.is_directory, Catalogue.names_of, Catalogue.blocks_of, Faults.is_denied, Faults.lacks_block, Steps.with_body, Steps.grown, Steps.first_blocks, Steps.written, Steps.kind_of, Steps.no_id};

use crate::names::Names;
use ods_base::{Block, FileId, Listed, Name, Pick, Uic};
use ods_request::{Kind, Right, Stat, permits};
use std::alloc::{AllocError, Global};

/// The contents of a file by its kind.
#[derive(Drop, Debug)]
pub enum Body {
    /// INDEXF.SYS or BITMAP.SYS, without its blocks.
    System,
    /// A directory with these names.
    Directory(Names),
    /// A plain file with these 32 bytes of user attributes and these blocks.
    Plain {
        attributes: [u8; 32],
        blocks: Vec<Block>,
    },
}

/// A file: its owner, its protection word, its characteristics, the ident area of its header, and its body.
#[derive(Drop, Debug)]
pub struct File {
    pub owner: Uic,
    pub protection: u16,
    pub user_char: u8,
    pub system_char: u8,
    pub ident: [u8; 46],
    pub body: Body,
}

/// A count as an answer has it, if there is room for it.
fn count(number: usize) -> Result<u32, AllocError>
    ensures { IfOk result (λ n. n ≡ number) }
{
    if number > u32::MAX as usize {
        Err(AllocError)
    } else {
        Ok(number as u32)
    }
}

impl File {
    ghost use Rattle.ods_plain.specs.Files.{body_of, file_of, is_plain, may_have};

    /// Whether it is a directory.
    pub(crate) fn is_directory(&self) -> bool
        ensures { result ≡ is_directory (body_of self.now.body) }
    {
        match &self.body {
            Body::System => false,
            Body::Directory(_) => true,
            Body::Plain { .. } => false,
        }
    }

    /// Returns whether the file may have this ID. Only files 1 to 5 may be system files.
    pub fn may_have(&self, id: FileId) -> bool
        ensures { result ≡ may_have id (body_of self.now.body) }
    {
        match &self.body {
            Body::System => id.number <= 5,
            Body::Directory(_) => true,
            Body::Plain { .. } => true,
        }
    }

    /// Whether its protection word denies the user this right.
    pub(crate) fn is_denied(&self, who: &Uic, right: Right) -> bool
        ensures { result ≡ is_denied (file_of self.now) who.now right }
    {
        !permits(who, &self.owner, self.protection, right)
    }

    /// Whether it has fewer blocks than these. What is no plain file has none.
    pub(crate) fn has_fewer(&self, count: u32) -> bool
        ensures { result ≡ nat_lt (length (blocks_of (body_of self.now.body))) count }
    {
        match &self.body {
            Body::System => 0 < count,
            Body::Directory(_) => 0 < count,
            Body::Plain { blocks, .. } => blocks.as_slice().len() < count as usize,
        }
    }

    /// Whether it has no block with this virtual block number, counted from 1.
    pub(crate) fn lacks_block(&self, vbn: u32) -> bool
        ensures { result ≡ lacks_block (file_of self.now) vbn }
    {
        match &self.body {
            Body::System => true,
            Body::Directory(_) => true,
            Body::Plain { blocks, .. } => vbn == 0 || blocks.as_slice().len() < vbn as usize,
        }
    }

    /// The version of a name that is meant. What is no directory has no names.
    #[tactic(auto, using(crate::proofs::NoNames::pick_none))]
    pub(crate) fn pick(&self, name: &Name, pick: Pick) -> Option<u16>
        ensures { result ≡ picked_version (names_of (body_of self.now.body)) name.now pick }
    {
        match &self.body {
            Body::System => None,
            Body::Directory(names) => names.pick(name, pick),
            Body::Plain { .. } => None,
        }
    }

    /// The highest version of a name, or 0. What is no directory has no names.
    #[tactic(auto, using(crate::proofs::NoNames::last_none))]
    pub(crate) fn last_version(&self, name: &Name) -> u16
        ensures { result ≡ last_version (names_of (body_of self.now.body)) name.now }
    {
        match &self.body {
            Body::System => 0,
            Body::Directory(names) => names.last_version(name),
            Body::Plain { .. } => 0,
        }
    }

    /// The file under this name and version. What is no directory has no names.
    #[tactic(auto, using(crate::proofs::NoNames::get_none))]
    pub(crate) fn get(&self, name: &Name, version: u16) -> Option<FileId>
        ensures { result ≡ finite.get (names_of (body_of self.now.body)) (key_of name.now version) }
    {
        match &self.body {
            Body::System => None,
            Body::Directory(names) => names.get(name, version),
            Body::Plain { .. } => None,
        }
    }

    /// Whether it has this version of a name. What is no directory has no names.
    pub(crate) fn has(&self, name: &Name, version: u16) -> bool
        ensures { result ≡ finite.contains_key (names_of (body_of self.now.body)) (key_of name.now version) }
    {
        self.get(name, version).is_some()
    }

    /// The file and the version of a name that are meant, or 0,0 and 0 where there are none.
    pub(crate) fn find(&self, name: &Name, pick: Pick) -> (FileId, u16)
        ensures version { result.1 ≡ unwrap_or (picked_version (names_of (body_of self.now.body)) name.now pick) 0 }
        ensures file { result.0 ≡ unwrap_or (finite.get (names_of (body_of self.now.body)) (key_of name.now result.1)) no_id }
    {
        let version = self.pick(name, pick).unwrap_or(0);
        let no_file = FileId {
            number: 0,
            sequence: 0,
        };
        (self.get(name, version).unwrap_or(no_file), version)
    }

    /// The version under which a name is entered: the one given, or the highest and one more, or 1.
    pub(crate) fn entered_version(&self, name: &Name, given: Option<u16>) -> u16
        requires { given ≡ None → last_version (names_of (body_of self.now.body)) name.now < 65535 }
        ensures { result ≡ entered_version (names_of (body_of self.now.body)) name.now given }
    {
        match given {
            Some(version) => version,
            None => self.last_version(name) + 1,
        }
    }

    /// The lines of a directory. What is no directory has none.
    #[tactic(auto, using(crate::proofs::NoNames::lines_none))]
    pub(crate) fn lines(&self, alloc: Global) -> Result<Vec<Listed>, AllocError>
        ensures { IfOk result (λ lines. lines.items ≡ lines_of (names_of (body_of self.now.body))) }
    {
        match &self.body {
            Body::System => Ok(Vec::new(alloc)),
            Body::Directory(names) => names.lines(alloc),
            Body::Plain { .. } => Ok(Vec::new(alloc)),
        }
    }

    /// The block with this virtual block number, counted from 1.
    pub(crate) fn block(&self, vbn: u32) -> &Block
        requires { lacks_block (file_of self.now) vbn ≡ false }
        ensures { result.now ≡ slice_index_or (blocks_of (body_of self.now.body)) (vbn - 1) [] }
    {
        match &self.body {
            Body::Plain { blocks, .. } => &blocks[vbn as usize - 1],
            Body::System | Body::Directory(_) => unreachable!(),
        }
    }

    /// What the file is. A count that its answer has no room for is want of memory.
    pub(crate) fn kind(&self) -> Result<Kind, AllocError>
        ensures { IfOk result (λ kind. kind ≡ kind_of (body_of self.now.body)) }
    {
        match &self.body {
            Body::System => Ok(Kind::System),
            Body::Directory(names) => Ok(Kind::Directory {
                names: count(names.len())?,
            }),
            Body::Plain { attributes, blocks } => Ok(Kind::Plain {
                blocks: count(blocks.as_slice().len())?,
                attributes: *attributes,
            }),
        }
    }

    /// What is shown of the file. A count that its answer has no room for is want of memory.
    pub(crate) fn stat(&self, id: FileId) -> Result<Stat, AllocError>
        ensures { IfOk result (λ stat. stat ≡ record {
          file = id;
          ident = self.now.ident;
          owner = self.now.owner;
          protection = self.now.protection;
          user_char = self.now.user_char;
          system_char = self.now.system_char;
          kind = kind_of (body_of self.now.body);
        }) }
    {
        Ok(Stat {
            file: id,
            ident: self.ident,
            owner: self.owner,
            protection: self.protection,
            user_char: self.user_char,
            system_char: self.system_char,
            kind: self.kind()?,
        })
    }

    /// Whether there is no name in it. What is no directory has no names.
    #[tactic(auto, using(crate::proofs::NoNames::empty_none))]
    pub(crate) fn is_empty(&self) -> bool
        ensures { result ≡ (finite.len (names_of (body_of self.now.body)) == 0) }
    {
        match &self.body {
            Body::System => true,
            Body::Directory(names) => names.len() == 0,
            Body::Plain { .. } => true,
        }
    }

    /// Puts blocks of zeros behind a plain file's own, and answers how many it has then. The file is contiguous no more. A count
    /// that its answer has no room for is want of memory.
    pub(crate) fn grow(&mut self, blocks: u32) -> Result<u32, AllocError>
        requires { IsTrue (is_plain (body_of self.old.body)) }
        ensures count { IfOk result (λ n. n ≡ length (blocks_of (body_of self.old.body)) + blocks) }
        ensures ok { OnOk result (file_of self.new ≡ grown (file_of self.old) blocks) }
        ensures err { OnErr result (file_of self.new ≡ file_of self.old) }
    {
        match &mut self.body {
            Body::Plain { blocks: own, .. } => {
                let blocks = own.as_slice().len() + blocks as usize;
                let answer = count(blocks)?;
                own.resize(blocks, Block::zeros())?;
                self.user_char &= 127;
                Ok(answer)
            }
            Body::System | Body::Directory(_) => unreachable!(),
        }
    }

    /// Keeps so many of a plain file's blocks, the first ones.
    pub(crate) fn keep(&mut self, count: u32)
        requires { IsTrue (is_plain (body_of self.old.body)) }
        ensures { file_of self.new ≡ with_body (file_of self.old) (first_blocks (body_of self.old.body) count) }
    {
        match &mut self.body {
            Body::Plain { blocks, .. } => blocks.truncate(count as usize),
            Body::System | Body::Directory(_) => unreachable!(),
        }
    }

    /// Replaces the block with this virtual block number, counted from 1.
    pub(crate) fn write(&mut self, vbn: u32, block: &Block)
        requires { lacks_block (file_of self.old) vbn ≡ false }
        ensures { file_of self.new ≡ with_body (file_of self.old) (written (body_of self.old.body) vbn block.now) }
    {
        match &mut self.body {
            Body::Plain { blocks, .. } => blocks[vbn as usize - 1] = *block,
            Body::System | Body::Directory(_) => unreachable!(),
        }
    }

    /// Replaces a plain file's user attributes.
    pub(crate) fn set_user(&mut self, attributes: &[u8; 32])
        requires { IsTrue (is_plain (body_of self.old.body)) }
        ensures { file_of self.new ≡ with_body (file_of self.old) (Plain attributes.now (blocks_of (body_of self.old.body))) }
    {
        match &mut self.body {
            Body::Plain {
                attributes: own,
                ..
            } => *own = *attributes,
            Body::System | Body::Directory(_) => unreachable!(),
        }
    }

    /// Enters a file in a directory.
    pub(crate) fn enter(&mut self, name: Name, version: u16, file: FileId) -> Result<(), AllocError>
        requires directory { IsTrue (is_directory (body_of self.old.body)) }
        requires absent { finite.contains_key (names_of (body_of self.old.body)) (key_of name version) ≡ false }
        ensures ok { OnOk result (file_of self.new ≡ with_body (file_of self.old) (Directory (finite.insert (names_of (body_of self.old.body)) (key_of name version) file))) }
        ensures err { OnErr result (file_of self.new ≡ file_of self.old) }
    {
        match &mut self.body {
            Body::Directory(names) => names.insert(name, version, file),
            Body::System | Body::Plain { .. } => unreachable!(),
        }
    }

    /// Takes a name out of a directory.
    pub(crate) fn remove(&mut self, name: &Name, version: u16)
        requires { IsTrue (is_directory (body_of self.old.body)) }
        ensures { file_of self.new ≡ with_body (file_of self.old) (Directory (finite.remove (names_of (body_of self.old.body)) (key_of name.now version))) }
    {
        match &mut self.body {
            Body::Directory(names) => names.remove(name, version),
            Body::System | Body::Plain { .. } => unreachable!(),
        }
    }
}
