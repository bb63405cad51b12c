//! A catalogue: files by their IDs, the IDs that were ever assigned, and the protection of new files.
ghost use Rattle.std.specs.Prelude.{◌≡◌, ◌≢◌, true, None, Some, MatchOption, IsTrue, IfOk, OnOk, OnErr};
ghost use Rattle.std.specs.FinMap as finite;
ghost use Rattle.std.specs.FinSet as set;
ghost use Rattle.ods_request.specs.{Faults.IsAllowed, Steps.after, Steps.answer_of, Steps.created, Steps.file_at, Steps.is_new, Steps.new_file as file_made};
ghost use Rattle.ods_plain.specs.Files.{body_of, file_of, may_have};

use crate::files::File;
use crate::makes::new_file;
use crate::rows::{Row, is_used, place, take_out};
use ods_base::{Block, FileId, Name, Pick, Uic};
use ods_request::{Answer, Listing, Request, Stamp, Stat};
use std::alloc::{AllocError, Global};
use std::marker::Model;

/// A catalogue. A contract sees the catalogue of the definitions. Tests use it as their oracle, because its calls return the answers and changes of
/// the definitions.
#[derive(Drop, Debug)]
pub struct Catalogue {
    alloc: Global,
    rows: Vec<Row>,
    past: Vec<FileId>,
    default: u16,
}

impl Model for Catalogue {
    ghost use Rattle.ods_request.specs.Catalogue.{Catalogue};
    ghost use Rattle.ods_plain.specs.{Codes.coded_catalogue, Rows.catalogue_in};

    ghost Value = { Catalogue };

    ghost coded = { coded_catalogue };

    ghost view = { λ c. catalogue_in c.rows.items c.past.items c.default };
}

impl Catalogue {
    /// Makes a catalogue with no file and no past. New files receive this protection word.
    pub fn new(alloc: Global, protection: u16) -> Catalogue
        ensures { result ≡ record { files = finite.empty; past = set.empty; default = protection } }
    {
        Catalogue {
            alloc,
            rows: Vec::new(alloc),
            past: Vec::new(alloc),
            default: protection,
        }
    }

    /// Returns the file with this ID, or `None` if there is none.
    pub fn file(&self, id: FileId) -> Option<&File>
        ensures { MatchOption result (finite.get self.now.files id ≡ None) (λ f. finite.get self.now.files id ≡ Some (file_of f.now)) }
    {
        let rows = self.rows.as_slice();
        let at = place(rows, id);
        if at < rows.len() {
            Some(rows[at].file())
        } else {
            None
        }
    }

    /// The file under an ID that some file has.
    fn there(&self, id: FileId) -> &File
        requires { finite.get self.now.files id ≢ None }
        ensures { file_of result.now ≡ file_at self.now id }
    {
        match self.file(id) {
            Some(found) => found,
            None => unreachable!(),
        }
    }

    /// Returns whether a new file may have this ID: it was never assigned, and its number is at least 6 and belongs to no file.
    pub fn is_new(&self, id: FileId) -> bool
        ensures { result ≡ is_new self.now id }
    {
        if self.past.as_slice().contains(&id) {
            return false;
        }
        if is_used(self.rows.as_slice(), id.number) {
            return false;
        }
        id.number >= 6
    }

    /// Adds a file with an ID that no file has, and adds the ID to the past. When out of memory, the catalogue is unchanged.
    pub fn add(&mut self, id: FileId, file: File) -> Result<(), AllocError>
        requires absent { finite.get self.old.files id ≡ None }
        requires lawful { IsTrue (may_have id (body_of file.body)) }
        ensures ok { OnOk result (self.new ≡ created self.old id (file_of file)) }
        ensures err { OnErr result (self.new ≡ self.old) }
    {
        self.rows.reserve(1)?;
        self.past.reserve(1)?;
        self.rows.push(Row::new(id, file))?;
        self.past.push(id)?;
        Ok(())
    }

    /// Makes a Create under this ID.
    pub(crate) fn create(
        &mut self,
        who: Uic,
        name: &Name,
        version: u16,
        blocks: u32,
        stamp: &Stamp,
        id: FileId,
    ) -> Result<(), AllocError>
        requires { is_new self.old id ≡ true }
        ensures ok { OnOk result (self.new ≡ created self.old id (file_made self.old who name.now version blocks stamp.now)) }
        ensures err { OnErr result (self.new ≡ self.old) }
    {
        let file = new_file(self.alloc, who, self.default, name, version, blocks, stamp)?;
        self.add(id, file)
    }

    /// Makes an Extend: puts blocks of zeros behind a file's own, and answers how many it has then.
    pub(crate) fn extend(&mut self, file: FileId, blocks: u32) -> Result<u32, AllocError>
        requires { IsAllowed self.old (Request.Extend file blocks) }
        ensures count { IfOk result (λ n. Answer.Extended n ≡ answer_of self.old (Request.Extend file blocks)) }
        ensures ok { OnOk result (self.new ≡ after self.old (Request.Extend file blocks)) }
        ensures err { OnErr result (self.new ≡ self.old) }
    {
        let at = place(self.rows.as_slice(), file);
        let row = &mut self.rows[at];
        row.grow(blocks)
    }

    /// Makes a Truncate: the file keeps so many of its blocks, the first ones.
    pub(crate) fn truncate(&mut self, file: FileId, blocks: u32)
        requires { IsAllowed self.old (Request.Truncate file blocks) }
        ensures { self.new ≡ after self.old (Request.Truncate file blocks) }
    {
        let at = place(self.rows.as_slice(), file);
        let row = &mut self.rows[at];
        row.keep(blocks);
    }

    /// Makes a Delete: takes the file out. Names of it stay.
    pub(crate) fn delete(&mut self, file: FileId)
        ensures { self.new ≡ after self.old (Request.Delete file) }
    {
        take_out(&mut self.rows, file);
    }

    /// Makes an Enter, and answers the version under which the file is entered.
    pub(crate) fn enter(
        &mut self,
        dir: FileId,
        name: Name,
        given: Option<u16>,
        file: FileId,
    ) -> Result<u16, AllocError>
        requires { IsAllowed self.old (Request.Enter dir name given file) }
        ensures version { IfOk result (λ v. Answer.Entered v ≡ answer_of self.old (Request.Enter dir name given file)) }
        ensures ok { OnOk result (self.new ≡ after self.old (Request.Enter dir name given file)) }
        ensures err { OnErr result (self.new ≡ self.old) }
    {
        let at = place(self.rows.as_slice(), dir);
        let row = &mut self.rows[at];
        let version = row.file().entered_version(&name, given);
        prove!(name.words().len() == 3);
        row.enter(name, version, file)?;
        Ok(version)
    }

    /// Makes a Remove, and answers the file and the version whose name is gone.
    pub(crate) fn remove(&mut self, dir: FileId, name: &Name, pick: Pick) -> (FileId, u16)
        requires { IsAllowed self.old (Request.Remove dir name.now pick) }
        ensures answer { Answer.Removed result.0 result.1 ≡ answer_of self.old (Request.Remove dir name.now pick) }
        ensures left { self.new ≡ after self.old (Request.Remove dir name.now pick) }
    {
        let at = place(self.rows.as_slice(), dir);
        let row = &mut self.rows[at];
        let (file, version) = row.file().find(name, pick);
        row.remove(name, version);
        (file, version)
    }

    /// Makes a Write: replaces a block of a file.
    pub(crate) fn write(&mut self, file: FileId, vbn: u32, block: &Block)
        requires { IsAllowed self.old (Request.Write file vbn block.now) }
        ensures { self.new ≡ after self.old (Request.Write file vbn block.now) }
    {
        let at = place(self.rows.as_slice(), file);
        let row = &mut self.rows[at];
        row.write(vbn, block);
    }

    /// Makes a SetUser: replaces the user attributes of a file.
    pub(crate) fn set_user(&mut self, file: FileId, attributes: &[u8; 32])
        requires { IsAllowed self.old (Request.SetUser file attributes.now) }
        ensures { self.new ≡ after self.old (Request.SetUser file attributes.now) }
    {
        let at = place(self.rows.as_slice(), file);
        let row = &mut self.rows[at];
        row.set_user(attributes);
    }

    /// Answers a LookUp: the file and the version that are found.
    pub(crate) fn look_up(&self, dir: FileId, name: &Name, pick: Pick) -> (FileId, u16)
        requires { IsAllowed self.now (Request.LookUp dir name.now pick) }
        ensures { Answer.Found result.0 result.1 ≡ answer_of self.now (Request.LookUp dir name.now pick) }
    {
        self.there(dir).find(name, pick)
    }

    /// Answers a Read: the block.
    pub(crate) fn read(&self, file: FileId, vbn: u32) -> Block
        requires { IsAllowed self.now (Request.Read file vbn) }
        ensures { Answer.Bytes result ≡ answer_of self.now (Request.Read file vbn) }
    {
        *self.there(file).block(vbn)
    }

    /// Answers a List: the directory's lines.
    pub(crate) fn list(&self, dir: FileId) -> Result<Listing, AllocError>
        requires { IsAllowed self.now (Request.List dir) }
        ensures { IfOk result (λ lines. Answer.Names lines ≡ answer_of self.now (Request.List dir)) }
    {
        Ok(Listing::new(self.there(dir).lines(self.alloc)?))
    }

    /// Answers a Stat: what is shown of the file. A count that its answer has no room for is want of memory.
    pub(crate) fn stat(&self, file: FileId) -> Result<Stat, AllocError>
        requires { IsAllowed self.now (Request.Stat file) }
        ensures { IfOk result (λ stat. Answer.Info stat ≡ answer_of self.now (Request.Stat file)) }
    {
        self.there(file).stat(file)
    }
}
