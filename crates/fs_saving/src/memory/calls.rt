//! The calls of a folder in memory.
ghost use Rattle.std.specs.Prelude.{[], ◌≡◌, ◌⊎◌, ◌++◌, ℕ, List, Some, None, IfOk, OnOk, OnErr, IsTrue, length};
ghost use Rattle.ods_base.specs.Image.{image_bytes};
ghost use Rattle.fs_saving.specs.Folder.{Stays, OthersStay, RestStays, Moves, Lasts, OthersLast, LastsOrTakes};
ghost use Rattle.fs_saving.specs.Memory.{changes_of, Holds, HeldOnce};

use super::{MemoryFault, MemoryFile, MemoryFolder, find};
use crate::Folder;
use ods_base::Image;

impl Folder for MemoryFolder {
    ghost use Rattle.std.specs.Prelude.{◌≡◌, ⊤, IsTrue};
    ghost use Rattle.fs_saving.specs.Memory.{Holds, HeldOnce, counted_now};

    type File = MemoryFile;

    type Fault = MemoryFault;

    ghost has = { Holds };

    ghost had = { HeldOnce };

    ghost knows = { ⊤ };

    ghost counts_now = { counted_now };

    ghost hidden = { λ file. file.name.items };

    ghost is_synced = { λ file. IsTrue file.is_synced };

    ghost given = { λ file bytes. file.given.items ≡ bytes };

    ghost may_end = { λ folder fault. ⊤ };

    ghost has_failed = { λ folder. IsTrue folder.has_failed };

    ghost has_left = { λ folder. IsTrue folder.has_left };

    fn make(&mut self, name: &str) -> Result<MemoryFile, MemoryFault> {
        let made = self.make_file(name.as_bytes());
        self.told(made)
    }

    fn write(
        &mut self,
        file: &mut MemoryFile,
        image: &Image,
        behind: &[u8],
    ) -> Result<(), MemoryFault> {
        let written = self.write_all(file, image, behind);
        self.told(written)
    }

    fn sync(&mut self, file: &mut MemoryFile) -> Result<(), MemoryFault> {
        if self.is_to_fail() {
            return self.told(Err(MemoryFault::Failed));
        }
        file.is_synced = true;
        Ok(())
    }

    fn holds(&mut self, file: &mut MemoryFile, image: &Image, behind: &[u8]) -> bool {
        let holds = !self.is_to_fail() && self.has_bytes(file.name.as_slice(), image, behind);
        self.has_failed = self.has_failed || !holds;
        holds
    }

    fn rename(&mut self, file: &mut MemoryFile, name: &str) -> Result<(), MemoryFault> {
        let renamed = self.rename_file(file.name.as_slice(), name.as_bytes());
        self.told(renamed)
    }

    fn remove(&mut self, file: MemoryFile) -> bool {
        let is_gone = self.take_away(file.name.as_slice());
        self.has_left = self.has_left || !is_gone;
        is_gone
    }
}

impl MemoryFolder {
    /// Notes a failure.
    fn told<T>(&mut self, done: Result<T, MemoryFault>) -> Result<T, MemoryFault>
        ensures same { result ≡ done }
        ensures failed { OnErr result (IsTrue self.new.has_failed) }
        ensures stays { changes_of self.new ≡ changes_of self.old }
        ensures moments { (name : List ℕ) → Lasts (HeldOnce self.old) (HeldOnce self.new) name }
    {
        self.has_failed = self.has_failed || done.is_err();
        done
    }

    /// Whether this call is the one that is to fail.
    fn is_to_fail(&mut self) -> bool
        ensures stays { changes_of self.new ≡ changes_of self.old }
        ensures moments { (name : List ℕ) → Lasts (HeldOnce self.old) (HeldOnce self.new) name }
        ensures failed { self.new.has_failed ≡ self.old.has_failed }
    {
        if self.failing == 0 {
            return false;
        }
        self.failing -= 1;
        self.failing == 0
    }

    /// Whether this write is the one that is to turn a byte.
    fn is_to_turn(&mut self) -> bool
        ensures stays { changes_of self.new ≡ changes_of self.old }
        ensures moments { (name : List ℕ) → Lasts (HeldOnce self.old) (HeldOnce self.new) name }
    {
        if self.turning == 0 {
            return false;
        }
        self.turning -= 1;
        self.turning == 0
    }

    /// Makes an empty file under this name.
    fn make_file(&mut self, name: &[u8]) -> Result<MemoryFile, MemoryFault>
        ensures named { IfOk result (λ file. file.name.items ≡ name.now) }
        ensures unwritten { IfOk result (λ file. file.given.items ≡ []) }
        ensures empty { OnOk result (Holds self.new name.now (Some [])) }
        ensures others { OthersStay (Holds self.old) (Holds self.new) name.now }
        ensures moments { OthersLast (HeldOnce self.old) (HeldOnce self.new) name.now }
    {
        if self.is_to_fail() {
            return Err(MemoryFault::Failed);
        }
        let file = MemoryFile {
            name: Vec::from_slice(self.alloc, name)?,
            given: Vec::new(self.alloc),
            is_synced: false,
        };
        let empty = Vec::new(self.alloc);
        self.put(name, true, empty)?;
        Ok(file)
    }

    /// Writes an image, block by block, and these bytes behind it.
    fn write_all(
        &mut self,
        file: &mut MemoryFile,
        image: &Image,
        behind: &[u8],
    ) -> Result<(), MemoryFault>
        ensures named { file.new.name.items ≡ file.old.name.items }
        ensures given { OnOk result (file.new.given.items ≡ file.old.given.items ++ (image_bytes image.now ++ behind.now)) }
        ensures others { OthersStay (Holds self.old) (Holds self.new) file.old.name.items }
        ensures moments { OthersLast (HeldOnce self.old) (HeldOnce self.new) file.old.name.items }
    {
        for lbn in 0..image.len() {
            if let Err(fault) = self.write_piece(file, image.block(lbn).bytes()) {
                return Err(fault);
            }
        }
        self.write_piece(file, behind)
    }

    /// Writes a piece behind what the file has: half of it, where the call is to fail.
    fn write_piece(&mut self, file: &mut MemoryFile, piece: &[u8]) -> Result<(), MemoryFault>
        ensures named { file.new.name.items ≡ file.old.name.items }
        ensures given { OnOk result (file.new.given.items ≡ file.old.given.items ++ piece.now) }
        ensures others { OthersStay (Holds self.old) (Holds self.new) file.old.name.items }
        ensures moments { OthersLast (HeldOnce self.old) (HeldOnce self.new) file.old.name.items }
    {
        file.is_synced = false;
        file.given.extend_from_slice(piece)?;
        let fails = self.is_to_fail();
        let end = if fails { piece.len() / 2 } else { piece.len() };
        let mut bytes = self.copy_bytes(file.name.as_slice())?;
        bytes.extend_from_slice(&piece[..end])?;
        if self.is_to_turn() {
            turn_last(&mut bytes);
        }
        self.put(file.name.as_slice(), true, bytes)?;
        if fails {
            return Err(MemoryFault::Failed);
        }
        Ok(())
    }

    /// A copy of the bytes of a file.
    fn copy_bytes(&self, name: &[u8]) -> Result<Vec<u8>, MemoryFault>
        ensures { IfOk result (λ bytes. Holds self.now name.now (Some bytes.items)) }
    {
        match self.get(name) {
            Some(bytes) => Ok(Vec::from_slice(self.alloc, bytes)?),
            None => Err(MemoryFault::NotThere),
        }
    }

    /// Whether the file of this name has the bytes of this image, with these behind them.
    fn has_bytes(&self, name: &[u8], image: &Image, behind: &[u8]) -> bool
        ensures { IsTrue result → Holds self.now name.now (Some (image_bytes image.now ++ behind.now)) }
    {
        match self.get(name) {
            Some(bytes) => are_bytes(bytes, image, behind),
            None => false,
        }
    }

    /// Takes a file away; whether it is gone.
    fn take_away(&mut self, name: &[u8]) -> bool
        ensures gone { IsTrue result → Holds self.new name.now None }
        ensures failed { self.new.has_failed ≡ self.old.has_failed }
        ensures others { OthersStay (Holds self.old) (Holds self.new) name.now }
        ensures moments { OthersLast (HeldOnce self.old) (HeldOnce self.new) name.now }
    {
        if self.is_to_fail() {
            return false;
        }
        let nothing = Vec::new(self.alloc);
        self.put(name, false, nothing).is_ok()
    }

    /// Gives the file of the one name the other. It is to fail before or behind.
    fn rename_file(&mut self, from: &[u8], to: &[u8]) -> Result<(), MemoryFault>
        ensures ok { OnOk result (Moves (Holds self.old) (Holds self.new) from.now to.now) }
        ensures err { OnErr result (Stays (Holds self.old) (Holds self.new) to.now ⊎ Moves (Holds self.old) (Holds self.new) from.now to.now) }
        ensures others { RestStays (Holds self.old) (Holds self.new) to.now from.now }
        ensures moments { LastsOrTakes (HeldOnce self.old) (HeldOnce self.new) (Holds self.old) to.now from.now }
    {
        if self.is_to_fail() {
            return Err(MemoryFault::Failed);
        }
        if from == to {
            return Ok(());
        }
        let bytes = self.copy_bytes(from)?;
        self.put(to, true, bytes)?;
        let nothing = Vec::new(self.alloc);
        self.put(from, false, nothing)?;
        if self.is_to_fail() {
            return Err(MemoryFault::Failed);
        }
        Ok(())
    }
}

/// Turns the last byte, where there is one.
fn turn_last(bytes: &mut Vec<u8>)
    ensures { length bytes.new.items ≡ length bytes.old.items }
{
    if let Some(byte) = bytes.last_mut() {
        *byte ^= 0xff;
    }
}

/// Whether bytes are those of an image, with these behind them.
fn are_bytes(bytes: &[u8], image: &Image, behind: &[u8]) -> bool
    ensures { IsTrue result → bytes.now ≡ image_bytes image.now ++ behind.now }
{
    let mut rest = bytes;
    for lbn in 0..image.len() {
        match rest.strip_prefix(image.block(lbn).bytes().as_slice()) {
            Some(left) => rest = left,
            None => return false,
        }
    }
    rest == behind
}
