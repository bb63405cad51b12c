//! The folder of an image that is saved under its name: what `fs_saving` asks of the host there.
//! Nothing is known of a host: each name holds what one likes, and all that is promised is which faults may come.
use super::{Locked, MODE_BITS, give_owner};
use crate::faults::SaveFault;
use crate::hidden_file::HiddenFile;
use fs_saving::Folder;
use ods_base::Image;
use std::fs::{File, Metadata};
use std::os::unix::fs::MetadataExt;
use std::rt::{Clock, Files};

/// The folder of a locked image. The new file gets the owner and mode of the old one, and its name where the image is as it was.
#[derive(Drop)]
pub struct Replacing<'a, R> {
    pub rt: &'a R,
    pub locked: &'a Locked,
    /// What the host says of the old file.
    pub old: &'a Metadata,
    /// Whether the old file is kept.
    pub backup: bool,
    /// The name of the old file then.
    pub kept: &'a str,
}

impl<R: Files<File = File> + Clock + AllocGlobal + Clone + Drop> Folder for Replacing<'_, R> {
    ghost use Rattle.std.specs.Prelude.{⊤, true, IsTrue};
    ghost use Rattle.fs_host.specs.Faults.{may_end_saving};
    ghost use Rattle.fs_host.specs.Kept.{force_kept};
    ghost use Rattle.fs_host.specs.Making.{path_hidden};

    type File = HiddenFile;

    type Fault = SaveFault;

    ghost has = { λ folder name held. ⊤ };

    ghost had = { λ folder name held. ⊤ };

    ghost knows = { ⊥ };

    ghost counts_now = { λ folder name held has. has };

    ghost hidden = { path_hidden };

    ghost is_synced = { λ file. ⊤ };

    ghost given = { λ file bytes. ⊤ };

    ghost may_end = { λ folder fault. IsTrue (may_end_saving (force_kept folder.locked.now) folder.backup true fault) };

    ghost has_failed = { λ folder. ⊤ };

    ghost has_left = { λ folder. ⊤ };

    #[tactic(auto, using(crate::proofs::MayEnd::memory_ends_saving, crate::proofs::MayEnd::giving_ends_saving))]
    fn make(&mut self, name: &str) -> Result<HiddenFile, SaveFault> {
        let mode = Some(self.old.mode() & MODE_BITS);
        let name = String::from_str(self.rt.alloc(), name)?;
        let made = match HiddenFile::make(self.rt, name, mode) {
            Ok(made) => made,
            Err(fault) => return Err(SaveFault::Make(fault)),
        };
        if let Err(fault) = give_owner(&made.file, self.old) {
            made.take_away(self.rt);
            return Err(fault);
        }
        Ok(made)
    }

    #[tactic(auto, using(crate::proofs::MayEnd::filling_ends_saving))]
    fn write(
        &mut self,
        file: &mut HiddenFile,
        image: &Image,
        behind: &[u8],
    ) -> Result<(), SaveFault> {
        file.write(image, behind, is_sparse(self.old))?;
        Ok(())
    }

    #[tactic(auto, using(crate::proofs::MayEnd::filling_ends_saving))]
    fn sync(&mut self, file: &mut HiddenFile) -> Result<(), SaveFault> {
        file.sync()?;
        Ok(())
    }

    fn holds(&mut self, file: &mut HiddenFile, image: &Image, behind: &[u8]) -> bool {
        file.holds(image, behind)
    }

    #[tactic(auto, using(crate::proofs::MayEnd::leaving_ends_saving, crate::proofs::MayEnd::naming_ends_finish))]
    fn rename(&mut self, file: &mut HiddenFile, name: &str) -> Result<(), SaveFault> {
        self.locked.leave(self.rt, self.backup, self.kept)?;
        let mode = Some(self.old.mode() & MODE_BITS);
        match file.take_name(self.rt, name, mode, None, true) {
            Ok(()) => Ok(()),
            Err(fault) => Err(SaveFault::Rename(fault)),
        }
    }

    fn remove(&mut self, file: HiddenFile) -> bool {
        file.take_away(self.rt)
    }
}

/// Whether a file has fewer bytes on the disk than its length: it has holes. The host counts them in blocks of 512 bytes.
fn is_sparse(found: &Metadata) -> bool {
    found.blocks() < found.len() / 512
}
