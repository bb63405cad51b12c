//! The folder of an image that was not there before: what `fs_saving` asks of the host there.
//! Nothing is known of a host: each name holds what one likes, and all that is promised is which faults may come.
ghost use Rattle.std.specs.Prelude.{IsTrue};
ghost use Rattle.fs_host.specs.Faults.{may_end_naming, may_end_writing};

use crate::faults::SaveFault;
use crate::hidden_file::HiddenFile;
use crate::host_fault::HostFault;
use fs_saving::Folder;
use ods_base::Image;
use std::fs::File;
use std::rt::Files;

/// The folder of a new image. A file that has its name by then stays.
#[derive(Drop)]
pub struct Creating<'a, R> {
    pub rt: &'a R,
    /// The mode that the new file gets, where one is said.
    pub mode: Option<u32>,
    /// Whether the new file has its hidden name too.
    pub is_left: bool,
}

impl<R: Files<File = File> + AllocGlobal> Folder for Creating<'_, R> {
    ghost use Rattle.std.specs.Prelude.{⊤};
    ghost use Rattle.fs_host.specs.Making.{path_hidden};

    type File = HiddenFile;

    type Fault = SaveFault;

    ghost has = { λ folder name held. ⊤ };

    ghost had = { λ folder name held. ⊤ };

    ghost knows = { ⊥ };

    ghost counts_now = { λ folder name held has. has };

    ghost hidden = { path_hidden };

    ghost is_synced = { λ file. ⊤ };

    ghost given = { λ file bytes. ⊤ };

    ghost may_end = { λ folder fault. IsTrue (may_end_writing fault) };

    ghost has_failed = { λ folder. ⊤ };

    ghost has_left = { λ folder. ⊤ };

    fn make(&mut self, name: &str) -> Result<HiddenFile, SaveFault> {
        let Ok(name) = String::from_str(self.rt.alloc(), name) else {
            return Err(SaveFault::Make(HostFault::NoMemory));
        };
        match HiddenFile::make(self.rt, name, self.mode) {
            Ok(made) => Ok(made),
            Err(fault) => Err(SaveFault::Make(fault)),
        }
    }

    #[tactic(auto, using(crate::proofs::MayEnd::filling_ends_writing))]
    fn write(
        &mut self,
        file: &mut HiddenFile,
        image: &Image,
        behind: &[u8],
    ) -> Result<(), SaveFault> {
        // Of a new file nobody expects that its zeros have their places on the disk.
        file.write(image, behind, true)?;
        Ok(())
    }

    #[tactic(auto, using(crate::proofs::MayEnd::filling_ends_writing))]
    fn sync(&mut self, file: &mut HiddenFile) -> Result<(), SaveFault> {
        file.sync()?;
        Ok(())
    }

    fn holds(&mut self, file: &mut HiddenFile, image: &Image, behind: &[u8]) -> bool {
        file.holds(image, behind)
    }

    fn rename(&mut self, file: &mut HiddenFile, name: &str) -> Result<(), SaveFault> {
        match file.take_name(self.rt, name, self.mode, None, false) {
            Ok(()) => {
                self.is_left = !file.take_away(self.rt);
                Ok(())
            }
            Err(fault) => Err(fault_of_name(fault)),
        }
    }

    fn remove(&mut self, file: HiddenFile) -> bool {
        file.take_away(self.rt)
    }
}

/// The fault of a file that does not take its name.
#[tactic(auto, using(crate::proofs::MayEnd::naming_refused))]
fn fault_of_name(fault: HostFault) -> SaveFault
    requires { IsTrue (may_end_naming fault) }
    ensures { IsTrue (may_end_writing result) }
{
    match fault {
        HostFault::IsThere => SaveFault::IsThere,
        fault => SaveFault::Rename(fault),
    }
}
