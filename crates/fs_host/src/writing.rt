//! Images written to host files that do not exist before.
ghost use Rattle.std.specs.Prelude.{◌≡◌, IfOk, IfErr, IfSome, IsTrue};
ghost use Rattle.fs_host.specs.Faults.{may_end_writing, is_unsynced, may_be_wanting};
ghost use Rattle.fs_host.specs.Stopped.{fault_told};

mod creating;

use crate::faults::{SaveFault, Unfinished};
use crate::host_fault::HostFault;
use crate::names::parts;
use crate::new_file::paths_of;
use creating::Creating;
use fs_saving::{Unsaved, save};
use ods_base::Image;
use std::fs;
use std::fs::File;
use std::io::ErrorKind;
use std::rt::Files;

/// Writes an image, and the bytes after it, to a new file, and reads it back. The file must not exist. It gets this mode if one is given. After a
/// failure there is no such file. `fs_saving` determines the order of the steps, over any host. No contract can state what a host file receives;
/// `tests/fs_faults` checks this on the built program.
#[tactic(auto, using(crate::proofs::MayEnd::stopped_ends_writing))]
pub fn write_new<R: Files<File = File> + AllocGlobal>(
    rt: &R,
    path: &str,
    image: &Image,
    behind: &[u8],
    mode: Option<u32>,
) -> Result<Option<Unfinished>, SaveFault>
    ensures ok { IfOk result (λ wanting. IfSome wanting (λ unfinished. IsTrue (may_be_wanting unfinished))) }
    ensures err { IfErr result (λ fault. IsTrue (may_end_writing fault)) }
{
    // The host says it again where the file takes its name; here nothing has been done yet.
    if fs::symlink_metadata(rt, path).is_ok() {
        return Err(SaveFault::IsThere);
    }
    let paths = match paths_of(rt, path) {
        Ok(paths) => paths,
        Err(fault) => return Err(SaveFault::Make(fault)),
    };
    let mut folder = Creating {
        rt,
        mode,
        is_left: false,
    };
    if let Err(unsaved) = save(
        &mut folder,
        paths.hidden.as_str(),
        paths.taken.as_str(),
        image,
        behind,
    ) {
        return Err(fault_of(unsaved));
    }
    if folder.is_left {
        return Ok(Some(Unfinished::Left));
    }
    Ok(sync_folder(rt, path))
}

/// Returns the fault of a stopped save.
pub fn fault_of(unsaved: Unsaved<SaveFault>) -> SaveFault
    ensures { result ≡ fault_told unsaved }
{
    match unsaved {
        Unsaved::Make(fault) | Unsaved::Write(fault) | Unsaved::Rename(fault) => fault,
        Unsaved::Differs => SaveFault::Differs,
    }
}

/// Syncs the folder of this path, so that the name is durable. Returns the incomplete step if this fails.
#[tactic(auto, using(crate::proofs::MayEnd::error_but_unsupported))]
pub fn sync_folder<R: Files<File = File>>(rt: &R, path: &str) -> Option<Unfinished>
    ensures { IfSome result (λ unfinished. IsTrue (is_unsynced unfinished)) }
{
    let (folder, _) = parts(path);
    let done = match fs::open(rt, folder) {
        Ok(folder) => folder.sync_all(),
        Err(error) => Err(error),
    };
    let Err(error) = done else {
        return None;
    };
    match HostFault::of(&error) {
        // A file system that does not sync folders.
        HostFault::Unsupported => None,
        _ if error.kind() == ErrorKind::InvalidInput => None,
        fault => Some(Unfinished::Unsynced(fault)),
    }
}
