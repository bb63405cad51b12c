//! New files of the host. They are created under a hidden name next to their own, and receive their own name when they are complete.
ghost use Rattle.std.specs.Prelude.{◌≡◌, IfOk, IfErr, IsTrue, codes, string_bytes};
ghost use Rattle.fs_host.specs.Faults.{may_end_path, may_end_beginning, may_end_finish};
ghost use Rattle.fs_host.specs.Making.{file_made, path_made, hidden_made, mode_made};
ghost use Rattle.fs_host.specs.Names.{IsReached, IsHidden};

use crate::hidden_file::HiddenFile;
use crate::host_fault::HostFault;
use crate::names::{follow_links, hidden_name};
use std::fs;
use std::fs::File;
use std::rt::Files;

/// A new file that does not have its name yet.
#[derive(Drop)]
pub struct NewFile {
    made: HiddenFile,
    /// The path that it receives.
    path: String,
    /// The mode that it receives with its name. If a mode is given, nobody else can read the file until then.
    mode: Option<u32>,
}

impl NewFile {
    /// Creates an empty file next to this path, or next to the plain file that a symbolic link there reaches. If something other than a plain file
    /// is there, the error is `IsFolder` or `NotPlain`.
    pub fn begin<R: Files<File = File> + AllocGlobal>(
        rt: &R,
        path: &str,
        mode: Option<u32>,
    ) -> Result<NewFile, HostFault>
        ensures said { IfOk result (λ new. mode_made new ≡ mode) }
        ensures reached { IfOk result (λ new. IsReached path.now (path_made new)) }
        ensures hides { IfOk result (λ new. IsHidden (path_made new) (codes "new") (hidden_made new)) }
        ensures err { IfErr result (λ fault. IsTrue (may_end_beginning fault)) }
    {
        let paths = paths_of(rt, path)?;
        let made = HiddenFile::make(rt, paths.hidden, mode)?;
        Ok(NewFile {
            made,
            path: paths.taken,
            mode,
        })
    }

    /// Returns the file, at its current position.
    pub fn file(&mut self) -> &mut File
        ensures { result.now ≡ file_made self.old }
    {
        &mut self.made.file
    }

    /// Gives the file its mode, the time of its last change and its name. The time is in seconds since 1970; if none is given, the time of the host
    /// is unchanged. With `replaces`, a file that has the name by then is deleted. Otherwise that file stays, and the new one is removed.
    /// After any other failure the new file is removed too. After `Left` it has its name, and the hidden name next to it.
    #[tactic(auto, using(crate::proofs::MayEnd::naming_ends_finish))]
    pub fn finish<R: Files<File = File>>(
        mut self,
        rt: &R,
        changed: Option<u32>,
        replaces: bool,
    ) -> Result<(), HostFault>
        ensures { IfErr result (λ fault. IsTrue (may_end_finish replaces fault)) }
    {
        let taken = self
            .made
            .take_name(rt, self.path.as_str(), self.mode, changed, replaces);
        if let Err(fault) = taken {
            self.give_up(rt);
            return Err(fault);
        }
        if replaces {
            return Ok(());
        }
        if self.give_up(rt) {
            Ok(())
        } else {
            Err(HostFault::Left)
        }
    }

    /// Removes the hidden name, and the file if it has no other name. Returns whether the file no longer has the hidden name. A file that another
    /// program put there stays. No contract of std states what the host does.
    pub fn give_up<R: Files<File = File>>(self, rt: &R) -> bool {
        self.made.take_away(rt)
    }
}

/// The path that a new file receives, and its hidden path until then.
#[derive(Drop)]
pub struct Paths {
    pub taken: String,
    pub hidden: String,
}

/// Returns the paths of a new file for this path, or for the plain file that a symbolic link there reaches.
#[tactic(auto, using(crate::proofs::MayEnd::path_ends_beginning, crate::proofs::MayEnd::memory_ends_beginning))]
pub fn paths_of<R: Files + AllocGlobal>(rt: &R, path: &str) -> Result<Paths, HostFault>
    ensures reached { IfOk result (λ paths. IsReached path.now (string_bytes paths.taken)) }
    ensures hides { IfOk result (λ paths. IsHidden (string_bytes paths.taken) (codes "new") (string_bytes paths.hidden)) }
    ensures err { IfErr result (λ fault. IsTrue (may_end_beginning fault)) }
{
    let taken = taken_path(rt, path)?;
    let hidden = hidden_name(rt.alloc(), taken.as_str(), "new")?;
    Ok(Paths { taken, hidden })
}

/// The path of a plain file or of nothing, with no symbolic link at its end.
#[tactic(auto, using(crate::proofs::MayEnd::error_ends_path, crate::proofs::MayEnd::memory_ends_path, crate::proofs::MayEnd::reason_ends_path))]
fn taken_path<R: Files + AllocGlobal>(rt: &R, path: &str) -> Result<String, HostFault>
    ensures ok { IfOk result (λ taken. IsReached path.now (string_bytes taken)) }
    ensures err { IfErr result (λ fault. IsTrue (may_end_path fault)) }
{
    if let Err(error) = fs::symlink_metadata(rt, path) {
        return match HostFault::of(&error) {
            HostFault::NotThere => Ok(String::from_str(rt.alloc(), path)?),
            fault => Err(fault),
        };
    }
    let path = match follow_links(rt, path) {
        Ok(path) => path,
        // A link that leads to nothing.
        Err(HostFault::NotThere) => return Err(HostFault::IsThere),
        Err(fault) => return Err(fault),
    };
    let found = fs::symlink_metadata(rt, path.as_str())?;
    if found.is_dir() {
        Err(HostFault::IsFolder)
    } else if found.is_file() {
        Ok(path)
    } else {
        Err(HostFault::NotPlain)
    }
}
