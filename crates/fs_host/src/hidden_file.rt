//! New files of the host under a hidden name. They are created, filled and read back there, and then receive their name or are removed.
//! No contract can state what a host file receives or returns.
ghost use Rattle.std.specs.Prelude.{◌≡◌, ◌↔◌, ◌⊎◌, IfOk, IfErr, IsTrue, string_bytes};
ghost use Rattle.fs_host.specs.Faults.{is_reason, is_reason_but_there, may_end_beginning, may_end_naming, may_end_filling};
ghost use Rattle.fs_host.specs.Making.{path_hidden};

use crate::comparing_bytes::has_bytes;
use crate::faults::SaveFault;
use crate::holes::write_holed;
use crate::host_fault::HostFault;
use crate::marks::Mark;
use crate::noting::Noting;
use ods_base::Image;
use ods_container::write_contained;
use std::fs::{File, OpenOptions, Permissions, TryLockError};
use std::io::{ErrorKind, Seek, SeekFrom};
use std::os::unix::fs::{OpenOptionsExt, PermissionsExt};
use std::rt::Files;
use std::time::{Duration, UNIX_EPOCH};
use std::{fs, io};

/// How often the hidden name is tried: another run may take it away, or leave it, meanwhile.
const TRIES: u32 = 8;

/// A new file under a hidden name. It is locked. So a hidden file without a lock is known to be left by a run that was killed.
#[derive(Drop)]
pub struct HiddenFile {
    pub file: File,
    path: String,
}

impl HiddenFile {
    /// Creates an empty file under this hidden name. If a mode is given, nobody else can read the file.
    #[tactic(auto, using(crate::proofs::MayEnd::there_ends_beginning))]
    pub fn make<R: Files<File = File>>(
        rt: &R,
        path: String,
        mode: Option<u32>,
    ) -> Result<HiddenFile, HostFault>
        ensures named { IfOk result (λ hidden. path_hidden hidden ≡ string_bytes path) }
        ensures err { IfErr result (λ fault. IsTrue (may_end_beginning fault)) }
    {
        for _ in 0..TRIES {
            if let Some(file) = make_locked(rt, path.as_str(), mode)? {
                return Ok(HiddenFile { file, path });
            }
            clear(rt, path.as_str())?;
        }
        Err(HostFault::Held)
    }

    /// Appends an image, and then these bytes, to the file. With `is_sparse` the file has holes instead of pieces of zeros.
    pub fn write(&mut self, image: &Image, behind: &[u8], is_sparse: bool) -> Result<(), SaveFault>
        ensures stays { path_hidden self.new ≡ path_hidden self.old }
        ensures err { IfErr result (λ fault. IsTrue (may_end_filling fault)) }
    {
        if is_sparse {
            write_sparse(&self.file, image, behind)
        } else {
            write_image(&mut self.file, image, behind)
        }
    }

    /// Waits until all written bytes are on the disk.
    #[tactic(auto, using(crate::proofs::MayEnd::reason_given))]
    pub fn sync(&self) -> Result<(), SaveFault>
        ensures { IfErr result (λ fault. IsTrue (may_end_filling fault)) }
    {
        match self.file.sync_all() {
            Ok(()) => Ok(()),
            Err(error) => Err(SaveFault::Write(HostFault::of(&error))),
        }
    }

    /// Reads the file back. Returns whether it has the bytes of this image, then `behind`, and nothing more.
    pub fn holds(&mut self, image: &Image, behind: &[u8]) -> bool
        ensures { path_hidden self.new ≡ path_hidden self.old }
    {
        has_bytes(&mut self.file, image, behind, false)
    }

    /// Gives the file this mode, this time of its last change and this name. The time is in seconds since 1970. A mode or a time that is not given
    /// is unchanged. With `replaces`, a file that has the name by then is deleted. Otherwise that file stays, and the new one keeps its hidden
    /// name.
    #[tactic(auto, using(crate::proofs::MayEnd::error_ends_naming, crate::proofs::MayEnd::changed_ends_naming, crate::proofs::MayEnd::reasons_end_naming))]
    pub fn take_name<R: Files<File = File>>(
        &mut self,
        rt: &R,
        name: &str,
        mode: Option<u32>,
        changed: Option<u32>,
        replaces: bool,
    ) -> Result<(), HostFault>
        ensures stays { path_hidden self.new ≡ path_hidden self.old }
        ensures err { IfErr result (λ fault. IsTrue (may_end_naming fault)) }
    {
        if let Some(mode) = mode {
            self.file.set_permissions(Permissions::from_mode(mode))?;
        }
        set_time(&self.file, changed)?;
        ask_name(rt, self.path.as_str(), &self.file)?;
        if replaces {
            fs::rename(rt, self.path.as_str(), name)?;
            return Ok(());
        }
        match fs::hard_link(rt, self.path.as_str(), name) {
            Ok(()) => Ok(()),
            Err(error) if has_no_links(error.kind()) => self.copy_out(rt, name, mode, changed),
            Err(error) => Err(HostFault::of(&error)),
        }
    }

    /// Removes the hidden name, and the file if it has no other name. Returns whether the file no longer has the hidden name. A file that another
    /// program put there stays. No contract of std states what the host does.
    pub fn take_away<R: Files<File = File>>(&self, rt: &R) -> bool {
        let is_gone = match (
            fs::symlink_metadata(rt, self.path.as_str()),
            self.file.metadata(),
        ) {
            (Ok(there), Ok(own)) => !Mark::of(&there).is_same_file(&Mark::of(&own)),
            (Err(error), _) => error.kind() == ErrorKind::NotFound,
            _ => false,
        };
        is_gone || fs::remove_file(rt, self.path.as_str()).is_ok()
    }

    /// Makes the file anew under its name, where the file system has no hard links.
    #[tactic(auto, using(crate::proofs::MayEnd::reason_given))]
    fn copy_out<R: Files<File = File>>(
        &mut self,
        rt: &R,
        name: &str,
        mode: Option<u32>,
        changed: Option<u32>,
    ) -> Result<(), HostFault>
        ensures stays { path_hidden self.new ≡ path_hidden self.old }
        ensures err { IfErr result (λ fault. IsTrue (is_reason fault)) }
    {
        let mut options = OpenOptions::new();
        options.read(true).write(true).create_new(true);
        if mode.is_some() {
            options.mode(0o600);
        }
        let mut copy = options.open(rt, name)?;
        let done = self.fill(&mut copy, mode, changed);
        if done.is_err() {
            let _ = fs::remove_file(rt, name);
        }
        done
    }

    /// Writes the bytes to another file too, and gives it the mode and the time.
    #[tactic(auto, using(crate::proofs::MayEnd::reason_given))]
    fn fill(
        &mut self,
        copy: &mut File,
        mode: Option<u32>,
        changed: Option<u32>,
    ) -> Result<(), HostFault>
        ensures stays { path_hidden self.new ≡ path_hidden self.old }
        ensures err { IfErr result (λ fault. IsTrue (is_reason fault)) }
    {
        self.file.seek(SeekFrom::Start(0))?;
        io::copy(&mut self.file, copy)?;
        if let Some(mode) = mode {
            copy.set_permissions(Permissions::from_mode(mode))?;
        }
        set_time(copy, changed)?;
        copy.sync_all()?;
        Ok(())
    }
}

/// Writes an image to a file, and these bytes behind it.
#[tactic(auto, using(crate::proofs::MayEnd::reason_given))]
fn write_image(file: &mut File, image: &Image, behind: &[u8]) -> Result<(), SaveFault>
    ensures { IfErr result (λ fault. IsTrue (may_end_filling fault)) }
{
    let mut noting = Noting::new(file);
    if write_contained(&mut noting, image, behind).is_err() {
        return Err(SaveFault::Write(noting.why()));
    }
    Ok(())
}

/// The same, with holes for pieces of zeros.
fn write_sparse(file: &File, image: &Image, behind: &[u8]) -> Result<(), SaveFault>
    ensures { IfErr result (λ fault. IsTrue (may_end_filling fault)) }
{
    match write_holed(file, image, behind) {
        Ok(_) => Ok(()),
        Err(why) => Err(SaveFault::Write(why)),
    }
}

/// Gives a file this time of its last change in seconds since 1970, where one is said.
#[tactic(auto, using(crate::proofs::MayEnd::reason_given))]
fn set_time(file: &File, changed: Option<u32>) -> Result<(), HostFault>
    ensures { IfErr result (λ fault. IsTrue (is_reason fault)) }
{
    let Some(second) = changed else {
        return Ok(());
    };
    if let Some(time) = UNIX_EPOCH.checked_add(Duration::from_secs(u64::from(second))) {
        file.set_modified(time)?;
    }
    Ok(())
}

/// Whether an error says that a file system has no hard links.
fn has_no_links(kind: ErrorKind) -> bool
    ensures { IsTrue result ↔ ((kind ≡ ErrorKind.PermissionDenied) ⊎ (kind ≡ ErrorKind.Unsupported) ⊎ (kind ≡ ErrorKind.TooManyLinks)) }
{
    matches!(
        kind,
        ErrorKind::PermissionDenied | ErrorKind::Unsupported | ErrorKind::TooManyLinks
    )
}

/// That the file has this name.
fn ask_name<R: Files<File = File>>(rt: &R, path: &str, file: &File) -> Result<(), HostFault>
    ensures { IfErr result (λ fault. fault ≡ HostFault.Changed) }
{
    match (fs::symlink_metadata(rt, path), file.metadata()) {
        (Ok(there), Ok(own)) if Mark::of(&there).is_same_file(&Mark::of(&own)) => Ok(()),
        _ => Err(HostFault::Changed),
    }
}

/// A file that is made under this name and locked; none where the name is taken, or was taken away before the lock.
#[tactic(auto, using(crate::proofs::MayEnd::error_but_there))]
fn make_locked<R: Files<File = File>>(
    rt: &R,
    path: &str,
    mode: Option<u32>,
) -> Result<Option<File>, HostFault>
    ensures { IfErr result (λ fault. IsTrue (is_reason_but_there fault)) }
{
    let mut options = OpenOptions::new();
    options.read(true).write(true).create_new(true);
    if mode.is_some() {
        options.mode(0o600);
    }
    let file = match options.open(rt, path) {
        Ok(file) => file,
        Err(error) => match HostFault::of(&error) {
            HostFault::IsThere => return Ok(None),
            fault => return Err(fault),
        },
    };
    if lock(&file).is_ok() && ask_name(rt, path, &file).is_ok() {
        Ok(Some(file))
    } else {
        Ok(None)
    }
}

/// Takes away a hidden file that nobody is writing.
#[tactic(auto, using(crate::proofs::MayEnd::error_ends_beginning, crate::proofs::MayEnd::held_ends_beginning))]
fn clear<R: Files<File = File>>(rt: &R, path: &str) -> Result<(), HostFault>
    ensures { IfErr result (λ fault. IsTrue (may_end_beginning fault)) }
{
    match fs::symlink_metadata(rt, path) {
        Ok(found) if found.is_file() => {}
        Ok(_) => return Err(HostFault::NotPlain),
        Err(error) if error.kind() == ErrorKind::NotFound => return Ok(()),
        Err(error) => return Err(HostFault::of(&error)),
    }
    let file = match fs::open(rt, path) {
        Ok(file) => file,
        Err(error) if error.kind() == ErrorKind::NotFound => return Ok(()),
        Err(error) => return Err(HostFault::of(&error)),
    };
    lock(&file)?;
    if ask_name(rt, path, &file).is_ok() {
        fs::remove_file(rt, path)?;
    }
    Ok(())
}

/// Locks the file, where no other run has it locked. A file system that has no locks is no hindrance.
fn lock(file: &File) -> Result<(), HostFault>
    ensures { IfErr result (λ fault. fault ≡ HostFault.Held) }
{
    match file.try_lock() {
        Err(TryLockError::WouldBlock) => Err(HostFault::Held),
        _ => Ok(()),
    }
}
