//! Images of the host that are changed: locked before they are read, and saved as a whole under their name or not at all.
ghost use Rattle.std.specs.Prelude.{◌≡◌, ◌↔◌, ◌||◌, ◌<◌, ◌^◌, ℕ, List, [], Some, None, not, IfOk, IfErr, IfSome, OnOk, OnErr, IsSomeAnd, IsTrue, IsFalse, length};
ghost use Rattle.std.specs.Fs.{metadata_len};
ghost use Rattle.fs_host.specs.Faults.{may_end_opening, may_end_asking, may_end_locking, may_end_keeping, may_end_giving, may_end_leaving, may_end_saving, may_end_storing, may_end_copying, is_unsynced, may_be_wanting};
ghost use Rattle.fs_host.specs.Found.{IsRemark, SaysShort};
ghost use Rattle.fs_host.specs.Layers.{IsReadIn, IsLaidIn, IsUnfit, MayNotBeRead};
ghost use Rattle.fs_host.specs.Kept.{bytes_kept, remark_kept, floppy_kept, is_floppy, mode_kept, force_kept, path_kept, size_kept, unseen_kept, KeepsAll};
ghost use Rattle.fs_host.specs.Names.{IsReached};

mod replacing;

use crate::comparing_bytes::{has_bytes, has_only};
use crate::containers::Extent;
use crate::faults::{SaveFault, Unfinished};
use crate::floppies::{Floppy, no_blocks, write_floppy};
use crate::host_fault::HostFault;
use crate::in_use::holder_of;
use crate::layers::{Layered, Layers, ReadFault, layered_in};
use crate::marks::Mark;
use crate::names::{follow_links, hidden_name, parts};
use crate::new_file::paths_of;
use crate::sought::Sought;
use crate::watch::Watch;
use crate::writing::{fault_of, sync_folder, write_new};
use fs_saving::save;
use ods_base::Image;
use replacing::Replacing;
use std::alloc::Global;
use std::fs;
use std::fs::{File, Metadata, OpenOptions, TryLockError};
use std::os::unix::fs::{FileTypeExt, MetadataExt, fchown};
use std::rt::{Clock, Files};

/// The bits of a mode that say who may do what.
const MODE_BITS: u32 = 0o7777;

/// An image that no other run of this program changes while this value exists. It is open only for reading.
#[derive(Drop)]
pub struct Locked {
    file: File,
    /// Its path, without a link at its end.
    path: String,
    mark: Mark,
    /// The bits of its mode.
    mode: u32,
    /// Whether another process may have it open.
    force: bool,
    /// The number of processes that may have it open and could not be searched.
    unseen: u32,
    /// The bytes after the volume that was read, and the remark on its length.
    behind: Vec<u8>,
    extent: Option<Extent>,
    /// The bytes of a floppy in physical order, if the image is one.
    floppy: Option<Floppy>,
}

impl Locked {
    /// Locks the image at this path for a change that `writes` it, or for one that leaves it unchanged. An image that is written has to be a plain
    /// file. It is refused if another process has it open, unless `force`. An image that is not written may be a block device.
    #[tactic(auto, using(crate::proofs::MayEnd::reason_given, crate::proofs::MayEnd::opening_ends_locking, crate::proofs::MayEnd::asking_ends_locking))]
    pub fn of<R: Files<File = File> + Clock + AllocGlobal + Clone + Drop>(
        rt: &R,
        path: &str,
        writes: bool,
        force: bool,
    ) -> Result<Locked, SaveFault>
        ensures unread { IfOk result (λ locked. (bytes_kept locked ≡ []) × (remark_kept locked ≡ None)) }
        ensures plain { IfOk result (λ locked. floppy_kept locked ≡ None) }
        ensures reached { IfOk result (λ locked. IsReached path.now (path_kept locked)) }
        ensures bits { IfOk result (λ locked. mode_kept locked < 2 ^ 12) }
        ensures alone { IfOk result (λ locked. force_kept locked ≡ (force || not writes)) }
        ensures err { IfErr result (λ fault. IsTrue (may_end_locking writes force fault)) }
    {
        let path = match follow_links(rt, path) {
            Ok(path) => path,
            Err(fault) => return Err(SaveFault::Read(fault)),
        };
        let file = open_image(rt, path.as_str(), writes)?;
        match file.try_lock() {
            Ok(()) => {}
            Err(TryLockError::WouldBlock) => return Err(SaveFault::Held),
            Err(TryLockError::Error(error)) => return Err(SaveFault::Lock(HostFault::of(&error))),
        }
        let metadata = match file.metadata() {
            Ok(metadata) => metadata,
            Err(error) => return Err(SaveFault::Read(HostFault::of(&error))),
        };
        let mut locked = Locked {
            file,
            path,
            mark: Mark::of(&metadata),
            mode: metadata.mode() & MODE_BITS,
            force: force || !writes,
            unseen: 0,
            behind: Vec::new(rt.alloc()),
            extent: None,
            floppy: None,
        };
        // Who had the lock before may have put another file under this name.
        locked.unseen = locked.ask_alone(rt)?;
        Ok(locked)
    }

    /// Returns the number of processes that could not be searched before the search for a process with the image open ran out of time.
    pub fn unseen(&self) -> u32
        ensures { result ≡ unseen_kept self.now }
    {
        self.unseen
    }

    /// Reads the volume in the locked image, with the number of blocks if it is given, and in the given order.
    /// No contract can state which bytes a host file returns.
    pub fn read(
        &mut self,
        alloc: Global,
        given: Option<u32>,
        layers: Layers,
    ) -> Result<Image, ReadFault>
        ensures ok { IfOk result (λ image. (told : ℕ) × (n : ℕ) × IsReadIn layers told given image (bytes_kept self.new) n (floppy_kept self.new)
            × IsRemark n (length image) (bytes_kept self.new) (remark_kept self.new)) }
        ensures err { IfErr result (λ fault. (told : ℕ) × MayNotBeRead layers told fault) }
        ensures unread { OnErr result ((bytes_kept self.new ≡ bytes_kept self.old) × (remark_kept self.new ≡ remark_kept self.old) × (floppy_kept self.new ≡ floppy_kept self.old)) }
        ensures mode { mode_kept self.new ≡ mode_kept self.old }
        ensures force { force_kept self.new ≡ force_kept self.old }
    {
        match layered_in(alloc, &mut self.file, given, layers) {
            Ok(read) => {
                let Layered { contained, floppy } = read;
                self.extent = Extent::of(&contained);
                self.behind = contained.behind;
                self.floppy = floppy;
                Ok(contained.image)
            }
            Err(fault) => Err(fault),
        }
    }

    /// Returns the remark on an image that is longer or shorter than its volume.
    pub fn extent(&self) -> Option<Extent>
        ensures { result ≡ remark_kept self.now }
    {
        self.extent
    }

    /// Returns whether the image is shorter than its volume.
    pub fn is_short(&self) -> bool
        ensures { IsTrue result ↔ IsSomeAnd (remark_kept self.now) SaysShort }
    {
        match &self.extent {
            Some(extent) => extent.is_short(),
            None => false,
        }
    }

    /// Returns the bytes after the volume.
    pub fn behind(&self) -> &[u8]
        ensures { result.now ≡ bytes_kept self.now }
    {
        self.behind.as_slice()
    }

    /// Puts this volume into the floppy that is kept, where the image is one; whether it fits there.
    fn lay(&mut self, image: &Image) -> bool
        ensures keeps { KeepsAll self.old self.new }
        ensures laid { IsTrue result → IsLaidIn image.now (bytes_kept self.old) (floppy_kept self.old) (floppy_kept self.new) }
        ensures unfit { IsFalse result → IsUnfit image.now (bytes_kept self.old) (floppy_kept self.old) }
        ensures stays { IsFalse result → floppy_kept self.new ≡ floppy_kept self.old }
    {
        match &mut self.floppy {
            Some(floppy) => floppy.lay(image, self.behind.as_slice()),
            None => true,
        }
    }

    /// Returns whether the file has the bytes of this volume, and the bytes that were after it. A kept floppy then has this volume.
    /// No contract can state which bytes a host file returns.
    pub fn is(&mut self, image: &Image) -> bool
        ensures keeps { KeepsAll self.old self.new }
        ensures laid { IsTrue result → IsLaidIn image.now (bytes_kept self.old) (floppy_kept self.old) (floppy_kept self.new) }
    {
        if !self.lay(image) {
            return false;
        }
        let is_short = self.is_short();
        match &self.floppy {
            Some(floppy) => has_only(&mut self.file, floppy.bytes()),
            None => has_bytes(&mut self.file, image, self.behind.as_slice(), is_short),
        }
    }

    /// Returns the bits of its mode, as `write_new` accepts them.
    pub fn mode(&self) -> Option<u32>
        ensures { result ≡ Some (mode_kept self.now) }
    {
        Some(self.mode)
    }

    /// What the host says of the file under this name, which is the one that was locked, and as it was then.
    fn look_again<R: Files>(&self, rt: &R) -> Result<Metadata, SaveFault>
        ensures ok { IfOk result (λ found. metadata_len found ≡ size_kept self.now) }
        ensures err { IfErr result (λ fault. fault ≡ SaveFault.Changed) }
    {
        match fs::symlink_metadata(rt, self.path.as_str()) {
            Ok(metadata) if Mark::of(&metadata) == self.mark => Ok(metadata),
            Ok(_) => Err(SaveFault::Changed),
            Err(_) => Err(SaveFault::Changed),
        }
    }

    /// That the file is as it was, and no other process has it open. How many could not be looked at in time.
    #[tactic(auto, using(crate::proofs::MayEnd::changed_ends_asking, crate::proofs::MayEnd::is_not))]
    fn ask_alone<R: Files<File = File> + Clock + AllocGlobal + Clone + Drop>(
        &self,
        rt: &R,
    ) -> Result<u32, SaveFault>
        ensures { IfErr result (λ fault. IsTrue (may_end_asking (force_kept self.now) fault)) }
    {
        let found = self.look_again(rt)?;
        if self.force {
            return Ok(0);
        }
        let mut watch = Watch::begun(rt);
        let (_, name) = parts(self.path.as_str());
        let Some(sought) = Sought::of(rt, &self.file, &found, name) else {
            return Ok(0);
        };
        match holder_of(rt, &sought, &mut watch) {
            Some(holder) => Err(SaveFault::InUse(holder)),
            None => Ok(watch.left_out()),
        }
    }

    /// Saves the image under the name of the locked one, as `store` specifies. A floppy receives the volume in its sectors, and keeps its other
    /// bytes.
    #[tactic(auto, using(crate::proofs::MayEnd::memory_ends_storing, crate::proofs::Failed::on_ok, crate::proofs::Storing::unfit_ends_storing, crate::proofs::Storing::errs_storing))]
    pub fn save<R: Files<File = File> + Clock + AllocGlobal + Clone + Drop>(
        &mut self,
        rt: &R,
        image: &Image,
        backup: bool,
        break_links: bool,
    ) -> Result<Option<Unfinished>, SaveFault>
        ensures ok { IfOk result (λ wanting. IfSome wanting (λ unfinished. IsTrue (is_unsynced unfinished))) }
        ensures laid { OnOk result (IsLaidIn image.now (bytes_kept self.old) (floppy_kept self.old) (floppy_kept self.new)) }
        ensures err { IfErr result (λ fault. IsTrue (may_end_storing (is_floppy self.old) (force_kept self.old) backup break_links fault)) }
    {
        if !self.lay(image) {
            return Err(SaveFault::Unfit);
        }
        match &self.floppy {
            Some(floppy) => {
                let none = no_blocks(rt.alloc())?;
                self.store(rt, &none, floppy.bytes(), backup, break_links)
            }
            None => self.store(rt, image, self.behind.as_slice(), backup, break_links),
        }
    }

    /// Writes the image to a file that does not exist before, in the same way as `write_new`, with the mode of the locked one. A floppy is written
    /// as a whole.
    #[tactic(auto, using(crate::proofs::Failed::on_ok, crate::proofs::Storing::unfit_ends_copying, crate::proofs::Storing::errs_copying))]
    pub fn write_copy<R: Files<File = File> + AllocGlobal>(
        &mut self,
        rt: &R,
        path: &str,
        image: &Image,
    ) -> Result<Option<Unfinished>, SaveFault>
        ensures ok { IfOk result (λ wanting. IfSome wanting (λ unfinished. IsTrue (may_be_wanting unfinished))) }
        ensures laid { OnOk result (IsLaidIn image.now (bytes_kept self.old) (floppy_kept self.old) (floppy_kept self.new)) }
        ensures err { IfErr result (λ fault. IsTrue (may_end_copying (is_floppy self.old) fault)) }
    {
        if !self.lay(image) {
            return Err(SaveFault::Unfit);
        }
        match &self.floppy {
            Some(floppy) => write_floppy(rt, path, floppy, Some(self.mode)),
            None => write_new(rt, path, image, self.behind.as_slice(), Some(self.mode)),
        }
    }

    /// Saves these blocks, and the bytes behind them, under the name of the image that was locked: a new file beside it gets its owner and mode and the new bytes, is
    /// read back, and takes its name. After a failure that file is gone, and the old image is there. What it gives is to be said, and
    /// the image is saved.
    /// `fs_saving` keeps the order of these, over any host. No contract can say what a host file takes: `tests/fs_faults` checks that
    /// the image is whole or as it was.
    #[tactic(auto, using(crate::proofs::MayEnd::changed_ends_saving, crate::proofs::MayEnd::memory_ends_saving, crate::proofs::MayEnd::stopped_ends_saving, crate::proofs::MayEnd::is_not))]
    fn store<R: Files<File = File> + Clock + AllocGlobal + Clone + Drop>(
        &self,
        rt: &R,
        image: &Image,
        behind: &[u8],
        backup: bool,
        break_links: bool,
    ) -> Result<Option<Unfinished>, SaveFault>
        ensures ok { IfOk result (λ wanting. IfSome wanting (λ unfinished. IsTrue (is_unsynced unfinished))) }
        ensures err { IfErr result (λ fault. IsTrue (may_end_saving (force_kept self.now) backup break_links fault)) }
    {
        self.look_again(rt)?;
        self.drop_name(rt, "old")?;
        self.drop_name(rt, "new")?;
        let old = self.look_again(rt)?;
        let kept = format!(in rt.alloc(); "{}~", self.path.as_str())?;
        // A backup is a second name where a run was ended by force just behind it.
        let most = if self.ask_named(rt, kept.as_str()).is_ok() {
            2
        } else {
            1
        };
        if !break_links && old.nlink() > most {
            return Err(SaveFault::Links);
        }
        let paths = match paths_of(rt, self.path.as_str()) {
            Ok(paths) => paths,
            Err(fault) => return Err(SaveFault::Make(fault)),
        };
        let mut folder = Replacing {
            rt,
            locked: self,
            old: &old,
            backup,
            kept: kept.as_str(),
        };
        match save(
            &mut folder,
            paths.hidden.as_str(),
            paths.taken.as_str(),
            image,
            behind,
        ) {
            Ok(()) => Ok(sync_folder(rt, self.path.as_str())),
            Err(unsaved) => Err(fault_of(unsaved)),
        }
    }

    /// Takes away a hidden name of the image that a run left which was ended by force.
    fn drop_name<R: Files + AllocGlobal>(&self, rt: &R, word: &str) -> Result<(), SaveFault>
        ensures { IfErr result (λ fault. fault ≡ SaveFault.NoMemory) }
    {
        let name = hidden_name(rt.alloc(), self.path.as_str(), word)?;
        if self.ask_named(rt, name.as_str()).is_ok() {
            let _ = fs::remove_file(rt, name.as_str());
        }
        Ok(())
    }

    /// That this is a name of the image.
    fn ask_named<R: Files>(&self, rt: &R, name: &str) -> Result<(), SaveFault>
        ensures { IfErr result (λ fault. fault ≡ SaveFault.Changed) }
    {
        match fs::symlink_metadata(rt, name) {
            Ok(found) if self.mark.is_same_file(&Mark::of(&found)) => Ok(()),
            _ => Err(SaveFault::Changed),
        }
    }

    /// That the old image may go: it is as it was, alone, and kept where that is asked for.
    #[tactic(auto, using(crate::proofs::MayEnd::asking_ends_leaving, crate::proofs::MayEnd::keeping_ends_leaving, crate::proofs::MayEnd::memory_ends_leaving, crate::proofs::MayEnd::changed_ends_leaving))]
    fn leave<R: Files<File = File> + Clock + AllocGlobal + Clone + Drop>(
        &self,
        rt: &R,
        backup: bool,
        kept: &str,
    ) -> Result<(), SaveFault>
        ensures { IfErr result (λ fault. IsTrue (may_end_leaving (force_kept self.now) backup fault)) }
    {
        self.ask_alone(rt)?;
        if backup {
            let linked = hidden_name(rt.alloc(), self.path.as_str(), "old")?;
            self.keep(rt, linked.as_str(), kept)?;
            self.look_again(rt)?;
        }
        Ok(())
    }

    /// Gives the old image a second name, by way of `linked`, so that an older backup is there until then.
    #[tactic(auto, using(crate::proofs::MayEnd::reason_given, crate::proofs::MayEnd::changed_ends_keeping))]
    fn keep<R: Files>(&self, rt: &R, linked: &str, kept: &str) -> Result<(), SaveFault>
        ensures { IfErr result (λ fault. IsTrue (may_end_keeping fault)) }
    {
        let _ = fs::remove_file(rt, linked);
        if let Err(error) = fs::hard_link(rt, self.path.as_str(), linked) {
            return Err(SaveFault::Backup(HostFault::of(&error)));
        }
        if let Err(fault) = self.ask_named(rt, linked) {
            let _ = fs::remove_file(rt, linked);
            return Err(fault);
        }
        let done = fs::rename(rt, linked, kept);
        // Where both were names of one file already the host leaves both.
        let _ = fs::remove_file(rt, linked);
        match done {
            Ok(()) => Ok(()),
            Err(error) => Err(SaveFault::Backup(HostFault::of(&error))),
        }
    }
}

/// The file at this path, open for reading. That it may be written is asked by another descriptor, which is closed at once.
#[tactic(auto, using(crate::proofs::MayEnd::reason_given, crate::proofs::MayEnd::written_but_denied))]
fn open_image<R: Files<File = File>>(rt: &R, path: &str, writes: bool) -> Result<File, SaveFault>
    ensures { IfErr result (λ fault. IsTrue (may_end_opening writes fault)) }
{
    match fs::symlink_metadata(rt, path) {
        Ok(found) if found.is_file() => {}
        Ok(found) if found.file_type().is_block_device() && !writes => {}
        Ok(_) => return Err(SaveFault::NotPlain),
        Err(error) => return Err(SaveFault::Read(HostFault::of(&error))),
    }
    if writes {
        let mut options = OpenOptions::new();
        options.write(true);
        match options.open(rt, path) {
            Ok(_) => {}
            Err(error) => match HostFault::of(&error) {
                HostFault::Denied => return Err(SaveFault::Denied),
                fault => return Err(SaveFault::Write(fault)),
            },
        }
    }
    match fs::open(rt, path) {
        Ok(file) => Ok(file),
        Err(error) => Err(SaveFault::Read(HostFault::of(&error))),
    }
}

/// Gives a new file the owner of the old one. It is asked only where it matters: most users may give none away.
#[tactic(auto, using(crate::proofs::MayEnd::reason_given))]
fn give_owner(new: &File, old: &Metadata) -> Result<(), SaveFault>
    ensures { IfErr result (λ fault. IsTrue (may_end_giving fault)) }
{
    let own = match new.metadata() {
        Ok(own) => own,
        Err(error) => return Err(SaveFault::Mode(HostFault::of(&error))),
    };
    if own.uid() == old.uid() && own.gid() == old.gid() {
        return Ok(());
    }
    match fchown(new, Some(old.uid()), Some(old.gid())) {
        Ok(()) => Ok(()),
        Err(error) => Err(SaveFault::Mode(HostFault::of(&error))),
    }
}
