//! The image that a command changes: it is locked, read and saved. Each promise on what is saved holds over every `Store`.
ghost use Rattle.std.specs.Prelude.{◌≡◌, ◌||◌, false, not, IfErr, IfOk, IsTrue};
ghost use Rattle.fs_host.specs.Faults.{may_end_locking};
ghost use Rattle.fs_host.specs.Kept.{force_kept, is_floppy};

use crate::host::Host;
use fs_host::{Extent, Layers, Locked, ReadFault, SaveFault, Unfinished};
use ods_base::Image;
use std::alloc::Global;

/// A locked image, and the host on which it and its copies are saved.
pub trait Store {
    ghost use Rattle.std.specs.Prelude.{◌≡◌, ◌⊎◌, ℕ, Bool, List, Option, IfErr, IfOk, IsTrue, OnErr, OnOk};
    ghost use Rattle.fs_host.specs.Faults.{may_end_copying, may_end_storing};
    ghost use Rattle.fs_host.specs.declared.containers.Extent.{Extent as Remark};
    ghost use Rattle.f11fs.specs.Stores.{GainsNoCopy, ImageStays};

    /// The volume of the image has these blocks. For a host about which nothing is known, it has any blocks.
    ghost has: { Self → List (List ℕ) → Type 0 };

    /// The file at this path is a copy of the image, and its volume has these blocks.
    ghost has_copy: { Self → List ℕ → List (List ℕ) → Type 0 };

    /// The remark on the length of the image.
    ghost remark: { Self → Option Remark };

    /// The image is a floppy in physical order.
    ghost is_floppy: { Self → Bool };

    /// Another process may have the image open.
    ghost force: { Self → Bool };

    /// Reads the volume of the image, with the number of blocks if it is given, and in the given order.
    fn read(
        &mut self,
        alloc: Global,
        given: Option<u32>,
        layers: Layers,
    ) -> Result<Image, ReadFault>
        ensures ok { IfOk result (λ image. has self.old image) }
        ensures stays { ImageStays (has self.old) (has self.new) }
        ensures copies { GainsNoCopy (has_copy self.old) (has_copy self.new) };

    /// Returns the remark on an image that is longer or shorter than its volume.
    fn extent(&self) -> Option<Extent>
        ensures { result ≡ remark self.now };

    /// Returns the bytes after the volume.
    fn behind(&self) -> &[u8];

    /// Returns whether the image has these blocks already.
    fn is(&mut self, image: &Image) -> bool
        ensures same { IsTrue result → has self.new image.now }
        ensures stays { ImageStays (has self.old) (has self.new) }
        ensures remark { remark self.new ≡ remark self.old }
        ensures floppy { is_floppy self.new ≡ is_floppy self.old }
        ensures force { force self.new ≡ force self.old };

    /// Saves these blocks as the volume of the image. If that fails, the image has its former blocks or these.
    fn save(
        &mut self,
        image: &Image,
        backup: bool,
        break_links: bool,
    ) -> Result<Option<Unfinished>, SaveFault>
        ensures ok { OnOk result (has self.new image.now) }
        ensures kept { OnErr result (ImageStays (has self.old) (has self.new) ⊎ has self.new image.now) }
        ensures err { IfErr result (λ fault. IsTrue (may_end_storing (is_floppy self.old) (force self.old) backup break_links fault)) };

    /// Writes a copy of the image with these blocks to a path where no file is.
    fn write_copy(&mut self, path: &str, image: &Image) -> Result<Option<Unfinished>, SaveFault>
        ensures ok { OnOk result (has_copy self.new path.now image.now) }
        ensures stays { ImageStays (has self.old) (has self.new) }
        ensures err { IfErr result (λ fault. IsTrue (may_end_copying (is_floppy self.old) fault)) };
}

/// A locked image of the real host. No clause states that a host keeps the bytes that it is given, so `has` holds of all blocks here.
#[derive(Drop)]
pub struct OnHost<'r, R> {
    rt: &'r R,
    locked: Locked,
}

impl<'r, R: Host> OnHost<'r, R> {
    /// Locks the image at this path for a change that `writes` it, or for one that leaves it unchanged, as `Locked::of` does.
    pub(crate) fn lock(
        rt: &'r R,
        path: &str,
        writes: bool,
        force: bool,
    ) -> Result<OnHost<'r, R>, SaveFault>
        ensures plain { IfOk result (λ store. is_floppy store.locked ≡ false) }
        ensures alone { IfOk result (λ store. force_kept store.locked ≡ (force || not writes)) }
        ensures err { IfErr result (λ fault. IsTrue (may_end_locking writes force fault)) }
    {
        match Locked::of(rt, path, writes, force) {
            Ok(locked) => Ok(OnHost { rt, locked }),
            Err(fault) => Err(fault),
        }
    }

    /// Returns the number of processes that may have the image open and could not be searched in time.
    pub(crate) fn unseen(&self) -> u32 {
        self.locked.unseen()
    }
}

impl<R: Host> Store for OnHost<'_, R> {
    ghost use Rattle.std.specs.Prelude.{⊤};
    ghost use Rattle.fs_host.specs.Kept.{force_kept, is_floppy as floppy_locked, remark_kept};

    ghost has = { λ store blocks. ⊤ };

    ghost has_copy = { λ store path blocks. ⊤ };

    ghost remark = { λ store. remark_kept store.locked };

    ghost is_floppy = { λ store. floppy_locked store.locked };

    ghost force = { λ store. force_kept store.locked };

    fn read(
        &mut self,
        alloc: Global,
        given: Option<u32>,
        layers: Layers,
    ) -> Result<Image, ReadFault> {
        self.locked.read(alloc, given, layers)
    }

    fn extent(&self) -> Option<Extent> {
        self.locked.extent()
    }

    fn behind(&self) -> &[u8] {
        self.locked.behind()
    }

    fn is(&mut self, image: &Image) -> bool {
        self.locked.is(image)
    }

    fn save(
        &mut self,
        image: &Image,
        backup: bool,
        break_links: bool,
    ) -> Result<Option<Unfinished>, SaveFault> {
        self.locked.save(self.rt, image, backup, break_links)
    }

    fn write_copy(&mut self, path: &str, image: &Image) -> Result<Option<Unfinished>, SaveFault> {
        self.locked.write_copy(self.rt, path, image)
    }
}
