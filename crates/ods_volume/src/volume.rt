//! The volume: how it begins, and what it returns.
ghost use Rattle.std.specs.Prelude.{◌≡◌, ◌≤◌, [], length, IfOk, IfErr};
ghost use Rattle.ods_alloc.specs.Counts.{free_counts};
ghost use Rattle.ods_space.specs.Free.{free_blocks, free_numbers};
ghost use Rattle.ods_mount.specs.{Faults.IsSound, Sound.IsSoundBy};
ghost use Rattle.ods_request.specs.Catalogue.{Catalogue};
ghost use Rattle.ods_state.specs.Version.{IsVersionBy, IsPresent, IsLawful};

use crate::entries::Entries;
use crate::sound::Sound;
use ods_base::{FixedImage, Image, NoMemory};
use ods_mount::Mounted;
use ods_space::{Disk, Layout};
use std::alloc::Global;
use std::marker::Model;

/// A sound volume that changes by requests, the image as it was mounted, and the list of accepted requests. The image shows the catalogue of the
/// mounted image after the entries, applied in order. The list stays within its limit. No new file receives an ID of the catalogue's past.
#[derive(Drop)]
pub struct Volume {
    pub(crate) mounted: FixedImage,
    pub(crate) sound: Sound,
    pub(crate) entries: Entries,
    pub(crate) limit: u32,
}

impl Model for Volume {
    ghost use Rattle.ods_state.specs.Version.{State};

    ghost Value = { State };

    ghost use Rattle.ods_volume.specs.Kept.{state_of, IsKept};

    ghost view = { state_of };

    ghost invariant = { λ v. IsKept (state_of v) v.entries.room };
}

impl Volume {
    ghost use Rattle.ods_space.specs.Disks.{on};
    /// Returns the volume of a mounted image, with an empty list and the free blocks and numbers counted. It takes all the memory of the list, for
    /// `limit` entries. When out of memory, it returns the mounted image with the error.
    pub fn new(alloc: Global, mounted: Mounted, limit: u32) -> Result<Volume, (Mounted, NoMemory)>
        requires low { 1 ≤ limit }
        requires high { limit ≤ 65536 }
        ensures ok { IfOk result (λ v. v ≡ record { mounted = mounted.image; entries = []; image = mounted.image; layout = mounted.layout; limit = limit }) }
        ensures err { IfErr result (λ e. e.0 ≡ mounted) }
    {
        let entries = match Entries::with_capacity(alloc, limit as usize) {
            Ok(entries) => entries,
            Err(_) => return Err((mounted, NoMemory)),
        };
        let (fixed, image, layout) = match mounted.split() {
            Ok(parts) => parts,
            Err(mounted) => return Err((mounted, NoMemory)),
        };
        let sound = match Sound::new(alloc, Mounted::of(image, layout)) {
            Ok(sound) => sound,
            Err(error) => return Err(error),
        };
        Ok(Volume {
            mounted: fixed,
            sound,
            entries,
            limit,
        })
    }

    /// Returns the volume as it is now, and drops its list. It takes no memory.
    pub fn into_mounted(self) -> Mounted
        ensures { (result.image ≡ self.image) × (result.layout ≡ self.layout) }
    {
        self.sound.into_mounted()
    }

    /// Each volume has a present catalogue.
    pub fn present(&self)
        ensures { (C : Catalogue) × IsPresent self.now C }
    {
        let _ = &self.limit;
    }

    /// Each volume is lawful.
    pub fn is_lawful(&self)
        ensures { IsLawful self.now }
    {
        let _ = &self.limit;
    }

    /// Returns the accepted requests, the oldest first.
    pub fn entries(&self) -> &Entries
        ensures { result.now.items ≡ self.now.entries }
    {
        &self.entries
    }

    /// Returns the image as it is now. It is a version of the mounted image, and no fault holds for it.
    pub fn image(&self) -> &Image
        ensures value { result.now ≡ self.now.image }
        ensures no_fault { IsSound self.now.image }
        ensures version { IsVersionBy self.now.mounted self.now.entries self.now.image self.now.layout }
    {
        self.sound.mounted().image()
    }

    /// Returns the layout of the image.
    pub fn layout(&self) -> &Layout
        ensures { result.now ≡ self.now.layout }
    {
        self.sound.mounted().layout()
    }

    /// Returns the image with its layout, as they are now.
    pub fn disk(&self) -> Disk<'_>
        ensures image { result.image.now ≡ self.now.image }
        ensures layout { result.layout.now ≡ self.now.layout }
        ensures sound { on IsSoundBy result }
    {
        self.sound.disk()
    }

    /// Returns the image as it was mounted.
    pub fn mounted(&self) -> &FixedImage
        ensures { result.now ≡ self.now.mounted }
    {
        &self.mounted
    }

    /// Returns the highest number of entries of the list, from 1 to 65,536.
    pub fn limit(&self) -> u32
        ensures value { result ≡ self.now.limit }
        ensures low { 1 ≤ result }
        ensures high { result ≤ 65536 }
    {
        self.limit
    }

    /// Returns the number of free blocks.
    pub fn free_count(&self) -> u32
        ensures { result ≡ length (free_blocks self.now.image self.now.layout) }
    {
        self.sound.free_count()
    }

    /// Returns the number of free blocks that each block of the storage bitmap covers, in order. The storage control block is not counted. The counts
    /// are kept, and equal new counts of the image.
    pub fn counts(&self) -> &[u32]
        ensures { result.now ≡ free_counts self.now.image self.now.layout }
    {
        self.sound.counts()
    }

    /// Returns the number of free file numbers.
    pub fn number_count(&self) -> u32
        ensures { result ≡ length (free_numbers self.now.image self.now.layout) }
    {
        self.sound.number_count()
    }
}
