//! Requests of a user on a sound volume.
ghost use Rattle.std.specs.Prelude.{◌≡◌, length, true, IfOk, IfErr, OnOk, OnErr};
ghost use Rattle.std.specs.List.{All};
ghost use Rattle.ods_space.specs.{Disks.on, Free.free_blocks, Free.free_numbers};
ghost use Rattle.ods_mount.specs.Sound.{IsSoundBy};
ghost use Rattle.ods_state.specs.{Outcome.CanBeAsked, Served.IsRefusalOf};
ghost use Rattle.ods_amend.specs.Bits.{IsLoose};
ghost use Rattle.ods_amend.specs.Access.{protection_at};
ghost use Rattle.ods_filing.specs.Amended.{HasGiven, HasGotLabel, HasProtection, IsWhyNotGiven, IsWhyNotProtected};
ghost use Rattle.ods_filing.specs.Contiguous.{HasCharacterised, HasMarked};
ghost use Rattle.ods_filing.specs.Filed.{disk_at, for_another, HasGrown, IsDone, IsWhyNotGrown, lacking};

use ods_base::{FileId, Uic};
use ods_init::Label;
use ods_mount::Mounted;
use ods_request::{Answer, Refusal, Request};
use ods_space::Disk;
use ods_volume::Sound;
use std::alloc::{AllocError, Global};
use std::marker::Model;

/// A sound volume, and the user whose requests change it.
#[derive(Drop)]
pub struct Filing {
    sound: Sound,
    user: Uic,
}

impl Model for Filing {
    ghost use Rattle.ods_filing.specs.Amended.{HasGiven, HasGotLabel, IsWhyNotGiven};
    ghost use Rattle.ods_filing.specs.Filed.{Filed};

    ghost Value = { Filed };

    ghost view = { λ f. record { image = f.sound.image; layout = f.sound.layout; user = f.user } };
}

impl Filing {
    /// Takes a volume for the requests of a user. When out of memory, the volume is dropped.
    pub fn new(alloc: Global, volume: Mounted, user: Uic) -> Result<Filing, AllocError>
        ensures { IfOk result (λ f. f ≡ record { image = volume.image; layout = volume.layout; user = user }) }
    {
        match Sound::new(alloc, volume) {
            Ok(sound) => Ok(Filing { sound, user }),
            Err(_) => Err(AllocError),
        }
    }

    /// Carries out one request. If refused, it changes nothing.
    pub fn request(&mut self, request: &Request) -> Result<Answer, Refusal>
        // A version that is given is 1 to 32,767.
        requires { CanBeAsked request.now }
        // Accepted, it is a step of the catalogue that the blocks show, and they show then what it leaves.
        ensures accepted { IfOk result (λ a. IsDone self.old request.now a self.new) }
        ensures refused { IfErr result (IsRefusalOf self.old.image self.old.layout self.old.user request.now) }
        ensures unchanged { OnErr result (self.new ≡ self.old) }
    {
        let _ = self.sound.disk();
        self.sound.request(self.user, request)
    }

    /// Prepares headers for `files` later files, of one header each. INDEXF.SYS gains the headers that it lacks, all at once, so that its last header
    /// takes as few pointers for them as possible. Call this before the creation of many files: otherwise each takes a pointer. If refused, it
    /// changes nothing.
    pub fn make_ready(&mut self, files: u32) -> Result<(), Refusal>
        // The blocks show the catalogues that they showed, and nothing else is done.
        ensures grown { OnOk result (HasGrown self.old (lacking self.old files) self.new) }
        // There is no memory, or what it takes is not there, which is HeadersFull.
        ensures refused { IfErr result (IsWhyNotGrown self.old (lacking self.old files)) }
        ensures unchanged { OnErr result (self.new ≡ self.old) }
    {
        let lacking = files.saturating_sub(self.sound.number_count());
        self.sound.grow_index(lacking)
    }

    /// Sets the owner and the protection word of a file, each if given, as the user. If refused, it changes nothing.
    pub fn set_access(
        &mut self,
        file: FileId,
        owner: Option<Uic>,
        protection: Option<u16>,
    ) -> Result<(), Refusal>
        ensures given { OnOk result (HasGiven self.old file owner protection self.new) }
        // By each catalogue that the blocks show, its first fault is the reason, or there is none and no memory.
        ensures refused { IfErr result (IsWhyNotGiven self.old file) }
        ensures unchanged { OnErr result (self.new ≡ self.old) }
    {
        self.sound.set_access(self.user, file, owner, protection)
    }

    /// Sets the protection word of a file, and returns the word before. The file may be a system file, and no right is required. The refusals are
    /// NoSuchFile and NoMemory. If refused, it changes nothing.
    pub fn replace_protection(&mut self, file: FileId, protection: u16) -> Result<u16, Refusal>
        ensures set { OnOk result (HasProtection self.old file protection self.new) }
        ensures before { IfOk result (λ word. word ≡ protection_at (disk_at self.old) file) }
        ensures refused { IfErr result (IsWhyNotProtected self.old file) }
        ensures unchanged { OnErr result (self.new ≡ self.old) }
    {
        self.sound.replace_protection(file, protection)
    }

    /// Sets the user characteristics of a file, H.UCHA, as the user. If refused, it changes nothing.
    pub fn set_characteristics(&mut self, file: FileId, flags: u8) -> Result<(), Refusal>
        ensures given { OnOk result (HasCharacterised self.old file flags self.new) }
        ensures refused { IfErr result (IsWhyNotGiven self.old file) }
        ensures unchanged { OnErr result (self.new ≡ self.old) }
    {
        self.sound.set_characteristics(self.user, file, flags)
    }

    /// Marks blocks, given by their LBNs, as free or in use in the storage bitmap. A block to free must belong to no file, and must not be a place
    /// before the home block where a mount searches for one. It fails only when out of memory, and then changes nothing.
    pub fn mark_blocks(&mut self, blocks: &[u32], free: bool) -> Result<(), AllocError>
        requires { free ≡ true → All (IsLoose self.old.image self.old.layout) blocks.now }
        ensures marked { OnOk result (HasMarked self.old blocks.now free self.new) }
        ensures unchanged { OnErr result (self.new ≡ self.old) }
    {
        self.sound.mark_blocks(blocks, free)
    }

    /// Sets the label of the volume. It fails only when out of memory, and then changes nothing.
    pub fn set_label(&mut self, label: &Label) -> Result<(), AllocError>
        ensures given { OnOk result (HasGotLabel self.old label.now self.new) }
        ensures unchanged { OnErr result (self.new ≡ self.old) }
    {
        self.sound.set_label(label)
    }

    /// Sets the user of the next requests.
    pub fn set_user(&mut self, user: Uic)
        ensures { self.new ≡ for_another self.old user }
    {
        self.user = user;
    }

    /// Returns the volume as it is now, which is mounted and sound.
    pub fn mounted(&self) -> &Mounted
        ensures { (result.now.image ≡ self.now.image) × (result.now.layout ≡ self.now.layout) }
    {
        self.sound.mounted()
    }

    /// Returns the image with its layout, as they are now.
    pub fn disk(&self) -> Disk<'_>
        ensures image { result.image.now ≡ self.now.image }
        ensures layout { result.layout.now ≡ self.now.layout }
        ensures sound { on IsSoundBy result }
    {
        self.sound.disk()
    }

    /// Returns the number of free blocks. They are counted for each block of the bitmap, so the bitmap is not read.
    pub fn free_count(&self) -> u32
        ensures { result ≡ length (free_blocks self.now.image self.now.layout) }
    {
        self.sound.free_count()
    }

    /// Returns the number of free file numbers with a header: how many files can be made before INDEXF.SYS has to grow.
    pub fn number_count(&self) -> u32
        ensures { result ≡ length (free_numbers self.now.image self.now.layout) }
    {
        self.sound.number_count()
    }

    /// Returns the user of the requests.
    pub fn user(&self) -> Uic
        ensures { result ≡ self.now.user }
    {
        self.user
    }

    /// Returns the volume as it is now. It takes no memory.
    pub fn into_mounted(self) -> Mounted
        ensures { (result.image ≡ self.image) × (result.layout ≡ self.layout) }
    {
        self.sound.into_mounted()
    }
}
