//! The volume of an image that is read, sound or not. A command goes on if the home block and INDEXF.SYS locate files.
ghost use Rattle.std.specs.Prelude.{◌≡◌, ◌≢◌, IfErr, IfOk};
ghost use Rattle.ods_mount.specs.Faults.{FaultIsTrue};
ghost use Rattle.fs_reads.specs.{Readable.IsJudged, Readable.IsReadableOf, Readable.LacksLayout, Readable.Opened, Volumes.IsNoVolume};
ghost use Rattle.fs_reads.specs.declared.volume.VolumeFault.{VolumeFault as Fault};

use crate::informing::behind_by;
use crate::passed_over::say_passed_over;
use crate::stop::{Stop, say_end};
use crate::volume::{VolumeFault, no_volume, not_mounted, open_image, say_extent};
use fs_host::{Extent, Layers};
use ods_base::Image;
use ods_mount::{MountFault, Mounted, mount, readable_layout};
use ods_shell::Status;
use ods_space::{Disk, Layout};
use std::fs::File;
use std::marker::Model;
use std::rt::Files;

/// An image with its layout, whether a mount accepts it, and how many bytes of the host file come past the volume.
#[derive(Drop)]
pub struct Readable {
    image: Image,
    layout: Layout,
    is_sound: bool,
    behind: u64,
}

impl Model for Readable {
    ghost use Rattle.ods_space.specs.Files.{FindsFiles};
    ghost use Rattle.fs_reads.specs.Readable.{Opened};

    ghost Value = { Opened };

    ghost view = { λ r. record { image = r.image; layout = r.layout; sound = r.is_sound; behind = r.behind } };

    ghost invariant = { λ r. FindsFiles r.image r.layout };
}

impl Readable {
    ghost use Rattle.std.specs.Prelude.{true};
    ghost use Rattle.ods_space.specs.Files.{FindsFiles, IsReadable};
    ghost use Rattle.ods_space.specs.Disks.{on};
    ghost use Rattle.fs_reads.specs.Readable.{end_of};

    /// The volume that was mounted.
    fn of_sound(volume: Mounted) -> Readable
        ensures fields { (result.image ≡ volume.image) × (result.layout ≡ volume.layout) × (result.sound ≡ true) }
        ensures readable { IsReadable result.image result.layout }
    {
        let (image, layout) = volume.into_parts();
        Readable {
            image,
            layout,
            is_sound: true,
            behind: 0,
        }
    }

    /// Returns the image with its layout.
    pub fn disk(&self) -> Disk<'_>
        ensures image { result.image.now ≡ self.now.image }
        ensures layout { result.layout.now ≡ self.now.layout }
        ensures laid_out { on FindsFiles result }
    {
        Disk {
            image: &self.image,
            layout: &self.layout,
        }
    }

    /// Returns how many bytes of the image come past the volume.
    pub fn behind(&self) -> u64
        ensures { result ≡ self.now.behind }
    {
        self.behind
    }

    /// Returns the status of a command that showed all that it could, and ended with `done`. A refused image comes first.
    pub fn ends(&self, done: Status) -> Status
        ensures { result ≡ end_of self.now.sound done }
    {
        if self.is_sound { done } else { Status::Image }
    }
}

/// Opens the volume of the image at this path, of `given` blocks if a number is given. First prints why a mount refuses it, and which directories
/// have entries that are passed over. If INDEXF.SYS has a whole chain the command goes on, and BITMAP.SYS is not needed.
pub fn open_readable<'a, R: Files<File = File> + AllocGlobal + Eprint>(
    rt: &R,
    path: &'a str,
    given: Option<u32>,
    layers: Layers,
    tells_behind: bool,
) -> Result<Readable, Stop<'a>>
    ensures { IfErr result (λ stop. (fault : Fault) × IsNoVolume path.entry fault stop) }
{
    readable_of(rt, path, open_image(rt, path, given, layers), tells_behind)
}

/// Returns the volume of an image that `open_image` has read from this path, or the fault of that image as the end of the command. Prints what
/// `open_readable` prints.
pub fn readable_of<'a, R: Files<File = File> + AllocGlobal + Eprint>(
    rt: &R,
    path: &'a str,
    opened: Result<(Image, Option<Extent>), VolumeFault>,
    tells_behind: bool,
) -> Result<Readable, Stop<'a>>
    ensures ok { IfOk result (λ volume. IsReadableOf opened volume) }
    ensures err { IfErr result (λ stop. (fault : Fault) × IsNoVolume path.entry fault stop) }
{
    match opened {
        Ok((image, extent)) => {
            say_extent(rt, path, extent, tells_behind);
            let mut volume = make_readable(rt, path, image)?;
            volume.behind = behind_by(extent);
            if volume.is_sound {
                return Ok(volume);
            }
            match say_passed_over(rt, path, &volume.disk()) {
                Ok(()) => Ok(volume),
                Err(_) => Err(no_volume(path, VolumeFault::NoMemory)),
            }
        }
        Err(fault) => Err(no_volume(path, fault)),
    }
}

/// The volume of an image that was read from this path.
#[tactic(auto, using(crate::proofs::Opening::judged_sound))]
fn make_readable<'a, R: Files<File = File> + AllocGlobal + Eprint>(
    rt: &R,
    path: &'a str,
    image: Image,
) -> Result<Readable, Stop<'a>>
    ensures ok { IfOk result (IsJudged image) }
    ensures err { IfErr result (λ stop. (fault : Fault) × IsNoVolume path.entry fault stop) }
    ensures none { IfErr result (LacksLayout image) }
{
    match mount(rt.alloc(), image) {
        Ok(volume) => Ok(Readable::of_sound(volume)),
        Err((image, fault)) => refused(rt, path, image, fault),
    }
}

/// The volume of an image that a mount refuses, or for which it wants memory.
fn refused<'a, R: Files<File = File> + AllocGlobal + Eprint>(
    rt: &R,
    path: &'a str,
    image: Image,
    fault: MountFault,
) -> Result<Readable, Stop<'a>>
    requires { fault ≢ MountFault.NoMemory → FaultIsTrue image fault }
    ensures ok { IfOk result (IsJudged image) }
    ensures err { IfErr result (λ stop. (why : Fault) × IsNoVolume path.entry why stop) }
    ensures none { IfErr result (LacksLayout image) }
{
    match fault {
        MountFault::NoMemory => Err(no_volume(path, VolumeFault::NoMemory)),
        _ => laid_out(rt, path, image, fault),
    }
}

/// The volume of an image that a mount refuses, which is said; there is none where nothing leads to files.
#[tactic(auto, using(crate::proofs::Opening::judged_refused))]
fn laid_out<'a, R: Files<File = File> + AllocGlobal + Eprint>(
    rt: &R,
    path: &'a str,
    image: Image,
    fault: MountFault,
) -> Result<Readable, Stop<'a>>
    requires { FaultIsTrue image fault }
    ensures ok { IfOk result (IsJudged image) }
    ensures err { IfErr result (λ stop. (why : Fault) × IsNoVolume path.entry why stop) }
    ensures none { IfErr result (LacksLayout image) }
{
    match readable_layout(rt.alloc(), &image) {
        Ok(Some(layout)) => {
            let _ = say_end(rt, Err(not_taken(rt, path, fault)));
            Ok(Readable {
                image,
                layout,
                is_sound: false,
                behind: 0,
            })
        }
        Ok(None) => Err(not_taken(rt, path, fault)),
        Err(_) => Err(no_volume(path, VolumeFault::NoMemory)),
    }
}

/// Why the image at this path is not mounted.
fn not_taken<'a, R: Files<File = File> + AllocGlobal>(
    rt: &R,
    path: &'a str,
    fault: MountFault,
) -> Stop<'a>
    ensures { (why : Fault) × IsNoVolume path.entry why result }
{
    no_volume(path, not_mounted(rt, path, fault))
}
