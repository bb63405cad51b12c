//! The volume of an image in a file.
ghost use Rattle.std.specs.Prelude.{◌≡◌, IfErr, IfOk, MatchBool, Ok, Some, option_map};
ghost use Rattle.ods_shell.specs.Remedies.{advice_words};
ghost use Rattle.fs_reads.specs.{Advised.advice_for, Volumes.IsFaultOf, Volumes.IsPartThere, Volumes.LacksBlocks, Volumes.IsNoVolume, Volumes.IsNotMounted, Volumes.IsNotOpened, Volumes.IsNotRead, Volumes.IsNotReadIn, Volumes.look_in, Volumes.said_extent as extent_said};
ghost use Rattle.fs_reads.specs.declared.volume.VolumeFault.{VolumeFault as Fault};

use crate::looks::{Look, looks_like};
use crate::stop::{Stop, WordFault, say_about};
use fs_host::{Extent, HostFault, Layers, Noting, ReadFault, layered_in, read_some};
use ods_base::{Coded, Image, ImageError};
use ods_container::{has_all_blocks, readable_part};
use ods_mount::{MountFault, Mounted, mount};
use ods_order::Order;
use ods_shell::{Advice, remedy};
use std::alloc::{AllocError, Global};
use std::fs;
use std::fs::File;
use std::io::Read;
use std::rt::Files;
use thiserror::Error;

/// Of how many bytes it is seen what a file looks like.
const FRONT: u64 = 1024;

/// Why an image is not a volume.
#[derive(Clone, Copy, Debug, PartialEq, Eq, Error)]
pub enum VolumeFault {
    /// The file does not exist, or reading it failed.
    #[error("reading failed: {0}")]
    Read(HostFault),
    /// The allocator refused memory.
    #[error("out of memory")]
    NoMemory,
    /// The file size differs from the size of a floppy in this order, which was specified.
    #[error("OtherSize")]
    OtherSize(Order),
    /// The bytes are not a valid image. Also their apparent type.
    #[error("{0}")]
    Image(ImageError, Option<Look>),
    /// The image is not a sound volume. Also its apparent type if it has no home block.
    #[error("{0}")]
    Volume(MountFault, Option<Look>),
}

impl VolumeFault {
    /// Returns the reason for the refusal and a remedy, if there is one for the fault.
    pub fn advice(&self) -> Option<Advice>
        ensures { option_map advice_words result ≡ advice_for self.now }
    {
        match self {
            VolumeFault::Read(_) | VolumeFault::NoMemory | VolumeFault::OtherSize(_) => None,
            VolumeFault::Image(refusal, _) => remedy(refusal.name()),
            VolumeFault::Volume(fault, _) => remedy(fault.name()),
        }
    }

    /// Returns the apparent type of the bytes, if the fault has one.
    pub fn look(&self) -> Option<Look>
        ensures { result ≡ look_in self.now }
    {
        match self {
            VolumeFault::Read(_) | VolumeFault::NoMemory | VolumeFault::OtherSize(_) => None,
            VolumeFault::Image(_, look) | VolumeFault::Volume(_, look) => *look,
        }
    }
}

/// Reads the volume in the image at this path, and returns it with the remark on an image that is longer or shorter. The volume has `given` blocks, if
/// that is a number, and its sectors are in the order of `layers`. If the image ends before a block of a file, only the blocks that it has are returned.
#[tactic(auto, using(crate::proofs::Mounting::not_opened))]
pub fn open_image<R: Files<File = File> + AllocGlobal>(
    rt: &R,
    path: &str,
    given: Option<u32>,
    layers: Layers,
) -> Result<(Image, Option<Extent>), VolumeFault>
    ensures { IfErr result IsNotOpened }
{
    let mut file = match fs::open(rt, path) {
        Ok(file) => file,
        Err(error) => return Err(VolumeFault::Read(HostFault::of(&error))),
    };
    let mut noting = Noting::new(&mut file);
    match layered_in(rt.alloc(), &mut noting, given, layers) {
        Ok(read) => {
            let contained = read.contained;
            let extent = Extent::of(&contained);
            match part_there(rt.alloc(), contained.image, extent) {
                Ok(image) => Ok((image, extent)),
                Err(_) => Err(VolumeFault::NoMemory),
            }
        }
        Err(fault) => Err(not_read_in(rt, path, fault, noting.why())),
    }
}

/// Returns the part of an image that can be read, by the remark on the length of its file: the first blocks, as many as the file has, if a file of the
/// volume has others too.
fn part_there(alloc: Global, image: Image, extent: Option<Extent>) -> Result<Image, AllocError>
    ensures { IfOk result (IsPartThere extent image) }
{
    match extent {
        Some(extent) => part_by(alloc, image, extent),
        None => Ok(image),
    }
}

/// The part of an image that can be read, by this remark.
fn part_by(alloc: Global, image: Image, extent: Extent) -> Result<Image, AllocError>
    ensures { IfOk result (IsPartThere (Some extent) image) }
{
    match extent {
        Extent::Shorter(count, _) => readable_part(alloc, image, count),
        _ => Ok(image),
    }
}

/// Returns whether an image ends before a block of a file, by the remark on the length of its file. The error is for memory.
pub fn lacks_blocks(
    alloc: Global,
    image: &Image,
    extent: Option<Extent>,
) -> Result<bool, AllocError>
    ensures { IfOk result (λ lacks. MatchBool lacks (LacksBlocks extent image.now) (¬ LacksBlocks extent image.now)) }
{
    match extent {
        Some(extent) => lacks_by(alloc, image, extent),
        None => Ok(false),
    }
}

/// Whether an image ends before a block of a file, by this remark.
fn lacks_by(alloc: Global, image: &Image, extent: Extent) -> Result<bool, AllocError>
    ensures { IfOk result (λ lacks. MatchBool lacks (LacksBlocks (Some extent) image.now) (¬ LacksBlocks (Some extent) image.now)) }
{
    match extent {
        Extent::Shorter(count, _) => Ok(!has_all_blocks(alloc, image, count)?),
        _ => Ok(false),
    }
}

/// Prints that an image is shorter than its volume. With `tells_behind` also prints that it is longer, which is not a fault.
pub fn say_extent<R: Eprint>(rt: &R, path: &str, extent: Option<Extent>, tells_behind: bool) {
    if let Some(extent) = said_extent(extent, tells_behind) {
        say_about(rt, path, extent);
    }
}

/// What is to be said of the image.
fn said_extent(extent: Option<Extent>, tells_behind: bool) -> Option<Extent>
    ensures { result ≡ extent_said tells_behind extent }
{
    match extent {
        Some(extent) if tells_behind || extent.is_short() => Some(extent),
        _ => None,
    }
}

/// Returns the fault of an image that was not read in the specified order. `why` is the reason if reading failed.
pub(crate) fn not_read_in<R: Files<File = File> + AllocGlobal>(
    rt: &R,
    path: &str,
    fault: ReadFault,
    why: HostFault,
) -> VolumeFault
    ensures { IsNotReadIn fault why result }
{
    match fault {
        ReadFault::Image(fault) => not_read(rt, path, fault, why),
        ReadFault::OtherSize(order) => VolumeFault::OtherSize(order),
    }
}

/// Returns the fault of an image that was not read. `why` is the reason if reading failed.
pub(crate) fn not_read<R: Files<File = File> + AllocGlobal>(
    rt: &R,
    path: &str,
    fault: ImageError,
    why: HostFault,
) -> VolumeFault
    ensures { IsNotRead fault why result }
{
    match fault {
        ImageError::ReadFailed => VolumeFault::Read(why),
        ImageError::NoMemory => VolumeFault::NoMemory,
        refusal => VolumeFault::Image(refusal, other_look(look_at(rt, path))),
    }
}

/// Returns the apparent type of the plain file at this path.
pub(crate) fn look_at<R: Files<File = File> + AllocGlobal>(rt: &R, path: &str) -> Option<Look> {
    let Ok(found) = fs::metadata(rt, path) else {
        return None;
    };
    if !found.is_file() {
        return None;
    }
    let Ok(mut file) = fs::open(rt, path) else {
        return None;
    };
    match read_some(rt.alloc(), &mut file.by_ref().take(FRONT), FRONT) {
        Ok(bytes) => looks_like(&bytes, found.len()),
        Err(_) => None,
    }
}

/// What a file looks like whose length alone is wrong: nothing, if it has the mark of a volume.
fn other_look(look: Option<Look>) -> Option<Look> {
    match look {
        Some(Look::Home) => None,
        look => look,
    }
}

/// The volume of an image that was read from this path.
#[tactic(auto, using(crate::proofs::Mounting::not_mounted_by))]
fn mount_image<R: Files<File = File> + AllocGlobal>(
    rt: &R,
    path: &str,
    image: Image,
) -> Result<Mounted, VolumeFault>
    ensures ok { IfOk result (λ volume. volume.image ≡ image) }
    ensures err { IfErr result (IsNotMounted image) }
{
    match mount(rt.alloc(), image) {
        Ok(volume) => Ok(volume),
        Err((_, fault)) => Err(not_mounted(rt, path, fault)),
    }
}

/// Returns the fault of an image that was read from this path, from the fault of its mount.
pub(crate) fn not_mounted<R: Files<File = File> + AllocGlobal>(
    rt: &R,
    path: &str,
    fault: MountFault,
) -> VolumeFault
    ensures { IsFaultOf fault result }
{
    match fault {
        MountFault::NoMemory => VolumeFault::NoMemory,
        MountFault::NoHome => VolumeFault::Volume(fault, look_at(rt, path)),
        _ => VolumeFault::Volume(fault, None),
    }
}

/// Mounts the image at this path, of `given` blocks if a number is given, with its sectors in the order that `layers` specifies. Prints that the
/// image is shorter than its volume, and with `tells_behind` also that it is longer. A refusal is returned as the end of the command.
pub fn open_volume<'a, R: Files<File = File> + AllocGlobal + Eprint>(
    rt: &R,
    path: &'a str,
    given: Option<u32>,
    layers: Layers,
    tells_behind: bool,
) -> Result<Mounted, Stop<'a>>
    ensures { IfErr result (λ stop. (fault : Fault) × IsNoVolume path.entry fault stop) }
{
    match open_image(rt, path, given, layers) {
        Ok((image, extent)) => {
            say_extent(rt, path, extent, tells_behind);
            mount_or_stop(rt, path, image)
        }
        Err(fault) => Err(no_volume(path, fault)),
    }
}

/// Mounts an image that was read from this path. A refusal is returned as the end of the command.
pub fn volume_of<'a, R: Files<File = File> + AllocGlobal>(
    rt: &R,
    path: &'a str,
    image: Result<Image, ReadFault>,
) -> Result<Mounted, Stop<'a>>
    ensures ok { IfOk result (λ volume. image ≡ Ok volume.image) }
    ensures err { IfErr result (λ stop. (fault : Fault) × IsNoVolume path.entry fault stop) }
{
    match image_of(rt, path, image) {
        Ok(image) => mount_or_stop(rt, path, image),
        Err(stop) => Err(stop),
    }
}

/// Returns the image that was read from this path. A fault is returned as the end of the command.
pub fn image_of<'a, R: Files<File = File> + AllocGlobal>(
    rt: &R,
    path: &'a str,
    image: Result<Image, ReadFault>,
) -> Result<Image, Stop<'a>>
    ensures ok { IfOk result (λ read. image ≡ Ok read) }
    ensures err { IfErr result (λ stop. (fault : Fault) × IsNoVolume path.entry fault stop) }
{
    match image {
        Ok(image) => Ok(image),
        Err(fault) => Err(stop_unread(rt, path, fault)),
    }
}

/// Returns the end of a command that cannot read the image at this path.
pub fn stop_unread<'a, R: Files<File = File> + AllocGlobal>(
    rt: &R,
    path: &'a str,
    fault: ReadFault,
) -> Stop<'a>
    ensures { (fault : Fault) × IsNoVolume path.entry fault result }
{
    no_volume(path, not_read_in(rt, path, fault, HostFault::Unknown))
}

/// The volume of an image.
fn mount_or_stop<'a, R: Files<File = File> + AllocGlobal>(
    rt: &R,
    path: &'a str,
    image: Image,
) -> Result<Mounted, Stop<'a>>
    ensures ok { IfOk result (λ volume. volume.image ≡ image) }
    ensures err { IfErr result (λ stop. (fault : Fault) × (IsNotMounted image fault × IsNoVolume path.entry fault stop)) }
{
    match mount_image(rt, path, image) {
        Ok(volume) => Ok(volume),
        Err(fault) => Err(no_volume(path, fault)),
    }
}

/// Returns the end of the command for this fault of the image at this path.
pub(crate) fn no_volume<'a>(path: &'a str, fault: VolumeFault) -> Stop<'a>
    ensures { IsNoVolume path.entry fault result }
{
    match fault {
        VolumeFault::Read(why) => Stop::Word(path, WordFault::Unread(why)),
        VolumeFault::NoMemory => Stop::NoMemory,
        VolumeFault::OtherSize(order) => {
            Stop::Word(path, WordFault::OtherSize(order.container_size()))
        }
        fault => Stop::Image(path, fault),
    }
}
