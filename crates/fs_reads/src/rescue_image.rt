//! The image of a rescue, which can end within a block.
ghost use Rattle.std.specs.Prelude.{◌≡◌, ◌<◌, IfErr, IfOk, MatchResult, Ok};
ghost use Rattle.fs_reads.specs.Volumes.{IsNoVolume, IsNotRead};
ghost use Rattle.fs_reads.specs.declared.volume.VolumeFault.{VolumeFault as Fault};

use crate::stop::Stop;
use crate::volume::{VolumeFault, no_volume, not_read, open_image, say_extent};
use fs_host::{HostFault, Layers, Noting, read_cut_image};
use ods_base::{Image, ImageError, MAX_BYTES};
use std::fs;
use std::fs::File;
use std::io::Read;
use std::rt::Files;

/// The bytes of a block.
const BLOCK: u64 = 512;

/// Reads the volume in the image at this path, of `given` blocks if a number is given. If it is not a valid image, reads its whole blocks and returns
/// how many bytes come after them, at most 511. The same holds for a stream or a device.
pub(crate) fn read_whole_blocks<'a, R: Files<File = File> + AllocGlobal + Eprint>(
    rt: &R,
    path: &'a str,
    given: Option<u32>,
    layers: Layers,
) -> Result<(Image, u64), Stop<'a>>
    ensures rest { IfOk result (λ found. found.1 < 512) }
    ensures err { IfErr result (λ stop. (fault : Fault) × IsNoVolume path.entry fault stop) }
{
    match read_whole_image(rt, path, given, layers) {
        Ok(found) => Ok(found),
        Err(fault) => Err(no_volume(path, fault)),
    }
}

/// The same, with the fault.
fn read_whole_image<R: Files<File = File> + AllocGlobal + Eprint>(
    rt: &R,
    path: &str,
    given: Option<u32>,
    layers: Layers,
) -> Result<(Image, u64), VolumeFault>
    ensures { IfOk result (λ found. found.1 < 512) }
{
    let found = match fs::metadata(rt, path) {
        Ok(found) => found,
        Err(error) => return Err(VolumeFault::Read(HostFault::of(&error))),
    };
    if !found.is_file() {
        return read_stream(rt, path);
    }
    match open_image(rt, path, given, layers) {
        Ok((image, extent)) => {
            say_extent(rt, path, extent, false);
            return Ok((image, 0));
        }
        Err(VolumeFault::Image(_, _)) => {}
        Err(fault) => return Err(fault),
    }
    let rest = found.len() % BLOCK;
    let whole = found.len() - rest;
    if whole > MAX_BYTES as u64 {
        return Err(VolumeFault::Image(ImageError::TooBig, None));
    }
    let mut file = match fs::open(rt, path) {
        Ok(file) => file,
        Err(error) => return Err(VolumeFault::Read(HostFault::of(&error))),
    };
    let mut noting = Noting::new(&mut file);
    let image = Image::read_from(rt.alloc(), &mut noting.by_ref().take(whole));
    let why = noting.why();
    with_rest(rt, path, image, rest, why)
}

/// The image of the whole blocks that a stream or a device gives.
fn read_stream<R: Files<File = File> + AllocGlobal>(
    rt: &R,
    path: &str,
) -> Result<(Image, u64), VolumeFault>
    ensures { IfOk result (λ found. found.1 < 512) }
{
    let mut file = match fs::open(rt, path) {
        Ok(file) => file,
        Err(error) => return Err(VolumeFault::Read(HostFault::of(&error))),
    };
    let mut noting = Noting::new(&mut file);
    let read = read_cut_image(rt.alloc(), noting.by_ref());
    match read {
        Ok((image, rest)) => Ok((image, rest as u64)),
        Err(fault) => {
            let why = noting.why();
            Err(not_read(rt, path, fault, why))
        }
    }
}

/// The image that was read, and how many bytes stand behind it; or why there is none.
fn with_rest<R: Files<File = File> + AllocGlobal>(
    rt: &R,
    path: &str,
    image: Result<Image, ImageError>,
    rest: u64,
    why: HostFault,
) -> Result<(Image, u64), VolumeFault>
    ensures ok { IfOk result (λ found. (image ≡ Ok found.0) × (found.1 ≡ rest)) }
    ensures err { IfErr result (λ fault. IfErr image (λ error. IsNotRead error why fault)) }
{
    match image {
        Ok(image) => Ok((image, rest)),
        Err(fault) => Err(not_read(rt, path, fault, why)),
    }
}
