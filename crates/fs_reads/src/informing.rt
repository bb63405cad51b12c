//! `info`: the facts of the volume in an image, sound or not.
ghost use Rattle.std.specs.Prelude.{◌≡◌, ◌⊎◌, IfOk, string_bytes};
ghost use Rattle.fs_reads.specs.Infos.{EndsInfo, ShowsInfo, bytes_behind};
ghost use Rattle.ods_mount.specs.Faults.{IsSound};
ghost use Rattle.ods_shell.specs.declared.status.Status.{Status as Code};
ghost use Rattle.ods_space.specs.Disks.{on};
ghost use Rattle.ods_space.specs.Files.{FindsFiles};

use crate::stop::{Stop, say_refused, send, stop_at_own_output};
use crate::volume::{VolumeFault, no_volume, not_mounted, open_image, say_extent};
use fs_host::{Extent, Layers};
use ods_base::Image;
use ods_mount::{check_image, readable_layout};
use ods_shell::{Status, info_lines, info_object, volume_info};
use ods_space::Disk;
use std::alloc::{AllocError, Global};
use std::fs::File;
use std::rt::Files;

/// Prints the `info` of the image at this path, of `given` blocks if a number is given, in this order. With `tells_behind` also prints the bytes past
/// the volume.
pub fn info<'a, R: Files<File = File> + AllocGlobal + Print + Eprint>(
    rt: &R,
    path: &'a str,
    given: Option<u32>,
    layers: Layers,
    json: bool,
    tells_behind: bool,
) -> Result<Status, Stop<'a>>
    ensures { IfOk result (λ s. (s ≡ Code.Done) ⊎ (s ≡ Code.Image)) }
{
    stop_at_own_output(rt, path)?;
    match open_image(rt, path, given, layers) {
        Ok((image, extent)) => {
            say_extent(rt, path, extent, tells_behind);
            info_image(rt, path, &image, behind_by(extent), json)
        }
        Err(fault) => Err(no_volume(path, fault)),
    }
}

/// Returns how many bytes come past the volume, by the remark on its image.
pub fn behind_by(extent: Option<Extent>) -> u64
    ensures { result ≡ bytes_behind extent }
{
    match extent {
        Some(Extent::Longer(count)) => count as u64,
        Some(Extent::Simh(count)) => count as u64,
        Some(Extent::Vhd(count)) => count as u64,
        Some(Extent::Shorter(_, _)) | None => 0,
    }
}

/// Prints the `info` of an image that was read from this path. `behind` is the number of bytes past its volume.
#[tactic(auto, using(crate::proofs::InfoEnds::ends_sound))]
pub fn info_image<'a, R: Files<File = File> + AllocGlobal + Print + Eprint>(
    rt: &R,
    path: &'a str,
    image: &Image,
    behind: u64,
    json: bool,
) -> Result<Status, Stop<'a>>
    ensures { IfOk result (EndsInfo (IsSound image.now)) }
{
    match check_image(rt.alloc(), image) {
        Ok(layout) => {
            let disk = Disk {
                image,
                layout: &layout,
            };
            tell_info(rt, path, &disk, behind, "sound", json)
        }
        Err(fault) => info_refused(rt, path, image, &not_mounted(rt, path, fault), behind, json),
    }
}

/// `info` of an image that a mount refuses: the refusal comes first. Where INDEXF.SYS has no whole chain there is nothing to show.
fn info_refused<'a, R: AllocGlobal + Print + Eprint>(
    rt: &R,
    path: &'a str,
    image: &Image,
    why: &VolumeFault,
    behind: u64,
    json: bool,
) -> Result<Status, Stop<'a>>
    ensures { IfOk result (λ s. s ≡ Code.Image) }
{
    match readable_layout(rt.alloc(), image)? {
        Some(layout) => {
            let disk = Disk {
                image,
                layout: &layout,
            };
            say_refused(rt, path, *why);
            let answer = format!(in rt.alloc(); "{why}")?;
            tell_info(rt, path, &disk, behind, answer.as_str(), json)?;
            Ok(Status::Image)
        }
        None => Err(no_volume(path, *why)),
    }
}

/// Prints what is known of a volume; this is what a mount answers.
fn tell_info<'a, R: AllocGlobal + Print>(
    rt: &R,
    path: &str,
    disk: &Disk<'_>,
    behind: u64,
    answer: &str,
    json: bool,
) -> Result<Status, Stop<'a>>
    requires { on FindsFiles disk.now }
    ensures { IfOk result (λ s. s ≡ Code.Done) }
{
    let text = info_shown(rt.alloc(), path, disk, behind, answer, json)?;
    send(rt, text.as_str())
}

/// What is known of a volume, as lines or as an object.
fn info_shown(
    alloc: Global,
    path: &str,
    disk: &Disk<'_>,
    behind: u64,
    answer: &str,
    json: bool,
) -> Result<String, AllocError>
    requires { on FindsFiles disk.now }
    ensures { IfOk result (λ text. on ShowsInfo disk.now json path.now behind answer.now (string_bytes text)) }
{
    let info = volume_info(disk);
    if json {
        info_object(alloc, path, &info, disk.layout.index(), behind, answer)
    } else {
        info_lines(alloc, &info, disk.layout.index(), behind, answer)
    }
}
