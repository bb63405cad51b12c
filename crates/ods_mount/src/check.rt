//! The complete check of an image.
ghost use Rattle.std.specs.Prelude.{◌≡◌, ◌≢◌, IfOk, IfErr, OnOk};
ghost use Rattle.ods_header.specs.Home.{IsHomeAt};
ghost use Rattle.ods_space.specs.{Disks.on, Files.IsLayoutOf};
ghost use Rattle.ods_mount.specs.{Faults.FaultIsTrue, Faults.IsSound, Checks.IsChecked, Sound.IsSoundBy};

use crate::file::check_files;
use crate::formats::check_formats;
use crate::index::check_index;
use crate::layout::read_layout;
use crate::system::check_system_files;
use crate::{MountFault, Mounted};
use ods_base::Image;
use ods_space::{Disk, Layout};
use std::alloc::Global;

/// Checks an image and returns it with its layout if it is sound. Otherwise returns the image unchanged, with one of its faults. Every fault except
/// NoMemory holds for the image. The only error of a sound image is out of memory.
pub fn mount(alloc: Global, image: Image) -> Result<Mounted, (Image, MountFault)>
    ensures mounted { IfOk result (λ m. (m.image ≡ image) × IsSoundBy image m.layout) }
    ensures sound { IfOk result (λ _. IsSound image) }
    ensures unchanged { IfErr result (λ e. e.0 ≡ image) }
    ensures fault { IfErr result (λ e. e.1 ≢ MountFault.NoMemory → FaultIsTrue image e.1) }
{
    match check_image(alloc, &image) {
        Ok(layout) => Ok(Mounted::new(image, layout)),
        Err(fault) => Err((image, fault)),
    }
}

/// Checks an image and returns its layout if it passes each check. Otherwise returns one of its faults. NoMemory states nothing about the image.
pub fn check_image(alloc: Global, image: &Image) -> Result<Layout, MountFault>
    ensures ok { IfOk result (IsChecked image.now) }
    ensures err { IfErr result (λ e. e ≢ MountFault.NoMemory → FaultIsTrue image.now e) }
{
    let (home_lbn, layout) = match read_layout(alloc, image) {
        Ok(found) => found,
        Err(fault) => return Err(fault),
    };
    let disk = Disk {
        image,
        layout: &layout,
    };
    match check_by_layout(alloc, &disk, home_lbn) {
        Ok(()) => Ok(layout),
        Err(fault) => Err(fault),
    }
}

/// The image passes each check, by its layout. Else one of its faults.
#[tactic(auto, using(crate::proofs::Unlaid::true_by_layout))]
fn check_by_layout(alloc: Global, disk: &Disk<'_>, home_lbn: u32) -> Result<(), MountFault>
    requires layout { on IsLayoutOf disk.now }
    requires home { IsHomeAt disk.now.image.now home_lbn }
    ensures ok { OnOk result (on IsChecked disk.now) }
    ensures err { IfErr result (λ e. e ≢ MountFault.NoMemory → FaultIsTrue disk.now.image.now e) }
{
    if let Err(fault) = check_index(disk, home_lbn) {
        return Err(fault);
    }
    if let Err(fault) = check_system_files(disk) {
        return Err(fault);
    }
    if let Err(fault) = check_formats(disk) {
        return Err(fault);
    }
    match check_files(alloc, disk, home_lbn) {
        Ok(()) => Ok(()),
        Err(fault) => Err(fault),
    }
}
