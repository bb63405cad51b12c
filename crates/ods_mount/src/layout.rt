//! The LBNs of the volume's structures, or why they cannot be found.
ghost use Rattle.std.specs.Prelude.{◌≡◌, ◌≢◌, IfOk, IfErr, IfNone, IfSome};
ghost use Rattle.ods_header.specs.Home.{IsHomeAt};
ghost use Rattle.ods_space.specs.{Files.FindsFiles, Files.IsLayoutOf, Files.IsReadable, Layout.VolumeLayout};
ghost use Rattle.ods_mount.specs.{Faults.FaultIsTrue, Checks.mount_fault_of};

use crate::MountFault;
use ods_base::Image;
use ods_header::find_home;
use ods_space::{ChainFault, Layout, LayoutFault};
use std::alloc::{AllocError, Global};

/// Returns the LBN of the home block and the layout of the volume. If an image has no layout, it returns one of its faults. NoMemory states nothing
/// about the image.
pub fn read_layout(alloc: Global, image: &Image) -> Result<(u32, Layout), MountFault>
    ensures home { IfOk result (λ found. IsHomeAt image.now found.0) }
    ensures layout { IfOk result (λ found. IsLayoutOf image.now found.1) }
    ensures err { IfErr result (λ e. e ≢ MountFault.NoMemory → FaultIsTrue image.now e) }
    ensures none { IfErr result (λ e. e ≢ MountFault.NoMemory → (L : VolumeLayout) → ¬ IsLayoutOf image.now L) }
{
    // The blocks of an image have bytes, so a chain has at most 256 headers.
    let _ = image.len();
    let (lbn, home) = match find_home(image) {
        Ok(found) => found,
        Err(_) => return Err(MountFault::NoHome),
    };
    match Layout::read(alloc, image, home) {
        Ok(layout) => Ok((lbn, layout)),
        Err(fault) => Err(mount_fault(fault)),
    }
}

/// Returns the layout by which an image is read, sound or not. If the chain of BITMAP.SYS is not whole, its list of blocks is empty. Returns `None`
/// if INDEXF.SYS has no whole chain, because nothing else locates headers.
pub fn readable_layout(alloc: Global, image: &Image) -> Result<Option<Layout>, AllocError>
    ensures some { IfOk result (λ found. IfSome found (IsReadable image.now)) }
    ensures none { IfOk result (λ found. IfNone found ((L : VolumeLayout) → ¬ FindsFiles image.now L)) }
{
    match read_layout(alloc, image) {
        Ok((_, layout)) => Ok(Some(layout)),
        Err(MountFault::NoMemory) => Err(AllocError),
        Err(_) => index_layout(alloc, image),
    }
}

/// The layout that INDEXF.SYS alone gives, where it has a whole chain; of an image whose BITMAP.SYS has none.
fn index_layout(alloc: Global, image: &Image) -> Result<Option<Layout>, AllocError>
    requires { (L : VolumeLayout) → ¬ IsLayoutOf image.now L }
    ensures some { IfOk result (λ found. IfSome found (IsReadable image.now)) }
    ensures none { IfOk result (λ found. IfNone found ((L : VolumeLayout) → ¬ FindsFiles image.now L)) }
{
    let Ok((_, home)) = find_home(image) else {
        return Ok(None);
    };
    match Layout::read_index(alloc, image, home) {
        Ok(layout) => Ok(Some(layout)),
        Err(LayoutFault::NoMemory) => Err(AllocError),
        Err(_) => Ok(None),
    }
}

/// The fault of an image that has no layout.
fn mount_fault(fault: LayoutFault) -> MountFault
    ensures { result ≡ mount_fault_of fault }
{
    match fault {
        LayoutFault::NoFile(number) => {
            if number == 1 {
                MountFault::BadIndex
            } else {
                MountFault::BadStorageMap
            }
        }
        LayoutFault::Chain(number, fault) => chain_fault(number, fault),
        LayoutFault::NoMemory => MountFault::NoMemory,
    }
}

/// Returns the fault of the mount for a fault of the chain of file `number`.
pub fn chain_fault(number: u16, fault: ChainFault) -> MountFault
    ensures { result ≡ mount_fault_of (LayoutFault.Chain number fault) }
{
    match fault {
        ChainFault::BadChain => MountFault::BadChain(number),
        ChainFault::OutsideVolume(lbn) => MountFault::OutsideVolume(number, lbn),
        ChainFault::NoMemory => MountFault::NoMemory,
    }
}
