//! The result of a mount of an image, and the layout of the image, if it has one.
ghost use Rattle.std.specs.Prelude.{◌≡◌, IfOk, IfSome, IfNone, Some};
ghost use Rattle.ods_space.specs.Files.{IsLayoutOf};
ghost use Rattle.ods_mount.specs.Faults.{IsSound, FaultIsTrue};

use ods_base::Image;
use ods_mount::{MountFault, check_image, read_layout};
use ods_space::Layout;
use std::alloc::{AllocError, Global};

/// The result of a mount: the layout, if there is one, and the fault.
#[derive(Drop)]
pub struct First {
    pub layout: Option<Layout>,
    pub answer: Option<MountFault>,
}

/// Returns the result of a mount, and the layout if there is one. Costs a mount, and for a refused image also a read of its layout. An error means
/// out of memory.
pub fn check_first(alloc: Global, image: &Image) -> Result<First, AllocError>
    ensures answer { IfOk result (λ c. IfSome c.answer (FaultIsTrue image.now) × IfNone c.answer (IsSound image.now)) }
    ensures layout { IfOk result (λ c. IfSome c.layout (IsLayoutOf image.now)) }
{
    match check_image(alloc, image) {
        Ok(layout) => Ok(First {
            layout: Some(layout),
            answer: None,
        }),
        Err(fault) => {
            if fault.is_memory() {
                return Err(AllocError);
            }
            laid_out(alloc, image, fault)
        }
    }
}

/// The layout of an image of which a fault is known, where there is one.
fn laid_out(alloc: Global, image: &Image, known: MountFault) -> Result<First, AllocError>
    requires { FaultIsTrue image.now known }
    ensures answer { IfOk result (λ c. c.answer ≡ Some known) }
    ensures layout { IfOk result (λ c. IfSome c.layout (IsLayoutOf image.now)) }
{
    match read_layout(alloc, image) {
        Ok((_, layout)) => Ok(First {
            layout: Some(layout),
            answer: Some(known),
        }),
        Err(MountFault::NoMemory) => Err(AllocError),
        Err(_) => Ok(First {
            layout: None,
            answer: Some(known),
        }),
    }
}
