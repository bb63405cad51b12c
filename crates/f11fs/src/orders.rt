//! The order of the sectors of an image, as the words of a run specify it.
ghost use Rattle.std.specs.Prelude.{◌≡◌};
ghost use Rattle.f11fs.specs.Orders.{layers_said, new_order};

use fs_host::Layers;
use fs_words::Layering;
use ods_order::Order;

/// Returns how an image is read: in the specified order, otherwise in the detected one.
pub fn layers_of(said: Option<Layering>) -> Layers
    ensures { result ≡ layers_said said }
{
    match said {
        None => Layers::Found,
        Some(Layering::Plain) => Layers::Plain,
        Some(Layering::Physical(order)) => Layers::Physical(order),
    }
}

/// Returns the order of a new floppy: the specified one, otherwise that of its device.
pub fn new_order(said: Option<Layering>, device: Option<Order>) -> Option<Order>
    ensures { result ≡ new_order said device }
{
    match said {
        None => device,
        Some(Layering::Plain) => None,
        Some(Layering::Physical(order)) => Some(order),
    }
}
