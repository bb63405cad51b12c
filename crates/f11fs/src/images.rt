//! The images that `init` and `convert` make, and the one that `convert` reads. Each promise on what is made holds over all `Images`.
use crate::host::Host;
use fs_host::{HostFault, Layered, Layers, SaveFault, Unfinished, layered_in, write_ordered};
use fs_reads::{Stop, WordFault, stop_unread};
use ods_base::Image;
use ods_order::Order;
use std::fs;

/// The images of a host.
pub(crate) trait Images {
    ghost use Rattle.std.specs.Prelude.{◌≡◌, ℕ, List, Option, IfErr, IfOk, IsTrue, OnErr, OnOk, is_some};
    ghost use Rattle.fs_host.specs.Faults.{may_end_copying};
    ghost use Rattle.fs_host.specs.declared.layers.Layered.{Layered as Read};
    ghost use Rattle.ods_order.specs.declared.order.Order.{Order as Sectors};
    ghost use Rattle.f11fs.specs.Stores.{GainsNoImage};

    /// The file at this path has this volume. For a host about which nothing is known, it has any.
    ghost has: { Self → List ℕ → Read → Type 0 };

    /// The file at this path is a new image of these blocks and the bytes after them, in this order of the sectors.
    ghost made: { Self → List ℕ → Option Sectors → List (List ℕ) → List ℕ → Type 0 };

    /// Reads the volume in the file at this path, with the number of blocks if it is given.
    fn read<'a>(
        &mut self,
        path: &'a str,
        given: Option<u32>,
        layers: Layers,
    ) -> Result<Layered, Stop<'a>>
        ensures ok { IfOk result (λ layered. has self.old path.entry.now layered) }
        ensures stays { GainsNoImage (made self.old) (made self.new) };

    /// Writes a new image to a path where no file is. If that fails, there is no new image.
    fn write(
        &mut self,
        path: &str,
        image: &Image,
        behind: &[u8],
        order: Option<Order>,
    ) -> Result<Option<Unfinished>, SaveFault>
        ensures ok { OnOk result (made self.new path.now order image.now behind.now) }
        ensures kept { OnErr result (GainsNoImage (made self.old) (made self.new)) }
        ensures err { IfErr result (λ fault. IsTrue (may_end_copying (is_some order) fault)) };
}

/// The images of the real host. No clause states that a host keeps the bytes that it is given, so `has` and `made` hold of all volumes here.
#[derive(Drop)]
pub(crate) struct HostImages<'r, R> {
    pub rt: &'r R,
}

impl<R: Host> Images for HostImages<'_, R> {
    ghost use Rattle.std.specs.Prelude.{⊤};

    ghost has = { λ images path layered. ⊤ };

    ghost made = { λ images path order blocks behind. ⊤ };

    fn read<'a>(
        &mut self,
        path: &'a str,
        given: Option<u32>,
        layers: Layers,
    ) -> Result<Layered, Stop<'a>> {
        let rt = self.rt;
        let mut file = match fs::open(rt, path) {
            Ok(file) => file,
            Err(error) => return Err(unread(path, HostFault::of(&error))),
        };
        match layered_in(rt.alloc(), &mut file, given, layers) {
            Ok(read) => Ok(read),
            Err(fault) => Err(stop_unread(rt, path, fault)),
        }
    }

    fn write(
        &mut self,
        path: &str,
        image: &Image,
        behind: &[u8],
        order: Option<Order>,
    ) -> Result<Option<Unfinished>, SaveFault> {
        write_ordered(self.rt, path, image, behind, order)
    }
}

/// The end of a command that cannot read its image.
fn unread<'a>(path: &'a str, why: HostFault) -> Stop<'a> {
    Stop::Word(path, WordFault::Unread(why))
}
