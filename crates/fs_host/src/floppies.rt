//! The bytes of a floppy in physical order, with the volume in its sectors.
ghost use Rattle.std.specs.Prelude.{◌≡◌, ◌+◌, ◌*◌, ◌++◌, ◌==◌, [], MatchBool, IfOk, IfErr, IfSome, IsTrue, IsFalse, is_some, length, replicate, take};
ghost use Rattle.std.specs.List.{list_all};
ghost use Rattle.ods_base.specs.Image.{image_bytes};
ghost use Rattle.ods_order.specs.Order.{block_count, container_size, first_track};
ghost use Rattle.ods_order.specs.Volumes.{IsLaidOut};
ghost use Rattle.fs_host.specs.Faults.{may_end_writing, may_end_copying, may_be_wanting};
ghost use Rattle.fs_host.specs.Layers.{DoesNotFit};

use crate::faults::{SaveFault, Unfinished};
use crate::host_fault::HostFault;
use crate::writing::write_new;
use ods_base::Image;
use ods_order::{Order, empty_container, write_contained_volume};
use std::alloc::{AllocError, Global};
use std::fs::File;
use std::marker::Model;
use std::rt::Files;

/// The bytes of a floppy in physical order.
#[derive(Drop)]
pub struct Floppy {
    order: Order,
    bytes: Vec<u8>,
}

impl Model for Floppy {
    ghost use Rattle.std.specs.Prelude.{◌≡◌, ℕ, List, length};
    ghost use Rattle.ods_order.specs.declared.order.Order.{Order as AnOrder};
    ghost use Rattle.ods_order.specs.Order.{container_size};

    ghost Value = { AnOrder × List ℕ };

    ghost view = { λ f. (f.order, f.bytes.items) };

    ghost invariant = { λ f. length f.bytes.items ≡ container_size f.order };
}

impl Floppy {
    /// Returns a floppy of zeros.
    pub fn empty(alloc: Global, order: Order) -> Result<Floppy, AllocError>
        ensures { IfOk result (λ floppy. floppy ≡ (order, replicate (container_size order) 0)) }
    {
        let bytes = empty_container(alloc, order)?;
        Ok(Floppy { order, bytes })
    }

    /// Returns the floppy with these bytes.
    pub(crate) fn of(order: Order, bytes: Vec<u8>) -> Floppy
        requires { length bytes.items ≡ container_size order }
        ensures { result ≡ (order, bytes.items) }
    {
        Floppy { order, bytes }
    }

    /// Returns its bytes.
    pub(crate) fn bytes(&self) -> &[u8]
        ensures { result.now ≡ self.now.1 }
    {
        self.bytes.as_slice()
    }

    /// Returns whether the first track of an RX01 or RX02, which is not part of the volume, has only zeros. An RX50 has no such track.
    pub fn has_empty_track(&self) -> bool
        ensures { result ≡ list_all (λ byte. byte == 0) (take (first_track self.now.0) self.now.1) }
    {
        let track = &self.bytes[..self.order.first_track()];
        track.iter().all(|byte| *byte == 0)
    }

    /// Writes this volume, followed by `behind`, into the sectors of the volume. Returns whether they fit. If they do not fit, nothing changes.
    pub fn lay(&mut self, image: &Image, behind: &[u8]) -> bool
        ensures order { self.new.0 ≡ self.old.0 }
        ensures laid { IsTrue result → IsLaidOut self.old.0 self.old.1 (image_bytes image.now ++ behind.now) self.new.1 }
        ensures stays { IsFalse result → self.new ≡ self.old }
        ensures unfit { IsFalse result → DoesNotFit self.old.0 (length image.now) (length behind.now) }
    {
        if !fits(self.order, image.len(), behind.len()) {
            return false;
        }
        write_contained_volume(self.order, &mut self.bytes, image, behind);
        true
    }
}

/// Whether so many blocks, with so many bytes behind them, fill the sectors of the volume.
fn fits(order: Order, blocks: u32, behind: usize) -> bool
    ensures { MatchBool result (512 * blocks + behind ≡ 512 * block_count order) (DoesNotFit order blocks behind) }
{
    let size = 512 * order.block_count() as usize;
    let blocks = 512 * blocks as usize;
    if size < blocks {
        return false;
    }
    size - blocks == behind
}

/// Writes a floppy to a file that does not exist before, in the same way as [`write_new`].
pub fn write_floppy<R: Files<File = File> + AllocGlobal>(
    rt: &R,
    path: &str,
    floppy: &Floppy,
    mode: Option<u32>,
) -> Result<Option<Unfinished>, SaveFault>
    ensures ok { IfOk result (λ wanting. IfSome wanting (λ unfinished. IsTrue (may_be_wanting unfinished))) }
    ensures err { IfErr result (λ fault. IsTrue (may_end_writing fault)) }
{
    match no_blocks(rt.alloc()) {
        Ok(none) => write_new(rt, path, &none, floppy.bytes(), mode),
        Err(_) => Err(SaveFault::Make(HostFault::NoMemory)),
    }
}

/// Writes a volume, and the bytes after it, to a file that does not exist before, in the same way as [`write_new`]. The file has the blocks in their
/// order, or is a floppy of this order whose other bytes are zeros.
#[tactic(auto, using(crate::proofs::Storing::errs_copying))]
pub fn write_ordered<R: Files<File = File> + AllocGlobal>(
    rt: &R,
    path: &str,
    image: &Image,
    behind: &[u8],
    order: Option<Order>,
) -> Result<Option<Unfinished>, SaveFault>
    ensures ok { IfOk result (λ wanting. IfSome wanting (λ unfinished. IsTrue (may_be_wanting unfinished))) }
    ensures err { IfErr result (λ fault. IsTrue (may_end_copying (is_some order) fault)) }
{
    let Some(order) = order else {
        return write_new(rt, path, image, behind, None);
    };
    let Ok(mut floppy) = Floppy::empty(rt.alloc(), order) else {
        return Err(SaveFault::Make(HostFault::NoMemory));
    };
    if floppy.lay(image, behind) {
        write_floppy(rt, path, &floppy, None)
    } else {
        Err(SaveFault::Unfit)
    }
}

/// Returns an image without blocks, for bytes that are not blocks.
pub(crate) fn no_blocks(alloc: Global) -> Result<Image, AllocError>
    ensures { IfOk result (λ none. image_bytes none ≡ []) }
{
    match Image::from_bytes(alloc, &[]) {
        Ok(none) => Ok(none),
        Err(_) => Err(AllocError),
    }
}
