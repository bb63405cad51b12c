//! `convert`: the volume of an image in another image, as blocks or as a floppy.
ghost use Rattle.std.specs.Prelude.{IfOk, MatchBool, OnErr, OnOk};
ghost use Rattle.f11fs.specs.{Saved.IsSavedStatus, Stores.GainsNoImage, Stores.HasEmptyTrack, Stores.IsConverted};

use crate::changing::say_unfinished;
use crate::host::Host;
use crate::images::{HostImages, Images};
use crate::orders::{layers_of, new_order};
use fs_host::{Extent, Floppy};
use fs_reads::{Stop, WordFault, lacks_blocks, stop_about};
use fs_words::{Layering, Words};
use ods_order::Order;
use ods_shell::Status;

/// Writes the volume of an image to a file that does not exist before (`convert`), as blocks, or in the sectors of a floppy. The bytes after the
/// volume come with it, unless it is to be written alone. An image that ends before a block of a file is refused. So is a floppy whose first track
/// is not empty, unless the volume is to be written alone: no volume has a place for that track.
pub fn convert_image<'a, R: Host>(
    rt: &R,
    words: &Words<'a>,
    order: Option<Layering>,
    alone: bool,
) -> Result<Status, Stop<'a>>
    ensures status { IfOk result IsSavedStatus }
{
    let Some(out) = words.paths.first() else {
        return Err(Stop::Lines(String::new(rt.alloc()), Status::Words));
    };
    let mut images = HostImages { rt };
    convert_to(rt, &mut images, words, *out, new_order(order, None), alone)
}

/// Writes the volume of an image to a file of this order that does not exist before.
fn convert_to<'a, R: Host, H: Images>(
    rt: &R,
    images: &mut H,
    words: &Words<'a>,
    out: &'a str,
    order: Option<Order>,
    alone: bool,
) -> Result<Status, Stop<'a>>
    ensures status { IfOk result IsSavedStatus }
    // The new image has the blocks and the bytes of the one that was read.
    ensures made { OnOk result (IsConverted alone (H.has images.old words.now.image.now) (H.made images.new out.entry.now order)) }
    // If that fails, there is no new image.
    ensures kept { OnErr result (GainsNoImage (H.made images.old) (H.made images.new)) }
{
    let path = words.image;
    let read = images.read(path, words.blocks, layers_of(words.order))?;
    if !alone && has_track(&read.floppy) {
        return Err(stop_about(
            rt.alloc(),
            path,
            "its first track is not empty, and the other image has no place for it: --blocks-only leaves it out",
            Status::Refused,
        ));
    }
    let contained = &read.contained;
    if lacks_blocks(rt.alloc(), &contained.image, Extent::of(contained))? {
        return Err(Stop::Word(path, WordFault::Lacking));
    }
    let behind: &[u8] = if alone {
        &[]
    } else {
        contained.behind.as_slice()
    };
    match images.write(out, &contained.image, behind, order) {
        Ok(wanting) => Ok(say_unfinished(rt, out, wanting)),
        Err(fault) => Err(Stop::Word(out, WordFault::Unsaved(fault))),
    }
}

/// Whether a floppy has a first track that is not empty.
fn has_track(floppy: &Option<Floppy>) -> bool
    ensures { MatchBool result (¬ HasEmptyTrack floppy.now) (HasEmptyTrack floppy.now) }
{
    match floppy {
        Some(floppy) => !floppy.has_empty_track(),
        None => false,
    }
}
