//! `init`: the image of a new volume.
ghost use Rattle.std.specs.Prelude.{◌≡◌, ℕ, List, [], false, true, IfErr, IfOk, IfSome, IsTrue, OnErr, OnOk, is_some};
ghost use Rattle.fs_host.specs.Faults.{may_end_copying};
ghost use Rattle.fs_host.specs.declared.faults.SaveFault.{SaveFault as Fault};
ghost use Rattle.fs_reads.specs.declared.stop.Stop.{Stop as End};
ghost use Rattle.f11fs.specs.{Orders.HasOtherBlocks, Saved.IsSavedStatus, Stores.GainsNoImage};
ghost use Rattle.ods_init.specs.New.{IsNewVolume};
ghost use Rattle.ods_order.specs.Order.{block_count};
ghost use Rattle.ods_shell.specs.declared.status.Status.{Status as Code};

use crate::changing::{asker_of, say_unfinished};
use crate::host::Host;
use crate::images::{HostImages, Images};
use crate::orders::new_order;
use fs_host::{SaveFault, Shown};
use fs_reads::{Stop, WordFault, send, stop_about};
use fs_words::Words;
use ods_base::Image;
use ods_init::{InitFault, Label, NewVolume, default_files, init};
use ods_order::Order;
use ods_shell::{Status, text_object};
use std::fs;

/// The label of a new volume where none is said.
const LABEL: &str = "NEWVOLUME";

/// Creates an image that does not exist before (`init`). A floppy in physical order has exactly the blocks of that floppy. `device` is the order of
/// the sectors of its device, which applies if the words specify none.
pub fn init_image<'a, R: Host>(
    rt: &R,
    words: &Words<'a>,
    blocks: u32,
    files: Option<u32>,
    label: Option<&'a str>,
    device: Option<Order>,
) -> Result<Status, Stop<'a>>
    ensures status { IfOk result IsSavedStatus }
    ensures told { words.now.saving.only_tells ≡ true → IfOk result (λ s. s ≡ Code.Done) }
{
    let path = words.image;
    let order = new_order(words.order, device);
    check_blocks(path, order, blocks)?;
    let text = label.unwrap_or(LABEL);
    let Some(label) = Label::parse(text) else {
        return Err(Stop::Word(text, WordFault::NoLabel));
    };
    // The host says it again where the file is made; here nothing has been done yet.
    if fs::symlink_metadata(rt, path).is_ok() {
        return Err(Stop::Word(path, WordFault::Unsaved(SaveFault::IsThere)));
    }
    let asker = asker_of(rt, words)?;
    let new = NewVolume {
        blocks,
        files: files.unwrap_or(default_files(blocks)),
        label,
        owner: asker.user,
        stamp: asker.stamp,
    };
    make_volume(rt, &mut HostImages { rt }, words, &new, order)
}

/// Makes the image of a new volume, or only tells of it.
fn make_volume<'a, R: Host, H: Images>(
    rt: &R,
    images: &mut H,
    words: &Words<'a>,
    new: &NewVolume,
    order: Option<Order>,
) -> Result<Status, Stop<'a>>
    ensures status { IfOk result IsSavedStatus }
    ensures told { words.now.saving.only_tells ≡ true → IfOk result (λ s. s ≡ Code.Done) × (images.new ≡ images.old) }
    // The new image has the blocks of a new volume of this kind.
    ensures made { words.now.saving.only_tells ≡ false → OnOk result ((blocks : List (List ℕ)) × (IsNewVolume new.now blocks × H.made images.new words.now.image.now order blocks [])) }
    // If that fails, there is no new image.
    ensures kept { OnErr result (GainsNoImage (H.made images.old) (H.made images.new)) }
{
    match init(rt.alloc(), new) {
        Ok(image) => write_image(rt, images, words, &image, order),
        Err(InitFault::NoMemory) => Err(Stop::NoMemory),
        Err(fault) => Err(stop_about(rt.alloc(), words.image, fault, Status::Words)),
    }
}

/// That a new floppy of the order that is said has so many blocks.
fn check_blocks<'a>(path: &'a str, order: Option<Order>, blocks: u32) -> Result<(), Stop<'a>>
    ensures ok { OnOk result (IfSome order (λ o. blocks ≡ block_count o)) }
    ensures err { IfErr result (HasOtherBlocks path.entry order blocks) }
{
    let Some(order) = order else {
        return Ok(());
    };
    let count = order.block_count();
    if blocks == count {
        return Ok(());
    }
    Err(Stop::Word(path, WordFault::OtherBlocks(count)))
}

/// Writes a new image, or only tells of it.
fn write_image<'a, R: Host, H: Images>(
    rt: &R,
    images: &mut H,
    words: &Words<'a>,
    image: &Image,
    order: Option<Order>,
) -> Result<Status, Stop<'a>>
    ensures status { IfOk result IsSavedStatus }
    ensures told { words.now.saving.only_tells ≡ true → IfOk result (λ s. s ≡ Code.Done) × (images.new ≡ images.old) }
    ensures made { words.now.saving.only_tells ≡ false → OnOk result (H.made images.new words.now.image.now order image.now []) }
    ensures kept { OnErr result (GainsNoImage (H.made images.old) (H.made images.new)) }
    ensures err { words.now.saving.only_tells ≡ false → IfErr result (λ stop. (fault : Fault) × IsTrue (may_end_copying (is_some order) fault) × (stop ≡ End.Word words.now.image (WordFault.Unsaved fault))) }
{
    let path = words.image;
    if words.saving.only_tells {
        let text = if words.json {
            text_object(rt.alloc(), "make", path)?
        } else {
            let blocks = image.len();
            format!(in rt.alloc(); "{}: a new volume of {blocks} blocks\n", Shown(path))?
        };
        return send(rt, text.as_str());
    }
    match images.write(path, image, &[], order) {
        Ok(wanting) => Ok(say_unfinished(rt, path, wanting)),
        Err(fault) => Err(Stop::Word(path, WordFault::Unsaved(fault))),
    }
}
