//! The order of the sectors in an image, as words specify it.
ghost use Rattle.std.specs.Prelude.{IfErr, IfNone, IfOk, IfSome};
ghost use Rattle.fs_words.specs.declared.layering.Layering.{Layering as ALayering};
ghost use Rattle.fs_words.specs.{Layerings.IsLayering, Refused.HasReason, Refused.IsNoValue, Values.IsValue, Values.value_of};

use crate::said::wrong;
use ods_order::Order;
use ods_words::WordsFault;
use std::alloc::Global;

/// How the sectors of a volume are ordered in an image.
#[derive(Clone, Copy, Debug, PartialEq, Eq, Drop)]
pub enum Layering {
    /// The blocks of the volume are consecutive.
    Plain,
    /// The sectors are in the order of the surface of a floppy.
    Physical(Order),
}

/// Returns the order in the value of an option, if there is one.
pub(crate) fn read_layering(
    alloc: Global,
    text: Option<&str>,
) -> Result<Option<Layering>, WordsFault>
    ensures value { IfOk result (IsValue IsLayering (value_of text.entry)) }
    ensures refused { IfErr result (HasReason (IsNoValue IsLayering (value_of text.entry))) }
{
    let Some(text) = text else {
        return Ok(None);
    };
    match layering_of(text) {
        Some(layering) => Ok(Some(layering)),
        None => Err(wrong(
            alloc,
            text,
            "is not a valid order: use plain, rx01, rx02 or rx50",
        )?),
    }
}

/// The order of this name.
fn layering_of(text: &str) -> Option<Layering>
    ensures some { IfSome result (IsLayering text.now) }
    ensures none { IfNone result ((layering : ALayering) → ¬ IsLayering text.now layering) }
{
    if text == "plain" {
        return Some(Layering::Plain);
    }
    match Order::of_name(text) {
        Some(order) => Some(Layering::Physical(order)),
        None => None,
    }
}
