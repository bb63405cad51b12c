//! The conditional addition to a list.
ghost use Rattle.std.specs.Prelude.{◌≡◌, ◌++◌, ◌∷◌, [], cond, OnOk};

use crate::Told;
use std::alloc::AllocError;

/// Adds a fault or a finding if `holds` is true. An error means out of memory.
pub(crate) fn push_if<T: Copy>(list: &mut Told<T>, one: T, holds: bool) -> Result<(), AllocError>
    ensures { OnOk result (list.new ≡ cond holds (list.old.0 ++ one ∷ [], list.old.1) list.old) }
{
    if !holds {
        return Ok(());
    }
    list.push(one)?;
    Ok(())
}
