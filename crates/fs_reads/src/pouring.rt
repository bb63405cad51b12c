//! The contents of a file, written to a file of the host or to a stream.
ghost use Rattle.std.specs.Prelude.{IfErr, IsTrue};
ghost use Rattle.fs_host.specs.Faults.{is_reason};

use fs_host::{HostFault, Noting};
use ods_shell::Contents;
use std::io::Write;

/// Writes the contents. If that fails, returns the reason of the host.
pub(crate) fn pour<W: Write>(contents: &Contents<'_>, writer: &mut W) -> Result<(), HostFault>
    ensures { IfErr result (λ why. IsTrue (is_reason why)) }
{
    let mut noting = Noting::new(writer);
    match contents.write_to(&mut noting) {
        Ok(()) => Ok(()),
        Err(_) => Err(noting.why()),
    }
}
