//! Readers and writers that note the reason of their failure.
ghost use Rattle.std.specs.Prelude.{IsTrue};
ghost use Rattle.std.specs.Option.{ForSome};
ghost use Rattle.fs_host.specs.Faults.{is_reason};

mod calls;

use crate::host_fault::HostFault;

/// A file or a stream, and the reason of its last call that failed.
#[derive(Drop)]
pub struct Noting<'a, F> {
    inner: &'a mut F,
    why: Option<HostFault>,
    ghost of_the_host: { ForSome why (λ fault. IsTrue (is_reason fault)) },
}
