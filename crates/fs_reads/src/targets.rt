//! Where the files of a volume are written: files of the host, and its output. Each promise on what is written holds over all `Targets`.
use crate::host_files::{Written, write_host};
use crate::pouring::pour;
use fs_host::HostFault;
use ods_shell::Contents;
use std::fs::File;
use std::io;
use std::rt::Files;

/// The files of a host that are written, and its standard output.
pub(crate) trait Targets {
    ghost use Rattle.std.specs.Prelude.{◌≡◌, ℕ, List, IfErr, IsTrue, OnOk, codes};
    ghost use Rattle.fs_host.specs.Faults.{is_reason};
    ghost use Rattle.ods_shell.specs.Shown.{ContentsAre};
    ghost use Rattle.fs_reads.specs.Host.{EndsWriting};
    ghost use Rattle.fs_reads.specs.Targets.{StayTaken};

    /// The file at this path has taken these bytes; `-` is standard output. For a host about which nothing is known, it has taken any.
    ghost took: { Self → List ℕ → List ℕ → Type 0 };

    /// Writes the contents to the file at this path, as `write_host` does.
    fn write(
        &mut self,
        contents: &Contents<'_>,
        path: &str,
        changed: Option<u32>,
        replaces: bool,
    ) -> Written
        ensures took { result ≡ Written.Done → (bytes : List ℕ) → ContentsAre contents.now bytes → took self.new path.now bytes }
        ensures stay { StayTaken (took self.old) (took self.new) }
        ensures ends { EndsWriting replaces result };

    /// Writes the contents to standard output.
    fn print(&mut self, contents: &Contents<'_>) -> Result<(), HostFault>
        ensures took { OnOk result ((bytes : List ℕ) → ContentsAre contents.now bytes → took self.new (codes "-") bytes) }
        ensures stay { StayTaken (took self.old) (took self.new) }
        ensures err { IfErr result (λ why. IsTrue (is_reason why)) };
}

/// The real host. No clause states that it keeps the bytes that it is given, so `took` holds of all bytes here.
#[derive(Drop)]
pub(crate) struct HostTargets<'r, R> {
    pub rt: &'r R,
}

impl<R: Files<File = File> + AllocGlobal + Print> Targets for HostTargets<'_, R> {
    ghost use Rattle.std.specs.Prelude.{⊤};

    ghost took = { λ targets path bytes. ⊤ };

    fn write(
        &mut self,
        contents: &Contents<'_>,
        path: &str,
        changed: Option<u32>,
        replaces: bool,
    ) -> Written {
        write_host(self.rt, contents, path, changed, replaces)
    }

    fn print(&mut self, contents: &Contents<'_>) -> Result<(), HostFault> {
        pour(contents, &mut io::writer(self.rt))
    }
}
