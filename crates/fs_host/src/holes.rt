//! Files that do not receive their zeros. Whole pieces of zeros are skipped, and the file has holes there, which read as zeros.
ghost use Rattle.std.specs.Prelude.{◌≡◌, ◌++◌, true, IfOk, IfErr, IsTrue};
ghost use Rattle.std.specs.Io.{WritesAtMost};
ghost use Rattle.std.specs.Io.KnownBytes.{Appends, Keeps, WriteAppends};
ghost use Rattle.std.specs.Option.{ForSome};
ghost use Rattle.ods_base.specs.Image.{image_bytes};
ghost use Rattle.fs_host.specs.Faults.{is_reason};
ghost use Rattle.fs_host.specs.Holes.{begins_in_zeros as zeros_begin};

mod runs;

use crate::host_fault::HostFault;
use ods_base::Image;
use ods_container::write_contained;
use runs::{begins_in_zeros, run_len};
use std::fs::File;
use std::io;
use std::io::{Seek, SeekFrom, Write};

/// A file to which zeros need not be written.
pub trait Holed: Write {
    ghost use Rattle.std.specs.Prelude.{◌≡◌, ◌<◌, ◌^◌, ℕ, Option, None, MatchResult, replicate};
    ghost use Rattle.std.specs.Io.KnownBytes.{Appends, Keeps};

    /// The number of bytes that were written and not skipped, if it is known.
    ghost written: { Self → Option ℕ } = { λ _. None };

    /// Passes over so many bytes, which read as zeros once the file ends behind them.
    fn pass_over(&mut self, count: usize) -> io::Result<()>
        requires { count < 2 ^ 63 }
        ensures bytes { MatchResult result (λ _. Appends (Self.contents self.old) (Self.contents self.new) (replicate count 0))
            (λ _. Keeps (Self.contents self.old) (Self.contents self.new)) }
        ensures unwritten { written self.new ≡ written self.old };

    /// Ends the file behind all that was written and passed over.
    fn end_here(&mut self) -> io::Result<()>
        ensures { Keeps (Self.contents self.old) (Self.contents self.new) };
}

impl Holed for &File {
    fn pass_over(&mut self, count: usize) -> io::Result<()> {
        self.seek(SeekFrom::Current(count as i64))?;
        Ok(())
    }

    fn end_here(&mut self) -> io::Result<()> {
        let end = self.stream_position()?;
        self.set_len(end)
    }
}

/// A writer that passes over the zeros of its file, and why its last call that failed did.
#[derive(Drop)]
struct Holes<F> {
    file: F,
    why: Option<HostFault>,
    ghost of_the_host: { ForSome why (λ fault. IsTrue (is_reason fault)) },
}

impl<F: Holed> Write for Holes<F> {
    ghost contents = { λ holes. F.contents holes.file };

    #[tactic(auto, using(crate::proofs::MayEnd::reason_given))]
    fn write(&mut self, bytes: &[u8]) -> io::Result<usize>
        ensures bound { WritesAtMost result bytes.now }
        ensures bytes { WriteAppends (F.contents self.old.file) (F.contents self.new.file) result bytes.now }
        ensures hole { zeros_begin 4096 bytes.now ≡ true → F.written self.new.file ≡ F.written self.old.file }
    {
        let done = write_run(&mut self.file, bytes);
        if let Err(error) = &done {
            self.why = Some(HostFault::of(error));
        }
        done
    }

    fn flush(&mut self) -> io::Result<()>
        ensures { Keeps (F.contents self.old.file) (F.contents self.new.file) }
    {
        self.file.flush()
    }
}

/// Writes the front of these bytes up to the next piece of zeros; or passes over the pieces of zeros that they begin with.
fn write_run<F: Holed>(file: &mut F, bytes: &[u8]) -> io::Result<usize>
    ensures bound { WritesAtMost result bytes.now }
    ensures bytes { WriteAppends (F.contents file.old) (F.contents file.new) result bytes.now }
    ensures hole { zeros_begin 4096 bytes.now ≡ true → F.written file.new ≡ F.written file.old }
{
    if begins_in_zeros(bytes) {
        let count = run_len(bytes, true);
        file.pass_over(count)?;
        return Ok(count);
    }
    let count = run_len(bytes, false);
    file.write(&bytes[..count])
}

/// Writes an image to a file, and then these bytes, and skips whole pieces of zeros.
#[tactic(auto, using(crate::proofs::MayEnd::reason_given))]
pub fn write_holed<F: Holed + Drop>(file: F, image: &Image, behind: &[u8]) -> Result<F, HostFault>
    ensures ok { IfOk result (λ written. Appends (F.contents file) (F.contents written) (image_bytes image.now ++ behind.now)) }
    ensures err { IfErr result (λ fault. IsTrue (is_reason fault)) }
{
    let mut holes = Holes { file, why: None };
    if write_contained(&mut holes, image, behind).is_err() {
        return Err(holes.why.unwrap_or(HostFault::Unknown));
    }
    let mut file = holes.file;
    match file.end_here() {
        Ok(()) => Ok(file),
        Err(error) => Err(HostFault::of(&error)),
    }
}
