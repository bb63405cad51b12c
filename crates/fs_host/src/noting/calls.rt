//! The calls of a reader or a writer, and why one failed.
ghost use Rattle.std.specs.Prelude.{◌≡◌, None, unwrap_or, Result, IsTrue};
ghost use Rattle.std.specs.Io.{ReadsAtMost, WritesAtMost};
ghost use Rattle.std.specs.Io.KnownBytes.{Keeps, ReadConsumes, WriteAppends};
ghost use Rattle.std.specs.Io.Seek.{SeekMoves};
ghost use Rattle.fs_host.specs.Faults.{is_reason};
ghost use Rattle.fs_host.specs.Noted.{reason_noted, Notes};

use super::Noting;
use crate::host_fault::HostFault;
use std::io;
use std::io::{Read, Seek, SeekFrom, Write};

impl<'a, F> Noting<'a, F> {
    /// A file or a stream of which no call has failed yet.
    pub fn new(inner: &'a mut F) -> Noting<'a, F>
        ensures unfailed { reason_noted result ≡ None }
        ensures holds { result.inner.now ≡ inner.old }
    {
        Noting { inner, why: None }
    }

    /// Why the last call that failed did.
    pub fn why(&self) -> HostFault
        ensures value { result ≡ unwrap_or (reason_noted self.now) HostFault.Unknown }
        ensures of_the_host { IsTrue (is_reason result) }
    {
        self.why.unwrap_or(HostFault::Unknown)
    }
}

impl<F: Read> Read for Noting<'_, F> {
    ghost remaining = { λ noting. F.remaining noting.inner.now };

    #[tactic(auto, using(crate::proofs::MayEnd::reason_given))]
    fn read(&mut self, bytes: &mut [u8]) -> io::Result<usize>
        ensures bound { ReadsAtMost result bytes.new }
        ensures bytes { ReadConsumes (F.remaining self.old.inner.now) (F.remaining self.new.inner.now) result bytes.new }
        ensures why { Notes (reason_noted self.old) result (reason_noted self.new) }
    {
        let done = self.inner.read(bytes);
        if let Err(error) = &done {
            self.why = Some(HostFault::of(error));
        }
        done
    }
}

impl<F: Seek> Seek for Noting<'_, F> {
    ghost stream_position = { λ noting. F.stream_position noting.inner.now };

    ghost stream_bytes = { λ noting. F.stream_bytes noting.inner.now };

    #[tactic(auto, using(crate::proofs::MayEnd::reason_given))]
    fn seek(&mut self, to: SeekFrom) -> io::Result<u64>
        ensures moves { SeekMoves (F.stream_position self.old.inner.now) (F.stream_position self.new.inner.now) (F.stream_bytes self.old.inner.now) to result }
        ensures bytes { Keeps (F.stream_bytes self.old.inner.now) (F.stream_bytes self.new.inner.now) }
        ensures why { Notes (reason_noted self.old) result (reason_noted self.new) }
    {
        let done = self.inner.seek(to);
        if let Err(error) = &done {
            self.why = Some(HostFault::of(error));
        }
        done
    }
}

impl<F: Write> Write for Noting<'_, F> {
    ghost contents = { λ noting. F.contents noting.inner.now };

    #[tactic(auto, using(crate::proofs::MayEnd::reason_given))]
    fn write(&mut self, bytes: &[u8]) -> io::Result<usize>
        ensures bound { WritesAtMost result bytes.now }
        ensures bytes { WriteAppends (F.contents self.old.inner.now) (F.contents self.new.inner.now) result bytes.now }
        ensures why { Notes (reason_noted self.old) result (reason_noted self.new) }
    {
        let done = self.inner.write(bytes);
        if let Err(error) = &done {
            self.why = Some(HostFault::of(error));
        }
        done
    }

    fn flush(&mut self) -> io::Result<()>
        ensures bytes { Keeps (F.contents self.old.inner.now) (F.contents self.new.inner.now) }
        ensures why { reason_noted self.new ≡ reason_noted self.old }
    {
        self.inner.flush()
    }
}
