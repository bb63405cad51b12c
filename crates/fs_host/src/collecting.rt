//! A runtime for one command of several. Its output is kept until the end of the run, up to a limit, and its faults state the line of the command.
//! Most methods forward a call. No contract of std states what these calls do, nor what a cell holds.
ghost use Rattle.std.specs.Prelude.{◌≡◌, ◌≤◌, ◌++◌, IfErr, OnOk, length};
ghost use Rattle.fs_host.specs.Reasons.{IsNotAdded, IsNotKept, most_printed as most_for};

use crate::shown::Shown;
use std::alloc::Allocator;
use std::cell::RefCell;
use std::env::FillError;
use std::fmt::Display;
use std::fs::{Metadata, OpenOptions, Permissions};
use std::io;
use std::io::Input;
use std::path::PathBuf;
use std::rt::{Clock, Env, Files};
use std::time::Duration;

/// The least limit on the output of the commands in a file: 64 MiB.
const LEAST: usize = 67_108_864;

/// Returns how many bytes the commands in a file may print, on a volume of so many blocks: 64 times the bytes of the volume, and at least 64 MiB.
pub fn most_printed(blocks: u32) -> usize
    ensures { result ≡ most_for blocks }
{
    (blocks as usize).saturating_mul(64 * 512).max(LEAST)
}

/// A runtime for the command in this line of a file.
#[derive(Clone, Copy)]
pub struct Collecting<'a, R> {
    pub rt: &'a R,
    /// The printed bytes.
    pub printed: &'a RefCell<Vec<u8>>,
    /// How many bytes may be printed by all commands of the file.
    pub most: usize,
    pub file: &'a str,
    pub line: usize,
}

impl<R: AllocGlobal> Print for Collecting<'_, R> {
    fn print<D: Display + Drop>(&self, value: D) -> io::Result<()>
        ensures { IfErr result IsNotKept }
    {
        let text = format!(in self.rt.alloc(); "{value}")?;
        self.write_all(text.as_bytes())
    }

    fn println<D: Display + Drop>(&self, value: D) -> io::Result<()>
        ensures { IfErr result IsNotKept }
    {
        let text = format!(in self.rt.alloc(); "{value}\n")?;
        self.write_all(text.as_bytes())
    }

    fn write_all(&self, bytes: &[u8]) -> io::Result<()>
        ensures { IfErr result IsNotKept }
    {
        match self.printed.try_borrow_mut() {
            Ok(mut printed) => add_printed(&mut printed, bytes, self.most),
            Err(_) => Err(io::Error::from(io::ErrorKind::Other)),
        }
    }
}

/// Adds printed bytes, if there are no more than `most` then.
fn add_printed(printed: &mut Vec<u8>, bytes: &[u8], most: usize) -> io::Result<()>
    ensures ok { OnOk result ((printed.new.items ≡ printed.old.items ++ bytes.now) × (length printed.new.items ≤ most)) }
    ensures err { IfErr result (IsNotAdded (length printed.old.items) (length bytes.now) most) }
{
    if most < bytes.len() || most - bytes.len() < printed.len() {
        return Err(io::Error::from(io::ErrorKind::FileTooLarge));
    }
    Ok(printed.extend_from_slice(bytes)?)
}

impl<R: Eprint> Eprint for Collecting<'_, R> {
    fn eprint<D: Display + Drop>(&self, value: D) -> io::Result<()> {
        let (file, line) = (Shown(self.file), self.line);
        self.rt.eprint(format_args!("{file}:{line}: {value}"))
    }

    fn eprintln<D: Display + Drop>(&self, value: D) -> io::Result<()> {
        let (file, line) = (Shown(self.file), self.line);
        self.rt.eprintln(format_args!("{file}:{line}: {value}"))
    }
}

impl<R: Clock> Clock for Collecting<'_, R> {
    fn monotonic(&self) -> io::Result<Duration> {
        self.rt.monotonic()
    }

    fn since_1970(&self) -> io::Result<Duration> {
        self.rt.since_1970()
    }

    fn sleep(&self, duration: Duration) {
        self.rt.sleep(duration)
    }
}

impl<R: Env> Env for Collecting<'_, R> {
    fn arg(&self, i: usize, buf: &mut [u8]) -> Result<usize, FillError> {
        self.rt.arg(i, buf)
    }

    fn var(&self, name: &str, buf: &mut [u8]) -> Result<usize, FillError> {
        self.rt.var(name, buf)
    }

    fn var_at(&self, i: usize, buf: &mut [u8]) -> Result<usize, FillError> {
        self.rt.var_at(i, buf)
    }
}

impl<R: Alloc> Alloc for Collecting<'_, R> {
    type A = R::A;

    fn alloc(&self) -> R::A {
        self.rt.alloc()
    }
}

impl<R: Input> Input for Collecting<'_, R> {
    type Reader = R::Reader;

    fn read_line<A: Allocator + Clone>(&self, buf: &mut String<A>) -> io::Result<usize> {
        self.rt.read_line(buf)
    }

    fn lines<A: Allocator>(&self, alloc: A) -> io::Lines<R::Reader, A> {
        self.rt.lines(alloc)
    }

    fn reader(&self) -> R::Reader {
        self.rt.reader()
    }
}

impl<R: Files> Files for Collecting<'_, R> {
    type File = R::File;

    type Dir = R::Dir;

    fn open_file(&self, how: &OpenOptions, path: &str) -> io::Result<R::File> {
        self.rt.open_file(how, path)
    }

    fn open_dir(&self, path: &str) -> io::Result<R::Dir> {
        self.rt.open_dir(path)
    }

    fn metadata(&self, path: &str) -> io::Result<Metadata> {
        self.rt.metadata(path)
    }

    fn symlink_metadata(&self, path: &str) -> io::Result<Metadata> {
        self.rt.symlink_metadata(path)
    }

    fn copy(&self, from: &str, to: &str) -> io::Result<u64> {
        self.rt.copy(from, to)
    }

    fn rename(&self, from: &str, to: &str) -> io::Result<()> {
        self.rt.rename(from, to)
    }

    fn remove_file(&self, path: &str) -> io::Result<()> {
        self.rt.remove_file(path)
    }

    fn create_dir(&self, path: &str) -> io::Result<()> {
        self.rt.create_dir(path)
    }

    fn remove_dir(&self, path: &str) -> io::Result<()> {
        self.rt.remove_dir(path)
    }

    fn remove_dir_all<B: Allocator>(&self, alloc: B, path: &str) -> io::Result<()> {
        self.rt.remove_dir_all(alloc, path)
    }

    fn read_link<B: Allocator>(&self, alloc: B, path: &str) -> io::Result<PathBuf<B>> {
        self.rt.read_link(alloc, path)
    }

    fn hard_link(&self, original: &str, link: &str) -> io::Result<()> {
        self.rt.hard_link(original, link)
    }

    fn set_permissions(&self, path: &str, mode: Permissions) -> io::Result<()> {
        self.rt.set_permissions(path, mode)
    }
}
