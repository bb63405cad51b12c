//! The three standard streams of a run.
use std::fs::{File, OpenOptions};
use std::io;
use std::os::fd::AsRawFd;
use std::rt::Files;

/// Opens the free descriptors among 0, 1 and 2, so that no file that is opened later becomes a stream. `main` calls it before its first open, and
/// holds the files until its end. Reading or writing a stream that was closed fails. Returns `None` if this cannot be done.
pub fn hold_streams<R: Files<File = File>>(rt: &R) -> Option<[File; 3]> {
    match held_by(rt, "/dev/null") {
        Ok(files) => Some(files),
        Err(_) => held_by(rt, "/").ok(),
    }
}

/// Three opens of this path, which is there on any host.
fn held_by<R: Files<File = File>>(rt: &R, path: &str) -> io::Result<[File; 3]> {
    let first = first_of(rt, path)?;
    let mut read = OpenOptions::new();
    read.read(true);
    Ok([first, read.open(rt, path)?, read.open(rt, path)?])
}

/// The first of them: what takes the place of the input can only be written, and what takes that of another stream only read.
fn first_of<R: Files<File = File>>(rt: &R, path: &str) -> io::Result<File> {
    let mut write = OpenOptions::new();
    write.write(true);
    if let Ok(file) = write.open(rt, path) {
        if file.as_raw_fd() == 0 {
            return Ok(file);
        }
    }
    let mut read = OpenOptions::new();
    read.read(true);
    read.open(rt, path)
}
