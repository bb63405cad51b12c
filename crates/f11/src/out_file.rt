//! The file to which an image is written.
use std::io::Write;
use std::rt::Files;
use std::{fs, io};

/// A file that is created, or truncated to 0 bytes, at its first written byte. Before that it is unchanged.
#[derive(Drop)]
pub struct OutFile<'a, R: Files> {
    files: &'a R,
    path: &'a str,
    file: Option<R::File>,
}

impl<'a, R: Files> OutFile<'a, R> {
    /// Returns the file at this path, and does not open it.
    pub fn new(files: &'a R, path: &'a str) -> OutFile<'a, R> {
        OutFile {
            files,
            path,
            file: None,
        }
    }
}

impl<'a, R: Files> Write for OutFile<'a, R> {
    fn write(&mut self, bytes: &[u8]) -> io::Result<usize> {
        if self.file.is_none() {
            self.file = Some(fs::create(self.files, self.path)?);
        }
        match &mut self.file {
            Some(file) => file.write(bytes),
            None => Err(io::Error::from(io::ErrorKind::Other)),
        }
    }

    fn flush(&mut self) -> io::Result<()> {
        match &mut self.file {
            Some(file) => file.flush(),
            None => Ok(()),
        }
    }
}
