//! Marks that show whether two host files are the same, and whether a file was written to.
ghost use Rattle.std.specs.Prelude.{◌≡◌, ◌↔◌, IsTrue};
ghost use Rattle.std.specs.Fs.{metadata_len};

use std::fs::Metadata;
use std::os::unix::fs::MetadataExt;

/// The numbers of a file that are unchanged while nobody writes to it.
#[derive(Clone, Copy, PartialEq, Eq)]
pub struct Mark {
    pub device: u64,
    pub node: u64,
    pub size: u64,
    pub seconds: i64,
    pub nanoseconds: i64,
}

impl Mark {
    /// Returns the mark of a file. No contract of std states the host's numbers of a file, except its size.
    pub fn of(file: &Metadata) -> Mark
        ensures { result.size ≡ metadata_len file.now }
    {
        Mark {
            device: file.dev(),
            node: file.ino(),
            size: file.size(),
            seconds: file.mtime(),
            nanoseconds: file.mtime_nsec(),
        }
    }

    /// Returns whether both marks belong to the same file, whatever its bytes.
    pub fn is_same_file(&self, other: &Mark) -> bool
        ensures { IsTrue result ↔ ((self.now.device ≡ other.now.device) × (self.now.node ≡ other.now.node)) }
    {
        self.device == other.device && self.node == other.node
    }
}
