//! The host services of a run: a clock, variables, files, streams and memory.
ghost use Rattle.std.specs.Prelude.{◌≤◌, IfErr, IfOk, IsTrue, vec_len};
ghost use Rattle.fs_host.specs.Faults.{is_reason};

use fs_host::{Collecting, Extent, HostFault, Layers, TreeEntry, list_tree, read_host, read_some};
use fs_reads::{VolumeFault, open_image};
use ods_base::Image;
use std::fs::File;
use std::io::Input;
use std::rt::{Clock, Env, Files, HostRuntime};

/// The host services of a run that changes an image.
pub trait Host: Clock
    + Env
    + Files<File = File>
    + Input
    + AllocGlobal
    + Print
    + Eprint
    + Clone
    + Drop {
    ghost use Rattle.std.specs.Prelude.{◌≤◌, ℕ, List, IfErr, IfOk, IsTrue, vec_len};
    ghost use Rattle.fs_host.specs.Faults.{is_reason};
    ghost use Rattle.f11fs.specs.Given.{Bytes, Given, Tree, Volume};

    /// The file, folder or image at this path gives this, or for `-` standard input. For a host about which nothing is known, it gives anything.
    ghost gives: { Self → List ℕ → Given → Type 0 };

    /// Returns the bytes of the file at this path, or of standard input for `-`, if there are no more than `most`.
    fn bytes_of(&self, path: &str, most: u64) -> Result<Vec<u8>, HostFault>
        ensures given { IfOk result (λ bytes. gives self.now path.now (Bytes bytes.items)) }
        ensures few { IfOk result (λ bytes. vec_len bytes ≤ most) }
        ensures err { IfErr result (λ fault. IsTrue (is_reason fault)) };

    /// Returns everything in the folder at this path and below it, as `list_tree` does.
    fn tree_of(&self, folder: &str) -> Result<Vec<TreeEntry>, HostFault>
        ensures given { IfOk result (λ listed. gives self.now folder.now (Tree listed.items)) }
        ensures err { IfErr result (λ fault. IsTrue (is_reason fault)) };

    /// Returns the volume in the image at this path, as `open_image` does.
    fn volume_of(&self, path: &str) -> Result<(Image, Option<Extent>), VolumeFault>
        ensures { IfOk result (λ opened. gives self.now path.now (Volume opened.0)) };
}

impl Host for HostRuntime {
    ghost use Rattle.std.specs.Prelude.{⊤};

    // No clause of std states what a path of the real host gives.
    ghost gives = { λ rt path given. ⊤ };

    fn bytes_of(&self, path: &str, most: u64) -> Result<Vec<u8>, HostFault> {
        read_bytes(self, path, most)
    }

    fn tree_of(&self, folder: &str) -> Result<Vec<TreeEntry>, HostFault> {
        list_tree(self, folder)
    }

    fn volume_of(&self, path: &str) -> Result<(Image, Option<Extent>), VolumeFault> {
        open_image(self, path, None, Layers::Found)
    }
}

impl<R: Host> Host for Collecting<'_, R> {
    ghost gives = { λ one path given. R.gives one.rt.now path given };

    fn bytes_of(&self, path: &str, most: u64) -> Result<Vec<u8>, HostFault> {
        self.rt.bytes_of(path, most)
    }

    fn tree_of(&self, folder: &str) -> Result<Vec<TreeEntry>, HostFault> {
        self.rt.tree_of(folder)
    }

    fn volume_of(&self, path: &str) -> Result<(Image, Option<Extent>), VolumeFault> {
        self.rt.volume_of(path)
    }
}

/// Returns the bytes of a host file, or of standard input, if there are no more than `most`.
fn read_bytes<R: Files<File = File> + Input + AllocGlobal>(
    rt: &R,
    path: &str,
    most: u64,
) -> Result<Vec<u8>, HostFault>
    ensures few { IfOk result (λ bytes. vec_len bytes ≤ most) }
    ensures err { IfErr result (λ fault. IsTrue (is_reason fault)) }
{
    if path == "-" {
        read_some(rt.alloc(), &mut rt.reader(), most)
    } else {
        read_host(rt, path, most)
    }
}
