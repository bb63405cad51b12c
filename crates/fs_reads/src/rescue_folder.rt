//! The folder of the host that a rescue writes to: a new one, or an existing empty one, which is not replaced.
ghost use Rattle.std.specs.Prelude.{◌≡◌, IfErr};
ghost use Rattle.fs_reads.specs.{Ends.StopsWith, Folders.has_name, Folders.is_name};
ghost use Rattle.ods_shell.specs.declared.status.Status.{Status as Code};

use crate::stop::{Stop, WordFault};
use fs_host::HostFault;
use std::fs;
use std::io::{ErrorKind, Read};
use std::rt::Files;

/// How many bytes of names are read at once: more than the longest name has.
const PIECE: usize = 4096;

/// Creates the folder, or accepts an existing empty one. With `only_tells` no folder is created. Otherwise fails with `NotEmpty` or `Unmade`.
pub(crate) fn take_folder<'a, R: Files + AllocGlobal>(
    rt: &R,
    folder: &'a str,
    only_tells: bool,
) -> Result<(), Stop<'a>>
    ensures { IfErr result (λ stop. StopsWith stop Code.Host) }
{
    match make_folder(rt, folder, only_tells) {
        Ok(true) => Ok(()),
        Ok(false) | Err(HostFault::NotFolder) => Err(Stop::Word(folder, WordFault::NotEmpty)),
        Err(why) => Err(Stop::Word(folder, WordFault::Unmade(why))),
    }
}

/// Makes the folder where none is there, and gives whether files can be written to it now. With `only_tells` none is made.
fn make_folder<R: Files + AllocGlobal>(
    rt: &R,
    folder: &str,
    only_tells: bool,
) -> Result<bool, HostFault> {
    match fs::symlink_metadata(rt, folder) {
        Ok(_) => return is_empty(rt, folder),
        Err(error) if error.kind() == ErrorKind::NotFound => {}
        Err(error) => return Err(HostFault::of(&error)),
    }
    if !only_tells {
        fs::create_dir(rt, folder)?;
    }
    Ok(true)
}

/// Whether the folder has no names. The slash makes the host follow a link.
fn is_empty<R: Files + AllocGlobal>(rt: &R, folder: &str) -> Result<bool, HostFault> {
    let path = format!(in rt.alloc(); "{folder}/")?;
    let mut names = rt.open_dir(path.as_str())?;
    let mut piece = [0; PIECE];
    // Two names are those of the folder and of the one above it.
    for _ in 0..3 {
        let count = names.read(&mut piece)?;
        let read = piece.get(..count).unwrap_or(&[]);
        if read.is_empty() {
            return Ok(true);
        }
        if has_name(read) {
            return Ok(false);
        }
    }
    Ok(false)
}

/// Whether some of these names, each of which a zero ends, is one of a file.
fn has_name(names: &[u8]) -> bool
    ensures { result ≡ has_name names.now }
{
    names.split(|byte| *byte == 0).any(|name| is_name(name))
}

/// Whether this is the name of a file: that of a folder itself and that of the one above it are none.
fn is_name(name: &[u8]) -> bool
    ensures { result ≡ is_name name.now }
{
    !name.is_empty() && name != b".".as_slice() && name != b"..".as_slice()
}
