//! Host files and streams, read as a whole if they are not too large.
ghost use Rattle.std.specs.Prelude.{◌≡◌, ◌≤◌, IfOk, IfErr, IfSome, IsTrue, vec_len};
ghost use Rattle.fs_host.specs.Faults.{is_reason};

use crate::host_fault::HostFault;
use std::alloc::Global;
use std::fs;
use std::fs::File;
use std::io::Read;
use std::rt::Files;

/// Reads the bytes of a host file. A plain file of more than `most` bytes is refused before it is read, and any other file after `most` bytes.
#[tactic(auto, using(crate::proofs::MayEnd::reason_given))]
pub fn read_host<R: Files<File = File> + AllocGlobal>(
    rt: &R,
    path: &str,
    most: u64,
) -> Result<Vec<u8>, HostFault>
    ensures few { IfOk result (λ bytes. vec_len bytes ≤ most) }
    ensures err { IfErr result (λ fault. IsTrue (is_reason fault)) }
{
    let found = fs::metadata(rt, path)?;
    if found.is_dir() {
        return Err(HostFault::IsFolder);
    }
    if found.is_file() && found.len() > most {
        return Err(HostFault::TooLarge);
    }
    let mut file = fs::open(rt, path)?;
    read_some(rt.alloc(), &mut file, most)
}

/// Reads a reader up to its end. More than `most` bytes are refused.
#[tactic(auto, using(crate::proofs::MayEnd::reason_given))]
pub fn read_some<I: Read>(alloc: Global, reader: &mut I, most: u64) -> Result<Vec<u8>, HostFault>
    ensures all { IfOk result (λ bytes. IfSome (I.remaining reader.old) (λ all. bytes.items ≡ all)) }
    ensures few { IfOk result (λ bytes. vec_len bytes ≤ most) }
    ensures err { IfErr result (λ fault. IsTrue (is_reason fault)) }
{
    let mut bytes = Vec::new(alloc);
    let mut front = Read::take(reader, most.saturating_add(1));
    front.read_to_end(&mut bytes)?;
    if bytes.len() as u64 > most {
        return Err(HostFault::TooLarge);
    }
    Ok(bytes)
}
