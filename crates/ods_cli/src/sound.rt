//! A sound image from the bytes of a reader, or the refusal.
ghost use Rattle.std.specs.Prelude.{◌≡◌, ◌≢◌, ℕ, List, MatchResult, IfOk, IsOkUnless};
ghost use Rattle.std.specs.String.{string_bytes};
ghost use Rattle.std.specs.Io.KnownBytes.{Consumes};
ghost use Rattle.ods_cli.specs.{ImageLines.fault_line, Reply.IsReplyFault, Serve.AreSound, Serve.AreRefused, Serve.IsSoundImage, Serve.IsFaultOf};

use crate::ServeFault;
use crate::reply::{NoImage, read_image, refusal_line};
use ods_base::{Coded, Image};
use ods_mount::{MountFault, Mounted, mount};
use std::alloc::Global;
use std::io::Read;

/// Reads and mounts the image of a reader, or returns the refusal if the bytes are not a sound image.
pub(crate) fn sound_image<R: Read>(
    alloc: Global,
    reader: &mut R,
) -> Result<Result<Mounted, NoImage>, ServeFault>
    ensures { (bytes : List ℕ) × Consumes (R.remaining reader.old) (R.remaining reader.new) bytes
        × MatchResult result (λ found. MatchResult found (λ m. AreSound bytes (R.remaining reader.new) m.image)
        (λ n. AreRefused bytes (R.remaining reader.new) n.number (string_bytes n.line)))
        (IsReplyFault bytes) }
{
    match read_image(alloc, reader)? {
        Ok(image) => mount_image(alloc, image),
        Err(no_image) => Ok(Err(no_image)),
    }
}

/// The image mounted, or the fault that it has.
fn mount_image(alloc: Global, image: Image) -> Result<Result<Mounted, NoImage>, ServeFault>
    ensures ok { IfOk result (λ found. MatchResult found (λ m. (m.image ≡ image) × IsSoundImage image) (λ n. IsFaultOf image n.number (string_bytes n.line))) }
    ensures err { IsOkUnless result ServeFault.NoMemory }
{
    match mount(alloc, image) {
        Ok(mounted) => Ok(Ok(mounted)),
        Err((_, fault)) => {
            let line = faulty(alloc, fault)?;
            Ok(Err(NoImage {
                number: fault.code(),
                line,
            }))
        }
    }
}

/// The line of a fault of an image: behind its name stands what it carries, each in decimal after a space, numbers of
/// files and then the LBN of a block. Want of memory is no such fault.
fn faulty(alloc: Global, fault: MountFault) -> Result<String, ServeFault>
    ensures ok { IfOk result (λ line. (fault ≢ MountFault.NoMemory) × (string_bytes line ≡ fault_line fault)) }
    ensures err { IsOkUnless result ServeFault.NoMemory }
{
    let (number, name) = (fault.code(), fault.name());
    let line = match fault {
        MountFault::UnsupportedMap(file)
        | MountFault::BadChain(file)
        | MountFault::BadDirectory(file)
        | MountFault::DuplicateName(file) => format!(in alloc; "NO {number} {name} {file}\n")?,
        MountFault::OutsideVolume(file, block) | MountFault::MarkedFree(file, block) => {
            format!(in alloc; "NO {number} {name} {file} {block}\n")?
        }
        MountFault::DoublyUsed(one, other, block) => {
            format!(in alloc; "NO {number} {name} {one} {other} {block}\n")?
        }
        MountFault::NoHome
        | MountFault::BadIndex
        | MountFault::BadStorageMap
        | MountFault::BadMaster => refusal_line(alloc, number, name)?,
        MountFault::NoMemory => return Err(ServeFault::NoMemory),
    };
    Ok(line)
}
