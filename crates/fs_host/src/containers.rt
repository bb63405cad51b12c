//! Host files that hold a volume: how they are read, and the remark on a file that is longer or shorter than its volume.
ghost use Rattle.std.specs.Prelude.{◌≡◌, ◌↔◌, Err, ◌⊎◌, ℕ, List, Some, IfOk, IfErr, IfSome, OnOk, MatchResult, IsTrue, length};
ghost use Rattle.std.specs.Io.KnownBytes.{Keeps};
ghost use Rattle.ods_container.specs.Container.{IsContained};
ghost use Rattle.fs_host.specs.Found.{IsRemark, SaysShort, ReadsWhole, AreBlocks, IsNotFound};

use ods_base::{Image, ImageError};
use ods_container::{Contained, Footer, MOST_BYTES, contained_in, footer_of, read_contained};
use std::alloc::Global;
use std::io::{Read, Seek, SeekFrom};
use thiserror::Error;

/// Reads the volume in a file, with the size in blocks if `given` is a size. A file whose size is too large is not read. Only a file whose bytes
/// are not directly a valid image is read twice.
pub fn volume_in<F: Read + Seek>(
    alloc: Global,
    file: &mut F,
    given: Option<u32>,
) -> Result<Contained, ImageError>
    ensures contained { IfOk result (λ c. (bytes : List ℕ) × IsContained bytes given c.image c.behind.items c.length) }
    // Of a file at its start, whose bytes are known and are those of an image as they stand.
    ensures known { ReadsWhole F.remaining F.stream_position F.stream_bytes → F.stream_position file.old ≡ Some 0
        → IfSome (F.stream_bytes file.old) (λ bytes. AreBlocks bytes
        → MatchResult result (λ c. IsContained bytes given c.image c.behind.items c.length) (IsNotFound bytes given)) }
{
    if end_of(file)? > MOST_BYTES as u64 {
        return Err(fault_of_large(file));
    }
    match Image::read_from(alloc, file) {
        Ok(image) => contained_in(alloc, image, given),
        Err(fault) => volume_in_no_image(alloc, file, given, fault),
    }
}

/// Why a file that is too large by its size has no volume. The end of a folder says nothing; it is not read.
fn fault_of_large<F: Read>(file: &mut F) -> ImageError
    ensures { (result ≡ ImageError.TooBig) ⊎ (result ≡ ImageError.ReadFailed) }
{
    match file.read(&mut [0; 1]) {
        Ok(_) => ImageError::TooBig,
        Err(_) => ImageError::ReadFailed,
    }
}

/// The volume in a file that is no image as it stands, for this reason: it is read once more where the reason is its size.
fn volume_in_no_image<F: Read + Seek>(
    alloc: Global,
    file: &mut F,
    given: Option<u32>,
    fault: ImageError,
) -> Result<Contained, ImageError>
    ensures contained { IfOk result (λ c. (bytes : List ℕ) × IsContained bytes given c.image c.behind.items c.length) }
    ensures failed { (fault ≡ ImageError.ReadFailed) ⊎ (fault ≡ ImageError.NoMemory) → result ≡ Err fault }
{
    match fault {
        ImageError::NotWholeBlocks | ImageError::TooBig => {}
        ImageError::ReadFailed | ImageError::NoMemory => return Err(fault),
    }
    match file.seek(SeekFrom::Start(0)) {
        Ok(_) => read_contained(alloc, file, given),
        Err(_) => Err(fault),
    }
}

/// Returns the number of bytes of a file, and seeks to its start. Returns 0 for a stream.
pub fn end_of<F: Seek>(file: &mut F) -> Result<u64, ImageError>
    ensures start { F.stream_position file.old ≡ Some 0 → OnOk result (F.stream_position file.new ≡ Some 0) }
    ensures bytes { Keeps (F.stream_bytes file.old) (F.stream_bytes file.new) }
    ensures size { F.stream_position file.old ≡ Some 0 → IfSome (F.stream_bytes file.old) (λ bytes. IfOk result (λ end. (end ≡ 0) ⊎ (end ≡ length bytes))) }
    ensures err { IfErr result (λ fault. fault ≡ ImageError.ReadFailed) }
{
    let Ok(end) = file.seek(SeekFrom::End(0)) else {
        return Ok(0);
    };
    match file.seek(SeekFrom::Start(0)) {
        Ok(_) => Ok(end),
        Err(_) => Err(ImageError::ReadFailed),
    }
}

/// A remark on a file that is longer or shorter than its volume.
#[derive(Clone, Copy, Debug, PartialEq, Eq, Error)]
pub enum Extent {
    /// The number of bytes after the volume.
    #[error("{0} bytes after the volume")]
    Longer(usize),
    /// The number of bytes after the volume, which begin like a simh footer.
    #[error("{0} bytes after the volume (a simh footer)")]
    Simh(usize),
    /// The number of bytes after the volume, which begin like a VHD footer.
    #[error("{0} bytes after the volume (a VHD footer)")]
    Vhd(usize),
    /// The number of whole blocks of the file, and the number of blocks of the volume.
    #[error("the image ends at block {0} of {1}")]
    Shorter(u32, u32),
}

impl Extent {
    /// Returns the remark on this file; `None` if the volume fills its file.
    pub fn of(contained: &Contained) -> Option<Extent>
        ensures { IsRemark contained.now.length (length contained.now.image) contained.now.behind.items result }
    {
        let blocks = contained.image.len();
        let behind = contained.behind.len();
        if contained.length < 512 * blocks as u64 {
            return Some(Extent::Shorter((contained.length / 512) as u32, blocks));
        }
        if behind == 0 {
            return None;
        }
        Some(match footer_of(&contained.behind) {
            Some(Footer::Simh) => Extent::Simh(behind),
            Some(Footer::Vhd) => Extent::Vhd(behind),
            None => Extent::Longer(behind),
        })
    }

    /// Returns whether the file is shorter than its volume.
    pub fn is_short(&self) -> bool
        ensures { IsTrue result ↔ SaysShort self.now }
    {
        matches!(self, Extent::Shorter(_, _))
    }
}
