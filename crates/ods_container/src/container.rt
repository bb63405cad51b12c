//! The volume in the bytes of a file, and the bytes after it.
ghost use Rattle.std.specs.Prelude.{◌≡◌, ◌≤◌, ◌*◌, ◌^◌, ℕ, List, None, IfOk, IfErr, MatchResult, length};
ghost use Rattle.std.specs.Io.KnownBytes.{Consumes};
ghost use Rattle.ods_base.specs.Image.{image_bytes};
ghost use Rattle.ods_container.specs.Container.{IsContained, IsNotContained, IsReadContained, IsNotRead, IsSeen, IsSize, HoldsVolume, IsUnwhole, volume_bytes};

use crate::filling::first_blocks;
use crate::reading::read_all;
use crate::size::believed_size;
use ods_base::{Image, ImageError, MAX_BLOCKS, MAX_BYTES};
use std::alloc::{AllocError, Global};
use std::io::Read;

/// The volume in the bytes of a file.
#[derive(Drop)]
pub struct Contained {
    /// The blocks of the volume. Blocks past the end of the file are zeros.
    pub image: Image,
    /// The bytes of the file after the volume.
    pub behind: Vec<u8>,
    /// The number of bytes of the file.
    pub length: u64,
}

/// Returns the volume in an image. Its size in blocks is the given one. Otherwise it is the size that the volume states, otherwise the size of the
/// image. If the size is that of the image, nothing is copied. The error is TooBig for a given size of more than 1,048,576 blocks, or NoMemory.
#[tactic(auto, using(crate::proofs::Containers::contained_by, crate::proofs::Containers::image_size, crate::proofs::Containers::seen_whole))]
pub fn contained_in(
    alloc: Global,
    image: Image,
    given: Option<u32>,
) -> Result<Contained, ImageError>
    ensures ok { IfOk result (λ c. IsContained (image_bytes image) given c.image c.behind.items c.length) }
    ensures err { IfErr result (IsNotContained (image_bytes image) given) }
{
    let count = match size_of(alloc, &image, 512 * image.len() as u64, given) {
        Ok(count) => count,
        Err(fault) => return Err(fault),
    };
    match with_size(alloc, image, count) {
        Ok(contained) => Ok(contained),
        Err(_) => Err(ImageError::NoMemory),
    }
}

/// Reads all bytes of a reader, and returns the volume in them, as [`contained_in`] does. The bytes may be other than whole blocks, and more than the
/// largest image has. A failed read is not tried again.
pub fn read_contained<R: Read>(
    alloc: Global,
    reader: &mut R,
    given: Option<u32>,
) -> Result<Contained, ImageError>
    ensures { (bytes : List ℕ) × Consumes (R.remaining reader.old) (R.remaining reader.new) bytes
        × MatchResult result (λ c. IsReadContained bytes (R.remaining reader.new) given c.image c.behind.items c.length) (IsNotRead bytes given) }
{
    let bytes = match read_all(alloc, reader) {
        Ok(bytes) => bytes,
        Err(fault) => return Err(fault),
    };
    match of_bytes(alloc, bytes, given) {
        Ok(contained) => Ok(contained),
        Err(fault) => Err(fault),
    }
}

/// The volume in these bytes.
#[tactic(auto, using(crate::proofs::Containers::contained_by, crate::proofs::Containers::seen_begun))]
fn of_bytes(alloc: Global, mut bytes: Vec<u8>, given: Option<u32>) -> Result<Contained, ImageError>
    ensures ok { IfOk result (λ c. IsContained bytes.items given c.image c.behind.items c.length) }
    ensures err { IfErr result (IsNotContained bytes.items given) }
{
    let begun = bytes.len().div_ceil(512).min(MAX_BLOCKS as usize) as u32;
    let Ok(seen) = first_blocks(alloc, &mut bytes, begun) else {
        return Err(ImageError::NoMemory);
    };
    let count = match size_of(alloc, &seen, bytes.len() as u64, given) {
        Ok(count) => count,
        Err(fault) => return Err(fault),
    };
    match at_size(alloc, seen, bytes, count) {
        Ok(contained) => Ok(contained),
        Err(_) => Err(ImageError::NoMemory),
    }
}

/// The size of the volume in so many bytes, of which this image is seen.
fn size_of(alloc: Global, seen: &Image, size: u64, given: Option<u32>) -> Result<u32, ImageError>
    ensures few { IfOk result (λ count. count ≤ 2 ^ 20) }
    ensures ok { IfOk result (λ count. (bytes : List ℕ) → length bytes ≡ size → IsSeen bytes seen.now → IsSize bytes given count) }
    ensures err { IfErr result (λ e. (bytes : List ℕ) → length bytes ≡ size → IsSeen bytes seen.now → IsNotContained bytes given e) }
{
    if let Some(count) = given {
        if MAX_BLOCKS < count {
            return Err(ImageError::TooBig);
        }
        return Ok(count);
    }
    let said = match believed_size(alloc, seen) {
        Ok(said) => said,
        Err(_) => return Err(ImageError::NoMemory),
    };
    if let Some(count) = said {
        return Ok(count);
    }
    match whole_blocks(size) {
        Ok(count) => Ok(count),
        Err(fault) => Err(fault),
    }
}

/// How many blocks so many bytes are, where they are an image.
fn whole_blocks(size: u64) -> Result<u32, ImageError>
    ensures ok { IfOk result (λ count. (size ≡ 512 * count) × (count ≤ 2 ^ 20)) }
    ensures err { IfErr result (IsUnwhole size) }
{
    if size > MAX_BYTES as u64 {
        return Err(ImageError::TooBig);
    }
    if size % 512 != 0 {
        return Err(ImageError::NotWholeBlocks);
    }
    Ok((size / 512) as u32)
}

/// An image as a volume of so many blocks.
fn with_size(alloc: Global, image: Image, count: u32) -> Result<Contained, AllocError>
    requires { count ≤ 2 ^ 20 }
    ensures { IfOk result (λ c. HoldsVolume (image_bytes image) count c.image c.behind.items c.length) }
{
    let length = 512 * image.len() as u64;
    if count < image.len() {
        let (image, behind) = image.cut(alloc, count)?;
        let _ = image.len();
        return Ok(Contained {
            image,
            behind,
            length,
        });
    }
    let image = image.lengthen(count)?;
    let _ = image.len();
    Ok(Contained {
        image,
        behind: Vec::new(alloc),
        length,
    })
}

/// The volume of so many blocks in these bytes, whose first blocks this image is.
fn at_size(alloc: Global, seen: Image, bytes: Vec<u8>, count: u32) -> Result<Contained, AllocError>
    requires few { count ≤ 2 ^ 20 }
    requires seen { image_bytes seen ≡ volume_bytes bytes.items (length seen) }
    ensures { IfOk result (λ c. HoldsVolume bytes.items count c.image c.behind.items c.length) }
{
    if count == seen.len() {
        return match beside(alloc, seen, &bytes) {
            Ok(contained) => Ok(contained),
            Err(_) => Err(AllocError),
        };
    }
    drop(seen);
    match part(alloc, bytes, count) {
        Ok(contained) => Ok(contained),
        Err(_) => Err(AllocError),
    }
}

/// The first blocks of these bytes, and what stands behind them.
fn part(alloc: Global, mut bytes: Vec<u8>, count: u32) -> Result<Contained, AllocError>
    requires { count ≤ 2 ^ 20 }
    ensures { IfOk result (λ c. HoldsVolume bytes.items count c.image c.behind.items c.length) }
{
    let image = match first_blocks(alloc, &mut bytes, count) {
        Ok(image) => image,
        Err(_) => return Err(AllocError),
    };
    match beside(alloc, image, &bytes) {
        Ok(contained) => Ok(contained),
        Err(_) => Err(AllocError),
    }
}

/// An image with what stands behind it of these bytes, whose first blocks it is.
fn beside(alloc: Global, image: Image, bytes: &[u8]) -> Result<Contained, AllocError>
    requires { image_bytes image ≡ volume_bytes bytes.now (length image) }
    ensures { IfOk result (λ c. HoldsVolume bytes.now (length image) c.image c.behind.items c.length) }
{
    let end = bytes.len().min(512 * image.len() as usize);
    let behind = match Vec::from_slice(alloc, &bytes[end..]) {
        Ok(behind) => behind,
        Err(_) => return Err(AllocError),
    };
    Ok(Contained {
        image,
        behind,
        length: bytes.len() as u64,
    })
}
