//! The order in which the sectors of a volume are read from a file: as stored, or as on the surface of a floppy.
ghost use Rattle.std.specs.Prelude.{◌≡◌, ◌⊎◌, ℕ, List, Some, None, IfOk, IfErr, MatchBool, length};
ghost use Rattle.ods_container.specs.Container.{IsNotContained};
ghost use Rattle.ods_header.specs.Home.{HasNoHome};
ghost use Rattle.ods_order.specs.Order.{container_size};
ghost use Rattle.ods_order.specs.Volumes.{volume_of};
ghost use Rattle.fs_host.specs.Layers.{HasHome, HasHomeIn, HasPlainHome, HasSizeOf, IsFoundIn, IsOfImage, IsReadIn, IsVolumeIn, LacksHomeIn, LacksPlainHome, MayNotBeRead, floppy_of};

use crate::containers::{end_of, volume_in};
use crate::floppies::Floppy;
use crate::host_fault::HostFault;
use crate::reading::read_some;
use ods_base::{Image, ImageError};
use ods_container::{Contained, contained_in, read_contained};
use ods_header::find_home;
use ods_order::{Order, OrderFault, read_volume};
use std::alloc::{AllocError, Global};
use std::io::{Read, Seek};
use thiserror::Error;

/// The order in which the sectors of a volume are read.
#[derive(Clone, Copy, Debug, PartialEq, Eq)]
pub enum Layers {
    /// The order in which a home block is found.
    Found,
    /// The order in the file.
    Plain,
    /// The physical order of a floppy.
    Physical(Order),
}

/// The reason why no volume is read from a file.
#[derive(Clone, Copy, Debug, PartialEq, Eq, Error)]
pub enum ReadFault {
    /// The file is not read, or its bytes are not a valid image.
    #[error("{0}")]
    Image(ImageError),
    /// The file has another size than a floppy of this order.
    #[error("OtherSize")]
    OtherSize(Order),
}

/// The volume in a file. The bytes of a floppy in physical order are kept, since the volume is written back to its sectors there.
#[derive(Drop)]
pub struct Layered {
    pub contained: Contained,
    pub floppy: Option<Floppy>,
}

/// Reads the volume in a file, with the size in blocks if `given` is a size. `Layers::Found` looks for an order in a file that is as long as a
/// floppy.
#[tactic(auto, using(crate::proofs::Ordered::ok_told, crate::proofs::Ordered::err_told))]
pub fn layered_in<F: Read + Seek>(
    alloc: Global,
    file: &mut F,
    given: Option<u32>,
    layers: Layers,
) -> Result<Layered, ReadFault>
    ensures ok { IfOk result (λ l. (told : ℕ) × IsReadIn layers told given l.contained.image l.contained.behind.items l.contained.length l.floppy) }
    ensures err { IfErr result (λ fault. (told : ℕ) × MayNotBeRead layers told fault) }
{
    match layers {
        Layers::Found => {}
        Layers::Plain | Layers::Physical(_) => return read_as(alloc, file, 0, given, layers),
    }
    match end_of(file) {
        Ok(told) => read_as(alloc, file, told, given, layers),
        Err(fault) => Err(ReadFault::Image(fault)),
    }
}

/// The same for a file at its start that says its size.
#[tactic(auto, using(crate::proofs::Ordered::plain_read, crate::proofs::Ordered::ordered_read, crate::proofs::Ordered::image_faults, crate::proofs::Ordered::said_fault, crate::proofs::Ordered::size_fault))]
fn read_as<F: Read + Seek>(
    alloc: Global,
    file: &mut F,
    told: u64,
    given: Option<u32>,
    layers: Layers,
) -> Result<Layered, ReadFault>
    ensures ok { IfOk result (λ l. IsReadIn layers told given l.contained.image l.contained.behind.items l.contained.length l.floppy) }
    ensures err { IfErr result (MayNotBeRead layers told) }
{
    match layers {
        Layers::Plain => read_plain(alloc, file, given),
        Layers::Physical(order) => {
            let bytes = read_floppy(alloc, file, order)?;
            read_bytes(alloc, bytes, given, Some(order))
        }
        Layers::Found => {
            let Some(size) = Order::of_size(told as usize) else {
                return read_plain(alloc, file, given);
            };
            let bytes = read_floppy(alloc, file, size)?;
            match found_order(alloc, &bytes) {
                Ok(order) => read_bytes(alloc, bytes, given, order),
                Err(_) => Err(ReadFault::Image(ImageError::NoMemory)),
            }
        }
    }
}

/// The volume in a file as its blocks stand.
fn read_plain<F: Read + Seek>(
    alloc: Global,
    file: &mut F,
    given: Option<u32>,
) -> Result<Layered, ReadFault>
    ensures ok { IfOk result (λ l. (bytes : List ℕ) × IsVolumeIn None bytes given l.contained.image l.contained.behind.items l.contained.length × (l.floppy ≡ None)) }
    ensures err { IfErr result IsOfImage }
{
    match volume_in(alloc, file, given) {
        Ok(contained) => Ok(Layered {
            contained,
            floppy: None,
        }),
        Err(fault) => Err(ReadFault::Image(fault)),
    }
}

/// All bytes of a file that is as long as a floppy of this order.
fn read_floppy<F: Read>(alloc: Global, file: &mut F, order: Order) -> Result<Vec<u8>, ReadFault>
    ensures ok { IfOk result (λ bytes. length bytes.items ≡ container_size order) }
    ensures err { IfErr result (λ fault. IsOfImage fault ⊎ (fault ≡ ReadFault.OtherSize order)) }
{
    let size = order.container_size();
    match read_some(alloc, file, size as u64) {
        Ok(bytes) if bytes.len() == size => Ok(bytes),
        Ok(_) | Err(HostFault::TooLarge) => Err(ReadFault::OtherSize(order)),
        Err(HostFault::NoMemory) => Err(ReadFault::Image(ImageError::NoMemory)),
        Err(_) => Err(ReadFault::Image(ImageError::ReadFailed)),
    }
}

/// The volume in these bytes, in this order.
fn read_bytes(
    alloc: Global,
    bytes: Vec<u8>,
    given: Option<u32>,
    order: Option<Order>,
) -> Result<Layered, ReadFault>
    requires { HasSizeOf order bytes.items }
    ensures ok { IfOk result (λ l. IsVolumeIn order bytes.items given l.contained.image l.contained.behind.items l.contained.length × (l.floppy ≡ floppy_of order bytes.items)) }
    ensures err { IfErr result IsOfImage }
{
    match order {
        None => match plain_volume(alloc, &bytes, given) {
            Ok(contained) => Ok(Layered {
                contained,
                floppy: None,
            }),
            Err(fault) => Err(ReadFault::Image(fault)),
        },
        Some(order) => match ordered_volume(alloc, order, &bytes, given) {
            Ok(contained) => Ok(Layered {
                contained,
                floppy: Some(Floppy::of(order, bytes)),
            }),
            Err(fault) => Err(ReadFault::Image(fault)),
        },
    }
}

/// The volume in these bytes as they stand.
fn plain_volume(alloc: Global, bytes: &[u8], given: Option<u32>) -> Result<Contained, ImageError>
    ensures { IfOk result (λ c. IsVolumeIn None bytes.now given c.image c.behind.items c.length) }
{
    let mut reader = bytes;
    read_contained(alloc, &mut reader, given)
}

/// The volume in the bytes of a floppy in this order.
fn ordered_volume(
    alloc: Global,
    order: Order,
    bytes: &[u8],
    given: Option<u32>,
) -> Result<Contained, ImageError>
    requires { length bytes.now ≡ container_size order }
    ensures ok { IfOk result (λ c. IsVolumeIn (Some order) bytes.now given c.image c.behind.items c.length) }
    ensures err { IfErr result (IsNotContained (volume_of order bytes.now) given) }
{
    match read_volume(alloc, order, bytes) {
        Ok(image) => contained_in(alloc, image, given),
        Err(_) => Err(ImageError::NoMemory),
    }
}

/// The order in which a home block is found in these bytes; none where it is found as they stand, or nowhere.
#[tactic(auto, using(crate::proofs::Ordered::lacks_each))]
fn found_order(alloc: Global, bytes: &[u8]) -> Result<Option<Order>, AllocError>
    ensures { IfOk result (IsFoundIn bytes.now) }
{
    let Some(order) = Order::of_size(bytes.len()) else {
        return Ok(None);
    };
    if has_plain_home(alloc, bytes)? {
        return Ok(None);
    }
    if has_home_in(alloc, order, bytes)? {
        Ok(Some(order))
    } else {
        Ok(None)
    }
}

/// Whether a home block is found in the whole blocks of these bytes, as they stand.
#[tactic(auto, using(crate::proofs::Ordered::test_means))]
fn has_plain_home(alloc: Global, bytes: &[u8]) -> Result<bool, AllocError>
    ensures { IfOk result (λ has. MatchBool has (HasPlainHome bytes.now) (LacksPlainHome bytes.now)) }
{
    let whole = 512 * (bytes.len() / 512);
    match Image::from_bytes(alloc, &bytes[..whole]) {
        Ok(image) => Ok(has_home(&image)),
        Err(_) => Err(AllocError),
    }
}

/// Whether a home block is found where the sectors stand in this order.
#[tactic(auto, using(crate::proofs::Ordered::test_means))]
fn has_home_in(alloc: Global, order: Order, bytes: &[u8]) -> Result<bool, AllocError>
    ensures { IfOk result (λ has. MatchBool has (HasHomeIn order bytes.now) (LacksHomeIn order bytes.now)) }
{
    match read_volume(alloc, order, bytes) {
        Ok(image) => Ok(has_home(&image)),
        Err(OrderFault::OtherSize) => Ok(false),
        Err(OrderFault::NoMemory) => Err(AllocError),
    }
}

/// Whether the image has a home block.
fn has_home(image: &Image) -> bool
    ensures { MatchBool result (HasHome image.now) (HasNoHome image.now) }
{
    match find_home(image) {
        Ok(_) => true,
        Err(_) => false,
    }
}
