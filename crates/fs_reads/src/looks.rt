//! The apparent type of bytes that are not the image of a volume.
ghost use Rattle.std.specs.Prelude.{◌≡◌};
ghost use Rattle.fs_reads.specs.{Looks.look_of, Looks.is_packed, Looks.stands, Looks.look_of_front as front_look, Looks.look_of_length as length_look};

use thiserror::Error;

/// The apparent type of a host file that is not the image of a volume, with a remedy.
#[derive(Clone, Copy, Debug, PartialEq, Eq, Error)]
pub enum Look {
    /// The file has no bytes.
    #[error("the file is empty")]
    Empty,
    /// A gzip file, by its first two bytes.
    #[error("it looks like gzip: unpack it")]
    Gzip,
    /// A zip archive, by its first four bytes.
    #[error("it looks like a zip archive: unpack it")]
    Zip,
    /// An xz, bzip2, zstd or 7-Zip file, by its first bytes.
    #[error("it looks like a compressed file: unpack it")]
    Packed,
    /// A tar archive, by the mark in its first header.
    #[error("it looks like a tar archive: 'untar' puts its files into a volume")]
    Tar,
    /// A VHD of growing size, by its first eight bytes.
    #[error("it looks like a dynamic VHD: convert it to a fixed VHD")]
    Vhd,
    /// A floppy image of IMD, by its first four bytes.
    #[error("it looks like an IMD image: convert it to a raw image of its sectors")]
    Imd,
    /// A floppy image of TeleDisk, by its first three bytes.
    #[error("it looks like a TeleDisk image: convert it to a raw image of its sectors")]
    TeleDisk,
    /// An RT-11 volume, by the mark in block 1.
    #[error("it looks like an RT-11 volume, which f11fs does not read")]
    Rt11,
    /// An ODS-2 volume, by the mark in block 1.
    #[error("it looks like a Files-11 ODS-2 volume of VMS, which f11fs does not read")]
    Ods2,
    /// An ODS-1 volume, by the mark in block 1.
    #[error("its home block is damaged: 'rescue --scan' copies files by their headers")]
    Home,
    /// An RX01 image in physical order, by its length of 256,256 bytes.
    #[error("it has the length of an RX01 image in physical order: try --order rx01")]
    Rx01,
    /// An RX02 image in physical order, by its length of 512,512 bytes.
    #[error("it has the length of an RX02 image in physical order: try --order rx02")]
    Rx02,
    /// An RX50 image, perhaps in physical order, by its length of 409,600 bytes.
    #[error("it has the length of an RX50 image: if it is in physical order, try --order rx50")]
    Rx50,
}

/// At which byte the mark of a home block of RT-11 and of ODS-2 stands.
const HOME_MARK: usize = 1008;

/// At which byte the mark of an archive stands.
const TAR_MARK: usize = 257;

/// Returns the apparent type of a file of this length with these first bytes, at most two blocks.
pub fn looks_like(bytes: &[u8], length: u64) -> Option<Look>
    ensures { result ≡ look_of bytes.now length }
{
    if length == 0 {
        return Some(Look::Empty);
    }
    match look_of_front(bytes) {
        Some(look) => Some(look),
        None => look_of_length(length),
    }
}

/// Whether these bytes stand from that place on.
fn has_mark(mark: &[u8], at: usize, bytes: &[u8]) -> bool
    ensures { result ≡ stands mark.now at bytes.now }
{
    let from = at.min(bytes.len());
    bytes[from..].starts_with(mark)
}

/// Whether these bytes are the first ones of an xz, bzip2, zstd or 7-Zip file.
fn is_packed(bytes: &[u8]) -> bool
    ensures { result ≡ is_packed bytes.now }
{
    has_mark(&[0xfd, 0x37, 0x7a, 0x58, 0x5a, 0], 0, bytes)
        || has_mark(b"BZh", 0, bytes)
        || has_mark(&[0x28, 0xb5, 0x2f, 0xfd], 0, bytes)
        || has_mark(&[0x37, 0x7a, 0xbc, 0xaf, 0x27, 0x1c], 0, bytes)
}

/// What the first bytes look like.
fn look_of_front(bytes: &[u8]) -> Option<Look>
    ensures { result ≡ front_look bytes.now }
{
    if has_mark(&[0x1f, 0x8b], 0, bytes) {
        Some(Look::Gzip)
    } else if has_mark(&[0x50, 0x4b, 3, 4], 0, bytes) {
        Some(Look::Zip)
    } else if is_packed(bytes) {
        Some(Look::Packed)
    } else if has_mark(b"ustar", TAR_MARK, bytes) {
        Some(Look::Tar)
    } else if has_mark(b"conectix", 0, bytes) {
        Some(Look::Vhd)
    } else if has_mark(b"IMD ", 0, bytes) {
        Some(Look::Imd)
    } else if has_mark(&[0x54, 0x44, 0], 0, bytes) {
        Some(Look::TeleDisk)
    } else if has_mark(&[0x74, 0x64, 0], 0, bytes) {
        Some(Look::TeleDisk)
    } else if has_mark(b"DECRT11A", HOME_MARK, bytes) {
        Some(Look::Rt11)
    } else if has_mark(b"DECFILE11B", HOME_MARK, bytes) {
        Some(Look::Ods2)
    } else if has_mark(b"DECFILE11A", HOME_MARK, bytes) {
        Some(Look::Home)
    } else {
        None
    }
}

/// What a file of this length looks like.
fn look_of_length(length: u64) -> Option<Look>
    ensures { result ≡ length_look length }
{
    if length == 256_256 {
        Some(Look::Rx01)
    } else if length == 512_512 {
        Some(Look::Rx02)
    } else if length == 409_600 {
        Some(Look::Rx50)
    } else {
        None
    }
}
