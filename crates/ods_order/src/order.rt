//! The orders of sectors: the size of a container of each, and the offset of each sector of the volume.
ghost use Rattle.std.specs.Prelude.{◌≡◌, ◌≢◌, ◌+◌, ◌*◌, ◌<◌, ◌≤◌, IfSome, IfNone};
ghost use Rattle.ods_order.specs.declared.order.Order.{Order as AnOrder};
ghost use Rattle.ods_order.specs.Order.{block_count, container_size, first_track as track_size, floppy_slot as slot_of_floppy, order_name, place as place_of, rx50_slot as slot_of_rx50, sector_count, sector_size};

/// An order of the sectors of a floppy in a container. An image with its blocks in order has none of these orders.
#[derive(Clone, Copy, Debug, PartialEq, Eq)]
pub enum Order {
    /// 77 tracks of 26 sectors of 128 bytes. The first track is not part of the volume.
    Rx01,
    /// 77 tracks of 26 sectors of 256 bytes. The first track is not part of the volume.
    Rx02,
    /// 80 tracks of 10 sectors of 512 bytes; the volume begins on the second track and ends on the first.
    Rx50,
}

impl Order {
    /// Returns the order of the containers of this size, if there is one. An RX50 image in block order has the size of one in physical order.
    pub fn of_size(size: usize) -> Option<Order>
        ensures some { IfSome result (λ order. size ≡ container_size order) }
        ensures none { IfNone result ((order : AnOrder) → size ≢ container_size order) }
    {
        match size {
            256_256 => Some(Order::Rx01),
            512_512 => Some(Order::Rx02),
            409_600 => Some(Order::Rx50),
            _ => None,
        }
    }

    /// Returns the order of this name.
    pub fn of_name(name: &str) -> Option<Order>
        ensures some { IfSome result (λ order. name.now ≡ order_name order) }
        ensures none { IfNone result ((order : AnOrder) → name.now ≢ order_name order) }
    {
        match name.as_bytes() {
            b"rx01" => Some(Order::Rx01),
            b"rx02" => Some(Order::Rx02),
            b"rx50" => Some(Order::Rx50),
            _ => None,
        }
    }

    /// Returns the name of the order.
    pub fn name(self) -> &'static str
        ensures { result.now ≡ order_name self }
    {
        match self {
            Order::Rx01 => "rx01",
            Order::Rx02 => "rx02",
            Order::Rx50 => "rx50",
        }
    }

    /// Returns the size of a container in bytes.
    pub fn container_size(self) -> usize
        ensures { result ≡ container_size self }
    {
        match self {
            Order::Rx01 => 256_256,
            Order::Rx02 => 512_512,
            Order::Rx50 => 409_600,
        }
    }

    /// Returns the size in bytes of the track that is not part of the volume.
    pub fn first_track(self) -> usize
        ensures value { result ≡ track_size self }
        ensures inside { result ≤ container_size self }
    {
        match self {
            Order::Rx01 => 3_328,
            Order::Rx02 => 6_656,
            Order::Rx50 => 0,
        }
    }

    /// Returns the number of blocks of the volume in a container.
    pub fn block_count(self) -> u32
        ensures value { result ≡ block_count self }
        ensures sectors { 512 * result ≡ sector_size self * sector_count self }
    {
        match self {
            Order::Rx01 => 494,
            Order::Rx02 => 988,
            Order::Rx50 => 800,
        }
    }

    /// The bytes of a sector.
    pub(crate) fn sector_size(self) -> usize
        ensures { result ≡ sector_size self }
    {
        match self {
            Order::Rx01 => 128,
            Order::Rx02 => 256,
            Order::Rx50 => 512,
        }
    }

    /// The sectors of the volume.
    pub(crate) fn sector_count(self) -> usize
        ensures { result ≡ sector_count self }
    {
        match self {
            Order::Rx01 | Order::Rx02 => 1_976,
            Order::Rx50 => 800,
        }
    }

    /// The first byte of sector `n` of the volume in the container.
    pub(crate) fn place(self, n: usize) -> usize
        requires { n < sector_count self }
        ensures value { result ≡ place_of self n }
        ensures inside { result + sector_size self ≤ container_size self }
    {
        match self {
            Order::Rx01 => 128 * floppy_slot(n),
            Order::Rx02 => 256 * floppy_slot(n),
            Order::Rx50 => 512 * rx50_slot(n),
        }
    }
}

/// Which sector of an RX01 or RX02 has sector `n` of the volume, counted from the first of the first track.
fn floppy_slot(n: usize) -> usize
    requires { n < 1976 }
    ensures value { result ≡ slot_of_floppy n }
    ensures inside { result < 2002 }
{
    let track = n / 26;
    let sector = n % 26;
    26 * (track + 1) + (2 * sector + sector / 13 + 6 * track) % 26
}

/// Which sector of an RX50 has sector `n` of the volume, counted from the first of the first track.
fn rx50_slot(n: usize) -> usize
    requires { n < 800 }
    ensures value { result ≡ slot_of_rx50 n }
    ensures inside { result < 800 }
{
    let track = n / 10;
    let sector = n % 10;
    10 * ((track + 1) % 80) + (2 * sector + sector / 5 + 2 * track) % 10
}
