//! The sizes of volumes, and the orders of floppies, by the names of devices.
ghost use Rattle.std.specs.Prelude.{◌≡◌, find, option_map};
ghost use Rattle.std.specs.Str.{str_eq_ignore_ascii_case};
ghost use Rattle.fs_words.specs.Devices.{device_order, device_size};

use ods_order::Order;

/// A device, with the blocks of its volumes.
#[derive(Clone, Copy)]
struct Device<'a> {
    name: &'a str,
    blocks: u32,
}

/// The devices.
const DEVICES: [Device<'static>; 13] = [
    Device {
        name: "RX01",
        blocks: 494,
    },
    Device {
        name: "RX02",
        blocks: 988,
    },
    Device {
        name: "RX50",
        blocks: 800,
    },
    Device {
        name: "RK05",
        blocks: 4800,
    },
    Device {
        name: "RL01",
        blocks: 10_240,
    },
    Device {
        name: "RL02",
        blocks: 20_480,
    },
    Device {
        name: "RK06",
        blocks: 27_126,
    },
    Device {
        name: "RK07",
        blocks: 53_790,
    },
    Device {
        name: "RM03",
        blocks: 131_680,
    },
    Device {
        name: "RP04",
        blocks: 171_798,
    },
    Device {
        name: "RP06",
        blocks: 340_670,
    },
    Device {
        name: "RM05",
        blocks: 500_384,
    },
    Device {
        name: "RA81",
        blocks: 891_072,
    },
];

/// Returns how many blocks a volume on this device has. Small letters count as capitals.
pub fn device_blocks(name: &str) -> Option<u32>
    ensures { result ≡ device_size name.now }
{
    let devices: [Device<'static>; 13] = DEVICES;
    blocks_among(&devices, name)
}

/// How many blocks a volume on the first device of this name has.
fn blocks_among(devices: &[Device<'_>], name: &str) -> Option<u32>
    ensures { result ≡ option_map (λ d. d.blocks) (find (λ d. str_eq_ignore_ascii_case d.name.now name.now) devices.now) }
{
    devices
        .iter()
        .find(|device| device.name.eq_ignore_ascii_case(name))
        .map(|device| device.blocks)
}

/// Returns the order of the sectors in which emulators attach floppies of this device, if it is not the order of the blocks. Small letters count as
/// capitals.
pub fn device_order(name: &str) -> Option<Order>
    ensures { result ≡ device_order name.now }
{
    if "RX01".eq_ignore_ascii_case(name) {
        return Some(Order::Rx01);
    }
    if "RX02".eq_ignore_ascii_case(name) {
        return Some(Order::Rx02);
    }
    None
}
