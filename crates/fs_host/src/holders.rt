//! A process or a loop device that has a file open.
ghost use Rattle.std.specs.Prelude.{◌≤◌};

/// The number of bytes of a process name that are kept.
pub const NAME: usize = 16;

/// A process that has a file open: its number, and the kept bytes of its name. Or a loop device on the file: its number.
#[derive(Clone, Copy, Debug, PartialEq, Eq)]
pub struct Holder {
    pub(crate) number: u32,
    pub(crate) is_device: bool,
    pub(crate) name: [u8; NAME],
    pub(crate) length: usize,
    ghost within: { length ≤ 16 },
}
