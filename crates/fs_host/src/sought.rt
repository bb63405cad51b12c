//! The file that a search for programs is about, in the words of `/proc`.
use crate::marks::Mark;
use crate::proc_texts::{device_of, value_of};
use crate::reading::read_some;
use std::alloc::Global;
use std::fs::{File, Metadata};
use std::io::Read;
use std::os::fd::AsRawFd;
use std::rt::Files;
use std::{fs, str};

/// The bytes of a file of `/proc` about a descriptor or a thread that are read. The lines that matter are its first ones.
pub const FRONT: usize = 256;

/// The most bytes of a list of mounts or mappings that are read.
pub const MOST: u64 = 1 << 24;

/// A file that this process has open.
#[derive(Drop)]
pub struct Sought {
    /// The number of this process.
    pub own: String,
    /// The number of its inode, which Linux tells from 5.14 on.
    pub node: Option<Vec<u8>>,
    /// The number of the mount by which it was opened.
    pub mount: Vec<u8>,
    /// The device of that mount, as a list of mounts writes it, and as a list of mappings does.
    pub device: Option<Vec<u8>>,
    pub mapped: Option<String>,
    /// Its path from the root.
    pub path: Option<String>,
    /// How a link to it ends, and one to it under a name that was removed.
    pub named: String,
    pub removed: String,
    /// What the host says of it.
    pub mark: Mark,
}

impl Sought {
    /// The file that is open here, of which the host says this, and the last part of its path. None where there is no `/proc`.
    pub fn of<R: Files<File = File> + AllocGlobal>(
        rt: &R,
        file: &File,
        found: &Metadata,
        name: &str,
    ) -> Option<Sought> {
        let own = text_of_link(rt, "/proc/self")?;
        let number = file.as_raw_fd();
        let link = format!(in rt.alloc(); "/proc/self/fd/{number}").ok()?;
        let about = format!(in rt.alloc(); "/proc/self/fdinfo/{number}").ok()?;
        let mut bytes = [0; FRONT];
        let lines = front_of(rt, about.as_str(), &mut bytes)?;
        let mount = Vec::from_slice(rt.alloc(), value_in(b"mnt_id:\t", lines)?).ok()?;
        let node = copy_of(rt.alloc(), value_in(b"ino:\t", lines));
        let device = device_in(rt, "/proc/self/mountinfo", mount.as_slice());
        let mapped = mapped_of(rt.alloc(), &device);
        Some(Sought {
            own,
            node,
            mount,
            device,
            mapped,
            path: text_of_link(rt, link.as_str()),
            named: format!(in rt.alloc(); "/{name}").ok()?,
            removed: format!(in rt.alloc(); "/{name} (deleted)").ok()?,
            mark: Mark::of(found),
        })
    }

    /// Whether a link has its name. That is a hint only.
    pub fn is_named(&self, link: &str) -> bool {
        link.ends_with(self.named.as_str()) || link.ends_with(self.removed.as_str())
    }
}

/// A copy of bytes, if there are any.
fn copy_of(alloc: Global, bytes: Option<&[u8]>) -> Option<Vec<u8>> {
    match bytes {
        Some(bytes) => Vec::from_slice(alloc, bytes).ok(),
        None => None,
    }
}

/// What a link of `/proc` names. No other file system is asked.
pub fn text_of_link<R: Files<File = File> + AllocGlobal>(rt: &R, path: &str) -> Option<String> {
    match fs::read_link(rt, path) {
        Ok(link) => String::from_str(rt.alloc(), link.as_str()).ok(),
        Err(_) => None,
    }
}

/// The first bytes of a file of `/proc`.
pub fn front_of<'a, R: Files<File = File>>(
    rt: &R,
    path: &str,
    bytes: &'a mut [u8; FRONT],
) -> Option<&'a [u8]> {
    let Ok(mut file) = fs::open(rt, path) else {
        return None;
    };
    let Ok(count) = file.read(bytes) else {
        return None;
    };
    bytes.get(..count)
}

/// The value of the first of these lines that begins with the key.
pub fn value_in<'a>(key: &[u8], lines: &'a [u8]) -> Option<&'a [u8]> {
    for line in lines.split(|byte| *byte == b'\n') {
        if let Some(value) = value_of(key, line) {
            return Some(value);
        }
    }
    None
}

/// The device of a mount, by a list of mounts.
pub fn device_in<R: Files<File = File> + AllocGlobal>(
    rt: &R,
    path: &str,
    mount: &[u8],
) -> Option<Vec<u8>> {
    let text = whole_of(rt, path)?;
    for line in text.split(|byte| *byte == b'\n') {
        if let Some(device) = device_of(mount, line) {
            return Vec::from_slice(rt.alloc(), device).ok();
        }
    }
    None
}

/// The bytes of a file of `/proc`.
pub fn whole_of<R: Files<File = File> + AllocGlobal>(rt: &R, path: &str) -> Option<Vec<u8>> {
    let Ok(mut file) = fs::open(rt, path) else {
        return None;
    };
    read_some(rt.alloc(), &mut file, MOST).ok()
}

/// A device of a list of mounts, as a list of mappings writes it.
fn mapped_of(alloc: Global, device: &Option<Vec<u8>>) -> Option<String> {
    let Some(device) = device else {
        return None;
    };
    let Ok(text) = str::from_utf8(device.as_slice()) else {
        return None;
    };
    let (major, minor) = text.split_once(':')?;
    let major = major.parse::<u32>().ok()?;
    let minor = minor.parse::<u32>().ok()?;
    format!(in alloc; "{major:02x}:{minor:02x}").ok()
}
