//! The loop device that has a file open.
use crate::sought::{Sought, whole_of};
use std::fs;
use std::fs::File;
use std::rt::Files;

/// The number of a loop device over the file, by the path that the device names.
pub fn loop_over<R: Files<File = File> + AllocGlobal + Clone + Drop>(
    rt: &R,
    sought: &Sought,
) -> Option<u32> {
    let Some(path) = &sought.path else {
        return None;
    };
    let Ok(devices) = fs::read_dir(rt, "/sys/block") else {
        return None;
    };
    for entry in devices {
        let Ok(entry) = entry else {
            continue;
        };
        if let Some(number) = loop_number(entry.file_name()) {
            if is_over(rt, number, path.as_str()) {
                return Some(number);
            }
        }
    }
    None
}

/// The number of a loop device of this name.
fn loop_number(name: &str) -> Option<u32> {
    match name.strip_prefix("loop") {
        Some(number) => number.parse::<u32>().ok(),
        None => None,
    }
}

/// Whether a loop device is over the file at this path.
fn is_over<R: Files<File = File> + AllocGlobal>(rt: &R, number: u32, path: &str) -> bool {
    let Ok(about) = format!(in rt.alloc(); "/sys/block/loop{number}/loop/backing_file") else {
        return false;
    };
    match whole_of(rt, about.as_str()) {
        Some(text) => text.strip_suffix(b"\n") == Some(path.as_bytes()),
        None => false,
    }
}
