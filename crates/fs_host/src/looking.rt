//! Whether a process has a file open: by a descriptor of it or of one of its threads, or by a mapping.
use crate::marks::Mark;
use crate::proc_texts::{maps_file, may_be_on_disk};
use crate::sought::{FRONT, Sought, device_in, front_of, text_of_link, value_in, whole_of};
use crate::watch::Watch;
use std::fs;
use std::fs::File;
use std::io::ErrorKind;
use std::os::unix::fs::MetadataExt;
use std::rt::{Clock, Files};

/// The most threads of a process whose descriptors are looked at on a kernel that does not count them.
const THREADS: u32 = 16;

/// What is seen of a process.
#[derive(Clone, Copy, PartialEq, Eq)]
pub enum Look {
    /// It has the file open.
    Open,
    /// It has not.
    Free,
    /// It could not be looked at, or not in time.
    Unseen,
}

/// Where a process may have the file open.
#[derive(Clone, Copy)]
pub enum Part {
    Descriptors,
    Mappings,
}

/// Looks at a part of a process.
pub fn look_at<R: Files<File = File> + Clock + AllocGlobal + Clone + Drop>(
    rt: &R,
    process: u32,
    part: Part,
    sought: &Sought,
    watch: &mut Watch,
) -> Look {
    let Ok(folder) = format!(in rt.alloc(); "/proc/{process}") else {
        return Look::Unseen;
    };
    match part {
        Part::Descriptors => match look_at_descriptors(rt, folder.as_str(), sought, watch) {
            Look::Free => look_at_threads(rt, folder.as_str(), sought, watch),
            look => look,
        },
        Part::Mappings => look_at_mappings(rt, folder.as_str(), sought, watch),
    }
}

/// Looks at the descriptors of the process or thread with this folder.
fn look_at_descriptors<R: Files<File = File> + Clock + AllocGlobal + Clone + Drop>(
    rt: &R,
    folder: &str,
    sought: &Sought,
    watch: &mut Watch,
) -> Look {
    if watch.is_over(rt) {
        return Look::Unseen;
    }
    let Ok(path) = format!(in rt.alloc(); "{folder}/fd") else {
        return Look::Unseen;
    };
    let opened = match fs::read_dir(rt, path.as_str()) {
        Ok(opened) => opened,
        Err(error) if error.kind() == ErrorKind::NotFound => return Look::Free,
        Err(_) => return Look::Unseen,
    };
    for entry in opened {
        if watch.is_over(rt) {
            return Look::Unseen;
        }
        let Ok(entry) = entry else {
            continue;
        };
        if is_sought(rt, folder, entry.file_name(), sought) {
            return Look::Open;
        }
    }
    Look::Free
}

/// Whether this descriptor is one of the file.
fn is_sought<R: Files<File = File> + AllocGlobal>(
    rt: &R,
    folder: &str,
    number: &str,
    sought: &Sought,
) -> bool {
    let Ok(path) = format!(in rt.alloc(); "{folder}/fd/{number}") else {
        return false;
    };
    // A link whose text cannot be read, as it is not UTF-8, may be any.
    let link = text_of_link(rt, path.as_str());
    if let Some(link) = &link {
        if !may_be_on_disk(link.as_bytes()) {
            return false;
        }
    }
    let is_named = match &link {
        Some(link) => sought.is_named(link.as_str()),
        None => false,
    };
    let Ok(about) = format!(in rt.alloc(); "{folder}/fdinfo/{number}") else {
        return false;
    };
    let mut bytes = [0; FRONT];
    let Some(lines) = front_of(rt, about.as_str(), &mut bytes) else {
        return false;
    };
    match (&sought.node, value_in(b"ino:\t", lines)) {
        (Some(node), Some(found)) => {
            found == node.as_slice() && is_on_device(rt, folder, lines, is_named, sought)
        }
        // A kernel before 5.14 tells no inode, and only there a link is followed, if it has the name of the file.
        _ => is_named && is_same_file(rt, path.as_str(), sought),
    }
}

/// Whether a descriptor with these lines is on the device of the file. A mount that is in no list is taken for it if the link has the name of
/// the file.
fn is_on_device<R: Files<File = File> + AllocGlobal>(
    rt: &R,
    folder: &str,
    lines: &[u8],
    is_named: bool,
    sought: &Sought,
) -> bool {
    let Some(mount) = value_in(b"mnt_id:\t", lines) else {
        return is_named;
    };
    if mount == sought.mount.as_slice() {
        return true;
    }
    let Ok(path) = format!(in rt.alloc(); "{folder}/mountinfo") else {
        return is_named;
    };
    match (&sought.device, device_in(rt, path.as_str(), mount)) {
        (Some(device), Some(found)) => found.as_slice() == device.as_slice(),
        _ => is_named,
    }
}

/// Whether the link leads to the file.
fn is_same_file<R: Files<File = File>>(rt: &R, path: &str, sought: &Sought) -> bool {
    match fs::metadata(rt, path) {
        Ok(found) => Mark::of(&found).is_same_file(&sought.mark),
        Err(_) => false,
    }
}

/// Looks at the descriptors of the threads of a process that have a table of their own: another number of descriptors.
fn look_at_threads<R: Files<File = File> + Clock + AllocGlobal + Clone + Drop>(
    rt: &R,
    folder: &str,
    sought: &Sought,
    watch: &mut Watch,
) -> Look {
    let Ok(path) = format!(in rt.alloc(); "{folder}/task") else {
        return Look::Unseen;
    };
    let Ok(threads) = fs::read_dir(rt, path.as_str()) else {
        return Look::Free;
    };
    let own = count_of(rt, folder);
    let mut left = THREADS;
    for entry in threads {
        let Ok(entry) = entry else {
            continue;
        };
        let Ok(thread) = format!(in rt.alloc(); "{path}/{}", entry.file_name()) else {
            continue;
        };
        let count = count_of(rt, thread.as_str());
        if count != own || (count == 0 && left > 0) {
            left = left.saturating_sub(1);
            match look_at_descriptors(rt, thread.as_str(), sought, watch) {
                Look::Free => {}
                look => return look,
            }
        }
    }
    Look::Free
}

/// The number of descriptors of the process or thread with this folder, which Linux tells from 6.2 on.
fn count_of<R: Files<File = File> + AllocGlobal>(rt: &R, folder: &str) -> u64 {
    let Ok(path) = format!(in rt.alloc(); "{folder}/fd") else {
        return 0;
    };
    match fs::symlink_metadata(rt, path.as_str()) {
        Ok(found) => found.size(),
        Err(_) => 0,
    }
}

/// Looks at the mappings of a process. While a thread of it waits for a device, to read them may be to wait with it.
fn look_at_mappings<R: Files<File = File> + Clock + AllocGlobal + Clone + Drop>(
    rt: &R,
    folder: &str,
    sought: &Sought,
    watch: &mut Watch,
) -> Look {
    let (Some(node), Some(device)) = (&sought.node, &sought.mapped) else {
        return Look::Free;
    };
    if watch.is_over(rt) || has_waiting(rt, folder) {
        return Look::Unseen;
    }
    let Ok(path) = format!(in rt.alloc(); "{folder}/maps") else {
        return Look::Unseen;
    };
    let Some(text) = whole_of(rt, path.as_str()) else {
        return Look::Unseen;
    };
    for line in text.split(|byte| *byte == b'\n') {
        if maps_file(device.as_bytes(), node.as_slice(), line) {
            return Look::Open;
        }
    }
    Look::Free
}

/// Whether a thread of the process with this folder waits for a device.
fn has_waiting<R: Files<File = File> + AllocGlobal + Clone + Drop>(rt: &R, folder: &str) -> bool {
    let Ok(path) = format!(in rt.alloc(); "{folder}/task") else {
        return true;
    };
    let Ok(threads) = fs::read_dir(rt, path.as_str()) else {
        return false;
    };
    for entry in threads {
        let Ok(entry) = entry else {
            continue;
        };
        let Ok(about) = format!(in rt.alloc(); "{path}/{}/status", entry.file_name()) else {
            return true;
        };
        if is_waiting(rt, about.as_str()) {
            return true;
        }
    }
    false
}

/// Whether the thread with this file waits for a device.
fn is_waiting<R: Files<File = File>>(rt: &R, about: &str) -> bool {
    let mut bytes = [0; FRONT];
    let Some(lines) = front_of(rt, about, &mut bytes) else {
        return false;
    };
    match value_in(b"State:\t", lines) {
        Some(state) => state.starts_with(b"D"),
        None => false,
    }
}
