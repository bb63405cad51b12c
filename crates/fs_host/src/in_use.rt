//! The processes of the host that have a file open, and the loop devices on it, as far as `/proc` and `/sys` report them. No contract of std states
//! the bytes that are read there. No link of `/proc` is followed, since a file may be on a file system that does not respond.
ghost use Rattle.std.specs.Prelude.{◌≡◌, ◌≤◌, Some, IfSome, take};
ghost use Rattle.fs_host.specs.Holders.{LacksLine, name_held, shown_holder};

use crate::holders::{Holder, NAME};
use crate::looking::{Look, Part, look_at};
use crate::loop_devices::loop_over;
use crate::shown::Shown;
use crate::sought::Sought;
use crate::watch::Watch;
use std::fmt::{Display, Formatter};
use std::fs::File;
use std::io::Read;
use std::rt::{Clock, Files};
use std::time::Duration;
use std::{fmt, fs};

/// How many processes are looked at that have the file open.
const TRIES: u32 = 8;

/// How often a process that has the file open is looked at again.
const LOOKS: u32 = 7;

/// The milliseconds before the first of these looks. Each further one waits twice as long.
const PAUSE: u64 = 5;

impl Display for Holder {
    ghost output = { λ holder. Some (shown_holder holder) };

    fn fmt<W: fmt::Write>(&self, f: &mut Formatter<W>) -> fmt::Result {
        if self.is_device {
            return write!(f, "device loop{}", self.number);
        }
        match str::from_utf8(&self.name[..self.length]) {
            Ok(name) => write!(f, "process {} ({})", self.number, Shown(name)),
            Err(_) => write!(f, "process {}", self.number),
        }
    }
}

/// Returns a process other than this one that has the file open, and keeps it open for half a second. A reader, or a program that just starts, has
/// it open only for a moment. Or returns a loop device on the file.
pub fn holder_of<R: Files<File = File> + Clock + AllocGlobal + Clone + Drop>(
    rt: &R,
    sought: &Sought,
    watch: &mut Watch,
) -> Option<Holder>
    ensures { IfSome result (λ holder. LacksLine (name_held holder)) }
{
    if let Some(number) = loop_over(rt, sought) {
        return Some(Holder {
            number,
            is_device: true,
            name: [0; NAME],
            length: 0,
        });
    }
    for _ in 0..TRIES {
        let (process, part) = seen_holder(rt, sought, watch)?;
        if keeps_open(rt, process, part, sought, watch) {
            return Some(name_holder(rt, process));
        }
    }
    None
}

/// Whether this process still has the file open half a second later, or when the time of the search is over.
fn keeps_open<R: Files<File = File> + Clock + AllocGlobal + Clone + Drop>(
    rt: &R,
    process: u32,
    part: Part,
    sought: &Sought,
    watch: &mut Watch,
) -> bool {
    let mut pause = PAUSE;
    for _ in 0..LOOKS {
        rt.sleep(Duration::from_millis(pause));
        if look_at(rt, process, part, sought, watch) == Look::Free {
            return false;
        }
        pause = pause.saturating_mul(2);
    }
    true
}

/// A process other than this one that has the file open now, by a descriptor or else by a mapping.
fn seen_holder<R: Files<File = File> + Clock + AllocGlobal + Clone + Drop>(
    rt: &R,
    sought: &Sought,
    watch: &mut Watch,
) -> Option<(u32, Part)> {
    if let Some(process) = first_with(rt, Part::Descriptors, sought, watch) {
        return Some((process, Part::Descriptors));
    }
    match first_with(rt, Part::Mappings, sought, watch) {
        Some(process) => Some((process, Part::Mappings)),
        None => None,
    }
}

/// The first other process that has the file open in this part now. A process that cannot be looked at is counted.
fn first_with<R: Files<File = File> + Clock + AllocGlobal + Clone + Drop>(
    rt: &R,
    part: Part,
    sought: &Sought,
    watch: &mut Watch,
) -> Option<u32> {
    let Ok(processes) = fs::read_dir(rt, "/proc") else {
        return None;
    };
    watch.restart();
    for entry in processes {
        let Ok(entry) = entry else {
            continue;
        };
        if entry.file_name() == sought.own.as_str() {
            continue;
        }
        let Ok(process) = entry.file_name().parse::<u32>() else {
            continue;
        };
        match look_at(rt, process, part, sought, watch) {
            Look::Open => return Some(process),
            Look::Free => {}
            Look::Unseen => watch.pass(),
        }
    }
    None
}

/// The process with its name, where that can be read.
fn name_holder<R: Files<File = File> + AllocGlobal>(rt: &R, process: u32) -> Holder
    ensures same { result.number ≡ process }
    ensures line { LacksLine (name_held result) }
{
    let mut name = [0; NAME];
    let length = name_of(rt, process, &mut name).unwrap_or(0);
    Holder {
        number: process,
        is_device: false,
        name,
        length,
    }
}

/// Reads the name of a process, and says how many bytes it has.
fn name_of<R: Files<File = File> + AllocGlobal>(
    rt: &R,
    process: u32,
    name: &mut [u8; NAME],
) -> Option<usize>
    ensures within { IfSome result (λ length. length ≤ 16) }
    ensures line { IfSome result (λ length. LacksLine (take length name.new)) }
{
    let Ok(path) = format!(in rt.alloc(); "/proc/{process}/comm") else {
        return None;
    };
    let Ok(mut file) = fs::open(rt, path.as_str()) else {
        return None;
    };
    let Ok(count) = file.read(name) else {
        return None;
    };
    let read = name.get(..count)?;
    Some(read.iter().position(|byte| *byte == b'\n').unwrap_or(count))
}
