//! An example program over the libraries that changes an image of the host. It lists the master directory, puts a text into it, and saves the image
//! whole or not at all.
#![tactic(auto)]

ghost use Rattle.std.specs.Prelude.{IfOk};
ghost use Rattle.host_caller.specs.Putting.{IsPut};

use anyhow::{Context, bail};
use fs_host::{Layers, Locked, hold_streams, stamp_of_now};
use ods_base::{DIRECTORY_TYPE, FileId, MAX_BYTES, Uic, parse_name, print_name};
use ods_filing::{Filing, NewFile, put_file};
use ods_mount::{Mounted, is_directory_file, mount};
use ods_records::{text_attributes, text_to_records};
use ods_request::{Request, Stamp};
use ods_walk::listing;
use std::alloc::Global;
use std::env;

/// The user of the requests, in the system's group.
const USER: Uic = Uic {
    group: 1,
    member: 1,
};

/// The master directory, which each volume has.
const MASTER: FileId = FileId {
    number: 4,
    sequence: 4,
};

/// The text that is put.
const TEXT: &[u8] = b"A program put this text.\n";

fn main(rt: HostRuntime) -> anyhow::Result<()> {
    // Until `main` returns no file that is opened becomes a stream.
    let _streams = hold_streams(&rt).context("/dev/null")?;
    let words = env::args(&rt)?.collect::<Vec<String>>(rt.alloc())?;
    let [_, path, name] = words.as_slice() else {
        println!(rt; "usage: host_caller IMAGE NAME")?;
        return Ok(());
    };
    // Nobody else changes the image while it is locked.
    let mut locked = Locked::of(&rt, path.as_str(), true, false)?;
    let image = locked.read(rt.alloc(), None, Layers::Found)?;
    let volume = mount(rt.alloc(), image).ok().context("a sound image")?;
    list(&rt, &volume)?;
    let stamp = stamp_of_now(&rt).context("the time")?;
    let volume = put(rt.alloc(), volume, name.as_str(), stamp)?;
    if let Some(remark) = locked.save(&rt, volume.image(), false, false)? {
        println!(rt; "{remark}")?;
    }
    Ok(())
}

/// Prints the names of the master directory.
fn list(rt: &(impl Print + AllocGlobal), volume: &Mounted) -> anyhow::Result<()> {
    let disk = volume.disk();
    if !is_directory_file(&disk, MASTER.number) {
        bail!("file 4 is no directory");
    }
    for line in &listing(rt.alloc(), &disk, MASTER.number)? {
        println!(rt; "{}", print_name(&line.name, line.version))?;
    }
    Ok(())
}

/// Returns the volume with the text under this name. If refused, the volume is dropped, and nothing is saved.
fn put(alloc: Global, volume: Mounted, name: &str, stamp: Stamp) -> anyhow::Result<Mounted>
    ensures { IfOk result (IsPut TEXT.now name.now stamp MASTER (record { image = volume.image; layout = volume.layout; user = USER })) }
{
    let (name, _) = parse_name(name.as_bytes())?;
    if name.ext() == DIRECTORY_TYPE {
        bail!("DIR is the type of directories");
    }
    let records = text_to_records(alloc, TEXT)?;
    let length = records.bytes.len() as u64;
    if length >= MAX_BYTES as u64 {
        bail!("the text is too long");
    }
    let file = NewFile {
        name,
        version: 1,
        stamp,
        attributes: text_attributes(records.longest, length),
        bytes: records.bytes.as_slice(),
    };
    let mut filing = Filing::new(alloc, volume, USER)?;
    let file = put_file(&mut filing, &file)?;
    filing.request(&Request::Enter {
        dir: MASTER,
        name,
        version: None,
        file,
    })?;
    Ok(filing.into_mounted())
}
