//! An example program over the libraries: it mounts a volume, makes requests on it as a user, and prints the answers.
#![tactic(auto)]

use anyhow::Context;
use ods_base::{Block, Coded, FileId, Image, Pick, Uic, parse_name};
use ods_cli::sample;
use ods_mount::mount;
use ods_request::{Answer, Request};
use ods_volume::Volume;
use std::alloc::Global;

/// The user of the requests, in the system's group.
const USER: Uic = Uic {
    group: 1,
    member: 1,
};

/// The master directory, which each volume has.
const MASTER: FileId = FileId {
    number: 4,
    sequence: 4,
};

fn main(rt: HostRuntime) -> anyhow::Result<()> {
    let mut volume = open(rt.alloc())?;
    println!(rt; "{} blocks are free", volume.free_count())?;
    find(&rt, &mut volume)?;
    overwrite(&rt, &mut volume)?;
    println!(rt; "requests in the list: {}", volume.entries().len())?;
    Ok(())
}

/// Returns a volume whose list has room for 16 requests. Its image may be any bytes, such as those of a file; here it is the sample of 40 blocks. The
/// mount checks the whole image, or returns it with its fault.
fn open(alloc: Global) -> anyhow::Result<Volume> {
    let bytes = sample(alloc, 40)?;
    let image = Image::from_bytes(alloc, &bytes)?;
    let mounted = mount(alloc, image).ok().context("a sound image")?;
    Volume::new(alloc, mounted, 16).ok().context("memory")
}

/// Looks a name up in the master directory. A name is made from its text.
fn find(rt: &impl Print, volume: &mut Volume) -> anyhow::Result<()> {
    let (name, _) = parse_name(b"INDEXF.SYS")?;
    let request = Request::LookUp {
        dir: MASTER,
        name,
        pick: Pick::Highest,
    };
    match volume.request(1, 1, USER, request)? {
        Answer::Found(file, version) => {
            println!(rt;
                "file {},{} has version {version}",
                file.number, file.sequence
            )?;
        }
        answer => println!(rt; "{answer:?}")?,
    }
    Ok(())
}

/// Tries to overwrite a block of the master directory. A refused request returns the reason, and changes nothing.
fn overwrite(rt: &impl Print, volume: &mut Volume) -> anyhow::Result<()> {
    let request = Request::Write {
        file: MASTER,
        vbn: 1,
        block: Block::zeros(),
    };
    match volume.request(1, 2, USER, request) {
        Ok(answer) => println!(rt; "{answer:?}")?,
        Err(refusal) => println!(rt; "refused: {} {}", refusal.code(), refusal.name())?,
    }
    Ok(())
}
