//! `truncate`: a file is cut. A remark follows if its last record is then not whole.
ghost use Rattle.std.specs.Prelude.{IfErr, OnOk};
ghost use Rattle.ods_filing.specs.Led.{IsLed};
ghost use Rattle.ods_upkeep.specs.Kinds.{Cuts};
ghost use Rattle.f11fs.specs.Changed.{CutsFirst, IsRefusal};

use crate::refusing::stop_unfound;
use fs_host::Shown;
use fs_reads::Stop;
use fs_words::Words;
use ods_filing::Filing;
use ods_mount::Mounted;
use ods_records::RecordFault;
use ods_shell::mounted::find_path;
use ods_shell::{Alone, PathFault, Status, Unsaid, spoiled_records};
use ods_upkeep::truncate_file;
use std::alloc::{AllocError, Global};

/// Runs `truncate`: cuts the file of the first word to this many bytes.
pub fn truncate<'a, R: AllocGlobal + Eprint>(
    rt: &R,
    filing: &mut Filing,
    words: &Words<'a>,
    bytes: u64,
) -> Result<(), Stop<'a>>
    ensures done { OnOk result (CutsFirst words.now.paths.items bytes filing.old filing.new) }
    ensures refused { IfErr result IsRefusal }
    ensures led { IsLed Cuts filing.old filing.new }
{
    let Some(path) = words.paths.first() else {
        return Err(Stop::Lines(String::new(rt.alloc()), Status::Words));
    };
    if let Err(failure) = truncate_file(rt.alloc(), filing, *path, bytes) {
        return Err(stop_unfound(rt.alloc(), filing, &failure));
    }
    say_cut(rt, filing.mounted(), *path, words.quiet)?;
    Ok(())
}

/// Prints a remark if the records of a file are not whole.
fn say_cut<R: AllocGlobal + Eprint>(
    rt: &R,
    volume: &Mounted,
    path: &str,
    quiet: bool,
) -> Result<(), AllocError> {
    if quiet {
        return Ok(());
    }
    if let Some(fault) = fault_of(rt.alloc(), volume, path)? {
        let path = Shown(path);
        let _ = eprintln!(rt; "f11fs: {path}: {fault}; get -b copies its bytes");
    }
    Ok(())
}

/// The first fault in the records of the one file that the path selects.
fn fault_of(
    alloc: Global,
    volume: &Mounted,
    path: &str,
) -> Result<Option<RecordFault>, AllocError> {
    let found = match find_path(alloc, volume, path, Unsaid::highest(Alone::Refused), &[]) {
        Ok((found, _)) => found,
        Err(PathFault::NoMemory) => return Err(AllocError),
        Err(_) => return Ok(None),
    };
    let [one] = found.as_slice() else {
        return Ok(None);
    };
    match one.facts {
        Some(facts) => spoiled_records(alloc, &volume.disk(), facts.file.number),
        None => Ok(None),
    }
}
