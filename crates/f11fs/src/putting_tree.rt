//! `put -r`: the contents of a folder of the host and below it, put into a directory of a volume.
ghost use Rattle.std.specs.Prelude.{◌≡◌, ◌≤◌, ◌⊎◌, ℕ, is_some, IfErr, IfOk, OnOk, vec_len};
ghost use Rattle.ods_upkeep.specs.TreePut.{IsFolderPut};
ghost use Rattle.f11fs.specs.{Changed.IsRefusal, Changed.PutsBelow, Given.AreTaken, Given.Bytes, TreePut.AreEntriesPut, TreePut.AreTreeWords, TreePut.IsEntryPut, TreePut.IsFilePut, TreePut.IsTreePut, TreePut.tree_form as form_for_tree};
ghost use Rattle.f11fs.specs.TreeFaults.{IsTooLarge};
ghost use Rattle.fs_reads.specs.declared.stop.WordFault.TheVariants.{Large as IsLarge, LargeStream as IsLargeStream};

use crate::dating::{host_time, takes_times};
use crate::early::Early;
use crate::host::Host;
use crate::judging_tree::{host_path, judge_tree};
use crate::putting::{form_of, placing_of, put};
use crate::refusing::stop_failed;
use fs_host::{HostFault, HostZone, Shown, TreeEntry, TreeKind};
use fs_reads::{Stop, WordFault, stop_about};
use fs_words::{PutWords, Words};
use ods_base::FileId;
use ods_filing::Filing;
use ods_request::Stamp;
use ods_shell::Status;
use ods_upkeep::{
    Failure, HostFile, Placing, TreeForm, make_folders, make_ready, put_leaf, tree_root,
};
use std::alloc::Global;
use std::fs;
use std::fs::Metadata;
use std::rt::Files;

/// Runs `put`: host files one by one, or with `-r` everything in a folder.
pub(crate) fn put_files<'a, R: Host>(
    rt: &R,
    filing: &mut Filing,
    stamp: Stamp,
    words: &Words<'a>,
    how: PutWords<'a>,
    early: &mut Early,
) -> Result<(), Stop<'a>>
    requires { AreTaken (R.gives rt.now) early.old }
    ensures taken { AreTaken (R.gives rt.now) early.new }
    ensures done { OnOk result (PutsBelow (R.gives rt.now) how.entry.below (is_some words.now.stamp) how.entry words.now.paths.items stamp filing.old filing.new) }
    ensures refused { IfErr result IsRefusal }
{
    if how.below {
        return put_tree(rt, filing, stamp, words, how);
    }
    put(rt, filing, stamp, words, how, early)
}

/// `put -r`: all that is in the folder of the first word goes into the directory of the second one, or into the master directory. With `--skip`,
/// entries without a valid name are left out.
fn put_tree<'a, R: Host>(
    rt: &R,
    filing: &mut Filing,
    stamp: Stamp,
    words: &Words<'a>,
    how: PutWords<'a>,
) -> Result<(), Stop<'a>>
    ensures done { OnOk result (IsTreePut (R.gives rt.now) (is_some words.now.stamp) how.entry words.now.paths.items stamp filing.old filing.new) }
    ensures refused { IfErr result IsRefusal }
{
    let (folder, to) = tree_words(rt.alloc(), words.paths.as_slice())?;
    let listed = match rt.tree_of(folder) {
        Ok(listed) => listed,
        Err(fault) => return Err(Stop::Word(folder, WordFault::Unread(fault))),
    };
    let kept = judge_tree(rt, folder, listed, how.skip, words.quiet)?;
    let entries = kept.as_slice();
    make_ready(filing, entries.len(), Placing::Anywhere);
    let dir = match tree_root(rt.alloc(), filing, stamp, to) {
        Ok(dir) => dir,
        Err(failure) => return Err(stop_failed(rt.alloc(), &failure)),
    };
    let form = tree_form(&how, stamp);
    let zone = HostZone::read_where(rt, takes_times(&how, words.stamp));
    put_entries(rt, filing, &form, &zone, dir, folder, entries, words.quiet)
}

/// The folder of the host, and the path of the directory on the volume.
fn tree_words<'a>(alloc: Global, words: &[&'a str]) -> Result<(&'a str, &'a str), Stop<'a>>
    ensures ok { IfOk result (λ said. AreTreeWords words.now said.0.now said.1.now) }
    ensures err { IfErr result IsRefusal }
{
    match words {
        ["-", ..] => Err(Stop::Word("-", WordFault::NoFolder)),
        [folder] => Ok((*folder, "[0,0]")),
        [folder, to] => Ok((*folder, *to)),
        [_, other, ..] => {
            let why = "-r needs exactly one folder: it copies all files and folders below it";
            Err(stop_about(alloc, *other, why, Status::Words))
        }
        [] => Err(Stop::Lines(String::new(alloc), Status::Words)),
    }
}

/// How the files of a tree are put.
fn tree_form(how: &PutWords<'_>, stamp: Stamp) -> TreeForm
    ensures { result ≡ form_for_tree how.now stamp }
{
    TreeForm {
        stamp,
        form: form_of(how),
        placing: placing_of(how).unwrap_or(Placing::Anywhere),
        owner: how.owner,
    }
}

/// Puts these, one after another.
fn put_entries<'a, R: Host>(
    rt: &R,
    filing: &mut Filing,
    how: &TreeForm,
    zone: &Option<HostZone>,
    dir: FileId,
    folder: &str,
    entries: &[TreeEntry],
    quiet: bool,
) -> Result<(), Stop<'a>>
    ensures done { OnOk result (AreEntriesPut (R.gives rt.now) folder.now (is_some zone.now) how.now dir entries.now filing.old filing.new) }
    ensures refused { IfErr result IsRefusal }
{
    for entry in entries {
        put_entry(rt, filing, how, zone, dir, folder, entry, quiet)?;
    }
    Ok(())
}

/// Puts what stands at a path of a tree: sees that the directory of a folder is there, or puts a file.
fn put_entry<'a, R: Host>(
    rt: &R,
    filing: &mut Filing,
    how: &TreeForm,
    zone: &Option<HostZone>,
    dir: FileId,
    folder: &str,
    entry: &TreeEntry,
    quiet: bool,
) -> Result<(), Stop<'a>>
    ensures done { OnOk result (IsEntryPut (R.gives rt.now) folder.now (is_some zone.now) how.now dir entry.now filing.old filing.new) }
    ensures refused { IfErr result IsRefusal }
{
    match entry.kind {
        TreeKind::Folder => put_folder(
            rt.alloc(),
            filing,
            how.stamp,
            dir,
            folder,
            entry.path.as_str(),
        ),
        TreeKind::File => put_file(
            rt,
            filing,
            how,
            zone,
            dir,
            folder,
            entry.path.as_str(),
            quiet,
        ),
        _ => Ok(()),
    }
}

/// Sees that the directory of a folder is there.
fn put_folder<'a>(
    alloc: Global,
    filing: &mut Filing,
    stamp: Stamp,
    dir: FileId,
    folder: &str,
    path: &str,
) -> Result<(), Stop<'a>>
    ensures done { OnOk result (IsFolderPut stamp dir path.now filing.old filing.new) }
    ensures refused { IfErr result IsRefusal }
{
    match make_folders(alloc, filing, stamp, dir, path) {
        Ok(()) => Ok(()),
        Err(failure) => Err(stop_in_tree(alloc, folder, &failure)),
    }
}

/// Puts a file of a tree; what is to be remarked is said.
fn put_file<'a, R: Host>(
    rt: &R,
    filing: &mut Filing,
    how: &TreeForm,
    zone: &Option<HostZone>,
    dir: FileId,
    folder: &str,
    path: &str,
    quiet: bool,
) -> Result<(), Stop<'a>>
    ensures done { OnOk result (IsFilePut (R.gives rt.now) folder.now (is_some zone.now) how.now dir path.now filing.old filing.new) }
    ensures refused { IfErr result IsRefusal }
{
    let host = host_path(rt.alloc(), folder, path)?;
    let room = u64::from(filing.free_count()).saturating_mul(512);
    let bytes = tree_bytes(rt, host.as_str(), room)?;
    let file = HostFile {
        name: path,
        bytes: bytes.as_slice(),
    };
    let Some(stamp) = host_time(rt, zone, host.as_str(), how.stamp) else {
        let why = WordFault::NoDate;
        return Err(stop_about(rt.alloc(), host.as_str(), why, Status::Refused));
    };
    let form = TreeForm {
        stamp,
        form: how.form,
        placing: how.placing,
        owner: how.owner,
    };
    match put_leaf(rt.alloc(), filing, &form, dir, &file) {
        Ok(remark) => {
            say_remark(rt, host.as_str(), &remark, quiet);
            Ok(())
        }
        Err(failure) => Err(stop_in_tree(rt.alloc(), folder, &failure)),
    }
}

/// Says what is to be remarked of a host file.
fn say_remark<R: Eprint>(rt: &R, host: &str, remark: &Option<String>, quiet: bool) {
    if let Some(remark) = remark {
        if !quiet {
            let host = Shown(host);
            let _ = eprintln!(rt; "f11fs: {host}: {}", remark.as_str());
        }
    }
}

/// The end of a command that is refused for something in a tree.
fn stop_in_tree<'a>(alloc: Global, folder: &str, failure: &Failure) -> Stop<'a>
    ensures { IsRefusal result }
{
    let Ok(path) = host_path(alloc, folder, failure.path.as_str()) else {
        return Stop::NoMemory;
    };
    stop_about(alloc, path.as_str(), failure.why, failure.status())
}

/// The bytes of a file of a tree, at most as many as there is room for on the volume.
fn tree_bytes<'a, R: Host>(rt: &R, path: &str, room: u64) -> Result<Vec<u8>, Stop<'a>>
    ensures given { IfOk result (λ bytes. R.gives rt.now path.now (Bytes bytes.items)) }
    ensures few { IfOk result (λ bytes. vec_len bytes ≤ room) }
    ensures err { IfErr result IsRefusal }
{
    match rt.bytes_of(path, room) {
        Ok(bytes) => Ok(bytes),
        Err(HostFault::TooLarge) => {
            let why = too_large(rt, path, room);
            Err(stop_about(rt.alloc(), path, why, Status::Refused))
        }
        Err(fault) => {
            let why = WordFault::Unread(fault);
            Err(stop_about(rt.alloc(), path, why, Status::Host))
        }
    }
}

/// What is said of a host file that is larger than the room on the volume.
fn too_large<R: Files>(rt: &R, path: &str, room: u64) -> WordFault
    ensures { (result ≡ IsLargeStream room) ⊎ ((size : ℕ) × (result ≡ IsLarge size room)) }
{
    match fs::metadata(rt, path) {
        Ok(found) => large(&found, room),
        Err(_) => WordFault::LargeStream(room),
    }
}

/// The same, by what the host says of it.
fn large(found: &Metadata, room: u64) -> WordFault
    ensures { IsTooLarge found.now room result }
{
    if found.is_file() {
        WordFault::Large(found.len(), room)
    } else {
        WordFault::LargeStream(room)
    }
}
