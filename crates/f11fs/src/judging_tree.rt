//! Which entries of a tree of the host `put -r` puts, and why it leaves the others out.
ghost use Rattle.std.specs.Prelude.{◌≡◌, ◌++◌, ◌∷◌, [], false, true, is_some, IfErr, IfOk, MatchBool, MatchOption, OnOk, string_bytes};
ghost use Rattle.std.specs.List.{All};
ghost use Rattle.ods_upkeep.specs.TreeNames.{SaysPlace};
ghost use Rattle.f11fs.specs.Changed.{IsRefusal, is_refused};
ghost use Rattle.f11fs.specs.TreeFaults.{AddsLine, AreKept, HasTreeStatus, IsFault, IsHostPath, IsKept, IsLeft, IsPlaced, IsUnplaced, fault_of_kind, may_be_left, tree_line};

use crate::host::Host;
use fs_host::{HostFault, Shown, TreeEntry, TreeKind};
use fs_reads::Stop;
use ods_request::Refusal;
use ods_shell::Status;
use ods_upkeep::{Why, judge_path};
use std::alloc::{AllocError, Global};
use thiserror::Error;

/// Why something in a tree is not put.
#[derive(Clone, Copy, Debug, PartialEq, Eq, Error)]
enum TreeFault {
    /// Its name is not valid on the volume.
    #[error("{0}")]
    Name(Why),
    /// The name of a folder is not a valid name of a directory.
    #[error("not a valid directory name: it has at most 9 of A to Z, 0 to 9, $, or is a group and a member, such as 1,2")]
    Folder,
    /// It is neither a plain file nor a folder.
    #[error("neither a file nor a folder")]
    Other,
    /// It is a link into the tree.
    #[error("a link into its own tree")]
    OwnTree,
    /// The folder cannot be read.
    #[error("reading failed: {0}")]
    Unread(HostFault),
}

impl TreeFault {
    /// The exit status of a command that is refused so.
    fn status(&self) -> Status
        ensures { HasTreeStatus self.now result }
    {
        match self {
            TreeFault::Name(why) => why.status(),
            TreeFault::Folder => Status::Words,
            TreeFault::Other | TreeFault::OwnTree | TreeFault::Unread(_) => Status::Host,
        }
    }

    /// Whether `--skip` leaves it out.
    fn is_skipped(&self) -> bool
        ensures { result ≡ may_be_left self.now }
    {
        match self {
            TreeFault::Name(_) | TreeFault::Folder | TreeFault::Other => true,
            TreeFault::OwnTree | TreeFault::Unread(_) => false,
        }
    }
}

/// What is told of a tree that is not put whole: a line for each fault, and the status of the first.
#[derive(Drop)]
struct Told {
    lines: String,
    status: Option<Status>,
}

/// Returns the entries of a tree that are put. Each other entry is reported. It refuses the command, or with `skip` it is left out if it may be.
#[tactic(auto, using(crate::proofs::TreesKept::left_more))]
pub fn judge_tree<'a, R: Host>(
    rt: &R,
    folder: &str,
    listed: Vec<TreeEntry>,
    skip: bool,
    quiet: bool,
) -> Result<Vec<TreeEntry>, Stop<'a>>
    // Each has a place on the volume.
    ensures placed { IfOk result (λ entries. All IsPlaced entries.items) }
    // Just those are kept that are put, in their order.
    ensures kept { IfOk result (λ entries. AreKept listed.items entries.items) }
    // Without skip nothing is left out.
    ensures whole { skip ≡ false → IfOk result (λ entries. entries.items ≡ listed.items) }
    ensures refused { IfErr result IsRefusal }
{
    let mut entries = Vec::new(rt.alloc());
    let mut told = Told {
        lines: String::new(rt.alloc()),
        status: None,
    };
    for entry in listed {
        if is_kept(rt.alloc(), &entry)? {
            push_entry(&mut entries, entry)?;
        } else {
            tell(rt, &mut told, folder, &entry, skip, quiet)?;
        }
    }
    let Told { lines, status } = told;
    match status {
        Some(status) => Err(Stop::Lines(lines, refusal(status))),
        None => Ok(entries),
    }
}

/// A status, where it is that of a refusal.
fn refusal(status: Status) -> Status
    ensures { is_refused result ≡ true }
{
    match status {
        Status::Done | Status::Found => Status::Words,
        status => status,
    }
}

/// Tells that something in a tree is left out, or why it is refused.
fn tell<R: AllocGlobal + Eprint>(
    rt: &R,
    told: &mut Told,
    folder: &str,
    entry: &TreeEntry,
    skip: bool,
    quiet: bool,
) -> Result<(), AllocError>
    // Without skip the tree is refused.
    ensures { skip ≡ false → OnOk result (is_some told.new.status ≡ true) }
{
    let status = match fault_of(rt.alloc(), entry, skip)? {
        Some(fault) => {
            if skip && fault.is_skipped() {
                return say_left(rt, folder, entry, fault, quiet);
            }
            push_line(rt.alloc(), &mut told.lines, folder, entry, fault)?;
            fault.status()
        }
        None => {
            if skip {
                return Ok(());
            }
            Status::Words
        }
    };
    told.status = told.status.or(Some(status));
    Ok(())
}

/// Adds one more to what is put.
fn push_entry(entries: &mut Vec<TreeEntry>, entry: TreeEntry) -> Result<(), AllocError>
    ensures { OnOk result (entries.new.items ≡ entries.old.items ++ entry ∷ []) }
{
    match entries.push(entry) {
        Ok(()) => Ok(()),
        Err(_) => Err(AllocError),
    }
}

/// Whether something in a tree is put: a folder or a file whose path says a place on the volume.
fn is_kept(alloc: Global, entry: &TreeEntry) -> Result<bool, AllocError>
    ensures placed { IfOk result (λ kept. kept ≡ true → IsPlaced entry.now) }
    ensures judged { IfOk result (λ kept. MatchBool kept (IsKept entry.now) (IsLeft entry.now)) }
{
    match entry.kind {
        TreeKind::Folder | TreeKind::File => {
            let fault = name_fault(alloc, entry.path.as_str())?;
            Ok(fault.is_none())
        }
        _ => Ok(false),
    }
}

/// Why something in a tree is not put; `None` where that is told of a folder in which it is.
fn fault_of(alloc: Global, entry: &TreeEntry, skip: bool) -> Result<Option<TreeFault>, AllocError>
    ensures { IfOk result (IsFault entry.now skip) }
{
    let path = entry.path.as_str();
    if name_fault(alloc, path)?.is_none() {
        return Ok(kind_fault(entry.kind));
    }
    let folder = path.get(..entry.own).unwrap_or("");
    if skip && name_fault(alloc, folder)?.is_some() {
        return Ok(None);
    }
    let own = path.get(entry.own..).unwrap_or(path);
    match name_fault(alloc, own)? {
        Some(Why::BadName | Why::Several) if own.ends_with('/') => Ok(Some(TreeFault::Folder)),
        Some(why) => Ok(Some(TreeFault::Name(why))),
        None => Ok(None),
    }
}

/// Why something of this kind is not put.
fn kind_fault(kind: TreeKind) -> Option<TreeFault>
    ensures { result ≡ fault_of_kind kind }
{
    match kind {
        TreeKind::Folder | TreeKind::File => None,
        TreeKind::Other => Some(TreeFault::Other),
        TreeKind::OwnTree => Some(TreeFault::OwnTree),
        TreeKind::Unread(fault) => Some(TreeFault::Unread(fault)),
    }
}

/// Why a path of a tree says no place on the volume; `None` where it says one.
fn name_fault(alloc: Global, path: &str) -> Result<Option<Why>, AllocError>
    ensures { IfOk result (λ fault. MatchOption fault (SaysPlace path.now) (IsUnplaced path.now)) }
{
    match judge_path(alloc, path) {
        Ok(()) => Ok(None),
        Err(Why::Request(Refusal::NoMemory)) => Err(AllocError),
        Err(why) => Ok(Some(why)),
    }
}

/// Returns the path on the host of an entry in a tree.
pub fn host_path(alloc: Global, folder: &str, path: &str) -> Result<String, AllocError>
    ensures { IfOk result (λ text. IsHostPath folder.now path.now (string_bytes text)) }
{
    let front = folder.trim_end_matches('/');
    if path.is_empty() {
        return String::from_str(alloc, folder);
    }
    format!(in alloc; "{front}/{path}")
}

/// Says that something is left out, and why.
fn say_left<R: AllocGlobal + Eprint>(
    rt: &R,
    folder: &str,
    entry: &TreeEntry,
    fault: TreeFault,
    quiet: bool,
) -> Result<(), AllocError> {
    if quiet {
        return Ok(());
    }
    let path = host_path(rt.alloc(), folder, entry.path.as_str())?;
    let path = Shown(path.as_str());
    let _ = eprintln!(rt; "f11fs: {path}: left out: {fault}");
    Ok(())
}

/// Adds a line that says why something is not put. The texts of faults have no clause.
fn push_line(
    alloc: Global,
    lines: &mut String,
    folder: &str,
    entry: &TreeEntry,
    fault: TreeFault,
) -> Result<(), AllocError>
    ensures { OnOk result (AddsLine folder.now (string_bytes entry.now.path) (string_bytes lines.old) (string_bytes lines.new)) }
{
    let path = host_path(alloc, folder, entry.path.as_str())?;
    let why = format!(in alloc; "{fault}")?;
    add_line(alloc, lines, path.as_str(), why.as_str())?;
    Ok(())
}

/// Adds a line about a path.
fn add_line(alloc: Global, lines: &mut String, path: &str, why: &str) -> Result<(), AllocError>
    ensures { OnOk result (string_bytes lines.new ≡ string_bytes lines.old ++ tree_line path.now why.now) }
{
    let path = Shown(path);
    let line = format!(in alloc; "{path}: {why}\n")?;
    lines.push_str(line.as_str())
}
