//! A folder of the host with everything in it and below it. No contract of std states the contents of a folder: clauses state the results for the
//! names that are read.
ghost use Rattle.std.specs.Prelude.{◌≡◌, ◌++◌, ◌∷◌, ◌↔◌, [], reverse, String as Text, IfErr, IfOk, IsTrue, OnOk, string_bytes};
ghost use Rattle.std.specs.List.{All};
ghost use Rattle.std.specs.declared.alloc.Global.{Global as HostMemory};
ghost use Rattle.fs_host.specs.Faults.{is_reason};
ghost use Rattle.fs_host.specs.Names.{LacksSlash};
ghost use Rattle.fs_host.specs.Trees.{AreInOrder, HasReason, IsAtOrBelow, IsEntry, IsFolderPath, IsSaid, IsTree, ListsFolder, ListsName, kind_of_folder as folder_kind_of};
ghost use Rattle.fs_host.specs.declared.host_tree.TreeEntry.{TreeEntry as Entry};

use crate::host_fault::HostFault;
use std::alloc::{AllocError, Global};
use std::fs::{File, Metadata};
use std::io::ErrorKind;
use std::rt::Files;
use std::{fs, io};

/// The kind of a file in a tree.
#[derive(Clone, Copy, Debug, PartialEq, Eq)]
pub enum TreeKind {
    /// A folder.
    Folder,
    /// A plain file.
    File,
    /// Something else, such as a device or a link to nothing.
    Other,
    /// A link to a folder that belongs to the tree, or that contains the tree.
    OwnTree,
    /// A folder that cannot be read, for this reason.
    Unread(HostFault),
}

/// An entry of a tree, with its path in it. The path of a folder ends with a slash, but the tree itself has an empty path.
#[derive(Drop)]
pub struct TreeEntry {
    pub path: String,
    /// The index of its own name in the path, after the path of its folder.
    pub own: usize,
    pub kind: TreeKind,
}

/// A folder that is still to be listed: its path, and where its own name begins.
#[derive(Drop)]
struct Pending {
    path: String,
    own: usize,
}

/// Lists everything in a folder and below it. Each folder comes first, then its contents in the order of the names as bytes, and then the folders in
/// it. Follows links.
pub fn list_tree<R: Files<File = File> + AllocGlobal + Clone + Drop>(
    rt: &R,
    root: &str,
) -> Result<Vec<TreeEntry>, HostFault>
    ensures tree { IfOk result (λ listed. IsTree listed.items) }
    ensures err { IfErr result (λ fault. IsTrue (is_reason fault)) }
{
    let mut listed = Vec::new(rt.alloc());
    let mut pile = Vec::new(rt.alloc());
    let first = Pending {
        path: String::new(rt.alloc()),
        own: 0,
    };
    push(&mut pile, first)?;
    'folders: for _ in 0..u64::MAX {
        let Some(folder) = pile.pop() else {
            return Ok(listed);
        };
        list_folder(
            rt,
            root,
            folder.own,
            folder.path.as_str(),
            &mut listed,
            &mut pile,
        )?;
    }
    Err(HostFault::TooLarge)
}

/// Lists a folder of a tree, and what is in it. The folders in it go on the pile, the first one on top.
fn list_folder<R: Files<File = File> + AllocGlobal + Clone + Drop>(
    rt: &R,
    root: &str,
    own: usize,
    folder: &str,
    listed: &mut Vec<TreeEntry>,
    pile: &mut Vec<Pending>,
) -> Result<(), AllocError>
    ensures { OnOk result (ListsFolder own folder.now listed.old.items listed.new.items pile.old.items pile.new.items) }
{
    let names = match names_in(rt, root, folder) {
        Ok(names) => names,
        Err(fault) => return add(rt.alloc(), listed, own, folder, TreeKind::Unread(fault)),
    };
    add(rt.alloc(), listed, own, folder, TreeKind::Folder)?;
    let mut below = Vec::new(rt.alloc());
    for name in &names {
        list_name(rt, root, folder, name.as_str(), listed, &mut below)?;
    }
    put_on_top(pile, below)
}

/// Lists what has a name in a folder, or where it is a folder leaves it for later.
fn list_name<R: Files<File = File> + AllocGlobal + Clone + Drop>(
    rt: &R,
    root: &str,
    folder: &str,
    name: &str,
    listed: &mut Vec<TreeEntry>,
    below: &mut Vec<Pending>,
) -> Result<(), AllocError>
    requires { LacksSlash name.now }
    ensures { OnOk result (ListsName folder.now listed.old.items listed.new.items below.old.items below.new.items) }
{
    let path = joined(rt.alloc(), folder, name)?;
    match kind_at(rt, root, folder, path.as_str()) {
        TreeKind::Folder => {
            let path = joined(rt.alloc(), path.as_str(), "/")?;
            let own = folder.len();
            push(below, Pending { path, own })
        }
        kind => add(rt.alloc(), listed, folder.len(), path.as_str(), kind),
    }
}

/// Puts folders that are to be listed on the pile, the first one on top.
fn put_on_top(pile: &mut Vec<Pending>, mut below: Vec<Pending>) -> Result<(), AllocError>
    ensures { OnOk result (pile.new.items ≡ pile.old.items ++ reverse below.items) }
{
    while let Some(folder) = below.pop() {
        push(pile, folder)?;
    }
    Ok(())
}

/// Adds what stands at a path.
fn add(
    alloc: Global,
    listed: &mut Vec<TreeEntry>,
    own: usize,
    path: &str,
    kind: TreeKind,
) -> Result<(), AllocError>
    ensures { OnOk result ((entry : Entry) × IsEntry path.now own kind entry × (listed.new.items ≡ listed.old.items ++ entry ∷ [])) }
{
    let path = String::from_str(alloc, path)?;
    push(listed, TreeEntry { path, own, kind })
}

/// Adds one more to a list.
fn push<T: Drop>(list: &mut Vec<T>, one: T) -> Result<(), AllocError>
    ensures { OnOk result (list.new.items ≡ list.old.items ++ one ∷ []) }
{
    match list.push(one) {
        Ok(()) => Ok(()),
        Err(_) => Err(AllocError),
    }
}

/// The names in a folder of a tree, in their order as bytes. std does not say that these are all, that each comes once, or that none is empty.
fn names_in<R: Files<File = File> + AllocGlobal + Clone + Drop>(
    rt: &R,
    root: &str,
    folder: &str,
) -> Result<Vec<String>, HostFault>
    ensures order { IfOk result (λ names. AreInOrder names.items) }
    ensures names { IfOk result (λ names. All (λ (name : Text HostMemory). LacksSlash (string_bytes name)) names.items) }
    ensures err { IfErr result (λ fault. IsTrue (is_reason fault)) }
{
    let path = place_of(rt.alloc(), root, folder)?;
    let mut names = Vec::new(rt.alloc());
    for entry in fs::read_dir(rt, path.as_str())? {
        let entry = match entry {
            Ok(entry) => entry,
            Err(error) => return Err(entry_fault(&error)),
        };
        let name = String::from_str(rt.alloc(), entry.file_name())?;
        push(&mut names, name)?;
    }
    names.sort()?;
    Ok(names)
}

/// Why an entry of a folder cannot be read. std gives names that are UTF-8 text only.
fn entry_fault(error: &io::Error) -> HostFault
    ensures { IsTrue (is_reason result) }
{
    match error.kind() {
        ErrorKind::InvalidFilename => HostFault::NotText,
        _ => HostFault::of(error),
    }
}

/// What stands at a path in this folder of a tree. std does not say what the host answers for a path: `kind_said` has the clause of that.
fn kind_at<R: Files<File = File> + AllocGlobal + Clone + Drop>(
    rt: &R,
    root: &str,
    folder: &str,
    path: &str,
) -> TreeKind
    ensures { HasReason result }
{
    let Ok(place) = place_of(rt.alloc(), root, path) else {
        return TreeKind::Unread(HostFault::NoMemory);
    };
    let Ok(found) = fs::metadata(rt, place.as_str()) else {
        return TreeKind::Other;
    };
    match kind_said(&found) {
        TreeKind::Folder => kind_of_folder(leads_back(rt, root, folder, place.as_str())),
        kind => kind,
    }
}

/// What the host says of a place: a file, a folder, or neither.
fn kind_said(found: &Metadata) -> TreeKind
    ensures { IsSaid found.now result }
{
    if found.is_file() {
        TreeKind::File
    } else if found.is_dir() {
        TreeKind::Folder
    } else {
        TreeKind::Other
    }
}

/// What a folder is, by whether it leads back into its own tree.
fn kind_of_folder(back: Result<bool, HostFault>) -> TreeKind
    ensures { result ≡ folder_kind_of back }
{
    match back {
        Ok(false) => TreeKind::Folder,
        Ok(true) => TreeKind::OwnTree,
        Err(fault) => TreeKind::Unread(fault),
    }
}

/// Whether a folder is a link to one that is in the tree, or that has the tree in it, or a folder on the way to this one.
fn leads_back<R: Files<File = File> + AllocGlobal + Clone + Drop>(
    rt: &R,
    root: &str,
    folder: &str,
    place: &str,
) -> Result<bool, HostFault>
    ensures err { IfErr result (λ fault. IsTrue (is_reason fault)) }
{
    if !fs::symlink_metadata(rt, place)?.is_symlink() {
        return Ok(false);
    }
    let target = fs::canonicalize(rt, place)?;
    let top = fs::canonicalize(rt, root)?;
    if is_at_or_below(target.as_str(), top.as_str()) {
        return Ok(true);
    }
    has_way(rt, root, folder, target.as_str())
}

/// Whether this folder of the tree, or one on the way to it, is at or below another folder of the host.
fn has_way<R: Files<File = File> + AllocGlobal + Clone + Drop>(
    rt: &R,
    root: &str,
    folder: &str,
    target: &str,
) -> Result<bool, HostFault>
    ensures err { IfErr result (λ fault. IsTrue (is_reason fault)) }
{
    for end in 0..folder.len() {
        if let Some(front) = folder.get(..end) {
            if is_folder(front) && is_in(rt, root, front, target)? {
                return Ok(true);
            }
        }
    }
    is_in(rt, root, folder, target)
}

/// Whether a path in a tree is that of a folder: it is empty, or ends with a slash.
fn is_folder(path: &str) -> bool
    ensures { IsTrue result ↔ IsFolderPath path.now }
{
    path.is_empty() || path.ends_with('/')
}

/// Whether a folder of the tree is at or below another folder of the host.
fn is_in<R: Files<File = File> + AllocGlobal + Clone + Drop>(
    rt: &R,
    root: &str,
    folder: &str,
    target: &str,
) -> Result<bool, HostFault>
    ensures err { IfErr result (λ fault. IsTrue (is_reason fault)) }
{
    let path = place_of(rt.alloc(), root, folder)?;
    let real = fs::canonicalize(rt, path.as_str())?;
    Ok(is_at_or_below(real.as_str(), target))
}

/// Whether a path without links is this folder's or leads below it.
fn is_at_or_below(path: &str, folder: &str) -> bool
    ensures { IsTrue result ↔ IsAtOrBelow path.now folder.now }
{
    match path.strip_prefix(folder) {
        Some(rest) => rest.is_empty() || rest.starts_with('/') || folder.ends_with('/'),
        None => false,
    }
}

/// The path on the host of what stands in a tree.
fn place_of(alloc: Global, root: &str, path: &str) -> Result<String, AllocError>
    ensures { IfOk result (λ text. string_bytes text ≡ root.now ++ (47 ∷ path.now)) }
{
    format!(in alloc; "{root}/{path}")
}

/// One text behind another.
fn joined(alloc: Global, front: &str, back: &str) -> Result<String, AllocError>
    ensures { IfOk result (λ text. string_bytes text ≡ front.now ++ back.now) }
{
    format!(in alloc; "{front}{back}")
}
