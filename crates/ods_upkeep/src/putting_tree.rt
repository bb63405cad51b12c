//! `put -r`: the folders of a tree of the host become directories, and its files are put into them one by one.
ghost use Rattle.std.specs.Prelude.{◌≡◌, IfErr, IfOk, MatchResult, OnOk};
ghost use Rattle.ods_upkeep.specs.Refused.{HasPath};
ghost use Rattle.ods_upkeep.specs.TreePut.{IsFolderAt, IsFolderPut, IsLeafPut, IsLeafUnput, IsNoFolderAt, IsNoRoot, IsRoot, put_in};

use crate::copying_tree::place_below;
use crate::failure::{Failure, Why, of_path};
use crate::on_the_way::{last_part, make_there, open_directory};
use crate::putting::Putting;
use crate::target::Target;
use crate::tree_names::{folder_names, tree_name};
use crate::{HostFile, Placing, PutForm};
use ods_base::{FileId, Name, Uic};
use ods_filing::Filing;
use ods_request::Stamp;
use std::alloc::Global;

/// How the files of a tree are put.
#[derive(Clone, Copy)]
pub struct TreeForm {
    /// The time of their creation.
    pub stamp: Stamp,
    /// The form of their bytes.
    pub form: PutForm,
    /// Where their blocks are allocated.
    pub placing: Placing,
    /// Their owner, if it differs from the requesting user.
    pub owner: Option<Uic>,
}

/// Returns the directory below which a tree is put. It is created, like with `mkdir`, if it does not exist.
pub fn tree_root(
    alloc: Global,
    filing: &mut Filing,
    stamp: Stamp,
    to: &str,
) -> Result<FileId, Failure>
    ensures root { IfOk result (λ dir. IsRoot stamp to.now filing.old dir filing.new) }
    ensures refused { IfErr result (λ failure. IsNoRoot stamp to.now filing.old filing.new failure.why × HasPath failure to.now) }
{
    match root_at(alloc, filing, stamp, to) {
        Ok(dir) => Ok(dir),
        Err(why) => Err(of_path(alloc, to, why)),
    }
}

/// The directory of a path, which is made where it is not there.
fn root_at(alloc: Global, filing: &mut Filing, stamp: Stamp, to: &str) -> Result<FileId, Why>
    ensures { MatchResult result (λ dir. IsRoot stamp to.now filing.old dir filing.new) (IsNoRoot stamp to.now filing.old filing.new) }
{
    make_there(alloc, filing, stamp, to)?;
    open_directory(alloc, filing.mounted(), to)
}

/// Ensures that the directories for the folders of a path exist below this one.
pub fn make_folders(
    alloc: Global,
    filing: &mut Filing,
    stamp: Stamp,
    dir: FileId,
    path: &str,
) -> Result<(), Failure>
    ensures made { OnOk result (IsFolderPut stamp dir path.now filing.old filing.new) }
    ensures refused { IfErr result (λ failure. IsNoFolderAt stamp dir path.now filing.old filing.new failure.why × HasPath failure path.now) }
{
    match folder_at(alloc, filing, stamp, dir, path) {
        Ok(_) => Ok(()),
        Err(why) => Err(of_path(alloc, path, why)),
    }
}

/// The directory to which the folders of a path lead from this one. Those that are not there are made.
fn folder_at(
    alloc: Global,
    filing: &mut Filing,
    stamp: Stamp,
    dir: FileId,
    path: &str,
) -> Result<FileId, Why>
    ensures { MatchResult result (λ place. IsFolderAt stamp dir path.now filing.old place filing.new) (IsNoFolderAt stamp dir path.now filing.old filing.new) }
{
    let names = folder_names(alloc, path)?;
    place_below(alloc, filing, stamp, dir, &names)
}

/// Puts a file of a tree below this directory, at the location in its path. Returns its remark, if there is one.
pub fn put_leaf(
    alloc: Global,
    filing: &mut Filing,
    how: &TreeForm,
    dir: FileId,
    file: &HostFile<'_>,
) -> Result<Option<String>, Failure>
    ensures done { OnOk result (IsLeafPut how.now dir file.now.name.now file.now.bytes.now filing.old filing.new) }
    ensures refused { IfErr result (λ failure. IsLeafUnput how.now dir file.now.name.now file.now.bytes.now filing.old filing.new failure.why × HasPath failure file.now.name.now) }
{
    match put_leaf_at(alloc, filing, how, dir, file) {
        Ok(remark) => Ok(remark),
        Err(why) => Err(of_path(alloc, file.name, why)),
    }
}

/// Puts a file of a tree below this directory.
fn put_leaf_at(
    alloc: Global,
    filing: &mut Filing,
    how: &TreeForm,
    dir: FileId,
    file: &HostFile<'_>,
) -> Result<Option<String>, Why>
    ensures { MatchResult result (λ _. IsLeafPut how.now dir file.now.name.now file.now.bytes.now filing.old filing.new) (IsLeafUnput how.now dir file.now.name.now file.now.bytes.now filing.old filing.new) }
{
    let (name, version) = tree_name(alloc, last_part(file.name))?;
    let place = folder_at(alloc, filing, how.stamp, dir, file.name)?;
    let mut putting = putting_in(how, place, name, version);
    putting.put_one(alloc, filing, file)
}

/// How one file is put into this directory, under this name and version.
fn putting_in(how: &TreeForm, place: FileId, name: Name, version: Option<u16>) -> Putting
    ensures { result ≡ put_in how.now place name version }
{
    let target = Target {
        directory: place,
        name: Some(name),
        version,
    };
    Putting::one(target, how.stamp, how.form, how.placing, how.owner)
}
