//! The host path of a rescued file: below the folders of the directories whose names reach it. Folders are created as files arrive.
ghost use Rattle.std.specs.Prelude.{◌≡◌, ◌⊎◌, ◌++◌, string_bytes, IfErr, IfOk, OnOk};
ghost use Rattle.std.specs.List.{flat_map};
ghost use Rattle.fs_reads.specs.{Ends.StopsWith, Trees.folder_name as name_of_folder, Trees.folder_text as text_of_folder, Trees.name_below as text_below, Trees.slashed};
ghost use Rattle.fs_reads.specs.declared.stop.Stop.{Stop as End};
ghost use Rattle.ods_shell.specs.declared.status.Status.{Status as Code};

use crate::stop::{Stop, WordFault, stop_about};
use fs_host::HostFault;
use ods_base::{Name, print_title};
use ods_shell::{Status, push_directory_name};
use std::alloc::{AllocError, Global};
use std::collections::BTreeSet;
use std::fs;
use std::rt::Files;

/// Appends the folder of a directory: `1,2` for one of a group and a member, else its name; `_` where that is empty.
fn push_folder(text: &mut String, name: &Name) -> Result<(), AllocError>
    ensures { OnOk result (string_bytes text.new ≡ string_bytes text.old ++ name_of_folder name.now) }
{
    if print_title(name).is_empty() {
        text.push_str("_")
    } else {
        push_directory_name(text, name)
    }
}

/// Returns the folder of a directory, as `push_folder` appends it.
pub(crate) fn folder_name(alloc: Global, name: &Name) -> Result<String, AllocError>
    ensures { IfOk result (λ text. string_bytes text ≡ name_of_folder name.now) }
{
    let mut text = String::new(alloc);
    push_folder(&mut text, name)?;
    Ok(text)
}

/// Returns the folders of a directory that these names reach, with slashes between them. The text is empty for the master directory.
pub(crate) fn folder_text(alloc: Global, names: &[Name]) -> Result<String, AllocError>
    ensures { IfOk result (λ text. string_bytes text ≡ text_of_folder names.now) }
{
    let mut text = String::new(alloc);
    let Some((first, rest)) = names.split_first() else {
        return Ok(text);
    };
    push_folder(&mut text, first)?;
    push_slashed(&mut text, rest)?;
    Ok(text)
}

/// Appends the folders of some directories, each behind a slash.
fn push_slashed(text: &mut String, names: &[Name]) -> Result<(), AllocError>
    ensures { OnOk result (string_bytes text.new ≡ string_bytes text.old ++ flat_map slashed names.now) }
{
    for name in names {
        text.push_str("/")?;
        push_folder(text, name)?;
    }
    Ok(())
}

/// Returns a name in a folder, or only the name if the folder is empty.
pub(crate) fn name_below(alloc: Global, folder: &str, name: &str) -> Result<String, AllocError>
    ensures { IfOk result (λ text. string_bytes text ≡ text_below folder.now name.now) }
{
    if folder.is_empty() {
        return String::from_str(alloc, name);
    }
    format!(in alloc; "{folder}/{name}")
}

/// Creates the folders on the way to a directory below the host folder `root`, except the folders that `made` contains.
pub(crate) fn make_way<'a, R: Files + AllocGlobal>(
    rt: &R,
    root: &str,
    names: &[Name],
    made: &mut BTreeSet<String>,
) -> Result<(), Stop<'a>>
    ensures { IfErr result (λ stop. StopsWith stop Code.Host ⊎ (stop ≡ End.NoMemory)) }
{
    for last in 0..names.len() {
        let folder = folder_text(rt.alloc(), &names[..last + 1])?;
        make_once(rt, root, folder, made)?;
    }
    Ok(())
}

/// Creates a folder below `root`, unless `made` contains it.
pub(crate) fn make_once<'a, R: Files + AllocGlobal>(
    rt: &R,
    root: &str,
    folder: String,
    made: &mut BTreeSet<String>,
) -> Result<(), Stop<'a>>
    ensures { IfErr result (λ stop. StopsWith stop Code.Host ⊎ (stop ≡ End.NoMemory)) }
{
    if made.contains(&folder) {
        return Ok(());
    }
    let path = name_below(rt.alloc(), root, folder.as_str())?;
    if let Err(error) = fs::create_dir(rt, path.as_str()) {
        let why = WordFault::Unmade(HostFault::of(&error));
        return Err(stop_about(rt.alloc(), path.as_str(), why, Status::Host));
    }
    match made.insert(folder) {
        Ok(_) => Ok(()),
        Err(_) => Err(Stop::NoMemory),
    }
}
