//! The directory that a path of `mkdir` or `rmdir` selects: `[A]`, `[1,2]`, `A/`, `A`, `1,2`, and the same below others.
ghost use Rattle.std.specs.Prelude.{◌≡◌, ◌≢◌, ◌++◌, [], false, IfErr, IfOk, MatchResult, OnOk};
ghost use Rattle.ods_paths.specs.{Paths.Said, Paths.Says, Patterns.capitals, Views.files as said_files, Views.folder as said_folder, Views.step as said_step, Views.steps as said_steps};
ghost use Rattle.ods_upkeep.specs.Meant.{IsLastStep, IsMeant, MayBeFirst, SaysName};
ghost use Rattle.ods_upkeep.specs.Pieces.{octal_digits};
ghost use Rattle.ods_upkeep.specs.Refused.{no_memory};
ghost use Rattle.ods_upkeep.specs.Unmeant.{AreUnfit, IsNoOneFolder, MeansNone, SaysNoName};

use crate::failure::Why;
use crate::targets::may_be_directory;
use ods_paths::{Files, Folder, Path, Step, Versions, parse_path};
use ods_request::Refusal;
use ods_shell::PathFault;
use std::alloc::{AllocError, Global};

/// The directories above, and the name, or the pattern for it.
#[derive(Drop)]
pub(crate) struct Meant<'a> {
    pub folder: Folder<'a>,
    pub name: Vec<u8>,
}

/// Returns the selection of a path.
pub(crate) fn read_meant<'a>(alloc: Global, path: &'a [u8]) -> Result<Meant<'a>, Why>
    ensures { MatchResult result (λ meant. (says : Said) × Says path.now says × IsMeant path.now says (said_folder meant.folder) (capitals meant.name.items)) (MeansNone path.now) }
{
    match parse_path(path) {
        Ok(Path::File(_)) => Err(Why::IsId),
        Ok(Path::Within(folder, Some(files))) => {
            if !may_be_directory(path, files.kind) {
                return Err(Why::BadName);
            }
            of_files(alloc, folder, files)
        }
        Ok(Path::Within(folder, None)) => of_folder(alloc, folder),
        Err(bad) => Err(Why::Path(PathFault::Bad(bad))),
    }
}

/// A name in a directory.
fn of_files<'a>(alloc: Global, folder: Folder<'a>, files: Files<'a>) -> Result<Meant<'a>, Why>
    ensures first { IfOk result (λ meant. MayBeFirst files.entry.versions) }
    ensures meant { IfOk result (λ meant. ((said_files files.entry).name ≢ [])
        × (said_folder meant.folder ≡ said_folder folder.entry) × (capitals meant.name.items ≡ (said_files files.entry).name)) }
    ensures err { IfErr result (AreUnfit (said_files files.entry)) }
{
    match files.versions {
        None | Some(Versions::Highest) | Some(Versions::Exact(1)) => {}
        Some(_) => return Err(Why::Several),
    }
    if files.name.is_empty() {
        return Err(Why::BadName);
    }
    let name = Vec::from_slice(alloc, files.name)?;
    Ok(Meant { folder, name })
}

/// A directory as a path names it: the last of its steps, in the directory to which those before it lead.
fn of_folder<'a>(alloc: Global, folder: Folder<'a>) -> Result<Meant<'a>, Why>
    ensures { MatchResult result (λ meant. (folder.entry.below ≡ false)
        × IsLastStep (said_steps folder.entry.steps) (said_folder meant.folder) (capitals meant.name.items))
        (IsNoOneFolder (said_folder folder.entry)) }
{
    if folder.below {
        return Err(Why::Several);
    }
    let Some((before, last)) = folder.steps.split_last() else {
        return Err(Why::Request(Refusal::Reserved));
    };
    let name = name_said(alloc, &last)?;
    let above = Folder {
        steps: before,
        below: false,
    };
    Ok(Meant {
        folder: above,
        name,
    })
}

/// Returns the name that a step specifies, or the pattern for it.
pub(crate) fn name_said(alloc: Global, step: &Step<'_>) -> Result<Vec<u8>, Why>
    ensures { MatchResult result (λ name. SaysName (said_step step.now) (capitals name.items)) (SaysNoName (said_step step.now)) }
{
    match step {
        Step::Numbers {
            group: Some(group),
            member: Some(member),
        } => numbered_name(alloc, *group, *member),
        Step::Numbers { .. } => Err(Why::Several),
        Step::Pattern(name) => {
            let name = Vec::from_slice(alloc, name)?;
            Ok(name)
        }
    }
}

/// The name of the directory of a group and a member.
fn numbered_name(alloc: Global, group: u8, member: u8) -> Result<Vec<u8>, Why>
    ensures { MatchResult result (λ name. capitals name.items ≡ octal_digits group ++ octal_digits member) (λ why. why ≡ no_memory) }
{
    let mut name = Vec::new(alloc);
    push_octal(&mut name, group)?;
    push_octal(&mut name, member)?;
    Ok(name)
}

/// Appends three octal digits.
fn push_octal(text: &mut Vec<u8>, number: u8) -> Result<(), AllocError>
    ensures { OnOk result (text.new.items ≡ text.old.items ++ octal_digits number) }
{
    text.push(b'0' + number / 64)?;
    text.push(b'0' + number / 8 % 8)?;
    text.push(b'0' + number % 8)?;
    Ok(())
}
