//! The lines that `repair` prints: one for each action, and one for each thing that is not repaired.
ghost use Rattle.std.specs.Prelude.{◌≡◌, ◌≢◌, ◌+◌, ◌<◌, ◌≤◌, ◌==◌, if◌then◌else◌, MatchBool, OnOk, false, length, string_bytes, true};
ghost use Rattle.ods_upkeep.specs.Refused.{no_memory};
ghost use Rattle.fs_reads.specs.Shown.{Extends};
ghost use Rattle.f11fs.specs.Mended.{IsReported, is_left_by};

use fs_reads::Stop;
use ods_base::{FileId, print_title, print_type};
use ods_check::{Dangling, Finding};
use ods_mount::MountFault;
use ods_repair::{LostFile, RepairFault, Unshared};
use ods_request::Refusal;
use ods_upkeep::{Failure, Why};
use std::alloc::{AllocError, Global};
use thiserror::Error;

/// Something that a repair leaves unchanged: everything of its kind, or one directory or file.
#[derive(Clone, Copy, Debug, PartialEq, Eq, Error)]
pub enum Part {
    /// The blocks that `used` marks.
    #[error("used")]
    Used,
    /// The blocks that `free` marks.
    #[error("free")]
    Free,
    /// The files that `lost` enters.
    #[error("lost")]
    Lost,
    /// The directory with this file number, in which `double` renumbers one of two entries with one name and version.
    #[error("double: directory {0}")]
    Directory(u16),
    /// The file with this number, whose runs `share` moves to blocks of their own.
    #[error("share: file {0}")]
    File(u16),
}

/// The lines for the repairs that were made, and whether anything to repair is left.
#[derive(Drop)]
pub struct Report {
    pub text: String,
    pub is_left: bool,
}

/// Whether a repair ended because memory ran out.
fn is_memory(why: &RepairFault) -> bool
    ensures { MatchBool result (¬ IsReported why.now) (IsReported why.now) }
{
    matches!(
        why,
        RepairFault::NotRemoved(_, Refusal::NoMemory)
            | RepairFault::NotEntered(_, Refusal::NoMemory)
            | RepairFault::NoMemory
    )
}

impl Report {
    /// Returns a report without lines.
    pub fn new(alloc: Global) -> Report
        ensures { result.is_left ≡ false }
    {
        Report {
            text: String::new(alloc),
            is_left: false,
        }
    }

    /// Reports that names which were twice in this directory have other versions.
    pub fn tell_double(&mut self, directory: u16) -> Result<(), AllocError>
        ensures more { OnOk result (Extends (string_bytes self.old.text) (string_bytes self.new.text)) }
        ensures left { self.new.is_left ≡ self.old.is_left }
    {
        writeln!(
            self.text,
            "double: directory {directory} had two entries with one name and version"
        )
    }

    /// Reports a part that a further run of the repair handles.
    pub fn tell_later(&mut self, alloc: Global, part: Part) -> Result<(), AllocError>
        ensures more { OnOk result (Extends (string_bytes self.old.text) (string_bytes self.new.text)) }
        ensures left { self.new.is_left ≡ true }
    {
        self.is_left = true;
        let said = format!(in alloc; "{part}")?;
        writeln!(self.text, "{said}: not done in this run; run repair again")
    }

    /// Reports how many faults are not looked at in this run, if any.
    pub fn tell_more(&mut self, more: u64) -> Result<(), AllocError>
        ensures more { OnOk result (Extends (string_bytes self.old.text) (string_bytes self.new.text)) }
        ensures left { self.new.is_left ≡ (if more == 0 then self.old.is_left else true) }
    {
        if more == 0 {
            return Ok(());
        }
        self.is_left = true;
        writeln!(
            self.text,
            "double: the image has {more} more faults than one run repairs; run repair again"
        )
    }

    /// Reports how many runs of a file have blocks of their own, and how many runs or blocks found none.
    pub fn tell_shared(&mut self, file: u16, told: &Unshared) -> Result<(), AllocError>
        ensures more { OnOk result (Extends (string_bytes self.old.text) (string_bytes self.new.text)) }
        ensures left { self.new.is_left ≡ (if told.now.left == 0 then self.old.is_left else true) }
    {
        let Unshared { moved, left } = *told;
        if left == 0 {
            return writeln!(
                self.text,
                "share: file {file}: {moved} runs moved to free blocks"
            );
        }
        self.is_left = true;
        writeln!(
            self.text,
            "share: file {file}: {moved} runs moved to free blocks; {left} runs or blocks stay shared"
        )
    }

    /// Reports that the index is bad, so that no file gets blocks of its own.
    pub fn tell_bad_index(&mut self) -> Result<(), AllocError>
        ensures more { OnOk result (Extends (string_bytes self.old.text) (string_bytes self.new.text)) }
        ensures left { self.new.is_left ≡ true }
    {
        self.is_left = true;
        writeln!(self.text, "share: not done: the index is bad")
    }

    /// Reports that the image has more faults than a run looks at.
    pub fn tell_more_shared(&mut self) -> Result<(), AllocError>
        ensures more { OnOk result (Extends (string_bytes self.old.text) (string_bytes self.new.text)) }
        ensures left { self.new.is_left ≡ true }
    {
        self.is_left = true;
        writeln!(
            self.text,
            "share: not done: the image has more faults than one run repairs"
        )
    }

    /// Reports a part that is not repaired, and why. If memory ran out, the command ends.
    pub fn tell_left<'a>(
        &mut self,
        alloc: Global,
        part: Part,
        why: &RepairFault,
    ) -> Result<(), Stop<'a>>
        ensures reported { OnOk result (IsReported why.now) }
        ensures more { OnOk result (Extends (string_bytes self.old.text) (string_bytes self.new.text)) }
        ensures left { self.new.is_left ≡ true }
    {
        self.is_left = true;
        if is_memory(why) {
            return Err(Stop::NoMemory);
        }
        let about = format!(in alloc; "{part}")?;
        let said = format!(in alloc; "{why}")?;
        writeln!(self.text, "{about}: not done: {said}")?;
        Ok(())
    }

    /// Reports that lost files are not entered, because their directory is not made. If memory ran out, the command ends.
    pub fn tell_unmade<'a>(&mut self, alloc: Global, failure: &Failure) -> Result<(), Stop<'a>>
        ensures reported { OnOk result (failure.now.why ≢ no_memory) }
        ensures more { OnOk result (Extends (string_bytes self.old.text) (string_bytes self.new.text)) }
        ensures left { self.new.is_left ≡ true }
    {
        self.is_left = true;
        if let Why::Request(Refusal::NoMemory) = failure.why {
            return Err(Stop::NoMemory);
        }
        let said = format!(in alloc; "{}: {}", failure.path.as_str(), failure.why)?;
        writeln!(self.text, "lost: not done: {said}")?;
        Ok(())
    }

    /// Reports that the repairs of a sound volume are not made, because the image is refused for this fault.
    pub fn tell_refused(&mut self, alloc: Global, why: &MountFault) -> Result<(), AllocError>
        ensures more { OnOk result (Extends (string_bytes self.old.text) (string_bytes self.new.text)) }
        ensures left { self.new.is_left ≡ true }
    {
        self.is_left = true;
        let said = format!(in alloc; "{why}")?;
        writeln!(
            self.text,
            "names, lost, free: not done: the image is refused: {said}"
        )
    }

    /// Reports lost files without a name, which stay lost.
    pub fn tell_nameless(&mut self, files: &[FileId]) -> Result<(), AllocError>
        ensures more { OnOk result (Extends (string_bytes self.old.text) (string_bytes self.new.text)) }
        ensures left { self.new.is_left ≡ is_left_by self.old.is_left files.now }
    {
        if files.first().is_some() {
            self.is_left = true;
        }
        push_nameless(&mut self.text, files)
    }
}

/// Appends a line for each run of these ascending blocks, which were marked as free and are used.
#[tactic(auto, using(fs_reads::proofs::Growing::extends_on, fs_reads::proofs::Growing::extends_same))]
pub fn push_used(text: &mut String, blocks: &[u32]) -> Result<(), AllocError>
    ensures { OnOk result (Extends (string_bytes text.old) (string_bytes text.new)) }
{
    let mut at = 0;
    'runs: while at < blocks.len() {
        let end = run_end(blocks, at);
        push_run(text, blocks[at], blocks[end - 1])?;
        at = end;
    }
    Ok(())
}

/// Appends a line for a run of such blocks.
fn push_run(text: &mut String, first: u32, last: u32) -> Result<(), AllocError>
    ensures { OnOk result (Extends (string_bytes text.old) (string_bytes text.new)) }
{
    if first == last {
        return writeln!(text, "used: block {first} was marked as free");
    }
    writeln!(text, "used: blocks {first} to {last} were marked as free")
}

/// Appends a line for each entry that is removed.
#[tactic(auto, using(fs_reads::proofs::Growing::extends_on, fs_reads::proofs::Growing::extends_same))]
pub fn push_names(alloc: Global, text: &mut String, found: &[Dangling]) -> Result<(), AllocError>
    ensures { OnOk result (Extends (string_bytes text.old) (string_bytes text.new)) }
{
    for one in found {
        push_finding(alloc, text, "names", one.finding())?;
    }
    Ok(())
}

/// Appends a line for a finding that is mended.
fn push_finding(
    alloc: Global,
    text: &mut String,
    kind: &str,
    finding: Finding,
) -> Result<(), AllocError>
    ensures { OnOk result (Extends (string_bytes text.old) (string_bytes text.new)) }
{
    let said = format!(in alloc; "{finding}")?;
    writeln!(text, "{kind}: {said}")
}

/// Appends a line for each lost file that is entered in the directory at this path.
#[tactic(auto, using(fs_reads::proofs::Growing::extends_on, fs_reads::proofs::Growing::extends_same))]
pub fn push_lost(text: &mut String, found: &[LostFile], path: &str) -> Result<(), AllocError>
    ensures { OnOk result (Extends (string_bytes text.old) (string_bytes text.new)) }
{
    for one in found {
        push_entered(text, one, path)?;
    }
    Ok(())
}

/// Appends a line for a lost file that is entered.
fn push_entered(text: &mut String, one: &LostFile, path: &str) -> Result<(), AllocError>
    ensures { OnOk result (Extends (string_bytes text.old) (string_bytes text.new)) }
{
    let (number, sequence) = (one.file.number, one.file.sequence);
    let (title, kind) = (print_title(&one.name), print_type(&one.name));
    writeln!(
        text,
        "lost: file {number},{sequence} is entered as {title}.{kind} in {path}"
    )
}

/// Appends a line for each lost file that has no name.
#[tactic(auto, using(fs_reads::proofs::Growing::extends_on, fs_reads::proofs::Growing::extends_same))]
fn push_nameless(text: &mut String, files: &[FileId]) -> Result<(), AllocError>
    ensures { OnOk result (Extends (string_bytes text.old) (string_bytes text.new)) }
{
    for file in files {
        push_one_nameless(text, *file)?;
    }
    Ok(())
}

/// Appends a line for a lost file that has no name.
fn push_one_nameless(text: &mut String, file: FileId) -> Result<(), AllocError>
    ensures { OnOk result (Extends (string_bytes text.old) (string_bytes text.new)) }
{
    let (number, sequence) = (file.number, file.sequence);
    writeln!(
        text,
        "lost: file {number},{sequence} has no name in its header, and stays lost"
    )
}

/// Appends a line for each finding of blocks that are freed.
#[tactic(auto, using(fs_reads::proofs::Growing::extends_on, fs_reads::proofs::Growing::extends_same))]
pub fn push_free(alloc: Global, text: &mut String, found: &[Finding]) -> Result<(), AllocError>
    ensures { OnOk result (Extends (string_bytes text.old) (string_bytes text.new)) }
{
    for one in found {
        push_finding(alloc, text, "free", *one)?;
    }
    Ok(())
}

/// Where the run ends that begins at this place of a list of numbers.
fn run_end(numbers: &[u32], at: usize) -> usize
    requires { at < length numbers.now }
    ensures behind { at < result }
    ensures within { result ≤ length numbers.now }
{
    let mut end = at + 1;
    while end < numbers.len() && follows(numbers[end - 1], numbers[end]) {
        end += 1;
    }
    end
}

/// Whether one number is the next behind another.
fn follows(one: u32, next: u32) -> bool
    ensures { result ≡ (one + 1 == next) }
{
    one < next && next - one == 1
}
