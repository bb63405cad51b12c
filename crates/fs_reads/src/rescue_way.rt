//! How a rescued file is reached: by directories and a name, or in the folder of the lost files. Also the state of a rescue.
ghost use Rattle.std.specs.Prelude.{◌≡◌, ◌⊎◌, IfErr, IfOk, true, not, set, slice_index_or, string_bytes};
ghost use Rattle.fs_reads.specs.{Ends.StopsWith, Trees.name_of_way, Trees.told_of_way};
ghost use Rattle.fs_reads.specs.declared.stop.Stop.{Stop as End};
ghost use Rattle.ods_shell.specs.declared.status.Status.{Status as Code};

use crate::rescue_tree::{folder_text, make_once, make_way, name_below};
use crate::stop::Stop;
use ods_base::{FileId, Name};
use std::alloc::{AllocError, Global};
use std::collections::BTreeSet;
use std::rt::Files;

/// The folder of the files that no walk reaches.
const LOST: &str = "lost";

/// The state of a rescue so far.
#[derive(Drop)]
pub(crate) struct Kept {
    /// The names in use, below the folder of the rescue.
    pub names: BTreeSet<String>,
    /// The folders created below it.
    pub folders: BTreeSet<String>,
    /// For each file number, whether its file is copied or left out.
    pub numbers: Vec<bool>,
}

impl Kept {
    /// Marks this number as taken, and returns whether it was not marked before. Returns false for a number past the last.
    pub fn takes(&mut self, number: u16) -> bool
        ensures first { result ≡ not (slice_index_or self.old.numbers.items number true) }
        ensures noted { self.new.numbers.items ≡ set self.old.numbers.items number true }
        ensures stays { (self.new.names ≡ self.old.names) × (self.new.folders ≡ self.old.folders) }
    {
        match self.numbers.get_mut(number as usize) {
            Some(kept) => {
                let is_first = !*kept;
                *kept = true;
                is_first
            }
            None => false,
        }
    }
}

/// How a file is reached.
#[derive(Clone, Copy)]
pub(crate) enum Way<'b> {
    /// By the names of directories, and this name.
    To(&'b [Name], &'b str),
    /// By no name: the file is lost.
    Lost,
}

impl Way<'_> {
    /// Returns the name of the file below the folder of the rescue. `own` is the name in its header, which only a lost file has.
    pub fn name(&self, alloc: Global, own: &str) -> Result<String, AllocError>
        ensures { IfOk result (λ text. string_bytes text ≡ name_of_way self.now own.now) }
    {
        match self {
            Way::To(names, name) => {
                let folder = folder_text(alloc, names)?;
                name_below(alloc, folder.as_str(), name)
            }
            Way::Lost => name_below(alloc, LOST, own),
        }
    }

    /// Returns the text for the file in a line: its name and its ID, or only its ID.
    pub fn told(&self, alloc: Global, file: FileId) -> Result<String, AllocError>
        ensures { IfOk result (λ text. string_bytes text ≡ told_of_way self.now file) }
    {
        let (number, sequence) = (file.number, file.sequence);
        match self {
            Way::To(_, name) => {
                let name = self.name(alloc, name)?;
                format!(in alloc; "{} #{number},{sequence}", name.as_str())
            }
            Way::Lost => format!(in alloc; "file {number},{sequence}"),
        }
    }

    /// Creates the folders of the file below the folder of the rescue, except the folders that `made` contains.
    pub fn make<'a, R: Files + AllocGlobal>(
        &self,
        rt: &R,
        root: &str,
        made: &mut BTreeSet<String>,
    ) -> Result<(), Stop<'a>>
        ensures { IfErr result (λ stop. StopsWith stop Code.Host ⊎ (stop ≡ End.NoMemory)) }
    {
        match self {
            Way::To(names, _) => make_way(rt, root, names, made),
            Way::Lost => make_once(rt, root, String::from_str(rt.alloc(), LOST)?, made),
        }
    }
}
