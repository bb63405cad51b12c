//! How many entries of all directories name each file, including directories that no walk reaches.
ghost use Rattle.std.specs.Prelude.{◌≡◌, ◌^◌, ◌<◌, ◌++◌, ◌∷◌, [], ℕ, List, length, slice_index, IfOk, OnOk, MatchBool};
ghost use Rattle.ods_base.specs.declared.listed.Listed.{Listed as Entry};
ghost use Rattle.ods_mount.specs.{Faults.IsDirectoryFile};
ghost use Rattle.ods_shell.specs.Found.{AreLinesOf};
ghost use Rattle.ods_upkeep.specs.Counted.{AreCounts, AreCountsOf, one_less, one_more};

use ods_base::{FileId, Listed};
use ods_header::is_directory;
use ods_mount::Mounted;
use ods_shell::mounted::{facts_by_id, lines_of};
use ods_space::{last_number, primary_header};
use std::alloc::{AllocError, Global};
use std::marker::Model;

/// How many entries name the file with each number.
#[derive(Drop)]
pub(crate) struct Names {
    counts: Vec<u64>,
}

impl Model for Names {
    ghost use Rattle.std.specs.Prelude.{◌≡◌, ℕ, List, length};

    ghost Value = { List ℕ };

    ghost view = { λ n. n.counts.items };

    ghost invariant = { λ n. length n.counts.items ≡ 65536 };
}

/// Returns whether the number belongs to a directory.
pub(crate) fn is_directory_file(volume: &Mounted, number: u16) -> bool
    ensures { MatchBool result (IsDirectoryFile volume.now.image volume.now.layout number) (¬ IsDirectoryFile volume.now.image volume.now.layout number) }
{
    match primary_header(&volume.disk(), number) {
        Some(header) => is_directory(number, header),
        None => false,
    }
}

impl Names {
    /// Counts the entries of a volume, with one pass over each directory.
    pub fn of(alloc: Global, volume: &Mounted) -> Result<Names, AllocError>
        ensures { IfOk result (λ names. AreCounts volume.now.image volume.now.layout (slice_index names)) }
    {
        let counts = zeros(alloc, 65_536)?;
        let mut names = Names { counts };
        for before in 0..last_number(volume.layout()) {
            names.add_directory(alloc, volume, before + 1)?;
        }
        Ok(names)
    }

    /// Counts the entries of a directory, or none if the number does not belong to a directory.
    fn add_directory(
        &mut self,
        alloc: Global,
        volume: &Mounted,
        number: u16,
    ) -> Result<(), AllocError>
        ensures { OnOk result ((here : List Entry) × AreLinesOf volume.now.image volume.now.layout number here × (length here < 2 ^ 32)
            × ((entries : List Entry) → length entries < 2 ^ 60 → AreCountsOf volume.now.image volume.now.layout entries (slice_index self.old)
            → AreCountsOf volume.now.image volume.now.layout (entries ++ here) (slice_index self.new))) }
    {
        // An image has few blocks, and so a directory has few entries.
        let _ = volume.image().len();
        let lines = lines_of(alloc, volume, number)?;
        for entry in &lines {
            self.add_entry(volume, entry);
        }
        Ok(())
    }

    /// Counts this entry for its file, if the file exists.
    fn add_entry(&mut self, volume: &Mounted, entry: &Listed)
        ensures { (entries : List Entry) → length entries < 2 ^ 63 → AreCountsOf volume.now.image volume.now.layout entries (slice_index self.old)
            → AreCountsOf volume.now.image volume.now.layout (entries ++ entry.now ∷ []) (slice_index self.new) }
    {
        if let Some(_) = facts_by_id(volume, entry.file) {
            self.add(entry.file);
        }
    }

    /// Returns how many entries name this file.
    pub fn count(&self, file: FileId) -> u64
        ensures { result ≡ slice_index self.now file.number }
    {
        self.counts[file.number as usize]
    }

    /// Counts one entry more for this file.
    pub fn add(&mut self, file: FileId)
        ensures { slice_index self.new ≡ one_more (slice_index self.old) file.number }
    {
        let count = &mut self.counts[file.number as usize];
        *count = count.saturating_add(1);
    }

    /// Counts one entry less for this file.
    pub fn take(&mut self, file: FileId)
        ensures { slice_index self.new ≡ one_less (slice_index self.old) file.number }
    {
        let count = &mut self.counts[file.number as usize];
        *count = count.saturating_sub(1);
    }
}

/// So many zeros.
fn zeros(alloc: Global, count: usize) -> Result<Vec<u64>, AllocError>
    ensures len { IfOk result (λ zeros. length zeros.items ≡ count) }
    ensures each { IfOk result (λ zeros. (n : ℕ) → slice_index zeros.items n ≡ 0) }
{
    vec![in alloc; 0; count]
}
