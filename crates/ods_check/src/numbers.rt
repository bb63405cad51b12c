//! The ends of the ranges of file numbers and header numbers.
ghost use Rattle.std.specs.Prelude.{◌≡◌, ℕ, ◌+◌, ◌<◌, ◌≤◌, IsTrue};
ghost use Rattle.ods_header.specs.Header.{IsHeader};
ghost use Rattle.ods_space.specs.{Files.IsFile, Layout.is_in_use};
ghost use Rattle.ods_space.specs.Disks.{header_on, on};

use ods_space::Disk;

/// Returns the number after the last one that a file can have, H.FMAX.
pub(crate) fn file_end(disk: &Disk<'_>) -> u32
    ensures files { (n : ℕ) → on IsFile disk.now n → n < result }
    ensures last { result ≡ disk.now.layout.now.home.max_files + 1 }
    ensures words { result ≤ 65536 }
{
    disk.layout.home().max_files as u32 + 1
}

/// Returns the number after the last 16-bit number that has a bit in the index bitmap.
pub(crate) fn header_end(disk: &Disk<'_>) -> u32
    ensures in_use { (n : ℕ) → n < 65536 → IsTrue (is_in_use disk.now.image.now disk.now.layout.now.home n) → n < result }
    ensures headers { (n : ℕ) → IsTrue (is_in_use disk.now.image.now disk.now.layout.now.home n) → IsHeader (header_on disk.now n) n → n < result }
    ensures words { result ≤ 65536 }
{
    // The blocks of an image have bytes, so no header has a greater number than a word.
    let _ = disk.image.len();
    (4096 * disk.layout.home().index_bitmap_size as u32).min(65535) + 1
}
