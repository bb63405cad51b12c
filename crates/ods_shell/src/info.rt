//! The output of `info` for a volume: the fields of its home block, and the locations of its structures.
ghost use Rattle.std.specs.Prelude.{◌≡◌, ◌≤◌, ◌+◌, ◌<◌, length, slice_range};
ghost use Rattle.ods_base.specs.Image.{block_at};
ghost use Rattle.ods_space.specs.Disks.{on, seen};
ghost use Rattle.ods_space.specs.Files.{FindsFiles};
ghost use Rattle.ods_shell.specs.Info.{IsInfoOf, info_at as known_at, label_in as label_of, made_in as made_of, owner_in as owner_of};

use ods_alloc::number_count;
use ods_base::{Block, Uic, word};
use ods_header::find_home;
use ods_space::Disk;

/// The facts of a volume, whether its files are sound or not.
#[derive(Clone, Copy, Debug)]
pub struct Info {
    /// The LBN of the home block.
    pub home: u32,
    /// H.VNAM: the label.
    pub label: [u8; 12],
    /// H.VOWN: the owner of the volume.
    pub owner: Uic,
    /// H.VLEV: the structure level.
    pub level: u16,
    /// H.DFPR: the protection word of new files.
    pub protection: u16,
    /// The first 13 bytes of H.VDAT: the date of creation of the volume.
    pub made: [u8; 13],
    /// The number of blocks of the volume.
    pub blocks: u32,
    /// H.FMAX: the greatest file number.
    pub most: u16,
    /// The number of file numbers that a new header may receive without growth of INDEXF.SYS.
    pub ready: u32,
    /// H.IBLB: the LBN of the first block of the index bitmap.
    pub bitmap: u32,
    /// H.IBSZ: the number of blocks of the index bitmap.
    pub bitmap_blocks: u16,
    /// The number of blocks of INDEXF.SYS.
    pub index_blocks: u64,
}

/// Returns the facts of the volume on this disk.
pub fn volume_info(disk: &Disk<'_>) -> Info
    requires { on FindsFiles disk.now }
    ensures { on IsInfoOf disk.now result }
{
    match find_home(disk.image) {
        Ok((lbn, _)) => info_at(disk, lbn),
        Err(_) => unreachable!(),
    }
}

/// What is known of a volume whose home block stands at this LBN.
fn info_at(disk: &Disk<'_>, lbn: u32) -> Info
    requires layout { on FindsFiles disk.now }
    requires inside { lbn < length disk.now.image.now }
    ensures { result ≡ seen known_at disk.now lbn }
{
    let block = disk.image.block(lbn);
    let home = disk.layout.home();
    Info {
        home: lbn,
        label: label_in(block),
        owner: owner_in(block),
        level: word(block, 6),
        protection: home.protection,
        made: made_in(block),
        blocks: disk.image.len(),
        most: home.max_files,
        ready: number_count(disk),
        bitmap: home.index_bitmap_lbn,
        bitmap_blocks: home.index_bitmap_size,
        index_blocks: disk.layout.index().len() as u64,
    }
}

/// The label in a home block.
fn label_in(home: &Block) -> [u8; 12]
    ensures { result ≡ label_of home.now }
{
    let mut label = [0; 12];
    label.copy_from_slice(&home.bytes()[14..26]);
    label
}

/// The owner of the volume in a home block.
fn owner_in(home: &Block) -> Uic
    ensures { result ≡ owner_of home.now }
{
    Uic {
        group: home.byte(31),
        member: home.byte(30),
    }
}

/// When the volume was made, in a home block.
fn made_in(home: &Block) -> [u8; 13]
    ensures { result ≡ made_of home.now }
{
    let mut made = [0; 13];
    made.copy_from_slice(&home.bytes()[60..73]);
    made
}
