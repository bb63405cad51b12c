//! Entering names in a directory.
ghost use Rattle.std.specs.Prelude.{ℕ, ◌≡◌, ◌≢◌, ◌*◌, ◌/◌, ◌+◌, ◌^◌, ◌<◌, ◌≤◌, length, IfOk, IfErr};
ghost use Rattle.std.specs.Option.{ForSome};
ghost use Rattle.std.specs.FinMap.{insert};
ghost use Rattle.ods_base.specs.{Name.IsName, Name.key_of, Names.IsEntered};
ghost use Rattle.ods_directory.specs.{declared.first.Kind.TheVariants.Empty, Entry.entry_at, Entry.entry_bytes, Entering.next_version, Entering.pick_of, Faults.IsEnterFault, First.IsFirst, Mark.IsSlot, Mark.grown, Mark.written, Names.IsDirectory, Names.names_of, Search.IsFound};

use crate::first::{First, Kind};
use crate::scan::{Pass, scan};
use crate::search::{Found, Search};
use crate::slots::slot_in;
use crate::tags::{Wanted, name_tag};
use crate::{DirBlocks, DirFault, Slot};
use ods_base::{Block, FileId, LAST_VERSION, Name, Pick};

/// Returns the version to enter, the slot for it, and the bytes to write there. The version is the given one, or otherwise the highest plus one, or
/// 1. If the slot grows, a block of zeros is appended first.
pub fn enter<B: DirBlocks>(
    blocks: &B,
    mark: u64,
    name: &Name,
    version: Option<u16>,
    file: FileId,
) -> Result<(u16, Slot, [u8; 16]), DirFault>
    requires directory { IsDirectory (B.blocks blocks.now) mark }
    requires mark { mark ≤ 512 * length (B.blocks blocks.now) }
    requires file { file.number ≢ 0 }
    requires version { ForSome version (λ v. (1 ≤ v) × (v ≤ 32767)) }
    ensures version { IfOk result (λ r. IsEntered (names_of (B.blocks blocks.now) mark) name.now version r.0) }
    ensures slot { IfOk result (λ r. IsSlot (B.blocks blocks.now) mark r.1) }
    ensures bytes { IfOk result (λ r. r.2 ≡ entry_bytes file (key_of name.now r.0)) }

    // With these bytes at the slot the directory has one name more.
    ensures names { IfOk result (λ r. names_of (written (grown (B.blocks blocks.now) r.1) r.1.at r.2) r.1.mark
        ≡ insert (names_of (B.blocks blocks.now) mark) (key_of name.now r.0) file) }
    ensures stays { IfOk result (λ r. IsDirectory (written (grown (B.blocks blocks.now) r.1) r.1.at r.2) r.1.mark) }
    ensures err { IfErr result (IsEnterFault (names_of (B.blocks blocks.now) mark) name.now version) }
{
    let (found, empty) = find_room(blocks, mark, name, version);
    let next = match next_version(version, found) {
        Ok(next) => next,
        Err(fault) => return Err(fault),
    };
    let slot = slot_in(blocks, mark, empty);
    Ok((next, slot, bytes_of(name, next, file)))
}

/// What an Enter looks for in one pass: the entry that is in its way or before it, and the first empty one.
#[derive(Clone, Copy)]
struct Room {
    search: Search,
    empty: First,
}

impl Pass for Room {
    ghost use Rattle.ods_directory.specs.{First.first_after, Search.search_after};

    ghost after = { λ s k e. record { search = search_after s.search k e; empty = first_after s.empty k e } };

    fn take(&mut self, block: &Block, at: usize, k: u64) {
        self.search.take(block, at, k);
        self.empty.take(block, at, k);
    }

    fn is_done(&self) -> bool {
        self.search.is_done() && self.empty.is_done()
    }

    fn wanted(&self) -> Wanted {
        let tag = name_tag(&self.search.name);
        if self.empty.is_done() {
            return Wanted {
                all: false,
                one: tag,
                other: tag,
            };
        }
        match self.empty.kind {
            Kind::Empty => Wanted {
                all: false,
                one: tag,
                other: 0,
            },
            Kind::Bad | Kind::Used => Wanted {
                all: true,
                one: 0,
                other: 0,
            },
        }
    }
}

/// The entry with the version given, or else with the highest one, and the position of the first empty entry.
fn find_room<B: DirBlocks>(
    blocks: &B,
    mark: u64,
    name: &Name,
    version: Option<u16>,
) -> (Option<Found>, Option<u64>)
    requires { mark ≤ 512 * length (B.blocks blocks.now) }
    ensures found { IsFound (entry_at (B.blocks blocks.now)) (mark / 16) name.now (pick_of version) result.0 }
    ensures empty { IsFirst Empty (entry_at (B.blocks blocks.now)) (mark / 16) result.1 }
{
    let mut room = Room {
        search: Search::of(*name, pick_of(version)),
        empty: First::of(Kind::Empty),
    };
    scan(blocks, mark, &mut room);
    (room.search.found, room.empty.position)
}

/// The entry that is looked for before a name is entered.
fn pick_of(version: Option<u16>) -> Pick
    ensures { result ≡ pick_of version }
{
    match version {
        Some(exact) => Pick::Exact(exact),
        None => Pick::Highest,
    }
}

/// The version to be entered, by the one given and the entry that is found.
fn next_version(given: Option<u16>, found: Option<Found>) -> Result<u16, DirFault>
    ensures { result ≡ next_version given found }
{
    match (given, found) {
        (Some(_), Some(_)) => Err(DirFault::NameTaken),
        (Some(version), None) => Ok(version),
        (None, None) => Ok(1),
        (None, Some(found)) if found.version < LAST_VERSION => Ok(found.version + 1),
        (None, Some(_)) => Err(DirFault::VersionsFull),
    }
}

/// The 16 bytes of an entry.
fn bytes_of(name: &Name, version: u16, file: FileId) -> [u8; 16]
    ensures bytes { result ≡ entry_bytes file (key_of name.now version) }
    ensures name { IsName name.now }
{
    let words = name.words();
    let [n0, n1] = file.number.to_le_bytes();
    let [s0, s1] = file.sequence.to_le_bytes();
    let [a0, a1] = words[0].to_le_bytes();
    let [b0, b1] = words[1].to_le_bytes();
    let [c0, c1] = words[2].to_le_bytes();
    let [e0, e1] = name.ext().to_le_bytes();
    let [v0, v1] = version.to_le_bytes();
    [n0, n1, s0, s1, 0, 0, a0, a1, b0, b1, c0, c1, e0, e1, v0, v1]
}
