//! The names of one directory, which a volume notes from one request to the next.
ghost use Rattle.std.specs.Prelude.{◌≡◌, ◌≢◌, ◌<◌, ◌⊎◌, ℕ, List, [], length, true, is_some, slice_index, slice_index_or, IfSome};
ghost use Rattle.ods_space.specs.{Disks.on, Draft.applied, Files.AreInside, Files.HasBlocks, Layout.VolumeLayout};
ghost use Rattle.ods_look.specs.Blocks.{AreTaggedBlocks};
ghost use Rattle.ods_mount.specs.Sound.{IsSoundBy};
ghost use Rattle.ods_request.specs.Queries.{request_of};
ghost use Rattle.ods_state.specs.Noted.{MayBeKnown};
ghost use Rattle.ods_volume.specs.Struck.{AreNamesThen, Strikes, directory_of, is_left, is_spared, may_grow};

use crate::ends::Falls;
use ods_base::Image;
use ods_directory::{Tags, block_tags};
use ods_look::known_names;
use ods_mount::Mounted;
use ods_request::{Query, Request};
use ods_space::{Disk, Draft, count_whole, primary_header};
use ods_state::KnownNames;
use std::alloc::Global;

/// The number of the directory whose names a request looks at, or 0.
pub(crate) fn directory_of(request: &Request) -> u16
    ensures { result ≡ directory_of request.now }
{
    match request {
        Request::LookUp { dir, .. } | Request::Enter { dir, .. } | Request::Remove { dir, .. } =>
            dir.number,
        _ => 0,
    }
}

/// The number of the directory whose names a query looks at, or 0.
pub(crate) fn directory_in(query: &Query) -> u16
    ensures { result ≡ directory_of (request_of query.now) }
{
    match query {
        Query::LookUp { dir, .. } => dir.number,
        _ => 0,
    }
}

/// So often in a row a directory is used before it is noted. Noting it takes as long as some look-ups, and may never pay.
const OFTEN: u8 = 6;

/// The directory that was used last, and how often in a row, at most `OFTEN` times.
#[derive(Clone, Copy)]
pub(crate) struct LastUse {
    pub directory: u16,
    pub times: u8,
}

impl LastUse {
    /// The directory that is to be noted now, or 0: one that is used often, and again where it may have grown.
    fn wanted(&self, used: u16, falls: Falls) -> u16
        ensures { result ≢ 0 → result ≡ used }
    {
        let is_now_often = self.times == OFTEN - 1;
        let is_to_renew = self.times == OFTEN && may_grow(falls, used);
        if used == self.directory && (is_now_often || is_to_renew) {
            used
        } else {
            0
        }
    }

    /// After a change by which this directory was used, or none where it is 0.
    fn after(self, used: u16, falls: Falls) -> LastUse
        ensures { used ≢ 0 → result.directory ≡ used }
    {
        if let Falls::Everything = falls {
            return LastUse {
                directory: used,
                times: 1,
            };
        }
        if used == 0 {
            return self;
        }
        if used != self.directory {
            return LastUse {
                directory: used,
                times: 1,
            };
        }
        LastUse {
            directory: used,
            times: self.times.saturating_add(1).min(OFTEN),
        }
    }
}

/// Whether a change leaves the file with the blocks that it had, though their bytes may change, or with one more.
fn is_left(falls: Falls, file: u16) -> bool
    ensures { result ≡ is_left falls file }
{
    match falls {
        Falls::Nothing | Falls::Growth(_) => true,
        Falls::File(number) => file != number,
        Falls::Everything => false,
    }
}

/// Whether a change spares the blocks of the file and their bytes.
fn is_spared(falls: Falls, file: u16) -> bool
    ensures { result ≡ is_spared falls file }
{
    match falls {
        Falls::File(number) | Falls::Growth(number) => file != number,
        Falls::Nothing | Falls::Everything => false,
    }
}

/// Whether the file may get a block.
fn may_grow(falls: Falls, file: u16) -> bool
    ensures { result ≡ may_grow falls file }
{
    match falls {
        Falls::Growth(number) => file == number,
        Falls::Nothing | Falls::File(_) | Falls::Everything => false,
    }
}

/// Returns the names that are still noted after a change, with the tags of their blocks after the draft.
pub(crate) fn retagged(
    names: Option<KnownNames>,
    falls: Falls,
    draft: &Draft,
    disk: &Disk<'_>,
) -> Option<KnownNames>
    requires { on MayBeKnown disk.now names }
    ensures { (M : VolumeLayout) → Strikes disk.now.image.now disk.now.layout.now (applied disk.now.image.now draft.now) M falls
        → IfSome result (AreNamesThen (applied disk.now.image.now draft.now) M falls) }
{
    let Some(known) = names else {
        return None;
    };
    if !is_left(falls, known.file) {
        return None;
    }
    if is_spared(falls, known.file) {
        return Some(known);
    }
    let KnownNames {
        file,
        blocks,
        mut tags,
    } = known;
    retag(&blocks, &mut tags, draft, disk.image);
    Some(KnownNames { file, blocks, tags })
}

/// The tags of these blocks become those of what the draft makes of them.
fn retag(blocks: &[u32], tags: &mut Vec<Tags>, draft: &Draft, image: &Image)
    requires inside { AreInside image.now blocks.now }
    requires before { AreTaggedBlocks image.now blocks.now tags.old.items }
    ensures { AreTaggedBlocks (applied image.now draft.now) blocks.now tags.new.items }
{
    let end = image.len() as u64;
    let mut at = draft.next_change(0, end);
    while at < end {
        let lbn = at as u32;
        set_tags(blocks, tags, lbn, block_tags(draft.block(image, lbn)));
        at = draft.next_change(at + 1, end);
    }
}

/// The block at this LBN, where it is one of these, gets these tags.
fn set_tags(blocks: &[u32], tags: &mut Vec<Tags>, lbn: u32, new: Tags)
    requires { length tags.old.items ≡ length blocks.now }
    ensures long { length tags.new.items ≡ length blocks.now }
    ensures own { (k : ℕ) → k < length blocks.now → slice_index blocks.now k ≡ lbn → slice_index_or tags.new.items k [] ≡ new }
    ensures others { (k : ℕ) → k < length blocks.now → slice_index blocks.now k ≢ lbn → slice_index_or tags.new.items k [] ≡ slice_index_or tags.old.items k [] }
{
    for i in 0..blocks.len() {
        if blocks[i] == lbn {
            tags[i] = new;
        }
    }
}

/// Returns the noted names and the last use after a change. The note of a directory that gained a block is removed. A directory that is used often is
/// noted anew, if it has more than a few blocks and there is memory for it.
pub(crate) fn names_after(
    alloc: Global,
    mounted: &Mounted,
    names: Option<KnownNames>,
    falls: Falls,
    used: u16,
    last: LastUse,
) -> (Option<KnownNames>, LastUse)
    requires { IfSome names (AreNamesThen mounted.now.image mounted.now.layout falls) }
    ensures { MayBeKnown mounted.now.image mounted.now.layout result.0 }
{
    let disk = mounted.disk();
    let still = checked(names, falls, &disk);
    let wanted = last.wanted(used, falls);
    (
        noted_now(alloc, &disk, still, wanted),
        last.after(used, falls),
    )
}

/// What is noted where this directory is to be noted, or none where it is 0.
fn noted_now(
    alloc: Global,
    disk: &Disk<'_>,
    names: Option<KnownNames>,
    wanted: u16,
) -> Option<KnownNames>
    requires sound { on IsSoundBy disk.now }
    requires names { on MayBeKnown disk.now names }
    ensures { on MayBeKnown disk.now result }
{
    if wanted == 0 || is_of(&names, wanted) {
        return names;
    }
    match known_names(alloc, disk, wanted) {
        Some(known) => Some(known),
        None => names,
    }
}

/// Whether it is noted of this directory.
fn is_of(names: &Option<KnownNames>, file: u16) -> bool
    ensures { result ≡ true → is_some names.now ≡ true }
{
    match names {
        Some(known) => known.file == file,
        None => false,
    }
}

/// What is left of what is noted: nothing, where the directory got a block.
fn checked(names: Option<KnownNames>, falls: Falls, disk: &Disk<'_>) -> Option<KnownNames>
    requires sound { on IsSoundBy disk.now }
    requires names { IfSome names (λ k. AreNamesThen disk.now.image.now disk.now.layout.now falls k) }
    ensures { on MayBeKnown disk.now result }
{
    let Some(known) = names else {
        return None;
    };
    if !may_grow(falls, known.file) {
        return Some(known);
    }
    if has_so_many(disk, known.file, known.blocks.len()) {
        Some(known)
    } else {
        None
    }
}

/// Whether this is a file with so many blocks.
fn has_so_many(disk: &Disk<'_>, number: u16, count: usize) -> bool
    requires sound { on IsSoundBy disk.now }
    requires other { number ≢ 1 }
    ensures { result ≡ true → (held : List ℕ) × on HasBlocks disk.now number held × (length held ≡ count) }
{
    let Some(header) = primary_header(disk, number) else {
        return false;
    };
    count_whole(disk, number, header) as usize == count
}
