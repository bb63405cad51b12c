//! A sound volume that changes by requests, and keeps no list of them.
ghost use Rattle.std.specs.Prelude.{◌≡◌, length, true, unwrap_or, Some, None, MatchResult, IfOk, IfErr, OnOk, OnErr};
ghost use Rattle.std.specs.List.{All};
ghost use Rattle.ods_alloc.specs.Counts.{free_counts};
ghost use Rattle.ods_mount.specs.Sound.{IsSoundBy};
ghost use Rattle.ods_space.specs.{Disks.on, Free.free_blocks, Free.free_numbers};
ghost use Rattle.ods_request.specs.Queries.{request_of};
ghost use Rattle.ods_state.specs.{Outcome.CanBeAsked, Served.IsRefusalOf};
ghost use Rattle.ods_change.specs.IndexGrown.{IsWhyNoHeaders};
ghost use Rattle.ods_amend.specs.{Access.Gives, Access.GivesAll, Access.Protects, Access.protection_at, Bits.IsLoose, Bits.MarksAs, Label.Relabels};
ghost use Rattle.ods_volume.specs.Amended.{IsChangeOfAccess, IsChangeOfLabel, IsChangeOfMarks, IsChangeOfProtection, IsWhyNotGiven, IsWhyNotProtected};
ghost use Rattle.ods_volume.specs.Changing.{HasMoreHeaders, IsChangeFor, IsChangeOfHeaders, IsLawfulChange, IsStep, changed};

use crate::ends::{Falls, KnownEnds, falls_for};
use crate::noted::{LastUse, directory_in, directory_of, names_after, retagged};
use crate::prepare::{carry_out, counts_after, look_only};
use ods_alloc::FreeCounts;
use ods_amend::{draft_access, draft_label, draft_marks, draft_protection};
use ods_base::{FileId, NoMemory, Uic};
use ods_change::grow_headers;
use ods_init::Label;
use ods_mount::Mounted;
use ods_request::{Answer, CompactRequest, Query, Refusal, Request};
use ods_space::{Disk, Draft};
use ods_state::{KnownEnd, KnownNames};
use std::alloc::{AllocError, Global};
use std::marker::Model;

/// A sound image with its layout, which changes by requests. The image is always sound.
///
/// The free blocks and numbers are counted for each block of the bitmaps, so that a request skips bitmap blocks without a free bit. The counts always
/// equal new counts of the image.
///
/// The ends of the chains of the files that were extended last are noted, so that their next Extend does not walk the chain. The names of the
/// directory that was used last may be noted, so that a look-up reads few of its blocks.
#[derive(Drop)]
pub struct Sound {
    alloc: Global,
    mounted: Mounted,
    counts: FreeCounts,
    ends: KnownEnds,
    names: Option<KnownNames>,
    last: LastUse,
}

impl Model for Sound {
    ghost use Rattle.ods_space.specs.Layout.{Disk};
    ghost use Rattle.ods_volume.specs.Changing.{IsNoted};

    ghost Value = { Disk };

    ghost view = { λ s. s.mounted };

    ghost invariant = { λ s. IsNoted s.mounted s.counts s.ends.ends s.names };
}

/// The change of an accepted request: the changed blocks, and the LBNs that INDEXF.SYS gains. It has the new counts of the bitmaps if they change. It
/// has the end of the chain of the changed file, if that is known, and states which notes of other files it invalidates. All the memory of the change
/// is taken already.
#[derive(Drop)]
pub struct Change {
    pub(crate) draft: Draft,
    pub(crate) places: Vec<u32>,
    counts: Option<FreeCounts>,
    end: Option<KnownEnd>,
    pub(crate) falls: Falls,
    /// The number of the directory whose names the request looks at, or 0.
    used: u16,
}

impl Model for Change {
    ghost use Rattle.ods_volume.specs.Changing.{Parts};

    ghost Value = { Parts };

    ghost view = { λ c. record { changes = c.draft; places = c.places.items; counts = c.counts; end = c.end; falls = c.falls } };
}

/// The new counts take the place of those that are kept; where there are none, those stay.
fn put_counts(kept: &mut FreeCounts, new: Option<FreeCounts>)
    ensures { kept.new ≡ unwrap_or new kept.old }
{
    if let Some(counts) = new {
        *kept = counts;
    }
}

impl Sound {
    /// Counts the free blocks and numbers of the mounted image. When out of memory, it returns the image with the error.
    pub fn new(alloc: Global, mounted: Mounted) -> Result<Sound, (Mounted, NoMemory)>
        ensures ok { IfOk result (λ s. s ≡ mounted) }
        ensures err { IfErr result (λ e. e.0 ≡ mounted) }
    {
        let counts = match FreeCounts::of(alloc, &mounted.disk()) {
            Ok(counts) => counts,
            Err(_) => return Err((mounted, NoMemory)),
        };
        Ok(Sound {
            alloc,
            mounted,
            counts,
            ends: KnownEnds::new(),
            names: None,
            last: LastUse {
                directory: 0,
                times: 0,
            },
        })
    }

    /// Returns the volume as it is now, and drops the notes. It takes no memory.
    pub fn into_mounted(self) -> Mounted
        ensures { result ≡ self }
    {
        self.mounted
    }

    /// Returns the volume as it is now, which is mounted and sound.
    pub fn mounted(&self) -> &Mounted
        ensures { result.now ≡ self.now }
    {
        &self.mounted
    }

    /// Returns the image with its layout, as they are now.
    pub fn disk(&self) -> Disk<'_>
        ensures image { result.image.now ≡ self.now.image }
        ensures layout { result.layout.now ≡ self.now.layout }
        ensures sound { on IsSoundBy result }
    {
        self.mounted.disk()
    }

    /// Returns the number of free blocks.
    pub fn free_count(&self) -> u32
        ensures { result ≡ length (free_blocks self.now.image self.now.layout) }
    {
        self.counts.total()
    }

    /// Returns the number of free blocks that each block of the storage bitmap covers, in order. The storage control block is not counted. The counts
    /// are kept, and equal new counts of the image.
    pub fn counts(&self) -> &[u32]
        ensures { result.now ≡ free_counts self.now.image self.now.layout }
    {
        self.counts.as_slice()
    }

    /// Returns the number of free file numbers.
    pub fn number_count(&self) -> u32
        ensures { result ≡ length (free_numbers self.now.image self.now.layout) }
    {
        ods_alloc::number_count(&self.disk())
    }

    /// Writes the answer of a query into `answer`, and returns a change that changes nothing. It takes no memory.
    pub(crate) fn look(
        &self,
        who: Uic,
        query: Query,
        answer: &mut Answer,
    ) -> Result<Change, Refusal>
        ensures { MatchResult result (IsChangeFor self.now who (request_of query) answer.new)
            (IsRefusalOf self.now.image self.now.layout who (request_of query)) }
    {
        let disk = self.mounted.disk();
        // The blocks of an image have bytes.
        let _ = disk.image.len();
        let used = directory_in(&query);
        let names = self.names.as_ref();
        let drafted = match look_only(self.alloc, &disk, who, query, names, answer) {
            Ok(drafted) => drafted,
            Err(refusal) => return Err(refusal),
        };
        Ok(Change {
            draft: drafted.draft,
            places: drafted.places,
            counts: None,
            end: None,
            falls: Falls::Nothing,
            used,
        })
    }

    /// Prepares a request: writes its answer into `answer`, and returns its change with all the memory that this takes. The volume is unchanged. An
    /// error is the first fault of the request, a lack of the volume, or NoMemory.
    pub fn prepare(
        &self,
        who: Uic,
        request: &Request,
        answer: &mut Answer,
    ) -> Result<Change, Refusal>
        // A version that is given is 1 to 32,767.
        requires { CanBeAsked request.now }
        ensures { MatchResult result (IsChangeFor self.now who request.now answer.new)
            (IsRefusalOf self.now.image self.now.layout who request.now) }
    {
        let disk = self.mounted.disk();
        // The blocks of an image have bytes.
        let _ = disk.image.len();
        let (drafted, end) = match carry_out(
            self.alloc,
            &disk,
            &self.counts,
            who,
            request,
            &self.ends,
            self.names.as_ref(),
            answer,
        ) {
            Ok(carried) => carried,
            Err(refusal) => return Err(refusal),
        };
        let Ok(counts) = counts_after(&self.counts, &disk, request, &drafted.draft) else {
            return Err(Refusal::NoMemory);
        };
        Ok(Change {
            draft: drafted.draft,
            places: drafted.places,
            counts,
            end,
            falls: falls_for(request, answer),
            used: directory_of(request),
        })
    }

    /// Prepares a request as [`Sound::prepare`] does. A query is not copied into a value with room for a block.
    pub(crate) fn prepare_shared(
        &self,
        who: Uic,
        request: &CompactRequest,
        answer: &mut Answer,
    ) -> Result<Change, Refusal>
        requires { CanBeAsked request.now }
        ensures { MatchResult result (IsChangeFor self.now who request.now answer.new)
            (IsRefusalOf self.now.image self.now.layout who request.now) }
    {
        match request.as_query() {
            Some(query) => self.look(who, query, answer),
            None => self.prepare(who, &request.get(), answer),
        }
    }

    /// Applies a change that was prepared for this volume as it is now. It never fails. It takes memory only to note a directory. When out of memory,
    /// nothing is noted.
    pub fn apply(&mut self, change: Change)
        requires { IsLawfulChange self.old change }
        ensures { self.new ≡ changed self.old change }
    {
        let names = retagged(
            self.names.take(),
            change.falls,
            &change.draft,
            &self.mounted.disk(),
        );
        self.mounted.apply(change.draft, &change.places);
        put_counts(&mut self.counts, change.counts);
        self.ends.follow(change.falls, change.end);
        let (names, last) = names_after(
            self.alloc,
            &self.mounted,
            names,
            change.falls,
            change.used,
            self.last,
        );
        self.names = names;
        self.last = last;
    }

    /// Prepares a request and makes its change. After a refusal the volume is unchanged.
    pub fn request(&mut self, who: Uic, request: &Request) -> Result<Answer, Refusal>
        // A version that is given is 1 to 32,767.
        requires { CanBeAsked request.now }
        // Accepted, it is the step of each catalogue that the blocks show.
        ensures accepted { IfOk result (λ a. IsStep self.old who request.now a self.new) }
        // Refused, its first fault is the reason, or what the volume lacks, or want of memory.
        ensures refused { IfErr result (IsRefusalOf self.old.image self.old.layout who request.now) }
        ensures unchanged { OnErr result (self.new ≡ self.old) }
    {
        let mut answer = Answer::Done;
        match self.prepare(who, request, &mut answer) {
            Ok(change) => {
                self.apply(change);
                Ok(answer)
            }
            Err(refusal) => Err(refusal),
        }
    }
    /// What changes where INDEXF.SYS gets headers for so many files more, with all the memory that this takes. The volume stays as it is.
    fn prepare_headers(&self, count: u32) -> Result<Change, Refusal>
        ensures { MatchResult result (IsChangeOfHeaders self.now count) (IsWhyNoHeaders self.now.image self.now.layout count) }
    {
        let disk = self.mounted.disk();
        let drafted = match grow_headers(self.alloc, &disk, &self.counts, count) {
            Ok(drafted) => drafted,
            Err(refusal) => return Err(refusal),
        };
        let Ok(counts) = self.counts.after(&disk, &drafted.draft) else {
            return Err(Refusal::NoMemory);
        };
        // Nothing is noted then of where chains end.
        let end = None;
        let falls = Falls::Everything;
        let growth = Change {
            draft: drafted.draft,
            places: drafted.places,
            counts,
            end,
            falls,
            used: 0,
        };
        Ok(growth)
    }

    /// Extends INDEXF.SYS by headers for `count` more files, all at once, so that its last header takes as few pointers for them as possible. Call
    /// this before the creation of many files: otherwise each Create takes a pointer. After an error the volume is unchanged.
    pub fn grow_index(&mut self, count: u32) -> Result<(), Refusal>
        // It has the lowest free blocks behind its own, and the catalogue is as it was.
        ensures grown { OnOk result (HasMoreHeaders self.old count self.new) }
        // Refused, memory is wanted, or what it takes is not there, which is HeadersFull.
        ensures refused { IfErr result (IsWhyNoHeaders self.old.image self.old.layout count) }
        ensures unchanged { OnErr result (self.new ≡ self.old) }
    {
        match self.prepare_headers(count) {
            Ok(growth) => {
                self.apply(growth);
                Ok(())
            }
            Err(lack) => Err(lack),
        }
    }

    /// What changes where a user gives a file another owner, another protection or other characteristics, with all the memory that this takes. The volume stays
    /// as it is.
    fn prepare_access(
        &self,
        who: Uic,
        file: FileId,
        owner: Option<Uic>,
        protection: Option<u16>,
        flags: Option<u8>,
    ) -> Result<Change, Refusal>
        ensures { MatchResult result (IsChangeOfAccess self.now who file owner protection flags) (IsWhyNotGiven self.now who file) }
    {
        let disk = self.mounted.disk();
        let draft = draft_access(self.alloc, &disk, who, file, owner, protection, flags)?;
        let Ok(counts) = self.counts.after(&disk, &draft) else {
            return Err(Refusal::NoMemory);
        };
        // Nothing is noted then of where chains end.
        let end = None;
        let falls = Falls::Everything;
        let places = Vec::new(self.alloc);
        let given = Change {
            draft,
            places,
            counts,
            end,
            falls,
            used: 0,
        };
        Ok(given)
    }

    /// Sets the owner (H.FOWN) and the protection word (H.FPRO) in the first header of a file, each if given. The user must be a system user, whose
    /// group is at most 10 octal, or the owner of the file. The errors, in this order: NoSuchFile; Reserved for the files 1 to 5; Denied; NoMemory.
    /// After an error the volume is unchanged.
    pub fn set_access(
        &mut self,
        who: Uic,
        file: FileId,
        owner: Option<Uic>,
        protection: Option<u16>,
    ) -> Result<(), Refusal>
        ensures given { OnOk result (Gives self.old who file owner protection self.new) }
        ensures refused { IfErr result (IsWhyNotGiven self.old who file) }
        ensures unchanged { OnErr result (self.new ≡ self.old) }
    {
        let change = self.prepare_access(who, file, owner, protection, None)?;
        self.apply(change);
        Ok(())
    }

    /// Sets the owner of a file, for a user. The rights and errors are those of [`Sound::set_access`].
    pub fn set_owner(&mut self, who: Uic, file: FileId, owner: Uic) -> Result<(), Refusal>
        ensures given { OnOk result (Gives self.old who file (Some owner) None self.new) }
        ensures refused { IfErr result (IsWhyNotGiven self.old who file) }
        ensures unchanged { OnErr result (self.new ≡ self.old) }
    {
        self.set_access(who, file, Some(owner), None)
    }

    /// Sets the protection word of a file, for a user: four bits for each class of users, where a set bit denies. The rights and errors are those of
    /// [`Sound::set_access`].
    pub fn set_protection(&mut self, who: Uic, file: FileId, protection: u16) -> Result<(), Refusal>
        ensures given { OnOk result (Gives self.old who file None (Some protection) self.new) }
        ensures refused { IfErr result (IsWhyNotGiven self.old who file) }
        ensures unchanged { OnErr result (self.new ≡ self.old) }
    {
        self.set_access(who, file, None, Some(protection))
    }

    /// Sets the user characteristics (H.UCHA) in the first header of a file, for a user. The rights and errors are those of [`Sound::set_access`].
    pub fn set_characteristics(&mut self, who: Uic, file: FileId, flags: u8) -> Result<(), Refusal>
        ensures given { OnOk result (GivesAll self.old who file None None (Some flags) self.new) }
        ensures refused { IfErr result (IsWhyNotGiven self.old who file) }
        ensures unchanged { OnErr result (self.new ≡ self.old) }
    {
        let change = self.prepare_access(who, file, None, None, Some(flags))?;
        self.apply(change);
        Ok(())
    }

    /// What changes where a file has another protection word, with all the memory that this takes, and its present word. The volume stays as it is.
    fn prepare_protection(&self, file: FileId, protection: u16) -> Result<(Change, u16), Refusal>
        ensures { MatchResult result (λ prepared. IsChangeOfProtection self.now file protection prepared.0 × (prepared.1 ≡ protection_at self.now file)) (IsWhyNotProtected self.now file) }
    {
        let disk = self.mounted.disk();
        let (draft, present) = match draft_protection(self.alloc, &disk, file, protection) {
            Ok(drafted) => drafted,
            Err(refusal) => return Err(refusal),
        };
        let Ok(counts) = self.counts.after(&disk, &draft) else {
            return Err(Refusal::NoMemory);
        };
        // Nothing is noted then of where chains end.
        let end = None;
        let falls = Falls::Everything;
        let places = Vec::new(self.alloc);
        let set = Change {
            draft,
            places,
            counts,
            end,
            falls,
            used: 0,
        };
        Ok((set, present))
    }

    /// Sets the protection word (H.FPRO) in the first header of a file, and returns the word before. The file may be a system file, and no right is
    /// required. The errors are NoSuchFile and NoMemory. After an error the volume is unchanged.
    pub fn replace_protection(&mut self, file: FileId, protection: u16) -> Result<u16, Refusal>
        ensures set { OnOk result (Protects self.old file protection self.new) }
        ensures before { IfOk result (λ word. word ≡ protection_at self.old file) }
        ensures refused { IfErr result (IsWhyNotProtected self.old file) }
        ensures unchanged { OnErr result (self.new ≡ self.old) }
    {
        let (change, present) = self.prepare_protection(file, protection)?;
        self.apply(change);
        Ok(present)
    }

    /// What changes where the storage bitmap says of blocks that they are free, or taken, with all the memory that this takes. The volume stays as it is.
    fn prepare_marks(&self, blocks: &[u32], free: bool) -> Result<Change, AllocError>
        requires { free ≡ true → All (IsLoose self.now.image self.now.layout) blocks.now }
        ensures { IfOk result (IsChangeOfMarks self.now blocks.now free) }
    {
        let disk = self.mounted.disk();
        let draft = draft_marks(self.alloc, &disk, blocks, free)?;
        let counts = self.counts.after(&disk, &draft)?;
        // Nothing is noted then of where chains end.
        let end = None;
        let falls = Falls::Everything;
        let places = Vec::new(self.alloc);
        let marked = Change {
            draft,
            places,
            counts,
            end,
            falls,
            used: 0,
        };
        Ok(marked)
    }

    /// Marks blocks, given by their LBNs, as free or as in use in the storage bitmap. Blocks that the bitmap does not cover are skipped. A block to
    /// free must belong to no file, and must not be a place before the home block where a mount searches for one. It fails only when out of memory,
    /// and then the volume is unchanged.
    pub fn mark_blocks(&mut self, blocks: &[u32], free: bool) -> Result<(), AllocError>
        requires { free ≡ true → All (IsLoose self.old.image self.old.layout) blocks.now }
        ensures marked { OnOk result (MarksAs self.old blocks.now free self.new) }
        ensures unchanged { OnErr result (self.new ≡ self.old) }
    {
        let change = self.prepare_marks(blocks, free)?;
        self.apply(change);
        Ok(())
    }

    /// What changes where the volume gets another label, with all the memory that this takes. The volume stays as it is.
    fn prepare_label(&self, label: &Label) -> Result<Change, AllocError>
        ensures { IfOk result (IsChangeOfLabel self.now label.now) }
    {
        let disk = self.mounted.disk();
        let draft = draft_label(self.alloc, &disk, label)?;
        let counts = self.counts.after(&disk, &draft)?;
        // Nothing is noted then of where chains end.
        let end = None;
        let falls = Falls::Everything;
        let places = Vec::new(self.alloc);
        let labelled = Change {
            draft,
            places,
            counts,
            end,
            falls,
            used: 0,
        };
        Ok(labelled)
    }

    /// Sets the label of the volume: H.VNAM of the home block, and its copy at byte 472. It fails only when out of memory, and then the volume is
    /// unchanged.
    pub fn set_label(&mut self, label: &Label) -> Result<(), AllocError>
        ensures given { OnOk result (Relabels self.old label.now self.new) }
        ensures unchanged { OnErr result (self.new ≡ self.old) }
    {
        let change = self.prepare_label(label)?;
        self.apply(change);
        Ok(())
    }
}
