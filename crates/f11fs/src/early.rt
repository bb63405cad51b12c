//! Host files that are not plain files, such as pipes and standard input. `put`, `append`, `untar` and `cp --from` read them before the image is
//! locked, so that nobody waits under the lock.
ghost use Rattle.std.specs.Prelude.{◌≡◌, ◌<◌, ◌≤◌, ◌-◌, ◌∷◌, ◌++◌, ◌⊎◌, ℕ, [], MatchOption, None, Some, IfNone, IfOk, IfSome, MatchResult, OnOk, drop, length, min, slice_get, string_bytes, vec_len};
ghost use Rattle.std.specs.List.{remove};
ghost use Rattle.f11fs.specs.{Changed.host_count, Changed.hosts_among, Given.AreTaken, Readings.AddsImage, Readings.AddsReading, Readings.MayAddImage, Readings.MayAddReading, Readings.MayAddReadings, Readings.ReadsNothing, Readings.first_at, Readings.first_image};
ghost use Rattle.f11fs.specs.declared.early.OtherImage.{OtherImage as AnImage};
ghost use Rattle.f11fs.specs.declared.early.Taken.{Taken as Read};

use crate::host::Host;
use crate::untarring::archive_among;
use fs_host::{Extent, HostFault};
use fs_reads::{Stop, VolumeFault};
use fs_words::{Action, Change, Words};
use ods_base::{Image, MAX_BYTES};
use std::alloc::AllocError;
use std::fs;
use std::rt::Files;

/// What was read of a host file.
#[derive(Drop)]
struct Taken {
    path: String,
    bytes: Result<Vec<u8>, HostFault>,
}

/// What was read of the other image of a `cp`.
#[derive(Drop)]
struct OtherImage {
    path: String,
    opened: Result<(Image, Option<Extent>), VolumeFault>,
}

/// The contents that were read early, in the order of the words.
#[derive(Drop)]
pub struct Early {
    taken: Vec<Taken>,
    images: Vec<OtherImage>,
    /// How many bytes may still be read: in total the length of the image file, or the largest image size if it is not a plain file.
    /// For an archive, `archive_room` raises the limit. None if there is no image.
    room: Option<u64>,
}

impl Early {
    /// Returns an empty store for the image at this path.
    pub fn of<R: Files + AllocGlobal>(rt: &R, image: &str) -> Early
        ensures taken { result.taken.items ≡ [] }
        ensures images { result.images.items ≡ [] }
    {
        Early {
            taken: Vec::new(rt.alloc()),
            images: Vec::new(rt.alloc()),
            room: match fs::metadata(rt, image) {
                Ok(found) if found.is_file() => Some(found.len()),
                Ok(_) => Some(MAX_BYTES as u64),
                Err(_) => None,
            },
        }
    }

    /// Reads the sources of a `put`, an `append` or an `untar` that are not plain files, and the other image of a `cp`. The reason of a failure is kept
    /// for that command.
    #[tactic(auto, using(crate::proofs::Taking::image_one, crate::proofs::Taking::taken_on, crate::proofs::Taking::taken_one))]
    pub(crate) fn read_words<'a, R: Host>(
        &mut self,
        rt: &R,
        words: &Words<'_>,
    ) -> Result<(), Stop<'a>>
        requires { AreTaken (R.gives rt.now) self.old }
        ensures nothing { ReadsNothing words.now.action → self.new ≡ self.old }
        ensures taken { OnOk result (AreTaken (R.gives rt.now) self.new) }
    {
        match words.action {
            Action::Change(Change::Put(_)) => self.read_all(rt, hosts(words.paths.as_slice())),
            Action::Change(Change::Append) => self.read_all(
                rt,
                behind_first(words.paths.as_slice()),
            ),
            Action::Change(Change::Untar) => {
                self.room = archive_room(self.room);
                self.read_stream(rt, archive_among(words.paths.as_slice()))
            }
            Action::Change(Change::CpFrom(how)) => self.read_image(rt, how.from),
            _ => Ok(()),
        }
    }

    /// Reads each of these that is not a plain file.
    fn read_all<'a, R: Host>(&mut self, rt: &R, paths: &[&str]) -> Result<(), Stop<'a>>
        ensures { OnOk result (MayAddReadings (R.gives rt.now) paths.now self.old self.new) }
    {
        for path in paths {
            self.read_stream(rt, *path)?;
        }
        Ok(())
    }

    /// Reads the file at this path, if it is not a plain file.
    fn read_stream<'a, R: Host>(&mut self, rt: &R, path: &str) -> Result<(), Stop<'a>>
        ensures { OnOk result (MayAddReading (R.gives rt.now) path.now self.old self.new) }
    {
        if path == "-" || is_stream(rt, path) {
            return self.read(rt, path);
        }
        Ok(())
    }

    /// Reads a host file.
    fn read<'a, R: Host>(&mut self, rt: &R, path: &str) -> Result<(), Stop<'a>>
        ensures { OnOk result (AddsReading (R.gives rt.now) path.now self.old self.new) }
    {
        let Some(room) = self.room else {
            return Ok(());
        };
        let bytes = rt.bytes_of(path, room);
        self.room = Some(room_behind(room, &bytes));
        let path = String::from_str(rt.alloc(), path)?;
        Ok(push_taken(&mut self.taken, Taken { path, bytes })?)
    }

    /// Reads the other image of a `cp`, if it is not a plain file.
    fn read_image<'a, R: Host>(&mut self, rt: &R, path: &str) -> Result<(), Stop<'a>>
        ensures { OnOk result (MayAddImage (R.gives rt.now) path.now self.old self.new) }
    {
        if is_stream(rt, path) {
            return self.add_image(rt, path);
        }
        Ok(())
    }

    /// Reads another image.
    fn add_image<'a, R: Host>(&mut self, rt: &R, path: &str) -> Result<(), Stop<'a>>
        ensures { OnOk result (AddsImage (R.gives rt.now) path.now self.old self.new) }
    {
        let opened = rt.volume_of(path);
        let path = String::from_str(rt.alloc(), path)?;
        Ok(push_image(&mut self.images, OtherImage { path, opened })?)
    }

    /// Removes and returns the first unused image that was read early from this path.
    pub(crate) fn take_image(
        &mut self,
        path: &str,
    ) -> Option<Result<(Image, Option<Extent>), VolumeFault>>
        ensures left { IfNone result (self.new ≡ self.old) }
        ensures out { IfSome result (λ opened. (place : ℕ) × (one : AnImage) × (slice_get self.old.images.items place ≡ Some one) × (opened ≡ one.opened) × (string_bytes one.path ≡ path.now) × (self.new.images.items ≡ remove self.old.images.items place) × (self.new.taken ≡ self.old.taken)) }
        ensures none { first_image path.now self.old.images.items ≡ None → (result ≡ None) × (self.new ≡ self.old) }
        ensures some { (place : ℕ) (one : AnImage) → first_image path.now self.old.images.items ≡ Some place → slice_get self.old.images.items place ≡ Some one → (result ≡ Some one.opened) × (self.new.images.items ≡ remove self.old.images.items place) }
    {
        match image_at(self.images.as_slice(), path) {
            Some(place) => Some(self.images.remove(place).opened),
            None => None,
        }
    }

    /// Removes and returns the first unused contents of a host file that were read early.
    pub(crate) fn take(&mut self, path: &str) -> Option<Result<Vec<u8>, HostFault>>
        ensures left { IfNone result (self.new ≡ self.old) }
        ensures out { IfSome result (λ bytes. (place : ℕ) × (one : Read) × (slice_get self.old.taken.items place ≡ Some one) × (bytes ≡ one.bytes) × (string_bytes one.path ≡ path.now) × (self.new.taken.items ≡ remove self.old.taken.items place) × (self.new.images ≡ self.old.images)) }
        ensures none { first_at path.now self.old.taken.items ≡ None → (result ≡ None) × (self.new ≡ self.old) }
        ensures some { (place : ℕ) (one : Read) → first_at path.now self.old.taken.items ≡ Some place → slice_get self.old.taken.items place ≡ Some one → (result ≡ Some one.bytes) × (self.new.taken.items ≡ remove self.old.taken.items place) }
    {
        match place_at(self.taken.as_slice(), path) {
            Some(place) => Some(self.taken.remove(place).bytes),
            None => None,
        }
    }
}

/// Returns how many bytes an archive may have if the files of a volume may have `room` bytes. A file has a header on the volume, and up to four
/// blocks more in an archive.
pub fn archive_room(room: Option<u64>) -> Option<u64>
    ensures { MatchOption room (result ≡ None) (λ bytes. IfSome result (λ most. bytes ≤ most)) }
{
    match room {
        Some(bytes) => Some(bytes.saturating_mul(4).saturating_add(65_536)),
        None => None,
    }
}

/// Adds what was read of a host file.
fn push_taken(taken: &mut Vec<Taken>, one: Taken) -> Result<(), AllocError>
    ensures { OnOk result (taken.new.items ≡ taken.old.items ++ one ∷ []) }
{
    match taken.push(one) {
        Ok(()) => Ok(()),
        Err(_) => Err(AllocError),
    }
}

/// The place of the first that was read at this path.
fn place_at(taken: &[Taken], path: &str) -> Option<usize>
    ensures first { result ≡ first_at path.now taken.now }
    ensures within { IfSome result (λ place. place < length taken.now) }
{
    taken.iter().position(|one| one.path.as_str() == path)
}

/// Adds what was read of another image.
fn push_image(images: &mut Vec<OtherImage>, one: OtherImage) -> Result<(), AllocError>
    ensures { OnOk result (images.new.items ≡ images.old.items ++ one ∷ []) }
{
    match images.push(one) {
        Ok(()) => Ok(()),
        Err(_) => Err(AllocError),
    }
}

/// The place of the first image that was read from this path.
fn image_at(images: &[OtherImage], path: &str) -> Option<usize>
    ensures first { result ≡ first_image path.now images.now }
    ensures within { IfSome result (λ place. place < length images.now) }
{
    images.iter().position(|one| one.path.as_str() == path)
}

/// How many bytes may be read behind these.
fn room_behind(room: u64, bytes: &Result<Vec<u8>, HostFault>) -> u64
    ensures { MatchResult bytes.now (λ bytes. result ≡ room - vec_len bytes) (λ _. result ≡ room) }
{
    match bytes {
        Ok(bytes) => room.saturating_sub(bytes.len() as u64),
        Err(_) => room,
    }
}

/// Returns the words of a `put` that name host files: all but the last, if there are several.
pub fn hosts<'w, 'a>(words: &'w [&'a str]) -> &'w [&'a str]
    ensures { result.now ≡ hosts_among words.now }
{
    let count = count_hosts(words.len());
    &words[..count]
}

/// The words behind the first.
fn behind_first<'w, 'a>(words: &'w [&'a str]) -> &'w [&'a str]
    ensures { result.now ≡ drop (min (length words.now) 1) words.now }
{
    let first = words.len().min(1);
    &words[first..]
}

/// How many of so many words name host files.
fn count_hosts(words: usize) -> usize
    ensures count { result ≡ host_count words }
    ensures within { result ≤ words }
{
    if 1 < words { words - 1 } else { words }
}

/// Whether there is something at this path that is read as a stream.
fn is_stream<R: Files>(rt: &R, path: &str) -> bool {
    match fs::metadata(rt, path) {
        Ok(found) => !found.is_file() && !found.is_dir(),
        Err(_) => false,
    }
}
