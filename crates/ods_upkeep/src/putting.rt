//! `put`: puts files of the host one by one.
ghost use Rattle.std.specs.Prelude.{◌≡◌, ◌≢◌, is_some, not, ◌&&◌, false, true, None, Some, IfErr, IfOk, MatchResult, OnErr, OnOk};
ghost use Rattle.std.specs.String.{string_bytes};
ghost use Rattle.ods_upkeep.specs.{Begun.AreKept, Begun.AreNames, Begun.IsBegun, Begun.count_of, Begun.keeps_form, Begun.path_to};
ghost use Rattle.ods_upkeep.specs.{HostPut.AreCountedOn, HostPut.AreNotedOn, HostPut.IsFormFor, HostPut.IsFormerFor, HostPut.IsHostPut, HostPut.IsPutAs, HostPut.IsRemarkFor, HostPut.IsStill, HostPut.IsVersionFor};
ghost use Rattle.ods_upkeep.specs.declared.asked.Placing.TheVariants.{InOnePiece};
ghost use Rattle.ods_upkeep.specs.{Left.at_time, Left.replaced_version, Left.replaces, Legs.IsPutLed, PutFor.IsPut, Ready.MayHaveGrown, Refused.HasPath, Refused.IsOutOfMemory, Refused.no_memory, Remarks.BeginsChanged, Remarks.IsRemarkOn, Remarks.changed_from as changed_from_it, Remarks.is_same_form as same_form};
ghost use Rattle.ods_upkeep.specs.{Unbegun.IsNotBegun, Unput.IsNotPut, Unput.IsNotStored, Written.bytes_of};

use crate::asking::put_new;
use crate::attributes::are_zeros;
use crate::failure::{Failure, Why, of_path};
use crate::host_names::name_for;
use crate::keeping::{attributes_before, kept_form};
use crate::like_files::{attributes_in, like_facts, placing_asked};
use crate::looking::next_version;
use crate::names::Names;
use crate::readying::make_ready;
use crate::replaced::{keep_access, placing_kept};
use crate::rooms::make_room;
use crate::target::Target;
use crate::targets::target_of;
use crate::versions::Highest;
use crate::written::{Written, write_host};
use crate::{HostFile, Placing, PutForm};
use ods_base::{DIRECTORY_TYPE, FileId, Name, Uic};
use ods_filing::{Filing, NewFile, blocks_for};
use ods_mount::Mounted;
use ods_records::{NearText, print_form};
use ods_request::Stamp;
use std::alloc::Global;
use std::marker::Model;

/// How files are put one by one. The target and the model file are looked up before the first.
#[derive(Drop)]
pub struct Putting {
    target: Target,
    stamp: Stamp,
    form: PutForm,
    like: Option<[u8; 32]>,
    /// Whether a file keeps the form of the version before it.
    keeps: bool,
    /// Where the blocks of a file are allocated. Without a value, they are in one piece if the file that it replaces is contiguous.
    placing: Option<Placing>,
    /// The owner of the new files, if it differs from the requesting user.
    owner: Option<Uic>,
    /// How many entries name each file, if files are replaced.
    names: Option<Names>,
    /// The highest version of each name in the directory, if several files are put and none is replaced.
    highest: Option<Highest>,
}

impl Model for Putting {
    ghost use Rattle.ods_upkeep.specs.Left.{InPut};

    ghost Value = { InPut };

    ghost view = { λ p. record { target = p.target; stamp = p.stamp; form = p.form; like = p.like; keeps = p.keeps; placing = p.placing; owner = p.owner; names = p.names; highest = p.highest } };
}

impl Putting {
    /// Looks up the target: an existing directory, or a name; without a target the master directory. With `like` the records of the new files are
    /// written like the records of that file. As bytes, they get all its attributes except the end of file. `placing` determines the location of the
    /// blocks; without it, they are in one piece if that file is contiguous. With `replace`, a file with the name, and with the given version or else
    /// the highest, makes room for the new one, which keeps its protection, its characteristics, and its owner if the user may give it. With `owner`
    /// that user owns and makes the new files; the requesting user enters them.
    /// With `ByContents` and without `like`, a file keeps the form of the version before it, if `get` then gives the bytes of the host file.
    pub fn begin(
        alloc: Global,
        volume: &Mounted,
        stamp: Stamp,
        to: Option<&str>,
        several: bool,
        form: PutForm,
        like: Option<&str>,
        placing: Option<Placing>,
        replace: bool,
        owner: Option<Uic>,
    ) -> Result<Putting, Failure>
        ensures { MatchResult result (IsBegun volume.now.image volume.now.layout stamp to.entry several form like.entry placing replace owner)
            (IsNotBegun volume.now.image volume.now.layout to.entry several like.entry replace) }
    {
        let target = target_of(alloc, volume, count_of(several), path_to(to))?;
        let facts = like_facts(alloc, volume, like)?;
        let names = count_names(alloc, volume, replace)?;
        let keeps = keeps_versions(several, replace);
        let highest = highest_versions(alloc, volume, target.directory, keeps)?;
        Ok(Putting {
            target,
            stamp,
            form,
            like: attributes_in(&facts),
            keeps: keeps_form(form, like),
            placing: placing_asked(placing, &facts),
            owner,
            names,
            highest,
        })
    }

    /// Requests the headers of `files` files, before the first of them is put.
    pub fn make_ready(&self, filing: &mut Filing, files: usize)
        ensures { MayHaveGrown files filing.old filing.new }
    {
        make_ready(filing, files, self.placing.unwrap_or(Placing::Anywhere));
    }

    /// Sets the date and time of creation of the files that are put from now on.
    pub fn set_time(&mut self, stamp: Stamp)
        ensures { self.new ≡ at_time self.old stamp }
    {
        self.stamp = stamp;
    }

    /// Puts one file. Returns its remark, if there is one.
    pub fn put(
        &mut self,
        alloc: Global,
        filing: &mut Filing,
        host: &HostFile<'_>,
    ) -> Result<Option<String>, Failure>
        // It has the name, the attributes and the bytes that the host file gives, and what is known is what is there then.
        ensures done { OnOk result (IsHostPut self.old host.now.name.now host.now.bytes.now filing.old self.new filing.new) }
        // Its owner makes the file, and the user enters it. Where files are replaced, he makes room before that, and gives it then what it keeps.
        ensures volume { OnOk result (IsPut (replaces self.old) self.old.placing self.old.owner filing.old filing.new) }
        // Where no owner is said, and blocks may stand anywhere, it is what LookUp, Create, Extend, Write, SetUser and Enter leave, and where files are replaced, Stat, Remove and Delete besides. Then the characteristics, the protection and the owner of the replaced file are set, the owner if the user may.
        ensures own { self.old.owner ≡ None → self.old.placing ≢ Some InOnePiece → OnOk result (IsPutLed (replaces self.old) self.old.placing filing.old filing.new) }
        ensures still { IsStill self.old self.new }
        ensures remark { IfOk result (IsRemarkFor self.old host.now.name.now host.now.bytes.now filing.old) }
        // Refused, it is so for a reason that holds, of the host file, and what was done for that is said.
        ensures refused { IfErr result (λ failure. IsNotPut self.old host.now.name.now host.now.bytes.now filing.old filing.new failure.why × HasPath failure host.now.name.now) }
    {
        match self.put_one(alloc, filing, host) {
            Ok(remark) => Ok(remark),
            Err(why) => Err(of_path(alloc, host.name, why)),
        }
    }

    /// Returns how one file is put to a target, by its contents or in a given form.
    pub(crate) fn one(
        target: Target,
        stamp: Stamp,
        form: PutForm,
        placing: Placing,
        whose: Option<Uic>,
    ) -> Putting
        ensures { result ≡ record { target = target; stamp = stamp; form = form; like = None; keeps = false; placing = Some placing; owner = whose; names = None; highest = None } }
    {
        Putting {
            target,
            stamp,
            form,
            like: None,
            keeps: false,
            placing: Some(placing),
            owner: whose,
            names: None,
            highest: None,
        }
    }

    /// Puts one file.
    pub(crate) fn put_one(
        &mut self,
        alloc: Global,
        filing: &mut Filing,
        host: &HostFile<'_>,
    ) -> Result<Option<String>, Why>
        ensures done { OnOk result (IsHostPut self.old host.now.name.now host.now.bytes.now filing.old self.new filing.new) }
        ensures still { IsStill self.old self.new }
        ensures remark { IfOk result (IsRemarkFor self.old host.now.name.now host.now.bytes.now filing.old) }
        ensures refused { IfErr result (IsNotPut self.old host.now.name.now host.now.bytes.now filing.old filing.new) }
    {
        let name = name_for(alloc, self.target.name, host.name)?;
        if name.ext() == DIRECTORY_TYPE {
            return Err(Why::DirectoryType);
        }
        let (form, like, former) = form_for(
            alloc,
            filing,
            self.keeps,
            self.form,
            &self.like,
            self.target.directory,
            &name,
            &self.names,
            self.target.version,
            host.bytes,
        )?;
        let written = write_host(alloc, form, &like, host.bytes)?;
        let remark = remark(alloc, &written, &former)?;
        self.put_written(alloc, filing, name, &written)?;
        Ok(remark)
    }

    /// Puts what was written under this name.
    fn put_written(
        &mut self,
        alloc: Global,
        filing: &mut Filing,
        name: Name,
        written: &Written<'_>,
    ) -> Result<(), Why>
        ensures done { OnOk result (IsPutAs self.old name written.now.attributes (bytes_of written.now) filing.old self.new filing.new) }
        ensures still { IsStill self.old self.new }
        ensures refused { IfErr result (IsNotStored self.old name written.now.attributes (bytes_of written.now) filing.old filing.new) }
    {
        let dir = self.target.directory;
        let said = self.target.version;
        let (free, held) = make_room(filing, dir, name, said, &mut self.names)?;
        let said = free.or(said);
        let version = version_of(filing, dir, name, said, &self.highest);
        let file = NewFile {
            name,
            version,
            stamp: self.stamp,
            attributes: written.attributes,
            bytes: written.bytes(),
        };
        let owner = self.owner.unwrap_or(filing.user());
        let placing = placing_kept(self.placing, &held);
        let blocks = blocks_for(file.bytes);
        let id = put_new(alloc, filing, placing, owner, dir, said, &file)?;
        keep_access(filing, id, self.owner, placing, blocks, &held)?;
        count_name(&mut self.names, id);
        note_version(&mut self.highest, &name, version)
    }
}

/// The path of the target: the one that is said, or that of the master directory.
fn path_to<'a>(to: Option<&'a str>) -> &'a str
    ensures { result.now ≡ path_to to.entry }
{
    match to {
        Some(path) => path,
        None => "[0,0]",
    }
}

/// For how many files the target is looked up.
fn count_of(several: bool) -> usize
    ensures { result ≡ count_of several }
{
    if several { 2 } else { 1 }
}

/// Whether the highest versions are looked up at the beginning: several files are put, and none is replaced.
fn keeps_versions(several: bool, replace: bool) -> bool
    ensures { result ≡ (several && not replace) }
{
    several && !replace
}

/// Whether files keep the form of the version before: no form is said, and no model file.
fn keeps_form(form: PutForm, like: Option<&str>) -> bool
    ensures { result ≡ keeps_form form like.entry }
{
    form == PutForm::ByContents && like.is_none()
}

/// The version that is replaced, where files are replaced and a version is said.
fn replaced_version(names: &Option<Names>, said: Option<u16>) -> Option<u16>
    ensures { result ≡ replaced_version names.now said }
{
    match names {
        Some(_) => said,
        None => None,
    }
}

/// The form in which a file is put, and the attributes of its model file: those that are said, or those that it keeps of the version before. The third
/// part is the attributes of that version, if its form is not kept.
fn form_for(
    alloc: Global,
    filing: &Filing,
    keeps: bool,
    form: PutForm,
    like: &Option<[u8; 32]>,
    dir: FileId,
    name: &Name,
    names: &Option<Names>,
    said: Option<u16>,
    bytes: &[u8],
) -> Result<(PutForm, Option<[u8; 32]>, Option<[u8; 32]>), Why>
    ensures ok { IfOk result (λ r. IsFormFor keeps form like.now dir name.now names.now said bytes.now filing.now r.0 r.1) }
    ensures former { IfOk result (λ r. IsFormerFor keeps dir name.now names.now said bytes.now filing.now r.2) }
    ensures err { IfErr result (λ why. (why ≡ no_memory) × (keeps ≡ true)) }
{
    if !keeps {
        return Ok((form, *like, None));
    }
    let disk = filing.disk();
    let said = replaced_version(names, said);
    let before = attributes_before(alloc, &disk, dir, name, said)?;
    Ok(kept_form(&before, bytes))
}

/// How many entries name each file, where that is asked for.
fn count_names(alloc: Global, volume: &Mounted, replace: bool) -> Result<Option<Names>, Failure>
    ensures { MatchResult result (AreNames volume.now.image volume.now.layout replace) (λ failure. (replace ≡ true) × IsOutOfMemory failure) }
{
    if !replace {
        return Ok(None);
    }
    match Names::of(alloc, volume) {
        Ok(names) => Ok(Some(names)),
        Err(error) => Err(of_path(alloc, "", error.into())),
    }
}

/// The highest version of each name in a directory, where that is asked for.
fn highest_versions(
    alloc: Global,
    volume: &Mounted,
    directory: FileId,
    is_wanted: bool,
) -> Result<Option<Highest>, Failure>
    ensures { MatchResult result (AreKept volume.now.image volume.now.layout is_wanted directory) (λ failure. (is_wanted ≡ true) × IsOutOfMemory failure) }
{
    if !is_wanted {
        return Ok(None);
    }
    match Highest::of(alloc, volume, directory) {
        Ok(highest) => Ok(Some(highest)),
        Err(error) => Err(of_path(alloc, "", error.into())),
    }
}

/// The version under which a name is entered next: the one that is said, the one behind the highest that is known, or behind the one that is
/// looked up.
fn version_of(
    filing: &mut Filing,
    dir: FileId,
    name: Name,
    said: Option<u16>,
    highest: &Option<Highest>,
) -> u16
    ensures { IsVersionFor highest.now filing.old dir name said result filing.new }
{
    match said {
        Some(version) => version,
        None => match highest {
            Some(highest) => highest.next(&name),
            None => next_version(filing, dir, name, None),
        },
    }
}

/// One entry more names the file, where names are counted.
fn count_name(names: &mut Option<Names>, file: FileId)
    ensures counted { AreCountedOn names.old file names.new }
    ensures replaces { is_some names.new ≡ is_some names.old }
{
    if let Some(names) = names {
        names.add(file);
    }
}

/// This version of the name is there too, where the highest versions are known.
fn note_version(highest: &mut Option<Highest>, name: &Name, version: u16) -> Result<(), Why>
    ensures ok { OnOk result (AreNotedOn highest.old name.now version highest.new) }
    ensures err { IfErr result (λ why. (why ≡ no_memory) × (is_some highest.old ≡ true)) }
{
    if let Some(highest) = highest {
        highest.note(name, version)?;
    }
    Ok(())
}

/// What is to be remarked of a file that was put, after a version with the former attributes, if the form of one is not kept.
fn remark(
    alloc: Global,
    written: &Written<'_>,
    former: &Option<[u8; 32]>,
) -> Result<Option<String>, Why>
    ensures { MatchResult result (IsRemarkOn (changed_from_it former.now written.now.attributes) written.now.is_completed written.now.near)
        (λ why. (why ≡ no_memory) × ¬ IsRemarkOn (changed_from_it former.now written.now.attributes) written.now.is_completed written.now.near None) }
{
    match changed_from(former, &written.attributes) {
        Some(former) => {
            let text = remark_on_change(alloc, &former, written)?;
            Ok(Some(text))
        }
        None => remark_on_bytes(alloc, written),
    }
}

/// The attributes of the version before, if they state a form and the file has another one.
fn changed_from(former: &Option<[u8; 32]>, attributes: &[u8; 32]) -> Option<[u8; 32]>
    ensures { result ≡ changed_from_it former.now attributes.now }
{
    let Some(former) = former else {
        return None;
    };
    if are_zeros(former) || is_same_form(former, attributes) {
        return None;
    }
    Some(*former)
}

/// Whether attributes state the same record type and the same carriage control.
fn is_same_form(former: &[u8; 32], attributes: &[u8; 32]) -> bool
    ensures { result ≡ same_form former.now attributes.now }
{
    former[0] % 16 == attributes[0] % 16 && former[1] % 16 == attributes[1] % 16
}

/// The remark on a form that has changed, and on the bytes.
fn remark_on_change(alloc: Global, former: &[u8; 32], written: &Written<'_>) -> Result<String, Why>
    ensures ok { IfOk result (λ text. BeginsChanged (string_bytes text)) }
    ensures err { IfErr result (λ why. why ≡ no_memory) }
{
    let more = text_behind(alloc, written)?;
    let from = print_form(&front(former));
    let to = print_form(&front(&written.attributes));
    let forms = format!(in alloc; "{from} to {to}{more}")?;
    let mut text = String::from_str(alloc, "the form changed from ")?;
    text.push_str(forms.as_str())?;
    Ok(text)
}

/// The first four bytes of attributes.
fn front(attributes: &[u8; 32]) -> [u8; 4] {
    [attributes[0], attributes[1], attributes[2], attributes[3]]
}

/// The remark on the bytes as it comes behind another one.
fn text_behind(alloc: Global, written: &Written<'_>) -> Result<String, Why>
    ensures { IfErr result (λ why. why ≡ no_memory) }
{
    match remark_on_bytes(alloc, written)? {
        Some(text) => Ok(format!(in alloc; "; {text}")?),
        None => Ok(String::new(alloc)),
    }
}

/// What is to be remarked of the bytes of a file that was put.
fn remark_on_bytes(alloc: Global, written: &Written<'_>) -> Result<Option<String>, Why>
    ensures { MatchResult result (IsRemarkOn None written.now.is_completed written.now.near) (λ why. (why ≡ no_memory) × ¬ IsRemarkOn None written.now.is_completed written.now.near None) }
{
    if written.is_completed {
        let text = String::from_str(alloc, "the last line has no LF, and became a record")?;
        return Ok(Some(text));
    }
    let Some(near) = written.near else {
        return Ok(None);
    };
    let mut text = format!(in alloc; "stored as bytes, because {near}")?;
    if near != NearText::LongLine {
        text.push_str("; -t stores lines as records")?;
    }
    Ok(Some(text))
}
