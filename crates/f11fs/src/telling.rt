//! The effect of a change on a volume: a line for each path that is added, removed or changed, and for each file without a path.
ghost use Rattle.std.specs.Prelude.{◌≡◌, ◌≢◌, ◌↔◌, ◌⊎◌, ◌<◌, ℕ, List, Option, false, true, IsTrue, IfOk, IfSome, OnOk, Some, length, replicate, set, slice_get, slice_index_or, string_bytes};
ghost use Rattle.std.specs.List.{range_with_len};
ghost use Rattle.std.specs.Option.{option_copied};
ghost use Rattle.ods_base.specs.declared.file_id.FileId.{FileId as Id};
ghost use Rattle.fs_reads.specs.{Alike.IsNamedBy, Alike.has_path, Paths.AreAllPaths, Paths.AreInOrder, Shown.Extends};
ghost use Rattle.f11fs.specs.Plans.{AreTold, DifferBy, IsIdOf, IsKnownAt, IsNumberOf, IsNumbered, IsPlan, IsReached, IsToldOfFile, IsToldOfLabel, IsToldOfLeft, IsToldOfNew, IsToldOfNumber, IsToldOfOld, IsToldOfPath, IsToldWhere, Tells, id_text, label_told, line_where, plan_line};
ghost use Rattle.ods_shell.specs.Facts.{AreFacts};
ghost use Rattle.ods_shell.specs.declared.facts.Facts.{Facts as AFacts};

use fs_reads::{Known, Stop, all_known, difference_by_id, place_of};
use ods_base::FileId;
use ods_mount::Mounted;
use ods_shell::mounted::{facts_by_id, facts_of};
use ods_shell::{Facts, label_text, text_object, volume_info};
use std::alloc::{AllocError, Global};

/// The lines of a plan, or its objects.
#[derive(Drop)]
struct Plan {
    alloc: Global,
    json: bool,
    text: String,
}

/// In what a file that is there before and afterwards differs.
#[derive(Clone, Copy)]
struct Differs {
    /// In its attributes or bytes.
    contents: bool,
    protection: bool,
    owner: bool,
}

impl Plan {
    /// Adds what is done to a path.
    fn add(&mut self, done: &str, path: &str) -> Result<(), AllocError>
        ensures line { OnOk result (Tells self.old (plan_line self.old.json done.now path.now) self.new) }
        ensures more { OnOk result (Extends (string_bytes self.old.text) (string_bytes self.new.text)) }
        ensures mode { self.new.json ≡ self.old.json }
    {
        if self.json {
            let object = text_object(self.alloc, done, path)?;
            return self.text.push_str(object.as_str());
        }
        writeln!(self.text, "{done} {path}")
    }

    /// Adds what is done to a file without a path.
    fn add_file(&mut self, done: &str, file: FileId) -> Result<(), AllocError>
        ensures line { OnOk result (Tells self.old (plan_line self.old.json done.now (id_text file)) self.new) }
        ensures more { OnOk result (Extends (string_bytes self.old.text) (string_bytes self.new.text)) }
        ensures mode { self.new.json ≡ self.old.json }
    {
        let id = text_of_id(self.alloc, file)?;
        self.add(done, id.as_str())
    }
}

/// The ID of a file without a path, as it is told.
fn text_of_id(alloc: Global, file: FileId) -> Result<String, AllocError>
    ensures { IfOk result (λ text. string_bytes text ≡ id_text file) }
{
    let FileId { number, sequence } = file;
    format!(in alloc; "#{number},{sequence}")
}

/// Returns the text of a plan. It has a line, or an object, for each path that is in only one of the volumes or whose file differs. So has each file
/// without a path. The last line is about the label, if it differs.
pub fn plan_text<'a>(
    alloc: Global,
    before: &Mounted,
    after: &Mounted,
    json: bool,
) -> Result<String, Stop<'a>>
    ensures { IfOk result (λ text. IsPlan json 65535 before.now after.now (string_bytes text)) }
{
    plan_up_to(alloc, before, after, json, u16::MAX)
}

/// The text of a plan that has the files up to this number.
fn plan_up_to<'a>(
    alloc: Global,
    before: &Mounted,
    after: &Mounted,
    json: bool,
    most: u16,
) -> Result<String, Stop<'a>>
    ensures { IfOk result (λ text. IsPlan json most before.now after.now (string_bytes text)) }
{
    let old = all_known(alloc, before, None)?;
    let new = all_known(alloc, after, None)?;
    plan_of(alloc, before, &old, after, &new, json, most)
}

/// The text of a plan by the paths of both volumes.
fn plan_of<'a>(
    alloc: Global,
    before: &Mounted,
    old: &[Known],
    after: &Mounted,
    new: &[Known],
    json: bool,
    most: u16,
) -> Result<String, Stop<'a>>
    ensures { AreAllPaths before.now.image before.now.layout old.now → AreAllPaths after.now.image after.now.layout new.now
        → IfOk result (λ text. IsPlan json most before.now after.now (string_bytes text)) }
{
    let mut plan = Plan {
        alloc,
        json,
        text: String::new(alloc),
    };
    add_gone(old, new, &mut plan)?;
    add_come(alloc, before, old, after, new, &mut plan)?;
    add_left(alloc, before, old, after, new, most, &mut plan)?;
    add_label(before, after, &mut plan)?;
    Ok(plan.text)
}

/// Adds the paths that are there before alone.
fn add_gone(old: &[Known], new: &[Known], plan: &mut Plan) -> Result<(), AllocError>
    ensures told { AreInOrder new.now → OnOk result ((told : List ℕ) × AreTold (IsToldOfOld plan.old.json new.now) old.now told × Tells plan.old told plan.new) }
    ensures mode { plan.new.json ≡ plan.old.json }
{
    for one in old {
        add_old(one, new, plan)?;
    }
    Ok(())
}

/// Adds that a path goes, where it is none of those afterwards.
fn add_old(one: &Known, new: &[Known], plan: &mut Plan) -> Result<(), AllocError>
    ensures told { AreInOrder new.now → OnOk result ((told : List ℕ) × IsToldOfOld plan.old.json new.now one.now told × Tells plan.old told plan.new) }
    ensures mode { plan.new.json ≡ plan.old.json }
{
    let path = one.path.as_str();
    match known_at(new, path) {
        Some(_) => Ok(()),
        None => plan.add("remove", path),
    }
}

/// Adds what is done to each path that is there afterwards.
fn add_come<'a>(
    alloc: Global,
    before: &Mounted,
    old: &[Known],
    after: &Mounted,
    new: &[Known],
    plan: &mut Plan,
) -> Result<(), Stop<'a>>
    ensures told { AreInOrder old.now → OnOk result ((told : List ℕ) × AreTold (IsToldOfNew plan.old.json (λ a b d. DifferBy before.now a after.now b d) old.now) new.now told × Tells plan.old told plan.new) }
    ensures mode { plan.new.json ≡ plan.old.json }
{
    for one in new {
        add_new(alloc, before, old, after, one, plan)?;
    }
    Ok(())
}

/// Adds what is done to a path that is there afterwards, by those before.
fn add_new<'a>(
    alloc: Global,
    before: &Mounted,
    old: &[Known],
    after: &Mounted,
    one: &Known,
    plan: &mut Plan,
) -> Result<(), Stop<'a>>
    ensures told { AreInOrder old.now → OnOk result ((told : List ℕ) × IsToldOfNew plan.old.json (λ a b d. DifferBy before.now a after.now b d) old.now one.now told × Tells plan.old told plan.new) }
    ensures mode { plan.new.json ≡ plan.old.json }
{
    let known = known_at(old, one.path.as_str());
    add_path(alloc, before, known, after, one, plan)
}

/// Adds what is done to each file up to this number to which no path leads.
fn add_left<'a>(
    alloc: Global,
    before: &Mounted,
    old: &[Known],
    after: &Mounted,
    new: &[Known],
    most: u16,
    plan: &mut Plan,
) -> Result<(), Stop<'a>>
    ensures told { OnOk result ((told : List ℕ) × AreTold (IsToldOfLeft plan.old.json before.now old.now after.now new.now) (range_with_len 1 most) told × Tells plan.old told plan.new) }
    ensures mode { plan.new.json ≡ plan.old.json }
{
    let named = named_numbers(alloc, before, old, after, new, most as usize + 1)?;
    for past in 0..most {
        let number = past + 1;
        let is_named = is_noted(&named, number);
        add_unnamed(alloc, before, after, is_named, number, plan)?;
    }
    Ok(())
}

/// Adds what is done to the file with this number, where no path leads to it.
fn add_unnamed<'a>(
    alloc: Global,
    before: &Mounted,
    after: &Mounted,
    is_named: bool,
    number: u16,
    plan: &mut Plan,
) -> Result<(), Stop<'a>>
    ensures told { OnOk result ((told : List ℕ) × IsToldWhere plan.old.json is_named before.now after.now number told × Tells plan.old told plan.new) }
    ensures mode { plan.new.json ≡ plan.old.json }
{
    if is_named {
        return Ok(());
    }
    add_number(alloc, before, after, number, plan)
}

/// Adds what is done to a path that is there afterwards.
fn add_path<'a>(
    alloc: Global,
    before: &Mounted,
    known: Option<&Known>,
    after: &Mounted,
    one: &Known,
    plan: &mut Plan,
) -> Result<(), Stop<'a>>
    ensures told { OnOk result ((told : List ℕ) × IsToldOfPath plan.old.json (λ a b d. DifferBy before.now a after.now b d) (option_copied known.entry) one.now told × Tells plan.old told plan.new) }
    ensures more { OnOk result (Extends (string_bytes plan.old.text) (string_bytes plan.new.text)) }
    ensures mode { plan.new.json ≡ plan.old.json }
{
    let path = one.path.as_str();
    match known {
        None => Ok(plan.add("make", path)?),
        // INDEXF.SYS and BITMAP.SYS change with any file.
        Some(known) if known.file.number <= 2 => Ok(()),
        Some(known) if known.file != one.file => Ok(plan.add("replace", path)?),
        Some(known) => add_changed(alloc, before, known.file, after, one.file, path, plan),
    }
}

/// Adds that the file with these IDs, before and afterwards, has changed, where it has.
fn add_changed<'a>(
    alloc: Global,
    before: &Mounted,
    old: FileId,
    after: &Mounted,
    new: FileId,
    what: &str,
    plan: &mut Plan,
) -> Result<(), Stop<'a>>
    ensures told { OnOk result ((told : List ℕ) × IsToldOfFile plan.old.json (λ a b d. DifferBy before.now a after.now b d) old new what.now told × Tells plan.old told plan.new) }
    ensures more { OnOk result (Extends (string_bytes plan.old.text) (string_bytes plan.new.text)) }
    ensures mode { plan.new.json ≡ plan.old.json }
{
    let differs = differences(alloc, before, old, after, new)?;
    add_where(plan, differs.contents, "change", what)?;
    add_where(plan, differs.protection, "chmod", what)?;
    add_where(plan, differs.owner, "chown", what)?;
    Ok(())
}

/// Adds what is done to a path, where it is done.
fn add_where(plan: &mut Plan, is_done: bool, done: &str, what: &str) -> Result<(), AllocError>
    ensures line { OnOk result (Tells plan.old (line_where plan.old.json is_done done.now what.now) plan.new) }
    ensures more { OnOk result (Extends (string_bytes plan.old.text) (string_bytes plan.new.text)) }
    ensures mode { plan.new.json ≡ plan.old.json }
{
    match is_done {
        true => plan.add(done, what),
        false => Ok(()),
    }
}

/// In what the file with these IDs, before and afterwards, differs.
fn differences<'a>(
    alloc: Global,
    before: &Mounted,
    old: FileId,
    after: &Mounted,
    new: FileId,
) -> Result<Differs, Stop<'a>>
    ensures { IfOk result (DifferBy before.now old after.now new) }
{
    let difference = difference_by_id(alloc, before, old, after, new)?;
    let (was, is) = (facts_by_id(before, old), facts_by_id(after, new));
    Ok(Differs {
        contents: difference.is_some(),
        protection: has_other_protection(&was, &is),
        owner: has_other_owner(&was, &is),
    })
}

/// Whether a file has another protection.
fn has_other_protection(was: &Option<Facts>, is: &Option<Facts>) -> bool
    ensures { IsTrue result ↔ (a : AFacts) × (b : AFacts) × (was.now ≡ Some a) × (is.now ≡ Some b) × (a.protection ≢ b.protection) }
{
    match (was, is) {
        (Some(was), Some(is)) => was.protection != is.protection,
        _ => false,
    }
}

/// Whether a file has another owner.
fn has_other_owner(was: &Option<Facts>, is: &Option<Facts>) -> bool
    ensures { IsTrue result ↔ (a : AFacts) × (b : AFacts) × (was.now ≡ Some a) × (is.now ≡ Some b) × (a.owner ≢ b.owner) }
{
    match (was, is) {
        (Some(was), Some(is)) => was.owner != is.owner,
        _ => false,
    }
}

/// Adds the label, where it is another.
fn add_label(before: &Mounted, after: &Mounted, plan: &mut Plan) -> Result<(), AllocError>
    ensures told { OnOk result ((told : List ℕ) × IsToldOfLabel plan.old.json before.now after.now told × Tells plan.old told plan.new) }
    ensures mode { plan.new.json ≡ plan.old.json }
{
    let was = volume_info(&before.disk());
    let is = volume_info(&after.disk());
    add_other_label(&was.label, &is.label, plan)
}

/// Adds the second label, where it is not the first.
fn add_other_label(was: &[u8; 12], is: &[u8; 12], plan: &mut Plan) -> Result<(), AllocError>
    ensures line { OnOk result (Tells plan.old (label_told plan.old.json was.now is.now) plan.new) }
    ensures mode { plan.new.json ≡ plan.old.json }
{
    if was == is {
        return Ok(());
    }
    plan.add("label", label_text(is).as_str())
}

/// Adds what is done to the file with this number, which has no path, neither before nor afterwards.
fn add_number<'a>(
    alloc: Global,
    before: &Mounted,
    after: &Mounted,
    number: u16,
    plan: &mut Plan,
) -> Result<(), Stop<'a>>
    ensures told { OnOk result ((old : Option Id) × ((new : Option Id) × ((told : List ℕ) × IsIdOf (AreFacts before.now.image before.now.layout number) old × IsIdOf (AreFacts after.now.image after.now.layout number) new
        × IsToldOfNumber plan.old.json (λ a b d. DifferBy before.now a after.now b d) old new told × Tells plan.old told plan.new))) }
    ensures more { OnOk result (Extends (string_bytes plan.old.text) (string_bytes plan.new.text)) }
    ensures mode { plan.new.json ≡ plan.old.json }
{
    let (old, new) = (id_of(before, number), id_of(after, number));
    add_ids(alloc, before, old, after, new, plan)
}

/// Adds what is done to a file of these IDs, before and afterwards, which has no path.
fn add_ids<'a>(
    alloc: Global,
    before: &Mounted,
    old: Option<FileId>,
    after: &Mounted,
    new: Option<FileId>,
    plan: &mut Plan,
) -> Result<(), Stop<'a>>
    ensures told { OnOk result ((told : List ℕ) × IsToldOfNumber plan.old.json (λ a b d. DifferBy before.now a after.now b d) old new told × Tells plan.old told plan.new) }
    ensures more { OnOk result (Extends (string_bytes plan.old.text) (string_bytes plan.new.text)) }
    ensures mode { plan.new.json ≡ plan.old.json }
{
    match (old, new) {
        (None, None) => Ok(()),
        (Some(old), None) => Ok(plan.add_file("remove", old)?),
        (None, Some(new)) => Ok(plan.add_file("make", new)?),
        (Some(old), Some(new)) => add_both(alloc, before, old, after, new, plan),
    }
}

/// Adds what is done to a file without a path, which has this ID before, and that one afterwards.
fn add_both<'a>(
    alloc: Global,
    before: &Mounted,
    old: FileId,
    after: &Mounted,
    new: FileId,
    plan: &mut Plan,
) -> Result<(), Stop<'a>>
    ensures told { OnOk result ((told : List ℕ) × IsToldOfNumber plan.old.json (λ a b d. DifferBy before.now a after.now b d) (Some old) (Some new) told × Tells plan.old told plan.new) }
    ensures more { OnOk result (Extends (string_bytes plan.old.text) (string_bytes plan.new.text)) }
    ensures mode { plan.new.json ≡ plan.old.json }
{
    if old == new {
        let id = text_of_id(alloc, new)?;
        return add_changed(alloc, before, old, after, new, id.as_str(), plan);
    }
    plan.add_file("remove", old)?;
    Ok(plan.add_file("make", new)?)
}

/// The ID of the file with this number.
fn id_of(volume: &Mounted, number: u16) -> Option<FileId>
    ensures { IsIdOf (AreFacts volume.now.image volume.now.layout number) result }
{
    match facts_of(volume, number) {
        Some(facts) => Some(facts.file),
        None => None,
    }
}

/// Whether a path names the file with a number, before or afterwards, for each number below `count`.
fn named_numbers(
    alloc: Global,
    before: &Mounted,
    old: &[Known],
    after: &Mounted,
    new: &[Known],
    count: usize,
) -> Result<Vec<bool>, AllocError>
    ensures { IfOk result (λ named. (number : ℕ) → number < count
        → (slice_get named.items number ≡ Some true) ↔ IsReached before.now old.now after.now new.now number) }
{
    let mut named = no_numbers(alloc, count)?;
    note_all(before, old, &mut named);
    note_all(after, new, &mut named);
    Ok(named)
}

/// Flags of so many numbers, none of which is noted.
fn no_numbers(alloc: Global, count: usize) -> Result<Vec<bool>, AllocError>
    ensures { IfOk result (λ named. named.items ≡ replicate count false) }
{
    vec![in alloc; false; count]
}

/// Notes the number of each file that one of these paths names.
fn note_all(volume: &Mounted, all: &[Known], named: &mut Vec<bool>)
    ensures length { length named.new.items ≡ length named.old.items }
    ensures noted { (number : ℕ) → number < length named.old.items → (slice_index_or named.new.items number false ≡ true) ↔ ((slice_index_or named.old.items number false ≡ true) ⊎ IsNumbered (IsNamedBy volume.now) all.now number) }
{
    for one in all {
        note_named(volume, one, named);
    }
}

/// Notes the number of the file that a path names.
fn note_named(volume: &Mounted, one: &Known, named: &mut Vec<bool>)
    ensures length { length named.new.items ≡ length named.old.items }
    ensures noted { IsNamedBy volume.now one.now.file → one.now.file.number < length named.old.items → slice_index_or named.new.items one.now.file.number false ≡ true }
    ensures kept { (number : ℕ) → slice_index_or named.old.items number false ≡ true → slice_index_or named.new.items number false ≡ true }
    ensures alone { (number : ℕ) → slice_index_or named.new.items number false ≡ true → (slice_index_or named.old.items number false ≡ true) ⊎ IsNumberOf (IsNamedBy volume.now) number one.now }
{
    if facts_by_id(volume, one.file).is_some() {
        note(named, one.file.number);
    }
}

/// Notes a number.
fn note(named: &mut Vec<bool>, number: u16)
    ensures { named.new.items ≡ set named.old.items number true }
{
    if let Some(note) = named.get_mut(number as usize) {
        *note = true;
    }
}

/// Whether a number is noted.
fn is_noted(named: &[bool], number: u16) -> bool
    ensures { IsTrue result ↔ (slice_get named.now number ≡ Some true) }
{
    named.get(number as usize) == Some(&true)
}

/// One of these that has this path.
fn known_at<'b>(all: &'b [Known], path: &str) -> Option<&'b Known>
    ensures there { IfSome result (λ known. has_path path.now known.now) }
    ensures known { AreInOrder all.now → IsKnownAt all.now path.now (option_copied result) }
{
    match place_of(all, path) {
        Some(place) => all.get(place),
        None => None,
    }
}
