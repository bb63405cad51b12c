//! The part of a path that selects directories.
ghost use Rattle.std.specs.Prelude.{◌≡◌, ◌↔◌, [], true, IsTrue, MatchOption, option_map};
ghost use Rattle.ods_text.specs.Cuts.{Has, Lacks};
ghost use Rattle.ods_paths.specs.{Paths.Folder as Folder_said, Paths.SpellsFolder, Paths.place_text, Steps.unless_empty, Views.folder};

use crate::steps::{Steps, are_steps, steps_text};
use ods_text::{cut_at, has_byte};

/// The directories that a path selects: the directories that its steps reach, and whether all directories below belong to them.
#[derive(Clone, Copy)]
pub struct Folder<'a> {
    pub steps: Steps<'a>,
    pub below: bool,
}

/// Reads the directories that a text selects, with this separator between steps. The step `more` follows, unless it is empty.
pub(crate) fn read_folder<'a>(separator: u8, text: &'a [u8], more: &'a [u8]) -> Option<Folder<'a>>
    ensures { MatchOption result ((f : Folder_said) → SpellsFolder separator text.now more.now f → ⊥) (λ f. SpellsFolder separator text.now more.now (folder f)) }
{
    let below = text.ends_with(b"...");
    if !is_last(below, more) {
        return None;
    }
    let place = place_text(text);
    if !stands_alone(separator, place) {
        return None;
    }
    let steps = Steps {
        text: steps_text(place),
        separator,
        last: unless_empty(more),
    };
    if !are_steps(&steps) {
        return None;
    }
    Some(Folder { steps, below })
}

/// Whether nothing more stands behind `...`.
fn is_last(below: bool, more: &[u8]) -> bool
    ensures { IsTrue result ↔ (below ≡ true → more.now ≡ []) }
{
    if below {
        return more.is_empty();
    }
    true
}

/// Whether a group and a member stand alone, where the separator is that in brackets.
fn stands_alone(separator: u8, place: &[u8]) -> bool
    ensures { IsTrue result ↔ (separator ≡ 46 → Has 44 place.now → Lacks 46 place.now) }
{
    if separator != b'.' {
        return true;
    }
    if !has_byte(b',', place) {
        return true;
    }
    match cut_at(b'.', place) {
        Some(_) => false,
        None => true,
    }
}

/// The text without `...` at its end.
fn place_text(text: &[u8]) -> &[u8]
    ensures { result.now ≡ place_text text.now }
{
    if text.ends_with(b"...") {
        return &text[..text.len() - 3];
    }
    text
}

/// The text, unless it is empty.
fn unless_empty(text: &[u8]) -> Option<&[u8]>
    ensures { option_map (λ t. t.now) result ≡ unless_empty text.now }
{
    if text.is_empty() {
        return None;
    }
    Some(text)
}
