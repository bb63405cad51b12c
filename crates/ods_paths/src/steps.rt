//! The steps from the master directory to the directories of a path.
ghost use Rattle.std.specs.Prelude.{◌≡◌, ◌<◌, ◌↔◌, ◌∷◌, ◌++◌, [], length, option_map, IsTrue, MatchOption};
ghost use Rattle.std.specs.List.{All};
ghost use Rattle.ods_paths.specs.{Patterns.IsPattern, Steps.IsStep, Steps.Numbers, Steps.is_zeros, Steps.names_master, Steps.step_of, Steps.steps_text, Views.step, Views.steps, Views.texts};

use crate::is_pattern;
use crate::numbers::{cut_first, read_choice};
use ods_text::{cut_at, cut_last, has_byte, is_text};

/// The most characters of a name.
const NAME_SIZE: usize = 9;

/// A step from a directory to directories in it.
#[derive(Clone, Copy)]
pub enum Step<'a> {
    /// To the directory of a group and a member. `None` selects every group or every member.
    Numbers {
        group: Option<u8>,
        member: Option<u8>,
    },
    /// To the directories whose names match a pattern.
    Pattern(&'a [u8]),
}

/// The steps of a text: the steps between its separators, and one more.
#[derive(Clone, Copy)]
pub struct Steps<'a> {
    pub text: Option<&'a [u8]>,
    pub separator: u8,
    pub last: Option<&'a [u8]>,
}

impl<'a> Steps<'a> {
    /// Returns the first step and the steps after it. Returns `None` if there is no step.
    pub fn split_first(&self) -> Option<(Step<'a>, Steps<'a>)>
        ensures { MatchOption result (steps self.now ≡ []) (λ p. steps self.now ≡ step p.0 ∷ steps p.1) }
    {
        match split_text(self) {
            Some((text, behind)) => Some((read_step(text), behind)),
            None => None,
        }
    }

    /// Returns the steps before the last one, and the last one. Returns `None` if there is no step.
    pub fn split_last(&self) -> Option<(Steps<'a>, Step<'a>)>
        ensures { MatchOption result (steps self.now ≡ []) (λ p. steps self.now ≡ steps p.0 ++ step p.1 ∷ []) }
    {
        match split_last_text(self) {
            Some((before, text)) => Some((before, read_step(text))),
            None => None,
        }
    }
}

/// Returns the empty list of steps, which selects the master directory itself.
pub fn no_steps() -> Steps<'static>
    ensures { steps result ≡ [] }
{
    Steps {
        text: None,
        separator: b'/',
        last: None,
    }
}

/// The text of the first step, and the steps behind it.
fn split_text<'a>(steps: &Steps<'a>) -> Option<(&'a [u8], Steps<'a>)>
    ensures { MatchOption result (texts steps.now ≡ []) (λ p. texts steps.now ≡ p.0.now ∷ texts p.1) }
{
    let Some(text) = steps.text else {
        let Some(last) = steps.last else {
            return None;
        };
        return Some((
            last,
            Steps {
                text: None,
                separator: steps.separator,
                last: None,
            },
        ));
    };
    match cut_at(steps.separator, text) {
        Some((front, back)) => Some((
            front,
            Steps {
                text: Some(back),
                separator: steps.separator,
                last: steps.last,
            },
        )),
        None => Some((
            text,
            Steps {
                text: None,
                separator: steps.separator,
                last: steps.last,
            },
        )),
    }
}

/// The steps before the last one, and its text.
fn split_last_text<'a>(steps: &Steps<'a>) -> Option<(Steps<'a>, &'a [u8])>
    ensures { MatchOption result (texts steps.now ≡ []) (λ p. texts steps.now ≡ texts p.0 ++ p.1.now ∷ []) }
{
    if let Some(last) = steps.last {
        return Some((
            Steps {
                text: steps.text,
                separator: steps.separator,
                last: None,
            },
            last,
        ));
    }
    let Some(text) = steps.text else {
        return None;
    };
    if !has_byte(steps.separator, text) {
        return Some((
            Steps {
                text: None,
                separator: steps.separator,
                last: None,
            },
            text,
        ));
    }
    let (before, last) = cut_last(steps.separator, text);
    Some((
        Steps {
            text: Some(before),
            separator: steps.separator,
            last: None,
        },
        last,
    ))
}

/// Returns whether each text is a step.
pub(crate) fn are_steps(steps: &Steps<'_>) -> bool
    ensures { IsTrue result ↔ All IsStep (texts steps.now) }
{
    let mut rest = *steps;
    while let Some((text, behind)) = split_text(&rest) {
        if !is_step(text) {
            return false;
        }
        rest = behind;
    }
    true
}

/// Reads the step of a text: a group and a member with a comma between them, otherwise a pattern.
pub fn read_step(text: &[u8]) -> Step<'_>
    ensures { step result ≡ step_of text.now }
{
    let (front, back) = cut_first(b',', text);
    let Some(group) = read_choice(front) else {
        return Step::Pattern(text);
    };
    let Some(member) = read_choice(back) else {
        return Step::Pattern(text);
    };
    Step::Numbers { group, member }
}

/// Whether the text is a step: numbers, or a pattern for a name, which is not empty.
fn is_step(text: &[u8]) -> bool
    ensures { IsTrue result ↔ IsStep text.now }
{
    match read_step(text) {
        Step::Numbers { .. } => true,
        Step::Pattern(_) => is_name(text),
    }
}

/// Whether the text is a pattern for a name, and not empty.
fn is_name(text: &[u8]) -> bool
    ensures { IsTrue result ↔ ((0 < length text.now) × IsPattern 9 text.now) }
{
    !text.is_empty() && is_pattern(NAME_SIZE, text)
}

/// Returns the text of the steps. Returns `None` if the text is empty or is the master directory.
pub(crate) fn steps_text(text: &[u8]) -> Option<&[u8]>
    ensures { option_map (λ t. t.now) result ≡ steps_text text.now }
{
    if text.is_empty() {
        return None;
    }
    if names_master(text) {
        return None;
    }
    Some(text)
}

/// Whether the text is the master directory.
fn names_master(text: &[u8]) -> bool
    ensures { result ≡ names_master text.now }
{
    if is_text(text, b"000000") {
        return true;
    }
    match read_step(text) {
        Step::Numbers { group, member } => are_zeros(group, member),
        Step::Pattern(_) => false,
    }
}

/// Whether the group and the member are 0.
fn are_zeros(group: Option<u8>, member: Option<u8>) -> bool
    ensures { result ≡ is_zeros (Numbers group member) }
{
    match (group, member) {
        (Some(0), Some(0)) => true,
        _ => false,
    }
}
