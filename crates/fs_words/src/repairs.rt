//! The repairs that words request.
ghost use Rattle.std.specs.Prelude.{◌≡◌, IfErr, IfOk, MatchOption, map, false, true};
ghost use Rattle.std.specs.List.{list_all, list_any};
ghost use Rattle.fs_words.specs.{Refused.HasReason, RepairWords.AreKinds, RepairWords.HasUnknown, RepairWords.asks_for, RepairWords.names_repair, RepairWords.repairs_in};

use crate::actions::Repairs;
use crate::said::wrong;
use ods_words::WordsFault;
use std::alloc::Global;

/// Returns the repairs that these words name. Each word must name one.
#[tactic(auto, using(crate::proofs::RepairLists::all_known, crate::proofs::RepairLists::one_unknown))]
pub(crate) fn known_kinds(alloc: Global, words: &[&str]) -> Result<Repairs, WordsFault>
    ensures asked { IfOk result (AreKinds (map (λ w. w.now) words.now)) }
    ensures refused { IfErr result (HasReason (HasUnknown (map (λ w. w.now) words.now))) }
{
    if let Some(word) = first_unknown(words) {
        return Err(wrong(
            alloc,
            word,
            "is not a repair: KIND is used, share, double, names, lost, free or all",
        )?);
    }
    Ok(repairs_in(words))
}

/// The repairs that these words ask for: each by its name, or all of them by `all`.
fn repairs_in(words: &[&str]) -> Repairs
    ensures { result ≡ repairs_in (map (λ w. w.now) words.now) }
{
    Repairs {
        used: is_asked_for(words, "used"),
        share: is_asked_for(words, "share"),
        double: is_asked_for(words, "double"),
        names: is_asked_for(words, "names"),
        lost: is_asked_for(words, "lost"),
        free: is_asked_for(words, "free"),
    }
}

/// Whether one of these words asks for the repair of this name.
fn is_asked_for(words: &[&str], name: &str) -> bool
    ensures { result ≡ list_any (λ word. asks_for name.now word.now) words.now }
{
    words.iter().any(|word| asks_for(word, name))
}

/// Whether this word asks for the repair of this name.
fn asks_for(word: &str, name: &str) -> bool
    ensures { result ≡ asks_for name.now word.now }
{
    word == name || word == "all"
}

/// The first of these words that names no repair.
fn first_unknown<'a>(words: &[&'a str]) -> Option<&'a str>
    ensures { MatchOption result (list_all (λ word. names_repair word.now) words.now ≡ true) (λ _. list_all (λ word. names_repair word.now) words.now ≡ false) }
{
    for word in words {
        if !names_repair(word) {
            return Some(*word);
        }
    }
    None
}

/// Whether this word names a repair, or all.
fn names_repair(word: &str) -> bool
    ensures { result ≡ names_repair word.now }
{
    word == "used"
        || word == "share"
        || word == "double"
        || word == "names"
        || word == "lost"
        || word == "free"
        || word == "all"
}
