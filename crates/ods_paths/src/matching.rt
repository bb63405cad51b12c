//! The match of a pattern with a name or a type.
ghost use Rattle.std.specs.Prelude.{◌≡◌, ◌↔◌, ℕ, ◌+◌, ◌<◌, ◌≤◌, List, ◌∷◌, length, IsTrue, true, false, slice_index_or, ◌⊎◌};
ghost use Rattle.ods_paths.specs.Patterns.{Matches, capitals};
ghost use Rattle.ods_paths.specs.Rows.{IsRow, OpensRuns, TakesOne};

/// The most characters of a name.
const NAME_SIZE: usize = 9;

/// Returns whether the pattern, in either case, matches the text of a name or a type.
pub fn matches(pattern: &[u8], text: &[u8]) -> bool
    requires { length text.now ≤ 9 }
    ensures { IsTrue result ↔ Matches (capitals pattern.now) text.now }
{
    let mut places = [false; NAME_SIZE + 1];
    let row = &mut places[..text.len() + 1];
    row[text.len()] = true;
    let mut left = pattern;
    while let Some((character, before)) = left.split_last() {
        take_in(row, character.to_ascii_uppercase(), text);
        left = before;
    }
    row[0]
}

/// From the places of the text from which the rest of a pattern matches to those from which it does with one more character before it.
fn take_in(row: &mut [bool], character: u8, text: &[u8])
    requires { length row.old ≡ length text.now + 1 }
    ensures { (pattern : List ℕ) → IsRow text.now row.old pattern → IsRow text.now row.new (character ∷ pattern) }
{
    if character == b'*' {
        open_runs(row);
    } else {
        take_one(row, character, text);
    }
}

/// Each place from which a later one can be reached.
fn open_runs(row: &mut [bool])
    ensures { OpensRuns row.old row.new }
{
    let mut seen = false;
    let mut place = row.len();
    while place > 0 {
        place -= 1;
        seen = either(seen, row[place]);
        row[place] = seen;
    }
}

fn either(a: bool, b: bool) -> bool
    ensures { IsTrue result ↔ ((a ≡ true) ⊎ (b ≡ true)) }
{
    a || b
}

/// Each place that has the character, and leads to the next one.
fn take_one(row: &mut [bool], character: u8, text: &[u8])
    requires { length row.old ≡ length text.now + 1 }
    ensures { TakesOne character text.now row.old row.new }
{
    for place in 0..text.len() {
        row[place] = leads(row[place + 1], character, text[place]);
    }
    row[text.len()] = false;
}

/// Whether the character stands for this one, and the next place is a good one.
fn leads(next: bool, character: u8, other: u8) -> bool
    ensures { IsTrue result ↔ (((character ≡ 63) ⊎ (character ≡ other)) × (next ≡ true)) }
{
    next && (character == b'?' || character == other)
}
