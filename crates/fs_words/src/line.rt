//! The words of a line, split as a shell splits them.
ghost use Rattle.std.specs.Prelude.{◌≡◌, ◌++◌, ◌∷◌, ℕ, Bool, List, [], None, Some, IfErr, IfOk, OnOk, map};
ghost use Rattle.std.specs.String.{string_bytes};
ghost use Rattle.fs_words.specs.Lines.{behind_letter, is_blank, is_quote, letter_text, with_front, words_from, words_in};

use std::alloc::{AllocError, Global};

/// Why a line has no words.
#[derive(Clone, Copy, Debug, PartialEq, Eq, Drop)]
pub enum LineFault {
    /// A quote is not closed.
    Open,
    /// The allocator refused memory.
    NoMemory,
}

impl From<AllocError> for LineFault {
    ghost use Rattle.std.specs.Prelude.{◌≡◌};
    ghost use Rattle.fs_words.specs.declared.line.LineFault.TheVariants.{NoMemory};

    ghost from_gives = { λ _ e. e ≡ NoMemory };

    fn from(_error: AllocError) -> LineFault {
        LineFault::NoMemory
    }
}

/// Where a character stands.
#[derive(Clone, Copy, PartialEq, Eq)]
enum Stand {
    /// Between words.
    Between,
    /// In a word.
    Within,
    /// After this quote, which is not closed.
    Quoted(char),
    /// In a comment.
    Remark,
}

/// Splits a line into words, without its line feed, or its carriage return and line feed. Spaces and tabs separate words; text in `'` or `"` stays
/// together; and `#` at the start of a word begins a comment.
pub fn line_words(alloc: Global, line: &str) -> Result<Vec<String>, LineFault>
    ensures words { IfOk result (λ v. words_in line.now ≡ Some (map (λ s. string_bytes s) v.items)) }
    ensures open { IfErr result (λ e. e ≡ LineFault.Open → words_in line.now ≡ None) }
{
    let mut words = Vec::new(alloc);
    let mut word = String::new(alloc);
    let mut stand = Stand::Between;
    for letter in line.chars() {
        stand = read_letter(alloc, &mut words, &mut word, stand, letter)?;
    }
    match stand {
        Stand::Between | Stand::Remark => Ok(words),
        Stand::Within => {
            add(&mut words, word)?;
            Ok(words)
        }
        Stand::Quoted(_) => Err(LineFault::Open),
    }
}

/// Reads a character, which ends a word, or is one of the word or a quote. Where the next one stands.
fn read_letter(
    alloc: Global,
    words: &mut Vec<String>,
    word: &mut String,
    stand: Stand,
    letter: char,
) -> Result<Stand, AllocError>
    ensures { IfOk result (λ next. (rest : List ℕ)
        → with_front (map (λ s. string_bytes s) words.old.items) (words_from stand (string_bytes word.old) (letter ∷ rest))
        ≡ with_front (map (λ s. string_bytes s) words.new.items) (words_from next (string_bytes word.new) rest)) }
{
    match stand {
        Stand::Remark => Ok(Stand::Remark),
        Stand::Quoted(quote) if letter == quote => Ok(Stand::Within),
        Stand::Quoted(quote) => {
            word.push(letter)?;
            Ok(Stand::Quoted(quote))
        }
        Stand::Between if letter == '#' => Ok(Stand::Remark),
        Stand::Between if is_blank(letter) => Ok(Stand::Between),
        Stand::Within if is_blank(letter) => {
            let done = std::mem::replace(word, String::new(alloc));
            add(words, done)?;
            Ok(Stand::Between)
        }
        _ => read_in_word(word, letter),
    }
}

/// Reads a character of a word, which is no blank. Where the next one stands.
fn read_in_word(word: &mut String, letter: char) -> Result<Stand, AllocError>
    ensures stand { IfOk result (λ next. next ≡ behind_letter letter) }
    ensures word { OnOk result (string_bytes word.new ≡ string_bytes word.old ++ letter_text letter) }
{
    if is_quote(letter) {
        return Ok(Stand::Quoted(letter));
    }
    word.push(letter)?;
    Ok(Stand::Within)
}

/// Whether a character parts words.
fn is_blank(letter: char) -> bool
    ensures { result ≡ is_blank letter }
{
    letter == ' ' || letter == '\t'
}

/// Whether a character is a quote.
fn is_quote(letter: char) -> bool
    ensures { result ≡ is_quote letter }
{
    letter == '\'' || letter == '"'
}

/// Adds a word.
fn add(words: &mut Vec<String>, word: String) -> Result<(), AllocError>
    ensures { OnOk result (words.new.items ≡ words.old.items ++ word ∷ []) }
{
    match words.push(word) {
        Ok(()) => Ok(()),
        Err(_) => Err(AllocError),
    }
}
