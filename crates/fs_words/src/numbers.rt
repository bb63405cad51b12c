//! The decimal numbers in words.
ghost use Rattle.std.specs.Prelude.{◌++◌, IfErr, IfOk, codes};
ghost use Rattle.ods_text.specs.Numbers.{IsLargeNumber, IsNumber};
ghost use Rattle.ods_words.specs.Telling.{IsWrong};
ghost use Rattle.fs_words.specs.{Refused.HasReason, Refused.IsNoValue, Refused.SpellsNone, Values.IsValue, Values.value_of};

use ods_text::{read_decimal, read_large};
use ods_words::WordsFault;
use std::alloc::{AllocError, Global};

/// Returns the number in the value of an option, if there is one. Clap has refused a word that is not a number.
pub(crate) fn number_of(alloc: Global, text: Option<&str>) -> Result<Option<u32>, WordsFault>
    ensures value { IfOk result (IsValue IsNumber (value_of text.entry)) }
    ensures refused { IfErr result (HasReason (IsNoValue IsNumber (value_of text.entry))) }
{
    let Some(text) = text else {
        return Ok(None);
    };
    match read_decimal(text.as_bytes()) {
        Some(number) => Ok(Some(number)),
        None => Err(odd_number(alloc, text)?),
    }
}

/// Returns the number in a word, which may need 64 bits.
pub(crate) fn large_number_of(alloc: Global, text: &str) -> Result<u64, WordsFault>
    ensures value { IfOk result (IsLargeNumber text.now) }
    ensures refused { IfErr result (HasReason (SpellsNone IsLargeNumber text.now)) }
{
    match read_large(text.as_bytes()) {
        Some(number) => Ok(number),
        None => Err(odd_number(alloc, text)?),
    }
}

/// That a number has a sign or a leading zero.
fn odd_number(alloc: Global, text: &str) -> Result<WordsFault, AllocError>
    ensures { IfOk result (IsWrong (codes "error: '" ++ text.now ++ codes "' is no number: it has a sign or a leading zero")) }
{
    let line = format!(in alloc; "error: '{text}' is no number: it has a sign or a leading zero")?;
    Ok(WordsFault::Wrong(line))
}
