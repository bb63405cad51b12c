//! Answers as they are printed.
ghost use Rattle.std.specs.Prelude.{◌≡◌, ◌++◌, ◌∷◌, OnOk, length};
ghost use Rattle.std.specs.List.{flat_map};
ghost use Rattle.std.specs.String.{string_bytes};
ghost use Rattle.std.specs.Fmt.{decimal};
ghost use Rattle.ods_script.specs.Texts.{answer_text, listed_text};

use crate::hex_text::push_block;
use crate::stats::{push_file, push_stat};
use ods_base::{Listed, Name, print_name};
use ods_request::{AnswerForm, CompactAnswer, Listing};
use std::alloc::AllocError;

/// Appends the answer to a command with this name, as it is printed after `OK`.
pub(crate) fn push_answer(
    text: &mut String,
    name: &Name,
    answer: &CompactAnswer,
) -> Result<(), AllocError>
    ensures { OnOk result (string_bytes text.new ≡ string_bytes text.old ++ answer_text name.now answer.now) }
{
    match answer.form() {
        AnswerForm::Created(id) => write!(text, " {},{}", id.number, id.sequence),
        AnswerForm::Extended(count) => write!(text, " {count}"),
        AnswerForm::Truncated(count) => write!(text, " {count}"),
        AnswerForm::Done => Ok(()),
        AnswerForm::Entered(version) => write!(text, " {}", print_name(name, *version)),
        AnswerForm::Found(file, version) | AnswerForm::Removed(file, version) => {
            push_file(text, *file, print_name(name, *version).as_str())
        }
        AnswerForm::Bytes(block) => {
            text.push_str(" ")?;
            push_block(text, block)
        }
        AnswerForm::Names(lines) => push_listing(text, lines),
        AnswerForm::Info(stat) => push_stat(text, stat),
    }
}

/// Appends how many lines a directory has, behind a space, and the lines, each behind a line feed.
fn push_listing(text: &mut String, lines: &Listing) -> Result<(), AllocError>
    ensures { OnOk result (string_bytes text.new ≡ string_bytes text.old ++ 32 ∷ decimal (length lines.now) ++ flat_map listed_text lines.now) }
{
    let names = lines.names();
    write!(text, " {}", names.len())?;
    push_names(text, names)
}

/// Appends the lines of a directory, each behind a line feed.
fn push_names(text: &mut String, names: &[Listed]) -> Result<(), AllocError>
    ensures { OnOk result (string_bytes text.new ≡ string_bytes text.old ++ flat_map listed_text names.now) }
{
    for listed in names {
        push_listed(text, listed)?;
    }
    Ok(())
}

/// Appends a line of a directory behind a line feed.
fn push_listed(text: &mut String, listed: &Listed) -> Result<(), AllocError>
    ensures { OnOk result (string_bytes text.new ≡ string_bytes text.old ++ listed_text listed.now) }
{
    let name = print_name(&listed.name, listed.version);
    let file = listed.file;
    write!(text, "\n{name} {},{}", file.number, file.sequence)
}
