//! The lines of `info`.
ghost use Rattle.std.specs.Prelude.{◌≡◌, ◌≤◌, ◌+◌, ◌-◌, ◌++◌, IfOk, OnOk, length, take};
ghost use Rattle.std.specs.List.{suffix_len};
ghost use Rattle.std.specs.String.{string_bytes};
ghost use Rattle.ods_shell.specs.Info.{answer_line, behind_line, bitmap_line, default_label, default_line, home_line, index_line, info_text, is_filling as fills, label_line, level_line, made_line, most_line, places_text, said_text, shown_label};

use crate::info::Info;
use crate::stat::{push_blocks, push_owner, push_runs};
use crate::texts::{date_text, push_rights, push_some};
use arrayvec::ArrayString;
use std::alloc::{AllocError, Global};

/// Returns the facts of a volume, one field per line, with the blocks of INDEXF.SYS as runs. `behind` is the number of image bytes after the
/// volume, and `answer` is the result of a mount.
pub fn info_lines(
    alloc: Global,
    info: &Info,
    index: &[u32],
    behind: u64,
    answer: &str,
) -> Result<String, AllocError>
    ensures { IfOk result (λ text. string_bytes text ≡ info_text info.now index.now behind answer.now) }
{
    let mut text = String::new(alloc);
    push_said(&mut text, info)?;
    push_places(&mut text, info, index)?;
    push_behind(&mut text, behind)?;
    push_answer(&mut text, answer)?;
    Ok(text)
}

/// What the home block says of the volume.
fn push_said(text: &mut String, info: &Info) -> Result<(), AllocError>
    ensures { OnOk result (string_bytes text.new ≡ string_bytes text.old ++ said_text info.now) }
{
    push_label(text, &info.label)?;
    push_owner(text, info.owner)?;
    push_level(text, info.level)?;
    push_default(text, info.protection)?;
    push_made(text, &info.made)
}

/// How large the volume is, and where its structures lie.
fn push_places(text: &mut String, info: &Info, index: &[u32]) -> Result<(), AllocError>
    ensures { OnOk result (string_bytes text.new ≡ string_bytes text.old ++ places_text info.now index.now) }
{
    push_blocks(text, info.blocks)?;
    push_most(text, info.most, info.ready)?;
    push_home(text, info.home)?;
    let header = behind_bitmap(info);
    push_bitmap(text, info.bitmap, header.saturating_sub(1))?;
    push_index(text, info.index_blocks, header)?;
    push_runs(text, index)
}

/// Returns the LBN after the index bitmap.
pub(crate) fn behind_bitmap(info: &Info) -> u64
    ensures { result ≡ info.now.bitmap + info.now.bitmap_blocks }
{
    u64::from(info.bitmap) + u64::from(info.bitmap_blocks)
}

/// Returns the printable label: without trailing zero bytes and spaces, and with `?` for each byte that is not a character.
pub fn label_text(label: &[u8; 12]) -> ArrayString<18>
    ensures { result.bytes ≡ shown_label label.now }
{
    let mut text = ArrayString::new();
    push_some(&mut text, without_filling(label), "");
    text
}

/// A label without what stands behind it.
fn without_filling(label: &[u8]) -> &[u8]
    ensures label { result.now ≡ take (length label.now - suffix_len fills label.now) label.now }
    ensures within { length result.now ≤ length label.now }
{
    let mut kept = label.len();
    while kept > 0 && is_filling(label[kept - 1]) {
        kept -= 1;
    }
    &label[..kept]
}

/// Whether a byte is a zero byte or a space.
fn is_filling(byte: u8) -> bool
    ensures { result ≡ fills byte }
{
    byte == 0 || byte == b' '
}

/// The line of the label.
#[tactic(auto, unfolding(crate::specs::Info::label_line))]
fn push_label(text: &mut String, label: &[u8; 12]) -> Result<(), AllocError>
    ensures { OnOk result (string_bytes text.new ≡ string_bytes text.old ++ label_line label.now) }
{
    writeln!(text, "Label: {}", label_text(label))
}

/// The line of the structure level.
#[tactic(auto, unfolding(crate::specs::Info::level_line))]
fn push_level(text: &mut String, level: u16) -> Result<(), AllocError>
    ensures { OnOk result (string_bytes text.new ≡ string_bytes text.old ++ level_line level) }
{
    writeln!(text, "Structure level: {level:o}")
}

/// The line of the protection of new files.
#[tactic(auto, unfolding(crate::specs::Info::default_line))]
fn push_default(text: &mut String, protection: u16) -> Result<(), AllocError>
    ensures { OnOk result (string_bytes text.new ≡ string_bytes text.old ++ default_line protection) }
{
    text.push_str(before_default())?;
    push_rights(text, protection)?;
    text.push_str("\n")
}

/// What stands before the protection of new files.
#[tactic(auto, unfolding(crate::specs::Info::default_label))]
fn before_default() -> &'static str
    ensures { result.now ≡ default_label }
{
    "Default protection: "
}

/// The line of when the volume was made.
#[tactic(auto, unfolding(crate::specs::Info::made_line))]
fn push_made(text: &mut String, made: &[u8; 13]) -> Result<(), AllocError>
    ensures { OnOk result (string_bytes text.new ≡ string_bytes text.old ++ made_line made.now) }
{
    writeln!(text, "Made: {}", date_text(made))
}

/// The line of the greatest file number, and of how many headers are ready.
#[tactic(auto, unfolding(crate::specs::Info::most_line))]
fn push_most(text: &mut String, most: u16, ready: u32) -> Result<(), AllocError>
    ensures { OnOk result (string_bytes text.new ≡ string_bytes text.old ++ most_line most ready) }
{
    writeln!(text, "Greatest file number: {most}, {ready} headers ready")
}

/// The line of where the home block stands.
#[tactic(auto, unfolding(crate::specs::Info::home_line))]
fn push_home(text: &mut String, lbn: u32) -> Result<(), AllocError>
    ensures { OnOk result (string_bytes text.new ≡ string_bytes text.old ++ home_line lbn) }
{
    writeln!(text, "Home block: LBN {lbn}")
}

/// The line of where the index bitmap lies.
#[tactic(auto, unfolding(crate::specs::Info::bitmap_line))]
fn push_bitmap(text: &mut String, first: u32, last: u64) -> Result<(), AllocError>
    ensures { OnOk result (string_bytes text.new ≡ string_bytes text.old ++ bitmap_line first last) }
{
    writeln!(text, "Index bitmap: LBN {first} to {last}")
}

/// The line of how many blocks INDEXF.SYS has, and of where its header stands.
#[tactic(auto, unfolding(crate::specs::Info::index_line))]
fn push_index(text: &mut String, blocks: u64, header: u64) -> Result<(), AllocError>
    ensures { OnOk result (string_bytes text.new ≡ string_bytes text.old ++ index_line blocks header) }
{
    writeln!(text, "INDEXF.SYS: {blocks} blocks, header at LBN {header}")
}

/// The line of how many bytes stand behind the volume.
#[tactic(auto, unfolding(crate::specs::Info::behind_line))]
fn push_behind(text: &mut String, behind: u64) -> Result<(), AllocError>
    ensures { OnOk result (string_bytes text.new ≡ string_bytes text.old ++ behind_line behind) }
{
    writeln!(text, "Bytes behind the volume: {behind}")
}

/// The line of what a mount answers.
#[tactic(auto, unfolding(crate::specs::Info::answer_line))]
fn push_answer(text: &mut String, answer: &str) -> Result<(), AllocError>
    ensures { OnOk result (string_bytes text.new ≡ string_bytes text.old ++ answer_line answer.now) }
{
    writeln!(text, "Mount: {answer}")
}
