//! The facts of a file, as the reply to STAT prints them.
ghost use Rattle.std.specs.Prelude.{◌≡◌, ◌++◌, ◌∷◌, OnOk};
ghost use Rattle.std.specs.String.{string_bytes};
ghost use Rattle.ods_header.specs.Text.{file_id_text};
ghost use Rattle.ods_script.specs.Texts.{kind_text, stat_text};

use crate::hex_text::push_hex;
use ods_base::FileId;
use ods_header::{print_ident, push_owner};
use ods_request::{Kind, Stat};
use std::alloc::AllocError;

/// Appends the facts of a file, after a space.
pub(crate) fn push_stat(text: &mut String, stat: &Stat) -> Result<(), AllocError>
    ensures { OnOk result (string_bytes text.new ≡ string_bytes text.old ++ 32 ∷ stat_text stat.now) }
{
    push_file(text, stat.file, print_ident(&stat.ident).as_str())?;
    push_owner(
        text,
        stat.owner,
        stat.protection,
        stat.user_char,
        stat.system_char,
    )?;
    push_kind(text, &stat.kind)
}

/// Appends a file's ID and a name, each after a space.
pub(crate) fn push_file(text: &mut String, file: FileId, name: &str) -> Result<(), AllocError>
    ensures { OnOk result (string_bytes text.new ≡ string_bytes text.old ++ 32 ∷ file_id_text file ++ 32 ∷ name.now) }
{
    write!(text, " {},{} {name}", file.number, file.sequence)
}

/// Appends what the file is made of, behind a space.
fn push_kind(text: &mut String, kind: &Kind) -> Result<(), AllocError>
    ensures { OnOk result (string_bytes text.new ≡ string_bytes text.old ++ 32 ∷ kind_text kind.now) }
{
    match kind {
        Kind::Plain { blocks, attributes } => {
            write!(text, " PLAIN {blocks} ")?;
            push_hex(text, attributes)
        }
        Kind::Directory { names } => write!(text, " DIRECTORY {names}"),
        Kind::System => text.push_str(" SYSTEM"),
    }
}
