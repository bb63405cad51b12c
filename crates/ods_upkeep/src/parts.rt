//! The last part of a path, after its directories.
ghost use Rattle.std.specs.Prelude.{◌≡◌, ◌↔◌, IsTrue};
ghost use Rattle.ods_text.specs.Cuts.{Has};
ghost use Rattle.ods_upkeep.specs.Pieces.{ends_folder, last_part};

use ods_text::has_byte;

/// Returns whether a dot comes after the directories of a path.
pub(crate) fn has_dot(path: &[u8]) -> bool
    ensures { IsTrue result ↔ Has 46 (last_part path.now) }
{
    has_byte(b'.', last_part(path))
}

/// What stands behind the directories of a path.
fn last_part(path: &[u8]) -> &[u8]
    ensures { result.now ≡ last_part path.now }
{
    let mut kept = path.len();
    while kept > 0 && !ends_folder(path[kept - 1]) {
        kept -= 1;
    }
    &path[kept..]
}

/// Whether directories of a path end with this character.
fn ends_folder(character: u8) -> bool
    ensures { result ≡ ends_folder character }
{
    character == b'/' || character == b']'
}
