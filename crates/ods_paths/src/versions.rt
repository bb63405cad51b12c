//! The versions of a name that a path chooses.
ghost use Rattle.ods_text.specs.One.{IsTheOne};
ghost use Rattle.ods_paths.specs.Numbers.{IsVersion, IsExact};

use ods_base::LAST_VERSION;
use ods_text::{is_text, read_small};

/// The chosen versions of a name.
#[derive(Clone, Copy, Debug, PartialEq, Eq)]
pub enum Versions {
    /// This version, 1 to 32,767.
    Exact(u16),
    /// The highest version, `;0`.
    Highest,
    /// The lowest version, `;-1`.
    Lowest,
    /// All versions, `;*`.
    Every,
}

/// Reads the versions that the text after the `;` chooses.
pub(crate) fn read_version(text: &[u8]) -> Option<Versions>
    ensures { IsTheOne (IsVersion text.now) result }
{
    if is_text(text, b"0") {
        return Some(Versions::Highest);
    }
    if is_text(text, b"-1") {
        return Some(Versions::Lowest);
    }
    if is_text(text, b"*") {
        return Some(Versions::Every);
    }
    read_exact(text)
}

/// The one version that a text chooses.
fn read_exact(text: &[u8]) -> Option<Versions>
    ensures { IsTheOne (IsExact text.now) result }
{
    let Some(version) = read_small(text) else {
        return None;
    };
    if version == 0 || LAST_VERSION < version {
        return None;
    }
    Some(Versions::Exact(version))
}
