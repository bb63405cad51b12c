//! The ident area of a new file.
ghost use Rattle.std.specs.Prelude.{◌≡◌, ◌/◌, ◌%◌};
ghost use Rattle.ods_request.specs.Steps.{new_ident};

use crate::Stamp;
use ods_base::Name;

/// Returns the ident area of a new file: its name, type and version, revision 1, and the stamp as its dates of revision and creation.
pub fn new_ident(name: &Name, version: u16, stamp: &Stamp) -> [u8; 46]
    ensures { result ≡ new_ident name.now version stamp.now }
{
    let [first, second, third] = name.words();
    let ext = name.ext();
    let [a, b, c, d, e, f, g, h, i, j, k, l, m] = *stamp.text();
    [
        low(first),
        high(first),
        low(second),
        high(second),
        low(third),
        high(third),
        low(ext),
        high(ext),
        low(version),
        high(version),
        1,
        0,
        a,
        b,
        c,
        d,
        e,
        f,
        g,
        h,
        i,
        j,
        k,
        l,
        m,
        a,
        b,
        c,
        d,
        e,
        f,
        g,
        h,
        i,
        j,
        k,
        l,
        m,
        0,
        0,
        0,
        0,
        0,
        0,
        0,
        0,
    ]
}

/// The low byte of a word.
fn low(word: u16) -> u8
    ensures { result ≡ word % 256 }
{
    (word % 256) as u8
}

/// The high byte of a word.
fn high(word: u16) -> u8
    ensures { result ≡ word / 256 }
{
    (word / 256) as u8
}
