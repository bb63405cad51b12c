//! The name in the ident area of a header, by its words. It is known even for a file without a directory entry.
ghost use Rattle.std.specs.Prelude.{◌≡◌, ◌≤◌, MatchOption};
ghost use Rattle.ods_base.specs.Block.{word as word_in};
ghost use Rattle.ods_base.specs.Name.{IsName};
ghost use Rattle.ods_remains.specs.Idents.{name_in as name_of};

use ods_base::Name;

/// Returns the name in an ident area (I.FNAM and I.FTYP), if its words spell a valid name.
pub fn name_in(ident: &[u8; 46]) -> Option<Name>
    ensures { MatchOption result (¬ IsName (name_of ident.now)) (λ name. IsName (name_of ident.now) × (name ≡ name_of ident.now)) }
{
    let words = [
        ident_word(ident, 0),
        ident_word(ident, 1),
        ident_word(ident, 2),
    ];
    let ext = ident_word(ident, 3);
    if words[0] < 64_000 && words[1] < 64_000 && words[2] < 64_000 && ext < 64_000 {
        Some(Name::new(words, ext))
    } else {
        None
    }
}

/// Returns a word of an ident area. Words 0 to 2 are the name, word 3 is the type, and word 4 is the version.
pub fn ident_word(ident: &[u8; 46], place: usize) -> u16
    requires { place ≤ 22 }
    ensures { result ≡ word_in ident.now place }
{
    u16::from_le_bytes([ident[2 * place], ident[2 * place + 1]])
}
