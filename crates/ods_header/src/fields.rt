//! The fields of a header before its map area, read in place.
ghost use Rattle.std.specs.Prelude.{◌≡◌};
ghost use Rattle.ods_header.specs.Header.{IsLaidOut, number_of, sequence_of, owner_of, protection_of, user_char_of, system_char_of, attributes_of, ident_of, is_directory_header};

use ods_base::{Block, DIRECTORY_TYPE, Uic, word};

/// Returns H.FNUM, the number of the header.
pub fn file_number(block: &Block) -> u16
    ensures { result ≡ number_of block.now }
{
    word(block, 1)
}

/// Returns H.FSEQ, how often the number was used.
pub fn file_sequence(block: &Block) -> u16
    ensures { result ≡ sequence_of block.now }
{
    word(block, 2)
}

/// Returns H.FOWN, the owner.
pub fn owner(block: &Block) -> Uic
    ensures { result ≡ owner_of block.now }
{
    Uic {
        group: block.byte(9),
        member: block.byte(8),
    }
}

/// Returns H.FPRO, the protection word: four bits for each class of users. A set bit denies.
pub fn protection(block: &Block) -> u16
    ensures { result ≡ protection_of block.now }
{
    word(block, 5)
}

/// Returns H.UCHA, the user characteristics.
pub fn user_char(block: &Block) -> u8
    ensures { result ≡ user_char_of block.now }
{
    block.byte(12)
}

/// Returns H.SCHA, the system characteristics.
pub fn system_char(block: &Block) -> u8
    ensures { result ≡ system_char_of block.now }
{
    block.byte(13)
}

/// Returns H.UFAT, the 32 bytes of attributes, which belong to the file's user.
pub fn attributes(block: &Block) -> [u8; 32]
    ensures { result ≡ attributes_of block.now }
{
    let mut attributes = [0; 32];
    attributes.copy_from_slice(&block.bytes()[14..46]);
    attributes
}

/// Returns the 46 bytes of the ident area.
pub fn ident(block: &Block) -> [u8; 46]
    requires { IsLaidOut block.now }
    ensures { result ≡ ident_of block.now }
{
    let bytes = block.bytes();
    let at = 2 * bytes[0] as usize;
    let mut ident = [0; 46];
    ident.copy_from_slice(&bytes[at..at + 46]);
    ident
}

/// Returns whether a file with this first header is a directory. File 4 is one, and so is a file above 5 whose ident has the type DIR.
pub fn is_directory(number: u16, block: &Block) -> bool
    requires { IsLaidOut block.now }
    ensures { result ≡ is_directory_header number block.now }
{
    number == 4 || (5 < number && word(block, block.byte(0) as usize + 3) == DIRECTORY_TYPE)
}
