//! Header blocks with another owner, another protection or other characteristics, and renewed checksums.
ghost use Rattle.std.specs.Prelude.{◌≡◌, ◌<◌, ◌/◌, ◌%◌, [], ◌∷◌};
ghost use Rattle.ods_base.specs.Block.{IsBlock, sum_of, with_word};
ghost use Rattle.ods_amend.specs.Access.{IsWithAccess};

use ods_base::{Block, Uic, set_word, sum};
use ods_header::{owner, protection, user_char};

/// Sets word `place` to the checksum of the words before it. Every other byte is unchanged.
pub(crate) fn renew_sum(block: &mut Block, place: usize)
    requires { place < 256 }
    ensures changed { block.new ≡ with_word block.old place (sum_of block.old place) }
    ensures stays { IsBlock block.new }
{
    let total = sum(block, place);
    set_word(block, place, total);
}

/// Bytes 8 to 12 of a header, H.FOWN, H.FPRO and H.UCHA.
fn access_bytes(owner: Uic, protection: u16, flags: u8) -> [u8; 5]
    ensures { result ≡ owner.member ∷ owner.group ∷ (protection % 256) ∷ (protection / 256) ∷ flags ∷ [] }
{
    let protection = protection.to_le_bytes();
    [
        owner.member,
        owner.group,
        protection[0],
        protection[1],
        flags,
    ]
}

/// Returns the block of a header with this owner (H.FOWN), protection word (H.FPRO) and characteristics (H.UCHA), each if given. Its checksum is new.
/// Every other byte is unchanged.
pub(crate) fn with_access(
    block: &Block,
    user: Option<Uic>,
    word: Option<u16>,
    flags: Option<u8>,
) -> Block
    ensures { IsWithAccess block.now user word flags result }
{
    let _ = block.bytes();
    let new_owner = user.unwrap_or(owner(block));
    let new_protection = word.unwrap_or(protection(block));
    let new_flags = flags.unwrap_or(user_char(block));
    let bytes = access_bytes(new_owner, new_protection, new_flags);
    let mut changed = *block;
    changed.set_bytes(8, &bytes);
    renew_sum(&mut changed, 255);
    changed
}
