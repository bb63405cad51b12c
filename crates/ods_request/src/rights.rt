//! Access rights: the rights that a file's protection word grants to a user.
ghost use Rattle.std.specs.Prelude.{◌≡◌, ◌+◌, ◌≤◌, ◌==◌};
ghost use Rattle.std.specs.Int.{bit_at};
ghost use Rattle.ods_request.specs.Rights.{permits as is_permitted, right_bit};

use ods_base::Uic;

/// A right of a user to a file, in the order of the bits of one class.
#[derive(Clone, Copy, PartialEq, Eq, Debug)]
pub enum Right {
    /// To read its blocks, or to look up and list the names of a directory.
    Read,
    /// To write its blocks, to set its user attributes, or to enter and remove names of a directory.
    Write,
    /// To extend or truncate it.
    Extend,
    /// To delete it.
    Delete,
}

/// Whether the bit of a right is clear among the four bits that begin at `first`.
fn grants(protection: u16, first: u32, right: Right) -> bool
    requires { first ≤ 12 }
    ensures { result ≡ (bit_at protection (first + right_bit right) == 0) }
{
    let place = first
        + match right {
            Right::Read => 0,
            Right::Write => 1,
            Right::Extend => 2,
            Right::Delete => 3,
        };
    (protection >> place) % 2 == 0
}

/// Returns whether a protection word grants a right to a user. The right is granted if at least one class of the user has a clear bit. The classes
/// are the system (a group of at most 10 octal), the owner, the owner's group, and the world.
#[tactic(auto, unfolding(crate::specs::Rights::permits))]
pub fn permits(who: &Uic, owner: &Uic, protection: u16, right: Right) -> bool
    ensures { result ≡ is_permitted who.now owner.now protection right }
{
    let same_group = who.group == owner.group;
    let same_user = same_group && who.member == owner.member;
    (who.group <= 8 && grants(protection, 0, right))
        || (same_user && grants(protection, 4, right))
        || (same_group && grants(protection, 8, right))
        || grants(protection, 12, right)
}
