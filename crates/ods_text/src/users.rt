//! Users, by group and member.
ghost use Rattle.std.specs.Prelude.{◌≡◌, ℕ, List, [], ◌∷◌, ◌++◌, MatchOption};
ghost use Rattle.ods_text.specs.One.{IsTheOne};
ghost use Rattle.ods_text.specs.Users.{IsUser, IsUserInBrackets};

use crate::{cut_at, read_octal};

/// Parses a user as `g,m`: group and member in octal, with a comma between them. Returns `None` if the text is not a valid user.
pub fn read_user(text: &[u8]) -> Option<(u8, u8)>
    ensures { IsTheOne (IsUser text.now) result }
{
    let (front, back) = cut_at(b',', text)?;
    let group = read_octal(front)?;
    let member = read_octal(back)?;
    Some((group, member))
}

/// Parses a user in brackets, such as `[1,2]`: group and member in octal. Returns `None` if the text is not such a user.
pub fn read_user_in_brackets(text: &[u8]) -> Option<(u8, u8)>
    ensures { IsTheOne (IsUserInBrackets text.now) result }
{
    let inner = strip_brackets(text)?;
    read_user(inner)
}

/// What stands between the brackets.
fn strip_brackets(text: &[u8]) -> Option<&[u8]>
    ensures { MatchOption result ((i : List ℕ) → text.now ≡ 91 ∷ (i ++ 93 ∷ []) → ⊥) (λ i. text.now ≡ 91 ∷ (i.now ++ 93 ∷ [])) }
{
    match text {
        [b'[', inner @ .., b']'] => Some(inner),
        _ => None,
    }
}
