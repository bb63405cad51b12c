//! Texts: decimal and octal numbers, users, and splitting at a byte.
#![tactic(auto)]

mod cuts;
mod decimal;
mod octal;
mod users;

pub use cuts::{cut_at, cut_last, has_byte, is_text, place_of};
pub use decimal::{read_decimal, read_large, read_small};
pub use octal::read_octal;
pub use users::{read_user, read_user_in_brackets};
