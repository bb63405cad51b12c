//! Changes of a sound volume that no request makes: a file's owner, protection or characteristics, the volume's label, and bits of the storage
//! bitmap.
#![tactic(auto)]

mod access;
mod bits;
mod header;
mod label;
mod opening;
mod runs;

pub use access::{draft_access, draft_protection, set_owner, set_protection};
pub use bits::draft_marks;
pub use label::{draft_label, set_label};
pub use opening::may_give;
pub use runs::{free_below, lowest_run};
