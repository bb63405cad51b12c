//! The effect of requests on a volume's blocks: each request is a draft of changes, proved to carry the request out, or a true refusal.
#![tactic(auto)]

mod beginning;
mod block_changes;
mod create_file;
mod delete_file;
mod drafts;
mod enter_behind;
mod enter_name;
mod enter_within;
mod entry;
mod extend_file;
mod growing;
mod known_end;
mod truncate_file;

pub use beginning::{Drafted, grow_headers};
pub use block_changes::{remove, set_user, write};
pub use create_file::create;
pub use delete_file::delete;
pub use enter_name::enter;
pub use extend_file::extend;
pub use truncate_file::truncate;
