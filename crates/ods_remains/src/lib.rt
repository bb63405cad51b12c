//! Headers that are still present on an image, whether an index file knows them or not, and the files that they describe.
#![tactic(auto)]

mod candidates;
mod deleted;
mod deletions;
mod former;
mod fronts;
mod idents;
mod keys;
mod left;
mod nearest;
mod scan;
mod scanned;
mod shares;
mod summary;
mod twice;

pub use candidates::is_candidate;
pub use deleted::deleted_header;
pub use deletions::{deleted_file, deleted_files, is_deleted_file};
pub use former::DeletedFile;
pub use idents::{ident_word, name_in};
pub use scan::Scan;
pub use scanned::Scanned;
pub use shares::Shares;
pub use summary::Summary;
