//! Paths and patterns of Files-11 volumes: what a path means, the names that a pattern matches, the order of a listing, and the picked versions.
#![tactic(auto)]

mod bad;
mod files;
mod folders;
mod laws;
mod matching;
mod numbers;
mod order;
mod parts;
mod paths;
mod patterns;
mod picking;
mod steps;
mod versions;

pub use bad::BadPath;
pub use files::Files;
pub use folders::Folder;
pub use laws::{bad_says_nothing, says_one_thing};
pub use matching::matches;
pub use numbers::numbered_name;
pub use order::{Shown, compare, is_listing_order};
pub use paths::{Path, parse_path};
pub use patterns::{has_wildcard, is_pattern};
pub use picking::{Span, choose_span};
pub use steps::{Step, Steps, no_steps, read_step};
pub use versions::Versions;
