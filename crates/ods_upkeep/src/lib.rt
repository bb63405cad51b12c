//! The changing commands of `f11fs` on a volume: which files their paths select, and which requests they make.
//! The clauses state exactly which requests each command makes, and that each refusal has a true reason. For a refused `put` they do not:
//! `tests/fs_changes` checks it on the built program.
#![tactic(auto)]

mod appending;
mod asked;
mod asking;
mod attributes;
mod copying;
mod copying_from;
mod copying_tree;
mod directories;
mod failure;
mod giving;
mod hidden;
mod host_names;
mod keeping;
mod laws;
mod like_files;
mod looking;
mod meant;
mod moving;
mod names;
mod on_the_way;
mod own_files;
mod owners;
mod parts;
mod purging;
mod put_fault;
mod putting;
mod putting_tree;
mod readying;
mod removing;
mod replaced;
mod rooms;
mod sources;
mod target;
mod targets;
mod tree_names;
mod truncating;
mod untarring;
mod untarring_directories;
mod versions;
mod written;

pub use appending::{append_bytes, open_end, room_behind};
pub use asked::{CopyFrom, HostFile, Placing, PutForm, Removal};
pub use copying::copy_files;
pub use copying_from::copy_from;
pub use copying_tree::copy_tree_from;
pub use directories::{is_below_another, make_directories, remove_directories};
pub use failure::{Failure, Why};
pub use giving::{Access, give_access, give_owner, give_protection};
pub use laws::{
    append_puts_behind, copied_is_there, copied_tree_is_there, copies_are_there, copy_is_there,
    get_gives_what_was_put, kept_comes_back, leaf_comes_back, mv_there_and_back, rm_undoes_put,
    tree_comes_back,
};
pub use moving::move_names;
pub use purging::purge_files;
pub use put_fault::PutFault;
pub use putting::Putting;
pub use putting_tree::{TreeForm, make_folders, put_leaf, tree_root};
pub use readying::make_ready;
pub use removing::remove_files;
pub use tree_names::judge_path;
pub use truncating::truncate_file;
pub use untarring::{Packed, untar_file};
pub use untarring_directories::{PackedDirectory, untar_directory};
