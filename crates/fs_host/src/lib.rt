//! The host of `f11fs`: images that are locked, changed and saved as a whole, new files, and the streams. It also provides the local time, and
//! keeps the output of commands until the end of a run. No contract can state what a host file or a stream returns or receives. Clauses state the
//! results for values, and for the bytes of a known reader or writer. `tests/fs_changes` and `tests/fs_faults` check the calls of the host on the
//! built program.
#![tactic(auto)]

mod collecting;
mod comparing_bytes;
mod containers;
mod faults;
mod floppies;
mod hidden_file;
mod holders;
mod holes;
mod host_fault;
mod host_tree;
mod host_zone;
mod in_use;
mod layers;
mod local_time;
mod looking;
mod loop_devices;
mod marks;
mod names;
mod new_file;
mod noting;
mod proc_texts;
mod reading;
mod saving;
mod shown;
mod sought;
mod streams;
mod watch;
mod whole_blocks;
mod writing;

pub use collecting::{Collecting, most_printed};
pub use containers::Extent;
pub use faults::{SaveFault, Unfinished};
pub use floppies::{Floppy, write_ordered};
pub use holders::Holder;
pub use host_fault::HostFault;
pub use host_tree::{TreeEntry, TreeKind, list_tree};
pub use host_zone::HostZone;
pub use layers::{Layered, Layers, ReadFault, layered_in};
pub use local_time::stamp_of_now;
pub use names::end_of_links;
pub use new_file::NewFile;
pub use noting::Noting;
pub use reading::{read_host, read_some};
pub use saving::Locked;
pub use shown::Shown;
pub use streams::hold_streams;
pub use whole_blocks::read_cut_image;
pub use writing::write_new;
